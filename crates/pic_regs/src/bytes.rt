// Operations on bytes, bit by bit.

ghost use Rattle.std.specs.Prelude.{◌≡◌, ◌<◌, ◌&&◌, ◌||◌, not, if◌then◌else◌};
ghost use Rattle.pic_regs.specs.Bytes.{bit, bit_by_bit, bits, chosen, is_zero, share_a_bit, swapped, with_bit};

/// Bit by bit, `zero`'s bit where that of `choice` is 0, and `one`'s where it is 1.
pub fn select(choice: u8, zero: u8, one: u8) -> u8
    ensures { bits result ≡ chosen (bits choice) (bits zero) (bits one) }
{
    (zero & !choice) | (one & choice)
}

/// Bit by bit, 1 where both bytes have 1.
pub fn both(x: u8, y: u8) -> u8
    ensures { bits result ≡ bit_by_bit (λ p q. p && q) (bits x) (bits y) }
{
    x & y
}

/// Bit by bit, 1 where one of the bytes has 1, or both.
pub fn either(x: u8, y: u8) -> u8
    ensures { bits result ≡ bit_by_bit (λ p q. p || q) (bits x) (bits y) }
{
    x | y
}

/// Bit by bit, 1 where just one of the bytes has 1.
pub fn differing(x: u8, y: u8) -> u8
    ensures { bits result ≡ bit_by_bit (λ p q. if p then not q else q) (bits x) (bits y) }
{
    x ^ y
}

/// Bit by bit, 1 where the byte has 0.
pub fn complement(byte: u8) -> u8
    ensures { bits result ≡ bit_by_bit (λ p q. not p) (bits byte) (bits byte) }
{
    !byte
}

/// The byte with its halves exchanged.
pub fn swap_halves(byte: u8) -> u8
    ensures { bits result ≡ swapped (bits byte) }
{
    byte % 16 * 16 + byte / 16
}

/// A bit of a byte, 0 to 7.
pub fn bit_is_set(byte: u8, number: u8) -> bool
    requires { number < 8 }
    ensures { result ≡ bit number (bits byte) }
{
    (byte >> number) & 1 == 1
}

/// The byte with one bit, 0 to 7, made what is given.
pub fn set_bit(byte: u8, number: u8, value: bool) -> u8
    requires { number < 8 }
    ensures { bits result ≡ with_bit number value (bits byte) }
{
    let choice = 1 << number;
    if value {
        select(choice, byte, 0xFF)
    } else {
        select(choice, byte, 0x00)
    }
}

/// The byte is 00h.
pub fn has_no_bit(byte: u8) -> bool
    ensures { result ≡ is_zero (bits byte) }
{
    byte == 0
}

/// Some bit is 1 in both bytes.
pub(crate) fn have_a_bit_in_common(x: u8, y: u8) -> bool
    ensures { result ≡ share_a_bit (bits x) (bits y) }
{
    !has_no_bit(both(x, y))
}
