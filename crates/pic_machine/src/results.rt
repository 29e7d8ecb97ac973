// Results and their flags, by the data sheet's rules.
ghost use Rattle.std.specs.Prelude.{◌≡◌};
ghost use Rattle.pic_regs.specs.Bytes.{bits, is_zero};
ghost use Rattle.pic_machine.specs.Results.{All, minus, one_less, one_more, plus, turned_left, turned_right};
ghost use Rattle.pic_machine.specs.Results.{just as untested, tested as zero_tested};
ghost use Rattle.pic_machine.specs.State.{outcome_of};

use crate::outcomes::{Flags, Outcome};
use pic_regs::bytes::{bit_is_set, has_no_bit};

// A byte that gives no flags.
pub(crate) fn just(byte: u8) -> Outcome
    ensures { outcome_of result ≡ untested (bits byte) }
{
    Outcome {
        byte,
        flags: Flags::Same,
    }
}

// A byte that gives Z.
pub(crate) fn tested(byte: u8) -> Outcome
    ensures { outcome_of result ≡ zero_tested (bits byte) }
{
    Outcome {
        byte,
        flags: Flags::Zero(has_no_bit(byte)),
    }
}

// A byte that gives C, DC and Z.
fn with_all_flags(byte: u8, carry: bool, digit_carry: bool) -> Outcome
    ensures { outcome_of result
        ≡ record { byte = bits byte; flags = All carry digit_carry (is_zero (bits byte)) } }
{
    Outcome {
        byte,
        flags: Flags::All {
            carry,
            digit_carry,
            zero: has_no_bit(byte),
        },
    }
}

// The low eight bits of a number.
pub(crate) fn low_byte(number: u16) -> u8
    ensures { bits result ≡ bits number }
{
    (number % 256) as u8
}

// x + y, with C the carry out of bit 7 and DC that out of bit 3.
pub(crate) fn sum(x: u8, y: u8) -> Outcome
    ensures { outcome_of result ≡ plus (bits x) (bits y) }
{
    let whole = u16::from(x) + u16::from(y);
    with_all_flags(low_byte(whole), whole > 255, x % 16 + y % 16 > 15)
}

// x - y, with C and DC set where there was no borrow, of the whole and of the lower half.
pub(crate) fn difference(x: u8, y: u8) -> Outcome
    ensures { outcome_of result ≡ minus (bits x) (bits y) }
{
    let whole = u16::from(x) + 256 - u16::from(y);
    with_all_flags(low_byte(whole), y <= x, y % 16 <= x % 16)
}

// The byte after this one, around 256.
pub(crate) fn increment(byte: u8) -> u8
    ensures { bits result ≡ one_more (bits byte) }
{
    low_byte(u16::from(byte) + 1)
}

// The byte before this one, around 256.
pub(crate) fn decrement(byte: u8) -> u8
    ensures { bits result ≡ one_less (bits byte) }
{
    low_byte(u16::from(byte) + 255)
}

// A byte turned left by one, with a bit that comes in at the right.
fn shifted_left(byte: u8, low: bool) -> u8
    ensures { bits result ≡ (turned_left low (bits byte)).byte }
{
    byte % 128 * 2 + u8::from(low)
}

// A byte turned right by one, with a bit that comes in at the left.
fn shifted_right(byte: u8, high: bool) -> u8
    ensures { bits result ≡ (turned_right high (bits byte)).byte }
{
    byte / 2 + 128 * u8::from(high)
}

// The nine bits of C and a byte turned left by one.
pub(crate) fn rotated_left(carry: bool, byte: u8) -> Outcome
    ensures { outcome_of result ≡ turned_left carry (bits byte) }
{
    Outcome {
        byte: shifted_left(byte, carry),
        flags: Flags::Carry(bit_is_set(byte, 7)),
    }
}

// The nine bits of C and a byte turned right by one.
pub(crate) fn rotated_right(carry: bool, byte: u8) -> Outcome
    ensures { outcome_of result ≡ turned_right carry (bits byte) }
{
    Outcome {
        byte: shifted_right(byte, carry),
        flags: Flags::Carry(bit_is_set(byte, 0)),
    }
}
