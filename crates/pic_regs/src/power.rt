// The registers at power-on.

ghost use Rattle.std.specs.Prelude.{◌≡◌, ◌<◌, IfSome};
ghost use Rattle.pic_regs.specs.Bytes.{bits};
ghost use Rattle.pic_regs.specs.Start.{plain_start, registers_on, special_start};
ghost use Rattle.pic_regs.specs.Start.{ram_place as its_place};
ghost use Rattle.pic_regs.specs.State.{memory_of, registers_of};

use crate::bytes::select;
use crate::starts::Start;
use crate::state::Regs;

// The place of a byte of general RAM among the 368, by its lowest address; None for other addresses.
fn ram_place(address: u16) -> Option<u16>
    ensures place { result ≡ its_place address }
    ensures in_range { IfSome result (λ place. place < 368) }
{
    match address {
        0x020..=0x07F => Some(address - 0x020),
        0x0A0..=0x0EF => Some(address - 0x0A0 + 96),
        0x110..=0x16F => Some(address - 0x110 + 176),
        0x190..=0x1EF => Some(address - 0x190 + 272),
        _ => None,
    }
}

// A plain byte at power-on: one of general RAM is the start's, OPTION_REG and PR2 are FFh, others 0.
fn plain_byte(start: &Start, address: u16) -> u8
    ensures { bits result ≡ plain_start start.now address }
{
    match ram_place(address) {
        Some(place) => start.ram[usize::from(place)],
        None => special_byte(address),
    }
}

// A special register that is a plain byte, at power-on.
fn special_byte(address: u16) -> u8
    ensures { bits result ≡ special_start address }
{
    if address == 0x081 || address == 0x092 {
        0xFF
    } else {
        0x00
    }
}

// All plain bytes at power-on.
fn plain_bytes(start: &Start) -> [u8; 512]
    ensures { memory_of 0x00 result ≡ plain_start start.now }
{
    let mut plain = [0; 512];
    for address in 0..512u16 {
        plain[usize::from(address)] = plain_byte(start, address);
    }
    plain
}

impl Regs {
    /// The registers at power-on: general RAM and the flags Z, DC and C are the start's, TRISA is 3Fh, TRISB,
    /// TRISC and TRISD are FFh, TRISE is 07h, OPTION_REG and PR2 are FFh, TO and PD are 1, and all else is 0.
    pub fn power_on(start: &Start) -> Regs
        ensures { registers_of result ≡ registers_on start.now }
    {
        Regs {
            status: select(0x07, 0x18, start.flags),
            fsr: 0x00,
            pclath: 0x00,
            intcon: 0x00,
            pir1: 0x00,
            pir2: 0x00,
            pie1: 0x00,
            pie2: 0x00,
            latch: [0x00; 5],
            tris: [0x3F, 0xFF, 0xFF, 0xFF, 0x07],
            pins: [0x00; 5],
            plain: plain_bytes(start),
        }
    }
}
