// What a data address means.

ghost use Rattle.std.specs.Prelude.{◌≡◌, ◌/◌, ◌%◌, ◌<◌};
ghost use Rattle.pic_regs.specs.Map.{in_bank, lowest, reg_at, reg_in};
ghost use Rattle.pic_regs.specs.Map.{canonical as lowest_at};
ghost use Rattle.pic_regs.specs.Places.{IsPlace, reg_of};

use crate::places::Place;

// The registers of a bank, by the low seven bits of the address, but for those that are in each bank.
fn place_in_one_bank(bank: u8, f: u8) -> Place
    requires bank { bank < 4 }
    requires f { f < 128 }
    ensures place { reg_of result ≡ in_bank bank f }
    ensures in_range { IsPlace result }
{
    match (bank, f) {
        (0, 0x05..=0x09) => Place::Port(f - 0x05),
        (0, 0x0C) => Place::Pir1,
        (0, 0x0D) => Place::Pir2,
        (1, 0x05..=0x09) => Place::Tris(f - 0x05),
        (1, 0x0C) => Place::Pie1,
        (1, 0x0D) => Place::Pie2,
        (1, 0x0F | 0x10 | 0x15..=0x17 | 0x1A..=0x1D) => Place::Absent,
        (2, 0x01) => Place::Plain(0x001),
        (2, 0x06) => Place::Port(1),
        (2, 0x05 | 0x07..=0x09) => Place::Absent,
        (3, 0x01) => Place::Plain(0x081),
        (3, 0x06) => Place::Tris(1),
        (3, 0x05 | 0x07..=0x09 | 0x0E | 0x0F) => Place::Absent,
        _ => Place::Plain(128 * u16::from(bank) + u16::from(f)),
    }
}

/// What the low seven bits of an address mean in a bank, 0 to 3.
pub fn place_in(bank: u8, f: u8) -> Place
    requires bank { bank < 4 }
    requires f { f < 128 }
    ensures place { reg_of result ≡ reg_in bank f }
    ensures in_range { IsPlace result }
{
    match f {
        0x00 => Place::Indf,
        0x02 => Place::Pcl,
        0x03 => Place::Status,
        0x04 => Place::Fsr,
        0x0A => Place::Pclath,
        0x0B => Place::Intcon,
        0x70..=0x7F => Place::Plain(u16::from(f)),
        _ => place_in_one_bank(bank, f),
    }
}

/// What a data address, below 512, means.
pub fn place_at(address: u16) -> Place
    requires { address < 512 }
    ensures place { reg_of result ≡ reg_at address }
    ensures in_range { IsPlace result }
{
    place_in((address / 128) as u8, (address % 128) as u8)
}

/// The lowest address of a register, and None where there is no register.
pub fn lowest_address(place: Place) -> Option<u16>
    requires { IsPlace place }
    ensures { result ≡ lowest (reg_of place) }
{
    let address = match place {
        Place::Absent => return None,
        Place::Indf => 0x000,
        Place::Pcl => 0x002,
        Place::Status => 0x003,
        Place::Fsr => 0x004,
        Place::Pclath => 0x00A,
        Place::Intcon => 0x00B,
        Place::Pir1 => 0x00C,
        Place::Pir2 => 0x00D,
        Place::Pie1 => 0x08C,
        Place::Pie2 => 0x08D,
        Place::Port(n) => 0x005 + u16::from(n),
        Place::Tris(n) => 0x085 + u16::from(n),
        Place::Plain(address) => address,
    };
    Some(address)
}

/// The lowest address of the register at a data address, below 512; None exactly for addresses that are not
/// implemented. The registers and their mirrors are those of the data sheet's register file map; 18Eh and
/// 18Fh, which it reserves, count as not implemented.
pub fn canonical(address: u16) -> Option<u16>
    requires { address < 512 }
    ensures { result ≡ lowest_at address }
{
    lowest_address(place_at(address))
}
