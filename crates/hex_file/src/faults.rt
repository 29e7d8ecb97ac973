// Why a file has no image.
use std::alloc::AllocError;

/// Why a file has no image. Lines are numbered from 1, empty ones counted.
#[derive(Clone, Copy, Debug, PartialEq, Eq)]
pub enum HexFault {
    /// This line doesn't begin with a colon, or has another byte than hexadecimal digits after it.
    BadChar(u32),
    /// This line has an odd number of digits, fewer than five bytes, or another number of bytes than it tells,
    /// or its type asks for another number of data bytes.
    BadLength(u32),
    /// This line's check byte is `got` in place of `want`.
    BadSum { line: u32, got: u8, want: u8 },
    /// This line's type is above 05.
    BadType { line: u32, kind: u8 },
    /// This line's upper address isn't 0, or its data goes past FFFFh.
    OutOfRange(u32),
    /// This line gives the byte at this address, in bytes, another value than an earlier line does.
    Clash { line: u32, address: u16 },
    /// There is no end record.
    NoEnd,
    /// This line isn't empty and stands after the end record.
    AfterEnd(u32),
    /// Out of memory.
    Memory,
}

impl From<AllocError> for HexFault {
    ghost use Rattle.std.specs.Prelude.{◌≡◌};
    ghost use Rattle.hex_file.specs.declared.faults.HexFault.TheVariants.{Memory};

    ghost from_gives = { λ _ fault. fault ≡ Memory };

    fn from(_error: AllocError) -> HexFault {
        HexFault::Memory
    }
}
