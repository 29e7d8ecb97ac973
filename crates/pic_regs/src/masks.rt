// Which bits of a register exist, and which a write changes.

ghost use Rattle.std.specs.Prelude.{◌≡◌, ◌≢◌, ◌<◌};
ghost use Rattle.pic_regs.specs.Bytes.{Byte, bits, chosen, zeros};
ghost use Rattle.pic_regs.specs.Map.{Status, existing, over};
ghost use Rattle.pic_regs.specs.Places.{IsPlace, reg_of};

use crate::bytes::select;
use crate::places::Place;

// The bits of a register that exist, as ones. A write changes just these, but for those of STATUS.
pub(crate) fn existing_mask(place: Place) -> u8
    requires { IsPlace place }
    ensures exist { (x : Byte) → chosen (bits result) zeros x ≡ existing (reg_of place) x }
    ensures written { reg_of place ≢ Status → (old x : Byte) → chosen (bits result) old x ≡ over (reg_of place) old x }
{
    match place {
        Place::Pclath => 0x1F,
        Place::Pir1 => 0xCF,
        Place::Pir2 => 0x19,
        Place::Port(0) | Place::Tris(0) => 0x3F,
        Place::Port(4) => 0x07,
        Place::Tris(4) => 0xF7,
        _ => 0xFF,
    }
}

// The bits of a register that a write changes, as ones.
pub(crate) fn written_mask(place: Place) -> u8
    requires { IsPlace place }
    ensures { (old x : Byte) → chosen (bits result) old x ≡ over (reg_of place) old x }
{
    match place {
        Place::Status => 0xE7,
        _ => existing_mask(place),
    }
}

// What a register that holds this byte shows: 0 at each bit that does not exist.
pub(crate) fn existing_byte(place: Place, held: u8) -> u8
    requires { IsPlace place }
    ensures { bits result ≡ existing (reg_of place) (bits held) }
{
    select(existing_mask(place), 0x00, held)
}

// What a register holds once a byte is written over its old one.
pub(crate) fn written_byte(place: Place, old: u8, byte: u8) -> u8
    requires { IsPlace place }
    ensures { bits result ≡ over (reg_of place) (bits old) (bits byte) }
{
    select(written_mask(place), old, byte)
}
