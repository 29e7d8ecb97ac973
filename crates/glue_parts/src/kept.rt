// The bytes that glue keeps: those that all levels share, in each bank, and those of a level's frame.

ghost use Rattle.std.specs.Prelude.{◌≡◌, ◌<◌, ◌≤◌};
ghost use Rattle.pic_regs.specs.declared.places.Place.TheVariants.{Plain};
ghost use Rattle.bank_alloc.specs.Addresses.{address_of};
ghost use Rattle.glue_parts.specs.Kept.{frame_cell};

use bank_alloc::Places;
use pic_regs::Place;

/// STATUS of what was interrupted last.
pub const SAVED_STATUS: Place = Place::Plain(0x071);

/// PCLATH of what was interrupted last.
pub const SAVED_PCLATH: Place = Place::Plain(0x072);

/// Its bit 0 is set where a run has committed since the run beneath it last began.
pub const REDO: Place = Place::Plain(0x073);

/// The bytes of a level's frame.
const FRAME_BYTES: u32 = 6;

/// A byte, 0 to 5, of the frame of a level, which is at least 1. It lies in bank 0. Takes no memory.
pub fn frame_byte(places: &Places, level: u8, byte: u8) -> Place
    requires from_one { 1 ≤ level }
    requires placed { level ≤ places.now.need.levels }
    requires six { byte < 6 }
    ensures { result ≡ Plain (address_of places.now.need (frame_cell places.now.need level byte)) }
{
    let need = places.needs();
    let before = need.states + need.scratch + FRAME_BYTES * u32::from(level - 1);
    Place::Plain(places.address(before + u32::from(byte)))
}
