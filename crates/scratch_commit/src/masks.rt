// The enables that a run clears, and how they are set again.
ghost use Rattle.std.specs.Prelude.{◌≡◌, ◌<◌, ◌≤◌, ◌∷◌, [], OnOk};
ghost use Rattle.std.specs.Option.{ForSome};
ghost use Rattle.frp_tree.specs.Tree.{ProgramTree};
ghost use Rattle.pic_regs.specs.Places.{IsPlace};
ghost use Rattle.priority_masks.specs.Levels.{AreLevelsOf};
ghost use Rattle.scratch_commit.specs.Deeds.{DoesMore, SetIf};
ghost use Rattle.scratch_commit.specs.Masks.{AreHeard, mask_bit as bit_masked, masked, masking, masks_of, no_masks, saved_of, set_again, unmask_bit as bit_unmasked, unmask_register as register_unmasked, unmasked, were_set as are_sure};

use glue_parts::{Stretch, heard_at};
use glue_steps::Line;
use pic_isa::bits::{INTE, PEIE, T0IE};
use pic_regs::Place;
use pic_regs::bytes::{bit_is_set, both, complement, differing, has_no_bit};
use priority_masks::{Enables, Levels};
use std::alloc::AllocError;

// The enables at idle, at some level, and at the level beneath it, where the events of the level are heard too.
#[derive(Clone, Copy, Debug, PartialEq, Eq)]
pub(crate) struct Heard {
    pub(crate) idle: Enables,
    pub(crate) own: Enables,
    pub(crate) beneath: Enables,
}

// A register of enables at some level: the bits that a run of the level clears, what the register holds in the run's work, and what
// it holds at the level beneath.
#[derive(Clone, Copy, Debug, PartialEq, Eq)]
pub(crate) struct Masked {
    cleared: u8,
    own: u8,
    beneath: u8,
}

// The registers of enables at some level.
#[derive(Clone, Copy, Debug, PartialEq, Eq)]
pub(crate) struct Masks {
    pub(crate) intcon: Masked,
    pub(crate) pie1: Masked,
    pub(crate) pie2: Masked,
}

// Which registers of enables have to be saved.
#[derive(Clone, Copy, Debug, PartialEq, Eq)]
pub(crate) struct Saved {
    pub(crate) intcon: bool,
    pub(crate) pie1: bool,
    pub(crate) pie2: bool,
}

impl Heard {
    pub(crate) fn new(levels: &Levels, level: u8) -> Heard
        requires from_one { 1 ≤ level }
        requires to_all { level ≤ levels.now.count }
        ensures { (p : ProgramTree) → AreLevelsOf p levels.now → AreHeard p level result }
    {
        Heard {
            idle: heard_at(levels, 0),
            own: heard_at(levels, level),
            beneath: heard_at(levels, level - 1),
        }
    }
}

impl Masked {
    // None of its bits is cleared.
    fn none() -> Masked
        ensures { result ≡ unmasked }
    {
        Masked {
            cleared: 0x00,
            own: 0x00,
            beneath: 0x00,
        }
    }

    fn new(idle: u8, own: u8, beneath: u8) -> Masked
        ensures { result ≡ masked idle own beneath }
    {
        Masked {
            cleared: differing(idle, own),
            own,
            beneath,
        }
    }

    // Whether the bits that the run clears were set in whatever it interrupted, so that they need not be saved.
    fn were_set(self) -> bool
        ensures { result ≡ are_sure self }
    {
        has_no_bit(both(self.cleared, complement(self.beneath)))
    }
}

impl Masks {
    // No enable is cleared.
    pub(crate) fn none() -> Masks
        ensures { result ≡ no_masks }
    {
        Masks {
            intcon: Masked::none(),
            pie1: Masked::none(),
            pie2: Masked::none(),
        }
    }

    // The registers of enables where these are heard. Where PEIE is cleared, PIE1 and PIE2 stay as they are.
    pub(crate) fn new(heard: &Heard) -> Masks
        ensures { result ≡ masks_of heard.now }
    {
        let Heard { idle, own, beneath } = *heard;
        let intcon = Masked::new(idle.intcon, own.intcon, beneath.intcon);
        if !bit_is_set(own.intcon, PEIE) {
            return Masks {
                intcon,
                pie1: Masked::none(),
                pie2: Masked::none(),
            };
        }
        Masks {
            intcon,
            pie1: Masked::new(idle.pie1, own.pie1, beneath.pie1),
            pie2: Masked::new(idle.pie2, own.pie2, beneath.pie2),
        }
    }

    // The registers that have to be saved: not all their bits that are cleared were surely set.
    pub(crate) fn saved(&self) -> Saved
        ensures { result ≡ saved_of self.now }
    {
        Saved {
            intcon: !self.intcon.were_set(),
            pie1: !self.pie1.were_set(),
            pie2: !self.pie2.were_set(),
        }
    }

    // Clears the enables of the events at the level and beneath.
    pub(crate) fn mask(&self, lines: &mut Stretch) -> Result<(), AllocError>
        ensures { OnOk result (DoesMore lines.old (masking self.now) lines.new) }
    {
        mask_bit(lines, T0IE, self.intcon)?;
        mask_bit(lines, INTE, self.intcon)?;
        mask_bit(lines, PEIE, self.intcon)?;
        lines.change(Place::Pie1, self.pie1.cleared, self.pie1.own)?;
        lines.change(Place::Pie2, self.pie2.cleared, self.pie2.own)
    }
}

// Clears a bit of INTCON, 0 to 7, where it is one that is cleared.
fn mask_bit(lines: &mut Stretch, bit: u8, masked: Masked) -> Result<(), AllocError>
    requires { bit < 8 }
    ensures { OnOk result (DoesMore lines.old (bit_masked bit masked) lines.new) }
{
    if bit_is_set(masked.cleared, bit) {
        lines.add(Line::Bit(false, Place::Intcon, bit))?;
    }
    Ok(())
}

// Sets it again where it was set: surely, or where the byte that was saved says so.
pub(crate) fn unmask_bit(
    lines: &mut Stretch,
    bit: u8,
    masked: Masked,
    saved: Option<Place>,
) -> Result<(), AllocError>
    requires below { bit < 8 }
    requires named { ForSome saved IsPlace }
    ensures { OnOk result (DoesMore lines.old (bit_unmasked bit masked saved) lines.new) }
{
    if !bit_is_set(masked.cleared, bit) {
        return Ok(());
    }
    match saved {
        Some(place) if !bit_is_set(masked.beneath, bit) => set_if(lines, place, bit),
        _ => lines.add(Line::Bit(true, Place::Intcon, bit)),
    }
}

// Sets a bit of INTCON where that bit is set in a byte.
fn set_if(lines: &mut Stretch, place: Place, bit: u8) -> Result<(), AllocError>
    requires { IsPlace place }
    ensures { OnOk result (DoesMore lines.old (SetIf place bit ∷ []) lines.new) }
{
    lines.skip_if_clear(place, bit)?;
    lines.add(Line::Bit(true, Place::Intcon, bit))
}

// Sets the bits of PIE1 or PIE2 again: all that were cleared, or as the byte that was saved has them.
pub(crate) fn unmask_register(
    lines: &mut Stretch,
    register: Place,
    masked: Masked,
    saved: Option<Place>,
) -> Result<(), AllocError>
    requires register { IsPlace register }
    requires named { ForSome saved IsPlace }
    ensures { OnOk result (DoesMore lines.old (register_unmasked register masked saved ∷ []) lines.new) }
{
    match saved {
        Some(place) => lines.copy(place, register),
        None => lines.change(register, masked.cleared, masked.beneath),
    }
}
