// What a run saves of what it interrupted, and where it finds it again.
ghost use Rattle.std.specs.Prelude.{◌≡◌, ◌≤◌, ◌<◌, ◌++◌, OnOk};
ghost use Rattle.std.specs.Option.{ForSome};
ghost use Rattle.pic_regs.specs.Places.{IsPlace};
ghost use Rattle.scratch_commit.specs.Deeds.{DoesMore};
ghost use Rattle.scratch_commit.specs.Frames.{FrameNamed, bringing, bringing_back, byte_of_frame, frame_of, saving, saving_context, saving_enables, unmasking, wanted as wanted_place};

use crate::kinds::Kind;
use crate::masks::{Masks, Saved, unmask_bit, unmask_register};
use bank_alloc::Places;
use glue_parts::{Context, SAVED_PCLATH, SAVED_STATUS, Stretch, frame_byte};
use pic_isa::bits::{INTE, PEIE, T0IE};
use pic_regs::Place;
use std::alloc::AllocError;

/// Where a run finds again what was saved of what it interrupted; None where a register isn't saved, since it can't differ there.
#[derive(Clone, Copy, Debug, PartialEq, Eq)]
pub struct Frame {
    pub status: Option<Place>,
    pub pclath: Option<Place>,
    pub intcon: Option<Place>,
    pub pie1: Option<Place>,
    pub pie2: Option<Place>,
}

/// The bytes of a level's frame, by their numbers.
const STATUS_BYTE: u8 = 1;

const PCLATH_BYTE: u8 = 2;

const INTCON_BYTE: u8 = 3;

const PIE1_BYTE: u8 = 4;

const PIE2_BYTE: u8 = 5;

// The place, where it is wanted.
fn wanted(is_wanted: bool, place: Place) -> Option<Place>
    ensures { result ≡ wanted_place is_wanted place }
{
    if is_wanted { Some(place) } else { None }
}

// Copies a register to the place where it is found again, if there is one.
fn save(lines: &mut Stretch, register: Place, place: Option<Place>) -> Result<(), AllocError>
    requires register { IsPlace register }
    requires named { ForSome place IsPlace }
    ensures { OnOk result (DoesMore lines.old (saving register place) lines.new) }
{
    match place {
        Some(place) => lines.copy(register, place),
        None => Ok(()),
    }
}

// Copies it back.
fn bring(lines: &mut Stretch, register: Place, place: Option<Place>) -> Result<(), AllocError>
    requires register { IsPlace register }
    requires named { ForSome place IsPlace }
    ensures { OnOk result (DoesMore lines.old (bringing register place) lines.new) }
{
    match place {
        Some(place) => lines.copy(place, register),
        None => Ok(()),
    }
}

impl Frame {
    // The frame of a run of this level, which is at least 1, that has to save these registers of enables.
    pub(crate) fn new(
        kind: Kind,
        level: u8,
        places: &Places,
        context: Context,
        saved: Saved,
    ) -> Frame
        requires from_one { 1 ≤ level }
        requires placed { level ≤ places.now.need.levels }
        ensures { result ≡ frame_of kind level places.now.need context saved }
    {
        let (status, pclath) = match kind {
            Kind::Middle => (
                frame_byte(places, level, STATUS_BYTE),
                frame_byte(places, level, PCLATH_BYTE),
            ),
            _ => (SAVED_STATUS, SAVED_PCLATH),
        };
        let is_over_runs = kind != Kind::Bottom;
        Frame {
            status: wanted(is_over_runs && context.status, status),
            pclath: wanted(is_over_runs && context.pclath, pclath),
            intcon: wanted(saved.intcon, frame_byte(places, level, INTCON_BYTE)),
            pie1: wanted(saved.pie1, frame_byte(places, level, PIE1_BYTE)),
            pie2: wanted(saved.pie2, frame_byte(places, level, PIE2_BYTE)),
        }
    }

    // Saves what the taking has put into common bytes, where a run of this kind may be interrupted and interrupts others.
    pub(crate) fn save_context(&self, kind: Kind, lines: &mut Stretch) -> Result<(), AllocError>
        requires { FrameNamed self.now }
        ensures { OnOk result (DoesMore lines.old (saving_context kind self.now) lines.new) }
    {
        if kind != Kind::Middle {
            return Ok(());
        }
        save(lines, SAVED_STATUS, self.status)?;
        save(lines, SAVED_PCLATH, self.pclath)
    }

    // Saves the registers of enables.
    pub(crate) fn save_enables(&self, lines: &mut Stretch) -> Result<(), AllocError>
        requires { FrameNamed self.now }
        ensures { OnOk result (DoesMore lines.old (saving_enables self.now) lines.new) }
    {
        save(lines, Place::Intcon, self.intcon)?;
        save(lines, Place::Pie1, self.pie1)?;
        save(lines, Place::Pie2, self.pie2)
    }

    // Sets the enables that were cleared as they were in what was interrupted, by constants or as they were saved.
    pub(crate) fn unmask(&self, masks: &Masks, lines: &mut Stretch) -> Result<(), AllocError>
        requires { FrameNamed self.now }
        ensures { OnOk result (DoesMore lines.old (unmasking masks.now self.now) lines.new) }
    {
        unmask_register(lines, Place::Pie1, masks.pie1, self.pie1)?;
        unmask_register(lines, Place::Pie2, masks.pie2, self.pie2)?;
        unmask_bit(lines, T0IE, masks.intcon, self.intcon)?;
        unmask_bit(lines, INTE, masks.intcon, self.intcon)?;
        unmask_bit(lines, PEIE, masks.intcon, self.intcon)
    }

    // Brings PCLATH and STATUS back.
    pub(crate) fn bring_back(&self, lines: &mut Stretch) -> Result<(), AllocError>
        requires { FrameNamed self.now }
        ensures { OnOk result (DoesMore lines.old (bringing_back self.now) lines.new) }
    {
        bring(lines, Place::Pclath, self.pclath)?;
        bring(lines, Place::Status, self.status)
    }
}
