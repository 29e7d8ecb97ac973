// What firmware uses, and whether it may write a register.
ghost use Rattle.std.specs.Prelude.{◌≡◌, ◌≤◌};
ghost use Rattle.std.specs.List.{list_any};
ghost use Rattle.frp_tree.specs.declared.syntax.Output.{Output as AnyOutput};
ghost use Rattle.pic_isa.specs.Names.{port_at, register_at};
ghost use Rattle.bank_alloc.specs.Needs.{bytes_of};
ghost use Rattle.firmware_promises.specs.Firmware.{is_at, is_port_at};
ghost use Rattle.scratch_commit.specs.Frames.{is_byte as byte_at, is_in_frame};
ghost use Rattle.firmware_map.specs.Written.{is_cell, is_common as common_at, is_named, is_of_event, is_of_name, is_of_run, is_of_source, is_output, is_set_up, is_written, program_of, used_by};

use bank_alloc::Places;
use causality::Checked;
use frp_tree::{Event, Output, Setup};
use pic_isa::registers::{INTCON, PCLATH, PORTA, STATUS};
use pic_isa::{Source, port_named, register_named, source_named};
use pic_regs::Place;
use scratch_commit::Frame;

/// What the firmware of a program uses: the places of its cells, the frame of each event's run, how many of the cells are those of
/// states or of some work, and whether it has page settings.
#[derive(Clone, Copy, Debug)]
pub struct Uses<'a> {
    pub c: &'a Checked,
    pub places: &'a Places,
    pub frames: &'a [Frame],
    pub cells: u32,
    pub pages: bool,
}

// Whether firmware of each program may write the register.
fn is_common(pages: bool, address: u16) -> bool
    ensures { result ≡ common_at pages address }
{
    address == u16::from(STATUS)
        || address == u16::from(INTCON)
        || (pages && address == u16::from(PCLATH))
        || (0x071 <= address && address <= 0x07F)
}

fn sets_up(setup: &Setup, address: u16) -> bool
    ensures { result ≡ is_at address (register_at setup.now.register) }
{
    match register_named(setup.register.as_str()) {
        Some(register) => address == register,
        None => false,
    }
}

fn shows_at(output: &Output, address: u16) -> bool
    ensures { result ≡ is_port_at address (port_at output.now.port) }
{
    match port_named(output.port.as_str()) {
        Some(port) => address == u16::from(PORTA) + u16::from(port),
        None => false,
    }
}

fn shows_one_at(outputs: &[Output], address: u16) -> bool
    ensures { result ≡ list_any (λ (o : AnyOutput). is_port_at address (port_at o.port)) outputs.now }
{
    outputs.iter().any(|output| shows_at(output, address))
}

// Whether the source has its flag or its enable at the address.
fn has_bit_at(source: Source, address: u16) -> bool
    ensures { result ≡ is_of_source address source }
{
    address == source.flag().address || address == source.enable().address
}

fn hears_at(event: &Event, address: u16) -> bool
    ensures { result ≡ is_of_name address event.now.source }
{
    match source_named(event.source.as_str()) {
        Some(source) => has_bit_at(source, address),
        None => false,
    }
}

fn is_byte(place: Option<Place>, address: u16) -> bool
    ensures { result ≡ byte_at address place }
{
    match place {
        Some(Place::Plain(at)) => address == at,
        _ => false,
    }
}

fn has_byte(frame: &Frame, address: u16) -> bool
    ensures { result ≡ is_in_frame frame.now address }
{
    is_byte(frame.status, address)
        || is_byte(frame.pclath, address)
        || is_byte(frame.intcon, address)
        || is_byte(frame.pie1, address)
        || is_byte(frame.pie2, address)
}

impl Uses<'_> {
    fn sets_up(&self, address: u16) -> bool
        ensures { result ≡ is_set_up (program_of self.now) address }
    {
        let setups = self.c.typed().program().setups.as_slice();
        setups.iter().any(|setup| sets_up(setup, address))
    }

    fn shows_at(&self, address: u16) -> bool
        ensures { result ≡ is_output (program_of self.now) address }
    {
        shows_one_at(self.c.typed().program().outputs.as_slice(), address)
    }

    fn hears_at(&self, address: u16) -> bool
        ensures { result ≡ is_of_event (program_of self.now) address }
    {
        let events = self.c.typed().program().events.as_slice();
        events.iter().any(|event| hears_at(event, address))
    }

    // Whether a run saves something at the address.
    fn saves_at(&self, address: u16) -> bool
        ensures { result ≡ is_of_run (used_by self.now) address }
    {
        self.frames.iter().any(|frame| has_byte(frame, address))
    }

    // Whether one of the cells has the address.
    fn is_cell(&self, address: u16) -> bool
        requires { self.now.cells ≤ bytes_of self.now.places.now.need }
        ensures { result ≡ is_cell (used_by self.now) address }
    {
        for cell in 0..self.cells {
            if self.places.address(cell) == address {
                return true;
            }
        }
        false
    }

    // Whether it may write the register whatever its code.
    fn names(&self, address: u16) -> bool
        ensures { result ≡ is_named (program_of self.now) self.now.pages address }
    {
        is_common(self.pages, address)
            || self.sets_up(address)
            || self.shows_at(address)
            || self.hears_at(address)
    }

    // Whether the firmware may write the register whose lowest address this is.
    pub(crate) fn is_written(&self, address: u16) -> bool
        requires { self.now.cells ≤ bytes_of self.now.places.now.need }
        ensures { result ≡ is_written (program_of self.now) (used_by self.now) address }
    {
        self.names(address) || self.saves_at(address) || self.is_cell(address)
    }
}
