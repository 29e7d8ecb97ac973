// Where a result goes: W, a register, STATUS, a port or the program counter.
ghost use Rattle.std.specs.Prelude.{◌≡◌, Some};
ghost use Rattle.pic_regs.specs.Bytes.{bits};
ghost use Rattle.pic_regs.specs.Map.{Status};
ghost use Rattle.pic_regs.specs.Places.{IsPlace, reg_of};
ghost use Rattle.pic_regs.specs.Registers.{write};
ghost use Rattle.pic_machine.specs.Chip.{led};
ghost use Rattle.pic_machine.specs.Results.{flagged, gives, leaves, shown, status_byte, stored, written};
ghost use Rattle.pic_machine.specs.State.{cpu_of, done_of, flags_of, outcome_of};

use crate::cpu::Cpu;
use crate::effects::Effect;
use crate::outcomes::{Flags, Outcome};
use crate::steps::PortWrite;
use pic_isa::Dest;
use pic_regs::bytes::select;
use pic_regs::{Place, lowest_address};

// What a result puts into STATUS: its byte, or bits 7 to 5 alone where it gives flags.
fn byte_for_status(flags: Flags, byte: u8, status: u8) -> u8
    ensures { bits result ≡ status_byte (flags_of flags) (bits byte) (bits status) }
{
    match flags {
        Flags::Same => byte,
        _ => select(0xE0, status, byte),
    }
}

// The lowest address of a register as a destination: None where nothing is written, at INDF's own addresses
// too.
fn written_address(place: Place) -> Option<u16>
    requires { IsPlace place }
    ensures { result ≡ written (reg_of place) }
{
    match place {
        Place::Indf => None,
        _ => lowest_address(place),
    }
}

// What a byte stored in a register puts on a port.
fn port_write(place: Place, byte: u8) -> Option<PortWrite>
    ensures { result ≡ shown (reg_of place) (bits byte) }
{
    match place {
        Place::Port(port) => Some(PortWrite { port, byte }),
        _ => None,
    }
}

// What an instruction with no register as its destination did.
pub(crate) fn no_effect() -> Effect
    ensures { result ≡ record { wrote = None; port = None } }
{
    Effect {
        wrote: None,
        port: None,
    }
}

impl Cpu {
    fn set_flags(&mut self, flags: Flags)
        ensures { cpu_of self.new
            ≡ record (cpu_of self.old) { regs = flagged (flags_of flags) (cpu_of self.old).regs } }
    {
        match flags {
            Flags::Same => {}
            Flags::Zero(zero) => self.regs.set_zero(zero),
            Flags::Carry(carry) => self.regs.set_carry(carry),
            Flags::All {
                carry,
                digit_carry,
                zero,
            } => self.regs.set_three_flags(carry, digit_carry, zero),
        }
    }

    // Goes where a byte written to PCL leads: to the address of PCLATH's five bits and the byte.
    fn lead(&mut self, byte: u8)
        ensures { cpu_of self.new ≡ led (bits byte) (cpu_of self.old) }
    {
        self.pc = 256 * u16::from(self.regs.read_place(Place::Pclath)) + u16::from(byte);
    }

    // Stores the byte of a result in STATUS, as far as it goes there.
    fn store_status(&mut self, outcome: Outcome)
        ensures { let status = (cpu_of self.old).regs.status in
            cpu_of self.new
            ≡ record (cpu_of self.old) {
              regs = write Status (status_byte (flags_of outcome.flags) (bits outcome.byte) status) (cpu_of self.old).regs;
            } }
    {
        let byte = byte_for_status(outcome.flags, outcome.byte, self.regs.status());
        self.regs.write_place(Place::Status, byte);
    }

    // Stores the byte of a result in a register, whose flags are still to come.
    fn store_byte(&mut self, place: Place, outcome: Outcome)
        requires { IsPlace place }
        ensures { record (cpu_of self.new) { regs = flagged (flags_of outcome.flags) (cpu_of self.new).regs }
            ≡ stored (reg_of place) (outcome_of outcome) (cpu_of self.old) }
    {
        match place {
            Place::Pcl => self.lead(outcome.byte),
            Place::Status => self.store_status(outcome),
            _ => self.regs.write_place(place, outcome.byte),
        }
    }

    // Stores a result in a register, and then the flags.
    fn store(&mut self, place: Place, outcome: Outcome)
        requires { IsPlace place }
        ensures { cpu_of self.new ≡ stored (reg_of place) (outcome_of outcome) (cpu_of self.old) }
    {
        self.store_byte(place, outcome);
        self.set_flags(outcome.flags);
    }

    // Leaves a result in W, with its flags.
    pub(crate) fn give_w(&mut self, outcome: Outcome) -> Effect
        ensures { leaves (record (cpu_of self.old) {
          w = bits outcome.byte;
          regs = flagged (flags_of outcome.flags) (cpu_of self.old).regs;
        })
            ≡ done_of (Some result) (cpu_of self.new) }
    {
        self.w = outcome.byte;
        self.set_flags(outcome.flags);
        no_effect()
    }

    // Leaves a result in a register, with its flags.
    pub(crate) fn give_register(&mut self, place: Place, outcome: Outcome) -> Effect
        requires { IsPlace place }
        ensures { gives Dest.F (reg_of place) (outcome_of outcome) (cpu_of self.old)
            ≡ done_of (Some result) (cpu_of self.new) }
    {
        self.store(place, outcome);
        Effect {
            wrote: written_address(place),
            port: port_write(place, outcome.byte),
        }
    }

    // Leaves a result in W or in the register, with its flags.
    pub(crate) fn give(&mut self, d: Dest, place: Place, outcome: Outcome) -> Effect
        requires { IsPlace place }
        ensures { gives d (reg_of place) (outcome_of outcome) (cpu_of self.old)
            ≡ done_of (Some result) (cpu_of self.new) }
    {
        match d {
            Dest::W => self.give_w(outcome),
            Dest::F => self.give_register(place, outcome),
        }
    }
}
