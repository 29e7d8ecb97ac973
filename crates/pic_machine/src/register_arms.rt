// Instructions on a register.
ghost use Rattle.std.specs.Prelude.{◌≡◌, ◌<◌, Some};
ghost use Rattle.pic_isa.specs.Instructions.{FieldsFit};
ghost use Rattle.pic_regs.specs.Bytes.{bits};
ghost use Rattle.pic_regs.specs.Places.{IsPlace, reg_of};
ghost use Rattle.pic_machine.specs.Chip.{skipping};
ghost use Rattle.pic_machine.specs.Exec.{counts, exec, field};
ghost use Rattle.pic_machine.specs.Results.{leaves};
ghost use Rattle.pic_machine.specs.State.{cpu_of, done_of};

use crate::cpu::Cpu;
use crate::destination::no_effect;
use crate::effects::Effect;
use crate::operands::Operand;
use crate::results::{
    decrement, difference, increment, just, rotated_left, rotated_right, sum, tested,
};
use pic_isa::{Dest, Instr};
use pic_regs::Place;
use pic_regs::bytes::{
    bit_is_set, both, complement, differing, either, has_no_bit, set_bit, swap_halves,
};

impl Cpu {
    // Leaves a count, and goes past the next instruction where it is 0. A count written to PCL leads away all
    // the same.
    fn count(&mut self, d: Dest, place: Place, byte: u8) -> Effect
        requires { IsPlace place }
        ensures { counts d (reg_of place) (bits byte) (cpu_of self.old)
            ≡ done_of (Some result) (cpu_of self.new) }
    {
        self.skip_if(has_no_bit(byte));
        self.give(d, place, just(byte))
    }

    // Goes past the next instruction where the test holds.
    fn skip(&mut self, test: bool) -> Effect
        ensures { leaves (skipping test (cpu_of self.old)) ≡ done_of (Some result) (cpu_of self.new) }
    {
        self.skip_if(test);
        no_effect()
    }

    // Runs an instruction on a register, which seven of its bits name.
    pub(crate) fn exec_on(&mut self, i: &Instr, f: u8) -> Effect
        requires row { field i.now ≡ Some f }
        requires in_range { f < 128 }
        requires fit { FieldsFit i.now }
        ensures { exec i.now (cpu_of self.old) ≡ done_of (Some result) (cpu_of self.new) }
    {
        let Operand { place, byte } = self.operand(f);
        match *i {
            Instr::Addwf { d, .. } => self.give(d, place, sum(self.w, byte)),
            Instr::Andwf { d, .. } => self.give(d, place, tested(both(self.w, byte))),
            Instr::Clrf { .. } => self.give_register(place, tested(0x00)),
            Instr::Comf { d, .. } => self.give(d, place, tested(complement(byte))),
            Instr::Decf { d, .. } => self.give(d, place, tested(decrement(byte))),
            Instr::Decfsz { d, .. } => self.count(d, place, decrement(byte)),
            Instr::Incf { d, .. } => self.give(d, place, tested(increment(byte))),
            Instr::Incfsz { d, .. } => self.count(d, place, increment(byte)),
            Instr::Iorwf { d, .. } => self.give(d, place, tested(either(self.w, byte))),
            Instr::Movf { d, .. } => self.give(d, place, tested(byte)),
            Instr::Rlf { d, .. } => {
                let carry = self.regs.carry();
                self.give(d, place, rotated_left(carry, byte))
            }
            Instr::Rrf { d, .. } => {
                let carry = self.regs.carry();
                self.give(d, place, rotated_right(carry, byte))
            }
            Instr::Subwf { d, .. } => self.give(d, place, difference(byte, self.w)),
            Instr::Swapf { d, .. } => self.give(d, place, just(swap_halves(byte))),
            Instr::Xorwf { d, .. } => self.give(d, place, tested(differing(self.w, byte))),
            Instr::Bcf { b, .. } => self.give_register(place, just(set_bit(byte, b, false))),
            Instr::Bsf { b, .. } => self.give_register(place, just(set_bit(byte, b, true))),
            Instr::Btfsc { b, .. } => self.skip(!bit_is_set(byte, b)),
            Instr::Btfss { b, .. } => self.skip(bit_is_set(byte, b)),
            // MOVWF is left.
            _ => self.give_register(place, just(self.w)),
        }
    }
}
