// An instruction at the program counter.
ghost use Rattle.std.specs.Prelude.{◌≡◌, Some, None};
ghost use Rattle.pic_isa.specs.Instructions.{FieldsFit};
ghost use Rattle.pic_regs.specs.Map.{Absent};
ghost use Rattle.pic_machine.specs.Chip.{advanced};
ghost use Rattle.pic_machine.specs.Exec.{exec, field};
ghost use Rattle.pic_machine.specs.Results.{gives};
ghost use Rattle.pic_machine.specs.State.{cpu_of, done_of, outcome_of};

use crate::cpu::Cpu;
use crate::effects::Effect;
use crate::operands::named_field;
use crate::outcomes::Outcome;
use crate::results::{difference, just, sum, tested};
use pic_isa::{Dest, Instr};
use pic_regs::bytes::{both, differing, either};

impl Cpu {
    // Leaves a result in W, with its flags, at the next address.
    fn leave(&mut self, outcome: Outcome) -> Effect
        ensures { gives Dest.W Absent (outcome_of outcome) (advanced (cpu_of self.old))
            ≡ done_of (Some result) (cpu_of self.new) }
    {
        self.advance();
        self.give_w(outcome)
    }

    // Runs an instruction that names no register. SLEEP gives None and leaves the chip as it was.
    fn exec_alone(&mut self, i: &Instr) -> Option<Effect>
        requires row { field i.now ≡ None }
        requires fit { FieldsFit i.now }
        ensures done { exec i.now (cpu_of self.old) ≡ done_of result (cpu_of self.new) }
        ensures stays { result ≡ None → cpu_of self.new ≡ cpu_of self.old }
    {
        match *i {
            Instr::Clrw => Some(self.leave(tested(0x00))),
            Instr::Nop => Some(self.nop()),
            Instr::Addlw { k } => Some(self.leave(sum(self.w, k))),
            Instr::Andlw { k } => Some(self.leave(tested(both(self.w, k)))),
            Instr::Call { k } => Some(self.call(k)),
            Instr::Clrwdt => Some(self.clrwdt()),
            Instr::Goto { k } => Some(self.goto(k)),
            Instr::Iorlw { k } => Some(self.leave(tested(either(self.w, k)))),
            Instr::Movlw { k } => Some(self.leave(just(k))),
            Instr::Retfie => Some(self.retfie()),
            Instr::Retlw { k } => Some(self.retlw(k)),
            Instr::Return => Some(self.return_from_call()),
            Instr::Sublw { k } => Some(self.leave(difference(k, self.w))),
            Instr::Xorlw { k } => Some(self.leave(tested(differing(self.w, k)))),
            // SLEEP is left.
            _ => None,
        }
    }

    // Runs an instruction whose fields are in range at the program counter. SLEEP gives None and leaves the
    // chip as it was.
    pub(crate) fn exec(&mut self, i: &Instr) -> Option<Effect>
        requires { FieldsFit i.now }
        ensures done { exec i.now (cpu_of self.old) ≡ done_of result (cpu_of self.new) }
        ensures stays { result ≡ None → cpu_of self.new ≡ cpu_of self.old }
    {
        match named_field(i) {
            Some(f) => Some(self.exec_on(i, f)),
            None => self.exec_alone(i),
        }
    }
}
