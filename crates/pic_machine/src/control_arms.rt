// Instructions that move control, and those that do nothing else.
ghost use Rattle.std.specs.Prelude.{◌≡◌, ◌<◌, Some};
ghost use Rattle.pic_machine.specs.Exec.{exec};
ghost use Rattle.pic_machine.specs.State.{cpu_of, done_of};

use crate::cpu::Cpu;
use crate::destination::no_effect;
use crate::effects::Effect;
use pic_isa::Instr;

impl Cpu {
    // Nothing.
    pub(crate) fn nop(&mut self) -> Effect
        ensures { exec Instr.Nop (cpu_of self.old) ≡ done_of (Some result) (cpu_of self.new) }
    {
        self.advance();
        no_effect()
    }

    // Push the next address, PC = PCLATH 4:3 and k.
    pub(crate) fn call(&mut self, k: u16) -> Effect
        requires { k < 2048 }
        ensures { exec (Instr.Call k) (cpu_of self.old) ≡ done_of (Some result) (cpu_of self.new) }
    {
        self.advance();
        self.push();
        self.jump(k);
        no_effect()
    }

    // TO = PD = 1.
    pub(crate) fn clrwdt(&mut self) -> Effect
        ensures { exec Instr.Clrwdt (cpu_of self.old) ≡ done_of (Some result) (cpu_of self.new) }
    {
        self.advance();
        self.regs.clear_watchdog();
        no_effect()
    }

    // PC = PCLATH 4:3 and k.
    pub(crate) fn goto(&mut self, k: u16) -> Effect
        requires { k < 2048 }
        ensures { exec (Instr.Goto k) (cpu_of self.old) ≡ done_of (Some result) (cpu_of self.new) }
    {
        self.advance();
        self.jump(k);
        no_effect()
    }

    // Pop to PC, GIE = 1.
    pub(crate) fn retfie(&mut self) -> Effect
        ensures { exec Instr.Retfie (cpu_of self.old) ≡ done_of (Some result) (cpu_of self.new) }
    {
        self.advance();
        self.pop();
        self.regs.set_gie(true);
        no_effect()
    }

    // W = k, pop to PC.
    pub(crate) fn retlw(&mut self, k: u8) -> Effect
        ensures { exec (Instr.Retlw k) (cpu_of self.old) ≡ done_of (Some result) (cpu_of self.new) }
    {
        self.advance();
        self.w = k;
        self.pop();
        no_effect()
    }

    // Pop to PC.
    pub(crate) fn return_from_call(&mut self) -> Effect
        ensures { exec Instr.Return (cpu_of self.old) ≡ done_of (Some result) (cpu_of self.new) }
    {
        self.advance();
        self.pop();
        no_effect()
    }
}
