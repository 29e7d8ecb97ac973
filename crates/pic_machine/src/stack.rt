// The program counter and the return stack.
ghost use Rattle.std.specs.Prelude.{◌≡◌, ◌<◌};
ghost use Rattle.pic_machine.specs.Chip.{advanced, jumped, popped, pushed, skipping};
ghost use Rattle.pic_machine.specs.State.{cpu_of};

use crate::cpu::Cpu;

impl Cpu {
    // Goes to the next address.
    pub(crate) fn advance(&mut self)
        ensures { cpu_of self.new ≡ advanced (cpu_of self.old) }
    {
        self.pc = (self.pc + 1) % 8192;
    }

    // Goes past one more instruction, where the test holds.
    pub(crate) fn skip_if(&mut self, test: bool)
        ensures { cpu_of self.new ≡ skipping test (cpu_of self.old) }
    {
        if test {
            self.advance();
        }
    }

    // Goes to an address of 11 bits in the page that PCLATH chooses.
    pub(crate) fn jump(&mut self, k: u16)
        requires { k < 2048 }
        ensures { cpu_of self.new ≡ jumped k (cpu_of self.old) }
    {
        self.pc = self.regs.page() + k;
    }

    // Pushes the program counter on the return stack, whose ninth push fills the first place again; the depth
    // counts up to 255.
    pub(crate) fn push(&mut self)
        ensures { cpu_of self.new ≡ pushed (cpu_of self.old).pc (cpu_of self.old) }
    {
        self.stack[usize::from(self.top)] = self.pc;
        self.top = (self.top + 1) % 8;
        self.depth = self.depth.saturating_add(1);
    }

    // Pops the program counter from the return stack; the depth counts down to 0.
    pub(crate) fn pop(&mut self)
        ensures { cpu_of self.new ≡ popped (cpu_of self.old) }
    {
        self.top = (self.top + 7) % 8;
        self.pc = self.stack[usize::from(self.top)];
        self.depth = self.depth.saturating_sub(1);
    }
}
