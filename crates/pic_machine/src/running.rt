// Power-on, arrivals, takings, and what is seen of the chip.
ghost use Rattle.std.specs.Prelude.{◌≡◌, ◌<◌};
ghost use Rattle.pic_regs.specs.Arrivals.{latched, merged, number_of, set_of};
ghost use Rattle.pic_regs.specs.Bytes.{bits};
ghost use Rattle.pic_regs.specs.Registers.{requested, with_pins};
ghost use Rattle.pic_regs.specs.State.{registers_of};
ghost use Rattle.pic_machine.specs.Boundary.{took, with_arrivals};
ghost use Rattle.pic_machine.specs.Run.{power_on};
ghost use Rattle.pic_machine.specs.State.{cpu_of};

use crate::cpu::Cpu;
use pic_regs::{Arrived, Regs, Start};

impl Cpu {
    // The chip at power-on: the start's W and registers, all else 0.
    pub(crate) fn power_on(start: &Start) -> Cpu
        ensures { cpu_of result ≡ power_on start.now }
    {
        Cpu {
            w: start.w,
            pc: 0x0000,
            regs: Regs::power_on(start),
            stack: [0x0000; 8],
            top: 0,
            depth: 0,
            due: false,
        }
    }

    // Sets the flag of each source of a set, below 2,048, enabled or not, and says which of them were latched
    // and which were merged.
    pub(crate) fn arrive(&mut self, arrivals: u16) -> Arrived
        requires { arrivals < 2048 }
        ensures latched { result.latched ≡ number_of (latched (set_of arrivals) (cpu_of self.old).regs) }
        ensures merged { result.merged ≡ number_of (merged (set_of arrivals) (cpu_of self.old).regs) }
        ensures chip { cpu_of self.new ≡ with_arrivals (set_of arrivals) (cpu_of self.old) }
    {
        self.regs.arrive(arrivals)
    }

    // An interrupt is requested.
    pub(crate) fn requested(&self) -> bool
        ensures { result ≡ requested (cpu_of self.now).regs }
    {
        self.regs.requested()
    }

    // Takes an interrupt: the address of the next instruction is pushed, GIE becomes 0, control goes to 0004h,
    // and no interrupt is due.
    pub(crate) fn take(&mut self)
        ensures { cpu_of self.new ≡ (took (cpu_of self.old)).after }
    {
        self.push();
        self.pc = 0x0004;
        self.regs.set_gie(false);
        self.due = false;
    }

    // An interrupt is due.
    pub(crate) fn due(&self) -> bool
        ensures { result ≡ (cpu_of self.now).due }
    {
        self.due
    }

    // The address of the next instruction, below 8,192.
    pub(crate) fn pc(&self) -> u16
        ensures address { result ≡ (cpu_of self.now).pc }
        ensures in_range { result < 8192 }
    {
        self.pc
    }

    // W.
    pub(crate) fn w(&self) -> u8
        ensures { bits result ≡ (cpu_of self.now).w }
    {
        self.w
    }

    // The counted depth of the return stack, 0 to 255.
    pub(crate) fn depth(&self) -> u8
        ensures { result ≡ (cpu_of self.now).depth }
    {
        self.depth
    }

    // The registers.
    pub(crate) fn regs(&self) -> &Regs
        ensures { registers_of result.now ≡ (cpu_of self.now).regs }
    {
        &self.regs
    }

    // Sets the pins of a port, 0 for PORTA to 4 for PORTE.
    pub(crate) fn set_pins(&mut self, port: u8, byte: u8)
        requires { port < 5 }
        ensures { cpu_of self.new
            ≡ record (cpu_of self.old) { regs = with_pins port (bits byte) (cpu_of self.old).regs } }
    {
        self.regs.set_pins(port, byte);
    }
}
