// The chip with its program memory: the public calls.
ghost use Rattle.std.specs.Prelude.{◌≡◌, ◌<◌};
ghost use Rattle.hex_file.specs.Written.{IsWritable};
ghost use Rattle.pic_regs.specs.Arrivals.{latched, merged, number_of, set_of};
ghost use Rattle.pic_regs.specs.Bytes.{bits};
ghost use Rattle.pic_regs.specs.Registers.{with_pins};
ghost use Rattle.pic_regs.specs.State.{registers_of};
ghost use Rattle.pic_machine.specs.Boundary.{boundary, no_pins, stepped, with_arrivals};
ghost use Rattle.pic_machine.specs.Run.{power_on, program_of};
ghost use Rattle.pic_machine.specs.State.{chip_of, cpu_of, memory_of};

use crate::cpu::Cpu;
use crate::memory::Memory;
use crate::steps::Stepped;
use hex_file::Image;
use pic_regs::{Arrived, Regs, Start};

/// A PIC16F877 and its program.
#[derive(Drop)]
pub struct Chip {
    cpu: Cpu,
    memory: Memory,
}

impl Cpu {
    // The arrivals of a boundary: mostly there are none.
    fn take_in(&mut self, arrivals: u16) -> Arrived
        requires { arrivals < 2048 }
        ensures latched { result.latched ≡ number_of (latched (set_of arrivals) (cpu_of self.old).regs) }
        ensures merged { result.merged ≡ number_of (merged (set_of arrivals) (cpu_of self.old).regs) }
        ensures chip { cpu_of self.new ≡ with_arrivals (set_of arrivals) (cpu_of self.old) }
    {
        if arrivals == 0 {
            Arrived {
                latched: 0,
                merged: 0,
            }
        } else {
            self.arrive(arrivals)
        }
    }
}

impl Chip {
    /// The chip at power-on, with the program of an image: its words, and 3FFFh at each other address. Takes
    /// no memory.
    pub fn power_on(image: &Image, start: &Start) -> Chip
        requires { IsWritable image.now }
        ensures chip { chip_of result ≡ power_on start.now }
        ensures memory { memory_of result ≡ program_of image.now }
    {
        Chip {
            cpu: Cpu::power_on(start),
            memory: Memory::load(image.words.as_slice()),
        }
    }

    /// One step: the flag of each source of a set, below 2,048, is set, enabled or not. Then an interrupt that is
    /// due is taken; one that is requested is taken or, where it is late, waits until the instruction at the
    /// program counter has run, and is then due. Otherwise the word at the program counter runs. A word that is
    /// no instruction and SLEEP stop: then only flags changed. A late interrupt doesn't wait for such a word.
    /// Takes no memory.
    pub fn step(&mut self, arrivals: u16, late: bool) -> Stepped
        requires { arrivals < 2048 }
        ensures report { result
            ≡ stepped (boundary (memory_of self.old) (record { arrivals = set_of arrivals; pins = no_pins; late = late }) (chip_of self.old)) }
        ensures chip { chip_of self.new
            ≡ (boundary (memory_of self.old) (record { arrivals = set_of arrivals; pins = no_pins; late = late }) (chip_of self.old)).after }
        ensures memory { memory_of self.new ≡ memory_of self.old }
    {
        let arrived = self.cpu.take_in(arrivals);
        let turned = self.cpu.turn(&self.memory, late);
        Stepped {
            latched: arrived.latched,
            merged: arrived.merged,
            did: turned.did,
            wrote: turned.wrote,
            port: turned.port,
        }
    }

    /// An interrupt is due: it was requested, and an instruction has run since.
    pub fn due(&self) -> bool
        ensures { result ≡ (chip_of self.now).due }
    {
        self.cpu.due()
    }

    /// The address of the next instruction, below 8,192.
    pub fn pc(&self) -> u16
        ensures { result ≡ (chip_of self.now).pc }
    {
        self.cpu.pc()
    }

    /// The counted depth of the return stack, 0 to 255.
    pub fn depth(&self) -> u8
        ensures { result ≡ (chip_of self.now).depth }
    {
        self.cpu.depth()
    }

    /// W.
    pub fn w(&self) -> u8
        ensures { bits result ≡ (chip_of self.now).w }
    {
        self.cpu.w()
    }

    /// The registers.
    pub fn regs(&self) -> &Regs
        ensures { registers_of result.now ≡ (chip_of self.now).regs }
    {
        self.cpu.regs()
    }

    /// Sets the flag of each source of a set, below 2,048, enabled or not, and says which of them were latched and
    /// which were merged.
    pub fn arrive(&mut self, sources: u16) -> Arrived
        requires { sources < 2048 }
        ensures latched { result.latched ≡ number_of (latched (set_of sources) (chip_of self.old).regs) }
        ensures merged { result.merged ≡ number_of (merged (set_of sources) (chip_of self.old).regs) }
        ensures chip { chip_of self.new ≡ with_arrivals (set_of sources) (chip_of self.old) }
        ensures memory { memory_of self.new ≡ memory_of self.old }
    {
        self.cpu.arrive(sources)
    }

    /// Sets the pins of a port, 0 for PORTA to 4 for PORTE.
    pub fn set_pins(&mut self, port: u8, byte: u8)
        requires { port < 5 }
        ensures chip { chip_of self.new
            ≡ record (chip_of self.old) { regs = with_pins port (bits byte) (chip_of self.old).regs } }
        ensures memory { memory_of self.new ≡ memory_of self.old }
    {
        self.cpu.set_pins(port, byte);
    }
}
