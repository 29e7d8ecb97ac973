// What a boundary does once its arrivals have come: a taking, an instruction or a stop.
ghost use Rattle.std.specs.Prelude.{◌≡◌, false, true, if◌then◌else◌};
ghost use Rattle.pic_regs.specs.Registers.{requested};
ghost use Rattle.pic_machine.specs.Boundary.{stopped, took, turn};
ghost use Rattle.pic_machine.specs.Memory.{words_of};
ghost use Rattle.pic_machine.specs.State.{cpu_of, turn_of};

use crate::cpu::Cpu;
use crate::effects::Effect;
use crate::memory::{Cell, Memory};
use crate::steps::{Did, PortWrite, Why};

// What a boundary did after its pins and arrivals, beside the chip that it left.
#[derive(Clone, Copy, Debug, PartialEq, Eq)]
pub(crate) struct Turned {
    pub(crate) did: Did,
    pub(crate) wrote: Option<u16>,
    pub(crate) port: Option<PortWrite>,
}

// The turn of an instruction that ran at an address.
fn ran_at(address: u16, word: u16, effect: Effect) -> Turned
    ensures { result ≡ record { did = Did.Ran address word; wrote = effect.wrote; port = effect.port } }
{
    Turned {
        did: Did::Ran { address, word },
        wrote: effect.wrote,
        port: effect.port,
    }
}

impl Cpu {
    fn take_turn(&mut self) -> Turned
        ensures { turn_of result (cpu_of self.new) ≡ took (cpu_of self.old) }
    {
        self.take();
        Turned {
            did: Did::Took,
            wrote: None,
            port: None,
        }
    }

    fn stop(&self, why: Why) -> Turned
        ensures { turn_of result (cpu_of self.now) ≡ stopped why (cpu_of self.now) }
    {
        Turned {
            did: Did::Stopped {
                address: self.pc(),
                why,
            },
            wrote: None,
            port: None,
        }
    }

    // Where no instruction can run: a requested interrupt is taken, and else the chip stops.
    fn give_up(&mut self, asked: bool, why: Why) -> Turned
        ensures { turn_of result (cpu_of self.new)
            ≡ (if asked then took (cpu_of self.old) else stopped why (cpu_of self.old)) }
    {
        if asked {
            self.take_turn()
        } else {
            self.stop(why)
        }
    }

    // Runs a place of program memory, whose instruction ends the turn. An interrupt that is requested is late: it is
    // then due, and it is taken at once where no instruction can run.
    fn run(&mut self, cell: &Cell, asked: bool) -> Turned
        ensures { turn_of result (cpu_of self.new) ≡ turn false asked true cell.now.word (cpu_of self.old) }
    {
        let address = self.pc();
        let Some(i) = &cell.instruction else {
            return self.give_up(asked, Why::UnknownWord);
        };
        let Some(effect) = self.exec(i) else {
            return self.give_up(asked, Why::Sleep);
        };
        if asked {
            self.due = true;
        }
        ran_at(address, cell.word, effect)
    }

    // Takes an interrupt that is due. One that is requested is taken, or it is late. Otherwise the word at the
    // program counter runs.
    pub(crate) fn turn(&mut self, memory: &Memory, late: bool) -> Turned
        ensures { turn_of result (cpu_of self.new)
            ≡ turn (cpu_of self.old).due (requested (cpu_of self.old).regs) late
            (words_of memory.now (cpu_of self.old).pc) (cpu_of self.old) }
    {
        let asked = self.requested();
        if self.due() || asked && !late {
            self.take_turn()
        } else {
            self.run(memory.at(self.pc()), asked)
        }
    }
}
