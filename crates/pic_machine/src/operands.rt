// The register that an instruction names, and the byte that it reads there.
ghost use Rattle.std.specs.Prelude.{◌≡◌, ◌<◌, IfSome};
ghost use Rattle.pic_isa.specs.Instructions.{FieldsFit};
ghost use Rattle.pic_regs.specs.Bytes.{bits};
ghost use Rattle.pic_regs.specs.Places.{IsPlace, reg_of};
ghost use Rattle.pic_machine.specs.Chip.{advanced, got, named, through};
ghost use Rattle.pic_machine.specs.Exec.{field};
ghost use Rattle.pic_machine.specs.State.{cpu_of};

use crate::cpu::Cpu;
use crate::results::low_byte;
use pic_isa::Instr;
use pic_regs::{Place, place_at, place_in};

// An instruction's register, and the byte that the instruction reads there.
#[derive(Clone, Copy)]
pub(crate) struct Operand {
    pub(crate) place: Place,
    pub(crate) byte: u8,
}

// The seven bits that name an instruction's register, where it has one.
pub(crate) fn named_field(i: &Instr) -> Option<u8>
    requires { FieldsFit i.now }
    ensures field { result ≡ field i.now }
    ensures in_range { IfSome result (λ f. f < 128) }
{
    match *i {
        Instr::Addwf { f, .. }
        | Instr::Andwf { f, .. }
        | Instr::Clrf { f }
        | Instr::Comf { f, .. }
        | Instr::Decf { f, .. }
        | Instr::Decfsz { f, .. }
        | Instr::Incf { f, .. }
        | Instr::Incfsz { f, .. }
        | Instr::Iorwf { f, .. }
        | Instr::Movf { f, .. }
        | Instr::Movwf { f }
        | Instr::Rlf { f, .. }
        | Instr::Rrf { f, .. }
        | Instr::Subwf { f, .. }
        | Instr::Swapf { f, .. }
        | Instr::Xorwf { f, .. }
        | Instr::Bcf { f, .. }
        | Instr::Bsf { f, .. }
        | Instr::Btfsc { f, .. }
        | Instr::Btfss { f, .. } => Some(f),
        _ => None,
    }
}

impl Cpu {
    // The register that a place stands for: that at IRP and FSR for INDF, each other one for itself.
    fn through(&self, place: Place) -> Place
        requires { IsPlace place }
        ensures place { reg_of result ≡ through (cpu_of self.now).regs (reg_of place) }
        ensures in_range { IsPlace result }
    {
        match place {
            Place::Indf => place_at(self.regs.indirect_address()),
            _ => place,
        }
    }

    // The register that seven bits of an instruction name in the chosen bank.
    fn named(&self, f: u8) -> Place
        requires { f < 128 }
        ensures place { reg_of result ≡ named f (cpu_of self.now).regs }
        ensures in_range { IsPlace result }
    {
        self.through(place_in(self.regs.bank(), f))
    }

    // What an instruction reads in a register, when the program counter is already at the next address, whose
    // low eight bits are PCL.
    fn got(&self, place: Place) -> u8
        requires { IsPlace place }
        ensures { bits result ≡ got (reg_of place) (cpu_of self.now) }
    {
        match place {
            Place::Pcl => low_byte(self.pc),
            _ => self.regs.read_place(place),
        }
    }

    // Goes to the next address, and says which register the instruction's seven bits name.
    pub(crate) fn register(&mut self, f: u8) -> Place
        requires { f < 128 }
        ensures chip { cpu_of self.new ≡ advanced (cpu_of self.old) }
        ensures place { reg_of result ≡ named f (cpu_of self.old).regs }
        ensures in_range { IsPlace result }
    {
        self.advance();
        self.named(f)
    }

    // The same, with what the instruction reads there.
    pub(crate) fn operand(&mut self, f: u8) -> Operand
        requires { f < 128 }
        ensures chip { cpu_of self.new ≡ advanced (cpu_of self.old) }
        ensures place { reg_of result.place ≡ named f (cpu_of self.old).regs }
        ensures in_range { IsPlace result.place }
        ensures byte { bits result.byte ≡ got (named f (cpu_of self.old).regs) (advanced (cpu_of self.old)) }
    {
        let place = self.register(f);
        Operand {
            place,
            byte: self.got(place),
        }
    }
}
