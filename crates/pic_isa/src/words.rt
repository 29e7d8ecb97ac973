// The word of an instruction.

ghost use Rattle.std.specs.Prelude.{◌≡◌, ◌+◌, ◌*◌, ◌<◌, ◌≤◌};
ghost use Rattle.pic_isa.specs.Instructions.{FieldsFit, dest_bit, word_of};

use crate::instructions::{Dest, Instr};

// The word of a row with a register and a destination.
fn on_register(row: u16, f: u8, d: Dest) -> u16
    requires { row ≤ 0x3F00 }
    ensures { result ≡ row + 128 * dest_bit d + f }
{
    let dest = match d {
        Dest::W => 0,
        Dest::F => 128,
    };
    row + dest + u16::from(f)
}

// The word of a row with a register and a bit.
fn on_bit(row: u16, f: u8, b: u8) -> u16
    requires row { row ≤ 0x3F00 }
    requires bit { b < 8 }
    ensures { result ≡ row + 128 * b + f }
{
    row + 128 * u16::from(b) + u16::from(f)
}

/// The word of an instruction whose fields are in range, with 0 at each bit that is ignored.
pub fn encode(i: &Instr) -> u16
    requires { FieldsFit i.now }
    ensures word { result ≡ word_of i.now }
    ensures below { result < 0x4000 }
{
    match *i {
        Instr::Addwf { f, d } => on_register(0x0700, f, d),
        Instr::Andwf { f, d } => on_register(0x0500, f, d),
        Instr::Clrf { f } => 0x0180 + u16::from(f),
        Instr::Clrw => 0x0100,
        Instr::Comf { f, d } => on_register(0x0900, f, d),
        Instr::Decf { f, d } => on_register(0x0300, f, d),
        Instr::Decfsz { f, d } => on_register(0x0B00, f, d),
        Instr::Incf { f, d } => on_register(0x0A00, f, d),
        Instr::Incfsz { f, d } => on_register(0x0F00, f, d),
        Instr::Iorwf { f, d } => on_register(0x0400, f, d),
        Instr::Movf { f, d } => on_register(0x0800, f, d),
        Instr::Movwf { f } => 0x0080 + u16::from(f),
        Instr::Nop => 0x0000,
        Instr::Rlf { f, d } => on_register(0x0D00, f, d),
        Instr::Rrf { f, d } => on_register(0x0C00, f, d),
        Instr::Subwf { f, d } => on_register(0x0200, f, d),
        Instr::Swapf { f, d } => on_register(0x0E00, f, d),
        Instr::Xorwf { f, d } => on_register(0x0600, f, d),
        Instr::Bcf { f, b } => on_bit(0x1000, f, b),
        Instr::Bsf { f, b } => on_bit(0x1400, f, b),
        Instr::Btfsc { f, b } => on_bit(0x1800, f, b),
        Instr::Btfss { f, b } => on_bit(0x1C00, f, b),
        Instr::Addlw { k } => 0x3E00 + u16::from(k),
        Instr::Andlw { k } => 0x3900 + u16::from(k),
        Instr::Call { k } => 0x2000 + k,
        Instr::Clrwdt => 0x0064,
        Instr::Goto { k } => 0x2800 + k,
        Instr::Iorlw { k } => 0x3800 + u16::from(k),
        Instr::Movlw { k } => 0x3000 + u16::from(k),
        Instr::Retfie => 0x0009,
        Instr::Retlw { k } => 0x3400 + u16::from(k),
        Instr::Return => 0x0008,
        Instr::Sleep => 0x0063,
        Instr::Sublw { k } => 0x3C00 + u16::from(k),
        Instr::Xorlw { k } => 0x3A00 + u16::from(k),
    }
}
