// The instruction of a word.

ghost use Rattle.std.specs.Prelude.{◌≡◌, ◌+◌, ◌*◌, ◌/◌, ◌%◌, ◌<◌, ◌≤◌, Some, IfSome, IfNone};
ghost use Rattle.pic_isa.specs.declared.instructions.Instr.{Instr as Instrs};
ghost use Rattle.pic_isa.specs.Instructions.{FieldsFit, IsWordOf, dest_of, instruction_of, row_of, word_of};

use crate::instructions::{Dest, Instr};

// The destination in a word's lower eight bits.
fn dest(low: u8) -> Dest
    ensures { result ≡ dest_of (low / 128) }
{
    if low / 128 == 1 { Dest::F } else { Dest::W }
}

// Words that begin with 00 0000.
fn decode_plain(low: u8) -> Option<Instr>
    ensures { result ≡ row_of 0 low }
{
    match low {
        0x80..=0xFF => Some(Instr::Movwf { f: low % 128 }),
        0x00 | 0x20 | 0x40 | 0x60 => Some(Instr::Nop),
        0x08 => Some(Instr::Return),
        0x09 => Some(Instr::Retfie),
        0x63 => Some(Instr::Sleep),
        0x64 => Some(Instr::Clrwdt),
        _ => None,
    }
}

// Words that begin with 00 0001.
fn decode_clear(low: u8) -> Instr
    ensures { row_of 1 low ≡ Some result }
{
    if low / 128 == 1 {
        Instr::Clrf { f: low % 128 }
    } else {
        Instr::Clrw
    }
}

// Words that begin with 00, by the upper six bits.
fn decode_byte(high: u8, low: u8) -> Option<Instr>
    requires { high < 16 }
    ensures { result ≡ row_of high low }
{
    let f = low % 128;
    let d = dest(low);
    match high {
        0x0 => decode_plain(low),
        0x1 => Some(decode_clear(low)),
        0x2 => Some(Instr::Subwf { f, d }),
        0x3 => Some(Instr::Decf { f, d }),
        0x4 => Some(Instr::Iorwf { f, d }),
        0x5 => Some(Instr::Andwf { f, d }),
        0x6 => Some(Instr::Xorwf { f, d }),
        0x7 => Some(Instr::Addwf { f, d }),
        0x8 => Some(Instr::Movf { f, d }),
        0x9 => Some(Instr::Comf { f, d }),
        0xA => Some(Instr::Incf { f, d }),
        0xB => Some(Instr::Decfsz { f, d }),
        0xC => Some(Instr::Rrf { f, d }),
        0xD => Some(Instr::Rlf { f, d }),
        0xE => Some(Instr::Swapf { f, d }),
        _ => Some(Instr::Incfsz { f, d }),
    }
}

// Words that begin with 01.
fn decode_bit(high: u8, low: u8) -> Instr
    requires from { 16 ≤ high }
    requires below { high < 32 }
    ensures { row_of high low ≡ Some result }
{
    let f = low % 128;
    let b = high % 4 * 2 + low / 128;
    match high {
        0x10..=0x13 => Instr::Bcf { f, b },
        0x14..=0x17 => Instr::Bsf { f, b },
        0x18..=0x1B => Instr::Btfsc { f, b },
        _ => Instr::Btfss { f, b },
    }
}

// Words that begin with 10.
fn decode_address(high: u8, low: u8) -> Instr
    requires from { 32 ≤ high }
    requires below { high < 48 }
    ensures { row_of high low ≡ Some result }
{
    let k = u16::from(high % 8) * 256 + u16::from(low);
    if high < 0x28 {
        Instr::Call { k }
    } else {
        Instr::Goto { k }
    }
}

// Words that begin with 11.
fn decode_constant(high: u8, k: u8) -> Option<Instr>
    requires from { 48 ≤ high }
    requires below { high < 64 }
    ensures { result ≡ row_of high k }
{
    match high {
        0x30..=0x33 => Some(Instr::Movlw { k }),
        0x34..=0x37 => Some(Instr::Retlw { k }),
        0x38 => Some(Instr::Iorlw { k }),
        0x39 => Some(Instr::Andlw { k }),
        0x3A => Some(Instr::Xorlw { k }),
        0x3B => None,
        0x3C..=0x3D => Some(Instr::Sublw { k }),
        _ => Some(Instr::Addlw { k }),
    }
}

// The row of a word, by its upper six and its lower eight bits.
fn decode_parts(high: u8, low: u8) -> Option<Instr>
    requires { high < 64 }
    ensures { result ≡ row_of high low }
{
    match high {
        0x00..=0x0F => decode_byte(high, low),
        0x10..=0x1F => Some(decode_bit(high, low)),
        0x20..=0x2F => Some(decode_address(high, low)),
        _ => decode_constant(high, low),
    }
}

/// The instruction that a word of 14 bits is, with the word's fields, whatever its bits that are ignored;
/// None exactly where no row of the table has the word.
pub fn decode(word: u16) -> Option<Instr>
    requires { word < 0x4000 }
    ensures found { result ≡ instruction_of word }
    ensures row { IfSome result (λ i. IsWordOf i word × FieldsFit i) }
    ensures none { IfNone result ((i : Instrs) → FieldsFit i → IsWordOf i word → ⊥) }
{
    decode_parts((word / 256) as u8, (word % 256) as u8)
}

/// A law: an instruction whose fields are in range is found again in the word that is written for it.
pub fn decodes_what_is_encoded(i: &Instr)
    requires { FieldsFit i.now }
    ensures { instruction_of (word_of i.now) ≡ Some i.now }
{}
