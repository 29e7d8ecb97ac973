// Lines of glue, and their items.

ghost use Rattle.std.specs.Prelude.{◌≡◌, ◌<◌, ◌++◌, ℕ, map, take, OnOk, OnErr};
ghost use Rattle.std.specs.List.{AllByRecursion};
ghost use Rattle.code_items.specs.declared.items.Item.TheVariants.{Ins};
ghost use Rattle.glue_steps.specs.Lines.{LineNamed, field_of, instr_of, item_of};
ghost use Rattle.pic_regs.specs.Places.{IsPlace, reg_of};

use code_items::{Code, Item};
use pic_isa::{Dest, Instr, Source};
use pic_regs::{Place, lowest_address};
use std::alloc::AllocError;

/// An instruction of glue, the code that runs with interrupts off. A place is a register of the chip, which an instruction names
/// by the low seven bits of its address, in the bank that RP1 and RP0 choose.
#[derive(Clone, Copy, Debug, PartialEq, Eq)]
pub enum Line {
    /// MOVLW: W is this byte.
    Constant(u8),
    /// MOVF to W: W is what the register holds; Z tells whether that is 0.
    Load(Place),
    /// MOVWF: the register is W; a port's latch is put.
    Store(Place),
    /// CLRF: the register is 0, and Z is set.
    Clear(Place),
    /// BSF where the value is true, BCF where it is false: this bit, 0 to 7, of the register is the value.
    Bit(bool, Place, u8),
    /// BCF of the source's flag.
    Lower(Source),
    /// BTFSS where the value is true, BTFSC where it is false: the next line is skipped if this bit, 0 to 7, is the value.
    Skip(bool, Place, u8),
    /// NOP.
    Nothing,
}

// The low seven bits of the address of a register; 0 where there is no register.
fn field(place: Place) -> u8
    requires { IsPlace place }
    ensures { result ≡ field_of (reg_of place) }
{
    match lowest_address(place) {
        Some(address) => (address % 128) as u8,
        None => 0,
    }
}

impl Line {
    // The line's instruction. A port's number is below 5, an address below 512.
    fn instr(&self) -> Instr
        requires { LineNamed self.now }
        ensures { result ≡ instr_of self.now }
    {
        match *self {
            Line::Constant(k) => Instr::Movlw { k },
            Line::Load(place) => Instr::Movf {
                f: field(place),
                d: Dest::W,
            },
            Line::Store(place) => Instr::Movwf { f: field(place) },
            Line::Clear(place) => Instr::Clrf { f: field(place) },
            Line::Bit(true, place, b) => Instr::Bsf { f: field(place), b },
            Line::Bit(false, place, b) => Instr::Bcf { f: field(place), b },
            Line::Lower(source) => Instr::Bcf {
                f: source.flag().address as u8,
                b: source.flag().bit,
            },
            Line::Skip(true, place, b) => Instr::Btfss { f: field(place), b },
            Line::Skip(false, place, b) => Instr::Btfsc { f: field(place), b },
            Line::Nothing => Instr::Nop,
        }
    }

    /// The line as an item of code. A port's number is below 5, an address below 512.
    pub fn item(&self) -> Item
        requires { LineNamed self.now }
        ensures { result ≡ item_of self.now }
    {
        Item::Ins(self.instr())
    }
}

// Adds the lines at the end of the code; where memory runs out, the first few of them.
fn add(code: &mut Code, lines: &[Line]) -> Result<(), AllocError>
    requires { AllByRecursion LineNamed lines.now }
    ensures ok { OnOk result (code.new.items ≡ code.old.items ++ map item_of lines.now) }
    ensures err { OnErr result ((n : ℕ) × (code.new.items ≡ code.old.items ++ take n (map item_of lines.now))) }
{
    for line in lines {
        code.items.push(line.item())?;
    }
    Ok(())
}

/// Adds the lines at the end of the code. In each a port's number is below 5 and an address below 512. An `Err` is out of memory,
/// and changes nothing.
pub fn add_lines(code: &mut Code, lines: &[Line]) -> Result<(), AllocError>
    requires { AllByRecursion LineNamed lines.now }
    ensures ok { OnOk result (code.new.items ≡ code.old.items ++ map item_of lines.now) }
    ensures err { OnErr result (code.new.items ≡ code.old.items) }
{
    let before = code.items.len();
    let added = add(code, lines);
    if added.is_err() {
        code.items.truncate(before);
    }
    added
}
