// Lines one after another, with what is known of the bank behind them.
ghost use Rattle.std.specs.Prelude.{◌≡◌, ◌<◌, ◌++◌, ◌∷◌, [], Some, OnOk};
ghost use Rattle.pic_isa.specs.Sources.{flag_of};
ghost use Rattle.pic_regs.specs.Places.{IsPlace, reg_of};
ghost use Rattle.code_steps.specs.declared.banks.Bank.TheVariants.{Known};
ghost use Rattle.code_acts.specs.Acts.{agrees};
ghost use Rattle.code_acts.specs.Codes.{high_bit, low_bit, moved};
ghost use Rattle.glue_parts.specs.Pieces.{Adds, bank_changed, bank_copied, bank_of_flag, bank_stored, bit_lines, knows, lines_for, lines_to_change, lines_to_choose, lines_to_copy, lines_to_load, lines_to_lower, lines_to_skip, lines_to_store, lines_to_write, only_bit as only_bit_of};
ghost use Rattle.glue_parts.specs.Places.{bank_of as bank_of_reg};

use code_steps::Bank;
use glue_steps::Line;
use pic_isa::Source;
use pic_isa::bits::{RP0, RP1};
use pic_regs::bytes::{bit_is_set, has_no_bit};
use pic_regs::{Place, place_at};
use std::alloc::{AllocError, Global};

/// Lines, and what is known of the bank behind them.
#[derive(Debug, Drop)]
pub struct Stretch {
    pub lines: Vec<Line>,
    pub bank: Bank,
}

// Whether the low bit of the bank's number is known to be this.
fn has_low(bank: Bank, value: bool) -> bool
    ensures { result ≡ knows (low_bit bank) value }
{
    match bank {
        Bank::Known(k) => (k % 2 == 1) == value,
        Bank::Unknown => false,
    }
}

// Whether its high bit is.
fn has_high(bank: Bank, value: bool) -> bool
    ensures { result ≡ knows (high_bit bank) value }
{
    match bank {
        Bank::Known(k) => (k / 2 == 1) == value,
        Bank::Unknown => false,
    }
}

// The bit of a byte, 0 to 7, that alone is set, where just one is.
fn only_bit(byte: u8) -> Option<u8>
    ensures { result ≡ only_bit_of byte }
{
    match byte {
        0x01 => Some(0),
        0x02 => Some(1),
        0x04 => Some(2),
        0x08 => Some(3),
        0x10 => Some(4),
        0x20 => Some(5),
        0x40 => Some(6),
        0x80 => Some(7),
        _ => None,
    }
}

/// The low seven bits of the first address of RAM that is in each bank.
const COMMON: u16 = 0x70;

// The bank of a register; None where it is in each bank.
fn bank_of(place: Place) -> Option<u8>
    requires { IsPlace place }
    ensures { result ≡ bank_of_reg (reg_of place) }
{
    match place {
        Place::Pir1 | Place::Pir2 | Place::Port(_) => Some(0),
        Place::Pie1 | Place::Pie2 | Place::Tris(_) => Some(1),
        Place::Plain(address) => {
            if address % 128 < COMMON {
                Some((address / 128) as u8)
            } else {
                None
            }
        }
        _ => None,
    }
}

impl Stretch {
    /// No lines, in this bank. Takes no memory.
    pub fn new(alloc: Global, bank: Bank) -> Stretch
        ensures lines { result.lines.items ≡ [] }
        ensures bank { result.bank ≡ bank }
    {
        Stretch {
            lines: Vec::new(alloc),
            bank,
        }
    }

    /// Adds a line that needs no bank, or whose bank is chosen already, and that changes none.
    pub fn add(&mut self, line: Line) -> Result<(), AllocError>
        ensures { OnOk result (Adds self.old (line ∷ []) self.old.bank self.new) }
    {
        self.lines.push(line)?;
        Ok(())
    }

    /// Chooses a bank, 0 to 3, where it isn't known to be chosen: bank 0 by clearing STATUS, and another by those of its two bits
    /// that aren't known to be right.
    pub fn choose(&mut self, bank: u8) -> Result<(), AllocError>
        ensures { OnOk result (Adds self.old (lines_to_choose self.old.bank bank) (Known bank) self.new) }
    {
        if self.bank == Bank::Known(bank) {
            return Ok(());
        }
        if bank == 0 {
            self.add(Line::Clear(Place::Status))?;
        } else {
            self.choose_bits(bank % 2 == 1, bank / 2 == 1)?;
        }
        self.bank = Bank::Known(bank);
        Ok(())
    }

    fn choose_bits(&mut self, low: bool, high: bool) -> Result<(), AllocError>
        ensures { OnOk result (Adds self.old (bit_lines 5 (low_bit self.old.bank) low ++ bit_lines 6 (high_bit self.old.bank) high) self.old.bank self.new) }
    {
        if !has_low(self.bank, low) {
            self.add(Line::Bit(low, Place::Status, RP0))?;
        }
        if !has_high(self.bank, high) {
            self.add(Line::Bit(high, Place::Status, RP1))?;
        }
        Ok(())
    }

    // Chooses the bank of a register, where it has one.
    fn choose_for(&mut self, place: Place) -> Result<(), AllocError>
        requires { IsPlace place }
        ensures { OnOk result (Adds self.old (lines_for self.old.bank (bank_of_reg (reg_of place))) (moved self.old.bank (bank_of_reg (reg_of place))) self.new) }
    {
        match bank_of(place) {
            Some(bank) => self.choose(bank),
            None => Ok(()),
        }
    }

    // Loads W from a register, in its bank.
    fn load(&mut self, place: Place) -> Result<(), AllocError>
        requires { IsPlace place }
        ensures { OnOk result (Adds self.old (lines_to_load self.old.bank place) (moved self.old.bank (bank_of_reg (reg_of place))) self.new) }
    {
        self.choose_for(place)?;
        self.add(Line::Load(place))
    }

    // Stores W in a register, in its bank. Behind a store in STATUS no bank is known.
    fn store(&mut self, place: Place) -> Result<(), AllocError>
        requires { IsPlace place }
        ensures { OnOk result (Adds self.old (lines_to_store self.old.bank place) (bank_stored self.old.bank place) self.new) }
    {
        self.choose_for(place)?;
        self.add(Line::Store(place))?;
        if place == Place::Status {
            self.bank = Bank::Unknown;
        }
        Ok(())
    }

    /// Copies one register to another, each in its bank.
    pub fn copy(&mut self, from: Place, to: Place) -> Result<(), AllocError>
        requires from { IsPlace from }
        requires to { IsPlace to }
        ensures { OnOk result (Adds self.old (lines_to_copy self.old.bank from to) (bank_copied self.old.bank from to) self.new) }
    {
        self.load(from)?;
        self.store(to)
    }

    /// Writes a byte to a register other than STATUS, in its bank.
    pub fn write(&mut self, place: Place, byte: u8) -> Result<(), AllocError>
        requires { IsPlace place }
        ensures { OnOk result (Adds self.old (lines_to_write self.old.bank place byte) (moved self.old.bank (bank_of_reg (reg_of place))) self.new) }
    {
        self.choose_for(place)?;
        if has_no_bit(byte) {
            return self.add(Line::Clear(place));
        }
        self.add(Line::Constant(byte))?;
        self.add(Line::Store(place))
    }

    /// Makes a register other than STATUS the given byte, from which it differs at most in the bits that are set in `changing`.
    pub fn change(&mut self, place: Place, changing: u8, byte: u8) -> Result<(), AllocError>
        requires { IsPlace place }
        ensures { OnOk result (Adds self.old (lines_to_change self.old.bank place changing byte) (bank_changed self.old.bank place changing) self.new) }
    {
        if has_no_bit(changing) {
            return Ok(());
        }
        match only_bit(changing) {
            Some(bit) => {
                self.choose_for(place)?;
                self.add(Line::Bit(bit_is_set(byte, bit), place, bit))
            }
            None => self.write(place, byte),
        }
    }

    /// Skips the next line where a bit of a register, in its bank, is clear. The next line needs no bank.
    pub fn skip_if_clear(&mut self, place: Place, bit: u8) -> Result<(), AllocError>
        requires { IsPlace place }
        ensures { OnOk result (Adds self.old (lines_to_skip self.old.bank place bit) (moved self.old.bank (bank_of_reg (reg_of place))) self.new) }
    {
        self.choose_for(place)?;
        self.add(Line::Skip(false, place, bit))
    }

    /// Clears the flag of a source, in its bank.
    pub fn lower(&mut self, source: Source) -> Result<(), AllocError>
        ensures { OnOk result (Adds self.old (lines_to_lower self.old.bank source) (moved self.old.bank (bank_of_flag source)) self.new) }
    {
        self.choose_for(place_at(source.flag().address))?;
        self.add(Line::Lower(source))
    }
}
