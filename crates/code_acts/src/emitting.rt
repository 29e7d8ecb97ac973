// The code of acts: each act's instruction, behind the bank settings that it wants.

ghost use Rattle.std.specs.Prelude.{◌≡◌, ◌%◌, ◌<◌, ◌++◌, [], IfOk, OnOk};
ghost use Rattle.code_acts.specs.Acts.{name_of, number as number_of};
ghost use Rattle.code_acts.specs.Codes.{PlacesFit, bank_after, bit_setting, code as code_of, const_instr as const_instr_of, far as far_of, file_instr as file_instr_of, high_bit as high_bit_of, instr_of, low_bit as low_bit_of, moved, place_of, settings, skip_instr as skip_instr_of, status_setting as status_setting_of, with_own};

use crate::acts::{Act, ConstOp, FileOp, Name, Places};
use code_steps::Bank;
use frp_tree::List;
use pic_isa::bits::{CARRY, RP0, RP1, ZERO};
use pic_isa::{Dest, Instr};
use std::alloc::{AllocError, Global};

/// The low seven bits of the address of STATUS.
const STATUS: u8 = 0x03;

/// Code, and what is known of the bank behind it.
#[derive(Debug, Drop)]
pub struct Coded {
    pub code: List<Instr>,
    pub bank: Bank,
}

fn number(name: Name) -> u8
    ensures { result ≡ number_of name }
{
    match name {
        Name::Operand0 => 0,
        Name::Operand1 => 1,
        Name::Operand2 => 2,
        Name::Operand3 => 3,
        Name::Operand4 => 4,
        Name::Operand5 => 5,
        Name::Operand6 => 6,
        Name::Operand7 => 7,
        Name::Operand8 => 8,
        Name::Operand9 => 9,
        Name::Operand10 => 10,
        Name::Operand11 => 11,
        Name::To => 12,
        Name::ToHigh => 13,
        Name::A => 14,
        Name::AHigh => 15,
        Name::B => 16,
        Name::BHigh => 17,
        Name::C => 18,
    }
}

// The address of a byte by the number of its name.
fn address(places: &Places, n: u8) -> u16
    requires { PlacesFit places.now }
    ensures is { result ≡ place_of places.now n }
    ensures below { result < 512 }
{
    if n < 12 {
        return 0x74 + u16::from(n);
    }
    match n {
        12 => places.to,
        13 => places.to_high,
        14 => places.a,
        15 => places.a_high,
        16 => places.b,
        17 => places.b_high,
        _ => places.c,
    }
}

// The low seven bits of a name's address, which an instruction has.
fn field(places: &Places, name: Name) -> u8
    requires { PlacesFit places.now }
    ensures { result ≡ place_of places.now (number_of name) % 128 }
{
    (address(places, number(name)) % 128) as u8
}

fn file_instr(op: FileOp, f: u8, d: Dest) -> Instr
    ensures { result ≡ file_instr_of op f d }
{
    match op {
        FileOp::Add => Instr::Addwf { f, d },
        FileOp::And => Instr::Andwf { f, d },
        FileOp::Com => Instr::Comf { f, d },
        FileOp::IncSkip => Instr::Incfsz { f, d },
        FileOp::Ior => Instr::Iorwf { f, d },
        FileOp::Mov => Instr::Movf { f, d },
        FileOp::Left => Instr::Rlf { f, d },
        FileOp::Right => Instr::Rrf { f, d },
        FileOp::Sub => Instr::Subwf { f, d },
        FileOp::Swap => Instr::Swapf { f, d },
        FileOp::Xor => Instr::Xorwf { f, d },
    }
}

fn const_instr(op: ConstOp, k: u8) -> Instr
    ensures { result ≡ const_instr_of op k }
{
    match op {
        ConstOp::AddK => Instr::Addlw { k },
        ConstOp::AndK => Instr::Andlw { k },
        ConstOp::MovK => Instr::Movlw { k },
        ConstOp::XorK => Instr::Xorlw { k },
    }
}

fn skip_instr(v: bool, f: u8, b: u8) -> Instr
    ensures { result ≡ skip_instr_of v f b }
{
    if v {
        Instr::Btfss { f, b }
    } else {
        Instr::Btfsc { f, b }
    }
}

fn status_setting(b: u8, v: bool) -> Instr
    ensures { result ≡ status_setting_of b v }
{
    if v {
        Instr::Bsf { f: STATUS, b }
    } else {
        Instr::Bcf { f: STATUS, b }
    }
}

// The instruction of an act, where it has one.
fn instr(places: &Places, act: Act) -> Option<Instr>
    requires { PlacesFit places.now }
    ensures { result ≡ instr_of (place_of places.now) act }
{
    match act {
        Act::File(op, name, d) => Some(file_instr(op, field(places, name), d)),
        Act::Store(name) => Some(Instr::Movwf {
            f: field(places, name),
        }),
        Act::Clear(name) => Some(Instr::Clrf {
            f: field(places, name),
        }),
        Act::Const(op, k) => Some(const_instr(op, k)),
        Act::SkipBit(v, name, b) => Some(skip_instr(v, field(places, name), b)),
        Act::SkipCarry(v) => Some(skip_instr(v, STATUS, CARRY)),
        Act::SkipZero(v) => Some(skip_instr(v, STATUS, ZERO)),
        Act::MakeCarry(v) => Some(status_setting(CARRY, v)),
        Act::Near(_) => None,
    }
}

// The number of the name that an act has, where it has one.
fn name(act: Act) -> Option<u8>
    ensures { result ≡ name_of act }
{
    match act {
        Act::File(_, name, _)
        | Act::Store(name)
        | Act::Clear(name)
        | Act::SkipBit(_, name, _)
        | Act::Near(name) => Some(number(name)),
        Act::Const(_, _) | Act::SkipCarry(_) | Act::SkipZero(_) | Act::MakeCarry(_) => None,
    }
}

// The bank that a name wants; None for an operand byte, and where there is no name.
fn far(places: &Places, name: Option<u8>) -> Option<u8>
    requires { PlacesFit places.now }
    ensures { result ≡ far_of (place_of places.now) name }
{
    match name {
        Some(n) => {
            if n < 12 {
                None
            } else {
                Some((address(places, n) / 128) as u8)
            }
        }
        None => None,
    }
}

fn low_bit(bank: Bank) -> Option<bool>
    ensures { result ≡ low_bit_of bank }
{
    match bank {
        Bank::Known(k) => Some(k % 2 == 1),
        Bank::Unknown => None,
    }
}

fn high_bit(bank: Bank) -> Option<bool>
    ensures { result ≡ high_bit_of bank }
{
    match bank {
        Bank::Known(k) => Some(k / 2 == 1),
        Bank::Unknown => None,
    }
}

// Adds the setting of a bank bit, where it isn't known to be right.
fn add_bit(code: &mut List<Instr>, b: u8, known: Option<bool>, v: bool) -> Result<(), AllocError>
    ensures { OnOk result (code.new ≡ code.old ++ bit_setting b known v []) }
{
    match known {
        Some(bit) => {
            if bit != v {
                code.push(status_setting(b, v))?;
            }
        }
        None => code.push(status_setting(b, v))?,
    }
    Ok(())
}

// Adds the bank settings that are wanted.
fn add_settings(code: &mut List<Instr>, bank: Bank, target: Option<u8>) -> Result<(), AllocError>
    ensures { OnOk result (code.new ≡ code.old ++ settings bank target []) }
{
    match target {
        Some(k) => {
            add_bit(code, RP0, low_bit(bank), k % 2 == 1)?;
            add_bit(code, RP1, high_bit(bank), k / 2 == 1)
        }
        None => Ok(()),
    }
}

// Adds the code of an act, and answers the bank behind it.
fn add_act(
    code: &mut List<Instr>,
    places: &Places,
    bank: Bank,
    act: Act,
) -> Result<Bank, AllocError>
    requires { PlacesFit places.now }
    ensures code { OnOk result (code.new ≡ code.old ++ settings bank (far_of (place_of places.now) (name_of act)) (with_own (instr_of (place_of places.now) act) [])) }
    ensures bank { IfOk result (λ behind. behind ≡ moved bank (far_of (place_of places.now) (name_of act))) }
{
    let target = far(places, name(act));
    add_settings(code, bank, target)?;
    if let Some(i) = instr(places, act) {
        code.push(i)?;
    }
    Ok(match target {
        Some(k) => Bank::Known(k),
        None => bank,
    })
}

/// The code of acts for bytes at these addresses, begun in this bank, with what is known of the bank behind it. Each address is
/// below 512. Bank bits are set only where they aren't known to be right. The code lies in the allocator's memory. An `Err` is out
/// of memory.
pub fn instructions(
    alloc: Global,
    acts: &[Act],
    places: Places,
    bank: Bank,
) -> Result<Coded, AllocError>
    requires { PlacesFit places }
    ensures code { IfOk result (λ coded. coded.code ≡ code_of (place_of places) bank acts.now) }
    ensures bank { IfOk result (λ coded. coded.bank ≡ bank_after (place_of places) bank acts.now) }
{
    let mut code = List::new(alloc);
    let mut now = bank;
    for act in acts {
        now = add_act(&mut code, &places, now, *act)?;
    }
    Ok(Coded { code, bank: now })
}
