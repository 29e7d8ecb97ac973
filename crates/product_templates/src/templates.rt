// The acts of products and quotients, written one after another.

ghost use Rattle.std.specs.Prelude.{◌≡◌, ◌<◌, ◌++◌, true, false, IfOk, IsTrue, OnOk};
ghost use Rattle.byte_ops.specs.Kinds.{is_product};
ghost use Rattle.product_templates.specs.Templates.{carrying, copying, copying_in, copying_out, core_of, dividing, doubling, crossing, folding, long_product, low_result as low_result_of, high_result as high_result_of, product_template as template_of, repeated, taking, turning, weighing, wide_turning};

use code_acts::{Act, ConstOp, FileOp, Name};
use frp_tree::BinOp;
use pic_isa::Dest;
use std::alloc::{AllocError, Global};

// An operation on a byte, in its place.
fn in_place(op: FileOp, name: Name) -> Act
    ensures { result ≡ Act.File op name Dest.F }
{
    Act::File(op, name, Dest::F)
}

// A byte to W.
fn load(name: Name) -> Act
    ensures { result ≡ Act.File FileOp.Mov name Dest.W }
{
    Act::File(FileOp::Mov, name, Dest::W)
}

fn add_taking(acts: &mut Vec<Act>, y: Name, i: u8) -> Result<(), AllocError>
    requires { i < 4 }
    ensures { OnOk result (acts.new.items ≡ acts.old.items ++ taking y i) }
{
    acts.extend_from_slice(&[
        Act::SkipBit(false, y, i),
        in_place(FileOp::Add, Name::Operand5),
        Act::SkipBit(false, y, i + 4),
        in_place(FileOp::Add, Name::Operand6),
    ])
}

fn add_doubling(acts: &mut Vec<Act>, x: Name) -> Result<(), AllocError>
    ensures { OnOk result (acts.new.items ≡ acts.old.items ++ doubling x) }
{
    acts.extend_from_slice(&[in_place(FileOp::Add, x), load(x)])
}

fn add_weighing(acts: &mut Vec<Act>, x: Name, y: Name) -> Result<(), AllocError>
    ensures { OnOk result (acts.new.items ≡ acts.old.items ++ weighing x y) }
{
    add_taking(acts, y, 0)?;
    add_doubling(acts, x)?;
    add_taking(acts, y, 1)?;
    add_doubling(acts, x)?;
    add_taking(acts, y, 2)?;
    add_doubling(acts, x)?;
    add_taking(acts, y, 3)
}

fn add_folding(acts: &mut Vec<Act>) -> Result<(), AllocError>
    ensures { OnOk result (acts.new.items ≡ acts.old.items ++ folding) }
{
    acts.extend_from_slice(&[
        Act::File(FileOp::Swap, Name::Operand6, Dest::W),
        Act::Const(ConstOp::AndK, 0xF0),
        in_place(FileOp::Add, Name::Operand5),
    ])
}

fn add_carrying(acts: &mut Vec<Act>, i: u8) -> Result<(), AllocError>
    ensures { OnOk result (acts.new.items ≡ acts.old.items ++ carrying i) }
{
    acts.extend_from_slice(&[
        Act::SkipBit(false, Name::Operand2, i),
        in_place(FileOp::Add, Name::Operand5),
        in_place(FileOp::Right, Name::Operand5),
        in_place(FileOp::Right, Name::Operand4),
    ])
}

fn add_long_product(acts: &mut Vec<Act>) -> Result<(), AllocError>
    ensures { OnOk result (acts.new.items ≡ acts.old.items ++ long_product) }
{
    acts.extend_from_slice(&[
        load(Name::Operand0),
        Act::Clear(Name::Operand4),
        Act::Clear(Name::Operand5),
        Act::MakeCarry(false),
    ])?;
    for i in 0..8_u8 {
        add_carrying(acts, i)?;
    }
    Ok(())
}

fn add_narrow_product(acts: &mut Vec<Act>) -> Result<(), AllocError>
    ensures { OnOk result (acts.new.items ≡ acts.old.items ++ core_of BinOp.Mul false) }
{
    acts.extend_from_slice(&[
        load(Name::Operand0),
        Act::Clear(Name::Operand5),
        Act::Clear(Name::Operand6),
    ])?;
    add_weighing(acts, Name::Operand0, Name::Operand3)?;
    add_folding(acts)
}

fn add_crossing(acts: &mut Vec<Act>) -> Result<(), AllocError>
    ensures { OnOk result (acts.new.items ≡ acts.old.items ++ crossing) }
{
    acts.extend_from_slice(&[Act::Clear(Name::Operand6)])?;
    add_weighing(acts, Name::Operand0, Name::Operand3)?;
    acts.extend_from_slice(&[load(Name::Operand1)])?;
    add_weighing(acts, Name::Operand1, Name::Operand2)
}

fn add_wide_product(acts: &mut Vec<Act>) -> Result<(), AllocError>
    ensures { OnOk result (acts.new.items ≡ acts.old.items ++ core_of BinOp.Mul true) }
{
    add_long_product(acts)?;
    add_crossing(acts)?;
    add_folding(acts)
}

fn add_repeated(acts: &mut Vec<Act>, turn: &[Act], times: u8) -> Result<(), AllocError>
    ensures { OnOk result (acts.new.items ≡ acts.old.items ++ repeated times turn.now) }
{
    for _ in 0..times {
        acts.extend_from_slice(turn)?;
    }
    Ok(())
}

fn turn() -> [Act; 9]
    ensures { result ≡ turning }
{
    [
        in_place(FileOp::Left, Name::Operand0),
        in_place(FileOp::Left, Name::Operand4),
        in_place(FileOp::Left, Name::Operand8), // The ninth bit of the rest.
        load(Name::Operand3),
        Act::File(FileOp::Sub, Name::Operand4, Dest::W),
        Act::SkipBit(false, Name::Operand8, 0),
        Act::MakeCarry(true),
        Act::SkipCarry(false),
        Act::Store(Name::Operand4),
    ]
}

fn wide_turn() -> [Act; 22]
    ensures { result ≡ wide_turning }
{
    [
        in_place(FileOp::Left, Name::Operand0),
        in_place(FileOp::Left, Name::Operand1),
        in_place(FileOp::Left, Name::Operand4),
        in_place(FileOp::Left, Name::Operand5),
        in_place(FileOp::Left, Name::Operand8), // The seventeenth bit of the rest.
        load(Name::Operand2),
        Act::File(FileOp::Sub, Name::Operand4, Dest::W),
        Act::Store(Name::Operand6), // The lower byte of the difference.
        load(Name::Operand5),
        Act::Store(Name::Operand7),
        load(Name::Operand3),
        Act::SkipCarry(true),
        Act::File(FileOp::IncSkip, Name::Operand3, Dest::W),
        in_place(FileOp::Sub, Name::Operand7),
        Act::SkipBit(false, Name::Operand8, 0),
        Act::MakeCarry(true),
        load(Name::Operand7),
        Act::SkipCarry(false),
        Act::Store(Name::Operand5),
        load(Name::Operand6),
        Act::SkipCarry(false),
        Act::Store(Name::Operand4),
    ]
}

fn add_dividing(acts: &mut Vec<Act>) -> Result<(), AllocError>
    ensures { OnOk result (acts.new.items ≡ acts.old.items ++ dividing false) }
{
    acts.extend_from_slice(&[Act::Clear(Name::Operand4)])?;
    add_repeated(acts, &turn(), 8)
}

fn add_wide_dividing(acts: &mut Vec<Act>) -> Result<(), AllocError>
    ensures { OnOk result (acts.new.items ≡ acts.old.items ++ dividing true) }
{
    acts.extend_from_slice(&[Act::Clear(Name::Operand4), Act::Clear(Name::Operand5)])?;
    add_repeated(acts, &wide_turn(), 16)
}

fn add_core(acts: &mut Vec<Act>, f: BinOp, wide: bool) -> Result<(), AllocError>
    ensures { OnOk result (acts.new.items ≡ acts.old.items ++ core_of f wide) }
{
    match (f, wide) {
        (BinOp::Mul, false) => add_narrow_product(acts),
        (BinOp::Mul, true) => add_wide_product(acts),
        (BinOp::Div, false) => {
            add_dividing(acts)?;
            acts.extend_from_slice(&[in_place(FileOp::Left, Name::Operand0)])
        }
        (BinOp::Div, true) => {
            add_wide_dividing(acts)?;
            acts.extend_from_slice(&[
                in_place(FileOp::Left, Name::Operand0),
                in_place(FileOp::Left, Name::Operand1),
            ])
        }
        (BinOp::Rem, false) => add_dividing(acts),
        (BinOp::Rem, true) => add_wide_dividing(acts),
        _ => Ok(()),
    }
}

fn low_result(f: BinOp, wide: bool) -> Name
    ensures { result ≡ low_result_of f wide }
{
    match (f, wide) {
        (BinOp::Mul, false) => Name::Operand5,
        (BinOp::Div, _) => Name::Operand0,
        _ => Name::Operand4,
    }
}

fn high_result(f: BinOp) -> Name
    ensures { result ≡ high_result_of f }
{
    match f {
        BinOp::Div => Name::Operand1,
        _ => Name::Operand5,
    }
}

fn add_copying(acts: &mut Vec<Act>, from: Name, to: Name) -> Result<(), AllocError>
    ensures { OnOk result (acts.new.items ≡ acts.old.items ++ copying from to) }
{
    acts.extend_from_slice(&[load(from), Act::Store(to)])
}

fn add_copying_in(acts: &mut Vec<Act>, wide: bool) -> Result<(), AllocError>
    ensures { OnOk result (acts.new.items ≡ acts.old.items ++ copying_in wide) }
{
    add_copying(acts, Name::A, Name::Operand0)?;
    if !wide {
        return add_copying(acts, Name::B, Name::Operand3);
    }
    add_copying(acts, Name::AHigh, Name::Operand1)?;
    add_copying(acts, Name::B, Name::Operand2)?;
    add_copying(acts, Name::BHigh, Name::Operand3)
}

fn add_copying_out(acts: &mut Vec<Act>, f: BinOp, wide: bool) -> Result<(), AllocError>
    ensures { OnOk result (acts.new.items ≡ acts.old.items ++ copying_out f wide) }
{
    add_copying(acts, low_result(f, wide), Name::To)?;
    if wide {
        add_copying(acts, high_result(f), Name::ToHigh)?;
    }
    Ok(())
}

/// The acts of `f`, which is `Mul`, `Div` or `Rem`, of 8 bits, or of 16 where it is wide: the operands are copied to operand bytes,
/// a core computes there, and the result is copied to where it belongs. By 0, `Div` gives the greatest value and `Rem` its left
/// operand.
///
/// # Errors
/// Out of memory.
pub fn product_template(alloc: Global, f: BinOp, wide: bool) -> Result<Vec<Act>, AllocError>
    requires { IsTrue (is_product f) }
    ensures { IfOk result (λ acts. acts.items ≡ template_of f wide) }
{
    let mut acts = Vec::new(alloc);
    add_copying_in(&mut acts, wide)?;
    add_core(&mut acts, f, wide)?;
    add_copying_out(&mut acts, f, wide)?;
    Ok(acts)
}
