// What a node of an expression finds in the types of its operands, and its own type.
ghost use Rattle.std.specs.Prelude.{◌≡◌, ◌++◌, true, Some, if◌then◌else◌};
ghost use Rattle.frp_tree.specs.Limits.{is_number_type};
ghost use Rattle.frp_tree.specs.Tree.{Const, ProgramTree};
ghost use Rattle.frp_tree.specs.declared.syntax.Ty.TheVariants as ty;
ghost use Rattle.efrp_meaning.specs.Types.{binary_type, convert_type, if_type, literal_type, shift_type, unary_type};
ghost use Rattle.efrp_types.specs.Answers.{Tells, TellsType};
ghost use Rattle.efrp_types.specs.Reasons.{gives_bool};
ghost use Rattle.efrp_types.specs.TypeFaults.{binary_faults, convert_faults, faults_in, no_number, shift_faults, unary_faults, unlike};

use crate::faults::CheckFault;
use crate::reasons::{Reason, refuse_if};
use frp_tree::{BinOp, Lit, Text, Ty, UnOp};
use std::alloc::Global;

/// One type is wanted and another found.
pub fn unlike(alloc: Global, owner: &Text, wanted: Ty, found: Ty) -> Result<(), CheckFault>
    ensures { Tells (unlike owner.now wanted found) result }
{
    refuse_if(
        alloc,
        wanted != found,
        Reason::TypeOf { wanted, found },
        owner,
    )
}

/// A number is wanted.
fn number(alloc: Global, owner: &Text, found: Ty) -> Result<(), CheckFault>
    ensures { Tells (no_number owner.now found) result }
{
    let wanted = Ty::U8;
    refuse_if(
        alloc,
        found == Ty::Bool,
        Reason::TypeOf { wanted, found },
        owner,
    )
}

/// The type of a literal.
pub fn literal(alloc: Global, owner: &Text, lit: Lit) -> Result<Ty, CheckFault>
    ensures { (p : ProgramTree) → TellsType (faults_in p owner.now (Const lit)) (literal_type lit) result }
{
    match lit {
        Lit::Plain(n) => {
            refuse_if(alloc, n > 255, Reason::LiteralRange, owner)?;
            Ok(Ty::U8)
        }
        Lit::Wide(_) => Ok(Ty::U16),
        Lit::Truth(_) => Ok(Ty::Bool),
    }
}

/// The type of an operator with one operand.
pub fn unary(alloc: Global, owner: &Text, op: UnOp, a: Ty) -> Result<Ty, CheckFault>
    ensures { TellsType (unary_faults owner.now op a) (unary_type op (Some a)) result }
{
    match op {
        UnOp::Com => number(alloc, owner, a)?,
        UnOp::Not => unlike(alloc, owner, Ty::Bool, a)?,
    }
    Ok(a)
}

/// Both operands are bools.
fn truths(alloc: Global, owner: &Text, a: Ty, b: Ty) -> Result<(), CheckFault>
    ensures { Tells (unlike owner.now ty.Bool a ++ unlike owner.now ty.Bool b) result }
{
    unlike(alloc, owner, Ty::Bool, a)?;
    unlike(alloc, owner, Ty::Bool, b)
}

/// Both operands are numbers of one type.
fn numbers(alloc: Global, owner: &Text, a: Ty, b: Ty) -> Result<(), CheckFault>
    ensures { Tells (no_number owner.now a ++ unlike owner.now a b) result }
{
    number(alloc, owner, a)?;
    unlike(alloc, owner, a, b)
}

/// The operands of an operator with two.
fn operands(alloc: Global, owner: &Text, op: BinOp, a: Ty, b: Ty) -> Result<(), CheckFault>
    ensures { Tells (binary_faults owner.now op a b) result }
{
    match op {
        BinOp::Or | BinOp::And => truths(alloc, owner, a, b),
        BinOp::Eq | BinOp::Ne => unlike(alloc, owner, a, b),
        BinOp::Lt | BinOp::Le | BinOp::Gt | BinOp::Ge => numbers(alloc, owner, a, b),
        BinOp::BitOr | BinOp::BitXor | BinOp::BitAnd => numbers(alloc, owner, a, b),
        BinOp::Add | BinOp::Sub | BinOp::Mul | BinOp::Div | BinOp::Rem => {
            numbers(alloc, owner, a, b)
        }
    }
}

/// The type of the operator's value, where its operands are as it wants them and the left one has this type.
pub(crate) fn value_type(op: BinOp, a: Ty) -> Ty
    ensures { result ≡ if gives_bool op then ty.Bool else a }
{
    match op {
        BinOp::Or | BinOp::And | BinOp::Eq | BinOp::Ne => Ty::Bool,
        BinOp::Lt | BinOp::Le | BinOp::Gt | BinOp::Ge => Ty::Bool,
        BinOp::BitOr | BinOp::BitXor | BinOp::BitAnd => a,
        BinOp::Add | BinOp::Sub | BinOp::Mul | BinOp::Div | BinOp::Rem => a,
    }
}

/// The type of an operator with two operands.
pub fn binary(alloc: Global, owner: &Text, op: BinOp, a: Ty, b: Ty) -> Result<Ty, CheckFault>
    ensures { TellsType (binary_faults owner.now op a b) (binary_type op (Some a) (Some b)) result }
{
    operands(alloc, owner, op, a, b)?;
    Ok(value_type(op, a))
}

/// The type of a shift.
pub fn shift(alloc: Global, owner: &Text, a: Ty, amount: u16) -> Result<Ty, CheckFault>
    ensures { TellsType (shift_faults owner.now amount a) (shift_type (Some a) amount) result }
{
    match a {
        Ty::Bool => number(alloc, owner, a)?,
        Ty::U8 => refuse_if(alloc, amount > 7, Reason::BadShift, owner)?,
        Ty::U16 => refuse_if(alloc, amount > 15, Reason::BadShift, owner)?,
    }
    Ok(a)
}

/// The type of an `if`.
pub fn choice(alloc: Global, owner: &Text, c: Ty, a: Ty, b: Ty) -> Result<Ty, CheckFault>
    ensures { TellsType (unlike owner.now ty.Bool c ++ unlike owner.now a b) (if_type (Some c) (Some a) (Some b)) result }
{
    unlike(alloc, owner, Ty::Bool, c)?;
    unlike(alloc, owner, a, b)?;
    Ok(a)
}

/// The type of a conversion.
pub fn convert(alloc: Global, owner: &Text, to: Ty, a: Ty) -> Result<Ty, CheckFault>
    requires { is_number_type to ≡ true }
    ensures { TellsType (convert_faults owner.now to a) (convert_type to (Some a)) result }
{
    let wanted = if to == Ty::U8 { Ty::U16 } else { Ty::U8 };
    refuse_if(alloc, to == a, Reason::TypeOf { wanted, found: a }, owner)?;
    Ok(to)
}
