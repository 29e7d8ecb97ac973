// The templates of shifts.

ghost use Rattle.std.specs.Prelude.{◌≡◌, ◌≤◌, ◌<◌, [], IfOk};
ghost use Rattle.byte_ops.specs.Kinds.{most_shifted};
ghost use Rattle.op_templates.specs.Shifts.{back, byte_shift, mask, pair_shift, shift_template, turn};

use code_acts::{Act, ConstOp, FileOp, Name};
use frp_tree::Side;
use pic_isa::Dest;
use std::alloc::{AllocError, Global};

// A turn to a side by one, through the carry.
fn turn(side: Side) -> FileOp
    ensures { result ≡ turn side }
{
    match side {
        Side::Left => FileOp::Left,
        Side::Right => FileOp::Right,
    }
}

// A turn to the other side.
fn back(side: Side) -> FileOp
    ensures { result ≡ back side }
{
    match side {
        Side::Left => FileOp::Right,
        Side::Right => FileOp::Left,
    }
}

// The bits of a byte that a shift leaves of eight ones.
fn mask(side: Side, n: u8) -> u8
    requires { n ≤ 7 }
    ensures { result ≡ mask side n }
{
    match side {
        Side::Left => 0xFF_u8 << n,
        Side::Right => 0xFF_u8 >> n,
    }
}

// The byte y is the byte x shifted by at most 7.
fn byte_shift(alloc: Global, side: Side, n: u8, x: Name, y: Name) -> Result<Vec<Act>, AllocError>
    requires { n ≤ 7 }
    ensures { IfOk result (λ acts. acts.items ≡ byte_shift side n x y []) }
{
    let turned = Act::File(turn(side), x, Dest::W);
    let swapped = Act::File(FileOp::Swap, x, Dest::W);
    let again = Act::File(turn(side), Name::Operand0, Dest::W);
    let kept = Act::File(turn(side), Name::Operand0, Dest::F);
    let stored = Act::Store(Name::Operand0);
    let masked = Act::Const(ConstOp::AndK, mask(side, n));
    let result = Act::Store(y);
    match n {
        0 => Ok(vec![in alloc; Act::File(FileOp::Mov, x, Dest::W), result]?),
        1 => Ok(vec![in alloc; Act::MakeCarry(false), turned, result]?),
        2 => Ok(vec![in alloc; turned, stored, again, masked, result]?),
        3 => Ok(vec![in alloc; turned, stored, kept, again, masked, result]?),
        4 => Ok(vec![in alloc; swapped, masked, result]?),
        5 => Ok(vec![in alloc; swapped, stored, again, masked, result]?),
        6 => Ok(vec![in alloc; swapped, stored, kept, again, masked, result]?),
        _ => Ok(vec![in alloc;
            Act::File(back(side), x, Dest::W),
            Act::Clear(y),
            Act::File(back(side), y, Dest::F),
        ]?),
    }
}

// A shift of two bytes: its side, the byte x from which bits go, the byte y to which they go, and the bytes of their results.
#[derive(Clone, Copy)]
struct Way {
    side: Side,
    x: Name,
    y: Name,
    x_to: Name,
    y_to: Name,
}

// Two bytes shifted by at most 3, by turns to the side.
fn turned(alloc: Global, way: Way, n: u8) -> Result<Vec<Act>, AllocError>
    requires { n ≤ 3 }
    ensures { IfOk result (λ acts. acts.items ≡ pair_shift way.side n way.x way.y way.x_to way.y_to) }
{
    let to = turn(way.side);
    let turn_x = Act::File(to, way.x, Dest::W);
    let turn_y = Act::File(to, way.y, Dest::W);
    let hold_x = Act::Store(Name::Operand0);
    let hold_y = Act::Store(Name::Operand1);
    let last_x = Act::File(to, Name::Operand0, Dest::W);
    let last_y = Act::File(to, Name::Operand1, Dest::W);
    let masked = Act::Const(ConstOp::AndK, mask(way.side, n));
    let put_x = Act::Store(way.x_to);
    let put_y = Act::Store(way.y_to);
    match n {
        0 => Ok(vec![in alloc;
            Act::File(FileOp::Mov, way.x, Dest::W),
            put_x,
            Act::File(FileOp::Mov, way.y, Dest::W),
            put_y,
        ]?),
        1 => Ok(vec![in alloc; Act::MakeCarry(false), turn_x, put_x, turn_y, put_y]?),
        2 => Ok(vec![in alloc;
            turn_x, hold_x, turn_y, hold_y, last_x, masked, put_x, last_y, put_y,
        ]?),
        _ => {
            let more_x = Act::File(to, Name::Operand0, Dest::F);
            let more_y = Act::File(to, Name::Operand1, Dest::F);
            let mut acts = vec![in alloc; turn_x, hold_x, turn_y, hold_y, more_x, more_y]?;
            acts.extend_from_slice(&[last_x, masked, put_x, last_y, put_y])?;
            Ok(acts)
        }
    }
}

// Two bytes shifted by 4 or 5: halves are exchanged and put together.
fn spliced(alloc: Global, way: Way, n: u8) -> Result<Vec<Act>, AllocError>
    requires from { 4 ≤ n }
    requires up_to { n ≤ 5 }
    ensures { IfOk result (λ acts. acts.items ≡ pair_shift way.side n way.x way.y way.x_to way.y_to) }
{
    let swap_x = Act::File(FileOp::Swap, way.x, Dest::W);
    let swap_y = Act::File(FileOp::Swap, way.y, Dest::W);
    let hold = Act::Store(Name::Operand0);
    let masked = Act::Const(ConstOp::AndK, mask(way.side, 4));
    let cut = Act::File(FileOp::Xor, Name::Operand0, Dest::F);
    let put_x = Act::Store(way.x_to);
    let put_y = Act::Store(way.y_to);
    if n == 4 {
        let join = Act::File(FileOp::Ior, Name::Operand0, Dest::W);
        Ok(vec![in alloc;
            swap_x, hold, masked, cut, put_x, swap_y, masked, join, put_y,
        ]?)
    } else {
        Ok(vec![in alloc;
            swap_x,
            hold,
            masked,
            cut,
            Act::Store(Name::Operand1),
            swap_y,
            masked,
            Act::File(FileOp::Ior, Name::Operand0, Dest::F),
            Act::MakeCarry(false),
            Act::File(turn(way.side), Name::Operand1, Dest::W),
            put_x,
            Act::File(turn(way.side), Name::Operand0, Dest::W),
            put_y,
        ]?)
    }
}

// Two bytes shifted by 6 or 7, as a shift by a byte and turns back.
fn turned_back(alloc: Global, way: Way, n: u8) -> Result<Vec<Act>, AllocError>
    requires from { 6 ≤ n }
    requires up_to { n ≤ 7 }
    ensures { IfOk result (λ acts. acts.items ≡ pair_shift way.side n way.x way.y way.x_to way.y_to) }
{
    let from = back(way.side);
    let back_x = Act::File(from, way.x, Dest::W);
    let back_y = Act::File(from, way.y, Dest::W);
    let put_x = Act::Store(way.x_to);
    let put_y = Act::Store(way.y_to);
    if n == 6 {
        Ok(vec![in alloc;
            back_y,
            Act::Store(Name::Operand1),
            back_x,
            Act::Store(Name::Operand0),
            Act::Clear(Name::Operand2),
            Act::File(from, Name::Operand2, Dest::F),
            Act::File(from, Name::Operand1, Dest::W),
            Act::File(from, Name::Operand0, Dest::W),
            put_y,
            Act::File(from, Name::Operand2, Dest::W),
            put_x,
        ]?)
    } else {
        let last = Act::File(from, way.x_to, Dest::F);
        Ok(vec![in alloc; back_y, back_x, put_y, Act::Clear(way.x_to), last]?)
    }
}

// Two bytes shifted by at most 15.
fn pair_shift(alloc: Global, way: Way, n: u8) -> Result<Vec<Act>, AllocError>
    requires { n ≤ 15 }
    ensures { IfOk result (λ acts. acts.items ≡ pair_shift way.side n way.x way.y way.x_to way.y_to) }
{
    if n < 4 {
        turned(alloc, way, n)
    } else if n < 6 {
        spliced(alloc, way, n)
    } else if n < 8 {
        turned_back(alloc, way, n)
    } else {
        let mut acts = byte_shift(alloc, way.side, n - 8, way.x, way.y_to)?;
        acts.push(Act::Clear(way.x_to))?;
        Ok(acts)
    }
}

// From the low byte to the high one, and from the high byte to the low one.
const TO_LEFT: Way = Way {
    side: Side::Left,
    x: Name::A,
    y: Name::AHigh,
    x_to: Name::To,
    y_to: Name::ToHigh,
};

const TO_RIGHT: Way = Way {
    side: Side::Right,
    x: Name::AHigh,
    y: Name::A,
    x_to: Name::ToHigh,
    y_to: Name::To,
};

// A shift of A by at most 7, or 15 where it is wide.
pub(crate) fn shift(alloc: Global, side: Side, wide: bool, n: u8) -> Result<Vec<Act>, AllocError>
    requires { n ≤ most_shifted wide }
    ensures { IfOk result (λ acts. acts.items ≡ shift_template side wide n) }
{
    match (wide, side) {
        (false, _) => byte_shift(alloc, side, n, Name::A, Name::To),
        (true, Side::Left) => pair_shift(alloc, TO_LEFT, n),
        (true, Side::Right) => pair_shift(alloc, TO_RIGHT, n),
    }
}
