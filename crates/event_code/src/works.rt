// The work of an event: its code, begun in bank 0, and what it moves when it commits.
ghost use Rattle.std.specs.Prelude.{◌≡◌, ℕ, ◌<◌, ◌++◌, map, IfOk, OnOk};
ghost use Rattle.std.specs.List.{AllByRecursion};
ghost use Rattle.bank_alloc.specs.Needs.{bytes_of};
ghost use Rattle.expr_lower.specs.Running.{CanRun};
ghost use Rattle.code_steps.specs.declared.banks.Bank.TheVariants.{Known};
ghost use Rattle.op_templates.specs.Laws.{HasByte};
ghost use Rattle.op_code.specs.Operations.{DoesInOrder, DoesOp};
ghost use Rattle.event_ops.specs.declared.results.Copied.{Copied as AnyCopied};
ghost use Rattle.event_ops.specs.declared.results.Put.{Put as AnyPut};
ghost use Rattle.event_code.specs.Moves.{move_of, moves_of as moves_for, put_of, register_of as register_for};
ghost use Rattle.event_code.specs.Works.{CanBeCoded, IsWorkOf};

use bank_alloc::Places;
use byte_ops::Op;
use event_ops::{Copied, EventOps, Put};
use glue_parts::Move;
use op_code::{Bank, Code, Coded, code_in};
use pic_regs::Place;
use std::alloc::{AllocError, Global};

/// An event's work: its code, begun in bank 0; what is moved when it commits, in order, to states and then to ports; and how many
/// cells it has, those of states first.
#[derive(Debug, Drop)]
pub struct Work {
    pub coded: Coded,
    pub moves: Vec<Move>,
    pub cells: u32,
}

// The operation that makes a cell a byte.
fn set(to: u16, k: u8) -> Op
    ensures is { result ≡ Op.Set to k }
    ensures byte { HasByte result }
{
    Op::Set { to, k }
}

// The code of an operation.
fn code_op(alloc: Global, op: &Op, places: &Places, bank: Bank) -> Result<Coded, AllocError>
    requires { CanRun (bytes_of places.now.need) op.now }
    ensures { IfOk result (λ coded. DoesOp op.now places.now.need bank coded.bank coded.code.items) }
{
    match *op {
        Op::Set { to, k } => code_in(alloc, &set(to, k), places, bank),
        _ => code_in(alloc, op, places, bank),
    }
}

// The code of operations one after the other, begun in bank 0.
fn code_of(alloc: Global, ops: &[Op], places: &Places) -> Result<Coded, AllocError>
    requires { AllByRecursion (CanRun (bytes_of places.now.need)) ops.now }
    ensures { IfOk result (λ coded. DoesInOrder ops.now places.now.need (Known 0) coded.bank coded.code.items) }
{
    let mut code = Code::new(alloc);
    let mut bank = Bank::Known(0);
    for op in ops {
        let coded = code_op(alloc, op, places, bank)?;
        code.items.extend_from_slice(coded.code.items.as_slice())?;
        bank = coded.bank;
    }
    Ok(Coded { code, bank })
}

// The register of a cell.
fn register_of(places: &Places, cell: u16) -> Place
    requires { cell < bytes_of places.now.need }
    ensures { result ≡ register_for places.now.need cell }
{
    Place::Plain(places.address(u32::from(cell)))
}

// The move of a cell to a state's cell.
fn copy_move(places: &Places, one: Copied) -> Move
    requires from { one.from < bytes_of places.now.need }
    requires to { one.to < bytes_of places.now.need }
    ensures { result ≡ move_of places.now.need one }
{
    Move {
        from: register_of(places, one.from),
        to: register_of(places, one.to),
    }
}

// The move of a cell to a port.
fn port_move(places: &Places, one: Put) -> Move
    requires { one.from < bytes_of places.now.need }
    ensures { result ≡ put_of places.now.need one }
{
    Move {
        from: register_of(places, one.from),
        to: Place::Port(one.port),
    }
}

// Adds the moves to states.
fn add_copies(moves: &mut Vec<Move>, copies: &[Copied], places: &Places) -> Result<(), AllocError>
    requires { AllByRecursion (λ (c : AnyCopied). (c.from < bytes_of places.now.need) × (c.to < bytes_of places.now.need)) copies.now }
    ensures { OnOk result (moves.new.items ≡ moves.old.items ++ map (move_of places.now.need) copies.now) }
{
    for one in copies {
        moves.push(copy_move(places, *one))?;
    }
    Ok(())
}

// Adds the moves to ports.
fn add_puts(moves: &mut Vec<Move>, puts: &[Put], places: &Places) -> Result<(), AllocError>
    requires { AllByRecursion (λ (q : AnyPut). q.from < bytes_of places.now.need) puts.now }
    ensures { OnOk result (moves.new.items ≡ moves.old.items ++ map (put_of places.now.need) puts.now) }
{
    for one in puts {
        moves.push(port_move(places, *one))?;
    }
    Ok(())
}

// What the commit moves.
fn moves_of(alloc: Global, ops: &EventOps, places: &Places) -> Result<Vec<Move>, AllocError>
    requires { CanBeCoded (bytes_of places.now.need) ops.now }
    ensures { IfOk result (λ moves. moves.items ≡ moves_for places.now.need ops.now) }
{
    let mut moves = Vec::new(alloc);
    add_copies(&mut moves, ops.copies.as_slice(), places)?;
    add_puts(&mut moves, ops.puts.as_slice(), places)?;
    Ok(moves)
}

/// The work of an event that does this with bytes, where its cells are placed. Begun in bank 0 the code does the operations in order,
/// wherever it stands, also under whole runs of others. An `Err` is out of memory. The time is in proportion to the operations.
pub fn work_of(alloc: Global, ops: &EventOps, places: &Places) -> Result<Work, AllocError>
    requires { CanBeCoded (bytes_of places.now.need) ops.now }
    ensures { IfOk result (IsWorkOf places.now.need ops.now) }
{
    Ok(Work {
        coded: code_of(alloc, ops.ops.as_slice(), places)?,
        moves: moves_of(alloc, ops, places)?,
        cells: ops.cells,
    })
}
