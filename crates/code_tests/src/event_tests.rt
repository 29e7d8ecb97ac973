// The work of a counter's event: its moves, and its code, run by the simulator.

ghost use Rattle.std.specs.Prelude.{◌≡◌, IfOk};
ghost use Rattle.std.specs.List.{AllByRecursion};
ghost use Rattle.bank_alloc.specs.Needs.{bytes_of};
ghost use Rattle.code_items.specs.Items.{ItemFits, OnceEach};
ghost use Rattle.event_code.specs.Works.{CanBeCoded};

use crate::op_tests::{places, powered, run_code};
use bank_alloc::Places;
use byte_ops::{Op, Pair};
use event_code::{Work, work_of};
use event_ops::{Copied, EventOps, Put};
use frp_tree::{BinOp, List};
use glue_parts::Move;
use pic_regs::Place;
use std::alloc::{AllocError, Global};
use std::test::Fail;

fn one_cell(cell: u16) -> Pair
    ensures low { result.low ≡ cell }
    ensures high { result.high ≡ cell }
{
    Pair {
        low: cell,
        high: cell,
    }
}

// The state is in cell 0. The event adds 1 to it by cells 1 and 2, copies the sum back and puts it on PORTC.
fn counting(alloc: Global) -> Result<EventOps, AllocError>
    ensures { IfOk result (CanBeCoded 352) }
{
    let mut ops = List::new(alloc);
    ops.push(Op::Set { to: 1, k: 1 })?;
    ops.push(Op::Sum {
        f: BinOp::Add,
        wide: false,
        to: one_cell(2),
        a: one_cell(0),
        b: one_cell(1),
    })?;
    let mut copies = List::new(alloc);
    copies.push(Copied { from: 2, to: 0 })?;
    let mut puts = List::new(alloc);
    puts.push(Put { from: 2, port: 2 })?;
    Ok(EventOps {
        ops,
        copies,
        puts,
        cells: 3,
    })
}

// The event's work.
fn work(alloc: Global, ops: &EventOps, places: &Places) -> Result<Work, AllocError>
    requires all { bytes_of places.now.need ≡ 352 }
    requires can { CanBeCoded 352 ops.now }
    ensures fit { IfOk result (λ work. AllByRecursion ItemFits work.coded.code.items) }
    ensures once { IfOk result (λ work. OnceEach work.coded.code.items) }
{
    let work = work_of(alloc, ops, places)?;
    Ok(work)
}

#[test]
fn counter_counts(rt: HostRuntime) -> Result<(), Fail> {
    let places = places().ok_or("no places")?;
    let ops = counting(rt.alloc())?;
    let work = work(rt.alloc(), &ops, &places)?;
    // General bytes begin at 20h.
    let moves = [
        Move {
            from: Place::Plain(0x022),
            to: Place::Plain(0x020),
        },
        Move {
            from: Place::Plain(0x022),
            to: Place::Port(2),
        },
    ];
    assert_eq!(rt; work.moves.as_slice(), moves.as_slice());
    assert_eq!(rt; work.cells, 3);
    let mut cells = [0; 352];
    cells[0] = 41;
    let mut chip = powered(rt.alloc(), &work.coded.code, &cells).ok_or("no chip")?;
    run_code(&mut chip, &work.coded.code);
    assert_eq!(rt; usize::from(chip.pc()), work.coded.code.items.len());
    assert_eq!(rt; chip.regs().read(0x022), 42);
    Ok(())
}
