// Source texts whose programs have orders, and such with a first cycle.
use causality::{Checked, CycleFault, orders};
use efrp_syntax::parse;
use efrp_types::{check_names, check_types, spelled_is_well_formed};
use std::alloc::Global;
use std::test::Fail;

/// What the check for cycles answers for a text; `Memory` where its names or types have a fault.
pub(crate) fn checked(alloc: Global, text: &str) -> Result<Result<Checked, CycleFault>, Fail> {
    let program = parse(alloc, text.as_bytes())?;
    let names = match check_names(alloc, &program) {
        Ok(names) => names,
        Err(_fault) => return Ok(Err(CycleFault::Memory)),
    };
    spelled_is_well_formed();
    match check_types(alloc, program, names) {
        Ok(typed) => Ok(orders(alloc, typed)),
        Err(_fault) => Ok(Err(CycleFault::Memory)),
    }
}

/// Whether the order on the event of this number is this one.
fn is_order(c: &Checked, event: u8, order: &[u8]) -> bool {
    (event as usize) < c.typed().program().events.len() && c.order(event) == order
}

/// Programs of one event, each behind the digits of the numbers of its order.
const ORDERED: &str = "\
01 | event Go = INT priority 1; let x : u8 = init 1 in { Go => y + 1 later; }; let y : u8 = init 2 in { Go => x + x; };
0 | event Go = INT priority 1; let n : u8 = init 3 in { Go => n + n; };
210 | event Go = INT priority 1; let a : u8 = b + c; let b : u8 = c; let c : u8 = 1;";

#[test]
fn orders_of_programs(rt: HostRuntime) -> Result<(), Fail> {
    for row in ORDERED.lines() {
        let (digits, text) = row.split_once(" | ").unwrap_or(("", row));
        let mut order = Vec::new(rt.alloc());
        for digit in digits.bytes() {
            order.push(digit.wrapping_sub(b'0'))?;
        }
        match checked(rt.alloc(), text)? {
            Ok(c) => assert!(rt; is_order(&c, 0, order.as_slice()), "{row}"),
            Err(_fault) => assert!(rt; false, "{row}"),
        }
    }
    Ok(())
}

const TWO_EVENTS: &str =
    "event A = INT priority 1; event B = T0 priority 2; let x : u8 = init 1 in { A => y; }; let y : u8 = init 2 in { B => x; };";

#[test]
fn each_event_has_its_order(rt: HostRuntime) -> Result<(), Fail> {
    let Ok(c) = checked(rt.alloc(), TWO_EVENTS)? else {
        return Err(Fail::new("each event has an order"));
    };
    assert!(rt; is_order(&c, 0, &[1, 0]));
    assert!(rt; is_order(&c, 1, &[0, 1]));
    assert!(rt; !is_order(&c, 2, &[0, 1]));
    Ok(())
}

/// Whether the cycle is told by these words, an event and a name.
fn is_cycle(fault: &CycleFault, words: &str) -> bool {
    match fault {
        CycleFault::Cycle { event, name } => {
            words.split_once(' ') == Some((event.as_str(), name.as_str()))
        }
        CycleFault::Memory => false,
    }
}

/// Programs with a cycle, each behind the event and the name that are told.
const CYCLIC: &str = "\
Go x | event Go = INT priority 1; let x : u8 = init 1 in { Go => y + 1; }; let y : u8 = init 2 in { Go => x + x; };
Go x | event Go = INT priority 1; let n : u8 = m; let m : u8 = x; let x : u8 = init 1 in { Go => y + 1; }; let y : u8 = init 2 in { Go => x + x; };
Go n | event Go = INT priority 1; let n : u8 = n + 1;
A y | event A = INT priority 1; event B = T0 priority 2; let x : u8 = init 1 in { B => y; }; let y : u8 = init 2 in { A => z; B => x; }; let z : u8 = y;
B x | event A = INT priority 1; event B = T0 priority 2; let x : u8 = init 1 in { B => y; }; let y : u8 = init 2 in { B => x; };";

#[test]
fn first_cycles(rt: HostRuntime) -> Result<(), Fail> {
    for row in CYCLIC.lines() {
        let (words, text) = row.split_once(" | ").unwrap_or((row, ""));
        match checked(rt.alloc(), text)? {
            Err(fault) => assert!(rt; is_cycle(&fault, words), "{row}"),
            Ok(_checked) => assert!(rt; false, "{row}"),
        }
    }
    Ok(())
}
