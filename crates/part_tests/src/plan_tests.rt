// What events need, and their plans, of a program with clauses at once and later, an own name, and definitions that one event
// needs and another doesn't.
use crate::helpers::checked;
use causality::Checked;
use event_needs::{marks, named};
use std::alloc::Global;
use std::test::Fail;
use two_phase::{Assign, plan};

// Definitions 0 to 6: `level` reads `half`, which reads `count`, and no expression of Tick names `unused`.
const TWO_EVENTS: &str =
    "event Tick = T0 priority 1; event Push = INT priority 2; let knob : u8 = input PORTB; let level : u8 = half + 1; let half : u8 = count / 2; let count : u8 = init 0 in { Tick => count + 1; }; let sum : u8 = init 0 in { Push => sum + knob later; }; let unused : u8 = knob + 1; let last : u8 = init 0 in { Tick => last + level later; Push => unused; }; output PORTC = sum;";

// By each definition's number, whether the event needs it, and whether it is named in what the event needs.
fn has_needs(
    alloc: Global,
    c: &Checked,
    event: u8,
    needed: &[bool],
    its_named: &[bool],
) -> Result<bool, Fail> {
    if event as usize >= c.typed().program().events.len() {
        return Ok(false);
    }
    let is_needed = marks(alloc, c, event)?.as_slice() == needed;
    Ok(is_needed && named(alloc, c, event)?.as_slice() == its_named)
}

fn has_plan(
    alloc: Global,
    c: &Checked,
    event: u8,
    work: &[Assign],
    commit: &[u8],
) -> Result<bool, Fail> {
    if event as usize >= c.typed().program().events.len() {
        return Ok(false);
    }
    let found = plan(alloc, c, event)?;
    Ok(found.work.as_slice() == work && found.commit.as_slice() == commit)
}

fn value(decl: u8) -> Assign {
    Assign { decl, next: false }
}

fn state(decl: u8) -> Assign {
    Assign { decl, next: true }
}

#[test]
fn needs_and_plans_of_two_events(rt: HostRuntime) -> Result<(), Fail> {
    let alloc = rt.alloc();
    let c = checked(alloc, TWO_EVENTS)?;
    let needed = [false, true, true, false, false, false, false];
    let its_named = [false, true, true, true, true, false, true];
    assert!(rt; has_needs(alloc, &c, 0, &needed, &its_named)?);
    let needed = [false, false, false, false, false, true, false];
    let its_named = [true, false, false, false, true, true, false];
    assert!(rt; has_needs(alloc, &c, 1, &needed, &its_named)?);
    let work = [value(3), value(2), value(1), state(6)];
    assert!(rt; has_plan(alloc, &c, 0, &work, &[3, 6])?);
    let work = [value(5), value(6), state(4)];
    assert!(rt; has_plan(alloc, &c, 1, &work, &[4, 6])?);
    Ok(())
}
