// Source texts whose programs have levels, and one with too many.
use crate::cycle_tests::checked;
use causality::Checked;
use priority_masks::{Enables, Levels, TooDeep};
use std::test::Fail;

const ELEVEN_EVENTS: &str =
    "event A = T0 priority 1; event B = INT priority 2; event C = PSP priority 3; event D = AD priority 4; event E = SSP priority 5; event F = CCP1 priority 6; event G = TMR2 priority 7; event H = TMR1 priority 8; event I = EE priority 8; event J = BCL priority 8; event K = CCP2 priority 8;";

const NINE_PRIORITIES: &str =
    "event A = T0 priority 9; event B = INT priority 8; event C = PSP priority 7; event D = AD priority 6; event E = SSP priority 5; event F = CCP1 priority 4; event G = TMR2 priority 3; event H = TMR1 priority 2; event I = EE priority 1;";

/// Whether the events have these levels, in declaration order.
fn have_levels(c: &Checked, levels: &[u8]) -> bool {
    match Levels::new(c) {
        Ok(found) => {
            for (event, level) in levels.iter().enumerate() {
                if event >= c.typed().program().events.len() || found.level(event as u8) != *level {
                    return false;
                }
            }
            true
        }
        Err(_too_deep) => false,
    }
}

/// Whether these are the enables at a level of the program.
fn has_enables(c: &Checked, level: u8, intcon: u8, pie1: u8, pie2: u8) -> bool {
    match Levels::new(c) {
        Ok(found) => {
            level <= found.count() && found.enables(level) == Enables { intcon, pie1, pie2 }
        }
        Err(_too_deep) => false,
    }
}

/// Whether the program has so many levels.
fn has_count(c: &Checked, count: u8) -> bool {
    match Levels::new(c) {
        Ok(found) => found.count() == count,
        Err(_too_deep) => false,
    }
}

/// Whether the program is refused for so many distinct priorities.
fn is_too_deep(c: &Checked, count: u8) -> bool {
    match Levels::new(c) {
        Ok(_found) => false,
        Err(TooDeep(n)) => n == count,
    }
}

#[test]
fn eleven_events_on_eight_levels(rt: HostRuntime) -> Result<(), Fail> {
    let Ok(c) = checked(rt.alloc(), ELEVEN_EVENTS)? else {
        return Err(Fail::new("eleven events pass the checks"));
    };
    assert!(rt; has_count(&c, 8));
    assert!(rt; have_levels(&c, &[1, 2, 3, 4, 5, 6, 7, 8, 8, 8, 8]));
    assert!(rt; has_enables(&c, 0, 0x30, 0xCF, 0x19));
    assert!(rt; has_enables(&c, 7, 0, 0x01, 0x19));
    assert!(rt; has_enables(&c, 8, 0, 0, 0));
    Ok(())
}

#[test]
fn levels_have_no_gaps(rt: HostRuntime) -> Result<(), Fail> {
    let text = "event A = INT priority 11; event B = T0 priority 4; event C = EE priority 11;";
    let Ok(c) = checked(rt.alloc(), text)? else {
        return Err(Fail::new("three events pass the checks"));
    };
    assert!(rt; has_count(&c, 2));
    assert!(rt; have_levels(&c, &[2, 1, 2]));
    assert!(rt; has_enables(&c, 1, 0x10, 0, 0x10));
    Ok(())
}

#[test]
fn nine_priorities_are_too_many(rt: HostRuntime) -> Result<(), Fail> {
    let found = checked(rt.alloc(), NINE_PRIORITIES)?;
    assert!(rt; found.is_ok_and(|c| is_too_deep(&c, 9)));
    Ok(())
}
