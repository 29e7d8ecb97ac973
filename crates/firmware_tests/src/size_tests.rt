// What maps report: words, bytes of RAM, levels, and the steps in which all settles.

use crate::programs::{
    CONTROLLER, COUNTER, DIVISION, DIVISIONS, EIGHT_LEVELS, NESTED, ONE_LEVEL, SHORT, of_352_bytes,
    of_eleven_counts,
};
use crate::runs::built_of;
use std::alloc::Global;
use std::test::Fail;

// The most words and the most bytes of RAM of a program's firmware, its levels, and the bound on its steps.
type Most = (u16, u16, u8, u32);

// Tells where the map of a program's firmware reports more, or other levels or steps.
fn keep_within(alloc: Global, source: &str, most: Most) -> Result<(), Fail> {
    let map = built_of(alloc, source)?.map;
    let (words, ram, levels, settle) = most;
    if map.words <= words && map.ram <= ram && map.depth == levels && map.settle == settle {
        return Ok(());
    }
    Err(Fail::new(format_args!(
        "words {} ram {} depth {} settle {}: {source}",
        map.words, map.ram, map.depth, map.settle
    )))
}

#[test]
fn firmware_is_small(rt: HostRuntime) -> Result<(), Fail> {
    let programs = [
        (COUNTER, (24, 11, 1, 586)),
        (SHORT, (42, 17, 2, 1206)),
        (DIVISION, (480, 22, 2, 3818)),
        (CONTROLLER, (306, 56, 3, 6546)),
        (NESTED, (5632, 38, 3, 16910)),
        (DIVISIONS, (6784, 42, 1, 20014)),
    ];
    for (source, most) in programs {
        keep_within(rt.alloc(), source, most)?;
    }
    Ok(())
}

#[test]
fn firmware_of_many_events_or_states_is_small(rt: HostRuntime) -> Result<(), Fail> {
    let levels = of_eleven_counts(rt.alloc(), &EIGHT_LEVELS)?;
    keep_within(rt.alloc(), levels.as_str(), (300, 52, 8, 12440))?;
    let level = of_eleven_counts(rt.alloc(), &ONE_LEVEL)?;
    keep_within(rt.alloc(), level.as_str(), (145, 10, 1, 12440))?;
    let states = of_352_bytes(rt.alloc())?;
    keep_within(rt.alloc(), states.as_str(), (2678, 352, 1, 7354))
}
