// Maps: their texts, and the first faulty lines of other texts.
ghost use Rattle.std.specs.Prelude.{◌≡◌, IfOk, length, vec_len};
ghost use Rattle.map_file.specs.MapRules.{IsMap};

use crate::maps::{event, sample, state};
use frp_tree::{List, Ty};
use map_file::{Map, MapFault, Range, read, write};
use pic_isa::Source;
use std::alloc::{AllocError, Global};
use std::test::Fail;

// A map with each kind of line.
fn each_kind(alloc: Global) -> Result<Map, AllocError>
    ensures { IfOk result (λ map. IsMap map) }
{
    let slow = event(alloc, "Slow", Source::Tmr1, 1, 0x01FE, 0x020C)?;
    let stop = event(alloc, "Stop", Source::Int, 11, 0x0ABC, 0x1FFF)?;
    let duty = state(alloc, "duty", Ty::Bool, 0x020, 0x020)?;
    let speed = state(alloc, "speed", Ty::U8, 0x0EF, 0x0EF)?;
    let runtime = state(alloc, "run_time", Ty::U16, 0x16F, 0x190)?;
    let load = sample(alloc, "Stop", "load", 0x0AB1)?;
    let torque = sample(alloc, "Slow", "torque", 0x01F4)?;
    Ok(Map {
        events: List::from_vec(vec![in alloc; slow, stop]?),
        states: List::from_vec(vec![in alloc; duty, speed, runtime]?),
        outputs: List::from_vec(vec![in alloc; 2, 1]?),
        samples: List::from_vec(vec![in alloc; load, torque]?),
        ready: 0x00A7,
        regs: List::from_vec(vec![in alloc;
            Range {
                from: 0x006,
                to: 0x007
            },
            Range {
                from: 0x020,
                to: 0x07F
            },
        ]?),
        depth: 2,
        ram: 56,
        words: 1742,
        settle: 6546,
    })
}

#[test]
fn writes_each_kind_of_line(rt: HostRuntime) -> Result<(), Fail> {
    let map = each_kind(rt.alloc())?;
    let text = write(rt.alloc(), &map)?;
    let expected = "efrp map 1\n\
        event Slow TMR1 1 open 01FE commit 020C\n\
        event Stop INT 11 open 0ABC commit 1FFF\n\
        state duty bool 020\n\
        state speed u8 0EF\n\
        state run_time u16 16F 190\n\
        output PORTC\n\
        output PORTB\n\
        sample Stop load 0AB1\n\
        sample Slow torque 01F4\n\
        ready 00A7\n\
        regs 006-007\n\
        regs 020-07F\n\
        report depth 2 ram 56 words 1742 settle 6546\n";
    assert_eq!(rt; text.as_slice(), expected.as_bytes());
    Ok(())
}

// The text of a map of the one event Tick, with these lines after it.
fn with_lines(alloc: Global, lines: &str) -> Result<String, AllocError> {
    format!(in alloc;
        "efrp map 1\nevent Tick INT 1 open 0041 commit 1A47\n{lines}\nready 002F\nregs 006-00B\nregs 020-07F\nreport depth 1 ram 11 words 72 settle 586\n"
    )
}

// Whether a text of at most 1,000 bytes is a map's, and is written as it was read.
fn is_kept(alloc: Global, text: &[u8]) -> Result<bool, MapFault> {
    if text.len() > 1000 {
        return Ok(false);
    }
    let map = read(alloc, text)?;
    Ok(write(alloc, &map)?.as_slice() == text)
}

#[test]
fn reads_back(rt: HostRuntime) -> Result<(), Fail> {
    let counter = with_lines(rt.alloc(), "state n u8 020\noutput PORTB")?;
    for text in [counter.as_bytes(), SAMPLING, SHORT] {
        assert!(rt; is_kept(rt.alloc(), text)?);
    }
    let wide = read(
        rt.alloc(),
        b"efrp map 1\nstate a u16 16F 190\nready 0000\nreport depth 0 ram 0 words 0 settle 4294967295\n",
    )?;
    assert_eq!(rt; wide.settle, 4_294_967_295);
    Ok(())
}

const SAMPLING: &[u8] = b"efrp map 1\n\
    event Tick INT 1 open 0041 commit 1A47\n\
    state top u8 020\noutput PORTB\n\
    sample Tick level 0012\n\
    sample Tick init 1FFF\n\
    ready 002F\nregs 006-00B\nregs 020-07F\n\
    report depth 1 ram 11 words 72 settle 586\n";

#[test]
fn reads_samples(rt: HostRuntime) -> Result<(), Fail> {
    let map = read(rt.alloc(), SAMPLING)?;
    let [level, init] = map.samples.as_slice() else {
        return Err(Fail::new("there are two samples"));
    };
    assert_eq!(rt; level.event.as_str(), "Tick");
    assert_eq!(rt; level.input.as_str(), "level");
    assert_eq!(rt; level.at, 0x12);
    assert_eq!(rt; init.input.as_str(), "init");
    assert_eq!(rt; init.at, 0x1FFF);
    Ok(())
}

// The number of the first faulty line of a text of at most 1,000 bytes.
fn fault_of(alloc: Global, text: &[u8]) -> Option<MapFault> {
    if text.len() > 1000 {
        return None;
    }
    read(alloc, text).err()
}

// Texts with the number of their first faulty line.
const FAULTS: &[(&[u8], u32)] = &[
    (b"efrp map 2\nready 0000\n", 1),
    (b"efrp map 1\r\nready 0000\r\n", 1),
    (b"efrp map 1\nready 0000\n", 3),
    (
        b"efrp map 1\nready 0000\nreport depth 0 ram 0 words 0 settle 0",
        3,
    ),
    (
        b"efrp map 1\nready 0000\nreport depth 0 ram 0 words 0 settle 0\n\n",
        4,
    ),
    (b"efrp map 1\nready 0000\nregs 000-005\nregs 006-007\n", 4),
    (
        b"efrp map 1\nsample Tick level 0012\nevent Tick INT 1 open 0041 commit 1A47\n",
        2,
    ),
    (
        b"efrp map 1\nevent Tick INT 1 open 0041 commit 1A47\nready 0000\nsample Tick level 0012\n",
        4,
    ),
];

#[test]
fn first_faulty_lines(rt: HostRuntime) {
    for (text, line) in FAULTS {
        assert_eq!(rt;
            fault_of(rt.alloc(), text),
            Some(MapFault::Line(*line)),
            "{text:?}"
        );
    }
}

// Lines after the one event Tick, with the number in the map of the first faulty one, if there is one.
const SAMPLE_FAULTS: &[(&str, Option<u32>)] = &[
    ("sample Tick level 0012", None),
    ("sample Tock level 0012", Some(3)),
    ("sample Tick level 2000", Some(3)),
    ("sample Tick level 012", Some(3)),
    ("sample Tick 9 0012", Some(3)),
    ("sample Tick level 0012 0012", Some(3)),
    ("sample Tick level 0012\noutput PORTB", Some(4)),
    (
        "sample Tick level 0012\nsample Tick dark 0012\nsample Tick level 0013",
        Some(5),
    ),
];

#[test]
fn faulty_samples(rt: HostRuntime) -> Result<(), Fail> {
    for (lines, line) in SAMPLE_FAULTS {
        let text = with_lines(rt.alloc(), lines)?;
        let wanted = line.map(MapFault::Line);
        assert_eq!(rt; fault_of(rt.alloc(), text.as_bytes()), wanted, "{lines:?}");
    }
    Ok(())
}

#[test]
fn each_cut_is_a_fault(rt: HostRuntime) {
    for end in 0..SAMPLING.len() {
        let fault = fault_of(rt.alloc(), &SAMPLING[..end]);
        assert!(rt; matches!(fault, Some(MapFault::Line(_))), "{end}");
    }
}

fn changed(alloc: Global, bytes: &[u8], place: usize, byte: u8) -> Result<Vec<u8>, AllocError>
    ensures { IfOk result (λ copy. vec_len copy ≡ length bytes.now) }
{
    let mut copy = Vec::from_slice(alloc, bytes)?;
    if place < copy.len() {
        copy[place] = byte;
    }
    Ok(copy)
}

// The first and the last byte of each kind, and those beside them.
const EDGES: &[u8] = b"\0\x09\n\x0B\r\x1F !+,-./019:@AFGZ[^_`afgz{\x7F\x80\xFF";

fn changes_are_answered(alloc: Global, bytes: &[u8], place: usize) -> Result<bool, AllocError> {
    let mut answered = true;
    for byte in EDGES {
        let copy = changed(alloc, bytes, place, *byte)?;
        let fault = fault_of(alloc, copy.as_slice());
        answered = answered && !matches!(fault, Some(MapFault::Memory));
    }
    Ok(answered)
}

// A short text with a line of each kind.
const SHORT: &[u8] = b"efrp map 1\n\
    event A T0 1 open 0000 commit 0001\n\
    state b u8 020\n\
    output PORTA\n\
    sample A i 0002\n\
    ready 0003\n\
    regs 005-005\n\
    report depth 0 ram 0 words 0 settle 0\n";

#[test]
fn each_changed_byte_is_answered(rt: HostRuntime) -> Result<(), Fail> {
    for place in 0..SHORT.len() {
        assert!(rt; changes_are_answered(rt.alloc(), SHORT, place)?, "{place}");
    }
    Ok(())
}
