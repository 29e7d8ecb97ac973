// Scripts: each kind of line, the causes of their faults, and the traces of small programs under them.
ghost use Rattle.std.specs.Prelude.{IfOk};
ghost use Rattle.map_file.specs.MapRules.{IsMap};

use crate::maps::{event, sample, state};
use arrival_script::{Cause, Late, ScriptFault, TraceFault, read_script, trace};
use edge_io::{MemSink, Sink, SureSink};
use frp_tree::{List, Ty};
use hex_file::Image;
use map_file::Map;
use pic_isa::Source;
use pic_machine::Why;
use std::alloc::{AllocError, Global};
use std::test::Fail;

const WHOLE: &[u8] =
    b"  # a comment\nfill aF\n late odd\n\nat 0  INT T0 \n pin 3  PORTB 5a\n   \n at 00000012 CCP2\r\npin 12 PORTE 07\nsteps 13";

#[test]
fn reads_each_kind_of_line(rt: HostRuntime) -> Result<(), Fail> {
    let script = read_script(rt.alloc(), WHOLE)?;
    assert!(rt; script.fill == 0xAF && script.late == Late::Odd && script.steps == 13);
    assert!(rt; script.arrivals.len() == 2 && script.pins.len() == 2);
    assert!(rt; matches!(script.arrivals.get(0), Some(a) if a.at == 0 && a.sources == 0x003));
    assert!(rt; matches!(script.arrivals.get(1), Some(a) if a.at == 12 && a.sources == 0x400));
    assert!(rt;
        matches!(script.pins.get(0), Some(p) if p.at == 3 && p.port == 1 && p.byte == 0x5A)
    );
    assert!(rt;
        matches!(script.pins.get(1), Some(p) if p.at == 12 && p.port == 4 && p.byte == 0x07)
    );
    Ok(())
}

// The line and the cause of the first fault of a text of at most 100 bytes.
fn fault(alloc: Global, text: &[u8]) -> Option<(u32, Cause)> {
    if text.len() > 100 {
        return None;
    }
    match read_script(alloc, text) {
        Err(ScriptFault::Line { line, cause }) => Some((line, cause)),
        Ok(_) | Err(ScriptFault::Memory) => None,
    }
}

// Faulty texts, each row with a bar before each: the line and the cause of their first fault, and then the texts.
const FAULTS: &[u8] = b"\
    3 AfterSteps|steps 9\n# then\nnonsense;\
    2 BadLine|\nstep 9|fill 00\nfill 00|late odd\nlate odd|late odd\nfill 00|at 5 INT\nlate odd;\
    1 BadLine|at x|fill 0G|late|late even|pin 5 PORTB 0;\
    1 BadNumber|at 000000001 RB|steps 10000001|steps 9\r|pin five PORTX 00;\
    1 UnknownSource|at 5 INT INT \xFF;\
    1 UnknownPort|pin 5 PORTX 00|pin 5 PORT\xFF 00;\
    1 SourceTwice|at 5 T0 INT T0;\
    2 NotRising|at 5 INT\nat 5 T0|at 5 INT\npin 4 PORTB 00|pin 5 PORTB 00\nat 4 INT;\
    4 PinTwice|pin 5 PORTB 00\nat 5 INT\npin 5 PORTA 00\npin 5 PORTB 01;\
    2 NoSteps|at 5 INT\n;\
    2 PastEnd|at 5 INT\nat 6 T0\nat 7 T0\nsteps 6;\
    3 PastEnd|pin 4 PORTB 00\npin 5 PORTB 00\npin 6 PORTB 00\nsteps 6";

// The first text of a row that has another first fault than the row tells, or none.
fn other_text<'a>(alloc: Global, row: &'a [u8]) -> Result<Option<&'a [u8]>, Fail> {
    let mut parts = row.split(|byte| *byte == b'|');
    let told = parts.next().unwrap_or(row);
    for text in parts {
        let Some((line, cause)) = fault(alloc, text) else {
            return Ok(Some(text));
        };
        if format!(in alloc; "{line} {cause:?}")?.as_bytes() != told {
            return Ok(Some(text));
        }
    }
    Ok(None)
}

#[test]
fn each_cause_has_its_line(rt: HostRuntime) -> Result<(), Fail> {
    for row in FAULTS.split(|byte| *byte == b';') {
        assert_eq!(rt; other_text(rt.alloc(), row)?, None, "{row:?}");
    }
    Ok(())
}

#[test]
fn returns_at_each_cut_and_change(rt: HostRuntime) -> Result<(), Fail> {
    let alloc = rt.alloc();
    let mut faults = 0usize;
    for at in 0..WHOLE.len() {
        let (prefix, _) = WHOLE.split_at(at);
        if read_script(alloc, prefix).is_err() {
            faults = faults.saturating_add(1);
        }
        let mut text = Vec::from_slice(alloc, WHOLE)?;
        if let Some(byte) = text.get_mut(at) {
            *byte = 0xFF;
        }
        if read_script(alloc, text.as_slice()).is_err() {
            faults = faults.saturating_add(1);
        }
    }
    assert!(rt; faults > WHOLE.len());
    Ok(())
}

// One event, which samples an input at 2, opens at 4 and commits at 7, and a state of each type at 020h to 022h.
fn map(alloc: Global) -> Result<Map, AllocError>
    ensures { IfOk result (λ map. IsMap map) }
{
    let go = event(alloc, "Go", Source::Int, 1, 4, 7)?;
    let level = sample(alloc, "Go", "level", 2)?;
    let n = state(alloc, "n", Ty::U8, 0x020, 0x020)?;
    let w = state(alloc, "w", Ty::U16, 0x020, 0x021)?;
    let b = state(alloc, "b", Ty::Bool, 0x022, 0x022)?;
    Ok(Map {
        events: List::from_vec(vec![in alloc; go]?),
        states: List::from_vec(vec![in alloc; n, w, b]?),
        outputs: List::new(alloc),
        samples: List::from_vec(vec![in alloc; level]?),
        ready: 11,
        depth: 1,
        ram: 3,
        regs: List::new(alloc),
        words: 12,
        settle: 20,
    })
}

// A tick on INT is counted at 020h and put on PORTB: boot from 9 on, and the interrupt from 4 on.
const COUNTER: [u16; 12] = [
    0x2809, 0x0000, 0x0000, 0x0000, 0x108B, 0x0AA0, 0x0820, 0x0086, 0x0009, 0x3090, 0x008B, 0x280B,
];

// PORTB, an input, is read at 2 again and again.
const READER: [u16; 4] = [0x2802, 0x0000, 0x0806, 0x2802];

// W is put on PORTB again and again.
const WRITER: [u16; 2] = [0x0086, 0x2800];

// Puts the trace of a program under a script, and tells how it ends.
fn put_trace<S: Sink>(
    alloc: Global,
    program: &[u16],
    script: &[u8],
    out: &mut S,
) -> Result<Result<(), TraceFault>, Fail> {
    if program.len() > 8192 {
        return Err(Fail::new("the program is too long"));
    }
    if script.len() > 1000 {
        return Err(Fail::new("the script is too long"));
    }
    let script = read_script(alloc, script)?;
    let image = Image::of_words(alloc, program)?;
    let map = map(alloc)?;
    Ok(trace(alloc, &image, &map, &script, out))
}

// A program, a script, how its trace ends and what is put.
#[derive(Clone, Copy)]
struct Traced<'a> {
    program: &'a [u16],
    script: &'a str,
    ended: Result<(), TraceFault>,
    put: &'a str,
}

const TRACES: &[Traced<'static>] = &[
    // Each kind of line.
    Traced {
        program: &COUNTER,
        script: "fill 01\nat 4 TMR1 INT\nat 5 INT\nsteps 12\n",
        ended: Ok(()),
        put: "4 latch INT\n4 latch TMR1\n4 take\n5 merge INT\n5 open Go\n8 port PORTB 02\n8 commit Go n=2 w=258 b=1\nend 12 deepest 1 n=2 w=258 b=1\n",
    },
    // A late interrupt is taken one step later. Of late odd boundaries 4 is none.
    Traced {
        program: &COUNTER,
        script: "late always\nat 4 INT\nsteps 12\n",
        ended: Ok(()),
        put: "4 latch INT\n5 take\n6 open Go\n9 port PORTB 01\n9 commit Go n=1 w=1 b=0\nend 12 deepest 1 n=1 w=1 b=0\n",
    },
    Traced {
        program: &COUNTER,
        script: "late odd\nat 4 INT\nsteps 12\n",
        ended: Ok(()),
        put: "4 latch INT\n4 take\n5 open Go\n8 port PORTB 01\n8 commit Go n=1 w=1 b=0\nend 12 deepest 1 n=1 w=1 b=0\n",
    },
    // Pins change, and samples are told.
    Traced {
        program: &READER,
        script: "fill FF\npin 0 PORTB 10\npin 0 PORTA 3F\npin 3 PORTB A5\nsteps 6\n",
        ended: Ok(()),
        put: "1 sample Go level 10\n3 sample Go level A5\n5 sample Go level A5\nend 6 deepest 0 n=255 w=65535 b=255\n",
    },
    // A stop ends the text.
    Traced {
        program: &[0x0063],
        script: "at 0 INT\nat 1 INT CCP2\nsteps 9",
        ended: Err(TraceFault::Stopped {
            step: 0,
            address: 0,
            why: Why::Sleep,
        }),
        put: "0 latch INT\n",
    },
    Traced {
        program: &[0x0000, 0x0062],
        script: "at 0 INT\nat 1 INT CCP2\nsteps 9",
        ended: Err(TraceFault::Stopped {
            step: 1,
            address: 1,
            why: Why::UnknownWord,
        }),
        put: "0 latch INT\n1 merge INT\n1 latch CCP2\n",
    },
];

#[test]
fn traces_are_put_and_end(rt: HostRuntime) -> Result<(), Fail> {
    let alloc = rt.alloc();
    for row in TRACES {
        let mut out = SureSink::new(alloc);
        let ended = put_trace(alloc, row.program, row.script.as_bytes(), &mut out)?;
        assert_eq!(rt; ended, row.ended, "{}", row.script);
        assert_eq!(rt; out.taken(), row.put.as_bytes(), "{}", row.script);
    }
    Ok(())
}

// A sink of which the put with this number fails.
fn failing(alloc: Global, number: u32) -> Result<MemSink, AllocError> {
    let mut list = List::new(alloc);
    list.push(number)?;
    Ok(MemSink::new(alloc, list))
}

#[test]
fn a_failing_put_leaves_a_prefix(rt: HostRuntime) -> Result<(), Fail> {
    let alloc = rt.alloc();
    let mut whole = SureSink::new(alloc);
    assert_eq!(rt;
        put_trace(alloc, &WRITER, b"steps 600", &mut whole)?,
        Ok(())
    );
    let text = whole.taken();
    assert!(rt; text.starts_with(b"0 port PORTB 00\n2 port PORTB 00\n"));
    assert!(rt; text.ends_with(b"598 port PORTB 00\nend 600 deepest 0 n=0 w=0 b=0\n"));
    for (number, is_first) in [(0, true), (1, false)] {
        let mut out = failing(alloc, number)?;
        let ended = put_trace(alloc, &WRITER, b"steps 600", &mut out)?;
        assert_eq!(rt; ended, Err(TraceFault::Failed), "{number}");
        assert_eq!(rt; out.taken().is_empty(), is_first, "{number}");
        assert_eq!(rt; out.taken().len() < 4096, is_first, "{number}");
        assert!(rt; text.starts_with(out.taken()), "{number}");
    }
    Ok(())
}
