// Calls of `check`, and what `check` and `compile` tell of programs that don't pass.

use crate::calls::{Call, Found, SOURCE, ends, parts_of};
use crate::compile_tests::compile;

// A check of this source that puts this line.
pub(crate) fn check<'a>(source: Option<&'a [u8]>, put: &'a str) -> Call<'a> {
    Call {
        words: &["check", SOURCE],
        ..compile(source, put)
    }
}

/// Programs that pass, each with the line that is told of it.
const PASSING: &str = "\
| ok events 0 definitions 0 outputs 0
event Tick = INT priority 1; setup TRISB = 0; let n : u8 = init 0 in { Tick => n + 1; }; output PORTB = n; | ok events 1 definitions 1 outputs 1
event Go = T0 priority 2; let x : u8 = init 1 in { Go => y + 1 later; }; let y : u8 = init 2 in { Go => x + x; }; | ok events 1 definitions 2 outputs 0
let t : u8 = table { 1, 2 }; let k : u8 = input PORTA; let n : u8 = 1; output PORTB = t[k]; output PORTC = n; | ok events 0 definitions 3 outputs 2";

#[test]
fn counts_what_a_program_has(rt: HostRuntime) {
    for row in PASSING.lines() {
        let (source, put) = parts_of(row);
        let passing = check(Some(source.as_bytes()), put);
        assert!(rt;
            ends(&rt, &passing, (0, Found::Absent, Found::Absent)),
            "{row}"
        );
    }
}

/// Programs that don't pass, each with the line that is told of it. Where one has two faults, the other comes later.
const FAULTY: &str = "\
event Tick = INT priority 1; event Tick = T0 priority 2; | refused: twice Tick
event Tick = INT priority 1; let Tick : u8 = m; | refused: twice Tick
event Tick = TMR3 priority 1; | refused: source TMR3
event Tick = int priority 12; | refused: source int
event Tick = INT priority 1; event Go = INT priority 2; | refused: source twice INT
event Tick = INT priority 1; event Go = INT priority 0; | refused: source twice INT
event Tick = INT priority 0; | refused: priority Tick 0
event Tick = INT priority 12; setup PORTF = 0; | refused: priority Tick 12
setup TRISF = 0; | refused: register TRISF
setup INTCON = 256; | refused: register INTCON
let k : u8 = input PORTF; | refused: register PORTF
output PORTF = m; | refused: register PORTF
output PORTB = 1; output PORTB = 2; | refused: output twice PORTB
output PORTB = m; output PORTB = 2; | refused: output twice PORTB
let n : u8 = init 0 in { Tick => n + 1; }; | refused: event Tick
event Go = INT priority 1; let n : u8 = init 0 in { Tick => m; }; | refused: event Tick
event Tick = INT priority 1; let n : u8 = init 0 in { Tick => n; Tick => n; }; | refused: clause twice n Tick
event Tick = INT priority 1; let n : u8 = init 0 in { Tick => n; Tick => m; }; | refused: clause twice n Tick
let n : u8 = m; | refused: name m
output PORTB = 256 + m; | refused: name m
let t : u8 = table { 1, 2 }; output PORTB = t; | refused: table t
let n : u8 = 1; output PORTB = n[true]; | refused: table n
setup TRISB = 256; | refused: literal TRISB
output PORTB = 300; | refused: literal PORTB
let n : u8 = 256 + true; | refused: literal n
let n : u8 = 1 << 8; | refused: shift n
let n : u16 = 1w >> 16; let m : u8 = 1w; | refused: shift n
let n : u8 = true; | refused: type n wanted u8 found bool
output PORTB = 1w; | refused: type PORTB wanted u8 found u16
event Tick = INT priority 1; let m : u8 = m; let n : u16 = 1; | refused: type n wanted u16 found u8
event Tick = INT priority 1; let m : u8 = m; | refused: cycle Tick m
event Tick = INT priority 1; event Go = T0 priority 2; let a : u8 = init 0 in { Go => b; }; let b : u8 = init 0 in { Go => a; }; | refused: cycle Go a";

#[test]
fn tells_the_first_fault_of_a_program(rt: HostRuntime) {
    let refused = (1, Found::Absent, Found::Absent);
    for row in FAULTY.lines() {
        let (source, put) = parts_of(row);
        let text = Some(source.as_bytes());
        assert!(rt; ends(&rt, &check(text, put), refused), "{row}");
        assert!(rt; ends(&rt, &compile(text, put), refused), "{row}");
    }
}

#[test]
fn tells_where_a_checked_text_breaks_off(rt: HostRuntime) {
    let call = check(Some(b"event Tick TMR1"), "refused: unexpected 2");
    assert!(rt; ends(&rt, &call, (1, Found::Absent, Found::Absent)));
}

/// The sources of checks, the numbers of the calls of files and of the sink that fail, the status, and what is put.
type Failing<'a> = (Option<&'a [u8]>, &'a [u32], &'a [u32], u8, &'a str);

#[test]
fn says_what_is_missing_or_failed(rt: HostRuntime) {
    let cases: [Failing<'_>; 3] = [
        (None, &[], &[], 3, "missing: b.frp"),
        (Some(b""), &[0], &[], 4, "read failed: b.frp"),
        (Some(b""), &[], &[0], 5, ""),
    ];
    for (source, files, puts, status, put) in cases {
        let call = Call {
            files,
            puts,
            ..check(source, put)
        };
        let want = (status, Found::Absent, Found::Absent);
        assert!(rt; ends(&rt, &call, want), "{status}: {put}");
    }
}
