// Calls of `compile`: what they put and leave, where a file or the sink fails, and words that form no command.

use crate::calls::{Call, Ended, Found, HEX, MAP, SOURCE, ends, made, parts_of};
use std::alloc::{AllocError, Global};
use std::fmt::Write;

/// A counter of one event.
const COUNTER: &str = "event Tick = INT priority 1;
setup TRISB = 0;
let n : u8 = init 0 in { Tick => n + 1; };
output PORTB = n;
";

/// The same program, with brackets, another way to write numbers, and no blanks where none are needed.
const BRACKETS: &str =
    "event Tick=INT priority 0x1;setup TRISB=0;let n:u8=init 0x0 in{Tick=>((n)+(1));};output PORTB=(n);";

/// Its firmware and its map.
pub(crate) const COUNTER_HEX: &str = ":020000040000FA
:10000000A601831686010F280130A70027082607BE
:10001000A8008B102808A600280886000900830184
:060020000B168B171228DD
:02400E003A3F37
:00000001FF
";

pub(crate) const COUNTER_MAP: &str = "efrp map 1
event Tick INT 1 open 000A commit 000D
state n u8 026
output PORTB
ready 0012
regs 003-003
regs 006-006
regs 00B-00B
regs 026-028
regs 071-07F
regs 086-086
report depth 1 ram 3 words 19 settle 586
";

const SUMMARY: &str = "words 19 of 308 ram 3 of 11 depth 1 of 8 settle 586 of 586";

const USAGE: &str =
    "usage: efrp check SRC / compile SRC HEX MAP / run HEX MAP SCRIPT / model SRC EVENTS / big N HEX MAP";

/// Programs, each with its summary: none at all; no definition; eleven events on eight levels; and one whose bound on words is past
/// 8,192, and its words aren't.
const BUILT: &str = "\
// nothing | words 6 of 112 ram 0 of 0 depth 0 of 8 settle 50 of 50
event A = T0 priority 1; | words 10 of 256 ram 0 of 6 depth 1 of 8 settle 434 of 434
event A = T0 priority 1; event B = INT priority 2; event C = PSP priority 3; event D = AD priority 4; event E = SSP priority 5; event F = CCP1 priority 6; event G = TMR2 priority 7; event H = TMR1 priority 8; event I = EE priority 1; event J = BCL priority 2; event K = CCP2 priority 3; | words 362 of 1696 ram 16 of 48 depth 8 of 8 settle 11314 of 11314
event A = T0 priority 1; event B = INT priority 1; event C = PSP priority 1; event D = AD priority 1; event E = SSP priority 1; event F = CCP1 priority 1; event G = TMR2 priority 1; event H = TMR1 priority 1; event I = EE priority 1; event J = BCL priority 1; event K = CCP2 priority 1; let d : u16 = 1000w / 7w; output PORTB = u8(d); | words 4334 of 11002 ram 6 of 15 depth 1 of 8 settle 39298 of 39298";

/// Programs that pass and of which nothing is built, each with the line that is told of it. The first fault comes first. The bound
/// on the words of the last is 19,890.
const UNBUILT: &str = "\
let k : u8 = input PORTA; output PORTB = k; | refused: form
let t : u8 = table { 1, 2 }; | refused: form
event A = T0 priority 1; event B = INT priority 2; event C = PSP priority 3; event D = AD priority 4; event E = SSP priority 5; event F = CCP1 priority 6; event G = TMR2 priority 7; event H = TMR1 priority 8; event I = EE priority 9; | refused: stack 9
event A = T0 priority 11; event B = INT priority 2; event C = PSP priority 3; event D = AD priority 4; event E = SSP priority 5; event F = CCP1 priority 6; event G = TMR2 priority 7; event H = TMR1 priority 8; event I = EE priority 9; let k : u8 = input PORTA; | refused: form
event A = T0 priority 1; event B = INT priority 1; event C = PSP priority 1; event D = AD priority 1; event E = SSP priority 1; event F = CCP1 priority 1; event G = TMR2 priority 1; event H = TMR1 priority 1; event I = EE priority 1; event J = BCL priority 1; event K = CCP2 priority 1; let d : u16 = 1000w / 7w / 3w; output PORTB = u8(d); | refused: code 8426";

// A compile of this source that puts this.
pub(crate) fn compile<'a>(source: Option<&'a [u8]>, put: &'a str) -> Call<'a> {
    Call {
        words: &["compile", SOURCE, HEX, MAP],
        source,
        files: &[],
        puts: &[],
        hex: COUNTER_HEX,
        map: COUNTER_MAP,
        put,
    }
}

// The counter's text, with blanks behind it up to a length.
fn padded(alloc: Global, length: usize) -> Result<Vec<u8>, AllocError> {
    let mut text = Vec::new(alloc);
    text.extend_from_slice(COUNTER.as_bytes())?;
    text.resize(length, b' ')?;
    Ok(text)
}

#[test]
fn compiles_a_counter(rt: HostRuntime) {
    for source in [COUNTER, BRACKETS] {
        let call = compile(Some(source.as_bytes()), SUMMARY);
        assert!(rt;
            ends(&rt, &call, (0, Found::Whole, Found::Whole)),
            "{source}"
        );
    }
}

fn is_unbuilt(rt: &(impl AllocGlobal + Print), source: &str, put: &str) -> bool {
    let call = compile(Some(source.as_bytes()), put);
    ends(rt, &call, (1, Found::Absent, Found::Absent))
}

#[test]
fn tells_why_nothing_is_built(rt: HostRuntime) {
    for row in UNBUILT.lines() {
        let (source, put) = parts_of(row);
        assert!(rt; is_unbuilt(&rt, source, put), "{row}");
    }
}

// Whether a program is built, with this summary, whatever its files.
fn is_built(rt: &(impl AllocGlobal + Print), source: &str, put: &str) -> bool {
    let call = Call {
        hex: "",
        map: "",
        ..compile(Some(source.as_bytes()), put)
    };
    ends(rt, &call, (0, Found::Other, Found::Other))
}

#[test]
fn tells_words_and_bytes_beside_their_bounds(rt: HostRuntime) {
    for row in BUILT.lines() {
        let (source, put) = parts_of(row);
        assert!(rt; is_built(&rt, source, put), "{row}");
    }
}

// A program of one event that needs 352 bytes of RAM by its bound, and as many more as these definitions have: 173 for its states, 6
// for its level and 173 for results.
fn of_352_bytes(alloc: Global, more: &str) -> Result<String, AllocError> {
    let mut text = String::from_str(alloc, "event Tick = INT priority 1;")?;
    for n in 0..86u32 {
        write!(text, "let n{n} : u16 = init 0w in {{ Tick => 1w; }};")?;
    }
    text.push_str("let y : u8 = init 0 in { Tick => 1; };")?;
    text.push_str(more)?;
    Ok(text)
}

#[test]
fn builds_what_needs_352_bytes(rt: HostRuntime) {
    let put = "words 1233 of 2678 ram 346 of 352 depth 1 of 8 settle 7354 of 7354";
    let built = match made(&rt, || of_352_bytes(rt.alloc(), "")) {
        Some(source) => is_built(&rt, source.as_str(), put),
        None => false,
    };
    assert!(rt; built);
}

#[test]
fn builds_nothing_that_needs_353_bytes(rt: HostRuntime) {
    let more = "let z : u8 = init 0 in { };";
    let told = match made(&rt, || of_352_bytes(rt.alloc(), more)) {
        Some(source) => is_unbuilt(&rt, source.as_str(), "refused: ram 353"),
        None => false,
    };
    assert!(rt; told);
}

#[test]
fn says_what_is_missing(rt: HostRuntime) {
    let call = compile(None, "missing: b.frp");
    assert!(rt; ends(&rt, &call, (3, Found::Absent, Found::Absent)));
}

// The numbers of the call of files that fails, from 0 on, what a compile puts then, its status, and what stands under
// the name of HEX.
const FAILURES: &[(u32, &str, u8, Found)] = &[
    (0, "read failed: b.frp", 4, Found::Absent),
    (1, "write failed: b.hex", 5, Found::Absent),
    (2, "write failed: b.map", 5, Found::Whole),
];

#[test]
fn says_which_call_of_files_failed(rt: HostRuntime) {
    for (number, put, status, hex) in FAILURES {
        let call = Call {
            files: &[*number],
            ..compile(Some(COUNTER.as_bytes()), put)
        };
        assert!(rt; ends(&rt, &call, (*status, *hex, Found::Absent)), "{put}");
    }
}

#[test]
fn tells_by_its_status_that_the_put_failed(rt: HostRuntime) {
    let call = Call {
        puts: &[0],
        ..compile(Some(COUNTER.as_bytes()), "")
    };
    assert!(rt; ends(&rt, &call, (5, Found::Whole, Found::Whole)));
}

/// Words that form no command.
const NO_COMMANDS: &[&[&str]] = &[
    &[],
    &["--help"],
    &["compile", SOURCE, HEX],
    &["compile", SOURCE, "", MAP],
    &["compile", SOURCE, "-o", MAP],
    &["compile", SOURCE, HEX, HEX],
    &["big", "4294967296", HEX, MAP],
    &["big", "7", HEX, HEX],
];

// Whether these words are answered with the usage line.
fn form_no_command(rt: &(impl AllocGlobal + Print), words: &[&str]) -> bool {
    let call = Call {
        words,
        ..compile(Some(COUNTER.as_bytes()), USAGE)
    };
    ends(rt, &call, (2, Found::Absent, Found::Absent))
}

#[test]
fn answers_other_words_with_the_usage_line(rt: HostRuntime) {
    for words in NO_COMMANDS {
        assert!(rt; form_no_command(&rt, words), "{words:?}");
    }
}

// Whether a counter that blanks make this long ends so.
fn long_ends(rt: &(impl AllocGlobal + Print), length: usize, put: &str, want: Ended) -> bool {
    match made(rt, || padded(rt.alloc(), length)) {
        Some(text) => ends(rt, &compile(Some(text.as_slice()), put), want),
        None => false,
    }
}

#[test]
fn keeps_the_limits_on_lengths(rt: HostRuntime) {
    let refused = (1, Found::Absent, Found::Absent);
    let cases = [
        (65_536, SUMMARY, (0, Found::Whole, Found::Whole)),
        (65_537, "refused: big 65536", refused),
        (1_048_576, "refused: big 65536", refused),
        (1_048_577, "refused: long b.frp", refused),
    ];
    for (length, put, want) in cases {
        assert!(rt; long_ends(&rt, length, put, want), "{length}");
    }
}
