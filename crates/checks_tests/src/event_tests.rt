// Events files of small programs, and the lines of their models.
ghost use Rattle.std.specs.Prelude.{◌≡◌, ◌+◌, ◌<◌, ◌^◌, filter, length, map};
ghost use Rattle.frp_tree.specs.Tree.{decl_of};
ghost use Rattle.efrp_meaning.specs.Decls.{is_reactive};

use efrp_syntax::parse;
use efrp_types::{Typed, check_names, check_types, spelled_is_well_formed};
use event_file::{EventsFault, Occurrence, add_init, add_reaction, read_events};
use frp_tree::{Behaviour, Decl, List, Value};
use std::alloc::Global;
use std::test::Fail;

/// A program with two inputs, and reactive definitions of each type among others.
const PROGRAM: &[u8] = b"event Tick = INT priority 1; event Tock = T0 priority 2;
let level : u8 = input PORTB;
let high : bool = init false in { Tick => level > top; };
let key : u8 = input PORTD;
let top : u8 = init 0 in { Tick => if level > top then level else top; };
let sum : u16 = init 0w in { Tock => sum + u16(key); };
output PORTC = top;
output PORTA = key;
";

fn typed(alloc: Global) -> Result<Typed, Fail> {
    let program = parse(alloc, PROGRAM)?;
    let names = check_names(alloc, &program)?;
    spelled_is_well_formed();
    Ok(check_types(alloc, program, names)?)
}

/// Whether an occurrence is of this event, and has these samples.
fn is(found: Option<&Occurrence>, event: u8, samples: &[u8]) -> bool {
    match found {
        Some(o) => o.event == event && o.samples.as_slice() == samples,
        None => false,
    }
}

#[test]
fn events_with_samples(rt: HostRuntime) -> Result<(), Fail> {
    let t = typed(rt.alloc())?;
    let text = b"Tick key=2f level=0A\r\n\nTock\nTick   level=fF\n\nTock key=01";
    let events = read_events(rt.alloc(), &t, text)?;
    assert_eq!(rt; events.len(), 4);
    assert!(rt; is(events.get(0), 0, &[0x0A, 0x2F]));
    assert!(rt; is(events.get(1), 1, &[0, 0]));
    assert!(rt; is(events.get(2), 0, &[0xFF, 0]));
    assert!(rt; is(events.get(3), 1, &[0, 1]));
    assert_eq!(rt; read_events(rt.alloc(), &t, b"")?.len(), 0);
    Ok(())
}

/// The number of the unknown line of a text of at most 100 bytes.
fn unknown(alloc: Global, t: &Typed, text: &[u8]) -> Option<u32> {
    if text.len() > 100 {
        return None;
    }
    match read_events(alloc, t, text) {
        Err(EventsFault::Unknown(line)) => Some(line),
        _ => None,
    }
}

/// Texts between bars, behind the number of the unknown line of each.
const UNKNOWN: &[(u32, &[u8])] = &[
    (
        1,
        b"tick|level=01|Tick\r|   |Tick level=1|Tick level=001|Tick level = 01|Tick level=0G|Tick Level=00|Tick top=01|Tick Tock|Tick\tlevel=01|Tick \xff",
    ),
    (
        2,
        b"Tick\nTick \nTuck|Tick level=10 key=10\r\nTick level=10 key=10 level=10",
    ),
    (3, b"Tick\n\n Tick"),
];

/// The first text between bars whose unknown line isn't this one.
fn first_other<'a>(alloc: Global, t: &Typed, line: u32, texts: &'a [u8]) -> Option<&'a [u8]> {
    for text in texts.split(|byte| *byte == b'|') {
        if unknown(alloc, t, text) != Some(line) {
            return Some(text);
        }
    }
    None
}

#[test]
fn unknown_lines(rt: HostRuntime) -> Result<(), Fail> {
    let t = typed(rt.alloc())?;
    for (line, texts) in UNKNOWN {
        assert_eq!(rt; first_other(rt.alloc(), &t, *line, texts), None);
    }
    Ok(())
}

/// What a text is answered with: how many events, or the fault.
fn answer(alloc: Global, t: &Typed, text: &[u8]) -> Result<usize, EventsFault>
    requires { length text.now + 1 < 2 ^ 32 }
{
    Ok(read_events(alloc, t, text)?.len())
}

#[test]
fn ten_thousand_events(rt: HostRuntime) -> Result<(), Fail> {
    let t = typed(rt.alloc())?;
    let mut text = List::new(rt.alloc());
    for _ in 0..10_000 {
        text.extend_from_slice(b"Tick\n")?;
    }
    text.extend_from_slice(b"\n\n")?;
    assert!(rt; text.len() < 60_000);
    assert_eq!(rt; answer(rt.alloc(), &t, text.as_slice()), Ok(10_000));
    text.extend_from_slice(b"Tock\n")?;
    assert!(rt; text.len() < 60_000);
    assert_eq!(rt;
        answer(rt.alloc(), &t, text.as_slice()),
        Err(EventsFault::TooMany)
    );
    text.extend_from_slice(b"Tick\nTack")?;
    assert!(rt; text.len() < 60_000);
    assert_eq!(rt;
        answer(rt.alloc(), &t, text.as_slice()),
        Err(EventsFault::Unknown(10_005))
    );
    Ok(())
}

/// How many of the definitions are reactive.
fn reactives(decls: &[Decl]) -> usize
    ensures { result ≡ length (filter (λ d. is_reactive d.behaviour) (map decl_of decls.now)) }
{
    let mut count = 0;
    for d in decls {
        if let Behaviour::Reactive { .. } = &d.behaviour {
            count += 1;
        }
    }
    count
}

#[test]
fn lines_of_a_model(rt: HostRuntime) -> Result<(), Fail> {
    let t = typed(rt.alloc())?;
    let program = t.program();
    assert_eq!(rt; program.events.len(), 2);
    assert_eq!(rt; program.outputs.len(), 2);
    assert_eq!(rt; reactives(program.decls.as_slice()), 3);
    let mut text = String::new(rt.alloc());
    add_init(
        &mut text,
        &t,
        &[Value::Bool(false), Value::U8(0), Value::U16(0)],
    )?;
    add_reaction(
        &mut text,
        &t,
        1,
        &[Value::Bool(true), Value::U8(255), Value::U16(65_535)],
        &[255, 10],
    )?;
    let expected =
        "init high=0 top=0 sum=0\nport PORTC FF\nport PORTA 0A\ncommit Tock high=1 top=255 sum=65535\n";
    assert_eq!(rt; text.as_str(), expected);
    Ok(())
}
