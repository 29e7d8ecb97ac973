// Source texts whose names have no fault, and such with a first fault of each kind.
use efrp_syntax::parse;
use efrp_types::{CheckFault, check_names};
use std::test::Fail;

/// A fault, as the kind of fault and the name that it tells.
fn told(fault: &CheckFault) -> (&str, &str) {
    match fault {
        CheckFault::Twice(name) => ("twice", name.as_str()),
        CheckFault::UnknownSource(name) => ("source", name.as_str()),
        CheckFault::SourceTwice(name) => ("source twice", name.as_str()),
        CheckFault::BadPriority { event, n: _ } => ("priority", event.as_str()),
        CheckFault::BadRegister(name) => ("register", name.as_str()),
        CheckFault::OutputTwice(name) => ("output twice", name.as_str()),
        CheckFault::UnknownEvent(name) => ("event", name.as_str()),
        CheckFault::ClauseTwice { decl: _, event } => ("clause twice", event.as_str()),
        CheckFault::UnknownName(name) => ("name", name.as_str()),
        CheckFault::TableUse(name) => ("table", name.as_str()),
        CheckFault::LiteralRange(name) => ("literal", name.as_str()),
        CheckFault::BadShift(name) => ("shift", name.as_str()),
        CheckFault::TypeOf {
            owner,
            wanted: _,
            found: _,
        } => ("type", owner.as_str()),
        CheckFault::Memory => ("memory", ""),
    }
}

/// Programs, each behind the kind of its first fault and the name that this tells.
const FAULTY: &str = "\
priority A | event A = INT priority 12;
source RB | event A = RB priority 1;
name m | let n : u8 = m;
twice A | event A = INT priority 1; event A = RB priority 0;
source twice INT | event A = INT priority 1; event B = INT priority 0;
register PCL | setup PCL = 1; let n : u8 = m;
register TRISB | let n : u8 = input TRISB;
twice n | let n : u8 = m; let n : u8 = 1;
twice A | event A = INT priority 1; let A : u8 = 1;
output twice PORTB | output PORTB = 1; output PORTB = 2;
event A | let n : u8 = init 0 in { A => 1; };
clause twice A | event A = INT priority 1; let n : u8 = init 0 in { A => 1; A => 2; };
name A | event A = INT priority 1; output PORTB = A;
table t | let t : u8 = table { 1, 2 }; output PORTB = t;
table n | let n : u8 = 1; output PORTB = n[0];
name a | output PORTB = a + (if b then c else d);";

#[test]
fn first_faults(rt: HostRuntime) -> Result<(), Fail> {
    for row in FAULTY.lines() {
        let (words, text) = row.split_once(" | ").unwrap_or((row, ""));
        let program = parse(rt.alloc(), text.as_bytes())?;
        let fault = check_names(rt.alloc(), &program).err();
        let is_told = fault.is_some_and(|it| Some(told(&it)) == words.rsplit_once(' '));
        assert!(rt; is_told, "{row}");
    }
    Ok(())
}

/// Programs whose names have no fault.
const FAULTLESS: [&str; 5] = [
    "",
    "event Tick = INT priority 1;\nsetup TRISB = 0;\nlet n : u8 = init 0 in { Tick => n + 1; };\noutput PORTB = n;\n",
    "let t : u8 = table { 1, 2 }; output PORTB = t[1];",
    "let a : u8 = b; let b : u8 = a;",
    "let n : u8 = 1w; output PORTA = 300;",
];

#[test]
fn no_faults(rt: HostRuntime) -> Result<(), Fail> {
    for text in FAULTLESS {
        let program = parse(rt.alloc(), text.as_bytes())?;
        assert!(rt; check_names(rt.alloc(), &program).is_ok(), "{text}");
    }
    Ok(())
}
