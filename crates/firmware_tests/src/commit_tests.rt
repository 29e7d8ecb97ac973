// What the firmware of a program with one event commits and puts.

use crate::programs::{COUNTER, DIVISIONS, of_352_bytes};
use crate::runs::run;
use crate::traces::{step_of, told};
use std::alloc::{AllocError, Global};
use std::fmt::Write;
use std::test::Fail;

const TICKS: &str = "at 1000 INT\nat 2000 INT\nat 3000 INT\nsteps 4000\n";

const TOLD_OF_TICKS: &str =
    "latch INT; take; open Tick; port PORTB 01; commit Tick n=1; latch INT; take; open Tick; port PORTB 02; commit Tick n=2; \
    latch INT; take; open Tick; port PORTB 03; commit Tick n=3; 4000 deepest 1 n=3";

// The steps at which a tick with this number, counted from 0, opens, puts and commits.
fn steps_of(trace: &str, number: usize) -> Option<(u32, u32, u32)> {
    Some((
        step_of(trace, "open", number)?,
        step_of(trace, "port", number)?,
        step_of(trace, "commit", number)?,
    ))
}

// Of a lone counter the bound on a response is 356 steps.
#[test]
fn each_tick_commits_in_time(rt: HostRuntime) -> Result<(), Fail> {
    let trace = run(rt.alloc(), COUNTER, TICKS)?;
    let text = trace.as_str();
    assert_eq!(rt; told(rt.alloc(), text, "")?.as_str(), TOLD_OF_TICKS);
    for (number, arrival) in [(0, 1000), (1, 2000), (2, 3000)] {
        let (open, port, commit) = steps_of(text, number).ok_or("a tick is missing")?;
        assert!(rt; arrival < open && open <= port && port <= commit, "{trace}");
        assert!(rt; open != commit && commit <= arrival + 356, "{trace}");
    }
    Ok(())
}

// A program, a script, and what its firmware commits and puts under it.
#[derive(Clone, Copy, Debug)]
struct Ran<'a> {
    source: &'a str,
    script: &'a str,
    commits: &'a str,
    ports: &'a str,
}

const RUNS: &[Ran<'static>] = &[
    // A clause for later reads what the reaction began with.
    Ran {
        source: "event Tick = INT priority 1; let a : u8 = init 5 in { Tick => a + 1 later; }; \
            let b : u8 = init 0 in { Tick => a; }; output PORTB = a;",
        script: "at 1000 INT\nat 2000 INT\nsteps 4000\n",
        commits: "Tick a=6 b=5; Tick a=7 b=6",
        ports: "PORTB 05; PORTB 06",
    },
    // Definitions that read each other, one of them later.
    Ran {
        source: "event Go = T0 priority 2; let x : u8 = init 1 in { Go => y + 1 later; }; let y : u8 = init 2 in { Go => x + x; };",
        script: "at 1000 T0\nat 2000 T0\nsteps 4000\n",
        commits: "Go x=3 y=2; Go x=7 y=6",
        ports: "",
    },
    // A definition's own name is its old value.
    Ran {
        source: "event Go = T0 priority 1; let n : u8 = init 3 in { Go => n + n; };",
        script: "at 1000 T0\nat 2000 T0\nsteps 4000\n",
        commits: "Go n=6; Go n=12",
        ports: "",
    },
    // Sums and differences past the ends.
    Ran {
        source: "event Go = T0 priority 1; let a : u8 = init 255 in { Go => a + 1; }; let b : u16 = init 255w in { Go => b + 1w; }; \
            let c : u8 = init 0 in { Go => c - 1; }; let d : u16 = init 0w in { Go => d - 1w; };",
        script: "at 2000 T0\nsteps 5000\n",
        commits: "Go a=0 b=256 c=255 d=65535",
        ports: "",
    },
    // Quotients and remainders, by 0 too.
    Ran {
        source: "event Go = T0 priority 1; let a : u8 = init 200 in { }; let b : u8 = init 0 in { }; let c : u8 = init 255 in { }; \
            let d : u8 = init 129 in { }; let p : u8 = init 0 in { Go => a / b; }; let q : u8 = init 0 in { Go => a % b; }; \
            let r : u8 = init 0 in { Go => c / d; }; let s : u8 = init 0 in { Go => c % d; };",
        script: "at 2000 T0\nsteps 6000\n",
        commits: "Go a=200 b=0 c=255 d=129 p=255 q=200 r=1 s=126",
        ports: "",
    },
    // A product past the end, and a shift by 15.
    Ran {
        source: "event Go = T0 priority 1; let a : u16 = init 65535w in { Go => a * a; }; let b : u16 = init 1w in { Go => b << 15; };",
        script: "at 2000 T0\nsteps 5000\n",
        commits: "Go a=1 b=32768",
        ports: "",
    },
    // Setups of ports are put by the boot.
    Ran {
        source: "event Go = T0 priority 1; setup PORTD = 0x5A; setup TRISD = 0; output PORTD = 7;",
        script: "at 2000 T0\nsteps 5000\n",
        commits: "Go",
        ports: "PORTD 5A; PORTD 07",
    },
    // No source has an event.
    Ran {
        source: "",
        script: "at 100 T0 INT\nsteps 1000\n",
        commits: "",
        ports: "",
    },
    Ran {
        source: DIVISIONS,
        script: "at 1000 T0\nat 30000 T0\nat 60000 T0\nsteps 90000\n",
        commits: "Go x=0; Go x=65535; Go x=0",
        ports: "",
    },
];

#[test]
fn commits_and_puts_what_the_program_means(rt: HostRuntime) -> Result<(), Fail> {
    for ran in RUNS {
        let trace = run(rt.alloc(), ran.source, ran.script)?;
        let commits = told(rt.alloc(), trace.as_str(), "commit ")?;
        assert_eq!(rt; commits.as_str(), ran.commits, "{}", ran.source);
        let ports = told(rt.alloc(), trace.as_str(), "port ")?;
        assert_eq!(rt; ports.as_str(), ran.ports, "{}", ran.source);
    }
    Ok(())
}

#[test]
fn starts_from_any_content_of_memory(rt: HostRuntime) -> Result<(), Fail> {
    let trace = run(rt.alloc(), COUNTER, "fill FF\nsteps 586\n")?;
    assert_eq!(rt; trace.as_str(), "end 586 deepest 0 n=0\n");
    Ok(())
}

// What is committed where each of 87 states becomes 1.
fn commit_of_ones(alloc: Global) -> Result<String, AllocError> {
    let mut text = String::from_str(alloc, "T")?;
    for number in 0..86u32 {
        write!(text, " d{number}=1")?;
    }
    text.push_str(" e=1")?;
    Ok(text)
}

#[test]
fn states_in_each_bank_change_at_once(rt: HostRuntime) -> Result<(), Fail> {
    let source = of_352_bytes(rt.alloc())?;
    let trace = run(rt.alloc(), source.as_str(), "at 2000 INT\nsteps 9000\n")?;
    let commits = told(rt.alloc(), trace.as_str(), "commit ")?;
    assert_eq!(rt; commits.as_str(), commit_of_ones(rt.alloc())?.as_str());
    Ok(())
}
