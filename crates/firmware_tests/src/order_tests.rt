// An urgent event that comes while another one works: in which order they commit, and how long the urgent one waits.
ghost use Rattle.hex_file.specs.Written.{IsWritable};
ghost use Rattle.map_file.specs.MapRules.{IsMap};

use crate::programs::{DIVISION, SHORT};
use crate::runs::{built_of, run, trace_of};
use crate::traces::{step_of, told};
use firmware::Built;
use std::alloc::Global;
use std::test::Fail;

// What is committed where the urgent event comes first, so that the division begins again, and where it comes second.
const URGENT_FIRST: &str = "High d=5 q=0; Low d=5 q=12000";

const URGENT_SECOND: &str = "Low d=3 q=20000; High d=5 q=20000";

// The most steps from the arrival of the urgent event to its commit.
const SOON: u32 = 60;

// Whether the urgent event, which arrives at this step, commits before the division, which arrived at 5000.
fn is_urgent_first(alloc: Global, built: &Built, late: &str, at: u32) -> Result<bool, Fail>
    requires writable { IsWritable built.now.image }
    requires rules { IsMap built.now.map }
{
    let script = format!(in alloc; "late {late}\nat 5000 TMR1\nat {at} INT\nsteps 12000\n")?;
    let trace = trace_of(alloc, built, script.as_str())?;
    let commit = step_of(trace.as_str(), "commit High", 0).ok_or("no commit")?;
    if commit > at.saturating_add(SOON) {
        return Err(Fail::new(format_args!("at {at}, answered at {commit}")));
    }
    let commits = told(alloc, trace.as_str(), "commit ")?;
    if commits.as_str() != URGENT_FIRST && commits.as_str() != URGENT_SECOND {
        return Err(Fail::new(format_args!("at {at}: {commits}")));
    }
    Ok(commits.as_str() == URGENT_FIRST)
}

// How often the urgent event comes first, of the 1,300 steps from 5001 to 6300 at which it arrives.
fn urgent_firsts(alloc: Global, built: &Built, late: &str) -> Result<u32, Fail>
    requires writable { IsWritable built.now.image }
    requires rules { IsMap built.now.map }
{
    let mut count = 0u32;
    for at in 5001..6301u32 {
        if is_urgent_first(alloc, built, late, at)? {
            count = count.saturating_add(1);
        }
    }
    Ok(count)
}

#[test]
fn an_urgent_event_is_answered_soon(rt: HostRuntime) -> Result<(), Fail> {
    let built = built_of(rt.alloc(), DIVISION)?;
    let count = urgent_firsts(rt.alloc(), &built, "never")?;
    assert!(rt; 0 < count && count < 1300, "{count}");
    assert!(rt; is_urgent_first(rt.alloc(), &built, "never", 5001)?);
    assert!(rt; !is_urgent_first(rt.alloc(), &built, "never", 6300)?);
    Ok(())
}

#[test]
fn late_interrupts_are_answered_soon_too(rt: HostRuntime) -> Result<(), Fail> {
    let built = built_of(rt.alloc(), DIVISION)?;
    for late in ["always", "odd"] {
        let count = urgent_firsts(rt.alloc(), &built, late)?;
        assert!(rt; 0 < count && count < 1300, "{late} {count}");
    }
    Ok(())
}

#[test]
fn the_commit_decides(rt: HostRuntime) -> Result<(), Fail> {
    let built = built_of(rt.alloc(), DIVISION)?;
    let trace = trace_of(rt.alloc(), &built, "at 5000 TMR1\nsteps 12000\n")?;
    let open = step_of(trace.as_str(), "open Low", 0).ok_or("the division opens")?;
    assert!(rt; is_urgent_first(rt.alloc(), &built, "never", open.saturating_sub(16))?);
    assert!(rt; !is_urgent_first(rt.alloc(), &built, "never", open.saturating_add(1))?);
    Ok(())
}

// Whether a line stands in a trace.
fn has_line(trace: &str, line: &str) -> bool {
    trace.lines().any(|other| other == line)
}

#[test]
fn a_third_arrival_is_merged(rt: HostRuntime) -> Result<(), Fail> {
    let script = "at 5000 TMR1\nat 5200 TMR1\nat 5201 TMR1\nsteps 12000\n";
    let trace = run(rt.alloc(), DIVISION, script)?;
    for line in ["5000 latch TMR1", "5200 latch TMR1", "5201 merge TMR1"] {
        assert!(rt; has_line(trace.as_str(), line), "{line}: {trace}");
    }
    let commits = told(rt.alloc(), trace.as_str(), "commit ")?;
    assert_eq!(rt; commits.as_str(), "Low d=3 q=20000; Low d=3 q=20000");
    Ok(())
}

// How often the urgent one of two short events interrupts the other, of the 130 steps from 5001 to 5130 at which it arrives.
fn nested_shorts(alloc: Global, built: &Built, late: &str) -> Result<u32, Fail>
    requires writable { IsWritable built.now.image }
    requires rules { IsMap built.now.map }
{
    let mut count = 0u32;
    for at in 5001..5131u32 {
        let script = format!(in alloc; "late {late}\nat 5000 TMR1\nat {at} INT\nsteps 7000\n")?;
        let trace = trace_of(alloc, built, script.as_str())?;
        let end = told(alloc, trace.as_str(), "7000 deepest ")?;
        if end.as_str() == "2 a=1 b=1" {
            count = count.saturating_add(1);
        } else if end.as_str() != "1 a=1 b=1" {
            return Err(Fail::new(format_args!("at {at}: {end}")));
        }
    }
    Ok(count)
}

#[test]
fn short_work_is_interrupted_too(rt: HostRuntime) -> Result<(), Fail> {
    let built = built_of(rt.alloc(), SHORT)?;
    for late in ["never", "always", "odd"] {
        assert!(rt; nested_shorts(rt.alloc(), &built, late)? > 0, "{late}");
    }
    Ok(())
}
