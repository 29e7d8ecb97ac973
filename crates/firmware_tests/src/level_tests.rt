// Events of several levels, and of one: in which order they commit, and how deep the return stack gets.
ghost use Rattle.hex_file.specs.Written.{IsWritable};
ghost use Rattle.map_file.specs.MapRules.{IsMap};

use crate::programs::{CONTROLLER, EIGHT_LEVELS, NESTED, ONE_LEVEL, PAGES, of_eleven_counts};
use crate::runs::{built_of, run, trace_of};
use crate::traces::told;
use firmware::Built;
use std::alloc::Global;
use std::test::Fail;

// Whether the events of three levels interrupt each other, where the second comes `x` steps behind the first, and the third `y`
// steps behind the second.
fn is_nested(alloc: Global, built: &Built, x: u32, y: u32) -> Result<bool, Fail>
    requires writable { IsWritable built.now.image }
    requires rules { IsMap built.now.map }
{
    let second = x.saturating_add(20_000);
    let third = second.saturating_add(y);
    let script = format!(in alloc; "at 20000 T0\nat {second} INT\nat {third} TMR1\nsteps 40000\n")?;
    let trace = trace_of(alloc, built, script.as_str())?;
    let end = told(alloc, trace.as_str(), "40000 deepest ")?;
    if !end.as_str().starts_with(['1', '2', '3'].as_slice()) {
        return Err(Fail::new(format_args!("{x} {y}: {trace}")));
    }
    let commits = told(alloc, trace.as_str(), "commit ")?;
    Ok(
        end.as_str() == "3 a=2 b=7500 c=2"
            && commits.as_str() == "C a=1 b=1 c=2; B a=1 b=7500 c=2; A a=2 b=7500 c=2",
    )
}

#[test]
fn three_levels_interrupt_each_other(rt: HostRuntime) -> Result<(), Fail> {
    let built = built_of(rt.alloc(), NESTED)?;
    let mut nested = 0u32;
    for x in 1..11u32 {
        for y in 1..11u32 {
            if is_nested(rt.alloc(), &built, 40 * x, 40 * y)? {
                nested = nested.saturating_add(1);
            }
        }
    }
    assert!(rt; nested > 0);
    Ok(())
}

#[test]
fn work_on_several_pages_is_interrupted(rt: HostRuntime) -> Result<(), Fail> {
    let built = built_of(rt.alloc(), PAGES)?;
    assert!(rt; built.map.words > 4096, "{}", built.map.words);
    let script = "at 5000 T0 INT\nat 5400 PSP\nat 5800 AD\nsteps 60000\n";
    let trace = trace_of(rt.alloc(), &built, script)?;
    let commits = told(rt.alloc(), trace.as_str(), "commit ")?;
    assert_eq!(rt; commits.as_str(), "D x=0; C x=65535; A x=0; B x=65535");
    let end = told(rt.alloc(), trace.as_str(), "60000 deepest ")?;
    assert_eq!(rt; end.as_str(), "3 x=65535");
    Ok(())
}

// All eleven sources, at power-on.
const ALL_AT_ONCE: &str = "at 0 T0 INT PSP AD SSP CCP1 TMR2 TMR1 EE BCL CCP2\nsteps 13000\n";

const LATE_AT_ONCE: &str =
    "late always\nat 0 T0 INT PSP AD SSP CCP1 TMR2 TMR1 EE BCL CCP2\nsteps 13000\n";

// What eleven events commit that arrive at once, on eight levels and on one.
const BY_LEVELS: &str =
    "A7 n=1; A8 n=2; A9 n=3; A10 n=4; A6 n=5; A5 n=6; A4 n=7; A3 n=8; A2 n=9; A1 n=10; A0 n=11";

const IN_ORDER: &str =
    "A0 n=1; A1 n=2; A2 n=3; A3 n=4; A4 n=5; A5 n=6; A6 n=7; A7 n=8; A8 n=9; A9 n=10; A10 n=11";

#[test]
fn events_that_come_at_once_commit_by_levels(rt: HostRuntime) -> Result<(), Fail> {
    for (priorities, want) in [(&EIGHT_LEVELS, BY_LEVELS), (&ONE_LEVEL, IN_ORDER)] {
        let source = of_eleven_counts(rt.alloc(), priorities)?;
        for script in [ALL_AT_ONCE, LATE_AT_ONCE] {
            let trace = run(rt.alloc(), source.as_str(), script)?;
            let commits = told(rt.alloc(), trace.as_str(), "commit ")?;
            assert_eq!(rt; commits.as_str(), want);
            let end = told(rt.alloc(), trace.as_str(), "13000 deepest ")?;
            assert_eq!(rt; end.as_str(), "1 n=11");
        }
    }
    Ok(())
}

// A button, both timers and the other button, each when all before has settled.
const DRIVEN: &str = "at 7000 INT\nat 14000 TMR1\nat 21000 TMR2\nat 28000 CCP1\nsteps 35000\n";

#[test]
fn controller_leads_the_motor(rt: HostRuntime) -> Result<(), Fail> {
    let trace = run(rt.alloc(), CONTROLLER, DRIVEN)?;
    let commits = told(rt.alloc(), trace.as_str(), "commit ")?;
    assert_eq!(rt;
        commits.as_str(),
        "Up goal=5 speed=0 phase=0 runtime=0; Slow goal=5 speed=1 phase=0 runtime=1; \
        Tick goal=5 speed=1 phase=1 runtime=1; Down goal=0 speed=1 phase=1 runtime=1"
    );
    let ports = told(rt.alloc(), trace.as_str(), "port ")?;
    assert_eq!(rt;
        ports.as_str(),
        "PORTC 00; PORTB 00; PORTC 01; PORTB 00; PORTC 00; PORTB 00; PORTC 00; PORTB 00"
    );
    Ok(())
}
