// Programs of which nothing is built, and why.

use crate::programs::{NINE_LEVELS, ONE_LEVEL, of_352_bytes, of_eleven_counts, of_eleven_events};
use crate::runs::fault_of;
use firmware::BuildFault;
use std::test::Fail;

#[test]
fn nine_levels_are_refused(rt: HostRuntime) -> Result<(), Fail> {
    let source = of_eleven_counts(rt.alloc(), &NINE_LEVELS)?;
    let fault = fault_of(rt.alloc(), source.as_str())?;
    assert_eq!(rt; fault, Some(BuildFault::Stack(9)));
    Ok(())
}

#[test]
fn one_byte_more_is_refused(rt: HostRuntime) -> Result<(), Fail> {
    let mut source = of_352_bytes(rt.alloc())?;
    assert_eq!(rt; fault_of(rt.alloc(), source.as_str())?, None);
    source.push_str("let z : u8 = init 0 in { };")?;
    let fault = fault_of(rt.alloc(), source.as_str())?;
    assert_eq!(rt; fault, Some(BuildFault::Ram(353)));
    Ok(())
}

// The bound on the words of this program is 359,248.
#[test]
fn more_words_than_the_chip_has_are_refused(rt: HostRuntime) -> Result<(), Fail> {
    let mut clause = String::from_str(rt.alloc(), "x")?;
    for _division in 0..40 {
        clause.push_str(" / x")?;
    }
    let source = of_eleven_events(rt.alloc(), &ONE_LEVEL, "x : u16 = init 7w", clause.as_str())?;
    let fault = fault_of(rt.alloc(), source.as_str())?;
    assert!(rt;
        matches!(fault, Some(BuildFault::Code(words)) if words > 8192 && words <= 359_248),
        "{fault:?}"
    );
    Ok(())
}
