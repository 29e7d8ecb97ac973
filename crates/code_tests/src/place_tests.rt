// Places for bytes.

ghost use Rattle.std.specs.Prelude.{◌≡◌, ◌+◌};
ghost use Rattle.bank_alloc.specs.Needs.{bytes_of};

use bank_alloc::{Needs, RamFault, place};
use std::test::Fail;

// The bytes of so many of the state, of one level, and of 173 of scratch.
fn need_with(states: u32) -> Needs
    ensures { bytes_of result ≡ states + 179 }
{
    Needs {
        states,
        levels: 1,
        scratch: 173,
    }
}

#[test]
fn places_352_bytes(rt: HostRuntime) -> Result<(), Fail> {
    let Ok(places) = place(&need_with(173)) else {
        assert!(rt; false);
        return Ok(());
    };
    assert!(rt; places.address(346) == 0x20);
    assert!(rt; places.address(0) == 0x26);
    assert!(rt; places.address(345) == 0x1EF);
    Ok(())
}

#[test]
fn refuses_353_bytes(rt: HostRuntime) -> Result<(), Fail> {
    assert!(rt; place(&need_with(174)) == Err(RamFault::Ram(353)));
    Ok(())
}
