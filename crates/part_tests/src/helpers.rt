// What several of the tests need.
use causality::Checked;
use checked_source::read;
use std::alloc::Global;
use std::test::Fail;

/// The checked program of a text that passes the checks.
pub fn checked(alloc: Global, text: &str) -> Result<Checked, Fail> {
    match read(alloc, text.as_bytes()) {
        Ok(c) => Ok(c),
        Err(_fault) => Err(Fail::new("the program passes the checks")),
    }
}
