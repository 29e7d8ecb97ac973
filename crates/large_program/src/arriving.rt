// What arrives in the run of a large program.
ghost use Rattle.std.specs.Prelude.{◌≡◌, IfOk};
ghost use Rattle.large_program.specs.Arrivals.{arrivals};

use crate::draws::Draws;
use frp_tree::List;
use std::alloc::{AllocError, Global};

/// A source that arrives at boundary `at`: it has this number, 0 to 10.
#[derive(Clone, Copy, Debug, PartialEq, Eq)]
pub struct OneArrival {
    pub at: u32,
    pub source: u8,
}

/// How many arrivals there are, how many draws the program of a number takes, and the first boundary.
const ARRIVALS: u32 = 200;

const DRAWS_OF_PROGRAM: u32 = 96;

const FIRST_BOUNDARY: u32 = 1_000;

/// The arrivals in the run of the program of a number, 200 of them, by rising boundary, the first at boundary 1000 and each of the
/// others 1 to 600 boundaries after the one before. An `Err` is out of memory.
pub fn arrivals(alloc: Global, n: u32) -> Result<List<OneArrival>, AllocError>
    ensures { IfOk result (λ all. all ≡ arrivals n) }
{
    let mut draws = Draws::after(n, DRAWS_OF_PROGRAM);
    let mut all = List::new(alloc);
    let mut at = FIRST_BOUNDARY;
    for _ in 0..ARRIVALS {
        let source = draws.below(11) as u8;
        let gap = draws.below(600);
        all.push(OneArrival { at, source })?;
        at += 1 + gap;
    }
    Ok(all)
}
