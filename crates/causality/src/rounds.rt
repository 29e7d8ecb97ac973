// The first number of a graph that leads to itself.
ghost use Rattle.std.specs.Prelude.{◌<◌, ℕ, IfOk, length};
ghost use Rattle.std.specs.Bool.{MatchBool};
ghost use Rattle.causality.specs.Graphs.{IsFirstRound, IsGraph, IsRound};

use crate::marks::{mark, no_marks};
use frp_tree::List;
use std::alloc::{AllocError, Global};

/// Whether a number leads to itself. An `Err` is out of memory. The time is at most that of going over the edges once.
fn is_round(alloc: Global, graph: &[List<u8>], x: usize) -> Result<bool, AllocError>
    requires graph { IsGraph graph.now }
    requires inside { x < length graph.now }
    ensures { IfOk result (λ b. MatchBool b (IsRound graph.now x) (¬ IsRound graph.now x)) }
{
    let mut marked = no_marks(alloc, graph.len())?;
    let mut left = Vec::new(alloc);
    mark(graph[x].as_slice(), &mut marked, &mut left)?;
    while let Some(y) = left.pop() {
        mark(graph[y as usize].as_slice(), &mut marked, &mut left)?;
    }
    Ok(marked[x])
}

/// The first number that leads to itself. An `Err` is out of memory.
pub fn first_round(alloc: Global, graph: &[List<u8>]) -> Result<usize, AllocError>
    requires graph { IsGraph graph.now }
    requires some { (x : ℕ) × (x < length graph.now) × IsRound graph.now x }
    ensures { IfOk result (IsFirstRound graph.now) }
{
    for x in 0..graph.len() {
        if is_round(alloc, graph, x)? {
            return Ok(x);
        }
    }
    unreachable!()
}
