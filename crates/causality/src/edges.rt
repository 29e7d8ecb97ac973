// The edges of a graph, and for each number the list of those that lead to it.
ghost use Rattle.std.specs.Prelude.{◌≡◌, ◌≤◌, ◌<◌, ◌++◌, IfOk, OnOk, length, map};
ghost use Rattle.std.specs.List.{All};
ghost use Rattle.causality.specs.Graphs.{IsGraph};
ghost use Rattle.causality.specs.Waits.{AreEdges, AreUsers};

use frp_tree::List;
use linked_rows::Rows;
use std::alloc::{AllocError, Global};

/// An edge: the number that has it, and the one to which it leads.
#[derive(Clone, Copy, Debug)]
pub(crate) struct Edge {
    pub(crate) user: u8,
    pub(crate) used: u8,
}

fn put_edges(edges: &mut Vec<Edge>, user: u8, numbers: &[u8]) -> Result<(), AllocError>
    ensures { OnOk result (edges.new.items ≡ edges.old.items ++ map (λ m. record { user = user; used = m }) numbers.now) }
{
    for used in numbers {
        edges.push(Edge { user, used: *used })?;
    }
    Ok(())
}

/// The edges of a graph. An `Err` is out of memory.
pub(crate) fn all_edges(alloc: Global, graph: &[List<u8>]) -> Result<Vec<Edge>, AllocError>
    requires graph { IsGraph graph.now }
    requires few { length graph.now ≤ 256 }
    ensures { IfOk result (λ es. AreEdges graph.now (length graph.now) es.items) }
{
    let mut edges = Vec::new(alloc);
    for i in 0..graph.len() {
        put_edges(&mut edges, i as u8, graph[i].as_slice())?;
    }
    Ok(edges)
}

/// For each number the list of the edges that lead to it, and after these an empty one. The nodes are the numbers and
/// after them the edges. An `Err` is out of memory.
pub(crate) fn users_of(alloc: Global, count: usize, edges: &[Edge]) -> Result<Rows, AllocError>
    requires few { count ≤ 256 }
    requires few_edges { length edges.now ≤ 4096 }
    requires within { All (λ e. e.used < count) edges.now }
    ensures { IfOk result (λ rows. AreUsers count edges.now (length edges.now) rows) }
{
    let mut rows = Rows::new(alloc, count as u32 + 1, (count + edges.len()) as u32)?;
    for k in 0..edges.len() {
        rows.push_back(edges[k].used as u32, (count + k) as u32);
    }
    Ok(rows)
}
