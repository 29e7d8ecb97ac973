// An order of a graph: each number behind those to which it has an edge.
ghost use Rattle.std.specs.Prelude.{◌≡◌, ◌≢◌, ℕ, ◌-◌, ◌++◌, ◌∷◌, [], ◌<◌, ◌≤◌, true, false, cond, nat_eq, IfOk, MatchOption, length, map, set, get_or, replicate};
ghost use Rattle.std.specs.List.{list_all};
ghost use Rattle.linked_rows.specs.Rows.{IsFree, row, with_row};
ghost use Rattle.causality.specs.Graphs.{IsGraph, IsNext, IsSorted, IsStuck, NoneIsNext, is_marked};
ghost use Rattle.causality.specs.Waits.{AreReady, Waits, edge_count};

use crate::edges::{Edge, all_edges, users_of};
use crate::marks::no_marks;
use frp_tree::List;
use linked_rows::Rows;
use std::alloc::{AllocError, Global};

/// What is left to place: the edges, by number the list of those that lead to it, after these the list of the ready
/// numbers, how many edges each number waits for, and which are placed.
#[derive(Debug, Drop)]
struct Sort {
    edges: Vec<Edge>,
    rows: Rows,
    waits: Vec<usize>,
    placed: Vec<bool>,
}

fn lengths(alloc: Global, graph: &[List<u8>]) -> Result<Vec<usize>, AllocError>
    ensures { IfOk result (λ v. v.items ≡ map length graph.now) }
{
    let mut lengths = Vec::new(alloc);
    for row in graph {
        lengths.push(row.len())?;
    }
    Ok(lengths)
}

/// Puts a node at the end of a list where it is ready.
fn put_if(rows: &mut Rows, is_ready: bool, list: usize, node: usize)
    requires few { list ≤ 256 }
    requires list_in { list < length rows.old.lists }
    requires few_nodes { node ≤ 65535 }
    requires node_in { node < rows.old.nodes }
    requires free { is_ready ≡ true → IsFree rows.old node }
    ensures { rows.new ≡ cond is_ready (with_row rows.old list (row rows.old list ++ node ∷ [])) rows.old }
{
    if is_ready {
        rows.push_back(list as u32, node as u32);
    }
}

/// Puts the numbers that wait for nothing into the list of the ready ones.
fn put_ready(rows: &mut Rows, waits: &[usize])
    requires few { length waits.now ≤ 256 }
    requires list_in { length waits.now < length rows.old.lists }
    requires nodes_in { length waits.now ≤ rows.old.nodes }
    requires none_ready { row rows.old (length waits.now) ≡ [] }
    requires free { (i : ℕ) → i < length waits.now → IsFree rows.old i }
    ensures { AreReady waits.now (length waits.now) (length waits.now) rows.old rows.new }
{
    for i in 0..waits.len() {
        put_if(rows, waits[i] == 0, waits.len(), i);
    }
}

/// One less that a number waits for. Whether it now waits for nothing.
fn lower(waits: &mut Vec<usize>, user: usize) -> bool
    requires inside { user < length waits.old.items }
    requires some { 0 < get_or waits.old.items user 0 }
    ensures answer { result ≡ nat_eq (get_or waits.old.items user 0 - 1) 0 }
    ensures lowered { waits.new.items ≡ set waits.old.items user (get_or waits.old.items user 0 - 1) }
{
    waits[user] -= 1;
    waits[user] == 0
}

impl Sort {
    /// No number is placed, and those without edges are ready. An `Err` is out of memory.
    fn new(alloc: Global, graph: &[List<u8>]) -> Result<Sort, AllocError>
        requires graph { IsGraph graph.now }
        requires few { length graph.now ≤ 256 }
        requires few_edges { edge_count graph.now ≤ 4096 }
        ensures none { IfOk result (λ s. s.placed.items ≡ replicate (length graph.now) false) }
        ensures nodes { IfOk result (λ s. s.rows.nodes ≤ 4352) }
        ensures waits { IfOk result (λ s. Waits graph.now s.edges.items s.placed.items s.waits.items s.rows []) }
    {
        let edges = all_edges(alloc, graph)?;
        let waits = lengths(alloc, graph)?;
        let mut rows = users_of(alloc, graph.len(), &edges)?;
        put_ready(&mut rows, &waits);
        let placed = no_marks(alloc, graph.len())?;
        Ok(Sort {
            edges,
            rows,
            waits,
            placed,
        })
    }

    /// Tells each number that has an edge to a placed one of it, once for each such edge. Takes no memory.
    fn tell(&mut self, graph: &[List<u8>], i: u8)
        requires few { length graph.now ≤ 256 }
        requires few_nodes { self.old.rows.nodes ≤ 4352 }
        requires inside { i < length graph.now }
        requires placed { is_marked self.old.placed.items i ≡ true }
        requires waits { Waits graph.now self.old.edges.items self.old.placed.items self.old.waits.items self.old.rows (row self.old.rows i) }
        ensures same { self.new.placed.items ≡ self.old.placed.items }
        ensures nodes { self.new.rows.nodes ≡ self.old.rows.nodes }
        ensures waits { Waits graph.now self.new.edges.items self.new.placed.items self.new.waits.items self.new.rows [] }
    {
        let count = graph.len();
        while let Some(node) = self.rows.pop_front(i as u32) {
            let user = self.edges[node as usize - count].user as usize;
            let is_ready = lower(&mut self.waits, user);
            put_if(&mut self.rows, is_ready, count, user);
        }
    }

    /// Places the first of the ready numbers. None where no number may be placed. Takes no memory.
    fn next(&mut self, graph: &[List<u8>]) -> Option<u8>
        requires few { length graph.now ≤ 256 }
        requires few_nodes { self.old.rows.nodes ≤ 4352 }
        requires waits { Waits graph.now self.old.edges.items self.old.placed.items self.old.waits.items self.old.rows [] }
        ensures answer { MatchOption result (NoneIsNext graph.now self.old.placed.items) (IsNext graph.now self.old.placed.items) }
        ensures marks { MatchOption result (self.new.placed.items ≡ self.old.placed.items) (λ i. self.new.placed.items ≡ set self.old.placed.items i true) }
        ensures nodes { self.new.rows.nodes ≡ self.old.rows.nodes }
        ensures waits { Waits graph.now self.new.edges.items self.new.placed.items self.new.waits.items self.new.rows [] }
    {
        match self.rows.pop_front(graph.len() as u32) {
            Some(node) => {
                let i = node as u8;
                self.placed[i as usize] = true;
                self.tell(graph, i);
                Some(i)
            }
            None => None,
        }
    }
}

fn are_all(placed: &[bool]) -> bool
    ensures { result ≡ list_all (λ b. b) placed.now }
{
    placed.iter().all(|b| *b)
}

/// The numbers of a graph in an order, each behind those to which it has an edge; None where there is none. An `Err` is
/// out of memory. The time is that of going over the numbers and the edges a fixed number of times.
pub fn sorted(alloc: Global, graph: &[List<u8>]) -> Result<Option<List<u8>>, AllocError>
    requires graph { IsGraph graph.now }
    requires few { length graph.now ≤ 256 }
    requires few_edges { edge_count graph.now ≤ 4096 }
    ensures { IfOk result (λ o. MatchOption o (IsStuck graph.now) (IsSorted graph.now)) }
{
    let mut sort = Sort::new(alloc, graph)?;
    let mut order = List::new(alloc);
    while let Some(i) = sort.next(graph) {
        order.push(i)?;
    }
    if are_all(&sort.placed) {
        Ok(Some(order))
    } else {
        Ok(None)
    }
}
