// Lists of nodes.
ghost use Rattle.std.specs.Prelude.{◌≡◌, ◌≤◌, ◌<◌, ◌↔◌, ℕ, List, [], ◌∷◌, ◌++◌, Some, IsNone, IfOk, IfSome, length, replicate, drop, slice_get};
ghost use Rattle.linked_rows.specs.Rows.{row, IsIn, IsPlaced, IsFree, Stands, with_row};

use crate::links::{Link, lone_links, node_at, put_in, take_out};
use std::alloc::{AllocError, Global};
use std::marker::Model;

/// Lists of nodes. Contracts see the lists of the nodes' numbers, and how many nodes there are; neither
/// the number of lists nor that of nodes ever changes.
#[derive(Debug, Drop)]
pub struct Rows {
    nodes: u32,
    links: Vec<Link>,
}

impl Model for Rows {
    ghost use Rattle.linked_rows.specs.Rows.{NodeLists};

    ghost Value = { NodeLists };

    ghost use Rattle.linked_rows.specs.Links.{IsLinked, lists_of, lists_in};

    ghost view = { λ r. lists_of r.links.items r.nodes };

    ghost invariant = { λ r. IsLinked r.links.items r.nodes (lists_in r.links.items r.nodes) };
}

impl Rows {
    /// So many empty lists and so many nodes, each in no list. An `Err` is out of memory.
    pub fn new(alloc: Global, lists: u32, nodes: u32) -> Result<Rows, AllocError>
        requires few_lists { lists ≤ 65536 }
        requires few_nodes { nodes ≤ 65536 }
        ensures { IfOk result (λ rows. rows ≡ record { lists = replicate lists []; nodes = nodes }) }
    {
        let links = lone_links(alloc, lists, nodes)?;
        Ok(Rows { nodes, links })
    }

    /// Puts a node that is in no list at the end of a list. Takes no memory.
    pub fn push_back(&mut self, list: u32, node: u32)
        requires list_in { list < length self.old.lists }
        requires node_in { node < self.old.nodes }
        requires free { IsFree self.old node }
        ensures { self.new ≡ with_row self.old list (row self.old list ++ node ∷ []) }
    {
        let end = self.nodes + list;
        put_in(&mut self.links, list, node, end);
    }

    /// Puts a node that is in no list just before the node `at`, into the list of that. Takes no memory.
    pub fn push_before(&mut self, node: u32, at: u32)
        requires node_in { node < self.old.nodes }
        requires free { IsFree self.old node }
        requires placed { IsPlaced self.old at }
        ensures lists { length self.new.lists ≡ length self.old.lists }
        ensures nodes { self.new.nodes ≡ self.old.nodes }
        ensures moved { (list : ℕ) (before after : List ℕ) → Stands self.old list before at after → self.new ≡ with_row self.old list (before ++ node ∷ at ∷ after) }
    {
        if let Some(list) = self.links[at as usize].list {
            put_in(&mut self.links, list, node, at);
        }
    }

    /// Takes the first node out of a list. None exactly where the list is empty. Takes no memory.
    pub fn pop_front(&mut self, list: u32) -> Option<u32>
        requires { list < length self.old.lists }
        ensures answer { result ≡ slice_get (row self.old list) 0 }
        ensures left { self.new ≡ with_row self.old list (drop 1 (row self.old list)) }
        ensures free { IfSome result (λ node. IsFree self.new node) }
        ensures below { IfSome result (λ node. node < self.old.nodes) }
    {
        let first = self.first(list);
        if let Some(node) = first {
            self.remove(node);
        }
        first
    }

    /// The first node of a list. None exactly where the list is empty. Takes no memory.
    pub fn first(&self, list: u32) -> Option<u32>
        requires { list < length self.now.lists }
        ensures { result ≡ slice_get (row self.now list) 0 }
    {
        let end = self.nodes + list;
        node_at(self.nodes, self.links[end as usize].next)
    }

    /// The node after a node that is in a list. None exactly where it is the last. Takes no memory.
    pub fn next(&self, node: u32) -> Option<u32>
        requires { IsPlaced self.now node }
        ensures { (list : ℕ) (before after : List ℕ) → Stands self.now list before node after → result ≡ slice_get after 0 }
    {
        node_at(self.nodes, self.links[node as usize].next)
    }

    /// Takes a node out of the list that it is in. Takes no memory.
    pub fn remove(&mut self, node: u32)
        requires { IsPlaced self.old node }
        ensures below { node < self.old.nodes }
        ensures free { IsFree self.new node }
        ensures lists { length self.new.lists ≡ length self.old.lists }
        ensures nodes { self.new.nodes ≡ self.old.nodes }
        ensures moved { (list : ℕ) (before after : List ℕ) → Stands self.old list before node after → self.new ≡ with_row self.old list (before ++ after) }
    {
        take_out(&mut self.links, node);
    }

    /// The list that a node is in. None exactly where it is in none, as where there is no such node.
    /// Takes no memory.
    pub fn list_of(&self, node: u32) -> Option<u32>
        ensures found { (list : ℕ) → (result ≡ Some list) ↔ IsIn self.now node list }
        ensures none { IsNone result ↔ IsFree self.now node }
    {
        if node < self.nodes {
            self.links[node as usize].list
        } else {
            None
        }
    }
}
