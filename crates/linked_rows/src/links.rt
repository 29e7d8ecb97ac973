// The array of links: a place for each node, and after them one for each list, with which its ring begins and ends.
ghost use Rattle.std.specs.Prelude.{◌≡◌, ◌≢◌, ◌+◌, ◌<◌, ◌≤◌, ℕ, Some, None, IfOk, cond, length, nat_lt};
ghost use Rattle.linked_rows.specs.Links.{next_at, prev_at, link_at, lone, IsPutIn, IsTakenOut};

use std::alloc::{AllocError, Global};

/// A place: the places before it and after it in its ring, and the list that it belongs to.
#[derive(Clone, Copy, Debug)]
pub(crate) struct Link {
    pub(crate) prev: u32,
    pub(crate) next: u32,
    pub(crate) list: Option<u32>,
}

/// Puts a place into a list's ring, just before the place `at`.
pub(crate) fn put_in(links: &mut [Link], list: u32, place: u32, at: u32)
    requires place_in { place < length links.old }
    requires at_in { at < length links.old }
    requires prev_in { prev_at links.old at < length links.old }
    requires apart { place ≢ at }
    requires apart_from_prev { place ≢ prev_at links.old at }
    ensures { IsPutIn links.old links.new list place at }
{
    let before = links[at as usize].prev;
    links[place as usize] = Link {
        prev: before,
        next: at,
        list: Some(list),
    };
    links[before as usize].next = place;
    links[at as usize].prev = place;
}

/// Takes a place out of its ring.
pub(crate) fn take_out(links: &mut [Link], place: u32)
    requires place_in { place < length links.old }
    requires prev_in { prev_at links.old place < length links.old }
    requires next_in { next_at links.old place < length links.old }
    requires apart_from_prev { place ≢ prev_at links.old place }
    requires apart_from_next { place ≢ next_at links.old place }
    ensures { IsTakenOut links.old links.new place }
{
    let before = links[place as usize].prev;
    let after = links[place as usize].next;
    links[before as usize].next = after;
    links[after as usize].prev = before;
    links[place as usize].list = None;
}

/// The node at a place. None exactly where the place is a list's.
pub(crate) fn node_at(nodes: u32, place: u32) -> Option<u32>
    ensures { result ≡ cond (nat_lt place nodes) (Some place) None }
{
    if place < nodes { Some(place) } else { None }
}

/// What stands at a place before any node is put into a list.
fn lone_link(nodes: u32, place: u32) -> Link
    ensures { result ≡ lone nodes place }
{
    Link {
        prev: place,
        next: place,
        list: if place < nodes {
            None
        } else {
            Some(place - nodes)
        },
    }
}

/// The array of empty lists.
pub(crate) fn lone_links(alloc: Global, lists: u32, nodes: u32) -> Result<Vec<Link>, AllocError>
    requires few_lists { lists ≤ 65536 }
    requires few_nodes { nodes ≤ 65536 }
    ensures size { IfOk result (λ links. length links.items ≡ nodes + lists) }
    ensures each { IfOk result (λ links. (x : ℕ) → x < nodes + lists → link_at links.items x ≡ lone nodes x) }
{
    let mut links = Vec::new(alloc);
    for place in 0..nodes + lists {
        links.push(lone_link(nodes, place))?;
    }
    Ok(links)
}
