// The address of each mark.

ghost use Rattle.std.specs.Prelude.{◌≡◌, ℕ, ◌+◌, ◌≤◌, ◌%◌, IfOk, get_or, length, replicate};
ghost use Rattle.code_items.specs.Items.{words_in};
ghost use Rattle.page_layout.specs.Marks.{marks_end, marks_after, no_place, noted, places_for};

use crate::counts::{count_places, item_words};
use code_items::Item;
use std::alloc::{AllocError, Global};

fn zeros(alloc: Global, number: usize) -> Result<Vec<u16>, AllocError>
    ensures { IfOk result (λ v. v.items ≡ replicate number 0) }
{
    let mut list = Vec::new(alloc);
    list.resize(number, 0)?;
    Ok(list)
}

// Puts the address at the place of the mark that the item is, if it is one.
fn note(marks: &mut Vec<u16>, item: Item, at: u16)
    requires { places_for item ≤ length marks.old.items }
    ensures { marks.new.items ≡ noted item (at % 8192) marks.old.items }
{
    if let Item::Mark(m) = item {
        marks[m as usize] = at % 8192;
    }
}

/// The address of each mark at its place, where the items' words stand from address 0 on, and 0 at all other places.
pub fn mark_places(alloc: Global, items: &[Item], paged: bool) -> Result<Vec<u16>, AllocError>
    requires { words_in paged items.now ≤ 8192 }
    ensures places { IfOk result (λ v. (m : ℕ) → get_or v.items m 0 ≡ marks_after paged 0 items.now no_place m) }
    ensures number { IfOk result (λ v. length v.items ≡ marks_end items.now) }
{
    let mut marks = zeros(alloc, count_places(items))?;
    let mut at = 0;
    for item in items {
        note(&mut marks, *item, at);
        at += item_words(*item, paged);
    }
    Ok(marks)
}
