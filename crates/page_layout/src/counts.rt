// The words of items, and the places that a list by marks has.

ghost use Rattle.std.specs.Prelude.{◌≡◌, ◌<◌, ◌≤◌, ◌^◌, length};
ghost use Rattle.code_items.specs.Items.{words_in, words_of_item};
ghost use Rattle.page_layout.specs.Marks.{marks_end, places_for};

use code_items::Item;

/// The words of a jump with page settings: two settings and a GOTO.
const JUMP_WORDS: u16 = 3;

/// The words of an item.
pub fn item_words(item: Item, paged: bool) -> u16
    ensures words { result ≡ words_of_item paged item }
    ensures few { result ≤ 3 }
{
    match item {
        Item::Ins(_) => 1,
        Item::Mark(_) => 0,
        Item::Jump(_) => { if paged { JUMP_WORDS } else { 1 } }
    }
}

/// The words of items.
pub fn count_words(items: &[Item], paged: bool) -> u32
    requires { length items.now < 2 ^ 29 }
    ensures { result ≡ words_in paged items.now }
{
    let mut number = 0;
    for item in items {
        number += u32::from(item_words(*item, paged));
    }
    number
}

fn places_needed(item: Item) -> usize
    ensures places { result ≡ places_for item }
    ensures few { result ≤ 2 ^ 32 }
{
    match item {
        Item::Mark(m) => m as usize + 1,
        _ => 0,
    }
}

/// One more than the greatest mark, and 0 where there is none.
pub fn count_places(items: &[Item]) -> usize
    ensures { result ≡ marks_end items.now }
{
    let mut places = 0;
    for item in items {
        places = places.max(places_needed(*item));
    }
    places
}
