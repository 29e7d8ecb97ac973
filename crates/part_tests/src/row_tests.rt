// Rows in memory that suffices: nodes at the end of a list, taken from its front.
ghost use Rattle.std.specs.Prelude.{◌≡◌, ◌<◌, length};

use linked_rows::Rows;
use std::test::Fail;

/// Puts a node that is in no list at the end of a list; false where it is in one.
fn pushed_back(rows: &mut Rows, list: u32, node: u32) -> bool
    requires list_in { list < length rows.old.lists }
    requires node_in { node < rows.old.nodes }
    ensures lists { length rows.new.lists ≡ length rows.old.lists }
    ensures nodes { rows.new.nodes ≡ rows.old.nodes }
{
    match rows.list_of(node) {
        Some(_list) => false,
        None => {
            rows.push_back(list, node);
            true
        }
    }
}

#[test]
fn first_in_is_first_out(rt: HostRuntime) -> Result<(), Fail> {
    let mut rows = Rows::new(rt.alloc(), 2, 4)?;
    assert!(rt; pushed_back(&mut rows, 0, 2));
    assert!(rt; pushed_back(&mut rows, 0, 3));
    assert!(rt; !pushed_back(&mut rows, 1, 3));
    assert!(rt; rows.first(0) == Some(2) && rows.first(1).is_none());
    assert!(rt; rows.pop_front(0) == Some(2) && rows.list_of(2).is_none());
    assert!(rt; rows.pop_front(0) == Some(3) && rows.pop_front(0).is_none());
    Ok(())
}
