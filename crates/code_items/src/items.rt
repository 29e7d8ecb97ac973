// Items of code, and codes one after another.

ghost use Rattle.std.specs.Prelude.{◌≡◌, ℕ, ◌+◌, ◌≤◌, ◌++◌, [], map, take, OnOk, OnErr};
ghost use Rattle.std.specs.List.{AllByRecursion};
ghost use Rattle.code_items.specs.Items.{RaisedFits, raised};

use frp_tree::List;
use pic_isa::Instr;
use std::alloc::{AllocError, Global};

/// An item of code: an instruction, a mark of the place before the next word, or a jump to a mark.
#[derive(Clone, Copy, Debug, PartialEq, Eq)]
pub enum Item {
    Ins(Instr),
    Mark(u32),
    Jump(u32),
}

/// Code without addresses: its items, in order.
#[derive(Debug, Drop)]
pub struct Code {
    pub items: List<Item>,
}

/// The item with its mark or jump raised by this.
fn raised_item(item: Item, up: u32) -> Item
    requires { RaisedFits up item }
    ensures { result ≡ raised up item }
{
    match item {
        Item::Ins(i) => Item::Ins(i),
        Item::Mark(m) => Item::Mark(m + up),
        Item::Jump(m) => Item::Jump(m + up),
    }
}

impl Code {
    /// Code without items, whose items will lie in this allocator's memory. Takes no memory.
    pub fn new(alloc: Global) -> Code
        ensures { result.items ≡ [] }
    {
        Code {
            items: List::new(alloc),
        }
    }

    /// Adds the items of `more` at the end, each mark and jump raised by `up`. No raised number passes 2^32 - 1. An `Err` is
    /// out of memory, and changes nothing.
    pub fn append(&mut self, more: &Code, up: u32) -> Result<(), AllocError>
        requires { AllByRecursion (RaisedFits up) more.now.items }
        ensures ok { OnOk result (self.new.items ≡ self.old.items ++ map (raised up) more.now.items) }
        ensures err { OnErr result (self.new.items ≡ self.old.items) }
    {
        let before = self.items.len();
        let added = self.add(more, up);
        if added.is_err() {
            self.items.truncate(before);
        }
        added
    }

    // Adds the items of `more` at the end, raised; where memory runs out, the first few of them.
    fn add(&mut self, more: &Code, up: u32) -> Result<(), AllocError>
        requires { AllByRecursion (RaisedFits up) more.now.items }
        ensures ok { OnOk result (self.new.items ≡ self.old.items ++ map (raised up) more.now.items) }
        ensures err { OnErr result ((n : ℕ) × (self.new.items ≡ self.old.items ++ take n (map (raised up) more.now.items))) }
    {
        for item in more.items.as_slice() {
            self.items.push(raised_item(*item, up))?;
        }
        Ok(())
    }
}
