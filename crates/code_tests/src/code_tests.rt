// Codes one after another.

ghost use Rattle.std.specs.Prelude.{◌≡◌, IfOk};

use code_items::{Code, Item};
use frp_tree::List;
use pic_isa::Instr;
use std::alloc::{AllocError, Global};
use std::test::Fail;

fn code_of(alloc: Global, items: &[Item]) -> Result<Code, AllocError>
    ensures { IfOk result (λ code. code.items ≡ items.now) }
{
    Ok(Code {
        items: List::from_vec(Vec::from_slice(alloc, items)?),
    })
}

#[test]
fn raises_marks_and_jumps(rt: HostRuntime) -> Result<(), Fail> {
    let mut code = Code::new(rt.alloc());
    let loop_twice = [
        Item::Mark(0),
        Item::Ins(Instr::Nop),
        Item::Jump(1),
        Item::Mark(1),
        Item::Jump(0),
    ];
    let first = code_of(rt.alloc(), &loop_twice)?;
    code.append(&first, 0)?;
    code.append(&first, 2)?;
    let expected = [
        Item::Mark(0),
        Item::Ins(Instr::Nop),
        Item::Jump(1),
        Item::Mark(1),
        Item::Jump(0),
        Item::Mark(2),
        Item::Ins(Instr::Nop),
        Item::Jump(3),
        Item::Mark(3),
        Item::Jump(2),
    ];
    assert!(rt; code.items.as_slice() == expected.as_slice());
    Ok(())
}
