// Lines of glue as items.

use code_items::{Code, Item};
use glue_steps::{Line, add_lines};
use pic_isa::{Dest, Instr, Source};
use pic_regs::Place;
use std::test::Fail;

// The flag of T0 is cleared, TRISB is read, and a byte in bank 2 is tested.
#[test]
fn lines_become_items(rt: HostRuntime) -> Result<(), Fail> {
    let lines = [
        Line::Lower(Source::T0),
        Line::Load(Place::Tris(1)),
        Line::Skip(false, Place::Plain(0x123), 4),
        Line::Nothing,
    ];
    let mut code = Code::new(rt.alloc());
    add_lines(&mut code, &lines)?;
    let expected = [
        Item::Ins(Instr::Bcf { f: 0x0B, b: 2 }),
        Item::Ins(Instr::Movf {
            f: 0x06,
            d: Dest::W,
        }),
        Item::Ins(Instr::Btfsc { f: 0x23, b: 4 }),
        Item::Ins(Instr::Nop),
    ];
    assert!(rt; code.items.as_slice() == expected.as_slice());
    Ok(())
}
