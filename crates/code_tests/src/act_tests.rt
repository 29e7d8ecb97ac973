// The code of acts for bytes in several banks.

use code_acts::{Act, FileOp, Name, Places, instructions};
use code_steps::Bank;
use pic_isa::{Dest, Instr};
use std::test::Fail;

// A and B are added: the result lies in bank 1, A in bank 0, B in bank 2.
#[test]
fn adds_over_three_banks(rt: HostRuntime) -> Result<(), Fail> {
    let places = Places {
        to: 0x0A0,
        to_high: 0x0A1,
        a: 0x020,
        a_high: 0x021,
        b: 0x110,
        b_high: 0x111,
        c: 0x022,
    };
    let sum = [
        Act::File(FileOp::Mov, Name::A, Dest::W),
        Act::File(FileOp::Add, Name::B, Dest::W),
        Act::Store(Name::Operand0),
        Act::Store(Name::To),
    ];
    let coded = instructions(rt.alloc(), &sum, places, Bank::Known(2))?;
    let expected = [
        Instr::Bcf { f: 3, b: 6 },
        Instr::Movf {
            f: 0x20,
            d: Dest::W,
        },
        Instr::Bsf { f: 3, b: 6 },
        Instr::Addwf {
            f: 0x10,
            d: Dest::W,
        },
        Instr::Movwf { f: 0x74 },
        Instr::Bsf { f: 3, b: 5 },
        Instr::Bcf { f: 3, b: 6 },
        Instr::Movwf { f: 0x20 },
    ];
    assert!(rt; coded.code.as_slice() == expected.as_slice());
    assert!(rt; coded.bank == Bank::Known(1));
    Ok(())
}
