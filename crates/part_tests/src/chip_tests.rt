// Instruction words, registers, and steps of the machine. Expected values are the data sheet's.
ghost use Rattle.std.specs.Prelude.{◌≤◌, length};

use hex_file::Image;
use pic_isa::{Dest, Instr, Source, decode};
use pic_machine::{Chip, Did, PortWrite};
use pic_regs::{Latch, Regs, Start, canonical};
use std::alloc::{AllocError, Global};
use std::test::Fail;

#[test]
fn decodes_words_of_the_table(rt: HostRuntime) {
    let rows = [
        (0x1683, Some(Instr::Bsf { f: 0x03, b: 5 })),
        (
            0x0E03,
            Some(Instr::Swapf {
                f: 0x03,
                d: Dest::W,
            }),
        ),
        (0x2C04, Some(Instr::Goto { k: 0x404 })),
        (0x3FFF, Some(Instr::Addlw { k: 0xFF })),
        (0x0062, None),
    ];
    for (word, wanted) in rows {
        assert!(rt; decode(word) == wanted);
    }
}

// Registers at power-on, with three bytes of RAM that aren't 0.
fn registers() -> Regs {
    let mut ram = [0x00; 368];
    ram[0] = 0x11;
    ram[96] = 0x22;
    ram[367] = 0x33;
    Regs::power_on(&Start {
        ram,
        w: 0x00,
        flags: 0xFD,
    })
}

#[test]
fn registers_hold_what_was_written(rt: HostRuntime) {
    let mut regs = registers();
    assert!(rt; regs.read(0x003) == 0x1D && regs.read(0x081) == 0xFF && regs.read(0x189) == 0x00);
    assert!(rt; regs.read(0x020) == 0x11 && regs.read(0x0A0) == 0x22 && regs.read(0x1EF) == 0x33);
    regs.write(0x186, 0xF0);
    regs.write(0x006, 0x5A);
    regs.set_pins(1, 0x3C);
    regs.write(0x1F5, 0x42);
    regs.write(0x10A, 0xFF);
    assert!(rt; regs.read(0x106) == 0x3A && regs.read(0x075) == 0x42 && regs.read(0x00A) == 0x1F);
    assert!(rt; canonical(0x186) == Some(0x086) && canonical(0x18F).is_none());
}

#[test]
fn registers_request_what_is_enabled(rt: HostRuntime) {
    let mut regs = registers();
    assert!(rt; regs.set_flag(Source::Tmr1) == Latch::Latched);
    let arrived = regs.arrive(0x081);
    assert!(rt; arrived.latched == 0x001 && arrived.merged == 0x080);
    regs.write(0x08C, 0x01);
    regs.write(0x00B, 0x80);
    assert!(rt; !regs.requested() && regs.flag(Source::Tmr1));
    regs.write(0x00B, 0xC0);
    assert!(rt; regs.requested());
}

// A chip at power-on whose program is these words from address 0 on, of which the low 14 bits count. STATUS is
// 1Dh, and W is as given.
fn started(alloc: Global, program: &[u16], w: u8) -> Result<Chip, AllocError>
    requires { length program.now ≤ 8192 }
{
    let image = Image::of_words(alloc, program)?;
    let start = Start {
        ram: [0x00; 368],
        w,
        flags: 0x05,
    };
    Ok(Chip::power_on(&image, &start))
}

// The instruction at this address has run, which is this word.
fn ran(address: u16, word: u16) -> Did {
    Did::Ran { address, word }
}

#[test]
fn takes_an_interrupt_and_returns(rt: HostRuntime) -> Result<(), Fail> {
    // MOVLW 90h; MOVWF INTCON; GOTO 2; at 4 BCF INTCON,INTF; RETFIE.
    let program = [0x3090, 0x008B, 0x2802, 0x0000, 0x108B, 0x0009];
    let mut chip = started(rt.alloc(), &program, 0x00)?;
    let _ = chip.step(0x000, false);
    let _ = chip.step(0x000, false);
    let taken = chip.step(0x002, false);
    assert!(rt;
        taken.did == Did::Took && !chip.due() && taken.latched == 0x002 && taken.wrote.is_none()
    );
    assert!(rt; chip.pc() == 0x0004 && chip.depth() == 1 && chip.regs().read(0x00B) == 0x12);
    assert!(rt; chip.step(0x000, false).wrote == Some(0x00B));
    let merged = chip.step(0x000, false);
    assert!(rt; merged.did == ran(0x0005, 0x0009));
    assert!(rt; chip.pc() == 0x0002 && chip.depth() == 0 && chip.regs().read(0x00B) == 0x90);
    Ok(())
}

#[test]
fn writes_a_port_and_reads_its_pins(rt: HostRuntime) -> Result<(), Fail> {
    // MOVWF PORTB; MOVF PORTB,W. All pins are inputs.
    let mut chip = started(rt.alloc(), &[0x0086, 0x0806], 0x5A)?;
    chip.set_pins(1, 0x3C);
    assert!(rt;
        chip.step(0x000, false).port
            == Some(PortWrite {
                port: 1,
                byte: 0x5A
            })
    );
    let _ = chip.step(0x000, false);
    assert!(rt; chip.w() == 0x3C);
    // Past the program stands 3FFFh, which is ADDLW FFh.
    assert!(rt; chip.step(0x000, false).did == ran(0x0002, 0x3FFF));
    assert!(rt; chip.w() == 0x3B);
    Ok(())
}
