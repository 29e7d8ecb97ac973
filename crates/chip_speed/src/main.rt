//! The program `chip_speed STEPS`: a loop of mixed instructions runs on the chip for so many steps, at
//! which nothing comes from outside, and then the number of steps, the program counter and W are printed. The time that this takes tells
//! how fast the simulator is.
#![tactic(auto)]

ghost use Rattle.std.specs.Prelude.{◌≡◌};
ghost use Rattle.pic_machine.specs.Boundary.{no_outer};
ghost use Rattle.pic_machine.specs.Run.{after};
ghost use Rattle.pic_machine.specs.State.{chip_of, memory_of};

use anyhow::{Context, Result};
use hex_file::Image;
use pic_isa::bits::RP0;
use pic_isa::registers::{FSR, INDF, PORTB, STATUS};
use pic_isa::{Dest, Instr, encode};
use pic_machine::Chip;
use pic_regs::Start;
use std::env;

// Where the loop begins, and its subroutine.
const LOOP: u16 = 2;

const SUBROUTINE: u16 = 16;

// The program: FSR is 40h, and the loop has arithmetic, tests that skip, a call, a register of bank 1, one
// through FSR, and a port.
fn program() -> [u16; 17] {
    let f = Dest::F;
    [
        encode(&Instr::Movlw { k: 0x40 }),
        encode(&Instr::Movwf { f: FSR }),
        encode(&Instr::Movlw { k: 0x35 }),
        encode(&Instr::Addwf { f: 0x20, d: f }),
        encode(&Instr::Incf { f: 0x21, d: f }),
        encode(&Instr::Btfss { f: 0x21, b: 0 }),
        encode(&Instr::Rlf { f: 0x22, d: f }),
        encode(&Instr::Xorwf {
            f: 0x20,
            d: Dest::W,
        }),
        encode(&Instr::Decfsz { f: 0x23, d: f }),
        encode(&Instr::Call { k: SUBROUTINE }),
        encode(&Instr::Bsf { f: STATUS, b: RP0 }),
        encode(&Instr::Movwf { f: 0x20 }),
        encode(&Instr::Bcf { f: STATUS, b: RP0 }),
        encode(&Instr::Addwf { f: INDF, d: f }),
        encode(&Instr::Movwf { f: PORTB }),
        encode(&Instr::Goto { k: LOOP }),
        encode(&Instr::Return),
    ]
}

// So many steps at which nothing comes from outside.
fn run(chip: &mut Chip, steps: u32)
    ensures { chip_of chip.new ≡ after (memory_of chip.old) (chip_of chip.old) (λ n. no_outer) steps }
{
    for _step in 0..steps {
        let _ = chip.step(0x000, false);
    }
}

fn main(rt: HostRuntime) -> Result<()> {
    let word = env::args(&rt)?
        .nth(1)
        .context("the number of steps is missing")?;
    let steps = word
        .as_str()
        .parse::<u32>()
        .context("the number of steps is no number")?;
    let image = Image::of_words(rt.alloc(), &program())?;
    let mut chip = Chip::power_on(
        &image,
        &Start {
            ram: [0x00; 368],
            w: 0x00,
            flags: 0x00,
        },
    );
    run(&mut chip, steps);
    println!(rt; "steps {steps} pc {} w {}", chip.pc(), chip.w())?;
    Ok(())
}
