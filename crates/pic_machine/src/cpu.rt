// The chip without its program memory, as the code holds it.
ghost use Rattle.std.specs.Prelude.{ℕ, ◌<◌, get_or};

use pic_regs::Regs;

// The chip without its program memory: W, the program counter, the registers, the return stack with the place
// that the next push fills and the counted depth, and whether an interrupt is due. Addresses are of 13 bits.
#[derive(Drop)]
pub(crate) struct Cpu {
    pub(crate) w: u8,
    pub(crate) pc: u16,
    pub(crate) regs: Regs,
    pub(crate) stack: [u16; 8],
    pub(crate) top: u8,
    pub(crate) depth: u8,
    pub(crate) due: bool,
    ghost pc_fits: { pc < 8192 },
    ghost top_fits: { top < 8 },
    ghost addresses_fit: { (place : ℕ) → get_or stack place 0 < 8192 },
}
