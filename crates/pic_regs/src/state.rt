// The registers as the code holds them.

/// The registers of the chip: those that control depends on, the latch, TRIS and pins of each port, 0 for
/// PORTA to 4 for PORTE, and all other bytes by their lowest address.
#[derive(Drop)]
pub struct Regs {
    pub(crate) status: u8,
    pub(crate) fsr: u8,
    pub(crate) pclath: u8,
    pub(crate) intcon: u8,
    pub(crate) pir1: u8,
    pub(crate) pir2: u8,
    pub(crate) pie1: u8,
    pub(crate) pie2: u8,
    pub(crate) latch: [u8; 5],
    pub(crate) tris: [u8; 5],
    pub(crate) pins: [u8; 5],
    pub(crate) plain: [u8; 512],
}
