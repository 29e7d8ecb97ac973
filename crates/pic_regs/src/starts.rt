// What is unknown of the chip at power-on.

/// What is unknown of the chip at power-on: the 368 bytes of general RAM by rising address (020h to 07Fh,
/// 0A0h to 0EFh, 110h to 16Fh, 190h to 1EFh), W, and the flags Z, DC and C of STATUS, which are the low three
/// bits of `flags` from bit 2 down.
#[derive(Drop)]
pub struct Start {
    pub ram: [u8; 368],
    pub w: u8,
    pub flags: u8,
}
