// Registers by their names in the data sheet (DS30292, "Register File Summary").
//
// A data address below 80h, of bank 0, is also the seven bits that name its register in an instruction; those of
// the next 80h, of bank 1, stand 80h above theirs.

/// The register that IRP and FSR point to, in each bank.
pub const INDF: u8 = 0x00;

/// The low eight bits of the program counter, in each bank.
pub const PCL: u8 = 0x02;

/// The flags, and the bits that choose a bank, in each bank.
pub const STATUS: u8 = 0x03;

/// The address for INDF, in each bank.
pub const FSR: u8 = 0x04;

/// Port A; ports B to E follow it.
pub const PORTA: u8 = 0x05;

/// Port B.
pub const PORTB: u8 = 0x06;

/// Port C.
pub const PORTC: u8 = 0x07;

/// Port D.
pub const PORTD: u8 = 0x08;

/// Port E.
pub const PORTE: u8 = 0x09;

/// The upper five bits of the next program counter, in each bank.
pub const PCLATH: u8 = 0x0A;

/// GIE, PEIE, and the enables and flags of T0, INT and RB, in each bank.
pub const INTCON: u8 = 0x0B;

/// Flags.
pub const PIR1: u8 = 0x0C;

/// Further flags.
pub const PIR2: u8 = 0x0D;

/// The enables of the flags in PIR1, in bank 1.
pub const PIE1: u8 = 0x8C;

/// The enables of the flags in PIR2, in bank 1.
pub const PIE2: u8 = 0x8D;
