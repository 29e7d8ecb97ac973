// Bits of registers by their names in the data sheet (DS30292), each by its number, 0 to 7.

/// STATUS: C.
pub const CARRY: u8 = 0;

/// STATUS: DC.
pub const DIGIT_CARRY: u8 = 1;

/// STATUS: Z.
pub const ZERO: u8 = 2;

/// STATUS: 0 after SLEEP.
pub const PD: u8 = 3;

/// STATUS: 0 after the watchdog ran out.
pub const TO: u8 = 4;

/// STATUS: the low bit of the bank.
pub const RP0: u8 = 5;

/// STATUS: its high bit.
pub const RP1: u8 = 6;

/// STATUS: the upper half of data memory, for INDF.
pub const IRP: u8 = 7;

/// INTCON: the flag of RB, which is no source here.
pub const RBIF: u8 = 0;

/// INTCON: the flag of INT.
pub const INTF: u8 = 1;

/// INTCON: the flag of T0.
pub const T0IF: u8 = 2;

/// INTCON: the enable of RB.
pub const RBIE: u8 = 3;

/// INTCON: the enable of INT.
pub const INTE: u8 = 4;

/// INTCON: the enable of T0.
pub const T0IE: u8 = 5;

/// INTCON: the enable of all sources in PIR1 and PIR2.
pub const PEIE: u8 = 6;

/// INTCON: the enable of all interrupts.
pub const GIE: u8 = 7;

/// PIR1 and PIE1: TMR1IF and TMR1IE.
pub const TMR1_BIT: u8 = 0;

/// PIR1 and PIE1: TMR2IF and TMR2IE.
pub const TMR2_BIT: u8 = 1;

/// PIR1 and PIE1: CCP1IF and CCP1IE.
pub const CCP1_BIT: u8 = 2;

/// PIR1 and PIE1: SSPIF and SSPIE.
pub const SSP_BIT: u8 = 3;

/// PIR1 and PIE1: ADIF and ADIE.
pub const AD_BIT: u8 = 6;

/// PIR1 and PIE1: PSPIF and PSPIE.
pub const PSP_BIT: u8 = 7;

/// PIR2 and PIE2: CCP2IF and CCP2IE.
pub const CCP2_BIT: u8 = 0;

/// PIR2 and PIE2: BCLIF and BCLIE.
pub const BCL_BIT: u8 = 3;

/// PIR2 and PIE2: EEIF and EEIE.
pub const EE_BIT: u8 = 4;
