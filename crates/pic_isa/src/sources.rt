// The sources of interrupts: names, numbers, flags and enables.

ghost use Rattle.std.specs.Prelude.{◌≡◌, ◌≢◌, IfSome, IfNone};
ghost use Rattle.pic_isa.specs.declared.sources.Source.{Source as AnySource};
ghost use Rattle.pic_isa.specs.Sources.{source_name, source_number, flag_of, enable_of};

use crate::bits::{
    AD_BIT, BCL_BIT, CCP1_BIT, CCP2_BIT, EE_BIT, INTE, INTF, PSP_BIT, SSP_BIT, T0IE, T0IF,
    TMR1_BIT, TMR2_BIT,
};
use crate::registers::{INTCON, PIE1, PIR1, PIR2};

/// A source of interrupts, in the order of its number, which counts from 0.
#[derive(Clone, Copy, Debug, PartialEq, Eq)]
pub enum Source {
    T0,
    Int,
    Psp,
    Ad,
    Ssp,
    Ccp1,
    Tmr2,
    Tmr1,
    Ee,
    Bcl,
    Ccp2,
}

/// A bit of a register: the register's lowest address, and the bit, 0 to 7.
#[derive(Clone, Copy, Debug, PartialEq, Eq)]
pub struct BitAt {
    pub address: u16,
    pub bit: u8,
}

impl Source {
    /// All sources, in the order of their numbers.
    pub const ALL: [Source; 11] = [
        Source::T0,
        Source::Int,
        Source::Psp,
        Source::Ad,
        Source::Ssp,
        Source::Ccp1,
        Source::Tmr2,
        Source::Tmr1,
        Source::Ee,
        Source::Bcl,
        Source::Ccp2,
    ];

    /// The source with this name.
    pub fn name(self) -> &'static str
        ensures { result.now ≡ source_name self }
    {
        match self {
            Source::T0 => "T0",
            Source::Int => "INT",
            Source::Psp => "PSP",
            Source::Ad => "AD",
            Source::Ssp => "SSP",
            Source::Ccp1 => "CCP1",
            Source::Tmr2 => "TMR2",
            Source::Tmr1 => "TMR1",
            Source::Ee => "EE",
            Source::Bcl => "BCL",
            Source::Ccp2 => "CCP2",
        }
    }

    /// The source's number, 0 to 10.
    pub fn number(self) -> u8
        ensures { result ≡ source_number self }
    {
        self as u8
    }

    /// The source's flag, in INTCON, PIR1 or PIR2.
    pub fn flag(self) -> BitAt
        ensures { result ≡ flag_of self }
    {
        let (address, bit) = match self {
            Source::T0 => (INTCON, T0IF),
            Source::Int => (INTCON, INTF),
            Source::Psp => (PIR1, PSP_BIT),
            Source::Ad => (PIR1, AD_BIT),
            Source::Ssp => (PIR1, SSP_BIT),
            Source::Ccp1 => (PIR1, CCP1_BIT),
            Source::Tmr2 => (PIR1, TMR2_BIT),
            Source::Tmr1 => (PIR1, TMR1_BIT),
            Source::Ee => (PIR2, EE_BIT),
            Source::Bcl => (PIR2, BCL_BIT),
            Source::Ccp2 => (PIR2, CCP2_BIT),
        };
        BitAt {
            address: u16::from(address),
            bit,
        }
    }

    /// The source's enable, in INTCON, PIE1 or PIE2. In PIE1 and PIE2 it is the bit that its flag is in PIR1 and
    /// PIR2.
    pub fn enable(self) -> BitAt
        ensures { result ≡ enable_of self }
    {
        let flag = self.flag();
        match self {
            Source::T0 => BitAt {
                address: u16::from(INTCON),
                bit: T0IE,
            },
            Source::Int => BitAt {
                address: u16::from(INTCON),
                bit: INTE,
            },
            _ => BitAt {
                address: flag.address + u16::from(PIE1 - PIR1),
                bit: flag.bit,
            },
        }
    }
}

/// The source with this name, and None exactly where no source has it.
pub fn source_named(name: &str) -> Option<Source>
    ensures found { IfSome result (λ source. name.now ≡ source_name source) }
    ensures none { IfNone result ((source : AnySource) → name.now ≢ source_name source) }
{
    match name {
        "T0" => Some(Source::T0),
        "INT" => Some(Source::Int),
        "PSP" => Some(Source::Psp),
        "AD" => Some(Source::Ad),
        "SSP" => Some(Source::Ssp),
        "CCP1" => Some(Source::Ccp1),
        "TMR2" => Some(Source::Tmr2),
        "TMR1" => Some(Source::Tmr1),
        "EE" => Some(Source::Ee),
        "BCL" => Some(Source::Bcl),
        "CCP2" => Some(Source::Ccp2),
        _ => None,
    }
}
