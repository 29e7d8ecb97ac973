// Arrivals: which are latched and which merged.

ghost use Rattle.std.specs.Prelude.{◌≡◌, ◌<◌, ◌≤◌};
ghost use Rattle.pic_regs.specs.Arrivals.{arrived, latched, merged, number_of, set_of};
ghost use Rattle.pic_regs.specs.Bytes.{bits, one_if, zeros};
ghost use Rattle.pic_regs.specs.Registers.{flag};
ghost use Rattle.pic_regs.specs.State.{registers_of};

use crate::bytes::either;
use crate::state::Regs;
use pic_isa::Source;

/// What became of the sources that arrived at a boundary, as sets: bit i stands for the source with number
/// i, so both are below 2,048. No source is in both.
#[derive(Clone, Copy, Debug, PartialEq, Eq)]
pub struct Arrived {
    pub latched: u16,
    pub merged: u16,
}

// The flags in INTCON of a set of sources.
fn flags_in_intcon(set: u16) -> u8
    ensures { bits result ≡ record zeros { b2 = set_of set Source.T0; b1 = set_of set Source.Int } }
{
    (set % 2 * 4 + set / 2 % 2 * 2) as u8
}

// Those in PIR1.
fn flags_in_pir1(set: u16) -> u8
    ensures { bits result
        ≡ record zeros {
          b7 = set_of set Source.Psp;
          b6 = set_of set Source.Ad;
          b3 = set_of set Source.Ssp;
          b2 = set_of set Source.Ccp1;
          b1 = set_of set Source.Tmr2;
          b0 = set_of set Source.Tmr1;
        } }
{
    let upper = set / 4 % 2 * 128 + set / 8 % 2 * 64;
    let lower = set / 16 % 2 * 8 + set / 32 % 2 * 4 + set / 64 % 2 * 2 + set / 128 % 2;
    (upper + lower) as u8
}

// Those in PIR2.
fn flags_in_pir2(set: u16) -> u8
    ensures { bits result
        ≡ record zeros {
          b4 = set_of set Source.Ee;
          b3 = set_of set Source.Bcl;
          b0 = set_of set Source.Ccp2;
        } }
{
    (set / 256 % 2 * 16 + set / 512 % 2 * 8 + set / 1024 % 2) as u8
}

impl Regs {
    // A flag as a number, 1 or 0.
    fn flag_number(&self, source: Source) -> u16
        ensures number { result ≡ one_if (flag source (registers_of self.now)) }
        ensures in_range { result ≤ 1 }
    {
        u16::from(self.flag(source))
    }

    /// The sources whose flag is set, as a set, below 2,048.
    pub fn flags(&self) -> u16
        ensures set { result ≡ number_of (λ source. flag source (registers_of self.now)) }
        ensures in_range { result < 2048 }
    {
        self.flag_number(Source::T0)
            + 2 * self.flag_number(Source::Int)
            + 4 * self.flag_number(Source::Psp)
            + 8 * self.flag_number(Source::Ad)
            + 16 * self.flag_number(Source::Ssp)
            + 32 * self.flag_number(Source::Ccp1)
            + 64 * self.flag_number(Source::Tmr2)
            + 128 * self.flag_number(Source::Tmr1)
            + 256 * self.flag_number(Source::Ee)
            + 512 * self.flag_number(Source::Bcl)
            + 1024 * self.flag_number(Source::Ccp2)
    }

    fn set_flags(&mut self, arrivals: u16)
        ensures { registers_of self.new ≡ arrived (set_of arrivals) (registers_of self.old) }
    {
        self.intcon = either(flags_in_intcon(arrivals), self.intcon);
        self.pir1 = either(flags_in_pir1(arrivals), self.pir1);
        self.pir2 = either(flags_in_pir2(arrivals), self.pir2);
    }

    /// Sets the flag of each source of a set, below 2,048, enabled or not, and says which of them were latched
    /// and which were merged.
    pub fn arrive(&mut self, arrivals: u16) -> Arrived
        requires { arrivals < 2048 }
        ensures latched { result.latched ≡ number_of (latched (set_of arrivals) (registers_of self.old)) }
        ensures merged { result.merged ≡ number_of (merged (set_of arrivals) (registers_of self.old)) }
        ensures registers { registers_of self.new ≡ arrived (set_of arrivals) (registers_of self.old) }
    {
        let flags = self.flags();
        self.set_flags(arrivals);
        Arrived {
            latched: arrivals & !flags,
            merged: arrivals & flags,
        }
    }
}
