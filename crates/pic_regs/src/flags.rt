// Flags of sources, and requests.

ghost use Rattle.std.specs.Prelude.{◌≡◌, ◌<◌, if◌then◌else◌};
ghost use Rattle.pic_regs.specs.Arrivals.{arrived};
ghost use Rattle.pic_regs.specs.Bytes.{bits};
ghost use Rattle.pic_regs.specs.FlagBits.{flags_at, with_flag_at};
ghost use Rattle.pic_regs.specs.Registers.{flag, requested};
ghost use Rattle.pic_regs.specs.Single.{only};
ghost use Rattle.pic_regs.specs.State.{registers_of};

use crate::bytes::{bit_is_set, have_a_bit_in_common, set_bit};
use crate::latches::Latch;
use crate::masks::existing_byte;
use crate::places::Place;
use crate::state::Regs;
use pic_isa::bits::{GIE, INTE, INTF, PEIE, RBIE, RBIF, T0IE, T0IF};
use pic_isa::registers::{INTCON, PIR1};
use pic_isa::{BitAt, Source};

impl Regs {
    // The register at an address that has flags: INTCON, PIR1, or else PIR2.
    fn flags_at(&self, address: u16) -> u8
        ensures { bits result ≡ flags_at address (registers_of self.now) }
    {
        if address == u16::from(INTCON) {
            self.intcon
        } else if address == u16::from(PIR1) {
            self.pir1
        } else {
            self.pir2
        }
    }

    /// A source's interrupt flag.
    pub fn flag(&self, source: Source) -> bool
        ensures { result ≡ flag source (registers_of self.now) }
    {
        let at = source.flag();
        bit_is_set(self.flags_at(at.address), at.bit)
    }

    // Sets a bit, 0 to 7, of the register at an address that has flags.
    fn set_flag_at(&mut self, at: BitAt)
        requires { at.bit < 8 }
        ensures { registers_of self.new ≡ with_flag_at at (registers_of self.old) }
    {
        if at.address == u16::from(INTCON) {
            self.intcon = set_bit(self.intcon, at.bit, true);
        } else if at.address == u16::from(PIR1) {
            self.pir1 = set_bit(self.pir1, at.bit, true);
        } else {
            self.pir2 = set_bit(self.pir2, at.bit, true);
        }
    }

    fn raise(&mut self, source: Source)
        ensures { registers_of self.new ≡ arrived (only source) (registers_of self.old) }
    {
        self.set_flag_at(source.flag());
    }

    /// Sets a source's flag, enabled or not, and says whether its arrival was latched or merged.
    pub fn set_flag(&mut self, source: Source) -> Latch
        ensures latch { result ≡ (if flag source (registers_of self.old) then Latch.Merged else Latch.Latched) }
        ensures registers { registers_of self.new ≡ arrived (only source) (registers_of self.old) }
    {
        let was_set = self.flag(source);
        self.raise(source);
        if was_set {
            Latch::Merged
        } else {
            Latch::Latched
        }
    }

    /// An interrupt is requested: GIE is set, and an enable and its flag in INTCON, or else PEIE and some
    /// enable of PIE1 or PIE2 with its flag in PIR1 or PIR2.
    pub fn requested(&self) -> bool
        ensures { result ≡ requested (registers_of self.now) }
    {
        let intcon = self.intcon;
        let pir1 = existing_byte(Place::Pir1, self.pir1);
        let pir2 = existing_byte(Place::Pir2, self.pir2);
        bit_is_set(intcon, GIE)
            && (bit_is_set(intcon, T0IE) && bit_is_set(intcon, T0IF)
                || bit_is_set(intcon, INTE) && bit_is_set(intcon, INTF)
                || bit_is_set(intcon, RBIE) && bit_is_set(intcon, RBIF)
                || bit_is_set(intcon, PEIE)
                    && (have_a_bit_in_common(self.pie1, pir1)
                        || have_a_bit_in_common(self.pie2, pir2)))
    }
}
