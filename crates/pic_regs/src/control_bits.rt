// The bits of registers that control depends on: flags, banks, the page and GIE.

ghost use Rattle.std.specs.Prelude.{◌≡◌, ◌+◌, ◌*◌, ◌<◌, ◌≤◌, true};
ghost use Rattle.pic_regs.specs.Bytes.{bits, num, one_if};
ghost use Rattle.pic_regs.specs.Map.{Intcon, Status};
ghost use Rattle.pic_regs.specs.Registers.{changed};
ghost use Rattle.pic_regs.specs.State.{registers_of};

use crate::bytes::{bit_is_set, set_bit};
use crate::state::Regs;
use pic_isa::bits::{CARRY, DIGIT_CARRY, GIE, PD, TO, ZERO};

impl Regs {
    /// STATUS: IRP, RP1, RP0, TO, PD, Z, DC and C from bit 7 down.
    pub fn status(&self) -> u8
        ensures { bits result ≡ (registers_of self.now).status }
    {
        self.status
    }

    /// The bank that RP1 and RP0 choose, 0 to 3.
    pub fn bank(&self) -> u8
        ensures bank { result ≡ 2 * one_if (registers_of self.now).status.b6 + one_if (registers_of self.now).status.b5 }
        ensures in_range { result < 4 }
    {
        self.status / 32 % 4
    }

    /// The data address that INDF stands for, by IRP and FSR, below 512.
    pub fn indirect_address(&self) -> u16
        ensures address { result ≡ 256 * one_if (registers_of self.now).status.b7 + num (registers_of self.now).fsr }
        ensures in_range { result < 512 }
    {
        u16::from(self.status / 128) * 256 + u16::from(self.fsr)
    }

    /// The flag C.
    pub fn carry(&self) -> bool
        ensures { result ≡ (registers_of self.now).status.b0 }
    {
        bit_is_set(self.status, CARRY)
    }

    /// Makes Z what is given.
    pub fn set_zero(&mut self, zero: bool)
        ensures { registers_of self.new ≡ changed Status (λ status. record status { b2 = zero }) (registers_of self.old) }
    {
        self.status = set_bit(self.status, ZERO, zero);
    }

    /// Makes C what is given.
    pub fn set_carry(&mut self, carry: bool)
        ensures { registers_of self.new ≡ changed Status (λ status. record status { b0 = carry }) (registers_of self.old) }
    {
        self.status = set_bit(self.status, CARRY, carry);
    }

    /// Makes C, DC and Z what is given.
    pub fn set_three_flags(&mut self, carry: bool, digit_carry: bool, zero: bool)
        ensures { registers_of self.new
            ≡ changed Status (λ status. record status { b2 = zero; b1 = digit_carry; b0 = carry }) (registers_of self.old) }
    {
        let with_carry = set_bit(self.status, CARRY, carry);
        let with_both = set_bit(with_carry, DIGIT_CARRY, digit_carry);
        self.status = set_bit(with_both, ZERO, zero);
    }

    /// Sets TO and PD.
    pub fn clear_watchdog(&mut self)
        ensures { registers_of self.new
            ≡ changed Status (λ status. record status { b4 = true; b3 = true }) (registers_of self.old) }
    {
        let awake = set_bit(self.status, TO, true);
        self.status = set_bit(awake, PD, true);
    }

    /// The first address of the page of program memory that bits 4 and 3 of PCLATH choose, a multiple of
    /// 2,048.
    pub fn page(&self) -> u16
        ensures page { result
            ≡ 4096 * one_if (registers_of self.now).pclath.b4 + 2048 * one_if (registers_of self.now).pclath.b3 }
        ensures in_range { result ≤ 6144 }
    {
        u16::from(self.pclath / 8 % 4) * 2048
    }

    /// Makes GIE what is given.
    pub fn set_gie(&mut self, gie: bool)
        ensures { registers_of self.new ≡ changed Intcon (λ intcon. record intcon { b7 = gie }) (registers_of self.old) }
    {
        self.intcon = set_bit(self.intcon, GIE, gie);
    }
}
