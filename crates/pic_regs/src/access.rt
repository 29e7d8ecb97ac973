// Reads and writes of registers.

ghost use Rattle.std.specs.Prelude.{◌≡◌, ◌<◌};
ghost use Rattle.pic_regs.specs.Bytes.{bits, num};
ghost use Rattle.pic_regs.specs.Map.{Port, Tris, Plain, reg_at};
ghost use Rattle.pic_regs.specs.Registers.{held, read, with_pins, write};
ghost use Rattle.pic_regs.specs.Places.{IsPlace, reg_of};
ghost use Rattle.pic_regs.specs.State.{registers_of};

use crate::bytes::select;
use crate::map::place_at;
use crate::masks::{existing_byte, written_byte};
use crate::places::Place;
use crate::state::Regs;

impl Regs {
    // What a port holds: its latch where TRIS is 0 and its pins where TRIS is 1.
    fn port(&self, port: u8) -> u8
        requires { port < 5 }
        ensures { bits result ≡ held (Port port) (registers_of self.now) }
    {
        let port = usize::from(port);
        select(self.tris[port], self.latch[port], self.pins[port])
    }

    fn tris(&self, port: u8) -> u8
        requires { port < 5 }
        ensures { bits result ≡ held (Tris port) (registers_of self.now) }
    {
        self.tris[usize::from(port)]
    }

    fn plain(&self, address: u16) -> u8
        requires { address < 512 }
        ensures { bits result ≡ held (Plain address) (registers_of self.now) }
    {
        self.plain[usize::from(address)]
    }

    // What a register holds, and 0 at a place that has none of its own.
    fn held_at(&self, place: Place) -> u8
        requires { IsPlace place }
        ensures { bits result ≡ held (reg_of place) (registers_of self.now) }
    {
        match place {
            Place::Absent | Place::Indf | Place::Pcl => 0x00,
            Place::Status => self.status,
            Place::Fsr => self.fsr,
            Place::Pclath => self.pclath,
            Place::Intcon => self.intcon,
            Place::Pir1 => self.pir1,
            Place::Pir2 => self.pir2,
            Place::Pie1 => self.pie1,
            Place::Pie2 => self.pie2,
            Place::Port(port) => self.port(port),
            Place::Tris(port) => self.tris(port),
            Place::Plain(address) => self.plain(address),
        }
    }

    /// What a read of a register gives. INDF and PCL, which are the chip's own matter, read 0 here, as does a
    /// place that is not implemented.
    pub fn read_place(&self, place: Place) -> u8
        requires { IsPlace place }
        ensures byte { bits result ≡ read (reg_of place) (registers_of self.now) }
        ensures number { result ≡ num (read (reg_of place) (registers_of self.now)) }
    {
        existing_byte(place, self.held_at(place))
    }

    /// What a read of a data address, below 512, gives.
    pub fn read(&self, address: u16) -> u8
        requires { address < 512 }
        ensures byte { bits result ≡ read (reg_at address) (registers_of self.now) }
        ensures number { result ≡ num (read (reg_at address) (registers_of self.now)) }
    {
        self.read_place(place_at(address))
    }

    fn write_port_latch(&mut self, port: u8, byte: u8)
        requires { port < 5 }
        ensures { registers_of self.new ≡ write (Port port) (bits byte) (registers_of self.old) }
    {
        let at = usize::from(port);
        self.latch[at] = written_byte(Place::Port(port), self.latch[at], byte);
    }

    fn write_tris(&mut self, port: u8, byte: u8)
        requires { port < 5 }
        ensures { registers_of self.new ≡ write (Tris port) (bits byte) (registers_of self.old) }
    {
        let old = self.tris(port);
        self.tris[usize::from(port)] = written_byte(Place::Tris(port), old, byte);
    }

    fn write_plain(&mut self, address: u16, byte: u8)
        requires { address < 512 }
        ensures { registers_of self.new ≡ write (Plain address) (bits byte) (registers_of self.old) }
    {
        self.plain[usize::from(address)] = byte;
    }

    /// Writes a register; a port's is its latch. Bits that ignore writes stay as they were. A write of INDF,
    /// of PCL and of a place that is not implemented changes nothing.
    pub fn write_place(&mut self, place: Place, byte: u8)
        requires { IsPlace place }
        ensures { registers_of self.new ≡ write (reg_of place) (bits byte) (registers_of self.old) }
    {
        match place {
            Place::Absent | Place::Indf | Place::Pcl => {}
            Place::Status => self.status = written_byte(place, self.status, byte),
            Place::Fsr => self.fsr = byte,
            Place::Pclath => self.pclath = written_byte(place, self.pclath, byte),
            Place::Intcon => self.intcon = byte,
            Place::Pir1 => self.pir1 = written_byte(place, self.pir1, byte),
            Place::Pir2 => self.pir2 = written_byte(place, self.pir2, byte),
            Place::Pie1 => self.pie1 = byte,
            Place::Pie2 => self.pie2 = byte,
            Place::Port(port) => self.write_port_latch(port, byte),
            Place::Tris(port) => self.write_tris(port, byte),
            Place::Plain(address) => self.write_plain(address, byte),
        }
    }

    /// Writes a data address, below 512.
    pub fn write(&mut self, address: u16, byte: u8)
        requires { address < 512 }
        ensures { registers_of self.new ≡ write (reg_at address) (bits byte) (registers_of self.old) }
    {
        self.write_place(place_at(address), byte);
    }

    /// Sets the pins of a port, 0 for PORTA to 4 for PORTE.
    pub fn set_pins(&mut self, port: u8, byte: u8)
        requires { port < 5 }
        ensures { registers_of self.new ≡ with_pins port (bits byte) (registers_of self.old) }
    {
        self.pins[usize::from(port)] = byte;
    }
}
