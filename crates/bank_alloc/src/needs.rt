// What bytes are needed, and their number.

ghost use Rattle.std.specs.Prelude.{◌≡◌, ◌<◌, ◌^◌};
ghost use Rattle.bank_alloc.specs.Needs.{bytes_of};

/// The bytes that firmware keeps: `states` for the state, `scratch` for what a run computes, and six for each of `levels` levels
/// of priority. They are cells with numbers from 0 on, in this order: states, scratch, and the six of each level.
#[derive(Clone, Copy, Debug, PartialEq, Eq)]
pub struct Needs {
    pub states: u32,
    pub levels: u8,
    pub scratch: u32,
}

/// Bytes have no places: they are more than 352, with their number.
#[derive(Clone, Copy, Debug, PartialEq, Eq)]
pub enum RamFault {
    Ram(u32),
}

/// The bytes of each level.
pub(crate) const BYTES_OF_A_LEVEL: u32 = 6;

// How many bytes are needed.
pub(crate) fn bytes_needed(need: &Needs) -> u32
    requires { bytes_of need.now < 2 ^ 32 }
    ensures { result ≡ bytes_of need.now }
{
    need.states + need.scratch + BYTES_OF_A_LEVEL * u32::from(need.levels)
}
