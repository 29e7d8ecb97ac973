// What an instruction did beside the chip that it leaves.
use crate::steps::PortWrite;

// What an instruction did beside the chip that it leaves: the lowest address of the register that it wrote as
// its destination, and what that put on a port.
#[derive(Clone, Copy, Debug, PartialEq, Eq)]
pub(crate) struct Effect {
    pub(crate) wrote: Option<u16>,
    pub(crate) port: Option<PortWrite>,
}
