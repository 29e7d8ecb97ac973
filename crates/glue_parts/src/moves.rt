// A byte that is moved from one register to another.
use pic_regs::Place;

/// A byte that a window copies from one register to another: from scratch to a state or a port.
#[derive(Clone, Copy, Debug, PartialEq, Eq)]
pub struct Move {
    pub from: Place,
    pub to: Place,
}
