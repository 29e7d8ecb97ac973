// Scripts, and what can be wrong with their texts.
use frp_tree::List;
use std::alloc::AllocError;

/// Sources that arrive at boundary `at`: bit i of `sources` is the source with number i.
#[derive(Clone, Copy, Debug, PartialEq, Eq)]
pub struct Arrival {
    pub at: u32,
    pub sources: u16,
}

/// From boundary `at` on the pins of a port, 0 for PORTA to 4 for PORTE, are a byte.
#[derive(Clone, Copy, Debug, PartialEq, Eq)]
pub struct PinChange {
    pub at: u32,
    pub port: u8,
    pub byte: u8,
}

/// The boundaries at which a requested interrupt waits for one more instruction.
#[derive(Clone, Copy, Debug, PartialEq, Eq)]
pub enum Late {
    Never,
    Always,
    /// Those with an odd number.
    Odd,
}

/// A script: the byte that fills RAM and W at power-on, whose low three bits are the flags of STATUS; when a requested
/// interrupt is late; the arrivals, by rising boundary, each of at least one source; the changes of pins, by boundary,
/// no two of one port at one boundary; and the number of steps, 1 to 10,000,000, above all boundaries.
#[derive(Debug, Drop)]
pub struct Script {
    pub fill: u8,
    pub late: Late,
    pub arrivals: List<Arrival>,
    pub pins: List<PinChange>,
    pub steps: u32,
}

/// What is wrong with a script, in the order in which it is tested at a line.
#[derive(Clone, Copy, Debug, PartialEq, Eq)]
pub enum Cause {
    /// The line stands after the `steps` line.
    AfterSteps,
    /// Its first field is none of the five words, or it has a wrong number of fields, or a `fill` or `pin` line hasn't
    /// a byte of two hexadecimal digits or a `late` line none of its three words, or a `fill` line stands after another
    /// line, or a `late` line after another than `fill`.
    BadLine,
    /// The second field of `at`, `pin` or `steps` isn't one to eight decimal digits, or that of `steps` isn't from 1 to
    /// 10,000,000.
    BadNumber,
    /// A field of `at` is no source's name.
    UnknownSource,
    /// The third field of `pin` is no port's name.
    UnknownPort,
    /// Two of the sources' names are alike.
    SourceTwice,
    /// The boundary is below that of the `at` or `pin` line before, or that of `at` isn't above that of the `at` line
    /// before.
    NotRising,
    /// A `pin` line before has the same port and the same boundary.
    PinTwice,
    /// No line is a `steps` line. Told at the number after the last.
    NoSteps,
    /// The boundary of this `at` or `pin` line, the first such one, isn't below the number of steps.
    PastEnd,
}

/// Why a text is no script: the first line at which a cause applies, counted from 1, and the first such cause; or
/// out of memory.
#[derive(Clone, Copy, Debug, PartialEq, Eq)]
pub enum ScriptFault {
    Line { line: u32, cause: Cause },
    Memory,
}

impl From<AllocError> for ScriptFault {
    ghost use Rattle.std.specs.Prelude.{◌≡◌};
    ghost use Rattle.arrival_script.specs.declared.scripts.ScriptFault.TheVariants.{Memory};

    ghost from_gives = { λ _ fault. fault ≡ Memory };

    fn from(_error: AllocError) -> ScriptFault {
        ScriptFault::Memory
    }
}
