// The result of an instruction, with its flags.

// The flags that a result gives: none; Z; C; or C, DC and Z.
#[derive(Clone, Copy)]
pub(crate) enum Flags {
    Same,
    Zero(bool),
    Carry(bool),
    All {
        carry: bool,
        digit_carry: bool,
        zero: bool,
    },
}

// The result of an instruction: its byte and its flags.
#[derive(Clone, Copy)]
pub(crate) struct Outcome {
    pub(crate) byte: u8,
    pub(crate) flags: Flags,
}
