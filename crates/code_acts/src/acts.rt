// Names of bytes, acts on them, and the addresses of the bytes.

use pic_isa::Dest;

/// The name of a byte: one of the twelve operand bytes, which lie at 74h to 7Fh in every bank, or a byte of the result `To` or of
/// the operands A, B and C of an operation, which may lie anywhere. A number of 16 bits has its upper byte in the name with `High`.
#[derive(Clone, Copy, Debug, PartialEq, Eq)]
pub enum Name {
    Operand0,
    Operand1,
    Operand2,
    Operand3,
    Operand4,
    Operand5,
    Operand6,
    Operand7,
    Operand8,
    Operand9,
    Operand10,
    Operand11,
    To,
    ToHigh,
    A,
    AHigh,
    B,
    BHigh,
    C,
}

/// What an instruction does with a named byte x.
#[derive(Clone, Copy, Debug, PartialEq, Eq)]
pub enum FileOp {
    /// ADDWF: W + x.
    Add,
    /// ANDWF: W and x.
    And,
    /// COMF: complement of x.
    Com,
    /// INCFSZ: x + 1, skip if 0.
    IncSkip,
    /// IORWF: W or x.
    Ior,
    /// MOVF: x.
    Mov,
    /// RLF: x left through C.
    Left,
    /// RRF: x right through C.
    Right,
    /// SUBWF: x - W.
    Sub,
    /// SWAPF: halves of x exchanged.
    Swap,
    /// XORWF: W xor x.
    Xor,
}

/// What an instruction does with W and a constant k.
#[derive(Clone, Copy, Debug, PartialEq, Eq)]
pub enum ConstOp {
    /// ADDLW: W + k.
    AddK,
    /// ANDLW: W and k.
    AndK,
    /// MOVLW: k.
    MovK,
    /// XORLW: W xor k.
    XorK,
}

/// An act: an instruction with a name in place of an address, or the choice of a name's bank, which alone has no word.
#[derive(Clone, Copy, Debug, PartialEq, Eq)]
pub enum Act {
    /// An operation on a byte, with its result in W or in the byte.
    File(FileOp, Name, Dest),
    /// MOVWF: the byte is W.
    Store(Name),
    /// CLRF: the byte is 0.
    Clear(Name),
    /// An operation on W and a constant.
    Const(ConstOp, u8),
    /// Skip the next act if bit b of the byte, below 8, is what is given: BTFSS for 1, BTFSC for 0.
    SkipBit(bool, Name, u8),
    /// Skip the next act if C is what is given.
    SkipCarry(bool),
    /// Skip the next act if Z is what is given.
    SkipZero(bool),
    /// C is what is given.
    MakeCarry(bool),
    /// The bank of the byte is chosen here, so that acts behind a skip on that byte need no bank setting.
    Near(Name),
}

/// The data addresses, below 512, of the named bytes that aren't operand bytes.
#[derive(Clone, Copy, Debug, PartialEq, Eq)]
pub struct Places {
    pub to: u16,
    pub to_high: u16,
    pub a: u16,
    pub a_high: u16,
    pub b: u16,
    pub b_high: u16,
    pub c: u16,
}
