// The 35 instructions.

/// Where the result of an instruction on a register goes: to W, or back to the register.
#[derive(Clone, Copy, Debug, PartialEq, Eq)]
pub enum Dest {
    W,
    F,
}

/// An instruction: a row of the data sheet's table 13-2, without OPTION and TRIS. `f` is the low seven
/// bits of a register's address, below 128, `b` a bit, below 8, and `k` a constant, which is below 2,048
/// at `Call` and `Goto`. Each row's word stands beside it, `x` for a bit that is ignored.
#[derive(Clone, Copy, Debug, PartialEq, Eq)]
pub enum Instr {
    /// `00 0111 dfff ffff`: W + f.
    Addwf { f: u8, d: Dest },
    /// `00 0101 dfff ffff`: W and f.
    Andwf { f: u8, d: Dest },
    /// `00 0001 1fff ffff`: f = 0.
    Clrf { f: u8 },
    /// `00 0001 0xxx xxxx`: W = 0.
    Clrw,
    /// `00 1001 dfff ffff`: complement of f.
    Comf { f: u8, d: Dest },
    /// `00 0011 dfff ffff`: f - 1.
    Decf { f: u8, d: Dest },
    /// `00 1011 dfff ffff`: f - 1, skip if 0.
    Decfsz { f: u8, d: Dest },
    /// `00 1010 dfff ffff`: f + 1.
    Incf { f: u8, d: Dest },
    /// `00 1111 dfff ffff`: f + 1, skip if 0.
    Incfsz { f: u8, d: Dest },
    /// `00 0100 dfff ffff`: W or f.
    Iorwf { f: u8, d: Dest },
    /// `00 1000 dfff ffff`: f.
    Movf { f: u8, d: Dest },
    /// `00 0000 1fff ffff`: f = W.
    Movwf { f: u8 },
    /// `00 0000 0xx0 0000`: nothing.
    Nop,
    /// `00 1101 dfff ffff`: f left through C.
    Rlf { f: u8, d: Dest },
    /// `00 1100 dfff ffff`: f right through C.
    Rrf { f: u8, d: Dest },
    /// `00 0010 dfff ffff`: f - W.
    Subwf { f: u8, d: Dest },
    /// `00 1110 dfff ffff`: halves of f exchanged.
    Swapf { f: u8, d: Dest },
    /// `00 0110 dfff ffff`: W xor f.
    Xorwf { f: u8, d: Dest },
    /// `01 00bb bfff ffff`: bit b of f = 0.
    Bcf { f: u8, b: u8 },
    /// `01 01bb bfff ffff`: bit b of f = 1.
    Bsf { f: u8, b: u8 },
    /// `01 10bb bfff ffff`: skip if bit b is 0.
    Btfsc { f: u8, b: u8 },
    /// `01 11bb bfff ffff`: skip if bit b is 1.
    Btfss { f: u8, b: u8 },
    /// `11 111x kkkk kkkk`: W = W + k.
    Addlw { k: u8 },
    /// `11 1001 kkkk kkkk`: W = W and k.
    Andlw { k: u8 },
    /// `10 0kkk kkkk kkkk`: push the next address, PC = PCLATH 4:3 and k.
    Call { k: u16 },
    /// `00 0000 0110 0100`: TO = PD = 1.
    Clrwdt,
    /// `10 1kkk kkkk kkkk`: PC = PCLATH 4:3 and k.
    Goto { k: u16 },
    /// `11 1000 kkkk kkkk`: W = W or k.
    Iorlw { k: u8 },
    /// `11 00xx kkkk kkkk`: W = k.
    Movlw { k: u8 },
    /// `00 0000 0000 1001`: pop to PC, GIE = 1.
    Retfie,
    /// `11 01xx kkkk kkkk`: W = k, pop to PC.
    Retlw { k: u8 },
    /// `00 0000 0000 1000`: pop to PC.
    Return,
    /// `00 0000 0110 0011`: stops the simulator.
    Sleep,
    /// `11 110x kkkk kkkk`: W = k - W.
    Sublw { k: u8 },
    /// `11 1010 kkkk kkkk`: W = W xor k.
    Xorlw { k: u8 },
}
