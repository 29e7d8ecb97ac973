// How tightly the operators bind, and how each is written.
ghost use Rattle.std.specs.Prelude.{◌≡◌};
ghost use Rattle.frp_tree.specs.Levels.{height, tighter, repeats, level_of, mark_of, mark_of_shift, mark_of_sign};

use crate::marks;
use crate::syntax::{BinOp, Side, UnOp};

/// The levels of an expression, from the loosest to the tightest. The parts of an operator of one level are of the next
/// one, or of its own where it repeats. An operand is a literal, a name, a look-up, a conversion, an expression in
/// brackets, or `~` or `!` with its operand.
#[derive(Clone, Copy, Debug, PartialEq, Eq)]
pub enum Level {
    Whole,
    Or,
    And,
    Comparison,
    BitOr,
    BitXor,
    BitAnd,
    Shift,
    Sum,
    Term,
    Operand,
}

impl Level {
    /// How tight the level is, from 0 for a whole expression to 10 for an operand. Takes no memory.
    pub fn height(self) -> u8
        ensures { result ≡ height self }
    {
        match self {
            Level::Whole => 0,
            Level::Or => 1,
            Level::And => 2,
            Level::Comparison => 3,
            Level::BitOr => 4,
            Level::BitXor => 5,
            Level::BitAnd => 6,
            Level::Shift => 7,
            Level::Sum => 8,
            Level::Term => 9,
            Level::Operand => 10,
        }
    }

    /// The next tighter level; an operand's is its own. Takes no memory.
    pub fn tighter(self) -> Level
        ensures { result ≡ tighter self }
    {
        match self {
            Level::Whole => Level::Or,
            Level::Or => Level::And,
            Level::And => Level::Comparison,
            Level::Comparison => Level::BitOr,
            Level::BitOr => Level::BitXor,
            Level::BitXor => Level::BitAnd,
            Level::BitAnd => Level::Shift,
            Level::Shift => Level::Sum,
            Level::Sum => Level::Term,
            Level::Term | Level::Operand => Level::Operand,
        }
    }

    /// Whether operators of this level stand in a row, grouped to the left. Comparisons don't. Takes no memory.
    pub fn repeats(self) -> bool
        ensures { result ≡ repeats self }
    {
        !matches!(self, Level::Comparison)
    }
}

impl BinOp {
    /// The level of the operator. Takes no memory.
    pub fn level(self) -> Level
        ensures { result ≡ level_of self }
    {
        match self {
            BinOp::Or => Level::Or,
            BinOp::And => Level::And,
            BinOp::Eq | BinOp::Ne | BinOp::Lt | BinOp::Le | BinOp::Gt | BinOp::Ge => {
                Level::Comparison
            }
            BinOp::BitOr => Level::BitOr,
            BinOp::BitXor => Level::BitXor,
            BinOp::BitAnd => Level::BitAnd,
            BinOp::Add | BinOp::Sub => Level::Sum,
            BinOp::Mul | BinOp::Div | BinOp::Rem => Level::Term,
        }
    }

    /// The number of the operator's mark. Takes no memory.
    pub fn mark(self) -> u8
        ensures { result ≡ mark_of self }
    {
        match self {
            BinOp::Or => marks::OR,
            BinOp::And => marks::AND,
            BinOp::Eq => marks::EQUAL_TO,
            BinOp::Ne => marks::DIFFERENT_FROM,
            BinOp::Lt => marks::LESS,
            BinOp::Le => marks::LESS_OR_EQUAL,
            BinOp::Gt => marks::GREATER,
            BinOp::Ge => marks::GREATER_OR_EQUAL,
            BinOp::BitOr => marks::BIT_OR,
            BinOp::BitXor => marks::BIT_XOR,
            BinOp::BitAnd => marks::BIT_AND,
            BinOp::Add => marks::PLUS,
            BinOp::Sub => marks::MINUS,
            BinOp::Mul => marks::TIMES,
            BinOp::Div => marks::DIVIDED_BY,
            BinOp::Rem => marks::REMAINDER,
        }
    }
}

impl Side {
    /// The number of the shift's mark. Takes no memory.
    pub fn mark(self) -> u8
        ensures { result ≡ mark_of_shift self }
    {
        match self {
            Side::Left => marks::SHIFT_LEFT,
            Side::Right => marks::SHIFT_RIGHT,
        }
    }
}

impl UnOp {
    /// The number of the operator's mark. Takes no memory.
    pub fn mark(self) -> u8
        ensures { result ≡ mark_of_sign self }
    {
        match self {
            UnOp::Com => marks::BIT_NOT,
            UnOp::Not => marks::NOT,
        }
    }
}
