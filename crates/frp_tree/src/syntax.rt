// The tree of a program, and the value of a literal.
ghost use Rattle.std.specs.Prelude.{◌≡◌};
ghost use Rattle.frp_tree.specs.Literals.{lit_value_of};
ghost use Rattle.frp_tree.specs.Names.{type_name};

use crate::lists::List;
use crate::texts::Text;

/// The types of the language.
#[derive(Clone, Copy, Debug, PartialEq, Eq)]
pub enum Ty {
    Bool,
    U8,
    U16,
}

impl Ty {
    /// How the type is written. Takes no memory.
    pub fn name(self) -> &'static str
        ensures { result.now ≡ type_name self }
    {
        match self {
            Ty::Bool => "bool",
            Ty::U8 => "u8",
            Ty::U16 => "u16",
        }
    }
}

/// A value of one of the types.
#[derive(Clone, Copy, Debug, PartialEq, Eq)]
pub enum Value {
    Bool(bool),
    U8(u8),
    U16(u16),
}

/// A literal as it is written: a number, a number with the suffix `w`, or `true` or `false`.
#[derive(Clone, Copy, Debug, PartialEq, Eq)]
pub enum Lit {
    Plain(u16),
    Wide(u16),
    Truth(bool),
}

/// The operators with one operand: `~` and `!`.
#[derive(Clone, Copy, Debug, PartialEq, Eq)]
pub enum UnOp {
    Com,
    Not,
}

/// The operators with two operands.
#[derive(Clone, Copy, Debug, PartialEq, Eq)]
pub enum BinOp {
    Or,
    And,
    Eq,
    Ne,
    Lt,
    Le,
    Gt,
    Ge,
    BitOr,
    BitXor,
    BitAnd,
    Add,
    Sub,
    Mul,
    Div,
    Rem,
}

/// The direction of a shift.
#[derive(Clone, Copy, Debug, PartialEq, Eq)]
pub enum Side {
    Left,
    Right,
}

/// An expression. The number of a `Shift` is its amount in bits, and a `Look` has a table's name and
/// the index of its entry.
#[derive(Debug)]
pub enum Expr {
    Const(Lit),
    Name(Text),
    Unary(UnOp, Box<Expr>),
    Binary(BinOp, Box<Expr>, Box<Expr>),
    Shift(Side, Box<Expr>, u16),
    If(Box<Expr>, Box<Expr>, Box<Expr>),
    Convert(Ty, Box<Expr>),
    Look(Text, Box<Expr>),
}

// A row of operators is as deep as it is long, so its left operands are let go in a loop.
impl Drop for Expr {
    fn drop(mut self) {
        loop {
            match self {
                Expr::Const(_) | Expr::Name(_) => return,
                Expr::Unary(_, inner) => self = Box::into_inner(inner),
                Expr::Binary(_, left, _right) => self = Box::into_inner(left),
                Expr::Shift(_, left, _) => self = Box::into_inner(left),
                Expr::If(_condition, _yes, no) => self = Box::into_inner(no),
                Expr::Convert(_, inner) => self = Box::into_inner(inner),
                Expr::Look(_, index) => self = Box::into_inner(index),
            }
        }
    }
}

/// An event, the name of its source, and its priority. A larger number is more urgent.
#[derive(Debug, Drop)]
pub struct Event {
    pub name: Text,
    pub source: Text,
    pub priority: u16,
}

/// A byte that is written to a special register once, at boot.
#[derive(Debug, Drop)]
pub struct Setup {
    pub register: Text,
    pub byte: u16,
}

/// What a definition becomes on an event, at once or, with `later`, afterwards.
#[derive(Debug, Drop)]
pub struct Clause {
    pub event: Text,
    pub expr: Expr,
    pub later: bool,
}

/// What a definition is: an expression, an input that reads the port of this name, a table of
/// constants, or reactive, which alone has a state.
#[derive(Debug, Drop)]
pub enum Behaviour {
    Plain(Expr),
    Input(Text),
    Table(List<Lit>),
    Reactive { init: Lit, clauses: List<Clause> },
}

/// A definition.
#[derive(Debug, Drop)]
pub struct Decl {
    pub name: Text,
    pub ty: Ty,
    pub behaviour: Behaviour,
}

/// A port and what is written to it at each reaction.
#[derive(Debug, Drop)]
pub struct Output {
    pub port: Text,
    pub expr: Expr,
}

/// A program, in the order of its text.
#[derive(Debug, Drop)]
pub struct Program {
    pub events: List<Event>,
    pub setups: List<Setup>,
    pub decls: List<Decl>,
    pub outputs: List<Output>,
}

/// The value that a literal stands for, and None exactly for a number above 255 with no suffix: one
/// with the suffix is at most 65,535 as it stands in memory. Takes no memory.
pub fn lit_value(lit: &Lit) -> Option<Value>
    ensures { result ≡ lit_value_of lit.now }
{
    let lit = *lit;
    match lit {
        Lit::Plain(n) if n <= 255 => Some(Value::U8(n as u8)),
        Lit::Plain(_) => None,
        Lit::Wide(n) => Some(Value::U16(n)),
        Lit::Truth(b) => Some(Value::Bool(b)),
    }
}
