// The reader of expressions. Recursion is as deep as the nesting; a row of operators is a loop.
ghost use Rattle.std.specs.Prelude.{◌≡◌, ◌≢◌, ◌<◌, ◌≤◌, suc, ℕ, length, List as Items, true, ◌∷◌, Some, MatchOption, IfOk, OnOk, codes};
ghost use Rattle.frp_tree.specs.Grammar.{SpellsExpr};
ghost use Rattle.frp_tree.specs.Levels.{level_of, mark_of, mark_of_shift, mark_of_sign};
ghost use Rattle.frp_tree.specs.Limits.{is_number_type};
ghost use Rattle.frp_tree.specs.Names.{type_name};
ghost use Rattle.frp_tree.specs.Tree.{tree_of};
ghost use Rattle.frp_tree.specs.declared.levels.Level.TheVariants as level;
ghost use Rattle.frp_tree.specs.declared.marks.TheConstants as mark;
ghost use Rattle.frp_tree.specs.declared.syntax.BinOp.{BinOp as BinOps};
ghost use Rattle.frp_tree.specs.declared.syntax.Side.{Side as Sides};
ghost use Rattle.frp_tree.specs.declared.syntax.Ty.{Ty as Types};
ghost use Rattle.frp_tree.specs.declared.syntax.UnOp.{UnOp as UnOps};
ghost use Rattle.frp_tree.specs.declared.tokens.Token.{Token as Tokens};
ghost use Rattle.frp_tree.specs.declared.tokens.Token.TheVariants as token;
ghost use Rattle.efrp_syntax.specs.declared.expressions.Start.TheVariants as start;
ghost use Rattle.efrp_syntax.specs.Answers.{head, opened, Answers, Passes, Anything, Tok};
ghost use Rattle.efrp_syntax.specs.Expressions.{Stops, NameEnd, Begins, is_row};

use crate::begun::{Begun, NODE, NOTHING, Notes, Read, Stop};
use crate::readers::{
    behind_mark, behind_word, first_literal, first_name, literal, mark, name, number, split, word,
};
use frp_tree::limits::DEEPEST_NESTING;
use frp_tree::{BinOp, Expr, Level, Side, Text, Token, Ty, UnOp, marks};
use std::alloc::Global;

/// What a reader of expressions answers.
type Found<'a> = Read<'a, Expr>;

/// What an operand begins with.
#[derive(Clone, Copy, Debug, PartialEq, Eq)]
enum Start {
    Literal,
    Name,
    Bracket,
    Sign(UnOp),
    Conversion(Ty),
    Nothing,
}

/// The operator of this mark.
fn binary_of(number: u8) -> Option<BinOp>
    ensures { MatchOption result ((op : BinOps) → mark_of op ≢ number) (λ op. mark_of op ≡ number) }
{
    match number {
        marks::OR => Some(BinOp::Or),
        marks::AND => Some(BinOp::And),
        marks::EQUAL_TO => Some(BinOp::Eq),
        marks::DIFFERENT_FROM => Some(BinOp::Ne),
        marks::LESS => Some(BinOp::Lt),
        marks::LESS_OR_EQUAL => Some(BinOp::Le),
        marks::GREATER => Some(BinOp::Gt),
        marks::GREATER_OR_EQUAL => Some(BinOp::Ge),
        marks::BIT_OR => Some(BinOp::BitOr),
        marks::BIT_XOR => Some(BinOp::BitXor),
        marks::BIT_AND => Some(BinOp::BitAnd),
        marks::PLUS => Some(BinOp::Add),
        marks::MINUS => Some(BinOp::Sub),
        marks::TIMES => Some(BinOp::Mul),
        marks::DIVIDED_BY => Some(BinOp::Div),
        marks::REMAINDER => Some(BinOp::Rem),
        _ => None,
    }
}

/// The operator of this level at the beginning, and what follows it. Takes no memory.
fn operator(level: Level, tokens: &[Token]) -> Option<(BinOp, &[Token])>
    ensures { MatchOption result
        ((op : BinOps) → level_of op ≡ level → head tokens.now ≢ Some (token.Mark (mark_of op)))
        (λ found. (tokens.now ≡ token.Mark (mark_of found.0) ∷ found.1.now) × (level_of found.0 ≡ level)) }
{
    match tokens {
        [Token::Mark(number), rest @ ..] => {
            let op = binary_of(*number)?;
            if op.level() == level {
                Some((op, rest))
            } else {
                None
            }
        }
        _ => None,
    }
}

/// The direction of the shift at the beginning, and what follows its mark. Takes no memory.
fn shift(tokens: &[Token]) -> Option<(Side, &[Token])>
    ensures { MatchOption result
        ((side : Sides) → head tokens.now ≢ Some (token.Mark (mark_of_shift side)))
        (λ found. tokens.now ≡ token.Mark (mark_of_shift found.0) ∷ found.1.now) }
{
    match tokens {
        [Token::Mark(marks::SHIFT_LEFT), rest @ ..] => Some((Side::Left, rest)),
        [Token::Mark(marks::SHIFT_RIGHT), rest @ ..] => Some((Side::Right, rest)),
        _ => None,
    }
}

/// The sign at the beginning. Takes no memory.
fn first_sign(tokens: &[Token]) -> Option<UnOp>
    ensures { MatchOption result
        ((op : UnOps) → head tokens.now ≢ Some (token.Mark (mark_of_sign op)))
        (λ op. head tokens.now ≡ Some (token.Mark (mark_of_sign op))) }
{
    match tokens {
        [Token::Mark(marks::BIT_NOT), ..] => Some(UnOp::Com),
        [Token::Mark(marks::NOT), ..] => Some(UnOp::Not),
        _ => None,
    }
}

/// The type whose name is at the beginning, where a conversion to it may stand. Takes no memory.
fn first_conversion(tokens: &[Token]) -> Option<Ty>
    ensures { MatchOption result
        ((to : Types) → is_number_type to ≡ true → head tokens.now ≢ Some (token.Word (type_name to)))
        (λ to. (is_number_type to ≡ true) × (head tokens.now ≡ Some (token.Word (type_name to)))) }
{
    match behind_word("u8", tokens) {
        Some(_) => Some(Ty::U8),
        None => match behind_word("u16", tokens) {
            Some(_) => Some(Ty::U16),
            None => None,
        },
    }
}

/// What begins an operand. Takes no memory.
fn begins(tokens: &[Token]) -> Start
    ensures { Begins tokens.now result }
{
    if let Some(_) = first_literal(tokens) {
        return Start::Literal;
    }
    if let Some(_) = first_name(tokens) {
        return Start::Name;
    }
    if let Some(_) = behind_mark(marks::OPENING_PARENTHESIS, tokens) {
        return Start::Bracket;
    }
    if let Some(op) = first_sign(tokens) {
        return Start::Sign(op);
    }
    match first_conversion(tokens) {
        Some(to) => Start::Conversion(to),
        None => Start::Nothing,
    }
}

/// Takes the next token, which opens the nesting one deeper than this, and begins what `note` says. `TooDeep` exactly
/// where that is too deep.
fn open<'a>(
    note: Begun,
    nesting: u32,
    tokens: &'a [Token],
    begun: &mut Notes,
) -> Result<&'a [Token], Stop>
    ensures answer { (t : Tokens) (rest : Items Tokens) → tokens.now ≡ t ∷ rest → Passes (Tok (opened note (suc nesting) t)) Anything tokens.now begun.old begun.new result }
    ensures shallow { OnOk result (nesting < DEEPEST_NESTING) }
    ensures shorter { IfOk result (λ rest. length rest.now < length tokens.now) }
{
    if nesting >= DEEPEST_NESTING {
        return Err(Stop::TooDeep(tokens.len()));
    }
    match split(tokens) {
        Some((_, rest)) => {
            begun.push(note)?;
            Ok(rest)
        }
        None => Err(Stop::TooDeep(tokens.len())),
    }
}

/// An expression of a level.
#[cycle(expressions)]
fn phrase<'a>(
    alloc: Global,
    level: Level,
    nesting: u32,
    tokens: &'a [Token],
    begun: &mut Notes,
) -> Found<'a>
    ensures answer { Answers (SpellsExpr level nesting) (Stops level) tree_of tokens.now begun.old begun.new result }
    ensures shorter { IfOk result (λ found. length found.1.now ≤ length tokens.now) }
{
    match level {
        Level::Whole => whole(alloc, nesting, tokens, begun),
        Level::Comparison => comparison(alloc, nesting, tokens, begun),
        Level::Shift => shifts(alloc, nesting, tokens, begun),
        Level::Operand => operand(alloc, nesting, tokens, begun),
        Level::Or
        | Level::And
        | Level::BitOr
        | Level::BitXor
        | Level::BitAnd
        | Level::Sum
        | Level::Term => row(alloc, level, nesting, tokens, begun),
    }
}

/// An expression of the loosest level.
#[cycle(expressions)]
fn whole<'a>(alloc: Global, nesting: u32, tokens: &'a [Token], begun: &mut Notes) -> Found<'a>
    ensures answer { Answers (SpellsExpr level.Whole nesting) (Stops level.Whole) tree_of tokens.now begun.old begun.new result }
    ensures shorter { IfOk result (λ found. length found.1.now ≤ length tokens.now) }
{
    match behind_word("if", tokens) {
        Some(_) => choice(alloc, nesting, tokens, begun),
        None => phrase(alloc, Level::Or, nesting, tokens, begun),
    }
}

/// `if expression then expression else expression`
#[cycle(expressions)]
fn choice<'a>(alloc: Global, nesting: u32, tokens: &'a [Token], begun: &mut Notes) -> Found<'a>
    requires { head tokens.now ≡ Some (token.Word (codes "if")) }
    ensures answer { Answers (SpellsExpr level.Whole nesting) (Stops level.Whole) tree_of tokens.now begun.old begun.new result }
    ensures shorter { IfOk result (λ found. length found.1.now ≤ length tokens.now) }
{
    let behind_if = open(NODE, nesting, tokens, begun)?;
    let (condition, before_then) = phrase(alloc, Level::Whole, nesting + 1, behind_if, begun)?;
    let behind_then = word("then", NOTHING, before_then, begun)?;
    let (yes, before_else) = phrase(alloc, Level::Whole, nesting + 1, behind_then, begun)?;
    let behind_else = word("else", NOTHING, before_else, begun)?;
    let (no, rest) = phrase(alloc, Level::Whole, nesting + 1, behind_else, begun)?;
    let condition = Box::new(alloc, condition)?;
    let yes = Box::new(alloc, yes)?;
    let no = Box::new(alloc, no)?;
    Ok((Expr::If(condition, yes, no), rest))
}

/// A row of operators of one level, grouped to the left.
#[cycle(expressions)]
fn row<'a>(
    alloc: Global,
    level: Level,
    nesting: u32,
    tokens: &'a [Token],
    begun: &mut Notes,
) -> Found<'a>
    requires { is_row level ≡ true }
    ensures answer { Answers (SpellsExpr level nesting) (Stops level) tree_of tokens.now begun.old begun.new result }
    ensures shorter { IfOk result (λ found. length found.1.now ≤ length tokens.now) }
{
    let (mut left, mut rest) = phrase(alloc, level.tighter(), nesting, tokens, begun)?;
    'row: while let Some((op, behind)) = operator(level, rest) {
        begun.push(NODE)?;
        let (right, more) = phrase(alloc, level.tighter(), nesting, behind, begun)?;
        let first = Box::new(alloc, left)?;
        let second = Box::new(alloc, right)?;
        left = Expr::Binary(op, first, second);
        rest = more;
    }
    Ok((left, rest))
}

/// A comparison, which doesn't repeat, or what is compared.
#[cycle(expressions)]
fn comparison<'a>(alloc: Global, nesting: u32, tokens: &'a [Token], begun: &mut Notes) -> Found<'a>
    ensures answer { Answers (SpellsExpr level.Comparison nesting) (Stops level.Comparison) tree_of tokens.now begun.old begun.new result }
    ensures shorter { IfOk result (λ found. length found.1.now ≤ length tokens.now) }
{
    let (left, rest) = phrase(alloc, Level::BitOr, nesting, tokens, begun)?;
    match operator(Level::Comparison, rest) {
        None => Ok((left, rest)),
        Some((op, behind)) => {
            begun.push(NODE)?;
            let (right, more) = phrase(alloc, Level::BitOr, nesting, behind, begun)?;
            let left = Box::new(alloc, left)?;
            let right = Box::new(alloc, right)?;
            Ok((Expr::Binary(op, left, right), more))
        }
    }
}

/// A row of shifts, grouped to the left.
#[cycle(expressions)]
fn shifts<'a>(alloc: Global, nesting: u32, tokens: &'a [Token], begun: &mut Notes) -> Found<'a>
    ensures answer { Answers (SpellsExpr level.Shift nesting) (Stops level.Shift) tree_of tokens.now begun.old begun.new result }
    ensures shorter { IfOk result (λ found. length found.1.now ≤ length tokens.now) }
{
    let (mut left, mut rest) = phrase(alloc, Level::Sum, nesting, tokens, begun)?;
    'row: while let Some((side, behind)) = shift(rest) {
        begun.push(NODE)?;
        let (amount, more) = number(NOTHING, behind, begun)?;
        let moved = Box::new(alloc, left)?;
        left = Expr::Shift(side, moved, amount);
        rest = more;
    }
    Ok((left, rest))
}

/// An operand.
#[cycle(expressions)]
fn operand<'a>(alloc: Global, nesting: u32, tokens: &'a [Token], begun: &mut Notes) -> Found<'a>
    ensures answer { Answers (SpellsExpr level.Operand nesting) (Stops level.Operand) tree_of tokens.now begun.old begun.new result }
    ensures shorter { IfOk result (λ found. length found.1.now ≤ length tokens.now) }
{
    match begins(tokens) {
        Start::Literal => constant(tokens, begun),
        Start::Name => named(alloc, nesting, tokens, begun),
        Start::Bracket => bracketed(alloc, nesting, tokens, begun),
        Start::Sign(op) => signed(alloc, op, nesting, tokens, begun),
        Start::Conversion(to) => converted(alloc, to, nesting, tokens, begun),
        Start::Nothing => Err(Stop::Unexpected(tokens.len())),
    }
}

/// A literal, at any nesting.
fn constant<'a>(tokens: &'a [Token], begun: &mut Notes) -> Found<'a>
    requires { Begins tokens.now start.Literal }
    ensures answer { (nesting : ℕ) → Answers (SpellsExpr level.Operand nesting) (Stops level.Operand) tree_of tokens.now begun.old begun.new result }
    ensures shorter { IfOk result (λ found. length found.1.now ≤ length tokens.now) }
{
    let (value, rest) = literal(NODE, tokens, begun)?;
    Ok((Expr::Const(value), rest))
}

/// A name, or a look-up in the table of that name.
#[cycle(expressions)]
fn named<'a>(alloc: Global, nesting: u32, tokens: &'a [Token], begun: &mut Notes) -> Found<'a>
    requires { Begins tokens.now start.Name }
    ensures answer { Answers (SpellsExpr level.Operand nesting) (Stops level.Operand) tree_of tokens.now begun.old begun.new result }
    ensures shorter { IfOk result (λ found. length found.1.now ≤ length tokens.now) }
{
    let (name, behind) = name(alloc, NODE, tokens, begun)?;
    match behind_mark(marks::OPENING_BRACKET, behind) {
        Some(_) => looked(alloc, name, nesting, behind, begun),
        None => Ok((Expr::Name(name), behind)),
    }
}

/// A look-up in the table of this name, from its `[` on.
#[cycle(expressions)]
fn looked<'a>(
    alloc: Global,
    table: Text,
    nesting: u32,
    tokens: &'a [Token],
    begun: &mut Notes,
) -> Found<'a>
    requires { head tokens.now ≡ Some (token.Mark mark.OPENING_BRACKET) }
    ensures answer { Answers (NameEnd nesting table) (Stops level.Operand) tree_of tokens.now begun.old begun.new result }
    ensures shorter { IfOk result (λ found. length found.1.now ≤ length tokens.now) }
{
    let inside = open(NOTHING, nesting, tokens, begun)?;
    let (index, before_end) = phrase(alloc, Level::Whole, nesting + 1, inside, begun)?;
    let rest = mark(marks::CLOSING_BRACKET, NOTHING, before_end, begun)?;
    let index = Box::new(alloc, index)?;
    Ok((Expr::Look(table, index), rest))
}

/// An expression in brackets.
#[cycle(expressions)]
fn bracketed<'a>(alloc: Global, nesting: u32, tokens: &'a [Token], begun: &mut Notes) -> Found<'a>
    requires { Begins tokens.now start.Bracket }
    ensures answer { Answers (SpellsExpr level.Operand nesting) (Stops level.Operand) tree_of tokens.now begun.old begun.new result }
    ensures shorter { IfOk result (λ found. length found.1.now ≤ length tokens.now) }
{
    let inside = open(NOTHING, nesting, tokens, begun)?;
    let (inner, before_end) = phrase(alloc, Level::Whole, nesting + 1, inside, begun)?;
    let rest = mark(marks::CLOSING_PARENTHESIS, NOTHING, before_end, begun)?;
    Ok((inner, rest))
}

/// An operator with its one operand.
#[cycle(expressions)]
fn signed<'a>(
    alloc: Global,
    op: UnOp,
    nesting: u32,
    tokens: &'a [Token],
    begun: &mut Notes,
) -> Found<'a>
    requires { Begins tokens.now (start.Sign op) }
    ensures answer { Answers (SpellsExpr level.Operand nesting) (Stops level.Operand) tree_of tokens.now begun.old begun.new result }
    ensures shorter { IfOk result (λ found. length found.1.now ≤ length tokens.now) }
{
    let behind = open(NODE, nesting, tokens, begun)?;
    let (inner, rest) = phrase(alloc, Level::Operand, nesting + 1, behind, begun)?;
    let inner = Box::new(alloc, inner)?;
    Ok((Expr::Unary(op, inner), rest))
}

/// A conversion to this type.
#[cycle(expressions)]
fn converted<'a>(
    alloc: Global,
    to: Ty,
    nesting: u32,
    tokens: &'a [Token],
    begun: &mut Notes,
) -> Found<'a>
    requires { Begins tokens.now (start.Conversion to) }
    ensures answer { Answers (SpellsExpr level.Operand nesting) (Stops level.Operand) tree_of tokens.now begun.old begun.new result }
    ensures shorter { IfOk result (λ found. length found.1.now ≤ length tokens.now) }
{
    let behind = open(NODE, nesting, tokens, begun)?;
    let inside = mark(marks::OPENING_PARENTHESIS, NOTHING, behind, begun)?;
    let (inner, before_end) = phrase(alloc, Level::Whole, nesting + 1, inside, begun)?;
    let rest = mark(marks::CLOSING_PARENTHESIS, NOTHING, before_end, begun)?;
    let inner = Box::new(alloc, inner)?;
    Ok((Expr::Convert(to, inner), rest))
}

/// Reads an expression. `Unexpected` stops at the first token that no expression goes on with, and `TooDeep` at one that
/// opens a nesting of 65. The time is linear in what is read.
pub(crate) fn expression<'a>(alloc: Global, tokens: &'a [Token], begun: &mut Notes) -> Found<'a>
    ensures { Answers (SpellsExpr level.Whole 0) (Stops level.Whole) tree_of tokens.now begun.old begun.new result }
{
    phrase(alloc, Level::Whole, 0, tokens, begun)
}
