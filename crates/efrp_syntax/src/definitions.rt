// The readers of definitions, their four forms, and the clauses of reactive ones.
ghost use Rattle.std.specs.Prelude.{◌≡◌, ◌≢◌, [], ◌∷◌, Some, MatchOption, map, codes};
ghost use Rattle.frp_tree.specs.Grammar.{Row, SpellsClause, SpellsBehaviour, SpellsDecl};
ghost use Rattle.frp_tree.specs.Names.{type_name};
ghost use Rattle.frp_tree.specs.Tree.{clause_of, behaviour_of, decl_of};
ghost use Rattle.frp_tree.specs.declared.levels.Level.TheVariants as level;
ghost use Rattle.frp_tree.specs.declared.marks.TheConstants as mark;
ghost use Rattle.frp_tree.specs.declared.syntax.Ty.{Ty as Types};
ghost use Rattle.frp_tree.specs.declared.tokens.Token.TheVariants as token;
ghost use Rattle.efrp_syntax.specs.Answers.{head, Answers, Anything};
ghost use Rattle.efrp_syntax.specs.Expressions.{Stops};
ghost use Rattle.efrp_syntax.specs.Items.{StartsWord, StartsMark, StartsName, Ends, EndsItem, TypeOf, Later, EntryOf, EntriesBehind, PlainForm, InputForm, TableForm, ReactiveForm};

use crate::begun::{Begun, NOTHING, Notes, Read, Stop};
use crate::expressions::expression;
use crate::readers::{literal, mark, name, word};
use crate::starts::{begins, begins_with_mark, begins_with_name};
use frp_tree::{Behaviour, Clause, Decl, Kind, List, Lit, Token, Ty, marks};
use std::alloc::Global;

/// The type whose word the tokens begin with. Takes no memory.
fn first_type(tokens: &[Token]) -> Option<Ty>
    ensures { MatchOption result
        ((t : Types) → head tokens.now ≢ Some (token.Word (type_name t)))
        (λ t. head tokens.now ≡ Some (token.Word (type_name t))) }
{
    if begins("bool", tokens) {
        Some(Ty::Bool)
    } else if begins("u8", tokens) {
        Some(Ty::U8)
    } else if begins("u16", tokens) {
        Some(Ty::U16)
    } else {
        None
    }
}

/// Reads a type.
fn ty<'a>(tokens: &'a [Token], begun: &mut Notes) -> Read<'a, Ty>
    ensures { Answers TypeOf Anything (λ t. t) tokens.now begun.old begun.new result }
{
    match first_type(tokens) {
        Some(ty) => {
            let rest = word(ty.name(), NOTHING, tokens, begun)?;
            Ok((ty, rest))
        }
        None => Err(Stop::Unexpected(tokens.len())),
    }
}

/// Reads `later`, or nothing.
fn later<'a>(tokens: &'a [Token], begun: &mut Notes) -> Read<'a, bool>
    ensures { Answers Later (Ends (StartsWord (codes "later"))) (λ b. b) tokens.now begun.old begun.new result }
{
    if begins("later", tokens) {
        let rest = word("later", NOTHING, tokens, begun)?;
        Ok((true, rest))
    } else {
        Ok((false, tokens))
    }
}

/// Reads a clause.
fn clause<'a>(alloc: Global, tokens: &'a [Token], begun: &mut Notes) -> Read<'a, Clause>
    ensures { Answers SpellsClause Anything clause_of tokens.now begun.old begun.new result }
{
    let (event, rest) = name(alloc, NOTHING, tokens, begun)?;
    let rest = mark(marks::ARROW, NOTHING, rest, begun)?;
    let (expr, rest) = expression(alloc, rest, begun)?;
    let (later, rest) = later(rest, begun)?;
    let rest = mark(marks::SEMICOLON, NOTHING, rest, begun)?;
    Ok((Clause { event, expr, later }, rest))
}

/// Reads the clauses of a reactive definition.
fn clauses<'a>(alloc: Global, tokens: &'a [Token], begun: &mut Notes) -> Read<'a, List<Clause>>
    ensures { Answers (Row SpellsClause) (Ends StartsName) (map clause_of) tokens.now begun.old begun.new result }
{
    let mut found = List::new(alloc);
    let mut rest = tokens;
    'row: while begins_with_name(rest) {
        let (clause, more) = clause(alloc, rest, begun)?;
        found.push(clause)?;
        rest = more;
    }
    Ok((found, rest))
}

/// Reads a comma and the entry of a table behind it, which has this number.
fn next_entry<'a>(number: usize, tokens: &'a [Token], begun: &mut Notes) -> Read<'a, Lit>
    ensures { Answers (EntryOf number) Anything (λ l. l) tokens.now begun.old begun.new result }
{
    let rest = mark(marks::COMMA, NOTHING, tokens, begun)?;
    let note = Begun {
        kind: Some(Kind::Entries),
        entry: number,
    };
    let (entry, rest) = literal(note, rest, begun)?;
    Ok((entry, rest))
}

/// Reads the entries of a table behind its first one.
fn entries<'a>(
    alloc: Global,
    first: Lit,
    tokens: &'a [Token],
    begun: &mut Notes,
) -> Read<'a, List<Lit>>
    ensures { Answers (EntriesBehind (first ∷ [])) (Ends (StartsMark mark.COMMA)) (λ ls. ls) tokens.now begun.old begun.new result }
{
    let mut found = List::new(alloc);
    found.push(first)?;
    let mut rest = tokens;
    'row: while begins_with_mark(marks::COMMA, rest) {
        let (entry, more) = next_entry(found.len() + 1, rest, begun)?;
        found.push(entry)?;
        rest = more;
    }
    Ok((found, rest))
}

/// Reads a behaviour that is an expression.
fn plain<'a>(alloc: Global, tokens: &'a [Token], begun: &mut Notes) -> Read<'a, Behaviour>
    ensures { Answers PlainForm (Stops level.Whole) behaviour_of tokens.now begun.old begun.new result }
{
    let (expr, rest) = expression(alloc, tokens, begun)?;
    Ok((Behaviour::Plain(expr), rest))
}

/// Reads an input.
fn input<'a>(alloc: Global, tokens: &'a [Token], begun: &mut Notes) -> Read<'a, Behaviour>
    ensures { Answers InputForm Anything behaviour_of tokens.now begun.old begun.new result }
{
    let rest = word("input", NOTHING, tokens, begun)?;
    let (port, rest) = name(alloc, NOTHING, rest, begun)?;
    Ok((Behaviour::Input(port), rest))
}

/// Reads a table.
fn table<'a>(alloc: Global, tokens: &'a [Token], begun: &mut Notes) -> Read<'a, Behaviour>
    ensures { Answers TableForm Anything behaviour_of tokens.now begun.old begun.new result }
{
    let rest = word("table", NOTHING, tokens, begun)?;
    let rest = mark(marks::OPENING_BRACE, NOTHING, rest, begun)?;
    let note = Begun {
        kind: Some(Kind::Entries),
        entry: 1,
    };
    let (first, rest) = literal(note, rest, begun)?;
    let (entries, rest) = entries(alloc, first, rest, begun)?;
    let rest = mark(marks::CLOSING_BRACE, NOTHING, rest, begun)?;
    Ok((Behaviour::Table(entries), rest))
}

/// Reads a behaviour with a first value and clauses.
fn reactive<'a>(alloc: Global, tokens: &'a [Token], begun: &mut Notes) -> Read<'a, Behaviour>
    ensures { Answers ReactiveForm Anything behaviour_of tokens.now begun.old begun.new result }
{
    let rest = word("init", NOTHING, tokens, begun)?;
    let (init, rest) = literal(NOTHING, rest, begun)?;
    let rest = word("in", NOTHING, rest, begun)?;
    let rest = mark(marks::OPENING_BRACE, NOTHING, rest, begun)?;
    let (clauses, rest) = clauses(alloc, rest, begun)?;
    let rest = mark(marks::CLOSING_BRACE, NOTHING, rest, begun)?;
    Ok((Behaviour::Reactive { init, clauses }, rest))
}

/// Reads what stands behind the `=` of a definition.
fn behaviour<'a>(alloc: Global, tokens: &'a [Token], begun: &mut Notes) -> Read<'a, Behaviour>
    ensures { Answers SpellsBehaviour EndsItem behaviour_of tokens.now begun.old begun.new result }
{
    if begins("input", tokens) {
        input(alloc, tokens, begun)
    } else if begins("table", tokens) {
        table(alloc, tokens, begun)
    } else if begins("init", tokens) {
        reactive(alloc, tokens, begun)
    } else {
        plain(alloc, tokens, begun)
    }
}

/// Reads a definition.
fn decl<'a>(alloc: Global, tokens: &'a [Token], begun: &mut Notes) -> Read<'a, Decl>
    ensures { Answers SpellsDecl Anything decl_of tokens.now begun.old begun.new result }
{
    let note = Begun {
        kind: Some(Kind::Definitions),
        entry: 0,
    };
    let rest = word("let", note, tokens, begun)?;
    let (name, rest) = name(alloc, NOTHING, rest, begun)?;
    let rest = mark(marks::COLON, NOTHING, rest, begun)?;
    let (ty, rest) = ty(rest, begun)?;
    let rest = mark(marks::EQUALS, NOTHING, rest, begun)?;
    let (behaviour, rest) = behaviour(alloc, rest, begun)?;
    let rest = mark(marks::SEMICOLON, NOTHING, rest, begun)?;
    let decl = Decl {
        name,
        ty,
        behaviour,
    };
    Ok((decl, rest))
}

/// Reads the definitions.
pub fn decls<'a>(alloc: Global, tokens: &'a [Token], begun: &mut Notes) -> Read<'a, List<Decl>>
    ensures { Answers (Row SpellsDecl) (Ends (StartsWord (codes "let"))) (map decl_of) tokens.now begun.old begun.new result }
{
    let mut found = List::new(alloc);
    let mut rest = tokens;
    'row: while begins("let", rest) {
        let (decl, more) = decl(alloc, rest, begun)?;
        found.push(decl)?;
        rest = more;
    }
    Ok((found, rest))
}
