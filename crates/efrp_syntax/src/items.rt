// The readers of events, setups and outputs, and of the rows of them.
ghost use Rattle.std.specs.Prelude.{◌≡◌, ◌≢◌, Some, MatchBool};
ghost use Rattle.frp_tree.specs.Grammar.{Row, SpellsEvent, SpellsSetup, SpellsOutput};
ghost use Rattle.frp_tree.specs.Tree.{output_of};
ghost use Rattle.std.specs.Prelude.{map, codes};
ghost use Rattle.frp_tree.specs.declared.tokens.Token.TheVariants as token;
ghost use Rattle.efrp_syntax.specs.Answers.{head, Answers, Anything};
ghost use Rattle.efrp_syntax.specs.Items.{StartsWord, Ends, HeaderOf, LastNumber};

use crate::begun::{Begun, NOTHING, Notes, Read};
use crate::expressions::expression;
use crate::readers::{mark, name, number, word};
use crate::starts::begins;
use frp_tree::{Event, Kind, List, Output, Setup, Text, Token, marks};
use std::alloc::Global;

/// Reads the word with which an item begins, a name and `=`.
fn header<'a>(
    alloc: Global,
    keyword: &str,
    kind: Kind,
    tokens: &'a [Token],
    begun: &mut Notes,
) -> Read<'a, Text>
    ensures { Answers (HeaderOf kind keyword.now) Anything (λ x. x) tokens.now begun.old begun.new result }
{
    let note = Begun {
        kind: Some(kind),
        entry: 0,
    };
    let rest = word(keyword, note, tokens, begun)?;
    let (name, rest) = name(alloc, NOTHING, rest, begun)?;
    let rest = mark(marks::EQUALS, NOTHING, rest, begun)?;
    Ok((name, rest))
}

/// Reads a number and `;`.
fn last_number<'a>(tokens: &'a [Token], begun: &mut Notes) -> Read<'a, u16>
    ensures { Answers LastNumber Anything (λ n. n) tokens.now begun.old begun.new result }
{
    let (value, rest) = number(NOTHING, tokens, begun)?;
    let rest = mark(marks::SEMICOLON, NOTHING, rest, begun)?;
    Ok((value, rest))
}

/// Reads an event.
pub fn event<'a>(alloc: Global, tokens: &'a [Token], begun: &mut Notes) -> Read<'a, Event>
    ensures { Answers SpellsEvent Anything (λ e. e) tokens.now begun.old begun.new result }
{
    let (event, rest) = header(alloc, "event", Kind::Events, tokens, begun)?;
    let (source, rest) = name(alloc, NOTHING, rest, begun)?;
    let rest = word("priority", NOTHING, rest, begun)?;
    let (priority, rest) = last_number(rest, begun)?;
    let event = Event {
        name: event,
        source,
        priority,
    };
    Ok((event, rest))
}

/// Reads a setup.
pub fn setup<'a>(alloc: Global, tokens: &'a [Token], begun: &mut Notes) -> Read<'a, Setup>
    ensures { Answers SpellsSetup Anything (λ s. s) tokens.now begun.old begun.new result }
{
    let (register, rest) = header(alloc, "setup", Kind::Setups, tokens, begun)?;
    let (byte, rest) = last_number(rest, begun)?;
    Ok((Setup { register, byte }, rest))
}

/// Reads an output.
pub fn output<'a>(alloc: Global, tokens: &'a [Token], begun: &mut Notes) -> Read<'a, Output>
    ensures { Answers SpellsOutput Anything output_of tokens.now begun.old begun.new result }
{
    let (port, rest) = header(alloc, "output", Kind::Outputs, tokens, begun)?;
    let (expr, rest) = expression(alloc, rest, begun)?;
    let rest = mark(marks::SEMICOLON, NOTHING, rest, begun)?;
    Ok((Output { port, expr }, rest))
}

/// Reads the events.
pub fn events<'a>(alloc: Global, tokens: &'a [Token], begun: &mut Notes) -> Read<'a, List<Event>>
    ensures { Answers (Row SpellsEvent) (Ends (StartsWord (codes "event"))) (λ es. es) tokens.now begun.old begun.new result }
{
    let mut found = List::new(alloc);
    let mut rest = tokens;
    'row: while begins("event", rest) {
        let (event, more) = event(alloc, rest, begun)?;
        found.push(event)?;
        rest = more;
    }
    Ok((found, rest))
}

/// Reads the setups.
pub fn setups<'a>(alloc: Global, tokens: &'a [Token], begun: &mut Notes) -> Read<'a, List<Setup>>
    ensures { Answers (Row SpellsSetup) (Ends (StartsWord (codes "setup"))) (λ ss. ss) tokens.now begun.old begun.new result }
{
    let mut found = List::new(alloc);
    let mut rest = tokens;
    'row: while begins("setup", rest) {
        let (setup, more) = setup(alloc, rest, begun)?;
        found.push(setup)?;
        rest = more;
    }
    Ok((found, rest))
}

/// Reads the outputs.
pub fn outputs<'a>(alloc: Global, tokens: &'a [Token], begun: &mut Notes) -> Read<'a, List<Output>>
    ensures { Answers (Row SpellsOutput) (Ends (StartsWord (codes "output"))) (map output_of) tokens.now begun.old begun.new result }
{
    let mut found = List::new(alloc);
    let mut rest = tokens;
    'row: while begins("output", rest) {
        let (output, more) = output(alloc, rest, begun)?;
        found.push(output)?;
        rest = more;
    }
    Ok((found, rest))
}
