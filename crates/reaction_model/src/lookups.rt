// Definitions, entries and clauses by name.
ghost use Rattle.std.specs.Prelude.{◌≡◌, ◌<◌, None, length, map, option_and_then, option_map, slice_get};
ghost use Rattle.std.specs.List.{last_or};
ghost use Rattle.std.specs.Option.{option_copied};
ghost use Rattle.frp_tree.specs.Literals.{lit_value_of};
ghost use Rattle.frp_tree.specs.Tree.{behaviour_of, clause_of, decl_of, program_tree_of};
ghost use Rattle.efrp_meaning.specs.Decls.{decl_named, entries_of};
ghost use Rattle.efrp_meaning.specs.Needs.{clause_for};
ghost use Rattle.efrp_meaning.specs.Values.{entry_at};
ghost use Rattle.efrp_types.specs.Numbers.{decl_number, event_name};
ghost use Rattle.reaction_model.specs.Values.{entry_in, value_named, value_or_nothing};

use efrp_types::Typed;
use frp_tree::{Behaviour, Clause, Decl, Lit, Program, Text, Value, lit_value};

/// What stands where there is no value.
pub const NOTHING: Value = Value::Bool(false);

/// The value of a literal.
pub fn literal(literal: &Lit) -> Value
    ensures { result ≡ value_or_nothing (lit_value_of literal.now) }
{
    lit_value(literal).unwrap_or(NOTHING)
}

/// The name of the event with this number.
pub fn event_name(program: &Program, event: u8) -> &Text
    requires { event < length program.now.events }
    ensures { result.now ≡ event_name (program_tree_of program.now) event }
{
    &program.events.as_slice()[event as usize].name
}

/// The value at this number.
pub fn at(values: &[Value], n: usize) -> Value
    ensures { result ≡ value_or_nothing (slice_get values.now n) }
{
    values.get(n).copied().unwrap_or(NOTHING)
}

/// The value at the number of the definition of this name.
pub fn named(typed: &Typed, values: &[Value], name: &Text) -> Value
    ensures { result ≡ value_named (program_tree_of typed.now.program) values.now name.now }
{
    match typed.decl_number(name) {
        Some(n) => at(values, n as usize),
        None => NOTHING,
    }
}

/// The first definition of this name.
fn definition<'a>(typed: &'a Typed, name: &Text) -> Option<&'a Decl>
    ensures { option_map decl_of (option_copied result) ≡ option_and_then (slice_get (map decl_of typed.now.program.decls)) (decl_number (program_tree_of typed.now.program) name.now) }
{
    match typed.decl_number(name) {
        Some(n) => typed.program().decls.get(n as usize),
        None => None,
    }
}

fn last(entries: &[Lit]) -> Value
    ensures { result ≡ value_or_nothing (option_and_then lit_value_of (last_or None entries.now)) }
{
    match entries.last() {
        Some(entry) => literal(entry),
        None => NOTHING,
    }
}

/// The entry with this number, or the last one.
fn entry(entries: &[Lit], i: u32) -> Value
    ensures { result ≡ value_or_nothing (option_and_then lit_value_of (entry_at entries.now i)) }
{
    match entries.get(i as usize) {
        Some(entry) => literal(entry),
        None => last(entries),
    }
}

fn entry_of(behaviour: &Behaviour, i: u32) -> Value
    ensures { result ≡ value_or_nothing (option_and_then (λ entries. option_and_then lit_value_of (entry_at entries i)) (entries_of (behaviour_of behaviour.now))) }
{
    match behaviour {
        Behaviour::Table(entries) => entry(entries.as_slice(), i),
        _ => NOTHING,
    }
}

/// The value of an entry of the table of this name, or of its last one.
pub fn entry_in(typed: &Typed, table: &Text, i: u32) -> Value
    ensures { result ≡ value_or_nothing (entry_in (program_tree_of typed.now.program) table.now i) }
{
    match definition(typed, table) {
        Some(d) => entry_of(&d.behaviour, i),
        None => NOTHING,
    }
}

/// The clause for an event.
pub fn clause_for<'a>(event: &Text, clauses: &'a [Clause]) -> Option<&'a Clause>
    ensures { option_map clause_of (option_copied result) ≡ clause_for event.now (map clause_of clauses.now) }
{
    clauses.iter().find(|c| event.as_str() == c.event.as_str())
}
