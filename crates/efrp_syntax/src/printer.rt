// The text of a program.
ghost use Rattle.std.specs.Prelude.{◌≡◌, ◌≤◌, ℕ, List as Bytes, ◌++◌, length, OnOk, IfOk, map};
ghost use Rattle.std.specs.List.{flat_map};
ghost use Rattle.frp_tree.specs.declared.limits.TheConstants.{LONGEST_SOURCE};
ghost use Rattle.frp_tree.specs.Tree.{Table, Reactive, clause_of, behaviour_of, decl_of, output_of, program_tree_of};
ghost use Rattle.frp_tree.specs.Grammar.{Spells, SpellsUnbounded};
ghost use Rattle.frp_tree.specs.Printed.{clause_tokens, more_entry_tokens, entry_tokens, behaviour_tokens, event_item, setup_item, decl_item, output_item, spaced, line, printed};

use crate::backward::Backward;
use crate::expression_printer::bare;
use frp_tree::{Behaviour, Clause, Decl, Event, List, Lit, Output, Program, Setup, marks};
use std::alloc::{AllocError, Global};

/// What ends the line of an item.
const END: &[u8] = b";\n";

fn event(out: &mut Backward, event: &Event) -> Result<(), AllocError>
    ensures { OnOk result (out.new ≡ line (event_item event.now) ++ out.old) }
{
    out.put(END)?;
    out.number(event.priority)?;
    out.word("priority")?;
    out.word(event.source.as_str())?;
    out.mark(marks::EQUALS)?;
    out.word(event.name.as_str())?;
    out.word("event")
}

fn setup(out: &mut Backward, setup: &Setup) -> Result<(), AllocError>
    ensures { OnOk result (out.new ≡ line (setup_item setup.now) ++ out.old) }
{
    out.put(END)?;
    out.number(setup.byte)?;
    out.mark(marks::EQUALS)?;
    out.word(setup.register.as_str())?;
    out.word("setup")
}

fn clause(out: &mut Backward, clause: &Clause) -> Result<(), AllocError>
    ensures { OnOk result (out.new ≡ spaced (clause_tokens (clause_of clause.now)) ++ out.old) }
{
    out.mark(marks::SEMICOLON)?;
    if clause.later {
        out.word("later")?;
    }
    bare(out, &clause.expr)?;
    out.mark(marks::ARROW)?;
    out.word(clause.event.as_str())
}

fn clauses(out: &mut Backward, clauses: &[Clause]) -> Result<(), AllocError>
    ensures { OnOk result (out.new ≡ spaced (flat_map clause_tokens (map clause_of clauses.now)) ++ out.old) }
{
    let mut rest = clauses;
    'row: while let Some((last, front)) = rest.split_last() {
        clause(out, last)?;
        rest = front;
    }
    Ok(())
}

/// Writes the entries of a table behind its first one.
fn more_entries(out: &mut Backward, literals: &[Lit]) -> Result<(), AllocError>
    ensures { OnOk result (out.new ≡ spaced (flat_map more_entry_tokens literals.now) ++ out.old) }
{
    let mut rest = literals;
    'row: while let Some((last, front)) = rest.split_last() {
        out.literal(*last)?;
        out.mark(marks::COMMA)?;
        rest = front;
    }
    Ok(())
}

fn entries(out: &mut Backward, literals: &[Lit]) -> Result<(), AllocError>
    ensures { OnOk result (out.new ≡ spaced (entry_tokens literals.now) ++ out.old) }
{
    match literals {
        [first, rest @ ..] => {
            more_entries(out, rest)?;
            out.literal(*first)
        }
        [] => Ok(()),
    }
}

fn table(out: &mut Backward, literals: &[Lit]) -> Result<(), AllocError>
    ensures { OnOk result (out.new ≡ spaced (behaviour_tokens (Table literals.now)) ++ out.old) }
{
    out.mark(marks::CLOSING_BRACE)?;
    entries(out, literals)?;
    out.mark(marks::OPENING_BRACE)?;
    out.word("table")
}

fn reactive(out: &mut Backward, init: Lit, row: &[Clause]) -> Result<(), AllocError>
    ensures { OnOk result (out.new ≡ spaced (behaviour_tokens (Reactive init (map clause_of row.now))) ++ out.old) }
{
    out.mark(marks::CLOSING_BRACE)?;
    clauses(out, row)?;
    out.mark(marks::OPENING_BRACE)?;
    out.word("in")?;
    out.literal(init)?;
    out.word("init")
}

fn behaviour(out: &mut Backward, behaviour: &Behaviour) -> Result<(), AllocError>
    ensures { OnOk result (out.new ≡ spaced (behaviour_tokens (behaviour_of behaviour.now)) ++ out.old) }
{
    match behaviour {
        Behaviour::Plain(e) => bare(out, e),
        Behaviour::Input(port) => {
            out.word(port.as_str())?;
            out.word("input")
        }
        Behaviour::Table(literals) => table(out, literals.as_slice()),
        Behaviour::Reactive { init, clauses } => reactive(out, *init, clauses.as_slice()),
    }
}

fn decl(out: &mut Backward, decl: &Decl) -> Result<(), AllocError>
    ensures { OnOk result (out.new ≡ line (decl_item (decl_of decl.now)) ++ out.old) }
{
    out.put(END)?;
    behaviour(out, &decl.behaviour)?;
    out.mark(marks::EQUALS)?;
    out.word(decl.ty.name())?;
    out.mark(marks::COLON)?;
    out.word(decl.name.as_str())?;
    out.word("let")
}

fn output(out: &mut Backward, output: &Output) -> Result<(), AllocError>
    ensures { OnOk result (out.new ≡ line (output_item (output_of output.now)) ++ out.old) }
{
    out.put(END)?;
    bare(out, &output.expr)?;
    out.mark(marks::EQUALS)?;
    out.word(output.port.as_str())?;
    out.word("output")
}

fn events(out: &mut Backward, events: &[Event]) -> Result<(), AllocError>
    ensures { OnOk result (out.new ≡ flat_map line (map event_item events.now) ++ out.old) }
{
    let mut rest = events;
    'row: while let Some((last, front)) = rest.split_last() {
        event(out, last)?;
        rest = front;
    }
    Ok(())
}

fn setups(out: &mut Backward, setups: &[Setup]) -> Result<(), AllocError>
    ensures { OnOk result (out.new ≡ flat_map line (map setup_item setups.now) ++ out.old) }
{
    let mut rest = setups;
    'row: while let Some((last, front)) = rest.split_last() {
        setup(out, last)?;
        rest = front;
    }
    Ok(())
}

fn decls(out: &mut Backward, decls: &[Decl]) -> Result<(), AllocError>
    ensures { OnOk result (out.new ≡ flat_map line (map decl_item (map decl_of decls.now)) ++ out.old) }
{
    let mut rest = decls;
    'row: while let Some((last, front)) = rest.split_last() {
        decl(out, last)?;
        rest = front;
    }
    Ok(())
}

fn outputs(out: &mut Backward, outputs: &[Output]) -> Result<(), AllocError>
    ensures { OnOk result (out.new ≡ flat_map line (map output_item (map output_of outputs.now)) ++ out.old) }
{
    let mut rest = outputs;
    'row: while let Some((last, front)) = rest.split_last() {
        output(out, last)?;
        rest = front;
    }
    Ok(())
}

/// Writes a program.
fn program(alloc: Global, p: &Program) -> Result<Backward, AllocError>
    ensures { IfOk result (λ text. text ≡ printed (program_tree_of p.now)) }
{
    let mut out = Backward::new(alloc);
    outputs(&mut out, p.outputs.as_slice())?;
    decls(&mut out, p.decls.as_slice())?;
    setups(&mut out, p.setups.as_slice())?;
    events(&mut out, p.events.as_slice())?;
    Ok(out)
}

/// The text of a program: a line for each item, one space between tokens, and the fewest brackets. An `Err` is out of
/// memory. The time is linear in the text.
pub fn print(alloc: Global, p: &Program) -> Result<List<u8>, AllocError>
    // The text, whole.
    ensures printed { IfOk result (λ bytes. bytes ≡ printed (program_tree_of p.now)) }
    // It spells the program, if any text does; and within the limit of a text's length, where it isn't longer.
    ensures spells { (text : Bytes ℕ) → Spells text (program_tree_of p.now) → IfOk result (λ bytes. SpellsUnbounded bytes (program_tree_of p.now)) }
    ensures short { (text : Bytes ℕ) → Spells text (program_tree_of p.now) → IfOk result (λ bytes. length bytes ≤ LONGEST_SOURCE → Spells bytes (program_tree_of p.now)) }
{
    let text = program(alloc, p)?;
    Ok(text.finish())
}
