// From the bytes of a source text to a program that passes the checks.
ghost use Rattle.std.specs.Prelude.{◌≡◌};
ghost use Rattle.frp_tree.specs.Tree.{program_tree_of};
ghost use Rattle.efrp_types.specs.Laws.{IsWellFormed};
ghost use Rattle.checked_source.specs.Readings.{Found, Parses, Sorts, Types, is_check_memory, is_syntax_memory, of_check, of_syntax};

use crate::faults::SourceFault;
use causality::{Checked, CycleFault, orders};
use efrp_syntax::{SyntaxFault, parse};
use efrp_types::{CheckFault, Typed, check_names, check_types, spelled_is_well_formed};
use frp_tree::Program;
use std::alloc::Global;

fn is_syntax_memory(fault: &SyntaxFault) -> bool
    ensures { result ≡ is_syntax_memory fault.now }
{
    match fault {
        SyntaxFault::Memory => true,
        _ => false,
    }
}

fn is_check_memory(fault: &CheckFault) -> bool
    ensures { result ≡ is_check_memory fault.now }
{
    match fault {
        CheckFault::Memory => true,
        _ => false,
    }
}

fn of_syntax(fault: SyntaxFault) -> SourceFault
    ensures { result ≡ of_syntax fault }
{
    if is_syntax_memory(&fault) {
        SourceFault::Memory
    } else {
        SourceFault::Syntax(fault)
    }
}

fn of_check(fault: CheckFault) -> SourceFault
    ensures { result ≡ of_check fault }
{
    if is_check_memory(&fault) {
        SourceFault::Memory
    } else {
        SourceFault::Check(fault)
    }
}

/// The program that a text spells, or the text's fault.
fn program(alloc: Global, text: &[u8]) -> Result<Program, SourceFault>
    ensures { Parses text.now result }
{
    match parse(alloc, text) {
        Ok(program) => Ok(program),
        Err(fault) => Err(of_syntax(fault)),
    }
}

/// The program with its names and types checked, or their first fault.
fn typed(alloc: Global, program: Program) -> Result<Typed, SourceFault>
    requires { IsWellFormed (program_tree_of program) }
    ensures { Types program result }
{
    let names = match check_names(alloc, &program) {
        Ok(names) => names,
        Err(fault) => return Err(of_check(fault)),
    };
    match check_types(alloc, program, names) {
        Ok(typed) => Ok(typed),
        Err(fault) => Err(of_check(fault)),
    }
}

/// The program with its definitions in order, or its first cycle.
fn sorted(alloc: Global, typed: Typed) -> Result<Checked, SourceFault>
    ensures { Sorts typed result }
{
    match orders(alloc, typed) {
        Ok(checked) => Ok(checked),
        Err(CycleFault::Cycle { event, name }) => Err(SourceFault::Cycle { event, name }),
        Err(CycleFault::Memory) => Err(SourceFault::Memory),
    }
}

/// The program that a source text spells, where it passes the checks, or the first fault: of the text, then of its names,
/// of its types, and last of causality. `Memory` may be told in place of either.
pub fn read(alloc: Global, text: &[u8]) -> Result<Checked, SourceFault>
    ensures { Found text.now result }
{
    let program = program(alloc, text)?;
    spelled_is_well_formed();
    let typed = typed(alloc, program)?;
    sorted(alloc, typed)
}
