// The command `check`.
ghost use Rattle.std.specs.Prelude.{◌≡◌, IfOk, string_bytes};
ghost use Rattle.edge_io.specs.Files.{KeepsFiles};
ghost use Rattle.frp_tree.specs.Tree.{program_tree_of};
ghost use Rattle.frp_tool.specs.Checks.{CheckWorks};
ghost use Rattle.frp_tool.specs.Lines.{counts_line};

use crate::source::read_source;
use command_parts::Halt;
use edge_io::Files;
use frp_tree::{Program, Text};
use std::alloc::{AllocError, Global};

fn counts_line(alloc: Global, program: &Program) -> Result<String, AllocError>
    ensures { IfOk result (λ line. string_bytes line ≡ counts_line (program_tree_of program.now)) }
{
    let events = program.events.len();
    let definitions = program.decls.len();
    let outputs = program.outputs.len();
    format!(in alloc; "ok events {events} definitions {definitions} outputs {outputs}\n")
}

/// The work of `check SRC`: reads SRC, and gives the line with its counts.
pub fn check<F: Files>(alloc: Global, source: &Text, files: &mut F) -> Result<Option<String>, Halt>
    ensures works { CheckWorks source.now (F.seen files.old) (F.seen files.new) result }
    ensures unchanged { KeepsFiles (F.seen files.old) (F.seen files.new) }
{
    let checked = read_source(alloc, source, files)?;
    let line = counts_line(alloc, checked.typed().program())?;
    Ok(Some(line))
}
