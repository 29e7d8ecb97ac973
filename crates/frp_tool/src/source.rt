// The program that a source spells.
ghost use Rattle.std.specs.Prelude.{◌≤◌, IfOk};
ghost use Rattle.frp_tree.specs.Tree.{program_tree_of};
ghost use Rattle.checked_source.specs.Readings.{IsRead, Passing};
ghost use Rattle.edge_io.specs.Files.{KeepsFiles};
ghost use Rattle.firmware_map.specs.Laws.{HasNames};
ghost use Rattle.command_parts.specs.Endings.{Gives};
ghost use Rattle.command_parts.specs.Lines.{IsRefused, refusal_line};
ghost use Rattle.frp_tool.specs.SourceTexts.{SourceCause, SourceGives, source_line, source_status};

use causality::Checked;
use checked_source::{SourceFault, read};
use command_parts::{Halt, REFUSED, check_line, cycle_line, input, syntax_line};
use edge_io::Files;
use frp_tree::Text;
use std::alloc::Global;

/// The program that a text spells, where it passes the checks, or what the text is read as.
pub fn program_in(alloc: Global, text: &[u8]) -> Result<Checked, Halt>
    ensures { Gives (λ checked. IsRead text.now (Passing (program_tree_of checked.typed.program))) (λ reading. IsRead text.now reading × IsRefused reading) (λ reading. 1) refusal_line result }
{
    match read(alloc, text) {
        Ok(checked) => Ok(checked),
        Err(SourceFault::Syntax(fault)) => Err(Halt::Said {
            status: REFUSED,
            line: syntax_line(alloc, fault)?,
        }),
        Err(SourceFault::Check(fault)) => Err(Halt::Said {
            status: REFUSED,
            line: check_line(alloc, &fault)?,
        }),
        Err(SourceFault::Cycle { event, name }) => Err(Halt::Said {
            status: REFUSED,
            line: cycle_line(alloc, &event, &name)?,
        }),
        Err(SourceFault::Memory) => Err(Halt::Memory),
    }
}

/// The program that the source of this name spells, where it passes the checks, or why there is none.
pub fn read_source<F: Files>(alloc: Global, source: &Text, files: &mut F) -> Result<Checked, Halt>
    ensures gives { Gives (λ checked. SourceGives source.now (F.seen files.old) (program_tree_of checked.typed.program)) (SourceCause source.now (F.seen files.old) (F.seen files.new)) source_status (source_line source.now) result }
    ensures named { IfOk result (λ checked. HasNames (program_tree_of checked.typed.program)) }
    ensures unchanged { KeepsFiles (F.seen files.old) (F.seen files.new) }
    ensures read_count { (F.seen files.old).read_faults ≤ (F.seen files.new).read_faults }
    ensures write_count { (F.seen files.old).write_faults ≤ (F.seen files.new).write_faults }
{
    let text = input(alloc, source, files)?;
    program_in(alloc, text.as_slice())
}
