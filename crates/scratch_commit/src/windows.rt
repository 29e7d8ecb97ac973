// The window of a run: from the instruction that opens it to the one that commits.
ghost use Rattle.std.specs.Prelude.{◌≡◌, ◌++◌, [], OnOk};
ghost use Rattle.std.specs.List.{AllByRecursion};
ghost use Rattle.glue_steps.specs.Lines.{LineNamed};
ghost use Rattle.scratch_commit.specs.Deeds.{DoesMore};
ghost use Rattle.scratch_commit.specs.Windows.{MoveNamed, copying, marked_last, window as window_of};

use code_items::{Code, Item};
use glue_parts::{Move, REDO, Stretch};
use glue_steps::{Line, add_lines};
use std::alloc::AllocError;

// Copies registers in order.
fn copy_all(lines: &mut Stretch, moves: &[Move]) -> Result<(), AllocError>
    requires { AllByRecursion MoveNamed moves.now }
    ensures { OnOk result (DoesMore lines.old (copying moves.now) lines.new) }
{
    for one in moves {
        lines.copy(one.from, one.to)?;
    }
    Ok(())
}

// The lines of a window: at least two, of which the first puts nothing on a port. Where other runs may be beneath, the last tells
// them that a run has committed.
pub(crate) fn add_moves(lines: &mut Stretch, moves: &[Move], tells: bool) -> Result<(), AllocError>
    requires { AllByRecursion MoveNamed moves.now }
    ensures { OnOk result (DoesMore lines.old (window_of moves.now tells) lines.new) }
{
    if moves.is_empty() {
        return add_pause(lines, tells);
    }
    copy_all(lines, moves)?;
    if tells {
        lines.add(Line::Bit(true, REDO, 0))?;
    }
    Ok(())
}

// The lines of a window that copies nothing.
fn add_pause(lines: &mut Stretch, tells: bool) -> Result<(), AllocError>
    ensures { OnOk result (DoesMore lines.old (window_of [] tells) lines.new) }
{
    lines.add(Line::Nothing)?;
    lines.add(if tells {
        Line::Bit(true, REDO, 0)
    } else {
        Line::Nothing
    })
}

// Adds the items of lines to the code, with a mark before the last.
pub(crate) fn add_marked(code: &mut Code, mark: u32, lines: &[Line]) -> Result<(), AllocError>
    requires { AllByRecursion LineNamed lines.now }
    ensures { OnOk result (code.new.items ≡ code.old.items ++ marked_last mark lines.now) }
{
    if let Some((last, before)) = lines.split_last() {
        add_lines(code, before)?;
        code.items.push(Item::Mark(mark))?;
        code.items.push(last.item())?;
    }
    Ok(())
}
