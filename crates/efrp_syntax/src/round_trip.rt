// A program is printed and read again.
ghost use Rattle.std.specs.Prelude.{◌<◌, ◌≤◌, ℕ, List as Bytes, length};
ghost use Rattle.frp_tree.specs.declared.limits.TheConstants.{LONGEST_SOURCE};
ghost use Rattle.frp_tree.specs.Tree.{program_tree_of};
ghost use Rattle.frp_tree.specs.Grammar.{Spells};
ghost use Rattle.frp_tree.specs.Printed.{printed};
ghost use Rattle.efrp_syntax.specs.Parsed.{IsProgram, IsSyntaxFault};

use crate::faults::SyntaxFault;
use crate::parser::parse;
use crate::printer::print;
use frp_tree::Program;
use std::alloc::Global;

/// Prints a program and reads the text: the same program, whenever some text spells it and what is printed has at most
/// 65,536 bytes. `TooBig(65536)` where it has more, and `Memory` where memory runs out; no other fault then.
pub fn print_and_parse(alloc: Global, p: &Program) -> Result<Program, SyntaxFault>
    ensures same { (text : Bytes ℕ) → Spells text (program_tree_of p.now) → length (printed (program_tree_of p.now)) ≤ LONGEST_SOURCE → IsProgram (program_tree_of p.now) result }
    ensures long { LONGEST_SOURCE < length (printed (program_tree_of p.now)) → IsSyntaxFault (SyntaxFault.TooBig LONGEST_SOURCE) result }
{
    let text = print(alloc, p)?;
    parse(alloc, text.as_slice())
}
