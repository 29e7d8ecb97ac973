// The reader of a whole program.
ghost use Rattle.efrp_syntax.specs.Programs.{ReadWhole};

use crate::begun::{Notes, Stop};
use crate::definitions::decls;
use crate::items::{events, outputs, setups};
use frp_tree::{Program, Token};
use std::alloc::Global;

/// Reads a program, to the last token.
pub fn program(alloc: Global, tokens: &[Token], begun: &mut Notes) -> Result<Program, Stop>
    ensures { ReadWhole tokens.now begun.old begun.new result }
{
    let (events, rest) = events(alloc, tokens, begun)?;
    let (setups, rest) = setups(alloc, rest, begun)?;
    let (decls, rest) = decls(alloc, rest, begun)?;
    let (outputs, rest) = outputs(alloc, rest, begun)?;
    if !rest.is_empty() {
        return Err(Stop::Unexpected(rest.len()));
    }
    Ok(Program {
        events,
        setups,
        decls,
        outputs,
    })
}
