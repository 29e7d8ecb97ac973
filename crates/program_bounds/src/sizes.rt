// How much of each kind a program has, for its bounds.
ghost use Rattle.std.specs.Prelude.{◌≡◌, ◌≤◌, length, sum_by};
ghost use Rattle.frp_tree.specs.declared.syntax.Decl.{Decl as AnyDecl};
ghost use Rattle.frp_tree.specs.Limits.{entries_in};
ghost use Rattle.frp_tree.specs.Tree.{behaviour_of, program_tree_of};
ghost use Rattle.efrp_meaning.specs.Bounds.{bytes_in, levels, words_in};
ghost use Rattle.program_bounds.specs.Sized.{AreSizes};

use crate::weights::type_bytes;
use causality::Checked;
use frp_tree::{Behaviour, Decl};
use priority_masks::{Levels, TooDeep};

// The events, setups and outputs of a program, the bytes of its states, and the words of its tables.
#[derive(Clone, Copy, Debug)]
pub(crate) struct Sizes {
    pub(crate) events: u32,
    pub(crate) setups: u32,
    pub(crate) outputs: u32,
    pub(crate) states: u32,
    pub(crate) tables: u32,
}

fn state_bytes(decls: &[Decl]) -> u32
    requires { length decls.now ≤ 128 }
    ensures bytes { result ≡ sum_by (λ (d : AnyDecl). bytes_in d.ty (behaviour_of d.behaviour)) decls.now }
    ensures few { result ≤ 256 }
{
    let mut bytes = 0;
    for d in decls {
        if let Behaviour::Reactive { .. } = d.behaviour {
            bytes += type_bytes(d.ty);
        }
    }
    bytes
}

fn table_words(decls: &[Decl]) -> u32
    requires count { length decls.now ≤ 128 }
    requires few { sum_by (λ (d : AnyDecl). entries_in (behaviour_of d.behaviour)) decls.now ≤ 2048 }
    ensures words { result ≡ sum_by (λ (d : AnyDecl). words_in d.ty (behaviour_of d.behaviour)) decls.now }
    ensures few { result ≤ 8192 }
{
    let mut words = 0;
    for d in decls {
        if let Behaviour::Table(entries) = &d.behaviour {
            words += type_bytes(d.ty) * (entries.len() as u32 + 16);
        }
    }
    words
}

/// What a program has of each kind. Takes no memory.
pub(crate) fn sizes_of(c: &Checked) -> Sizes
    ensures { AreSizes (program_tree_of c.now.typed.program) result }
{
    let program = c.typed().program();
    let decls = program.decls.as_slice();
    Sizes {
        events: program.events.len() as u32,
        setups: program.setups.len() as u32,
        outputs: program.outputs.len() as u32,
        states: state_bytes(decls),
        tables: table_words(decls),
    }
}

/// How many levels a program has, also where these are more than the chip has room for. Takes no memory.
pub(crate) fn levels_of(c: &Checked) -> u32
    ensures levels { result ≡ levels (program_tree_of c.now.typed.program) }
    ensures few { result ≤ 255 }
{
    match Levels::new(c) {
        Ok(levels) => u32::from(levels.count()),
        Err(TooDeep(count)) => u32::from(count),
    }
}
