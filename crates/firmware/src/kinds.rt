// Whether code can be made for each of a program's definitions.

ghost use Rattle.std.specs.Prelude.{◌≡◌, ◌↔◌, IsTrue};
ghost use Rattle.std.specs.List.{list_all};
ghost use Rattle.frp_tree.specs.declared.syntax.Decl.{Decl as AnyDecl};
ghost use Rattle.frp_tree.specs.Tree.{behaviour_of, program_tree_of};
ghost use Rattle.firmware.specs.Builds.{HasCode};
ghost use Rattle.firmware.specs.Kinds.{is_coded};

use causality::Checked;
use frp_tree::{Behaviour, Decl};

fn is_coded(behaviour: &Behaviour) -> bool
    ensures { result ≡ is_coded (behaviour_of behaviour.now) }
{
    match behaviour {
        Behaviour::Plain(_)
        | Behaviour::Reactive {
            init: _,
            clauses: _,
        } => true,
        Behaviour::Input(_) | Behaviour::Table(_) => false,
    }
}

fn are_coded(decls: &[Decl]) -> bool
    ensures { result ≡ list_all (λ (d : AnyDecl). is_coded (behaviour_of d.behaviour)) decls.now }
{
    decls.iter().all(|d| is_coded(&d.behaviour))
}

/// Whether the program has no input and no table. Takes no memory.
pub(crate) fn has_code(c: &Checked) -> bool
    ensures { IsTrue result ↔ HasCode (program_tree_of c.now.typed.program) }
{
    are_coded(c.typed().program().decls.as_slice())
}
