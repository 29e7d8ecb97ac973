// Programs whose names and types have no fault, and what is asked of one.
ghost use Rattle.std.specs.Prelude.{◌≡◌, ◌<◌, [], filter, length, Some, IfOk, IsSome};
ghost use Rattle.std.proofs.Props.{props};
ghost use Rattle.frp_tree.specs.declared.syntax.Decl.{Decl as AnyDecl};
ghost use Rattle.frp_tree.specs.Tree.{behaviour_of, program_tree_of, tree_of};
ghost use Rattle.pic_isa.specs.Sources.{source_name};
ghost use Rattle.efrp_meaning.specs.Decls.{is_input};
ghost use Rattle.efrp_meaning.specs.Types.{type_of};
ghost use Rattle.efrp_types.specs.Answers.{Tells};
ghost use Rattle.efrp_types.specs.Laws.{IsWellFormed};
ghost use Rattle.efrp_types.specs.NameFaults.{name_faults};
ghost use Rattle.efrp_types.specs.Numbers.{AreNamesOf, decl_number, event_number, event_source, inputs};
ghost use Rattle.efrp_types.specs.Passes.{IsChecked};
ghost use Rattle.efrp_types.specs.TypeFaults.{type_faults};

use crate::faults::CheckFault;
use crate::lookups::is_input;
use crate::table::Names;
use crate::types::{items, type_at};
use frp_tree::{Decl, Expr, Program, Text, Ty};
use pic_isa::{Source, source_named};
use std::alloc::Global;

/// A program whose names and types have no fault.
#[derive(Debug, Drop)]
pub struct Typed {
    program: Program,
    names: Names,
    ghost checked: { IsChecked (program_tree_of program) },
    ghost formed: { IsWellFormed (program_tree_of program) } by { Prim.hlevel props },
    ghost named: { AreNamesOf names (program_tree_of program) },
}

/// The program with its types checked, where they have no fault; else the first that is met, and the program is dropped.
/// Setups come first, each of which is tested for `LiteralRange`, then definitions, then outputs. In an expression the operands
/// come from left to right and then the node: a number above 255 without the suffix is a `LiteralRange`, a shift by more
/// than 7, or by more than 15 of a u16, a `BadShift`, and each other fault a `TypeOf`. Then comes the type of the whole
/// expression, which has to be the declared one, and u8 in an output and an input. `Memory` may be told in place of another
/// fault or of none. Each expression is gone through once.
pub fn check_types(alloc: Global, p: Program, names: Names) -> Result<Typed, CheckFault>
    requires named { AreNamesOf names (program_tree_of p) }
    requires faultless { name_faults (program_tree_of p) ≡ [] }
    requires formed { IsWellFormed (program_tree_of p) }
    ensures faults { Tells (type_faults (program_tree_of p)) result }
    ensures program { IfOk result (λ t. t.program ≡ p) }
{
    items(alloc, &p, &names)?;
    Ok(Typed { program: p, names })
}

fn inputs_among(decls: &[Decl]) -> usize
    ensures { result ≡ length (filter (λ (d : AnyDecl). is_input (behaviour_of d.behaviour)) decls.now) }
{
    let mut n = 0;
    for d in decls {
        if is_input(&d.behaviour) {
            n += 1;
        }
    }
    n
}

impl Typed {
    /// The program. Takes no memory.
    pub fn program(&self) -> &Program
        ensures { result.now ≡ self.now.program }
    {
        &self.program
    }

    /// The number of the event of this name, from 0 on. None exactly where there is none. Takes no memory.
    pub fn event_number(&self, name: &Text) -> Option<u8>
        ensures { result ≡ event_number (program_tree_of self.now.program) name.now }
    {
        match self.names.event_place(name) {
            Some(n) => Some(n as u8),
            None => None,
        }
    }

    /// The number of the definition of this name, from 0 on. None exactly where there is none. Takes no memory.
    pub fn decl_number(&self, name: &Text) -> Option<u8>
        ensures { result ≡ decl_number (program_tree_of self.now.program) name.now }
    {
        match self.names.decl_place(name) {
            Some(n) => Some(n as u8),
            None => None,
        }
    }

    /// The source of the event with this number, which has to be one. Takes no memory.
    pub fn event_source(&self, event: u8) -> Source
        requires { event < length self.now.program.events }
        ensures { event_source (program_tree_of self.now.program) event ≡ source_name result }
    {
        let e = &self.program.events.as_slice()[event as usize];
        source_named(e.source.as_str()).unwrap()
    }

    /// How many inputs the program has. Takes no memory.
    pub fn inputs(&self) -> u8
        ensures { result ≡ inputs (program_tree_of self.now.program) }
    {
        inputs_among(self.program.decls.as_slice()) as u8
    }

    /// The type of an expression, which has to have one in this program. Takes no memory.
    pub fn ty(&self, e: &Expr) -> Ty
        requires { IsSome (type_of (program_tree_of self.now.program) (tree_of e.now)) }
        ensures { type_of (program_tree_of self.now.program) (tree_of e.now) ≡ Some result }
    {
        type_at(&self.program, &self.names, e)
    }
}
