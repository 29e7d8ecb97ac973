// The first part of a program that has a fault.
ghost use Rattle.frp_tree.specs.Tree.{program_tree_of};
ghost use Rattle.efrp_types.specs.Laws.{IsWellFormed};
ghost use Rattle.where_tool.specs.Visits.{check_visits};
ghost use Rattle.where_tool.specs.Walks.{Goes};

use crate::name_walk::walk_names;
use crate::parts::Halted;
use crate::type_walk::walk_types;
use efrp_types::Names;
use frp_tree::Program;
use std::alloc::Global;

/// The walk of the checks over a program, up to the first part that has a fault: names first, and then types.
pub fn walk(alloc: Global, p: &Program) -> Result<(), Halted>
    requires { IsWellFormed (program_tree_of p.now) }
    ensures { Goes (check_visits (program_tree_of p.now)) result }
{
    walk_names(alloc, p)?;
    let names = Names::of_program(alloc, p)?;
    walk_types(alloc, p, &names)
}
