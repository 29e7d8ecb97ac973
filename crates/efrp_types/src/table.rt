// The names of a program, each found without a walk over the others.
ghost use Rattle.std.specs.Prelude.{◌≡◌, [], map, position, Some, IsSome, IfOk, OnOk};
ghost use Rattle.std.specs.Str.{bytes_eq};
ghost use Rattle.frp_tree.specs.declared.syntax.Decl.{Decl as AnyDecl};
ghost use Rattle.frp_tree.specs.declared.syntax.Event.{Event as AnyEvent};
ghost use Rattle.frp_tree.specs.Tree.{decl_of, program_tree_of};
ghost use Rattle.efrp_meaning.specs.Decls.{decl_named};
ghost use Rattle.indexmap.specs.IndexSet.{insert_all, insert_key};
ghost use Rattle.efrp_types.specs.NameFaults.{name_faults};
ghost use Rattle.efrp_types.specs.Numbers.{texts_of, AreNamesOf};

use frp_tree::{Decl, Event, Program, Text};
use indexmap::IndexSet;
use std::alloc::{AllocError, Global};
use std::marker::Model;

/// The names of a program's events and of its definitions, in declaration order.
#[derive(Debug, Drop)]
pub struct Names {
    events: IndexSet<String>,
    decls: IndexSet<String>,
}

impl Model for Names {
    ghost use Rattle.efrp_types.specs.Numbers.{NameLists, texts_of};

    ghost Value = { NameLists };

    ghost view = { λ n. record { events = texts_of n.events; decls = texts_of n.decls } };
}

fn put(alloc: Global, names: &mut IndexSet<String>, name: &Text) -> Result<(), AllocError>
    ensures { OnOk result (texts_of names.new ≡ insert_key bytes_eq (texts_of names.old) name.now) }
{
    names.insert(String::from_str(alloc, name.as_str())?)?;
    Ok(())
}

fn event_names(alloc: Global, events: &[Event]) -> Result<IndexSet<String>, AllocError>
    ensures { IfOk result (λ names. texts_of names ≡ insert_all bytes_eq [] (map (λ (e : AnyEvent). e.name) events.now)) }
{
    let mut names = IndexSet::new(alloc);
    for e in events {
        put(alloc, &mut names, &e.name)?;
    }
    Ok(names)
}

fn decl_names(alloc: Global, decls: &[Decl]) -> Result<IndexSet<String>, AllocError>
    ensures { IfOk result (λ names. texts_of names ≡ insert_all bytes_eq [] (map (λ (d : AnyDecl). d.name) decls.now)) }
{
    let mut names = IndexSet::new(alloc);
    for d in decls {
        put(alloc, &mut names, &d.name)?;
    }
    Ok(names)
}

impl Names {
    /// The names of a program. An `Err` is out of memory.
    pub fn of_program(alloc: Global, p: &Program) -> Result<Names, AllocError>
        requires { name_faults (program_tree_of p.now) ≡ [] }
        ensures { IfOk result (λ names. AreNamesOf names (program_tree_of p.now)) }
    {
        Ok(Names {
            events: event_names(alloc, p.events.as_slice())?,
            decls: decl_names(alloc, p.decls.as_slice())?,
        })
    }

    /// The place of the event of this name, counted from 0. None exactly where there is none. Takes no memory.
    pub fn event_place(&self, name: &Text) -> Option<usize>
        ensures { result ≡ position (bytes_eq name.now) self.now.events }
    {
        self.events.get_index_of(name.as_str())
    }

    /// The place of the definition of this name, counted from 0. None exactly where there is none. Takes no memory.
    pub fn decl_place(&self, name: &Text) -> Option<usize>
        ensures { result ≡ position (bytes_eq name.now) self.now.decls }
    {
        self.decls.get_index_of(name.as_str())
    }

    /// The definition of this name, which there has to be. Takes no memory.
    pub fn decl<'a>(&self, p: &'a Program, name: &Text) -> &'a Decl
        requires named { AreNamesOf self.now (program_tree_of p.now) }
        requires there { IsSome (decl_named (program_tree_of p.now).decls name.now) }
        ensures { decl_named (program_tree_of p.now).decls name.now ≡ Some (decl_of result.now) }
    {
        let place = self.decl_place(name).unwrap();
        &p.decls.as_slice()[place]
    }
}
