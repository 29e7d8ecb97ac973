// Names among those of events, definitions, clauses, outputs, sources, ports and registers.
ghost use Rattle.std.specs.Prelude.{◌≡◌, ◌||◌, map, option_map};
ghost use Rattle.std.specs.List.{list_any};
ghost use Rattle.std.specs.Option.{option_copied};
ghost use Rattle.std.specs.Str.{bytes_eq};
ghost use Rattle.frp_tree.specs.declared.syntax.Clause.{Clause as AnyClause};
ghost use Rattle.frp_tree.specs.declared.syntax.Decl.{Decl as AnyDecl};
ghost use Rattle.frp_tree.specs.declared.syntax.Event.{Event as AnyEvent};
ghost use Rattle.frp_tree.specs.declared.syntax.Output.{Output as AnyOutput};
ghost use Rattle.frp_tree.specs.Tree.{behaviour_of, decl_of};
ghost use Rattle.pic_isa.specs.Names.{port_at, register_at};
ghost use Rattle.efrp_meaning.specs.Decls.{decl_named, is_input, is_table};
ghost use Rattle.efrp_types.specs.NameFaults.{is_event, is_none, is_source};

use frp_tree::{Behaviour, Clause, Decl, Event, Output, Text};
use pic_isa::{port_named, register_named, source_named};

/// Whether one of the events has this name.
pub fn is_event(events: &[Event], name: &Text) -> bool
    ensures { result ≡ is_event events.now name.now }
{
    events.iter().any(|e| name.as_str() == e.name.as_str())
}

/// Whether one of the events has a source of this name.
pub fn is_taken(events: &[Event], source: &Text) -> bool
    ensures { result ≡ list_any (λ (e : AnyEvent). bytes_eq source.now e.source) events.now }
{
    events.iter().any(|e| source.as_str() == e.source.as_str())
}

/// Whether one of the definitions has this name.
fn is_decl(decls: &[Decl], name: &Text) -> bool
    ensures { result ≡ list_any (λ (d : AnyDecl). bytes_eq name.now d.name) decls.now }
{
    decls.iter().any(|d| name.as_str() == d.name.as_str())
}

/// Whether an event or one of the definitions has this name.
pub fn is_used(events: &[Event], decls: &[Decl], name: &Text) -> bool
    ensures { result ≡ (is_event events.now name.now || list_any (λ (d : AnyDecl). bytes_eq name.now d.name) decls.now) }
{
    is_event(events, name) || is_decl(decls, name)
}

/// Whether one of the clauses is for the event of this name.
pub fn is_clause(clauses: &[Clause], event: &Text) -> bool
    ensures { result ≡ list_any (λ (c : AnyClause). bytes_eq event.now c.event) clauses.now }
{
    clauses.iter().any(|c| event.as_str() == c.event.as_str())
}

/// Whether one of the outputs has the port of this name.
pub fn is_output(outputs: &[Output], port: &Text) -> bool
    ensures { result ≡ list_any (λ (o : AnyOutput). bytes_eq port.now o.port) outputs.now }
{
    outputs.iter().any(|o| port.as_str() == o.port.as_str())
}

/// Whether a source has this name.
pub fn is_source(name: &Text) -> bool
    ensures { result ≡ is_source name.now }
{
    source_named(name.as_str()).is_some()
}

/// Whether no setup may name this register.
pub fn is_no_register(name: &Text) -> bool
    ensures { result ≡ is_none (register_at name.now) }
{
    register_named(name.as_str()).is_none()
}

/// Whether no port has this name.
pub fn is_no_port(name: &Text) -> bool
    ensures { result ≡ is_none (port_at name.now) }
{
    port_named(name.as_str()).is_none()
}

/// The first definition of this name.
pub fn decl_named<'a>(decls: &'a [Decl], name: &Text) -> Option<&'a Decl>
    ensures { option_map decl_of (option_copied result) ≡ decl_named (map decl_of decls.now) name.now }
{
    for d in decls {
        if name.as_str() == d.name.as_str() {
            return Some(d);
        }
    }
    None
}

/// Whether it is a table.
pub fn is_table(behaviour: &Behaviour) -> bool
    ensures { result ≡ is_table (behaviour_of behaviour.now) }
{
    match behaviour {
        Behaviour::Table(_) => true,
        _ => false,
    }
}

/// Whether it is an input.
pub fn is_input(behaviour: &Behaviour) -> bool
    ensures { result ≡ is_input (behaviour_of behaviour.now) }
{
    match behaviour {
        Behaviour::Input(_) => true,
        _ => false,
    }
}
