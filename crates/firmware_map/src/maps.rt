// The map of a program's firmware.
ghost use Rattle.std.specs.Prelude.{◌≡◌, ◌+◌, ◌≤◌, ◌++◌, ◌∷◌, [], get_or, IfOk, OnOk};
ghost use Rattle.frp_tree.specs.Tree.{behaviour_of, decl_of};
ghost use Rattle.efrp_meaning.specs.Bounds.{bytes_in};
ghost use Rattle.bank_alloc.specs.Needs.{bytes_of};
ghost use Rattle.expr_lower.specs.Nodes.{new_pair};
ghost use Rattle.expr_lower.specs.Numbered.{state_cells};
ghost use Rattle.expr_lower.specs.Places.{is_wide};
ghost use Rattle.event_code.specs.States.{listed, states_of};
ghost use Rattle.firmware_map.specs.Maps.{AreEvents, AreOutputs, HasCells, IsMapOf, made_of};
ghost use Rattle.firmware_map.specs.Written.{program_of, used_by};

use crate::uses::Uses;
use bank_alloc::Places;
use frp_tree::{Behaviour, Decl, List, Ty};
use glue_parts::marks::{READY, committing, opening};
use map_file::{Map, MapEvent, MapState};
use pic_isa::port_named;
use std::alloc::{AllocError, Global};

// The address of a mark.
fn address(marks: &[u16], mark: u32) -> u16
    ensures { result ≡ get_or marks.now mark 0 }
{
    match marks.get(mark as usize) {
        Some(address) => *address,
        None => 0,
    }
}

fn events(alloc: Global, uses: &Uses, marks: &[u16]) -> Result<List<MapEvent>, AllocError>
    ensures { IfOk result (AreEvents (program_of uses.now) (λ m. get_or marks.now m 0)) }
{
    let typed = uses.c.typed();
    let mut events = List::new(alloc);
    let declared = typed.program().events.as_slice();
    for (n, event) in declared.iter().enumerate() {
        let number = n as u8;
        events.push(MapEvent {
            name: event.name.copy(alloc)?,
            source: typed.event_source(number),
            priority: event.priority as u8,
            open: address(marks, opening(number)),
            commit: address(marks, committing(number)),
        })?;
    }
    Ok(events)
}

// The number of the last cell of a value of this type, the first of whose cells is this one.
fn last_cell(ty: Ty, cell: u32) -> u32
    requires { cell ≤ 352 }
    ensures { result ≡ (new_pair (is_wide ty) cell).high }
{
    if ty == Ty::U16 { cell + 1 } else { cell }
}

// Adds the entry of a definition's state, where it has one, whose cells are numbered from this one on, low byte first. Answers the
// number of the cell behind them.
fn add_state(
    states: &mut List<MapState>,
    alloc: Global,
    places: &Places,
    decl: &Decl,
    cell: u32,
) -> Result<u32, AllocError>
    requires { cell + bytes_in decl.now.ty (behaviour_of decl.now.behaviour) ≤ bytes_of places.now.need }
    ensures states { OnOk result (states.new ≡ states.old ++ listed places.now.need (decl_of decl.now) (state_cells cell decl.now.ty (behaviour_of decl.now.behaviour))) }
    ensures behind { IfOk result (λ behind. behind ≡ cell + bytes_in decl.now.ty (behaviour_of decl.now.behaviour)) }
{
    match &decl.behaviour {
        Behaviour::Reactive {
            init: _,
            clauses: _,
        } => {
            let last = last_cell(decl.ty, cell);
            states.push(MapState {
                name: decl.name.copy(alloc)?,
                ty: decl.ty,
                low: places.address(cell),
                high: places.address(last),
            })?;
            Ok(last + 1)
        }
        _ => Ok(cell),
    }
}

fn states(alloc: Global, uses: &Uses) -> Result<List<MapState>, AllocError>
    requires { HasCells (program_of uses.now) (used_by uses.now) }
    ensures { IfOk result (λ states. states ≡ states_of uses.now.places.now.need (program_of uses.now)) }
{
    let mut states = List::new(alloc);
    let mut cell = 0;
    let decls = uses.c.typed().program().decls.as_slice();
    for decl in decls {
        cell = add_state(&mut states, alloc, uses.places, decl, cell)?;
    }
    Ok(states)
}

fn outputs(alloc: Global, uses: &Uses) -> Result<List<u8>, AllocError>
    ensures { IfOk result (AreOutputs (program_of uses.now)) }
{
    let mut ports = List::new(alloc);
    let outputs = uses.c.typed().program().outputs.as_slice();
    for output in outputs {
        match port_named(output.port.as_str()) {
            Some(port) => ports.push(port)?,
            None => unreachable!(),
        }
    }
    Ok(ports)
}

/// The map of a program's firmware. `marks` has the address of each mark at its place, in words, and 0 past its end counts for a
/// mark. The image has so many words, the return stack gets so deep, and all has settled in so many steps. An `Err` is out of memory.
pub fn map_of(
    alloc: Global,
    uses: &Uses,
    marks: &[u16],
    words: u16,
    depth: u8,
    settle: u32,
) -> Result<Map, AllocError>
    requires cells { HasCells (program_of uses.now) (used_by uses.now) }
    ensures { IfOk result (IsMapOf (program_of uses.now) (used_by uses.now) (made_of marks.now words depth settle)) }
{
    Ok(Map {
        events: events(alloc, uses, marks)?,
        states: states(alloc, uses)?,
        outputs: outputs(alloc, uses)?,
        samples: List::new(alloc),
        ready: address(marks, READY),
        regs: uses.ranges(alloc)?,
        depth,
        ram: uses.banked_bytes(),
        words,
        settle,
    })
}
