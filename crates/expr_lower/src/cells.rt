// The cells of a program's definitions.
ghost use Rattle.std.specs.Prelude.{◌≡◌, ◌+◌, ◌<◌, ◌≤◌, IfOk, Some, length, option_map, slice_get};
ghost use Rattle.frp_tree.specs.Tree.{ProgramTree, behaviour_of, program_tree_of};
ghost use Rattle.efrp_meaning.specs.Bounds.{bytes_in};
ghost use Rattle.expr_lower.specs.declared.places.Place.{Place as AnyPlace};
ghost use Rattle.expr_lower.specs.Nodes.{new_pair, size_of};
ghost use Rattle.expr_lower.specs.Numbered.{AreStates, Binds, CanBind, state_cells};
ghost use Rattle.expr_lower.specs.Places.{AreCellsOf};

use crate::places::{Place, give_out};
use byte_ops::Pair;
use causality::Checked;
use frp_tree::{Behaviour, Decl, Ty};
use std::alloc::{AllocError, Global};

/// The cells that stand for the definitions of a program, by number: those of states, those that values are bound to, and how
/// many are given out.
#[derive(Debug, Drop)]
pub struct Cells {
    pub(crate) places: Vec<Place>,
    pub(crate) next: u32,
}

// The place of a definition that isn't bound, whose state gets the next cells where it is reactive.
fn place_of(next: &mut u32, d: &Decl) -> Place
    requires { next.old ≤ 65534 }
    ensures place { result ≡ record { ty = d.now.ty; state = state_cells next.old d.now.ty (behaviour_of d.now.behaviour); bound = None } }
    ensures next { next.new ≡ next.old + bytes_in d.now.ty (behaviour_of d.now.behaviour) }
{
    let state = match &d.behaviour {
        Behaviour::Reactive {
            init: _,
            clauses: _,
        } => Some(give_out(next, d.ty == Ty::U16)),
        _ => None,
    };
    Place {
        ty: d.ty,
        state,
        bound: None,
    }
}

impl Cells {
    /// The cells of a program's states, numbered from 0 in declaration order, low byte first. No definition is bound. An `Err` is
    /// out of memory.
    pub fn of_states(alloc: Global, c: &Checked) -> Result<Cells, AllocError>
        ensures { IfOk result (AreStates (program_tree_of c.now.typed.program)) }
    {
        let mut cells = Cells {
            places: Vec::new(alloc),
            next: 0,
        };
        let decls = c.typed().program().decls.as_slice();
        for d in decls {
            let place = place_of(&mut cells.next, d);
            cells.places.push(place)?;
        }
        Ok(cells)
    }

    /// How many cells are given out. Takes no memory.
    pub fn count(&self) -> u32
        ensures { result ≡ self.now.next }
    {
        self.next
    }

    /// The cells of a definition's state, where it has one. The definition exists. Takes no memory.
    pub fn state(&self, decl: u8) -> Option<Pair>
        requires { decl < length self.now.places.items }
        ensures { Some result ≡ option_map (λ (place : AnyPlace). place.state) (slice_get self.now.places.items decl) }
    {
        self.places[decl as usize].state
    }

    /// New cells, which nothing stands for yet: two for a value of 16 bits, low byte first, and else one. With them there are at
    /// most 65,536. Takes no memory.
    pub fn give_out(&mut self, wide: bool) -> Pair
        requires { self.old.next + size_of wide ≤ 65536 }
        ensures cells { result ≡ new_pair wide self.old.next }
        ensures next { self.new.next ≡ self.old.next + size_of wide }
        ensures places { self.new.places.items ≡ self.old.places.items }
        ensures kept { (p : ProgramTree) → AreCellsOf p self.old → AreCellsOf p self.new }
    {
        give_out(&mut self.next, wide)
    }

    /// The definition of this number, which isn't bound yet, has its value in these cells from now on. They are given out, and
    /// where its type isn't u16 `high` is as `low`. Takes no memory.
    pub fn bind(&mut self, decl: u8, at: Pair)
        requires { CanBind self.old decl at }
        ensures binds { Binds decl at self.old self.new }
        ensures kept { (p : ProgramTree) → AreCellsOf p self.old → AreCellsOf p self.new }
    {
        self.places[decl as usize].bound = Some(at);
    }
}
