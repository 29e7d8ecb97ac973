// The check for cycles, event by event.
ghost use Rattle.std.specs.Prelude.{◌≡◌, IfOk};
ghost use Rattle.frp_tree.specs.Tree.{program_tree_of};
ghost use Rattle.causality.specs.Answers.{AllOrders, Orders, OrdersOn};

use crate::checked::Checked;
use crate::faults::CycleFault;
use crate::graphs::graph_on;
use crate::rounds::first_round;
use crate::sorts::sorted;
use efrp_types::Typed;
use frp_tree::{List, Text};
use std::alloc::{AllocError, Global};

fn cycle(alloc: Global, event: &Text, name: &Text) -> Result<CycleFault, AllocError>
    ensures { IfOk result (λ fault. fault ≡ CycleFault.Cycle event.now name.now) }
{
    Ok(CycleFault::Cycle {
        event: event.copy(alloc)?,
        name: name.copy(alloc)?,
    })
}

fn order_on(alloc: Global, t: &Typed, event: &Text) -> Result<List<u8>, CycleFault>
    ensures { OrdersOn (program_tree_of t.now.program) event.now result }
{
    let graph = graph_on(alloc, t, event)?;
    match sorted(alloc, graph.as_slice())? {
        Some(order) => Ok(order),
        None => {
            let first = first_round(alloc, graph.as_slice())?;
            let d = &t.program().decls.as_slice()[first];
            Err(cycle(alloc, event, &d.name)?)
        }
    }
}

fn all_orders(alloc: Global, t: &Typed) -> Result<List<List<u8>>, CycleFault>
    ensures { AllOrders (program_tree_of t.now.program) result }
{
    let events = t.program().events.as_slice();
    let mut orders = List::new(alloc);
    for i in 0..events.len() {
        let e = &events[i];
        orders.push(order_on(alloc, t, &e.name)?)?;
    }
    Ok(orders)
}

/// The program with an order of its definitions on each event. Refused where on some event a definition depends on
/// itself: told are the first such event and the first such definition on it. `Memory` may be told in place of either.
/// On a refusal the program is dropped. The time on an event is that of going over all definitions and names a fixed
/// number of times; on the event that is told, at most once for each definition.
pub fn orders(alloc: Global, t: Typed) -> Result<Checked, CycleFault>
    ensures kept { IfOk result (λ c. c.typed.program ≡ t.program) }
    ensures told { Orders (program_tree_of t.program) result }
{
    let orders = all_orders(alloc, &t)?;
    Ok(Checked::new(t, orders))
}
