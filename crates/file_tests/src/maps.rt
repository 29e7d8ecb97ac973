// Parts of maps, made of what their lines say.
ghost use Rattle.std.specs.Prelude.{◌≡◌, IfOk};

use frp_tree::{Text, Ty};
use map_file::{MapEvent, MapSample, MapState};
use pic_isa::Source;
use std::alloc::{AllocError, Global};

pub(crate) fn sample(
    alloc: Global,
    event: &str,
    input: &str,
    at: u16,
) -> Result<MapSample, AllocError>
    ensures { IfOk result (λ s. s ≡ record { event = event.now; input = input.now; at = at }) }
{
    let event = Text::new(alloc, event)?;
    let input = Text::new(alloc, input)?;
    Ok(MapSample { event, input, at })
}

pub(crate) fn event(
    alloc: Global,
    name: &str,
    source: Source,
    priority: u8,
    open: u16,
    commit: u16,
) -> Result<MapEvent, AllocError>
    ensures { IfOk result (λ e. e ≡ record {
      name = name.now;
      source = source;
      priority = priority;
      «open» = «open»;
      commit = commit;
    }) }
{
    let name = Text::new(alloc, name)?;
    Ok(MapEvent {
        name,
        source,
        priority,
        open,
        commit,
    })
}

pub(crate) fn state(
    alloc: Global,
    name: &str,
    ty: Ty,
    low: u16,
    high: u16,
) -> Result<MapState, AllocError>
    ensures { IfOk result (λ s. s ≡ record { name = name.now; ty = ty; low = low; high = high }) }
{
    let name = Text::new(alloc, name)?;
    Ok(MapState {
        name,
        ty,
        low,
        high,
    })
}
