// Bytes are read as a map, line by line.
ghost use Rattle.std.specs.Prelude.{◌≡◌, ◌^◌, ◌<◌, length, IfOk, IfErr, IsTrue, ◌↔◌, []};
ghost use Rattle.map_file.specs.declared.maps.Map.{Map as Maps};
ghost use Rattle.map_file.specs.MapFaults.{IsFaultOf, IsReadAs};
ghost use Rattle.map_file.specs.MapRules.{IsMap};
ghost use Rattle.map_file.specs.MapText.{map_text};

use crate::drafting::{add, empty};
use crate::drafts::Draft;
use crate::entries::Section;
use crate::faults::MapFault;
use crate::line_entries::entry_in;
use crate::maps::Map;
use std::alloc::Global;
use text_parts::split_once;

// Whether the last line has been read and nothing is left.
fn is_whole(draft: &Draft, rest: &[u8]) -> bool
    ensures { IsTrue result ↔ ((rest.now ≡ []) × (draft.now.section ≡ Section.End)) }
{
    rest.is_empty() && draft.section == Section::End
}

/// The map whose text the bytes are. `Line(n)` where line n, counted from 1, is the first that isn't in the form
/// at its place: a line that is missing, or the last without its LF, isn't either. `Memory` is out of memory.
/// The time is linear in the bytes, but for names and samples, which are compared two by two.
pub fn read(alloc: Global, bytes: &[u8]) -> Result<Map, MapFault>
    requires { length bytes.now < 2 ^ 32 }
    ensures map { IfOk result (λ map. IsMap map × (bytes.now ≡ map_text map)) }
    ensures fault { IfErr result (IsFaultOf bytes.now) }
    // A map's text is read as this map and refused only for out of memory.
    ensures complete { (map : Maps) → IsMap map → bytes.now ≡ map_text map → IsReadAs map result }
{
    let mut draft = empty(alloc);
    let mut rest = bytes;
    let mut number: u32 = 1;
    while let Some((line, after)) = split_once(rest, b'\n') {
        let Some(entry) = entry_in(alloc, line)? else {
            return Err(MapFault::Line(number));
        };
        let added = add(&mut draft, entry)?;
        if !added {
            return Err(MapFault::Line(number));
        }
        rest = after;
        number += 1;
    }
    if !is_whole(&draft, rest) {
        return Err(MapFault::Line(number));
    }
    Ok(draft.map)
}
