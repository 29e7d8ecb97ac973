// The addresses at which a step has a line, so that all others are passed over quickly.
ghost use Rattle.std.specs.Prelude.{◌≡◌, ℕ, true, false, ◌==◌, get_or, is_none};
ghost use Rattle.std.specs.List.{AllByRecursion, list_any};
ghost use Rattle.map_file.specs.declared.maps.Map.{Map as Maps};
ghost use Rattle.map_file.specs.MapRules.{IsCode, IsEvent, IsMap};
ghost use Rattle.arrival_script.specs.TraceParts.{Marks, names_address, samples_address, is_quiet};

use map_file::{Map, MapEvent, MapSample};
use pic_machine::{Did, Stepped};

/// How many code addresses there are.
pub(crate) const ADDRESSES: usize = 8192;

fn mark(marked: &mut [bool; ADDRESSES], address: u16)
    requires { IsCode address }
    ensures { (i : ℕ) → get_or marked.new i true ≡ false → (get_or marked.old i true ≡ false) × ((i == address) ≡ false) }
{
    marked[usize::from(address)] = true;
}

// Marks the addresses at which an event of these opens or commits.
fn mark_events(marked: &mut [bool; ADDRESSES], events: &[MapEvent])
    requires { AllByRecursion IsEvent events.now }
    ensures { (i : ℕ) → get_or marked.new i true ≡ false → (get_or marked.old i true ≡ false) × (list_any (names_address i) events.now ≡ false) }
{
    for event in events {
        mark(marked, event.open);
        mark(marked, event.commit);
    }
}

// Marks the addresses of these samples.
fn mark_samples(marked: &mut [bool; ADDRESSES], samples: &[MapSample])
    requires { AllByRecursion (λ s. IsCode s.at) samples.now }
    ensures { (i : ℕ) → get_or marked.new i true ≡ false → (get_or marked.old i true ≡ false) × (list_any (samples_address i) samples.now ≡ false) }
{
    for sample in samples {
        mark(marked, sample.at);
    }
}

/// Marks the addresses at which an event of the map opens, commits or samples.
pub(crate) fn marked_addresses(map: &Map) -> [bool; ADDRESSES]
    requires { IsMap map.now }
    ensures { Marks result map.now }
{
    let mut marked = [false; ADDRESSES];
    mark_events(&mut marked, map.events.as_slice());
    mark_samples(&mut marked, map.samples.as_slice());
    marked
}

fn is_marked(marked: &[bool; ADDRESSES], address: u16) -> bool
    ensures { result ≡ get_or marked.now address true }
{
    match marked.get(usize::from(address)) {
        Some(marked) => *marked,
        None => true,
    }
}

/// Whether a step ran at an address that isn't marked, and put nothing on a port: where nothing arrived, it has no
/// line. Most steps have none.
pub(crate) fn is_plain(marked: &[bool; ADDRESSES], report: &Stepped) -> bool
    ensures { result ≡ true → (m : Maps) → Marks marked.now m → is_quiet m (is_none report.now.port) report.now.did ≡ true }
{
    match report.did {
        Did::Ran { address, .. } => report.port.is_none() && !is_marked(marked, address),
        Did::Took | Did::Stopped { .. } => false,
    }
}
