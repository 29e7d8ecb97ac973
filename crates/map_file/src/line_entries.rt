// What the line of each kind states, from its fields.
ghost use Rattle.std.specs.Prelude.{◌≡◌, ◌≢◌, ℕ, ◌<◌, ◌≤◌, List, [], ◌∷◌, codes, MatchOption, IfOk, IsTrue, ◌↔◌};
ghost use Rattle.std.specs.Fmt.{decimal};
ghost use Rattle.text_parts.specs.Digits.{hex4};
ghost use Rattle.text_parts.specs.Fields.{parts_of};
ghost use Rattle.text_parts.specs.Names.{is_name};
ghost use Rattle.pic_isa.specs.Names.{name_of_port};
ghost use Rattle.map_file.specs.declared.entries.Entry.{Entry as Entries};
ghost use Rattle.map_file.specs.declared.entries.Report.{Report as Reports};
ghost use Rattle.map_file.specs.declared.maps.MapEvent.{MapEvent as MapEvents};
ghost use Rattle.map_file.specs.declared.maps.MapState.{MapState as MapStates};
ghost use Rattle.map_file.specs.declared.maps.MapSample.{MapSample as MapSamples};
ghost use Rattle.map_file.specs.declared.maps.Range.{Range as Ranges};
ghost use Rattle.map_file.specs.Entries.{IsEntry, IsRange, IsReport, IsSampleLine, IsUnnamed, event_fields, state_fields, sample_fields, range_field, report_fields, fields_of};
ghost use Rattle.map_file.specs.FieldWords.{left};
ghost use Rattle.map_file.specs.MapRules.{AddressesFit, IsCode, IsEvent, IsState};
ghost use Rattle.map_file.specs.MapText.{addresses};

use crate::entries::{Entry, Report};
use crate::fields::Fields;
use crate::maps::{MapEvent, MapSample, MapState, Range};
use crate::values::{code_in, data_in, decimal_in, port_in, range_in, source_in, type_in};
use frp_tree::{Text, Ty};
use std::alloc::{AllocError, Global};
use text_parts::name_in;

/// The greatest numbers that a map's text may have.
const TOP_PRIORITY: u32 = 11;

const MOST_DEPTH: u32 = 8;

const MOST_RAM: u32 = 352;

const MOST_WORDS: u32 = 8192;

// The name after this word, and the fields after both.
fn named<'a>(fields: Fields<'a>, word: &str) -> Option<(&'a str, Fields<'a>)>
    ensures { MatchOption result
        ((name : List ℕ) (after : List (List ℕ)) → IsTrue (is_name name) → left fields.entry ≢ word.now ∷ name ∷ after)
        (λ found. IsTrue (is_name found.0.now) × (left fields.entry ≡ word.now ∷ found.0.now ∷ left found.1)) }
{
    let (field, after) = fields.after(word)?.next()?;
    let name = name_in(field)?;
    Some((name, after))
}

#[tactic(auto, using(std::proofs::lemmas::Fmt::decimal_injective))]
fn priority_in(field: &[u8]) -> Option<u8>
    ensures { MatchOption result
        ((n : ℕ) → 0 < n → n ≤ 11 → field.now ≢ decimal n)
        (λ n. (0 < n) × (n ≤ 11) × (field.now ≡ decimal n)) }
{
    let priority = decimal_in(field, TOP_PRIORITY)? as u8;
    if priority == 0 { None } else { Some(priority) }
}

// The addresses of an event's open and commit.
fn places(fields: Fields<'_>) -> Option<(u16, u16)>
    ensures { MatchOption result
        ((opens commits : ℕ) → IsCode opens → IsCode commits → left fields.entry ≢ codes "open" ∷ hex4 opens ∷ codes "commit" ∷ hex4 commits ∷ [])
        (λ found. IsCode found.0 × IsCode found.1 × (left fields.entry ≡ codes "open" ∷ hex4 found.0 ∷ codes "commit" ∷ hex4 found.1 ∷ [])) }
{
    let (open, fields) = fields.after("open")?.next()?;
    let open = code_in(open)?;
    let commit = code_in(fields.after("commit")?.last()?)?;
    Some((open, commit))
}

// The event of this name that the fields after it state.
fn event_of(name: Text, fields: Fields<'_>) -> Option<MapEvent>
    requires { IsTrue (is_name name) }
    ensures { MatchOption result
        ((e : MapEvents) → IsEvent e → name ∷ left fields.entry ≢ event_fields e)
        (λ e. IsEvent e × (name ∷ left fields.entry ≡ event_fields e)) }
{
    let (source, fields) = fields.next()?;
    let source = source_in(source)?;
    let (priority, fields) = fields.next()?;
    let priority = priority_in(priority)?;
    let (open, commit) = places(fields)?;
    Some(MapEvent {
        name,
        source,
        priority,
        open,
        commit,
    })
}

fn event(alloc: Global, fields: Fields<'_>) -> Result<Option<MapEvent>, AllocError>
    ensures { IfOk result (λ found. MatchOption found
        ((e : MapEvents) → IsEvent e → left fields.entry ≢ codes "event" ∷ event_fields e)
        (λ e. IsEvent e × (left fields.entry ≡ codes "event" ∷ event_fields e))) }
{
    let Some((name, after)) = named(fields, "event") else {
        return Ok(None);
    };
    let name = Text::new(alloc, name)?;
    Ok(event_of(name, after))
}

// The addresses of a state's low and high byte.
fn addresses(ty: Ty, fields: Fields<'_>) -> Option<(u16, u16)>
    ensures { MatchOption result
        ((low high : ℕ) → AddressesFit ty low high → left fields.entry ≢ addresses ty low high)
        (λ found. AddressesFit ty found.0 found.1 × (left fields.entry ≡ addresses ty found.0 found.1)) }
{
    match ty {
        Ty::Bool | Ty::U8 => {
            let address = data_in(fields.last()?)?;
            Some((address, address))
        }
        Ty::U16 => {
            let (low, fields) = fields.next()?;
            let low = data_in(low)?;
            let high = data_in(fields.last()?)?;
            Some((low, high))
        }
    }
}

// The state of this name that the fields after it state.
fn state_of(name: Text, fields: Fields<'_>) -> Option<MapState>
    requires { IsTrue (is_name name) }
    ensures { MatchOption result
        ((s : MapStates) → IsState s → name ∷ left fields.entry ≢ state_fields s)
        (λ s. IsState s × (name ∷ left fields.entry ≡ state_fields s)) }
{
    let (field, fields) = fields.next()?;
    let ty = type_in(field)?;
    let (low, high) = addresses(ty, fields)?;
    Some(MapState {
        name,
        ty,
        low,
        high,
    })
}

fn state(alloc: Global, fields: Fields<'_>) -> Result<Option<MapState>, AllocError>
    ensures { IfOk result (λ found. MatchOption found
        ((s : MapStates) → IsState s → left fields.entry ≢ codes "state" ∷ state_fields s)
        (λ s. IsState s × (left fields.entry ≡ codes "state" ∷ state_fields s))) }
{
    let Some((name, after)) = named(fields, "state") else {
        return Ok(None);
    };
    let name = Text::new(alloc, name)?;
    Ok(state_of(name, after))
}

// The event and the input that a sample's line names, and the address.
fn sampled<'a>(fields: Fields<'a>) -> Option<(&'a str, &'a str, u16)>
    ensures { MatchOption result
        ((event input : List ℕ) (at : ℕ) → IsTrue (is_name event) → IsTrue (is_name input) → IsCode at → left fields.entry ≢ codes "sample" ∷ event ∷ input ∷ hex4 at ∷ [])
        (λ found. IsTrue (is_name found.0.now) × IsTrue (is_name found.1.now) × IsCode found.2 × (left fields.entry ≡ codes "sample" ∷ found.0.now ∷ found.1.now ∷ hex4 found.2 ∷ [])) }
{
    let (event, fields) = named(fields, "sample")?;
    let (input, fields) = fields.next()?;
    let input = name_in(input)?;
    let at = code_in(fields.last()?)?;
    Some((event, input, at))
}

fn sample(alloc: Global, fields: Fields<'_>) -> Result<Option<MapSample>, AllocError>
    ensures { IfOk result (λ found. MatchOption found
        ((s : MapSamples) → IsSampleLine s → left fields.entry ≢ codes "sample" ∷ sample_fields s)
        (λ s. IsSampleLine s × (left fields.entry ≡ codes "sample" ∷ sample_fields s))) }
{
    let Some((event, input, at)) = sampled(fields) else {
        return Ok(None);
    };
    let event = Text::new(alloc, event)?;
    let input = Text::new(alloc, input)?;
    Ok(Some(MapSample { event, input, at }))
}

// Whether the fields are those of a map's first line.
fn is_head(fields: Fields<'_>) -> bool
    ensures { IsTrue result ↔ (left fields.entry ≡ codes "efrp" ∷ codes "map" ∷ codes "1" ∷ []) }
{
    let Some(fields) = fields.after("efrp") else {
        return false;
    };
    let Some(fields) = fields.after("map") else {
        return false;
    };
    let Some(fields) = fields.after("1") else {
        return false;
    };
    fields.next().is_none()
}

fn output(fields: Fields<'_>) -> Option<u8>
    ensures { MatchOption result
        ((port : ℕ) → port < 5 → left fields.entry ≢ codes "output" ∷ name_of_port port ∷ [])
        (λ port. (port < 5) × (left fields.entry ≡ codes "output" ∷ name_of_port port ∷ [])) }
{
    port_in(fields.after("output")?.last()?)
}

fn ready(fields: Fields<'_>) -> Option<u16>
    ensures { MatchOption result
        ((address : ℕ) → IsCode address → left fields.entry ≢ codes "ready" ∷ hex4 address ∷ [])
        (λ address. IsCode address × (left fields.entry ≡ codes "ready" ∷ hex4 address ∷ [])) }
{
    code_in(fields.after("ready")?.last()?)
}

fn registers(fields: Fields<'_>) -> Option<Range>
    ensures { MatchOption result
        ((r : Ranges) → IsRange r → left fields.entry ≢ codes "regs" ∷ range_field r ∷ [])
        (λ r. IsRange r × (left fields.entry ≡ codes "regs" ∷ range_field r ∷ [])) }
{
    range_in(fields.after("regs")?.last()?)
}

// The number of at most `most` after this word, and the fields after both.
fn count_in<'a>(fields: Fields<'a>, word: &str, most: u32) -> Option<(u32, Fields<'a>)>
    ensures { MatchOption result
        ((n : ℕ) (after : List (List ℕ)) → n ≤ most → left fields.entry ≢ word.now ∷ decimal n ∷ after)
        (λ found. (found.0 ≤ most) × (left fields.entry ≡ word.now ∷ decimal found.0 ∷ left found.1)) }
{
    let (field, after) = fields.after(word)?.next()?;
    Some((decimal_in(field, most)?, after))
}

fn report(fields: Fields<'_>) -> Option<Report>
    ensures { MatchOption result
        ((r : Reports) → IsReport r → left fields.entry ≢ codes "report" ∷ report_fields r)
        (λ r. IsReport r × (left fields.entry ≡ codes "report" ∷ report_fields r)) }
{
    let fields = fields.after("report")?;
    let (depth, fields) = count_in(fields, "depth", MOST_DEPTH)?;
    let (ram, fields) = count_in(fields, "ram", MOST_RAM)?;
    let (words, fields) = count_in(fields, "words", MOST_WORDS)?;
    let (settle, fields) = count_in(fields, "settle", u32::MAX)?;
    if fields.next().is_some() {
        return None;
    }
    Some(Report {
        depth: depth as u8,
        ram: ram as u16,
        words: words as u16,
        settle,
    })
}

// The entry without a name that the fields state.
fn unnamed(fields: Fields<'_>) -> Option<Entry>
    ensures { MatchOption result
        ((e : Entries) → IsUnnamed e → IsEntry e → left fields.entry ≢ fields_of e)
        (λ e. IsEntry e × (left fields.entry ≡ fields_of e)) }
{
    if is_head(fields) {
        return Some(Entry::Head);
    }
    if let Some(port) = output(fields) {
        return Some(Entry::Output(port));
    }
    if let Some(address) = ready(fields) {
        return Some(Entry::Ready(address));
    }
    if let Some(range) = registers(fields) {
        return Some(Entry::Regs(range));
    }
    Some(Entry::Report(report(fields)?))
}

/// What a line without its LF states, and None where it is no line of a map. An `Err` is out of memory.
pub fn entry_in(alloc: Global, line: &[u8]) -> Result<Option<Entry>, AllocError>
    ensures { IfOk result (λ found. MatchOption found
        ((e : Entries) → IsEntry e → parts_of line.now ≢ fields_of e)
        (λ e. IsEntry e × (parts_of line.now ≡ fields_of e))) }
{
    let fields = Fields::of(line);
    if let Some(event) = event(alloc, fields)? {
        return Ok(Some(Entry::Event(event)));
    }
    if let Some(state) = state(alloc, fields)? {
        return Ok(Some(Entry::State(state)));
    }
    if let Some(sample) = sample(alloc, fields)? {
        return Ok(Some(Entry::Sample(sample)));
    }
    Ok(unnamed(fields))
}
