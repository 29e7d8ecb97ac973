// What one field of a line writes: a word, a number or an address.
ghost use Rattle.std.specs.Prelude.{◌≡◌, ◌≢◌, ℕ, ◌<◌, ◌≤◌, MatchOption};
ghost use Rattle.std.specs.Str.{IsUtf8};
ghost use Rattle.std.specs.Fmt.{decimal};
ghost use Rattle.text_parts.specs.Digits.{hex3, hex4};
ghost use Rattle.frp_tree.specs.Names.{type_name};
ghost use Rattle.frp_tree.specs.declared.syntax.Ty.{Ty as Types};
ghost use Rattle.pic_isa.specs.declared.sources.Source.{Source as Sources};
ghost use Rattle.pic_isa.specs.Names.{name_of_port};
ghost use Rattle.pic_isa.specs.Sources.{source_name};
ghost use Rattle.map_file.specs.declared.maps.Range.{Range as Ranges};
ghost use Rattle.map_file.specs.Entries.{IsRange, range_field};
ghost use Rattle.map_file.specs.MapRules.{IsCode, IsData};

use crate::maps::Range;
use frp_tree::Ty;
use pic_isa::{Source, port_named, source_named};
use std::str;
use text_parts::{hex3_in, hex4_in, written_decimal_in};

/// The least number that no code address is.
const CODE_END: u16 = 0x2000;

/// The least number that no data address is.
const DATA_END: u16 = 0x200;

/// The field as text.
fn text(field: &[u8]) -> Option<&str>
    ensures { MatchOption result (IsUtf8 field.now → ⊥) (λ text. text.now ≡ field.now) }
{
    str::from_utf8(field).ok()
}

/// The source whose name the field is.
pub fn source_in(field: &[u8]) -> Option<Source>
    ensures { MatchOption result
        ((source : Sources) → field.now ≢ source_name source)
        (λ source. field.now ≡ source_name source) }
{
    source_named(text(field)?)
}

/// The number of the port whose name the field is, 0 to 4.
pub fn port_in(field: &[u8]) -> Option<u8>
    ensures { MatchOption result
        ((port : ℕ) → port < 5 → field.now ≢ name_of_port port)
        (λ port. (port < 5) × (field.now ≡ name_of_port port)) }
{
    port_named(text(field)?)
}

/// The type that the field names.
pub fn type_in(field: &[u8]) -> Option<Ty>
    ensures { MatchOption result
        ((ty : Types) → field.now ≢ type_name ty)
        (λ ty. field.now ≡ type_name ty) }
{
    match text(field)? {
        "bool" => Some(Ty::Bool),
        "u8" => Some(Ty::U8),
        "u16" => Some(Ty::U16),
        _ => None,
    }
}

/// The number of at most `most` that the field writes in decimal, without a leading zero.
#[tactic(auto, using(std::proofs::lemmas::Fmt::decimal_injective))]
pub fn decimal_in(field: &[u8], most: u32) -> Option<u32>
    ensures { MatchOption result
        ((n : ℕ) → n ≤ most → field.now ≢ decimal n)
        (λ n. (n ≤ most) × (field.now ≡ decimal n)) }
{
    let value = written_decimal_in(field)?;
    if value <= most { Some(value) } else { None }
}

// The number, where it is below an end.
fn below(n: u16, end: u16) -> Option<u16>
    ensures { MatchOption result (end ≤ n) (λ found. (found ≡ n) × (n < end)) }
{
    if n < end { Some(n) } else { None }
}

/// The data address that the field writes in three digits.
pub fn data_in(field: &[u8]) -> Option<u16>
    ensures { MatchOption result
        ((n : ℕ) → IsData n → field.now ≢ hex3 n)
        (λ n. IsData n × (field.now ≡ hex3 n)) }
{
    below(hex3_in(field)?, DATA_END)
}

/// The code address that the field writes in four digits.
pub fn code_in(field: &[u8]) -> Option<u16>
    ensures { MatchOption result
        ((n : ℕ) → IsCode n → field.now ≢ hex4 n)
        (λ n. IsCode n × (field.now ≡ hex4 n)) }
{
    below(hex4_in(field)?, CODE_END)
}

/// The range that the field writes as two data addresses with `-` between, the first not above the second.
pub fn range_in(field: &[u8]) -> Option<Range>
    ensures { MatchOption result
        ((r : Ranges) → IsRange r → field.now ≢ range_field r)
        (λ r. IsRange r × (field.now ≡ range_field r)) }
{
    match field {
        [a, b, c, b'-', d, e, f] => {
            let from = data_in(&[*a, *b, *c])?;
            let to = data_in(&[*d, *e, *f])?;
            if from <= to {
                Some(Range { from, to })
            } else {
                None
            }
        }
        _ => None,
    }
}
