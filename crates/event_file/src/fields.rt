// The fields of a line, each of which gives a sample of an input.
ghost use Rattle.std.specs.Prelude.{◌≡◌, ◌&&◌, [], IfOk, MatchOption, map};
ghost use Rattle.std.specs.List.{list_all, list_any};
ghost use Rattle.text_parts.specs.Fields.{fields_of};
ghost use Rattle.frp_tree.specs.declared.syntax.Decl.{Decl as AnyDecl};
ghost use Rattle.frp_tree.specs.Tree.{behaviour_of, decl_of};
ghost use Rattle.efrp_meaning.specs.Decls.{is_input};
ghost use Rattle.event_file.specs.Events.{gives};
ghost use Rattle.event_file.specs.Parts.{Gives, IsFirst, SampleOf, SamplesOf, ValueOf, inputs_among, samples_for};

use frp_tree::{Behaviour, Decl, List};
use std::alloc::{AllocError, Global};
use text_parts::{byte_in, next_field};

// Whether it is an input.
fn is_input(behaviour: &Behaviour) -> bool
    ensures { result ≡ is_input (behaviour_of behaviour.now) }
{
    match behaviour {
        Behaviour::Input(_) => true,
        _ => false,
    }
}

// The byte whose two digits stand after `=`.
fn value_of(text: &[u8]) -> Option<u8>
    ensures { ValueOf text.now result }
{
    match text {
        [b'=', digits @ ..] => byte_in(digits),
        _ => None,
    }
}

// The byte that a field gives to a definition of this name, were it an input.
fn given(field: &[u8], d: &Decl) -> Option<u8>
    ensures { Gives field.now (decl_of d.now) result }
{
    match field.strip_prefix(d.name.as_str().as_bytes()) {
        Some(value) => value_of(value),
        None => None,
    }
}

// Whether it is an input, and the field gives a sample of it.
fn is_sample_of(field: &[u8], d: &Decl) -> bool
    ensures { result ≡ (is_input (behaviour_of d.now.behaviour) && gives field.now (decl_of d.now)) }
{
    is_input(&d.behaviour) && given(field, d).is_some()
}

// Whether a field gives a sample of one of the inputs.
fn is_sample(decls: &[Decl], field: &[u8]) -> bool
    ensures { result ≡ list_any (λ (d : AnyDecl). is_input (behaviour_of d.behaviour) && gives field.now (decl_of d)) decls.now }
{
    decls.iter().any(|d| is_sample_of(field, d))
}

/// Whether each field of a text gives a sample of one of the inputs.
#[tactic(auto, using(crate::proofs::FieldFacts::any_input))]
pub(crate) fn are_samples(decls: &[Decl], text: &[u8]) -> bool
    ensures { result ≡ list_all (λ field. list_any (gives field) (inputs_among (map decl_of decls.now))) (fields_of text.now) }
{
    let mut rest = text;
    while let Some((field, more)) = next_field(rest) {
        if !is_sample(decls, field) {
            return false;
        }
        rest = more;
    }
    true
}

// The byte that the first field to do so gives to an input, and the text after that field.
fn first_given<'a>(text: &'a [u8], d: &Decl) -> Option<(u8, &'a [u8])>
    ensures { MatchOption result (samples_for (decl_of d.now) (fields_of text.now) ≡ []) (λ found. IsFirst (fields_of text.now) (decl_of d.now) found.0 (fields_of found.1.now)) }
{
    let mut rest = text;
    while let Some((field, more)) = next_field(rest) {
        if let Some(byte) = given(field, d) {
            return Some((byte, more));
        }
        rest = more;
    }
    None
}

// The byte that the fields of a text give to an input, which is 00 where none does. None exactly where two do.
fn sample_of(text: &[u8], d: &Decl) -> Option<u8>
    ensures { SampleOf (fields_of text.now) (decl_of d.now) result }
{
    match first_given(text, d) {
        None => Some(0),
        Some((byte, rest)) => match first_given(rest, d) {
            None => Some(byte),
            Some(_) => None,
        },
    }
}

/// The bytes that the fields of a text give to the inputs, in declaration order. None exactly where two fields are for
/// one input. An `Err` is out of memory.
pub(crate) fn samples_of(
    alloc: Global,
    decls: &[Decl],
    text: &[u8],
) -> Result<Option<List<u8>>, AllocError>
    ensures { IfOk result (SamplesOf (fields_of text.now) (inputs_among (map decl_of decls.now))) }
{
    let mut samples = List::new(alloc);
    for d in decls {
        if is_input(&d.behaviour) {
            let Some(byte) = sample_of(text, d) else {
                return Ok(None);
            };
            samples.push(byte)?;
        }
    }
    Ok(Some(samples))
}
