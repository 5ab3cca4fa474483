// The strings of the typed form: those of a script, cut into segments.
ghost use Rattle.std.specs.Prelude.{◌≡◌, [], ◌∷◌, ◌++◌, IfOk, OnOk, flat_map, map};
ghost use Rattle.sieve_references.specs.References.{segments};
ghost use Rattle.sieve_references.specs.SegmentView.{segment_of};
ghost use Rattle.sieve_parser.specs.View.{argument_tree};
ghost use Rattle.sieve_check.specs.FormOf.{list_in, list_taken, meant, strings_in, template_of};
ghost use Rattle.sieve_check.specs.Forming.{Formed};
ghost use Rattle.sieve_check.specs.Reading.{read_of};
ghost use Rattle.sieve_check.specs.TypedView.{strings_form, templates_of};

use crate::form_error::FormError;
use crate::names::Capability;
use crate::signature::Reading;
use crate::surroundings::Capabilities;
use crate::typed::{Segment, Strings};
use bytecode_format::Takes;
use octets::{Octets, to_lowercase};
use sieve_parser::Argument;
use sieve_references::{Segment as Piece, first_segment};
use std::alloc::{AllocError, Global};

// Appends the piece as it is meant; nothing for a wrong reference, with which no script is accepted.
fn push_meant(alloc: Global, all: &mut Vec<Segment>, piece: Piece<'_>) -> Result<(), AllocError>
    ensures { OnOk result (all.new.items ≡ all.old.items ++ meant (segment_of piece.entry)) }
{
    let segment = match piece {
        Piece::Text(octets) => Segment::Text(Octets::from_vec(Vec::from_slice(alloc, octets)?)),
        Piece::Variable(name) => Segment::Variable(to_lowercase(alloc, name)?),
        Piece::Capture(number) => Segment::Capture(number),
        Piece::Beyond | Piece::Foreign => return Ok(()),
    };
    all.push(segment)?;
    Ok(())
}

// The string with the references in it.
fn expanded(alloc: Global, string: &[u8]) -> Result<Vec<Segment>, AllocError>
    ensures { IfOk result (λ all. all.items ≡ flat_map meant (segments string.now)) }
{
    let mut all = Vec::with_capacity(alloc, 1)?;
    let mut rest = string;
    'pieces: while let Some((piece, after)) = first_segment(rest) {
        push_meant(alloc, &mut all, piece)?;
        rest = after;
    }
    Ok(all)
}

/// The string as it is meant: with references if variables were required, else as it is written (RFC 5229, section
/// 3).
///
/// # Errors
///
/// `AllocError` if memory is refused.
pub fn template(
    alloc: Global,
    required: Capabilities,
    string: &Octets,
) -> Result<Vec<Segment>, AllocError>
    ensures { IfOk result (λ all. all.items
        ≡ template_of required string.now) }
{
    if required.has(Capability::Variables) {
        return expanded(alloc, string.as_slice());
    }
    let mut all = Vec::with_capacity(alloc, 1)?;
    all.push(Segment::Text(string.clone()?))?;
    Ok(all)
}

// Appends the string as it is meant.
fn push_template(
    alloc: Global,
    all: &mut Vec<Vec<Segment>>,
    required: Capabilities,
    string: &Octets,
) -> Result<(), AllocError>
    ensures { OnOk result (templates_of all.new.items ≡ templates_of all.old.items
        ++ template_of required string.now ∷ []) }
{
    let template = template(alloc, required, string)?;
    all.push(template)?;
    Ok(())
}

// The strings, as they are meant.
fn templates(
    alloc: Global,
    required: Capabilities,
    first: &Octets,
    others: &[Octets],
) -> Result<Vec<Vec<Segment>>, AllocError>
    ensures { IfOk result (λ all. templates_of all.items
        ≡ map (template_of required) (first.now ∷ others.now)) }
{
    let mut all = Vec::with_capacity(alloc, others.len() + 1)?;
    push_template(alloc, &mut all, required, first)?;
    for string in others {
        push_template(alloc, &mut all, required, string)?;
    }
    Ok(all)
}

// The strings of a list, as they are meant; one string is a list, too. Other arguments have no form.
fn list_in(
    alloc: Global,
    required: Capabilities,
    argument: &Argument,
) -> Result<Vec<Vec<Segment>>, FormError>
    ensures { Formed (λ list. templates_of list.items)
        (list_in required (argument_tree argument.now)) result }
{
    match argument {
        Argument::Text(string) => Ok(templates(alloc, required, string, &[])?),
        Argument::TextList(first, others) => Ok(templates(alloc, required, first, others)?),
        Argument::Number(_) | Argument::Tag(_) => Err(FormError::Malformed),
    }
}

// The strings of the first argument, if a list is taken, and the arguments after it.
fn list_taken<'t>(
    alloc: Global,
    required: Capabilities,
    takes: bool,
    arguments: &'t [Argument],
) -> Result<(Vec<Vec<Segment>>, &'t [Argument]), FormError>
    ensures { Formed (λ taken. (templates_of taken.0.items, map argument_tree taken.1.now))
        (list_taken required takes (map argument_tree arguments.now)) result }
{
    if !takes {
        return Ok((Vec::new(alloc), arguments));
    }
    match arguments {
        [list, rest @ ..] => Ok((list_in(alloc, required, list)?, rest)),
        [] => Err(FormError::Malformed),
    }
}

/// The strings of a test that takes such lists, from what was read.
pub fn strings_in(
    alloc: Global,
    required: Capabilities,
    takes: Takes,
    reading: &Reading<'_>,
) -> Result<Strings, FormError>
    ensures { Formed strings_form (strings_in required takes (read_of reading.now)) result }
{
    let (names, rest) = list_taken(alloc, required, takes.names, reading.positional)?;
    let (params, _) = list_taken(alloc, required, takes.params, reading.params)?;
    let (keys, _) = list_taken(alloc, required, takes.keys, rest)?;
    Ok(Strings {
        names,
        params,
        keys,
    })
}
