// Remarks about a place of a script.
ghost use Rattle.std.specs.Prelude.{◌≡◌, ◌≤◌, ◌∷◌, ◌++◌, [], IfOk, OnOk, length};
ghost use Rattle.sieve_explain.specs.Explaining.{column, heading, note, note_if, numbered, printed, remark, told};
ghost use Rattle.sieve_explain.specs.Private.{blanks_of};

use crate::characters::count_pieces;
use crate::excerpt::push_excerpt;
use crate::sentence::{Sentence, push_sentence};
use crate::shown::{push_name, push_text};
use itoa::Buffer;
use readable_text::places::{line_number, octets_before};
use std::alloc::{AllocError, Global};

/// A script or a listing, the name under which it is described, and where memory for the text comes from.
#[derive(Clone, Copy)]
pub struct Source<'a> {
    /// Where memory for the text comes from.
    pub alloc: Global,
    /// The name under which the script or listing is described.
    pub name: &'a str,
    /// The bytes of the script or listing.
    pub octets: &'a [u8],
}

// Appends a colon and the number.
#[tactic(auto, unfolding(crate::specs::Explaining::numbered))]
fn push_number(out: &mut Vec<u8>, number: u128) -> Result<(), AllocError>
    ensures { OnOk result (out.new.items ≡ out.old.items ++ numbered number) }
{
    out.extend_from_slice(b":")?;
    out.extend_from_slice(Buffer::new().format(number).as_bytes())
}

// The column of the place in its line, in characters, counted from 1.
#[tactic(auto, unfolding(crate::specs::Explaining::column, readable_text::specs::Places::octets_before))]
fn column(script: &[u8], place: usize) -> u128
    requires { place ≤ length script.now }
    ensures { result ≡ column script.now place }
{
    let start = place - octets_before(script, place);
    count_pieces(&script[start..place]) as u128 + 1
}

// Appends the line and the column of the place, and the kind of the remark.
//
// The place is at most the script's length.
#[tactic(auto, unfolding(crate::specs::Explaining::heading))]
fn push_heading(
    out: &mut Vec<u8>,
    kind: &str,
    script: &[u8],
    place: usize,
) -> Result<(), AllocError>
    requires { place ≤ length script.now }
    ensures { OnOk result (out.new.items ≡ out.old.items ++ heading kind.now script.now place) }
{
    push_number(out, line_number(script, place))?;
    push_number(out, column(script, place))?;
    out.extend_from_slice(kind.as_bytes())
}

// Appends a remark as it is printed: after the name of the script, and escaped.
fn push_printed(out: &mut Vec<u8>, name: &str, remark: &[u8]) -> Result<(), AllocError>
    ensures { OnOk result (out.new.items ≡ out.old.items ++ printed name.now (remark.now ∷ [])) }
{
    push_name(out, name)?;
    push_text(out, remark)
}

/// Appends a remark about a place of the script, with the line of the place and a mark under it. A place beyond the
/// script's end counts as its end.
///
/// # Errors
///
/// `AllocError` if memory is refused.
#[tactic(auto, unfolding(crate::specs::Explaining::remark))]
pub fn push_remark(
    out: &mut Vec<u8>,
    kind: &str,
    source: &Source<'_>,
    place: usize,
    sentence: &Sentence<'_>,
) -> Result<(), AllocError>
    ensures { OnOk result (out.new.items ≡ out.old.items ++ printed source.now.name.now
        (remark kind.now source.now.octets.now place (blanks_of sentence.now) ∷ [])) }
{
    let place = place.min(source.octets.len());
    let mut text = Vec::new(source.alloc);
    push_heading(&mut text, kind, source.octets, place)?;
    push_sentence(&mut text, sentence)?;
    text.extend_from_slice(b"\n")?;
    push_excerpt(&mut text, source.octets, place)?;
    push_printed(out, source.name, &text)
}

/// Appends a remark about the whole script, if there is something to remark.
///
/// # Errors
///
/// `AllocError` if memory is refused.
#[tactic(auto, unfolding(crate::specs::Explaining::note))]
pub fn push_note_if(
    out: &mut Vec<u8>,
    source: &Source<'_>,
    some: bool,
    sentence: &Sentence<'_>,
) -> Result<(), AllocError>
    ensures { OnOk result (out.new.items ≡ out.old.items
        ++ printed source.now.name.now (note_if some (blanks_of sentence.now))) }
{
    if !some {
        return Ok(());
    }
    let mut text = Vec::new(source.alloc);
    text.extend_from_slice(b": note: ")?;
    push_sentence(&mut text, sentence)?;
    text.extend_from_slice(b"\n")?;
    push_printed(out, source.name, &text)
}

/// What is wrong at a place of the script, with the line of the place and a mark under it.
///
/// # Errors
///
/// `AllocError` if memory is refused.
pub fn told(
    source: &Source<'_>,
    place: usize,
    sentence: &Sentence<'_>,
) -> Result<Vec<u8>, AllocError>
    ensures { IfOk result (λ text. text.items
        ≡ printed source.now.name.now (told source.now.octets.now place (blanks_of sentence.now))) }
{
    let mut text = Vec::new(source.alloc);
    push_remark(&mut text, ": error: ", source, place, sentence)?;
    Ok(text)
}
