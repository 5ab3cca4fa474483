// Values if only their start is known.
//
// A type is read from the first 128 bytes of a value if these settle it, that is, if the reading ends before they do:
// a token at their end can go on, and an open comment can be closed. If they don't settle it, everything is read
// once, with the message, and the part keeps a short text of the same type (`TypeTexts` of mime_tree), so no number
// of tests and turns reads it again. There is at most one such text for each 128 bytes of a header, and together they
// are no longer than those fields. That a text is kept isn't promised; that it has the field's type is.
ghost use Rattle.std.specs.Prelude.{◌≡◌, IsTrue, MatchOption, None, Some};
ghost use Rattle.mime_params.specs.MediaValue.{after_octet, SettlesDisposition, SettlesType};
ghost use Rattle.mime_params.specs.Reading.{GapEnds, TokenEnds};

use crate::gap::after_gap;
use crate::words::token;
use octets::first;

/// Returns `true` only if every value of a Content-Type that begins with this text has the same type and subtype as
/// the text, or has none, like the text.
///
/// Only `true` is a promise: the result can be `false` for a text that settles them. It is `true` if the reading of
/// the two ends before the text does: a token at the end of the text can go on, and a comment that is open there can
/// be closed. No more of the text is read than that.
pub fn settles_type(start: &[u8]) -> bool
    ensures { IsTrue result → SettlesType start.now }
{
    let Some(name) = gap_end(start) else {
        return false;
    };
    if !ends_token(name) {
        return false;
    }
    let Some((_main, after)) = token(name) else {
        return true;
    };
    let Some(slash) = gap_end(after) else {
        return false;
    };
    let Some(after) = after_slash(slash) else {
        return true;
    };
    let Some(name) = gap_end(after) else {
        return false;
    };
    ends_token(name)
}

/// Returns `true` only if every value of a Content-Disposition that begins with this text has the same disposition as
/// the text, or has none, like the text.
///
/// Only `true` is a promise. It is `true` if the reading of the disposition ends before the text does.
pub fn settles_disposition(start: &[u8]) -> bool
    ensures { IsTrue result → SettlesDisposition start.now }
{
    let Some(name) = gap_end(start) else {
        return false;
    };
    ends_token(name)
}

// The text after the slash at its start.
fn after_slash(text: &[u8]) -> Option<&[u8]>
    ensures { MatchOption result (after_octet 47 text.now ≡ None) (λ after. after_octet 47 text.now
        ≡ Some after.now) }
{
    let (octet, after) = first(text)?;
    if octet == b'/' { Some(after) } else { None }
}

// The text after the gap at its start, if the gap ends in the text.
fn gap_end(text: &[u8]) -> Option<&[u8]>
    ensures { MatchOption result (Unit {0}) (λ rest. GapEnds text.now rest.now) }
{
    let rest = after_gap(text);
    let (octet, _more) = first(rest)?;
    // a comment that is open here can be closed later
    if octet == b'(' { None } else { Some(rest) }
}

// Whether the token at the start of the text ends in the text, or there is none.
fn ends_token(text: &[u8]) -> bool
    ensures { IsTrue result → TokenEnds text.now }
{
    match token(text) {
        Some((_octets, rest)) => !rest.is_empty(),
        None => !text.is_empty(),
    }
}
