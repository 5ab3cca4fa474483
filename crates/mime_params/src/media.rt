// Media types and dispositions.
ghost use Rattle.std.specs.Prelude.{◌≡◌, ◌++◌, IfOk, IsOk, MatchOption, None, OnOk, Some};
ghost use Rattle.octets.specs.Ascii.{lowercase_of};
ghost use Rattle.mime_params.specs.Gaps.{after_gap};
ghost use Rattle.mime_params.specs.MediaValue.{disposition_name, disposition_of, disposition_param, media_type_of, params_in, type_names, type_param};

use crate::gap::after_gap;
use crate::lent::LentParameters;
use crate::lookup::first_named;
use crate::params::{Params, read_params};
use crate::words::token;
use octets::{Octets, first};
use std::alloc::{AllocError, Global};

/// A media type with its parameters (RFC 2045, section 5.1), as it is written. [`read_type`] makes it of a field's
/// value.
#[derive(Drop)]
pub struct MediaType {
    /// The type: the text before the slash.
    pub main: Octets,
    /// The subtype: the text after the slash.
    pub sub: Octets,
    /// The parameters, in order.
    pub params: Params,
}

impl MediaType {
    ghost use Rattle.std.specs.Prelude.{◌≡◌, ◌++◌, OnOk};
    ghost use Rattle.mime_params.specs.MediaValue.{media_text};

    /// Appends the type and the subtype in lower case, with a slash between them.
    ///
    /// # Errors
    ///
    /// `AllocError` if memory is refused.
    pub fn append_text(&self, text: &mut Vec<u8>) -> Result<(), AllocError>
        ensures { OnOk result (text.new.items ≡ text.old.items ++ media_text self.now) }
    {
        append_lowercase(text, self.main.as_slice())?;
        text.push(b'/')?;
        append_lowercase(text, self.sub.as_slice())
    }
}

// Appends a word in lower case.
fn append_lowercase(text: &mut Vec<u8>, word: &[u8]) -> Result<(), AllocError>
    ensures { OnOk result (text.new.items ≡ text.old.items ++ lowercase_of word.now) }
{
    for octet in word {
        text.push(octet.to_ascii_lowercase())?;
    }
    Ok(())
}

/// A disposition with its parameters (RFC 2183, section 2), as it is written. [`read_disposition`] makes it of a
/// field's value.
#[derive(Drop)]
pub struct Disposition {
    /// The disposition itself, for example `attachment`.
    pub main: Octets,
    /// The parameters, in order.
    pub params: Params,
}

/// Returns the media type in the value of a Content-Type; `None` if the value has no reading.
///
/// For example, `text/plain; charset=UTF-8` is the type `text`, the subtype `plain`, and a parameter with the name
/// `charset` and the value `UTF-8`; `text` alone has no reading.
///
/// # Errors
///
/// `AllocError` if memory is refused; never if the value has no reading.
pub fn read_type(alloc: Global, text: &[u8]) -> Result<Option<MediaType>, AllocError>
    ensures read { IfOk result (λ read. read ≡ media_type_of text.now) }
    ensures without { media_type_of text.now ≡ None → IsOk result }
{
    let Some((main, sub, after)) = names_at(text) else {
        return Ok(None);
    };
    Ok(Some(MediaType {
        main: Octets::from_vec(main.to_vec(alloc)?),
        sub: Octets::from_vec(sub.to_vec(alloc)?),
        params: read_params(alloc, after_gap(after))?,
    }))
}

/// Returns the type and the subtype in the value of a Content-Type; `None` if the value has no reading.
///
/// The parameters aren't read, because they don't change the type. It takes no memory.
pub fn type_names(text: &[u8]) -> Option<(&[u8], &[u8])>
    ensures { MatchOption result (type_names text.now ≡ None) (λ names. type_names text.now
        ≡ Some (names.0.now, names.1.now)) }
{
    let (main, sub, _after) = names_at(text)?;
    Some((main, sub))
}

/// Returns the value of the first parameter with this name in the value of a Content-Type; `None` if there is none.
/// ASCII case of the name is ignored. Other parameters aren't kept.
///
/// # Errors
///
/// `AllocError` if memory is refused; never if there is no such parameter.
pub fn type_param(alloc: Global, text: &[u8], name: &[u8]) -> Result<Option<Octets>, AllocError>
    ensures read { IfOk result (λ value. value ≡ type_param name.now text.now) }
    ensures without { type_param name.now text.now ≡ None → IsOk result }
{
    first_named(alloc, LentParameters::of_type(text), name)
}

/// The type and the subtype in the value of a Content-Type, and the text after them.
#[tactic(auto, unfolding(crate::specs::MediaValue::media_type_of))]
pub(crate) fn names_at(text: &[u8]) -> Option<(&[u8], &[u8], &[u8])>
    ensures { MatchOption result (media_type_of text.now ≡ None)
        (λ read. media_type_of text.now
        ≡ Some (record {
          main = read.0.now;
          sub = read.1.now;
          params = params_in
              (after_gap read.2.now);
        })) }
{
    let (main, after) = token(after_gap(text))?;
    let Some((b'/', after)) = first(after_gap(after)) else {
        return None;
    };
    let (sub, after) = token(after_gap(after))?;
    Some((main, sub, after))
}

/// Returns the disposition in the value of a Content-Disposition; `None` if the value has no reading.
///
/// # Errors
///
/// `AllocError` if memory is refused; never if the value has no reading.
pub fn read_disposition(alloc: Global, text: &[u8]) -> Result<Option<Disposition>, AllocError>
    ensures read { IfOk result (λ read. read ≡ disposition_of text.now) }
    ensures without { disposition_of text.now ≡ None → IsOk result }
{
    let Some((main, after)) = disposition_at(text) else {
        return Ok(None);
    };
    Ok(Some(Disposition {
        main: Octets::from_vec(main.to_vec(alloc)?),
        params: read_params(alloc, after_gap(after))?,
    }))
}

/// Returns the disposition in the value of a Content-Disposition, without its parameters, which aren't read; `None`
/// if the value has no reading. It takes no memory.
pub fn disposition_name(text: &[u8]) -> Option<&[u8]>
    ensures { MatchOption result (disposition_name text.now ≡ None)
        (λ name. disposition_name text.now ≡ Some name.now) }
{
    let (main, _after) = disposition_at(text)?;
    Some(main)
}

/// Returns the value of the first parameter with this name in the value of a Content-Disposition; `None` if there is
/// none. ASCII case of the name is ignored. Other parameters aren't kept.
///
/// # Errors
///
/// `AllocError` if memory is refused; never if there is no such parameter.
pub fn disposition_param(
    alloc: Global,
    text: &[u8],
    name: &[u8],
) -> Result<Option<Octets>, AllocError>
    ensures read { IfOk result (λ value. value ≡ disposition_param name.now text.now) }
    ensures without { disposition_param name.now text.now ≡ None → IsOk result }
{
    first_named(alloc, LentParameters::of_disposition(text), name)
}

/// The disposition of a value, and the text after it.
#[tactic(auto, unfolding(crate::specs::MediaValue::disposition_of))]
pub(crate) fn disposition_at(text: &[u8]) -> Option<(&[u8], &[u8])>
    ensures { MatchOption result (disposition_of text.now ≡ None)
        (λ read. disposition_of text.now ≡ Some (record {
          main = read.0.now;
          params = params_in
              (after_gap read.1.now);
        })) }
{
    token(after_gap(text))
}
