// The names and media types of parts (RFC 2183, section 2.3; RFC 2045, section 5.1).
ghost use Rattle.std.specs.Prelude.{◌≡◌, ◌<◌, IfOk, Some, codes, length, option_map};
ghost use Rattle.std.specs.List.{HoldsAt};
ghost use Rattle.header_fields.specs.Fields.{first_value};
ghost use Rattle.mime_decode.specs.Mail.{part_of};
ghost use Rattle.mime_params.specs.MediaValue.{media_text};
ghost use Rattle.depot_actions.specs.Drafts.{file_name_in, name_of};

use header_fields::{Field, first_named, unfold};
use mime_params::{MediaType, disposition_param};
use mime_tree::Tree;
use std::alloc::{AllocError, Global};

/// The name of a part: the file name of its first Content-Disposition; without one, the parameter `name` of its media
/// type; empty if it has neither.
///
/// # Requires
///
/// The tree has such a part: `part` is less than the number of parts.
///
/// # Errors
///
/// `AllocError` if memory is refused.
pub(crate) fn part_name(alloc: Global, tree: &Tree<'_>, part: usize) -> Result<Vec<u8>, AllocError>
    requires { part < length tree.now }
    ensures { HoldsAt (λ p. IfOk result (λ name. name.items ≡ name_of (part_of p))) tree.now part }
{
    if let Some(name) = file_name(alloc, tree.header(part).fields())? {
        return Ok(name);
    }
    match tree.media_param(alloc, part, b"name")? {
        Some(name) => Ok(name.into_vec()),
        None => Ok(Vec::new(alloc)),
    }
}

/// A media type without its parameters, in lower case.
///
/// # Errors
///
/// `AllocError` if memory is refused.
pub(crate) fn media_text(alloc: Global, media: &MediaType) -> Result<Vec<u8>, AllocError>
    ensures { IfOk result (λ text. text.items ≡ media_text media.now) }
{
    let mut text = Vec::new(alloc);
    media.append_text(&mut text)?;
    Ok(text)
}

// The file name in the first Content-Disposition, if there is one.
fn file_name(alloc: Global, fields: &[Field]) -> Result<Option<Vec<u8>>, AllocError>
    ensures { IfOk result (λ name. option_map (λ v. v.items) name
        ≡ file_name_in (first_value (codes "Content-Disposition") fields.now)) }
{
    match first_named(fields, b"Content-Disposition") {
        Some(field) => file_name_of(alloc, unfold(alloc, field)?.as_slice()),
        None => Ok(None),
    }
}

// The file name in the value of a Content-Disposition, if there is one.
fn file_name_of(alloc: Global, value: &[u8]) -> Result<Option<Vec<u8>>, AllocError>
    ensures { IfOk result (λ name. option_map (λ v. v.items) name ≡ file_name_in (Some value.now)) }
{
    match disposition_param(alloc, value, b"filename")? {
        Some(name) => Ok(Some(name.into_vec())),
        None => Ok(None),
    }
}
