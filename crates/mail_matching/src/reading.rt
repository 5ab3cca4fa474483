// Readings of a field's value: no more of it is read than is asked for.
ghost use Rattle.std.specs.Prelude.{◌≡◌, IfOk, codes};
ghost use Rattle.std.specs.Cow.{cow_slice_items};
ghost use Rattle.mime_params.specs.MediaValue.{disposition_name, disposition_of, media_type_of, type_names};
ghost use Rattle.octets.specs.Ascii.{is_word};
ghost use Rattle.mail_matching.specs.Selection.{as_disposition, as_media, content_type_of, main_of, params_of, reading_of, sub_of};
ghost use Rattle.mime_tree.specs.TypeTexts.{IsTypeText};

use crate::typed::TypedField;
use header_fields::{Field, name_is, unfold, unfold_start};
use mime_params::{
    LentParameters, disposition_name, settles_disposition, settles_type, type_names,
};
use mime_tree::TYPE_START;
use std::alloc::{AllocError, Global};
use std::borrow::CowSlice;

/// A text that the field's type can be read in: the short one that is kept for a long field, a start of its value
/// that settles it, or the whole value. It is empty if the field isn't one of the two that have a type.
///
/// # Errors
///
/// `AllocError` if memory is refused.
pub(crate) fn type_text<'a>(
    alloc: Global,
    field: &TypedField<'a, '_>,
) -> Result<CowSlice<'a, u8>, AllocError>
    ensures { IfOk result (λ text. IsTypeText field.now (cow_slice_items text)) }
{
    if let Some(text) = field.type_text() {
        return Ok(CowSlice::Borrowed(text));
    }
    if is_content_type(field) {
        media_text(alloc, field.field())
    } else if is_content_disposition(field) {
        disposition_text(alloc, field.field())
    } else {
        Ok(CowSlice::Borrowed(b""))
    }
}

// A text with the type and the subtype of the value of a Content-Type.
fn media_text<'a>(alloc: Global, field: &Field<'a>) -> Result<CowSlice<'a, u8>, AllocError>
    ensures { IfOk result (λ text. type_names (cow_slice_items text) ≡ type_names field.now.value) }
{
    let start = unfold_start(alloc, field, TYPE_START)?;
    if settles_type(start.as_slice()) {
        return Ok(start);
    }
    Ok(unfold(alloc, field)?)
}

// A text with the disposition of the value of a Content-Disposition.
fn disposition_text<'a>(alloc: Global, field: &Field<'a>) -> Result<CowSlice<'a, u8>, AllocError>
    ensures { IfOk result (λ text. disposition_name (cow_slice_items text)
        ≡ disposition_name field.now.value) }
{
    let start = unfold_start(alloc, field, TYPE_START)?;
    if settles_disposition(start.as_slice()) {
        return Ok(start);
    }
    Ok(unfold(alloc, field)?)
}

/// The type, or the disposition, in the text; empty if there is none.
pub(crate) fn main_of<'t>(field: &TypedField, text: &'t [u8]) -> &'t [u8]
    requires { IsTypeText field.now text.now }
    ensures { result.now ≡ main_of (reading_of field.now) }
{
    if is_content_type(field) {
        main_in(text)
    } else if is_content_disposition(field) {
        disposition_in(text)
    } else {
        b""
    }
}

/// The subtype in the text; empty if there is none.
pub(crate) fn sub_of<'t>(field: &TypedField, text: &'t [u8]) -> &'t [u8]
    requires { IsTypeText field.now text.now }
    ensures { result.now ≡ sub_of (reading_of field.now) }
{
    if !is_content_type(field) {
        return b"";
    }
    sub_in(text)
}

/// The type, a slash and the subtype, or the disposition, in the text; empty if there are none.
///
/// # Errors
///
/// `AllocError` if memory is refused.
pub(crate) fn content_type_of<'v>(
    alloc: Global,
    field: &TypedField,
    text: &[u8],
) -> Result<CowSlice<'v, u8>, AllocError>
    requires { IsTypeText field.now text.now }
    ensures { IfOk result (λ octets. cow_slice_items octets
        ≡ content_type_of (reading_of field.now)) }
{
    if is_content_type(field) {
        content_type_in(alloc, text)
    } else {
        Ok(CowSlice::Owned(main_of(field, text).to_vec(alloc)?))
    }
}

/// The parameters of the field's value.
pub(crate) fn params_in<'v>(field: &TypedField, value: &'v [u8]) -> LentParameters<'v>
    requires { value.now ≡ field.now.value }
    ensures { result ≡ params_of (reading_of field.now) }
{
    if is_content_type(field) {
        LentParameters::of_type(value)
    } else if is_content_disposition(field) {
        LentParameters::of_disposition(value)
    } else {
        LentParameters::of(value)
    }
}

// The type in the value of a Content-Type.
fn main_in(text: &[u8]) -> &[u8]
    ensures { result.now ≡ main_of (as_media (media_type_of text.now)) }
{
    match type_names(text) {
        Some((main, _sub)) => main,
        None => b"",
    }
}

// The subtype in the value of a Content-Type.
fn sub_in(text: &[u8]) -> &[u8]
    ensures { result.now ≡ sub_of (as_media (media_type_of text.now)) }
{
    match type_names(text) {
        Some((_main, sub)) => sub,
        None => b"",
    }
}

// The type, a slash and the subtype in the value of a Content-Type.
fn content_type_in<'v>(alloc: Global, text: &[u8]) -> Result<CowSlice<'v, u8>, AllocError>
    ensures { IfOk result (λ octets. cow_slice_items octets
        ≡ content_type_of (as_media (media_type_of text.now))) }
{
    let Some((main, sub)) = type_names(text) else {
        return Ok(CowSlice::Borrowed(b""));
    };
    let mut octets = main.to_vec(alloc)?;
    octets.push(b'/')?;
    octets.extend_from_slice(sub)?;
    Ok(CowSlice::Owned(octets))
}

// The disposition in the value of a Content-Disposition.
fn disposition_in(text: &[u8]) -> &[u8]
    ensures { result.now ≡ main_of (as_disposition (disposition_of text.now)) }
{
    disposition_name(text).unwrap_or(b"")
}

fn is_content_type(field: &TypedField) -> bool
    ensures { result ≡ is_word field.now.name (codes "Content-Type") }
{
    name_is(field.field(), b"Content-Type")
}

fn is_content_disposition(field: &TypedField) -> bool
    ensures { result ≡ is_word field.now.name (codes "Content-Disposition") }
{
    name_is(field.field(), b"Content-Disposition")
}
