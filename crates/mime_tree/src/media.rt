// The media type and the encoding of a part, by its header.
ghost use Rattle.std.specs.Prelude.{◌≡◌, [], IfOk, IfErr, codes};
ghost use Rattle.std.specs.Option.{option_map, unwrap_or};
ghost use Rattle.std.specs.Cow.{cow_slice_items};
ghost use Rattle.octets.specs.Ascii.{is_word};
ghost use Rattle.header_fields.specs.Fields.{first_value};
ghost use Rattle.mime_tree.specs.PartTree.{is_plain, media_or, encoding_or_7bit, without_params, default_media};
ghost use Rattle.mime_tree.specs.declared.media.DefaultType.{DefaultType};
ghost use Rattle.mime_params.specs.MediaValue.{value_named};

use crate::error::MessageError;
use header_fields::{Field, first_named, unfold};
use mime_params::{MediaType, Params, TransferEncoding, read_type, type_names, type_param};
use octets::{Octets, is_word};
use std::alloc::{AllocError, Global};
use std::borrow::CowSlice;

/// The media type of a part that has no Content-Type.
#[derive(Clone, Copy)]
pub(crate) enum DefaultType {
    /// `text/plain`.
    Text,
    /// `message/rfc822`, directly inside multipart/digest.
    Message,
}

impl DefaultType {
    /// The media type.
    ///
    /// # Errors
    ///
    /// `AllocError` if memory is refused.
    pub(crate) fn media(self, alloc: Global) -> Result<MediaType, AllocError>
        ensures { IfOk result (λ media. media ≡ default_media self) }
    {
        match self {
            DefaultType::Text => without_params(alloc, b"text", b"plain"),
            DefaultType::Message => without_params(alloc, b"message", b"rfc822"),
        }
    }
}

/// The type of a part: that of the names, or its default.
pub(crate) fn main_of(names: &Option<MediaType>, default: DefaultType) -> &[u8]
    ensures { result.now ≡ (unwrap_or names.now (default_media default)).main }
{
    match names {
        Some(media) => media.main.as_slice(),
        None => match default {
            DefaultType::Text => b"text",
            DefaultType::Message => b"message",
        },
    }
}

/// The subtype of a part: that of the names, or its default.
pub(crate) fn sub_of(names: &Option<MediaType>, default: DefaultType) -> &[u8]
    ensures { result.now ≡ (unwrap_or names.now (default_media default)).sub }
{
    match names {
        Some(media) => media.sub.as_slice(),
        None => match default {
            DefaultType::Text => b"plain",
            DefaultType::Message => b"rfc822",
        },
    }
}

// A media type without parameters.
fn without_params(alloc: Global, main: &[u8], sub: &[u8]) -> Result<MediaType, AllocError>
    ensures { IfOk result (λ media. media
        ≡ record { main = main.now; sub = sub.now; params = [] }) }
{
    Ok(MediaType {
        main: Octets::from_vec(main.to_vec(alloc)?),
        sub: Octets::from_vec(sub.to_vec(alloc)?),
        params: Params::none(alloc),
    })
}

/// The media type from the fields of a header: that of the first Content-Type, which is `text/plain` if the field has
/// no reading (RFC 2045, section 5.2).
pub(crate) fn media_of(
    alloc: Global,
    fields: &[Field],
    default: DefaultType,
) -> Result<MediaType, AllocError>
    ensures { IfOk result (λ media. media ≡ media_or (default_media default)
        (first_value (codes "Content-Type") fields.now)) }
{
    let Some(value) = first_value(alloc, fields, b"Content-Type")? else {
        return default.media(alloc);
    };
    match read_type(alloc, value.as_slice())? {
        Some(media) => Ok(media),
        None => DefaultType::Text.media(alloc),
    }
}

/// That media type without its parameters, which aren't read; `None` if the default applies, because no field gives
/// another.
///
/// # Errors
///
/// `AllocError` if memory is refused.
pub(crate) fn media_without_params(
    alloc: Global,
    fields: &[Field],
) -> Result<Option<MediaType>, AllocError>
    ensures { IfOk result (λ media. (default : DefaultType) → unwrap_or media (default_media default)
        ≡ without_params (media_or (default_media default)
        (first_value (codes "Content-Type") fields.now))) }
{
    let Some(value) = first_value(alloc, fields, b"Content-Type")? else {
        return Ok(None);
    };
    match type_names(value.as_slice()) {
        Some((main, sub)) => Ok(Some(without_params(alloc, main, sub)?)),
        None => Ok(Some(DefaultType::Text.media(alloc)?)),
    }
}

/// The value of the first parameter with this name in the first Content-Type. No other is kept; a default has none.
pub(crate) fn media_param(
    alloc: Global,
    fields: &[Field],
    name: &[u8],
) -> Result<Option<Octets>, AllocError>
    ensures { IfOk result (λ value. (default : DefaultType) → value ≡ value_named name.now
        (media_or (default_media default) (first_value (codes "Content-Type") fields.now)).params) }
{
    match first_value(alloc, fields, b"Content-Type")? {
        Some(value) => Ok(type_param(alloc, value.as_slice(), name)?),
        None => Ok(None),
    }
}

/// The encoding from the fields of a header: that of the first Content-Transfer-Encoding, or 7bit (RFC 2045, section
/// 6.1).
pub(crate) fn encoding_of(alloc: Global, fields: &[Field]) -> Result<TransferEncoding, MessageError>
    ensures encoding { IfOk result (λ encoding. encoding ≡ encoding_or_7bit
        (first_value (codes "Content-Transfer-Encoding") fields.now)) }
    ensures refused { IfErr result (λ e. e ≡ MessageError.Memory) }
{
    match first_value(alloc, fields, b"Content-Transfer-Encoding")? {
        Some(value) => Ok(TransferEncoding::of(value.as_slice())),
        None => Ok(TransferEncoding::SevenBit),
    }
}

// The value of the first field with this name.
fn first_value<'a>(
    alloc: Global,
    fields: &[Field<'a>],
    name: &[u8],
) -> Result<Option<CowSlice<'a, u8>>, AllocError>
    ensures { IfOk result (λ value. option_map cow_slice_items value
        ≡ first_value name.now fields.now) }
{
    match first_named(fields, name) {
        Some(field) => Ok(Some(unfold(alloc, field)?)),
        None => Ok(None),
    }
}

/// Whether the body is written as it is, so that it can have parts.
pub(crate) fn is_plain(encoding: TransferEncoding) -> bool
    ensures { result ≡ is_plain encoding }
{
    matches!(
        encoding,
        TransferEncoding::SevenBit | TransferEncoding::EightBit | TransferEncoding::Binary
    )
}
