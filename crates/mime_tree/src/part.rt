// A part of a message.
//
// A part keeps the type and the subtype of its Content-Type, and no parameter, because a stranger can write sixteen
// million of them. Parameters are read when they are asked for: one by its name (`type_param`, `disposition_param`),
// or one after the other (`LentParameters`). A kept one is owned, because an unfolded value doesn't live as long.
ghost use Rattle.std.specs.Prelude.{◌≡◌, ◌-◌, ◌≤◌, length, take, IfOk, IfErr};
ghost use Rattle.std.specs.Option.{option_map};
ghost use Rattle.mime_params.specs.MediaValue.{value_named};
ghost use Rattle.mime_tree.specs.PartTree.{body_of, default_below, without_params, default_media, message_rfc822, text_plain};
ghost use Rattle.mime_tree.specs.TypeTexts.{AreTypeTexts};
ghost use Rattle.mime_tree.specs.OpenParts.{boundary_inside, holds_message, part_read};

use crate::error::MessageError;
use crate::media::{
    DefaultType, encoding_of, is_plain, main_of, media_of, media_param, media_without_params,
    sub_of,
};
use crate::type_texts::TypeTexts;
use header_fields::Header;
use mime_params::{MediaType, TransferEncoding};
use octets::{Octets, is_word, trim_trailing_blanks};
use std::alloc::{AllocError, Global};
use std::marker::Model;

/// A part of a message, over bytes that are lent.
///
/// A contract sees the part of the definition.
#[derive(Drop)]
pub(crate) struct Part<'a> {
    depth: usize,
    below: usize,
    place: usize,
    raw: &'a [u8],
    header: Header<'a>,
    // The type of a part without a Content-Type.
    default: DefaultType,
    // Its media type without the parameters, which can be millions and are read when they are asked for. If it is the
    // default, nothing is kept.
    names: Option<MediaType>,
    // The types of its long fields.
    types: TypeTexts,
    encoding: TransferEncoding,
}

impl<'a> Model for Part<'a> {
    ghost use Rattle.std.specs.Prelude.{◌≡◌, codes};
    ghost use Rattle.header_fields.specs.Fields.{first_value};
    ghost use Rattle.mime_tree.specs.PartTree.{Part, media_or, default_media};

    ghost Value = { Part };

    ghost view = { λ p. record {
      depth = p.depth;
      below = p.below;
      place = p.place;
      raw = p.raw.now;
      header = p.header;
      media = media_or (default_media p.default)
          (first_value (codes "Content-Type") p.header.fields);
      encoding = p.encoding;
    } };

    ghost use Rattle.mime_tree.specs.PartTree.{without_params};
    ghost use Rattle.mime_tree.specs.TypeTexts.{AreTypeTexts};
    ghost use Rattle.std.specs.Option.{unwrap_or};

    ghost invariant = { λ p. (unwrap_or p.names (default_media p.default) ≡ without_params (media_or (default_media p.default)
        (first_value (codes "Content-Type") p.header.fields)))
        × AreTypeTexts p.header.fields p.types };
}

impl<'a> Part<'a> {
    /// The part of this depth that begins at this place with these bytes, so many of which are its header's. Its end,
    /// and how many parts are below it, aren't known here.
    ///
    /// The only error is `Memory`, if memory is refused.
    pub(crate) fn read(
        alloc: Global,
        depth: usize,
        default: DefaultType,
        place: usize,
        rest: &'a [u8],
        header: usize,
    ) -> Result<Part<'a>, MessageError>
        requires { header ≤ length rest.now }
        ensures part { IfOk result (λ part. part ≡ part_read depth
            (default_media default) place rest.now header) }
        ensures refused { IfErr result (λ e. e ≡ MessageError.Memory) }
    {
        let header = Header::read(alloc, &rest[..header])?;
        let names = media_without_params(alloc, header.fields())?;
        let types = TypeTexts::read(alloc, header.fields())?;
        let encoding = encoding_of(alloc, header.fields())?;
        Ok(Part {
            depth,
            below: 0,
            place,
            raw: rest,
            header,
            default,
            names,
            types,
            encoding,
        })
    }

    /// Ends it at a place of the message, with so many parts below it.
    pub(crate) fn end(&mut self, end: usize, below: usize)
        ensures { self.new ≡ record self.old {
          below = below;
          raw = take
              (end - self.old.place) self.old.raw;
        } }
    {
        let length = end.saturating_sub(self.place).min(self.raw.len());
        self.raw = &self.raw[..length];
        self.below = below;
    }

    /// Its depth, where the message itself has depth 1.
    pub(crate) fn depth(&self) -> usize
        ensures { result ≡ self.now.depth }
    {
        self.depth
    }

    /// How many parts are below it.
    pub(crate) fn below(&self) -> usize
        ensures { result ≡ self.now.below }
    {
        self.below
    }

    /// The boundary between its children, if it can have several.
    pub(crate) fn boundary(&self, alloc: Global) -> Result<Option<Vec<u8>>, AllocError>
        ensures { IfOk result (λ boundary. option_map (λ v. v.items) boundary
            ≡ boundary_inside self.now) }
    {
        if !is_plain(self.encoding) || !is_word(self.main(), b"multipart") {
            return Ok(None);
        }
        let Some(value) = self.media_param(alloc, b"boundary")? else {
            return Ok(None);
        };
        let boundary = trim_trailing_blanks(value.as_slice());
        if boundary.is_empty() {
            return Ok(None);
        }
        Ok(Some(boundary.to_vec(alloc)?))
    }

    /// Whether its body is a message, its only child.
    pub(crate) fn holds_message(&self) -> bool
        ensures { result ≡ holds_message self.now }
    {
        is_plain(self.encoding)
            && is_word(self.main(), b"message")
            && is_word(self.sub(), b"rfc822")
    }

    /// The media type of a child of it that has no Content-Type.
    pub(crate) fn default_below(&self) -> DefaultType
        ensures { default_media result ≡ default_below self.now.media }
    {
        if is_word(self.main(), b"multipart") && is_word(self.sub(), b"digest") {
            DefaultType::Message
        } else {
            DefaultType::Text
        }
    }

    /// Its bytes.
    pub(crate) fn raw(&self) -> &'a [u8]
        ensures { result.now ≡ self.now.raw }
    {
        self.raw
    }

    /// Its bytes after its header.
    pub(crate) fn body(&self) -> &'a [u8]
        requires { self.now.header.body_start ≤ length self.now.raw }
        ensures { result.now ≡ body_of self.now }
    {
        &self.raw[self.header.body_start()..]
    }

    /// Its header.
    pub(crate) fn header(&self) -> &Header<'a>
        ensures { result.now ≡ self.now.header }
    {
        &self.header
    }

    /// Its media type without the parameters: the one in its header, or one of these two, which a part without a
    /// Content-Type has.
    pub(crate) fn media_without_params<'s>(
        &'s self,
        text: &'s MediaType,
        message: &'s MediaType,
    ) -> &'s MediaType
        requires text { text.now ≡ text_plain }
        requires message { message.now ≡ message_rfc822 }
        ensures { result.now ≡ without_params self.now.media }
    {
        match &self.names {
            Some(media) => media,
            None => match self.default {
                DefaultType::Text => text,
                DefaultType::Message => message,
            },
        }
    }

    // Its type.
    fn main(&self) -> &[u8]
        ensures { result.now ≡ self.now.media.main }
    {
        main_of(&self.names, self.default)
    }

    // Its subtype.
    fn sub(&self) -> &[u8]
        ensures { result.now ≡ self.now.media.sub }
    {
        sub_of(&self.names, self.default)
    }

    /// The texts with the types of its long fields.
    pub(crate) fn type_texts(&self) -> &TypeTexts
        ensures { AreTypeTexts self.now.header.fields result.now }
    {
        &self.types
    }

    /// Its media type.
    pub(crate) fn media(&self, alloc: Global) -> Result<MediaType, AllocError>
        ensures { IfOk result (λ media. media ≡ self.now.media) }
    {
        media_of(alloc, self.header.fields(), self.default)
    }

    /// The value of the first parameter of its media type with this name.
    pub(crate) fn media_param(
        &self,
        alloc: Global,
        name: &[u8],
    ) -> Result<Option<Octets>, AllocError>
        ensures { IfOk result (λ value. value ≡ value_named name.now self.now.media.params) }
    {
        media_param(alloc, self.header.fields(), name)
    }

    /// How its body is encoded.
    pub(crate) fn encoding(&self) -> TransferEncoding
        ensures { result ≡ self.now.encoding }
    {
        self.encoding
    }
}
