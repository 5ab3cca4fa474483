// Short texts with the types of long fields.
ghost use Rattle.std.specs.Prelude.{◌≡◌, IfOk, IfSome};
ghost use Rattle.std.specs.List.{Contains};
ghost use Rattle.mime_params.specs.MediaValue.{disposition_name, type_names};
ghost use Rattle.octets.specs.Ascii.{is_word};
ghost use Rattle.mime_tree.specs.TypeTexts.{AreTypeTexts, IsTypeText};

use crate::TYPE_START;
use header_fields::{Field, name_is, unfold, unfold_start};
use mime_params::{disposition_text, settles_disposition, settles_type, type_text};
use octets::Octets;
use std::alloc::{AllocError, Global};
use std::marker::Model;

/// A short text with the type of a field. [`TypeTexts`] keeps it.
#[derive(Drop)]
pub struct TypeText {
    /// The field's place in its header, counted in fields from 0.
    pub place: usize,
    /// A text with the field's type, or its disposition, and nothing else.
    pub text: Octets,
}

/// The short texts that are kept for a header: one for each Content-Type and Content-Disposition that is longer than
/// [`TYPE_START`] and whose type its first so many bytes don't settle. So such a field is read once, however often
/// its type is asked for.
///
/// The texts together have no more bytes than those fields, and there is at most one for each [`TYPE_START`] bytes of
/// the header. [`crate::Tree::type_texts`] gives them. A contract sees their list.
#[derive(Drop)]
pub struct TypeTexts {
    // In the order of their places.
    texts: Vec<TypeText>,
}

impl Model for TypeTexts {
    ghost use Rattle.std.specs.Prelude.{List};
    ghost use Rattle.mime_tree.specs.declared.type_texts.TypeText.{TypeText};

    ghost Value = { List TypeText };

    ghost view = { λ t. t.texts.items };
}

impl TypeTexts {
    /// The texts for the fields of a header.
    ///
    /// # Errors
    ///
    /// `AllocError` if memory is refused.
    pub(crate) fn read(alloc: Global, fields: &[Field]) -> Result<TypeTexts, AllocError>
        ensures { IfOk result (λ texts. AreTypeTexts fields.now texts) }
    {
        let mut texts = Vec::new(alloc);
        for place in 0..fields.len() {
            if let Some(text) = kept_text(alloc, &fields[place])? {
                texts.push(TypeText { place, text })?;
            }
        }
        Ok(TypeTexts { texts })
    }

    /// Returns the text that is kept for the field at this place, counted in fields from 0; `None` if there is none.
    /// It takes no memory.
    pub fn at(&self, place: usize) -> Option<&[u8]>
        ensures { IfSome result (λ text. Contains self.now (record { place = place; text = text.now })) }
    {
        let first = self.texts.partition_point(|kept| kept.place < place);
        let kept = self.texts.get(first)?;
        if kept.place == place {
            Some(kept.text.as_slice())
        } else {
            None
        }
    }
}

// The text to keep for a field, or `None` if it needs none.
fn kept_text(alloc: Global, field: &Field) -> Result<Option<Octets>, AllocError>
    ensures { IfOk result (λ kept. IfSome kept (λ text. IsTypeText field.now text)) }
{
    if field.extent() <= TYPE_START {
        return Ok(None);
    }
    if is_named(field, b"Content-Type") {
        return kept_type(alloc, field);
    }
    if is_named(field, b"Content-Disposition") {
        return kept_disposition(alloc, field);
    }
    Ok(None)
}

// The same of a Content-Type.
fn kept_type(alloc: Global, field: &Field) -> Result<Option<Octets>, AllocError>
    ensures { IfOk result (λ kept. IfSome kept (λ text. type_names text ≡ type_names field.now.value)) }
{
    let start = unfold_start(alloc, field, TYPE_START)?;
    if settles_type(start.as_slice()) {
        return Ok(None);
    }
    let value = unfold(alloc, field)?;
    Ok(Some(type_text(alloc, value.as_slice())?))
}

// The same of a Content-Disposition.
fn kept_disposition(alloc: Global, field: &Field) -> Result<Option<Octets>, AllocError>
    ensures { IfOk result (λ kept. IfSome kept (λ text. disposition_name text
        ≡ disposition_name field.now.value)) }
{
    let start = unfold_start(alloc, field, TYPE_START)?;
    if settles_disposition(start.as_slice()) {
        return Ok(None);
    }
    let value = unfold(alloc, field)?;
    Ok(Some(disposition_text(alloc, value.as_slice())?))
}

// Whether the field has the name; ASCII case is ignored.
fn is_named(field: &Field, name: &[u8]) -> bool
    ensures { result ≡ is_word field.now.name name.now }
{
    name_is(field, name)
}
