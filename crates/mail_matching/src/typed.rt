// Fields with what is kept of their types.
ghost use Rattle.std.specs.Prelude.{◌≡◌, ◌<◌, ◌==◌, IfSome, length, slice_index_or};
ghost use Rattle.octets.specs.Ascii.{is_word};
ghost use Rattle.mime_tree.specs.TypeTexts.{AreTypeTexts, IsTypeText};

use header_fields::{Field, Name, NamedField, NamedFields};
use mime_tree::TypeTexts;
use std::marker::Model;

/// The fields of a header, and the texts that are kept for the types of the long ones.
///
/// A contract sees the list of the fields.
#[derive(Drop)]
pub(crate) struct TypedFields<'a, 'm> {
    fields: &'a NamedFields<'m>,
    types: &'a TypeTexts,
}

impl<'a, 'm> Model for TypedFields<'a, 'm> {
    ghost use Rattle.std.specs.Prelude.{List};
    ghost use Rattle.header_fields.specs.Fields.{Field};
    ghost use Rattle.mime_tree.specs.TypeTexts.{AreTypeTexts};

    ghost Value = { List Field };

    ghost view = { λ t. t.fields.now };

    ghost invariant = { λ t. AreTypeTexts t.fields.now t.types.now };
}

impl<'a, 'm> TypedFields<'a, 'm> {
    /// These fields, with these texts.
    pub(crate) fn new(fields: &'a NamedFields<'m>, types: &'a TypeTexts) -> TypedFields<'a, 'm>
        requires { AreTypeTexts fields.now types.now }
        ensures { result ≡ fields.now }
    {
        TypedFields { fields, types }
    }

    /// How many fields there are.
    pub(crate) fn count(&self) -> usize
        ensures { result ≡ length self.now }
    {
        self.fields.as_slice().len()
    }

    /// Whether there are no fields.
    pub(crate) fn is_empty(&self) -> bool
        ensures { result ≡ (length self.now == 0) }
    {
        self.fields.as_slice().is_empty()
    }

    /// The field at a place, counted from 0.
    pub(crate) fn at(&self, place: usize) -> TypedField<'a, 'm>
        requires { place < length self.now }
        ensures { result ≡ slice_index_or self.now place result }
    {
        let TypedFields { fields, types } = *self;
        TypedField {
            field: fields.at(place),
            types,
            place,
        }
    }
}

/// A field, and the text that is kept for its type, if there is one.
///
/// A contract sees the field.
#[derive(Drop)]
pub(crate) struct TypedField<'a, 'm> {
    field: NamedField<'a, 'm>,
    types: &'a TypeTexts,
    // Its place in its header.
    place: usize,
}

impl<'a, 'm> Model for TypedField<'a, 'm> {
    ghost use Rattle.header_fields.specs.Fields.{Field};
    ghost use Rattle.mail_matching.specs.Readings.{AreOfField};

    ghost Value = { Field };

    ghost view = { λ t. t.field };

    ghost invariant = { λ t. AreOfField t.field t.place t.types.now };
}

impl<'a, 'm> TypedField<'a, 'm> {
    /// The field.
    pub(crate) fn field(&self) -> &'a Field<'m>
        ensures { result.now ≡ self.now }
    {
        self.field.field()
    }

    /// Whether the field has the name, but for ASCII case.
    #[inline(always)]
    pub(crate) fn is_named(&self, name: &Name) -> bool
        ensures { result ≡ is_word self.now.name name.now }
    {
        self.field.is_named(name)
    }

    /// A text with its type, if one is kept.
    pub(crate) fn type_text(&self) -> Option<&'a [u8]>
        ensures { IfSome result (λ text. IsTypeText self.now text.now) }
    {
        self.types.at(self.place)
    }
}
