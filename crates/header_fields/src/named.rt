// Fields that are looked up by name.
ghost use Rattle.std.specs.Prelude.{◌≡◌, ◌<◌, length, slice_index_or};
ghost use Rattle.octets.specs.Ascii.{is_word};
ghost use Rattle.header_fields.specs.Hashes.{hashes_of};

use crate::field::{Field, name_is};
use crate::name::Name;
use std::marker::Model;

/// The fields of a header with a hash of each name, which takes four bytes. A search for a name reads the hashes, and
/// only the fields whose hash is that of the name.
///
/// [`crate::Header::by_name`] lends them. A contract sees the list of the fields.
#[derive(Drop)]
pub struct NamedFields<'a> {
    fields: Vec<Field<'a>>,
    hashes: Vec<u32>,
}

impl<'a> Model for NamedFields<'a> {
    ghost use Rattle.std.specs.Prelude.{◌≡◌, List};
    ghost use Rattle.header_fields.specs.Fields.{Field};
    ghost use Rattle.header_fields.specs.Hashes.{hashes_of};

    ghost Value = { List Field };

    ghost view = { λ n. n.fields.items };

    ghost invariant = { λ n. n.hashes.items ≡ hashes_of n.fields.items };
}

impl<'a> NamedFields<'a> {
    // The fields with the hashes of their names.
    pub(crate) fn new(mut fields: Vec<Field<'a>>, mut hashes: Vec<u32>) -> NamedFields<'a>
        requires { hashes.items ≡ hashes_of fields.items }
        ensures { result ≡ fields.entry.items }
    {
        fields.shrink_to_fit();
        hashes.shrink_to_fit();
        NamedFields { fields, hashes }
    }

    /// Returns the fields, in order.
    pub fn as_slice(&self) -> &[Field<'a>]
        ensures { result.now ≡ self.now }
    {
        self.fields.as_slice()
    }

    /// Returns the field at a place, counted from 0, with the hash of its name. The field isn't read.
    ///
    /// # Requires
    ///
    /// The place is less than the number of fields.
    #[inline(always)]
    pub fn at(&self, place: usize) -> NamedField<'_, 'a>
        requires { place < length self.now }
        ensures { result ≡ slice_index_or self.now place result }
    {
        NamedField {
            field: &self.fields[place],
            hash: self.hashes[place],
        }
    }
}

/// A field with the hash of its name.
///
/// [`NamedFields::at`] makes it. A contract sees the field.
#[derive(Drop)]
pub struct NamedField<'f, 'a> {
    field: &'f Field<'a>,
    hash: u32,
}

impl<'f, 'a> Model for NamedField<'f, 'a> {
    ghost use Rattle.std.specs.Prelude.{◌≡◌};
    ghost use Rattle.header_fields.specs.Fields.{Field};
    ghost use Rattle.header_fields.specs.Hashes.{hash_of};

    ghost Value = { Field };

    ghost view = { λ n. n.field.now };

    ghost invariant = { λ n. n.hash ≡ hash_of n.field.now.name };
}

impl<'f, 'a> NamedField<'f, 'a> {
    /// Returns the field itself, with its value.
    pub fn field(&self) -> &'f Field<'a>
        ensures { result.now ≡ self.now }
    {
        self.field
    }

    /// Returns whether the field has this name. ASCII case is ignored (RFC 5322, section 1.2.2). The field itself is
    /// read only if the hashes are equal.
    #[inline(always)]
    #[tactic(auto, using(crate::proofs::Hashing::other_name))]
    pub fn is_named(&self, name: &Name) -> bool
        ensures { result ≡ is_word self.now.name name.now }
    {
        self.hash == name.hash && has_name(self.field, name.octets)
    }
}

// Whether the field has this name.
#[inline(never)]
fn has_name(field: &Field, name: &[u8]) -> bool
    ensures { result ≡ is_word field.now.name name.now }
{
    name_is(field, name)
}
