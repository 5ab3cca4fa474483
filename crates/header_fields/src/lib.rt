//! The header of a mail message or part: its fields, and where its body begins (RFC 5322, section 2.2; RFC 2045,
//! section 3).
//!
//! [`Header::read`] reads any octets. `specs/Header` defines the fields of a header, their names and values,
//! `specs/Fields` the record of a field and the first field of a name, and `specs/Extent` how long fields are compared
//! with their lines. [`Header::by_name`] lends the fields for searches by a [`Name`].
//!
//! # Promises
//!
//! ## Header fields
//!
//! A header is its fields in order and the place where the body begins. A value is unfolded. It is shorter than its
//! field's lines, and no two fields share a byte. The length of a value is known without unfolding it, and its first
//! bytes can be unfolded without the rest: so many, or all, without the blanks at their end. A value that isn't folded
//! is lent and takes no memory. The first field of a name is found exactly if there is one. The hashes that speed up
//! the search for a name never change what is found.
//!
//! By `Header::read`, `fields`, `by_name`, `body_start`, `NamedFields::at`, `NamedField::is_named`, `first_named`,
//! `Field::name`, `name_is`, `unfold`, `unfold_start`, `unfolded_length`; laws
//! `values_are_shorter_than_their_lines`, `lines_of_fields_are_apart`, `values_fit_into_the_header`,
//! `body_starts_within_the_text`, `header_stands_alone`.
#![tactic(auto)]

mod field;
mod field_line;
mod header;
pub mod laws;
mod lookup;
mod name;
mod named;
mod unfolding;

pub use field::{Field, name_is, unfold, unfold_start, unfolded_length};
pub use header::Header;
pub use lookup::first_named;
pub use name::Name;
pub use named::{NamedField, NamedFields};
