//! Catalogs, which describe the entries of a user for other programs: a line for each entry, in JSON (RFC 8259).
//!
//! [`keep`] gives what a catalog needs of an entry and its content, [`keep_again`] what it needs of another entry with the
//! same content, and [`catalog_text`] makes the catalog of what they gave for all entries of a user; so a content is read
//! once, and none is kept. `specs/Catalog` defines the text.
//! [`message_line`] gives the line of a message, [`part_line`] that of a part, and a [`PartIndex`] finds the parts of
//! messages among a user's entries, and the messages of a part entry. `specs/Lines` defines the lines, `specs/Texts` what
//! they have for bytes that people chose, `specs/Fields` the header fields, and `specs/Stored` which entries have the
//! content of a part of a message.
//!
//! The answers of a batch in JSON have texts as [`text_value`] makes them.
//!
//! # Promises
//!
//! ## The text of a catalog
//!
//! A catalog above a number is exactly the lines of the entries with larger numbers, in the order of the entries, each
//! with a line break. What a line says is made of the entry and its content: the size and the SHA-256 are those of the
//! content. Which messages and parts belong together is looked for among all entries of the user, also those that have no
//! line.
//!
//! The time grows with the contents, with the number of entries and parts times its logarithm, and with the places that
//! are printed; this is not proved.
//!
//! By `keep`, `keep_again`, `catalog_text`.
//!
//! ## Lines of a catalog
//!
//! A line is one JSON object with exactly the members of its definition, without blanks and without a line break. It is
//! UTF-8, and a JSON reader finds the object that was written. Its members are in the order of their names, byte by
//! byte. Folders, names, media types and the values of fields can have any bytes: if they are UTF-8, they are a string,
//! and otherwise an object whose member `base64` encodes them, so a reader finds the same bytes. Nothing else is
//! decoded. Of the header fields that a line has, a value is that of the first field with its name, unfolded.
//!
//! The caller of `message_line` and `part_line` gives an entry's number, size and SHA-256; a line has what it gives. The
//! entries that have the content of a part of a message are found by the SHA-256 of the parts' contents, each at the
//! first part that has its content, and so are the messages that have the content of an entry. Both are in the order in
//! which the caller gives them.
//!
//! By `message_line`, `part_line`, `PartIndex`, `text_value`; laws `texts_are_read_back`, `lines_have_no_line_break`,
//! `fields_are_the_first_of_their_names`.
#![tactic(auto)]

mod catalog;
mod entry;
mod fields;
mod index;
mod keeping;
pub mod laws;
mod line;
mod outline;
mod stored;
mod text;

pub use catalog::catalog_text;
pub use entry::{Entry, Listed, PartEntry, Place};
pub use index::{PartIndex, Slot};
pub use keeping::{Kept, keep, keep_again};
pub use line::{message_line, part_line};
pub use outline::Outline;
pub use text::text_value;
