//! Quoted-printable (RFC 2045, section 6.7), both ways. Any text is read, and what was written is read back.
//!
//! `specs/QuotedPrintable` defines what a text decodes to, and how octets are written.
//!
//! # Promises
//!
//! ## Quoted-printable
//!
//! Quoted-printable texts are read and written by their definition, whole or in any pieces. A reader of pieces appends
//! as much as is known after each and keeps the least. What was written is read back, and no text decodes to more
//! bytes than it has.
//!
//! By `decode_qp`, `QpDecoder`, `encode_qp`, `encode_qp_line`; laws `reads_what_was_written`,
//! `text_is_its_first_line_and_the_rest`, `decoding_is_no_longer_than_the_text`, `pieces_are_read_as_their_text`,
//! `reads_as_much_as_any`.
#![tactic(auto)]

mod decode;
mod decoder;
mod encode;
mod lanes;
pub mod laws;

pub use decode::decode_qp;
pub use decoder::QpDecoder;
pub use encode::{encode_qp, encode_qp_line};
