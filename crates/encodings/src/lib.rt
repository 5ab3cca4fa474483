//! Bytes as texts in an encoding.
//!
//! [`encode`] writes bytes in an [`Encoding`], and [`decode`] reads them back: exactly the bytes that the text reads
//! as (`specs/Texts`), or `NotCanonical` if there are none. [`put_text`] writes the text of bytes to a sink, a piece
//! at a time.
//!
//! Base16 reads either case, as RFC 4648 allows and the crate `hex` does; the other strict encodings read only what
//! they write.
//!
//! # Promises
//!
//! ## Texts in an encoding
//!
//! What is written in an encoding is its text. A text is read exactly if it is the text of some bytes: in base16
//! without case, in MIME base64 by its bits, in quoted-printable by its lines. What was written is read back, and a
//! text reads as at most one list of bytes. In every encoding except quoted-printable the text of bytes is the texts of
//! their pieces, one after another, if each piece before the last is whole groups, or whole lines of MIME base64.
//!
//! By `encode`, `decode`; laws `reads_at_most_one`, `reads_what_was_written`, `text_is_the_texts_of_its_pieces`.
//!
//! ## A text that is written
//!
//! The text of bytes in an encoding is written whole, or a prefix of it if the writer fails or memory is refused; for
//! raw bytes memory can't be refused.
//!
//! By `put_text`.
#![tactic(auto)]

mod encoding;
mod exporting;
pub mod laws;
mod names;

pub use encoding::{Encoding, decode, encode};
pub use exporting::put_text;
