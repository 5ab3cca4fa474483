//! MIME base64 (RFC 2045, section 6.8): lines of 76 characters, and a reader that skips characters that are no symbol.
//!
//! # Promises
//!
//! ## MIME base64
//!
//! MIME base64 is written in lines and read over stray characters by its definition, whole or in any pieces. A refused
//! piece leaves decoder and output as they were. What was written is read back. The room that is asked for is enough
//! for the whole; to decode, it is at most 6 bytes more than the text has.
//!
//! By `encode_mime`, `decode_mime`, `decoding_room`, `Decoder`; laws `reads_what_was_written`, `pieces_are_the_text`.
#![tactic(auto)]

mod decode;
mod encode;
pub mod laws;

pub use decode::{Decoder, decode_mime, decoding_room};
pub use encode::encode_mime;
