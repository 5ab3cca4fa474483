//! Base32 and base32hex (RFC 4648, sections 6 and 7): the text of octets, and the octets of a text.
//!
//! A decoder gives the octets that the text spells, and refuses a text that spells none.
//!
//! # Promises
//!
//! ## Base32
//!
//! Base32 and base32hex are written by the definition, and read exactly if a text spells bytes.
//!
//! By `encode32`, `encode32hex`, `decode32`, `decode32hex`.
#![tactic(auto)]

mod decode;
mod encode;
mod error;

pub use decode::{decode32, decode32hex};
pub use encode::{encode32, encode32hex};
pub use error::Refusal;
