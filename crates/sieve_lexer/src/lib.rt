//! The tokens of a Sieve script (RFC 5228, sections 2.1 to 2.4 and 8.1).
//!
//! [`tokens`] cuts a script into its tokens or names the octet at which none begins. `specs/Texts` defines tokens,
//! `specs/Separators` what can be between two of them, and `specs/Tokens` the longest match. [`number_of`] and
//! [`string_of`] give the value of a token's text, by `specs/Values`.
//!
//! # Promises
//!
//! ## Tokens
//!
//! The tokens of a script are those of the definition by longest match, or the first byte is named at which none
//! begins. A script has at most one list of tokens. A script above the limit is refused as such even if memory has run
//! out.
//!
//! By `tokens`, `number_of`, `string_of`; laws `tokens_are_unique`, `fault_is_unique`, `tokens_have_no_fault`.
#![tactic(auto)]

mod error;
pub mod laws;
mod multi_line;
mod quoted;
mod reader;
mod separators;
mod token;
mod value;
mod word;

pub use error::LexicalError;
pub use reader::tokens;
pub use token::{Token, TokenKind};
pub use value::{number_of, string_of};
pub use word::{begins_identifier, continues_identifier};

/// The largest number of bytes of a script.
pub const MAX_SCRIPT: usize = 65536;
