//! Octets in lanes: the alphabets of RFC 4648, 32 octets at a time.
//!
//! Each call is its definition in `specs/`: a class or a symbol is that of the alphabet's table, lane by lane; a split
//! or a join keeps the bits; and a text is the encoding of its octets, at every length.
//!
//! The general encoder and reader are here, next to the four kernels, for all three alphabets. `lanes_base32` and
//! `lanes_base64_mime` add strictness and lines. `Spells` is the bare equation. The laws assume that the members of a
//! text are bytes.
//!
//! The gate builds for x86-64-v2, so 32 lanes are two SSE registers of 16.
//!
//! # Promises
//!
//! ## Lanes
//!
//! `classify`, `spell` and `ascii_upper_lanes` take 32 bytes at once, and give for each what its table has. `close_up`
//! moves the values among 32 classes together. A text in an alphabet is written and read as its definition says, at
//! every length, also if it is read in pieces. A text spells at most one list of bytes, and what was written is read
//! back.
//!
//! By `classify`, `close_up`, `spell`, `ascii_upper_lanes`, `encode`, `append_encoding`, `Held`; laws
//! `spells_at_most_one`, `reads_what_was_written`.
#![tactic(auto)]

mod alphabet;
mod classes;
mod close;
mod groups;
pub mod laws;
mod operations;
mod reader;
mod text;

pub use alphabet::{Alphabet, PADDING, STRAY};
pub use classes::{ascii_upper_lanes, classify, has_stray, spell};
pub use close::close_up;
pub use groups::{join, split};
pub use operations::{plus, where_equal, where_from};
pub use reader::{Held, block_octets};
pub use text::{append_encoding, block_symbols, block_text, encode};
