//! The parts of a mail message (RFC 2046, section 5; RFC 2045, sections 5 and 6).
//!
//! [`Tree::read`] reads any octets within the limits of octets and parts. `specs/PartTree` defines the parts of a
//! message, and `specs/Order` and the laws say where they are in it. The reader goes over the lines of a message once,
//! and over those of headers once more for their fields; a law says that this finds where each part ends.
//!
//! # Promises
//!
//! ## The tree of parts
//!
//! A message has exactly the tree of parts that the definition gives, or is refused: for too many bytes, otherwise for
//! too many parts.
//!
//! The headers of different parts are disjoint, and the fields of all parts fit into the message. The parts below a
//! part come right after it, nested. Each part is a stretch of the message. It ends at the first line after its
//! beginning that is a delimiter or closing line of any multipart around it. Parts at one depth share no byte, so all
//! parts together have at most 32 times the bytes of the message.
//!
//! By `Tree`; laws `headers_are_apart`, `fields_fit_into_the_message`, `first_part_is_the_message`, `parts_nest`,
//! `parts_stand_in_the_message`, `any_multipart_around_ends_a_part`, `parts_at_one_depth_are_apart`,
//! `parts_fit_once_at_each_depth`.
#![tactic(auto)]

mod delimiter;
mod error;
mod hit;
pub mod laws;
mod lengths;
mod media;
mod open_part;
mod part;
mod reader;
mod run;
mod tree;
mod type_texts;

pub use error::MessageError;
pub use tree::Tree;
pub use type_texts::{TypeText, TypeTexts};

/// The largest number of bytes of a message.
pub const MAX_MESSAGE: usize = 67_108_864;

/// The largest number of parts of a message.
pub const MAX_PARTS: usize = 4096;

/// The greatest depth of a part, where the message itself has depth 1.
pub const MAX_DEPTH: usize = 32;

/// How many bytes of a field are read each time that its type is asked for. If they don't settle the type, the tree
/// keeps a short text with it.
pub const TYPE_START: usize = 128;
