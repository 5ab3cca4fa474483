//! Mail messages as filters see them.
//!
//! A [`Message`] is read from any octets within the limits of octets and parts. A contract sees it as the record
//! `Mail` (`specs/Mail`), for which `IsMail` holds: the machine and the meaning of scripts know nothing else about a
//! message. `specs/Content` defines what the body of a part decodes to, and `specs/Visited` which parts a loop visits.
//!
//! # Promises
//!
//! ## Reading a message
//!
//! A message is read exactly if it is within the limits of bytes and parts. The content of a part is its body, decoded
//! by its encoding. It is no longer than the body, and is lent if nothing is decoded, so the contents of all parts
//! have together at most 32 times the bytes of the message. A content's digest is its SHA-256. What filters can rely
//! on for every read message is proved once (`IsMail`). A message that is too long is reported as such even if memory
//! has run out.
//!
//! By `Message`, `digest_of`; laws `content_is_no_longer_than_its_body`, `what_is_read_is_a_mail`,
//! `contents_fit_once_at_each_depth`.
//!
//! ## What a loop visits
//!
//! A loop at a part visits the parts below it, in order; a loop outside of loops visits all parts.
//!
//! By `Message::visited`.
#![tactic(auto)]

mod content;
pub mod laws;
mod message;

pub use content::digest_of;
pub use message::Message;
pub use mime_tree::{MAX_MESSAGE, MAX_PARTS, MessageError};
