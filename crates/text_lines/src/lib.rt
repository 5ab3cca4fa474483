//! The lines of a text. CRLF ends a line (RFC 5322, section 2.1), and a bare LF too.
//!
//! [`Lines`] goes over a text line by line, without allocating. `specs/Lines` defines the lines of a text.
//!
//! # Promises
//!
//! ## Lines of a text
//!
//! The lines of a text are given one after another, without memory. Together they make the text, they end at breaks,
//! and no other lines do both.
//!
//! By `Lines`; laws `lines_make_the_text`, `lines_end_at_breaks`, `lines_are_unique`.
#![tactic(auto)]

pub mod laws;
mod line;
mod lines;

pub use line::Line;
pub use lines::Lines;
