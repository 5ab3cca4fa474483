//! The sinks that take bytes, the sources that give them, and pages.
//!
//! A [`Sink`] takes bytes. A contract sees the bytes that it took, if they are known, and how many of its calls have
//! failed (`specs/Device`). [`OfWrite`] makes a sink of a writer, and [`put`] writes all of some bytes to a sink. A
//! [`Page`] is a buffer in front of a sink that remembers whether a call has failed (`specs/Pages`).
//!
//! A [`Source`] gives bytes. A contract sees those that are left, if they are known, how many it gave, whether the last
//! read met the end, and how many reads have failed (`specs/Supply`). [`OfRead`] makes a source of a reader.
//!
//! # Promises
//!
//! ## What is written
//!
//! If a writer fails, or takes 0 of some bytes, that counts as one failure of the sink, and what was written before is
//! a prefix. What is written to a page reaches the sink whole and in order when the page is flushed, or a prefix of it
//! does and one call has failed.
//!
//! By `Sink`, `OfWrite`, `put`, `Page`.
//!
//! ## What a reader gives
//!
//! If a read gives nothing although there is room, it has met the end of the source; otherwise it hasn't.
//!
//! By `Source`, `OfRead`.
#![tactic(auto)]

mod ghost_text;
mod page;
mod sink;
mod source;

pub use page::Page;
pub use sink::{DeviceFailed, MAX_TRIES, OfWrite, Sink, put};
pub use source::{OfRead, Source};
