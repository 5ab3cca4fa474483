//! Printing on pages: lines, quoted bytes, the lines of a run and of a refusal.
//!
//! A printer adds exactly its text (`specs/Printed`, `specs/Pieces`) to a [`Page`](devices::Page). It returns nothing
//! and takes no memory: the page remembers whether a call of its sink has failed, and the caller that made the page
//! looks for that once, when it flushes the page. [`put_printed`] does this for a value that is printed as one text.
//!
//! Decimal digits are written by `itoa`, which has a buffer of its own.
//!
//! # Promises
//!
//! ## What is printed on a page
//!
//! Bytes between double quotes, and texts that anyone can have written, are printed with all except printable
//! characters escaped (a text keeps its line breaks). A run has a line for each of its actions, in their order, or the
//! line `none`; and then one with its charge and its limit. A refusal is one line: its number, its name, and its place
//! if it has one.
//!
//! Over a sink, such a text is written whole, or its beginning if a call of the sink fails.
//!
//! By `print`, `print_line`, `print_text`, `print_run`, `print_wrote`, `print_refusal`; over a sink by `put_printed`.
#![tactic(auto)]

mod piece;
mod printing;
mod writing;

pub use piece::{Piece, Setting};
pub use printing::{print, print_line, print_refusal, print_run, print_text, print_wrote};
pub use writing::{Printable, WroteFile, put_printed};
