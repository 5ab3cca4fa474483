//! Octets: the owned octet string, the case of ASCII letters, blanks, escapes in quoted texts, and limits.
//!
//! Most other crates use these definitions. `specs/Ascii` defines equality without ASCII case, `specs/Blank` the
//! blanks SP and TAB at the ends of a text, and `specs/Escapes` which octet two hexadecimal digits write.
//!
//! `specs/Once` defines lists in which each element is kept once, at its first place. A program's numbers and strings
//! and a run's actions are such lists. They share its lemmas, not their code: the list of actions only needs to know
//! whether an action is listed, and the table needs a number's place.
//!
//! # Promises
//!
//! ## Octets
//!
//! An owned string of bytes is the list that it was made from. Upper and lower case and blanks are as defined. So is
//! what a quoted text shows of a byte: the byte itself, or two hexadecimal digits after a backslash.
//!
//! By `equal_ignoring_case`, `is_word`, `to_uppercase`, `to_lowercase`, `trim_blanks`, `trim_leading_blanks`,
//! `trim_trailing_blanks`, `first`, `octet_of_digits`, `said_of`, `Octets`.
#![tactic(auto)]

mod ascii;
mod blank;
mod escape;
mod limits;
mod one_at_a_time;
mod owned;

pub use ascii::{equal_ignoring_case, is_word, to_lowercase, to_uppercase};
pub use blank::{trim_blanks, trim_leading_blanks, trim_trailing_blanks};
pub use escape::{octet_of_digits, said_of};
pub use limits::{MAX_STRING, MAX_VALUE};
pub use one_at_a_time::first;
pub use owned::Octets;
