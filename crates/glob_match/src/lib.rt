//! Matching of a text with a key under a comparator (RFC 5228, sections 2.7.1 and 2.7.3; RFC 5229, section 3.2).
//!
//! [`is`] answers whether the text is the key, [`contains`] whether a stretch of it is, and [`matches`] whether it
//! fits a key with wildcards, and which stretches the wildcards matched. `specs/Matching` defines what fits, and which
//! of several lists of stretches is taken. Only [`Captures::gathered`] takes memory; the other calls can't fail.
//!
//! # Promises
//!
//! ## Matching
//!
//! Equality, containment and wildcards are their definitions under both comparators. If the wildcards of a key can
//! match in several ways, the one whose stretches have the least lengths, compared from the left, is taken. The number
//! in the answer estimates the work: it is at most the product of the two lengths, each plus 1, and, if the key fits,
//! at least the number of bytes that the key spells. Capture 0 is the value, and captures 1 to 9 are the stretches of
//! the first nine wildcards, at their places, each cut off as a variable is. Captures can be gathered as their texts,
//! one after another, with their places.
//!
//! By `is`, `contains`, `matches`, `Captures`; laws `least_fit_is_the_least`, `none_where_nothing_fits`,
//! `match_is_captured`, `captures_are_unique`, `captures_stand_in_the_value`, `is_means_equal`,
//! `contains_means_a_stretch`.
#![tactic(auto)]

mod captures;
mod comparator;
mod containment;
mod equality;
mod fold;
mod lanes;
pub mod laws;
mod match_type;
mod matching;
mod placement;
mod search;
mod segment;
mod token;

pub use captures::{Captures, MAX_CAPTURE, MAX_CAPTURES, Stretch};
pub use comparator::Comparator;
pub use containment::contains;
pub use equality::is;
pub use match_type::{Match, MatchType};
pub use matching::matches;
