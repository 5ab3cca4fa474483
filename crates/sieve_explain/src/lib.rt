//! Why a script is refused, in plain words for the person who wrote it.
//!
//! [`explain`] gives the refusal of a script and a text for it, [`listing_explanation`] a text for the fault of a
//! program's listing. The text is a line with the name of the script, the line and the column, and a sentence about
//! what is wrong there, then the line of the script, and a mark under the place. If the checker refuses a script, each
//! command and test that it refuses has such a text, up to [`MAX_REASONS`](sieve_check::MAX_REASONS) reasons, and a
//! note says whether there are more. Another note says that the file begins as a program or a mail does.
//! [`remarks_on`] gives notes on a script without faults: which tests and commands can't mean what they say.
//!
//! `specs/Explaining` has the text of each refusal, `specs/Faults`, `specs/Reasons` and `specs/Hints` its sentences,
//! `specs/Words` the words that are one letter off, `specs/Marks` what is looked for among the tokens, and
//! `specs/Notes` the notes, in a table of their sentences and conditions. `specs/Places` of readable_text defines
//! lines. `specs/Characters` reads the characters of a text, and `specs/Shown` escapes and cuts them.
//!
//! # Promises
//!
//! ## Explanations
//!
//! ### What an explanation says
//!
//! What is printed for a refused script is the definition's text: its name, the line and column of the byte or token
//! that the refusal names, or of the string that is no capability, a sentence for the reason, the line after two
//! spaces, and a mark under the place. The column is counted in characters. The mark stands after as many columns of a
//! terminal as the line takes before the place. For a refusal by the rules each further command and test that they refuse
//! follows; at the end of a script also the place of its last open brace.
//!
//! ### Marks and hints
//!
//! The mark of a refusal by the rules is at one of three places:
//!
//! - under the name of the command or test;
//! - under a string among its own arguments whose value is the capability that the sentence names;
//! - if a string is missing, under a word directly behind the arguments that begins no command or test and is no tag
//!   (behind `require`: any word).
//!
//! A name that depot doesn't have, and a name one letter off from one that it has, are reported as such.
//!
//! ### Notes behind an explanation
//!
//! If more is refused than is reported, a last line says so; after everything a note says that the file begins as a
//! program or a mail does. No refusal is reported for a script without faults. A script has at most one answer.
//!
//! ### Notes on a script without faults
//!
//! They are printed in the order of the script's commands and tests, with line, column, sentence, source line and mark
//! as for an error, and `note` instead of `error`. A command or test has at most one, of the kinds in the table of
//! `specs/Notes`. At most twenty are printed; if there are more, a last line says so. A script has at most one such
//! text. If a note says that a name, a digest, a key or a size is impossible, there is a law about it: no header has a
//! field of that name, no part has that digest, no value that the variable can have matches that key, and no message is
//! larger than that size.
//!
//! ### What an explanation consists of
//!
//! These texts have no ASCII control characters except line breaks. If the name of the file is UTF-8 whose characters
//! are of ASCII or visible, then these texts are UTF-8 of visible characters and line breaks: control characters,
//! characters that turn the direction of writing or show nothing, and bytes that aren't UTF-8 are escaped. For a listing
//! with a fault the text has the same form, with a sentence for the kind of the fault.
//!
//! By `explain`, `remarks_on`, `listing_explanation`; laws `explanations_are_unique`, `marks_stand_under_faults`,
//! `explanations_are_printable`, `remarks_are_printable`, `listing_explanations_are_printable`,
//! `noted_names_are_no_fields`, `digests_have_digits`, `noted_keys_never_match`, `large_sizes_are_never_passed`.
#![tactic(auto)]

mod characters;
mod excerpt;
mod explaining;
mod explanation;
mod faults;
mod hints;
pub mod laws;
mod marks;
mod notes;
mod reasons;
mod remarks;
mod sentence;
mod shown;
mod words;

pub use explaining::{explain, listing_explanation, remarks_on};
pub use explanation::Explanation;
