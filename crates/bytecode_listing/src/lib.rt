//! Bytecode that people can read and write: programs as listings.
//!
//! # Promises
//!
//! ## Listings
//!
//! ### What a listing has
//!
//! A program's listing is its text for people: the version, the number of variables, the numbers, the strings between
//! quotes, and each instruction at its place, by the name or the byte of its operation, with the fields that aren't 0.
//! A comment of at most 128 bytes shows the string, number or place that an instruction refers to, or a test's fields
//! in words.
//!
//! ### What a listing adds to it
//!
//! For an accepted program another comment, of at most 64 bytes, shows what each instruction adds to which sums of the
//! budget; for a refused one, the number and the name of the refusal, at its place.
//!
//! By `disassemble`, `disassemble_accepted`, `disassemble_refused`, and `Operation::name` of bytecode_format; laws
//! `listings_have_no_fault`, `comments_are_short`.
//!
//! ## Assembling
//!
//! A listing is read exactly if it is a program within the limits, and that program is the answer: labels are the
//! places of instructions, words mean the numbers of a test's fields, and a string in a line is the first such in the
//! table, or is added to it. Otherwise the answer is the kind of the fault and its place: the first token that can't
//! be there, the first label that is defined again, the first name that is no label, or the listing's end if the
//! limits are exceeded.
//!
//! By `assemble`.
//!
//! ## A listing and its program
//!
//! What is disassembled is assembled as the same program, byte for byte, and only memory keeps it from being read
//! (clause `listed`). A listing is at most one program. Each word has one number and each number one word, and what a
//! comment shows of a test's field is read as that field.
//!
//! By `disassemble`, `disassemble_accepted`, `disassemble_refused`; laws `listings_say_their_programs`,
//! `one_program_for_a_listing`, `words_and_numbers`, `words_say_their_numbers`, `read_again`.
#![tactic(auto)]

mod assembling;
mod comments;
mod drafts;
mod error;
mod items;
mod labels;
pub mod laws;
mod names;
mod notes;
mod strings;
mod tokens;
mod wording;
mod writing;

pub use assembling::assemble;
pub use error::ListingError;
pub use writing::{disassemble, disassemble_accepted, disassemble_refused, put_instruction};
