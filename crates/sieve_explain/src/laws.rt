//! The laws of explanations: a script has one explanation, its marks are under what is at fault, and it can be printed
//! anywhere, as the explanation of a listing can. If a note says that no message has something, or that a key never
//! matches, then that is so by the definitions of the libraries that read and match messages.
ghost use Rattle.std.specs.Prelude.{◌≡◌, ◌≤◌, ℕ, false, nat_lt, length, IsTrue, List, None, Option, Some};
ghost use Rattle.std.specs.Char.{is_ascii_uppercase};
ghost use Rattle.std.specs.List.{All, list_any};
ghost use Rattle.refusals.specs.declared.fault_kind.FaultKind.{FaultKind};
ghost use Rattle.glob_match.specs.Comparison.{is_match};
ghost use Rattle.glob_match.specs.Containment.{contains_match};
ghost use Rattle.glob_match.specs.declared.comparator.Comparator.{Comparator};
ghost use Rattle.glob_match.specs.declared.comparator.Comparator.TheVariants.{Octet};
ghost use Rattle.header_fields.specs.Fields.{first_value};
ghost use Rattle.header_fields.specs.Header.{fields_of};
ghost use Rattle.mime_decode.specs.Content.{digest_of};
ghost use Rattle.octets.specs.Ascii.{lowercase_of};
ghost use Rattle.octets.specs.Limits.{max_message, max_value};
ghost use Rattle.refusals.specs.declared.refusal.Refusal.{Refusal};
ghost use Rattle.sieve_check.specs.Rules.{reasons_of};
ghost use Rattle.sieve_lexer.specs.Tokens.{AreTokens};
ghost use Rattle.sieve_lexer.specs.declared.token.Token.{Token};
ghost use Rattle.sieve_parser.specs.Scripts.{IsParsed};
ghost use Rattle.sieve_parser.specs.Tree.{CommandsTree};
ghost use Rattle.sieve_explain.specs.Explaining.{Explains, IsExplained, IsMarked, IsRemarked, answer_of, listing_told};
ghost use Rattle.sieve_explain.specs.Notes.{is_digest, is_large, is_noted_text};
ghost use Rattle.sieve_explain.specs.Printable.{IsAsciiOrVisible, IsReadable, have_no_controls};
ghost use Rattle.sieve_explain.specs.declared.explanation.Explanation.{Explanation};
ghost use Rattle.sieve_explain.specs.declared.notes.NoteKind.TheVariants.{CapitalKey, Colon, LongKey, NoDigest, Space};

use sieve_lexer::laws::tokens_are_unique;
use sieve_parser::laws::{
    parsed_scripts_have_no_fault, parsed_trees_are_unique, refusals_are_unique,
};

/// The description of a script's refusal is one text, because a script has at most one list of tokens and one tree. So
/// it also has one answer: it has no fault, or it has this refusal and this text. The text of its notes is unique too.
pub fn explanations_are_unique()
    ensures texts { (name script : List ℕ) (refusal : Refusal) (text other : List ℕ)
        → Explains name script refusal text → Explains name script refusal other → text ≡ other }
    ensures answers { (name script : List ℕ) (found other : Option Explanation)
        → IsExplained name script found → IsExplained name script other
        → answer_of found ≡ answer_of other }
    ensures remarks { (name script text other : List ℕ)
        → IsRemarked name script text → IsRemarked name script other → text ≡ other }
{
    tokens_are_unique();
    parsed_trees_are_unique();
    refusals_are_unique();
    parsed_scripts_have_no_fault();
}

/// Each mark for a script that the rules refuse is under the name of the command or test, under a string of its own
/// arguments that is no capability, or under a word after these arguments that replaces a missing string.
pub fn marks_stand_under_faults()
    ensures { (script : List ℕ) (tokens : List Token) (commands : CommandsTree)
        → AreTokens script tokens → IsParsed script commands
        → All (IsMarked script tokens) (reasons_of commands) }
{
    tokens_are_unique();
}

/// The description of a refusal has no ASCII control characters except line breaks, whoever wrote the script and named
/// its file. If the name is ASCII, or UTF-8 whose characters are of ASCII or visible, then the description is UTF-8 of
/// visible characters and line breaks: without control characters, without those that turn the direction of writing, and
/// without other bytes.
pub fn explanations_are_printable()
    ensures whole { (name script : List ℕ) (refusal : Refusal) (text : List ℕ)
        → Explains name script refusal text → IsTrue (have_no_controls text) }
    ensures readable { (name script : List ℕ) (refusal : Refusal) (text : List ℕ)
        → IsAsciiOrVisible name → Explains name script refusal text → IsReadable text }
{}

/// The notes on a script can be printed as well, whoever wrote the script and named its file.
pub fn remarks_are_printable()
    ensures whole { (name script text : List ℕ) → IsRemarked name script text
        → IsTrue (have_no_controls text) }
    ensures readable { (name script text : List ℕ) → IsAsciiOrVisible name
        → IsRemarked name script text → IsReadable text }
{}

/// The description of a listing's fault can be printed as well.
pub fn listing_explanations_are_printable()
    ensures whole { (name listing : List ℕ) (place : ℕ) (kind : FaultKind)
        → IsTrue (have_no_controls (listing_told name listing place kind)) }
    ensures readable { (name listing : List ℕ) (place : ℕ) (kind : FaultKind)
        → IsAsciiOrVisible name → IsReadable (listing_told name listing place kind) }
{}

/// No header has a field whose name ends in a colon or contains a blank, as the notes on such names say.
pub fn noted_names_are_no_fields()
    ensures colon { (text name : List ℕ) → IsTrue (is_noted_text Colon name)
        → first_value name (fields_of text) ≡ None }
    ensures blank { (text name : List ℕ) → IsTrue (is_noted_text Space name)
        → first_value name (fields_of text) ≡ None }
{}

/// The digest of each part is 64 hexadecimal digits with lower-case letters, so it isn't a key of `partdigest` on which
/// a note says that no part has it.
pub fn digests_have_digits()
    ensures digits { (octets : List ℕ) → IsTrue (is_digest (digest_of octets)) }
    ensures keys { (octets key : List ℕ) → IsTrue (is_noted_text NoDigest key)
        → is_match Octet (digest_of octets) key ≡ false }
{}

/// A key that a note calls too long matches no value of a variable, by `:is` or `:contains`: a value is cut to
/// [`MAX_VALUE`](octets::MAX_VALUE) bytes. A key with upper-case letters matches no value without them under `i;octet`,
/// and `:lower` leaves none.
pub fn noted_keys_never_match()
    ensures long { (comparator : Comparator) (value key : List ℕ) → length value ≤ max_value
        → IsTrue (is_noted_text LongKey key)
        → (is_match comparator value key ≡ false) × (contains_match comparator value key ≡ false) }
    ensures capital { (value key : List ℕ) → list_any is_ascii_uppercase value ≡ false
        → IsTrue (is_noted_text CapitalKey key)
        → (is_match Octet value key ≡ false) × (contains_match Octet value key ≡ false) }
    ensures lower { (text : List ℕ) → list_any is_ascii_uppercase (lowercase_of text) ≡ false }
{}

/// No message has more bytes than the number of a `size :over` that is noted: a message has at most 67,108,864.
pub fn large_sizes_are_never_passed()
    ensures { (message : List ℕ) (number : ℕ) → length message ≤ max_message
        → IsTrue (is_large (Some number)) → nat_lt number (length message) ≡ false }
{}
