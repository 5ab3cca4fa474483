// What is said about a script that isn't parsed.
ghost use Rattle.std.specs.Prelude.{◌≡◌, ◌≤◌, bytes_eq, length, map, take, take_while};
ghost use Rattle.sieve_explain.specs.Faults.{beginnings, begins_as_mail, dark_at, is_dark, is_field_octet, is_symbol, lexical_blanks, listing_blanks, listing_text, look_text, misplaced_text, more_blanks, misplaced_token, other_text, symbol_at, text_at, token_blanks, too_deep_blanks, too_long_blanks, unclosed_blanks, word_blanks};
ghost use Rattle.sieve_explain.specs.Explaining.{misplaced_blanks};
ghost use Rattle.sieve_explain.specs.Private.{beginning_of, blanks_of};

use crate::characters::first_octets;
use crate::marks::{is_word_in_list, text_of};
use crate::sentence::{Sentence, plain};
use crate::words::with_words;
use readable_text::places::around;
use refusals::FaultKind;
use sieve_check::MAX_REASONS;
use sieve_lexer::{MAX_SCRIPT, Token, TokenKind};
use sieve_parser::MAX_NESTING;

// The beginning of something that is neither a token nor a separator: its first bytes, and what is said about it.
type Beginning = (&'static [u8], &'static str);

const TYPOGRAPHIC: &str =
    "this is a typographic quote: put strings in straight double quotes, \"like this\"";

// A byte order mark, the four typographic quotes, a single quote, and two slashes; then what is never closed, a colon
// without a name, and the operators of other languages.
const BEGINNINGS: &[Beginning] = &[
    (
        &[0xef, 0xbb, 0xbf],
        "this is a byte order mark: save the script as UTF-8 without one",
    ),
    (&[0xe2, 0x80, 0x98], TYPOGRAPHIC),
    (&[0xe2, 0x80, 0x99], TYPOGRAPHIC),
    (&[0xe2, 0x80, 0x9c], TYPOGRAPHIC),
    (&[0xe2, 0x80, 0x9d], TYPOGRAPHIC),
    (
        b"'",
        "this is a single quote: put strings in double quotes, \"like this\"",
    ),
    (
        b"//",
        "this begins no comment: write `&` before it, or put it between `/*` and `*/`",
    ),
    (
        b"\"",
        "a string is never closed: this quote, or one before it, has no partner",
    ),
    (b"/*", "this comment is never closed: add `*/` at its end"),
    (b":", "this colon has no tag name directly after it"),
    (
        b"&",
        "Sieve has no @: write `allof (.., ..)`, which is true if all of its tests are",
    ),
    (
        b"|",
        "Sieve has no @: write `anyof (.., ..)`, which is true if one of its tests is",
    ),
    (
        b">",
        "Sieve has no @: write `:over` before the number, as in `size :over 100K`",
    ),
    (
        b"<",
        "Sieve has no @: write `:under` before the number, as in `size :under 100K`",
    ),
    (
        b"=",
        "Sieve has no @: write `:is` before the strings, as in `header :is \"Subject\" \"text\"`",
    ),
    (
        b"!",
        "Sieve has no @: write `not` before the test, as in `not exists \"Subject\"`",
    ),
];

// Whether the text begins with these bytes.
fn begins_with(text: &[u8], octets: &[u8]) -> bool
    ensures { result ≡ bytes_eq (take (length octets.now) text.now) octets.now }
{
    let (start, _) = around(text, octets.len());
    start == octets
}

// The text of the first row with whose bytes `rest` begins, or nothing.
fn text_at(rest: &[u8], rows: &[Beginning]) -> &'static str
    ensures { result.now ≡ text_at rest.now (map beginning_of rows.now) }
{
    for (octets, text) in rows {
        if begins_with(rest, octets) {
            return text;
        }
    }
    ""
}

// What is said about bytes that begin as one of the rows does.
#[tactic(auto, unfolding(crate::specs::Faults::beginnings))]
fn beginning_text(rest: &[u8]) -> &'static str
    ensures { result.now ≡ text_at rest.now beginnings }
{
    text_at(rest, BEGINNINGS)
}

// The text for other bytes at which neither a token nor a separator begins.
fn other_text(rest: &[u8]) -> &'static str
    ensures { result.now ≡ other_text rest.now }
{
    match rest {
        [octet, ..] if octet.is_ascii_digit() => "this number is too large: the largest is %",
        [octet, ..] if octet.is_ascii_alphabetic() || *octet == b'_' => {
            "this multi-line string is never closed: end it with a line that has only a dot, and a line break after it"
        }
        _ => "@ isn't allowed outside of strings and comments",
    }
}

// Whether operators of other languages are written with this byte.
fn is_symbol(octet: &&u8) -> bool
    ensures { result ≡ is_symbol octet.now.now }
{
    matches!(**octet, b'&' | b'|' | b'<' | b'>' | b'=' | b'!')
}

// How many such bytes come first.
fn symbol_length(rest: &[u8]) -> usize
    ensures { result ≡ length (take_while is_symbol rest.now) }
{
    rest.iter().take_while(is_symbol).count()
}

// The whole operator with which the bytes begin, or the first character, or a byte that begins none.
fn symbol_at(rest: &[u8]) -> &[u8]
    ensures { result.now ≡ symbol_at rest.now }
{
    let size = symbol_length(rest);
    if size > 0 {
        let (symbol, _) = around(rest, size);
        symbol
    } else {
        first_octets(rest)
    }
}

/// The sentence for bytes at which neither a token nor a separator begins.
#[tactic(auto, unfolding(crate::specs::Faults::lexical_blanks))]
pub fn lexical_sentence(rest: &[u8]) -> Sentence<'_>
    ensures { blanks_of result ≡ lexical_blanks rest.now }
{
    let text = beginning_text(rest);
    Sentence {
        text: with_words(text, text, other_text(rest)),
        name: symbol_at(rest),
        subject: &[],
        words: "#",
        others: "",
        number: u64::MAX,
    }
}

/// The sentence after the last reason that is printed.
pub fn more_sentence() -> Sentence<'static>
    ensures { blanks_of result ≡ more_blanks }
{
    Sentence {
        number: MAX_REASONS as u64,
        ..plain("only the first % errors are shown")
    }
}

// Whether the byte is allowed in the name of a header field at the beginning of a mail.
fn is_field_octet(octet: &&u8) -> bool
    ensures { result ≡ is_field_octet octet.now.now }
{
    octet.is_ascii_alphabetic() || **octet == b'-'
}

// How many such bytes come first.
fn name_length(file: &[u8]) -> usize
    ensures { result ≡ length (take_while is_field_octet file.now) }
{
    file.iter().take_while(is_field_octet).count()
}

// Whether a header field comes first: its name, a colon and a blank.
fn begins_as_mail(file: &[u8]) -> bool
    ensures { result ≡ begins_as_mail file.now }
{
    let length = name_length(file);
    let (_, rest) = around(file, length);
    length > 0 && begins_with(rest, b": ")
}

/// What is said about a refused file that begins as a program or a mail does; otherwise nothing.
#[tactic(auto, unfolding(crate::specs::Faults::look_text))]
pub fn look_text(file: &[u8]) -> &'static str
    ensures { result.now ≡ look_text file.now }
{
    if begins_with(file, b"SVBC") {
        "the file begins like a compiled program: `depot disassemble` prints the instructions of one"
    } else if begins_as_mail(file) {
        "the file begins with a header field, like a mail: is it a script?"
    } else {
        ""
    }
}

/// The sentence for a listing's fault of this kind, with what is at its place.
#[tactic(auto, unfolding(crate::specs::Faults::listing_blanks))]
pub fn listing_sentence(kind: FaultKind, rest: &[u8]) -> Sentence<'_>
    ensures { blanks_of result ≡ listing_blanks kind rest.now }
{
    Sentence {
        name: dark_at(rest),
        ..plain(listing_text(kind, rest))
    }
}

// The text of that sentence.
fn listing_text(kind: FaultKind, rest: &[u8]) -> &'static str
    ensures { result.now ≡ listing_text kind rest.now }
{
    match kind {
        FaultKind::Misplaced => misplaced_text(rest),
        FaultKind::SecondLabel => "the label @ is defined a second time",
        FaultKind::NoLabel => "@ is neither a number nor a label of this listing",
        FaultKind::Limits => "the program exceeds the limits for programs",
    }
}

// The text for something that isn't allowed at its place in a listing, or for the listing's end.
fn misplaced_text(rest: &[u8]) -> &'static str
    ensures { result.now ≡ misplaced_text rest.now }
{
    match rest {
        [] => "the listing ends before its program is complete",
        [b'"', ..] => {
            "no string is allowed here, or this one is never closed, too long, or has a backslash without two hexadecimal digits"
        }
        _ => {
            "@ isn't allowed here: the version and the variables are followed by numbers, strings, and then instructions with their fields"
        }
    }
}

// The bytes up to the next blank; none at the end.
fn dark_at(rest: &[u8]) -> &[u8]
    ensures { result.now ≡ dark_at rest.now }
{
    match rest {
        [] => rest,
        [_, others @ ..] => &rest[..dark_length(others) + 1],
    }
}

// Whether the byte isn't a blank.
fn is_dark(octet: &&u8) -> bool
    ensures { result ≡ is_dark octet.now.now }
{
    **octet > b' '
}

// How many bytes there are up to the next blank.
fn dark_length(octets: &[u8]) -> usize
    ensures value { result ≡ length (take_while is_dark octets.now) }
    ensures bound { result ≤ length octets.now }
{
    octets.iter().take_while(is_dark).count()
}

/// The sentence for a script that is too long.
pub fn too_long_sentence() -> Sentence<'static>
    ensures { blanks_of result ≡ too_long_blanks }
{
    Sentence {
        number: MAX_SCRIPT as u64,
        ..plain("the script has more than % bytes")
    }
}

// The text of the sentence for a token of this kind that isn't allowed in its place.
#[tactic(auto, unfolding(crate::specs::Faults::misplaced_token))]
fn misplaced_token(kind: TokenKind) -> &'static str
    ensures { result.now ≡ misplaced_token kind }
{
    match kind {
        TokenKind::Identifier => {
            "@ isn't allowed here: is a brace or a semicolon missing before it?"
        }
        TokenKind::Tag | TokenKind::Number => {
            "@ isn't allowed here: arguments come directly after the name of their command or test"
        }
        TokenKind::QuotedString | TokenKind::MultiLineString => {
            "@ isn't allowed here: is a comma missing before it, or the name of its command or test?"
        }
        TokenKind::Semicolon => {
            "@ isn't allowed here: is it one too many, or is a bracket missing before it?"
        }
        TokenKind::Comma => {
            "@ isn't allowed here: put a list of strings in square brackets, and tests in round ones after `allof` or `anyof`"
        }
        TokenKind::OpeningBrace => {
            "@ isn't allowed here: is a bracket missing before it, or its command?"
        }
        TokenKind::ClosingBrace => {
            "@ isn't allowed here: is a semicolon missing before it, or its opening brace?"
        }
        TokenKind::OpeningParenthesis => {
            "@ isn't allowed here: round brackets come after the name of a test, around tests"
        }
        TokenKind::ClosingParenthesis => {
            "@ isn't allowed here: is a test missing before it, or its opening bracket?"
        }
        TokenKind::OpeningBracket => {
            "@ isn't allowed here: square brackets come after a name, around strings"
        }
        TokenKind::ClosingBracket => {
            "@ isn't allowed here: is a string missing before it, or its opening bracket?"
        }
    }
}

/// The sentence for a word in the place of a string.
pub fn word_sentence(word: &[u8]) -> Sentence<'_>
    ensures { blanks_of result ≡ word_blanks word.now }
{
    Sentence {
        name: word,
        ..plain("@ should be a string: put it in quotation marks, \"like this\"")
    }
}

/// The sentence for a token that isn't allowed in its place, by the token before it.
pub fn misplaced_sentence(script: &[u8], before: Option<Token>, token: Token) -> Sentence<'_>
    ensures { blanks_of result ≡ misplaced_blanks script.now before token }
{
    if is_word_in_list(before, token) {
        word_sentence(text_of(script, &token))
    } else {
        token_sentence(script, token)
    }
}

// The sentence for a token that isn't allowed in its place.
fn token_sentence(script: &[u8], token: Token) -> Sentence<'_>
    ensures { blanks_of result ≡ token_blanks script.now token }
{
    Sentence {
        name: text_of(script, &token),
        ..plain(misplaced_token(token.kind))
    }
}

/// The sentence for a brace or a test that is nested too deep.
pub fn too_deep_sentence() -> Sentence<'static>
    ensures { blanks_of result ≡ too_deep_blanks }
{
    Sentence {
        number: MAX_NESTING as u64,
        ..plain("braces and tests are nested more than % levels deep here")
    }
}

/// The sentence for an opening brace without a partner.
pub fn unclosed_sentence() -> Sentence<'static>
    ensures { blanks_of result ≡ unclosed_blanks }
{
    plain("this brace is never closed")
}
