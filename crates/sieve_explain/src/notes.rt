// What is noted about a script without a fault.
//
// Such a filter follows the rules, and silently matches nothing, or something else than was meant. The notes come after
// `ok`, with status 0, so the first line is still the answer; `check` prints none of them: what programs read stays one
// line. They are found among the tokens of an accepted script, in which each identifier begins a command or test and
// its arguments follow directly. Each kind is as narrow as real filters need: `filename*` and `***SPAM***` are sensible
// keys of `:contains`, `ready?` is one of `:is`, and `:matches ["boss@a", "*<boss@a>*"]` is a common way to match an
// address with and without a name. So a `?` is never noted, several stars in a row aren't, and a `:matches` is noted
// only if none of its keys has a wildcard. A key with a reference to a variable can hold anything, and isn't noted.
ghost use Rattle.std.specs.Prelude.{◌≡◌, ◌==◌, ◌&&◌, ◌||◌, codes, ◌<◌, ◌≤◌, ◌+◌, ◌++◌, ◌-◌, ◌^◌, IfOk, None, OnOk, [], drop, if◌then◌else◌, length, take, take_while};
ghost use Rattle.std.specs.Char.{is_ascii_uppercase};
ghost use Rattle.std.specs.List.{cons_option, filter, find, list_all, list_any, slice_get};
ghost use Rattle.sieve_explain.specs.declared.notes.NoteKind.TheVariants.{AfterIf};
ghost use Rattle.sieve_lexer.specs.Classes.{continues_identifier};
ghost use Rattle.sieve_lexer.specs.Values.{inner};
ghost use Rattle.sieve_explain.specs.Notes.{arguments_of, before_last, begins_branch, begins_capture, begins_inbox, begins_last, begins_literal, begins_with_star, behind_block, block_length, block_of, blocks_of, branch_note, capital_note, capture_kind, capture_note, chain_note, closes_block, closes_group, command_at, command_note, compares_octets, earlier_of, ends, ends_with_colon, ends_with_star, expands_references, fields_note, first_named, given_by, given_in, given_of, gives_value, has_capture, has_empty, has_inbox, has_literal, has_no_value, has_tag, has_wildcard, header_note, if_note, inbox_note, inside_behind, is_always_false, is_always_true, is_backslash, is_bare, is_beyond, is_blank, is_capital, is_constant, is_digest, is_digit, is_else, is_first, is_inbox, is_inside, is_large, is_literal, is_long, is_named, is_named_by, is_no_opening, is_noted, is_noted_text, is_number_above, is_octet_at, is_one_at, is_other_field, is_other_source, is_part_field, is_raised, is_read, is_reference, is_root_field, is_slash, is_slash_or_dollar, is_star, is_star_or_mark, is_tagged, is_text, is_unclear, is_unread, is_variables, is_wildcard, is_word_at, kept_note, keys_note, lacks_value, last_of, long_note, loop_note, lower_note, lowers, may_name, may_refer, more_notes_blanks, most_captures, most_in, most_of, named_by, names_loop, names_note, next_note, next_of, note_at, note_blanks, note_in, note_number, note_text, noted_as, notes_from, notes_of, onto, open_behind, opens_block, opens_group, opens_list, own_word, part_note, patterns_note, precedes_test, reads, referred, refers_to, refers_to_none, requires_variables, root_note, scope_note, size_note, string_note, takes_part, takes_piece, takes_types, test_note, type_note, unread_note, value_note, wildcards_of, word_note};
ghost use Rattle.sieve_explain.specs.Marks.{is_amount, is_name};
ghost use Rattle.sieve_explain.specs.Private.{NameAlike, blanks_of, known_view, max_noted, texts_of};

use crate::marks::{
    arguments_length, first_of, is_name, is_separator, is_string, text_of, token_at, tokens_from,
};
use crate::remarks::Source;
use crate::sentence::{Sentence, plain};
use crate::words::is_any;
use octets::{MAX_VALUE, is_word};
use readable_text::places::around;
use sieve_lexer::{Token, TokenKind, continues_identifier, number_of};
use sieve_references::is_identifier;
use std::alloc::AllocError;

/// The most notes that are printed for a script.
pub const MAX_NOTES: usize = 20;

// How many notes are looked for: one more shows that there are more.
const MAX_NOTED: usize = 21;

// How many bytes the largest message has.
const MAX_MESSAGE: u64 = 1 << 26;

// The last character of ASCII.
const LAST_ASCII: u8 = 0x7f;

/// The kinds of notes. `note_text` has the sentence of each.
#[derive(Clone, Copy)]
pub enum NoteKind {
    /// A string of `header` isn't ASCII.
    Foreign,
    /// The name of a field ends with a colon.
    Colon,
    /// The name of a field has a blank.
    Space,
    /// A key of `:contains` begins with a star.
    StarInContains,
    /// A key of `:is` begins or ends with a star.
    StarInIs,
    /// No key of a `:matches` has a wildcard.
    NoWildcard,
    /// A key has a slash, and is compared with the type or the subtype.
    SlashInPiece,
    /// A key has no slash, and is compared with a whole type.
    NoSlash,
    /// A key of `partdigest` is no digest.
    NoDigest,
    /// A key of `string` is longer than the value of any variable.
    LongKey,
    /// A key of `string` has upper-case letters, and no value of the variable has one.
    CapitalKey,
    /// A message is never over that size.
    LargeSize,
    /// A string refers to a capture, and the script has no `:matches`.
    NoCapture,
    /// A string refers to a capture, and no key of a `:matches` has that many wildcards.
    FewWildcards,
    /// A string refers to a variable, and no command of the script gives it a value.
    NoValue,
    /// A command gives a variable a value, and nothing reads it.
    Unread,
    /// In a loop over parts a test asks for a field of parts without `:mime`.
    PartField,
    /// A test with `:anychild` asks for a field that other parts don't have.
    RootField,
    /// A `keep` and a `fileinto` into INBOX come one after the other.
    TwoEntries,
    /// A loop stores each part.
    StoresAll,
    /// A block comes after a test that is always false.
    BehindFalse,
    /// A branch comes after a test that is always true.
    AfterTrue,
    /// A command comes after `stop`.
    AfterStop,
    /// A command comes after `break`.
    AfterBreak,
    /// A command comes after an `if` whose branches all have a `stop` or `break`.
    AfterIf,
}

/// A note, and the place of the script that it is about.
#[derive(Clone, Copy)]
pub struct Noted {
    /// The byte of the script at which its token begins, counted from 0.
    pub place: usize,
    /// What is noted.
    pub kind: NoteKind,
}

// The text of the sentence for a note of this kind.
#[tactic(auto, unfolding(crate::specs::Notes::note_text))]
fn note_text(kind: NoteKind) -> &'static str
    ensures { result.now ≡ note_text kind }
{
    match kind {
        NoteKind::Foreign => {
            "fields are compared without decoding, and mail usually encodes such letters, as in =?UTF-8?..?=: this rarely matches"
        }
        NoteKind::Colon => "no field name ends in a colon: remove the colon",
        NoteKind::Space => "no field name contains a blank: remove the blank",
        NoteKind::StarInContains => {
            "`*` matches only itself here: remove it, or use `:matches` if it should match any text"
        }
        NoteKind::StarInIs => {
            "`*` matches only itself here: use `:matches` if it should match any text"
        }
        NoteKind::NoWildcard => {
            "this `:matches` has no `*` and no `?`, so it compares whole values like `:is`: write `:is`, or add a wildcard"
        }
        NoteKind::SlashInPiece => {
            "`:type` and `:subtype` give only one side of the `/` in a type such as image/png: use `:contenttype` for this key"
        }
        NoteKind::NoSlash => {
            "`:contenttype` gives a whole type such as image/png: add `/` and a subtype to this key, or use `:type`"
        }
        NoteKind::NoDigest => {
            "no part has this digest: write 64 hexadecimal digits, with lower-case letters"
        }
        NoteKind::LongKey => {
            "a variable holds at most % bytes, so this key never matches: write a shorter one"
        }
        NoteKind::CapitalKey => {
            "this key has upper-case letters, and each `set` of the variable has `:lower`, so the key never matches: write it in lower case"
        }
        NoteKind::LargeSize => {
            "no message is larger than % bytes, so this is never true: write a smaller number"
        }
        NoteKind::NoCapture => {
            "this string has a numbered reference, but the script has no test with `:matches` to set it"
        }
        NoteKind::FewWildcards => {
            "this string has a numbered reference, but no test with `:matches` has that many wildcards"
        }
        NoteKind::NoValue => {
            "this string refers to a variable, but no `set` or `take` gives it a value"
        }
        NoteKind::Unread => {
            "no other command or test reads this variable: remove this command, or check how references spell its name"
        }
        NoteKind::PartField => {
            "without `:mime` this tests the field of the message, not of the current part: add `:mime`, or move the test out of the loop"
        }
        NoteKind::RootField => {
            "parts other than attached messages usually don't have this field: remove `:anychild` to test only the message"
        }
        NoteKind::TwoEntries => {
            "this files the message into INBOX a second time: remove this command or the one before it"
        }
        NoteKind::StoresAll => {
            "this also stores each multipart, which contains its parts again: put it in an `if` that tests the type of the part"
        }
        NoteKind::BehindFalse => {
            "this test looks always false, which switches its block off: change the test, or remove the block"
        }
        NoteKind::AfterTrue =>
            "the test before this branch looks always true, which switches the branch off: change the test, or remove the branch",
        NoteKind::AfterStop =>
            "this comes after `stop`, which ends the script: move it before the `stop`",
        NoteKind::AfterBreak =>
            "this comes after `break`, which leaves the loop: move it before the `break`",
        NoteKind::AfterIf => {
            "this comes after an `if` whose branches all have a `stop` or `break`: move it before the `if`, or remove it"
        }
    }
}

// The number in the sentence for a note of this kind.
fn note_number(kind: NoteKind) -> u64
    ensures { result ≡ note_number kind }
{
    match kind {
        NoteKind::LongKey => MAX_VALUE as u64,
        _ => MAX_MESSAGE,
    }
}

/// The sentence for a note of this kind.
pub fn note_sentence(kind: NoteKind) -> Sentence<'static>
    ensures { blanks_of result ≡ note_blanks kind }
{
    Sentence {
        number: note_number(kind),
        ..plain(note_text(kind))
    }
}

/// The sentence after the last note that is printed.
pub fn more_notes_sentence() -> Sentence<'static>
    ensures { blanks_of result ≡ more_notes_blanks }
{
    Sentence {
        number: MAX_NOTES as u64,
        ..plain("only the first % notes are shown")
    }
}

// The text between the quotes of a string.
fn inner(text: &[u8]) -> &[u8]
    ensures { result.now ≡ inner text.now }
{
    let (_, behind) = around(text, 1);
    let (between, _) = around(behind, text.len().saturating_sub(2));
    between
}

// Whether a text has a byte that isn't ASCII.
fn has_beyond(text: &[u8]) -> bool
    ensures { result ≡ list_any is_beyond text.now }
{
    text.iter().any(|octet| *octet > LAST_ASCII)
}

// Whether a text has a blank.
fn has_blank(text: &[u8]) -> bool
    ensures { result ≡ list_any is_blank text.now }
{
    text.iter().any(|octet| *octet == b' ' || *octet == b'\t')
}

// Whether a text is just a star.
fn is_star(text: &[u8]) -> bool
    ensures { result ≡ is_star text.now }
{
    text == b"*".as_slice()
}

// Whether a star comes first, and something else after it.
fn begins_with_star(text: &[u8]) -> bool
    ensures { result ≡ begins_with_star text.now }
{
    let (first, behind) = around(text, 1);
    let (next, _) = around(behind, 1);
    text.len() > 1 && is_star(first) && !is_star(next)
}

// Whether a star comes last, and something else before it.
fn ends_with_star(text: &[u8]) -> bool
    ensures { result ≡ ends_with_star text.now }
{
    let (_, end) = around(text, text.len().saturating_sub(2));
    let (before, last) = around(end, 1);
    text.len() > 1 && is_star(last) && !is_star(before)
}

// Whether a colon comes last.
fn ends_with_colon(text: &[u8]) -> bool
    ensures { result ≡ ends_with_colon text.now }
{
    let (_, end) = around(text, text.len().saturating_sub(1));
    end == b":".as_slice()
}

// Whether these are hexadecimal digits, with letters in lower case.
fn are_digits(text: &[u8]) -> bool
    ensures { result ≡ list_all is_digit text.now }
{
    text.iter().all(|octet| octet.is_ascii_hexdigit() && !octet.is_ascii_uppercase())
}

// Whether a text is a digest as `partdigest` compares it.
fn is_digest(text: &[u8]) -> bool
    ensures { result ≡ is_digest text.now }
{
    text.len() == 64 && are_digits(text)
}

// Whether the byte is the digit of a number above this one.
fn is_number_above(most: usize, octet: u8) -> bool
    ensures { result ≡ is_number_above most octet }
{
    octet >= b'0' && octet <= b'9' && usize::from(octet - b'0') > most
}

// Whether there is such a digit.
fn has_number_above(most: usize, text: &[u8]) -> bool
    ensures { result ≡ list_any (is_number_above most) text.now }
{
    text.iter().any(|octet| is_number_above(most, *octet))
}

// Whether a reference to a capture above this number comes first.
fn begins_capture(most: usize, text: &[u8]) -> bool
    ensures { result ≡ begins_capture most text.now }
{
    let (start, behind) = around(text, 2);
    let (digit, _) = around(behind, 1);
    let (_, from_end) = around(text, 3);
    let (end, _) = around(from_end, 1);
    start == b"${".as_slice() && has_number_above(most, digit) && end == b"}".as_slice()
}

// Whether there is such a reference anywhere.
fn has_capture(most: usize, text: &[u8]) -> bool
    ensures { result ≡ has_capture most text.now }
{
    (0..text.len()).any(|place| {
        let (_, rest) = around(text, place);
        begins_capture(most, rest)
    })
}

// Whether a text has a slash.
fn has_slash(text: &[u8]) -> bool
    ensures { result ≡ list_any is_slash text.now }
{
    text.iter().any(|octet| *octet == b'/')
}

// Whether a text has a slash, or can have a reference to a variable.
fn has_slash_or_dollar(text: &[u8]) -> bool
    ensures { result ≡ list_any is_slash_or_dollar text.now }
{
    text.iter().any(|octet| *octet == b'/' || *octet == b'$')
}

// Whether a text has neither a slash nor a reference, and isn't empty.
fn is_bare(text: &[u8]) -> bool
    ensures { result ≡ is_bare text.now }
{
    text.len() > 0 && !has_slash_or_dollar(text)
}

// Whether a variable can't hold a text, and the text is compared as it is written.
fn is_long(text: &[u8]) -> bool
    ensures { result ≡ is_long text.now }
{
    text.len() > MAX_VALUE && !is_unclear(text)
}

// Whether a text has an upper-case letter.
fn has_capital(text: &[u8]) -> bool
    ensures { result ≡ list_any is_ascii_uppercase text.now }
{
    text.iter().any(|octet| octet.is_ascii_uppercase())
}

// Whether a text has an upper-case letter, and is compared as it is written.
fn is_capital(text: &[u8]) -> bool
    ensures { result ≡ is_capital text.now }
{
    has_capital(text) && !is_unclear(text)
}

// Whether each part has a field of this name.
#[tactic(auto, unfolding(crate::specs::Notes::is_part_field))]
fn is_part_field(name: &[u8]) -> bool
    ensures { result ≡ is_part_field name.now }
{
    is_any(
        name,
        &[
            "content-type",
            "content-disposition",
            "content-transfer-encoding",
            "content-id",
            "content-description",
        ],
    )
}

// Whether a message has a field of this name, and other parts don't.
#[tactic(auto, unfolding(crate::specs::Notes::is_root_field))]
fn is_root_field(name: &[u8]) -> bool
    ensures { result ≡ is_root_field name.now }
{
    is_any(name, &["subject", "from", "to", "list-id"])
}

// Whether the text between a string's quotes gets a note of this kind.
fn is_noted_text(kind: NoteKind, text: &[u8]) -> bool
    ensures { result ≡ is_noted_text kind text.now }
{
    match kind {
        NoteKind::Foreign => has_beyond(text),
        NoteKind::Colon => ends_with_colon(text),
        NoteKind::Space => has_blank(text),
        NoteKind::StarInContains => begins_with_star(text),
        NoteKind::StarInIs => begins_with_star(text) || ends_with_star(text),
        NoteKind::NoWildcard => true,
        NoteKind::SlashInPiece => has_slash(text),
        NoteKind::NoSlash => is_bare(text),
        NoteKind::NoDigest => !(is_digest(text) || is_unclear(text)),
        NoteKind::LongKey => is_long(text),
        NoteKind::CapitalKey => is_capital(text),
        NoteKind::PartField => is_part_field(text),
        NoteKind::RootField => is_root_field(text),
        NoteKind::LargeSize
        | NoteKind::NoCapture
        | NoteKind::FewWildcards
        | NoteKind::NoValue
        | NoteKind::Unread
        | NoteKind::TwoEntries
        | NoteKind::StoresAll
        | NoteKind::BehindFalse
        | NoteKind::AfterTrue
        | NoteKind::AfterStop
        | NoteKind::AfterBreak
        | NoteKind::AfterIf => false,
    }
}

// Whether no message can be larger than the number.
fn is_large(number: Option<u64>) -> bool
    ensures { result ≡ is_large number }
{
    match number {
        Some(number) => number >= MAX_MESSAGE,
        None => false,
    }
}

// Whether the token gets a note of this kind.
#[tactic(auto, unfolding(crate::specs::Notes::is_noted))]
fn is_noted(script: &[u8], kind: NoteKind, token: &Token) -> bool
    ensures { result ≡ is_noted script.now kind token.now }
{
    let text = text_of(script, token);
    match kind {
        NoteKind::LongKey | NoteKind::SlashInPiece | NoteKind::NoSlash | NoteKind::CapitalKey => {
            matches!(token.kind, TokenKind::QuotedString) && is_noted_text(kind, inner(text))
        }
        NoteKind::LargeSize => is_amount(token.kind) && is_large(number_of(text)),
        _ => is_string(token.kind) && is_noted_text(kind, inner(text)),
    }
}

// Whether the token is a number.
fn is_amount(kind: TokenKind) -> bool
    ensures { result ≡ is_amount kind }
{
    matches!(kind, TokenKind::Number)
}

// A note of this kind on the token.
fn noted_as(kind: NoteKind, token: Token) -> Noted
    ensures { result ≡ noted_as kind token }
{
    Noted {
        place: token.start,
        kind,
    }
}

// The first of the tokens that gets a note of this kind.
fn first_noted(script: &[u8], kind: NoteKind, tokens: &[Token]) -> Option<Token>
    ensures { result ≡ find (is_noted script.now kind) tokens.now }
{
    tokens
        .iter()
        .copied()
        .find(|token| is_noted(script, kind, token))
}

// The same as a note.
fn note_in(script: &[u8], kind: NoteKind, tokens: &[Token]) -> Option<Noted>
    ensures { result ≡ note_in script.now kind tokens.now }
{
    match first_noted(script, kind, tokens) {
        Some(token) => Some(noted_as(kind, token)),
        None => None,
    }
}

// The arguments after the name of a test, without a comma at their end.
fn arguments_of(rest: &[Token]) -> &[Token]
    ensures { result.now ≡ arguments_of rest.now }
{
    let size = arguments_length(rest);
    let short = size.saturating_sub(1);
    if is_separator(token_at(rest, short)) {
        first_of(rest, short)
    } else {
        first_of(rest, size)
    }
}

// Whether the token is this tag.
fn is_tagged(script: &[u8], tag: &[u8], token: &Token) -> bool
    ensures { result ≡ is_tagged script.now tag.now token.now }
{
    matches!(token.kind, TokenKind::Tag) && is_word(text_of(script, token), tag)
}

// Whether this tag is among the arguments.
fn has_tag(script: &[u8], tag: &[u8], arguments: &[Token]) -> bool
    ensures { result ≡ has_tag script.now tag.now arguments.now }
{
    arguments.iter().any(|token| is_tagged(script, tag, token))
}

// Whether the token opens a list.
fn opens_list(kind: TokenKind) -> bool
    ensures { result ≡ opens_list kind }
{
    matches!(kind, TokenKind::OpeningBracket)
}

// Whether the token doesn't close a list.
fn is_inside(token: &&Token) -> bool
    ensures { result ≡ is_inside token.now.now }
{
    !matches!(token.kind, TokenKind::ClosingBracket)
}

// How many tokens there are before the end of a list.
fn inside_length(tokens: &[Token]) -> usize
    ensures value { result ≡ length (take_while is_inside tokens.now) }
    ensures bound { result ≤ length tokens.now }
{
    tokens.iter().take_while(is_inside).count()
}

// Whether the last argument begins with the token: a string with nothing after it, or a list.
fn begins_last(token: Token, behind: &[Token]) -> bool
    ensures { result ≡ begins_last token behind.now }
{
    if opens_list(token.kind) {
        inside_length(behind).saturating_add(1) == behind.len()
    } else {
        behind.len() == 0
    }
}

// How many tokens of the arguments come before the last argument.
fn before_last(arguments: &[Token]) -> usize
    ensures { result ≡ before_last arguments.now }
{
    for place in 0..arguments.len() {
        if begins_last(arguments[place], tokens_from(arguments, place + 1)) {
            return place;
        }
    }
    arguments.len()
}

// The last argument.
fn last_of(arguments: &[Token]) -> &[Token]
    ensures { result.now ≡ last_of arguments.now }
{
    tokens_from(arguments, before_last(arguments))
}

// The arguments before the last one.
fn earlier_of(arguments: &[Token]) -> &[Token]
    ensures { result.now ≡ earlier_of arguments.now }
{
    first_of(arguments, before_last(arguments))
}

// The note on names of fields.
fn names_note(script: &[u8], names: &[Token]) -> Option<Noted>
    ensures { result ≡ names_note script.now names.now }
{
    note_in(script, NoteKind::Colon, names).or(note_in(script, NoteKind::Space, names))
}

// Whether the text can have a wildcard or a reference.
fn is_pattern(text: &[u8]) -> bool
    ensures { result ≡ list_any is_wildcard text.now }
{
    text.iter()
        .any(|octet| *octet == b'*' || *octet == b'?' || *octet == b'$')
}

// Whether the token can have a wildcard or a reference.
fn has_wildcard(script: &[u8], token: &Token) -> bool
    ensures { result ≡ has_wildcard script.now token.now }
{
    is_pattern(text_of(script, token))
}

// Whether one of the keys has.
fn have_wildcard(script: &[u8], keys: &[Token]) -> bool
    ensures { result ≡ list_any (has_wildcard script.now) keys.now }
{
    keys.iter().any(|token| has_wildcard(script, token))
}

// The note on keys of `:matches`.
fn patterns_note(script: &[u8], keys: &[Token]) -> Option<Noted>
    ensures { result ≡ patterns_note script.now keys.now }
{
    if have_wildcard(script, keys) {
        return None;
    }
    note_in(script, NoteKind::NoWildcard, keys)
}

// The note on the keys of a test with these arguments, by its kind of comparison.
#[tactic(auto, unfolding(crate::specs::Notes::keys_note))]
fn keys_note(script: &[u8], arguments: &[Token]) -> Option<Noted>
    ensures { result ≡ keys_note script.now arguments.now }
{
    let keys = last_of(arguments);
    if has_tag(script, b":matches", arguments) {
        patterns_note(script, keys)
    } else if has_tag(script, b":contains", arguments) {
        note_in(script, NoteKind::StarInContains, keys)
    } else {
        note_in(script, NoteKind::StarInIs, keys)
    }
}

// Whether the token is the name of another field than Content-Type.
fn is_other_field(script: &[u8], token: &Token) -> bool
    ensures { result ≡ is_other_field script.now token.now }
{
    is_string(token.kind) && !is_word(inner(text_of(script, token)), b"content-type")
}

// Whether one of the tokens is the name of another field than Content-Type.
fn have_other_field(script: &[u8], names: &[Token]) -> bool
    ensures { result ≡ list_any (is_other_field script.now) names.now }
{
    names.iter().any(|token| is_other_field(script, token))
}

// Whether a test with these arguments compares with the type or the subtype alone.
fn takes_piece(script: &[u8], arguments: &[Token]) -> bool
    ensures { result ≡ takes_piece script.now arguments.now }
{
    has_tag(script, b":type", arguments) || has_tag(script, b":subtype", arguments)
}

// Whether a key is compared with parts of a value.
fn takes_part(script: &[u8], arguments: &[Token]) -> bool
    ensures { result ≡ takes_part script.now arguments.now }
{
    has_tag(script, b":matches", arguments) || has_tag(script, b":contains", arguments)
}

// Whether a key is compared with whole types.
fn takes_types(script: &[u8], arguments: &[Token]) -> bool
    ensures { result ≡ takes_types script.now arguments.now }
{
    has_tag(script, b":contenttype", arguments)
        && !takes_part(script, arguments)
        && !have_other_field(script, last_of(earlier_of(arguments)))
}

// The note on keys that are compared with a type, or with a piece of one.
#[tactic(auto, unfolding(crate::specs::Notes::type_note))]
fn type_note(script: &[u8], arguments: &[Token]) -> Option<Noted>
    ensures { result ≡ type_note script.now arguments.now }
{
    if takes_piece(script, arguments) {
        note_in(script, NoteKind::SlashInPiece, last_of(arguments))
    } else if takes_types(script, arguments) {
        note_in(script, NoteKind::NoSlash, last_of(arguments))
    } else {
        None
    }
}

// The note on a `header` with these arguments.
#[tactic(auto, unfolding(crate::specs::Notes::header_note))]
fn header_note(script: &[u8], arguments: &[Token]) -> Option<Noted>
    ensures { result ≡ header_note script.now arguments.now }
{
    names_note(script, last_of(earlier_of(arguments)))
        .or(keys_note(script, arguments))
        .or(type_note(script, arguments))
        .or(note_in(script, NoteKind::Foreign, arguments))
}

// The note on a `size` with these arguments.
fn size_note(script: &[u8], arguments: &[Token]) -> Option<Noted>
    ensures { result ≡ size_note script.now arguments.now }
{
    if !has_tag(script, b":over", arguments) {
        return None;
    }
    note_in(script, NoteKind::LargeSize, arguments)
}

// Whether the text is a reference to a variable, and nothing else.
fn is_reference(text: &[u8]) -> bool
    ensures { result ≡ is_reference text.now }
{
    let name = referred(text);
    name.len() > 0 && text.len() == name.len().saturating_add(3)
}

// Whether the token is a source of a `string` that isn't a variable.
fn is_other_source(script: &[u8], token: &Token) -> bool
    ensures { result ≡ is_other_source script.now token.now }
{
    is_string(token.kind) && !is_reference(inner(text_of(script, token)))
}

// Whether one of the tokens is.
fn have_other_source(script: &[u8], sources: &[Token]) -> bool
    ensures { result ≡ list_any (is_other_source script.now) sources.now }
{
    sources.iter().any(|token| is_other_source(script, token))
}

// The note on a key of a `string` that no variable can match.
#[tactic(auto, unfolding(crate::specs::Notes::long_note))]
fn long_note(script: &[u8], arguments: &[Token]) -> Option<Noted>
    ensures { result ≡ long_note script.now arguments.now }
{
    let sources = last_of(earlier_of(arguments));
    if has_tag(script, b":matches", arguments) || have_other_source(script, sources) {
        return None;
    }
    note_in(script, NoteKind::LongKey, last_of(arguments))
}

// The note on the test with this name and these arguments.
#[tactic(auto, unfolding(crate::specs::Notes::test_note))]
fn test_note(script: &[u8], name: &[u8], arguments: &[Token]) -> Option<Noted>
    ensures { result ≡ test_note script.now name.now arguments.now }
{
    if is_word(name, b"header") {
        header_note(script, arguments)
    } else if is_word(name, b"string") {
        keys_note(script, arguments).or(long_note(script, arguments))
    } else if is_word(name, b"partbody") {
        keys_note(script, arguments)
    } else if is_word(name, b"exists") {
        names_note(script, last_of(arguments))
    } else if is_word(name, b"partdigest") {
        note_in(script, NoteKind::NoDigest, arguments)
    } else if is_word(name, b"size") {
        size_note(script, arguments)
    } else {
        None
    }
}

// The note on names of fields in a test with these arguments; `inside` is 0 if it isn't in a loop over parts.
fn part_note(script: &[u8], inside: usize, names: &[Token], arguments: &[Token]) -> Option<Noted>
    ensures { result ≡ part_note script.now inside names.now arguments.now }
{
    if inside == 0 || has_tag(script, b":mime", arguments) {
        return None;
    }
    note_in(script, NoteKind::PartField, names)
}

// The note on names of fields in a test with these arguments, if it asks for the fields of all parts.
fn root_note(script: &[u8], names: &[Token], arguments: &[Token]) -> Option<Noted>
    ensures { result ≡ root_note script.now names.now arguments.now }
{
    if !has_tag(script, b":anychild", arguments) {
        return None;
    }
    note_in(script, NoteKind::RootField, names)
}

// Either of these notes.
fn fields_note(script: &[u8], inside: usize, names: &[Token], arguments: &[Token]) -> Option<Noted>
    ensures { result ≡ fields_note script.now inside names.now arguments.now }
{
    part_note(script, inside, names, arguments).or(root_note(script, names, arguments))
}

// The same for the test with this name.
#[tactic(auto, unfolding(crate::specs::Notes::scope_note))]
fn scope_note(script: &[u8], inside: usize, name: &[u8], arguments: &[Token]) -> Option<Noted>
    ensures { result ≡ scope_note script.now inside name.now arguments.now }
{
    if is_word(name, b"exists") {
        fields_note(script, inside, last_of(arguments), arguments)
    } else if is_word(name, b"header") {
        fields_note(script, inside, last_of(earlier_of(arguments)), arguments)
    } else {
        None
    }
}

// How many braces are open after one more token.
fn open_behind(kind: TokenKind, depth: usize) -> usize
    requires { depth + 1 < 2 ^ 64 }
    ensures depth { result ≡ open_behind kind depth }
    ensures few { result ≤ depth + 1 }
{
    match kind {
        TokenKind::OpeningBrace => depth + 1,
        TokenKind::ClosingBrace => depth.saturating_sub(1),
        _ => depth,
    }
}

// How many tokens there are up to the one after which no brace is open.
fn block_length(tokens: &[Token]) -> usize
    ensures { result ≡ block_length 0 tokens.now }
{
    let mut depth = 0;
    for place in 0..tokens.len() {
        depth = open_behind(tokens[place].kind, depth);
        if depth == 0 {
            return place + 1;
        }
    }
    tokens.len()
}

// Whether the token is this word.
fn is_word_at(script: &[u8], word: &[u8], token: Option<Token>) -> bool
    ensures { result ≡ is_word_at script.now word.now token }
{
    match token {
        Some(token) => is_word(text_of(script, &token), word),
        None => false,
    }
}

// The command that begins with the token, if one does.
fn command_at(kind: NoteKind, token: Option<Token>) -> Option<Noted>
    ensures { result ≡ command_at kind token }
{
    match token {
        Some(token) if is_name(token.kind) => Some(noted_as(kind, token)),
        _ => None,
    }
}

// Whether the token begins another branch.
fn begins_branch(script: &[u8], token: Option<Token>) -> bool
    ensures { result ≡ begins_branch script.now token }
{
    is_word_at(script, b"elsif", token) || is_word_at(script, b"else", token)
}

// Whether the token opens no block.
fn is_no_opening(token: &&Token) -> bool
    ensures { result ≡ is_no_opening token.now.now }
{
    !matches!(token.kind, TokenKind::OpeningBrace)
}

// How many tokens there are before the first brace that opens a block.
fn opening_at(tokens: &[Token]) -> usize
    ensures { result ≡ length (take_while is_no_opening tokens.now) }
{
    tokens.iter().take_while(is_no_opening).count()
}

// The tokens from that brace on.
fn blocks_of(tokens: &[Token]) -> &[Token]
    ensures { result.now ≡ blocks_of tokens.now }
{
    tokens_from(tokens, opening_at(tokens))
}

// The note on an `elsif` or `else` after the first block of the tokens.
fn branch_note(script: &[u8], tokens: &[Token]) -> Option<Noted>
    ensures { result ≡ branch_note script.now tokens.now }
{
    let next = token_at(tokens, block_length(tokens));
    if begins_branch(script, next) {
        command_at(NoteKind::AfterTrue, next)
    } else {
        None
    }
}

// Whether the tokens begin with the word, or with `not` and the other one.
fn is_literal(script: &[u8], word: &[u8], other: &[u8], tokens: &[Token]) -> bool
    ensures { result ≡ is_literal script.now word.now other.now tokens.now }
{
    let first = token_at(tokens, 0);
    is_word_at(script, word, first)
        || (is_word_at(script, b"not", first) && is_word_at(script, other, token_at(tokens, 1)))
}

// Whether the token opens a group of tests.
fn opens_group(token: &Token) -> bool
    ensures { result ≡ opens_group token.now }
{
    matches!(token.kind, TokenKind::OpeningParenthesis)
}

// Whether the token closes one.
fn closes_group(token: &Token) -> bool
    ensures { result ≡ closes_group token.now }
{
    matches!(token.kind, TokenKind::ClosingParenthesis)
}

// Whether the token comes directly before a test of a group.
fn precedes_test(token: Option<Token>) -> bool
    ensures { result ≡ precedes_test token }
{
    match token {
        Some(token) => matches!(token.kind, TokenKind::Comma | TokenKind::OpeningParenthesis),
        None => false,
    }
}

// Whether the place after so many opening and closing brackets or braces is at the level of the first one.
fn is_level(opened: usize, closed: usize) -> bool
    requires { closed + 1 < 2 ^ 64 }
    ensures { result ≡ (opened == closed + 1) }
{
    opened == closed + 1
}

// How many there are after one more token.
fn counted(number: usize, counts: bool) -> usize
    requires { number + 1 < 2 ^ 64 }
    ensures { result ≡ number + (if counts then 1 else 0) }
{
    if counts { number + 1 } else { number }
}

// Whether a test of a group begins at that place of its tokens, and is the word, or `not` and the other one.
fn begins_literal(script: &[u8], word: &[u8], other: &[u8], tokens: &[Token], place: usize) -> bool
    ensures { result ≡ begins_literal script.now word.now other.now tokens.now place }
{
    precedes_test(token_at(tokens, place.saturating_sub(1)))
        && is_literal(script, word, other, tokens_from(tokens, place))
}

// The same for a test of the group itself; `own` says whether the place is at its level.
fn is_literal_here(
    script: &[u8],
    word: &[u8],
    other: &[u8],
    own: bool,
    tokens: &[Token],
    place: usize,
) -> bool
    ensures { result ≡ (own && begins_literal script.now word.now other.now tokens.now place) }
{
    own && begins_literal(script, word, other, tokens, place)
}

// Whether a test of the group with these tokens is the word, or `not` and the other one.
fn has_literal(script: &[u8], word: &[u8], other: &[u8], tokens: &[Token]) -> bool
    ensures { result ≡ has_literal script.now word.now other.now tokens.now }
{
    let mut opened = 0;
    let mut closed = 0;
    for place in 0..tokens.len() {
        if is_literal_here(script, word, other, is_level(opened, closed), tokens, place) {
            return true;
        }
        opened = counted(opened, opens_group(&tokens[place]));
        closed = counted(closed, closes_group(&tokens[place]));
    }
    false
}

// Whether the test with these tokens is the word, or `not` and the other one, or a group with such a test.
#[tactic(auto, unfolding(crate::specs::Notes::is_constant))]
fn is_constant(script: &[u8], word: &[u8], other: &[u8], group: &[u8], tokens: &[Token]) -> bool
    ensures { result ≡ is_constant script.now word.now other.now group.now tokens.now }
{
    is_literal(script, word, other, tokens)
        || (is_word_at(script, group, token_at(tokens, 0))
            && has_literal(script, word, other, tests_of(tokens)))
}

// The tokens before the first block.
fn tests_of(tokens: &[Token]) -> &[Token]
    ensures { result.now ≡ take_while is_no_opening tokens.now }
{
    first_of(tokens, opening_at(tokens))
}

// Whether the test with these tokens is true of every message.
fn is_always_true(script: &[u8], tokens: &[Token]) -> bool
    ensures { result ≡ is_always_true script.now tokens.now }
{
    is_constant(script, b"true", b"false", b"anyof", tokens)
}

// Whether it is false of every message.
fn is_always_false(script: &[u8], tokens: &[Token]) -> bool
    ensures { result ≡ is_always_false script.now tokens.now }
{
    is_constant(script, b"false", b"true", b"allof", tokens)
}

// The note on an `if` or `elsif` before these tokens.
#[tactic(auto, unfolding(crate::specs::Notes::if_note))]
fn if_note(script: &[u8], rest: &[Token]) -> Option<Noted>
    ensures { result ≡ if_note script.now rest.now }
{
    if is_always_true(script, rest) {
        branch_note(script, blocks_of(rest))
    } else if is_always_false(script, rest) {
        command_at(NoteKind::BehindFalse, token_at(rest, 0))
    } else {
        None
    }
}

// The tokens of the first block, and those after it.
fn block_and_rest(tokens: &[Token]) -> (&[Token], &[Token])
    ensures block { result.0.now ≡ block_of tokens.now }
    ensures behind { result.1.now ≡ behind_block tokens.now }
{
    let blocks = blocks_of(tokens);
    let size = block_length(blocks);
    (first_of(blocks, size), tokens_from(blocks, size))
}

// Whether the token opens a block.
fn opens_block(token: &Token) -> bool
    ensures { result ≡ opens_block token.now }
{
    matches!(token.kind, TokenKind::OpeningBrace)
}

// Whether the token closes one.
fn closes_block(token: &Token) -> bool
    ensures { result ≡ closes_block token.now }
{
    matches!(token.kind, TokenKind::ClosingBrace)
}

// Whether the token is one of these words.
fn is_one_at(script: &[u8], words: &[&str], token: Option<Token>) -> bool
    ensures { result ≡ is_one_at script.now (texts_of words.now) token }
{
    match token {
        Some(token) => is_any(text_of(script, &token), words),
        None => false,
    }
}

// The same at a place of a block; `own` says whether it is at the block's own level.
fn is_own_word(script: &[u8], words: &[&str], own: bool, token: Option<Token>) -> bool
    ensures { result ≡ (own && is_one_at script.now (texts_of words.now) token) }
{
    own && is_one_at(script, words, token)
}

// The first of these words at the own level of the block.
fn own_word(script: &[u8], words: &[&str], block: &[Token]) -> Option<Token>
    ensures { result ≡ own_word script.now (texts_of words.now) block.now }
{
    let mut opened = 0;
    let mut closed = 0;
    for place in 0..block.len() {
        let token = token_at(block, place);
        if is_own_word(script, words, is_level(opened, closed), token) {
            return token;
        }
        opened = counted(opened, opens_block(&block[place]));
        closed = counted(closed, closes_block(&block[place]));
    }
    None
}

// Whether a command at the own level of the block is one after which no other runs.
#[tactic(auto, unfolding(crate::specs::Notes::ends))]
fn ends(script: &[u8], block: &[Token]) -> bool
    ensures { result ≡ ends script.now block.now }
{
    own_word(script, &["stop", "break"], block).is_some()
}

// Whether the branch is that of `else`.
fn is_else(script: &[u8], branch: &[Token]) -> bool
    ensures { result ≡ is_else script.now branch.now }
{
    is_word_at(script, b"else", token_at(branch, 0))
}

// Whether it is the last that can run, by whether one before it is.
fn last_with(script: &[u8], last: bool, branch: &[Token]) -> bool
    ensures { result ≡ (last || is_else script.now branch.now) }
{
    last || is_else(script, branch)
}

// The note on the token after the last branch.
fn ended_note(last: bool, next: Option<Token>) -> Option<Noted>
    ensures { result ≡ (if last then command_at AfterIf next else None) }
{
    if last {
        command_at(NoteKind::AfterIf, next)
    } else {
        None
    }
}

// The note on the command after an `if` before these tokens; `only` says that no branch after its first one runs.
#[tactic(auto, using(crate::proofs::Chains::whole, crate::proofs::Chains::stops, crate::proofs::Chains::finishes, crate::proofs::Chains::goes_on, crate::proofs::Chains::runs_out))]
fn chain_note(script: &[u8], only: bool, tokens: &[Token]) -> Option<Noted>
    ensures { result ≡ chain_note script.now only tokens.now }
{
    let mut branch = tokens;
    let mut last = only;
    for turn in 0..tokens.len() {
        let _turn = turn;
        let (block, behind) = block_and_rest(branch);
        if !ends(script, block) {
            return None;
        }
        last = last_with(script, last, branch);
        let next = token_at(behind, 0);
        if !begins_branch(script, next) {
            return ended_note(last, next);
        }
        branch = behind;
    }
    None
}

// The note on the first `store` at the own level of a loop's block.
#[tactic(auto, unfolding(crate::specs::Notes::loop_note))]
fn loop_note(script: &[u8], block: &[Token]) -> Option<Noted>
    ensures { result ≡ loop_note script.now block.now }
{
    command_at(NoteKind::StoresAll, own_word(script, &["store"], block))
}

// The tokens from the command on that follows one that ends with a semicolon.
fn next_of(rest: &[Token]) -> &[Token]
    ensures { result.now ≡ next_of rest.now }
{
    tokens_from(rest, arguments_length(rest) + 1)
}

// Whether the token is the folder that `keep` files into.
fn is_inbox(script: &[u8], token: &Token) -> bool
    ensures { result ≡ is_inbox script.now token.now }
{
    is_string(token.kind) && inner(text_of(script, token)) == b"INBOX".as_slice()
}

// Whether these are the arguments of a `fileinto` with that folder.
fn has_inbox(script: &[u8], rest: &[Token]) -> bool
    ensures { result ≡ has_inbox script.now rest.now }
{
    let arguments = arguments_of(rest);
    arguments.iter().any(|token| is_inbox(script, token))
}

// Whether such a `fileinto` comes first.
fn begins_inbox(script: &[u8], tokens: &[Token]) -> bool
    ensures { result ≡ begins_inbox script.now tokens.now }
{
    is_word_at(script, b"fileinto", token_at(tokens, 0))
        && has_inbox(script, tokens_from(tokens, 1))
}

// The note on the command after a `keep`.
fn inbox_note(script: &[u8], next: &[Token]) -> Option<Noted>
    ensures { result ≡ inbox_note script.now next.now }
{
    if !begins_inbox(script, next) {
        return None;
    }
    command_at(NoteKind::TwoEntries, token_at(next, 0))
}

// The note on the command after a `fileinto` with these arguments.
fn kept_note(script: &[u8], rest: &[Token], next: &[Token]) -> Option<Noted>
    ensures { result ≡ kept_note script.now rest.now next.now }
{
    let following = token_at(next, 0);
    if has_inbox(script, rest) && is_word_at(script, b"keep", following) {
        command_at(NoteKind::TwoEntries, following)
    } else {
        None
    }
}

// The note on the command after the arguments of one that ends with a semicolon.
fn next_note(kind: NoteKind, rest: &[Token]) -> Option<Noted>
    ensures { result ≡ next_note kind rest.now }
{
    command_at(kind, token_at(rest, arguments_length(rest) + 1))
}

// The note on the command with this name, before these tokens.
#[tactic(auto, unfolding(crate::specs::Notes::command_note))]
fn command_note(script: &[u8], name: &[u8], rest: &[Token]) -> Option<Noted>
    ensures { result ≡ command_note script.now name.now rest.now }
{
    if is_word(name, b"if") {
        if_note(script, rest).or(chain_note(script, is_always_true(script, rest), rest))
    } else if is_word(name, b"elsif") {
        if_note(script, rest)
    } else if is_word(name, b"stop") {
        next_note(NoteKind::AfterStop, rest)
    } else if is_word(name, b"break") {
        next_note(NoteKind::AfterBreak, rest)
    } else if is_word(name, b"keep") {
        inbox_note(script, next_of(rest))
    } else if is_word(name, b"fileinto") {
        kept_note(script, rest, next_of(rest))
    } else if is_word(name, b"foreverypart") {
        let (block, _) = block_and_rest(rest);
        loop_note(script, block)
    } else {
        None
    }
}

// Whether the token is the capability for references.
fn is_variables(script: &[u8], token: &Token) -> bool
    ensures { result ≡ is_variables script.now token.now }
{
    is_string(token.kind) && inner(text_of(script, token)) == b"variables".as_slice()
}

// Whether it is among the arguments.
fn has_variables(script: &[u8], arguments: &[Token]) -> bool
    ensures { result ≡ list_any (is_variables script.now) arguments.now }
{
    arguments.iter().any(|token| is_variables(script, token))
}

// Whether the token is a `require` of it.
fn requires_variables(script: &[u8], token: &Token, rest: &[Token]) -> bool
    ensures { result ≡ requires_variables script.now token.now rest.now }
{
    is_name(token.kind)
        && is_word(text_of(script, token), b"require")
        && has_variables(script, arguments_of(rest))
}

// Whether references of the script with these tokens are expanded.
fn expands_references(script: &[u8], tokens: &[Token]) -> bool
    ensures { result ≡ expands_references script.now tokens.now }
{
    for place in 0..tokens.len() {
        if requires_variables(script, &tokens[place], tokens_from(tokens, place + 1)) {
            return true;
        }
    }
    false
}

// Whether the text can have a reference to a variable, or an escape.
fn is_unclear(text: &[u8]) -> bool
    ensures { result ≡ list_any is_unclear text.now }
{
    text.iter().any(|octet| *octet == b'$' || *octet == b'\\')
}

// Whether the byte is a wildcard.
fn is_star_or_mark(octet: &&u8) -> bool
    ensures { result ≡ is_star_or_mark octet.now.now }
{
    **octet == b'*' || **octet == b'?'
}

// How many wildcards a text has.
fn count_wildcards(text: &[u8]) -> usize
    ensures { result ≡ length (filter is_star_or_mark text.now) }
{
    text.iter().filter(is_star_or_mark).count()
}

// How many wildcards a key has at most.
fn wildcards_of(script: &[u8], token: &Token) -> usize
    ensures { result ≡ wildcards_of script.now token.now }
{
    let text = text_of(script, token);
    if is_unclear(text) {
        9
    } else {
        count_wildcards(text)
    }
}

// The most of these keys.
fn most_of(script: &[u8], keys: &[Token]) -> usize
    ensures { result ≡ most_of script.now keys.now }
{
    let mut most = 0;
    for key in keys {
        most = most.max(wildcards_of(script, key));
    }
    most
}

// The most of a test with these arguments, if it has `:matches`.
fn most_in(script: &[u8], arguments: &[Token]) -> usize
    ensures { result ≡ most_in script.now arguments.now }
{
    if !has_tag(script, b":matches", arguments) {
        return 0;
    }
    most_of(script, last_of(arguments))
}

// The most of the test that begins with the token.
fn most_at(script: &[u8], token: &Token, rest: &[Token]) -> usize
    ensures { result ≡ (if is_name token.now.kind then most_in script.now (arguments_of rest.now) else 0) }
{
    if is_name(token.kind) {
        most_in(script, arguments_of(rest))
    } else {
        0
    }
}

// The most of all tests of a script with these tokens.
fn most_captures(script: &[u8], tokens: &[Token]) -> usize
    ensures { result ≡ most_captures script.now tokens.now }
{
    let mut most = 0;
    for place in 0..tokens.len() {
        let token = tokens[place];
        most = most.max(most_at(script, &token, tokens_from(tokens, place + 1)));
    }
    most
}

// Whether the string has a reference to a capture that is always empty.
fn has_empty(script: &[u8], most: usize, token: &Token) -> bool
    ensures { result ≡ has_empty script.now most token.now }
{
    is_string(token.kind) && has_capture(most, inner(text_of(script, token)))
}

// The first of the tokens that has one.
fn first_empty(script: &[u8], most: usize, tokens: &[Token]) -> Option<Token>
    ensures { result ≡ find (has_empty script.now most) tokens.now }
{
    tokens
        .iter()
        .copied()
        .find(|token| has_empty(script, most, token))
}

// Whether the token is a string.
fn is_text(token: &Token) -> bool
    ensures { result ≡ is_text token.now }
{
    is_string(token.kind)
}

// The first string of the tokens.
fn first_text(tokens: &[Token]) -> Option<Token>
    ensures { result ≡ find is_text tokens.now }
{
    tokens.iter().copied().find(|token| is_text(token))
}

// Whether the command gives a variable its value.
fn gives_value(name: &[u8]) -> bool
    ensures { result ≡ gives_value name.now }
{
    is_word(name, b"set") || is_word(name, b"take")
}

// The string with the name of that variable.
fn given_by(script: &[u8], token: &Token, rest: &[Token]) -> Option<Token>
    ensures { result ≡ given_by script.now token.now rest.now }
{
    if !(is_name(token.kind) && gives_value(text_of(script, token))) {
        return None;
    }
    first_text(rest)
}

// Whether the command gives its variable a value without upper-case letters.
fn lowers(script: &[u8], token: &Token, rest: &[Token]) -> bool
    ensures { result ≡ lowers script.now token.now rest.now }
{
    is_word(text_of(script, token), b"set")
        && has_tag(script, b":lower", arguments_of(rest))
        && !has_tag(script, b":upperfirst", arguments_of(rest))
}

// The string with the name of a command's variable; if `raised`, only if the value can have upper-case letters.
fn named_by(script: &[u8], raised: bool, token: &Token, rest: &[Token]) -> Option<Token>
    ensures { result ≡ named_by script.now raised token.now rest.now }
{
    if raised && lowers(script, token, rest) {
        None
    } else {
        given_by(script, token, rest)
    }
}

// Whether the text has a backslash.
fn has_backslash(text: &[u8]) -> bool
    ensures { result ≡ list_any is_backslash text.now }
{
    text.iter().any(|octet| *octet == b'\\')
}

// Whether the string can be this name.
fn may_name(script: &[u8], name: &[u8], token: &Token) -> bool
    ensures { result ≡ may_name script.now name.now token.now }
{
    let text = inner(text_of(script, token));
    is_word(text, name) || has_backslash(text)
}

// Whether one of the strings can.
fn is_named_by(script: &[u8], given: &[Token], name: &[u8]) -> bool
    ensures { result ≡ is_named_by script.now given.now name.now }
{
    given.iter().any(|token| may_name(script, name, token))
}

// Appends the string with a name of a variable, unless one of the others has the same name.
#[tactic(auto, using(crate::proofs::Naming::with_none, crate::proofs::Naming::with_one, crate::proofs::Naming::without_it))]
fn push_given(given: &mut Vec<Token>, script: &[u8], token: Option<Token>) -> Result<(), AllocError>
    ensures { OnOk result (NameAlike script.now given.new.items (given.old.items ++ cons_option token [])) }
{
    match token {
        Some(token) => {
            if !is_named_by(script, given, inner(text_of(script, &token))) {
                given.push(token)?;
            }
            Ok(())
        }
        None => Ok(()),
    }
}

// The strings with the names of all variables that a command gives a value; if `raised`, one that can
// have upper-case letters.
fn given_of(source: &Source<'_>, raised: bool, tokens: &[Token]) -> Result<Vec<Token>, AllocError>
    ensures { IfOk result (λ given. NameAlike source.now.octets.now
        given.items (given_of source.now.octets.now raised tokens.now)) }
{
    let mut given = Vec::new(source.alloc);
    for place in 0..tokens.len() {
        let token = tokens[place];
        let rest = tokens_from(tokens, place + 1);
        push_given(
            &mut given,
            source.octets,
            named_by(source.octets, raised, &token, rest),
        )?;
    }
    Ok(given)
}

// How many bytes of a name come first.
fn name_length(text: &[u8]) -> usize
    ensures { result ≡ length (take_while continues_identifier text.now) }
{
    text.iter()
        .take_while(|octet| continues_identifier(**octet))
        .count()
}

// The name of the variable to which a reference comes first; otherwise nothing.
fn referred(text: &[u8]) -> &[u8]
    ensures { result.now ≡ referred text.now }
{
    let (start, behind) = around(text, 2);
    if start != b"${".as_slice() {
        return &[];
    }
    let (name, rest) = around(behind, name_length(behind));
    let (end, _) = around(rest, 1);
    if is_identifier(name) && end == b"}".as_slice() {
        name
    } else {
        &[]
    }
}

// Whether a reference to a variable without a value comes first.
fn refers_to_none(script: &[u8], given: &[Token], text: &[u8]) -> bool
    ensures { result ≡ refers_to_none (is_named_by script.now given.now) text.now }
{
    let name = referred(text);
    name.len() > 0 && !is_named_by(script, given, name)
}

// Whether there is such a reference anywhere.
fn lacks_value(script: &[u8], given: &[Token], text: &[u8]) -> bool
    ensures { result ≡ lacks_value (is_named_by script.now given.now) text.now }
{
    (0..text.len()).any(|place| {
        let (_, rest) = around(text, place);
        refers_to_none(script, given, rest)
    })
}

// Whether the string has such a reference.
fn has_no_value(script: &[u8], given: &[Token], token: &Token) -> bool
    ensures { result ≡ has_no_value script.now (is_named_by script.now given.now) token.now }
{
    matches!(token.kind, TokenKind::QuotedString)
        && lacks_value(script, given, inner(text_of(script, token)))
}

// The first of the tokens that has one.
fn first_without_value(script: &[u8], given: &[Token], tokens: &[Token]) -> Option<Token>
    ensures { result ≡ find (has_no_value script.now (is_named_by script.now given.now)) tokens.now }
{
    tokens
        .iter()
        .copied()
        .find(|token| has_no_value(script, given, token))
}

// Whether the text has a reference to the variable of this name.
fn refers_to(name: &[u8], text: &[u8]) -> bool
    ensures { result ≡ refers_to name.now text.now }
{
    (0..text.len()).any(|place| {
        let (_, rest) = around(text, place);
        is_word(referred(rest), name)
    })
}

// Whether the string can have one.
fn may_refer(script: &[u8], name: &[u8], token: &Token) -> bool
    ensures { result ≡ may_refer script.now name.now token.now }
{
    let text = inner(text_of(script, token));
    is_string(token.kind) && (refers_to(name, text) || has_backslash(text))
}

// Whether one of the arguments can.
fn some_refer(script: &[u8], name: &[u8], arguments: &[Token]) -> bool
    ensures { result ≡ list_any (may_refer script.now name.now) arguments.now }
{
    arguments.iter().any(|token| may_refer(script, name, token))
}

// Whether the string is this name.
fn is_named(script: &[u8], name: &[u8], token: Option<Token>) -> bool
    ensures { result ≡ is_named script.now name.now token }
{
    match token {
        Some(token) => is_word(inner(text_of(script, &token)), name),
        None => false,
    }
}

// Whether the token is another command or test that can read the variable of this name.
fn reads(script: &[u8], name: &[u8], token: &Token, rest: &[Token]) -> bool
    ensures { result ≡ reads script.now name.now token.now rest.now }
{
    is_name(token.kind)
        && !is_named(script, name, given_by(script, token, rest))
        && some_refer(script, name, arguments_of(rest))
}

// Whether one of a script with these tokens can.
fn is_read(script: &[u8], tokens: &[Token], name: &[u8]) -> bool
    ensures { result ≡ is_read script.now tokens.now name.now }
{
    for place in 0..tokens.len() {
        if reads(script, name, &tokens[place], tokens_from(tokens, place + 1)) {
            return true;
        }
    }
    false
}

// The first of the strings that can be this name.
fn first_named(script: &[u8], given: &[Token], name: &[u8]) -> Option<Token>
    ensures { result ≡ first_named script.now given.now name.now }
{
    given
        .iter()
        .copied()
        .find(|token| may_name(script, name, token))
}

// What is known of the whole script.
#[derive(Clone, Copy)]
struct Known<'t> {
    // References are expanded.
    expands: bool,
    // A test has `:matches`.
    matches: bool,
    // The most wildcards of a key of such a test.
    most: usize,
    // Strings with the names of variables that can have a value.
    given: &'t [Token],
    // Strings with the names of variables that can have a value with upper-case letters.
    raised: &'t [Token],
    // All tokens of the script.
    tokens: &'t [Token],
}

// The kind of note on a capture that is always empty.
fn capture_kind(matches: bool) -> NoteKind
    ensures { result ≡ capture_kind matches }
{
    if matches {
        NoteKind::FewWildcards
    } else {
        NoteKind::NoCapture
    }
}

// The note on a capture that is always empty in the arguments of a command or test.
fn capture_note(script: &[u8], known: Known<'_>, arguments: &[Token]) -> Option<Noted>
    ensures { result ≡ capture_note script.now (known_view script.now known.entry) arguments.now }
{
    match first_empty(script, known.most, arguments) {
        Some(token) => Some(noted_as(capture_kind(known.matches), token)),
        None => None,
    }
}

// The note on a variable without a value in the arguments of a command or test.
fn value_note(script: &[u8], known: Known<'_>, arguments: &[Token]) -> Option<Noted>
    ensures { result ≡ value_note script.now (known_view script.now known.entry) arguments.now }
{
    match first_without_value(script, known.given, arguments) {
        Some(token) => Some(noted_as(NoteKind::NoValue, token)),
        None => None,
    }
}

// Whether the token is the comparator of bytes.
fn is_octet_at(script: &[u8], token: Option<Token>) -> bool
    ensures { result ≡ is_octet_at script.now token }
{
    match token {
        Some(token) => {
            is_string(token.kind) && inner(text_of(script, &token)) == b"i;octet".as_slice()
        }
        None => false,
    }
}

// Whether the token is `:comparator`, and the one after it names the comparator of bytes.
fn names_octet(script: &[u8], token: &Token, rest: &[Token]) -> bool
    ensures { result ≡ (is_tagged script.now (codes ":comparator") token.now
        && is_octet_at script.now (slice_get rest.now 0)) }
{
    is_tagged(script, b":comparator", token) && is_octet_at(script, token_at(rest, 0))
}

// Whether a test with these arguments compares bytes.
fn compares_octets(script: &[u8], arguments: &[Token]) -> bool
    ensures { result ≡ compares_octets script.now arguments.now }
{
    for place in 0..arguments.len() {
        if names_octet(script, &arguments[place], tokens_from(arguments, place + 1)) {
            return true;
        }
    }
    false
}

// Whether the source is no variable, or one whose value can have upper-case letters.
fn is_raised(script: &[u8], raised: &[Token], token: &Token) -> bool
    ensures { result ≡ is_raised script.now (is_named_by script.now raised.now) token.now }
{
    let text = inner(text_of(script, token));
    is_string(token.kind) && (!is_reference(text) || is_named_by(script, raised, referred(text)))
}

// Whether one of the sources is no variable, or one whose value can have upper-case letters.
fn have_raised(script: &[u8], raised: &[Token], sources: &[Token]) -> bool
    ensures { result ≡ list_any (is_raised script.now (is_named_by script.now raised.now)) sources.now }
{
    sources.iter().any(|token| is_raised(script, raised, token))
}

// The note on a key with upper-case letters of a `string` with these arguments.
#[tactic(auto, unfolding(crate::specs::Notes::capital_note))]
fn capital_note(script: &[u8], known: Known<'_>, arguments: &[Token]) -> Option<Noted>
    ensures { result ≡ capital_note script.now (known_view script.now known.entry) arguments.now }
{
    if compares_octets(script, arguments)
        && !has_tag(script, b":matches", arguments)
        && !have_raised(script, known.raised, last_of(earlier_of(arguments)))
    {
        note_in(script, NoteKind::CapitalKey, last_of(arguments))
    } else {
        None
    }
}

// The same for the test with this name.
fn lower_note(script: &[u8], known: Known<'_>, name: &[u8], arguments: &[Token]) -> Option<Noted>
    ensures { result ≡ lower_note script.now (known_view script.now known.entry) name.now arguments.now }
{
    if is_word(name, b"string") {
        capital_note(script, known, arguments)
    } else {
        None
    }
}

// Whether the string is this one.
fn is_first(token: &Token, first: Option<Token>) -> bool
    ensures { result ≡ is_first token.now first }
{
    match first {
        Some(first) => token.start == first.start,
        None => false,
    }
}

// Whether nothing reads the variable with this name, which no command before gives a value.
fn is_unread(script: &[u8], known: Known<'_>, token: &Token) -> bool
    ensures { result ≡ is_unread script.now (known_view script.now known.entry) token.now }
{
    let name = inner(text_of(script, token));
    is_first(token, first_named(script, known.given, name))
        && !has_backslash(name)
        && !is_read(script, known.tokens, name)
}

// The string that names the variable to which the command with this name gives a value.
fn given_in(name: &[u8], arguments: &[Token]) -> Option<Token>
    ensures { result ≡ given_in name.now arguments.now }
{
    if gives_value(name) {
        first_text(arguments)
    } else {
        None
    }
}

// The note on a variable with this name that nothing reads.
fn unread_note(script: &[u8], known: Known<'_>, token: Option<Token>) -> Option<Noted>
    ensures { result ≡ unread_note script.now (known_view script.now known.entry) token }
{
    match token {
        Some(token) if is_unread(script, known, &token) => {
            Some(noted_as(NoteKind::Unread, token))
        }
        _ => None,
    }
}

// Whether the string of the command is the name of a loop, in which references aren't expanded.
fn names_loop(name: &[u8]) -> bool
    ensures { result ≡ names_loop name.now }
{
    is_word(name, b"foreverypart") || is_word(name, b"break")
}

// The note on what is between quotes in the arguments of the command or test with this name.
#[tactic(auto, unfolding(crate::specs::Notes::string_note))]
fn string_note(script: &[u8], known: Known<'_>, name: &[u8], arguments: &[Token]) -> Option<Noted>
    ensures { result ≡ string_note script.now (known_view script.now known.entry) name.now arguments.now }
{
    if !known.expands || names_loop(name) {
        return None;
    }
    capture_note(script, known, arguments)
        .or(value_note(script, known, arguments))
        .or(lower_note(script, known, name, arguments))
        .or(unread_note(script, known, given_in(name, arguments)))
}

// The note on the command or test with this name, before these tokens.
#[tactic(auto, unfolding(crate::specs::Notes::word_note))]
fn word_note(script: &[u8], inside: usize, name: &[u8], rest: &[Token]) -> Option<Noted>
    ensures { result ≡ word_note script.now inside name.now rest.now }
{
    let arguments = arguments_of(rest);
    test_note(script, name, arguments)
        .or(command_note(script, name, rest))
        .or(scope_note(script, inside, name, arguments))
}

// The note on the command or test that begins with the token.
#[tactic(auto, unfolding(crate::specs::Notes::note_at))]
fn note_at(
    script: &[u8],
    known: Known<'_>,
    inside: usize,
    token: Token,
    rest: &[Token],
) -> Option<Noted>
    ensures { result ≡ note_at script.now (known_view script.now known.entry) inside token rest.now }
{
    if !is_name(token.kind) {
        return None;
    }
    let name = text_of(script, &token);
    word_note(script, inside, name, rest).or(string_note(script, known, name, arguments_of(rest)))
}

// How many braces are open after one more token, from the outermost loop over parts on, whose name counts as one.
fn inside_behind(script: &[u8], token: &Token, inside: usize) -> usize
    requires { inside + 1 < 2 ^ 64 }
    ensures depth { result ≡ inside_behind script.now token.now inside }
    ensures few { result ≤ inside + 1 }
{
    if inside == 0 {
        return usize::from(is_word(text_of(script, token), b"foreverypart"));
    }
    if closes_block(token) && inside <= 2 {
        return 0;
    }
    open_behind(token.kind, inside)
}

// Appends the note, if there is one.
fn push_noted(out: &mut Vec<Noted>, noted: Option<Noted>) -> Result<(), AllocError>
    ensures kept { OnOk result (out.new.items ≡ out.old.items ++ onto noted []) }
    ensures few { OnOk result (length out.new.items ≤ length out.old.items + 1) }
{
    match noted {
        Some(noted) => {
            out.push(noted)?;
            Ok(())
        }
        None => Ok(()),
    }
}

// The notes on a script with these tokens, in order: the first ones, up to one more than are printed.
#[tactic(auto, using(crate::proofs::NoteLemmas::found_enough, crate::proofs::NoteLemmas::found_all, crate::proofs::NoteLemmas::onto_next))]
fn notes_from(
    source: &Source<'_>,
    known: Known<'_>,
    tokens: &[Token],
) -> Result<Vec<Noted>, AllocError>
    ensures { IfOk result (λ found.
        found.items ≡ take max_noted
        (notes_from source.now.octets.now
        (known_view source.now.octets.now known.entry) 0 tokens.now)) }
{
    let mut found = Vec::new(source.alloc);
    let mut inside = 0;
    for place in 0..tokens.len() {
        if found.len() == MAX_NOTED {
            return Ok(found);
        }
        let token = tokens[place];
        let rest = tokens_from(tokens, place + 1);
        push_noted(
            &mut found,
            note_at(source.octets, known, inside, token, rest),
        )?;
        inside = inside_behind(source.octets, &token, inside);
    }
    Ok(found)
}

/// The notes on a script with these tokens, in order: the first ones, up to [`MAX_NOTES`] and one more.
///
/// # Errors
///
/// `AllocError` if memory is refused.
pub fn notes_of(source: &Source<'_>, tokens: &[Token]) -> Result<Vec<Noted>, AllocError>
    ensures { IfOk result (λ found.
        found.items ≡ take max_noted (notes_of source.now.octets.now tokens.now)) }
{
    let given = given_of(source, false, tokens)?;
    let raised = given_of(source, true, tokens)?;
    let known = Known {
        expands: expands_references(source.octets, tokens),
        matches: has_tag(source.octets, b":matches", tokens),
        most: most_captures(source.octets, tokens),
        given: &given,
        raised: &raised,
        tokens,
    };
    notes_from(source, known, tokens)
}
