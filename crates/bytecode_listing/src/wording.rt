// Words for numbers: how a test compares, and what it looks at.
ghost use Rattle.std.specs.Prelude.{◌≡◌, ◌+◌, ◌*◌, ◌<◌, map, bytes_eq, unwrap_or, length, option_map, IfSome};
ghost use Rattle.std.specs.List.{position};
ghost use Rattle.bytecode_listing.specs.Tokens.{tokens_of};
ghost use Rattle.bytecode_listing.specs.Items.{facet_at, joined, match_at, selection_at, worded_as, worded_at};
ghost use Rattle.bytecode_listing.specs.Wording.{number_of, word_of, words};

use crate::tokens::leading_word;
use bytecode_format::Operation;
use bytecode_verifier::{Range, row_of};

/// A property of a test that has words.
#[derive(Clone, Copy)]
pub enum Facet {
    /// How a key has to match a value.
    Match,
    /// Which bytes are the same.
    Comparator,
    /// Which parts' fields are looked at.
    Scope,
    /// What is taken of a field.
    Selector,
}

/// The words of a match, from number 0 on.
const MATCHES: &[&str] = &["is", "contains", "matches"];

/// The words of a comparator, from number 0 on.
const COMPARATORS: &[&str] = &["casemap", "octet"];

/// The words of a scope, from number 0 on.
const SCOPES: &[&str] = &["message", "part", "below"];

/// The words of a selector, from number 0 on.
const SELECTORS: &[&str] = &["value", "type", "subtype", "contenttype", "param"];

/// The factor of the comparator in a match number.
const COMPARATOR: u8 = 4;

/// The factor of the scope in a selection.
const SCOPE: u8 = 8;

/// The factor of the selector in a selection.
const SELECTOR: u8 = 32;

/// The factor of the parameters in the field c of HEADER; the keys have factor 1.
pub const COUNTS: u32 = 65_536;

// The words of a facet; the number of each is its place.
fn words(facet: Facet) -> &'static [&'static str]
    ensures { map (λ word. word.now) result.now ≡ words facet }
{
    match facet {
        Facet::Match => MATCHES,
        Facet::Comparator => COMPARATORS,
        Facet::Scope => SCOPES,
        Facet::Selector => SELECTORS,
    }
}

/// The word of a number, if it has one.
pub fn word_of(facet: Facet, number: u8) -> Option<&'static str>
    ensures { option_map (λ word. word.now) result ≡ word_of facet number }
{
    words(facet).get(number as usize).copied()
}

// The place of a word among those that are listed.
fn place_in(listed: &[&str], word: &[u8]) -> Option<usize>
    ensures { result ≡ position (λ w. bytes_eq w.now word.now) listed.now }
{
    listed.iter().position(|listed| listed.as_bytes() == word)
}

// The number of a word, if it is one of the facet's.
fn number_of(facet: Facet, word: &[u8]) -> Option<usize>
    ensures number { result ≡ number_of facet word.now }
    ensures small { IfSome result (λ n. n < length (words facet)) }
{
    place_in(words(facet), word)
}

// Reads the word of a facet, if one comes first.
#[tactic(auto, unfolding(crate::specs::Items::facet_at))]
fn facet_of(octets: &[u8], facet: Facet) -> (Option<u8>, &[u8])
    ensures read { (result.0, tokens_of result.1.now) ≡ facet_at facet (tokens_of octets.now) }
    ensures small { IfSome result.0 (λ n. n < length (words facet)) }
{
    let (word, rest) = leading_word(octets);
    match number_of(facet, word) {
        Some(number) => (Some(number as u8), rest),
        None => (None, octets),
    }
}

// Two numbers in one, the second times `unit`. A missing one is 0, unless both are missing.
fn joined(first: Option<u8>, unit: u8, second: Option<u8>) -> Option<u8>
    requires { unwrap_or first 0 + unit * unwrap_or second 0 < 256 }
    ensures { result ≡ joined first unit second }
{
    match (first, second) {
        (None, None) => None,
        _ => Some(first.unwrap_or(0) + unit * second.unwrap_or(0)),
    }
}

// Reads a match number in words.
#[tactic(auto, unfolding(crate::specs::Items::match_at))]
fn match_of(octets: &[u8]) -> (Option<u8>, &[u8])
    ensures read { (result.0, tokens_of result.1.now) ≡ match_at (tokens_of octets.now) }
    ensures small { IfSome result.0 (λ n. n < 8) }
{
    let (matched, rest) = facet_of(octets, Facet::Match);
    let (comparator, rest) = facet_of(rest, Facet::Comparator);
    (joined(matched, COMPARATOR, comparator), rest)
}

// Reads a selection in words.
#[tactic(auto, unfolding(crate::specs::Items::selection_at))]
fn selection_of(octets: &[u8]) -> (Option<u8>, &[u8])
    ensures { (result.0, tokens_of result.1.now) ≡ selection_at (tokens_of octets.now) }
{
    let (matched, rest) = match_of(octets);
    let (scope, rest) = facet_of(rest, Facet::Scope);
    let (selector, rest) = facet_of(rest, Facet::Selector);
    (
        joined(joined(matched, SCOPE, scope), SELECTOR, selector),
        rest,
    )
}

// Reads the field a in words, if its range is one of ways to compare or of what is looked at.
fn worded_as(octets: &[u8], range: Range) -> (Option<u8>, &[u8])
    ensures { (result.0, tokens_of result.1.now) ≡ worded_as range (tokens_of octets.now) }
{
    match range {
        Range::FieldTest => selection_of(octets),
        Range::Scope => facet_of(octets, Facet::Scope),
        Range::Match => match_of(octets),
        _ => (None, octets),
    }
}

/// Reads the field a of an operation in words.
pub fn worded_of(octets: &[u8], operation: Option<Operation>) -> (Option<u8>, &[u8])
    ensures { (result.0, tokens_of result.1.now) ≡ worded_at operation (tokens_of octets.now) }
{
    match operation {
        Some(operation) => worded_as(octets, row_of(operation).a),
        None => (None, octets),
    }
}
