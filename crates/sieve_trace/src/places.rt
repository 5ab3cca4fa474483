// The places of a script's tokens.
ghost use Rattle.std.specs.Prelude.{◌≡◌, ◌≤◌, ◌<◌, ◌+◌, ◌++◌, ◌^◌, List, IfOk, IfErr, OnOk, length, min};
ghost use Rattle.std.specs.Prelude.{if◌then◌else◌, slice_get, slice_range};
ghost use Rattle.octets.specs.Limits.{max_script};
ghost use Rattle.readable_text.specs.Places.{is_line_feed};
ghost use Rattle.sieve_lexer.specs.Tokens.{AreTokens, IsLexicalRefusal};
ghost use Rattle.sieve_lexer.specs.declared.token.Token.{Token as Piece};
ghost use Rattle.sieve_trace.specs.Pieces.{Rise, pieces};
ghost use Rattle.sieve_trace.specs.Places.{place_at, place_text, places_of};
ghost use Rattle.sieve_trace.specs.Printed.{place_in};

use crate::words::push_number;
use sieve_lexer::{LexicalError, Token, tokens};
use std::alloc::{AllocError, Global};
use std::marker::Model;

/// The places of a script's tokens, each as the lines of a trace have it: its line and its column in bytes, counted
/// from 1, with a colon before, between and after them. [`token_places`] makes it; [`crate::trace`] reads it.
///
/// A contract sees the list of these texts.
#[derive(Drop)]
pub struct Places {
    // All texts, one after the other.
    texts: Vec<u8>,
    // Where each text begins, and where the last one ends.
    bounds: Vec<u32>,
}

impl Model for Places {
    ghost use Rattle.std.specs.Prelude.{ℕ, List, length};
    ghost use Rattle.sieve_trace.specs.Pieces.{Rise, pieces};

    ghost Value = { List (List ℕ) };

    ghost view = { λ p. pieces p.texts.items p.bounds.items };

    ghost invariant = { λ p. Rise p.bounds.items (length p.texts.items) };
}

impl Places {
    /// The text of a token's place; a colon if the token has none.
    #[inline(always)]
    pub(crate) fn text(&self, at: usize) -> &[u8]
        ensures { result.now ≡ place_in (slice_get self.now at) }
    {
        if at < self.bounds.len() - 1 {
            let start = self.bounds[at] as usize;
            let end = self.bounds[at + 1] as usize;
            piece(&self.texts, start, end)
        } else {
            b":"
        }
    }
}

// A piece of a text.
#[inline(always)]
fn piece(text: &[u8], start: usize, end: usize) -> &[u8]
    requires rises { start ≤ end }
    requires within { end ≤ length text.now }
    ensures { result.now ≡ slice_range text.now start end }
{
    &text[start..end]
}

/// A place in a script: its line and its column in bytes, both counted from 1.
#[derive(Clone, Copy)]
pub struct Place {
    /// The line, counted from 1.
    pub line: usize,
    /// The column in bytes, counted from 1.
    pub column: usize,
}

// Where a script begins.
const FIRST: Place = Place { line: 1, column: 1 };

/// Finds the place of each token of a script, reading it once.
///
/// # Errors
///
/// Those of [`tokens`]: memory is refused, the script is too long, or it isn't made of tokens.
pub fn token_places(alloc: Global, script: &[u8]) -> Result<Places, LexicalError>
    ensures places { IfOk result (λ places. (pieces : List Piece) × AreTokens script.now pieces
        × (places ≡ places_of script.now pieces)) }
    ensures refused { IfErr result (λ e. IsLexicalRefusal script.now e) }
{
    let tokens = tokens(alloc, script)?;
    let (texts, bounds) = texts_of(alloc, script, &tokens)?;
    Ok(Places { texts, bounds })
}

// The places of tokens in one text, and their bounds in it.
fn texts_of(
    alloc: Global,
    script: &[u8],
    tokens: &[Token],
) -> Result<(Vec<u8>, Vec<u32>), AllocError>
    requires short { length script.now ≤ max_script }
    requires few { length tokens.now ≤ max_script }
    ensures places { IfOk result (λ r. pieces r.0.items r.1.items ≡ places_of script.now tokens.now) }
    ensures bounds { IfOk result (λ r. Rise r.1.items (length r.0.items)) }
{
    let mut texts = Vec::new(alloc);
    let mut bounds = Vec::new(alloc);
    bounds.push(0)?;
    let mut octet = 0;
    let mut place = FIRST;
    'tokens: for token in tokens {
        let start = start_in(script, token);
        place = moved(script, octet, place, start);
        octet = start;
        push_place(&mut texts, place)?;
        bounds.push(texts.len() as u32)?;
    }
    Ok((texts, bounds))
}

// Appends a place.
#[tactic(auto, unfolding(crate::specs::Places::place_text))]
fn push_place(out: &mut Vec<u8>, place: Place) -> Result<(), AllocError>
    ensures { OnOk result (out.new.items ≡ out.old.items ++ place_text place) }
{
    out.extend_from_slice(b":")?;
    push_number(out, place.line as u64)?;
    out.extend_from_slice(b":")?;
    push_number(out, place.column as u64)?;
    out.extend_from_slice(b":")
}

// Where a token begins, or the end of the script if that comes first.
fn start_in(script: &[u8], token: &Token) -> usize
    ensures { result ≡ min token.now.start (length script.now) }
{
    token.start.min(script.len())
}

// The place of a byte, from the place of another one, which is usually earlier.
fn moved(script: &[u8], from: usize, place: Place, to: usize) -> Place
    requires from { place ≡ place_at script.now from }
    requires within { to ≤ length script.now }
    requires small { length script.now ≤ max_script }
    ensures { result ≡ place_at script.now to }
{
    if from <= to {
        forward(script, from, place, to)
    } else {
        forward(script, 0, FIRST, to)
    }
}

// The place of a byte, from the place of one that isn't after it.
fn forward(script: &[u8], from: usize, place: Place, to: usize) -> Place
    requires from { place ≡ place_at script.now from }
    requires forward { from ≤ to }
    requires within { to ≤ length script.now }
    requires small { length script.now ≤ max_script }
    ensures { result ≡ place_at script.now to }
{
    let mut place = place;
    'octets: for octet in from..to {
        place = next(place, script[octet]);
    }
    place
}

// The place after a byte.
fn next(place: Place, octet: u8) -> Place
    requires line { place.line + 1 < 2 ^ 64 }
    requires column { place.column + 1 < 2 ^ 64 }
    ensures { result ≡ (if is_line_feed octet then record { line = place.line + 1; column = 1 }
        else record { line = place.line; column = place.column + 1 }) }
{
    if octet == b'\n' {
        Place {
            line: place.line + 1,
            column: 1,
        }
    } else {
        Place {
            line: place.line,
            column: place.column + 1,
        }
    }
}
