// Thirty-two places of a value at a time.
ghost use Rattle.std.specs.Prelude.{◌≡◌, ◌+◌, ◌≤◌, ◌<◌, ◌==◌, ℕ, List, [], ◌∷◌, true, false, drop, length, map};
ghost use Rattle.std.specs.List.{list_any, position_or_len};
ghost use Rattle.std.specs.Simd.Lanes.{zip2};
ghost use Rattle.glob_match.specs.Comparison.{compared_octet};
ghost use Rattle.glob_match.specs.Containment.{begins_with};
ghost use Rattle.glob_match.specs.Segments.{NoStar, kept_if, marked};
ghost use Rattle.glob_match.specs.Tokens.{tokens_of};

use crate::comparator::Comparator;
use crate::token::{Token, first_token};
use octet_lanes::ascii_upper_lanes;
use std::simd::prelude::*;

/// How many of the first 32 places of the value come before the first place from which on it begins with the segment.
pub(crate) fn places_before(value: &[u8], segment: &[u8], comparator: Comparator) -> usize
    requires room { 31 + length (tokens_of segment.now) ≤ length value.now }
    requires no_star { NoStar (tokens_of segment.now) }
    ensures few { result ≤ 32 }
    ensures before { (j : ℕ) → j < result → begins_with comparator (tokens_of segment.now)
        (drop j value.now) ≡ false }
    ensures there { result < 32 → begins_with comparator (tokens_of segment.now)
        (drop result value.now) ≡ true }
{
    // 255 for the places that fit the tokens before this one
    let mut kept = u8x32::splat(255);
    let mut octets = value;
    let mut tokens = segment;
    'tokens: while let Some((token, rest)) = first_token(tokens) {
        kept = kept_by(token, octets, comparator, kept);
        if !any_kept(kept) {
            return 32;
        }
        let (_, after) = octets.split_at(1);
        octets = after;
        tokens = rest;
    }
    before_kept(kept)
}

// What is kept in the lanes whose byte the token matches, and 0 in the others.
#[inline(always)]
fn kept_by(token: Token, octets: &[u8], comparator: Comparator, kept: u8x32) -> u8x32
    requires room { 32 ≤ length octets.now }
    requires no_star { NoStar (token ∷ []) }
    ensures lanes { length result ≡ 32 }
    ensures marks { (key : List Token)
        → marked (begins_with comparator (token ∷ key)) kept octets.now
        ≡ marked (begins_with comparator key) result (drop 1 octets.now) }
{
    let Token::Literal(literal) = token else {
        return kept;
    };
    let Some(lanes) = octets.first_chunk::<32>() else {
        return kept;
    };
    kept_where(
        compared_lanes(lanes, comparator),
        comparator.compared(literal),
        kept,
    )
}

// The bytes that are compared instead of these.
#[inline(always)]
fn compared_lanes(octets: &[u8; 32], comparator: Comparator) -> u8x32
    ensures { result ≡ map (compared_octet comparator) octets.now }
{
    match comparator {
        Comparator::Octet => u8x32::from_array(*octets),
        Comparator::Casemap => u8x32::from_array(ascii_upper_lanes(octets)),
    }
}

// What is kept in the lanes that are equal to the byte, and 0 in the others.
#[inline(always)]
fn kept_where(lanes: u8x32, octet: u8, kept: u8x32) -> u8x32
    ensures { result ≡ zip2 (kept_if octet) lanes kept }
{
    lanes
        .simd_eq(u8x32::splat(octet))
        .select(kept, u8x32::splat(0))
}

#[inline(always)]
fn any_kept(kept: u8x32) -> bool
    ensures { result ≡ list_any (λ mark. mark == 255) kept }
{
    kept.simd_eq(u8x32::splat(255)).to_bitmask() != 0
}

// How many lanes come before the first that is kept.
#[inline(always)]
fn before_kept(kept: u8x32) -> usize
    ensures { result ≡ position_or_len (λ mark. mark == 255) kept }
{
    let marks = kept.simd_eq(u8x32::splat(255)).to_bitmask();
    if marks == 0 {
        return 32;
    }
    marks.trailing_zeros() as usize
}
