// The lines of a text, one after the other.
//
// Contracts see a text and a place, because a caller needs the bytes of a line. The list of the remaining lines is
// `lines_left`.
ghost use Rattle.std.specs.Prelude.{◌≡◌, ◌≢◌, ◌<◌, ◌≤◌, ℕ, length, slice_index};
ghost use Rattle.memchr.specs.Find.{IsFirstByte, is_byte};
ghost use Rattle.text_lines.specs.Lines.{IsLineAt};

use crate::line::Line;
use memchr::memchr;
use std::iter::FusedIterator;
use std::marker::Model;
use std::simd::prelude::*;

/// An iterator over the lines of a text, from the first to the last. It takes no memory.
///
/// A contract sees the text and the place up to which its lines have been returned.
#[derive(Drop)]
pub struct Lines<'a> {
    text: &'a [u8],
    place: usize,
}

impl<'a> Model for Lines<'a> {
    ghost use Rattle.std.specs.Prelude.{◌≤◌, length};
    ghost use Rattle.text_lines.specs.Unread.{Unread};

    ghost Value = { Unread };

    ghost view = { λ lines. record { text = lines.text.now; place = lines.place } };

    ghost invariant = { λ lines. lines.place ≤ length lines.text.now };
}

impl<'a> Lines<'a> {
    /// Returns an iterator over all lines of the text.
    pub fn new(text: &'a [u8]) -> Lines<'a>
        ensures { result ≡ record { text = text.now; place = 0 } }
    {
        Lines { text, place: 0 }
    }
}

impl<'a> Iterator for Lines<'a> {
    type Item = Line;

    ghost use Rattle.text_lines.specs.Lines.{GivesLine, lines_left_at_most};

    ghost next_gives = { GivesLine };

    ghost remaining = { lines_left_at_most };

    #[inline(always)]
    fn next(&mut self) -> Option<Line> {
        if self.place == self.text.len() {
            return None;
        }
        let line = line_at(self.text, self.place);
        self.place = line.stop;
        Some(line)
    }
}

impl<'a> FusedIterator for Lines<'a> {}

// How many bytes are searched at once, before a search is called: that is faster for shorter lines, and hardly slower
// for others.
const NEAR: usize = 16;

// The line that starts at this place.
#[inline(always)]
fn line_at(text: &[u8], start: usize) -> Line
    requires { start < length text.now }
    ensures { IsLineAt text.now start result }
{
    let Some(feed) = first_feed(&text[start..]) else {
        return Line {
            start,
            end: text.len(),
            stop: text.len(),
        };
    };
    let feed = start + feed;
    let end = if start < feed && text[feed - 1] == b'\r' {
        feed - 1
    } else {
        feed
    };
    Line {
        start,
        end,
        stop: feed + 1,
    }
}

// The place of the first LF.
#[inline(always)]
fn first_feed(text: &[u8]) -> Option<usize>
    ensures { IsFirstByte (is_byte 10) text.now result }
{
    if text.len() < NEAR {
        return first_feed_one_by_one(text);
    }
    // an empty line or one blank, as the processor guesses it, takes less time than the search
    if text[0] == b'\n' {
        return Some(0);
    }
    if text[1] == b'\n' {
        return Some(1);
    }
    let place = places_before_feed(text);
    if place < NEAR {
        return Some(place);
    }
    memchr(b'\n', text)
}

// The same for a short text.
#[inline(always)]
fn first_feed_one_by_one(text: &[u8]) -> Option<usize>
    ensures { IsFirstByte (is_byte 10) text.now result }
{
    for place in 0..text.len() {
        if text[place] == b'\n' {
            return Some(place);
        }
    }
    None
}

// How many of the first 16 places come before the first LF; 16 if there is none.
#[inline(always)]
fn places_before_feed(text: &[u8]) -> usize
    requires { 16 ≤ length text.now }
    ensures few { result ≤ 16 }
    ensures before { (k : ℕ) → k < result → slice_index text.now k ≢ 10 }
    ensures there { result < 16 → slice_index text.now result ≡ 10 }
{
    let feeds = u8x16::from_slice(text)
        .simd_eq(u8x16::splat(b'\n'))
        .to_bitmask();
    if feeds == 0 {
        return NEAR;
    }
    feeds.trailing_zeros() as usize
}
