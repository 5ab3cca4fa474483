//! The line and the column of a place in a text, and the text of its line.
ghost use Rattle.std.specs.Prelude.{◌≡◌, ◌≤◌, drop, length, take};
ghost use Rattle.readable_text.specs.Places.{is_in_line, is_line_feed, line_at, line_number, octets_after, octets_before, without_return};

/// Splits a text at a place: returns the bytes before the place and those from it on.
///
/// A place beyond the end of the text counts as its end, so the second part is empty.
#[tactic(auto, using(std::proofs::lemmas::List::take_min, std::proofs::lemmas::List::drop_min))]
pub fn around(text: &[u8], place: usize) -> (&[u8], &[u8])
    ensures before { result.0.now ≡ take place text.now }
    ensures after { result.1.now ≡ drop place text.now }
{
    text.split_at(place.min(text.len()))
}

// Whether the byte ends a line.
fn is_line_feed(octet: &&u8) -> bool
    ensures { result ≡ is_line_feed octet.now.now }
{
    **octet == b'\n'
}

/// Returns the number of the line that the place is in, counted from 1. Lines end with LF.
///
/// # Requires
///
/// The place is in the text or at its end: `place <= text.len()`.
#[tactic(auto, unfolding(crate::specs::Places::line_number))]
pub fn line_number(text: &[u8], place: usize) -> u128
    requires { place ≤ length text.now }
    ensures { result ≡ line_number text.now place }
{
    let breaks = text[..place].iter().filter(is_line_feed).count();
    breaks as u128 + 1
}

// Whether the byte is part of a line.
fn is_in_line(octet: &&u8) -> bool
    ensures { result ≡ is_in_line octet.now.now }
{
    **octet != b'\n'
}

/// Returns how many bytes of the place's line come before the place. It is the column of the place, counted from 0.
///
/// # Requires
///
/// The place is in the text or at its end: `place <= text.len()`.
#[tactic(auto, unfolding(crate::specs::Places::octets_before))]
pub fn octets_before(text: &[u8], place: usize) -> usize
    requires { place ≤ length text.now }
    ensures { result ≡ octets_before text.now place }
{
    text[..place].iter().rev().take_while(is_in_line).count()
}

// How many bytes of the place's line come from the place on.
#[tactic(auto, unfolding(crate::specs::Places::octets_after))]
fn octets_after(text: &[u8], place: usize) -> usize
    requires { place ≤ length text.now }
    ensures { result ≡ octets_after text.now place }
{
    let (_, rest) = text.split_at(place);
    rest.iter().take_while(is_in_line).count()
}

// The text without the CR at its end, if it ends with one.
#[tactic(auto, unfolding(crate::specs::Places::without_return))]
fn without_return(text: &[u8]) -> &[u8]
    ensures { result.now ≡ without_return text.now }
{
    match text.last() {
        Some(b'\r') => &text[..text.len() - 1],
        _ => text,
    }
}

/// Returns the line that the place is in, without its LF or CRLF.
///
/// # Requires
///
/// The place is in the text or at its end: `place <= text.len()`.
#[tactic(auto, unfolding(crate::specs::Places::octets_before, crate::specs::Places::octets_after))]
pub fn line_at(text: &[u8], place: usize) -> &[u8]
    requires { place ≤ length text.now }
    ensures { result.now ≡ line_at text.now place }
{
    let start = place - octets_before(text, place);
    let end = place + octets_after(text, place);
    without_return(&text[start..end])
}
