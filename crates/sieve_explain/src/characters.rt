// A text as its characters, which of them can be seen, and how many columns they take.
ghost use Rattle.std.specs.Prelude.{◌≡◌, ◌<◌, ◌∷◌, drop, length};
ghost use Rattle.sieve_explain.specs.Characters.{columns, first_piece, is_graphic, is_sign, is_visible, more_octets, octets_after_first, pieces};
ghost use Rattle.sieve_explain.specs.Private.{piece_of};

use bstr::decode_utf8;
use readable_text::places::around;
use ucd_category::{GeneralCategory, GeneralCategoryGroup};
use unicode_width::UnicodeWidthChar;

/// A character of a text, or a byte that begins none.
#[derive(Clone, Copy)]
pub struct Piece<'a> {
    /// The character; `None` for a byte that begins none.
    pub found: Option<char>,
    /// The bytes of the character, or that byte.
    pub octets: &'a [u8],
}

// How many bytes a character of that size has after its first one; none, if there is no character.
fn octets_after_first(found: Option<char>, size: usize) -> usize
    ensures { result ≡ octets_after_first found size }
{
    match found {
        Some(_) => size.saturating_sub(1),
        None => 0,
    }
}

/// The first piece of a text that isn't empty, and the bytes after it.
#[tactic(auto, unfolding(crate::specs::Characters::more_octets))]
pub fn split_first(text: &[u8]) -> (Piece<'_>, &[u8])
    requires { 0 < length text.now }
    ensures pieces { pieces text.now ≡ piece_of result.0 ∷ pieces result.1.now }
    ensures shorter { length result.1.now < length text.now }
{
    let (found, size) = decode_utf8(text);
    let more = octets_after_first(found, size);
    let (octets, rest) = around(text, more + 1);
    (Piece { found, octets }, rest)
}

/// The bytes of the first piece of a text; none, if the text is empty.
#[tactic(auto, unfolding(crate::specs::Characters::more_octets))]
pub fn first_octets(text: &[u8]) -> &[u8]
    ensures { result.now ≡ (first_piece text.now).octets }
{
    let (found, size) = decode_utf8(text);
    let (octets, _) = around(text, octets_after_first(found, size) + 1);
    octets
}

/// How many pieces the text has.
pub fn count_pieces(text: &[u8]) -> usize
    ensures { result ≡ length (pieces text.now) }
{
    let mut rest = text;
    let mut count = 0;
    'pieces: while !rest.is_empty() {
        let (_, behind) = split_first(rest);
        rest = behind;
        count += 1;
    }
    count
}

/// The text from that piece on, the first being 0.
pub fn pieces_from(text: &[u8], number: usize) -> &[u8]
    ensures { pieces result.now ≡ drop number (pieces text.now) }
{
    let mut rest = text;
    let mut left = number;
    'pieces: while left > 0 && !rest.is_empty() {
        let (_, behind) = split_first(rest);
        rest = behind;
        left -= 1;
    }
    rest
}

// Whether the character is printable ASCII.
fn is_graphic(c: char) -> bool
    ensures { result ≡ is_graphic c }
{
    matches!(c, ' '..='~')
}

// Whether a character outside of ASCII can be seen and stays in its place.
#[tactic(auto, unfolding(crate::specs::Characters::is_sign))]
fn is_sign(c: char) -> bool
    ensures { result ≡ is_sign c }
{
    let category = GeneralCategory::for_char(c);
    !(GeneralCategoryGroup::Other.contains(category)
        || GeneralCategoryGroup::Separator.contains(category))
}

/// Whether a character can be printed as it is: it can be seen, and moves nothing else.
pub fn is_visible(c: char) -> bool
    ensures { result ≡ is_visible c }
{
    if c.is_ascii() {
        is_graphic(c)
    } else {
        is_sign(c)
    }
}

/// How many columns of a terminal a character takes.
#[tactic(auto, unfolding(crate::specs::Characters::columns))]
pub fn columns(c: char) -> usize
    ensures { result ≡ columns c }
{
    match c.width() {
        Some(width) => width,
        None => 0,
    }
}
