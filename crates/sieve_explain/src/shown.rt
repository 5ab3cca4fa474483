// Printing texts: escaped, and cut where they are long.
ghost use Rattle.std.specs.Prelude.{◌≡◌, ◌<◌, ◌++◌, OnOk, false, flat_map, replicate, take};
ghost use Rattle.std.specs.Fmt.{digit_glyph};
ghost use Rattle.sieve_explain.specs.Characters.{pieces};
ghost use Rattle.sieve_explain.specs.Private.{piece_of};
ghost use Rattle.sieve_explain.specs.declared.shown.Style.TheVariants.{Line};
ghost use Rattle.sieve_explain.specs.Shown.{between, cut_mark, escaped, escaped_in, if_cut, is_blank, is_plain, kept, name_octet, shown, shown_character, shown_end, shown_name, shown_piece, shown_start};

use crate::characters::{Piece, columns, count_pieces, is_visible, pieces_from, split_first};
use std::alloc::AllocError;

// How many characters are printed of a name or a string, and of a line on either side of a place.
const MAX_SHOWN: usize = 60;

/// Where a text is printed; it decides how.
#[derive(Clone, Copy)]
pub enum Style {
    /// In a line of a script, or in a whole remark, whose line breaks stay.
    Line,
    /// Under a line of a script, as spaces of the same width.
    Under,
    /// In a sentence, between two marks. This is the second mark.
    Between(u8),
}

// The last character of ASCII, a control character.
const DELETE: u8 = 127;

// A hexadecimal digit.
fn digit(n: u8) -> u8
    requires { n < 16 }
    ensures { result ≡ digit_glyph false n }
{
    if n < 10 { b'0' + n } else { b'a' - 10 + n }
}

// Appends a byte as a backslash and its two hexadecimal digits.
fn push_escaped(out: &mut Vec<u8>, octet: u8) -> Result<(), AllocError>
    ensures { OnOk result (out.new.items ≡ out.old.items ++ escaped octet) }
{
    out.extend_from_slice(&[b'\\', digit(octet / 16), digit(octet % 16)])
}

// Appends an escaped byte, or what is under it.
fn push_escaped_in(out: &mut Vec<u8>, style: Style, octet: u8) -> Result<(), AllocError>
    ensures { OnOk result (out.new.items ≡ out.old.items ++ escaped_in style octet) }
{
    match style {
        Style::Under => out.extend_from_slice(b"   "),
        Style::Line | Style::Between(_) => push_escaped(out, octet),
    }
}

// Appends escaped bytes, or what is under them.
fn push_octets(out: &mut Vec<u8>, style: Style, octets: &[u8]) -> Result<(), AllocError>
    ensures { OnOk result (out.new.items ≡ out.old.items ++ flat_map (escaped_in style) octets.now) }
{
    for octet in octets {
        push_escaped_in(out, style, *octet)?;
    }
    Ok(())
}

// Appends this many spaces.
fn push_spaces(out: &mut Vec<u8>, n: usize) -> Result<(), AllocError>
    ensures { OnOk result (out.new.items ≡ out.old.items ++ replicate n 32) }
{
    for _ in 0..n {
        out.push(b' ')?;
    }
    Ok(())
}

// Whether the character is printed as it is.
fn is_plain(style: Style, c: char) -> bool
    ensures { result ≡ is_plain style c }
{
    match style {
        Style::Line | Style::Under => is_visible(c) || c == '\n',
        Style::Between(mark) => is_visible(c) && c != mark as char && c != '\\',
    }
}

// Whether the character is printed as a space.
fn is_blank(style: Style, c: char) -> bool
    ensures { result ≡ is_blank style c }
{
    match style {
        Style::Line | Style::Under => c == '\t',
        Style::Between(_) => false,
    }
}

// Appends a character as it is, or what is under it.
fn push_kept(out: &mut Vec<u8>, style: Style, c: char, octets: &[u8]) -> Result<(), AllocError>
    ensures { OnOk result (out.new.items ≡ out.old.items ++ kept style c octets.now) }
{
    match style {
        Style::Under => push_spaces(out, columns(c)),
        Style::Line | Style::Between(_) => out.extend_from_slice(octets),
    }
}

// Appends a character as it is printed.
#[tactic(auto, unfolding(crate::specs::Shown::shown_character))]
fn push_character(out: &mut Vec<u8>, style: Style, c: char, octets: &[u8]) -> Result<(), AllocError>
    ensures { OnOk result (out.new.items ≡ out.old.items ++ shown_character style c octets.now) }
{
    if is_plain(style, c) {
        push_kept(out, style, c, octets)
    } else if is_blank(style, c) {
        out.extend_from_slice(b" ")
    } else {
        push_octets(out, style, octets)
    }
}

// Appends a piece of a text as it is printed.
fn push_piece(out: &mut Vec<u8>, style: Style, piece: Piece<'_>) -> Result<(), AllocError>
    ensures { OnOk result (out.new.items ≡ out.old.items ++ shown_piece style (piece_of piece.entry)) }
{
    match piece.found {
        Some(c) => push_character(out, style, c, piece.octets),
        None => push_octets(out, style, piece.octets),
    }
}

// Appends the first pieces of a text, at most this many.
fn push_pieces(out: &mut Vec<u8>, style: Style, text: &[u8], most: usize) -> Result<(), AllocError>
    ensures { OnOk result (out.new.items
        ≡ out.old.items ++ shown style (take most (pieces text.now))) }
{
    let mut rest = text;
    let mut left = most;
    'pieces: while left > 0 && !rest.is_empty() {
        let (piece, behind) = split_first(rest);
        push_piece(out, style, piece)?;
        rest = behind;
        left -= 1;
    }
    Ok(())
}

/// Appends a whole text, with its line breaks; all else that can't be seen is escaped.
///
/// # Errors
///
/// `AllocError` if memory is refused.
#[tactic(auto, using(std::proofs::lemmas::List::take_all))]
pub fn push_text(out: &mut Vec<u8>, text: &[u8]) -> Result<(), AllocError>
    ensures { OnOk result (out.new.items ≡ out.old.items ++ shown Line (pieces text.now)) }
{
    push_pieces(out, Style::Line, text, count_pieces(text))
}

// Appends what says that something was cut off, or what is under it.
fn push_cut_mark(out: &mut Vec<u8>, style: Style) -> Result<(), AllocError>
    ensures { OnOk result (out.new.items ≡ out.old.items ++ cut_mark style) }
{
    match style {
        Style::Under => out.extend_from_slice(b"   "),
        Style::Line | Style::Between(_) => out.extend_from_slice(b"..."),
    }
}

// Appends this, if the text is so long that it is cut.
fn push_if_cut(out: &mut Vec<u8>, style: Style, text: &[u8]) -> Result<(), AllocError>
    ensures { OnOk result (out.new.items ≡ out.old.items ++ if_cut style (pieces text.now)) }
{
    if pieces_from(text, MAX_SHOWN).is_empty() {
        return Ok(());
    }
    push_cut_mark(out, style)
}

/// Appends a text, cut after its first characters.
///
/// # Errors
///
/// `AllocError` if memory is refused.
#[tactic(auto, unfolding(crate::specs::Shown::shown_start))]
pub fn push_start(out: &mut Vec<u8>, style: Style, text: &[u8]) -> Result<(), AllocError>
    ensures { OnOk result (out.new.items ≡ out.old.items ++ shown_start style text.now) }
{
    push_pieces(out, style, text, MAX_SHOWN)?;
    push_if_cut(out, style, text)
}

/// Appends the start of a line's text before a place, cut before its last characters.
///
/// # Errors
///
/// `AllocError` if memory is refused.
pub fn push_end(out: &mut Vec<u8>, style: Style, text: &[u8]) -> Result<(), AllocError>
    ensures { OnOk result (out.new.items ≡ out.old.items ++ shown_end style text.now) }
{
    let cut = count_pieces(text).saturating_sub(MAX_SHOWN);
    push_if_cut(out, style, text)?;
    push_pieces(out, style, pieces_from(text, cut), MAX_SHOWN)
}

/// Appends a text, cut after its first characters, between what opens it and the mark that closes it.
///
/// # Errors
///
/// `AllocError` if memory is refused.
pub fn push_between(
    out: &mut Vec<u8>,
    opening: &[u8],
    text: &[u8],
    mark: u8,
) -> Result<(), AllocError>
    ensures { OnOk result (out.new.items ≡ out.old.items ++ between opening.now text.now mark) }
{
    out.extend_from_slice(opening)?;
    push_start(out, Style::Between(mark), text)?;
    out.extend_from_slice(&[mark])
}

// Appends a byte of a file's name as it is printed.
#[tactic(auto, unfolding(crate::specs::Shown::name_octet))]
fn push_name_octet(out: &mut Vec<u8>, octet: u8) -> Result<(), AllocError>
    ensures { OnOk result (out.new.items ≡ out.old.items ++ name_octet octet) }
{
    if octet >= b' ' && octet != DELETE {
        out.extend_from_slice(&[octet])
    } else {
        push_escaped(out, octet)
    }
}

/// Appends the name of a file as it is printed.
///
/// # Errors
///
/// `AllocError` if memory is refused.
pub fn push_name(out: &mut Vec<u8>, name: &str) -> Result<(), AllocError>
    ensures { OnOk result (out.new.items ≡ out.old.items ++ shown_name name.now) }
{
    for octet in name.as_bytes() {
        push_name_octet(out, *octet)?;
    }
    Ok(())
}
