//! Bytes between quotes, in the form that listings and traces have.
ghost use Rattle.std.specs.Prelude.{◌≡◌, ◌++◌, ◌<◌, false, OnOk};
ghost use Rattle.std.specs.List.{flat_map};
ghost use Rattle.std.specs.Fmt.{digit_glyph};
ghost use Rattle.readable_text.specs.Quoted.{cut, escape, escaped_octet, is_plain, quoted, quoted_start, two_digits};

use std::alloc::AllocError;

/// How many bytes of a text [`put_quoted_start`] appends at most.
pub const MAX_START: usize = 80;

// A hexadecimal digit.
fn digit(n: u8) -> u8
    requires { n < 16 }
    ensures { result ≡ digit_glyph false n }
{
    if n < 10 { b'0' + n } else { b'a' - 10 + n }
}

/// Returns the two hexadecimal digits of a byte, in lower case.
pub fn two_digits(octet: u8) -> [u8; 2]
    ensures { result ≡ two_digits octet }
{
    [digit(octet / 16), digit(octet % 16)]
}

/// Returns a backslash and the two hexadecimal digits of a byte.
pub fn escape(octet: u8) -> [u8; 3]
    ensures { result ≡ escape octet }
{
    let [high, low] = two_digits(octet);
    [b'\\', high, low]
}

/// Returns whether a byte is written as it is between quotes: printable ASCII except `"` and the backslash.
pub fn is_plain(octet: u8) -> bool
    ensures { result ≡ is_plain octet }
{
    matches!(octet, 32..=126) && !matches!(octet, b'"' | b'\\')
}

// Appends a byte between quotes.
fn put_octet(out: &mut Vec<u8>, octet: u8) -> Result<(), AllocError>
    ensures { OnOk result (out.new.items ≡ out.old.items ++ escaped_octet octet) }
{
    if is_plain(octet) {
        Ok(out.push(octet)?)
    } else {
        out.extend_from_slice(&escape(octet))
    }
}

// Appends bytes in the form that they have between quotes.
fn put_escaped(out: &mut Vec<u8>, octets: &[u8]) -> Result<(), AllocError>
    ensures { OnOk result (out.new.items ≡ out.old.items ++ flat_map escaped_octet octets.now) }
{
    'octets: for octet in octets {
        put_octet(out, *octet)?;
    }
    Ok(())
}

/// Appends a text between quotes, as listings have it. A byte that [`is_plain`] refuses is written by [`escape`].
///
/// # Errors
///
/// `AllocError` if memory is refused.
pub fn put_quoted(out: &mut Vec<u8>, octets: &[u8]) -> Result<(), AllocError>
    ensures { OnOk result (out.new.items ≡ out.old.items ++ quoted octets.now) }
{
    out.push(b'"')?;
    put_escaped(out, octets)?;
    Ok(out.push(b'"')?)
}

/// Appends a text between quotes, cut if it is long: of a text with more than `most` bytes only the first `most`, and
/// then `mark` after the closing quote.
///
/// # Errors
///
/// `AllocError` if memory is refused.
pub fn put_cut(out: &mut Vec<u8>, text: &[u8], most: usize, mark: &[u8]) -> Result<(), AllocError>
    ensures { OnOk result (out.new.items ≡ out.old.items ++ cut most mark.now text.now) }
{
    if text.len() <= most {
        return put_quoted(out, text);
    }
    let (start, _) = text.split_at(most);
    put_quoted(out, start)?;
    out.extend_from_slice(mark)
}

/// Appends a text between quotes, as a trace has it: at most its first [`MAX_START`] bytes, and two dots after the
/// closing quote if there are more.
///
/// # Errors
///
/// `AllocError` if memory is refused.
#[tactic(auto, unfolding(crate::specs::Quoted::quoted_start))]
pub fn put_quoted_start(out: &mut Vec<u8>, text: &[u8]) -> Result<(), AllocError>
    ensures { OnOk result (out.new.items ≡ out.old.items ++ quoted_start text.now) }
{
    put_cut(out, text, MAX_START, b"..")
}
