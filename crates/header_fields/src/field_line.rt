// The line that begins a field.
ghost use Rattle.std.specs.Prelude.{◌≡◌, ◌↔◌, ◌==◌, IsTrue, drop, length, not};
ghost use Rattle.std.specs.List.{prefix_len};
ghost use Rattle.header_fields.specs.Hashes.{hash_of};
ghost use Rattle.header_fields.specs.Header.{after_colon, begins_with_colon, is_name_octet, name_of};
ghost use Rattle.header_fields.specs.Reading.{GivesNameHash, begins_with_name, name_octet};

use crate::name::hash_more;
use octets::{first, trim_leading_blanks};

// Each byte that is allowed in a field's name, as a small letter if it is a capital one, and 0 for any other byte.
static NAME_OCTETS: [u8; 256] = *b"\
    \x00\x00\x00\x00\x00\x00\x00\x00\x00\x00\x00\x00\x00\x00\x00\x00\
    \x00\x00\x00\x00\x00\x00\x00\x00\x00\x00\x00\x00\x00\x00\x00\x00\
    \x00!\"#$%&'()*+,-./\
    0123456789\x00;<=>?\
    @abcdefghijklmno\
    pqrstuvwxyz[\\]^_\
    `abcdefghijklmno\
    pqrstuvwxyz{|}~\x00\
    \x00\x00\x00\x00\x00\x00\x00\x00\x00\x00\x00\x00\x00\x00\x00\x00\
    \x00\x00\x00\x00\x00\x00\x00\x00\x00\x00\x00\x00\x00\x00\x00\x00\
    \x00\x00\x00\x00\x00\x00\x00\x00\x00\x00\x00\x00\x00\x00\x00\x00\
    \x00\x00\x00\x00\x00\x00\x00\x00\x00\x00\x00\x00\x00\x00\x00\x00\
    \x00\x00\x00\x00\x00\x00\x00\x00\x00\x00\x00\x00\x00\x00\x00\x00\
    \x00\x00\x00\x00\x00\x00\x00\x00\x00\x00\x00\x00\x00\x00\x00\x00\
    \x00\x00\x00\x00\x00\x00\x00\x00\x00\x00\x00\x00\x00\x00\x00\x00\
    \x00\x00\x00\x00\x00\x00\x00\x00\x00\x00\x00\x00\x00\x00\x00\x00";

// The byte as a small letter if it is a capital one; 0 if it isn't allowed in a field's name.
#[inline(always)]
fn name_octet(octet: u8) -> u8
    ensures folded { result ≡ name_octet octet }
    ensures kept { not (result == 0) ≡ is_name_octet octet }
{
    NAME_OCTETS[octet as usize]
}

// Whether the byte is allowed in a field's name.
fn is_name_octet(octet: u8) -> bool
    ensures { result ≡ is_name_octet octet }
{
    name_octet(octet) != 0
}

/// How many bytes the name at the start of the line has.
pub(crate) fn name_length(line: &[u8]) -> usize
    ensures { result ≡ length (name_of line.now) }
{
    line.iter()
        .take_while(|octet| is_name_octet(**octet))
        .count()
}

/// Whether the name at the start of the line has this length. At most one byte beyond it is read.
pub(crate) fn has_name_of_length(line: &[u8], len: usize) -> bool
    ensures { IsTrue result ↔ (length (name_of line.now) ≡ len) }
{
    if line.len() < len {
        return false;
    }
    let (start, after) = line.split_at(len);
    !begins_with_name(after) && name_length(start) >= len
}

// Whether the text begins with a byte that is allowed in a field's name.
fn begins_with_name(text: &[u8]) -> bool
    ensures { result ≡ begins_with_name text.now }
{
    match text {
        [octet, ..] => is_name_octet(*octet),
        [] => false,
    }
}

/// The hash of the line's name if it is a field line.
pub(crate) fn field_name_hash(line: &[u8]) -> Option<u32>
    ensures { GivesNameHash line.now result }
{
    let (hash, after) = split_name(line);
    if after.len() < line.len() && begins_with_colon(trim_leading_blanks(after)) {
        Some(hash)
    } else {
        None
    }
}

// The hash of the name at the start of the line, and the text after the name.
fn split_name(line: &[u8]) -> (u32, &[u8])
    ensures { (result.0 ≡ hash_of (name_of line.now)) × (result.1.now ≡ drop (prefix_len is_name_octet line.now) line.now) }
{
    let mut hash = 0;
    let mut rest = line;
    'octets: while let Some((octet, after)) = first(rest) {
        let folded = name_octet(octet);
        if folded == 0 {
            return (hash, rest);
        }
        hash = hash_more(hash, folded);
        rest = after;
    }
    (hash, rest)
}

// Whether the text begins with a colon.
fn begins_with_colon(text: &[u8]) -> bool
    ensures { result ≡ begins_with_colon text.now }
{
    matches!(text, [b':', ..])
}

/// The text after the colon of the lines of a field.
pub(crate) fn after_colon(lines: &[u8]) -> &[u8]
    ensures { result.now ≡ after_colon lines.now }
{
    let (_name, after) = lines.split_at(name_length(lines));
    match trim_leading_blanks(after) {
        [_colon, text @ ..] => text,
        [] => &lines[lines.len()..],
    }
}
