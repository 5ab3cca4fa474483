// The lines between the parts of a multipart.
//
// A line is compared with a boundary only if its length is right: that of the boundary, or two more for the dashes of
// a closing line. With many open boundaries the length rules out most of them.
ghost use Rattle.std.specs.Prelude.{◌≡◌, ◌≢◌, ◌∷◌, MatchOption, List, ℕ};
ghost use Rattle.std.specs.Option.{option_copied};
ghost use Rattle.mime_tree.specs.Reading.{NamesOctets, mark_of};

use octets::trim_trailing_blanks;

/// The meaning of a line for a multipart.
#[derive(Clone, Copy)]
pub(crate) enum Mark {
    /// A line before another child.
    Delimiter,
    /// The line after the last child.
    Closing,
}

/// The name in a delimiter: the bytes between the two dashes at its start and the blanks at its end.
#[inline]
pub(crate) fn name_of(line: &[u8]) -> Option<&[u8]>
    ensures { NamesOctets line.now (option_copied result) }
{
    let Some(after) = after_dashes(line) else {
        return None;
    };
    Some(trim_trailing_blanks(after))
}

/// The meaning of a line with this name for the multipart with this boundary. A multipart has no closing line before
/// its first delimiter.
#[inline]
pub(crate) fn mark_of(name: &[u8], boundary: &[u8], preamble: bool) -> Option<Mark>
    ensures { result ≡ mark_of preamble boundary.now name.now }
{
    // if many are open, their lengths rule out most
    if name.len() != boundary.len() && name.len() != boundary.len() + 2 {
        return None;
    }
    if name == boundary {
        return Some(Mark::Delimiter);
    }
    if preamble {
        return None;
    }
    match name.strip_suffix(b"--") {
        Some(closed) if closed == boundary => Some(Mark::Closing),
        _ => None,
    }
}

/// The text after the two dashes at the start of a line.
#[inline]
pub(crate) fn after_dashes(line: &[u8]) -> Option<&[u8]>
    ensures { MatchOption result ((rest : List ℕ) → line.now ≢ 45 ∷ 45 ∷ rest) (λ after. line.now
        ≡ 45 ∷ 45 ∷ after.now) }
{
    match line {
        [b'-', b'-', after @ ..] => Some(after),
        _ => None,
    }
}
