// The lines that end parts.
ghost use Rattle.std.specs.Prelude.{◌≡◌, ◌≤◌, [], length};
ghost use Rattle.text_lines.specs.Lines.{lines_of};
ghost use Rattle.mime_tree.specs.Enclosing.{first_ends_any};
ghost use Rattle.mime_tree.specs.OpenParts.{boundaries_in, cut};
ghost use Rattle.header_fields.specs.Header.{header_length};
ghost use Rattle.mime_tree.specs.Reading.{AreWithin, GivesMet, GivesHit};

use crate::delimiter::{Mark, after_dashes, name_of};
use crate::lengths::BoundaryLengths;
use crate::open_part::OpenPart;
use crate::run::Runs;
use text_lines::{Line, Lines};

/// An open part, and the meaning of a line for it.
#[derive(Clone, Copy)]
pub(crate) struct Met {
    /// Its place among the open parts.
    pub(crate) place: usize,
    /// The meaning of the line.
    pub(crate) mark: Mark,
}

/// A line that ends parts.
#[derive(Clone, Copy)]
pub(crate) struct Hit {
    /// Where the line before it ends.
    pub(crate) end: usize,
    /// The line.
    pub(crate) line: Line,
    /// The part whose line it is.
    pub(crate) met: Met,
}

/// The outermost of the open parts whose delimiter or closing line this is; their boundaries have these lengths. The
/// last of them can be before its first delimiter.
#[inline]
pub(crate) fn part_met(
    opened: &[OpenPart],
    lengths: BoundaryLengths,
    line: &[u8],
    preamble: bool,
) -> Option<Met>
    requires { AreWithin lengths opened.now }
    ensures { GivesMet preamble opened.now line.now result }
{
    let Some(name) = name_of(line) else {
        return None;
    };
    if !lengths.allow(name.len()) {
        return None;
    }
    for place in 0..opened.len() {
        let waits = preamble && place + 1 == opened.len();
        if let Some(mark) = opened[place].mark(name, waits) {
            return Some(Met { place, mark });
        }
    }
    None
}

/// Whether the first line of a text ends a child of any of these parts.
pub(crate) fn first_ends(opened: &[OpenPart], text: &[u8]) -> bool
    ensures { result ≡ first_ends_any (boundaries_in [] opened.now) (lines_of text.now) }
{
    if after_dashes(text).is_none() {
        return false;
    }
    let lengths = BoundaryLengths::of(opened);
    match Lines::new(text).next() {
        Some(line) => part_met(opened, lengths, &text[line.start..line.end], false).is_some(),
        None => false,
    }
}

/// The end of the header at the start of a text: after its first empty line, or where a line ends a child of any of
/// these parts.
pub(crate) fn header_end(opened: &[OpenPart], text: &[u8]) -> usize
    ensures { result ≡ header_length (cut (boundaries_in [] opened.now) (lines_of text.now)) }
{
    let lengths = BoundaryLengths::of(opened);
    let mut lines = Lines::new(text);
    let mut end = 0;
    'lines: while let Some(line) = lines.next() {
        if part_met(opened, lengths, &text[line.start..line.end], false).is_some() {
            return end;
        }
        if line.start == line.end {
            return if first_ends(opened, &text[line.stop..]) {
                line.end
            } else {
                line.stop
            };
        }
        end = line.end;
    }
    text.len()
}

/// The next line from a place on that is a delimiter or closing line of any open part. The lines before that place
/// end at `end`.
pub(crate) fn next_hit(
    opened: &[OpenPart],
    text: &[u8],
    place: usize,
    end: usize,
    preamble: bool,
) -> Option<Hit>
    requires { place ≤ length text.now }
    ensures { GivesHit preamble opened.now text.now place end result }
{
    let lengths = BoundaryLengths::of(opened);
    if lengths.are_none() {
        return None;
    }
    let mut lines = Runs::at(text, place);
    let mut before = end;
    'lines: while let Some(line) = lines.next_run() {
        if let Some(met) = part_met(opened, lengths, &text[line.start..line.end], preamble) {
            return Some(Hit {
                end: before,
                line,
                met,
            });
        }
        before = line.end;
    }
    None
}
