// The parts of a message, by its lines from the first to the last.
//
// The tree is read in one pass over the lines, with a stack of the open parts. The definition goes from the outside
// in, over stretches of the message. A law over the definition alone says that the two agree: a part goes up to the
// first line that ends a part of any multipart around it.
ghost use Rattle.std.specs.Prelude.{◌≡◌, ◌+◌, ◌-◌, ◌<◌, ◌≤◌, [], ◌∷◌, ◌++◌, true, length, take, drop, vec_len, IfOk, IfErr, OnOk};
ghost use Rattle.octets.specs.Limits.{max_depth, max_message, max_parts};
ghost use Rattle.header_fields.specs.Header.{header_length};
ghost use Rattle.mime_tree.specs.PartTree.{tree_of, default_media};
ghost use Rattle.mime_tree.specs.OpenParts.{all_ended, boundaries_in, cut, ended_at, finished, lines_at, message_below, opening, part_read};
ghost use Rattle.mime_tree.specs.Reading.{AreAmong, BeginsChild, GivesPart, IsBeginning, wanted, wanted_from, IsRefusedFor};

use crate::delimiter::Mark;
use crate::error::MessageError;
use crate::hit::{Hit, first_ends, header_end, next_hit};
use crate::media::DefaultType;
use crate::open_part::OpenPart;
use crate::part::Part;
use crate::{MAX_DEPTH, MAX_PARTS};
use std::alloc::Global;

// Where a part begins, where the line before it ends, how many levels of parts there can be below it, and its media
// type if it has no Content-Type.
#[derive(Clone, Copy)]
struct Beginning {
    place: usize,
    end: usize,
    levels: usize,
    default: DefaultType,
}

/// The parts of a message.
///
/// The error is `TooManyParts` only if there are more than [`MAX_PARTS`], and `Memory` only if memory is refused.
pub(crate) fn message_parts<'a>(
    alloc: Global,
    text: &'a [u8],
) -> Result<Vec<Part<'a>>, MessageError>
    ensures parts { IfOk result (λ parts. (parts.items ≡ tree_of text.now)
        × (length parts.items ≤ max_parts)) }
    ensures refused { IfErr result (λ e. IsRefusedFor e (length (tree_of text.now))) }
{
    let mut parts = Vec::new(alloc);
    let mut opened = Vec::new(alloc);
    let mut next = Some(Beginning {
        place: 0,
        end: 0,
        levels: MAX_DEPTH - 1,
        default: DefaultType::Text,
    });
    'parts: while let Some(beginning) = next {
        next = read_part(alloc, text, beginning, &mut parts, &mut opened)?;
    }
    parts.shrink_to_fit();
    Ok(parts)
}

// Reads the part that begins here, and then the lines up to the next.
fn read_part<'a>(
    alloc: Global,
    text: &'a [u8],
    beginning: Beginning,
    parts: &mut Vec<Part<'a>>,
    opened: &mut Vec<OpenPart>,
) -> Result<Option<Beginning>, MessageError>
    requires beginning { IsBeginning text.now beginning }
    requires few { vec_len parts.old ≤ max_parts }
    requires among { AreAmong (vec_len parts.old) opened.old.items }
    ensures next { IfOk result (λ next. GivesPart text.now next) }
    ensures among { OnOk result (AreAmong (vec_len parts.new) opened.new.items) }
    ensures same { IfOk result (λ next. wanted text.now next opened.new.items parts.new.items
        ≡ wanted_from text.now beginning opened.old.items parts.old.items) }
    ensures few { OnOk result ((vec_len parts.new ≡ vec_len parts.old + 1)
        × (vec_len parts.new ≤ max_parts)) }
    ensures refused { IfErr result (λ e. IsRefusedFor e
        (length (wanted_from text.now beginning opened.old.items parts.old.items))) }
{
    if parts.len() == MAX_PARTS {
        return Err(MessageError::TooManyParts);
    }
    let (part, header) = read_header(alloc, text, beginning, opened.as_slice())?;
    let holds_message = add_part(alloc, part, beginning.levels, parts, opened)?;
    let body = beginning.place + header;
    if holds_message {
        return Ok(Some(Beginning {
            place: body,
            end: beginning.end,
            levels: beginning.levels - 1,
            default: DefaultType::Text,
        }));
    }
    Ok(next_part(text, body, beginning.end, parts, opened))
}

// The part that begins here, and how many bytes its header has.
fn read_header<'a>(
    alloc: Global,
    text: &'a [u8],
    beginning: Beginning,
    opened: &[OpenPart],
) -> Result<(Part<'a>, usize), MessageError>
    requires { IsBeginning text.now beginning }
    ensures header { IfOk result (λ read. read.1 ≡ header_length (cut (boundaries_in [] opened.now)
        (lines_at text.now beginning.place))) }
    ensures within { IfOk result (λ read. beginning.place + read.1 ≤ length text.now) }
    ensures part { IfOk result (λ read. read.0 ≡ part_read (max_depth - beginning.levels)
        (default_media beginning.default) beginning.place (drop beginning.place text.now) read.1) }
    ensures refused { IfErr result (λ e. e ≡ MessageError.Memory) }
{
    let rest = &text[beginning.place..];
    let header = header_end(opened, rest);
    let part = Part::read(
        alloc,
        MAX_DEPTH - beginning.levels,
        beginning.default,
        beginning.place,
        rest,
        header,
    )?;
    Ok((part, header))
}

// Appends a part that was read, and opens it. Returns whether its body is its only child.
fn add_part<'a>(
    alloc: Global,
    part: Part<'a>,
    levels: usize,
    parts: &mut Vec<Part<'a>>,
    opened: &mut Vec<OpenPart>,
) -> Result<bool, MessageError>
    requires { levels < max_depth }
    ensures parts { OnOk result (parts.new.items ≡ parts.old.items ++ part.entry ∷ []) }
    ensures len { OnOk result (vec_len parts.new ≡ vec_len parts.old + 1) }
    ensures opened { OnOk result (opened.new.items ≡ opened.old.items ++ opening
        (length parts.old.items) levels part.entry ∷ []) }
    ensures message { IfOk result (λ holds. holds ≡ message_below levels part.entry) }
    ensures refused { IfErr result (λ e. e ≡ MessageError.Memory) }
{
    opened.push(OpenPart::new(alloc, &part, parts.len(), levels)?)?;
    let holds_message = levels > 0 && part.holds_message();
    parts.push(part)?;
    Ok(holds_message)
}

// Goes over the lines from this place on, up to the next that begins a part, and ends parts on the way; if there is
// no such line, all of them.
fn next_part(
    text: &[u8],
    place: usize,
    end: usize,
    parts: &mut Vec<Part>,
    opened: &mut Vec<OpenPart>,
) -> Option<Beginning>
    requires within { place ≤ length text.now }
    requires before { end ≤ place }
    requires among { AreAmong (vec_len parts.old) opened.old.items }
    ensures next { GivesPart text.now result }
    ensures among { AreAmong (vec_len parts.new) opened.new.items }
    ensures same { wanted text.now result opened.new.items parts.new.items
        ≡ finished true [] place end (lines_at text.now place) opened.old.items parts.old.items }
    ensures len { vec_len parts.new ≡ vec_len parts.old }
{
    let mut place = place;
    let mut end = end;
    let mut preamble = true;
    'lines: while let Some(hit) = next_hit(opened.as_slice(), text, place, end, preamble) {
        end_parts(parts, opened, hit.met.place + 1, hit.end);
        if let Mark::Delimiter = hit.met.mark {
            return Some(child_after(text, &hit, opened.as_slice()));
        }
        opened[hit.met.place].close();
        place = hit.line.stop;
        end = hit.line.end;
        preamble = false;
    }
    end_parts(parts, opened, 0, text.len());
    None
}

// The child that begins after a delimiter line of this open part. It begins before the line's break if the next line
// ends a part around its multipart, because that break isn't the multipart's either.
fn child_after(text: &[u8], hit: &Hit, opened: &[OpenPart]) -> Beginning
    requires place { hit.now.met.place < length opened.now }
    requires line { hit.now.line.stop ≤ length text.now }
    requires ordered { hit.now.line.end ≤ hit.now.line.stop }
    ensures { BeginsChild text.now hit.now opened.now result }
{
    let part = &opened[hit.met.place];
    let around = &opened[..hit.met.place];
    let place = if first_ends(around, &text[hit.line.stop..]) {
        hit.line.end
    } else {
        hit.line.stop
    };
    Beginning {
        place,
        end: hit.line.end,
        levels: part.levels(),
        default: part.default(),
    }
}

// Ends the open parts from this one on, the innermost first.
fn end_parts(parts: &mut Vec<Part>, opened: &mut Vec<OpenPart>, keep: usize, end: usize)
    requires keep { keep ≤ vec_len opened.old }
    requires among { AreAmong (vec_len parts.old) opened.old.items }
    ensures parts { parts.new.items ≡ all_ended end (drop keep opened.old.items) parts.old.items }
    ensures opened { opened.new.items ≡ take keep opened.old.items }
    ensures len { vec_len parts.new ≡ vec_len parts.old }
{
    let mut left = opened.len();
    'inner: while left > keep {
        left -= 1;
        end_part(parts, opened[left].at(), end);
    }
    opened.truncate(keep);
}

// Ends the part at this place among the parts: those after it are below it.
fn end_part(parts: &mut Vec<Part>, at: usize, end: usize)
    requires { at < vec_len parts.old }
    ensures parts { parts.new.items ≡ ended_at at end parts.old.items }
    ensures len { vec_len parts.new ≡ vec_len parts.old }
{
    let below = parts.len() - at - 1;
    let part = &mut parts[at];
    part.end(end, below);
}
