// A field of a header.
//
// Contracts see whether a field is folded, so that they can say when a value is lent. The code keeps two slices of
// the text, and `unfold` looks for the first break again.
ghost use Rattle.std.specs.Prelude.{◌≡◌, ◌↔◌, ◌≤◌, ◌++◌, false, IsTrue, IfOk, IsOk, OnOk, length};
ghost use Rattle.std.specs.Cow.{cow_slice_items, IsBorrowedSlice};
ghost use Rattle.octets.specs.Ascii.{EqualIgnoringCase};
ghost use Rattle.octets.specs.Blank.{without_outer_blanks, without_trailing_blanks};
ghost use Rattle.header_fields.specs.Header.{after_colon, beginning_of, field_written, without_breaks};

use crate::field_line::{after_colon, has_name_of_length, name_length};
use crate::unfolding::joined_length;
use octets::{equal_ignoring_case, trim_blanks, trim_leading_blanks, trim_trailing_blanks};
use std::alloc::{AllocError, Global};
use std::borrow::CowSlice;
use std::marker::Model;
use text_lines::Lines;

/// A piece of at most so many bytes is copied byte by byte, because a call that copies takes longer.
const SHORT: usize = 4;

/// A field of a header, over bytes that are lent: nothing is copied.
///
/// [`crate::Header::read`] makes it; [`unfold`] gives its value. A contract sees the record of its name, its value,
/// and whether that is folded.
#[derive(Drop)]
pub struct Field<'a> {
    // Its lines with their breaks, except the last break. The end of its name isn't kept: a message can have millions
    // of fields.
    lines: &'a [u8],
}

impl<'a> Model for Field<'a> {
    ghost use Rattle.header_fields.specs.Fields.{Field};
    ghost use Rattle.header_fields.specs.Header.{field_written};

    ghost Value = { Field };

    ghost view = { λ f. field_written f.lines.now };
}

impl<'a> Field<'a> {
    // The field of its lines, with their breaks except the last.
    pub(crate) fn new(lines: &'a [u8]) -> Field<'a>
        ensures { result ≡ field_written lines.now }
    {
        Field { lines }
    }

    /// Returns the field's name, as it is written: at least one byte, from 33 to 126 and not a colon.
    pub fn name(&self) -> &'a [u8]
        ensures { result.now ≡ self.now.name }
    {
        self.lines.split_at(name_length(self.lines)).0
    }

    /// Returns how many bytes the field's lines have, including its name and the breaks between them. The value is
    /// never longer. It takes constant time.
    pub fn extent(&self) -> usize
        ensures { length self.now.value ≤ result }
    {
        self.lines.len()
    }
}

/// Returns whether the field has this name. ASCII case is ignored (RFC 5322, section 1.2.2).
pub fn name_is(field: &Field, name: &[u8]) -> bool
    ensures { IsTrue result ↔ EqualIgnoringCase field.now.name name.now }
{
    let Some(start) = field.lines.get(..name.len()) else {
        return false;
    };
    are_same(start, name) && has_name_of_length(field.lines, name.len())
}

// Whether the names are equal; ASCII case is ignored. Most names that are equal are written alike.
#[inline(always)]
fn are_same(a: &[u8], b: &[u8]) -> bool
    ensures { IsTrue result ↔ EqualIgnoringCase a.now b.now }
{
    a == b || equal_ignoring_case(a, b)
}

/// Returns the field's value: the text after its colon, unfolded, without spaces and tabs at its ends (RFC 5322,
/// section 2.2.3).
///
/// Unfolding removes the line breaks and nothing else. A value that isn't folded is lent, and takes no memory. For
/// example, the value of the field `a:b:c` is `b:c`.
///
/// # Errors
///
/// `AllocError` if memory is refused; never if the value isn't folded.
pub fn unfold<'a>(alloc: Global, field: &Field<'a>) -> Result<CowSlice<'a, u8>, AllocError>
    ensures value { IfOk result (λ value. cow_slice_items value ≡ field.now.value) }
    ensures lent { field.now.folded ≡ false → IfOk result (λ value. IsBorrowedSlice value) }
    ensures no_memory { field.now.folded ≡ false → IsOk result }
{
    unfold_start(alloc, field, field.lines.len())
}

/// Returns the first `most` bytes of the field's value, unfolded, without the spaces and tabs at their end; the whole
/// value if it is shorter. Lines that begin after these bytes aren't read.
///
/// If the value isn't folded, the bytes are lent, and take no memory.
///
/// # Errors
///
/// `AllocError` if memory is refused; never if the value isn't folded.
pub fn unfold_start<'a>(
    alloc: Global,
    field: &Field<'a>,
    most: usize,
) -> Result<CowSlice<'a, u8>, AllocError>
    ensures start { IfOk result (λ start. cow_slice_items start
        ≡ beginning_of most field.now.value) }
    ensures lent { field.now.folded ≡ false → IfOk result (λ start. IsBorrowedSlice start) }
    ensures no_memory { field.now.folded ≡ false → IsOk result }
{
    let text = after_colon(field.lines);
    match Lines::new(text).next() {
        Some(line) if line.stop < text.len() => Ok(CowSlice::Owned(joined(alloc, text, most)?)),
        Some(line) => {
            let value = trim_blanks(&text[..line.end]);
            Ok(CowSlice::Borrowed(beginning(value, most)))
        }
        None => Ok(CowSlice::Borrowed(beginning(text, most))),
    }
}

/// Returns how many bytes the field's unfolded value has. It takes no memory.
pub fn unfolded_length(field: &Field) -> usize
    ensures { result ≡ length field.now.value }
{
    joined_length(after_colon(field.lines))
}

// The first bytes of the text without its line breaks and outer blanks: so many, without the blanks at their end.
fn joined(alloc: Global, text: &[u8], most: usize) -> Result<Vec<u8>, AllocError>
    ensures { IfOk result (λ start. start.items ≡ beginning_of most (without_outer_blanks
        (without_breaks text.now))) }
{
    let mut start = Vec::with_capacity(alloc, text.len().min(most))?;
    for line in Lines::new(text) {
        let content = &text[line.start..line.end];
        let more = if start.is_empty() {
            trim_leading_blanks(content)
        } else {
            content
        };
        let (taken, _) = more.split_at(more.len().min(most - start.len()));
        append(&mut start, taken)?;
        if start.len() == most {
            return Ok(without_last_blanks(start));
        }
    }
    Ok(without_last_blanks(start))
}

// Appends a piece.
#[inline(always)]
fn append(octets: &mut Vec<u8>, piece: &[u8]) -> Result<(), AllocError>
    ensures { OnOk result (octets.new.items ≡ octets.old.items ++ piece.now) }
{
    if piece.len() > SHORT {
        octets.extend_from_slice(piece)?;
        return Ok(());
    }
    'piece: for octet in piece {
        octets.push(*octet)?;
    }
    Ok(())
}

// The bytes without the blanks at their end.
fn without_last_blanks(mut octets: Vec<u8>) -> Vec<u8>
    ensures { result.items ≡ without_trailing_blanks octets.items }
{
    let length = trim_trailing_blanks(&octets).len();
    octets.truncate(length);
    octets
}

// The first bytes of the text: so many, without the blanks at their end.
fn beginning(text: &[u8], most: usize) -> &[u8]
    ensures { result.now ≡ beginning_of most text.now }
{
    trim_trailing_blanks(&text[..text.len().min(most)])
}
