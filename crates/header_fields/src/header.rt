// The header of a message or part.
ghost use Rattle.std.specs.Prelude.{◌≡◌, ◌<◌, ◌≤◌, length, IfOk};
ghost use Rattle.text_lines.specs.Lines.{IsLineAt};
ghost use Rattle.header_fields.specs.Header.{header_of, fields_of, body_start_of, begins_blank};
ghost use Rattle.header_fields.specs.Extent.{IsHeader};
ghost use Rattle.header_fields.specs.Reading.{IsContinued, IsFieldAt, GivesContinuation};

use crate::field::Field;
use crate::field_line::field_name_hash;
use crate::named::NamedFields;
use std::alloc::{AllocError, Global};
use std::marker::Model;
use text_lines::{Line, Lines};

/// The header at the start of a text, over bytes that are lent: nothing is copied.
///
/// [`Header::read`] makes it; [`Header::fields`] gives its fields. A contract sees the record of its fields and of
/// the place where the body begins.
#[derive(Drop)]
pub struct Header<'a> {
    fields: NamedFields<'a>,
    body_start: usize,
}

impl<'a> Model for Header<'a> {
    ghost use Rattle.header_fields.specs.Header.{Header};

    ghost Value = { Header };

    ghost view = { λ h. record { fields = h.fields; body_start = h.body_start } };

    ghost use Rattle.std.specs.Prelude.{◌≤◌};
    ghost use Rattle.header_fields.specs.Extent.{fields_extent};

    ghost invariant = { λ h. fields_extent h.fields ≤ h.body_start };
}

impl<'a> Header<'a> {
    /// Reads the header at the start of a text (RFC 5322, section 2.2). Any text has one.
    ///
    /// The header goes up to the first empty line, or to the end of the text. A line that isn't a field line is
    /// skipped with its continuations. For example, the header of the lines `a: 1`, an empty one, another empty one
    /// and `b: 2` has one field, with the name `a` and the value `1`.
    ///
    /// # Errors
    ///
    /// `AllocError` if memory is refused.
    pub fn read(alloc: Global, text: &'a [u8]) -> Result<Header<'a>, AllocError>
        ensures header { IfOk result (λ header. header ≡ header_of text.now) }
        ensures within { IfOk result (λ header. header.body_start ≤ length text.now) }
    {
        let (fields, body_start) = read_fields(alloc, text)?;
        Ok(Header { fields, body_start })
    }

    /// Returns the fields, in order.
    pub fn fields(&self) -> &[Field<'a>]
        ensures fields { result.now ≡ self.now.fields }
        ensures header { IsHeader self.now }
    {
        self.fields.as_slice()
    }

    /// Returns the fields, in order, to be looked up by name.
    pub fn by_name(&self) -> &NamedFields<'a>
        ensures fields { result.now ≡ self.now.fields }
        ensures header { IsHeader self.now }
    {
        &self.fields
    }

    /// Returns where the body begins, in bytes from 0: after the empty line, or at the end of the text.
    pub fn body_start(&self) -> usize
        ensures { result ≡ self.now.body_start }
    {
        self.body_start
    }
}

// The fields of the header at the start of the text, and where the body begins.
fn read_fields<'a>(alloc: Global, text: &'a [u8]) -> Result<(NamedFields<'a>, usize), AllocError>
    ensures { IfOk result (λ read. (read.0 ≡ fields_of text.now)
        × (read.1 ≡ body_start_of text.now)) }
{
    let mut fields = Vec::new(alloc);
    let mut hashes = Vec::new(alloc);
    let mut lines = Lines::new(text);
    'lines: while let Some(line) = lines.next() {
        if line.start == line.end {
            return Ok((NamedFields::new(fields, hashes), line.stop));
        }
        let end = continued_end(text, line, &mut lines);
        if let Some((field, hash)) = field_at(text, line, end) {
            fields.push(field)?;
            hashes.push(hash)?;
        }
    }
    Ok((NamedFields::new(fields, hashes), text.len()))
}

// The field of this line and of the lines that continue it, the last of which ends at this place, and the hash of its
// name; `None` if it isn't a field line.
fn field_at<'a>(text: &'a [u8], line: Line, end: usize) -> Option<(Field<'a>, u32)>
    requires ordered { (line.start ≤ line.end) × (line.end ≤ end) × (end ≤ length text.now) }
    ensures { IsFieldAt text.now line end result }
{
    let hash = field_name_hash(&text[line.start..line.end])?;
    Some((Field::new(&text[line.start..end]), hash))
}

// Where the last of the lines ends that continue this one. These lines are taken.
fn continued_end(text: &[u8], line: Line, lines: &mut Lines) -> usize
    requires here { IsLineAt text.now line.start line }
    requires some { line.start < line.end }
    requires next { lines.old ≡ record { text = text.now; place = line.stop } }
    ensures { IsContinued text.now line lines.old result lines.new }
{
    let mut last = line;
    'continuations: while let Some(next) = next_continuation(text, last.stop, lines) {
        last = next;
    }
    last.end
}

// The next line, which starts at this place, if it continues the line before it.
fn next_continuation(text: &[u8], place: usize, lines: &mut Lines) -> Option<Line>
    requires within { place ≤ length text.now }
    requires next { lines.old ≡ record { text = text.now; place = place } }
    ensures { GivesContinuation lines.old result lines.new }
{
    if begins_blank(&text[place..]) {
        lines.next()
    } else {
        None
    }
}

// Whether the text begins with a space or tab.
fn begins_blank(text: &[u8]) -> bool
    ensures { result ≡ begins_blank text.now }
{
    matches!(text, [b' ' | b'\t', ..])
}
