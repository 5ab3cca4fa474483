// The strings of a program: those of its table and those in its lines.
ghost use Rattle.std.specs.Prelude.{◌≡◌, OnOk, IfOk};
ghost use Rattle.bytecode_listing.specs.Labels.{strings_in, with_line};

use crate::drafts::{Line, Target};
use bytecode_format::StringTable;
use octets::Octets;
use std::alloc::{AllocError, Global};

// Lists the string of a line, if it has one, unless it is listed.
fn add_line<'a>(strings: &mut StringTable<'a>, line: &'a Line) -> Result<(), AllocError>
    ensures ok { OnOk result (strings.new ≡ with_line strings.old line.now) }
{
    match line {
        Line::Step(draft) => match &draft.c {
            Target::Quoted(text, _) => strings.add(text.as_slice()),
            _ => Ok(()),
        },
        Line::Label(..) => Ok(()),
    }
}

/// The strings of a table and those of lines.
///
/// # Errors
///
/// `AllocError` if memory is refused.
pub fn strings_in<'a>(
    alloc: Global,
    table: &'a [Octets],
    lines: &'a [Line],
) -> Result<StringTable<'a>, AllocError>
    ensures { IfOk result (λ s. s ≡ strings_in table.now lines.now) }
{
    let mut strings = StringTable::new(alloc);
    'table: for text in table {
        strings.push(text.as_slice())?;
    }
    'lines: for line in lines {
        add_line(&mut strings, line)?;
    }
    Ok(strings)
}
