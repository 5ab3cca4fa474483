// Printing what a scrub of a depot found, line by line.
ghost use Rattle.std.specs.Prelude.{◌++◌};
ghost use Rattle.std.specs.Fmt.{decimal};
ghost use Rattle.std.specs.List.{flat_map};
ghost use Rattle.devices.specs.Pages.{Wrote};
ghost use Rattle.printing.specs.Printed.{line as line_of};
ghost use Rattle.depot_cli.specs.Printed.{damaged_text, scrubbed_text};

use devices::{Page, Sink};
use part_store::{DamagedEntry, Scrubbed};
use printing::{Piece, print};

/// Prints the lines of a scrub: the number of contents, their size in bytes, the number of damaged contents, and a line
/// for each entry that has one.
pub fn print_scrubbed<O: Sink>(page: &mut Page<'_, O>, scrubbed: &Scrubbed)
    ensures { Wrote (scrubbed_text scrubbed.now) page.old page.new }
{
    print_number(page, "contents ", scrubbed.contents.contents);
    print_number(page, "octets ", scrubbed.contents.octets);
    print_number(page, "damaged ", scrubbed.damaged);
    print_damaged(page, &scrubbed.entries);
}

// Prints the line of a number.
fn print_number<O: Sink>(page: &mut Page<'_, O>, name: &str, number: u64)
    ensures { Wrote (line_of (name.now ++ decimal number)) page.old page.new }
{
    print(
        page,
        &[
            Piece::Text(name),
            Piece::Number(number as u128),
            Piece::Text("\n"),
        ],
    );
}

// Prints a line for each entry whose content is damaged.
fn print_damaged<O: Sink>(page: &mut Page<'_, O>, entries: &[DamagedEntry])
    ensures { Wrote (flat_map (λ e. line_of (damaged_text e)) entries.now) page.old page.new }
{
    'entries: for entry in entries {
        print_entry(page, entry);
    }
}

// Prints the line of an entry whose content is damaged.
fn print_entry<O: Sink>(page: &mut Page<'_, O>, entry: &DamagedEntry)
    ensures { Wrote (line_of (damaged_text entry.now)) page.old page.new }
{
    print(
        page,
        &[
            Piece::Number(entry.number as u128),
            Piece::Text(" "),
            Piece::Quoted(entry.user.as_bytes()),
            Piece::Text(" "),
            Piece::Quoted(entry.folder.as_slice()),
            Piece::Text("\n"),
        ],
    );
}
