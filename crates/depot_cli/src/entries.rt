// Printing the entries of a depot.
ghost use Rattle.std.specs.Prelude.{◌≡◌, map};
ghost use Rattle.std.specs.List.{flat_map};
ghost use Rattle.part_store.specs.Standing.{listed};
ghost use Rattle.devices.specs.Pages.{Wrote};
ghost use Rattle.printing.specs.Printed.{line as line_of};
ghost use Rattle.depot_cli.specs.Printed.{entries_text, entry_text, kind_text};

use devices::{Page, Sink};
use part_store::{EntryRow, Kind};
use printing::{Piece, print, print_line};

/// How much of an entry is printed: `deliver` prints entries briefly, `list` in full.
#[derive(Clone, Copy)]
pub enum Detail {
    /// The entry's number, kind and folder.
    Brief,
    /// The same, then its name, its media type and its size in bytes.
    Full,
}

/// Prints a line for each entry, or the line `none` if there are none. For example, `1 part "Documents"` briefly, and
/// `1 part "Documents" "rechnung-2026-0417.pdf" application/pdf 9016` in full.
#[tactic(auto, using(crate::proofs::PrintedLemmas::some_entries))]
pub fn print_entries<O: Sink>(page: &mut Page<'_, O>, detail: Detail, rows: &[EntryRow])
    ensures { Wrote (entries_text detail (map listed rows.now)) page.old page.new }
{
    if rows.is_empty() {
        return print_line(page, "none");
    }
    print_rows(page, detail, rows);
}

// Prints a line for each entry.
fn print_rows<O: Sink>(page: &mut Page<'_, O>, detail: Detail, rows: &[EntryRow])
    ensures { Wrote (flat_map (λ e. line_of (entry_text detail e)) (map listed rows.now))
        page.old page.new }
{
    'rows: for row in rows {
        print_entry(page, detail, row);
    }
}

// Prints the line of an entry.
fn print_entry<O: Sink>(page: &mut Page<'_, O>, detail: Detail, row: &EntryRow)
    ensures { Wrote (line_of (entry_text detail (listed row.now))) page.old page.new }
{
    let number = Piece::Number(row.number as u128);
    let kind = Piece::Text(kind_name(row.kind));
    let folder = Piece::Quoted(row.folder.as_slice());
    let space = Piece::Text(" ");
    let end = Piece::Text("\n");
    match detail {
        Detail::Brief => print(page, &[number, space, kind, space, folder, end]),
        Detail::Full => print(
            page,
            &[
                number,
                space,
                kind,
                space,
                folder,
                space,
                Piece::Quoted(row.name.as_slice()),
                space,
                Piece::Octets(row.media.as_slice()),
                space,
                Piece::Number(row.octets as u128),
                end,
            ],
        ),
    }
}

/// Returns the name of a kind of entry, as it is printed: `message` or `part`.
pub fn kind_name(kind: Kind) -> &'static str
    ensures { result.now ≡ kind_text kind }
{
    match kind {
        Kind::Message => "message",
        Kind::Part => "part",
    }
}
