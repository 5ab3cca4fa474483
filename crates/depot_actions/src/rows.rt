// The rows of new entries.
//
// The rows of a delivery are made before anything is written, so that nothing has to be undone if memory is refused.
// They get their numbers afterwards.
ghost use Rattle.std.specs.Prelude.{◌≡◌, ◌+◌, ◌≤◌, ℕ, List, IfOk, length, map};
ghost use Rattle.octets.specs.Limits.{max_entry_number};
ghost use Rattle.part_store.specs.Entries.{Draft, listing_of, numbered};
ghost use Rattle.part_store.specs.Standing.{draft_of, listed};
ghost use Rattle.depot_actions.specs.Filing.{unnumbered};

use part_store::{EntryRow, NewEntry};
use std::alloc::{AllocError, Global};

/// The rows of the entries, without their numbers.
///
/// # Errors
///
/// `AllocError` if memory is refused.
pub(crate) fn unnumbered_rows(
    alloc: Global,
    entries: &[NewEntry<'_>],
) -> Result<Vec<EntryRow>, AllocError>
    ensures { IfOk result (λ rows. map listed rows.items
        ≡ map unnumbered (map draft_of entries.now)) }
{
    let mut rows = Vec::with_capacity(alloc, entries.len())?;
    for entry in entries {
        rows.push(unnumbered_row(alloc, entry)?)?;
    }
    Ok(rows)
}

/// Numbers the rows in order, beginning with `first`.
pub(crate) fn set_numbers(rows: &mut Vec<EntryRow>, first: u32)
    ensures { (user : List ℕ) (drafts : List Draft)
        → map listed rows.old.items ≡ map unnumbered drafts
        → first + length drafts ≤ max_entry_number + 1
        → map listed rows.new.items ≡ map listing_of (numbered user first drafts) }
{
    let mut number = first;
    for row in rows.iter_mut() {
        row.number = number;
        number = number.saturating_add(1);
    }
}

// The row of an entry, without its number.
fn unnumbered_row(alloc: Global, entry: &NewEntry<'_>) -> Result<EntryRow, AllocError>
    ensures { IfOk result (λ row. listed row ≡ unnumbered (draft_of entry.now)) }
{
    Ok(EntryRow {
        number: 0,
        kind: entry.kind,
        folder: entry.folder.to_vec(alloc)?,
        name: entry.name.to_vec(alloc)?,
        media: entry.media.to_vec(alloc)?,
        octets: entry.octets.len() as u64,
    })
}
