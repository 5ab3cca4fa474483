// The text of a catalog.
//
// Two indices find which entries belong together. The one of all parts finds the parts of a message that gets a line.
// The other one has the parts that get a line, and all messages. So no pair of a message and a part is looked at that
// isn't printed.
ghost use Rattle.std.specs.Prelude.{◌≡◌, [], ◌∷◌, ◌++◌, List, IfOk, OnOk, filter_map, map, nat_lt, true};
ghost use Rattle.catalog.specs.Catalog.{Filed, catalog, line_among, messages_of, parts_of, piece_of};
ghost use Rattle.catalog.specs.Index.{IsIndex};
ghost use Rattle.catalog.specs.Keeping.{known_as, known_of};
ghost use Rattle.catalog.specs.Making.{HasPart, message_in, messages_in, part_in, parts_above, parts_in};
ghost use Rattle.catalog.specs.Stored.{Numbered};
ghost use Rattle.catalog.specs.declared.entry.PartEntry.{PartEntry};

use crate::entry::PartEntry;
use crate::index::PartIndex;
use crate::keeping::Kept;
use crate::line::{message_line, part_line};
use std::alloc::{AllocError, Global};

/// Returns the catalog of the entries whose numbers are above `after`: a line for each, in their order. `kept` is what
/// [`keep`](crate::keep) and [`keep_again`](crate::keep_again) returned for all entries of the user, in their order,
/// because which messages and parts belong together is looked for among all of them.
///
/// # Errors
///
/// `AllocError` if memory is refused.
pub fn catalog_text(alloc: Global, kept: &[Kept<'_>], after: u32) -> Result<Vec<u8>, AllocError>
    ensures { (all : List Filed) → map known_as kept.now ≡ map known_of all
        → IfOk result (λ text. text.items ≡ catalog after all) }
{
    let entries = part_entries(alloc, kept)?;
    let parts = PartIndex::new(alloc, &entries)?;
    let messages = messages_for(alloc, kept, &entries, after)?;
    let mut text = Vec::new(alloc);
    for entry in kept {
        put_piece(alloc, &mut text, entry, after, &parts, &messages)?;
    }
    Ok(text)
}

// Appends the line of an entry, with its line break, if its number is above `after`.
fn put_piece(
    alloc: Global,
    text: &mut Vec<u8>,
    kept: &Kept<'_>,
    after: u32,
    parts: &PartIndex,
    messages: &PartIndex,
) -> Result<(), AllocError>
    ensures { (all : List Filed) (filed : Filed) (some : List PartEntry)
        → known_as kept.now ≡ known_of filed
        → IsIndex parts.now (parts_of all) []
        → IsIndex messages.now some (messages_of all)
        → (nat_lt after filed.number ≡ true → HasPart some filed)
        → OnOk result (text.new.items ≡ text.old.items ++ piece_of after all filed) }
{
    if kept.entry.number <= after {
        return Ok(());
    }
    put_line(alloc, text, kept, parts, messages)
}

// Appends the line of an entry, with its line break.
fn put_line(
    alloc: Global,
    text: &mut Vec<u8>,
    kept: &Kept<'_>,
    parts: &PartIndex,
    messages: &PartIndex,
) -> Result<(), AllocError>
    ensures { (all : List Filed) (filed : Filed) (some : List PartEntry)
        → known_as kept.now ≡ known_of filed
        → IsIndex parts.now (parts_of all) []
        → IsIndex messages.now some (messages_of all)
        → HasPart some filed
        → OnOk result (text.new.items ≡ text.old.items ++ line_among all filed) }
{
    let line = match &kept.outline {
        Some(outline) => {
            let stored = parts.stored_in(alloc, &outline.digests)?;
            message_line(alloc, &kept.entry, outline, &stored)?
        }
        None => {
            part_line(
                alloc,
                &kept.entry,
                messages.messages_with(&kept.entry.digest),
            )?
        }
    };
    text.extend_from_slice(&line)?;
    text.push(b'\n')?;
    Ok(())
}

// An index of those of these entries whose numbers are above `after`, and of all messages.
fn messages_for(
    alloc: Global,
    kept: &[Kept<'_>],
    entries: &[PartEntry],
    after: u32,
) -> Result<PartIndex, AllocError>
    ensures { IfOk result (λ index. IsIndex index (parts_above after entries.now)
        (messages_in (map known_as kept.now))) }
{
    let above = entries_above(alloc, entries, after)?;
    let mut index = PartIndex::new(alloc, &above)?;
    for entry in kept {
        add_message(alloc, &mut index, entry)?;
    }
    Ok(index)
}

// Adds an entry to an index, if it is a message.
fn add_message(alloc: Global, index: &mut PartIndex, kept: &Kept<'_>) -> Result<(), AllocError>
    ensures { (entries : List PartEntry) (messages : List Numbered)
        → IsIndex index.old entries messages
        → OnOk result (IsIndex index.new entries
        (messages ++ filter_map message_in (known_as kept.now ∷ []))) }
{
    match &kept.outline {
        Some(outline) => index.add(alloc, kept.entry.number, &outline.digests),
        None => Ok(()),
    }
}

// The entries of parts.
fn part_entries(alloc: Global, kept: &[Kept<'_>]) -> Result<Vec<PartEntry>, AllocError>
    ensures { IfOk result (λ parts. parts.items ≡ parts_in (map known_as kept.now)) }
{
    let mut parts = Vec::new(alloc);
    for entry in kept {
        add_part_entry(&mut parts, entry)?;
    }
    Ok(parts)
}

// Adds an entry, if it is a part.
fn add_part_entry(parts: &mut Vec<PartEntry>, kept: &Kept<'_>) -> Result<(), AllocError>
    ensures { OnOk result (parts.new.items
        ≡ parts.old.items ++ filter_map part_in (known_as kept.now ∷ [])) }
{
    if kept.outline.is_none() {
        parts.push(PartEntry {
            number: kept.entry.number,
            digest: kept.entry.digest,
        })?;
    }
    Ok(())
}

// Those of the entries whose numbers are above `after`.
fn entries_above(
    alloc: Global,
    entries: &[PartEntry],
    after: u32,
) -> Result<Vec<PartEntry>, AllocError>
    ensures { IfOk result (λ above. above.items ≡ parts_above after entries.now) }
{
    let mut above = Vec::new(alloc);
    for entry in entries {
        if entry.number > after {
            above.push(*entry)?;
        }
    }
    Ok(above)
}
