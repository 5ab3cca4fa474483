// How a catalog is made: the contents of entries are read one after another, and each once, however many entries have it. A
// content that is stored as a message and as a part is read once for its first entry, and for each one of the other kind.
ghost use Rattle.std.specs.Prelude.{◌≡◌, ◌⊎◌, ℕ, List, IfErr, IfOk, IfSome, IsTrue, map};
ghost use Rattle.part_store.specs.Access.{ReadsStore};
ghost use Rattle.part_store.specs.Calls.{Always, CommitsNothing, IfDone, IfRefused, Tells};
ghost use Rattle.part_store.specs.Entries.{Entries, Entry, entries_of};
ghost use Rattle.part_store.specs.Sharing.{AreSharing, label_of, labelled};
ghost use Rattle.part_store.specs.Standing.{HasNone, IsEntryAt, LeavesUnchanged, Stands};
ghost use Rattle.part_store.specs.Verifying.{IsAltered};
ghost use Rattle.catalog.specs.Catalog.{catalog};
ghost use Rattle.catalog.specs.Keeping.{filed_as, known_as, known_of};
ghost use Rattle.refusals.specs.declared.refusal.Refusal.TheVariants.{Memory, Database};
ghost use Rattle.depot_actions.specs.Causes.{IsIllegible, IsStoreFault};
ghost use Rattle.depot_actions.specs.Cataloguing.{IsUnkept, SharesKept, filed_under, of_listed, unread_as};
ghost use Rattle.depot_actions.specs.DepotState.{filed_of, is_message};

use crate::refusing::refused;
use catalog::{Kept, Listed, catalog_text, keep, keep_again};
use mime_decode::MessageError;
use part_store::{Kind, PartStore, SharingRow, StoreError};
use refusals::Refusal;
use sqlite::Alter;
use std::alloc::Global;

/// The catalog of a user's entries with numbers above a number. Only what the lines need stays in memory.
///
/// # Errors
///
/// - `Database` if the store fails, if the stored bytes of an entry were altered, or if an entry that is a message can't
///   be read as one.
/// - `Memory` if memory is refused.
pub(crate) fn catalog_of<S: Alter>(
    store: &mut PartStore<S>,
    alloc: Global,
    user: &str,
    number: u32,
) -> Result<Vec<u8>, Refusal>
    ensures answer { IfDone S.Store store.old store.new result (λ text old new.
        IsTrue old.is_open × ((before : Entries) → Stands old.now before
        → (text.items ≡ catalog number (map filed_of (entries_of user.now before)))
        × (IsTrue new.is_open → new.committed ≡ new.now))) }
    ensures unchanged { Always S.Store store.old store.new LeavesUnchanged }
    ensures refused { IfErr result (λ e. (e ≡ Memory) ⊎ (e ≡ Database)) }
    ensures cause { IfRefused S.Store store.old store.new result
        (IsStoreFault (IsIllegible user.now)) }
    ensures survives { CommitsNothing S.Store store.old store.new }
{
    let rows = rows_of(store, user)?;
    let kept = keep_all(store, alloc, user, &rows)?;
    Ok(catalog_text(alloc, &kept, number)?)
}

// The entries of a user, without their contents, and which of them have the same one.
fn rows_of<S: Alter>(store: &mut PartStore<S>, user: &str) -> Result<Vec<SharingRow>, Refusal>
    ensures answer { Tells S.Store store.old store.new result (λ before rows.
        AreSharing rows.items (entries_of user.now before)) }
    ensures reads { ReadsStore S.Store store.old store.new result }
    ensures refused { IfErr result (λ e. (e ≡ Memory) ⊎ (e ≡ Database)) }
    ensures cause { IfRefused S.Store store.old store.new result
        (IsStoreFault (IsIllegible user.now)) }
{
    store.sharing_entries_of(user).map_err(refused)
}

// What a catalog keeps of each of these entries, which are those of a user.
fn keep_all<'r, S: Alter>(
    store: &mut PartStore<S>,
    alloc: Global,
    user: &str,
    rows: &'r [SharingRow],
) -> Result<Vec<Kept<'r>>, Refusal>
    ensures answer { IfDone S.Store store.old store.new result (λ kept old _. (before : Entries)
        → (IsTrue old.is_open → Stands old.now before) → AreSharing rows.now (entries_of user.now before)
        → map known_as kept.items ≡ map known_of (map filed_of (entries_of user.now before))) }
    ensures unchanged { Always S.Store store.old store.new LeavesUnchanged }
    ensures refused { IfErr result (λ e. (e ≡ Memory) ⊎ (e ≡ Database)) }
    ensures cause { IfRefused S.Store store.old store.new result
        (IsStoreFault (λ before db. AreSharing rows.now (entries_of user.now before)
        → IsIllegible user.now before db)) }
    ensures survives { CommitsNothing S.Store store.old store.new }
{
    let mut kept = Vec::with_capacity(alloc, rows.len())?;
    for row in rows {
        let one = keep_next(store, alloc, user, row, &kept)?;
        kept.push(one)?;
    }
    Ok(kept)
}

// What a catalog keeps of the next entry of a user. Its content isn't read if an earlier one of its kind has the same.
fn keep_next<'r, S: Alter>(
    store: &mut PartStore<S>,
    alloc: Global,
    user: &str,
    row: &'r SharingRow,
    kept: &[Kept<'r>],
) -> Result<Kept<'r>, Refusal>
    ensures answer { IfDone S.Store store.old store.new result (λ one old _.
        (before : Entries) (x : Entry) → (IsTrue old.is_open → Stands old.now before)
        → IsEntryAt before user.now row.now.number x
        → labelled row.now ≡ label_of x → SharesKept kept.now row.now.first x
        → known_as one ≡ known_of (filed_of x)) }
    ensures unchanged { Always S.Store store.old store.new LeavesUnchanged }
    ensures refused { IfErr result (λ e. (e ≡ Memory) ⊎ (e ≡ Database)) }
    ensures cause { IfRefused S.Store store.old store.new result
        (IsStoreFault (IsUnkept user.now row.now)) }
    ensures survives { CommitsNothing S.Store store.old store.new }
{
    match sharing(row, kept)? {
        Some(one) => Ok(one),
        None => keep_one(store, alloc, user, row),
    }
}

// What a catalog keeps of an entry if one of these has the same content and is of the same kind.
fn sharing<'r>(row: &'r SharingRow, kept: &[Kept<'r>]) -> Result<Option<Kept<'r>>, Refusal>
    ensures shared { IfOk result (λ found. IfSome found (λ one. (x : Entry)
        → labelled row.now ≡ label_of x → SharesKept kept.now row.now.first x
        → known_as one ≡ known_of (filed_of x))) }
    ensures refused { IfErr result (λ e. e ≡ Memory) }
{
    match kept.get(row.first) {
        Some(earlier) => Ok(keep_again(earlier, listed_of(row))?),
        None => Ok(None),
    }
}

// What a catalog keeps of an entry of a user, whose content is read.
fn keep_one<'r, S: Alter>(
    store: &mut PartStore<S>,
    alloc: Global,
    user: &str,
    row: &'r SharingRow,
) -> Result<Kept<'r>, Refusal>
    ensures answer { Tells S.Store store.old store.new result (λ before kept. (x : Entry)
        × IsEntryAt before user.now row.now.number x
        × (labelled row.now ≡ label_of x → known_as kept ≡ known_of (filed_of x))) }
    ensures reads { ReadsStore S.Store store.old store.new result }
    ensures refused { IfErr result (λ e. (e ≡ Memory) ⊎ (e ≡ Database)) }
    ensures cause { IfRefused S.Store store.old store.new result
        (IsStoreFault (IsUnkept user.now row.now)) }
{
    let octets = content_of(store, user, row.number)?;
    keep(alloc, listed_of(row), octets.as_slice()).map_err(unread)
}

// An entry as a catalog lists it.
fn listed_of<'r>(row: &'r SharingRow) -> Listed<'r>
    ensures { (octets : List ℕ) → filed_as result octets ≡ filed_under (labelled row.now) octets }
{
    Listed {
        number: row.number,
        folder: row.folder.as_slice(),
        name: row.name.as_slice(),
        media: row.media.as_slice(),
        is_message: is_message(row.kind),
    }
}

// The content of a user's entry, which was listed.
fn content_of<S: Alter>(
    store: &mut PartStore<S>,
    user: &str,
    number: u32,
) -> Result<Vec<u8>, Refusal>
    ensures answer { Tells S.Store store.old store.new result (λ before octets. (x : Entry)
        × IsEntryAt before user.now number x × (octets.items ≡ x.octets)) }
    ensures reads { ReadsStore S.Store store.old store.new result }
    ensures refused { IfErr result (λ e. (e ≡ Memory) ⊎ (e ≡ Database)) }
    ensures cause { IfRefused S.Store store.old store.new result
        (IsStoreFault (λ before db. IsAltered db user.now number
        ⊎ HasNone before user.now number)) }
{
    store.bytes_of(user, number).map_err(lost)
}

// The refusal for an error of the store, if the entry was listed.
fn lost(error: StoreError) -> Refusal
    ensures { result ≡ of_listed error }
{
    match error {
        StoreError::NoSuchEntry => Refusal::Database,
        other => refused(other),
    }
}

// The refusal for an entry that can't be read as a message.
fn unread(error: MessageError) -> Refusal
    ensures { result ≡ unread_as error }
{
    match error {
        MessageError::Memory => Refusal::Memory,
        MessageError::MessageTooLarge | MessageError::TooManyParts => Refusal::Database,
    }
}

// Whether an entry is a message.
fn is_message(kind: Kind) -> bool
    ensures { result ≡ is_message kind }
{
    match kind {
        Kind::Message => true,
        Kind::Part => false,
    }
}
