//! How a user's entries are listed.
//!
//! `list_since` asks for each entry's length with a statement of its own. A join of both tables would be one statement, but
//! what is proved about statements here is about one table. `list_sharing` asks for no lengths. It notes the digests instead,
//! each with the first place that has it.
ghost use Rattle.std.specs.Prelude.{◌≡◌, ◌⊎◌, ◌≤◌, ℕ, pos, List, length, map, IfOk, IfErr, IfSome, OnOk, Some, slice_get};
ghost use Rattle.std.specs.BTreeMap.{get};
ghost use Rattle.std.specs.Cmp.Lexicographic.{slice_cmp};
ghost use Rattle.std.specs.List.{AllByRecursion, AllZip};
ghost use Rattle.std.specs.Ordering.{nat_cmp};
ghost use Rattle.sqlite_trees.specs.Tree.{Trees};
ghost use Rattle.sqlite_value.specs.declared.value.Value.TheVariants.{Blob, Int};
ghost use Rattle.sqlite_value.specs.Order.{column};
ghost use Rattle.part_store.specs.Tables.{contents_tree, equals, store_schema};
ghost use Rattle.part_store.specs.Changes.{IsFound, length_at};
ghost use Rattle.part_store.specs.Access.{IsFailure};
ghost use Rattle.part_store.specs.Entries.{Entry, entries_of, entries_since, listing_of};
ghost use Rattle.part_store.specs.Noting.{AreFirsts, HasContentAt, HaveOneContent};
ghost use Rattle.part_store.specs.Sharing.{AreSharing, IsSharingRow};
ghost use Rattle.part_store.specs.Standing.{HasContent, Stands, kind_number, listed};
ghost use Rattle.part_store.specs.Readings.{IsParts, Shows, IsReadable};
ghost use Rattle.part_store.specs.declared.entry.Kind.{Kind};
ghost use Rattle.octets.specs.Limits.{max_entry_number};
ghost use Rattle.part_store.specs.Refusals.{refusal_of, OnlyWhenFailed};
ghost use Rattle.part_store.specs.declared.error.StoreError.TheVariants.{Memory, Database};
ghost use Rattle.part_store.specs.Calls.{IfDone, IfRefused, Tells};
ghost use Rattle.part_store.specs.Private.{ReadsInside, ReadsRows, TellsTables, WorksInside};

use crate::entry::{EntryRow, Kind, SharingRow};
use crate::error::StoreError;
use crate::{contents, entries};
use sqlite::{Alter, Error, Row, Transaction};
use std::alloc::AllocError;
use std::collections::BTreeMap;

/// What a row of the answer to a listing shows, with the digest of the entry's bytes.
#[derive(Drop)]
struct Parts {
    number: u32,
    kind: Kind,
    folder: Vec<u8>,
    name: Vec<u8>,
    media: Vec<u8>,
    digest: Vec<u8>,
}

fn parts_of(row: &Row) -> Result<Parts, Error>
    ensures parts { IfOk result (IsParts row.now) }
    ensures cause { IfErr result (λ e. refusal_of e ≡ Database → IsReadable row.now → ⊥) }
{
    Ok(Parts {
        number: row.get(0)?,
        kind: kind_of(row)?,
        folder: row.get(2)?,
        name: row.get(3)?,
        media: row.get(4)?,
        digest: row.get(5)?,
    })
}

fn kind_of(row: &Row) -> Result<Kind, Error>
    ensures kind { IfOk result (λ kind. (k : Kind) → column row.now 1 ≡ Int (pos (kind_number k))
        → kind ≡ k) }
    ensures cause { IfErr result (λ e. refusal_of e ≡ Database → IsReadable row.now → ⊥) }
{
    let number: u32 = row.get(1)?;
    Ok(if number == 0 {
        Kind::Message
    } else {
        Kind::Part
    })
}

/// The number of bytes under a digest that an entry names.
fn size_of<S: Alter>(tx: &mut Transaction<'_, S>, digest: &[u8]) -> Result<u64, Error>
    ensures answer { IfDone S.Store tx.old.conn.now tx.new.conn.now result
        (λ size old _. (before : _) → Stands old.now before → (octets : List ℕ)
        → HasContent (old.now.trees contents_tree) digest.now octets → size ≡ length octets) }
    ensures shown { IfDone S.Store tx.old.conn.now tx.new.conn.now result
        (λ size old _. old.now.schema ≡ store_schema
        → (row : _) × IsFound contents_tree (equals 1 (Blob digest.now)) (length_at 2) old.now.trees (Some row)
        × (column row 0 ≡ Int (pos size))) }
    ensures cause { IfRefused S.Store tx.old.conn.now tx.new.conn.now result
        (λ old new e. (octets : List ℕ) → HasContent (old.now.trees contents_tree) digest.now octets
        → OnlyWhenFailed old new (refusal_of e)) }
    ensures within { ReadsInside S.Store tx.old.conn tx.new.conn result }
{
    match contents::size(tx, digest)? {
        Some(row) => row.get(0),
        None => Err(Error::InvalidQuery),
    }
}

/// The entry that a row of the answer to a listing shows.
fn read_row<S: Alter>(tx: &mut Transaction<'_, S>, row: &Row) -> Result<EntryRow, Error>
    ensures answer { IfDone S.Store tx.old.conn.now tx.new.conn.now result
        (λ entry old _. (before : _) → Stands old.now before → (x : _)
        → Shows old.now.trees row.now x → listed entry ≡ listing_of x) }
    ensures cause { IfRefused S.Store tx.old.conn.now tx.new.conn.now result
        (λ old new e. (x : _) → Shows old.now.trees row.now x → x.number ≤ max_entry_number
        → OnlyWhenFailed old new (refusal_of e)) }
    ensures within { ReadsInside S.Store tx.old.conn tx.new.conn result }
{
    let Parts {
        number,
        kind,
        folder,
        name,
        media,
        digest,
    } = parts_of(row)?;
    let octets = size_of(tx, &digest)?;
    Ok(EntryRow {
        number,
        kind,
        folder,
        name,
        media,
        octets,
    })
}

/// A user's entries, in the order of their numbers.
pub(crate) fn list_all<S: Alter>(
    tx: &mut Transaction<'_, S>,
    user: &str,
) -> Result<Vec<EntryRow>, StoreError>
    ensures answer { Tells S.Store tx.old.conn.now tx.new.conn.now result
        (λ before rows. map listed rows.items ≡ map listing_of (entries_of user.now before)) }
    ensures refused { IfErr result (λ e. (e ≡ Memory) ⊎ (e ≡ Database)) }
    ensures cause { IfRefused S.Store tx.old.conn.now tx.new.conn.now result OnlyWhenFailed }
    ensures within { WorksInside S.Store tx.old.conn tx.new.conn result }
{
    list_since(tx, user, 0)
}

/// A user's entries with numbers above one, in the order of their numbers.
pub(crate) fn list_since<S: Alter>(
    tx: &mut Transaction<'_, S>,
    user: &str,
    number: u32,
) -> Result<Vec<EntryRow>, StoreError>
    ensures answer { Tells S.Store tx.old.conn.now tx.new.conn.now result
        (λ before rows. map listed rows.items
        ≡ map listing_of (entries_since user.now number before)) }
    ensures refused { IfErr result (λ e. (e ≡ Memory) ⊎ (e ≡ Database)) }
    ensures cause { IfRefused S.Store tx.old.conn.now tx.new.conn.now result OnlyWhenFailed }
    ensures within { WorksInside S.Store tx.old.conn tx.new.conn result }
{
    let rows = entries::list(tx, user, number)?;
    let mut listed = Vec::new(*rows.allocator());
    for row in &rows {
        let entry = read_row(tx, row)?;
        listed.push(entry)?;
    }
    Ok(listed)
}

/// A user's entries, in the order of their numbers, each with the place of the first one that has the same content.
pub(crate) fn list_sharing<S: Alter>(
    tx: &mut Transaction<'_, S>,
    user: &str,
) -> Result<Vec<SharingRow>, StoreError>
    ensures { TellsTables S.Store tx.old.conn tx.new.conn result
        (λ _ before rows. AreSharing rows.items (entries_of user.now before)) OnlyWhenFailed }
{
    let rows = entries::list(tx, user, 0)?;
    sharing_in(&rows)
}

/// The entries that the rows of an answer show.
fn sharing_in(rows: &Vec<Row>) -> Result<Vec<SharingRow>, StoreError>
    ensures { ReadsRows result
        (λ sharing. (db : Trees) (xs : List Entry) → HaveOneContent db
        → AllZip (Shows db) rows.now.items xs → AreSharing sharing.items xs)
        (AllByRecursion IsReadable rows.now.items → ⊥) }
{
    let mut firsts = BTreeMap::new(*rows.allocator());
    let mut sharing = Vec::with_capacity(*rows.allocator(), rows.len())?;
    for row in rows {
        let place = sharing.len();
        let one = sharing_row(row, place, &mut firsts)?;
        sharing.push(one)?;
    }
    Ok(sharing)
}

/// The entry that the row at a place shows.
fn sharing_row(
    row: &Row,
    place: usize,
    firsts: &mut BTreeMap<[u8; 32], usize>,
) -> Result<SharingRow, StoreError>
    ensures shown { (db : Trees) (xs : List Entry) (x : Entry) → HaveOneContent db
        → AreFirsts db xs firsts.old → slice_get xs place ≡ Some x → Shows db row.now x
        → IfOk result (λ it. IsSharingRow xs it x) }
    ensures noted { (db : Trees) (xs : List Entry) (x : Entry)
        → AreFirsts db xs firsts.old → slice_get xs place ≡ Some x → Shows db row.now x
        → OnOk result (AreFirsts db xs firsts.new) }
    ensures refused { IfErr result IsFailure }
    ensures cause { IfErr result (λ e. e ≡ Database → IsReadable row.now → ⊥) }
{
    let Parts {
        number,
        kind,
        folder,
        name,
        media,
        digest,
    } = parts_of(row)?;
    let first = first_under(&digest, place, firsts)?;
    Ok(SharingRow {
        number,
        kind,
        folder,
        name,
        media,
        first,
    })
}

/// The place that is noted for a digest. If there is none, it is this place, which is noted then.
fn first_under(
    digest: &[u8],
    place: usize,
    firsts: &mut BTreeMap<[u8; 32], usize>,
) -> Result<usize, AllocError>
    ensures named { (db : Trees) (xs : List Entry) (x : Entry)
        → AreFirsts db xs firsts.old → slice_get xs place ≡ Some x
        → HasContent (db contents_tree) digest.now x.octets
        → IfOk result (λ first. HasContentAt db xs first digest.now) }
    ensures noted { (db : Trees) (xs : List Entry) (x : Entry)
        → AreFirsts db xs firsts.old → slice_get xs place ≡ Some x
        → HasContent (db contents_tree) digest.now x.octets
        → OnOk result (AreFirsts db xs firsts.new) }
{
    match place_under(digest, firsts) {
        Some(first) => Ok(first),
        None => {
            note(digest, place, firsts)?;
            Ok(place)
        }
    }
}

/// The place that is noted for a digest, if there is one.
fn place_under(digest: &[u8], firsts: &BTreeMap<[u8; 32], usize>) -> Option<usize>
    ensures { IfSome result (λ place. get (slice_cmp nat_cmp) firsts.now digest.now ≡ Some place) }
{
    match digest.as_array::<32>() {
        Some(digest) => firsts.get(digest).copied(),
        None => None,
    }
}

/// Notes a place for a digest. Nothing is noted for bytes that can't be one.
fn note(
    digest: &[u8],
    place: usize,
    firsts: &mut BTreeMap<[u8; 32], usize>,
) -> Result<(), AllocError>
    ensures { OnOk result ((other : List ℕ) (at : ℕ)
        → get (slice_cmp nat_cmp) firsts.new other ≡ Some at
        → (get (slice_cmp nat_cmp) firsts.old other ≡ Some at)
        ⊎ ((other ≡ digest.now) × (at ≡ place))) }
{
    match digest.as_array::<32>() {
        Some(digest) => {
            firsts.insert(*digest, place)?;
            Ok(())
        }
        None => Ok(()),
    }
}
