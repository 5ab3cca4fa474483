//! A scrub: every content is read and compared with the digest that it is stored under.
//!
//! The digests are listed first, so one content at a time is in memory. Only if some are damaged, the entries are read,
//! those of one user at a time.
ghost use Rattle.std.specs.Prelude.{◌≡◌, ◌⊎◌, ◌∷◌, ◌++◌, [], map, IfErr, IsOk, OnOk};
ghost use Rattle.std.specs.List.{AllByRecursion};
ghost use Rattle.part_store.specs.Standing.{Stands};
ghost use Rattle.part_store.specs.Inside.{Stays};
ghost use Rattle.part_store.specs.Readings.{IsReadable};
ghost use Rattle.part_store.specs.Scrubbing.{AreDamagedOf, IsScrubbed, OnlyWhenUncounted, damaged_line};
ghost use Rattle.part_store.specs.Scanning.{AddsDamaged, AreDamagedDigests, ShowsContent, damaged_in, is_one_of, lines_shown, texts_of};
ghost use Rattle.part_store.specs.Refusals.{OnlyWhenFailed, OnlyWhenUnnamed};
ghost use Rattle.part_store.specs.declared.error.StoreError.TheVariants.{Memory, Database};
ghost use Rattle.part_store.specs.Calls.{IfDone, IfRefused, OnDone};
ghost use Rattle.part_store.specs.Private.{KeepsInside, ReadsInside, WorksInside};

use crate::all_users::list_users;
use crate::error::StoreError;
use crate::store::content_of;
use crate::totals::{ContentTotal, total_of};
use crate::{contents, entries};
use sqlite::{Alter, Row, Transaction};

/// What a scrub found. [`crate::PartStore::scrub`] returns it.
#[derive(Drop)]
pub struct Scrubbed {
    /// How many contents there are, and the bytes that they have together.
    pub contents: ContentTotal,
    /// The number of damaged contents: their SHA-256 isn't the digest that they are stored under.
    pub damaged: u64,
    /// The entries that refer to a damaged content: users in the order of their names, the entries of a user in the
    /// order of their numbers.
    pub entries: Vec<DamagedEntry>,
}

/// An entry whose content is damaged.
#[derive(Drop)]
pub struct DamagedEntry {
    /// The user's name.
    pub user: String,
    /// The number of the entry.
    pub number: u32,
    /// The folder, as bytes.
    pub folder: Vec<u8>,
}

/// Compares every content with its digest, and lists the entries that refer to a damaged one.
pub(crate) fn scrub_all<S: Alter>(tx: &mut Transaction<'_, S>) -> Result<Scrubbed, StoreError>
    ensures answer { IfDone S.Store tx.old.conn.now tx.new.conn.now result
        (λ x old _. (before : _) → Stands old.now before → IsScrubbed old.now.trees before x) }
    ensures refused { IfErr result (λ e. (e ≡ Memory) ⊎ (e ≡ Database)) }
    ensures cause { IfRefused S.Store tx.old.conn.now tx.new.conn.now result OnlyWhenUncounted }
    ensures within { WorksInside S.Store tx.old.conn tx.new.conn result }
{
    let rows = contents::list(tx)?;
    let contents = total_of(&rows)?;
    let digests = damaged_among(tx, &rows)?;
    let damaged = digests.len() as u64;
    let entries = entries_naming(tx, &digests)?;
    Ok(Scrubbed {
        contents,
        damaged,
        entries,
    })
}

/// The digests of damaged contents, among those that the rows of an answer show first.
fn damaged_among<S: Alter>(
    tx: &mut Transaction<'_, S>,
    rows: &Vec<Row>,
) -> Result<Vec<Vec<u8>>, StoreError>
    ensures answer { IfDone S.Store tx.old.conn.now tx.new.conn.now result
        (λ digests old _. (before : _) → Stands old.now before
        → AllByRecursion (ShowsContent old.now.trees) rows.now.items
        → texts_of digests.items ≡ damaged_in old.now.trees rows.now.items) }
    ensures same { OnDone S.Store tx.old.conn.now tx.new.conn.now result Stays }
    ensures refused { IfErr result (λ e. (e ≡ Memory) ⊎ (e ≡ Database)) }
    ensures cause { IfRefused S.Store tx.old.conn.now tx.new.conn.now result
        (λ old new e. AllByRecursion (ShowsContent old.now.trees) rows.now.items
        → OnlyWhenFailed old new e) }
    ensures within { KeepsInside S.Store tx.old.conn tx.new.conn result }
{
    let mut digests = Vec::new(*rows.allocator());
    for row in rows {
        note_damaged(tx, row, &mut digests)?;
    }
    Ok(digests)
}

/// Adds the digest that a row of an answer shows first, if the content under it is damaged. The content isn't kept.
fn note_damaged<S: Alter>(
    tx: &mut Transaction<'_, S>,
    row: &Row,
    digests: &mut Vec<Vec<u8>>,
) -> Result<(), StoreError>
    ensures answer { OnDone S.Store tx.old.conn.now tx.new.conn.now result
        (λ old _. (before : _) → Stands old.now before → ShowsContent old.now.trees row.now
        → texts_of digests.new.items
        ≡ texts_of digests.old.items ++ damaged_in old.now.trees (row.now ∷ [])) }
    ensures refused { IfErr result (λ e. (e ≡ Memory) ⊎ (e ≡ Database)) }
    ensures cause { IfRefused S.Store tx.old.conn.now tx.new.conn.now result
        (λ old new e. ShowsContent old.now.trees row.now → OnlyWhenFailed old new e) }
    ensures within { ReadsInside S.Store tx.old.conn tx.new.conn result }
{
    let digest: Vec<u8> = row.get(0)?;
    let octets = content_of(tx, &digest)?;
    if contents::has_digest(&octets, &digest) {
        return Ok(());
    }
    digests.push(digest)?;
    Ok(())
}

/// The entries that name one of the digests: users in the order of their names, the entries of a user in the order of
/// their numbers.
fn entries_naming<S: Alter>(
    tx: &mut Transaction<'_, S>,
    digests: &Vec<Vec<u8>>,
) -> Result<Vec<DamagedEntry>, StoreError>
    ensures answer { IfDone S.Store tx.old.conn.now tx.new.conn.now result
        (λ entries old _. (before : _) → Stands old.now before
        → AreDamagedDigests old.now.trees digests.now.items
        → AreDamagedOf old.now.trees before (map damaged_line entries.items)) }
    ensures spared { digests.now.items ≡ [] → IsOk result × (tx.new.conn.now ≡ tx.old.conn.now) }
    ensures refused { IfErr result (λ e. (e ≡ Memory) ⊎ (e ≡ Database)) }
    ensures cause { IfRefused S.Store tx.old.conn.now tx.new.conn.now result OnlyWhenUnnamed }
    ensures within { KeepsInside S.Store tx.old.conn tx.new.conn result }
{
    let mut found = Vec::new(*digests.allocator());
    if digests.is_empty() {
        return Ok(found);
    }
    let users = list_users(tx)?;
    for row in &users {
        add_naming(tx, row.user.as_str(), digests, &mut found)?;
    }
    Ok(found)
}

/// Adds the entries of a user that name one of the digests, in the order of their numbers.
fn add_naming<S: Alter>(
    tx: &mut Transaction<'_, S>,
    user: &str,
    digests: &Vec<Vec<u8>>,
    found: &mut Vec<DamagedEntry>,
) -> Result<(), StoreError>
    ensures answer { OnDone S.Store tx.old.conn.now tx.new.conn.now result
        (λ old _. (before : _) → Stands old.now before
        → AreDamagedDigests old.now.trees digests.now.items
        → AddsDamaged old.now.trees before user.now (map damaged_line found.old.items)
        (map damaged_line found.new.items)) }
    ensures refused { IfErr result (λ e. (e ≡ Memory) ⊎ (e ≡ Database)) }
    ensures cause { IfRefused S.Store tx.old.conn.now tx.new.conn.now result OnlyWhenFailed }
    ensures within { ReadsInside S.Store tx.old.conn tx.new.conn result }
{
    let rows = entries::list(tx, user, 0)?;
    add_rows(user, &rows, digests, found)
}

/// Adds the entries of a user that the rows of the answer to a listing show, if they name one of the digests.
fn add_rows(
    user: &str,
    rows: &Vec<Row>,
    digests: &Vec<Vec<u8>>,
    found: &mut Vec<DamagedEntry>,
) -> Result<(), StoreError>
    ensures shown { OnOk result (map damaged_line found.new.items
        ≡ map damaged_line found.old.items
        ++ lines_shown user.now digests.now.items rows.now.items) }
    ensures refused { IfErr result (λ e. (e ≡ Memory) ⊎ (e ≡ Database)) }
    ensures cause { IfErr result (λ e. e ≡ Database
        → AllByRecursion IsReadable rows.now.items → ⊥) }
{
    for row in rows {
        add_row(user, row, digests, found)?;
    }
    Ok(())
}

/// Adds the entry of a user that a row of the answer to a listing shows, if it names one of the digests.
fn add_row(
    user: &str,
    row: &Row,
    digests: &Vec<Vec<u8>>,
    found: &mut Vec<DamagedEntry>,
) -> Result<(), StoreError>
    ensures shown { OnOk result (map damaged_line found.new.items
        ≡ map damaged_line found.old.items
        ++ lines_shown user.now digests.now.items (row.now ∷ [])) }
    ensures refused { IfErr result (λ e. (e ≡ Memory) ⊎ (e ≡ Database)) }
    ensures cause { IfErr result (λ e. e ≡ Database → IsReadable row.now → ⊥) }
{
    let digest: Vec<u8> = row.get(5)?;
    if !is_among(&digest, digests) {
        return Ok(());
    }
    let user = String::from_str(*digests.allocator(), user)?;
    let number = row.get(0)?;
    let folder = row.get(2)?;
    found.push(DamagedEntry {
        user,
        number,
        folder,
    })?;
    Ok(())
}

/// Whether a digest is one of these.
fn is_among(digest: &[u8], digests: &Vec<Vec<u8>>) -> bool
    ensures { result ≡ is_one_of digests.now.items digest.now }
{
    digests.iter().any(|other| other.as_slice() == digest)
}
