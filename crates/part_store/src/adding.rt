//! How entries are added: first their numbers are claimed, then each entry is filed.
ghost use Rattle.std.specs.Prelude.{◌≡◌, ◌⊎◌, ◌+◌, ◌<◌, ◌≤◌, true, false, IsTrue, length, map};
ghost use Rattle.octets.specs.Limits.{max_entry_number};
ghost use Rattle.part_store.specs.Standing.{Stands, draft_of};
ghost use Rattle.part_store.specs.Blaming.{AsRefusal, AsRefusalInside};
ghost use Rattle.part_store.specs.Inside.{IsInside, KeepsTables};
ghost use Rattle.part_store.specs.Entries.{with_last};
ghost use Rattle.part_store.specs.Refusals.{refusal_of, OnlyWhenFailed, OnlyWhenFailedOrNoEntryRoom, HasFailed, HasNoUserRoom, HaveNoRoom};
ghost use Rattle.part_store.specs.Causes.{OnlyWhenNoRowsFit, TellsOfRow};
ghost use Rattle.part_store.specs.declared.error.StoreError.TheVariants.{Database};
ghost use Rattle.part_store.specs.Additions.{Adds, CanFile, Claims, Enters, FilesAll, IsFrom};
ghost use Rattle.part_store.specs.Filing.{Collides};
ghost use Rattle.part_store.specs.Sharing.{SharesContents, first_of};
ghost use Rattle.part_store.specs.Calls.{IfDone, IfRefused, OnDone};
ghost use Rattle.part_store.specs.Private.{KeepsInside, ReadsInside, WorksInside};

use crate::entry::NewEntry;
use crate::filing::file_entry;
use crate::shared::{Shared, digest_at};
use crate::users;
use sqlite::{Alter, Error, Transaction};

/// The result of adding entries.
#[derive(Drop)]
pub(crate) enum Adding {
    /// They were added and have the numbers from this one on.
    From(u32),
    /// The user has too few numbers left.
    NumberFull,
    /// Different bytes are stored under the digest of one of them.
    Collision,
}

/// Adds the entries under the user's next numbers. After any result except `From`, what was written has to be rolled
/// back.
///
/// # Requires
///
/// - There is at least one entry.
/// - What `shared` says is true: if it names an earlier place for an entry, the entry at that place has the same bytes.
///
/// # Errors
///
/// The database's error: it fails, or has no room for an entry, its content or the user's row.
pub(crate) fn put_entries<S: Alter>(
    tx: &mut Transaction<'_, S>,
    user: &str,
    entries: &[NewEntry<'_>],
    shared: &mut [Shared],
) -> Result<Adding, Error>
    requires some { 0 < length entries.now }
    requires shared { SharesContents (map draft_of entries.now) (map first_of shared.old) }
    ensures adds { IfDone S.Store tx.old.conn.now tx.new.conn.now result
        (λ answer old new. Adds user.now (map draft_of entries.now) old new answer) }
    ensures inside { IfDone S.Store tx.old.conn.now tx.new.conn.now result
        (λ adding _ new. IsFrom adding → IsTrue new.in_transaction) }
    ensures schema { OnDone S.Store tx.old.conn.now tx.new.conn.now result KeepsTables }
    ensures cause { IfRefused S.Store tx.old.conn.now tx.new.conn.now result
        (AsRefusalInside (OnlyWhenFailedOrNoEntryRoom user.now (map draft_of entries.now))) }
    ensures within { WorksInside S.Store tx.old.conn tx.new.conn result }
{
    let (last, is_known) = last_of(tx, user)?;
    if entries.len() > (u32::MAX - last) as usize {
        return Ok(Adding::NumberFull);
    }
    if claim_and_file(tx, user, last, is_known, entries, shared)? {
        Ok(Adding::From(last + 1))
    } else {
        Ok(Adding::Collision)
    }
}

/// Files the entries under the numbers after the user's last one, and makes the number of the last entry the user's
/// last one. `is_known` says whether the user has a row. Returns false if different bytes are stored under the digest
/// of an entry.
///
/// # Requires
///
/// - There is at least one entry.
/// - What `shared` says is true.
/// - The numbers suffice: `last + length entries` is at most 4,294,967,295.
fn claim_and_file<S: Alter>(
    tx: &mut Transaction<'_, S>,
    user: &str,
    last: u32,
    is_known: bool,
    entries: &[NewEntry<'_>],
    shared: &mut [Shared],
) -> Result<bool, Error>
    requires some { 0 < length entries.now }
    requires shared { SharesContents (map draft_of entries.now) (map first_of shared.old) }
    requires room { last + length entries.now ≤ max_entry_number }
    ensures filed { IfDone S.Store tx.old.conn.now tx.new.conn.now result
        (λ done old new. done ≡ true → (before : _) → Stands old.now before
        → last ≡ before.lasts user.now
        → TellsOfRow user.now old.now.trees is_known
        → Enters user.now (map draft_of entries.now) before old new) }
    ensures other { IfDone S.Store tx.old.conn.now tx.new.conn.now result
        (λ done old _. done ≡ false → (before : _) → Stands old.now before
        → last ≡ before.lasts user.now
        → TellsOfRow user.now old.now.trees is_known
        → Collides old.now.trees (map draft_of entries.now)) }
    ensures inside { IfDone S.Store tx.old.conn.now tx.new.conn.now result
        (λ done _ new. done ≡ true → IsTrue new.in_transaction) }
    ensures cause { IfRefused S.Store tx.old.conn.now tx.new.conn.now result
        (λ old new e. IsTrue old.in_transaction
        → ((before : _) → Stands old.now before
        → (last ≡ before.lasts user.now)
        × TellsOfRow user.now old.now.trees is_known)
        → OnlyWhenNoRowsFit user.now (map draft_of entries.now) old new (refusal_of e)) }
    ensures within { KeepsInside S.Store tx.old.conn tx.new.conn result }
{
    claim(tx, user, is_known, last + entries.len() as u32)?;
    file_all(tx, user, last, entries, shared)
}

/// A user's last number, and whether the user has a row.
pub(crate) fn last_of<S: Alter>(
    tx: &mut Transaction<'_, S>,
    user: &str,
) -> Result<(u32, bool), Error>
    ensures answer { IfDone S.Store tx.old.conn.now tx.new.conn.now result
        (λ found old _. (before : _) → Stands old.now before
        → (found.0 ≡ before.lasts user.now) × TellsOfRow user.now old.now.trees found.1) }
    ensures cause { IfRefused S.Store tx.old.conn.now tx.new.conn.now result (AsRefusal OnlyWhenFailed) }
    ensures within { ReadsInside S.Store tx.old.conn tx.new.conn result }
{
    match users::find_last(tx, user)? {
        Some(row) => Ok((row.get(0)?, true)),
        None => Ok((0, false)),
    }
}

/// Gives a user another last number. A user without a row gets one.
fn claim<S: Alter>(
    tx: &mut Transaction<'_, S>,
    user: &str,
    is_known: bool,
    last: u32,
) -> Result<(), Error>
    ensures claimed { OnDone S.Store tx.old.conn.now tx.new.conn.now result
        (λ old new. (before : _) → Stands old.now before
        → TellsOfRow user.now old.now.trees is_known
        → before.lasts user.now ≤ last → Claims user.now last before old new) }
    ensures inside { OnDone S.Store tx.old.conn.now tx.new.conn.now result IsInside }
    ensures cause { IfRefused S.Store tx.old.conn.now tx.new.conn.now result
        (λ old new e. refusal_of e ≡ Database → IsTrue old.in_transaction → (before : _)
        → Stands old.now before → TellsOfRow user.now old.now.trees is_known
        → HasFailed old new
        ⊎ HasNoUserRoom user.now (with_last user.now last before) old.now.trees) }
    ensures within { KeepsInside S.Store tx.old.conn tx.new.conn result }
{
    if is_known {
        users::renew(tx, user, last)?;
        Ok(())
    } else {
        users::add(tx, user, last, None)?;
        Ok(())
    }
}

/// Files the entries under the numbers after the user's last one. Returns false if different bytes are stored under the
/// digest of an entry. A content that an earlier entry has is neither hashed nor looked up again.
///
/// # Requires
///
/// - There is at least one entry.
/// - What `shared` says is true.
/// - The numbers suffice: `last + length entries` is at most 4,294,967,295.
fn file_all<S: Alter>(
    tx: &mut Transaction<'_, S>,
    user: &str,
    last: u32,
    entries: &[NewEntry<'_>],
    shared: &mut [Shared],
) -> Result<bool, Error>
    requires some { 0 < length entries.now }
    requires shared { SharesContents (map draft_of entries.now) (map first_of shared.old) }
    requires room { last + length entries.now ≤ max_entry_number }
    ensures filed { IfDone S.Store tx.old.conn.now tx.new.conn.now result
        (λ done old new. done ≡ true → (before : _) → Stands old.now before
        → CanFile before user.now last (length entries.now)
        → FilesAll user.now last (map draft_of entries.now) before old new) }
    ensures other { IfDone S.Store tx.old.conn.now tx.new.conn.now result
        (λ done old _. done ≡ false → (before : _) → Stands old.now before
        → CanFile before user.now last (length entries.now)
        → Collides old.now.trees (map draft_of entries.now)) }
    ensures inside { IfDone S.Store tx.old.conn.now tx.new.conn.now result
        (λ done _ new. done ≡ true → IsTrue new.in_transaction) }
    ensures cause { IfRefused S.Store tx.old.conn.now tx.new.conn.now result
        (λ old new e. refusal_of e ≡ Database → IsTrue old.in_transaction → (before : _)
        → Stands old.now before → CanFile before user.now last (length entries.now)
        → HasFailed old new ⊎ HaveNoRoom user.now (map draft_of entries.now) old.now.trees) }
    ensures within { KeepsInside S.Store tx.old.conn tx.new.conn result }
{
    let mut number = last;
    for entry in entries {
        let place = (number - last) as usize;
        number += 1;
        let (digest, is_there) = digest_at(shared, place, entry.octets);
        if !file_entry(tx, user, number, entry, &digest, is_there)? {
            return Ok(false);
        }
    }
    Ok(true)
}
