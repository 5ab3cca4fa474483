//! How entries are filed.
//!
//! Different bytes under a digest are found while the entries are filed: each content is compared in its row. Then the
//! transaction is given up, so nothing of the delivery is left. So each digest is made once. If the tables have no room
//! for an earlier row, the answer is `Database`.
ghost use Rattle.std.specs.Prelude.{◌≡◌, ◌≢◌, ◌⊎◌, ◌<◌, ℕ, List, length, true, false, IsTrue, IfOk, IfErr, Ok};
ghost use Rattle.sqlite_value.specs.declared.value.Value.TheVariants.{Blob};
ghost use Rattle.sqlite_value.specs.Order.{column};
ghost use Rattle.sha2.specs.Sha256.{sha256};
ghost use Rattle.part_store.specs.Tables.{contents_table, contents_tree};
ghost use Rattle.part_store.specs.Entries.{entry_of};
ghost use Rattle.part_store.specs.Standing.{HasContent, Stands, kind_number, draft_of};
ghost use Rattle.part_store.specs.Refusals.{content_values, refusal_of, HasFailed};
ghost use Rattle.part_store.specs.Causes.{HasNoRoom, LacksRoom};
ghost use Rattle.part_store.specs.declared.error.StoreError.TheVariants.{Database};
ghost use Rattle.part_store.specs.Additions.{HasDraft, Stocks, IsNext, Files};
ghost use Rattle.part_store.specs.Filing.{IsOther};
ghost use Rattle.part_store.specs.Calls.{IfDone, IfRefused, OnDone};
ghost use Rattle.part_store.specs.Inside.{StaysInside};
ghost use Rattle.part_store.specs.Private.{KeepsInside};

use crate::entry::{Kind, NewEntry};
use crate::{contents, entries};
use sqlite::{Alter, Error, Row, Transaction};
use sqlite_value::value::ValueRef;

/// Whether the first column of a row holds these bytes. They are compared in place.
fn are_these(row: &Row, octets: &[u8]) -> Result<bool, Error>
    ensures same { IfOk result (λ done. done ≡ true → column row.now 0 ≡ Blob octets.now) }
    ensures other { IfOk result (λ done. done ≡ false
        → (there : List ℕ) × (column row.now 0 ≡ Blob there) × (there ≢ octets.now)) }
    ensures cause { IfErr result
        (λ _. 0 < length row.now → (there : List ℕ) → column row.now 0 ≡ Blob there → ⊥) }
{
    match row.get_ref(0)? {
        ValueRef::Blob(there) => Ok(there == octets),
        _ => Err(Error::InvalidQuery),
    }
}

/// Stores bytes under their digest if nothing is there. Returns whether the bytes under the digest are these now. If
/// `is_there` says that these bytes are already stored, nothing is looked up.
fn stock<S: Alter>(
    tx: &mut Transaction<'_, S>,
    digest: &[u8],
    octets: &[u8],
    is_there: bool,
) -> Result<bool, Error>
    ensures stocked { IfDone S.Store tx.old.conn.now tx.new.conn.now result
        (λ done old new. done ≡ true → (before : _) → Stands old.now before
        → (is_there ≡ true → HasContent (old.now.trees contents_tree) digest.now octets.now)
        → Stocks digest.now octets.now old new) }
    ensures other { IfDone S.Store tx.old.conn.now tx.new.conn.now result
        (λ done old _. done ≡ false → (before : _) → Stands old.now before
        → IsOther old.now.trees digest.now octets.now) }
    ensures spared { is_there ≡ true → (result ≡ Ok true)
        × (tx.new.conn.now ≡ tx.old.conn.now) }
    ensures inside { OnDone S.Store tx.old.conn.now tx.new.conn.now result StaysInside }
    ensures cause { IfRefused S.Store tx.old.conn.now tx.new.conn.now result
        (λ old new e. refusal_of e ≡ Database → IsTrue old.in_transaction → (before : _)
        → Stands old.now before
        → HasFailed old new
        ⊎ HasNoRoom contents_table (content_values digest.now octets.now) old.now.trees) }
    ensures within { KeepsInside S.Store tx.old.conn tx.new.conn result }
{
    if is_there {
        return Ok(true);
    }
    match contents::find(tx, digest)? {
        Some(row) => are_these(&row, octets),
        None => {
            contents::add(tx, digest, octets)?;
            Ok(true)
        }
    }
}

fn kind_number(kind: Kind) -> u32
    ensures { result ≡ kind_number kind }
{
    match kind {
        Kind::Message => 0,
        Kind::Part => 1,
    }
}

/// Files one entry under a number. Returns false if different bytes are stored under the digest. If `is_there` says
/// that the entry's bytes are already stored, they aren't looked up.
///
/// # Requires
///
/// `digest` is the SHA-256 digest of the entry's bytes.
pub(crate) fn file_entry<S: Alter>(
    tx: &mut Transaction<'_, S>,
    user: &str,
    number: u32,
    entry: &NewEntry<'_>,
    digest: &[u8],
    is_there: bool,
) -> Result<bool, Error>
    requires { digest.now ≡ sha256 entry.now.octets.now }
    ensures filed { IfDone S.Store tx.old.conn.now tx.new.conn.now result
        (λ done old new. done ≡ true → (before : _) → Stands old.now before
        → IsNext before (entry_of user.now number (draft_of entry.now))
        → (is_there ≡ true → HasDraft old.now.trees (draft_of entry.now))
        → Files (entry_of user.now number (draft_of entry.now))
        (sha256 entry.now.octets.now) before old new) }
    ensures other { IfDone S.Store tx.old.conn.now tx.new.conn.now result
        (λ done old _. done ≡ false → (before : _) → Stands old.now before
        → IsOther old.now.trees (sha256 entry.now.octets.now) entry.now.octets.now) }
    ensures inside { IfDone S.Store tx.old.conn.now tx.new.conn.now result
        (λ done _ new. done ≡ true → IsTrue new.in_transaction) }
    ensures cause { IfRefused S.Store tx.old.conn.now tx.new.conn.now result
        (λ old new e. refusal_of e ≡ Database → IsTrue old.in_transaction → (before : _)
        → Stands old.now before → IsNext before (entry_of user.now number (draft_of entry.now))
        → (is_there ≡ true → HasDraft old.now.trees (draft_of entry.now))
        → HasFailed old new
        ⊎ LacksRoom (entry_of user.now number (draft_of entry.now))
        (sha256 entry.now.octets.now) old.now.trees) }
    ensures within { KeepsInside S.Store tx.old.conn tx.new.conn result }
{
    if !stock(tx, digest, entry.octets, is_there)? {
        return Ok(false);
    }
    entries::add(
        tx,
        user,
        number,
        entry.folder,
        kind_number(entry.kind),
        entry.name,
        entry.media,
        digest,
    )?;
    Ok(true)
}
