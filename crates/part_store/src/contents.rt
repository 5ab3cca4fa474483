//! The table of contents: the bytes stored under each digest. Each function runs one statement, and its error is the
//! database's.
//!
//! A removal lets the database find out whether another entry has the content: it deletes the content's row at once,
//! and if the foreign key refuses that, an entry still names it, and everything stays as it was. A search of our own
//! would read every entry a second time.
ghost use Rattle.std.specs.Prelude.{◌≡◌, ◌≢◌, [], ◌∷◌, true, false, IfErr, OnOk};
ghost use Rattle.sha2.specs.Sha256.{sha256};
ghost use Rattle.sqlite_value.specs.declared.value.Value.TheVariants.{Blob};
ghost use Rattle.sqlite.specs.Effect.{IsDatabase};
ghost use Rattle.part_store.specs.Changes.{Steps, IsFound, IsAdded, IsListed, every, columns, length_at, sized, IsTidied, IsTableIn};
ghost use Rattle.part_store.specs.Tables.{contents_tree, equals, contents_table, store_schema};
ghost use Rattle.part_store.specs.Refusals.{content_values};
ghost use Rattle.part_store.specs.Causes.{AddFaults, HasNoContent, WriteFaults, content_altered, still_named};
ghost use Rattle.part_store.specs.Private.{AsksTables, WritesTables};

use crate::users::first_of;
use sha2::{Digest, Sha256};
use sqlite::{Alter, Constraint, Error, ErrorCode, Row, Transaction, params};

/// Whether bytes have this digest.
pub(crate) fn has_digest(octets: &[u8], digest: &[u8]) -> bool
    ensures is { result ≡ true → sha256 octets.now ≡ digest.now }
    ensures other { result ≡ false → sha256 octets.now ≢ digest.now }
{
    let own = Sha256::digest(octets);
    own.as_slice() == digest
}

/// The error for a content that doesn't have the digest that it is stored under.
pub(crate) fn altered() -> Error
    ensures { result ≡ content_altered }
{
    Error::SqliteFailure(ErrorCode::DatabaseCorrupt)
}

/// The bytes under a digest.
pub(crate) fn find<S: Alter>(
    tx: &mut Transaction<'_, S>,
    digest: &[u8],
) -> Result<Option<Row>, Error>
    ensures { AsksTables S.Store tx.old.conn tx.new.conn result
        (λ found db. IsFound contents_tree (equals 1 (Blob digest.now)) (columns (2 ∷ [])) db found) }
{
    let rows = tx.query_all(
        "SELECT octets FROM contents WHERE digest = ?1",
        params![digest],
    )?;
    Ok(first_of(rows))
}

/// The number of bytes under a digest.
pub(crate) fn size<S: Alter>(
    tx: &mut Transaction<'_, S>,
    digest: &[u8],
) -> Result<Option<Row>, Error>
    ensures { AsksTables S.Store tx.old.conn tx.new.conn result
        (λ found db. IsFound contents_tree (equals 1 (Blob digest.now)) (length_at 2) db found) }
{
    let rows = tx.query_all(
        "SELECT length(octets) FROM contents WHERE digest = ?1",
        params![digest],
    )?;
    Ok(first_of(rows))
}

/// Each digest and the number of bytes under it.
pub(crate) fn list<S: Alter>(tx: &mut Transaction<'_, S>) -> Result<Vec<Row>, Error>
    ensures { AsksTables S.Store tx.old.conn tx.new.conn result
        (λ found. IsListed contents_tree every sized found.items) }
{
    tx.query_all(
        "SELECT digest, length(octets) FROM contents ORDER BY digest",
        &[],
    )
}

/// Stores bytes under a digest.
pub(crate) fn add<S: Alter>(
    tx: &mut Transaction<'_, S>,
    digest: &[u8],
    octets: &[u8],
) -> Result<usize, Error>
    ensures { WritesTables S.Store tx.old.conn tx.new.conn result
        (Steps (IsAdded contents_tree (Blob digest.now ∷ Blob octets.now ∷ [])))
        (λ old new e. IsTableIn contents_tree old.now.trees → HasNoContent digest.now old.now.trees
        → AddFaults contents_table (content_values digest.now octets.now) old new e) }
{
    tx.execute(
        "INSERT INTO contents (digest, octets) VALUES (?1, ?2)",
        params![digest, octets],
    )
}

/// Removes what is under a digest, unless an entry names it. The database finds this out itself, because it looks for
/// entries whose content would be missing.
pub(crate) fn remove_unnamed<S: Alter>(
    tx: &mut Transaction<'_, S>,
    digest: &[u8],
) -> Result<(), Error>
    ensures { WritesTables S.Store tx.old.conn tx.new.conn result
        (λ old new. old.now.schema ≡ store_schema → IsDatabase old.now
        → IsTableIn contents_tree old.now.trees → IsTidied digest.now old new)
        WriteFaults }
{
    match tx.execute("DELETE FROM contents WHERE digest = ?1", params![digest]) {
        Ok(_) => Ok(()),
        Err(error) => unless_named(error),
    }
}

/// Ok if a row wasn't removed because another row names it; otherwise the error.
fn unless_named(error: Error) -> Result<(), Error>
    ensures named { OnOk result (error ≡ still_named) }
    ensures other { IfErr result (λ e. (e ≡ error) × (error ≢ still_named)) }
{
    match error {
        Error::SqliteFailure(ErrorCode::ConstraintViolation(Constraint::ForeignKey)) => Ok(()),
        other => Err(other),
    }
}
