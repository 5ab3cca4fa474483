//! The table of entries, and the statements that read and change it. Each function runs one statement, and its error is
//! the database's.
ghost use Rattle.std.specs.Prelude.{[], ◌∷◌, pos};
ghost use Rattle.sqlite_value.specs.declared.value.Value.TheVariants.{Int, Text, Blob};
ghost use Rattle.part_store.specs.Changes.{Steps, IsFound, IsListed, IsAdded, IsTaken, is_entry, is_since, columns, IsTableIn};
ghost use Rattle.part_store.specs.Tables.{entries_tree, entries_table};
ghost use Rattle.part_store.specs.Causes.{AddFaults, HasSome, IsFree, WriteFaults};
ghost use Rattle.part_store.specs.Private.{AsksTables, WritesTables};

use crate::users::first_of;
use sqlite::{Alter, Error, Row, Transaction, params};

/// A user's entries with numbers above one, in the order of their numbers.
pub(crate) fn list<S: Alter>(
    tx: &mut Transaction<'_, S>,
    user: &str,
    number: u32,
) -> Result<Vec<Row>, Error>
    ensures { AsksTables S.Store tx.old.conn tx.new.conn result
        (λ found. IsListed entries_tree (is_since user.now number)
        (columns (2 ∷ 4 ∷ 3 ∷ 5 ∷ 6 ∷ 7 ∷ [])) found.items) }
{
    tx.query_all(
        "SELECT number, kind, folder, name, media, digest FROM entries WHERE user = ?1 AND number > ?2 ORDER BY number",
        params![user, number],
    )
}

/// The digest of a user's entry, if there is such an entry.
pub(crate) fn find<S: Alter>(
    tx: &mut Transaction<'_, S>,
    user: &str,
    number: u32,
) -> Result<Option<Row>, Error>
    ensures { AsksTables S.Store tx.old.conn tx.new.conn result
        (λ found db. IsFound entries_tree (is_entry user.now number) (columns (7 ∷ [])) db found) }
{
    let rows = tx.query_all(
        "SELECT digest FROM entries WHERE user = ?1 AND number = ?2",
        params![user, number],
    )?;
    Ok(first_of(rows))
}

/// Puts an entry in.
pub(crate) fn add<S: Alter>(
    tx: &mut Transaction<'_, S>,
    user: &str,
    number: u32,
    folder: &[u8],
    kind: u32,
    name: &[u8],
    media: &[u8],
    digest: &[u8],
) -> Result<usize, Error>
    ensures { WritesTables S.Store tx.old.conn tx.new.conn result
        (Steps (IsAdded entries_tree
        (Text user.now ∷ Int (pos number) ∷ Blob folder.now ∷ Int (pos kind) ∷ Blob name.now
        ∷ Blob media.now ∷ Blob digest.now ∷ [])))
        (λ old new e. IsTableIn entries_tree old.now.trees → IsFree user.now number old.now.trees
        → HasSome digest.now old.now.trees
        → AddFaults entries_table
        (Text user.now ∷ Int (pos number) ∷ Blob folder.now ∷ Int (pos kind) ∷ Blob name.now
        ∷ Blob media.now ∷ Blob digest.now ∷ []) old new e) }
{
    tx.execute(
        "INSERT INTO entries (user, number, folder, kind, name, media, digest) VALUES (?1, ?2, ?3, ?4, ?5, ?6, ?7)",
        params![user, number, folder, kind, name, media, digest],
    )
}

/// Takes a user's entry out.
pub(crate) fn remove<S: Alter>(
    tx: &mut Transaction<'_, S>,
    user: &str,
    number: u32,
) -> Result<usize, Error>
    ensures { WritesTables S.Store tx.old.conn tx.new.conn result
        (Steps (IsTaken entries_tree (is_entry user.now number)))
        WriteFaults }
{
    tx.execute(
        "DELETE FROM entries WHERE user = ?1 AND number = ?2",
        params![user, number],
    )
}
