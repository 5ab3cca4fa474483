//! The three tables and how they are made. Each function runs one statement, and its error is the database's.
//!
//! There is no index on the digests of entries, so a removal reads the entries once. A second index would need each
//! statement's meaning under two schemas, because existing depots have none. A name is a column of each row, as it was
//! sent: a content that several entries have is stored once, but a part's file name isn't, because the tables have no
//! place for it.
ghost use Rattle.std.specs.Prelude.{[]};
ghost use Rattle.part_store.specs.Tables.{users_tree, contents_tree, entries_tree, no_schema, with_users, with_contents, store_schema};
ghost use Rattle.part_store.specs.Changes.{IsMade};
ghost use Rattle.part_store.specs.Private.{MakesTables};

use sqlite::{Alter, Error, Transaction};

/// Makes the table of users in a database without tables.
pub(crate) fn create_users<S: Alter>(tx: &mut Transaction<'_, S>) -> Result<usize, Error>
    ensures { MakesTables S.Store tx.old.conn tx.new.conn result
        (λ old new. IsMade no_schema with_users users_tree old.now new.now) }
{
    tx.execute(
        "CREATE TABLE users (user TEXT PRIMARY KEY, last INTEGER NOT NULL, program BLOB) STRICT",
        &[],
    )
}

/// Makes the table of contents, after the table of users.
pub(crate) fn create_contents<S: Alter>(tx: &mut Transaction<'_, S>) -> Result<usize, Error>
    ensures { MakesTables S.Store tx.old.conn tx.new.conn result
        (λ old new. IsMade with_users with_contents contents_tree old.now new.now) }
{
    tx.execute(
        "CREATE TABLE contents (digest BLOB PRIMARY KEY, octets BLOB NOT NULL) STRICT",
        &[],
    )
}

/// Makes the table of entries after the other two.
pub(crate) fn create_entries<S: Alter>(tx: &mut Transaction<'_, S>) -> Result<usize, Error>
    ensures { MakesTables S.Store tx.old.conn tx.new.conn result
        (λ old new. IsMade with_contents store_schema entries_tree old.now new.now) }
{
    tx.execute(
        "CREATE TABLE entries (user TEXT NOT NULL, number INTEGER NOT NULL, folder BLOB NOT NULL, kind INTEGER NOT NULL, name BLOB NOT NULL, media BLOB NOT NULL, digest BLOB NOT NULL REFERENCES contents, PRIMARY KEY (user, number)) STRICT",
        &[],
    )
}
