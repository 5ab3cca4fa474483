//! How a database is opened as it is, without making tables.
ghost use Rattle.std.specs.Prelude.{◌≡◌};
ghost use Rattle.part_store.specs.Looking.{are_tables, is_table, three_tables, unopened_of};
ghost use Rattle.part_store.specs.Unmade.{refusal_to_open, unmade_of};

use crate::error::StoreError;
use sqlite::ErrorCode;
use sqlite_schema::schema::{Schema, Table};
use thiserror::Error;

/// Why a file isn't opened as a store. [`crate::PartStore::look`] returns it, and `depot inspect` reports it.
#[derive(Clone, Copy, Debug, PartialEq, Eq, Drop, Error)]
pub enum Unopened {
    /// Memory was refused, here or in the database.
    #[error("an allocation was refused")]
    Memory,
    /// Another process, or another store of this process, has the file open.
    #[error("another process holds it")]
    Held,
    /// The files can't be opened for reading and writing, or one of their names belongs to something that isn't a file.
    #[error("it can't be opened")]
    Closed,
    /// The file holds no database, or a damaged one.
    #[error("it is no database, or a damaged one")]
    Damaged,
    /// The database doesn't have exactly the tables of a store, or has none.
    #[error("it has other tables, or none")]
    OtherTables,
    /// The disk failed.
    #[error("the disk failed")]
    Disk,
}

impl From<sqlite::Error> for Unopened {
    ghost from_gives = { λ error e. e ≡ unopened_of error };

    fn from(error: sqlite::Error) -> Unopened {
        match error {
            sqlite::Error::SqliteFailure(ErrorCode::OutOfMemory) => Unopened::Memory,
            sqlite::Error::SqliteFailure(ErrorCode::DatabaseBusy) => Unopened::Held,
            sqlite::Error::SqliteFailure(ErrorCode::NotADatabase | ErrorCode::DatabaseCorrupt) => {
                Unopened::Damaged
            }
            sqlite::Error::SqliteFailure(ErrorCode::CannotOpen) => Unopened::Closed,
            _ => Unopened::Disk,
        }
    }
}

// Why the tables of an empty store aren't made.
impl From<StoreError> for Unopened {
    ghost from_gives = { λ error e. e ≡ unmade_of error };

    fn from(error: StoreError) -> Unopened {
        match error {
            StoreError::Memory => Unopened::Memory,
            _others => Unopened::Disk,
        }
    }
}

impl From<Unopened> for StoreError {
    ghost from_gives = { λ why e. e ≡ refusal_to_open why };

    fn from(why: Unopened) -> StoreError {
        match why {
            Unopened::Memory => StoreError::Memory,
            _ => StoreError::Database,
        }
    }
}

/// Whether the tables of a database have the names of a store's tables, and as many columns.
pub(crate) fn has_tables(schema: &Schema) -> bool
    ensures { result ≡ are_tables schema.now.tables }
{
    let tables = schema.tables.as_slice();
    if tables.len() != 3 {
        return false;
    }
    are_stores(&tables[0], &tables[1], &tables[2])
}

fn are_stores(users: &Table, contents: &Table, entries: &Table) -> bool
    ensures { result ≡ three_tables users.now contents.now entries.now }
{
    is_table(users, b"users", 3)
        && is_table(contents, b"contents", 2)
        && is_table(entries, b"entries", 7)
}

fn is_table(table: &Table, name: &[u8], columns: usize) -> bool
    ensures { result ≡ is_table name.now columns table.now }
{
    table.name.as_slice() == name && table.columns.len() == columns
}
