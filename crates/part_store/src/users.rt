//! The table of users: each user's last number and program. Each function runs one statement, and its error is the
//! database's.
ghost use Rattle.std.specs.Prelude.{◌≡◌, [], ◌∷◌, ℕ, ℤ, pos, List, Option, slice_get};
ghost use Rattle.sqlite_value.specs.declared.value.Value.TheVariants.{Int, Text, Blob};
ghost use Rattle.sqlite.specs.Values.{or_null};
ghost use Rattle.part_store.specs.Changes.{Steps, IsFound, IsListed, IsAdded, IsOnlyRow, IsRenewed, IsTableIn, IsTaken, columns, every, has_program, user_row};
ghost use Rattle.part_store.specs.Tables.{users_tree, equals, users_table};
ghost use Rattle.part_store.specs.Causes.{AddFaults, HasNoRow, PutFaults, WriteFaults};
ghost use Rattle.part_store.specs.Refusals.{user_values};
ghost use Rattle.part_store.specs.Private.{AsksTables, WritesTables};

use sqlite::{Alter, Error, Row, Transaction, params};

/// The first row of an answer.
pub(crate) fn first_of(rows: Vec<Row>) -> Option<Row>
    ensures { result ≡ slice_get rows.items 0 }
{
    rows.into_iter().next()
}

/// A user's last number and program.
pub(crate) fn find<S: Alter>(tx: &mut Transaction<'_, S>, user: &str) -> Result<Option<Row>, Error>
    ensures { AsksTables S.Store tx.old.conn tx.new.conn result
        (λ found db. IsFound users_tree (equals 1 (Text user.now)) (columns (2 ∷ 3 ∷ [])) db found) }
{
    let rows = tx.query_all(
        "SELECT last, program FROM users WHERE user = ?1",
        params![user],
    )?;
    Ok(first_of(rows))
}

/// A user's last number, without the program.
pub(crate) fn find_last<S: Alter>(
    tx: &mut Transaction<'_, S>,
    user: &str,
) -> Result<Option<Row>, Error>
    ensures { AsksTables S.Store tx.old.conn tx.new.conn result
        (λ found db. IsFound users_tree (equals 1 (Text user.now)) (columns (2 ∷ [])) db found) }
{
    let rows = tx.query_all("SELECT last FROM users WHERE user = ?1", params![user])?;
    Ok(first_of(rows))
}

/// The users that have a program, and their programs, in the order of the users' names.
pub(crate) fn list_programs<S: Alter>(tx: &mut Transaction<'_, S>) -> Result<Vec<Row>, Error>
    ensures { AsksTables S.Store tx.old.conn tx.new.conn result
        (λ found. IsListed users_tree has_program (columns (1 ∷ 3 ∷ [])) found.items) }
{
    tx.query_all(
        "SELECT user, program FROM users WHERE program IS NOT NULL ORDER BY user",
        &[],
    )
}

/// All users with their last numbers and programs, in the order of their names.
pub(crate) fn list<S: Alter>(tx: &mut Transaction<'_, S>) -> Result<Vec<Row>, Error>
    ensures { AsksTables S.Store tx.old.conn tx.new.conn result
        (λ found. IsListed users_tree every (columns (1 ∷ 2 ∷ 3 ∷ [])) found.items) }
{
    tx.query_all("SELECT user, last, program FROM users ORDER BY user", &[])
}

/// Takes a user's row out.
pub(crate) fn remove<S: Alter>(tx: &mut Transaction<'_, S>, user: &str) -> Result<usize, Error>
    ensures { WritesTables S.Store tx.old.conn tx.new.conn result
        (Steps (IsTaken users_tree (equals 1 (Text user.now))))
        WriteFaults }
{
    tx.execute("DELETE FROM users WHERE user = ?1", params![user])
}

/// Puts a user's row in.
pub(crate) fn add<S: Alter>(
    tx: &mut Transaction<'_, S>,
    user: &str,
    last: u32,
    program: Option<&[u8]>,
) -> Result<usize, Error>
    ensures { WritesTables S.Store tx.old.conn tx.new.conn result
        (Steps (IsAdded users_tree
        (Text user.now ∷ Int (pos last) ∷ or_null (λ octets. Blob octets.now) program.entry
        ∷ [])))
        (λ old new e. IsTableIn users_tree old.now.trees → HasNoRow user.now old.now.trees
        → AddFaults users_table
        (Text user.now ∷ Int (pos last) ∷ or_null (λ octets. Blob octets.now) program.entry
        ∷ []) old new e) }
{
    tx.execute(
        "INSERT INTO users (user, last, program) VALUES (?1, ?2, ?3)",
        params![user, last, program],
    )
}

/// Gives a user's row another last number. The user's program isn't written again.
pub(crate) fn renew<S: Alter>(
    tx: &mut Transaction<'_, S>,
    user: &str,
    last: u32,
) -> Result<usize, Error>
    ensures { WritesTables S.Store tx.old.conn tx.new.conn result
        (Steps (IsRenewed user.now last))
        (λ old new e. (id : ℤ) (was : ℕ) (program : Option (List ℕ))
        → IsOnlyRow user.now (user_row id user.now was program) old.now.trees
        → PutFaults users_table id (user_values user.now last program) old new e) }
{
    tx.execute(
        "UPDATE users SET last = ?2 WHERE user = ?1",
        params![user, last],
    )
}
