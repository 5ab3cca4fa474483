//! All users that a store knows, and how users are put in.
ghost use Rattle.std.specs.Prelude.{◌≡◌, ◌∷◌, ◌<◌, [], length, map, option_map, IsTrue, IfOk, IfErr};
ghost use Rattle.part_store.specs.Blaming.{AsRefusalInside};
ghost use Rattle.part_store.specs.Changes.{columns, with_line};
ghost use Rattle.part_store.specs.Tables.{users_tree};
ghost use Rattle.part_store.specs.UserLines.{AreUsersOf, line_of, with_users};
ghost use Rattle.part_store.specs.Readings.{answer_of, ShowsUser};
ghost use Rattle.std.specs.List.{AllByRecursion};
ghost use Rattle.part_store.specs.Refusals.{refusal_of, OnlyWhenUnnamed, OnlyWhenFailedOrNoLineRoom, OnlyWhenFailedOrNoUserRoom};
ghost use Rattle.part_store.specs.declared.error.StoreError.TheVariants.{Database};
ghost use Rattle.part_store.specs.Calls.{Always, IfRefused, OnDone, StaysClosed};
ghost use Rattle.part_store.specs.Inside.{Brings, IsInside, StaysInside};
ghost use Rattle.part_store.specs.Private.{KeepsInside, PutsUser, ReadsRows, TellsTables};

use crate::adding::last_of;
use crate::error::StoreError;
use crate::user_row::UserRow;
use crate::users;
use sqlite::{Alter, Error, Row, Transaction};

/// The users that have a row, in the order of their names.
pub(crate) fn list_users<S: Alter>(tx: &mut Transaction<'_, S>) -> Result<Vec<UserRow>, StoreError>
    ensures { TellsTables S.Store tx.old.conn tx.new.conn result
        (λ db before users. AreUsersOf (db users_tree) before (map line_of users.items))
        OnlyWhenUnnamed }
{
    let rows = users::list(tx)?;
    users_in(&rows)
}

/// The users that the rows of an answer show.
fn users_in(rows: &Vec<Row>) -> Result<Vec<UserRow>, StoreError>
    ensures { ReadsRows result
        (λ users. map answer_of users.items ≡ map (columns (0 ∷ 1 ∷ 2 ∷ [])) rows.now.items)
        (AllByRecursion ShowsUser rows.now.items → ⊥) }
{
    let mut users = Vec::with_capacity(*rows.allocator(), rows.len())?;
    for row in rows {
        users.push(user_in(row)?)?;
    }
    Ok(users)
}

/// The user that a row of an answer shows.
fn user_in(row: &Row) -> Result<UserRow, Error>
    ensures shown { IfOk result (λ user. answer_of user ≡ columns (0 ∷ 1 ∷ 2 ∷ []) row.now) }
    ensures cause { IfErr result (λ e. refusal_of e ≡ Database → ShowsUser row.now → ⊥) }
{
    Ok(UserRow {
        user: row.get(0)?,
        last: row.get(1)?,
        program: row.get(2)?,
    })
}

/// Puts users in, one after another.
pub(crate) fn put_all<S: Alter>(tx: &mut Transaction<'_, S>, rows: &[UserRow]) -> Result<(), Error>
    ensures step { OnDone S.Store tx.old.conn.now tx.new.conn.now result
        (Brings (with_users (map line_of rows.now))) }
    ensures open { OnDone S.Store tx.old.conn.now tx.new.conn.now result
        (λ old _. 0 < length rows.now → IsTrue old.is_open) }
    ensures inside { OnDone S.Store tx.old.conn.now tx.new.conn.now result StaysInside }
    ensures stays_closed { Always S.Store tx.old.conn.now tx.new.conn.now StaysClosed }
    ensures cause { IfRefused S.Store tx.old.conn.now tx.new.conn.now result
        (AsRefusalInside (OnlyWhenFailedOrNoLineRoom (map line_of rows.now))) }
    ensures within { KeepsInside S.Store tx.old.conn tx.new.conn result }
{
    for row in rows {
        put_user(tx, row)?;
    }
    Ok(())
}

/// Puts a user in.
fn put_user<S: Alter>(tx: &mut Transaction<'_, S>, row: &UserRow) -> Result<(), Error>
    ensures { PutsUser S.Store tx.old.conn tx.new.conn result (with_users (line_of row.now ∷ []))
        IsInside (OnlyWhenFailedOrNoLineRoom (line_of row.now ∷ [])) }
{
    put_line(tx, row.user.as_str(), row.last, row.program.as_deref())
}

/// Puts a row of a user in, in the place of the one before, if there is one. The last number is the larger one of this
/// and the one before.
pub(crate) fn put_line<S: Alter>(
    tx: &mut Transaction<'_, S>,
    user: &str,
    last: u32,
    program: Option<&[u8]>,
) -> Result<(), Error>
    ensures { PutsUser S.Store tx.old.conn tx.new.conn result
        (with_line user.now last (option_map (λ octets. octets.now) program.entry)) IsInside
        (OnlyWhenFailedOrNoUserRoom user.now
        (with_line user.now last (option_map (λ octets. octets.now) program.entry))) }
{
    let (before, _is_known) = last_of(tx, user)?;
    users::remove(tx, user)?;
    users::add(tx, user, before.max(last), program)?;
    Ok(())
}
