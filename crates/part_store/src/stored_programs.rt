//! The users' filter programs. The errors are those of the database.
ghost use Rattle.std.specs.Prelude.{◌≡◌, ◌∷◌, ◌<◌, [], length, map, IsTrue, option_map};
ghost use Rattle.part_store.specs.Changes.{columns};
ghost use Rattle.part_store.specs.Tables.{store_schema};
ghost use Rattle.part_store.specs.Entries.{AreProgramsOf, with_program, with_programs};
ghost use Rattle.part_store.specs.Blaming.{AsRefusal, AsRefusalInside};
ghost use Rattle.part_store.specs.Inside.{Brings, IsInside, StaysInside};
ghost use Rattle.part_store.specs.Standing.{pair_of};
ghost use Rattle.part_store.specs.Readings.{row_of, ShowsProgram};
ghost use Rattle.std.specs.List.{AllByRecursion};
ghost use Rattle.part_store.specs.Refusals.{OnlyWhenFailed, OnlyWhenUnnamed, OnlyWhenFailedOrNoProgramRoom, OnlyWhenFailedOrNoUserRoom};
ghost use Rattle.part_store.specs.Calls.{Always, IfRefused, OnDone, StaysClosed, Tells};
ghost use Rattle.part_store.specs.Private.{KeepsInside, PutsUser, ReadsInside, ReadsRows, TellsTables};

use crate::all_users::put_line;
use crate::error::StoreError;
use crate::users;
use sqlite::{Alter, Error, Row, Transaction};

/// Stores a user's program and replaces the one before.
pub(crate) fn put_program<S: Alter>(
    tx: &mut Transaction<'_, S>,
    user: &str,
    program: &[u8],
) -> Result<(), Error>
    ensures { PutsUser S.Store tx.old.conn tx.new.conn result (with_program user.now program.now)
        IsInside (OnlyWhenFailedOrNoUserRoom user.now (with_program user.now program.now)) }
{
    put_line(tx, user, 0, Some(program))
}

/// A user's program, or `None` if the user has none.
pub(crate) fn read_program<S: Alter>(
    tx: &mut Transaction<'_, S>,
    user: &str,
) -> Result<Option<Vec<u8>>, Error>
    ensures answer { Tells S.Store tx.old.conn.now tx.new.conn.now result
        (λ before found. option_map (λ v. v.items) found ≡ before.programs user.now) }
    ensures still { OnDone S.Store tx.old.conn.now tx.new.conn.now result
        (λ old new. old.now.schema ≡ store_schema → IsTrue new.is_open) }
    ensures cause { IfRefused S.Store tx.old.conn.now tx.new.conn.now result (AsRefusal OnlyWhenFailed) }
    ensures within { ReadsInside S.Store tx.old.conn tx.new.conn result }
{
    match users::find(tx, user)? {
        Some(row) => row.get(1),
        None => Ok(None),
    }
}

/// The users that have a program, in the order of their names, with their programs.
pub(crate) fn list_programs<S: Alter>(
    tx: &mut Transaction<'_, S>,
) -> Result<Vec<(String, Vec<u8>)>, StoreError>
    ensures { TellsTables S.Store tx.old.conn tx.new.conn result
        (λ _ before programs. AreProgramsOf before (map pair_of programs.items)) OnlyWhenUnnamed }
{
    let rows = users::list_programs(tx)?;
    programs_in(&rows)
}

/// The users and programs that the rows of an answer show.
fn programs_in(rows: &Vec<Row>) -> Result<Vec<(String, Vec<u8>)>, StoreError>
    ensures { ReadsRows result
        (λ programs. map row_of programs.items ≡ map (columns (0 ∷ 1 ∷ [])) rows.now.items)
        (AllByRecursion ShowsProgram rows.now.items → ⊥) }
{
    let mut programs = Vec::with_capacity(*rows.allocator(), rows.len())?;
    for row in rows {
        programs.push((row.get(0)?, row.get(1)?))?;
    }
    Ok(programs)
}

/// Replaces a user's program, or does nothing for a user without one.
fn replace_program<S: Alter>(
    tx: &mut Transaction<'_, S>,
    user: &str,
    program: &[u8],
) -> Result<(), Error>
    ensures { PutsUser S.Store tx.old.conn tx.new.conn result
        (with_programs ((user.now, program.now) ∷ []))
        StaysInside (OnlyWhenFailedOrNoProgramRoom ((user.now, program.now) ∷ [])) }
{
    let Some(_before) = read_program(tx, user)? else {
        return Ok(());
    };
    put_program(tx, user, program)
}

/// Replaces the programs of those users that have one, one after another.
pub(crate) fn replace_all<S: Alter>(
    tx: &mut Transaction<'_, S>,
    programs: &[(String, Vec<u8>)],
) -> Result<(), Error>
    ensures step { OnDone S.Store tx.old.conn.now tx.new.conn.now result
        (Brings (with_programs (map pair_of programs.now))) }
    ensures open { OnDone S.Store tx.old.conn.now tx.new.conn.now result
        (λ old _. 0 < length programs.now → IsTrue old.is_open) }
    ensures inside { OnDone S.Store tx.old.conn.now tx.new.conn.now result StaysInside }
    ensures stays_closed { Always S.Store tx.old.conn.now tx.new.conn.now StaysClosed }
    ensures cause { IfRefused S.Store tx.old.conn.now tx.new.conn.now result
        (AsRefusalInside (OnlyWhenFailedOrNoProgramRoom (map pair_of programs.now))) }
    ensures within { KeepsInside S.Store tx.old.conn tx.new.conn result }
{
    for (user, program) in programs {
        replace_program(tx, user, program)?;
    }
    Ok(())
}
