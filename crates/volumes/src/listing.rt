// Lists, which go through volumes one after another.
ghost use Rattle.std.specs.Prelude.{◌≡◌, ◌++◌, ◌-◌, List, IfErr, IfOk, OnOk, map};
ghost use Rattle.part_store.specs.Standing.{listed};
ghost use Rattle.depot_actions.specs.Deliveries.{reply_of};
ghost use Rattle.depot_actions.specs.DepotState.{ListAll, ListSince};
ghost use Rattle.volumes.specs.Applying.{AppliesOnVolumes};
ghost use Rattle.volumes.specs.Holding.{IsFailure, Keeps};
ghost use Rattle.volumes.specs.Private.{AreListedAt, AreListedFrom, PutsListed};

use crate::failing::failure_of;
use crate::holding::Volumes;
use crate::searching::place_of;
use depot_actions::{Depot, is_user_name};
use part_store::EntryRow;
use refusals::Refusal;
use sqlite::Alter;
use std::alloc::{AllocError, Global};

/// Returns the user's entries in all volumes, without their contents, in the order of their numbers; none for an unknown
/// user. The volumes are opened one after another; only the rows stay in memory.
///
/// # Errors
///
/// - `UserName` if the name isn't a user name.
/// - `Memory` or `Database` if a volume can't be opened or read, or there is none.
pub fn list<S: Alter, V: Volumes<S, Depot<S>>>(
    volumes: &mut V,
    alloc: Global,
    user: &str,
) -> Result<Vec<EntryRow>, Refusal>
    ensures { AppliesOnVolumes V.holding volumes.old volumes.new result (ListAll user.now) reply_of }
{
    if !is_user_name(user) {
        return Err(Refusal::UserName);
    }
    let count = volumes.count();
    if count == 0 {
        return Err(Refusal::Database);
    }
    rows_from(volumes, alloc, user, 0, 0, count)
}

/// Returns the user's entries with numbers above `number`, without their contents, in the order of their numbers. A
/// search by [`place_of`] finds the first volume in which the user's last number is above `number`; that one and the
/// later ones are listed, or the newest alone if there is none. The contract doesn't say which volumes are opened.
///
/// # Errors
///
/// - `UserName` if the name isn't a user name.
/// - `Memory` or `Database` if a volume can't be opened or read, or there is none.
pub fn list_since<S: Alter, V: Volumes<S, Depot<S>>>(
    volumes: &mut V,
    alloc: Global,
    user: &str,
    number: u32,
) -> Result<Vec<EntryRow>, Refusal>
    ensures { AppliesOnVolumes V.holding volumes.old volumes.new result
        (ListSince user.now number) reply_of }
{
    if !is_user_name(user) {
        return Err(Refusal::UserName);
    }
    let count = volumes.count();
    if count == 0 {
        return Err(Refusal::Database);
    }
    let first = place_of(volumes, user, u64::from(number) + 1, count - 1)?;
    rows_from(volumes, alloc, user, number, first, count)
}

// The user's entries above a number in the volumes from a place on.
fn rows_from<S: Alter, V: Volumes<S, Depot<S>>>(
    volumes: &mut V,
    alloc: Global,
    user: &str,
    number: u32,
    first: usize,
    count: usize,
) -> Result<Vec<EntryRow>, Refusal>
    ensures rows { IfOk result (λ rows. AreListedFrom V.holding volumes.old volumes.new
        user.now number first count (map listed rows.items)) }
    ensures keeps { Keeps V.holding volumes.old volumes.new }
    ensures which { IfErr result IsFailure }
{
    let mut rows = Vec::new(alloc);
    let mut place = first;
    'volumes: while place < count {
        put_rows(volumes, &mut rows, user, number, place)?;
        place += 1;
    }
    Ok(rows)
}

// Appends the user's entries above a number in the volume at a place.
fn put_rows<S: Alter, V: Volumes<S, Depot<S>>>(
    volumes: &mut V,
    rows: &mut Vec<EntryRow>,
    user: &str,
    number: u32,
    place: usize,
) -> Result<(), Refusal>
    ensures rows { OnOk result (PutsListed V.holding volumes.old volumes.new
        user.now number place (map listed rows.old.items) (map listed rows.new.items)) }
    ensures keeps { Keeps V.holding volumes.old volumes.new }
    ensures which { IfErr result IsFailure }
{
    let more = rows_at(volumes, user, number, place)?;
    put_all(rows, more)?;
    Ok(())
}

// Appends rows.
fn put_all(rows: &mut Vec<EntryRow>, more: Vec<EntryRow>) -> Result<(), AllocError>
    ensures { OnOk result (rows.new.items ≡ rows.old.items ++ more.items) }
{
    let mut more = more;
    rows.append(&mut more)
}

// The user's entries above a number in the volume at a place.
fn rows_at<S: Alter, V: Volumes<S, Depot<S>>>(
    volumes: &mut V,
    user: &str,
    number: u32,
    place: usize,
) -> Result<Vec<EntryRow>, Refusal>
    ensures rows { IfOk result (λ rows. AreListedAt V.holding volumes.old volumes.new
        user.now number place (map listed rows.items)) }
    ensures keeps { Keeps V.holding volumes.old volumes.new }
    ensures which { IfErr result IsFailure }
{
    let depot = volumes.open(place)?;
    let mut store = depot.release();
    let rows = store.entries_since(user, number);
    volumes.close(place, Depot::adopt(store));
    match rows {
        Ok(rows) => Ok(rows),
        Err(error) => Err(failure_of(error)),
    }
}
