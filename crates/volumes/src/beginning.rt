// The beginning of the next volume.
ghost use Rattle.std.specs.Prelude.{IfErr, IfOk, map};
ghost use Rattle.part_store.specs.UserLines.{line_of};
ghost use Rattle.volumes.specs.Applying.{KeepsWhole};
ghost use Rattle.volumes.specs.Holding.{IsFailure, Keeps};
ghost use Rattle.volumes.specs.Private.{AreNewestUsers, FillsNext};

use crate::commands::open_newest;
use crate::failing::failure_of;
use crate::holding::Volumes;
use depot_actions::Depot;
use part_store::UserRow;
use part_store::laws::users_carry_over;
use refusals::Refusal;
use sqlite::Alter;

/// Begins the next volume if the newest has `most` bytes or more.
///
/// # Errors
///
/// `Memory` or `Database` if a volume can't be opened, read, made or filled. The next volume doesn't count then.
pub(crate) fn begin_if_large<S: Alter, V: Volumes<S, Depot<S>>>(
    volumes: &mut V,
    most: u64,
) -> Result<(), Refusal>
    ensures keeps { KeepsWhole V.holding volumes.old volumes.new }
    ensures which { IfErr result IsFailure }
{
    if volumes.newest_size()? < most {
        return Ok(());
    }
    begin_next(volumes)
}

// Begins the next volume: with the users of the newest, their programs and last numbers.
fn begin_next<S: Alter, V: Volumes<S, Depot<S>>>(volumes: &mut V) -> Result<(), Refusal>
    ensures keeps { KeepsWhole V.holding volumes.old volumes.new }
    ensures which { IfErr result IsFailure }
{
    let users = newest_users(volumes)?;
    fill_next(volumes, &users)
}

// The users of the newest volume.
fn newest_users<S: Alter, V: Volumes<S, Depot<S>>>(volumes: &mut V) -> Result<Vec<UserRow>, Refusal>
    ensures users { IfOk result
        (λ users. AreNewestUsers V.holding volumes.old volumes.new (map line_of users.items)) }
    ensures keeps { Keeps V.holding volumes.old volumes.new }
    ensures which { IfErr result IsFailure }
{
    let (place, depot) = open_newest(volumes)?;
    let mut store = depot.release();
    let users = store.users();
    volumes.close(place, Depot::adopt(store));
    match users {
        Ok(users) => Ok(users),
        Err(error) => Err(failure_of(error)),
    }
}

// Makes the next volume with these users. It counts if they could be put in.
fn fill_next<S: Alter, V: Volumes<S, Depot<S>>>(
    volumes: &mut V,
    users: &[UserRow],
) -> Result<(), Refusal>
    ensures keeps { FillsNext V.holding volumes.old volumes.new (map line_of users.now) }
    ensures which { IfErr result IsFailure }
{
    users_carry_over();
    let depot = volumes.begin()?;
    let mut store = depot.release();
    match store.put_users(users) {
        Ok(()) => {
            volumes.append(Depot::adopt(store));
            Ok(())
        }
        Err(error) => {
            volumes.abandon(Depot::adopt(store));
            Err(failure_of(error))
        }
    }
}
