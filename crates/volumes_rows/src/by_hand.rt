// Volumes made by hand: the depot of one of them is taken out, used, and given back.
use crate::open_volumes::OpenVolumes;
use crate::samples::MESSAGE;
use crate::spare::Spare;
use depot_actions::Depot;
use part_store::{EntryRow, UserRow};
use refusals::Refusal;
use sqlite::MemStore;
use std::alloc::Global;
use std::test::Fail;
use volumes::Volumes;

/// One volume, which is empty.
pub fn one_volume(alloc: Global) -> Result<OpenVolumes<MemStore>, Fail> {
    let mut volumes = OpenVolumes::new(alloc);
    volumes.add(Depot::in_memory(alloc)?)?;
    Ok(volumes)
}

/// Takes so many empty depots for the next volumes.
pub fn stock(
    alloc: Global,
    volumes: &mut OpenVolumes<MemStore>,
    count: usize,
) -> Result<(), Refusal> {
    for _ in 0..count {
        volumes.add_spare(Spare::in_memory(alloc)?)?;
    }
    Ok(())
}

// The users of the newest volume.
fn newest_users(volumes: &mut OpenVolumes<MemStore>) -> Result<Vec<UserRow>, Fail> {
    let place = volumes.count().saturating_sub(1);
    let mut store = volumes.open(place)?.release();
    let users = store.users();
    volumes.close(place, Depot::adopt(store));
    Ok(users?)
}

/// Adds a volume with the users of the newest.
pub fn begin(alloc: Global, volumes: &mut OpenVolumes<MemStore>) -> Result<(), Fail> {
    let users = newest_users(volumes)?;
    let mut store = Depot::in_memory(alloc)?.release();
    store.put_users(&users)?;
    volumes.add(Depot::adopt(store))?;
    Ok(())
}

/// The number of the last of these entries, or 0.
pub fn last_number(rows: &[EntryRow]) -> u32 {
    match rows.last() {
        Some(row) => row.number,
        None => 0,
    }
}

/// Delivers the message in the volume at a place, and returns the number of the last entry.
pub fn deliver_at(
    alloc: Global,
    volumes: &mut OpenVolumes<MemStore>,
    place: usize,
    user: &str,
) -> Result<u32, Fail> {
    let mut depot = volumes.open(place)?;
    let rows = depot.deliver(alloc, user, MESSAGE);
    volumes.close(place, depot);
    Ok(last_number(&rows?))
}

/// The program that the user has in the volume at a place.
pub fn program_at(
    volumes: &mut OpenVolumes<MemStore>,
    place: usize,
    user: &str,
) -> Result<Option<Vec<u8>>, Fail> {
    let mut depot = volumes.open(place)?;
    let program = depot.program_of(user);
    volumes.close(place, depot);
    Ok(program?)
}
