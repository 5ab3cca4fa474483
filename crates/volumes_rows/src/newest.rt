// Calls on the newest of one, two and three volumes.
use crate::by_hand::{begin, deliver_at, one_volume, program_at};
use crate::open_volumes::OpenVolumes;
use crate::samples::{KEEP, SCRIPT};
use refusals::Refusal;
use sqlite::MemStore;
use std::alloc::Global;
use std::test::Fail;
use volumes::{Volumes, migrate, program_of, set_code, set_script};

// Whether a program is these octets.
fn has_octets(program: &Option<Vec<u8>>, octets: &[u8]) -> bool {
    matches!(program, Some(found) if found.as_slice() == octets)
}

// Whether there are two programs, and they are the same.
fn are_same(one: &Option<Vec<u8>>, other: &Option<Vec<u8>>) -> bool {
    matches!(one, Some(octets) if has_octets(other, octets))
}

// What becomes of a filter that is set, and set again after the next volume began.
#[derive(Clone, Copy)]
struct Filters {
    is_carried: bool,
    is_set: bool,
    has_stayed: bool,
    has_lost: bool,
}

fn set_filters(alloc: Global, volumes: &mut OpenVolumes<MemStore>) -> Result<Filters, Fail> {
    set_script(volumes, alloc, "ann", SCRIPT)?;
    begin(alloc, volumes)?;
    let script = program_at(volumes, 0, "ann")?;
    let begun = program_of(volumes, "ann")?;
    set_code(volumes, alloc, "ann", KEEP)?;
    let set = program_of(volumes, "ann")?;
    let older = program_at(volumes, 0, "ann")?;
    Ok(Filters {
        is_carried: are_same(&script, &begun),
        is_set: has_octets(&set, KEEP),
        has_stayed: are_same(&script, &older),
        has_lost: volumes.has_lost,
    })
}

fn filters_in_one(alloc: Global) -> Result<Filters, Fail> {
    let mut volumes = one_volume(alloc)?;
    set_filters(alloc, &mut volumes)
}

#[test]
fn a_filter_is_set_in_the_newest(rt: HostRuntime) -> Result<(), Fail> {
    let filters = filters_in_one(rt.alloc())?;
    assert!(rt; filters.is_carried);
    assert!(rt; filters.is_set);
    assert!(rt; filters.has_stayed);
    assert!(rt; !filters.has_lost);
    Ok(())
}

// What becomes of a program of version 1 after two volumes began.
#[derive(Clone, Copy)]
struct Migrations {
    first: usize,
    second: usize,
    is_new: bool,
    is_old: bool,
    has_lost: bool,
}

fn migrate_twice(alloc: Global, volumes: &mut OpenVolumes<MemStore>) -> Result<Migrations, Fail> {
    set_code(volumes, alloc, "ann", KEEP)?;
    begin(alloc, volumes)?;
    begin(alloc, volumes)?;
    let first = migrate(volumes, alloc)?;
    let second = migrate(volumes, alloc)?;
    let newest = program_of(volumes, "ann")?;
    let older = program_at(volumes, 1, "ann")?;
    Ok(Migrations {
        first,
        second,
        is_new: newest.is_some() && !has_octets(&newest, KEEP),
        is_old: has_octets(&older, KEEP),
        has_lost: volumes.has_lost,
    })
}

fn migrations_in_one(alloc: Global) -> Result<Migrations, Fail> {
    let mut volumes = one_volume(alloc)?;
    migrate_twice(alloc, &mut volumes)
}

#[test]
fn programs_are_migrated_in_the_newest(rt: HostRuntime) -> Result<(), Fail> {
    let migrations = migrations_in_one(rt.alloc())?;
    assert_eq!(rt; migrations.first, 1);
    assert_eq!(rt; migrations.second, 0);
    assert!(rt; migrations.is_new);
    assert!(rt; migrations.is_old);
    assert!(rt; !migrations.has_lost);
    Ok(())
}

// The numbers that entries get after the next volume began, and for a stranger.
fn numbers(alloc: Global) -> Result<[u32; 4], Fail> {
    let mut volumes = one_volume(alloc)?;
    let first = deliver_at(alloc, &mut volumes, 0, "ann")?;
    let second = deliver_at(alloc, &mut volumes, 0, "ann")?;
    begin(alloc, &mut volumes)?;
    let third = deliver_at(alloc, &mut volumes, 1, "ann")?;
    let other = deliver_at(alloc, &mut volumes, 1, "bob")?;
    Ok([first, second, third, other])
}

#[test]
fn numbers_go_on_in_a_volume_that_began_by_hand(rt: HostRuntime) -> Result<(), Fail> {
    assert_eq!(rt; numbers(rt.alloc())?, [1, 2, 3, 1]);
    Ok(())
}

// Whether a filter can't be set because the newest volume can't be opened.
fn is_shut(alloc: Global, volumes: &mut OpenVolumes<MemStore>) -> bool {
    matches!(
        set_script(volumes, alloc, "ann", SCRIPT),
        Err(Refusal::Database)
    )
}

// Whether nobody's filter is refused for the name.
fn is_nobody(alloc: Global, volumes: &mut OpenVolumes<MemStore>) -> bool {
    matches!(set_code(volumes, alloc, "No", KEEP), Err(Refusal::UserName))
}

// Whether the newest of two volumes is shut while its depot is out, and no more after that.
fn is_shut_while_out(alloc: Global) -> Result<[bool; 3], Fail> {
    let mut volumes = one_volume(alloc)?;
    begin(alloc, &mut volumes)?;
    let depot = volumes.open(1)?;
    let during = is_shut(alloc, &mut volumes);
    volumes.close(1, depot);
    let after = is_shut(alloc, &mut volumes);
    let nobody = is_nobody(alloc, &mut volumes);
    Ok([during, after, nobody])
}

#[test]
fn refusals_come_from_the_newest(rt: HostRuntime) -> Result<(), Fail> {
    let mut none = OpenVolumes::new(rt.alloc());
    assert!(rt; is_shut(rt.alloc(), &mut none));
    assert_eq!(rt; is_shut_while_out(rt.alloc())?, [true, false, true]);
    Ok(())
}
