// Calls that look for an entry or list entries, on volumes that were made by hand.
use crate::by_hand::{begin, deliver_at, last_number, one_volume};
use crate::open_volumes::OpenVolumes;
use crate::samples::MESSAGE;
use devices::OfWrite;
use encodings::Encoding;
use part_store::EntryRow;
use refusals::Refusal;
use sqlite::MemStore;
use std::alloc::Global;
use std::test::Fail;
use volumes::{export, list, list_since, remove};

// Delivers a message to ann in so many volumes, after each of which the next begins.
fn fill(alloc: Global, volumes: &mut OpenVolumes<MemStore>, count: usize) -> Result<(), Fail> {
    for place in 0..count {
        deliver_at(alloc, volumes, place, "ann")?;
        begin(alloc, volumes)?;
    }
    Ok(())
}

// So many volumes with an entry of ann each, and after them one without. The first also has an entry of bob.
fn volumes_with(alloc: Global, count: usize) -> Result<OpenVolumes<MemStore>, Fail> {
    let mut volumes = one_volume(alloc)?;
    deliver_at(alloc, &mut volumes, 0, "bob")?;
    fill(alloc, &mut volumes, count)?;
    Ok(volumes)
}

// Whether entries have the numbers after this one, and are so many.
fn go_on(rows: &[EntryRow], after: u32, count: usize) -> bool {
    let mut number = after;
    for row in rows {
        number = number.saturating_add(1);
        if row.number != number {
            return false;
        }
    }
    rows.len() == count
}

// Whether ann's lists of all entries, and of those above each number, are what they should be, with so many entries.
fn are_listed(
    alloc: Global,
    volumes: &mut OpenVolumes<MemStore>,
    count: u32,
) -> Result<bool, Refusal> {
    for number in 0..count {
        let rows = list_since(volumes, alloc, "ann", number)?;
        if !go_on(&rows, number, (count - number) as usize) {
            return Ok(false);
        }
    }
    let none = list_since(volumes, alloc, "ann", count)?;
    let all = list(volumes, alloc, "ann")?;
    Ok(none.is_empty() && go_on(&all, 0, count as usize))
}

// Whether ann's entry with a number has the message's octets.
fn is_exported(
    alloc: Global,
    volumes: &mut OpenVolumes<MemStore>,
    number: u32,
) -> Result<bool, Refusal> {
    let mut out = OfWrite::new(Vec::new(alloc));
    export(volumes, alloc, "ann", number, Encoding::Raw, &mut out)?;
    Ok(out.inner.as_slice() == MESSAGE)
}

// How many volumes were opened to export ann's entry with a number; none if it has other octets.
fn opens_for(
    alloc: Global,
    volumes: &mut OpenVolumes<MemStore>,
    number: u32,
) -> Result<Option<u64>, Refusal> {
    let before = volumes.opened;
    let is_right = is_exported(alloc, volumes, number)?;
    let opened = volumes.opened.saturating_sub(before);
    Ok(is_right.then_some(opened))
}

// The most volumes that were opened for one of the entries 1 to `count`; none if one of them has other octets.
fn most_opens(
    alloc: Global,
    volumes: &mut OpenVolumes<MemStore>,
    count: u32,
) -> Result<Option<u64>, Refusal> {
    let mut most = 0;
    for number in 1..=count {
        match opens_for(alloc, volumes, number)? {
            Some(opened) => most = opened.max(most),
            None => return Ok(None),
        }
    }
    Ok(Some(most))
}

// Whether an entry that nobody has is neither exported nor removed.
fn is_absent(alloc: Global, volumes: &mut OpenVolumes<MemStore>, number: u32) -> bool {
    matches!(
        is_exported(alloc, volumes, number),
        Err(Refusal::NoSuchEntry)
    ) && matches!(remove(volumes, "ann", number), Err(Refusal::NoSuchEntry))
}

// What is found in volumes with so many entries of ann, one in each, and one volume without.
#[derive(Clone, Copy)]
struct Found {
    are_listed: bool,
    opens: Option<u64>,
    lacks_none: bool,
    lacks_next: bool,
    has_lost: bool,
}

fn find_all(alloc: Global, count: u32) -> Result<Found, Fail> {
    let mut volumes = volumes_with(alloc, count as usize)?;
    Ok(Found {
        are_listed: are_listed(alloc, &mut volumes, count)?,
        opens: most_opens(alloc, &mut volumes, count)?,
        lacks_none: is_absent(alloc, &mut volumes, 0),
        lacks_next: is_absent(alloc, &mut volumes, count.saturating_add(1)),
        has_lost: volumes.has_lost,
    })
}

#[test]
fn each_entry_is_found_in_its_volume(rt: HostRuntime) -> Result<(), Fail> {
    // Of 2, 3 and 9 volumes at most 2, 3 and 5 are opened for an entry.
    for (count, opens) in [(0, 0), (1, 2), (2, 3), (8, 5)] {
        let found = find_all(rt.alloc(), count)?;
        assert!(rt; found.are_listed, "{count}");
        assert!(rt;
            matches!(found.opens, Some(most) if most <= opens),
            "{count}"
        );
        assert!(rt; found.lacks_none, "{count}");
        assert!(rt; found.lacks_next, "{count}");
        assert!(rt; !found.has_lost, "{count}");
    }
    Ok(())
}

// The last number that ann's list has after each of her entries 3, 2 and 1 is removed.
fn lasts_left(alloc: Global) -> Result<[u32; 3], Fail> {
    let mut volumes = volumes_with(alloc, 3)?;
    remove(&mut volumes, "ann", 3)?;
    let first = last_number(&list(&mut volumes, alloc, "ann")?);
    remove(&mut volumes, "ann", 1)?;
    let second = last_number(&list(&mut volumes, alloc, "ann")?);
    remove(&mut volumes, "ann", 2)?;
    let third = last_number(&list(&mut volumes, alloc, "ann")?);
    Ok([first, second, third])
}

#[test]
fn an_entry_is_removed_from_its_volume(rt: HostRuntime) -> Result<(), Fail> {
    assert_eq!(rt; lasts_left(rt.alloc())?, [2, 2, 0]);
    Ok(())
}

// Whether nobody's entries are neither listed nor looked for.
fn is_nobody(alloc: Global, volumes: &mut OpenVolumes<MemStore>) -> bool {
    matches!(list(volumes, alloc, "No"), Err(Refusal::UserName))
        && matches!(list_since(volumes, alloc, "No", 1), Err(Refusal::UserName))
        && matches!(remove(volumes, "No", 1), Err(Refusal::UserName))
}

// Whether there is nothing to list or to look for without any volume.
fn is_nothing(alloc: Global, volumes: &mut OpenVolumes<MemStore>) -> bool {
    matches!(list(volumes, alloc, "ann"), Err(Refusal::Database))
        && matches!(list_since(volumes, alloc, "ann", 1), Err(Refusal::Database))
        && matches!(remove(volumes, "ann", 1), Err(Refusal::Database))
}

#[test]
fn refusals_of_lists_and_removals(rt: HostRuntime) -> Result<(), Fail> {
    let mut volumes = volumes_with(rt.alloc(), 2)?;
    assert!(rt; is_nobody(rt.alloc(), &mut volumes));
    let mut none = OpenVolumes::new(rt.alloc());
    assert!(rt; is_nothing(rt.alloc(), &mut none));
    Ok(())
}
