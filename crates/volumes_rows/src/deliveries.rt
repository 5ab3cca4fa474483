// Deliveries, which begin the next volume.
use crate::by_hand::{last_number, one_volume, program_at, stock};
use crate::open_volumes::OpenVolumes;
use crate::samples::{MESSAGE, SCRIPT};
use refusals::Refusal;
use sqlite::MemStore;
use std::alloc::Global;
use std::test::Fail;
use volumes::{VOLUME_SIZE, Volumes, deliver, list, set_script};

// Delivers the message to ann so often, and returns whether each delivery files one attachment, with the next number.
fn deliver_often(
    alloc: Global,
    volumes: &mut OpenVolumes<MemStore>,
    times: u32,
    most: u64,
) -> Result<bool, Refusal> {
    for number in 1..=times {
        let rows = deliver(volumes, alloc, "ann", MESSAGE, most)?;
        let [row] = rows.as_slice() else {
            return Ok(false);
        };
        if row.number != number || row.folder.as_slice() != b"att".as_slice() {
            return Ok(false);
        }
    }
    Ok(true)
}

// What comes of deliveries to ann, whose filter was set before them.
#[derive(Clone, Copy)]
struct Delivered {
    is_right: bool,
    volumes: usize,
    listed: usize,
    last: u32,
    has_filter: bool,
    has_lost: bool,
}

fn come_of(
    alloc: Global,
    volumes: &mut OpenVolumes<MemStore>,
    most: u64,
) -> Result<Delivered, Fail> {
    stock(alloc, volumes, 6)?;
    set_script(volumes, alloc, "ann", SCRIPT)?;
    let is_right = deliver_often(alloc, volumes, 6, most)?;
    let rows = list(volumes, alloc, "ann")?;
    let count = volumes.count();
    let program = program_at(volumes, count.saturating_sub(1), "ann")?;
    Ok(Delivered {
        is_right,
        volumes: count,
        listed: rows.len(),
        last: last_number(&rows),
        has_filter: program.is_some(),
        has_lost: volumes.has_lost,
    })
}

fn delivered_in_one(alloc: Global, most: u64) -> Result<Delivered, Fail> {
    let mut volumes = one_volume(alloc)?;
    come_of(alloc, &mut volumes, most)
}

#[test]
fn volumes_begin_once_the_newest_is_large(rt: HostRuntime) -> Result<(), Fail> {
    // A depot is given back once for a delivery. So with the limit 0 each delivery begins a volume, and with 2 every
    // second one does, also the second, since the filter was set in the same volume.
    for (most, volumes) in [(0, 7), (1, 7), (2, 4), (3, 3), (VOLUME_SIZE, 1)] {
        let delivered = delivered_in_one(rt.alloc(), most)?;
        assert!(rt; delivered.is_right, "{most}");
        assert_eq!(rt; delivered.volumes, volumes, "{most}");
        assert_eq!(rt; delivered.listed, 6, "{most}");
        assert_eq!(rt; delivered.last, 6, "{most}");
        assert!(rt; delivered.has_filter, "{most}");
        assert!(rt; !delivered.has_lost, "{most}");
    }
    Ok(())
}

// Whether a delivery is refused because there is no volume, because the next one can't be made, or because the name is no
// user's.
fn are_refused(alloc: Global) -> Result<[bool; 3], Fail> {
    let mut none: OpenVolumes<MemStore> = OpenVolumes::new(alloc);
    let mut one = one_volume(alloc)?;
    Ok([
        matches!(
            deliver(&mut none, alloc, "ann", MESSAGE, 1),
            Err(Refusal::Database)
        ),
        matches!(
            deliver(&mut one, alloc, "ann", MESSAGE, 0),
            Err(Refusal::Database)
        ),
        matches!(
            deliver(&mut one, alloc, "No", MESSAGE, VOLUME_SIZE),
            Err(Refusal::UserName)
        ),
    ])
}

#[test]
fn refusals_of_deliveries(rt: HostRuntime) -> Result<(), Fail> {
    assert_eq!(rt; are_refused(rt.alloc())?, [true, true, true]);
    Ok(())
}
