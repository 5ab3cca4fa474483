// Stored programs that something has altered: a delivery is refused, or files what the altered program says, and all else works.
use crate::samples::KEEP;
use bytecode_format::Action;
use depot_actions::{Depot, Refusal};
use devices::OfWrite;
use encodings::Encoding;
use part_store::{EntryRow, Kind, NewEntry, PartStore, StoreError};
use sieve_engine::execute;
use sqlite::{Alter, params};
use std::alloc::{AllocError, Global};
use std::test::Fail;

const OLD: NewEntry<'static> = NewEntry {
    folder: b"old",
    kind: Kind::Part,
    name: b"",
    media: b"text/plain",
    octets: b"foobar",
};

/// How many altered programs are still accepted, how many aren't, and on how many the depot did otherwise.
#[derive(Clone, Copy)]
struct Counts {
    accepted: u32,
    refused: u32,
    different: u32,
}

// A program with another octet at a place.
fn with_octet(
    alloc: Global,
    program: &[u8],
    place: usize,
    octet: u8,
) -> Result<Vec<u8>, AllocError> {
    let mut altered = Vec::from_slice(alloc, program)?;
    if place < altered.len() {
        altered[place] = octet;
    }
    Ok(altered)
}

// Puts octets in the place of ann's program, whatever they are, and adds an entry of hers.
fn altered<S: Alter + Drop>(depot: Depot<S>, program: &[u8]) -> Result<Depot<S>, StoreError> {
    let mut conn = depot.release().release();
    conn.execute(
        "UPDATE users SET program = ?1 WHERE user = 'ann'",
        params![program],
    )?;
    match PartStore::adopt(conn) {
        Ok(opened) => {
            let mut store = opened;
            let entries = [OLD];
            store.add_entries("ann", &entries)?;
            Ok(Depot::adopt(store))
        }
        Err((error, _)) => Err(error),
    }
}

// Whether a row shows what an action files of the empty message.
fn shows(row: &EntryRow, action: &Action) -> bool {
    let (is_part, folder) = match action {
        Action::Keep => (false, b"INBOX".as_slice()),
        Action::File(folder) => (false, folder.as_slice()),
        Action::Store(folder, _) => (true, folder.as_slice()),
    };
    matches!(row.kind, Kind::Part) == is_part && row.folder.as_slice() == folder && row.octets == 0
}

// Whether the rows show what the actions file, in order.
fn show_all(rows: &[EntryRow], actions: &[Action]) -> bool {
    rows.len() == actions.len()
        && rows
            .iter()
            .zip(actions)
            .all(|(row, action)| shows(row, action))
}

// Whether a delivery filed what the actions say; what it filed is removed.
fn is_filed<S: Alter>(
    depot: &mut Depot<S>,
    delivered: Result<Vec<EntryRow>, Refusal>,
    actions: &[Action],
) -> Result<bool, Refusal> {
    let rows = delivered?;
    for row in &rows {
        depot.remove("ann", row.number)?;
    }
    Ok(show_all(&rows, actions))
}

// Delivers the empty message, says whether the program's actions were filed or it was refused, and removes what was filed.
fn delivers<S: Alter>(
    alloc: Global,
    depot: &mut Depot<S>,
    program: &[u8],
    counts: &mut Counts,
) -> Result<bool, Refusal> {
    let delivered = depot.deliver(alloc, "ann", b"");
    match execute(alloc, program, b"") {
        Ok(report) => {
            counts.accepted = counts.accepted.saturating_add(1);
            is_filed(depot, delivered, &report.outcome.actions)
        }
        Err(_) => {
            counts.refused = counts.refused.saturating_add(1);
            Ok(matches!(&delivered, Err(Refusal::Database)))
        }
    }
}

// Whether an entry of ann has the octets of the old one.
fn exports_old<S: Alter>(
    alloc: Global,
    depot: &mut Depot<S>,
    number: u32,
) -> Result<bool, Refusal> {
    let mut out = OfWrite::new(Vec::new(alloc));
    depot.export(alloc, "ann", number, Encoding::Raw, &mut out)?;
    Ok(out.inner.as_slice() == OLD.octets)
}

// The number of the old entry, if ann has that one alone and it is exported.
fn has_old<S: Alter>(alloc: Global, depot: &mut Depot<S>) -> Result<Option<u32>, Refusal> {
    let rows = depot.list("ann")?;
    let [row] = rows.as_slice() else {
        return Ok(None);
    };
    let is_old = row.folder.as_slice() == OLD.folder && exports_old(alloc, depot, row.number)?;
    Ok(is_old.then_some(row.number))
}

// Whether a depot does as it should while ann has this program: lists, exports, delivers and removes.
fn does<S: Alter>(
    alloc: Global,
    depot: &mut Depot<S>,
    program: &[u8],
    counts: &mut Counts,
) -> Result<bool, Refusal> {
    let Some(number) = has_old(alloc, depot)? else {
        return Ok(false);
    };
    let delivered = delivers(alloc, depot, program, counts)?;
    depot.remove("ann", number)?;
    Ok(delivered && depot.list("ann")?.is_empty())
}

// Tries the program that keeps with another octet at a place.
fn tried_with<S: Alter + Drop>(
    alloc: Global,
    laid: Depot<S>,
    place: usize,
    octet: u8,
    counts: &mut Counts,
) -> Result<Depot<S>, Fail> {
    let program = with_octet(alloc, KEEP, place, octet)?;
    let mut depot = altered(laid, &program)?;
    if !does(alloc, &mut depot, &program, counts)? {
        counts.different = counts.different.saturating_add(1);
    }
    Ok(depot)
}

// Tries each of the octets at a place of the program that keeps.
fn tried_at<S: Alter + Drop>(
    alloc: Global,
    laid: Depot<S>,
    place: usize,
    counts: &mut Counts,
) -> Result<Depot<S>, Fail> {
    let mut depot = laid;
    for octet in 0..=255u8 {
        depot = tried_with(alloc, depot, place, octet, counts)?;
    }
    Ok(depot)
}

// Tries each of the octets at each place, in a depot where ann has the program that keeps.
fn tried<S: Alter + Drop>(alloc: Global, laid: Depot<S>) -> Result<Counts, Fail> {
    let mut counts = Counts {
        accepted: 0,
        refused: 0,
        different: 0,
    };
    let mut depot = laid;
    for place in 0..KEEP.len() {
        depot = tried_at(alloc, depot, place, &mut counts)?;
    }
    Ok(counts)
}

#[test]
fn each_octet_set_to_each_value(rt: HostRuntime) -> Result<(), Fail> {
    let alloc = rt.alloc();
    let mut depot = Depot::in_memory(alloc)?;
    depot.set_code(alloc, "ann", KEEP)?;
    let counts = tried(alloc, depot)?;
    assert_eq!(rt; counts.different, 0);
    assert_eq!(rt; counts.accepted.saturating_add(counts.refused), 7_936);
    assert!(rt; counts.accepted > 31);
    assert!(rt; counts.refused > 7_000);
    Ok(())
}
