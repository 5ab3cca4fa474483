// A depot in memory.
use crate::checksum::REFUSED;
use depot_actions::Depot;
use devices::OfWrite;
use encodings::Encoding;
use part_store::EntryRow;
use sqlite::MemStore;
use std::alloc::Global;
use std::io;

/// What is done in a new depot, `rounds` times, after the first mails are delivered.
#[derive(Clone, Copy)]
enum Job<'a> {
    Deliver { script: &'a [u8] },
    List { mails: u32 },
    Remove { mails: u32 },
    Export,
}

/// Delivers mails into a new depot with a script; each mail is the given one followed by its number in four bytes. The
/// sum is the number of new entries.
#[unsafe(no_mangle)]
pub extern "C" fn bench_deliver(alloc: Global, script: &[u8], mail: &[u8], rounds: u32) -> u64 {
    in_new_depot(alloc, Job::Deliver { script }, mail, rounds)
}

/// Lists a depot into which `mails` mails were delivered.
#[unsafe(no_mangle)]
pub extern "C" fn bench_list(alloc: Global, mails: u32, mail: &[u8], rounds: u32) -> u64 {
    in_new_depot(alloc, Job::List { mails }, mail, rounds)
}

/// In each round, delivers one more mail into a depot that has `mails`, and removes it. The sum is the number of
/// removals.
#[unsafe(no_mangle)]
pub extern "C" fn bench_remove(alloc: Global, mails: u32, mail: &[u8], rounds: u32) -> u64 {
    in_new_depot(alloc, Job::Remove { mails }, mail, rounds)
}

/// Exports a delivered mail in base64 with lines. The sum is the number of exports.
#[unsafe(no_mangle)]
pub extern "C" fn bench_export(alloc: Global, mail: &[u8], rounds: u32) -> u64 {
    in_new_depot(alloc, Job::Export, mail, rounds)
}

// The only place where a depot is dropped: this costs more proof than everything that is done with it.
fn in_new_depot(alloc: Global, job: Job<'_>, mail: &[u8], rounds: u32) -> u64 {
    let Ok(mut depot) = Depot::in_memory(alloc) else {
        return REFUSED;
    };
    done(alloc, &mut depot, job, mail, rounds).unwrap_or(REFUSED)
}

fn done(
    alloc: Global,
    depot: &mut Depot<MemStore>,
    job: Job<'_>,
    mail: &[u8],
    rounds: u32,
) -> Option<u64> {
    match job {
        Job::Deliver { script } => {
            depot.set_script(alloc, "ann", script).ok()?;
            deliver_all(alloc, depot, mail, rounds.max(1))
        }
        Job::List { mails } => {
            deliver_all(alloc, depot, mail, mails)?;
            list_often(depot, rounds)
        }
        Job::Remove { mails } => {
            deliver_all(alloc, depot, mail, mails)?;
            remove_often(alloc, depot, mails, mail, rounds)
        }
        Job::Export => {
            deliver_all(alloc, depot, mail, 1)?;
            export_often(alloc, depot, rounds)
        }
    }
}

fn deliver_all(alloc: Global, depot: &mut Depot<MemStore>, mail: &[u8], mails: u32) -> Option<u64> {
    let mut sum: u64 = 0;
    for number in 0..mails {
        let rows = deliver_one(alloc, depot, mail, number)?;
        sum = sum.wrapping_add(rows.len() as u64);
    }
    Some(sum)
}

// The new entries of a mail that has its own number.
fn deliver_one(
    alloc: Global,
    depot: &mut Depot<MemStore>,
    mail: &[u8],
    number: u32,
) -> Option<Vec<EntryRow>> {
    let mut own = Vec::from_slice(alloc, mail).ok()?;
    own.extend_from_slice(&number.to_be_bytes()).ok()?;
    depot.deliver(alloc, "ann", &own).ok()
}

fn list_often(depot: &mut Depot<MemStore>, rounds: u32) -> Option<u64> {
    let mut sum: u64 = 0;
    for _ in 0..rounds {
        for row in depot.list("ann").ok()? {
            sum = sum.wrapping_add(row.octets);
        }
    }
    Some(sum)
}

fn remove_often(
    alloc: Global,
    depot: &mut Depot<MemStore>,
    mails: u32,
    mail: &[u8],
    rounds: u32,
) -> Option<u64> {
    let mut sum: u64 = 0;
    for round in 0..rounds {
        for row in deliver_one(alloc, depot, mail, mails.wrapping_add(round))? {
            depot.remove("ann", row.number).ok()?;
            sum = sum.wrapping_add(1);
        }
    }
    Some(sum)
}

fn export_often(alloc: Global, depot: &mut Depot<MemStore>, rounds: u32) -> Option<u64> {
    let mut writer = OfWrite::new(io::sink());
    for _ in 0..rounds {
        depot
            .export(alloc, "ann", 1, Encoding::Base64Mime, &mut writer)
            .ok()?;
    }
    Some(u64::from(rounds))
}
