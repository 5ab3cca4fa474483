// What the tests of batches share: the files that are on a shelf, what came of a batch, and how many entries there are.
use crate::shelf::{Asked, Known, Shelf};
use depot_actions::{Depot, Refusal};
use depot_batch::batch;
use devices::{OfRead, OfWrite};
use sqlite::Alter;
use std::alloc::Global;
use std::io::{BufReader, Read, Write};
use std::test::Fail;
use store_rows::samples::MESSAGE;

/// A message.
pub const MAIL: Known<'static> = Known {
    name: "mail",
    octets: MESSAGE,
};

/// A message of no octets, which is also a script that keeps each message.
pub const EMPTY: Known<'static> = Known {
    name: "empty",
    octets: b"",
};

/// A script that files nothing.
pub const DISCARD: Known<'static> = Known {
    name: "discard",
    octets: b"discard;",
};

/// Three deliveries.
pub const THREE: &[u8] = b"deliver ann mail\ndeliver ann mail\ndeliver ann mail\n";

/// What they are answered.
pub const ANSWERS: &[u8] =
    b"1 message \"INBOX\"\n= 0\n2 message \"INBOX\"\n= 0\n3 message \"INBOX\"\n= 0\n";

/// What came of a batch.
#[derive(Drop)]
pub struct Seen<W> {
    pub status: u8,
    /// How many octets were read, and how many calls of the reader failed.
    pub given: u64,
    pub faults: u64,
    pub has_ended: bool,
    /// What was asked of the shelf.
    pub asked: Vec<Asked>,
    pub out: W,
    pub err: Vec<u8>,
}

impl<W> Seen<W> {
    /// Whether the batch ended with this status and told this.
    pub fn ends(&self, status: u8, told: &[u8]) -> bool {
        self.status == status && self.err.as_slice() == told
    }
}

/// Serves lines to a depot with two files, so many octets of them at a time, and answers them to a writer.
pub fn served<S: Alter, R: Read + Drop, W: Write + Drop>(
    alloc: Global,
    depot: &mut Result<Depot<S>, Refusal>,
    files: [Known<'static>; 2],
    ready: usize,
    lines: R,
    out: W,
) -> Result<Seen<W>, Fail> {
    let [first, second] = files;
    let mut host = Shelf::new(alloc, first, second, b"", 1_000);
    let mut input = OfRead::new(BufReader::with_capacity(alloc, ready, lines)?);
    let mut out = OfWrite::new(out);
    let mut err = OfWrite::new(Vec::new(alloc));
    let status = batch(alloc, "d", depot, &mut host, &mut input, &mut out, &mut err);
    Ok(Seen {
        status,
        given: input.given,
        faults: input.faults,
        has_ended: input.has_ended,
        asked: host.asked,
        out: out.inner,
        err: err.inner,
    })
}

/// How many entries ann has.
pub fn entries<S: Alter>(depot: &mut Result<Depot<S>, Refusal>) -> Result<usize, Refusal> {
    match depot {
        Ok(depot) => Ok(depot.list("ann")?.len()),
        Err(_) => Ok(0),
    }
}
