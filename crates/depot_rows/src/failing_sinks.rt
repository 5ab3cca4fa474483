// Replies that can't be written: what was done stands, and what was written is the text's beginning.
use crate::calls::Calls;
use depot_actions::{Depot, Refusal};
use depot_cli::perform;
use depot_jobs::{Access, Deposit, Task};
use devices::{OfWrite, Sink};
use encodings::{Encoding, encode};
use sqlite::{Alter, MemStore};
use std::alloc::{AllocError, Global};
use std::io;
use std::io::Write;
use std::test::Fail;
use store_rows::held::{Held, held_in};
use store_rows::samples::{KEEP, MESSAGE, SCRIPT};

static ENCODINGS: [Encoding; 7] = [
    Encoding::Raw,
    Encoding::Base64,
    Encoding::Base64Mime,
    Encoding::Base32,
    Encoding::Base32Hex,
    Encoding::Base16,
    Encoding::Qp,
];

/// Which task a row has.
#[derive(Clone, Copy)]
enum Kind {
    Script,
    Code,
    Deliver,
    List,
    Remove,
}

/// A task, the line that it prints, and how many users, contents and entries it leaves.
#[derive(Clone, Copy)]
struct Row {
    kind: Kind,
    line: &'static str,
    leaves: [usize; 3],
}

static ROWS: [Row; 5] = [
    Row {
        kind: Kind::Script,
        line: "stored\n",
        leaves: [2, 1, 1],
    },
    Row {
        kind: Kind::Code,
        line: "stored\n",
        leaves: [2, 1, 1],
    },
    Row {
        kind: Kind::Deliver,
        line: "2 part \"att\"\n",
        leaves: [1, 1, 2],
    },
    Row {
        kind: Kind::List,
        line: "1 part \"att\" \"a.txt\" text/plain 6\n",
        leaves: [1, 1, 1],
    },
    Row {
        kind: Kind::Remove,
        line: "removed 1\n",
        leaves: [1, 0, 0],
    },
];

/// Takes an octet at a time until it is full, and nothing from then on.
#[derive(Drop)]
struct Full {
    octets: Vec<u8>,
    room: usize,
}

impl Write for Full {
    fn write(&mut self, octets: &[u8]) -> io::Result<usize> {
        let n = octets.len().min(1).min(self.room);
        self.octets.extend_from_slice(&octets[..n])?;
        self.room -= n;
        Ok(n)
    }

    fn flush(&mut self) -> io::Result<()> {
        Ok(())
    }
}

// Makes an entry that ann's filter stores.
fn lay<S: Alter>(alloc: Global, depot: &mut Depot<S>) -> Result<(), Refusal> {
    depot.set_script(alloc, "ann", SCRIPT)?;
    depot.deliver(alloc, "ann", MESSAGE)?;
    Ok(())
}

// A depot where ann has an entry that her filter has stored.
fn laid(alloc: Global) -> Result<Depot<MemStore>, Refusal> {
    let mut depot = Depot::in_memory(alloc)?;
    lay(alloc, &mut depot)?;
    Ok(depot)
}

// The task of a row.
fn task_of(alloc: Global, kind: Kind) -> Result<Task<'static>, AllocError> {
    match kind {
        Kind::Script => Ok(Task::FromFile(Deposit::Script, "bob", SCRIPT.to_vec(alloc)?)),
        Kind::Code => Ok(Task::FromFile(Deposit::Code, "bob", KEEP.to_vec(alloc)?)),
        Kind::Deliver => Ok(Task::FromFile(Deposit::Message, "ann", MESSAGE.to_vec(alloc)?)),
        Kind::List => Ok(Task::OnUser(Access::List, "ann")),
        Kind::Remove => Ok(Task::OnUser(Access::Remove { number: 1 }, "ann")),
    }
}

// Performs a task on a depot, and gives the status and what the depot holds then.
fn performed_on<S: Alter + Drop, O: Sink, E: Sink>(
    alloc: Global,
    laid: Depot<S>,
    task: &Task<'_>,
    out: &mut O,
    err: &mut E,
) -> Result<(u8, Held), Fail> {
    let mut depot = laid;
    let status = perform(alloc, task, &mut depot, out, err);
    let mut conn = depot.release().release();
    Ok((status, held_in(alloc, &mut conn)?))
}

// Performs a task on a new depot.
fn performed<O: Sink, E: Sink>(
    alloc: Global,
    task: &Task<'_>,
    out: &mut O,
    err: &mut E,
) -> Result<(u8, Held), Fail> {
    performed_on(alloc, laid(alloc)?, task, out, err)
}

// Exports ann's entry as lines of base64 to a writer, and gives the status, the writer and what was told of it.
fn exported<W: Write + Drop>(alloc: Global, writer: W) -> Result<(u8, W, Vec<u8>), Fail> {
    let mut out = OfWrite::new(writer);
    let mut err = OfWrite::new(Vec::new(alloc));
    let task = Task::Export {
        user: "ann",
        number: 1,
        encoding: Encoding::Base64Mime,
    };
    let (status, _) = performed(alloc, &task, &mut out, &mut err)?;
    Ok((status, out.inner, err.inner))
}

// Whether a task prints its line and no other, and what the depot holds then.
fn whole(alloc: Global, row: &Row) -> Result<(bool, Held), Fail> {
    let mut out = OfWrite::new(Vec::new(alloc));
    let mut err = OfWrite::new(Vec::new(alloc));
    let task = task_of(alloc, row.kind)?;
    let (status, held) = performed(alloc, &task, &mut out, &mut err)?;
    let is_printed = out.inner.as_slice() == row.line.as_bytes() && err.inner.is_empty();
    Ok((status == 0 && is_printed, held))
}

// Whether a task whose reply can't be written says so.
fn is_told(rt: &HostRuntime, row: &Row, whole: &Held) -> Result<bool, Fail> {
    let mut out = OfWrite::new(Calls::new(rt, 1, 0));
    let mut err = OfWrite::new(Vec::new(rt.alloc()));
    let task = task_of(rt.alloc(), row.kind)?;
    let (status, held) = performed(rt.alloc(), &task, &mut out, &mut err)?;
    let is_told = err.inner.as_slice() == b"refused 45 Write\n".as_slice();
    Ok(status == 1 && is_told && held == *whole)
}

// The same where nothing can be written.
fn is_mute(rt: &HostRuntime, row: &Row, whole: &Held) -> Result<bool, Fail> {
    let mut out = OfWrite::new(Calls::new(rt, 1, 0));
    let mut err = OfWrite::new(Calls::new(rt, 1, 0));
    let task = task_of(rt.alloc(), row.kind)?;
    let (status, held) = performed(rt.alloc(), &task, &mut out, &mut err)?;
    Ok(status == 1 && held == *whole)
}

/// Whether a task prints its line, what it leaves, and whether it leaves the same if its reply can't be written, and if
/// nothing can.
#[derive(Clone, Copy)]
struct Came {
    is_printed: bool,
    leaves: [usize; 3],
    is_told: bool,
    is_mute: bool,
}

// What comes of a row's task.
fn came_of(rt: &HostRuntime, row: &Row) -> Result<Came, Fail> {
    let (is_printed, held) = whole(rt.alloc(), row)?;
    Ok(Came {
        is_printed,
        leaves: held.rows,
        is_told: is_told(rt, row, &held)?,
        is_mute: is_mute(rt, row, &held)?,
    })
}

#[test]
fn what_was_done_stands(rt: HostRuntime) -> Result<(), Fail> {
    for row in &ROWS {
        let line = row.line;
        let came = came_of(&rt, row)?;
        assert!(rt; came.is_printed, "{line}");
        assert_eq!(rt; came.leaves, row.leaves, "{line}");
        assert!(rt; came.is_told, "{line}");
        assert!(rt; came.is_mute, "{line}");
    }
    Ok(())
}

// Whether an export that broke off says so, and has written so many octets of its text.
fn is_broken_off(status: u8, octets: &[u8], told: &[u8], written: usize) -> bool {
    let text = b"Zm9vYmFy\r\n".as_slice();
    status == 1
        && octets == &text[..written.min(text.len())]
        && told == b"refused 45 Write\n".as_slice()
}

// Whether an export breaks off after so many calls of an octet each.
fn breaks_off_after(rt: &HostRuntime, calls: usize) -> Result<bool, Fail> {
    let (status, writer, told) = exported(rt.alloc(), Calls::new(rt, 1, calls))?;
    Ok(is_broken_off(status, &writer.octets, &told, calls))
}

#[test]
fn exports_that_break_off(rt: HostRuntime) -> Result<(), Fail> {
    for calls in 0..10usize {
        assert!(rt; breaks_off_after(&rt, calls)?, "{calls}");
    }
    Ok(())
}

// Whether an export to a writer with room for so many octets breaks off when it is full.
fn breaks_off_when_full(alloc: Global, room: usize) -> Result<bool, Fail> {
    let octets = Vec::new(alloc);
    let (status, writer, told) = exported(alloc, Full { octets, room })?;
    Ok(is_broken_off(status, &writer.octets, &told, room))
}

#[test]
fn exports_to_a_writer_that_is_full(rt: HostRuntime) -> Result<(), Fail> {
    for room in 0..10usize {
        assert!(rt; breaks_off_when_full(rt.alloc(), room)?, "{room}");
    }
    Ok(())
}

// Octets that look like chance.
fn mixed(alloc: Global, length: usize) -> Result<Vec<u8>, AllocError> {
    let mut octets = Vec::new(alloc);
    for place in 0..length {
        octets.push((place.wrapping_mul(7) % 251) as u8)?;
    }
    Ok(octets)
}

// Whether an export breaks off after so many calls of an octet each, with the beginning of the text written.
fn breaks_off<S: Alter>(
    rt: &HostRuntime,
    depot: &mut Depot<S>,
    encoding: Encoding,
    text: &[u8],
    calls: usize,
) -> bool {
    let mut out = OfWrite::new(Calls::new(rt, 1, calls));
    let exported = depot.export(rt.alloc(), "ann", 1, encoding, &mut out);
    let written = out.inner.octets.as_slice();
    matches!(exported, Err(Refusal::Write)) && written.len() == calls && text.starts_with(written)
}

// The first of every 97th number of calls after which an export of a text doesn't.
fn first_not_broken_off<S: Alter>(
    rt: &HostRuntime,
    depot: &mut Depot<S>,
    encoding: Encoding,
    text: &[u8],
) -> Option<usize> {
    for calls in (0..text.len()).step_by(97) {
        if !breaks_off(rt, depot, encoding, text, calls) {
            return Some(calls);
        }
    }
    None
}

// How long the text of a message is, and that number.
fn broken_off<S: Alter>(
    rt: &HostRuntime,
    depot: &mut Depot<S>,
    encoding: Encoding,
    message: &[u8],
) -> Result<(usize, Option<usize>), Fail> {
    let text = encode(rt.alloc(), encoding, message)?;
    Ok((text.len(), first_not_broken_off(rt, depot, encoding, &text)))
}

#[test]
fn every_97th_call_fails(rt: HostRuntime) -> Result<(), Fail> {
    let alloc = rt.alloc();
    let message = mixed(alloc, 10_000)?;
    let mut depot = Depot::in_memory(alloc)?;
    depot.deliver(alloc, "ann", &message)?;
    for encoding in &ENCODINGS {
        let (length, first) = broken_off(&rt, &mut depot, *encoding, &message)?;
        assert!(rt; length >= 10_000);
        assert_eq!(rt; first, None);
    }
    Ok(())
}
