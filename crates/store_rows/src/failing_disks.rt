// A depot whose files stop at some call: what a command leaves is what was there, or what the command makes of it, and nothing between.
use crate::held::{Held, held_in};
use crate::samples::{KEEP, MESSAGE, SCRIPT};
use depot_actions::{Delivery, Depot, Refusal};
use part_store::PartStore;
use sqlite::{Alter, Connection, FileStore, Files, Options};
use sqlite_disk::{Crash, Disk, Fuse, Memory};
use std::alloc::Global;
use std::test::Fail;

type Fused = Fuse<Memory>;

// Keeps and files the message, and stores the attachment of the name a.txt.
const THREE: &[u8] =
    b"require [\"fileinto\", \"foreverypart\", \"mime\", \"vnd.depot\"]; keep; fileinto \"f\"; foreverypart { if header :mime :param \"filename\" \"Content-Disposition\" \"a.txt\" { store \"att\"; } }";

// Few pages in memory, since each run opens the files twice.
const OPTIONS: Options = Options {
    cache_pages: 32,
    spill_pages: 32,
    checkpoint_frames: 1_000,
    seed: 1,
};

// More calls than any command makes of a file.
const MOST: u64 = 1_000;

/// What is done while the files may stop.
#[derive(Clone, Copy)]
enum Command {
    /// The filters and the entry that the others work on are laid in an empty database.
    Lay,
    /// The tables are made in an empty database.
    Adopt,
    /// A script in place of another.
    SetScript,
    /// A program in place of a script.
    SetCode,
    /// A message with three actions.
    DeliverThree,
    /// A message with an attachment that another user has, too.
    DeliverPart,
    /// Three messages for two users at once.
    DeliverAll,
    /// An entry whose octets no other has.
    Remove,
    /// A program of version 1 among others gets version 2.
    Migrate,
}

/// A command, its name, and how many users, contents and entries it leaves.
#[derive(Clone, Copy)]
struct Row {
    command: Command,
    name: &'static str,
    leaves: [usize; 3],
}

const ROWS: [Row; 8] = [
    Row {
        command: Command::Adopt,
        name: "adopt",
        leaves: [0, 0, 0],
    },
    Row {
        command: Command::SetScript,
        name: "set_script",
        leaves: [4, 1, 1],
    },
    Row {
        command: Command::SetCode,
        name: "set_code",
        leaves: [4, 1, 1],
    },
    Row {
        command: Command::DeliverThree,
        name: "deliver, three actions",
        leaves: [4, 2, 4],
    },
    Row {
        command: Command::DeliverPart,
        name: "deliver, an attachment",
        leaves: [4, 1, 2],
    },
    // Beside bob's entry three entries for tom, one for ann and three for tom, of the message and its one part.
    Row {
        command: Command::DeliverAll,
        name: "deliver_all, three messages",
        leaves: [4, 2, 8],
    },
    Row {
        command: Command::Remove,
        name: "remove",
        leaves: [4, 0, 0],
    },
    Row {
        command: Command::Migrate,
        name: "migrate",
        leaves: [4, 1, 1],
    },
];

/// Which of the two files stops after so many calls.
#[derive(Clone, Copy)]
enum Stops {
    Log,
    Database,
    Both,
}

/// What files are opened for.
#[derive(Clone, Copy)]
enum Aim {
    /// To carry a command out.
    Carry(Command),
    /// To read what the depot holds, and to see that a delivery to a new user works.
    Look,
}

/// What a command came to.
#[derive(Clone, Copy)]
enum Came {
    Done,
    /// It was refused for want of memory or for a fault of the database.
    Failed,
    /// It was refused for what isn't so.
    Wrong,
}

/// What was done with files, and what was seen in them if they were opened to look and the delivery worked.
#[derive(Drop)]
struct Outcome {
    came: Came,
    held: Option<Held>,
}

/// What a depot was before a command, and what the command makes of it.
#[derive(Drop)]
struct States {
    octets: Vec<u8>,
    before: Held,
    after: Held,
}

/// How the runs of a command came out.
#[derive(Clone, Copy)]
struct Counts {
    before: u32,
    after: u32,
    neither: u32,
    has_ended: bool,
}

// A file with these octets, which stops after so many calls.
fn file_of(alloc: Global, octets: &[u8], calls: u64) -> Result<Fused, Fail> {
    let mut file = Memory::new(alloc);
    file.write_at(0, octets)?;
    file.sync()?;
    Ok(Fuse::new(file, calls))
}

// The files of a database of these octets.
fn files_of(alloc: Global, octets: &[u8], stops: Stops, calls: u64) -> Result<Files<Fused>, Fail> {
    let (log, db) = match stops {
        Stops::Log => (calls, u64::MAX),
        Stops::Database => (u64::MAX, calls),
        Stops::Both => (calls, calls),
    };
    Ok(Files {
        log: file_of(alloc, b"", log)?,
        db: file_of(alloc, octets, db)?,
    })
}

// Opens files, or gives them back.
fn connected(
    alloc: Global,
    files: Files<Fused>,
) -> Result<Connection<FileStore<Fused>>, Files<Fused>> {
    if !files.log.may_be_used() || !files.db.may_be_used() {
        return Err(files);
    }
    match Connection::open_files(alloc, files, OPTIONS) {
        Ok(conn) => Ok(conn),
        Err((_, left)) => Err(left.into_files()),
    }
}

// Closes a connection, and gives its files.
fn closed(conn: Connection<FileStore<Fused>>) -> Files<Fused> {
    match conn.close_files() {
        Ok(files) => files,
        Err((_, store)) => store.close(),
    }
}

// The depot of a connection, which is given back where it is refused.
fn adopted<S: Alter>(conn: Connection<S>) -> Result<Depot<S>, Connection<S>> {
    match PartStore::adopt(conn) {
        Ok(store) => Ok(Depot::adopt(store)),
        Err((_, conn)) => Err(conn),
    }
}

// Lays the filters and the entry that commands work on.
fn lay<S: Alter>(alloc: Global, depot: &mut Depot<S>) -> Result<(), Refusal> {
    depot.set_script(alloc, "ann", SCRIPT)?;
    depot.set_script(alloc, "bob", SCRIPT)?;
    depot.set_code(alloc, "cat", KEEP)?;
    depot.set_script(alloc, "tom", THREE)?;
    deliver(alloc, depot, "bob")
}

// Delivers the message to a user.
fn deliver<S: Alter>(alloc: Global, depot: &mut Depot<S>, user: &str) -> Result<(), Refusal> {
    depot.deliver(alloc, user, MESSAGE)?;
    Ok(())
}

// Delivers three messages for two users at once.
fn together<S: Alter>(alloc: Global, depot: &mut Depot<S>) -> Result<(), Refusal> {
    let deliveries = [
        Delivery {
            user: "tom",
            message: MESSAGE,
        },
        Delivery {
            user: "ann",
            message: MESSAGE,
        },
        Delivery {
            user: "tom",
            message: MESSAGE,
        },
    ];
    match depot.deliver_all(alloc, &deliveries) {
        Ok(_) => Ok(()),
        Err(refused) => Err(refused.refusal),
    }
}

// Gives programs of version 1 version 2.
fn migrate<S: Alter>(alloc: Global, depot: &mut Depot<S>) -> Result<(), Refusal> {
    depot.migrate(alloc)?;
    Ok(())
}

// Carries a command out on a depot.
fn carry<S: Alter>(alloc: Global, depot: &mut Depot<S>, command: Command) -> Result<(), Refusal> {
    match command {
        Command::Lay => lay(alloc, depot),
        Command::Adopt => Ok(()),
        Command::SetScript => depot.set_script(alloc, "ann", THREE),
        Command::SetCode => depot.set_code(alloc, "ann", KEEP),
        Command::DeliverThree => deliver(alloc, depot, "tom"),
        Command::DeliverPart => deliver(alloc, depot, "ann"),
        Command::DeliverAll => together(alloc, depot),
        Command::Remove => depot.remove("bob", 1),
        Command::Migrate => migrate(alloc, depot),
    }
}

// What an answer is.
fn came_of(answer: Result<(), Refusal>) -> Came {
    match answer {
        Ok(()) => Came::Done,
        Err(Refusal::Memory | Refusal::Database) => Came::Failed,
        Err(_) => Came::Wrong,
    }
}

// Adopts a connection, carries a command out, and releases the connection.
fn carried<S: Alter>(
    alloc: Global,
    conn: Connection<S>,
    command: Command,
) -> (Came, Connection<S>) {
    match adopted(conn) {
        Ok(opened) => {
            let mut depot = opened;
            let came = came_of(carry(alloc, &mut depot, command));
            (came, depot.release().release())
        }
        Err(conn) => (Came::Failed, conn),
    }
}

// What the depot of a connection holds, if it can be adopted and read.
fn seen<S: Alter>(alloc: Global, conn: Connection<S>) -> (Option<Held>, Connection<S>) {
    match adopted(conn) {
        Ok(depot) => {
            let mut conn = depot.release().release();
            (held_in(alloc, &mut conn).ok(), conn)
        }
        Err(conn) => (None, conn),
    }
}

// Whether a delivery to a new user works.
fn goes_on<S: Alter>(alloc: Global, conn: Connection<S>) -> (bool, Connection<S>) {
    match adopted(conn) {
        Ok(opened) => {
            let mut depot = opened;
            let rows = depot.deliver(alloc, "zoe", b"");
            let works = matches!(&rows, Ok(rows) if rows.len() == 1);
            (works, depot.release().release())
        }
        Err(conn) => (false, conn),
    }
}

// What the depot of a connection holds, if it can be read and the next command works.
fn found<S: Alter>(alloc: Global, conn: Connection<S>) -> (Option<Held>, Connection<S>) {
    let (held, conn) = seen(alloc, conn);
    let (works, conn) = goes_on(alloc, conn);
    (if works { held } else { None }, conn)
}

// Does what a connection was opened for.
fn done<S: Alter>(alloc: Global, conn: Connection<S>, aim: Aim) -> (Outcome, Connection<S>) {
    match aim {
        Aim::Carry(command) => {
            let (came, conn) = carried(alloc, conn, command);
            (Outcome { came, held: None }, conn)
        }
        Aim::Look => {
            let (held, conn) = found(alloc, conn);
            let came = if held.is_some() {
                Came::Done
            } else {
                Came::Failed
            };
            (Outcome { came, held }, conn)
        }
    }
}

// The same from files to files. Only this function has a database over files: what is proved once more for each call over
// them is dear, so all else is for any store.
fn run(alloc: Global, files: Files<Fused>, aim: Aim) -> (Outcome, Files<Fused>) {
    match connected(alloc, files) {
        Ok(conn) => {
            let (outcome, conn) = done(alloc, conn, aim);
            (outcome, closed(conn))
        }
        Err(files) => (
            Outcome {
                came: Came::Failed,
                held: None,
            },
            files,
        ),
    }
}

// What files hold, if they can be opened and the next command works.
fn look(alloc: Global, files: Files<Fused>) -> Option<Held> {
    let (outcome, _files) = run(alloc, files, Aim::Look);
    outcome.held
}

// Whether a file answers no call any more.
fn has_stopped(file: &mut Fused) -> bool {
    !file.may_be_used() || file.len().is_err()
}

// Starts the machine again, and says whether one of its files had stopped.
fn restarted(files: Files<Fused>) -> (bool, Files<Fused>) {
    let Files { mut log, mut db } = files;
    let log_stopped = has_stopped(&mut log);
    let db_stopped = has_stopped(&mut db);
    log.crash();
    db.crash();
    (log_stopped || db_stopped, Files { log, db })
}

// The octets of a closed database that commands work on.
fn laid(alloc: Global) -> Result<Vec<u8>, Fail> {
    let files = files_of(alloc, b"", Stops::Both, u64::MAX)?;
    let (outcome, files) = run(alloc, files, Aim::Carry(Command::Lay));
    if !matches!(outcome.came, Came::Done) {
        return Err(Fail::new("the filters and the entry can't be laid"));
    }
    Ok(Vec::from_slice(alloc, files.db.inner().bytes())?)
}

// The octets of the database that a command works on.
fn octets_before(alloc: Global, command: Command) -> Result<Vec<u8>, Fail> {
    if matches!(command, Command::Adopt) {
        return Ok(Vec::new(alloc));
    }
    laid(alloc)
}

// What the depot of files holds, or an error for the test.
fn held_of(alloc: Global, files: Files<Fused>) -> Result<Held, Fail> {
    match look(alloc, files) {
        Some(held) => Ok(held),
        None => Err(Fail::new("nothing is found before or after the command")),
    }
}

// What a database of these octets holds.
fn held_before(alloc: Global, octets: &[u8]) -> Result<Held, Fail> {
    let files = files_of(alloc, octets, Stops::Both, u64::MAX)?;
    held_of(alloc, files)
}

// What it holds after a command that nothing stops.
fn held_after(alloc: Global, octets: &[u8], command: Command) -> Result<Held, Fail> {
    let files = files_of(alloc, octets, Stops::Both, u64::MAX)?;
    let (_, files) = run(alloc, files, Aim::Carry(command));
    held_of(alloc, files)
}

// What the depot is before and after a command that nothing stops.
fn states_around(alloc: Global, command: Command) -> Result<States, Fail> {
    let octets = octets_before(alloc, command)?;
    let before = held_before(alloc, &octets)?;
    let after = held_after(alloc, &octets, command)?;
    Ok(States {
        octets,
        before,
        after,
    })
}

// Counts a run: what was done is there, what failed is there whole or not at all.
fn count(counts: &mut Counts, states: &States, came: Came, held: Option<Held>) {
    let Some(held) = held else {
        counts.neither = counts.neither.saturating_add(1);
        return;
    };
    if held == states.after && !matches!(came, Came::Wrong) {
        counts.after = counts.after.saturating_add(1);
    } else if held == states.before && matches!(came, Came::Failed) {
        counts.before = counts.before.saturating_add(1);
    } else {
        counts.neither = counts.neither.saturating_add(1);
    }
}

// Stops a command at a call, counts what it left, and says whether a file had stopped and the command was done.
fn stopped_at(
    alloc: Global,
    states: &States,
    command: Command,
    files: Files<Fused>,
    counts: &mut Counts,
) -> (bool, bool) {
    let (outcome, files) = run(alloc, files, Aim::Carry(command));
    let (has_stopped, files) = restarted(files);
    count(counts, states, outcome.came, look(alloc, files));
    (has_stopped, matches!(outcome.came, Came::Done))
}

// Stops a command at each call in turn, until it isn't stopped.
fn swept(alloc: Global, states: &States, command: Command, stops: Stops) -> Result<Counts, Fail> {
    let mut counts = Counts {
        before: 0,
        after: 0,
        neither: 0,
        has_ended: false,
    };
    for calls in 0..MOST {
        let files = files_of(alloc, &states.octets, stops, calls)?;
        let (has_stopped, is_done) = stopped_at(alloc, states, command, files, &mut counts);
        if !has_stopped {
            counts.has_ended = is_done;
            break;
        }
    }
    Ok(counts)
}

/// What a command that nothing stops leaves, whether that is what was there, and how its runs came out by what stops.
#[derive(Clone, Copy)]
struct Sweep {
    leaves: [usize; 3],
    is_unchanged: bool,
    counts: [Counts; 3],
}

// How the runs of a command came out that the log, the database or both stop.
fn counts_of(alloc: Global, states: &States, command: Command) -> Result<[Counts; 3], Fail> {
    let log = swept(alloc, states, command, Stops::Log)?;
    let database = swept(alloc, states, command, Stops::Database)?;
    let both = swept(alloc, states, command, Stops::Both)?;
    Ok([log, database, both])
}

// All that is seen of a command.
fn swept_whole(alloc: Global, command: Command) -> Result<Sweep, Fail> {
    let states = states_around(alloc, command)?;
    let counts = counts_of(alloc, &states, command)?;
    Ok(Sweep {
        leaves: states.after.rows,
        is_unchanged: states.before == states.after,
        counts,
    })
}

#[test]
fn a_command_is_done_or_not(rt: HostRuntime) -> Result<(), Fail> {
    for row in &ROWS {
        let is_first = matches!(row.command, Command::Adopt);
        let swept = swept_whole(rt.alloc(), row.command)?;
        assert_eq!(rt; swept.leaves, row.leaves, "{}", row.name);
        assert_eq!(rt; swept.is_unchanged, is_first, "{}", row.name);
        for counts in swept.counts {
            assert_eq!(rt; counts.neither, 0, "{}", row.name);
            assert!(rt; counts.has_ended, "{}", row.name);
            assert!(rt; counts.after > 0, "{}", row.name);
            assert!(rt; counts.before > 0 || is_first, "{}", row.name);
        }
    }
    Ok(())
}
