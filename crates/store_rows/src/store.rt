// The store, in memory: steps of users, and what comes of each; users that are put in; and a connection that can't be taken.
use part_store::{EntryRow, Kind, NewEntry, PartStore, StoreError};
use sqlite::Alter;
use std::alloc::Global;
use std::test::Fail;

/// What a user does or asks for, and what comes of it.
#[derive(Clone, Copy)]
enum Step {
    /// To set the program.
    SetProgram(&'static [u8]),
    /// To set the programs of some users at once.
    Replace(&'static [&'static str], &'static [u8]),
    /// The program.
    HasProgram(Option<&'static [u8]>),
    /// How many users have a program.
    Programs(usize),
    /// To add an entry with these octets, and its number.
    Put(&'static [u8], Result<u32, StoreError>),
    /// To add entries, and the number of the first.
    Add(&'static [NewEntry<'static>], Result<u32, StoreError>),
    /// To remove the entry of a number.
    Remove(u32, Result<(), StoreError>),
    /// The octets of the entry of a number.
    Holds(u32, Result<&'static [u8], StoreError>),
    /// The listing.
    Lists(&'static [Row]),
}

use Step::{Add, HasProgram, Holds, Lists, Programs, Put, Remove, Replace, SetProgram};

/// An entry as it is listed: its number, its folder, its name, and how many octets it has.
type Row = (u32, &'static [u8], &'static [u8], u64);

const NONE: StoreError = StoreError::NoSuchEntry;

const PROGRAMS: [(&str, Step); 6] = [
    ("ann", HasProgram(None)),
    ("ann", SetProgram(b"one")),
    ("bob", SetProgram(b"")),
    ("ann", SetProgram(b"two")),
    ("ann", HasProgram(Some(b"two"))),
    ("bob", HasProgram(Some(b""))),
];

// A store takes any octets for a program.
const REPLACED: [(&str, Step); 8] = [
    ("ann", SetProgram(b"program")),
    ("bob", SetProgram(b"other program")),
    ("", Replace(&[], b"other program")),
    ("ann", HasProgram(Some(b"program"))),
    ("", Replace(&["stranger", "ann"], b"other program")),
    ("ann", HasProgram(Some(b"other program"))),
    ("stranger", HasProgram(None)),
    ("", Programs(2)),
];

const GIVEN_ONCE: [(&str, Step); 7] = [
    ("ann", Put(b"foobar", Ok(1))),
    ("ann", Put(b"", Ok(2))),
    ("ann", Remove(2, Ok(()))),
    ("ann", Put(b"x\0'\xff", Ok(3))),
    ("ann", Holds(1, Ok(b"foobar"))),
    ("ann", Holds(3, Ok(b"x\0'\xff"))),
    ("ann", Holds(2, Err(NONE))),
];

const OF_HIS_OWN: [(&str, Step); 7] = [
    ("ann", Put(b"foobar", Ok(1))),
    ("bob", Put(b"foobar", Ok(1))),
    ("ann", Remove(1, Ok(()))),
    ("bob", Holds(1, Ok(b"foobar"))),
    ("bob", Remove(1, Ok(()))),
    ("bob", Remove(1, Err(NONE))),
    ("bob", Put(b"foobar", Ok(2))),
];

const LEAVE_THE_PROGRAM: [(&str, Step); 5] = [
    ("ann", Put(b"foobar", Ok(1))),
    ("ann", SetProgram(b"two")),
    ("ann", Put(b"", Ok(2))),
    ("ann", Remove(1, Ok(()))),
    ("ann", HasProgram(Some(b"two"))),
];

// An entry of no octets, in a folder of no name.
const PART: NewEntry<'static> = NewEntry {
    folder: b"",
    kind: Kind::Part,
    name: b"",
    media: b"text/plain",
    octets: b"",
};

const SHARED: [NewEntry<'static>; 3] = [
    NewEntry {
        octets: b"same",
        ..PART
    },
    NewEntry {
        folder: b"\0'\"\xff",
        name: b"a",
        octets: b"same",
        ..PART
    },
    NewEntry {
        folder: b"INBOX",
        name: b"b",
        octets: b"other",
        ..PART
    },
];

const SHARE_OCTETS: [(&str, Step); 9] = [
    ("ann", Add(&SHARED, Ok(1))),
    ("bob", Add(&SHARED, Ok(1))),
    ("ann", Remove(1, Ok(()))),
    ("bob", Remove(2, Ok(()))),
    ("ann", Remove(2, Ok(()))),
    ("bob", Holds(1, Ok(b"same"))),
    ("ann", Holds(3, Ok(b"other"))),
    ("bob", Holds(3, Ok(b"other"))),
    ("ann", Holds(1, Err(NONE))),
];

const DAN: &str = "INSERT INTO users (user, last, program) VALUES ('dan', 4294967293, x'00')";

const THREE: [NewEntry<'static>; 3] = [
    NewEntry {
        octets: b"1",
        ..PART
    },
    NewEntry {
        octets: b"2",
        ..PART
    },
    NewEntry {
        octets: b"3",
        ..PART
    },
];

const LAST_NUMBER: [(&str, Step); 7] = [
    ("dan", Add(&THREE, Err(StoreError::NumberFull))),
    ("dan", Put(b"1", Ok(4_294_967_294))),
    ("dan", Put(b"2", Ok(4_294_967_295))),
    ("dan", Put(b"3", Err(StoreError::NumberFull))),
    ("ann", Put(b"3", Ok(1))),
    ("dan", Holds(4_294_967_295, Ok(b"2"))),
    ("dan", HasProgram(Some(b"\0"))),
];

// `foobaz` under the SHA-256 of `foobar`, which an entry of bob names.
const CONTENT: &str =
    "INSERT INTO contents (digest, octets) VALUES (x'c3ab8ff13720e8ad9047dd39466b3c8974e592c2fa383d4a3960714caef0c4f2', x'666f6f62617a')";

const BOB: &str = "INSERT INTO users (user, last, program) VALUES ('bob', 1, NULL)";

const ENTRY: &str =
    "INSERT INTO entries (user, number, folder, kind, name, media, digest) VALUES ('bob', 1, x'', 0, x'', x'', x'c3ab8ff13720e8ad9047dd39466b3c8974e592c2fa383d4a3960714caef0c4f2')";

const TWO: [NewEntry<'static>; 2] = [
    NewEntry {
        octets: b"first",
        ..PART
    },
    NewEntry {
        octets: b"foobar",
        ..PART
    },
];

const OTHER_OCTETS: [(&str, Step); 7] = [
    ("bob", Holds(1, Err(StoreError::Database))),
    ("ann", Add(&TWO, Err(StoreError::Collision))),
    ("ann", Holds(1, Err(NONE))),
    ("ann", Put(b"first", Ok(1))),
    ("bob", Remove(1, Ok(()))),
    ("ann", Put(b"foobar", Ok(2))),
    ("ann", Holds(2, Ok(b"foobar"))),
];

const TO_LIST: [NewEntry<'static>; 3] = [
    NewEntry {
        folder: b"z",
        name: b"first",
        octets: b"same",
        ..PART
    },
    NewEntry {
        folder: b"\0'\"\xff",
        ..PART
    },
    NewEntry {
        folder: b"a",
        name: b"third",
        octets: b"same",
        ..PART
    },
];

const LISTINGS: [(&str, Step); 6] = [
    ("ann", Add(&TO_LIST, Ok(1))),
    ("bob", Add(&TO_LIST, Ok(1))),
    ("ann", Remove(2, Ok(()))),
    (
        "ann",
        Lists(&[(1, b"z", b"first", 4), (3, b"a", b"third", 4)]),
    ),
    (
        "bob",
        Lists(&[
            (1, b"z", b"first", 4),
            (2, b"\0'\"\xff", b"", 0),
            (3, b"a", b"third", 4),
        ]),
    ),
    ("cat", Lists(&[])),
];

fn entry<'a>(folder: &'a [u8], name: &'a [u8], octets: &'a [u8]) -> NewEntry<'a> {
    NewEntry {
        folder,
        kind: Kind::Part,
        name,
        media: b"text/plain",
        octets,
    }
}

// Adds an entry, and answers its number.
fn put<S: Alter>(store: &mut PartStore<S>, user: &str, octets: &[u8]) -> Result<u32, StoreError> {
    let entries = [entry(b"INBOX", b"a", octets)];
    store.add_entries(user, &entries)
}

// The same for entries of which there is one at least.
fn add<S: Alter>(
    store: &mut PartStore<S>,
    user: &str,
    entries: &[NewEntry<'_>],
) -> Result<u32, StoreError> {
    if entries.is_empty() {
        return Err(StoreError::NoSuchEntry);
    }
    store.add_entries(user, entries)
}

// Sets a program for each of these users who has one.
fn replace<S: Alter>(
    alloc: Global,
    store: &mut PartStore<S>,
    users: &[&str],
    program: &[u8],
) -> Result<(), StoreError> {
    let mut listed = Vec::new(alloc);
    for user in users {
        listed.push((String::from_str(alloc, user)?, program.to_vec(alloc)?))?;
    }
    store.replace_programs(&listed)
}

// Whether a user has this program.
fn has_program<S: Alter>(store: &mut PartStore<S>, user: &str, program: Option<&[u8]>) -> bool {
    match (store.program_of(user), program) {
        (Ok(Some(found)), Some(program)) => found.as_slice() == program,
        (Ok(None), None) => true,
        _ => false,
    }
}

// Whether so many users have a program.
fn has_programs<S: Alter>(store: &mut PartStore<S>, count: usize) -> bool {
    matches!(store.programs(), Ok(programs) if programs.len() == count)
}

// Whether an entry has these octets, or is refused so.
fn holds<S: Alter>(
    store: &mut PartStore<S>,
    user: &str,
    number: u32,
    wanted: Result<&[u8], StoreError>,
) -> bool {
    match (store.bytes_of(user, number), wanted) {
        (Ok(found), Ok(octets)) => found.as_slice() == octets,
        (Err(error), Err(wanted)) => error == wanted,
        _ => false,
    }
}

// Whether a listing shows a row of a part.
fn shows(row: &EntryRow, wanted: &(u32, &[u8], &[u8], u64)) -> bool {
    let (number, folder, name, octets) = *wanted;
    row.number == number
        && row.folder.as_slice() == folder
        && row.name.as_slice() == name
        && row.octets == octets
        && matches!(row.kind, Kind::Part)
        && row.media.as_slice() == b"text/plain".as_slice()
}

// Whether a listing shows these rows, and no others.
fn lists<S: Alter>(store: &mut PartStore<S>, user: &str, wanted: &[Row]) -> bool {
    match store.entries_of(user) {
        Ok(rows) => {
            rows.len() == wanted.len()
                && rows
                    .iter()
                    .zip(wanted)
                    .all(|(row, wanted)| shows(row, wanted))
        }
        Err(_) => false,
    }
}

// Whether a step comes to what it says.
fn comes<S: Alter>(alloc: Global, store: &mut PartStore<S>, user: &str, step: Step) -> bool {
    match step {
        SetProgram(program) => store.set_program(user, program).is_ok(),
        Replace(users, program) => replace(alloc, store, users, program).is_ok(),
        HasProgram(program) => has_program(store, user, program),
        Programs(count) => has_programs(store, count),
        Put(octets, number) => put(store, user, octets) == number,
        Add(entries, number) => add(store, user, entries) == number,
        Remove(number, answer) => store.remove_entry(user, number) == answer,
        Holds(number, octets) => holds(store, user, number, octets),
        Lists(rows) => lists(store, user, rows),
    }
}

// The place of the first step that comes to something else.
fn first_wrong<S: Alter>(
    alloc: Global,
    store: &mut PartStore<S>,
    steps: &[(&str, Step)],
) -> Option<usize> {
    for (place, (user, step)) in steps.iter().enumerate() {
        if !comes(alloc, store, user, *step) {
            return Some(place);
        }
    }
    None
}

// Runs a statement on a store.
fn laid<S: Alter + Drop>(store: PartStore<S>, sql: &str) -> Result<PartStore<S>, StoreError> {
    let mut conn = store.release();
    conn.execute(sql, &[])?;
    match PartStore::adopt(conn) {
        Ok(store) => Ok(store),
        Err((error, _)) => Err(error),
    }
}

// Takes steps after some statements on an empty store, and gives the place of the first that comes to something else.
fn taken(
    alloc: Global,
    statements: &[&str],
    steps: &[(&str, Step)],
) -> Result<Option<usize>, StoreError> {
    let mut store = PartStore::in_memory(alloc)?;
    for sql in statements {
        store = laid(store, sql)?;
    }
    Ok(first_wrong(alloc, &mut store, steps))
}

#[test]
fn programs(rt: HostRuntime) -> Result<(), Fail> {
    assert_eq!(rt; taken(rt.alloc(), &[], &PROGRAMS)?, None);
    Ok(())
}

#[test]
fn users_that_are_replaced(rt: HostRuntime) -> Result<(), Fail> {
    assert_eq!(rt; taken(rt.alloc(), &[], &REPLACED)?, None);
    Ok(())
}

#[test]
fn numbers_are_given_once(rt: HostRuntime) -> Result<(), Fail> {
    assert_eq!(rt; taken(rt.alloc(), &[], &GIVEN_ONCE)?, None);
    Ok(())
}

#[test]
fn each_user_has_numbers_of_his_own(rt: HostRuntime) -> Result<(), Fail> {
    assert_eq!(rt; taken(rt.alloc(), &[], &OF_HIS_OWN)?, None);
    Ok(())
}

#[test]
fn entries_leave_the_program(rt: HostRuntime) -> Result<(), Fail> {
    assert_eq!(rt; taken(rt.alloc(), &[], &LEAVE_THE_PROGRAM)?, None);
    Ok(())
}

#[test]
fn entries_share_octets(rt: HostRuntime) -> Result<(), Fail> {
    assert_eq!(rt; taken(rt.alloc(), &[], &SHARE_OCTETS)?, None);
    Ok(())
}

#[test]
fn the_last_number(rt: HostRuntime) -> Result<(), Fail> {
    assert_eq!(rt; taken(rt.alloc(), &[DAN], &LAST_NUMBER)?, None);
    Ok(())
}

#[test]
fn other_octets_under_a_digest(rt: HostRuntime) -> Result<(), Fail> {
    let statements = [CONTENT, BOB, ENTRY];
    assert_eq!(rt; taken(rt.alloc(), &statements, &OTHER_OCTETS)?, None);
    Ok(())
}

#[test]
fn listings(rt: HostRuntime) -> Result<(), Fail> {
    assert_eq!(rt; taken(rt.alloc(), &[], &LISTINGS)?, None);
    Ok(())
}

// Whether a store's connection is refused after a statement, as one that can't be taken.
fn is_refused<S: Alter + Drop>(store: PartStore<S>, sql: &str) -> bool {
    match laid(store, sql) {
        Ok(_store) => false,
        Err(error) => matches!(error, StoreError::Database),
    }
}

#[test]
fn an_open_transaction(rt: HostRuntime) -> Result<(), Fail> {
    let store = PartStore::in_memory(rt.alloc())?;
    assert!(rt; is_refused(store, "BEGIN"));
    Ok(())
}

// A message.
const MESSAGE: NewEntry<'static> = NewEntry {
    folder: b"INBOX",
    kind: Kind::Message,
    name: b"",
    media: b"message/rfc822",
    octets: b"mail",
};

// Puts the users of one store into another.
fn carry_over<S: Alter>(from: &mut PartStore<S>, to: &mut PartStore<S>) -> Result<(), StoreError> {
    let users = from.users()?;
    to.put_users(&users)
}

// Whether this is the last number that a user was given.
fn has_last<S: Alter>(store: &mut PartStore<S>, user: &str, last: u32) -> bool {
    matches!(store.last_of(user), Ok(found) if found == last)
}

// Whether a store has exactly what is kept of two users: the program of one, and the last number of the other.
fn has_users<S: Alter>(store: &mut PartStore<S>) -> bool {
    has_program(store, "ann", Some(b"program"))
        && has_last(store, "ann", 0)
        && has_program(store, "bob", None)
        && has_last(store, "bob", 2)
}

// Whether the users of a store are in an empty one once they were put in.
fn are_carried_over(alloc: Global) -> Result<bool, StoreError> {
    let mut from = PartStore::in_memory(alloc)?;
    from.set_program("ann", b"program")?;
    let _first = from.add_entries("bob", &[MESSAGE, MESSAGE])?;
    let mut to = PartStore::in_memory(alloc)?;
    carry_over(&mut from, &mut to)?;
    Ok(has_users(&mut to))
}

#[test]
fn users_that_are_put_in(rt: HostRuntime) -> Result<(), Fail> {
    assert!(rt; are_carried_over(rt.alloc())?);
    Ok(())
}
