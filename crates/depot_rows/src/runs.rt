// From words to answers, over a shelf: which files are opened and made. Commands on a depot are cases.

use crate::shelf::{Asked, Known, Shelf};
use depot_cli::{Next, run};
use devices::OfWrite;
use std::alloc::AllocError;
use std::test::Fail;

const SCRIPT: Known<'static> = Known {
    name: "s",
    octets: b"if size :over 3 { discard; }",
};

const MESSAGE: Known<'static> = Known {
    name: "m",
    octets: b"abcd",
};

/// Words, how many octets a file that is made takes, and what comes of them.
#[derive(Clone, Copy)]
struct Row {
    words: &'static [&'static str],
    room: usize,
    status: u8,
    out: &'static str,
    err: &'static str,
    asked: &'static str,
}

/// What came of words.
#[derive(Drop)]
struct Seen {
    status: u8,
    out: Vec<u8>,
    err: Vec<u8>,
    asked: Vec<Asked>,
    given: u64,
    faults: u64,
}

// What comes of words that do nothing.
const ROW: Row = Row {
    words: &["depot"],
    room: 0,
    status: 0,
    out: "",
    err: "",
    asked: "[]",
};

static READ_MADE_AND_PRINTED: [Row; 10] = [
    Row {
        words: &["depot", "eval", "s", "m"],
        out: "none\ncharged 4 of 4\n",
        asked: "[Opened(\"s\"), Opened(\"m\")]",
        ..ROW
    },
    Row {
        words: &["depot", "eval", "m", "s"],
        status: 1,
        err: "refused 13 Syntax at 1\n",
        asked: "[Opened(\"m\"), Opened(\"s\")]",
        ..ROW
    },
    Row {
        words: &["depot", "eval", "x", "m"],
        status: 1,
        err: "refused 46 Read\n",
        asked: "[Opened(\"x\")]",
        ..ROW
    },
    Row {
        words: &["depot", "run", "m", "x"],
        status: 1,
        err: "refused 46 Read\n",
        asked: "[Opened(\"m\"), Opened(\"x\")]",
        ..ROW
    },
    Row {
        words: &["depot", "compile", "m", "o"],
        room: 100,
        status: 1,
        err: "refused 13 Syntax at 1\n",
        asked: "[Opened(\"m\")]",
        ..ROW
    },
    Row {
        words: &["depot", "compile", "s", "s"],
        room: 100,
        status: 1,
        err: "refused 45 Write\n",
        asked: "[Opened(\"s\"), Made(\"s\", \"s\")]",
        ..ROW
    },
    Row {
        words: &["depot", "compile", "s", "o"],
        room: 54,
        status: 1,
        err: "refused 45 Write\n",
        asked: "[Opened(\"s\"), Made(\"o\", \"s\")]",
        ..ROW
    },
    Row {
        words: &["depot", "compile", "s", "o"],
        room: 55,
        out: "wrote 55 octets\n",
        asked: "[Opened(\"s\"), Made(\"o\", \"s\"), Kept([\
            83, 86, 66, 67, 2, 0, 0, 0, 1, 0, 0, 0, 0, 0, 4, 0, 0, 0, 0, 0, 0, 0, 3, 15, 0, 0, \
            0, 0, 0, 0, 0, 11, 0, 0, 0, 0, 0, 0, 3, 20, 0, 0, 0, 0, 0, 0, 0, 1, 0, 0, 0, 0, 0, \
            0, 0])]",
        ..ROW
    },
    Row {
        words: &["depot", "decode", "base32"],
        out: "foobar",
        asked: "[OpenedInput]",
        ..ROW
    },
    Row {
        words: &["depot"],
        out: "keep\ncharged 2 of 2\n",
        asked: "[OpenedInput]",
        ..ROW
    },
];

// Runs words on a shelf with a script and a message.
fn come(rt: &HostRuntime, words: &[&str], room: usize) -> Seen {
    let alloc = rt.alloc();
    let mut host = Shelf::new(alloc, SCRIPT, MESSAGE, b"MZXW6YTBOI======", room);
    let mut out = OfWrite::new(Vec::new(alloc));
    let mut err = OfWrite::new(Vec::new(alloc));
    let status = match run(alloc, words, &mut host, &mut out, &mut err) {
        Next::Exit(status) => status,
        // no row has a depot
        Next::Init(_)
        | Next::Perform(_)
        | Next::Inspect(_)
        | Next::Scrub(_)
        | Next::Save(_)
        | Next::Batch(_) => 2,
    };
    Seen {
        status,
        out: out.inner,
        err: err.inner,
        asked: host.asked,
        given: host.given,
        faults: host.faults,
    }
}

// Whether a row's words come to what it says.
fn comes(rt: &HostRuntime, row: &Row) -> Result<bool, AllocError> {
    let came = come(rt, row.words, row.room);
    let asked = format!(in rt.alloc(); "{:?}", came.asked)?;
    Ok(
        came.status == row.status
            && came.out.as_slice() == row.out.as_bytes()
            && came.err.as_slice() == row.err.as_bytes()
            && asked.as_str() == row.asked,
    )
}

#[test]
fn what_is_read_made_and_printed(rt: HostRuntime) -> Result<(), Fail> {
    for row in &READ_MADE_AND_PRINTED {
        assert!(rt; comes(&rt, row)?, "{:?}", row.words);
    }
    Ok(())
}

// Whether words come to so many octets read, and so many failed calls.
fn counts(rt: &HostRuntime, words: &[&str], room: usize, given: u64, faults: u64) -> bool {
    let came = come(rt, words, room);
    came.given == given && came.faults == faults
}

#[test]
fn octets_and_failures_are_counted(rt: HostRuntime) {
    assert!(rt; counts(&rt, &["depot", "eval", "s", "m"], 0, 32, 0));
    assert!(rt; counts(&rt, &["depot", "eval", "s", "x"], 0, 28, 1));
    assert!(rt; counts(&rt, &["depot", "compile", "s", "o"], 10, 28, 1));
}
