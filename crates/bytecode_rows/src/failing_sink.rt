// A script traced to a sink that fails.
use bytecode_format::Action;
use devices::OfWrite;
use mime_decode::Message;
use sieve_check::{Checked, check};
use sieve_parser::{Script, parse};
use sieve_trace::{Places, TraceError, token_places, trace};
use std::alloc::Global;
use std::io;
use std::io::Write;

/// A text with two parts below it, of which the second is a PDF.
const MAIL: &[u8] = b"From: ann@example.org\n\
      Subject: Invoice 12\n\
      X-A: a\n b\n\
      Content-Type: multipart/mixed; boundary=o\n\n\
      --o\n\n\
      hello\n\
      --o\n\
      Content-Type: application/pdf\n\n\
      x\n\
      --o--\n";

const SCRIPT: &[u8] = b"if header :contains \"subject\" \"nvoi\" { keep; } stop;";

/// The script's trace on that.
const TOLD: &[u8] = b"f.sieve:1:4: header yes \"Invoice 12\" contains \"nvoi\"\n\
      f.sieve:1:40: keep\n\
      f.sieve:1:48: stop\n";

/// Takes so many octets, and then no more. It keeps none of them, and knows how many it took and whether they are the
/// trace.
#[derive(Drop)]
struct Full {
    room: usize,
    taken: usize,
    is_trace: bool,
}

impl Write for Full {
    ghost use Rattle.std.specs.Prelude.{None};

    ghost contents = { λ _. None };

    fn write(&mut self, octets: &[u8]) -> io::Result<usize> {
        let n = octets.len().min(self.room);
        if n == 0 && !octets.is_empty() {
            return Err(io::Error::from(io::ErrorKind::StorageFull));
        }
        self.is_trace = self.is_trace && goes_on(self.taken, &octets[..n]);
        self.taken = self.taken.saturating_add(n);
        self.room -= n;
        Ok(n)
    }

    fn flush(&mut self) -> io::Result<()> {
        Ok(())
    }
}

// Whether these octets come in the trace after so many.
fn goes_on(taken: usize, octets: &[u8]) -> bool {
    match TOLD.get(taken..taken.saturating_add(octets.len())) {
        Some(told) => told == octets,
        None => false,
    }
}

// Whether a trace ends as it has to in a sink with so much room: well where the room is enough, else since a call failed.
fn ends_well(told: Result<Vec<Action>, TraceError>, room: usize) -> bool {
    match told {
        Ok(_) => room >= TOLD.len(),
        Err(TraceError::Write) => room < TOLD.len(),
        Err(TraceError::Memory) => false,
    }
}

// Whether a sink with so much room takes the beginning of the trace that fits, and then fails, or all of it, and doesn't.
fn is_told(
    alloc: Global,
    places: &Places,
    checked: &Checked,
    message: &Message<'_>,
    room: usize,
) -> bool {
    let mut out = OfWrite::new(Full {
        room,
        taken: 0,
        is_trace: true,
    });
    let told = trace(alloc, "f.sieve", places, checked, message, &mut out);
    ends_well(told, room) && out.inner.is_trace && out.inner.taken == room.min(TOLD.len())
}

// Whether each sink with at most one octet more room than the trace needs does.
fn all_are_told(alloc: Global, places: &Places, checked: &Checked, message: &Message<'_>) -> bool {
    for room in 0..TOLD.len().saturating_add(2) {
        if !is_told(alloc, places, checked, message, room) {
            return false;
        }
    }
    true
}

// The same, with the message read for it.
fn all_are_told_of_mail(alloc: Global, places: &Places, checked: &Checked) -> bool {
    match Message::read(alloc, MAIL) {
        Ok(message) => all_are_told(alloc, places, checked, &message),
        Err(_) => false,
    }
}

// The same, with the places of the script's tokens found for it.
fn all_are_told_of_places(alloc: Global, checked: &Checked) -> bool {
    match token_places(alloc, SCRIPT) {
        Ok(places) => all_are_told_of_mail(alloc, &places, checked),
        Err(_) => false,
    }
}

// The same, with the script checked for it.
fn all_are_told_of(alloc: Global, script: Script) -> bool {
    match check(alloc, script) {
        Ok(checked) => all_are_told_of_places(alloc, &checked),
        Err(_) => false,
    }
}

// The same, with the script parsed for it.
fn all_are_told_of_script(alloc: Global) -> bool {
    match parse(alloc, SCRIPT) {
        Ok(script) => all_are_told_of(alloc, script),
        Err(_) => false,
    }
}

#[test]
fn a_sink_that_fails_in_the_middle(rt: HostRuntime) {
    assert!(rt; all_are_told_of_script(rt.alloc()));
}
