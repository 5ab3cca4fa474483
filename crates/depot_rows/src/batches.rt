// Batches on a depot in memory, over a shelf: what each line is answered, and what breaks off.
use crate::calls::Calls;
use crate::known::{ANSWERS, EMPTY, MAIL, THREE, entries, served};
use depot_actions::{Depot, Refusal};
use sqlite::Alter;
use std::alloc::Global;
use std::io;
use std::io::{Error, ErrorKind, Read};
use std::test::Fail;

/// Gives its octets, and fails after the last.
#[derive(Drop)]
struct Failing<'a> {
    octets: &'a [u8],
}

impl Read for Failing<'_> {
    fn read(&mut self, room: &mut [u8]) -> io::Result<usize> {
        let n = self.octets.len().min(room.len());
        if n == 0 {
            return Err(Error::from(ErrorKind::Other));
        }
        let (first, others) = self.octets.split_at(n);
        room[..n].copy_from_slice(first);
        self.octets = others;
        Ok(n)
    }
}

/// Gives the first of its octets, then meets an end once, and then gives the others.
#[derive(Drop)]
struct Pausing<'a> {
    first: &'a [u8],
    others: &'a [u8],
    pauses: bool,
}

impl Read for Pausing<'_> {
    fn read(&mut self, room: &mut [u8]) -> io::Result<usize> {
        if self.first.is_empty() && self.pauses {
            self.pauses = false;
            self.first = self.others;
            return Ok(0);
        }
        let n = self.first.len().min(room.len());
        let (given, left) = self.first.split_at(n);
        room[..n].copy_from_slice(given);
        self.first = left;
        Ok(n)
    }
}

// Whether three deliveries, whose answers are written in so many calls of an octet each, are answered up to there.
fn is_answered_up_to<S: Alter>(
    rt: &HostRuntime,
    depot: &mut Result<Depot<S>, Refusal>,
    calls: usize,
) -> Result<bool, Fail> {
    let out = Calls::new(rt, 1, calls);
    let seen = served(rt.alloc(), depot, [EMPTY, MAIL], 64, THREE, out)?;
    Ok(
        seen.ends(1, b"refused 45 Write\n")
            && seen.out.octets.as_slice() == &ANSWERS[..calls.min(ANSWERS.len())],
    )
}

// Whether they are in a new depot, and how many entries it has then.
fn answered_up_to(rt: &HostRuntime, calls: usize) -> Result<(bool, usize), Fail> {
    let mut depot = Depot::in_memory(rt.alloc());
    let is_answered = is_answered_up_to(rt, &mut depot, calls)?;
    Ok((is_answered, entries(&mut depot)?))
}

#[test]
fn answers_that_break_off(rt: HostRuntime) -> Result<(), Fail> {
    for calls in 0..ANSWERS.len() {
        let (is_answered, count) = answered_up_to(&rt, calls)?;
        assert!(rt; is_answered, "{calls}");
        // the three lines are ready together
        assert_eq!(rt; count, 3, "{calls}");
    }
    Ok(())
}

// Whether lines whose reader fails after the last octet are answered up to there.
fn is_read_up_to<S: Alter>(
    alloc: Global,
    depot: &mut Result<Depot<S>, Refusal>,
    octets: &[u8],
    answers: &[u8],
) -> Result<bool, Fail> {
    let out = Vec::new(alloc);
    let seen = served(alloc, depot, [EMPTY, MAIL], 64, Failing { octets }, out)?;
    Ok(seen.ends(1, b"refused 46 Read\n") && seen.faults == 1 && seen.out.as_slice() == answers)
}

// Whether they are in a new depot, and how many entries it has then.
fn read_up_to(alloc: Global, octets: &[u8], answers: &[u8]) -> Result<(bool, usize), Fail> {
    let mut depot = Depot::in_memory(alloc);
    let is_read = is_read_up_to(alloc, &mut depot, octets, answers)?;
    Ok((is_read, entries(&mut depot)?))
}

#[test]
fn lines_that_break_off(rt: HostRuntime) -> Result<(), Fail> {
    let alloc = rt.alloc();
    let line = THREE.len() / 3;
    let one = ANSWERS.len() / 3;
    for len in 0..THREE.len() + 1 {
        let whole = len / line;
        let (is_read, count) = read_up_to(alloc, &THREE[..len], &ANSWERS[..whole * one])?;
        assert!(rt; is_read, "{len}");
        assert_eq!(rt; count, whole, "{len}");
    }
    Ok(())
}

// Whether a batch answers no line after the end of its input.
fn ends_with_its_input<S: Alter>(
    alloc: Global,
    depot: &mut Result<Depot<S>, Refusal>,
) -> Result<bool, Fail> {
    let lines = Pausing {
        first: b"deliver ann mail\nlist ",
        others: b"deliver ann mail\n",
        pauses: true,
    };
    let answer = b"1 message \"INBOX\"\n= 0\n? the input ended within this line\n= 2\n".as_slice();
    let seen = served(alloc, depot, [EMPTY, MAIL], 64, lines, Vec::new(alloc))?;
    let ended = seen.status == 0 && seen.has_ended && seen.faults == 0;
    Ok(ended && seen.out.as_slice() == answer)
}

#[test]
fn an_input_that_goes_on_after_its_end(rt: HostRuntime) -> Result<(), Fail> {
    let mut depot = Depot::in_memory(rt.alloc());
    assert!(rt; ends_with_its_input(rt.alloc(), &mut depot)?);
    assert_eq!(rt; entries(&mut depot)?, 1);
    Ok(())
}
