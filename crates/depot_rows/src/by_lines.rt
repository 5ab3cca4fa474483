// Batches whose input gives a line at a time, so that no two lines are ready together: each is done alone.
ghost use Rattle.std.specs.Prelude.{◌≤◌, length};

use crate::calls::Calls;
use crate::known::{ANSWERS, DISCARD, MAIL, THREE, entries, served};
use depot_actions::{Depot, Refusal};
use sqlite::Alter;
use std::alloc::Global;
use std::io;
use std::io::Read;
use std::test::Fail;

/// Gives a line at a time.
#[derive(Drop)]
struct ByLines<'a> {
    octets: &'a [u8],
}

impl Read for ByLines<'_> {
    fn read(&mut self, room: &mut [u8]) -> io::Result<usize> {
        let n = first_line(self.octets).len().min(room.len());
        let (first, others) = self.octets.split_at(n);
        room[..n].copy_from_slice(first);
        self.octets = others;
        Ok(n)
    }
}

// The line that octets begin with, or all of them.
fn first_line(octets: &[u8]) -> &[u8]
    ensures { length result.now ≤ length octets.now }
{
    match octets.iter().position(|octet| *octet == b'\n') {
        Some(end) => &octets[..end + 1],
        None => octets,
    }
}

// Whether lines are answered so, with status 0, and each file is opened for one line alone.
fn answers<S: Alter>(
    alloc: Global,
    depot: &mut Result<Depot<S>, Refusal>,
    octets: &[u8],
    answer: &[u8],
    opened: usize,
) -> Result<bool, Fail> {
    let lines = ByLines { octets };
    let seen = served(
        alloc,
        depot,
        [MAIL, DISCARD],
        1 << 16,
        lines,
        Vec::new(alloc),
    )?;
    Ok(seen.ends(0, b"") && seen.asked.len() == opened && seen.out.as_slice() == answer)
}

#[test]
fn no_line_is_read_twice(rt: HostRuntime) -> Result<(), Fail> {
    let alloc = rt.alloc();
    let mut depot = Depot::in_memory(alloc);
    let same = answers(
        alloc,
        &mut depot,
        b"script eve discard\ndeliver ann mail\ndeliver Ann mail\ndeliver ann none\ndeliver ann\ndeliver eve mail\ndeliver ann mail\ndeliver",
        b"stored\n= 0\n1 message \"INBOX\"\n= 0\nrefused 44 UserName\n= 1\nrefused 46 Read\n= 1\n? deliver USER MESSAGE\n= 2\nnone\n= 0\n2 message \"INBOX\"\n= 0\n? the input ended within this line\n= 2\n",
        6,
    )?;
    assert!(rt; same);
    assert_eq!(rt; entries(&mut depot)?, 2);
    Ok(())
}

// Whether three deliveries, whose answers are written in so many calls of an octet each, end with status 1, are answered up
// to there, and open a file for each line until then.
fn is_answered_up_to<S: Alter>(
    rt: &HostRuntime,
    depot: &mut Result<Depot<S>, Refusal>,
    calls: usize,
    opened: usize,
) -> Result<bool, Fail> {
    let lines = ByLines { octets: THREE };
    let out = Calls::new(rt, 1, calls);
    let seen = served(rt.alloc(), depot, [MAIL, DISCARD], 1 << 16, lines, out)?;
    let answers = &ANSWERS[..calls.min(ANSWERS.len())];
    Ok(seen.status == 1 && seen.asked.len() == opened && seen.out.octets.as_slice() == answers)
}

// Whether they are in a new depot, and how many entries it has then.
fn answered_up_to(rt: &HostRuntime, calls: usize, opened: usize) -> Result<(bool, usize), Fail> {
    let mut depot = Depot::in_memory(rt.alloc());
    let is_answered = is_answered_up_to(rt, &mut depot, calls, opened)?;
    Ok((is_answered, entries(&mut depot)?))
}

#[test]
fn answers_that_break_off(rt: HostRuntime) -> Result<(), Fail> {
    let one = ANSWERS.len() / 3;
    for calls in 0..ANSWERS.len() {
        // what was asked until then is done, and nothing more
        let begun = calls / one + 1;
        let (is_answered, count) = answered_up_to(&rt, calls, begun)?;
        assert!(rt; is_answered, "{calls}");
        assert_eq!(rt; count, begun, "{calls}");
    }
    Ok(())
}
