// Altered programs, executed on an empty message and on messages nested in each other.
use crate::counts::{Counts, with_octet};
use refusals::Refusal;
use sieve_engine::{Report, check_program, execute};
use std::alloc::{AllocError, Global};

// Four messages nested in each other.
const CHAIN: &[u8] =
    b"Content-Type: message/rfc822\n\nContent-Type: message/rfc822\n\nContent-Type: message/rfc822\n\nContent-Type: message/rfc822\n\n";

// How many pairs of bytes of each program are altered.
const PAIRS: u64 = 50_000;

// The place of a program's version.
const VERSION_PLACE: usize = 4;

/// Each proper prefix is the spelling of no program. A prefix for which memory is refused counts as answered in another
/// way.
pub fn prefixes(alloc: Global, program: &[u8]) -> Counts {
    let mut counts = Counts::new();
    for end in 0..program.len() {
        match check_program(alloc, &program[..end]) {
            Ok(_) => counts.take(false),
            Err(refusal) => counts.refuse(matches!(refusal, Refusal::Spelling)),
        }
    }
    counts
}

/// Each byte set to each value: the program is refused, or runs within its budget, and does the same in version 2.
///
/// # Errors
///
/// `AllocError` if memory is refused.
pub fn one_altered(alloc: Global, program: &[u8]) -> Result<Counts, AllocError> {
    let mut counts = Counts::new();
    for place in 0..program.len() {
        for octet in 0..=255u8 {
            run_altered(alloc, program, place, octet, &mut counts)?;
        }
    }
    Ok(counts)
}

/// Two bytes, each set to some value, again and again: the result is the same.
///
/// # Errors
///
/// `AllocError` if memory is refused.
pub fn two_altered(alloc: Global, program: &[u8]) -> Result<Counts, AllocError> {
    let mut counts = Counts::new();
    let mut numbers = Numbers { state: 1 };
    for _ in 0..PAIRS {
        run_pair(alloc, program, &mut numbers, &mut counts)?;
    }
    Ok(counts)
}

fn run_pair(
    alloc: Global,
    program: &[u8],
    numbers: &mut Numbers,
    counts: &mut Counts,
) -> Result<(), AllocError> {
    let first = numbers.below(program.len());
    let once = with_octet(alloc, program, first, numbers.octet())?;
    let second = numbers.below(program.len());
    run_altered(alloc, &once, second, numbers.octet(), counts)
}

// Runs a program with another byte at a place.
fn run_altered(
    alloc: Global,
    program: &[u8],
    place: usize,
    octet: u8,
    counts: &mut Counts,
) -> Result<(), AllocError> {
    let altered = with_octet(alloc, program, place, octet)?;
    run_both(alloc, &altered, counts)
}

// Numbers that look random (Marsaglia's xorshift), the same in each run.
#[derive(Drop)]
struct Numbers {
    state: u64,
}

impl Numbers {
    fn next(&mut self) -> u64 {
        self.state ^= self.state << 13;
        self.state ^= self.state >> 7;
        self.state ^= self.state << 17;
        self.state
    }

    // A number below n, or 0 if n is 0.
    fn below(&mut self, n: usize) -> usize {
        match (self.next() >> 20).checked_rem(n as u64) {
            Some(number) => number as usize,
            None => 0,
        }
    }

    fn octet(&mut self) -> u8 {
        ((self.next() >> 20) % 256) as u8
    }
}

fn run_both(alloc: Global, program: &[u8], counts: &mut Counts) -> Result<(), AllocError> {
    run(alloc, program, b"", counts)?;
    run(alloc, program, CHAIN, counts)
}

// A program is refused for its spelling or by the verifier; or it charges at most its budget, and does the same in
// version 2.
fn run(
    alloc: Global,
    program: &[u8],
    message: &[u8],
    counts: &mut Counts,
) -> Result<(), AllocError> {
    match execute(alloc, program, message) {
        Ok(report) => {
            let newer = with_octet(alloc, program, VERSION_PLACE, 2)?;
            let within = report.outcome.charged <= report.limit;
            counts.take(within && does_the_same(alloc, &newer, message, &report));
        }
        Err(refusal) => counts.refuse((20..=27).contains(&refusal.number())),
    }
    Ok(())
}

// Whether a program results in the actions and the charge of a report, and its limit isn't larger.
fn does_the_same(alloc: Global, program: &[u8], message: &[u8], report: &Report) -> bool {
    match execute(alloc, program, message) {
        Ok(newer) => {
            newer.outcome.charged == report.outcome.charged
                && newer.outcome.actions == report.outcome.actions
                && newer.limit <= report.limit
        }
        Err(_) => false,
    }
}
