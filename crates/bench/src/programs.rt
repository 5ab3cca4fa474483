// Programs as bytes, verified and run.
use crate::checksum::{REFUSED, told};
use bytecode_format::{Action, Program};
use bytecode_verifier::{Verified, verify};
use mime_decode::Message;
use sieve_vm::run;
use std::alloc::Global;

/// How often a program is read and accepted.
#[unsafe(no_mangle)]
pub extern "C" fn bench_verify(alloc: Global, program: &[u8], rounds: u32) -> u64 {
    let mut sum: u64 = 0;
    for _ in 0..rounds.max(1) {
        if accepted(alloc, program).is_some() {
            sum = sum.wrapping_add(1);
        }
    }
    sum
}

/// The actions of a program's runs on a message, and the charges if they count. Program and message are read before.
#[unsafe(no_mangle)]
pub extern "C" fn bench_run(
    alloc: Global,
    charges: bool,
    program: &[u8],
    message: &[u8],
    rounds: u32,
) -> u64 {
    outcomes(alloc, charges, program, message, rounds).unwrap_or(REFUSED)
}

fn accepted(alloc: Global, octets: &[u8]) -> Option<Verified> {
    verify(alloc, Program::read(alloc, octets).ok()?).ok()
}

fn outcomes(
    alloc: Global,
    charges: bool,
    octets: &[u8],
    message: &[u8],
    rounds: u32,
) -> Option<u64> {
    let verified = accepted(alloc, octets)?;
    let message = Message::read(alloc, message).ok()?;
    let mut sum: u64 = 0;
    for _ in 0..rounds.max(1) {
        let outcome = run(alloc, &verified, &message).ok()?;
        sum = sum.wrapping_add(number_of(&outcome.actions, rounds));
        if charges {
            sum = sum.wrapping_add(u64::try_from(outcome.charged).unwrap_or(REFUSED));
        }
    }
    Some(sum)
}

// The number for actions: each counts, and its folder.
fn number_of(actions: &[Action], rounds: u32) -> u64 {
    let mut sum: u64 = 0;
    for action in actions {
        let folder = match action {
            Action::Keep => b"".as_slice(),
            Action::File(folder) => folder.as_slice(),
            Action::Store(folder, _part) => folder.as_slice(),
        };
        sum = sum.wrapping_add(1).wrapping_add(told(folder, rounds));
    }
    sum
}
