// Gives programs, messages and scripts that are cut off or altered to the calls that take them, and counts how each was
// answered.
#![tactic(auto)]

mod counts;
mod messages;
mod programs;
mod scripts;

use crate::counts::Counts;
use std::fs;
use std::io::{self, Write};
use std::process::ExitCode;

// Programs as bytes: one without a loop, one with a loop, one with two nested loops, and for each version one that has
// all of its operations.
const PROGRAMS: &[&str] = &[
    "keep.svbc",
    "store.svbc",
    "nested_loops.svbc",
    "every_operation.svbc",
    "every_operation_of_version_2.svbc",
];

const MESSAGES: &[&str] = &["multiparts.eml", "attachment.eml", "quoted_printable.eml"];

const SCRIPTS: &[&str] = &["attachments.sieve"];

fn main(rt: HostRuntime) -> ExitCode {
    match answer_all(&rt) {
        Ok(true) => ExitCode::SUCCESS,
        _ => ExitCode::FAILURE,
    }
}

// Whether each was answered as allowed.
fn answer_all(rt: &HostRuntime) -> io::Result<bool> {
    let mut all = true;
    for name in PROGRAMS {
        all &= answer_program(rt, *name)?;
    }
    for name in MESSAGES {
        all &= answer_message(rt, *name)?;
    }
    for name in SCRIPTS {
        all &= answer_script(rt, *name)?;
    }
    Ok(all)
}

// Whether each series of a program was answered as allowed.
fn answer_program(rt: &HostRuntime, name: &str) -> io::Result<bool> {
    let program = fs::read(rt, name)?;
    let prefixes = tell_prefixes(rt, name, programs::prefixes(rt.alloc(), &program))?;
    let one = tell_one(rt, name, programs::one_altered(rt.alloc(), &program)?)?;
    let two = tell_two(rt, name, programs::two_altered(rt.alloc(), &program)?)?;
    Ok(prefixes && one && two)
}

fn answer_message(rt: &HostRuntime, name: &str) -> io::Result<bool> {
    let message = fs::read(rt, name)?;
    let prefixes = tell_prefixes(rt, name, messages::prefixes(rt.alloc(), &message))?;
    let one = tell_one(rt, name, messages::one_altered(rt.alloc(), &message)?)?;
    Ok(prefixes && one)
}

fn answer_script(rt: &HostRuntime, name: &str) -> io::Result<bool> {
    let script = fs::read(rt, name)?;
    let prefixes = tell_prefixes(rt, name, scripts::prefixes(rt.alloc(), &script))?;
    let one = tell_one(rt, name, scripts::one_altered(rt.alloc(), &script)?)?;
    Ok(prefixes && one)
}

fn tell_prefixes(rt: &HostRuntime, name: &str, counts: Counts) -> io::Result<bool> {
    tell(rt, name, "prefixes", counts)
}

fn tell_one(rt: &HostRuntime, name: &str, counts: Counts) -> io::Result<bool> {
    tell(rt, name, "one octet altered", counts)
}

fn tell_two(rt: &HostRuntime, name: &str, counts: Counts) -> io::Result<bool> {
    tell(rt, name, "two octets altered", counts)
}

// Prints the result of one series, and returns whether there was no other answer.
fn tell(rt: &HostRuntime, name: &str, series: &str, counts: Counts) -> io::Result<bool> {
    let line = counts.line(rt.alloc(), name, series)?;
    rt.stdout().write_all(line.as_bytes())?;
    Ok(counts.other == 0)
}
