// Scripts that are made by a rule: thousands of them, or thousands of pieces in one.
use crate::printed::Printed;
use crate::script_runs::{meaning_of, put_run};
use itoa::Buffer;
use refusals::Refusal;
use sieve_check::Checked;
use sieve_engine::{check_script, compile_script, execute};
use sieve_lexer::number_of;
use std::alloc::{AllocError, Global};

/// Adds how many tests there are of up to two levels over some, and how many of those mean what their programs do.
pub fn put_levels(alloc: Global, tests: &[Vec<u8>], answer: &mut Printed) -> Result<(), Refusal> {
    let all = two_levels_more(alloc, tests)?;
    let agreeing = agreeing_of(alloc, &all)?;
    answer.number(all.len() as u64);
    answer.number(agreeing);
    Ok(())
}

fn two_levels_more(alloc: Global, tests: &[Vec<u8>]) -> Result<Vec<Vec<u8>>, AllocError> {
    let more = one_level_more(alloc, tests)?;
    one_level_more(alloc, &more)
}

// The given tests, and all that are made of one or two of them.
fn one_level_more(alloc: Global, tests: &[Vec<u8>]) -> Result<Vec<Vec<u8>>, AllocError> {
    let mut more = Vec::new(alloc);
    for first in tests {
        add_made_of(alloc, &mut more, first, tests)?;
    }
    Ok(more)
}

// Adds a test, and all that are made of it and of one or none of the others after it.
fn add_made_of(
    alloc: Global,
    more: &mut Vec<Vec<u8>>,
    first: &[u8],
    tests: &[Vec<u8>],
) -> Result<(), AllocError> {
    add_joined(alloc, more, &[first])?;
    add_joined(alloc, more, &[b"not ", first])?;
    add_lists(alloc, more, b"allof (", first, tests)?;
    add_lists(alloc, more, b"anyof (", first, tests)
}

// Adds a list of a test alone, and one of it and of each of the tests.
fn add_lists(
    alloc: Global,
    more: &mut Vec<Vec<u8>>,
    list: &[u8],
    first: &[u8],
    tests: &[Vec<u8>],
) -> Result<(), AllocError> {
    add_joined(alloc, more, &[list, first, b")"])?;
    for second in tests {
        add_joined(alloc, more, &[list, first, b", ", second, b")"])?;
    }
    Ok(())
}

// Adds a text of some parts, one after another.
fn add_joined(alloc: Global, more: &mut Vec<Vec<u8>>, parts: &[&[u8]]) -> Result<(), AllocError> {
    let text = joined(alloc, parts)?;
    Ok(more.push(text)?)
}

// The texts of a list, one after another.
fn joined(alloc: Global, parts: &[&[u8]]) -> Result<Vec<u8>, AllocError> {
    let mut text = Vec::new(alloc);
    for part in parts {
        text.extend_from_slice(part)?;
    }
    Ok(text)
}

// How many tests mean what their programs do.
fn agreeing_of(alloc: Global, tests: &[Vec<u8>]) -> Result<u64, Refusal> {
    let mut agreeing: u64 = 0;
    for test in tests {
        if agrees(alloc, test)? {
            agreeing = agreeing.wrapping_add(1);
        }
    }
    Ok(agreeing)
}

// Whether a script of one test means what its program does.
fn agrees(alloc: Global, test: &[u8]) -> Result<bool, Refusal> {
    let script = joined(alloc, &[b"if ", test, b" { discard; } else { keep; }"])?;
    means_what_it_does(alloc, &script)
}

// Whether the script's program does what the script means, on messages of three sizes.
fn means_what_it_does(alloc: Global, script: &[u8]) -> Result<bool, Refusal> {
    let program = compile_script(alloc, script)?.write(alloc)?;
    let checked = check_script(alloc, script)?;
    does_always(alloc, &checked, &program)
}

fn does_always(alloc: Global, checked: &Checked, program: &[u8]) -> Result<bool, Refusal> {
    for message in [b"".as_slice(), b"abc", b"abcd"] {
        if !does_as_meant(alloc, checked, program, message)? {
            return Ok(false);
        }
    }
    Ok(true)
}

// Whether a program does on a message what a script means.
fn does_as_meant(
    alloc: Global,
    checked: &Checked,
    program: &[u8],
    message: &[u8],
) -> Result<bool, Refusal> {
    let meant = meaning_of(alloc, checked, message)?;
    let report = execute(alloc, program, message)?;
    Ok(meant == report.outcome.actions)
}

/// Adds how many octets a script has of so many tests with so many keys, all of them different, and what it does.
pub fn put_keys(
    alloc: Global,
    tests: &[u8],
    keys: &[u8],
    message: &[u8],
    answer: &mut Printed,
) -> Result<(), Refusal> {
    let tests = number_of(tests).unwrap_or(0);
    let keys = number_of(keys).unwrap_or(0);
    let script = with_keys(alloc, tests, keys)?;
    answer.number(script.len() as u64);
    put_run(alloc, &script, message, answer)
}

// The script of so many tests with so many keys.
fn with_keys(alloc: Global, tests: u64, keys: u64) -> Result<Vec<u8>, AllocError> {
    let mut script = Vec::from_slice(alloc, b"require \"fileinto\";")?;
    let mut number: u64 = 0;
    for _ in 0..tests {
        add_test(&mut script, number, keys)?;
        number = number.wrapping_add(keys);
    }
    script.extend_from_slice(b"fileinto \"x\";")?;
    Ok(script)
}

// Adds a test with so many keys, from the one of a number on.
fn add_test(script: &mut Vec<u8>, first: u64, keys: u64) -> Result<(), AllocError> {
    script.extend_from_slice(b"if header \"s\" [")?;
    for key in 0..keys {
        add_key(script, first.wrapping_add(key))?;
    }
    script.extend_from_slice(b"\"\"]{stop;}")
}

// Adds a key of three letters, and the comma after it.
fn add_key(script: &mut Vec<u8>, number: u64) -> Result<(), AllocError> {
    script.push(b'"')?;
    script.push(b'a' + (number % 26) as u8)?;
    script.push(b'a' + (number / 26 % 26) as u8)?;
    script.push(b'a' + (number / 676 % 26) as u8)?;
    script.extend_from_slice(b"\",")
}

/// Adds how many numbers the program has of a script with all numbers from one up to another, and the last one.
pub fn put_numbers(
    alloc: Global,
    first: &[u8],
    end: &[u8],
    answer: &mut Printed,
) -> Result<(), Refusal> {
    let first = number_of(first).unwrap_or(0);
    let end = number_of(end).unwrap_or(0);
    let script = with_numbers(alloc, first, end)?;
    let program = compile_script(alloc, &script)?;
    answer.number(program.numbers().len() as u64);
    if let Some(last) = program.numbers().last() {
        answer.number(*last);
    }
    Ok(())
}

// The script with all numbers from one up to another.
fn with_numbers(alloc: Global, first: u64, end: u64) -> Result<Vec<u8>, AllocError> {
    let mut script = Vec::from_slice(alloc, b"if anyof (false")?;
    for number in first..end {
        add_size(&mut script, number)?;
    }
    script.extend_from_slice(b") {stop;}")?;
    Ok(script)
}

fn add_size(script: &mut Vec<u8>, number: u64) -> Result<(), AllocError> {
    script.extend_from_slice(b",size :over ")?;
    script.extend_from_slice(Buffer::new().format(number).as_bytes())
}
