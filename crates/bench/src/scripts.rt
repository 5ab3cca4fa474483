// Scripts, up to their code.
use crate::checksum::{REFUSED, told};
use sieve_check::check;
use sieve_compiler::compile;
use sieve_lexer::tokens;
use sieve_parser::parse;
use std::alloc::Global;

/// How many tokens a script has; 0 if it isn't made of tokens.
#[unsafe(no_mangle)]
pub extern "C" fn bench_tokens(alloc: Global, script: &[u8], rounds: u32) -> u64 {
    let mut sum: u64 = 0;
    for _ in 0..rounds.max(1) {
        if let Ok(found) = tokens(alloc, script) {
            sum = sum.wrapping_add(found.len() as u64);
        }
    }
    sum
}

/// How often a script has no fault.
#[unsafe(no_mangle)]
pub extern "C" fn bench_check(alloc: Global, script: &[u8], rounds: u32) -> u64 {
    let mut sum: u64 = 0;
    for _ in 0..rounds.max(1) {
        if let Ok(parsed) = parse(alloc, script)
            && check(alloc, parsed).is_ok()
        {
            sum = sum.wrapping_add(1);
        }
    }
    sum
}

/// The code of a script as bytes: it is checked, compiled and written in each round.
#[unsafe(no_mangle)]
pub extern "C" fn bench_compile(alloc: Global, script: &[u8], rounds: u32) -> u64 {
    compiled(alloc, script, rounds).unwrap_or(REFUSED)
}

fn compiled(alloc: Global, script: &[u8], rounds: u32) -> Option<u64> {
    let mut sum: u64 = 0;
    for _ in 0..rounds.max(1) {
        let checked = check(alloc, parse(alloc, script).ok()?).ok()?;
        let program = compile(alloc, &checked).ok()?;
        let octets = program.write(alloc).ok()?;
        sum = sum.wrapping_add(told(&octets, rounds));
    }
    Some(sum)
}
