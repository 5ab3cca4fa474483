// Scripts: their tokens, their trees, their typed forms, what is wrong with them, and what they do.
use crate::printed::Printed;
use crate::refused::unless_refused;
use crate::script_forms::put_form;
use crate::script_runs::{put_budget, put_last, put_report, put_run};
use crate::script_series::{put_keys, put_levels, put_numbers};
use crate::script_tokens::{put_number, put_string, put_tokens};
use crate::script_trees::put_tree;
use refusals::Refusal;
use sieve_engine::{check_script, compile_script};
use sieve_parser::parse;
use std::alloc::Global;

/// Adds the answer to a call; false where there is no such call.
pub fn answer(alloc: Global, call: &str, arguments: &[Vec<u8>], answer: &mut Printed) -> bool {
    match (call, arguments) {
        ("levels", tests) => unless_refused(put_levels(alloc, tests, answer), answer),
        ("numbers", [first, end]) => {
            unless_refused(put_numbers(alloc, first, end, answer), answer)
        }
        ("keys", [tests, keys, message]) => {
            unless_refused(put_keys(alloc, tests, keys, message, answer), answer)
        }
        ("budget", [script, octets, parts]) => {
            unless_refused(put_budget(alloc, script, octets, parts, answer), answer)
        }
        ("number", [text]) => put_number(text, answer),
        (_, [script, message]) => return answer_on(alloc, call, script, message, answer),
        (_, [script]) => return answer_of(alloc, call, script, answer),
        _ => return false,
    }
    true
}

// Adds the answer to a call on a script and a message.
fn answer_on(
    alloc: Global,
    call: &str,
    script: &[u8],
    message: &[u8],
    answer: &mut Printed,
) -> bool {
    let outcome = match call {
        "run" => put_run(alloc, script, message, answer),
        "report" => put_report(alloc, script, message, answer),
        "last" => put_last(alloc, script, message, answer),
        _ => return false,
    };
    unless_refused(outcome, answer);
    true
}

// Adds the answer to a call on a script.
fn answer_of(alloc: Global, call: &str, script: &[u8], answer: &mut Printed) -> bool {
    let outcome = match call {
        "string" => put_string(alloc, script, answer),
        "tokens" => put_tokens(alloc, script, answer),
        "tree" => put_tree(alloc, script, answer),
        "parse" => put_parsed(alloc, script, answer),
        "check" => put_checked(alloc, script, answer),
        "form" => put_form(alloc, script, answer),
        "length" => put_length(alloc, script, answer),
        "instructions" => put_instructions(alloc, script, answer),
        _ => return false,
    };
    unless_refused(outcome, answer);
    true
}

// Whether a script is parsed.
fn put_parsed(alloc: Global, script: &[u8], answer: &mut Printed) -> Result<(), Refusal> {
    let _script = parse(alloc, script)?;
    answer.word("ok");
    Ok(())
}

// Whether nothing is wrong with a script.
fn put_checked(alloc: Global, script: &[u8], answer: &mut Printed) -> Result<(), Refusal> {
    let _checked = check_script(alloc, script)?;
    answer.word("ok");
    Ok(())
}

// How many octets the script's program has.
fn put_length(alloc: Global, script: &[u8], answer: &mut Printed) -> Result<(), Refusal> {
    let program = compile_script(alloc, script)?.write(alloc)?;
    answer.number(program.len() as u64);
    Ok(())
}

// How many instructions the script's program has.
fn put_instructions(alloc: Global, script: &[u8], answer: &mut Printed) -> Result<(), Refusal> {
    let program = compile_script(alloc, script)?;
    answer.number(program.instructions().len() as u64);
    Ok(())
}
