// What is answered of programs of the bytecode: see the head of data/programs.table.
use crate::actions::{put_actions, put_charge};
use crate::listing::{listing_of, program};
use crate::numbers::number_of;
use crate::printed::Printed;
use crate::refused::put_refusal;
use bytecode_format::{Action, Instruction, Operation, Program, final_actions};
use bytecode_verifier::{Verified, verify};
use itoa::Buffer;
use mime_decode::{MAX_MESSAGE, MAX_PARTS, Message};
use octets::Octets;
use refusals::Refusal;
use sieve_engine::{Report, execute};
use sieve_vm::run;
use std::alloc::{AllocError, Global};

/// Answers a call about programs; false where there is no such call.
pub fn answer(alloc: Global, call: &str, arguments: &[Vec<u8>], answer: &mut Printed) -> bool {
    match known(alloc, call, arguments, answer) {
        Ok(known) => known,
        Err(refusal) => {
            put_refusal(&refusal, answer);
            true
        }
    }
}

fn known(
    alloc: Global,
    call: &str,
    arguments: &[Vec<u8>],
    answer: &mut Printed,
) -> Result<bool, Refusal> {
    match arguments {
        [code, strings @ ..] if call == "verify" => put_budget(alloc, code, strings, answer),
        [octets, parts, code, strings @ ..] if call == "limit" => {
            put_limit(alloc, octets, parts, code, strings, answer)
        }
        [message, code, strings @ ..] if call == "actions" => {
            put_actions_of(alloc, message, code, strings, answer)
        }
        [message, code, strings @ ..] if call == "run" => {
            put_run(alloc, message, code, strings, answer)
        }
        [modifiers, texts @ ..] if call == "modify" => {
            put_modified(alloc, modifiers, texts, answer)
        }
        _ => known_of_octets(alloc, call, arguments, answer),
    }
}

// The calls about programs as octets, and about actions and numbers.
fn known_of_octets(
    alloc: Global,
    call: &str,
    arguments: &[Vec<u8>],
    answer: &mut Printed,
) -> Result<bool, Refusal> {
    match arguments {
        [code, strings @ ..] if call == "spell" => put_spelled(alloc, code, strings, answer),
        [version, variables, halts] if call == "build" => {
            put_built(alloc, version, variables, halts, answer)
        }
        [octets] if call == "read" => put_listing(alloc, octets, answer),
        [octets] if call == "beginnings" => {
            put_beginnings(alloc, octets, answer);
            Ok(true)
        }
        [octets, message] if call == "execute" => put_execution(alloc, octets, message, answer),
        [implicit_keep, actions @ ..] if call == "final" => {
            put_final(alloc, implicit_keep, actions, answer)
        }
        [] if call == "modifiers" => put_modifiers(alloc, answer),
        _ => Ok(false),
    }
}

// The program, if it is accepted.
fn accepted(alloc: Global, program: Program) -> Result<Verified, Refusal> {
    match verify(alloc, program) {
        Ok(verified) => Ok(verified),
        Err((_program, refusal)) => Err(Refusal::from(refusal)),
    }
}

// The program as it is read from its own octets.
fn reread(alloc: Global, program: &Program) -> Result<Program, Refusal> {
    Ok(Program::read(alloc, &program.write(alloc)?)?)
}

// The text of the program's budget, if it is accepted.
fn budget_of(alloc: Global, program: Program) -> Result<String, Refusal> {
    Ok(accepted(alloc, program)?.budget().to_string(alloc)?)
}

// Adds a program's budget; and before it a word, where the verifier says something else of the program as it is
// read from its octets.
fn put_budget(
    alloc: Global,
    code: &[u8],
    strings: &[Vec<u8>],
    answer: &mut Printed,
) -> Result<bool, Refusal> {
    let program = program(alloc, code, strings)?;
    let read = reread(alloc, &program)?;
    put_budgets(&budget_of(alloc, program), &budget_of(alloc, read), answer);
    Ok(true)
}

// Adds a budget, and before it a word where the other isn't the same.
fn put_budgets(
    built: &Result<String, Refusal>,
    read: &Result<String, Refusal>,
    answer: &mut Printed,
) {
    if !are_equal(built, read) {
        answer.word("else as it is read");
    }
    match built {
        Ok(budget) => answer.word(budget.as_str()),
        Err(refusal) => put_refusal(refusal, answer),
    }
}

fn are_equal(one: &Result<String, Refusal>, other: &Result<String, Refusal>) -> bool {
    match (one, other) {
        (Ok(one), Ok(other)) => one == other,
        (Err(one), Err(other)) => one == other,
        _ => false,
    }
}

fn put_limit(
    alloc: Global,
    octets: &[u8],
    parts: &[u8],
    code: &[u8],
    strings: &[Vec<u8>],
    answer: &mut Printed,
) -> Result<bool, Refusal> {
    let (Some(octets), Some(parts)) = (number_of(octets), number_of(parts)) else {
        return Ok(false);
    };
    if octets > MAX_MESSAGE || parts > MAX_PARTS {
        return Ok(false);
    }
    let verified = accepted(alloc, program(alloc, code, strings)?)?;
    answer.large_number(verified.budget().at(octets as u64, parts as u64));
    Ok(true)
}

// What a program as it is built does on a message.
fn report(alloc: Global, program: Program, message: &[u8]) -> Result<Report, Refusal> {
    let verified = accepted(alloc, program)?;
    let message = Message::read(alloc, message)?;
    report_on(alloc, &verified, &message)
}

fn report_on(alloc: Global, verified: &Verified, message: &Message<'_>) -> Result<Report, Refusal> {
    let limit = verified
        .budget()
        .at(message.size() as u64, message.parts() as u64);
    let outcome = run(alloc, verified, message)?;
    Ok(Report { outcome, limit })
}

fn put_actions_of(
    alloc: Global,
    message: &[u8],
    code: &[u8],
    strings: &[Vec<u8>],
    answer: &mut Printed,
) -> Result<bool, Refusal> {
    let report = report(alloc, program(alloc, code, strings)?, message)?;
    if report.outcome.charged > report.limit {
        answer.word("above");
    }
    put_actions(&report.outcome.actions, answer);
    Ok(true)
}

// Whether the two came to the same.
fn are_same(one: &Result<Report, Refusal>, other: &Result<Report, Refusal>) -> bool {
    match (one, other) {
        (Ok(one), Ok(other)) => {
            one.outcome.actions == other.outcome.actions
                && one.outcome.charged == other.outcome.charged
                && one.limit == other.limit
        }
        (Err(one), Err(other)) => one == other,
        _ => false,
    }
}

// Adds what a program does, as it is read from its octets; and before it a word, where it does something else as
// it is built.
fn put_run(
    alloc: Global,
    message: &[u8],
    code: &[u8],
    strings: &[Vec<u8>],
    answer: &mut Printed,
) -> Result<bool, Refusal> {
    let program = program(alloc, code, strings)?;
    let octets = program.write(alloc)?;
    let built = report(alloc, program, message);
    put_either(&built, &execute(alloc, &octets, message), answer);
    Ok(true)
}

// Adds what a run came to as the program is read, and before it a word where it isn't what it came to as it is built.
fn put_either(
    built: &Result<Report, Refusal>,
    read: &Result<Report, Refusal>,
    answer: &mut Printed,
) {
    if !are_same(built, read) {
        answer.word("else as it is built");
    }
    match read {
        Ok(report) => put_report(report, answer),
        Err(refusal) => put_refusal(refusal, answer),
    }
}

fn put_execution(
    alloc: Global,
    program: &[u8],
    message: &[u8],
    answer: &mut Printed,
) -> Result<bool, Refusal> {
    let report = execute(alloc, program, message)?;
    put_report(&report, answer);
    Ok(true)
}

fn put_report(report: &Report, answer: &mut Printed) {
    put_actions(&report.outcome.actions, answer);
    put_charge(report, answer);
}

fn put_spelled(
    alloc: Global,
    code: &[u8],
    strings: &[Vec<u8>],
    answer: &mut Printed,
) -> Result<bool, Refusal> {
    let octets = program(alloc, code, strings)?.write(alloc)?;
    answer.text(&octets);
    Ok(true)
}

// The octets of a program that is nothing but HALT, so many times.
fn put_built(
    alloc: Global,
    version: &[u8],
    variables: &[u8],
    halts: &[u8],
    answer: &mut Printed,
) -> Result<bool, Refusal> {
    let (Some(version), Some(variables), Some(halts)) = (
        octet_of(version),
        short_of(variables),
        number_of(halts),
    ) else {
        return Ok(false);
    };
    let octets = built(alloc, version, variables, halts)?;
    answer.text(&octets);
    Ok(true)
}

fn built(alloc: Global, version: u8, variables: u16, halts: usize) -> Result<Vec<u8>, Refusal> {
    let halt = Instruction {
        op: Operation::Halt.octet(),
        a: 0,
        b: 0,
        c: 0,
    };
    let instructions = vec![in alloc; halt; halts]?;
    let program = Program::build(
        version,
        variables,
        Vec::new(alloc),
        Vec::new(alloc),
        instructions,
    )?;
    Ok(program.write(alloc)?)
}

// The number of 8 bits that digits are.
fn octet_of(digits: &[u8]) -> Option<u8> {
    u8::try_from(number_of(digits)?).ok()
}

// The number of 16 bits that digits are.
fn short_of(digits: &[u8]) -> Option<u16> {
    u16::try_from(number_of(digits)?).ok()
}

fn put_listing(alloc: Global, octets: &[u8], answer: &mut Printed) -> Result<bool, Refusal> {
    let program = Program::read(alloc, octets)?;
    let listing = listing_of(alloc, &program)?;
    answer.text(&listing);
    for string in program.strings() {
        answer.text(string.as_slice());
    }
    Ok(true)
}

fn put_beginnings(alloc: Global, octets: &[u8], answer: &mut Printed) {
    for end in 0..octets.len() + 1 {
        if Program::read(alloc, &octets[..end]).is_ok() {
            answer.number(end as u64);
        }
    }
}

// The actions that words name as the command line prints them.
fn actions_of(alloc: Global, words: &[Vec<u8>]) -> Result<Option<Vec<Action>>, AllocError> {
    let mut actions = Vec::new(alloc);
    let mut rest = words;
    for _ in 0..words.len() {
        if rest.is_empty() {
            break;
        }
        let Some(after) = add_action(&mut actions, rest)? else {
            return Ok(None);
        };
        rest = after;
    }
    Ok(Some(actions))
}

// Adds the action that the first words name, and gives the words after them; nothing where they name none.
fn add_action<'a>(
    actions: &mut Vec<Action>,
    words: &'a [Vec<u8>],
) -> Result<Option<&'a [Vec<u8>]>, AllocError> {
    match words {
        [word, after @ ..] if word.as_slice() == b"keep".as_slice() => {
            actions.push(Action::Keep)?;
            Ok(Some(after))
        }
        [word, folder, after @ ..] if word.as_slice() == b"fileinto".as_slice() => {
            actions.push(Action::File(Octets::from_vec(folder.clone()?)))?;
            Ok(Some(after))
        }
        [word, folder, part, after @ ..] if word.as_slice() == b"store".as_slice() => {
            let part = number_of(part).unwrap_or(usize::MAX);
            actions.push(Action::Store(Octets::from_vec(folder.clone()?), part))?;
            Ok(Some(after))
        }
        _ => Ok(None),
    }
}

fn put_final(
    alloc: Global,
    implicit_keep: &[u8],
    words: &[Vec<u8>],
    answer: &mut Printed,
) -> Result<bool, Refusal> {
    let Some(actions) = actions_of(alloc, words)? else {
        return Ok(false);
    };
    let stands = implicit_keep == b"true".as_slice();
    let actions = final_actions(alloc, actions, stands)?;
    put_actions(&actions, answer);
    Ok(true)
}

// A program that files into its one string, modified.
fn modifying(alloc: Global, modifiers: &[u8], text: Vec<u8>) -> Result<Program, Refusal> {
    let mut code = Vec::from_slice(alloc, b"version 1 variables 1 LIT SET a ")?;
    code.extend_from_slice(modifiers)?;
    code.extend_from_slice(b" VAR FILE HALT")?;
    program(alloc, &code, &vec![in alloc; text]?)
}

fn put_modified(
    alloc: Global,
    modifiers: &[u8],
    texts: &[Vec<u8>],
    answer: &mut Printed,
) -> Result<bool, Refusal> {
    for text in texts {
        put_modified_text(alloc, modifiers, text, answer)?;
    }
    Ok(true)
}

fn put_modified_text(
    alloc: Global,
    modifiers: &[u8],
    text: &[u8],
    answer: &mut Printed,
) -> Result<(), Refusal> {
    let program = modifying(alloc, modifiers, text.to_vec(alloc)?)?;
    let report = report(alloc, program, b"")?;
    match report.outcome.actions.as_slice() {
        [Action::File(folder)] => answer.text(folder.as_slice()),
        actions => put_actions(actions, answer),
    }
    Ok(())
}

// Each octet that is accepted as modifiers; and the refusal where it isn't that of a field.
fn put_modifiers(alloc: Global, answer: &mut Printed) -> Result<bool, Refusal> {
    for modifiers in 0..256u64 {
        put_modifiers_of(alloc, modifiers, answer)?;
    }
    Ok(true)
}

fn put_modifiers_of(alloc: Global, modifiers: u64, answer: &mut Printed) -> Result<(), Refusal> {
    let mut digits = Buffer::new();
    let digits = digits.format(modifiers).as_bytes();
    let program = modifying(alloc, digits, Vec::new(alloc))?;
    match accepted(alloc, program) {
        Ok(_verified) => answer.number(modifiers),
        Err(Refusal::Form { place: 1 }) => {}
        Err(refusal) => put_refusal(&refusal, answer),
    }
    Ok(())
}
