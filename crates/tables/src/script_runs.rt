// What scripts do, by three ways: by their evaluation, by the octets of their programs, and by their meaning.
use crate::actions::{put_action, put_actions, put_charge};
use crate::printed::Printed;
use bytecode_format::Action;
use bytecode_verifier::verify;
use mime_decode::{MAX_MESSAGE, MAX_PARTS, Message};
use refusals::Refusal;
use sieve_check::Checked;
use sieve_engine::{Report, check_script, compile_script, evaluate, execute};
use sieve_lexer::number_of;
use sieve_meaning::plain_eval;
use std::alloc::Global;

/// Adds the actions of a script on a message.
pub fn put_run(
    alloc: Global,
    script: &[u8],
    message: &[u8],
    answer: &mut Printed,
) -> Result<(), Refusal> {
    let report = agreed(alloc, script, message, answer)?;
    put_actions(&report.outcome.actions, answer);
    Ok(())
}

/// Adds the actions of a script on a message, what they charge, and what they may charge at most.
pub fn put_report(
    alloc: Global,
    script: &[u8],
    message: &[u8],
    answer: &mut Printed,
) -> Result<(), Refusal> {
    let report = agreed(alloc, script, message, answer)?;
    put_actions(&report.outcome.actions, answer);
    put_charge(&report, answer);
    Ok(())
}

/// Adds how many actions there are, the last two, and what they charge.
pub fn put_last(
    alloc: Global,
    script: &[u8],
    message: &[u8],
    answer: &mut Printed,
) -> Result<(), Refusal> {
    let report = agreed(alloc, script, message, answer)?;
    answer.number(report.outcome.actions.len() as u64);
    put_last_two(&report.outcome.actions, answer);
    put_charge(&report, answer);
    Ok(())
}

fn put_last_two(actions: &[Action], answer: &mut Printed) {
    if let [.., before, last] = actions {
        put_action(before, answer);
        put_action(last, answer);
    }
}

// What the script's evaluation comes to. Where its program's run or its meaning differs, that is added before.
fn agreed(
    alloc: Global,
    script: &[u8],
    message: &[u8],
    answer: &mut Printed,
) -> Result<Report, Refusal> {
    let report = evaluate(alloc, script, message)?;
    put_unlike(alloc, script, message, &report, answer)?;
    Ok(report)
}

// Adds what the script's program does, and what the script means, where it isn't this.
fn put_unlike(
    alloc: Global,
    script: &[u8],
    message: &[u8],
    report: &Report,
    answer: &mut Printed,
) -> Result<(), Refusal> {
    put_unlike_run(alloc, script, message, report, answer)?;
    put_unlike_meaning(alloc, script, message, &report.outcome.actions, answer)?;
    if report.outcome.charged > report.limit {
        answer.word("above its limit");
    }
    Ok(())
}

// Adds what the script's program does, where it isn't this.
fn put_unlike_run(
    alloc: Global,
    script: &[u8],
    message: &[u8],
    report: &Report,
    answer: &mut Printed,
) -> Result<(), Refusal> {
    let run = run_of(alloc, script, message)?;
    if !are_same(&run, report) {
        put_other_run(&run, answer);
    }
    Ok(())
}

// What the script's program does, as it is read from its octets.
fn run_of(alloc: Global, script: &[u8], message: &[u8]) -> Result<Report, Refusal> {
    let program = compile_script(alloc, script)?.write(alloc)?;
    execute(alloc, &program, message)
}

/// Whether two runs came to the same.
pub fn are_same(one: &Report, other: &Report) -> bool {
    one.outcome.charged == other.outcome.charged
        && one.limit == other.limit
        && one.outcome.actions == other.outcome.actions
}

fn put_other_run(run: &Report, answer: &mut Printed) {
    answer.word("by its program");
    put_actions(&run.outcome.actions, answer);
    put_charge(run, answer);
    answer.word("else");
}

// Adds the actions that the script means, where they aren't these.
fn put_unlike_meaning(
    alloc: Global,
    script: &[u8],
    message: &[u8],
    actions: &[Action],
    answer: &mut Printed,
) -> Result<(), Refusal> {
    let meant = meant_by(alloc, script, message)?;
    if meant.as_slice() != actions {
        put_other_meaning(&meant, answer);
    }
    Ok(())
}

// The actions that a script means on a message.
fn meant_by(alloc: Global, script: &[u8], message: &[u8]) -> Result<Vec<Action>, Refusal> {
    let checked = check_script(alloc, script)?;
    meaning_of(alloc, &checked, message)
}

/// The actions that a checked script means on a message.
pub fn meaning_of(
    alloc: Global,
    checked: &Checked,
    message: &[u8],
) -> Result<Vec<Action>, Refusal> {
    let message = Message::read(alloc, message)?;
    Ok(plain_eval(alloc, checked, &message)?)
}

fn put_other_meaning(meant: &[Action], answer: &mut Printed) {
    answer.word("by its meaning");
    put_actions(meant, answer);
    answer.word("else");
}

/// Adds what the script's program may charge at most, on a message of so many octets and parts.
pub fn put_budget(
    alloc: Global,
    script: &[u8],
    octets: &[u8],
    parts: &[u8],
    answer: &mut Printed,
) -> Result<(), Refusal> {
    match verify(alloc, compile_script(alloc, script)?) {
        Ok(verified) => {
            let octets = number_of(octets).unwrap_or(0).min(MAX_MESSAGE as u64);
            let parts = number_of(parts).unwrap_or(0).min(MAX_PARTS as u64);
            answer.large_number(verified.budget().at(octets, parts));
            Ok(())
        }
        Err((_program, refusal)) => Err(Refusal::from(refusal)),
    }
}
