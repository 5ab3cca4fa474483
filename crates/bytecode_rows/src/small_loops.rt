// Every small program of loops and jumps: accepted or refused, and run, as the plain reader and machine say.
use crate::plain_loops::{END_RULE, HALT, JUMP_RULE, LOOP_RULE, STACK_RULE, fault, run_plainly};
use crate::programs::{MOST, count_of, small, spell, write_by_chance};
use bytecode_format::{Action, Instruction, Program};
use bytecode_verifier::{Refusal, Verified, verify};
use mime_decode::Message;
use sieve_vm::run;
use std::alloc::Global;
use std::test::Fail;

/// Three forwarded messages, each in the one before it, around an empty one.
const CHAIN: &[u8] =
    b"Content-Type: message/rfc822\n\nContent-Type: message/rfc822\n\nContent-Type: message/rfc822\n\n";

/// A multipart in a multipart, whose boundary ends the inner one.
const CROSSING: &[u8] =
    b"Content-Type: multipart/mixed; boundary=o\n\n--o\nContent-Type: multipart/mixed; boundary=i\n\n--i\n\nA\n--o\n\nB\n--o--";

/// Two messages, of whose parts 3, 2, 1 and 0, and 3, 1, 0 and 0, are below each.
#[derive(Clone, Copy)]
struct Messages<'a> {
    chain: &'a Message<'static>,
    crossing: &'a Message<'static>,
}

// The rule that a refusal names.
fn broken(refusal: &Refusal) -> Option<(u8, usize)> {
    match refusal {
        Refusal::End { place } => Some((END_RULE, *place)),
        Refusal::Loop { place } => Some((LOOP_RULE, *place)),
        Refusal::Jump { place } => Some((JUMP_RULE, *place)),
        Refusal::Stack { place } => Some((STACK_RULE, *place)),
        _ => None,
    }
}

// The program of these instructions in a version, where memory suffices.
fn program_of(alloc: Global, version: u8, code: &[Instruction]) -> Option<Program> {
    let code = code.to_vec(alloc).ok()?;
    Program::build(version, 0, Vec::new(alloc), Vec::new(alloc), code).ok()
}

// That program where it is accepted, or the rule that it breaks; none where that is another one, or memory runs out.
fn verdict(
    alloc: Global,
    version: u8,
    code: &[Instruction],
) -> Result<Verified, Option<(u8, usize)>> {
    let Some(program) = program_of(alloc, version, code) else {
        return Err(None);
    };
    match verify(alloc, program) {
        Ok(verified) => Ok(verified),
        Err((_program, refusal)) => Err(broken(&refusal)),
    }
}

// What a run on a message may charge.
fn limit(verified: &Verified, message: &Message<'_>) -> u128 {
    verified
        .budget()
        .at(message.size() as u64, message.parts() as u64)
}

// What a run on a message charges, where it keeps the message, by KEEP or by the implicit keep.
fn charge(alloc: Global, verified: &Verified, message: &Message<'_>) -> Option<u128> {
    let outcome = run(alloc, verified, message).ok()?;
    if matches!(outcome.actions.as_slice(), [Action::Keep]) {
        Some(outcome.charged)
    } else {
        None
    }
}

// An accepted program runs as the plain machine does, within its budget.
fn runs_plainly(
    alloc: Global,
    code: &[Instruction],
    verified: &Verified,
    message: &Message<'_>,
    below: &[usize],
) -> bool {
    match (charge(alloc, verified, message), run_plainly(code, below)) {
        (Some(charged), Some(wanted)) => charged == wanted && wanted <= limit(verified, message),
        _ => false,
    }
}

// So it does on both messages.
fn runs_on_both(
    alloc: Global,
    code: &[Instruction],
    verified: &Verified,
    messages: Messages<'_>,
) -> bool {
    runs_plainly(alloc, code, verified, messages.chain, &[3, 2, 1, 0])
        && runs_plainly(alloc, code, verified, messages.crossing, &[3, 1, 0, 0])
}

// What is accepted in version 1 is so in version 2, and does the same there, within a budget that is no larger.
fn goes_on(
    alloc: Global,
    code: &[Instruction],
    verified: &Verified,
    messages: Messages<'_>,
) -> bool {
    match verdict(alloc, 2, code) {
        Ok(latest) => {
            limit(&latest, messages.chain) <= limit(verified, messages.chain)
                && limit(&latest, messages.crossing) <= limit(verified, messages.crossing)
                && runs_on_both(alloc, code, &latest, messages)
        }
        Err(_) => false,
    }
}

// What an accepted program does otherwise than the plain reader and machine say, in both versions.
fn difference(
    alloc: Global,
    code: &[Instruction],
    verified: &Verified,
    messages: Messages<'_>,
) -> Option<&'static str> {
    if fault(code).is_some() {
        Some("another verdict")
    } else if !runs_on_both(alloc, code, verified, messages) {
        Some("another run")
    } else if !goes_on(alloc, code, verified, messages) {
        Some("another run in version 2")
    } else {
        None
    }
}

// Whether the verifier and the machine do with a program what the plain ones do, in both versions; true where it is accepted.
fn agrees(
    alloc: Global,
    code: &[Instruction],
    messages: Messages<'_>,
) -> Result<bool, &'static str> {
    match verdict(alloc, 1, code) {
        Ok(verified) => match difference(alloc, code, &verified, messages) {
            Some(differs) => Err(differs),
            None => Ok(true),
        },
        Err(rule) => {
            if rule.is_some() && rule == fault(code) {
                Ok(false)
            } else {
                Err("another refusal")
            }
        }
    }
}

// How many programs of so many instructions are accepted, of which the first ones are any, and the others HALT.
fn accepted_of_all(
    alloc: Global,
    messages: Messages<'_>,
    length: usize,
    free: usize,
) -> Result<usize, &'static str> {
    let mut code = [small(HALT, 0, 0); MOST];
    let mut accepted = 0usize;
    for number in 0..count_of(length, free) {
        spell(&mut code[..length.min(MOST)], free, number);
        if agrees(alloc, &code[..length.min(MOST)], messages)? {
            accepted = accepted.wrapping_add(1);
        }
    }
    Ok(accepted)
}

// How many of so many programs by chance are, of 6 to 12 instructions.
fn accepted_by_chance(
    alloc: Global,
    messages: Messages<'_>,
    programs: usize,
) -> Result<usize, &'static str> {
    let mut state = 1u64;
    let mut accepted = 0usize;
    for number in 0..programs {
        let mut code = [small(HALT, 0, 0); MOST];
        let length = 6 + number % 7;
        state = write_by_chance(&mut code[..length], number, state);
        if agrees(alloc, &code[..length], messages)? {
            accepted = accepted.wrapping_add(1);
        }
    }
    Ok(accepted)
}

// Programs that are tried: all of so many instructions, of which so many are any, or so many by chance.
#[derive(Clone, Copy)]
enum Tried {
    All(usize, usize),
    ByChance(usize),
}

// How many of the programs that are tried are accepted.
fn accepted_of(alloc: Global, messages: Messages<'_>, tried: Tried) -> Result<usize, &'static str> {
    match tried {
        Tried::All(length, free) => accepted_of_all(alloc, messages, length, free),
        Tried::ByChance(programs) => accepted_by_chance(alloc, messages, programs),
    }
}

// The same, with the other message read for it.
fn accepted_beside(
    alloc: Global,
    chain: &Message<'static>,
    tried: Tried,
) -> Result<usize, &'static str> {
    match Message::read(alloc, CROSSING) {
        Ok(crossing) => {
            let messages = Messages {
                chain,
                crossing: &crossing,
            };
            accepted_of(alloc, messages, tried)
        }
        Err(_) => Err("memory ran out"),
    }
}

// The same, with both messages read for it.
fn accepted(alloc: Global, tried: Tried) -> Result<usize, &'static str> {
    match Message::read(alloc, CHAIN) {
        Ok(chain) => accepted_beside(alloc, &chain, tried),
        Err(_) => Err("memory ran out"),
    }
}

#[test]
fn up_to_four_instructions(rt: HostRuntime) -> Result<(), Fail> {
    for length in 0..5 {
        let number = accepted(rt.alloc(), Tried::All(length, length))?;
        assert!(rt; number > 0 || length == 0);
    }
    Ok(())
}

#[test]
fn five_instructions(rt: HostRuntime) -> Result<(), Fail> {
    assert!(rt; accepted(rt.alloc(), Tried::All(5, 4))? > 0);
    Ok(())
}

#[test]
fn longer_programs(rt: HostRuntime) -> Result<(), Fail> {
    assert!(rt; accepted(rt.alloc(), Tried::ByChance(200_000))? > 1_000);
    Ok(())
}
