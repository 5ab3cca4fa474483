// The syntax trees of scripts.
use crate::printed::Printed;
use octets::Octets;
use refusals::Refusal;
use sieve_parser::{Argument, Command, Head, Invocation, parse};
use std::alloc::Global;

/// Adds the commands of a script.
pub fn put_tree(alloc: Global, script: &[u8], answer: &mut Printed) -> Result<(), Refusal> {
    let script = parse(alloc, script)?;
    put_commands(script.commands(), answer);
    Ok(())
}

#[cycle(commands)]
fn put_commands(commands: &[Command], answer: &mut Printed) {
    for command in commands {
        put_command(command, answer);
    }
}

#[cycle(commands)]
fn put_command(command: &Command, answer: &mut Printed) {
    match command {
        Command::Simple(invocation) => {
            put_invocation(invocation, answer);
            answer.word(";");
        }
        Command::Block(invocation, block) => {
            put_invocation(invocation, answer);
            answer.word("{");
            put_commands(block, answer);
            answer.word("}");
        }
    }
}

#[cycle(invocations)]
fn put_invocation(invocation: &Invocation, answer: &mut Printed) {
    match invocation {
        Invocation::Plain(head) => put_head(head, answer),
        Invocation::WithTest(head, test) => {
            put_head(head, answer);
            put_invocation(test, answer);
        }
        Invocation::WithTests(head, first, others) => {
            put_head(head, answer);
            answer.word("(");
            put_invocation(first, answer);
            put_others(others, answer);
            answer.word(")");
        }
    }
}

#[cycle(invocations)]
fn put_others(tests: &[Invocation], answer: &mut Printed) {
    for test in tests {
        answer.word(",");
        put_invocation(test, answer);
    }
}

// Adds the number of an identifier's token, the identifier and the arguments.
fn put_head(head: &Head, answer: &mut Printed) {
    answer.number(head.token as u64);
    answer.octets(head.name.as_slice());
    for argument in &head.arguments {
        put_argument(argument, answer);
    }
}

fn put_argument(argument: &Argument, answer: &mut Printed) {
    match argument {
        Argument::Text(text) => answer.text(text.as_slice()),
        Argument::TextList(first, others) => put_list(first, others, answer),
        Argument::Number(number) => answer.number(*number),
        Argument::Tag(name) => {
            answer.word(":");
            answer.glue(name.as_slice());
        }
    }
}

fn put_list(first: &Octets, others: &[Octets], answer: &mut Printed) {
    answer.word("[");
    answer.text(first.as_slice());
    for other in others {
        answer.text(other.as_slice());
    }
    answer.word("]");
}
