// The typed forms of scripts.
use crate::printed::Printed;
use bytecode_format::{Case, Modifiers, Order, Question, Scope, Selector};
use glob_match::{Comparator, Match, MatchType};
use refusals::Refusal;
use sieve_check::{Act, Branch, Command, Segment, Test};
use sieve_engine::check_script;
use std::alloc::Global;

/// Adds the commands of a script's typed form.
pub fn put_form(alloc: Global, script: &[u8], answer: &mut Printed) -> Result<(), Refusal> {
    let checked = check_script(alloc, script)?;
    put_commands(checked.commands(), answer);
    Ok(())
}

#[cycle(commands)]
fn put_commands(commands: &[Command], answer: &mut Printed) {
    for command in commands {
        put_command(command, answer);
    }
}

#[cycle(commands)]
fn put_command(command: &Command, answer: &mut Printed) {
    match command {
        Command::Does { act, string, .. } => put_act(act, string, answer),
        Command::ForEveryPart { block, .. } => {
            answer.word("foreverypart");
            put_block(block, answer);
        }
        Command::If(branches, otherwise) => {
            put_branches(branches, answer);
            match otherwise {
                Some(block) => {
                    answer.word("else");
                    put_block(block, answer);
                }
                None => {}
            }
        }
    }
}

// Adds an action, with the string of one that takes one.
fn put_act(act: &Act, string: &[Segment], answer: &mut Printed) {
    match act {
        Act::Keep => answer.word("keep"),
        Act::Discard => answer.word("discard"),
        Act::Stop => answer.word("stop"),
        Act::FileInto => {
            answer.word("fileinto");
            put_string(string, answer);
        }
        Act::Store => {
            answer.word("store");
            put_string(string, answer);
        }
        Act::Take { most, name } => {
            answer.word("take");
            answer.number(u64::from(*most));
            answer.text(name.as_slice());
        }
        Act::Leave(loops) => {
            answer.word("break");
            answer.number(u64::from(*loops));
        }
        Act::Set { modifiers, name } => {
            put_modifiers(*modifiers, answer);
            answer.text(name.as_slice());
            put_string(string, answer);
        }
    }
}

#[cycle(commands)]
fn put_branches(branches: &[Branch], answer: &mut Printed) {
    let mut is_first = true;
    for branch in branches {
        answer.word(if is_first { "if" } else { "elsif" });
        is_first = false;
        put_test(&branch.test, answer);
        put_block(&branch.block, answer);
    }
}

#[cycle(commands)]
fn put_block(block: &[Command], answer: &mut Printed) {
    answer.word("{");
    put_commands(block, answer);
    answer.word("}");
}

#[cycle(tests)]
fn put_test(test: &Test, answer: &mut Printed) {
    match test {
        Test::Asks {
            question,
            strings,
            ..
        } => {
            put_question(*question, answer);
            put_taken(&strings.params, answer);
            put_taken(&strings.names, answer);
            put_taken(&strings.keys, answer);
        }
        Test::Not { test, .. } => {
            answer.word("not");
            put_test(test, answer);
        }
        Test::AllOf { first, others, .. } => {
            answer.word("allof (");
            put_test(first, answer);
            put_others(others, answer);
        }
        Test::AnyOf { first, others, .. } => {
            answer.word("anyof (");
            put_test(first, answer);
            put_others(others, answer);
        }
    }
}

// Adds the tests of a list after its first, and the end of the list.
#[cycle(tests)]
fn put_others(tests: &[Test], answer: &mut Printed) {
    for test in tests {
        answer.word(",");
        put_test(test, answer);
    }
    answer.word(")");
}

// Adds what a simple test asks.
fn put_question(question: Question, answer: &mut Printed) {
    match question {
        Question::Constant(true) => answer.word("true"),
        Question::Constant(false) => answer.word("false"),
        Question::Header(test) => {
            answer.word("header");
            put_match(test.how, answer);
            put_scope(test.scope, answer);
            put_selector(test.selector, answer);
        }
        Question::Exists(scope) => {
            answer.word("exists");
            put_scope(scope, answer);
        }
        Question::Size(order, size) => put_size("size", order, size, answer),
        Question::String(matching) => {
            answer.word("string");
            put_match(matching, answer);
        }
        Question::PartSize(order, size) => put_size("partsize", order, size, answer),
        Question::PartBody(matching) => {
            answer.word("partbody");
            put_match(matching, answer);
        }
        Question::PartDigest => answer.word("partdigest"),
    }
}

fn put_size(name: &str, order: Order, size: u64, answer: &mut Printed) {
    answer.word(name);
    answer.word(match order {
        Order::Over => ":over",
        Order::Under => ":under",
    });
    answer.number(size);
}

fn put_match(matching: Match, answer: &mut Printed) {
    answer.word(match matching.kind {
        MatchType::Is => ":is",
        MatchType::Contains => ":contains",
        MatchType::Matches => ":matches",
    });
    answer.word(match matching.comparator {
        Comparator::Octet => "i;octet",
        Comparator::Casemap => "i;ascii-casemap",
    })
}

// Adds nothing for the message's own header.
fn put_scope(scope: Scope, answer: &mut Printed) {
    match scope {
        Scope::Message => {}
        Scope::Part => answer.word(":mime"),
        Scope::PartAndBelow => answer.word(":mime :anychild"),
    }
}

// Adds nothing for a field's value.
fn put_selector(selector: Selector, answer: &mut Printed) {
    match selector {
        Selector::Value => {}
        Selector::Main => answer.word(":type"),
        Selector::Sub => answer.word(":subtype"),
        Selector::ContentType => answer.word(":contenttype"),
        Selector::Param => answer.word(":param"),
    }
}

// Adds a list that is taken: it has a string.
fn put_taken(strings: &[Vec<Segment>], answer: &mut Printed) {
    if strings.is_empty() {
        return;
    }
    put_strings(strings, answer);
}

fn put_strings(strings: &[Vec<Segment>], answer: &mut Printed) {
    answer.word("[");
    for string in strings {
        put_string(string, answer);
    }
    answer.word("]");
}

// Adds a string: its text, or its segments in brackets where there are references.
fn put_string(string: &[Segment], answer: &mut Printed) {
    match string {
        [] => answer.text(b""),
        [Segment::Text(text)] => answer.text(text.as_slice()),
        segments => {
            answer.word("(");
            for segment in segments {
                put_segment(segment, answer);
            }
            answer.word(")");
        }
    }
}

fn put_segment(segment: &Segment, answer: &mut Printed) {
    match segment {
        Segment::Text(text) => answer.text(text.as_slice()),
        Segment::Variable(name) => {
            answer.word("variable");
            answer.text(name.as_slice());
        }
        Segment::Capture(number) => {
            answer.word("capture");
            answer.number(u64::from(*number));
        }
    }
}

fn put_modifiers(modifiers: Modifiers, answer: &mut Printed) {
    answer.word("set");
    match modifiers.letters {
        Some(Case::Lower) => answer.word(":lower"),
        Some(Case::Upper) => answer.word(":upper"),
        None => {}
    }
    match modifiers.first {
        Some(Case::Lower) => answer.word(":lowerfirst"),
        Some(Case::Upper) => answer.word(":upperfirst"),
        None => {}
    }
    if modifiers.quote_wildcard {
        answer.word(":quotewildcard");
    }
    if modifiers.length {
        answer.word(":length");
    }
}
