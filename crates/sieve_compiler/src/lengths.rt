// The number of instructions in the code of strings and tests.
//
// Measuring goes down the whole piece. A test is measured once for each list of tests around it, and these are nested
// at most 32 deep in a script, so the time stays linear in the script's length.
ghost use Rattle.std.specs.Prelude.{◌≡◌, ◌<◌, ◌^◌, map, if◌then◌else◌};
ghost use Rattle.sieve_check.specs.TypedView.{templates_of, strings_form, test_form, tests_of, command_form};
ghost use Rattle.sieve_check.specs.Private.{branch_forms, else_form};
ghost use Rattle.sieve_check.specs.Typed.{in_order};
ghost use Rattle.sieve_compiler.specs.Lengths.{string_length, strings_length, test_length, tests_length, leave_length};
ghost use Rattle.sieve_compiler.specs.Aiming.{first_leave_length, leaves_length};

use sieve_check::{Branch, Command, Segment, Strings, Test};

/// How many instructions a string has.
pub fn string_length(string: &[Segment]) -> u32
    requires { string_length string.now < 2 ^ 32 }
    ensures { result ≡ string_length string.now }
{
    match string {
        [] | [_] => 1,
        _ => string.len() as u32 + 1,
    }
}

/// How many instructions strings have together.
pub fn strings_length(strings: &[Vec<Segment>]) -> u32
    requires { strings_length (templates_of strings.now) < 2 ^ 32 }
    ensures { result ≡ strings_length (templates_of strings.now) }
{
    let mut total = 0;
    for string in strings {
        total += string_length(string);
    }
    total
}

// How many instructions the strings of a question have together.
fn lists_length(strings: &Strings) -> u32
    requires { strings_length (in_order (strings_form strings.now)) < 2 ^ 32 }
    ensures { result ≡ strings_length (in_order (strings_form strings.now)) }
{
    strings_length(&strings.names) + strings_length(&strings.params) + strings_length(&strings.keys)
}

/// How many instructions a test has.
#[cycle(test_lengths)]
pub fn test_length(test: &Test) -> u32
    requires { test_length (test_form test.now) < 2 ^ 32 }
    ensures { result ≡ test_length (test_form test.now) }
{
    match test {
        Test::Asks { strings, .. } => lists_length(strings) + 2,
        Test::Not { test, .. } => test_length(test),
        Test::AllOf { first, others, .. } | Test::AnyOf { first, others, .. } => {
            test_length(first) + tests_length(others)
        }
    }
}

/// How many instructions the tests of a list have together.
#[cycle(test_lengths)]
pub fn tests_length(tests: &[Test]) -> u32
    requires { tests_length (tests_of (map test_form tests.now)) < 2 ^ 32 }
    ensures { result ≡ tests_length (tests_of (map test_form tests.now)) }
{
    let mut total = 0;
    'tests: for test in tests {
        total += test_length(test);
    }
    total
}

/// Whether branches, or the block of an `else`, are left: then a jump follows the block before them.
pub fn is_left(branches: &[Branch], otherwise: &Option<Vec<Command>>) -> bool
    ensures { leave_length (branch_forms branches.now (else_form otherwise.now))
        ≡ (if result then 1 else 0) }
{
    !branches.is_empty() || otherwise.is_some()
}

// Whether the first of the blocks is left by a jump.
fn is_first_left(branches: &[Branch], otherwise: &Option<Vec<Command>>) -> bool
    ensures { first_leave_length (branch_forms branches.now (else_form otherwise.now))
        ≡ (if result then 1 else 0) }
{
    match branches {
        [] => false,
        [_, after @ ..] => is_left(after, otherwise),
    }
}

/// Whether blocks of the command are left by jumps to its end: then its first block is.
pub fn has_leaves(command: &Command) -> bool
    ensures { leaves_length (command_form command.now) ≡ (if result then 1 else 0) }
{
    match command {
        Command::If(branches, otherwise) => is_first_left(branches, otherwise),
        Command::Does { .. } | Command::ForEveryPart { .. } => false,
    }
}
