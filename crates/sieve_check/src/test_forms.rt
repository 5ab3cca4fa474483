// The typed form of tests.
ghost use Rattle.std.specs.Prelude.{map};
ghost use Rattle.sieve_parser.specs.View.{invocation_tree, more_tests_of};
ghost use Rattle.sieve_check.specs.FormOf.{none, one, bracketed, more_forms_of, test_form_of};
ghost use Rattle.sieve_check.specs.Forming.{Formed, IsTestRead, head_test};
ghost use Rattle.sieve_check.specs.declared.surroundings.Capabilities.{Capabilities};
ghost use Rattle.sieve_check.specs.TypedView.{test_form, tests_of};

use crate::form_error::FormError;
use crate::questions::question_of;
use crate::signature::Reading;
use crate::strings::strings_in;
use crate::surroundings::Capabilities;
use crate::table::{TestName, test_named, test_signature};
use crate::typed::Test;
use sieve_parser::{Head, Invocation};
use std::alloc::Global;

// The test of this head, with its arguments as they were read.
fn test_read(head: &Head) -> Option<(TestName, Reading<'_>)>
    ensures { IsTestRead head.now result }
{
    let name = test_named(head.name.as_slice())?;
    let reading = test_signature(name).read(&head.arguments).ok()?;
    Some((name, reading))
}

// A test without tests after its arguments.
fn plain_test(alloc: Global, required: Capabilities, head: &Head) -> Result<Test, FormError>
    ensures { Formed test_form (head_test required head.now none) result }
{
    let Some((name, reading)) = test_read(head) else {
        return Err(FormError::Malformed);
    };
    let Some(question) = question_of(name, &reading) else {
        return Err(FormError::Malformed);
    };
    let strings = strings_in(alloc, required, question.takes(), &reading)?;
    Ok(Test::Asks {
        question,
        strings,
        at: head.token,
    })
}

// The negation of the test after it.
fn negated(alloc: Global, head: &Head, inner: Test) -> Result<Test, FormError>
    ensures { (required : Capabilities)
        → Formed test_form (head_test required head.now (one (test_form inner))) result }
{
    match test_read(head) {
        Some((TestName::Not, _)) => Ok(Test::Not {
            test: Box::new(alloc, inner)?,
            at: head.token,
        }),
        _ => Err(FormError::Malformed),
    }
}

// The test made of the tests in parentheses after it.
fn combined(alloc: Global, head: &Head, first: Test, others: Vec<Test>) -> Result<Test, FormError>
    ensures { (required : Capabilities)
        → Formed test_form (head_test required head.now
        (bracketed (test_form first) (tests_of (map test_form others.items)))) result }
{
    let first = Box::new(alloc, first)?;
    let at = head.token;
    match test_read(head) {
        Some((TestName::AllOf, _)) => Ok(Test::AllOf { first, others, at }),
        Some((TestName::AnyOf, _)) => Ok(Test::AnyOf { first, others, at }),
        _ => Err(FormError::Malformed),
    }
}

/// A test with the tests after it.
#[cycle(tests)]
pub fn test(
    alloc: Global,
    required: Capabilities,
    invocation: &Invocation,
) -> Result<Test, FormError>
    ensures { Formed test_form
        (test_form_of required (invocation_tree invocation.now)) result }
{
    match invocation {
        Invocation::Plain(head) => plain_test(alloc, required, head),
        Invocation::WithTest(head, inner) => {
            let inner = test(alloc, required, inner)?;
            negated(alloc, head, inner)
        }
        Invocation::WithTests(head, first, others) => {
            // The others come first: after the first test no proof is found that this ends.
            let others = tests(alloc, required, others)?;
            let first = test(alloc, required, first)?;
            combined(alloc, head, first, others)
        }
    }
}

// The tests of a list after its first.
#[cycle(tests)]
fn tests(alloc: Global, required: Capabilities, list: &[Invocation]) -> Result<Vec<Test>, FormError>
    ensures { Formed (λ ts. tests_of (map test_form ts.items))
        (more_forms_of required
        (more_tests_of (map invocation_tree list.now))) result }
{
    let mut tests = Vec::with_capacity(alloc, list.len())?;
    'list: for invocation in list {
        let test = test(alloc, required, invocation)?;
        tests.push(test)?;
    }
    Ok(tests)
}
