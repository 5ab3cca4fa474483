// The questions of simple tests: made of their names and tags, and their properties.
ghost use Rattle.std.specs.Prelude.{◌≡◌, map};
ghost use Rattle.sieve_parser.specs.View.{argument_tree};
ghost use Rattle.sieve_check.specs.FormOf.{number_in, question_of};
ghost use Rattle.sieve_check.specs.Questions.{compared_by, match_of, named_by, scope_of};
ghost use Rattle.sieve_check.specs.Reading.{read_of};

use crate::signature::{Reading, Tags};
use crate::table::TestName;
use bytecode_format::{FieldTest, Question, Scope};
use glob_match::{Comparator, Match, MatchType};
use sieve_parser::Argument;

// How values and keys are matched.
fn match_of(tags: Tags) -> Match
    ensures { result ≡ match_of tags }
{
    Match {
        kind: tags.kind.unwrap_or(MatchType::Is),
        comparator: tags.comparator.unwrap_or(Comparator::Casemap),
    }
}

// Which parts' headers a test looks at.
fn scope_of(tags: Tags) -> Scope
    ensures { result ≡ scope_of tags }
{
    if !tags.mime {
        Scope::Message
    } else if tags.any_child {
        Scope::PartAndBelow
    } else {
        Scope::Part
    }
}

// The one number in the arguments.
fn number_in(arguments: &[Argument]) -> Option<u64>
    ensures { result ≡ number_in (map argument_tree arguments.now) }
{
    match arguments {
        [Argument::Number(number)] => Some(*number),
        _ => None,
    }
}

/// The question of a simple test with this name, from what was read.
pub fn question_of(name: TestName, reading: &Reading<'_>) -> Option<Question>
    ensures { result ≡ question_of name (read_of reading.now) }
{
    let tags = reading.tags;
    Some(match name {
        TestName::Constant(value) => Question::Constant(value),
        TestName::Header => Question::Header(FieldTest {
            how: match_of(tags),
            scope: scope_of(tags),
            selector: tags.selector,
        }),
        TestName::Exists => Question::Exists(scope_of(tags)),
        TestName::Size => Question::Size(tags.order?, number_in(reading.positional)?),
        TestName::String => Question::String(match_of(tags)),
        TestName::PartSize => Question::PartSize(tags.order?, number_in(reading.positional)?),
        TestName::PartBody => Question::PartBody(match_of(tags)),
        TestName::PartDigest => Question::PartDigest,
        TestName::Not | TestName::AllOf | TestName::AnyOf => return None,
    })
}

/// Returns the name of the test that asks the question.
pub fn name_of(question: Question) -> TestName
    ensures { result ≡ named_by question }
{
    match question {
        Question::Constant(value) => TestName::Constant(value),
        Question::Header(_) => TestName::Header,
        Question::Exists(_) => TestName::Exists,
        Question::Size(_, _) => TestName::Size,
        Question::String(_) => TestName::String,
        Question::PartSize(_, _) => TestName::PartSize,
        Question::PartBody(_) => TestName::PartBody,
        Question::PartDigest => TestName::PartDigest,
    }
}

/// Returns how values are compared with the question's keys; `None` if it takes no keys.
pub fn comparison_of(question: Question) -> Option<MatchType>
    ensures { result ≡ compared_by question }
{
    match question {
        Question::Header(test) => Some(test.how.kind),
        Question::String(how) | Question::PartBody(how) => Some(how.kind),
        Question::PartDigest => Some(MatchType::Is),
        Question::Constant(_)
        | Question::Exists(_)
        | Question::Size(_, _)
        | Question::PartSize(_, _) => None,
    }
}
