// What is said about a command or test that isn't accepted.
ghost use Rattle.std.specs.Prelude.{◌≡◌};
ghost use Rattle.sieve_check.specs.declared.causes.ReasonKind.TheVariants.{MissingArgument};
ghost use Rattle.sieve_check.specs.ReasonView.{reason_view, refused_view};
ghost use Rattle.sieve_explain.specs.Explaining.{argument_blanks, bare_word, fault_blanks, is_argument_fault, label_blanks, lacks_strings, may_lack_label, tokens_behind, word_behind, word_or};
ghost use Rattle.sieve_explain.specs.Reasons.{capability_words, ending_words, extra_words, no_argument_words, no_test_words, other_blanks, place_text, positional_words, reason_blanks, reason_limit, reason_text, reason_words, tag_words, tests_words};
ghost use Rattle.sieve_explain.specs.Private.{blanks_of};

use crate::faults::word_sentence;
use crate::hints::{unknown_capability, unknown_command, unknown_tag, unknown_test};
use crate::marks::{bare_behind, has_unit, label_behind, text_of, tokens_from};
use crate::sentence::{Sentence, plain};
use crate::words::is_any;
use octets::{MAX_STRING, is_word};
use sieve_check::{
    Capability, Ending, Fault, MAX_LOOPS, MAX_NAME, MAX_SEGMENTS, MAX_TEST_STRINGS, MAX_VARIABLES,
    Positional, Reason, ReasonKind, Refused, Tag, Tests, command_named,
};
use sieve_lexer::Token;

// A capability, as a `require` names it.
fn capability_words(capability: Capability) -> &'static str
    ensures { result.now ≡ capability_words capability }
{
    match capability {
        Capability::FileInto => "fileinto",
        Capability::Variables => "variables",
        Capability::Mime => "mime",
        Capability::ForEveryPart => "foreverypart",
        Capability::Depot => "vnd.depot",
        Capability::OctetComparator => "comparator-i;octet",
        Capability::CasemapComparator => "comparator-i;ascii-casemap",
    }
}

// What comes after the tags.
fn positional_words(taken: Positional) -> &'static str
    ensures { result.now ≡ positional_words taken }
{
    match taken {
        Positional::Nothing => "none",
        Positional::Number => "one number",
        Positional::Text => "one string without brackets",
        Positional::TwoTexts => "two strings, each without brackets",
        Positional::OneList => "one string or list of strings",
        Positional::TwoLists => "two, each a string or a list of strings",
    }
}

// The same for a command or test with too many arguments, by its name: some can be before its test.
fn extra_words(taken: Positional, name: &[u8]) -> &'static str
    ensures { result.now ≡ extra_words taken name.now }
{
    match taken {
        Positional::Nothing => no_argument_words(name),
        _ => positional_words(taken),
    }
}

// The words for a command or test that takes no argument.
#[tactic(auto, unfolding(crate::specs::Reasons::no_argument_words))]
fn no_argument_words(name: &[u8]) -> &'static str
    ensures { result.now ≡ no_argument_words name.now }
{
    if is_any(name, &["if", "elsif", "not"]) {
        "none before its test"
    } else if is_any(name, &["allof", "anyof"]) {
        "none before its tests"
    } else {
        "none"
    }
}

// The words for a command or test that takes no test, by its name: what can be missing before the test.
#[tactic(auto, unfolding(crate::specs::Reasons::no_test_words))]
fn no_test_words(name: &[u8]) -> &'static str
    ensures { result.now ≡ no_test_words name.now }
{
    if is_word(name, b"else") {
        "takes no test: did you mean `elsif`, or is its opening brace missing?"
    } else if is_word(name, b"foreverypart") {
        "takes no test: is its opening brace missing?"
    } else if command_named(name).is_some() {
        "takes no test: is a semicolon missing at its end?"
    } else {
        "takes no test: is a comma or a brace missing after it, or `allof` or `anyof` before it?"
    }
}

// The tests that come after the arguments.
fn tests_words(taken: Tests, name: &[u8]) -> &'static str
    ensures { result.now ≡ tests_words taken name.now }
{
    match taken {
        Tests::Nothing => no_test_words(name),
        Tests::One => "needs one test after it, without brackets around it",
        Tests::Bracketed => "takes tests in round brackets, with commas between them",
    }
}

// How a command ends.
fn ending_words(ending: Ending) -> &'static str
    ensures { result.now ≡ ending_words ending }
{
    match ending {
        Ending::Semicolon => "has to end with a semicolon",
        Ending::Block => "needs a block in braces",
    }
}

// The argument of a tag.
fn tag_words(tag: Tag) -> &'static str
    ensures { result.now ≡ tag_words tag }
{
    match tag {
        Tag::Comparator => "the name of a comparator, \"i;octet\" or \"i;ascii-casemap\"",
        Tag::Select(_) => "the names of parameters, a string or list of strings",
        Tag::Name => "the name of a loop, one string without brackets",
        Tag::First => "a number of bytes, 1 or more",
        Tag::Order(_)
        | Tag::Kind(_)
        | Tag::Letters(_)
        | Tag::FirstLetter(_)
        | Tag::QuoteWildcard
        | Tag::Length
        | Tag::Mime
        | Tag::AnyChild => "its argument",
    }
}

// The limit that a reason mentions.
fn reason_limit(kind: ReasonKind) -> u64
    ensures { result ≡ reason_limit kind }
{
    match kind {
        ReasonKind::LongString => MAX_STRING as u64,
        ReasonKind::ManyStrings => MAX_TEST_STRINGS as u64,
        ReasonKind::ManySegments => MAX_SEGMENTS as u64,
        ReasonKind::LongName => MAX_NAME as u64,
        ReasonKind::ManyLoops => MAX_LOOPS as u64,
        ReasonKind::ManyVariables => MAX_VARIABLES as u64,
        _ => 0,
    }
}

// Where a command or test is allowed that is in another place.
#[tactic(auto, unfolding(crate::specs::Reasons::place_text))]
fn place_text(name: &[u8]) -> &'static str
    ensures { result.now ≡ place_text name.now }
{
    if is_word(name, b"require") {
        "@ is allowed only before all other commands, outside of blocks"
    } else if is_word(name, b"elsif") || is_word(name, b"else") {
        "@ is allowed only directly after the block of an `if` or `elsif`"
    } else {
        "@ is allowed only inside a `foreverypart`"
    }
}

// The text for a reason, by the name of the command or test; none for an unknown name.
fn reason_text(kind: ReasonKind, name: &[u8]) -> &'static str
    ensures { result.now ≡ reason_text kind name.now }
{
    match kind {
        ReasonKind::UnknownCommand
        | ReasonKind::UnknownTest
        | ReasonKind::UnknownCapability
        | ReasonKind::UnknownTag => "",
        ReasonKind::MissingCapability(_) => "@ needs `require \"&\"` before it",
        ReasonKind::ForeignTag => "@ takes no tag #",
        ReasonKind::RepeatedTag => "# is repeated, or used with another tag of its kind",
        ReasonKind::TwoModifiers => "# can't be used with another modifier of the same precedence",
        ReasonKind::TagArgument(_) => "# needs &",
        ReasonKind::MissingOrder => "@ needs `:over` or `:under`",
        ReasonKind::MissingMime => "# is allowed only with `:mime`, which needs `require \"mime\"`",
        ReasonKind::LateTag => "the tag # has to come before the other arguments",
        ReasonKind::MissingArgument(_) => "@ has too few arguments: it takes &",
        ReasonKind::ExtraArgument(_) => "@ has too many arguments: it takes &",
        ReasonKind::WrongArgument(_) => "@ has an argument of the wrong kind: it takes &",
        ReasonKind::WrongTests(_) | ReasonKind::WrongEnding(_) => "@ &",
        ReasonKind::Namespace => "$ refers to a namespace, but depot has none",
        ReasonKind::CaptureIndex => "$ refers to a number above 9, but there are only 0 to 9",
        ReasonKind::VariableName => "$ isn't a valid name of a variable",
        ReasonKind::NoSuchLoop => "no `foreverypart` around this @ has the name $",
        ReasonKind::Misplaced => place_text(name),
        ReasonKind::LongString => "the string $ has more than % bytes",
        ReasonKind::ManyStrings => "the lists of @ have more than % strings",
        ReasonKind::ManySegments => {
            "the string $ has more than % references and pieces of text between them"
        }
        ReasonKind::LongName => "the name of a variable, $, has more than % bytes",
        ReasonKind::ManyLoops => "more than % loops are nested here",
        ReasonKind::ManyVariables => "with this @ the script has more than % variables",
    }
}

// The words for a reason.
fn reason_words(kind: ReasonKind, name: &[u8]) -> &'static str
    ensures { result.now ≡ reason_words kind name.now }
{
    match kind {
        ReasonKind::MissingCapability(capability) => capability_words(capability),
        ReasonKind::TagArgument(tag) => tag_words(tag),
        ReasonKind::MissingArgument(taken) | ReasonKind::WrongArgument(taken) => {
            positional_words(taken)
        }
        ReasonKind::ExtraArgument(taken) => extra_words(taken, name),
        ReasonKind::WrongTests(taken) => tests_words(taken, name),
        ReasonKind::WrongEnding(ending) => ending_words(ending),
        _ => "",
    }
}

// The sentence for a reason.
fn reason_sentence(reason: Reason<'_>) -> Sentence<'_>
    ensures { blanks_of result ≡ reason_blanks (reason_view reason.entry) }
{
    match reason.kind {
        ReasonKind::UnknownCommand => unknown_command(reason.name),
        ReasonKind::UnknownTest => unknown_test(reason.name),
        ReasonKind::UnknownCapability => unknown_capability(reason.subject),
        ReasonKind::UnknownTag => unknown_tag(reason.subject),
        _ => other_sentence(reason),
    }
}

// The sentence for a reason that isn't an unknown name.
#[tactic(auto, unfolding(crate::specs::Reasons::other_blanks))]
fn other_sentence(reason: Reason<'_>) -> Sentence<'_>
    ensures { blanks_of result ≡ other_blanks (reason_view reason.entry) }
{
    Sentence {
        text: reason_text(reason.kind, reason.name),
        name: reason.name,
        subject: reason.subject,
        words: reason_words(reason.kind, reason.name),
        others: "",
        number: reason_limit(reason.kind),
    }
}

// Whether strings are missing.
fn lacks_strings(kind: ReasonKind) -> bool
    ensures { result ≡ lacks_strings kind }
{
    match kind {
        ReasonKind::MissingArgument(taken) => takes_strings(taken),
        _ => false,
    }
}

// Whether these arguments are strings.
fn takes_strings(taken: Positional) -> bool
    ensures { result ≡ lacks_strings (MissingArgument taken) }
{
    match taken {
        Positional::Text | Positional::TwoTexts | Positional::OneList | Positional::TwoLists =>
            true,
        Positional::Nothing | Positional::Number => false,
    }
}

// The tokens after the one with this number.
fn tokens_behind(tokens: &[Token], number: usize) -> &[Token]
    ensures { result.now ≡ tokens_behind tokens.now number }
{
    tokens_from(tokens_from(tokens, number), 1)
}

// The word in the place of a missing string, after the name that has this token number, if there is one.
#[tactic(auto, unfolding(crate::specs::Explaining::word_behind))]
fn word_behind(
    script: &[u8],
    tokens: &[Token],
    number: usize,
    kind: ReasonKind,
    name: &[u8],
) -> Option<Token>
    ensures { result ≡ word_behind script.now tokens.now number kind name.now }
{
    if !lacks_strings(kind) {
        return None;
    }
    bare_behind(script, name, tokens_behind(tokens, number))
}

/// The word in the place of a missing string, if there is one.
pub fn bare_word(script: &[u8], tokens: &[Token], found: Refused<'_>) -> Option<Token>
    ensures { result ≡ bare_word script.now tokens.now (refused_view found.entry) }
{
    word_behind(
        script,
        tokens,
        found.token,
        found.reason.kind,
        found.reason.name,
    )
}

/// The sentence for a word in the place of a string, for another fault of the arguments, or for another reason.
pub fn fault_sentence<'a>(script: &'a [u8], tokens: &[Token], found: Refused<'a>) -> Sentence<'a>
    ensures { blanks_of result ≡ fault_blanks script.now tokens.now (refused_view found.entry) }
{
    let other = argument_sentence(script, tokens_behind(tokens, found.token), found);
    word_or(script, bare_word(script, tokens, found), other)
}

// The sentence for a word in the place of a string, if there is one, or the other sentence.
fn word_or<'a>(script: &'a [u8], word: Option<Token>, other: Sentence<'a>) -> Sentence<'a>
    ensures { blanks_of result ≡ word_or script.now word (blanks_of other.entry) }
{
    match word {
        Some(word) => word_sentence(text_of(script, &word)),
        None => other,
    }
}

// The sentence for arguments with a wrong unit, for a tag without its colon after them, or for another reason.
fn argument_sentence<'a>(script: &'a [u8], behind: &[Token], found: Refused<'a>) -> Sentence<'a>
    ensures { blanks_of result ≡ argument_blanks script.now behind.now (refused_view found.entry) }
{
    if is_argument_fault(found.reason.kind.fault()) && has_unit(script, behind) {
        return plain(
            "the units of a number are K, M and G: write the letter directly after the number, with nothing after it, as in 5M",
        );
    }
    label_sentence(label_behind(script, behind), found.reason)
}

// The sentence for a name that a tag has, or for another reason.
fn label_sentence<'a>(label: &'a [u8], reason: Reason<'a>) -> Sentence<'a>
    ensures { blanks_of result ≡ label_blanks label.now (reason_view reason.entry) }
{
    if !label.is_empty() && may_lack_label(reason.kind) {
        return Sentence {
            name: label,
            ..plain("@ is a tag: is a colon missing before it?")
        };
    }
    reason_sentence(reason)
}

// Whether an argument can be missing, or there is a test that isn't taken.
fn may_lack_label(kind: ReasonKind) -> bool
    ensures { result ≡ may_lack_label kind }
{
    match kind {
        ReasonKind::MissingArgument(_) | ReasonKind::WrongTests(Tests::Nothing) => true,
        _ => false,
    }
}

// Whether something is wrong with the arguments.
fn is_argument_fault(fault: Fault) -> bool
    ensures { result ≡ is_argument_fault fault }
{
    matches!(fault, Fault::BadArguments)
}
