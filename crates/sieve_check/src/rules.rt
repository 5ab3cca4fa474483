// The static rules: the faults of commands and tests (RFC 5228, section 8.2, and each command's own section).
//
// Strings are counted for all lists of a test together, without the comparator's, because they are on the machine's
// stack together. A `require` isn't a test.
ghost use Rattle.std.specs.Prelude.{◌≡◌, [], ◌∷◌, map, option_map, take, None};
ghost use Rattle.sieve_parser.specs.View.{argument_tree, command_tree, commands_tree, invocation_tree, more_tests_of};
ghost use Rattle.sieve_check.specs.Reading.{read_of};
ghost use Rattle.sieve_check.specs.Causes.{refused_for};
ghost use Rattle.sieve_check.specs.Private.{arguments_of, cause_view, name_of, row_view};
ghost use Rattle.sieve_check.specs.Rules.{capability_arguments, cause_of, command_visits, commands_visits, ending_cause, ill_formed, is_mime_tag, known_cause, invocation_of, lacking_cause, lacks_by, long_string_cause, looks_inside, max_found, mentions_of, mime_needs, mime_where_given, misplaced, more_visits, names_by, names_mentioned, needs_of, oversized, place_cause, read_cause, reasons_of, row_mentions, strings_of, tests_cause, unknown_as, unknown_cause, visit_of, visits_of, where_required};
ghost use Rattle.sieve_check.specs.Names.{command_named, row_named};
ghost use Rattle.sieve_check.specs.Refusing.{AreNoted, AreVisited, Finds, context_of, mentions_in, refused_in};

use crate::argument_strings::ArgumentStrings;
use crate::causes::{Cause, ReasonKind};
use crate::findings::Findings;
use crate::mentions::Mentions;
use crate::names::{Capability, Tag};
use crate::signature::{Ending, Reading, Signature, Tests};
use crate::string_flaws::{StringFlaw, has_many_strings};
use crate::surroundings::{
    Capabilities, Surroundings, command_in, invocation_in, looks_inside, test_in,
};
use crate::table::{CommandName, Follows, Place, Row, is_test, known_command};
use crate::tag_table::tag_named;
use sieve_parser::{Argument, Command, Head, Invocation};

// Whether the argument is `:mime`.
fn is_mime_tag(argument: &Argument) -> bool
    ensures { result ≡ is_mime_tag (argument_tree argument.now) }
{
    match argument {
        Argument::Tag(name) => matches!(tag_named(name.as_slice()), Some(Tag::Mime)),
        Argument::Text(_) | Argument::TextList(_, _) | Argument::Number(_) => false,
    }
}

// The capability of `:mime`, if that is one of the arguments.
fn mime_where_given(arguments: &[Argument]) -> &'static [Capability]
    ensures { result.now ≡ mime_where_given (map argument_tree arguments.now) }
{
    for argument in arguments {
        if is_mime_tag(argument) {
            return &[Capability::Mime];
        }
    }
    &[]
}

// What is needed for `:mime`, if that is taken and given.
fn mime_needs(signature: Signature, head: &Head) -> &'static [Capability]
    ensures { result.now ≡ mime_needs signature (arguments_of head.now) }
{
    if signature.scoped {
        mime_where_given(&head.arguments)
    } else {
        &[]
    }
}

// The cause for a command or test at a wrong place.
fn misplaced<'t>(place: Place, reading: Reading<'t>) -> Cause<'t>
    ensures { cause_view result ≡ misplaced place (read_of reading.entry).name }
{
    match place {
        Place::ToLeave => match reading.name {
            Some(loop_name) => Cause::about(ReasonKind::NoSuchLoop, loop_name),
            None => Cause::plain(ReasonKind::Misplaced),
        },
        Place::Anywhere | Place::AtTop | Place::AfterIf | Place::InLoop => {
            Cause::plain(ReasonKind::Misplaced)
        }
    }
}

// What is wrong with the place of a command or test, if it isn't allowed there.
fn place_cause<'t>(
    surroundings: &Surroundings<'_>,
    place: Place,
    reading: Reading<'t>,
) -> Option<Cause<'t>>
    ensures { option_map cause_view result
        ≡ place_cause (context_of surroundings.now) place (read_of reading.entry).name }
{
    let stands = match place {
        Place::Anywhere => true,
        Place::AtTop => surroundings.takes_require,
        Place::AfterIf => surroundings.after_if,
        Place::InLoop => surroundings.loops.are_some(),
        Place::ToLeave => surroundings.loops.left_by(reading.name).is_some(),
    };
    (!stands).then_some(misplaced(place, reading))
}

// The first capability that is needed and wasn't required.
fn lacking_cause<'t>(required: Capabilities, needed: &[Capability]) -> Option<Cause<'t>>
    ensures { option_map cause_view result
        ≡ lacking_cause required needed.now }
{
    let capability = required.first_lacking(needed)?;
    Some(Cause::plain(ReasonKind::MissingCapability(capability)))
}

// The first capability that a command or test with these arguments needs and that wasn't required.
fn needs_cause<'t>(required: Capabilities, row: &Row, head: &Head) -> Option<Cause<'t>>
    ensures { option_map cause_view result
        ≡ lacking_cause required (needs_of (row_view row.now) (arguments_of head.now)) }
{
    match lacking_cause(required, row.needs) {
        Some(cause) => Some(cause),
        None => lacking_cause(required, mime_needs(row.signature, head)),
    }
}

// The strings that have to be capabilities.
fn capability_strings(follows: Follows, head: &Head) -> ArgumentStrings<'_>
    ensures { result ≡ strings_of (capability_arguments follows (arguments_of head.now)) }
{
    match follows {
        Follows::Requires => ArgumentStrings::of(&head.arguments),
        Follows::Branches | Follows::Others => ArgumentStrings::of(&[]),
    }
}

// The first of their strings that isn't a capability.
fn unknown_cause<'t>(row: &Row, head: &'t Head) -> Option<Cause<'t>>
    ensures { option_map cause_view result ≡ unknown_cause (row_view row.now) (arguments_of head.now) }
{
    let string = StringFlaw::Unknown.first_in(capability_strings(row.follows, head))?;
    Some(Cause::about(ReasonKind::UnknownCapability, string))
}

// What is wrong with the tests after the arguments.
fn tests_cause<'t>(signature: Signature, tests: Tests) -> Option<Cause<'t>>
    ensures { option_map cause_view result ≡ tests_cause signature tests }
{
    (signature.tests != tests).then_some(Cause::plain(ReasonKind::WrongTests(signature.tests)))
}

// What is wrong with the end of a command.
fn ending_cause<'t>(wanted: Option<Ending>, ending: Option<Ending>) -> Option<Cause<'t>>
    ensures { option_map cause_view result ≡ ending_cause wanted ending }
{
    let wanted = wanted?;
    let ending = ending?;
    (wanted != ending).then_some(Cause::plain(ReasonKind::WrongEnding(wanted)))
}

// The string that is longer than the limit, if there is one.
fn long_string_cause(head: &Head) -> Option<Cause<'_>>
    ensures { option_map cause_view result ≡ long_string_cause (arguments_of head.now) }
{
    let string = StringFlaw::Long.first_in(ArgumentStrings::of(&head.arguments))?;
    Some(Cause::about(ReasonKind::LongString, string))
}

// What is wrong after the arguments, or with references and names in them.
fn ill_formed<'t>(
    row: &Row,
    tests: Tests,
    ending: Option<Ending>,
    mentions: Mentions<'t>,
) -> Option<Cause<'t>>
    ensures { option_map cause_view result
        ≡ ill_formed (row_view row.now) tests ending (mentions_in mentions.entry) }
{
    if let Some(cause) = tests_cause(row.signature, tests) {
        return Some(cause);
    }
    if let Some(cause) = ending_cause(row.ending, ending) {
        return Some(cause);
    }
    mentions.wrong_cause()
}

// What is beyond a limit.
fn oversized<'t>(
    surroundings: &Surroundings<'_>,
    row: &Row,
    head: &'t Head,
    reading: Reading<'_>,
    mentions: Mentions<'t>,
) -> Option<Cause<'t>>
    ensures { option_map cause_view result
        ≡ oversized (context_of surroundings.now) (row_view row.now) (arguments_of head.now)
        (read_of reading.entry) (mentions_in mentions.entry) }
{
    if let Some(cause) = long_string_cause(head) {
        return Some(cause);
    }
    if is_test(row.ending) && has_many_strings(reading) {
        return Some(Cause::plain(ReasonKind::ManyStrings));
    }
    if let Some(cause) = mentions.large_cause() {
        return Some(cause);
    }
    surroundings
        .opens_many(row)
        .then_some(Cause::plain(ReasonKind::ManyLoops))
}

// The strings of a command or test, whose arguments were read, that have to do with variables; or what is wrong with
// it.
fn read<'t>(
    surroundings: &Surroundings<'_>,
    row: &Row,
    head: &'t Head,
    tests: Tests,
    ending: Option<Ending>,
    reading: Reading<'t>,
) -> Result<Mentions<'t>, Cause<'t>>
    ensures { Finds (names_mentioned (where_required (context_of surroundings.now).required
        (mentions_of (row_view row.now).role (read_of reading.entry))))
        (read_cause (context_of surroundings.now) (row_view row.now) (arguments_of head.now) tests
        ending (read_of reading.entry)) result }
{
    let mentions = Mentions::of(surroundings.required, row.role, reading);
    if let Some(cause) = ill_formed(row, tests, ending, mentions) {
        return Err(cause);
    }
    if let Some(cause) = place_cause(surroundings, row.place, reading) {
        return Err(cause);
    }
    match oversized(surroundings, row, head, reading, mentions) {
        Some(cause) => Err(cause),
        None => Ok(mentions),
    }
}

// The same for one with a known name.
fn known<'t>(
    surroundings: &Surroundings<'_>,
    row: &Row,
    head: &'t Head,
    tests: Tests,
    ending: Option<Ending>,
) -> Result<Mentions<'t>, Cause<'t>>
    ensures { Finds (names_mentioned
        (row_mentions (context_of surroundings.now).required (row_view row.now) (arguments_of head.now)))
        (known_cause (context_of surroundings.now) (arguments_of head.now) tests ending
        (row_view row.now)) result }
{
    if let Some(cause) = needs_cause(surroundings.required, row, head) {
        return Err(cause);
    }
    if let Some(cause) = unknown_cause(row, head) {
        return Err(cause);
    }
    match row.signature.read(&head.arguments) {
        Ok(reading) => read(surroundings, row, head, tests, ending, reading),
        Err(cause) => Err(cause),
    }
}

// What isn't known: a command or a test.
fn unknown_as(ending: Option<Ending>) -> ReasonKind
    ensures { result ≡ unknown_as ending }
{
    if is_test(ending) {
        ReasonKind::UnknownTest
    } else {
        ReasonKind::UnknownCommand
    }
}

// The same for any.
fn found<'t>(
    surroundings: &Surroundings<'_>,
    known_as: &Option<Row>,
    head: &'t Head,
    tests: Tests,
    ending: Option<Ending>,
) -> Result<Mentions<'t>, Cause<'t>>
    ensures { Finds (names_by (context_of surroundings.now).required (arguments_of head.now)
        (option_map row_view known_as.now))
        (cause_of (unknown_as ending)
        (known_cause (context_of surroundings.now) (arguments_of head.now) tests ending)
        (option_map row_view known_as.now)) result }
{
    match known_as {
        Some(row) => known(surroundings, row, head, tests, ending),
        None => Err(Cause::plain(unknown_as(ending))),
    }
}

// Notes all that is missing for a command or test.
fn refuse_lacks<'t>(
    findings: &mut Findings<'t>,
    required: Capabilities,
    known_as: &Option<Row>,
    head: &'t Head,
)
    ensures { AreNoted findings.old (map (refused_for head.now.token head.now.name)
        (lacks_by required (arguments_of head.now) (option_map row_view known_as.now))) findings.new }
{
    if let Some(row) = known_as {
        findings.refuse_lacking(head, required, row.needs);
        findings.refuse_lacking(head, required, mime_needs(row.signature, head));
        findings.refuse_all_unknown(head, capability_strings(row.follows, head));
    }
}

// Checks a command, with this ending, or a test, apart from its tests and its block; `known_as` is its row. Returns
// whether its tests are checked.
fn visit<'t>(
    findings: &mut Findings<'t>,
    surroundings: &Surroundings<'_>,
    known_as: &Option<Row>,
    head: &'t Head,
    tests: Tests,
    ending: Option<Ending>,
) -> bool
    requires { option_map row_view known_as.now ≡ row_named ending head.now.name }
    ensures visited { AreVisited findings.old
        (visit_of ending (context_of surroundings.now) head.now.token head.now.name
        (arguments_of head.now) tests ∷ []) findings.new }
    ensures inside { result ≡ looks_inside (row_named ending head.now.name) }
{
    let inside = looks_inside(known_as);
    match found(surroundings, known_as, head, tests, ending) {
        Ok(mentions) => {
            if let Err(kind) = mentions.add_to(&mut findings.names) {
                findings.refuse(head, Cause::plain(kind));
            }
        }
        Err(cause) => {
            findings.refuse(head, cause);
            refuse_lacks(findings, surroundings.required, known_as, head);
        }
    }
    inside
}

// Checks a command and its tests, apart from its block, or a test and its own tests; `known_as` is its row.
#[cycle(tests)]
fn invocation<'t>(
    findings: &mut Findings<'t>,
    surroundings: &Surroundings<'_>,
    known_as: &Option<Row>,
    tree: &'t Invocation,
    ending: Option<Ending>,
)
    requires { option_map row_view known_as.now
        ≡ row_named ending (name_of (invocation_tree tree.now)) }
    ensures { AreVisited findings.old
        (visits_of ending (context_of surroundings.now) (invocation_tree tree.now))
        findings.new }
{
    match tree {
        Invocation::Plain(head) => {
            visit(
                findings,
                surroundings,
                known_as,
                head,
                Tests::Nothing,
                ending,
            );
        }
        Invocation::WithTest(head, inner) => {
            if visit(findings, surroundings, known_as, head, Tests::One, ending) {
                invocation(findings, surroundings, &test_in(inner), inner, None);
            }
        }
        Invocation::WithTests(head, first, others) => {
            if visit(
                findings,
                surroundings,
                known_as,
                head,
                Tests::Bracketed,
                ending,
            ) {
                invocation(findings, surroundings, &test_in(first), first, None);
                tests(findings, surroundings, others);
            }
        }
    }
}

// Checks the tests of a list after its first.
#[cycle(tests)]
fn tests<'t>(findings: &mut Findings<'t>, surroundings: &Surroundings<'_>, list: &'t [Invocation])
    ensures { AreVisited findings.old
        (more_visits (context_of surroundings.now) (more_tests_of (map invocation_tree list.now)))
        findings.new }
{
    'list: for tree in list {
        invocation(findings, surroundings, &test_in(tree), tree, None);
    }
}

// Checks a command with this name and what is below it. The block of a loop that is one too many isn't checked.
#[cycle(commands)]
fn command<'t>(
    findings: &mut Findings<'t>,
    surroundings: &Surroundings<'t>,
    name: Option<CommandName>,
    tree: &'t Command,
)
    requires { name ≡ command_named (name_of (invocation_of (command_tree tree.now))) }
    ensures { AreVisited findings.old
        (command_visits (context_of surroundings.now) (command_tree tree.now)) findings.new }
{
    let known_as = known_command(name);
    match tree {
        Command::Simple(first) => {
            invocation(
                findings,
                surroundings,
                &known_as,
                first,
                Some(Ending::Semicolon),
            );
        }
        Command::Block(first, block) => {
            invocation(
                findings,
                surroundings,
                &known_as,
                first,
                Some(Ending::Block),
            );
            let mut past = *surroundings;
            past.pass(name, first);
            if let Some(inside) = past.in_block_past(first) {
                commands(findings, &inside, block);
            }
        }
    }
}

// Checks the commands of a script or block.
#[cycle(commands)]
fn commands<'t>(findings: &mut Findings<'t>, surroundings: &Surroundings<'t>, trees: &'t [Command])
    ensures { AreVisited findings.old
        (commands_visits (context_of surroundings.now) (commands_tree trees.now)) findings.new }
{
    let mut around = *surroundings;
    'trees: for tree in trees {
        let name = command_in(tree);
        command(findings, &around, name, tree);
        around.pass(name, invocation_in(tree));
    }
}

/// Why commands and tests of a script are refused, in order, the first reasons up to [`MAX_FOUND`](crate::MAX_FOUND).
pub fn script(trees: &[Command]) -> Findings<'_>
    ensures { refused_in result ≡ take max_found (reasons_of (commands_tree trees.now)) }
{
    let mut findings = Findings::new();
    commands(&mut findings, &Surroundings::at_start(), trees);
    findings
}
