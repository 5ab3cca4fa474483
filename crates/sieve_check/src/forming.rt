// The typed form of scripts.
//
// The typed form is a function of the tree and of what surrounds each command; there is none if the tree isn't
// written as it has to be. What was required determines whether strings are expanded, which is all that the form of a
// test needs; the open loops determine how many of them a `break` leaves. The definition puts each command before the
// form of those after it, so that an `elsif` or `else` is with its `if`. The code goes over the commands in order,
// and keeps the choice that can still be continued.
ghost use Rattle.std.specs.Prelude.{◌≡◌, map};
ghost use Rattle.sieve_parser.specs.View.{argument_tree, command_tree, commands_tree, invocation_tree};
ghost use Rattle.sieve_check.specs.FormOf.{none, one, act_of, block_part, form_of, leaving_in, most_of, part_of, setting_in, simple_part, taking_in, with_text};
ghost use Rattle.sieve_check.specs.Forming.{Formed, IsBlockRead, IsSimpleRead, commands_formed, head_block, head_simple};
ghost use Rattle.sieve_check.specs.Reading.{name_in, read_of};
ghost use Rattle.sieve_check.specs.Names.{command_named};
ghost use Rattle.sieve_check.specs.Private.{name_of};
ghost use Rattle.sieve_check.specs.Rules.{invocation_of};
ghost use Rattle.sieve_check.specs.Refusing.{context_of};
ghost use Rattle.sieve_check.specs.Sequences.{part_form};
ghost use Rattle.sieve_check.specs.TypedView.{commands_form, test_form};

use crate::form_error::FormError;
use crate::sequence::{Part, Sequence};
use crate::signature::{Reading, Tags};
use crate::strings::template;
use crate::surroundings::{Capabilities, Surroundings, command_in};
use crate::table::{CommandName, command_signature};
use crate::test_forms::test;
use crate::typed::{Act, Branch, Command, Segment, Test};
use bytecode_format::Modifiers;
use octets::{MAX_VALUE, to_lowercase};
use sieve_parser::{Argument, Command as Tree, Head, Invocation};
use std::alloc::Global;

// The act, with the string that the arguments are.
fn with_text(
    alloc: Global,
    required: Capabilities,
    act: Act,
    arguments: &[Argument],
) -> Result<(Act, Vec<Segment>), FormError>
    ensures { Formed (λ done. (done.0, done.1.items))
        (with_text required act (map argument_tree arguments.now)) result }
{
    match arguments {
        [Argument::Text(string)] => Ok((act, template(alloc, required, string)?)),
        _ => Err(FormError::Malformed),
    }
}

// The act that sets the variable of the name to the value, which the arguments are. The name isn't expanded.
fn setting(
    alloc: Global,
    required: Capabilities,
    modifiers: Modifiers,
    arguments: &[Argument],
) -> Result<(Act, Vec<Segment>), FormError>
    ensures { Formed (λ done. (done.0, done.1.items))
        (setting_in required modifiers (map argument_tree arguments.now)) result }
{
    match arguments {
        [Argument::Text(name), Argument::Text(value)] => {
            let name = to_lowercase(alloc, name.as_slice())?;
            let value = template(alloc, required, value)?;
            Ok((Act::Set { modifiers, name }, value))
        }
        _ => Err(FormError::Malformed),
    }
}

// How many bytes are taken at most.
fn most_of(tags: Tags) -> u16
    ensures { result ≡ most_of tags }
{
    let most = MAX_VALUE as u64;
    tags.first.unwrap_or(most).min(most) as u16
}

// The act that assigns the first bytes of the current part's content to the variable with the name in the arguments.
// The name isn't expanded.
fn taking(
    alloc: Global,
    tags: Tags,
    arguments: &[Argument],
) -> Result<(Act, Vec<Segment>), FormError>
    ensures { Formed (λ done. (done.0, done.1.items))
        (taking_in tags (map argument_tree arguments.now)) result }
{
    match arguments {
        [Argument::Text(name)] => {
            let most = most_of(tags);
            let name = to_lowercase(alloc, name.as_slice())?;
            Ok((Act::Take { most, name }, Vec::new(alloc)))
        }
        _ => Err(FormError::Malformed),
    }
}

// The act that leaves the loop with this name, or the innermost one, with those inside it.
fn leaving(
    alloc: Global,
    surroundings: &Surroundings<'_>,
    name: Option<&[u8]>,
) -> Result<(Act, Vec<Segment>), FormError>
    ensures { Formed (λ done. (done.0, done.1.items))
        (leaving_in (name_in name.entry) (context_of surroundings.now).loops) result }
{
    match surroundings.loops.left_by(name) {
        Some(loops) => Ok((Act::Leave(loops), Vec::new(alloc))),
        None => Err(FormError::Malformed),
    }
}

// The act of an action with this name, with its string, from what was read.
fn act_of(
    alloc: Global,
    surroundings: &Surroundings<'_>,
    name: CommandName,
    reading: &Reading<'_>,
) -> Result<(Act, Vec<Segment>), FormError>
    ensures { Formed (λ done. (done.0, done.1.items))
        (act_of (context_of surroundings.now) name (read_of reading.now)) result }
{
    let required = surroundings.required;
    let arguments = reading.positional;
    match name {
        CommandName::Keep => Ok((Act::Keep, Vec::new(alloc))),
        CommandName::Discard => Ok((Act::Discard, Vec::new(alloc))),
        CommandName::FileInto => with_text(alloc, required, Act::FileInto, arguments),
        CommandName::Set => setting(alloc, required, reading.tags.modifiers, arguments),
        CommandName::Take => taking(alloc, reading.tags, arguments),
        CommandName::Store => with_text(alloc, required, Act::Store, arguments),
        CommandName::Break => leaving(alloc, surroundings, reading.name),
        CommandName::Stop => Ok((Act::Stop, Vec::new(alloc))),
        CommandName::Require
        | CommandName::If
        | CommandName::Elsif
        | CommandName::Else
        | CommandName::ForEveryPart => Err(FormError::Malformed),
    }
}

// The command with this name, with its arguments as they were read.
fn command_read(name: Option<CommandName>, head: &Head) -> Option<(CommandName, Reading<'_>)>
    requires { name ≡ command_named head.now.name }
    ensures simple { IsSimpleRead head.now result }
    ensures block { IsBlockRead head.now result }
{
    let name = name?;
    let reading = command_signature(name).read(&head.arguments).ok()?;
    Some((name, reading))
}

// A command that ends in a semicolon, without tests after its arguments.
fn plain_part(
    alloc: Global,
    surroundings: &Surroundings<'_>,
    name: Option<CommandName>,
    head: &Head,
) -> Result<Part, FormError>
    requires { name ≡ command_named head.now.name }
    ensures { Formed part_form (head_simple (context_of surroundings.now) head.now none) result }
{
    let Some((name, reading)) = command_read(name, head) else {
        return Err(FormError::Malformed);
    };
    match name {
        CommandName::Require => Ok(Part::Nothing),
        _ => {
            let (act, string) = act_of(alloc, surroundings, name, &reading)?;
            Ok(Part::Action(Command::Does {
                act,
                string,
                at: head.token,
            }))
        }
    }
}

// What this adds, with a test and a block of these commands after it.
fn branch_part(
    name: Option<CommandName>,
    head: &Head,
    test: Test,
    block: Vec<Command>,
) -> Result<Part, FormError>
    requires { name ≡ command_named head.now.name }
    ensures { Formed part_form
        (head_block head.now (one (test_form test)) (commands_form block.items)) result }
{
    let at = head.token;
    match command_read(name, head) {
        Some((CommandName::If, _)) => Ok(Part::First(Branch { test, block, at })),
        Some((CommandName::Elsif, _)) => Ok(Part::Next(Branch { test, block, at })),
        _ => Err(FormError::Malformed),
    }
}

// What this adds, with a block of these commands and no test after it.
fn untested_part(
    name: Option<CommandName>,
    head: &Head,
    block: Vec<Command>,
) -> Result<Part, FormError>
    requires { name ≡ command_named head.now.name }
    ensures { Formed part_form (head_block head.now none (commands_form block.items)) result }
{
    match command_read(name, head) {
        Some((CommandName::Else, _)) => Ok(Part::Last(block)),
        Some((CommandName::ForEveryPart, _)) => Ok(Part::Action(Command::ForEveryPart {
            block,
            at: head.token,
        })),
        _ => Err(FormError::Malformed),
    }
}

// A command with a block of these commands, as a part of the commands around it.
fn block_part(
    alloc: Global,
    surroundings: &Surroundings<'_>,
    name: Option<CommandName>,
    invocation: &Invocation,
    body: Vec<Command>,
) -> Result<Part, FormError>
    requires { name ≡ command_named (name_of (invocation_tree invocation.now)) }
    ensures { Formed part_form (block_part (context_of surroundings.now)
        (invocation_tree invocation.now) (commands_form body.items)) result }
{
    match invocation {
        Invocation::Plain(head) => untested_part(name, head, body),
        Invocation::WithTest(head, guard) => {
            let test = test(alloc, surroundings.required, guard)?;
            branch_part(name, head, test, body)
        }
        Invocation::WithTests(_, _, _) => Err(FormError::Malformed),
    }
}

// A command without a block, as a part of the commands around it.
fn simple_part(
    alloc: Global,
    surroundings: &Surroundings<'_>,
    name: Option<CommandName>,
    invocation: &Invocation,
) -> Result<Part, FormError>
    requires { name ≡ command_named (name_of (invocation_tree invocation.now)) }
    ensures { Formed part_form
        (simple_part (context_of surroundings.now) (invocation_tree invocation.now)) result }
{
    match invocation {
        Invocation::Plain(head) => plain_part(alloc, surroundings, name, head),
        Invocation::WithTest(_, _) | Invocation::WithTests(_, _, _) => Err(FormError::Malformed),
    }
}

// A command, as a part of the commands around it.
#[cycle(commands)]
fn part<'t>(
    alloc: Global,
    surroundings: &Surroundings<'t>,
    name: Option<CommandName>,
    tree: &'t Tree,
) -> Result<Part, FormError>
    requires { name ≡ command_named (name_of (invocation_of (command_tree tree.now))) }
    ensures { Formed part_form
        (part_of (context_of surroundings.now) (command_tree tree.now)) result }
{
    match tree {
        Tree::Simple(invocation) => simple_part(alloc, surroundings, name, invocation),
        Tree::Block(invocation, block) => {
            let Some(inside) = surroundings.in_block(name, invocation) else {
                return Err(FormError::Malformed);
            };
            let body = commands(alloc, &inside, block)?;
            block_part(alloc, surroundings, name, invocation, body)
        }
    }
}

// The commands of a script or of a block.
#[cycle(commands)]
fn commands<'t>(
    alloc: Global,
    surroundings: &Surroundings<'t>,
    trees: &'t [Tree],
) -> Result<Vec<Command>, FormError>
    ensures { Formed (λ cs. commands_form cs.items)
        (commands_formed (context_of surroundings.now) (commands_tree trees.now)) result }
{
    let mut around = *surroundings;
    let mut sequence = Sequence::new(alloc, trees.len())?;
    'trees: for tree in trees {
        let name = command_in(tree);
        let part = part(alloc, &around, name, tree)?;
        sequence.push(alloc, part)?;
        around.pass_one(name, tree);
    }
    Ok(sequence.finish(alloc)?)
}

/// The typed form of a script.
pub fn form_of(alloc: Global, trees: &[Tree]) -> Result<Vec<Command>, FormError>
    ensures { Formed (λ cs. commands_form cs.items) (form_of (commands_tree trees.now)) result }
{
    commands(alloc, &Surroundings::at_start(), trees)
}
