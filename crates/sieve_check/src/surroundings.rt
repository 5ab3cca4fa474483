// The surroundings of a command or test.
//
// Whether a string is expanded depends on what was required before it. A `require` comes before all other commands,
// so in a script without faults that is the same everywhere.
ghost use Rattle.std.specs.Prelude.{◌≡◌, map, option_map};
ghost use Rattle.sieve_parser.specs.Tree.{TestsTree};
ghost use Rattle.sieve_parser.specs.View.{argument_tree, command_tree, head_tree, invocation_tree};
ghost use Rattle.sieve_check.specs.Reading.{loop_in};
ghost use Rattle.sieve_check.specs.Names.{command_named, test_known};
ghost use Rattle.sieve_check.specs.Private.{name_of, row_view};
ghost use Rattle.sieve_check.specs.Rules.{invocation_of, loop_read, looks_inside, opens};
ghost use Rattle.sieve_check.specs.Arguments.{reading};

use crate::argument_strings::ArgumentStrings;
use crate::loops::{LoopName, Loops};
use crate::names::{Capability, capability_named};
use crate::signature::{Signature, Tests};
use crate::table::{
    CommandName, Follows, Row, command_named, command_row, known_command, test_known,
};
use octets::Octets;
use sieve_parser::{Argument, Command, Head, Invocation};

/// Capabilities that were required.
#[derive(Clone, Copy)]
pub struct Capabilities {
    pub file_into: bool,
    pub variables: bool,
    pub mime: bool,
    pub for_every_part: bool,
    pub depot: bool,
}

impl Capabilities {
    ghost use Rattle.std.specs.Prelude.{◌≡◌, map};
    ghost use Rattle.sieve_parser.specs.View.{argument_tree};
    ghost use Rattle.sieve_check.specs.Rules.{strings_of};
    ghost use Rattle.sieve_check.specs.Surroundings.{first_lacking, has_capability, requiring, with_capability, with_required};

    /// Whether the capability is there.
    pub fn has(self, capability: Capability) -> bool
        ensures { result ≡ has_capability capability self }
    {
        match capability {
            Capability::FileInto => self.file_into,
            Capability::Variables => self.variables,
            Capability::Mime => self.mime,
            Capability::ForEveryPart => self.for_every_part,
            Capability::Depot => self.depot,
            Capability::OctetComparator | Capability::CasemapComparator => true,
        }
    }

    /// The first of the capabilities that isn't there, if there is one.
    pub fn first_lacking(self, needed: &[Capability]) -> Option<Capability>
        ensures { result ≡ first_lacking needed.now self }
    {
        for capability in needed {
            if !self.has(*capability) {
                return Some(*capability);
            }
        }
        None
    }

    // These and one more.
    fn with(self, capability: Capability) -> Capabilities
        ensures { result ≡ with_capability capability self }
    {
        let mut all = self;
        match capability {
            Capability::FileInto => all.file_into = true,
            Capability::Variables => all.variables = true,
            Capability::Mime => all.mime = true,
            Capability::ForEveryPart => all.for_every_part = true,
            Capability::Depot => all.depot = true,
            Capability::OctetComparator | Capability::CasemapComparator => {}
        }
        all
    }

    // These and the one with this name, if there is one.
    fn with_named(self, name: &Octets) -> Capabilities
        ensures { result ≡ with_required name.now self }
    {
        match capability_named(name.as_slice()) {
            Some(capability) => self.with(capability),
            None => self,
        }
    }

    // These and those that the arguments of a `require` name.
    fn requiring(self, arguments: &[Argument]) -> Capabilities
        ensures { result ≡ requiring (strings_of (map argument_tree arguments.now)) self }
    {
        let mut all = self;
        let mut names = ArgumentStrings::of(arguments);
        'names: while let Some(name) = names.next() {
            all = all.with_named(name);
        }
        all
    }
}

// The beginning of an invocation.
fn head_in(invocation: &Invocation) -> &Head
    ensures { (tests : TestsTree) × (invocation_tree invocation.now ≡ head_tree result.now tests) }
{
    match invocation {
        Invocation::Plain(head) => head,
        Invocation::WithTest(head, _) => head,
        Invocation::WithTests(head, _, _) => head,
    }
}

/// The command without its end and its block.
pub fn invocation_in(command: &Command) -> &Invocation
    ensures { invocation_tree result.now ≡ invocation_of (command_tree command.now) }
{
    match command {
        Command::Simple(invocation) => invocation,
        Command::Block(invocation, _) => invocation,
    }
}

/// The command, if its name is known.
pub fn command_in(command: &Command) -> Option<CommandName>
    ensures { result ≡ command_named (name_of (invocation_of (command_tree command.now))) }
{
    command_named(head_in(invocation_in(command)).name.as_slice())
}

/// The row of a test, if its name is known.
pub fn test_in(test: &Invocation) -> Option<Row>
    ensures { option_map row_view result ≡ test_known (name_of (invocation_tree test.now)) }
{
    test_known(head_in(test).name.as_slice())
}

/// Whether the tests of a command or test with this row are checked: if it takes none, what is there can be meant as
/// something else.
pub fn looks_inside(known: &Option<Row>) -> bool
    ensures { result ≡ looks_inside (option_map row_view known.now) }
{
    match known {
        Some(row) => match row.signature.tests {
            Tests::Nothing => false,
            Tests::One | Tests::Bracketed => true,
        },
        None => true,
    }
}

// Whether a loop is open around its block.
fn opens(known: &Option<Row>) -> bool
    ensures { result ≡ opens (option_map row_view known.now) }
{
    match known {
        Some(row) => row.opens,
        None => false,
    }
}

// The name of the loop that a command with this signature and these arguments opens.
fn loop_name(signature: Signature, arguments: &[Argument]) -> LoopName<'_>
    ensures { loop_in result ≡ loop_read (reading signature (map argument_tree arguments.now)) }
{
    match signature.read(arguments) {
        Ok(reading) => match reading.name {
            Some(name) => LoopName::Named(name),
            None => LoopName::Nameless,
        },
        Err(_) => LoopName::Unreadable,
    }
}

/// The surroundings of a command or test, on which it depends whether it is allowed.
#[derive(Clone, Copy)]
pub struct Surroundings<'t> {
    /// What was required before it.
    pub required: Capabilities,
    /// The loops that are open around it.
    pub loops: Loops<'t>,
    /// Whether it is at the top level, and after no other command than `require` (RFC 5228, section 3.2).
    pub takes_require: bool,
    /// Whether it is directly after an `if` or `elsif` of the same block (RFC 5228, section 3.1).
    pub after_if: bool,
}

impl<'t> Surroundings<'t> {
    ghost use Rattle.std.specs.Prelude.{◌≡◌, false, List, map, option_map};
    ghost use Rattle.sieve_parser.specs.Tree.{ArgumentTree, one_test};
    ghost use Rattle.sieve_parser.specs.View.{argument_tree, command_tree, invocation_tree};
    ghost use Rattle.sieve_check.specs.Rules.{after_invocation, invocation_of, loops_by, loops_opened, opened_by, opened_past, past_invocation, past_swallowed, past_tests, strings_of};
    ghost use Rattle.sieve_check.specs.Private.{arguments_of, name_of, row_view};
    ghost use Rattle.sieve_check.specs.Names.{command_named};
    ghost use Rattle.sieve_check.specs.Rows.{command_row};
    ghost use Rattle.sieve_check.specs.Refusing.{LoopsWithin, context_of, open_loops};
    ghost use Rattle.sieve_check.specs.Surroundings.{at_start, following, inside, opens_many, swallowing};

    /// The surroundings of the first command of a script.
    pub fn at_start() -> Surroundings<'t>
        ensures { context_of result ≡ at_start }
    {
        Surroundings {
            required: Capabilities {
                file_into: false,
                variables: false,
                mime: false,
                for_every_part: false,
                depot: false,
            },
            loops: Loops::none(),
            takes_require: true,
            after_if: false,
        }
    }

    // The loops around the block of a command with this name and head; `None` if there would be too many.
    fn loops_within(&self, name: Option<CommandName>, head: &'t Head) -> Option<Loops<'t>>
        ensures { LoopsWithin (context_of self.now)
            (loops_by (option_map command_row name) (arguments_of head.now)) result }
    {
        match known_command(name) {
            Some(row) if row.opens => {
                let name = loop_name(row.signature, &head.arguments);
                self.loops.with(name)
            }
            _ => Some(self.loops),
        }
    }

    // With these loops, the surroundings of the first command of a block.
    fn within(&self, loops: Loops<'t>) -> Surroundings<'t>
        ensures { context_of result
            ≡ record (context_of self.now) {
              loops = open_loops loops.entry;
              takes_require = false;
              after_if = false;
            } }
    {
        Surroundings {
            required: self.required,
            loops,
            takes_require: false,
            after_if: false,
        }
    }

    // The loops around the block of a command, or of the last one that it swallowed, if that opens one; `None` if
    // there would be too many.
    fn loops_past(&self, invocation: &'t Invocation) -> Option<Loops<'t>>
        ensures { LoopsWithin (context_of self.now) (opened_past (invocation_tree invocation.now))
            result }
    {
        match invocation {
            Invocation::WithTest(head, test) => {
                let name = command_named(head.name.as_slice());
                let known = known_command(name);
                if looks_inside(&known) || opens(&known) {
                    self.loops_within(name, head)
                } else {
                    self.loops_past(test)
                }
            }
            Invocation::Plain(head) => self.loops_within(command_named(head.name.as_slice()), head),
            Invocation::WithTests(head, _, _) => {
                self.loops_within(command_named(head.name.as_slice()), head)
            }
        }
    }

    /// The surroundings of the first command of a block, if these are those after its command, as
    /// [`pass`](Surroundings::pass) makes them, and the command can have swallowed others; `None` if too many loops
    /// would be open.
    pub fn in_block_past(&self, invocation: &'t Invocation) -> Option<Surroundings<'t>>
        ensures { option_map context_of result
            ≡ inside (opened_past (invocation_tree invocation.now)) (context_of self.now) }
    {
        let loops = self.loops_past(invocation)?;
        Some(self.within(loops))
    }

    /// The surroundings of the first command of the block of a command; `None` if too many loops would be open.
    pub fn in_block(
        &self,
        name: Option<CommandName>,
        invocation: &'t Invocation,
    ) -> Option<Surroundings<'t>>
        requires { name ≡ command_named (name_of (invocation_tree invocation.now)) }
        ensures { option_map context_of result
            ≡ inside (loops_opened (invocation_tree invocation.now)) (context_of self.now) }
    {
        let loops = self.loops_within(name, head_in(invocation))?;
        Some(self.within(loops))
    }

    /// Whether the block of a command with this row would have more loops around it than there can be.
    pub fn opens_many(&self, row: &Row) -> bool
        ensures { (args : List ArgumentTree)
            → result ≡ opens_many (opened_by (row_view row.now) args) (context_of self.now) }
    {
        row.opens && self.loops.are_full()
    }

    // Continues after a command with this name and head: if none is known, nothing changes. The loops stay in any
    // case.
    fn follow(&mut self, name: Option<CommandName>, head: &Head)
        ensures { context_of self.new
            ≡ following (context_of self.old) (option_map command_row name)
            (strings_of (arguments_of head.now)) }
    {
        let Some(name) = name else {
            return;
        };
        match command_row(name).follows {
            Follows::Requires => {
                self.required = self.required.requiring(&head.arguments);
                self.after_if = false;
            }
            Follows::Branches => {
                self.takes_require = false;
                self.after_if = true;
            }
            Follows::Others => {
                self.takes_require = false;
                self.after_if = false;
            }
        }
    }

    // With a command of this name that was read as the test of the one before it.
    fn swallow(&mut self, name: Option<CommandName>, head: &Head)
        ensures { context_of self.new
            ≡ swallowing (context_of self.old) (option_map command_row name)
            (strings_of (arguments_of head.now)) }
    {
        let Some(name) = name else {
            return;
        };
        match command_row(name).follows {
            Follows::Requires => self.required = self.required.requiring(&head.arguments),
            Follows::Branches => self.after_if = true,
            Follows::Others => {}
        }
    }

    // After the test of a command with this name.
    #[cycle(swallowed)]
    fn pass_test(&mut self, name: Option<CommandName>, test: &Invocation)
        ensures { context_of self.new
            ≡ past_tests (context_of self.old) (option_map command_row name)
            (one_test (invocation_tree test.now)) }
    {
        if !looks_inside(&known_command(name)) {
            self.pass_swallowed(test);
        }
    }

    // After a command that was read as a test.
    #[cycle(swallowed)]
    fn pass_swallowed(&mut self, test: &Invocation)
        ensures { context_of self.new
            ≡ past_swallowed (context_of self.old) (invocation_tree test.now) }
    {
        match test {
            Invocation::Plain(head) => self.swallow(command_named(head.name.as_slice()), head),
            Invocation::WithTest(head, inner) => {
                let name = command_named(head.name.as_slice());
                self.swallow(name, head);
                self.pass_test(name, inner);
            }
            Invocation::WithTests(head, _, _) => {
                self.swallow(command_named(head.name.as_slice()), head);
            }
        }
    }

    /// Continues after a command with this name, and after the commands that it swallowed: if a `;` is forgotten, the
    /// next command is read as the test of the one before it.
    pub fn pass(&mut self, name: Option<CommandName>, invocation: &Invocation)
        requires { name ≡ command_named (name_of (invocation_tree invocation.now)) }
        ensures { context_of self.new
            ≡ past_invocation (context_of self.old) (invocation_tree invocation.now) }
    {
        match invocation {
            Invocation::Plain(head) => self.follow(name, head),
            Invocation::WithTest(head, test) => {
                self.follow(name, head);
                self.pass_test(name, test);
            }
            Invocation::WithTests(head, _, _) => self.follow(name, head),
        }
    }

    /// Continues after this command with this name, which swallowed none.
    pub fn pass_one(&mut self, name: Option<CommandName>, command: &Command)
        requires { name ≡ command_named (name_of (invocation_of (command_tree command.now))) }
        ensures { context_of self.new
            ≡ after_invocation (context_of self.old) (invocation_of (command_tree command.now)) }
    {
        self.follow(name, head_in(invocation_in(command)));
    }
}
