// The syntax tree of a script.
//
// Lists of strings and of tests hold their first element apart, so an empty list can't be written. A test, and a
// command up to its end, are one type: both are an identifier with arguments. An identifier keeps its case and its
// token's number. A tag's value is without its colon.
use octets::Octets;
use std::marker::Model;

/// An argument of a command or test (RFC 5228, section 8.2).
#[derive(Drop)]
pub enum Argument {
    /// A string without brackets.
    Text(Octets),
    /// The strings of a list in square brackets: the first, and those after it.
    TextList(Octets, Vec<Octets>),
    /// The value of a number.
    Number(u64),
    /// A tag: the identifier after the colon.
    Tag(Octets),
}

/// The beginning of a command or a test: its identifier and the arguments before its tests.
#[derive(Drop)]
pub struct Head {
    /// The identifier, as it is written.
    pub name: Octets,
    /// The number of the identifier's token in the script, counted from 0.
    pub token: usize,
    /// The arguments before the tests.
    pub arguments: Vec<Argument>,
}

/// An identifier with its arguments: a test, or a command without its end (RFC 5228, section 8.2).
#[derive(Drop)]
pub enum Invocation {
    /// No test follows the arguments.
    Plain(Head),
    /// One test follows the arguments.
    WithTest(Head, Box<Invocation>),
    /// A list of tests in parentheses follows: the first, and those after it.
    WithTests(Head, Box<Invocation>, Vec<Invocation>),
}

/// A command (RFC 5228, section 8.2). Its name isn't checked; the checker does that.
#[derive(Drop)]
pub enum Command {
    /// It ends in a semicolon.
    Simple(Invocation),
    /// It ends in a block of commands.
    Block(Invocation, Vec<Command>),
}

/// The syntax tree of a script. [`crate::parse`] makes it, and the checker takes it. A contract sees its commands.
#[derive(Drop)]
pub struct Script {
    commands: Vec<Command>,
}

impl Model for Script {
    ghost use Rattle.std.specs.Coded.{codes};
    ghost use Rattle.std.specs.Prelude.{List};
    ghost use Rattle.sieve_parser.specs.Scripts.{IsTree};
    ghost use Rattle.sieve_parser.specs.View.{commands_tree};
    ghost use Rattle.sieve_parser.specs.contracts.tree.Command as e;
    ghost use Rattle.sieve_parser.specs.declared.tree.Command.{Command};

    ghost Value = { List Command };

    ghost coded = { Prim.hlevel (codes, e.the_row.coded) };

    ghost view = { λ s. s.commands.items };

    ghost invariant = { λ s. IsTree (commands_tree s.commands.items) };
}

impl Script {
    ghost use Rattle.std.specs.Prelude.{◌≡◌};
    ghost use Rattle.sieve_parser.specs.Scripts.{IsTree};
    ghost use Rattle.sieve_parser.specs.View.{commands_tree};

    // The commands as those of a script.
    pub(crate) fn of(commands: Vec<Command>) -> Script
        requires { IsTree (commands_tree commands.items) }
        ensures { result ≡ commands.items }
    {
        Script { commands }
    }

    /// Returns the commands, in order.
    pub fn commands(&self) -> &[Command]
        ensures value { result.now ≡ self.now }
        ensures tree { IsTree (commands_tree self.now) }
    {
        &self.commands
    }
}
