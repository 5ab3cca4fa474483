// Scripts that were checked, in typed form: what they mean, without how they are written.
//
// The typed form of an `if` is its branches in order with their blocks, up to that of the `else`, so the meaning is a
// plain recursion. A form is measured in bytes, from below: a name, number, tag or sign counts one byte, a string its
// value and two. So the measure of a script's form is at most the script's length, and the form's code has at most as
// many instructions.
use crate::table::CommandName;
use bytecode_format::{Modifiers, Question};
use octets::Octets;
use std::slice;

/// A piece of a string: text as it is, or a reference (RFC 5229, section 3).
#[derive(Drop)]
pub enum Segment {
    /// Bytes that mean themselves.
    Text(Octets),
    /// The value of the variable with this name, which is in lower case.
    Variable(Octets),
    /// The text that a wildcard of the last match matched; 0 is the whole value.
    Capture(u8),
}

/// The strings of a simple test, each as its segments. A list that the question doesn't take is empty.
#[derive(Drop)]
pub struct Strings {
    /// The names of fields, or the sources.
    pub names: Vec<Vec<Segment>>,
    /// The names of parameters.
    pub params: Vec<Vec<Segment>>,
    /// The keys that values are compared with.
    pub keys: Vec<Vec<Segment>>,
}

/// A test of a checked script, with the number of the token at which it begins.
#[derive(Drop)]
pub enum Test {
    /// A simple test: its question, with its strings.
    Asks {
        /// What it asks.
        question: Question,
        /// The strings that it asks it with.
        strings: Strings,
        /// The number of its first token, counted from 0.
        at: usize,
    },
    /// `not`: true if its test is false.
    Not {
        /// The test that is negated.
        test: Box<Test>,
        /// The number of its first token, counted from 0.
        at: usize,
    },
    /// `allof`: the first test, and those after it.
    AllOf {
        /// The first test of the list.
        first: Box<Test>,
        /// The tests after it.
        others: Vec<Test>,
        /// The number of its first token, counted from 0.
        at: usize,
    },
    /// `anyof`: the first test, and those after it.
    AnyOf {
        /// The first test of the list.
        first: Box<Test>,
        /// The tests after it.
        others: Vec<Test>,
        /// The number of its first token, counted from 0.
        at: usize,
    },
}

/// The effect of an action, apart from its string. [`Command::Does`] has it.
#[derive(Drop)]
pub enum Act {
    /// `keep`: files the message in the inbox.
    Keep,
    /// `discard`: cancels the implicit keep.
    Discard,
    /// `fileinto`; its string is the folder.
    FileInto,
    /// `set`: its string, after the modifiers, becomes the value of the variable with the name, which is in lower
    /// case (RFC 5229, section 4).
    Set { modifiers: Modifiers, name: Octets },
    /// `take`, of our own: the first bytes of the current part's content, at most so many, become the value of the
    /// variable with the name, which is in lower case.
    Take { most: u16, name: Octets },
    /// `store`, of our own: stores the current part; its string is the folder.
    Store,
    /// `break`: how many of the loops around it are left, the innermost first (RFC 5703, section 3).
    Leave(u8),
    /// `stop`: ends the script.
    Stop,
}

impl Act {
    ghost use Rattle.std.specs.Prelude.{◌≡◌, ℕ, List, option_map};
    ghost use Rattle.std.specs.Borrow.{Bor};
    ghost use Rattle.std.specs.Option.{option_to_list};
    ghost use Rattle.sieve_check.specs.Acts.{act_row, act_strings, left_by};
    ghost use Rattle.sieve_check.specs.TypedView.{templates_of};

    /// Returns the command that has this effect.
    pub fn name(&self) -> CommandName
        ensures { result ≡ (act_row self.now).name }
    {
        match self {
            Act::Keep => CommandName::Keep,
            Act::Discard => CommandName::Discard,
            Act::FileInto => CommandName::FileInto,
            Act::Set { .. } => CommandName::Set,
            Act::Take { .. } => CommandName::Take,
            Act::Store => CommandName::Store,
            Act::Leave(_) => CommandName::Break,
            Act::Stop => CommandName::Stop,
        }
    }

    /// Returns whether the act takes a string.
    pub fn takes_string(&self) -> bool
        ensures { result ≡ (act_row self.now).string }
    {
        match self {
            Act::FileInto | Act::Set { .. } | Act::Store => true,
            Act::Keep | Act::Discard | Act::Take { .. } | Act::Leave(_) | Act::Stop => false,
        }
    }

    /// Returns the strings of the act: `string` alone, or none if it takes none.
    pub fn strings<'s>(&self, string: &'s Vec<Segment>) -> &'s [Vec<Segment>]
        ensures { templates_of result.now ≡ act_strings self.now string.now.items }
    {
        if self.takes_string() {
            slice::from_ref(string)
        } else {
            &[]
        }
    }

    /// Returns the name of the variable that the act sets; `None` if it sets none.
    pub fn sets(&self) -> Option<&Octets>
        ensures { option_to_list (option_map (λ (name : Bor (List ℕ)). name.now) result)
            ≡ (act_row self.now).sets }
    {
        match self {
            Act::Set { name, .. } | Act::Take { name, .. } => Some(name),
            Act::Keep | Act::Discard | Act::FileInto | Act::Store | Act::Leave(_) | Act::Stop =>
                None,
        }
    }

    /// Returns how many of the loops around the act are left; `None` if none are.
    pub fn left(&self) -> Option<u8>
        ensures { result ≡ left_by (act_row self.now).bound }
    {
        match self {
            Act::Leave(left) => Some(*left),
            Act::Keep
            | Act::Discard
            | Act::FileInto
            | Act::Set { .. }
            | Act::Take { .. }
            | Act::Store
            | Act::Stop => None,
        }
    }
}

/// A test of an `if` or `elsif`, with the block that runs if it is true.
#[cycle(typed)]
#[derive(Drop)]
pub struct Branch {
    /// The test of the `if` or `elsif`.
    pub test: Test,
    /// The commands that run if the test is true.
    pub block: Vec<Command>,
    /// The number of its first token, counted from 0.
    pub at: usize,
}

/// A command of a checked script, with the number of the token at which it begins; a choice begins with its first
/// branch. `require` has no typed form.
#[cycle(typed)]
#[derive(Drop)]
pub enum Command {
    /// An action: its act, with its string as segments; no segments if it takes no string.
    Does {
        act: Act,
        string: Vec<Segment>,
        at: usize,
    },
    /// `foreverypart`, with its block (RFC 5703, section 3).
    ForEveryPart {
        block: Vec<Command>,
        at: usize,
    },
    /// `if` and each `elsif` after it, as tests with their blocks; and the block of `else`, if there is one.
    If(Vec<Branch>, Option<Vec<Command>>),
}
