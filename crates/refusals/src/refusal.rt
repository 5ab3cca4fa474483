// The refusals, with their numbers and names.
//
// A fault in a listing is `28 Listing`, with its byte: the first number after those of programs. The numbers of the
// other refusals stay.
ghost use Rattle.std.specs.Prelude.{◌≡◌, None, Some};
ghost use Rattle.refusals.specs.declared.refusal.Refusal.TheVariants.{Memory};

use std::alloc::{AllocError, AllocFailed};
use std::error::Error;
use std::fmt::{self, Display};

/// Why depot refuses a command; the calls from `sieve_engine` upwards return it as their error. It displays as the line
/// that the program prints, `refused 25 Jump at 2`: the number, the name and, for some refusals, the place.
/// `depot help 25` explains number 25.
#[derive(Debug, Drop, PartialEq, Eq)]
pub enum Refusal {
    /// Memory was refused.
    Memory,
    /// A message or a file is longer than the limit in bytes.
    MessageTooLarge,
    /// A message has more parts than the limit.
    TooManyParts,
    /// A text isn't a valid text of its encoding.
    NotCanonical,
    /// At this byte of a script neither a token nor white space nor a comment begins.
    Lexical { place: usize },
    /// A script is longer than the limit in bytes.
    ScriptTooLong,
    /// No script begins with the tokens up to and including this one; the end of the script counts as a token.
    Syntax { place: usize },
    /// This token is the brace or the test name that would be nested too deep.
    TooDeep { place: usize },
    /// No command or test has this name. The place of this refusal and of the next four is a token.
    UnknownCommand { place: usize },
    /// The command or test needs a capability that the script didn't require.
    MissingCapability { place: usize },
    /// `require` names a capability that doesn't exist.
    UnknownCapability { place: usize },
    /// The command or test is in a wrong place, or has other arguments, tests or another end than it takes; or a
    /// reference in one of its strings has a namespace or refers to a capture above the last one; or the name that
    /// `set` or `take` gives isn't an identifier; or no open loop has the name that a `break` gives.
    BadArguments { place: usize },
    /// The command or test has a string that is too long, or too many strings in its lists; or one of its strings has
    /// too many segments, or names a variable with a name that is too long; or it is the first for which the script has
    /// too many variables; or it is a loop nested in too many others.
    Limit { place: usize },
    /// The bytes of a program aren't the spelling of any program.
    Spelling,
    /// An instruction's index refers to something that isn't there. The place of this refusal and of the next six is an
    /// instruction.
    Index { place: usize },
    /// The operation doesn't exist, a field is out of range, or a field that the operation doesn't use isn't 0.
    Form { place: usize },
    /// The last instruction doesn't end the run.
    End { place: usize },
    /// A loop has no matching other end, too many loops are open, or a break leaves more loops than are open.
    Loop { place: usize },
    /// A jump doesn't go forward, or its target isn't an instruction or has other open loops.
    Jump { place: usize },
    /// The operation needs a current part, but no loop is open.
    NoPart { place: usize },
    /// A stack entry is missing or has the wrong kind, there are too many entries, or one is left that isn't allowed.
    Stack { place: usize },
    /// At this byte of a listing is something that isn't allowed there; or it is the listing's end, and the listed
    /// program exceeds the limits of programs.
    Listing { place: usize },
    /// The user has no entry with that number, or no filter program to give back.
    NoSuchEntry,
    /// The user has too few numbers left for the new entries.
    NumberFull,
    /// Another content has the same digest and different bytes.
    Collision,
    /// The database refused a call or failed, or a stored program no longer reads and verifies.
    Database,
    /// The name isn't a valid user name.
    UserName,
    /// A file couldn't be made or written, or standard output failed.
    Write,
    /// A file or standard input couldn't be read.
    Read,
}

// A row of the table of refusals: what a refusal's line consists of.
#[derive(Drop)]
struct Row {
    number: u8,
    name: &'static str,
    place: Option<usize>,
}

impl Row {
    // The row of a refusal without a place.
    fn plain(number: u8, name: &'static str) -> Row
        ensures number { result.number ≡ number }
        ensures name { result.name.now ≡ name.now }
        ensures place { result.place ≡ None }
    {
        Row {
            number,
            name,
            place: None,
        }
    }

    // The row of a refusal with a place.
    fn placed(number: u8, name: &'static str, place: usize) -> Row
        ensures number { result.number ≡ number }
        ensures name { result.name.now ≡ name.now }
        ensures place { result.place ≡ Some place }
    {
        Row {
            number,
            name,
            place: Some(place),
        }
    }
}

impl Refusal {
    ghost use Rattle.refusals.specs.Lines.{number_of, name_of, place_of};

    // This refusal's row in the table.
    fn row(&self) -> Row
        ensures number { result.number ≡ number_of self.now }
        ensures name { result.name.now ≡ name_of self.now }
        ensures place { result.place ≡ place_of self.now }
    {
        match self {
            Refusal::Memory => Row::plain(1, "Memory"),
            Refusal::MessageTooLarge => Row::plain(2, "MessageTooLarge"),
            Refusal::TooManyParts => Row::plain(3, "TooManyParts"),
            Refusal::NotCanonical => Row::plain(10, "NotCanonical"),
            Refusal::Lexical { place } => Row::placed(11, "Lexical", *place),
            Refusal::ScriptTooLong => Row::plain(12, "ScriptTooLong"),
            Refusal::Syntax { place } => Row::placed(13, "Syntax", *place),
            Refusal::TooDeep { place } => Row::placed(14, "TooDeep", *place),
            Refusal::UnknownCommand { place } => Row::placed(15, "UnknownCommand", *place),
            Refusal::MissingCapability { place } => Row::placed(16, "MissingCapability", *place),
            Refusal::UnknownCapability { place } => Row::placed(17, "UnknownCapability", *place),
            Refusal::BadArguments { place } => Row::placed(18, "BadArguments", *place),
            Refusal::Limit { place } => Row::placed(19, "Limit", *place),
            Refusal::Spelling => Row::plain(20, "Spelling"),
            Refusal::Index { place } => Row::placed(21, "Index", *place),
            Refusal::Form { place } => Row::placed(22, "Form", *place),
            Refusal::End { place } => Row::placed(23, "End", *place),
            Refusal::Loop { place } => Row::placed(24, "Loop", *place),
            Refusal::Jump { place } => Row::placed(25, "Jump", *place),
            Refusal::NoPart { place } => Row::placed(26, "NoPart", *place),
            Refusal::Stack { place } => Row::placed(27, "Stack", *place),
            Refusal::Listing { place } => Row::placed(28, "Listing", *place),
            Refusal::NoSuchEntry => Row::plain(40, "NoSuchEntry"),
            Refusal::NumberFull => Row::plain(41, "NumberFull"),
            Refusal::Collision => Row::plain(42, "Collision"),
            Refusal::Database => Row::plain(43, "Database"),
            Refusal::UserName => Row::plain(44, "UserName"),
            Refusal::Write => Row::plain(45, "Write"),
            Refusal::Read => Row::plain(46, "Read"),
        }
    }

    /// The number, from 1 to 46, for example 43 for `Database`.
    pub fn number(&self) -> u8
        ensures { result ≡ number_of self.now }
    {
        self.row().number
    }

    /// The name, for example `Database`.
    pub fn name(&self) -> &'static str
        ensures { result.now ≡ name_of self.now }
    {
        self.row().name
    }

    /// The place, if this refusal has one, counted from 0: a byte of a script or a listing, a token of a script, or an
    /// instruction of a program.
    pub fn place(&self) -> Option<usize>
        ensures { result ≡ place_of self.now }
    {
        self.row().place
    }
}

/// The line of a refusal, without its line break: `refused 43 Database`, or `refused 25 Jump at 2`.
impl Display for Refusal {
    ghost use Rattle.refusals.specs.Lines.{refusal_text};

    ghost output = { λ refusal. Some (refusal_text refusal) };

    fn fmt<W: fmt::Write>(&self, f: &mut fmt::Formatter<W>) -> fmt::Result {
        let Row {
            number,
            name,
            place,
        } = self.row();
        match place {
            None => write!(f, "refused {number} {name}"),
            Some(place) => write!(f, "refused {number} {name} at {place}"),
        }
    }
}

impl Error for Refusal {}

impl From<AllocError> for Refusal {
    ghost from_gives = { λ _ e. e ≡ Memory };

    fn from(_refused: AllocError) -> Refusal {
        Refusal::Memory
    }
}

impl<T: Drop> From<AllocFailed<T>> for Refusal {
    ghost from_gives = { λ _ e. e ≡ Memory };

    fn from(_refused: AllocFailed<T>) -> Refusal {
        Refusal::Memory
    }
}
