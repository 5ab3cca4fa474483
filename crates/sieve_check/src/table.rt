// The names of commands and tests, and the properties of each, one row each (RFC 5228, sections 3 to 5; RFC 5229,
// sections 4 and 5; RFC 5703, sections 3 and 4).
ghost use Rattle.std.specs.Prelude.{◌≡◌, option_map};
ghost use Rattle.std.specs.List.{find};
ghost use Rattle.octets.specs.Ascii.{is_word};
ghost use Rattle.sieve_check.specs.Private.{row_view};
ghost use Rattle.sieve_check.specs.Rows.{all_commands, all_tests, block, command, command_row, command_word, is_test, part_test, test, test_row, test_word};
ghost use Rattle.sieve_check.specs.Names.{command_named, test_known, test_named};
ghost use Rattle.sieve_check.specs.Signatures.{command_signature, test_signature};

use crate::names::Capability;
use crate::signature::{Ending, Positional, Signature, Tests};
use octets::is_word;

/// A command of the language. [`command_named`] finds it by its name.
#[derive(Clone, Copy, PartialEq, Eq)]
pub enum CommandName {
    /// `require` (RFC 5228, section 3.2).
    Require,
    /// `if` (RFC 5228, section 3.1).
    If,
    /// `elsif` (RFC 5228, section 3.1).
    Elsif,
    /// `else` (RFC 5228, section 3.1).
    Else,
    /// `stop` (RFC 5228, section 3.3).
    Stop,
    /// `keep` (RFC 5228, section 4.3).
    Keep,
    /// `discard` (RFC 5228, section 4.4).
    Discard,
    /// `fileinto` (RFC 5228, section 4.1).
    FileInto,
    /// `set` (RFC 5229, section 4).
    Set,
    /// `foreverypart` (RFC 5703, section 3).
    ForEveryPart,
    /// `break` (RFC 5703, section 3).
    Break,
    /// `store`, of our own.
    Store,
    /// `take`, of our own.
    Take,
}

/// A test of the language. [`test_named`] finds it by its name.
#[derive(Clone, Copy)]
pub enum TestName {
    /// `true` and `false` (RFC 5228, sections 5.10 and 5.6).
    Constant(bool),
    /// `not` (RFC 5228, section 5.8).
    Not,
    /// `allof` (RFC 5228, section 5.2).
    AllOf,
    /// `anyof` (RFC 5228, section 5.3).
    AnyOf,
    /// `header` (RFC 5228, section 5.7).
    Header,
    /// `exists` (RFC 5228, section 5.5).
    Exists,
    /// `size` (RFC 5228, section 5.9).
    Size,
    /// `string` (RFC 5229, section 5).
    String,
    /// `partsize`, of our own, like the two below.
    PartSize,
    /// `partbody`, of our own.
    PartBody,
    /// `partdigest`, of our own.
    PartDigest,
}

/// Where a command or test is allowed.
#[derive(Clone, Copy)]
pub enum Place {
    Anywhere,
    /// At the top level, and after no other command than `require`.
    AtTop,
    /// Directly after an `if` or `elsif`.
    AfterIf,
    /// In a loop.
    InLoop,
    /// Where there is a loop to leave: the nearest, or the nearest with the name that it gives.
    ToLeave,
}

/// What variables have to do with the strings of a command or test.
#[derive(Clone, Copy)]
pub enum Role {
    /// All of them are expanded.
    Expanded,
    /// They are taken as they are written.
    AsWritten,
    /// The first is the name of a variable, as it is written; the others are expanded.
    NameThenValue,
    /// The first is the name of a variable, as it is written.
    NameAlone,
}

/// The effect of a command on those after it.
#[derive(Clone, Copy)]
pub enum Follows {
    /// What it names is required, and more can be required after it.
    Requires,
    /// An `elsif` or `else` is allowed directly after it.
    Branches,
    /// It has neither effect.
    Others,
}

/// The properties of a command or test.
#[derive(Clone, Copy)]
pub struct Row {
    /// Its name, in lower case.
    pub word: &'static str,
    /// What has to be required for it; `:mime` also needs its own capability.
    pub needs: &'static [Capability],
    /// The arguments and tests that it takes.
    pub signature: Signature,
    /// How a command ends. A test has no ending, and at most [`MAX_TEST_STRINGS`](crate::MAX_TEST_STRINGS) strings.
    pub ending: Option<Ending>,
    pub place: Place,
    pub role: Role,
    /// Whether a loop is open around its block.
    pub opens: bool,
    pub follows: Follows,
}

// Takes nothing.
const NOTHING: Signature = Signature {
    order: false,
    matching: false,
    modifying: false,
    scoped: false,
    selecting: false,
    naming: false,
    limiting: false,
    positional: Positional::Nothing,
    tests: Tests::Nothing,
};

// Takes one test.
const ONE_TEST: Signature = Signature {
    tests: Tests::One,
    ..NOTHING
};

// Takes tests in parentheses.
const TESTS_IN_PARENTHESES: Signature = Signature {
    tests: Tests::Bracketed,
    ..NOTHING
};

// Takes a string.
const TEXT: Signature = Signature {
    positional: Positional::Text,
    ..NOTHING
};

// Takes a list.
const LIST: Signature = Signature {
    positional: Positional::OneList,
    ..NOTHING
};

// Takes values and keys, and how they are matched.
const MATCH: Signature = Signature {
    matching: true,
    positional: Positional::TwoLists,
    ..NOTHING
};

// Takes a number, and the order that a size is compared with it by.
const SIZE: Signature = Signature {
    order: true,
    positional: Positional::Number,
    ..NOTHING
};

// Takes the name of a loop.
const LOOP_NAME: Signature = Signature {
    naming: true,
    ..NOTHING
};

// The row of a command with this name that is allowed anywhere, takes nothing, and ends with a semicolon.
#[inline(always)]
fn command(word: &'static str) -> Row
    ensures { row_view result ≡ command word.now }
{
    Row {
        ending: Some(Ending::Semicolon),
        ..test(word)
    }
}

// The row of a command that ends with a block, else as above.
#[inline(always)]
fn block(word: &'static str) -> Row
    ensures { row_view result ≡ block word.now }
{
    Row {
        ending: Some(Ending::Block),
        ..test(word)
    }
}

// The row of a test with this name that is allowed anywhere and takes nothing.
#[inline(always)]
fn test(word: &'static str) -> Row
    ensures { row_view result ≡ test word.now }
{
    Row {
        word,
        needs: &[],
        signature: NOTHING,
        ending: None,
        place: Place::Anywhere,
        role: Role::Expanded,
        opens: false,
        follows: Follows::Others,
    }
}

// The row of a test of the current part that takes nothing.
#[inline(always)]
fn part_test(word: &'static str) -> Row
    ensures { row_view result ≡ part_test word.now }
{
    Row {
        needs: &[Capability::Depot],
        place: Place::InLoop,
        ..test(word)
    }
}

/// The row of a command. It is inlined, so that a caller that reads only one field makes no row.
#[inline(always)]
pub fn command_row(name: CommandName) -> Row
    ensures { row_view result ≡ command_row name }
{
    match name {
        CommandName::Require => Row {
            signature: LIST,
            place: Place::AtTop,
            role: Role::AsWritten,
            follows: Follows::Requires,
            ..command("require")
        },
        CommandName::If => Row {
            signature: ONE_TEST,
            follows: Follows::Branches,
            ..block("if")
        },
        CommandName::Elsif => Row {
            signature: ONE_TEST,
            place: Place::AfterIf,
            follows: Follows::Branches,
            ..block("elsif")
        },
        CommandName::Else => Row {
            place: Place::AfterIf,
            ..block("else")
        },
        CommandName::Stop => command("stop"),
        CommandName::Keep => command("keep"),
        CommandName::Discard => command("discard"),
        CommandName::FileInto => Row {
            needs: &[Capability::FileInto],
            signature: TEXT,
            ..command("fileinto")
        },
        CommandName::Set => Row {
            needs: &[Capability::Variables],
            signature: Signature {
                modifying: true,
                positional: Positional::TwoTexts,
                ..NOTHING
            },
            role: Role::NameThenValue,
            ..command("set")
        },
        CommandName::ForEveryPart => Row {
            needs: &[Capability::ForEveryPart],
            signature: LOOP_NAME,
            opens: true,
            ..block("foreverypart")
        },
        CommandName::Break => Row {
            needs: &[Capability::ForEveryPart],
            signature: LOOP_NAME,
            place: Place::ToLeave,
            ..command("break")
        },
        CommandName::Store => Row {
            needs: &[Capability::Depot],
            signature: TEXT,
            place: Place::InLoop,
            ..command("store")
        },
        CommandName::Take => Row {
            needs: &[Capability::Variables, Capability::Depot],
            signature: Signature {
                limiting: true,
                ..TEXT
            },
            place: Place::InLoop,
            role: Role::NameAlone,
            ..command("take")
        },
    }
}

/// The row of a test. It is inlined like [`command_row`].
#[inline(always)]
pub fn test_row(name: TestName) -> Row
    ensures { row_view result ≡ test_row name }
{
    match name {
        TestName::Constant(true) => test("true"),
        TestName::Constant(false) => test("false"),
        TestName::Not => Row {
            signature: ONE_TEST,
            ..test("not")
        },
        TestName::AllOf => Row {
            signature: TESTS_IN_PARENTHESES,
            ..test("allof")
        },
        TestName::AnyOf => Row {
            signature: TESTS_IN_PARENTHESES,
            ..test("anyof")
        },
        TestName::Header => Row {
            signature: Signature {
                scoped: true,
                selecting: true,
                ..MATCH
            },
            ..test("header")
        },
        TestName::Exists => Row {
            signature: Signature {
                scoped: true,
                ..LIST
            },
            ..test("exists")
        },
        TestName::Size => Row {
            signature: SIZE,
            ..test("size")
        },
        TestName::String => Row {
            needs: &[Capability::Variables],
            signature: MATCH,
            ..test("string")
        },
        TestName::PartSize => Row {
            signature: SIZE,
            ..part_test("partsize")
        },
        TestName::PartBody => Row {
            signature: Signature {
                matching: true,
                ..LIST
            },
            ..part_test("partbody")
        },
        TestName::PartDigest => Row {
            signature: LIST,
            ..part_test("partdigest")
        },
    }
}

// All commands.
const COMMANDS: &[CommandName] = &[
    CommandName::Require,
    CommandName::If,
    CommandName::Elsif,
    CommandName::Else,
    CommandName::Stop,
    CommandName::Keep,
    CommandName::Discard,
    CommandName::FileInto,
    CommandName::Set,
    CommandName::ForEveryPart,
    CommandName::Break,
    CommandName::Store,
    CommandName::Take,
];

// All tests.
const TESTS: &[TestName] = &[
    TestName::Constant(true),
    TestName::Constant(false),
    TestName::Not,
    TestName::AllOf,
    TestName::AnyOf,
    TestName::Header,
    TestName::Exists,
    TestName::Size,
    TestName::String,
    TestName::PartSize,
    TestName::PartBody,
    TestName::PartDigest,
];

/// Returns all commands of the language.
pub fn all_commands() -> &'static [CommandName]
    ensures { result.now ≡ all_commands }
{
    COMMANDS
}

/// Returns all tests of the language.
pub fn all_tests() -> &'static [TestName]
    ensures { result.now ≡ all_tests }
{
    TESTS
}

/// Returns the name of a command, in lower case.
pub fn command_word(name: CommandName) -> &'static str
    ensures { result.now ≡ command_word name }
{
    command_row(name).word
}

/// Returns the name of a test, in lower case.
pub fn test_word(name: TestName) -> &'static str
    ensures { result.now ≡ test_word name }
{
    test_row(name).word
}

// The first of the commands with this name.
fn first_command(name: &[u8], commands: &[CommandName]) -> Option<CommandName>
    ensures { result ≡ find (λ known. is_word name.now (command_word known)) commands.now }
{
    for known in commands {
        if is_word(name, command_word(*known).as_bytes()) {
            return Some(*known);
        }
    }
    None
}

// The first of the tests with this name.
fn first_test(name: &[u8], tests: &[TestName]) -> Option<TestName>
    ensures { result ≡ find (λ known. is_word name.now (test_word known)) tests.now }
{
    for known in tests {
        if is_word(name, test_word(*known).as_bytes()) {
            return Some(*known);
        }
    }
    None
}

/// Returns the command with this name; `None` if there is none. ASCII case is ignored.
pub fn command_named(name: &[u8]) -> Option<CommandName>
    ensures { result ≡ command_named name.now }
{
    first_command(name, COMMANDS)
}

/// Returns the test with this name; `None` if there is none. ASCII case is ignored.
pub fn test_named(name: &[u8]) -> Option<TestName>
    ensures { result ≡ test_named name.now }
{
    first_test(name, TESTS)
}

/// Returns what a command takes: its tags, arguments and tests.
pub fn command_signature(name: CommandName) -> Signature
    ensures { result ≡ command_signature name }
{
    command_row(name).signature
}

/// Returns what a test takes: its tags, arguments and tests.
pub fn test_signature(name: TestName) -> Signature
    ensures { result ≡ test_signature name }
{
    test_row(name).signature
}

/// Whether this is the ending of a test, which is none.
pub fn is_test(ending: Option<Ending>) -> bool
    ensures { result ≡ is_test ending }
{
    ending.is_none()
}

/// The row of a command, if it is known.
pub fn known_command(name: Option<CommandName>) -> Option<Row>
    ensures { option_map row_view result ≡ option_map command_row name }
{
    Some(command_row(name?))
}

/// The row of the test with this name, if there is one.
pub fn test_known(name: &[u8]) -> Option<Row>
    ensures { option_map row_view result ≡ test_known name.now }
{
    Some(test_row(test_named(name)?))
}
