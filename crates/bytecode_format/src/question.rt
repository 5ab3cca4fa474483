// What tests ask: the questions of the bytecode.
ghost use Rattle.std.specs.Prelude.{◌≡◌, slice_get};
ghost use Rattle.bytecode_format.specs.Questions.{asking, takes_params};
ghost use Rattle.bytecode_format.specs.Selection.{order_number, order_numbered, truth_numbered};

use crate::instruction::Instruction;
use crate::operation::{Operation, TestOperation};
use crate::selection::{FieldTest, Scope, Selector, TestCounts, match_number, match_of};
use glob_match::Match;

/// How a size is compared (RFC 5228, section 5.9).
#[derive(Clone, Copy, PartialEq, Eq)]
pub enum Order {
    /// The size is more bytes than the number.
    Over,
    /// The size is fewer bytes than the number.
    Under,
}

impl Order {
    /// Returns the number that means the order: 0 or 1.
    pub fn number(self) -> u8
        ensures { result ≡ order_number self }
    {
        match self {
            Order::Over => 0,
            Order::Under => 1,
        }
    }

    /// Returns the order that the number means; `None` if it means none.
    pub fn of(number: u8) -> Option<Order>
        ensures { result ≡ order_numbered number }
    {
        match number {
            0 => Some(Order::Over),
            1 => Some(Order::Under),
            _ => None,
        }
    }
}

/// What a simple test asks, apart from its strings.
///
/// The checker makes it of a script's test, [`Question::instruction`] puts it into an instruction, and
/// [`TestOperation::question_in`] reads it back from there.
#[derive(Clone, Copy)]
pub enum Question {
    /// `true` and `false`: a truth value without a test.
    Constant(bool),
    /// `header`: whether the selected value of a field with one of the names matches one of the keys.
    Header(FieldTest),
    /// `exists`: whether there is a field with each of the names.
    Exists(Scope),
    /// `size`: whether the message has more, or fewer, bytes than the number.
    Size(Order, u64),
    /// `string`: whether one of the names, which are its sources, matches one of the keys (RFC 5229, section 5).
    String(Match),
    /// `partsize`: whether the current part's content has more, or fewer, bytes than the number. It is our own, like
    /// the two below.
    PartSize(Order, u64),
    /// `partbody`: whether the current part's content matches one of the keys.
    PartBody(Match),
    /// `partdigest`: whether the digest of the current part's content is one of the keys.
    PartDigest,
}

/// Which lists of strings a question takes.
#[derive(Clone, Copy)]
pub struct Takes {
    /// Names of fields, or the sources of `string`.
    pub names: bool,
    /// The names of parameters.
    pub params: bool,
    /// Keys that values are compared with.
    pub keys: bool,
}

/// How many strings each list of a test has.
#[derive(Clone, Copy)]
pub struct Counts {
    /// How many names of fields, or sources, there are.
    pub names: usize,
    /// How many names of parameters there are.
    pub params: usize,
    /// How many keys there are.
    pub keys: usize,
}

/// Upper bounds for the texts of a test, from which [`TestOperation::most`] computes its cost.
#[derive(Clone, Copy)]
pub struct Sizes {
    /// The bytes of the names or sources, with one more for each.
    pub names: u64,
    /// How many names or sources there are.
    pub number: u64,
    /// How many names of parameters there are.
    pub params: u64,
    /// The bytes of the keys, with one more for each.
    pub keys: u64,
}

/// What a test costs at most, in charges.
#[derive(Clone, Copy)]
pub struct Most {
    /// The part that doesn't depend on the message.
    pub fixed: u64,
    /// The charges for each byte of the message, and for one more byte.
    pub scaled: u64,
}

/// How many bytes a digest has.
const DIGEST_LENGTH: u64 = 64;

// Whether the selector selects parameters, by their names.
fn takes_params(selector: Selector) -> bool
    ensures { result ≡ takes_params selector }
{
    match selector {
        Selector::Param => true,
        Selector::Value | Selector::Main | Selector::Sub | Selector::ContentType => false,
    }
}

impl Question {
    ghost use Rattle.std.specs.Prelude.{◌≡◌, ◌<◌, ◌^◌};
    ghost use Rattle.std.specs.Option.{option_to_list};
    ghost use Rattle.bytecode_format.specs.Questions.{instruction_of, row_of};

    /// Returns the number that the question compares a size with; `None` if it compares none.
    pub fn number(self) -> Option<u64>
        ensures { option_to_list result ≡ (row_of self).numbers }
    {
        match self {
            Question::Size(_, number) | Question::PartSize(_, number) => Some(number),
            Question::Constant(_)
            | Question::Header(_)
            | Question::Exists(_)
            | Question::String(_)
            | Question::PartBody(_)
            | Question::PartDigest => None,
        }
    }

    /// Returns which lists of strings the question takes.
    pub fn takes(self) -> Takes
        ensures { result ≡ (row_of self).takes }
    {
        match self {
            Question::Constant(_) | Question::Size(_, _) | Question::PartSize(_, _) => Takes {
                names: false,
                params: false,
                keys: false,
            },
            Question::Header(test) => Takes {
                names: true,
                params: takes_params(test.selector),
                keys: true,
            },
            Question::Exists(_) => Takes {
                names: true,
                params: false,
                keys: false,
            },
            Question::String(_) => Takes {
                names: true,
                params: false,
                keys: true,
            },
            Question::PartBody(_) | Question::PartDigest => Takes {
                names: false,
                params: false,
                keys: true,
            },
        }
    }

    /// Returns the instruction that asks the question with so many strings. `place` is the place of the question's
    /// number in the table of numbers, if it has one.
    ///
    /// # Requires
    ///
    /// Each of the three counts is less than 65,536.
    pub fn instruction(self, counts: Counts, place: u32) -> Instruction
        requires names { counts.names < 2 ^ 16 }
        requires params { counts.params < 2 ^ 16 }
        requires keys { counts.keys < 2 ^ 16 }
        ensures { result ≡ instruction_of self counts place }
    {
        let names = counts.names as u16;
        let keys = counts.keys as u32;
        match self {
            Question::Constant(value) => asking(TestOperation::Constant, u8::from(value), 0, 0),
            Question::Header(test) => {
                let counts = TestCounts {
                    params: counts.params as u16,
                    keys: counts.keys as u16,
                };
                asking(TestOperation::Header, test.number(), names, counts.number())
            }
            Question::Exists(scope) => asking(TestOperation::Exists, scope.number(), names, 0),
            Question::Size(order, _) => asking(TestOperation::Size, order.number(), 0, place),
            Question::String(how) => asking(TestOperation::String, match_number(how), names, keys),
            Question::PartSize(order, _) => {
                asking(TestOperation::PartSize, order.number(), 0, place)
            }
            Question::PartBody(how) => asking(TestOperation::PartBody, match_number(how), 0, keys),
            Question::PartDigest => asking(TestOperation::PartDigest, 0, 0, keys),
        }
    }
}

// An instruction that asks, by its fields.
fn asking(operation: TestOperation, a: u8, b: u16, c: u32) -> Instruction
    ensures { result ≡ asking operation a b c }
{
    Instruction {
        op: Operation::Test(operation).octet(),
        a,
        b,
        c,
    }
}

impl TestOperation {
    ghost use Rattle.std.specs.Prelude.{◌≡◌, ◌+◌, ◌*◌, ◌≤◌};
    ghost use Rattle.octets.specs.Limits.{max_stack, max_string};
    ghost use Rattle.bytecode_format.specs.Questions.{counts_in, most_of, question_in};

    /// Returns the question of an instruction with this operation; `None` if its fields mean none. The question's
    /// number, if it has one, is looked up in `numbers`.
    #[inline(always)]
    pub fn question_in(self, instruction: &Instruction, numbers: &[u64]) -> Option<Question>
        ensures { result ≡ question_in numbers.now self instruction.now }
    {
        let Instruction { a, .. } = *instruction;
        Some(match self {
            TestOperation::Constant => Question::Constant(truth_of(a)?),
            TestOperation::Header => Question::Header(FieldTest::of(a)?),
            TestOperation::Exists => Question::Exists(Scope::of(a)?),
            TestOperation::String => Question::String(match_of(a)?),
            TestOperation::Size => Question::Size(Order::of(a)?, number_in(instruction, numbers)?),
            TestOperation::PartSize => {
                Question::PartSize(Order::of(a)?, number_in(instruction, numbers)?)
            }
            TestOperation::PartBody => Question::PartBody(match_of(a)?),
            TestOperation::PartDigest => Question::PartDigest,
        })
    }

    /// Returns how many strings an instruction with this operation takes.
    #[inline(always)]
    pub fn counts_in(self, instruction: &Instruction) -> Counts
        ensures { result ≡ counts_in self instruction.now }
    {
        let Instruction { b, c, .. } = *instruction;
        let (names, params, keys) = match self {
            TestOperation::Constant | TestOperation::Size | TestOperation::PartSize => (0, 0, 0),
            TestOperation::Header => {
                let TestCounts { params, keys } = TestCounts::of(c);
                (usize::from(b), usize::from(params), usize::from(keys))
            }
            TestOperation::Exists => (usize::from(b), 0, 0),
            TestOperation::String => (usize::from(b), 0, c as usize),
            TestOperation::PartBody | TestOperation::PartDigest => (0, 0, c as usize),
        };
        Counts {
            names,
            params,
            keys,
        }
    }

    /// Returns the most that a test with this operation costs if its texts are no larger than `sizes`.
    ///
    /// # Requires
    ///
    /// There are at most 1,024 names and at most 1,024 parameters. The names take at most 1,024 * 16,385 bytes, and
    /// so do the keys.
    #[inline(always)]
    pub fn most(self, sizes: Sizes) -> Most
        requires names { sizes.names ≤ max_stack * (max_string + 1) }
        requires number { sizes.number ≤ max_stack }
        requires params { sizes.params ≤ max_stack }
        requires keys { sizes.keys ≤ max_stack * (max_string + 1) }
        ensures { result ≡ most_of self sizes }
    {
        let Sizes {
            names,
            number,
            params,
            keys,
        } = sizes;
        let (fixed, scaled) = match self {
            TestOperation::Constant | TestOperation::Size | TestOperation::PartSize => (0, 0),
            TestOperation::Header => (0, names + number * params.max(1) * keys),
            TestOperation::Exists => (0, names),
            TestOperation::String => (names * keys, 0),
            TestOperation::PartBody => (0, keys),
            TestOperation::PartDigest => ((DIGEST_LENGTH + 1) * keys, 0),
        };
        Most { fixed, scaled }
    }
}

// The truth value that a number means, if it means one.
fn truth_of(number: u8) -> Option<bool>
    ensures { result ≡ truth_numbered number }
{
    match number {
        0 => Some(false),
        1 => Some(true),
        _ => None,
    }
}

// The number at the place c of the instruction, if there is one.
fn number_in(instruction: &Instruction, numbers: &[u64]) -> Option<u64>
    ensures { result ≡ slice_get numbers.now instruction.now.c }
{
    numbers.get(instruction.c as usize).copied()
}
