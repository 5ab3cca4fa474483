// The table of operations: their fields and properties, apart from what they do.
ghost use Rattle.std.specs.Prelude.{◌≡◌, ◌&&◌};
ghost use Rattle.bytecode_verifier.specs.Rows;

use bytecode_format::{
    FieldTest, Instruction, Modifiers, Operation, Order, Scope, Selector, TestCounts,
    TestOperation, VERSION_TWO, match_of,
};
use octets::MAX_VALUE;

/// The largest number of strings in the lists of a test.
const MAX_TEST_STRINGS: u16 = bytecode_format::MAX_TEST_STRINGS as u16;

/// The largest number of texts that are joined.
const MAX_SEGMENTS: u32 = bytecode_format::MAX_SEGMENTS as u32;

/// How many captures there are.
const CAPTURES: u32 = glob_match::MAX_CAPTURES as u32;

/// The largest number of loops that are open at a place.
pub const MAX_LOOPS: u32 = bytecode_format::MAX_LOOPS as u32;

/// Which values a field of an instruction can have.
#[derive(Clone, Copy)]
pub enum Range {
    /// The operation doesn't use the field: only 0.
    Unnamed,
    /// The numbers below this one.
    Below(u32),
    /// The numbers from the first to the second, both included.
    Between(u32, u32),
    /// The number of a truth value: 0 or 1.
    Truth,
    /// The number of an order, as [`bytecode_format::Order::number`] gives it.
    Order,
    /// The number of a way to match values with keys, as [`bytecode_format::match_number`] gives it.
    Match,
    /// The number of a scope, as [`bytecode_format::Scope::number`] gives it.
    Scope,
    /// The number of a test of fields, as [`bytecode_format::FieldTest::number`] gives it.
    FieldTest,
    /// The number of keys and parameters. There are parameters exactly if the instruction's field a selects them.
    Counts,
    /// The number of modifiers, as [`bytecode_format::Modifiers::number`] gives it.
    Modifiers,
    /// Every number that the field holds.
    Any,
}

/// A table of a program that the field c of an instruction is an index into.
#[derive(Clone, Copy)]
pub enum Table {
    /// The variables of the program.
    Variables,
    /// The table of numbers.
    Numbers,
    /// The table of strings.
    Strings,
}

/// The row of an operation in the table of the bytecode: the ranges of its fields, and what the verifier has to
/// check. [`row_of`] gives it.
#[derive(Clone, Copy)]
pub struct Row {
    /// The range of the field a.
    pub a: Range,
    /// The range of the field b.
    pub b: Range,
    /// The range of the field c.
    pub c: Range,
    /// The table that the field c is an index into, if it is one.
    pub index: Option<Table>,
    /// Whether the operation jumps to the place c.
    pub jumps: bool,
    /// Whether the operation needs a current part, so it has to be inside a loop.
    pub needs_part: bool,
    /// Whether only programs of version 2 have the operation.
    pub since_two: bool,
}

/// An operation that uses no field.
const PLAIN: Row = Row {
    a: Range::Unnamed,
    b: Range::Unnamed,
    c: Range::Unnamed,
    index: None,
    jumps: false,
    needs_part: false,
    since_two: false,
};

/// An operation that jumps to c.
const JUMP: Row = Row {
    c: Range::Any,
    jumps: true,
    ..PLAIN
};

/// A size compared with a number.
const SIZE: Row = Row {
    a: Range::Order,
    c: Range::Any,
    index: Some(Table::Numbers),
    ..PLAIN
};

/// An operation on the current part that uses no field.
const PART: Row = Row {
    needs_part: true,
    ..PLAIN
};

/// How many strings a list of a test has.
const LIST: Range = Range::Between(1, MAX_TEST_STRINGS as u32);

/// The row of an operation in programs of a version, if they can have it.
#[inline(always)]
pub fn row_in_version(version: u8, operation: Operation) -> Option<Row>
    ensures { result ≡ Rows.row_in_version version operation }
{
    let row = row_of(operation);
    if row.since_two && version != VERSION_TWO {
        return None;
    }
    Some(row)
}

/// Returns the row of an operation.
#[inline(always)]
pub fn row_of(operation: Operation) -> Row
    ensures { result ≡ Rows.row_of operation }
{
    match operation {
        Operation::Halt | Operation::Not | Operation::Keep | Operation::Discard | Operation::File =>
            PLAIN,
        Operation::Literal => Row {
            c: Range::Any,
            index: Some(Table::Strings),
            ..PLAIN
        },
        Operation::Variable => Row {
            c: Range::Any,
            index: Some(Table::Variables),
            ..PLAIN
        },
        Operation::Capture => Row {
            a: Range::Below(CAPTURES),
            ..PLAIN
        },
        Operation::Join => Row {
            b: Range::Between(2, MAX_SEGMENTS),
            ..PLAIN
        },
        Operation::Set => Row {
            a: Range::Modifiers,
            c: Range::Any,
            index: Some(Table::Variables),
            ..PLAIN
        },
        Operation::Test(test) => test_row(test),
        Operation::Jump | Operation::JumpIfTrue | Operation::JumpIfFalse => JUMP,
        Operation::Store => PART,
        Operation::Each | Operation::Next => Row {
            c: Range::Any,
            ..PLAIN
        },
        Operation::Break => Row {
            a: Range::Between(1, MAX_LOOPS),
            ..PLAIN
        },
        Operation::Take => Row {
            b: Range::Between(1, MAX_VALUE as u32),
            c: Range::Any,
            index: Some(Table::Variables),
            since_two: true,
            ..PART
        },
    }
}

// The row of a test.
#[inline(always)]
fn test_row(test: TestOperation) -> Row
    ensures { result ≡ Rows.test_row test }
{
    match test {
        TestOperation::Constant => Row {
            a: Range::Truth,
            ..PLAIN
        },
        TestOperation::Header => Row {
            a: Range::FieldTest,
            b: LIST,
            c: Range::Counts,
            ..PLAIN
        },
        TestOperation::Exists => Row {
            a: Range::Scope,
            b: LIST,
            ..PLAIN
        },
        TestOperation::String => Row {
            a: Range::Match,
            b: LIST,
            c: LIST,
            ..PLAIN
        },
        TestOperation::Size => SIZE,
        TestOperation::PartSize => Row {
            needs_part: true,
            ..SIZE
        },
        TestOperation::PartBody => Row {
            a: Range::Match,
            c: LIST,
            ..PART
        },
        TestOperation::PartDigest => Row { c: LIST, ..PART },
    }
}

impl Range {
    /// Returns whether the field of an instruction can have the value. `a` is the value of the instruction's field a.
    #[inline(always)]
    pub fn takes(self, a: u8, value: u32) -> bool
        ensures { result ≡ Rows.takes a self value }
    {
        match self {
            Range::Unnamed => value == 0,
            Range::Below(bound) => value < bound,
            Range::Between(least, most) => least <= value && value <= most,
            Range::Truth => matches!(value, 0 | 1),
            Range::Order => value < 256 && Order::of(value as u8).is_some(),
            Range::Match => value < 256 && match_of(value as u8).is_some(),
            Range::Scope => value < 256 && Scope::of(value as u8).is_some(),
            Range::FieldTest => value < 256 && FieldTest::of(value as u8).is_some(),
            Range::Counts => are_counts(a, value),
            Range::Modifiers => value < 256 && Modifiers::of(value as u8).is_some(),
            Range::Any => true,
        }
    }
}

// Whether the number `a` of a test of fields selects parameters.
fn selects_params(a: u8) -> bool
    ensures { result ≡ Rows.selects_params a }
{
    matches!(
        FieldTest::of(a),
        Some(FieldTest {
            selector: Selector::Param,
            ..
        })
    )
}

// Whether there are keys, and there are parameters exactly if `a` selects them.
fn are_counts(a: u8, value: u32) -> bool
    ensures { result ≡ Rows.are_counts a value }
{
    let TestCounts { params, keys } = TestCounts::of(value);
    let fine = if selects_params(a) {
        is_list(params)
    } else {
        params == 0
    };
    is_list(keys) && fine
}

// Whether a list of a test can have so many strings.
fn is_list(strings: u16) -> bool
    ensures { result ≡ Rows.is_list strings }
{
    1 <= strings && strings <= MAX_TEST_STRINGS
}
