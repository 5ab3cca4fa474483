// Tests in the fields of an instruction.
//
// The numbers of tests have two functions each: the compiler asks for the number of a match, a scope or a selector,
// the verifier and the machine for the meaning of a number. A law says that the two fit together, which the proof
// that code means its script needs.
ghost use Rattle.std.specs.Prelude.{◌≡◌, ◌≤◌, ◌<◌};
ghost use Rattle.bytecode_format.specs.Selection.{comparator_number, comparator_numbered, counts_number, counts_numbered, field_test_number, field_test_numbered, kind_number, kind_numbered, match_number, match_numbered, scope_number, scope_numbered, selector_number, selector_numbered};

use glob_match::{Comparator, Match, MatchType};

// How many numbers there are for a way to match, for a way to match with a comparator, and for a scope.
const KIND_NUMBERS: u8 = 4;

const MATCH_NUMBERS: u8 = 8;

const SCOPE_NUMBERS: u8 = 4;

// How many numbers there are for a count of keys.
const KEY_NUMBERS: u32 = 65_536;

/// Which parts' headers a test looks at (RFC 5703, section 4.1).
#[derive(Clone, Copy)]
pub enum Scope {
    /// The header of the message itself, which is its first part.
    Message,
    /// `:mime`: the header of the current part, or of the message itself outside all loops.
    Part,
    /// `:mime` and `:anychild`: that header, and those of all parts below it.
    PartAndBelow,
}

/// What a test takes of a field (RFC 5703, section 4.1).
#[derive(Clone, Copy)]
pub enum Selector {
    /// The whole value of the field.
    Value,
    /// Its media type without the subtype, or its disposition.
    Main,
    /// The subtype of its media type.
    Sub,
    /// Its media type with the subtype, or its disposition.
    ContentType,
    /// The values of the parameters of given names.
    Param,
}

/// How a test of fields selects values, and how it matches them with keys. It is the field a of HEADER.
#[derive(Clone, Copy)]
pub struct FieldTest {
    /// How values are matched with keys.
    pub how: Match,
    /// Which headers are looked at.
    pub scope: Scope,
    /// What is taken of a field.
    pub selector: Selector,
}

/// How many parameters and keys a test of fields has. It is the field c of HEADER.
#[derive(Clone, Copy)]
pub struct TestCounts {
    /// How many names of parameters there are.
    pub params: u16,
    /// How many keys there are.
    pub keys: u16,
}

impl Scope {
    /// Returns the number that means the scope: 0 to 2.
    pub fn number(self) -> u8
        ensures number { result ≡ scope_number self }
        ensures small { result ≤ 2 }
    {
        match self {
            Scope::Message => 0,
            Scope::Part => 1,
            Scope::PartAndBelow => 2,
        }
    }

    /// Returns the scope that the number means; `None` if it means none.
    pub fn of(number: u8) -> Option<Scope>
        ensures { result ≡ scope_numbered number }
    {
        Some(match number {
            0 => Scope::Message,
            1 => Scope::Part,
            2 => Scope::PartAndBelow,
            _ => return None,
        })
    }
}

impl Selector {
    /// Returns the number that means the selector: 0 to 4.
    pub fn number(self) -> u8
        ensures number { result ≡ selector_number self }
        ensures small { result ≤ 4 }
    {
        match self {
            Selector::Value => 0,
            Selector::Main => 1,
            Selector::Sub => 2,
            Selector::ContentType => 3,
            Selector::Param => 4,
        }
    }

    /// Returns the selector that the number means; `None` if it means none.
    pub fn of(number: u8) -> Option<Selector>
        ensures { result ≡ selector_numbered number }
    {
        Some(match number {
            0 => Selector::Value,
            1 => Selector::Main,
            2 => Selector::Sub,
            3 => Selector::ContentType,
            4 => Selector::Param,
            _ => return None,
        })
    }
}

// The number of a way to match: 0 to 2.
fn kind_number(kind: MatchType) -> u8
    ensures number { result ≡ kind_number kind }
    ensures small { result ≤ 2 }
{
    match kind {
        MatchType::Is => 0,
        MatchType::Contains => 1,
        MatchType::Matches => 2,
    }
}

// The way to match that the number means, if it means one.
fn kind_of(number: u8) -> Option<MatchType>
    ensures { result ≡ kind_numbered number }
{
    Some(match number {
        0 => MatchType::Is,
        1 => MatchType::Contains,
        2 => MatchType::Matches,
        _ => return None,
    })
}

// The number of a comparator: 0 or 1.
fn comparator_number(comparator: Comparator) -> u8
    ensures number { result ≡ comparator_number comparator }
    ensures small { result ≤ 1 }
{
    match comparator {
        Comparator::Casemap => 0,
        Comparator::Octet => 1,
    }
}

// The comparator that the number means, if it means one.
fn comparator_of(number: u8) -> Option<Comparator>
    ensures { result ≡ comparator_numbered number }
{
    Some(match number {
        0 => Comparator::Casemap,
        1 => Comparator::Octet,
        _ => return None,
    })
}

/// Returns the number that means how values are matched with keys: 0 to 6.
pub fn match_number(how: Match) -> u8
    ensures number { result ≡ match_number how }
    ensures small { result ≤ 6 }
{
    kind_number(how.kind) + KIND_NUMBERS * comparator_number(how.comparator)
}

/// Returns how values are matched with keys: bits 0 and 1 of the number are one of three ways, bit 2 is one of two
/// comparators. `None` if it means none.
pub fn match_of(number: u8) -> Option<Match>
    ensures { result ≡ match_numbered number }
{
    Some(Match {
        kind: kind_of(number % KIND_NUMBERS)?,
        comparator: comparator_of(number / KIND_NUMBERS)?,
    })
}

impl FieldTest {
    /// Returns the number that means the test: how values are matched, plus 8 times the scope, plus 32 times the
    /// selector.
    pub fn number(self) -> u8
        ensures { result ≡ field_test_number self }
    {
        match_number(self.how)
            + MATCH_NUMBERS * self.scope.number()
            + MATCH_NUMBERS * SCOPE_NUMBERS * self.selector.number()
    }

    /// Returns the test that the number means; `None` if it means none.
    pub fn of(number: u8) -> Option<FieldTest>
        ensures { result ≡ field_test_numbered number }
    {
        Some(FieldTest {
            how: match_of(number % MATCH_NUMBERS)?,
            scope: Scope::of(number / MATCH_NUMBERS % SCOPE_NUMBERS)?,
            selector: Selector::of(number / (MATCH_NUMBERS * SCOPE_NUMBERS))?,
        })
    }
}

impl TestCounts {
    /// Returns the number that means the counts: that of the keys, plus 65,536 times that of the parameters.
    pub fn number(self) -> u32
        ensures { result ≡ counts_number self }
    {
        u32::from(self.keys) + KEY_NUMBERS * u32::from(self.params)
    }

    /// Returns the counts that the number means.
    pub fn of(number: u32) -> TestCounts
        ensures { result ≡ counts_numbered number }
    {
        TestCounts {
            params: (number / KEY_NUMBERS) as u16,
            keys: (number % KEY_NUMBERS) as u16,
        }
    }
}
