// The properties of each tag, one row each (RFC 5228, sections 2.7 and 5.9; RFC 5229, section 4.1; RFC 5703, sections
// 3 and 4.1).
ghost use Rattle.std.specs.Prelude.{◌≡◌};
ghost use Rattle.std.specs.List.{find};
ghost use Rattle.octets.specs.Ascii.{is_word};
ghost use Rattle.sieve_check.specs.Names.{tag_named};
ghost use Rattle.sieve_check.specs.Private.{tag_view};
ghost use Rattle.sieve_check.specs.TagRows.{first_letter_word, kind_word, letters_word, order_word, selector_word, tag_row, tag_word};

use crate::names::Tag;
use bytecode_format::{Case, Order, Selector};
use glob_match::MatchType;
use octets::is_word;

/// Tags that are taken together, each by its own rules.
#[derive(Clone, Copy)]
pub enum Family {
    /// `:over` and `:under`.
    Ordering,
    /// `:is`, `:contains`, `:matches` and `:comparator`.
    Matching,
    /// The modifiers of a value.
    Modifying,
    /// `:mime` and `:anychild`.
    Scoping,
    /// `:type`, `:subtype`, `:contenttype` and `:param`.
    Selecting,
    /// `:name`.
    Naming,
    /// `:first`.
    Limiting,
}

/// The properties of a tag.
#[derive(Clone, Copy)]
pub struct TagRow {
    /// Its name, without the colon and in lower case.
    pub word: &'static [u8],
    pub family: Family,
    /// Whether it takes an argument of its own.
    pub waits: bool,
}

fn order_word(order: Order) -> &'static [u8]
    ensures { result.now ≡ order_word order }
{
    match order {
        Order::Over => b"over",
        Order::Under => b"under",
    }
}

/// Returns the name of the tag for a way of matching, without the colon and in lower case.
pub fn kind_word(kind: MatchType) -> &'static [u8]
    ensures { result.now ≡ kind_word kind }
{
    match kind {
        MatchType::Is => b"is",
        MatchType::Contains => b"contains",
        MatchType::Matches => b"matches",
    }
}

fn letters_word(case: Case) -> &'static [u8]
    ensures { result.now ≡ letters_word case }
{
    match case {
        Case::Lower => b"lower",
        Case::Upper => b"upper",
    }
}

fn first_letter_word(case: Case) -> &'static [u8]
    ensures { result.now ≡ first_letter_word case }
{
    match case {
        Case::Lower => b"lowerfirst",
        Case::Upper => b"upperfirst",
    }
}

// The value is taken if no tag selects something else: it has no word.
fn selector_word(selector: Selector) -> &'static [u8]
    ensures { result.now ≡ selector_word selector }
{
    match selector {
        Selector::Value => b"",
        Selector::Main => b"type",
        Selector::Sub => b"subtype",
        Selector::ContentType => b"contenttype",
        Selector::Param => b"param",
    }
}

/// The row of a tag.
#[inline(always)]
pub fn tag_row(tag: Tag) -> TagRow
    ensures { tag_view result ≡ tag_row tag }
{
    match tag {
        Tag::Order(order) => TagRow {
            word: order_word(order),
            family: Family::Ordering,
            waits: false,
        },
        Tag::Kind(kind) => TagRow {
            word: kind_word(kind),
            family: Family::Matching,
            waits: false,
        },
        Tag::Comparator => TagRow {
            word: b"comparator",
            family: Family::Matching,
            waits: true,
        },
        Tag::Letters(case) => TagRow {
            word: letters_word(case),
            family: Family::Modifying,
            waits: false,
        },
        Tag::FirstLetter(case) => TagRow {
            word: first_letter_word(case),
            family: Family::Modifying,
            waits: false,
        },
        Tag::QuoteWildcard => TagRow {
            word: b"quotewildcard",
            family: Family::Modifying,
            waits: false,
        },
        Tag::Length => TagRow {
            word: b"length",
            family: Family::Modifying,
            waits: false,
        },
        Tag::Mime => TagRow {
            word: b"mime",
            family: Family::Scoping,
            waits: false,
        },
        Tag::AnyChild => TagRow {
            word: b"anychild",
            family: Family::Scoping,
            waits: false,
        },
        Tag::Select(selector) => TagRow {
            word: selector_word(selector),
            family: Family::Selecting,
            waits: matches!(selector, Selector::Param),
        },
        Tag::Name => TagRow {
            word: b"name",
            family: Family::Naming,
            waits: true,
        },
        Tag::First => TagRow {
            word: b"first",
            family: Family::Limiting,
            waits: true,
        },
    }
}

// The tags that can be written.
const TAGS: &[Tag] = &[
    Tag::Order(Order::Over),
    Tag::Order(Order::Under),
    Tag::Kind(MatchType::Is),
    Tag::Kind(MatchType::Contains),
    Tag::Kind(MatchType::Matches),
    Tag::Comparator,
    Tag::Letters(Case::Lower),
    Tag::Letters(Case::Upper),
    Tag::FirstLetter(Case::Lower),
    Tag::FirstLetter(Case::Upper),
    Tag::QuoteWildcard,
    Tag::Length,
    Tag::Mime,
    Tag::AnyChild,
    Tag::Select(Selector::Main),
    Tag::Select(Selector::Sub),
    Tag::Select(Selector::ContentType),
    Tag::Select(Selector::Param),
    Tag::Name,
    Tag::First,
];

// The first of the tags with this name.
fn first_tag(name: &[u8], tags: &[Tag]) -> Option<Tag>
    ensures { result ≡ find (λ known. is_word name.now (tag_word known)) tags.now }
{
    for known in tags {
        if is_word(name, tag_row(*known).word) {
            return Some(*known);
        }
    }
    None
}

/// The tag with this name, if there is one. ASCII case is ignored.
pub fn tag_named(name: &[u8]) -> Option<Tag>
    ensures { result ≡ tag_named name.now }
{
    first_tag(name, TAGS)
}
