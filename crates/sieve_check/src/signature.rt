// What commands and tests take, and how their arguments are read (RFC 5228, section 2.6; RFC 5229, section 4; RFC
// 5703, sections 3 and 4).
//
// A tag that takes an argument is read in the same pass as the others: the reading knows which tag waits for its
// argument, and takes the next one for it. So what is wrong with the arguments and what they mean are one definition
// (`specs/Signatures`).
ghost use Rattle.std.specs.Prelude.{◌≡◌};
ghost use Rattle.sieve_parser.specs.View.{argument_tree};
ghost use Rattle.sieve_check.specs.Signatures.{is_list};

use crate::names::Tag;
use crate::tag_table::{Family, tag_row};
use bytecode_format::{Modifiers, Order, Selector};
use glob_match::{Comparator, MatchType};
use sieve_parser::Argument;

/// The arguments that come after the tags.
#[derive(Clone, Copy)]
pub enum Positional {
    /// No argument.
    Nothing,
    /// One number.
    Number,
    /// One string, without brackets.
    Text,
    /// Two strings, each without brackets.
    TwoTexts,
    /// One list: a string, or strings in square brackets.
    OneList,
    /// Two lists.
    TwoLists,
}

/// The tests that come after the arguments.
#[derive(Clone, Copy)]
pub enum Tests {
    /// No test.
    Nothing,
    /// One test, without parentheses.
    One,
    /// Tests in parentheses.
    Bracketed,
}

/// How a command ends.
#[derive(Clone, Copy)]
pub enum Ending {
    /// A semicolon.
    Semicolon,
    /// A block of commands in braces.
    Block,
}

/// What a command or test takes: its tags, arguments and tests. The row of each has its signature.
#[derive(Clone, Copy)]
pub struct Signature {
    /// Takes exactly one of `:over` and `:under`.
    pub order: bool,
    /// Takes at most one of `:is`, `:contains` and `:matches`, and optionally `:comparator`.
    pub matching: bool,
    /// Takes the modifiers of a value, at most one of each precedence.
    pub modifying: bool,
    /// Takes `:mime`, and with it `:anychild`.
    pub scoped: bool,
    /// Takes, with `:mime`, at most one of `:type`, `:subtype`, `:contenttype` and `:param`.
    pub selecting: bool,
    /// Takes `:name`, at most once.
    pub naming: bool,
    /// Takes `:first`, at most once.
    pub limiting: bool,
    /// The arguments after the tags.
    pub positional: Positional,
    /// The tests after the arguments.
    pub tests: Tests,
}

/// The given tags, at most one of each group.
#[derive(Clone, Copy)]
pub struct Tags {
    /// The order that a size is compared by.
    pub order: Option<Order>,
    /// How values are matched.
    pub kind: Option<MatchType>,
    /// How bytes are compared.
    pub comparator: Option<Comparator>,
    /// The modifiers of a value.
    pub modifiers: Modifiers,
    /// Whether `:mime` is given.
    pub mime: bool,
    /// Whether `:anychild` is given.
    pub any_child: bool,
    /// The value, if no tag selects something else.
    pub selector: Selector,
    /// Whether `:name` is given.
    pub named: bool,
    /// The number of `:first`, if it is given; it isn't zero.
    pub first: Option<u64>,
}

impl Tags {
    ghost use Rattle.std.specs.Prelude.{◌≡◌};
    ghost use Rattle.sieve_check.specs.Signatures.{asks_for_mime, is_given, no_tag, selects};

    /// No tags.
    pub fn none() -> Tags
        ensures { result ≡ no_tag }
    {
        Tags {
            order: None,
            kind: None,
            comparator: None,
            modifiers: Modifiers::none(),
            mime: false,
            any_child: false,
            selector: Selector::Value,
            named: false,
            first: None,
        }
    }

    /// Whether one of them selects what is taken of a field.
    pub fn select(self) -> bool
        ensures { result ≡ selects self.selector }
    {
        !matches!(self.selector, Selector::Value)
    }

    /// Whether the tag was given, or another of its group.
    pub fn have(self, tag: Tag) -> bool
        ensures { result ≡ is_given tag self }
    {
        match tag {
            Tag::Order(_) => self.order.is_some(),
            Tag::Kind(_) => self.kind.is_some(),
            Tag::Comparator => self.comparator.is_some(),
            Tag::Letters(_) => self.modifiers.letters.is_some(),
            Tag::FirstLetter(_) => self.modifiers.first.is_some(),
            Tag::QuoteWildcard => self.modifiers.quote_wildcard,
            Tag::Length => self.modifiers.length,
            Tag::Mime => self.mime,
            Tag::AnyChild => self.any_child,
            Tag::Select(_) => self.select(),
            Tag::Name => self.named,
            Tag::First => self.first.is_some(),
        }
    }

    /// Whether one of them is allowed only with `:mime`.
    pub fn ask_for_mime(self) -> bool
        ensures { result ≡ asks_for_mime self }
    {
        self.any_child || self.select()
    }
}

/// Arguments that were read by a signature.
#[derive(Clone, Copy)]
pub struct Reading<'a> {
    /// The tags.
    pub tags: Tags,
    /// The list of `:param`, if it is given.
    pub params: &'a [Argument],
    /// The name of `:name`, if it is given.
    pub name: Option<&'a [u8]>,
    /// The arguments after the tags.
    pub positional: &'a [Argument],
}

/// The lists that were read, in the order of the typed form.
#[derive(Clone, Copy)]
pub struct Lists<'a> {
    /// The first list after the tags.
    pub first: &'a [Argument],
    /// The list of `:param`, if it is given.
    pub params: &'a [Argument],
    /// The other lists after the tags.
    pub others: &'a [Argument],
}

impl<'a> Lists<'a> {
    ghost use Rattle.std.specs.Prelude.{◌≡◌, []};
    ghost use Rattle.sieve_check.specs.Reading.{all_lists};

    /// No lists.
    pub fn none() -> Lists<'a>
        ensures { all_lists result ≡ [] }
    {
        Lists {
            first: &[],
            params: &[],
            others: &[],
        }
    }
}

impl<'a> Reading<'a> {
    ghost use Rattle.std.specs.Prelude.{◌≡◌, ◌++◌, drop};
    ghost use Rattle.sieve_check.specs.Reading.{all_lists, read_of};
    ghost use Rattle.sieve_check.specs.Rules.{lists_read};

    /// The lists.
    pub fn lists(self) -> Lists<'a>
        ensures { all_lists result ≡ lists_read (read_of self.entry) }
    {
        let (first, others) = self.positional.split_at(self.positional.len().min(1));
        Lists {
            first,
            params: self.params,
            others,
        }
    }

    /// The lists without the first one after the tags.
    pub fn later_lists(self) -> Lists<'a>
        ensures { all_lists result ≡ (read_of self.entry).params ++ drop 1 (read_of self.entry).positional }
    {
        let (_, others) = self.positional.split_at(self.positional.len().min(1));
        Lists {
            first: &[],
            params: self.params,
            others,
        }
    }
}

/// Whether the argument is a list: a string, or strings in square brackets.
pub fn is_list(argument: &Argument) -> bool
    ensures { result ≡ is_list (argument_tree argument.now) }
{
    matches!(argument, Argument::Text(_) | Argument::TextList(_, _))
}

impl Signature {
    ghost use Rattle.std.specs.Prelude.{◌≡◌, map};
    ghost use Rattle.sieve_parser.specs.View.{argument_tree};
    ghost use Rattle.sieve_check.specs.Signatures.{is_positional, offers, tags_with, takes_tag};

    // Whether tags of the family are taken.
    fn offers(self, family: Family) -> bool
        ensures { result ≡ offers self family }
    {
        match family {
            Family::Ordering => self.order,
            Family::Matching => self.matching,
            Family::Modifying => self.modifying,
            Family::Scoping => self.scoped,
            Family::Selecting => self.selecting,
            Family::Naming => self.naming,
            Family::Limiting => self.limiting,
        }
    }

    /// Whether the tag is taken, and no tag of its group was given.
    pub fn takes(self, tag: Tag, tags: Tags) -> bool
        ensures { result ≡ takes_tag self tag tags }
    {
        self.offers(tag_row(tag).family) && !tags.have(tag)
    }

    /// The tags with one more, if it is taken and no tag of its group was given.
    pub fn add(self, tag: Tag, tags: Tags) -> Option<Tags>
        ensures { result ≡ tags_with self tag tags }
    {
        if !self.takes(tag, tags) {
            return None;
        }
        let mut tags = tags;
        match tag {
            Tag::Order(order) => tags.order = Some(order),
            Tag::Kind(kind) => tags.kind = Some(kind),
            Tag::Comparator | Tag::First => {}
            Tag::Letters(case) => tags.modifiers.letters = Some(case),
            Tag::FirstLetter(case) => tags.modifiers.first = Some(case),
            Tag::QuoteWildcard => tags.modifiers.quote_wildcard = true,
            Tag::Length => tags.modifiers.length = true,
            Tag::Mime => tags.mime = true,
            Tag::AnyChild => tags.any_child = true,
            Tag::Select(selector) => tags.selector = selector,
            Tag::Name => tags.named = true,
        }
        Some(tags)
    }

    /// Whether the arguments are those that have to come after the tags.
    pub fn is_positional(self, arguments: &[Argument]) -> bool
        ensures { result ≡ is_positional self.positional (map argument_tree arguments.now) }
    {
        match self.positional {
            Positional::Nothing => arguments.is_empty(),
            Positional::Number => matches!(arguments, [Argument::Number(_)]),
            Positional::Text => matches!(arguments, [Argument::Text(_)]),
            Positional::TwoTexts => matches!(arguments, [Argument::Text(_), Argument::Text(_)]),
            Positional::OneList => match arguments {
                [list] => is_list(list),
                _ => false,
            },
            Positional::TwoLists => match arguments {
                [first, second] => is_list(first) && is_list(second),
                _ => false,
            },
        }
    }
}
