// How a signature reads arguments, and what is wrong with those that it can't read (RFC 5228, section 2.6).
ghost use Rattle.std.specs.Prelude.{◌≡◌, length, map, option_map};
ghost use Rattle.sieve_parser.specs.View.{argument_tree};
ghost use Rattle.sieve_check.specs.Arguments.{first_label, is_second_modifier, label_needing_mime, missing_cause, needs_mime, number_of, positional_cause, untaken_kind};
ghost use Rattle.sieve_check.specs.Names.{tag_named};
ghost use Rattle.sieve_check.specs.Reading.{FirstTag, Settles, name_in};
ghost use Rattle.sieve_check.specs.Private.{cause_view};

use crate::causes::{Cause, ReasonKind};
use crate::names::{Tag, comparator_named};
use crate::signature::{Positional, Reading, Signature, Tags, is_list};
use crate::tag_table::tag_named;
use bytecode_format::Selector;
use sieve_parser::Argument;
use std::slice;

// The first argument's name and the arguments after it, if it is a tag.
fn first_tag(arguments: &[Argument]) -> Option<(&[u8], &[Argument])>
    ensures { FirstTag (map argument_tree arguments.now) result }
{
    match arguments {
        [Argument::Tag(name), rest @ ..] => Some((name.as_slice(), rest)),
        _ => None,
    }
}

// Whether the tag is a modifier after a different one of the same precedence.
fn is_second_modifier(tag: Tag, tags: Tags) -> bool
    ensures { result ≡ is_second_modifier tag tags }
{
    match tag {
        Tag::Letters(case) => matches!(tags.modifiers.letters, Some(other) if other != case),
        Tag::FirstLetter(case) => matches!(tags.modifiers.first, Some(other) if other != case),
        _ => false,
    }
}

// What is wrong with a tag that can't be added to the given ones.
fn untaken_kind(signature: Signature, tag: Tag, tags: Tags) -> ReasonKind
    ensures { result ≡ untaken_kind signature tag tags }
{
    if !signature.takes(tag, Tags::none()) {
        ReasonKind::ForeignTag
    } else if is_second_modifier(tag, tags) {
        ReasonKind::TwoModifiers
    } else {
        ReasonKind::RepeatedTag
    }
}

// The reading with the comparator that is named next.
fn with_comparator(reading: Reading<'_>) -> Option<Reading<'_>>
    ensures { Settles reading.entry Tag.Comparator result }
{
    let [Argument::Text(name), rest @ ..] = reading.positional else {
        return None;
    };
    let comparator = comparator_named(name.as_slice())?;
    let tags = Tags {
        comparator: Some(comparator),
        ..reading.tags
    };
    Some(Reading {
        tags,
        positional: rest,
        ..reading
    })
}

// The reading without the list that comes next.
fn with_params(reading: Reading<'_>) -> Option<Reading<'_>>
    ensures { Settles reading.entry (Tag.Select Selector.Param) result }
{
    match reading.positional {
        [list, rest @ ..] if is_list(list) => Some(Reading {
            params: slice::from_ref(list),
            positional: rest,
            ..reading
        }),
        _ => None,
    }
}

// The reading with the string of `:name`, which comes next.
fn with_name(reading: Reading<'_>) -> Option<Reading<'_>>
    ensures { Settles reading.entry Tag.Name result }
{
    let [Argument::Text(loop_name), rest @ ..] = reading.positional else {
        return None;
    };
    Some(Reading {
        name: Some(loop_name.as_slice()),
        positional: rest,
        ..reading
    })
}

// The reading with the number of `:first`, which comes next and isn't zero.
fn with_first(reading: Reading<'_>) -> Option<Reading<'_>>
    ensures { Settles reading.entry Tag.First result }
{
    let [Argument::Number(number), rest @ ..] = reading.positional else {
        return None;
    };
    if *number == 0 {
        return None;
    }
    let tags = Tags {
        first: Some(*number),
        ..reading.tags
    };
    Some(Reading {
        tags,
        positional: rest,
        ..reading
    })
}

// The reading with the argument that the tag takes.
fn with_argument(tag: Tag, reading: Reading<'_>) -> Option<Reading<'_>>
    ensures { Settles reading.entry tag result }
{
    match tag {
        Tag::Comparator => with_comparator(reading),
        Tag::Select(selector) => match selector {
            Selector::Param => with_params(reading),
            _ => Some(reading),
        },
        Tag::Name => with_name(reading),
        Tag::First => with_first(reading),
        _ => Some(reading),
    }
}

// The name of the first of the arguments that is a tag.
fn first_label(arguments: &[Argument]) -> Option<&[u8]>
    ensures { name_in result ≡ first_label (map argument_tree arguments.now) }
{
    for argument in arguments {
        match argument {
            Argument::Tag(name) => return Some(name.as_slice()),
            Argument::Text(_) | Argument::TextList(_, _) | Argument::Number(_) => {}
        }
    }
    None
}

// Whether a tag with this name is allowed only with `:mime`.
fn needs_mime(name: &[u8]) -> bool
    ensures { result ≡ needs_mime (tag_named name.now) }
{
    match tag_named(name) {
        Some(tag) => matches!(tag, Tag::AnyChild | Tag::Select(_)),
        None => false,
    }
}

// The name of the first of the arguments that is such a tag.
fn label_needing_mime(arguments: &[Argument]) -> &[u8]
    ensures { result.now ≡ label_needing_mime (map argument_tree arguments.now) }
{
    for argument in arguments {
        match argument {
            Argument::Tag(name) => {
                if needs_mime(name.as_slice()) {
                    return name.as_slice();
                }
            }
            Argument::Text(_) | Argument::TextList(_, _) | Argument::Number(_) => {}
        }
    }
    &[]
}

// How many arguments come after the tags.
fn number_of(positional: Positional) -> usize
    ensures { result ≡ number_of positional }
{
    match positional {
        Positional::Nothing => 0,
        Positional::Number | Positional::Text | Positional::OneList => 1,
        Positional::TwoTexts | Positional::TwoLists => 2,
    }
}

// What is wrong with the arguments after the tags.
fn positional_cause(signature: Signature, arguments: &[Argument]) -> Option<Cause<'_>>
    ensures { option_map cause_view result
        ≡ positional_cause signature.positional (map argument_tree arguments.now) }
{
    if let Some(name) = first_label(arguments) {
        return Some(Cause::about(ReasonKind::LateTag, name));
    }
    let positional = signature.positional;
    let number = number_of(positional);
    if arguments.len() < number {
        Some(Cause::plain(ReasonKind::MissingArgument(positional)))
    } else if number < arguments.len() {
        Some(Cause::plain(ReasonKind::ExtraArgument(positional)))
    } else if !signature.is_positional(arguments) {
        Some(Cause::plain(ReasonKind::WrongArgument(positional)))
    } else {
        None
    }
}

// What is wrong with tags that are each taken, and that are among the arguments.
fn missing_cause(signature: Signature, tags: Tags, arguments: &[Argument]) -> Option<Cause<'_>>
    ensures { option_map cause_view result
        ≡ missing_cause signature tags (map argument_tree arguments.now) }
{
    if signature.order && tags.order.is_none() {
        Some(Cause::plain(ReasonKind::MissingOrder))
    } else if tags.ask_for_mime() && !tags.mime {
        Some(Cause::about(ReasonKind::MissingMime, label_needing_mime(arguments)))
    } else {
        None
    }
}

impl Signature {
    ghost use Rattle.std.specs.Prelude.{map};
    ghost use Rattle.sieve_parser.specs.View.{argument_tree};
    ghost use Rattle.sieve_check.specs.Reading.{Reads};

    /// The arguments, read: tags in any order, then the others; or what is wrong with them.
    #[inline(always)]
    pub fn read(self, arguments: &[Argument]) -> Result<Reading<'_>, Cause<'_>>
        ensures { Reads self (map argument_tree arguments.now) result }
    {
        let mut reading = Reading {
            tags: Tags::none(),
            params: &[],
            name: None,
            positional: arguments,
        };
        'tags: while let Some((name, rest)) = first_tag(reading.positional) {
            let Some(tag) = tag_named(name) else {
                return Err(Cause::about(ReasonKind::UnknownTag, name));
            };
            let Some(tags) = self.add(tag, reading.tags) else {
                return Err(Cause::about(untaken_kind(self, tag, reading.tags), name));
            };
            let with_tag = Reading {
                tags,
                positional: rest,
                ..reading
            };
            let Some(settled) = with_argument(tag, with_tag) else {
                return Err(Cause::about(ReasonKind::TagArgument(tag), name));
            };
            reading = settled;
        }
        if let Some(cause) = positional_cause(self, reading.positional) {
            return Err(cause);
        }
        match missing_cause(self, reading.tags, arguments) {
            Some(cause) => Err(cause),
            None => Ok(reading),
        }
    }
}
