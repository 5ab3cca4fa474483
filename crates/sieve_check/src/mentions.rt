// The strings of a command or test that have to do with variables.
//
// The order of names within one command is that of its code, the value of a `set` before its name. No refusal shows
// it, because its place is the command's.
ghost use Rattle.std.specs.Prelude.{◌≡◌, map, option_map};
ghost use Rattle.sieve_parser.specs.View.{argument_tree};
ghost use Rattle.sieve_references.specs.References.{segments};
ghost use Rattle.sieve_references.specs.SegmentView.{segment_of};
ghost use Rattle.sieve_check.specs.Reading.{name_in, read_of};
ghost use Rattle.sieve_check.specs.Private.{cause_view};
ghost use Rattle.sieve_check.specs.Refusing.{Adds, listed, mentions_in, set_in};
ghost use Rattle.sieve_check.specs.Rules.{first_text, large_cause, large_mention_cause, long_name, mention_cause, mentions_of, names_mentioned, no_mention, reference_kind, where_required};

use crate::argument_strings::ArgumentStrings;
use crate::causes::{Cause, ReasonKind};
use crate::names::Capability;
use crate::references::is_long_name;
use crate::signature::{Lists, Reading};
use crate::string_flaws::StringFlaw;
use crate::surroundings::Capabilities;
use crate::table::Role;
use crate::variable_names::VariableNames;
use octets::Octets;
use sieve_parser::Argument;
use sieve_references::{Segment, first_segment, is_identifier};

// The kind of fault of the first wrong reference in the string.
fn reference_kind(string: &[u8]) -> ReasonKind
    ensures { result ≡ reference_kind (segments string.now) }
{
    let mut rest = string;
    'segments: while let Some((segment, after)) = first_segment(rest) {
        match segment {
            Segment::Foreign => return ReasonKind::Namespace,
            Segment::Beyond => return ReasonKind::CaptureIndex,
            Segment::Text(_) | Segment::Variable(_) | Segment::Capture(_) => {}
        }
        rest = after;
    }
    ReasonKind::Namespace
}

// The first name of a variable in the string that has too many bytes.
fn long_name(string: &[u8]) -> Option<&[u8]>
    ensures { name_in result ≡ long_name (segments string.now) }
{
    let mut rest = string;
    'segments: while let Some((segment, after)) = first_segment(rest) {
        match segment {
            Segment::Variable(name) => {
                if is_long_name(name) {
                    return Some(name);
                }
            }
            Segment::Text(_) | Segment::Capture(_) | Segment::Beyond | Segment::Foreign => {}
        }
        rest = after;
    }
    None
}

// What is wrong with a string of too many segments or with too long a name.
fn large_cause(string: &[u8]) -> Cause<'_>
    ensures { cause_view result ≡ large_cause string.now }
{
    match long_name(string) {
        Some(name) => Cause::about(ReasonKind::LongName, name),
        None => Cause::about(ReasonKind::ManySegments, string),
    }
}

// The first argument, if it is one string.
fn first_text(arguments: &[Argument]) -> Option<&Octets>
    ensures { set_in result ≡ first_text (map argument_tree arguments.now) }
{
    let [first, ..] = arguments else {
        return None;
    };
    match first {
        Argument::Text(name) => Some(name),
        Argument::TextList(_, _) | Argument::Number(_) | Argument::Tag(_) => None,
    }
}

/// The strings of a command or test that have to do with variables.
#[derive(Clone, Copy)]
pub struct Mentions<'t> {
    /// The lists whose strings are expanded.
    pub expanded: Lists<'t>,
    /// The name that is set.
    pub set: Option<&'t Octets>,
}

impl<'t> Mentions<'t> {
    // No strings.
    fn none() -> Mentions<'t>
        ensures { mentions_in result ≡ no_mention }
    {
        Mentions {
            expanded: Lists::none(),
            set: None,
        }
    }

    /// The strings of arguments, by their role for variables: none if variables weren't required.
    pub fn of(required: Capabilities, role: Role, reading: Reading<'t>) -> Mentions<'t>
        ensures { mentions_in result
            ≡ where_required required (mentions_of role (read_of reading.entry)) }
    {
        if !required.has(Capability::Variables) {
            return Mentions::none();
        }
        match role {
            Role::Expanded => Mentions {
                expanded: reading.lists(),
                set: None,
            },
            Role::AsWritten => Mentions::none(),
            Role::NameThenValue => Mentions {
                expanded: reading.later_lists(),
                set: first_text(reading.positional),
            },
            Role::NameAlone => Mentions {
                expanded: Lists::none(),
                set: first_text(reading.positional),
            },
        }
    }

    /// What is wrong with the first string with a wrong reference, or else with the name that is set.
    pub fn wrong_cause(self) -> Option<Cause<'t>>
        ensures { option_map cause_view result ≡ mention_cause (mentions_in self.entry) }
    {
        if let Some(string) = StringFlaw::Wrong.first_in(ArgumentStrings::in_lists(self.expanded)) {
            return Some(Cause::about(reference_kind(string), string));
        }
        let name = self.set?.as_slice();
        (!is_identifier(name)).then_some(Cause::about(ReasonKind::VariableName, name))
    }

    /// What is wrong with the first string of too many segments or with too long a name, or else with too long a name
    /// that is set.
    pub fn large_cause(self) -> Option<Cause<'t>>
        ensures { option_map cause_view result ≡ large_mention_cause (mentions_in self.entry) }
    {
        if let Some(string) = StringFlaw::Large.first_in(ArgumentStrings::in_lists(self.expanded)) {
            return Some(large_cause(string));
        }
        let name = self.set?.as_slice();
        is_long_name(name).then_some(Cause::about(ReasonKind::LongName, name))
    }

    /// Adds the names in them to the names before: those in the strings, then the one that is set.
    ///
    /// # Errors
    ///
    /// `ReasonKind::ManyVariables` if there would be too many.
    pub fn add_to(self, names: &mut VariableNames<'t>) -> Result<(), ReasonKind>
        ensures { Adds (listed names.old) (names_mentioned (mentions_in self.entry)) result
            (listed names.new) }
    {
        names.add_strings(ArgumentStrings::in_lists(self.expanded))?;
        match self.set {
            Some(name) => names.add(name.as_slice()),
            None => Ok(()),
        }
    }
}
