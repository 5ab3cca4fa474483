// What the rules find out about a script.
//
// The rules go on after the first fault, so that a script is corrected in one go. Each command and test is judged by
// what is written before it, refused or not: a `require` counts for the capabilities that it names, an `if` for its
// `else`. One fault should not cause others, so an unknown word changes nothing for what follows: an `else` can come
// after a misspelled `elsif`. A missing capability is reported once in a script. Tests where none is taken aren't
// checked: in `keep discard;` the semicolon is missing. Nor is the block of a fourth loop. A misspelled
// `foreverypart` still makes a `store` in its block count as outside of all loops, and a loop whose arguments can't
// be read can have any name, so a `break` in it isn't reported for its name. A visit that is wrong by itself brings
// no variables; of the names of one that brings the 129th, those up to the 128th count. At most twenty are reported,
// and one more is looked for, which shows that there are more. They are in an array of that size, so finding them
// takes no memory.
ghost use Rattle.std.specs.Prelude.{◌≡◌, ◌≤◌, length};
ghost use Rattle.sieve_check.specs.ReasonView.{refused_view};
ghost use Rattle.sieve_check.specs.Rules.{are_unknown, max_found, same_lack, same_reason, same_string};

use crate::argument_strings::ArgumentStrings;
use crate::causes::{Cause, ReasonKind, Refused};
use crate::names::Capability;
use crate::string_flaws::StringFlaw;
use crate::surroundings::Capabilities;
use crate::variable_names::VariableNames;
use arrayvec::ArrayVec;
use octets::Octets;
use sieve_parser::Head;

/// The largest number of reasons that are reported for a script.
pub const MAX_REASONS: usize = 20;

/// The largest number of reasons that are looked for: one more than [`MAX_REASONS`], which shows that there are more.
pub const MAX_FOUND: usize = 21;

// Whether the same is missing: a capability, or room for variables.
fn is_same_lack(kind: ReasonKind, other: ReasonKind) -> bool
    ensures { result ≡ same_lack kind other }
{
    match (kind, other) {
        (ReasonKind::MissingCapability(capability), ReasonKind::MissingCapability(other)) => {
            capability == other
        }
        (ReasonKind::ManyVariables, ReasonKind::ManyVariables) => true,
        _ => false,
    }
}

// Whether both strings aren't capabilities.
fn are_unknown(kind: ReasonKind, other: ReasonKind) -> bool
    ensures { result ≡ are_unknown kind other }
{
    matches!(
        (kind, other),
        (ReasonKind::UnknownCapability, ReasonKind::UnknownCapability)
    )
}

// Whether it is the same string of the same `require` that isn't a capability.
fn is_same_string(found: Refused<'_>, other: Refused<'_>) -> bool
    ensures { result ≡ same_string (refused_view found.entry) (refused_view other.entry) }
{
    are_unknown(found.reason.kind, other.reason.kind)
        && found.token == other.token
        && found.reason.subject == other.reason.subject
}

// Whether one is reported with the other.
fn is_same_reason(found: Refused<'_>, other: Refused<'_>) -> bool
    ensures { result ≡ same_reason (refused_view found.entry) (refused_view other.entry) }
{
    is_same_lack(found.reason.kind, other.reason.kind) || is_same_string(found, other)
}

/// Why commands and tests were refused, the first reasons up to [`MAX_FOUND`], each thing that is missing once; and
/// the names of the variables that the others added, with those of one that added too many as far as there was room.
#[derive(Drop)]
pub struct Findings<'t> {
    pub names: VariableNames<'t>,
    pub refused: ArrayVec<Refused<'t>, MAX_FOUND>,
    ghost few: { length refused.items ≤ max_found },
}

impl<'t> Findings<'t> {
    ghost use Rattle.std.specs.Prelude.{◌≡◌, [], ◌∷◌, map};
    ghost use Rattle.octets.specs.Once.{is_listed};
    ghost use Rattle.sieve_check.specs.Causes.{refused_for};
    ghost use Rattle.sieve_check.specs.ReasonView.{refused_view};
    ghost use Rattle.sieve_check.specs.Private.{cause_view};
    ghost use Rattle.sieve_check.specs.Refusing.{AreNoted, listed, refused_in};
    ghost use Rattle.sieve_check.specs.Rules.{lacking_causes, same_reason, unknown_causes};

    /// No findings.
    pub fn new() -> Findings<'t>
        ensures names { listed result.names ≡ [] }
        ensures refused { refused_in result ≡ [] }
    {
        Findings {
            names: VariableNames::new(),
            refused: ArrayVec::new(),
        }
    }

    // Whether the same has been noted.
    fn tells(&self, found: Refused<'_>) -> bool
        ensures { result ≡ is_listed same_reason (refused_view found.entry) (refused_in self.now) }
    {
        for told in self.refused.as_slice() {
            if is_same_reason(found, *told) {
                return true;
            }
        }
        false
    }

    /// Notes that a command or test is refused, and why, if there is room and the same hasn't been noted.
    pub fn refuse(&mut self, head: &'t Head, cause: Cause<'t>)
        ensures { AreNoted self.old
            (refused_for head.now.token head.now.name (cause_view cause.entry) ∷ []) self.new }
    {
        let found = Refused::of(head, cause);
        if self.refused.is_full() || self.tells(found) {
            return;
        }
        self.refused.push(found);
    }

    // Notes the capability that a command or test needs, if it wasn't required.
    fn refuse_lack(&mut self, head: &'t Head, required: Capabilities, capability: Capability)
        ensures { AreNoted self.old (map (refused_for head.now.token head.now.name)
            (lacking_causes required (capability ∷ []))) self.new }
    {
        if !required.has(capability) {
            self.refuse(
                head,
                Cause::plain(ReasonKind::MissingCapability(capability)),
            );
        }
    }

    /// Notes each of the capabilities that a command or test needs, if it wasn't required.
    pub fn refuse_lacking(&mut self, head: &'t Head, required: Capabilities, needed: &[Capability])
        ensures { AreNoted self.old (map (refused_for head.now.token head.now.name)
            (lacking_causes required needed.now)) self.new }
    {
        for capability in needed {
            self.refuse_lack(head, required, *capability);
        }
    }

    // Notes the string of a `require`, if it isn't a capability.
    fn refuse_unknown(&mut self, head: &'t Head, string: &'t Octets)
        ensures { AreNoted self.old (map (refused_for head.now.token head.now.name)
            (unknown_causes (string.now ∷ []))) self.new }
    {
        if StringFlaw::Unknown.is_in(string) {
            self.refuse(
                head,
                Cause::about(ReasonKind::UnknownCapability, string.as_slice()),
            );
        }
    }

    /// Notes each of the strings of a `require` that isn't a capability.
    pub fn refuse_all_unknown(&mut self, head: &'t Head, mut strings: ArgumentStrings<'t>)
        ensures { AreNoted self.old (map (refused_for head.now.token head.now.name)
            (unknown_causes strings.entry)) self.new }
    {
        'strings: while let Some(string) = strings.next() {
            self.refuse_unknown(head, string);
        }
    }
}
