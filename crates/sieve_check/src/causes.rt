// What is wrong with a command or test.

use crate::error::{CheckError, Fault};
use crate::names::{Capability, Tag};
use crate::signature::{Ending, Positional, Tests};
use sieve_parser::Head;

/// What kind of fault a command or test has. Some kinds have a subject in the script, which a [`Reason`] names.
#[derive(Clone, Copy, Default)]
pub enum ReasonKind {
    /// No command has this name (RFC 5228, section 2.10.5).
    #[default]
    UnknownCommand,
    /// No test has this name (RFC 5228, section 2.10.5).
    UnknownTest,
    /// It needs this capability, which wasn't required (RFC 5228, section 2.10.5).
    MissingCapability(Capability),
    /// The subject, a string of `require`, isn't a capability (RFC 5228, section 3.2).
    UnknownCapability,
    /// The subject isn't a tag (RFC 5228, section 2.6.2).
    UnknownTag,
    /// The subject is a tag that this command or test doesn't take.
    ForeignTag,
    /// The subject is a tag that was given before, or another tag of its group was.
    RepeatedTag,
    /// The subject is a modifier after a different one of the same precedence (RFC 5229, section 4.1).
    TwoModifiers,
    /// The argument after the subject, this tag, is missing or isn't the one that it takes.
    TagArgument(Tag),
    /// Neither `:over` nor `:under` is given (RFC 5228, section 5.9).
    MissingOrder,
    /// The subject is a tag that is allowed only with `:mime` (RFC 5703, section 4).
    MissingMime,
    /// The subject is a tag after an argument that isn't a tag (RFC 5228, section 2.6.2).
    LateTag,
    /// There are fewer arguments after the tags than these.
    MissingArgument(Positional),
    /// There are more arguments after the tags than these.
    ExtraArgument(Positional),
    /// There are as many arguments after the tags as these, but not these.
    WrongArgument(Positional),
    /// It takes these tests, and has others.
    WrongTests(Tests),
    /// The command has to end like this, and doesn't.
    WrongEnding(Ending),
    /// The subject is a string that refers into a namespace (RFC 5229, section 3).
    Namespace,
    /// The subject is a string that refers to a capture after the last one.
    CaptureIndex,
    /// The subject, which `set` or `take` has as a name, isn't an identifier (RFC 5229, section 4).
    VariableName,
    /// No loop around a `break` has the subject as its name (RFC 5703, section 3).
    NoSuchLoop,
    /// It isn't allowed at its place.
    Misplaced,
    /// The subject is a string of more bytes than the limit.
    LongString,
    /// The lists of the test have more strings than the limit.
    ManyStrings,
    /// The subject is a string of more segments than the limit.
    ManySegments,
    /// The subject, the name of a variable, has more bytes than the limit.
    LongName,
    /// As many other loops as can be open are open around the loop.
    ManyLoops,
    /// With it the script has more variables than the limit.
    ManyVariables,
}

impl ReasonKind {
    ghost use Rattle.std.specs.Prelude.{◌≡◌};
    ghost use Rattle.sieve_check.specs.Causes.{fault_of_kind};

    /// Returns the fault that [`crate::check`] reports for this kind.
    pub fn fault(self) -> Fault
        ensures { result ≡ fault_of_kind self }
    {
        match self {
            ReasonKind::UnknownCommand | ReasonKind::UnknownTest => Fault::UnknownCommand,
            ReasonKind::MissingCapability(_) => Fault::MissingCapability,
            ReasonKind::UnknownCapability => Fault::UnknownCapability,
            ReasonKind::LongString
            | ReasonKind::ManyStrings
            | ReasonKind::ManySegments
            | ReasonKind::LongName
            | ReasonKind::ManyLoops
            | ReasonKind::ManyVariables => Fault::Limit,
            _ => Fault::BadArguments,
        }
    }
}

/// What kind of fault a command or test has, and what in it is at fault: the subject, if the kind has one, else
/// nothing.
#[derive(Clone, Copy)]
pub struct Cause<'t> {
    /// The kind of the fault.
    pub kind: ReasonKind,
    /// What is at fault, or nothing.
    pub subject: &'t [u8],
}

impl<'t> Cause<'t> {
    ghost use Rattle.std.specs.Prelude.{◌≡◌};
    ghost use Rattle.sieve_check.specs.Causes.{about, plain};
    ghost use Rattle.sieve_check.specs.Private.{cause_view};

    /// A cause of this kind with this subject.
    pub fn about(kind: ReasonKind, subject: &'t [u8]) -> Cause<'t>
        ensures { cause_view result ≡ about kind subject.now }
    {
        Cause { kind, subject }
    }

    /// A cause of this kind without a subject.
    pub fn plain(kind: ReasonKind) -> Cause<'t>
        ensures { cause_view result ≡ plain kind }
    {
        Cause { kind, subject: &[] }
    }
}

/// Why a command or test is refused: the kind of its fault, its name, and what in it is at fault. `sieve_explain`
/// puts it into words.
#[derive(Clone, Copy, Default)]
pub struct Reason<'t> {
    /// The kind of the fault.
    pub kind: ReasonKind,
    /// The name of the command or test, as the script writes it.
    pub name: &'t [u8],
    /// What is at fault: a tag without its colon, a string, or the name of a variable or of a loop. It is empty if
    /// the kind has no subject.
    pub subject: &'t [u8],
}

/// A command or test that is refused, and why. [`crate::reasons_of`] returns a list of them.
#[derive(Clone, Copy, Default)]
pub struct Refused<'t> {
    /// The number of the token of its identifier, counted from 0.
    pub token: usize,
    /// Why it is refused.
    pub reason: Reason<'t>,
}

impl<'t> Refused<'t> {
    ghost use Rattle.std.specs.Prelude.{◌≡◌};
    ghost use Rattle.sieve_check.specs.Causes.{refusal_for, refused_for};
    ghost use Rattle.sieve_check.specs.ReasonView.{refused_view};
    ghost use Rattle.sieve_check.specs.Private.{cause_view};

    // The command or test that begins with this head, refused for this cause.
    pub(crate) fn of(head: &'t Head, cause: Cause<'t>) -> Refused<'t>
        ensures { refused_view result
            ≡ refused_for head.now.token head.now.name (cause_view cause.entry) }
    {
        Refused {
            token: head.token,
            reason: Reason {
                kind: cause.kind,
                name: head.name.as_slice(),
                subject: cause.subject,
            },
        }
    }

    /// Returns the error of a script in which this is the first refusal.
    pub fn refusal(self) -> CheckError
        ensures { result ≡ refusal_for (refused_view self.entry) }
    {
        CheckError::of(self.reason.kind.fault(), self.token)
    }
}
