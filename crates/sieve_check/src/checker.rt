// Scripts, checked.
//
// A script is read twice. The first pass finds what is refused and takes no memory; the second makes the typed form.
// So each of them has one equation for a contract, and a law joins them: a script without a fault has a form.
ghost use Rattle.std.specs.Prelude.{◌≡◌, IfErr, IfOk, IsErrAnd, OnOk, None, Some, map, take};
ghost use Rattle.sieve_parser.specs.View.{commands_tree};
ghost use Rattle.sieve_check.specs.CheckedScript.{IsCheckRefusal};
ghost use Rattle.sieve_check.specs.FormOf.{IsFormOf};
ghost use Rattle.sieve_check.specs.ReasonView.{refused_view};
ghost use Rattle.sieve_check.specs.Rules.{fault_of, max_found, reasons_of};
ghost use Rattle.sieve_check.specs.TypedView.{commands_form};

use crate::causes::Refused;
use crate::checked::Checked;
use crate::error::CheckError;
use crate::findings::MAX_FOUND;
use crate::form_error::FormError;
use crate::{forming, rules};
use arrayvec::ArrayVec;
use sieve_parser::Script;
use std::alloc::Global;

/// Returns why commands and tests of a script are refused, in order, at most [`MAX_FOUND`] of them. It takes no
/// memory.
///
/// [`check`] refuses a script exactly if there is a reason, with the fault of the first reason's kind
/// ([`ReasonKind::fault`]). At most [`MAX_REASONS`](crate::MAX_REASONS) are reported to people; one more shows that
/// there are more.
///
/// Commands are checked in order, each before its tests and these before its block. A command or test is refused for
/// the first of these that holds:
///
/// 1. Its name isn't known.
/// 2. It needs a capability that wasn't required.
/// 3. It is a `require` that names something other than a capability.
/// 4. Its arguments can't be read.
/// 5. Other tests follow than it takes, or it ends in another way.
/// 6. A string that is expanded has a wrong reference, or the name of a variable isn't one.
/// 7. It isn't allowed at its place.
/// 8. It is beyond a limit.
///
/// One fault should not cause others. What counts as required, and what comes before an `else`, depends on what is
/// written, wrong or not; a loop whose arguments can't be read can have any name; an unknown command changes nothing
/// for those after it. A command or test that is wrong by itself adds no variables; one that adds too many adds those
/// for which there is room.
///
/// All capabilities that a command or test needs and that weren't required are reported, and all strings of a
/// `require` that aren't capabilities. A missing capability is reported once, and so are too many variables. The
/// block of a loop that is one too many isn't checked, nor are the tests after a command or test that takes none.
pub fn reasons_of(script: &Script) -> ArrayVec<Refused<'_>, MAX_FOUND>
    ensures { map refused_view result.items
        ≡ take max_found (reasons_of (commands_tree script.now)) }
{
    rules::script(script.commands()).refused
}

/// Checks a script against the rules of the language, and returns it with its typed form (RFC 5228; RFC 5229,
/// sections 3 and 4; RFC 5703, sections 3 and 4).
///
/// Strings are expanded if `variables` was required, except for the names of variables and loops. For example,
/// `require "fileinto";` is accepted.
///
/// # Errors
///
/// The error of the first command or test that has a fault, with the number of its identifier's token, counted from
/// 0. Commands are checked in order, each before its tests and these before its block. If one has several faults, the
/// first in this list is reported:
///
/// - `CheckError::UnknownCommand` if its name isn't known.
/// - `CheckError::MissingCapability` if it needs a capability that wasn't required.
/// - `CheckError::UnknownCapability` if it is a `require` that names something other than a capability.
/// - `CheckError::BadArguments` if it isn't allowed at its place (a `break` without a loop to leave, or a `store`, a
///   `take` or a test of the current part outside of all loops), has other arguments, tests or another end than it
///   takes, expands a string with a reference into a namespace or to a capture after the last one, or sets a variable
///   by a name that isn't one.
/// - `CheckError::Limit` if one of its strings has too many bytes, the lists of a test have too many strings, it
///   expands a string of too many segments or with too long a name, it sets too long a name, it opens a loop inside
///   as many others as can be open, or the script has too many variables with the ones that it adds.
///
/// `CheckError::Memory` if memory is refused and nothing is wrong with the script.
pub fn check(alloc: Global, script: Script) -> Result<Checked, CheckError>
    ensures script { IfOk result (λ checked. checked.script ≡ script) }
    ensures form { IfOk result (λ checked. IsFormOf (commands_tree script)
        (commands_form checked.commands)) }
    ensures faultless { OnOk result (fault_of (commands_tree script) ≡ None) }
    ensures refused { IfErr result (λ e. IsCheckRefusal (commands_tree script) e) }
    ensures faulty { (fault : CheckError) → fault_of (commands_tree script) ≡ Some fault
        → IsErrAnd result (λ e. e ≡ fault) }
{
    if let Some(refused) = reasons_of(&script).first() {
        return Err(refused.refusal());
    }
    match forming::form_of(alloc, script.commands()) {
        Ok(commands) => Ok(Checked::of(script, commands)),
        Err(FormError::Memory) => Err(CheckError::Memory),
        Err(FormError::Malformed) => unreachable!(),
    }
}
