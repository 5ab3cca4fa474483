// The parameters that a test asks for, found in one pass over those of a value.
//
// A question on a message is a list of values, or a truth value. Whether it is true, what it finds and what comparing
// costs follow from that for every question, so the meaning, its trace and the machine have no case by question.
ghost use Rattle.std.specs.Prelude.{◌≡◌, IfOk, MatchOption, None, Some};
ghost use Rattle.mime_params.specs.MediaValue.{value_named};
ghost use Rattle.octets.specs.Ascii.{is_word};
ghost use Rattle.mail_matching.specs.Headers.{HaveFirsts, is_asked, is_wanted};

use crate::texts::Texts;
use mime_params::{LentParameter, LentParameters};
use octets::{Octets, equal_ignoring_case, is_word};
use std::alloc::{AllocError, Global};

/// The first of the parameters with each of the names, in the order of the parameters. The value is read once,
/// however many names there are.
///
/// # Errors
///
/// `AllocError` if memory is refused.
pub(crate) fn asked_params<'v, P: Texts>(
    alloc: Global,
    params: LentParameters<'v>,
    names: &P,
) -> Result<Vec<LentParameter<'v>>, AllocError>
    ensures { IfOk result (λ found. HaveFirsts (P.texts names.now) params.entry found.items) }
{
    let mut found = Vec::new(alloc);
    for param in params {
        if is_wanted(names, &found, param.name()) {
            found.push(param)?;
        }
    }
    Ok(found)
}

/// The value of the first of these parameters with the name.
///
/// # Errors
///
/// `AllocError` if memory is refused.
pub(crate) fn asked_value(
    alloc: Global,
    found: &[LentParameter],
    name: &[u8],
) -> Result<Option<Octets>, AllocError>
    ensures { IfOk result (λ value. value ≡ value_named name.now found.now) }
{
    match first_named(found, name) {
        Some(param) => Ok(Some(param.value(alloc)?)),
        None => Ok(None),
    }
}

// Whether a parameter with this name is asked for, and none has been found.
fn is_wanted<P: Texts>(names: &P, found: &[LentParameter], name: &[u8]) -> bool
    ensures { result ≡ is_wanted (P.texts names.now) found.now name.now }
{
    is_asked(names, name) && first_named(found, name).is_none()
}

// Whether one of the names is this one; ASCII case is ignored.
fn is_asked<P: Texts>(names: &P, name: &[u8]) -> bool
    ensures { result ≡ is_asked (P.texts names.now) name.now }
{
    for place in 0..names.count() {
        if is_word(names.text(place), name) {
            return true;
        }
    }
    false
}

// The first of the parameters with the name.
fn first_named<'f, 'v>(
    params: &'f [LentParameter<'v>],
    name: &[u8],
) -> Option<&'f LentParameter<'v>>
    ensures { MatchOption result (value_named name.now params.now ≡ None)
        (λ param. value_named name.now params.now ≡ Some param.now.value) }
{
    for param in params {
        if equal_ignoring_case(param.name(), name) {
            return Some(param);
        }
    }
    None
}
