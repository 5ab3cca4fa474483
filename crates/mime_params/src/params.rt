// Parameters.
//
// Names of parameters stay as they are written, also if two are equal. The look-up takes the first.
ghost use Rattle.std.specs.Prelude.{◌≡◌, length, not, ◌==◌, IfOk, MatchOption, None, Some};
ghost use Rattle.std.specs.List.{take_while};
ghost use Rattle.mime_params.specs.Reading.{is_empty_param};
ghost use Rattle.mime_params.specs.MediaValue.{param_at, params_in, parameters_of, is_named, value_named};

use crate::gap::after_gap;
use crate::words::{token, value};
use octets::{Octets, equal_ignoring_case, first};
use std::alloc::{AllocError, Global};
use std::marker::Model;

/// A parameter of a value (RFC 2045, section 5.1).
#[derive(Drop)]
pub struct Parameter {
    /// The parameter's name, as it is written.
    pub name: Octets,
    /// The parameter's value, without the quotes and the backslashes in them.
    pub value: Octets,
}

/// The parameters of a value, in order. [`parameters_of`] reads them, and [`param`] finds one. A contract sees their
/// list.
#[derive(Drop)]
pub struct Params {
    items: Vec<Parameter>,
}

impl Model for Params {
    ghost use Rattle.std.specs.Prelude.{List};
    ghost use Rattle.mime_params.specs.declared.params.Parameter.{Parameter};

    ghost Value = { List Parameter };

    ghost view = { λ p. p.items.items };
}

impl Params {
    ghost use Rattle.std.specs.Prelude.{[]};

    /// Returns a list of no parameters.
    pub fn none(alloc: Global) -> Params
        ensures { result ≡ [] }
    {
        Params {
            items: Vec::new(alloc),
        }
    }

    /// Returns the parameters, in order.
    pub fn as_slice(&self) -> &[Parameter]
        ensures { result.now ≡ self.now }
    {
        self.items.as_slice()
    }
}

/// Returns the parameters of any field's value, from its first semicolon on, even one in quotes or in a comment, up to
/// the first that is malformed.
///
/// # Errors
///
/// `AllocError` if memory is refused.
pub fn parameters_of(alloc: Global, text: &[u8]) -> Result<Params, AllocError>
    ensures { IfOk result (λ params. params ≡ parameters_of text.now) }
{
    Ok(read_params(alloc, &text[semicolon_at(text)..])?)
}

/// Returns the value of the first parameter with this name; `None` if there is none. ASCII case is ignored. It takes
/// no memory.
pub fn param<'a>(params: &'a Params, name: &[u8]) -> Option<&'a [u8]>
    ensures { MatchOption result (value_named name.now params.now ≡ None)
        (λ value. value_named name.now params.now ≡ Some value.now) }
{
    for param in &params.items {
        if equal_ignoring_case(param.name.as_slice(), name) {
            return Some(param.value.as_slice());
        }
    }
    None
}

/// The place of the first semicolon, or the end of the text.
pub(crate) fn semicolon_at(text: &[u8]) -> usize
    ensures { result ≡ length (take_while (λ c. not (c == 59)) text.now) }
{
    text.iter().take_while(|octet| **octet != b';').count()
}

/// The parameters at the start of the text.
pub(crate) fn read_params(alloc: Global, text: &[u8]) -> Result<Params, AllocError>
    ensures { IfOk result (λ params. params ≡ params_in text.now) }
{
    let mut items = Vec::new(alloc);
    let mut rest = text;
    'params: while let Some((octet, more)) = first(rest) {
        if octet != b';' {
            break 'params;
        }
        let body = after_gap(more);
        if is_empty_param(body) {
            rest = body;
        } else {
            let Some((param, after)) = param_at(alloc, body)? else {
                break 'params;
            };
            items.push(param)?;
            rest = after_gap(after);
        }
    }
    Ok(Params { items })
}

/// Whether there is no parameter before the next semicolon or the end.
pub(crate) fn is_empty_param(body: &[u8]) -> bool
    ensures { result ≡ is_empty_param body.now }
{
    matches!(body, [] | [b';', ..])
}

// The parameter at the start of the text, and the text after it; `None` if it is malformed.
#[tactic(auto, unfolding(crate::specs::MediaValue::param_at))]
fn param_at(alloc: Global, text: &[u8]) -> Result<Option<(Parameter, &[u8])>, AllocError>
    ensures { IfOk result (λ read. MatchOption read (param_at text.now ≡ None)
        (λ r. param_at text.now ≡ Some (record { param = r.0; rest = r.1.now }))) }
{
    let Some((name, after)) = token(text) else {
        return Ok(None);
    };
    let Some((b'=', after)) = first(after_gap(after)) else {
        return Ok(None);
    };
    let Some((value, rest)) = value(alloc, after_gap(after))? else {
        return Ok(None);
    };
    let name = Octets::from_vec(name.to_vec(alloc)?);
    Ok(Some((Parameter { name, value }, rest)))
}
