// Parameters as they are written, one after the other.
ghost use Rattle.std.specs.Prelude.{◌≡◌, ◌∷◌, [], MatchOption, None, Some};
ghost use Rattle.mime_params.specs.MediaValue.{disposition_params, param_at, parameters_of, params_in, type_params};

use crate::gap::after_gap;
use crate::media::{disposition_at, names_at};
use crate::params::{is_empty_param, semicolon_at};
use crate::words::{after_value, token, value};
use octets::{Octets, first};
use std::alloc::{AllocError, Global};
use std::iter::FusedIterator;
use std::marker::Model;

/// A parameter of a value, over the bytes in which it is written: nothing is copied.
///
/// [`LentParameters`] makes it. A contract sees it as it is read.
#[derive(Drop)]
pub struct LentParameter<'t> {
    name: &'t [u8],
    // The text from its value on.
    given: &'t [u8],
}

impl<'t> Model for LentParameter<'t> {
    ghost use Rattle.std.specs.Prelude.{IsSome};
    ghost use Rattle.mime_params.specs.Words.{value, value_octets};
    ghost use Rattle.mime_params.specs.declared.params.Parameter.{Parameter};

    ghost Value = { Parameter };

    ghost view = { λ p. record { name = p.name.now; value = value_octets p.given.now } };

    ghost invariant = { λ p. IsSome (value p.given.now) };
}

impl<'t> LentParameter<'t> {
    ghost use Rattle.std.specs.Prelude.{IfOk};

    /// Returns the parameter's name, as it is written.
    pub fn name(&self) -> &'t [u8]
        ensures { result.now ≡ self.now.name }
    {
        self.name
    }

    /// Returns a copy of the parameter's value, without the quotes and the backslashes in them.
    ///
    /// # Errors
    ///
    /// `AllocError` if memory is refused.
    pub fn value(&self, alloc: Global) -> Result<Octets, AllocError>
        ensures { IfOk result (λ octets. octets ≡ self.now.value) }
    {
        match value(alloc, self.given)? {
            Some((octets, _rest)) => Ok(octets),
            None => Ok(Octets::from_vec(Vec::new(alloc))),
        }
    }
}

/// An iterator over the parameters of a value, up to the first that is malformed. It takes no memory, and all steps
/// together read the value once.
///
/// A contract sees the list of the parameters that haven't been returned.
#[derive(Drop)]
pub struct LentParameters<'t> {
    text: &'t [u8],
}

impl<'t> Model for LentParameters<'t> {
    ghost use Rattle.std.specs.Prelude.{List};
    ghost use Rattle.mime_params.specs.MediaValue.{params_in};
    ghost use Rattle.mime_params.specs.declared.params.Parameter.{Parameter};

    ghost Value = { List Parameter };

    ghost view = { λ p. params_in p.text.now };
}

impl<'t> LentParameters<'t> {
    // The parameters at the start of the text.
    pub(crate) fn at(text: &'t [u8]) -> LentParameters<'t>
        ensures { result ≡ params_in text.now }
    {
        LentParameters { text }
    }

    /// Returns the parameters of the value of a Content-Type; none if the value has no reading.
    pub fn of_type(text: &'t [u8]) -> LentParameters<'t>
        ensures { result ≡ type_params text.now }
    {
        match names_at(text) {
            Some((_main, _sub, after)) => LentParameters::at(after_gap(after)),
            None => LentParameters::at(b""),
        }
    }

    /// Returns the parameters of the value of a Content-Disposition; none if the value has no reading.
    pub fn of_disposition(text: &'t [u8]) -> LentParameters<'t>
        ensures { result ≡ disposition_params text.now }
    {
        match disposition_at(text) {
            Some((_main, after)) => LentParameters::at(after_gap(after)),
            None => LentParameters::at(b""),
        }
    }

    /// Returns the parameters of any field's value, from its first semicolon on, even one in quotes or in a comment.
    pub fn of(text: &'t [u8]) -> LentParameters<'t>
        ensures { result ≡ parameters_of text.now }
    {
        LentParameters::at(&text[semicolon_at(text)..])
    }
}

impl<'t> Iterator for LentParameters<'t> {
    type Item = LentParameter<'t>;

    ghost use Rattle.std.specs.Iterator.{YieldsFirst, item_count};
    ghost use Rattle.std.specs.Prelude.{List};
    ghost use Rattle.mime_params.specs.declared.params.Parameter.{Parameter};

    ghost next_gives = { YieldsFirst (λ (left : List Parameter). left) };

    ghost remaining = { item_count (λ (left : List Parameter). left) };

    fn next(&mut self) -> Option<LentParameter<'t>> {
        let (param, rest) = first_param(self.text)?;
        self.text = rest;
        Some(param)
    }
}

impl<'t> FusedIterator for LentParameters<'t> {}

// The first of the parameters at the start of the text, and the text with the others.
fn first_param(text: &[u8]) -> Option<(LentParameter<'_>, &[u8])>
    ensures { MatchOption result (params_in text.now ≡ []) (λ read. params_in text.now
        ≡ read.0 ∷ params_in read.1.now) }
{
    let mut rest = text;
    'params: while let Some((octet, more)) = first(rest) {
        if octet != b';' {
            break 'params;
        }
        let body = after_gap(more);
        if is_empty_param(body) {
            rest = body;
        } else {
            let (param, after) = param_at(body)?;
            return Some((param, after_gap(after)));
        }
    }
    None
}

// The parameter at the start of the text, and the text after it; `None` if it is malformed.
#[tactic(auto, unfolding(crate::specs::MediaValue::param_at))]
fn param_at(text: &[u8]) -> Option<(LentParameter<'_>, &[u8])>
    ensures { MatchOption result (param_at text.now ≡ None) (λ read. param_at text.now
        ≡ Some (record { param = read.0; rest = read.1.now })) }
{
    let (name, after) = token(text)?;
    let Some((b'=', after)) = first(after_gap(after)) else {
        return None;
    };
    let given = after_gap(after);
    let rest = after_value(given)?;
    Some((LentParameter { name, given }, rest))
}
