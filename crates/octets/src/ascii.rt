// The case of ASCII letters.
ghost use Rattle.std.specs.Prelude.{◌≡◌, ◌↔◌, IsTrue, IfOk};
ghost use Rattle.octets.specs.Ascii.{uppercase_of, lowercase_of, is_word, EqualIgnoringCase};

use crate::owned::Octets;
use std::alloc::{AllocError, Global};

/// Returns whether the texts are equal if the case of ASCII letters is ignored.
pub fn equal_ignoring_case(a: &[u8], b: &[u8]) -> bool
    ensures { IsTrue result ↔ EqualIgnoringCase a.now b.now }
{
    a.eq_ignore_ascii_case(b)
}

/// Returns whether a name is this word if the case of ASCII letters is ignored.
pub fn is_word(name: &[u8], word: &[u8]) -> bool
    ensures { result ≡ is_word name.now word.now }
{
    equal_ignoring_case(name, word)
}

/// Returns a copy of the text with `a` to `z` as `A` to `Z`. Other bytes stay as they are.
///
/// # Errors
///
/// `AllocError` if memory is refused.
pub fn to_uppercase(alloc: Global, text: &[u8]) -> Result<Octets, AllocError>
    ensures { IfOk result (λ octets. octets ≡ uppercase_of text.now) }
{
    let mapped: Vec<u8> = text.iter().map(|x| x.to_ascii_uppercase()).collect(alloc)?;
    Ok(Octets::from(mapped))
}

/// Returns a copy of the text with `A` to `Z` as `a` to `z`. Other bytes stay as they are.
///
/// # Errors
///
/// `AllocError` if memory is refused.
pub fn to_lowercase(alloc: Global, text: &[u8]) -> Result<Octets, AllocError>
    ensures { IfOk result (λ octets. octets ≡ lowercase_of text.now) }
{
    let mapped: Vec<u8> = text.iter().map(|x| x.to_ascii_lowercase()).collect(alloc)?;
    Ok(Octets::from(mapped))
}
