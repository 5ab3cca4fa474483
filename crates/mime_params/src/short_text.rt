// Short texts that have the type of a long value.
ghost use Rattle.std.specs.Prelude.{◌≡◌, IfOk};
ghost use Rattle.mime_params.specs.MediaValue.{disposition_name, type_names};

use crate::media::{disposition_name, type_names};
use octets::Octets;
use std::alloc::{AllocError, Global};

/// Returns a short text with the type and the subtype of the value of a Content-Type, and without the comments and
/// blanks around them. It is empty if the value has no reading.
///
/// # Errors
///
/// `AllocError` if memory is refused.
pub fn type_text(alloc: Global, text: &[u8]) -> Result<Octets, AllocError>
    ensures { IfOk result (λ short. type_names short ≡ type_names text.now) }
{
    let Some((main, sub)) = type_names(text) else {
        return Ok(Octets::from_vec(Vec::new(alloc)));
    };
    let mut short = Vec::with_capacity(alloc, main.len() + 1 + sub.len())?;
    short.extend_from_slice(main)?;
    short.push(b'/')?;
    short.extend_from_slice(sub)?;
    Ok(Octets::from_vec(short))
}

/// Returns a short text with the disposition of the value of a Content-Disposition, and nothing else. It is empty if
/// the value has no reading.
///
/// # Errors
///
/// `AllocError` if memory is refused.
pub fn disposition_text(alloc: Global, text: &[u8]) -> Result<Octets, AllocError>
    ensures { IfOk result (λ short. disposition_name short ≡ disposition_name text.now) }
{
    let Some(name) = disposition_name(text) else {
        return Ok(Octets::from_vec(Vec::new(alloc)));
    };
    Ok(Octets::from_vec(name.to_vec(alloc)?))
}
