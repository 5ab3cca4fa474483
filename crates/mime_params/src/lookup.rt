// One parameter of a value by its name: the others are skipped, and take no memory.
ghost use Rattle.std.specs.Prelude.{◌≡◌, IfOk, IsOk, None};
ghost use Rattle.mime_params.specs.MediaValue.{value_named};

use crate::lent::LentParameters;
use octets::{Octets, equal_ignoring_case};
use std::alloc::{AllocError, Global};

/// The value of the first of the parameters with this name. No other is kept.
pub(crate) fn first_named(
    alloc: Global,
    params: LentParameters,
    name: &[u8],
) -> Result<Option<Octets>, AllocError>
    ensures value { IfOk result (λ value. value ≡ value_named name.now params.entry) }
    ensures without { value_named name.now params.entry ≡ None → IsOk result }
{
    for param in params {
        if equal_ignoring_case(param.name(), name) {
            return Ok(Some(param.value(alloc)?));
        }
    }
    Ok(None)
}
