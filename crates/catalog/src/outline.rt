// What a line has of a message.
ghost use Rattle.std.specs.Prelude.{◌≡◌, IfOk};
ghost use Rattle.std.specs.Rc.{rc_value};
ghost use Rattle.catalog.specs.Keeping.{outlined, outlined_as};

use crate::fields::{fields_value, own_fields};
use crate::stored::part_digests;
use mime_decode::Message;
use serde_json::Value;
use std::alloc::{AllocError, Global};
use std::rc::Rc;

/// What is kept of a message for its line: the SHA-256 of the content of each part, and the object of its fields. Entries
/// with the same content share it.
#[derive(Drop)]
pub struct Outline {
    pub digests: Vec<[u8; 32]>,
    pub fields: Value,
}

// The outline of a message. Each part is decoded and hashed once.
fn outline_of(alloc: Global, message: &Message<'_>) -> Result<Outline, AllocError>
    ensures { IfOk result (λ outline. outlined_as outline ≡ outlined message.now) }
{
    let digests = part_digests(alloc, message)?;
    let fields = fields_value(alloc, own_fields(message))?;
    Ok(Outline { digests, fields })
}

/// The outline of a message, for several entries to share.
///
/// # Errors
///
/// `AllocError` if memory is refused.
pub(crate) fn shared_outline(
    alloc: Global,
    message: &Message<'_>,
) -> Result<Rc<Outline>, AllocError>
    ensures { IfOk result (λ outline. outlined_as (rc_value outline) ≡ outlined message.now) }
{
    Ok(Rc::new(alloc, outline_of(alloc, message)?)?)
}
