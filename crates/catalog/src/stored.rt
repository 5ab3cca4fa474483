// The digests of the parts of a message.
ghost use Rattle.std.specs.Prelude.{◌≡◌, ◌<◌, IfOk, length};
ghost use Rattle.std.specs.List.{HoldsAt};
ghost use Rattle.sha2.specs.Sha256.{sha256};
ghost use Rattle.catalog.specs.Stored.{digests_of};

use mime_decode::Message;
use sha2::{Digest, Sha256};
use std::alloc::{AllocError, Global};

/// The digests of the contents of the message's parts. Each part is decoded and hashed once.
///
/// # Errors
///
/// `AllocError` if memory is refused.
pub(crate) fn part_digests(
    alloc: Global,
    message: &Message<'_>,
) -> Result<Vec<[u8; 32]>, AllocError>
    ensures { IfOk result (λ digests. digests.items ≡ digests_of message.now) }
{
    let parts = message.parts();
    let mut digests = Vec::with_capacity(alloc, parts)?;
    for part in 0..parts {
        digests.push(part_digest(alloc, message, part)?)?;
    }
    Ok(digests)
}

// The digest of the content of a part.
fn part_digest(alloc: Global, message: &Message<'_>, part: usize) -> Result<[u8; 32], AllocError>
    requires { part < length message.now.parts }
    ensures { HoldsAt (λ p. IfOk result (λ digest. digest ≡ sha256 p.content))
        message.now.parts part }
{
    let content = message.content(alloc, part)?;
    Ok(Sha256::digest(content.as_slice()))
}
