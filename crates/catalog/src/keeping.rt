// What a catalog keeps of the content of an entry.
ghost use Rattle.std.specs.Prelude.{◌≡◌, ◌⊎◌, IfErr, IfOk, IfSome, IsTrue, option_map};
ghost use Rattle.std.specs.Rc.{rc_value};
ghost use Rattle.mime_decode.specs.Refusals.{IsMessageRefusal};
ghost use Rattle.mime_tree.specs.declared.error.MessageError.TheVariants.{Memory};
ghost use Rattle.catalog.specs.Catalog.{Filed};
ghost use Rattle.catalog.specs.Keeping.{filed_as, known_as, known_of};

use crate::entry::{Entry, Listed};
use crate::outline::{Outline, shared_outline};
use mime_decode::{Message, MessageError};
use sha2::{Digest, Sha256};
use std::alloc::{AllocError, Global};
use std::rc::Rc;

/// What a catalog keeps of an entry: what its line has, and of a message its outline. In contracts, `known_as` gives what
/// it holds, and `known_of` what that is for an entry with its content.
#[derive(Drop)]
pub struct Kept<'a> {
    pub entry: Entry<'a>,
    pub outline: Option<Rc<Outline>>,
}

/// Returns what a catalog keeps of an entry with this content. The content isn't needed after that.
///
/// # Errors
///
/// - `MessageError::MessageTooLarge` or `MessageError::TooManyParts` if the entry is a message, and its content isn't
///   within the limits of messages.
/// - `MessageError::Memory` if memory is refused.
pub fn keep<'a>(alloc: Global, listed: Listed<'a>, octets: &[u8]) -> Result<Kept<'a>, MessageError>
    ensures kept { IfOk result
        (λ kept. known_as kept ≡ known_of (filed_as listed.entry octets.now)) }
    ensures refused { IfErr result (λ e. (e ≡ Memory)
        ⊎ (IsTrue listed.entry.is_message × IsMessageRefusal octets.now e)) }
{
    let entry = Entry {
        number: listed.number,
        folder: listed.folder,
        name: listed.name,
        media: listed.media,
        octets: octets.len() as u64,
        digest: Sha256::digest(octets),
    };
    if !listed.is_message {
        return Ok(Kept {
            entry,
            outline: None,
        });
    }
    let message = Message::read(alloc, octets)?;
    Ok(Kept {
        entry,
        outline: Some(shared_outline(alloc, &message)?),
    })
}

/// Returns what a catalog keeps of an entry that has the content of another one, of which this is kept: the content isn't
/// read again, and both share the outline. `None` if one of them is a message and the other one a part.
///
/// # Errors
///
/// `AllocError` if memory is refused.
pub fn keep_again<'a>(kept: &Kept<'_>, listed: Listed<'a>) -> Result<Option<Kept<'a>>, AllocError>
    ensures { IfOk result (λ again. IfSome again (λ it. (filed : Filed)
        → known_as kept.now ≡ known_of filed
        → known_as it ≡ known_of (filed_as listed.entry filed.octets))) }
{
    if kept.outline.is_some() != listed.is_message {
        return Ok(None);
    }
    let entry = Entry {
        number: listed.number,
        folder: listed.folder,
        name: listed.name,
        media: listed.media,
        octets: kept.entry.octets,
        digest: kept.entry.digest,
    };
    let outline = shared(&kept.outline)?;
    Ok(Some(Kept { entry, outline }))
}

// The same outline for one more entry, if there is one.
fn shared(outline: &Option<Rc<Outline>>) -> Result<Option<Rc<Outline>>, AllocError>
    ensures { IfOk result (λ same. option_map rc_value same ≡ option_map rc_value outline.now) }
{
    match outline {
        Some(outline) => Ok(Some(outline.clone()?)),
        None => Ok(None),
    }
}
