// A part of a message as an entry stores it.
ghost use Rattle.std.specs.Prelude.{◌≡◌, ◌<◌, IfOk, length};
ghost use Rattle.std.specs.List.{HoldsAt};
ghost use Rattle.mime_decode.specs.Mail.{Part};
ghost use Rattle.part_store.specs.Standing.{draft_of};
ghost use Rattle.depot_actions.specs.Drafts.{part_draft};
ghost use Rattle.depot_actions.specs.Filing.{IsStored};

use crate::naming::{media_text, part_name};
use mime_decode::Message;
use part_store::{Kind, NewEntry};
use std::alloc::{AllocError, Global};
use std::borrow::CowSlice;

/// A part of a message as an entry stores it. If the content needs no decoding, it is borrowed from the message.
#[derive(Drop)]
pub(crate) struct StoredPart<'m> {
    /// The part's name: its file name, or else the `name` of its media type; empty if it has neither.
    pub name: Vec<u8>,
    /// The media type without parameters, in lower case.
    pub media: Vec<u8>,
    /// The decoded content.
    pub content: CowSlice<'m, u8>,
}

impl<'m> StoredPart<'m> {
    /// Reads the part with this number.
    ///
    /// # Requires
    ///
    /// The message has such a part: `part` is less than the number of parts.
    ///
    /// # Errors
    ///
    /// `AllocError` if memory is refused.
    pub(crate) fn read(
        alloc: Global,
        message: &Message<'m>,
        part: usize,
    ) -> Result<StoredPart<'m>, AllocError>
        requires { part < length message.now.parts }
        ensures { HoldsAt (λ p. IfOk result (λ stored. IsStored stored p)) message.now.parts part }
    {
        let tree = message.tree();
        Ok(StoredPart {
            name: part_name(alloc, tree, part)?,
            media: media_text(alloc, tree.media_without_params(part))?,
            content: message.content(alloc, part)?,
        })
    }

    /// The entry of the part in a folder.
    pub(crate) fn entry<'e>(&'e self, folder: &'e [u8]) -> NewEntry<'e>
        ensures { (part : Part) → IsStored self.now part
            → draft_of result ≡ part_draft folder.now part }
    {
        NewEntry {
            folder,
            kind: Kind::Part,
            name: self.name.as_slice(),
            media: self.media.as_slice(),
            octets: self.content.as_slice(),
        }
    }
}
