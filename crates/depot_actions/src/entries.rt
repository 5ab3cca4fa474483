// The entries that actions file.
ghost use Rattle.std.specs.Prelude.{◌≡◌, All, IfOk, codes, map};
ghost use Rattle.mime_decode.specs.Mail.{Mail};
ghost use Rattle.part_store.specs.Standing.{draft_of};
ghost use Rattle.depot_actions.specs.Drafts.{draft_of_action, drafts_of, message_draft};
ghost use Rattle.depot_actions.specs.Filing.{AreKept, KeepsAction};

use crate::stored_part::StoredPart;
use bytecode_format::Action;
use part_store::{Kind, NewEntry};
use std::alloc::{AllocError, Global};

/// An entry for each of the actions, in their order; `octets` are the message's bytes. The entries borrow what is kept
/// of the message's parts.
///
/// # Requires
///
/// `kept` has each part that an action stores.
///
/// # Errors
///
/// `AllocError` if memory is refused.
pub(crate) fn new_entries<'e>(
    alloc: Global,
    octets: &'e [u8],
    kept: &'e [Option<StoredPart<'_>>],
    actions: &'e [Action],
) -> Result<Vec<NewEntry<'e>>, AllocError>
    requires { All (KeepsAction kept.now) actions.now }
    ensures { (mail : Mail) → mail.octets ≡ octets.now → AreKept mail kept.now
        → IfOk result (λ entries. map draft_of entries.items ≡ drafts_of mail actions.now) }
{
    let mut entries = Vec::with_capacity(alloc, actions.len())?;
    for action in actions {
        entries.push(entry_of(octets, kept, action))?;
    }
    Ok(entries)
}

// The entry that an action files.
fn entry_of<'e>(
    octets: &'e [u8],
    kept: &'e [Option<StoredPart<'_>>],
    action: &'e Action,
) -> NewEntry<'e>
    requires { KeepsAction kept.now action.now }
    ensures { (mail : Mail) → mail.octets ≡ octets.now → AreKept mail kept.now
        → draft_of result ≡ draft_of_action mail action.now }
{
    match action {
        Action::Keep => message_entry(b"INBOX", octets),
        Action::File(folder) => message_entry(folder.as_slice(), octets),
        Action::Store(folder, part) => { kept[*part].as_ref().unwrap().entry(folder.as_slice()) }
    }
}

// The entry of a whole message in a folder.
fn message_entry<'e>(folder: &'e [u8], octets: &'e [u8]) -> NewEntry<'e>
    ensures { (mail : Mail) → mail.octets ≡ octets.now
        → draft_of result ≡ message_draft folder.now mail }
{
    NewEntry {
        folder,
        kind: Kind::Message,
        name: b"",
        media: b"message/rfc822",
        octets,
    }
}
