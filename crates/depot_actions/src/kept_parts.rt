// The parts that actions store. Each is read once.
ghost use Rattle.std.specs.Prelude.{◌≡◌, ◌<◌, ℕ, All, IfOk, IsOk, OnOk, None, length, replicate};
ghost use Rattle.sieve_vm.specs.Stores.{NamesPart};
ghost use Rattle.depot_actions.specs.Filing.{AreKept, Keeps, KeepsAction};

use crate::stored_part::StoredPart;
use bytecode_format::Action;
use mime_decode::Message;
use std::alloc::{AllocError, Global};

/// The parts that the actions store, by their numbers: the list has a place for each part of the message. Each part is
/// read once.
///
/// # Requires
///
/// Each action that stores a part names a part of the message.
///
/// # Errors
///
/// `AllocError` if memory is refused.
pub(crate) fn kept_parts<'m>(
    alloc: Global,
    message: &Message<'m>,
    actions: &[Action],
) -> Result<Vec<Option<StoredPart<'m>>>, AllocError>
    requires { All (NamesPart message.now) actions.now }
    ensures parts { IfOk result (λ kept. AreKept message.now kept.items) }
    ensures all { IfOk result (λ kept. All (KeepsAction kept.items) actions.now) }
{
    let mut kept = no_parts(alloc, message.parts())?;
    for action in actions {
        keep_stored(alloc, message, action, &mut kept)?;
    }
    Ok(kept)
}

// A list with `number` places and no part in any of them.
fn no_parts<'m>(alloc: Global, number: usize) -> Result<Vec<Option<StoredPart<'m>>>, AllocError>
    ensures { IfOk result (λ kept. kept.items ≡ replicate number None) }
{
    let mut kept = Vec::with_capacity(alloc, number)?;
    for _ in 0..number {
        kept.push(None)?;
    }
    Ok(kept)
}

// Keeps the part that an action stores.
fn keep_stored<'m>(
    alloc: Global,
    message: &Message<'m>,
    action: &Action,
    kept: &mut Vec<Option<StoredPart<'m>>>,
) -> Result<(), AllocError>
    requires part { NamesPart message.now action.now }
    requires kept { AreKept message.now kept.old.items }
    ensures parts { OnOk result (AreKept message.now kept.new.items) }
    ensures there { OnOk result (KeepsAction kept.new.items action.now) }
    ensures known { KeepsAction kept.old.items action.now → IsOk result }
    ensures more { OnOk result ((number : ℕ) → Keeps kept.old.items number
        → Keeps kept.new.items number) }
{
    match action {
        Action::Keep | Action::File(_) => Ok(()),
        Action::Store(_, part) => keep_part(alloc, message, *part, kept),
    }
}

// Keeps the part with this number, if it isn't kept already.
fn keep_part<'m>(
    alloc: Global,
    message: &Message<'m>,
    part: usize,
    kept: &mut Vec<Option<StoredPart<'m>>>,
) -> Result<(), AllocError>
    requires within { part < length message.now.parts }
    requires kept { AreKept message.now kept.old.items }
    ensures parts { OnOk result (AreKept message.now kept.new.items) }
    ensures there { OnOk result (Keeps kept.new.items part) }
    ensures known { Keeps kept.old.items part → IsOk result }
    ensures more { OnOk result ((number : ℕ) → Keeps kept.old.items number
        → Keeps kept.new.items number) }
{
    if kept[part].is_none() {
        kept[part] = Some(StoredPart::read(alloc, message, part)?);
    }
    Ok(())
}
