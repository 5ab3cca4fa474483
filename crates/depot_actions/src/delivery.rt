// What a delivery files, and how.
//
// A delivery reads its user's row twice: for the program, before the filter runs, and for the last number, when it
// files. Both reads are in one transaction. To read once, a call would have to take the number that another call found,
// with a premise on the state between them that no caller can test; or the store would have to keep a number next to
// its tables. The second read gets one number. A delivery without actions needs no number: if the filter discards the
// message, the answer is `none`, also for a user whose numbers are used up. A delivery frees its message before the
// store writes: the tree of a message of empty header fields takes 5.3 times the mail, and the database takes five
// buffers of an entry's length while it writes one. What is kept of a part borrows only the mail's bytes, so nothing
// needs the tree then.
ghost use Rattle.std.specs.Prelude.{◌≡◌, ◌<◌, [], ◌∷◌, All, IfErr, IfOk, OnOk, length, map, option_map};
ghost use Rattle.bytecode_format.specs.declared.action.Action.TheVariants.{Keep};
ghost use Rattle.sieve_vm.specs.Stores.{NamesPart};
ghost use Rattle.part_store.specs.Access.{InTransaction};
ghost use Rattle.part_store.specs.Entries.{Entries};
ghost use Rattle.part_store.specs.Sharing.{SharesContents, first_of};
ghost use Rattle.part_store.specs.Standing.{Stands, draft_of, listed};
ghost use Rattle.depot_actions.specs.Causes.{IsStoreFault};
ghost use Rattle.depot_actions.specs.Private.{IsUnusable};
ghost use Rattle.part_store.specs.Refusals.{LackRoom};
ghost use Rattle.depot_actions.specs.DepotState.{AreActions};
ghost use Rattle.depot_actions.specs.Drafts.{drafts_of};
ghost use Rattle.depot_actions.specs.KeptPrograms.{kept_after};
ghost use Rattle.depot_actions.specs.Filing.{Adds, IfInside, IsUnfiled, MayUnfile};
ghost use Rattle.part_store.specs.Calls.{IfDone, IfRefused, OnDone};
ghost use Rattle.part_store.specs.Inside.{IsInside, KeepsTables};

use crate::checked_program::CheckedPrograms;
use crate::contents::shared_contents;
use crate::entries::new_entries;
use crate::kept_parts::kept_parts;
use crate::refusing::refused;
use crate::rows::{set_numbers, unnumbered_rows};
use bytecode_format::Action;
use mime_decode::Message;
use part_store::{EntryRow, NewEntry, Shared, Within};
use refusals::Refusal;
use sqlite::Alter;
use std::alloc::{AllocError, Global};

/// The final actions of a user's program on a message, or only Keep if the user has no program. If the program is one of
/// those that are kept, it isn't checked again; otherwise it is kept then.
///
/// # Errors
///
/// - `Database` if the program no longer reads and verifies.
/// - `Memory` if memory is refused.
pub(crate) fn actions_of(
    alloc: Global,
    program: Option<Vec<u8>>,
    kept: &mut Option<CheckedPrograms>,
    message: &Message,
) -> Result<Vec<Action>, Refusal>
    ensures actions { IfOk result
        (λ actions. AreActions (option_map (λ v. v.items) program) message.now actions.items) }
    ensures parts { IfOk result (λ actions. All (NamesPart message.now) actions.items) }
    ensures kept { OnOk result
        (kept.new ≡ kept_after (option_map (λ v. v.items) program) kept.old) }
    ensures refused { IfErr result (IsUnusable (option_map (λ v. v.items) program)) }
{
    let Some(octets) = program else {
        return Ok(keep_alone(alloc)?);
    };
    let mut programs = match kept.take() {
        Some(programs) => programs,
        None => CheckedPrograms::new(alloc),
    };
    let place = programs.check(alloc, octets)?;
    let actions = programs.at(place).actions_on(alloc, message)?;
    *kept = Some(programs);
    Ok(actions)
}

// Keep and no other action.
fn keep_alone(alloc: Global) -> Result<Vec<Action>, AllocError>
    ensures { IfOk result (λ actions. actions.items ≡ Keep ∷ []) }
{
    let mut actions = Vec::new(alloc);
    actions.push(Action::Keep)?;
    Ok(actions)
}

/// Files an entry for each of the actions and returns the rows of the entries. The message is freed as soon as it is
/// known what to file, so that the tree of its parts takes no memory while the store writes. After an error, the
/// transaction has to be rolled back.
///
/// # Requires
///
/// - There is at least one action.
/// - Each action that stores a part names a part of the message.
/// - `octets` are the message's bytes.
///
/// # Errors
///
/// - `NumberFull`, `Collision` and `Database` as for [`crate::Depot::deliver`].
/// - `Memory` if memory is refused.
pub(crate) fn file_all<S: Alter>(
    tx: &mut Within<'_, '_, S>,
    alloc: Global,
    user: &str,
    octets: &[u8],
    message: Message<'_>,
    actions: &[Action],
) -> Result<Vec<EntryRow>, Refusal>
    requires some { 0 < length actions.now }
    requires parts { All (NamesPart message) actions.now }
    requires octets { message.octets ≡ octets.now }
    ensures same_transaction { tx.new.tx.ghost_name ≡ tx.old.tx.ghost_name }
    ensures same_reference { tx.new.tx.now.conn.ghost_name ≡ tx.old.tx.now.conn.ghost_name }
    ensures added { IfDone S.Store tx.old.tx.now.conn.now tx.new.tx.now.conn.now result
        (λ rows old new. (before : Entries) → Stands old.now before
        → Adds user.now (drafts_of message.entry actions.now) (map listed rows.items) new before) }
    ensures inside { OnDone S.Store tx.old.tx.now.conn.now tx.new.tx.now.conn.now result IsInside }
    ensures schema { OnDone S.Store tx.old.tx.now.conn.now tx.new.tx.now.conn.now result KeepsTables }
    ensures which { IfErr result MayUnfile }
    ensures refused { IfRefused S.Store tx.old.tx.now.conn.now tx.new.tx.now.conn.now result
        (λ old _ e. IsUnfiled e user.now (drafts_of message.entry actions.now) old) }
    ensures cause { IfRefused S.Store tx.old.tx.now.conn.now tx.new.tx.now.conn.now result
        (IfInside (IsStoreFault (LackRoom user.now (drafts_of message.entry actions.now)))) }
    ensures within { InTransaction S.Store tx.old.tx.now.conn.now tx.new.tx.now.conn.now result }
{
    let kept = kept_parts(alloc, &message, actions)?;
    let mut shared = shared_contents(alloc, &message, actions)?;
    drop(message);
    let entries = new_entries(alloc, octets, &kept, actions)?;
    add_all(tx, alloc, user, &entries, &mut shared)
}

// Adds entries, at least one; some can have the same content. Their rows are made first, so that nothing is added if
// memory is refused.
fn add_all<S: Alter>(
    tx: &mut Within<'_, '_, S>,
    alloc: Global,
    user: &str,
    entries: &[NewEntry<'_>],
    shared: &mut [Shared],
) -> Result<Vec<EntryRow>, Refusal>
    requires some { 0 < length entries.now }
    requires shared { SharesContents (map draft_of entries.now) (map first_of shared.old) }
    ensures same_transaction { tx.new.tx.ghost_name ≡ tx.old.tx.ghost_name }
    ensures same_reference { tx.new.tx.now.conn.ghost_name ≡ tx.old.tx.now.conn.ghost_name }
    ensures added { IfDone S.Store tx.old.tx.now.conn.now tx.new.tx.now.conn.now result
        (λ rows old new. (before : Entries) → Stands old.now before
        → Adds user.now (map draft_of entries.now) (map listed rows.items) new before) }
    ensures inside { OnDone S.Store tx.old.tx.now.conn.now tx.new.tx.now.conn.now result IsInside }
    ensures schema { OnDone S.Store tx.old.tx.now.conn.now tx.new.tx.now.conn.now result KeepsTables }
    ensures which { IfErr result MayUnfile }
    ensures refused { IfRefused S.Store tx.old.tx.now.conn.now tx.new.tx.now.conn.now result
        (λ old _ e. IsUnfiled e user.now (map draft_of entries.now) old) }
    ensures cause { IfRefused S.Store tx.old.tx.now.conn.now tx.new.tx.now.conn.now result
        (IfInside (IsStoreFault (LackRoom user.now (map draft_of entries.now)))) }
    ensures within { InTransaction S.Store tx.old.tx.now.conn.now tx.new.tx.now.conn.now result }
{
    let mut rows = unnumbered_rows(alloc, entries)?;
    let first = tx
        .add_sharing_entries(user, entries, shared)
        .map_err(refused)?;
    set_numbers(&mut rows, first);
    Ok(rows)
}
