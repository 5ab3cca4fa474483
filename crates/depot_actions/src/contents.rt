// Which actions file the same content.
//
// A delivery knows which of its entries have the same content (`add_sharing_entries`), so each content is hashed,
// looked up and compared once, and a filter with a thousand `fileinto` isn't a thousand times as expensive as a filter
// with one. Which content an entry has is known from the action, by the number of its part: this language can't compare
// two slices by their addresses, and comparing 64 MiB takes milliseconds each time.
ghost use Rattle.std.specs.Prelude.{◌≡◌, ◌≢◌, ◌+◌, ◌<◌, All, IfOk, IfSome, List, ℕ, None, Some, length, map, slice_index_or};
ghost use Rattle.sieve_vm.specs.Stores.{NamesPart};
ghost use Rattle.part_store.specs.Sharing.{SharesContents, first_of};
ghost use Rattle.depot_actions.specs.Drafts.{drafts_of};
ghost use Rattle.depot_actions.specs.Sources.{AreFirsts, NameEarliest, source_of};

use bytecode_format::Action;
use mime_decode::Message;
use part_store::Shared;
use std::alloc::{AllocError, Global};

/// For each action, the first action that files the same content: the whole message, or one of its parts.
///
/// # Requires
///
/// Each action that stores a part names a part of the message.
///
/// # Errors
///
/// `AllocError` if memory is refused.
pub(crate) fn shared_contents(
    alloc: Global,
    message: &Message,
    actions: &[Action],
) -> Result<Vec<Shared>, AllocError>
    requires { All (NamesPart message.now) actions.now }
    ensures shares { IfOk result (λ shared. SharesContents (drafts_of message.now actions.now)
        (map first_of shared.items)) }
    ensures earliest { IfOk result (λ shared.
        NameEarliest (map (source_of (length message.now.parts)) actions.now)
        (map first_of shared.items)) }
{
    let parts = message.parts();
    let mut firsts = vec![in alloc; None; parts + 1]?;
    let mut shared = Vec::with_capacity(alloc, actions.len())?;
    for action in actions {
        let place = shared.len();
        let first = first_place(&mut firsts, source_of(parts, action), place);
        shared.push(Shared::with(first))?;
    }
    Ok(shared)
}

// Where the content of an action comes from: the number of its part, or the number of parts for the message.
fn source_of(parts: usize, action: &Action) -> usize
    ensures { result ≡ source_of parts action.now }
{
    match action {
        Action::Keep | Action::File(_) => parts,
        Action::Store(_, part) => *part,
    }
}

// The first place at which a source was used. If there was none, it is this place.
fn first_place(firsts: &mut Vec<Option<usize>>, source: usize, place: usize) -> usize
    requires { source < length firsts.old.items }
    ensures long { length firsts.new.items ≡ length firsts.old.items }
    ensures known { IfSome (slice_index_or firsts.old.items source None) (λ first. result ≡ first) }
    ensures fresh { slice_index_or firsts.old.items source None ≡ None → result ≡ place }
    ensures noted { slice_index_or firsts.new.items source None ≡ Some result }
    ensures others { (other : ℕ) → other ≢ source
        → slice_index_or firsts.new.items other None ≡ slice_index_or firsts.old.items other None }
    ensures first { (sources : List ℕ) → AreFirsts sources place firsts.old.items
        → slice_index_or sources place 0 ≡ source → slice_index_or sources result 0 ≡ source }
    ensures firsts { (sources : List ℕ) → AreFirsts sources place firsts.old.items
        → slice_index_or sources place 0 ≡ source → AreFirsts sources (place + 1) firsts.new.items }
{
    if let Some(first) = firsts[source] {
        return first;
    }
    firsts[source] = Some(place);
    place
}
