// Deliveries, alone and several at once.
ghost use Rattle.std.specs.Prelude.{◌≡◌, ◌<◌, length, map, IfErr, IsTrue, OnOk};
ghost use Rattle.part_store.specs.Access.{InTransaction};
ghost use Rattle.part_store.specs.Calls.{Always, CommitsNothing, IfDone, IfRefused, OnDone, StaysClosed};
ghost use Rattle.part_store.specs.Inside.{KeepsStored, KeepsTables, StaysInside};
ghost use Rattle.part_store.specs.Standing.{listed};
ghost use Rattle.depot_actions.specs.Applying.{Applies, AppliesAll};
ghost use Rattle.depot_actions.specs.Causes.{IsCause, IsFault, IsSound, MayRefuse};
ghost use Rattle.depot_actions.specs.Deliveries.{IsRefusedAt, MayRefuseAt, command_of, reply_of};
ghost use Rattle.depot_actions.specs.Delivering.{Delivers, DeliversEach};
ghost use Rattle.depot_actions.specs.DepotState.{Deliver, IsNamed, Listed};
ghost use Rattle.depot_actions.specs.Filing.{IfInside, Reaches, ReachesAll};

use crate::checked_program::CheckedPrograms;
use crate::delivery::{actions_of, file_all};
use crate::refusing::refused;
use crate::user::is_user_name;
use mime_decode::Message;
use part_store::{EntryRow, PartStore, Undone, Within, Work};
use refusals::Refusal;
use sqlite::Alter;
use std::alloc::Global;

/// A message to be delivered to a user. Callers of [`crate::Depot::deliver_all`] make one for each mail of a batch.
#[derive(Clone, Copy)]
pub struct Delivery<'a> {
    /// The user to whom the message is delivered.
    pub user: &'a str,
    /// The message, as bytes.
    pub message: &'a [u8],
}

/// Why several deliveries are refused: which of them, and for what. [`crate::Depot::deliver_all`] returns it; none of
/// the deliveries was made then.
#[derive(Drop)]
pub struct RefusedDelivery {
    /// The place of the first delivery that is refused, counted from 0: as many would have been accepted before it. If
    /// all would have been accepted and their commit failed, it is their number.
    pub place: usize,
    /// Why this delivery, or the commit, is refused.
    pub refusal: Refusal,
}

// The delivery of a message, as work in a transaction of its own.
#[derive(Drop)]
struct Alone<'a> {
    kept: &'a mut Option<CheckedPrograms>,
    alloc: Global,
    user: &'a str,
    message: &'a [u8],
}

impl<S: Alter> Work<S> for Alone<'_> {
    type Output = Vec<EntryRow>;

    type Refusal = Refusal;

    ghost does = { λ work old new result. Delivers S.Store work.user.now work.message.now old new result };

    fn run(self, tx: &mut Within<'_, '_, S>) -> Result<Vec<EntryRow>, Refusal> {
        let Alone {
            kept,
            alloc,
            user,
            message,
        } = self;
        deliver_within(tx, kept, alloc, user, message)
    }
}

// Several deliveries, as work in one transaction.
#[derive(Drop)]
struct Together<'a, 'd> {
    kept: &'a mut Option<CheckedPrograms>,
    alloc: Global,
    deliveries: &'a [Delivery<'d>],
}

impl<S: Alter> Work<S> for Together<'_, '_> {
    type Output = Vec<Vec<EntryRow>>;

    type Refusal = RefusedDelivery;

    ghost does = { λ work old new result. DeliversEach S.Store work.deliveries.now old new result };

    fn run(self, tx: &mut Within<'_, '_, S>) -> Result<Vec<Vec<EntryRow>>, RefusedDelivery> {
        let Together {
            kept,
            alloc,
            deliveries,
        } = self;
        deliver_each(tx, kept, alloc, deliveries)
    }
}

/// Delivers a message in a transaction of its own.
///
/// # Errors
///
/// Those of [`crate::Depot::deliver`]. Nothing is filed then.
pub(crate) fn deliver_alone<S: Alter>(
    store: &mut PartStore<S>,
    kept: &mut Option<CheckedPrograms>,
    alloc: Global,
    user: &str,
    message: &[u8],
) -> Result<Vec<EntryRow>, Refusal>
    ensures { Applies S.Store store.old store.new result (Deliver user.now message.now) reply_of }
{
    let work = Alone {
        kept,
        alloc,
        user,
        message,
    };
    match store.transact(work) {
        Ok(rows) => Ok(rows),
        Err(Undone::Refused(refusal)) => Err(refusal),
        Err(Undone::Uncommitted(error)) => Err(refused(error)),
    }
}

/// Delivers messages in one transaction, in their order, and returns the new entries of each.
///
/// # Errors
///
/// The error of the first delivery that is refused, or of the commit. Nothing is filed then.
pub(crate) fn deliver_together<S: Alter>(
    store: &mut PartStore<S>,
    kept: &mut Option<CheckedPrograms>,
    alloc: Global,
    deliveries: &[Delivery<'_>],
) -> Result<Vec<Vec<EntryRow>>, RefusedDelivery>
    ensures { AppliesAll S.Store store.old store.new result (map command_of deliveries.now)
        (λ replies. map reply_of replies.items) }
{
    let work = Together {
        kept,
        alloc,
        deliveries: &*deliveries,
    };
    match store.transact(work) {
        Ok(replies) => Ok(replies),
        Err(Undone::Refused(first)) => Err(first),
        Err(Undone::Uncommitted(error)) => Err(RefusedDelivery {
            place: deliveries.len(),
            refusal: refused(error),
        }),
    }
}

// Delivers messages within a transaction, in their order, up to the first that is refused.
fn deliver_each<S: Alter>(
    tx: &mut Within<'_, '_, S>,
    kept: &mut Option<CheckedPrograms>,
    alloc: Global,
    deliveries: &[Delivery<'_>],
) -> Result<Vec<Vec<EntryRow>>, RefusedDelivery>
    ensures same_transaction { tx.new.tx.ghost_name ≡ tx.old.tx.ghost_name }
    ensures same_reference { tx.new.tx.now.conn.ghost_name ≡ tx.old.tx.now.conn.ghost_name }
    ensures done { IfDone S.Store tx.old.tx.now.conn.now tx.new.tx.now.conn.now result
        (λ replies. ReachesAll (map command_of deliveries.now) (map reply_of replies.items)) }
    ensures open { OnDone S.Store tx.old.tx.now.conn.now tx.new.tx.now.conn.now result
        (λ old _. 0 < length deliveries.now → IsTrue old.is_open) }
    ensures inside { OnDone S.Store tx.old.tx.now.conn.now tx.new.tx.now.conn.now result StaysInside }
    ensures stays_closed { Always S.Store tx.old.tx.now.conn.now tx.new.tx.now.conn.now StaysClosed }
    ensures kept { Always S.Store tx.old.tx.now.conn.now tx.new.tx.now.conn.now KeepsStored }
    ensures which { IfErr result
        (λ e. MayRefuseAt (map command_of deliveries.now) e.place e.refusal) }
    ensures refused { IfRefused S.Store tx.old.tx.now.conn.now tx.new.tx.now.conn.now result
        (λ old new e. IsTrue old.in_transaction
        → IsRefusedAt (map command_of deliveries.now) e.place e.refusal old new) }
    ensures survives { CommitsNothing S.Store tx.old.tx.now.conn.now tx.new.tx.now.conn.now }
{
    let mut replies = Vec::new(alloc);
    for delivery in deliveries {
        let place = replies.len();
        let rows = match deliver_within(tx, kept, alloc, delivery.user, delivery.message) {
            Ok(rows) => rows,
            Err(refusal) => return Err(RefusedDelivery { place, refusal }),
        };
        let Ok(()) = replies.push(rows) else {
            return Err(RefusedDelivery {
                place,
                refusal: Refusal::Memory,
            });
        };
    }
    Ok(replies)
}

/// Delivers a message within a transaction, and returns the new entries. After an error, the transaction has to be
/// rolled back.
///
/// # Errors
///
/// Those of [`crate::Depot::deliver`].
fn deliver_within<S: Alter>(
    tx: &mut Within<'_, '_, S>,
    kept: &mut Option<CheckedPrograms>,
    alloc: Global,
    user: &str,
    message: &[u8],
) -> Result<Vec<EntryRow>, Refusal>
    ensures same_transaction { tx.new.tx.ghost_name ≡ tx.old.tx.ghost_name }
    ensures same_reference { tx.new.tx.now.conn.ghost_name ≡ tx.old.tx.now.conn.ghost_name }
    ensures done { IfDone S.Store tx.old.tx.now.conn.now tx.new.tx.now.conn.now result
        (λ rows. Reaches (Deliver user.now message.now) (Listed (map listed rows.items))) }
    ensures inside { OnDone S.Store tx.old.tx.now.conn.now tx.new.tx.now.conn.now result StaysInside }
    ensures schema { OnDone S.Store tx.old.tx.now.conn.now tx.new.tx.now.conn.now result KeepsTables }
    ensures sound { OnOk result (IsNamed (Deliver user.now message.now)
        × IsSound (Deliver user.now message.now)) }
    ensures which { IfErr result (MayRefuse (Deliver user.now message.now)) }
    ensures refused { IfRefused S.Store tx.old.tx.now.conn.now tx.new.tx.now.conn.now result
        (IsCause (Deliver user.now message.now)) }
    ensures cause { IfRefused S.Store tx.old.tx.now.conn.now tx.new.tx.now.conn.now result
        (IfInside (IsFault (Deliver user.now message.now))) }
    ensures within { InTransaction S.Store tx.old.tx.now.conn.now tx.new.tx.now.conn.now result }
{
    if !is_user_name(user) {
        return Err(Refusal::UserName);
    }
    let mail = Message::read(alloc, message)?;
    let program = tx.program_of(user).map_err(refused)?;
    let actions = actions_of(alloc, program, kept, &mail)?;
    if actions.is_empty() {
        return Ok(Vec::new(alloc));
    }
    file_all(tx, alloc, user, message, mail, &actions)
}
