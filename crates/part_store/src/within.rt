//! Calls within a transaction, which are committed together.
//!
//! The store lends its connection to nobody: it has the invariant that no transaction is open, and would have to keep
//! that whatever is done with what it lends. So work comes to the store. [`crate::PartStore::transact`] begins a
//! transaction, lets a [`Work`] run in it, and commits it or rolls it back. The work is lent a [`Within`], which has two
//! calls, and only this crate can make one. A `Within` borrows its transaction: what becomes of a connection is known
//! only through a transaction that is a variable of its own.
ghost use Rattle.std.specs.Prelude.{◌≡◌, ◌<◌, Result, true, false, length, map, IsTrue, option_map};
ghost use Rattle.sqlite.specs.Held.{Held, state};
ghost use Rattle.sqlite.specs.State.{IsLive};
ghost use Rattle.part_store.specs.Access.{AddsEntries, InTransaction, IsFailure, IsFailureOrObstacle, IsRefusedAs};
ghost use Rattle.part_store.specs.Calls.{OnDone, Tells};
ghost use Rattle.part_store.specs.Entries.{with_entries};
ghost use Rattle.part_store.specs.Inside.{Brings, IfInside, IsInside, KeepsTables, Stays, StaysInside};
ghost use Rattle.part_store.specs.Refusals.{OnlyWhenFailed, OnlyWhenFailedOrNoEntryRoom};
ghost use Rattle.part_store.specs.Sharing.{SharesContents, first_of};
ghost use Rattle.part_store.specs.Standing.{draft_of};
ghost use Rattle.part_store.specs.declared.error.StoreError.TheVariants.{Memory, NumberFull, Collision, Database};

use crate::adding::{Adding, put_entries};
use crate::entry::NewEntry;
use crate::error::StoreError;
use crate::shared::Shared;
use crate::stored_programs::read_program;
use sqlite::{Alter, Connection, Transaction};

/// Begins a transaction on a store's database. An open database then shows what is committed. If the transaction is
/// dropped before its commit, it is rolled back.
///
/// # Requires
///
/// No transaction is open on the connection.
pub(crate) fn begin<S: Alter>(conn: &mut Connection<S>) -> Transaction<'_, S>
    requires { conn.old.in_transaction ≡ false }
    ensures same_reference { result.conn.ghost_name ≡ conn.entry.ghost_name }
    ensures begun { result.conn.now ≡ record conn.old { in_transaction = true } }
    ensures settled { IsTrue (state S.Store conn.old).is_open
        → (state S.Store conn.old).now ≡ (state S.Store conn.old).committed }
{
    know_connection(conn);
    conn.transaction()
}

/// Does nothing. It states what holds for every connection, which a proof only learns by asking: an open connection
/// lists its tables, and what it shows is committed if it is in no transaction.
pub(crate) fn know_connection<S: Alter>(conn: &Connection<S>)
    ensures settled { conn.now.in_transaction ≡ false → IsTrue (state S.Store conn.now).is_open
        → (state S.Store conn.now).now ≡ (state S.Store conn.now).committed }
    ensures live { IsLive (state S.Store conn.now) }
{
    let _is_settled = conn.is_autocommit();
    let _schema = conn.schema();
}

/// Adds entries as [`crate::PartStore::add_sharing_entries`] does, with the same answer and the same errors, and
/// commits nothing. After an error, roll the transaction back: it can have some of the entries.
///
/// # Requires
///
/// - There is at least one entry: `0 < length entries`.
/// - What `shared` says is true: if it names an earlier place for an entry, the entry at that place has the same bytes.
///   It can be shorter or longer than `entries`.
///
/// # Errors
///
/// - `Memory` if memory is refused.
/// - `NumberFull` exactly if the user has too few numbers left.
/// - `Collision` exactly if there are enough numbers and a different content, in the store or earlier in `entries`, has
///   the digest of one of the entries.
/// - `Database` if the database fails (see [`crate::PartStore`]), or has no room for an entry, its content or the
///   user's row.
pub(crate) fn add_within<S: Alter>(
    tx: &mut Transaction<'_, S>,
    user: &str,
    entries: &[NewEntry<'_>],
    shared: &mut [Shared],
) -> Result<u32, StoreError>
    requires some { 0 < length entries.now }
    requires shared { SharesContents (map draft_of entries.now) (map first_of shared.old) }
    ensures same_reference { tx.new.conn.ghost_name ≡ tx.old.conn.ghost_name }
    ensures made { OnDone S.Store tx.old.conn.now tx.new.conn.now result
        (Brings (with_entries user.now (map draft_of entries.now))) }
    ensures adds { AddsEntries S.Store tx.old.conn.now tx.new.conn.now result user.now entries.now }
    ensures inside { OnDone S.Store tx.old.conn.now tx.new.conn.now result IsInside }
    ensures schema { OnDone S.Store tx.old.conn.now tx.new.conn.now result KeepsTables }
    ensures refused { IsRefusedAs S.Store tx.old.conn.now tx.new.conn.now result IsFailureOrObstacle
        (IfInside (OnlyWhenFailedOrNoEntryRoom user.now (map draft_of entries.now))) }
    ensures within { InTransaction S.Store tx.old.conn.now tx.new.conn.now result }
{
    match put_entries(tx, user, entries, shared)? {
        Adding::From(first) => Ok(first),
        Adding::NumberFull => Err(StoreError::NumberFull),
        Adding::Collision => Err(StoreError::Collision),
    }
}

/// A transaction on a store, lent to a [`Work`]. All that can be done with it is to call these methods.
#[derive(Drop)]
pub struct Within<'tx, 'conn, S: Alter> {
    tx: &'tx mut Transaction<'conn, S>,
}

impl<S: Alter> Within<'_, '_, S> {
    /// Returns the user's filter program, or `None` if the user has none.
    ///
    /// # Errors
    ///
    /// - `Memory` if memory is refused.
    /// - `Database` if the database fails (see [`crate::PartStore`]).
    pub fn program_of(&mut self, user: &str) -> Result<Option<Vec<u8>>, StoreError>
        ensures same_transaction { self.new.tx.ghost_name ≡ self.old.tx.ghost_name }
        ensures same_reference { self.new.tx.now.conn.ghost_name ≡ self.old.tx.now.conn.ghost_name }
        ensures answer { Tells S.Store self.old.tx.now.conn.now self.new.tx.now.conn.now result
            (λ before found. option_map (λ v. v.items) found ≡ before.programs user.now) }
        ensures same { OnDone S.Store self.old.tx.now.conn.now self.new.tx.now.conn.now result Stays }
        ensures inside { OnDone S.Store self.old.tx.now.conn.now self.new.tx.now.conn.now result StaysInside }
        ensures refused { IsRefusedAs S.Store self.old.tx.now.conn.now self.new.tx.now.conn.now result
            IsFailure OnlyWhenFailed }
        ensures within { InTransaction S.Store self.old.tx.now.conn.now self.new.tx.now.conn.now result }
    {
        Ok(read_program(self.tx, user)?)
    }

    /// Adds entries as [`crate::PartStore::add_sharing_entries`] does, with the same answer and the same errors, and
    /// commits nothing. After an error, the work has to be refused: the transaction can have some of the entries.
    ///
    /// # Requires
    ///
    /// - There is at least one entry: `0 < length entries`.
    /// - What `shared` says is true: if it names an earlier place for an entry, the entry at that place has the same
    ///   bytes. It can be shorter or longer than `entries`.
    ///
    /// # Errors
    ///
    /// - `Memory` if memory is refused.
    /// - `NumberFull` exactly if the user has too few numbers left.
    /// - `Collision` exactly if there are enough numbers and a different content, in the store or earlier in `entries`,
    ///   has the digest of one of the entries.
    /// - `Database` if the database fails (see [`crate::PartStore`]), or has no room for an entry, its content or the
    ///   user's row.
    pub fn add_sharing_entries(
        &mut self,
        user: &str,
        entries: &[NewEntry<'_>],
        shared: &mut [Shared],
    ) -> Result<u32, StoreError>
        requires some { 0 < length entries.now }
        requires shared { SharesContents (map draft_of entries.now) (map first_of shared.old) }
        ensures same_transaction { self.new.tx.ghost_name ≡ self.old.tx.ghost_name }
        ensures same_reference { self.new.tx.now.conn.ghost_name ≡ self.old.tx.now.conn.ghost_name }
        ensures made { OnDone S.Store self.old.tx.now.conn.now self.new.tx.now.conn.now result
            (Brings (with_entries user.now (map draft_of entries.now))) }
        ensures adds { AddsEntries S.Store self.old.tx.now.conn.now self.new.tx.now.conn.now result
            user.now entries.now }
        ensures inside { OnDone S.Store self.old.tx.now.conn.now self.new.tx.now.conn.now result IsInside }
        ensures schema { OnDone S.Store self.old.tx.now.conn.now self.new.tx.now.conn.now result KeepsTables }
        ensures refused { IsRefusedAs S.Store self.old.tx.now.conn.now self.new.tx.now.conn.now result
            IsFailureOrObstacle
            (IfInside (OnlyWhenFailedOrNoEntryRoom user.now (map draft_of entries.now))) }
        ensures within { InTransaction S.Store self.old.tx.now.conn.now self.new.tx.now.conn.now result }
    {
        add_within(self.tx, user, entries, shared)
    }
}

/// What is done on a store in one transaction ([`crate::PartStore::transact`]).
///
/// A contract sees what it does: which states of the store it leads to from another, with which result.
pub trait Work<S: Alter> {
    /// What it gives if it is done.
    type Output: Drop;

    /// Why it is refused.
    type Refusal;

    ghost does: { Self → Held S → Held S → Result Self.Output Self.Refusal → Type 0 };

    /// Does it, within a transaction.
    ///
    /// # Errors
    ///
    /// A refusal: the transaction is rolled back then.
    fn run(self, within: &mut Within<'_, '_, S>) -> Result<Self::Output, Self::Refusal>
        ensures same_transaction { within.new.tx.ghost_name ≡ within.old.tx.ghost_name }
        ensures same_reference { within.new.tx.now.conn.ghost_name
            ≡ within.old.tx.now.conn.ghost_name }
        ensures does { does self within.old.tx.now.conn.now within.new.tx.now.conn.now result };
}

/// Why work is undone ([`crate::PartStore::transact`]): nothing of it is left.
pub enum Undone<E> {
    /// The work was refused.
    Refused(E),
    /// The work was done, and its commit failed.
    Uncommitted(StoreError),
}

/// Lets work run in a transaction.
///
/// # Errors
///
/// The refusal of the work. The transaction has to be rolled back then.
pub(crate) fn run_within<S: Alter, W: Work<S>>(
    tx: &mut Transaction<'_, S>,
    work: W,
) -> Result<W::Output, W::Refusal>
    ensures same_reference { tx.new.conn.ghost_name ≡ tx.old.conn.ghost_name }
    ensures does { W.does work tx.old.conn.now tx.new.conn.now result }
{
    let mut within = Within { tx };
    work.run(&mut within)
}
