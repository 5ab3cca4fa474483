//! The store and its calls.
//!
//! `adopt` hands a connection with an open transaction back; this isn't a condition on the caller. No call leaves a
//! transaction open, so none has to ask. The syncs of an open are the database's own: it has no option for them. A batch
//! pays for them once. What the files held is a parameter of
//! opening: `open_from` is generic in a `Start`, the toolchain's word for what a file and its log held, and promises to
//! find that. `open` is `open_from` at `Unknown`, about which no clause says anything, because no contract can say what
//! a file of the system holds; no clause ties the `Start` to the path either. A file that an interrupted first open
//! left half made counts as a file without tables (`HoldsNoTables`); this follows from what the toolchain's `open_from`
//! says about the trees that it found.
ghost use Rattle.std.specs.Prelude.{◌≡◌, ◌≢◌, ◌⊎◌, ◌↔◌, ◌+◌, ◌^◌, ◌<◌, ◌≤◌, length, map, true, false, IsTrue, option_map, MatchOption, Err, IfOk, IfErr, IsErrAnd, None, OnOk, OnErr, IfSome};
ghost use Rattle.sha2.specs.Sha256.{sha256};
ghost use Rattle.sqlite.specs.Held.{state};
ghost use Rattle.sqlite.specs.State.{HasCleanDisk};
ghost use Rattle.part_store.specs.Tables.{no_schema, store_schema, contents_tree, users_tree};
ghost use Rattle.part_store.specs.Entries.{AreProgramsOf, entries_of, entries_since, listing_of, no_entries, with_entries, with_program, with_programs, without_entry};
ghost use Rattle.part_store.specs.Access.{AddsEntries, IsFailure, IsFailureOrAbsence, IsFailureOrObstacle, IsRefusedAs, MayMakeOpen, ReadsStore, WritesStore};
ghost use Rattle.part_store.specs.Blaming.{AsRefusal, AsRefusalInside};
ghost use Rattle.part_store.specs.Inside.{Brings};
ghost use Rattle.part_store.specs.Standing.{AddsVerified, HaveDigests, IsStored, MayMake, Stands, HasContent, IsEntryAt, HasNone, draft_of, listed, pair_of};
ghost use Rattle.part_store.specs.Readings.{NamesDigest};
ghost use Rattle.part_store.specs.Refusals.{refusal_of, HasFailed, OnlyWhenFailed, OnlyWhenFailedOrNoEntryRoom, OnlyWhenUnnamed, OnlyWhenFailedOr, OnlyWhenFailedOrNoLineRoom, OnlyWhenFailedOrNoProgramRoom, OnlyWhenFailedOrNoUserRoom};
ghost use Rattle.part_store.specs.declared.error.StoreError.TheVariants.{Memory, NoSuchEntry, Database};
ghost use Rattle.part_store.specs.Crashes.{KeepsState};
ghost use Rattle.part_store.specs.Looking.{are_tables};
ghost use Rattle.part_store.specs.Totals.{IsTotalOf, octets_of};
ghost use Rattle.part_store.specs.Transacting.{Transacts};
ghost use Rattle.part_store.specs.UserLines.{AreUsersOf, line_of, with_users};
ghost use Rattle.part_store.specs.Scrubbing.{IsScrubbed, OnlyWhenUncounted};
ghost use Rattle.sqlite.specs.Files.{file_state, IsClosed, IsOpened};
ghost use Rattle.sqlite.specs.FileStore.{files as files_of};
ghost use Rattle.sqlite.specs.WalReads.{AreClean};
ghost use Rattle.sqlite.specs.Steps.{over_memory};
ghost use Rattle.part_store.specs.Opening.{HasOtherTables, HoldsNoTables, HoldsStore, IsAt, IsBare, IsEmptied, IsFoundIn, IsKept, IsReady, IsReadyFrom, KeepsDatabase, KeepsStore, MakesEmpty, TellsWhy};
ghost use Rattle.part_store.specs.Connections.{OpensOrTells};
ghost use Rattle.sqlite.specs.WalFiles.{image_at};
ghost use Rattle.part_store.specs.Sharing.{AreSharing, SharesContents, first_of};
ghost use Rattle.part_store.specs.Verifying.{IsAltered, IsVerified, Keeps, Lacks, Names, OnlyWhenFailedOrAltered};
ghost use Rattle.part_store.specs.Causes.{content_altered};
ghost use Rattle.part_store.specs.Calls.{Always, DoneWhere, IfDone, IfRefused, MayCommit, OnDone, OnRefused, RefusedWhere, Tells};
ghost use Rattle.part_store.specs.Private.{MakesTables, ReadsInside, WorksInside};

mod connections;

use crate::adding::last_of;
use crate::all_users::{list_users, put_all};
use crate::entry::{EntryRow, NewEntry, SharingRow};
use crate::error::StoreError;
use crate::listing::{list_all, list_sharing, list_since};
use crate::looking::{Unopened, has_tables};
use crate::opening::open_database;
use crate::scrubbing::{Scrubbed, scrub_all};
use crate::shared::Shared;
use crate::stored_programs::{list_programs, put_program, read_program, replace_all};
use crate::totals::{ContentTotal, count_contents};
use crate::user_row::UserRow;
use crate::within::{Undone, Work, add_within, begin, run_within};
use crate::{contents, entries, tables};
use connections::{known_connection, store_on};
use sqlite::{
    Alter, Connection, Error, File, FileFrom, FileStore, Files, MemStore, Start, Transaction,
    Unknown,
};
use sqlite_disk::Disk;
use sqlite_schema::schema::Schema;
use std::alloc::Global;
use std::marker::Model;
use std::thread;
use std::time::Duration;

/// A store: entries, filter programs and last numbers in the three tables of one database. `open`, `in_memory` and
/// `adopt` make one; the crate `depot_actions` carries out the commands of users with it. No call leaves a transaction
/// open.
///
/// If the tables represent a state, a call fails with `Database` only if the database can't work: its disk failed in
/// the call, a failure had shut it before, or its connection limits the steps of a statement (the clauses `cause`). A
/// call that puts rows in can also fail because there is no room: a table has no rowid left, or a row is larger than
/// the database can store. Each call lists its other errors itself. If it says "exactly if", the error has no other
/// cause, and with this cause the call never succeeds; memory can still be refused, or the database fail, before the
/// cause is found.
///
/// A store that a failure has shut stays shut: its calls fail with `Memory` or `Database`, and commit nothing (for
/// `replace_programs` and `put_users` the latter is promised only if the list isn't empty).
///
/// Which errors a call can return is promised whatever the disk does. What it returns and leaves, and the cause of an
/// error, are promised as long as the disk returns what was written.
pub struct PartStore<S: Alter> {
    // The database, in which no transaction is open.
    conn: Connection<S>,
}

impl<S: Alter> Model for PartStore<S> {
    ghost use Rattle.std.specs.Prelude.{◌≡◌, false};
    ghost use Rattle.sqlite.specs.Held.{Held, held_code};

    ghost Value = { Held S };

    ghost coded = { held_code S.code };

    ghost view = { λ s. s.conn };

    ghost invariant = { λ s. s.conn.in_transaction ≡ false };
}

impl<S: Alter + Drop> Drop for PartStore<S> {
    fn drop(self) {
        let PartStore { conn: _ } = self;
    }
}

/// Whether a database has no table, no index and no view.
fn is_bare(schema: &Schema) -> bool
    ensures { IsTrue result ↔ (schema.now ≡ no_schema) }
{
    schema.tables.is_empty() && schema.indexes.is_empty() && schema.views.is_empty()
}

fn create_tables<S: Alter>(tx: &mut Transaction<'_, S>) -> Result<(), Error>
    ensures { MakesTables S.Store tx.old.conn tx.new.conn result
        (λ old new. old.now.schema ≡ no_schema → Stands new.now no_entries) }
{
    tables::create_users(tx)?;
    tables::create_contents(tx)?;
    tables::create_entries(tx)?;
    Ok(())
}

/// Makes the tables in a database that has none, and leaves any other database as it is.
fn ready_tables<S: Alter>(conn: &mut Connection<S>) -> Result<(), StoreError>
    ensures made { OnDone S.Store conn.old conn.new result (λ old new. IsBare old → IsEmptied new) }
    ensures same { OnOk result ((IsBare (state S.Store conn.old) → ⊥) → conn.new ≡ conn.old) }
    ensures settled { OnOk result ((state S.Store conn.new).in_transaction ≡ false) }
    ensures mode { (state S.Store conn.new).in_transaction
        ≡ (state S.Store conn.old).in_transaction }
    ensures inside { IsTrue (state S.Store conn.old).in_transaction → result ≡ Err Database }
    ensures bare { OnErr result ((state S.Store conn.old).in_transaction ≡ false
        → IsBare (state S.Store conn.old)) }
    ensures unchanged { OnRefused S.Store conn.old conn.new result
        (λ old new. IsTrue new.is_open → IsKept old new) }
    ensures refused { IfErr result (λ e. (e ≡ Memory) ⊎ (e ≡ Database)) }
    ensures survives { MayCommit S.Store conn.old conn.new MakesEmpty }
{
    if !conn.is_autocommit() {
        return Err(StoreError::Database);
    }
    if !is_bare(conn.schema()) {
        return Ok(());
    }
    let mut tx = conn.transaction();
    create_tables(&mut tx)?;
    tx.commit()?;
    Ok(())
}

/// The digest of a user's entry, or `None` if the user has no such entry.
fn digest_of<S: Alter>(
    tx: &mut Transaction<'_, S>,
    user: &str,
    number: u32,
) -> Result<Option<Vec<u8>>, Error>
    ensures answer { IfDone S.Store tx.old.conn.now tx.new.conn.now result
        (λ found old _. (before : _) → Stands old.now before
        → MatchOption found (HasNone before user.now number)
        (λ digest. NamesDigest old.now.trees user.now number digest.items)) }
    ensures named { IfDone S.Store tx.old.conn.now tx.new.conn.now result
        (λ found old _. old.now.schema ≡ store_schema
        → IfSome found (λ digest. Names old.now.trees user.now number digest.items)) }
    ensures unnamed { IfRefused S.Store tx.old.conn.now tx.new.conn.now result
        (AsRefusal (OnlyWhenFailedOrAltered user.now number)) }
    ensures cause { IfRefused S.Store tx.old.conn.now tx.new.conn.now result (AsRefusal OnlyWhenFailed) }
    ensures within { ReadsInside S.Store tx.old.conn tx.new.conn result }
{
    match entries::find(tx, user, number)? {
        Some(row) => Ok(Some(row.get(0)?)),
        None => Ok(None),
    }
}

/// The content under a digest that an entry names.
pub(crate) fn content_of<S: Alter>(
    tx: &mut Transaction<'_, S>,
    digest: &[u8],
) -> Result<Vec<u8>, Error>
    ensures answer { IfDone S.Store tx.old.conn.now tx.new.conn.now result
        (λ octets old _. (before : _) → Stands old.now before
        → HasContent (old.now.trees contents_tree) digest.now octets.items) }
    ensures found { IfDone S.Store tx.old.conn.now tx.new.conn.now result
        (λ octets old _. old.now.schema ≡ store_schema
        → Keeps old.now.trees digest.now octets.items) }
    ensures lacking { IfRefused S.Store tx.old.conn.now tx.new.conn.now result
        (λ old new e. refusal_of e ≡ Database → old.now.schema ≡ store_schema
        → HasFailed old new ⊎ Lacks old.now.trees digest.now) }
    ensures cause { IfRefused S.Store tx.old.conn.now tx.new.conn.now result
        (λ old new e. (octets : _) → HasContent (old.now.trees contents_tree) digest.now octets
        → OnlyWhenFailed old new (refusal_of e)) }
    ensures within { ReadsInside S.Store tx.old.conn tx.new.conn result }
{
    match contents::find(tx, digest)? {
        Some(row) => row.get(0),
        None => Err(Error::InvalidQuery),
    }
}

/// The bytes that were read under a digest, if they have that digest.
fn verified(octets: Vec<u8>, digest: &[u8]) -> Result<Vec<u8>, Error>
    ensures same { IfOk result (λ it. it ≡ octets) }
    ensures has { IfOk result (λ it. sha256 it.items ≡ digest.now) }
    ensures other { IfErr result (λ e. (e ≡ content_altered) × (sha256 octets.items ≢ digest.now)) }
{
    if contents::has_digest(&octets, digest) {
        Ok(octets)
    } else {
        Err(contents::altered())
    }
}

/// The bytes of a user's entry, or `None` if the user has no such entry.
fn read_bytes<S: Alter>(
    tx: &mut Transaction<'_, S>,
    user: &str,
    number: u32,
) -> Result<Option<Vec<u8>>, Error>
    ensures answer { Tells S.Store tx.old.conn.now tx.new.conn.now result
        (λ before found.
        MatchOption found (HasNone before user.now number)
        (λ octets. (x : _) × IsEntryAt before user.now number x × (octets.items ≡ x.octets))) }
    ensures verified { IfDone S.Store tx.old.conn.now tx.new.conn.now result
        (λ found old _. old.now.schema ≡ store_schema
        → IfSome found (λ octets. IsVerified old.now.trees user.now number octets.items)) }
    ensures cause { IfRefused S.Store tx.old.conn.now tx.new.conn.now result
        (AsRefusal (OnlyWhenFailedOrAltered user.now number)) }
    ensures within { WorksInside S.Store tx.old.conn tx.new.conn result }
{
    let Some(digest) = digest_of(tx, user, number)? else {
        return Ok(None);
    };
    let octets = content_of(tx, &digest)?;
    Ok(Some(verified(octets, &digest)?))
}

/// Takes a user's entry out. Returns false if the user has no such entry.
fn take_entry<S: Alter>(tx: &mut Transaction<'_, S>, user: &str, number: u32) -> Result<bool, Error>
    ensures taken { IfDone S.Store tx.old.conn.now tx.new.conn.now result
        (λ done old new. done ≡ true → Brings (without_entry user.now number) old new) }
    ensures there { IfDone S.Store tx.old.conn.now tx.new.conn.now result
        (λ done old _. done ≡ true → (before : _) → Stands old.now before
        → (x : _) × IsEntryAt before user.now number x) }
    ensures none { IfDone S.Store tx.old.conn.now tx.new.conn.now result
        (λ done old _. done ≡ false → (before : _) → Stands old.now before
        → HasNone before user.now number) }
    ensures inside { IfDone S.Store tx.old.conn.now tx.new.conn.now result
        (λ done old new. done ≡ true → old.now.schema ≡ store_schema → IsTrue new.in_transaction) }
    ensures cause { IfRefused S.Store tx.old.conn.now tx.new.conn.now result
        (AsRefusalInside OnlyWhenFailed) }
    ensures within { WorksInside S.Store tx.old.conn tx.new.conn result }
{
    let Some(digest) = digest_of(tx, user, number)? else {
        return Ok(false);
    };
    entries::remove(tx, user, number)?;
    contents::remove_unnamed(tx, &digest)?;
    Ok(true)
}

impl<S: Alter> PartStore<S> {
    /// Makes a store of an open connection that has no tables, or a store's tables. If there are no tables, the empty
    /// ones are made and committed; otherwise the connection stays as it is. A crash on the way leaves the database as
    /// it was, or with the empty tables.
    ///
    /// # Errors
    ///
    /// The error comes with the connection. What the connection shows and what is committed are as before, unless a
    /// failure has shut it; it is in a transaction if it was in one before. Nothing is committed through a connection
    /// that is shut.
    ///
    /// - `Memory` if memory is refused.
    /// - `Database` if the connection is in a transaction, or the database fails. Outside a transaction, only a
    ///   connection without tables is refused.
    pub fn adopt(conn: Connection<S>) -> Result<PartStore<S>, (StoreError, Connection<S>)>
        ensures made { IfOk result
            (λ s. Always S.Store conn s (λ old new. IsBare old → IsEmptied new)) }
        ensures same { IfOk result (λ s. (IsBare (state S.Store conn) → ⊥) → s ≡ conn) }
        ensures settled { IfOk result (λ s. (state S.Store s).in_transaction ≡ false) }
        ensures unchanged { IfErr result
            (λ e. Always S.Store conn e.1 (λ old new. IsTrue new.is_open → IsKept old new)) }
        ensures mode { IfErr result
            (λ e. (state S.Store e.1).in_transaction ≡ (state S.Store conn).in_transaction) }
        ensures inside { IsTrue (state S.Store conn).in_transaction
            → IsErrAnd result (λ e. e.0 ≡ Database) }
        ensures bare { IfErr result
            (λ e. (state S.Store conn).in_transaction ≡ false → IsBare (state S.Store conn)) }
        ensures refused { IfErr result (λ e. (e.0 ≡ Memory) ⊎ (e.0 ≡ Database)) }
        ensures survives { IfOk result (λ s. MayCommit S.Store conn s MakesEmpty) }
        ensures broken { IfErr result (λ e. MayCommit S.Store conn e.1 MakesEmpty) }
    {
        let mut conn = conn;
        match ready_tables(&mut conn) {
            Ok(()) => Ok(PartStore { conn }),
            Err(error) => Err((error, conn)),
        }
    }

    /// Makes a store of an open connection whose tables have the names of a store's tables and as many columns. Nothing
    /// is read or written.
    ///
    /// # Errors
    ///
    /// The connection itself, unchanged, if it is in a transaction or its tables are different.
    pub fn adopt_as_is(conn: Connection<S>) -> Result<PartStore<S>, Connection<S>>
        ensures same { IfOk result (λ s. s ≡ conn) }
        ensures tables { IfOk result (λ s. are_tables (state S.Store s).now.schema.tables ≡ true) }
        ensures settled { IfOk result (λ s. (state S.Store s).in_transaction ≡ false) }
        ensures returned { IfErr result (λ c. c ≡ conn) }
        ensures others { IfErr result
            (λ c. (state S.Store c).in_transaction ≡ false
            → (state S.Store c).now.schema ≢ store_schema) }
        ensures apart { IfErr result
            (λ c. (state S.Store c).in_transaction ≡ false → HasOtherTables (state S.Store c)) }
    {
        if conn.is_autocommit() && has_tables(conn.schema()) {
            Ok(PartStore { conn })
        } else {
            Err(conn)
        }
    }

    /// Gives the connection back. No transaction is open on it.
    pub fn release(self) -> Connection<S>
        ensures same { result ≡ self }
        ensures settled { (state S.Store result).in_transaction ≡ false }
    {
        let PartStore { conn } = self;
        conn
    }

    /// Does work in a transaction of its own: it is committed if the work is done, and rolled back if it is refused. So
    /// entries of several users can be added together, all or none.
    ///
    /// # Errors
    ///
    /// - [`Undone::Refused`] with the refusal of the work.
    /// - [`Undone::Uncommitted`] if the work is done and its commit fails, with `Memory` or `Database`.
    pub fn transact<W: Work<S>>(&mut self, work: W) -> Result<W::Output, Undone<W::Refusal>>
        ensures { Transacts S.Store self.old self.new result (W.does work) }
    {
        let mut tx = begin(&mut self.conn);
        let output = match run_within(&mut tx, work) {
            Ok(output) => output,
            Err(refusal) => return Err(Undone::Refused(refusal)),
        };
        match tx.commit() {
            Ok(()) => Ok(output),
            Err(error) => Err(Undone::Uncommitted(StoreError::from(error))),
        }
    }

    /// Stores the user's filter program and replaces the one before. Any bytes are accepted: whether they are a program
    /// is for the caller to check.
    ///
    /// # Errors
    ///
    /// - `Memory` if memory is refused.
    /// - `Database` if the database fails (see [`PartStore`]), or the user's row has no room.
    pub fn set_program(&mut self, user: &str, program: &[u8]) -> Result<(), StoreError>
        ensures writes { WritesStore S.Store self.old self.new result
            (with_program user.now program.now)
            (MayMakeOpen (with_program user.now program.now)) }
        ensures refused { IsRefusedAs S.Store self.old self.new result IsFailure
            (OnlyWhenFailedOrNoUserRoom user.now (with_program user.now program.now)) }
    {
        let mut tx = begin(&mut self.conn);
        put_program(&mut tx, user, program)?;
        tx.commit()?;
        Ok(())
    }

    /// Returns the user's filter program, or `None` if the user has none.
    ///
    /// # Errors
    ///
    /// - `Memory` if memory is refused.
    /// - `Database` if the database fails (see [`PartStore`]).
    pub fn program_of(&mut self, user: &str) -> Result<Option<Vec<u8>>, StoreError>
        ensures answer { Tells S.Store self.old self.new result
            (λ before found. option_map (λ v. v.items) found ≡ before.programs user.now) }
        ensures reads { ReadsStore S.Store self.old self.new result }
        ensures refused { IsRefusedAs S.Store self.old self.new result IsFailure OnlyWhenFailed }
    {
        let mut tx = begin(&mut self.conn);
        Ok(read_program(&mut tx, user)?)
    }

    /// Returns the users that have a filter program, each with the program, in the order of their names.
    ///
    /// # Errors
    ///
    /// - `Memory` if memory is refused.
    /// - `Database` if the database fails (see [`PartStore`]), or a user's name in the table isn't UTF-8.
    pub fn programs(&mut self) -> Result<Vec<(String, Vec<u8>)>, StoreError>
        ensures answer { Tells S.Store self.old self.new result
            (λ before programs. AreProgramsOf before (map pair_of programs.items)) }
        ensures reads { ReadsStore S.Store self.old self.new result }
        ensures refused { IsRefusedAs S.Store self.old self.new result IsFailure OnlyWhenUnnamed }
    {
        let mut tx = begin(&mut self.conn);
        list_programs(&mut tx)
    }

    /// Returns all users, each with the last number and the program, in the order of their names.
    ///
    /// # Errors
    ///
    /// - `Memory` if memory is refused.
    /// - `Database` if the database fails (see [`PartStore`]), or a user's name in the table isn't UTF-8.
    pub fn users(&mut self) -> Result<Vec<UserRow>, StoreError>
        ensures answer { IfDone S.Store self.old self.new result
            (λ users old _. (before : _) → Stands old.now before
            → AreUsersOf (old.now.trees users_tree) before (map line_of users.items)) }
        ensures reads { ReadsStore S.Store self.old self.new result }
        ensures refused { IsRefusedAs S.Store self.old self.new result IsFailure OnlyWhenUnnamed }
    {
        let mut tx = begin(&mut self.conn);
        list_users(&mut tx)
    }

    /// Puts users in, all in one transaction: each listed user has the listed program afterwards, or none, and at least
    /// the listed last number. A last number never falls: if the store has a larger one, that one stays. If a user is
    /// listed twice, the later program and the larger last number count.
    ///
    /// If the list is what [`PartStore::users`] returned for one store, and this store is empty, it has the programs
    /// and last numbers of that store afterwards, and no entries ([`crate::laws::users_carry_over`]).
    ///
    /// # Errors
    ///
    /// - `Memory` if memory is refused.
    /// - `Database` if the database fails (see [`PartStore`]), or a user's row has no room.
    pub fn put_users(&mut self, users: &[UserRow]) -> Result<(), StoreError>
        ensures writes { WritesStore S.Store self.old self.new result
            (with_users (map line_of users.now))
            (λ old trees. (0 < length users.now → IsTrue old.is_open)
            × MayMake (with_users (map line_of users.now)) old trees) }
        ensures refused { IsRefusedAs S.Store self.old self.new result IsFailure
            (OnlyWhenFailedOrNoLineRoom (map line_of users.now)) }
    {
        let mut tx = begin(&mut self.conn);
        put_all(&mut tx, users)?;
        tx.commit()?;
        Ok(())
    }

    /// Returns the last number that the user was given, or 0 if the user was given none. The user's next entry gets the
    /// number after it.
    ///
    /// # Errors
    ///
    /// - `Memory` if memory is refused.
    /// - `Database` if the database fails (see [`PartStore`]).
    pub fn last_of(&mut self, user: &str) -> Result<u32, StoreError>
        ensures answer { Tells S.Store self.old self.new result
            (λ before last. last ≡ before.lasts user.now) }
        ensures reads { ReadsStore S.Store self.old self.new result }
        ensures refused { IsRefusedAs S.Store self.old self.new result IsFailure OnlyWhenFailed }
    {
        let mut tx = begin(&mut self.conn);
        let (last, _is_known) = last_of(&mut tx, user)?;
        Ok(last)
    }

    /// Returns how many contents there are, and how many bytes they have together. A content that several entries share
    /// counts once.
    ///
    /// # Errors
    ///
    /// - `Memory` if memory is refused.
    /// - `Database` if the database fails (see [`PartStore`]), or there are 2^64 bytes or more.
    pub fn contents(&mut self) -> Result<ContentTotal, StoreError>
        ensures answer { IfDone S.Store self.old self.new result
            (λ total old _. (before : _) → Stands old.now before
            → IsTotalOf (old.now.trees contents_tree) total) }
        ensures reads { ReadsStore S.Store self.old self.new result }
        ensures refused { IsRefusedAs S.Store self.old self.new result IsFailure
            (OnlyWhenFailedOr (λ _ db. 2 ^ 64 ≤ octets_of (db contents_tree))) }
    {
        let mut tx = begin(&mut self.conn);
        count_contents(&mut tx)
    }

    /// Reads every content and compares it with the digest that it is stored under. Returns how many contents there
    /// are and how many of them are damaged, and the entries that refer to a damaged one. One content at a time is in
    /// memory, beside all digests.
    ///
    /// # Errors
    ///
    /// - `Memory` if memory is refused.
    /// - `Database` if the database fails (see [`PartStore`]), a user's name in the table isn't UTF-8, or there are
    ///   2^64 bytes or more.
    pub fn scrub(&mut self) -> Result<Scrubbed, StoreError>
        ensures answer { IfDone S.Store self.old self.new result
            (λ x old _. (before : _) → Stands old.now before → IsScrubbed old.now.trees before x) }
        ensures reads { ReadsStore S.Store self.old self.new result }
        ensures refused { IsRefusedAs S.Store self.old self.new result IsFailure OnlyWhenUncounted }
    {
        let mut tx = begin(&mut self.conn);
        scrub_all(&mut tx)
    }

    /// Replaces the programs of the listed users. A listed user without a program is skipped; if a user is listed
    /// twice, the later program counts. No last number changes.
    ///
    /// # Errors
    ///
    /// - `Memory` if memory is refused.
    /// - `Database` if the database fails (see [`PartStore`]), or a user's row has no room.
    pub fn replace_programs(&mut self, programs: &[(String, Vec<u8>)]) -> Result<(), StoreError>
        ensures writes { WritesStore S.Store self.old self.new result
            (with_programs (map pair_of programs.now))
            (λ old trees. (0 < length programs.now → IsTrue old.is_open)
            × MayMake (with_programs (map pair_of programs.now)) old trees) }
        ensures refused { IsRefusedAs S.Store self.old self.new result IsFailure
            (OnlyWhenFailedOrNoProgramRoom (map pair_of programs.now)) }
    {
        let mut tx = begin(&mut self.conn);
        replace_all(&mut tx, programs)?;
        tx.commit()?;
        Ok(())
    }

    /// Adds the entries in order under the user's next numbers, and returns the first of these numbers. All entries are
    /// added, or none.
    ///
    /// For example, a new user's first entry gets number 1 and the next one 2. After entry 2 is removed, the next entry
    /// gets number 3.
    ///
    /// # Requires
    ///
    /// There is at least one entry: `0 < length entries`.
    ///
    /// # Errors
    ///
    /// - `Memory` if memory is refused.
    /// - `NumberFull` exactly if the user has too few numbers left. For example, a user whose last number is
    ///   4,294,967,293 can add two entries, but not three.
    /// - `Collision` exactly if there are enough numbers and a different content, in the store or earlier in `entries`,
    ///   has the digest of one of the entries.
    /// - `Database` if the database fails (see [`PartStore`]), or has no room for an entry, its content or the user's
    ///   row.
    pub fn add_entries(&mut self, user: &str, entries: &[NewEntry<'_>]) -> Result<u32, StoreError>
        requires { 0 < length entries.now }
        ensures adds { AddsEntries S.Store self.old self.new result user.now entries.now }
        ensures writes { WritesStore S.Store self.old self.new result
            (with_entries user.now (map draft_of entries.now))
            (MayMakeOpen (with_entries user.now (map draft_of entries.now))) }
        ensures refused { IsRefusedAs S.Store self.old self.new result IsFailureOrObstacle
            (OnlyWhenFailedOrNoEntryRoom user.now (map draft_of entries.now)) }
    {
        self.add_sharing_entries(user, entries, &mut [])
    }

    /// Adds entries as [`PartStore::add_entries`] does, if the caller knows which of them have the same content:
    /// `shared` names for each entry the place in the list, counted from 0, at which its content comes first. Each
    /// content is hashed, looked up and compared once, however many entries of the list have it. Entries past the end
    /// of `shared` are looked up one by one.
    ///
    /// # Requires
    ///
    /// - There is at least one entry: `0 < length entries`.
    /// - What `shared` says is true: if it names an earlier place for an entry, the entry at that place has the same
    ///   bytes. It can be shorter or longer than `entries`.
    ///
    /// # Errors
    ///
    /// - `Memory` if memory is refused.
    /// - `NumberFull` exactly if the user has too few numbers left.
    /// - `Collision` exactly if there are enough numbers and a different content, in the store or earlier in `entries`,
    ///   has the digest of one of the entries.
    /// - `Database` if the database fails (see [`PartStore`]), or has no room for an entry, its content or the user's
    ///   row.
    pub fn add_sharing_entries(
        &mut self,
        user: &str,
        entries: &[NewEntry<'_>],
        shared: &mut [Shared],
    ) -> Result<u32, StoreError>
        requires some { 0 < length entries.now }
        requires shared { SharesContents (map draft_of entries.now) (map first_of shared.old) }
        ensures adds { AddsEntries S.Store self.old self.new result user.now entries.now }
        ensures writes { WritesStore S.Store self.old self.new result
            (with_entries user.now (map draft_of entries.now))
            (MayMakeOpen (with_entries user.now (map draft_of entries.now))) }
        ensures refused { IsRefusedAs S.Store self.old self.new result IsFailureOrObstacle
            (OnlyWhenFailedOrNoEntryRoom user.now (map draft_of entries.now)) }
    {
        let mut tx = begin(&mut self.conn);
        let first = add_within(&mut tx, user, entries, shared)?;
        tx.commit()?;
        Ok(first)
    }

    /// Returns the user's entries without their contents, in the order of their numbers; none for an unknown user.
    ///
    /// # Errors
    ///
    /// - `Memory` if memory is refused.
    /// - `Database` if the database fails (see [`PartStore`]).
    pub fn entries_of(&mut self, user: &str) -> Result<Vec<EntryRow>, StoreError>
        ensures answer { Tells S.Store self.old self.new result
            (λ before rows. map listed rows.items ≡ map listing_of (entries_of user.now before)) }
        ensures reads { ReadsStore S.Store self.old self.new result }
        ensures refused { IsRefusedAs S.Store self.old self.new result IsFailure OnlyWhenFailed }
    {
        let mut tx = begin(&mut self.conn);
        list_all(&mut tx, user)
    }

    /// Returns the user's entries with numbers above `number`, without their contents, in the order of their numbers; for
    /// 0 all entries, and none for an unknown user.
    ///
    /// # Errors
    ///
    /// - `Memory` if memory is refused.
    /// - `Database` if the database fails (see [`PartStore`]).
    pub fn entries_since(&mut self, user: &str, number: u32) -> Result<Vec<EntryRow>, StoreError>
        ensures answer { Tells S.Store self.old self.new result
            (λ before rows. map listed rows.items
            ≡ map listing_of (entries_since user.now number before)) }
        ensures reads { ReadsStore S.Store self.old self.new result }
        ensures refused { IsRefusedAs S.Store self.old self.new result IsFailure OnlyWhenFailed }
    {
        let mut tx = begin(&mut self.conn);
        list_since(&mut tx, user, number)
    }

    /// Returns the user's entries as [`PartStore::entries_of`] does, without sizes, and for each the place in the list of
    /// an entry with the same content: the first one that is stored under the same digest. No content is read.
    ///
    /// # Errors
    ///
    /// - `Memory` if memory is refused.
    /// - `Database` if the database fails (see [`PartStore`]).
    pub fn sharing_entries_of(&mut self, user: &str) -> Result<Vec<SharingRow>, StoreError>
        ensures answer { Tells S.Store self.old self.new result
            (λ before rows. AreSharing rows.items (entries_of user.now before)) }
        ensures reads { ReadsStore S.Store self.old self.new result }
        ensures refused { IsRefusedAs S.Store self.old self.new result IsFailure OnlyWhenFailed }
    {
        let mut tx = begin(&mut self.conn);
        list_sharing(&mut tx, user)
    }

    /// Returns the bytes of the user's entry with this number. Their SHA-256 is the digest that they are stored under
    /// (`verified`).
    ///
    /// # Errors
    ///
    /// - `Memory` if memory is refused.
    /// - `NoSuchEntry` exactly if the user has no entry with this number.
    /// - `Database` if the database fails (see [`PartStore`]), or if the stored bytes were altered: they don't have the
    ///   digest that they are stored under, or nothing is stored under the digest that the entry names. If each content
    ///   has its digest ([`crate::laws::contents_keep_their_digests`]), only if the database fails (`sound`).
    pub fn bytes_of(&mut self, user: &str, number: u32) -> Result<Vec<u8>, StoreError>
        ensures answer { Tells S.Store self.old self.new result
            (λ before octets. (x : _) × IsEntryAt before user.now number x
            × (octets.items ≡ x.octets)) }
        ensures verified { IfDone S.Store self.old self.new result
            (λ octets old _. old.now.schema ≡ store_schema
            → IsVerified old.now.trees user.now number octets.items) }
        ensures unaltered { OnDone S.Store self.old self.new result
            (λ old _. (before : _) → Stands old.now before
            → IsAltered old.now.trees user.now number → ⊥) }
        ensures absent { RefusedWhere S.Store self.old self.new result NoSuchEntry
            (λ before. HasNone before user.now number) }
        ensures begun { IfRefused S.Store self.old self.new result
            (λ old _ e. e ≡ NoSuchEntry → IsTrue old.is_open) }
        ensures reads { ReadsStore S.Store self.old self.new result }
        ensures refused { IsRefusedAs S.Store self.old self.new result IsFailureOrAbsence
            (OnlyWhenFailedOrAltered user.now number) }
        ensures sound { IfRefused S.Store self.old self.new result
            (λ old new e. HaveDigests old.now.trees → OnlyWhenFailed old new e) }
    {
        let mut tx = begin(&mut self.conn);
        match read_bytes(&mut tx, user, number)? {
            Some(octets) => Ok(octets),
            None => Err(StoreError::NoSuchEntry),
        }
    }

    /// Removes the user's entry with this number, and its content if no other entry has the same content. The number
    /// isn't given again.
    ///
    /// For example, if `ann` and `bob` each have one entry with the bytes `foobar`, `bob` can still read them after
    /// `ann`'s entry is removed. After `bob`'s entry 1 is removed too, `bob`'s next entry gets number 2.
    ///
    /// # Errors
    ///
    /// - `Memory` if memory is refused.
    /// - `NoSuchEntry` exactly if the user has no entry with this number.
    /// - `Database` if the database fails (see [`PartStore`]).
    pub fn remove_entry(&mut self, user: &str, number: u32) -> Result<(), StoreError>
        ensures there { DoneWhere S.Store self.old self.new result
            (λ before. (x : _) × IsEntryAt before user.now number x) }
        ensures absent { RefusedWhere S.Store self.old self.new result NoSuchEntry
            (λ before. HasNone before user.now number) }
        ensures begun { IfRefused S.Store self.old self.new result
            (λ old _ e. e ≡ NoSuchEntry → IsTrue old.is_open) }
        ensures writes { WritesStore S.Store self.old self.new result
            (without_entry user.now number)
            (λ old trees. IsTrue old.is_open × ((before : _) → Stands old.now before
            → ((x : _) × IsEntryAt before user.now number x)
            × IsStored trees (without_entry user.now number before)
            × AddsVerified old.now.trees trees)) }
        ensures refused { IsRefusedAs S.Store self.old self.new result IsFailureOrAbsence OnlyWhenFailed }
    {
        let mut tx = begin(&mut self.conn);
        if !take_entry(&mut tx, user, number)? {
            return Err(StoreError::NoSuchEntry);
        }
        tx.commit()?;
        Ok(())
    }
}

impl PartStore<MemStore> {
    /// Makes an empty store in memory.
    ///
    /// # Errors
    ///
    /// - `Memory` if memory is refused.
    /// - `Database` if the database fails.
    pub fn in_memory(alloc: Global) -> Result<PartStore<MemStore>, StoreError>
        ensures empty { IfOk result (λ s. Stands (state over_memory s).now no_entries) }
        ensures committed { IfOk result
            (λ s. (state over_memory s).committed ≡ (state over_memory s).now) }
        ensures open { IfOk result (λ s. IsTrue (state over_memory s).is_open) }
        ensures settled { IfOk result (λ s. (state over_memory s).in_transaction ≡ false) }
        ensures refused { IfErr result (λ e. (e ≡ Memory) ⊎ (e ≡ Database)) }
    {
        let mut conn = Connection::open_in_memory(alloc)?;
        ready_tables(&mut conn)?;
        Ok(PartStore { conn })
    }
}

impl<D: Disk + Drop> PartStore<FileStore<D>> {
    /// Closes the store: the log is copied into the file, and both are given back. Together they hold the state that
    /// the store had, also after a crash, and `open_from` finds that state in them. No failed call that the store
    /// counted is forgotten when they are given back (`given`).
    ///
    /// # Errors
    ///
    /// The error comes with what is left of the files. If the close is refused, or a crash ends it, the files still
    /// hold a store with the same state.
    ///
    /// - `Memory` if memory is refused.
    /// - `Database` if the database fails.
    pub fn close_files(self) -> Result<Files<D>, (StoreError, FileStore<D>)>
        ensures holds { IfOk result (λ files. AreClean D.Disk files.log files.db
            → (held : _) → Stands (file_state self).now held → KeepsStore D.Disk files held) }
        ensures same { IfOk result (λ files. AreClean D.Disk files.log files.db
            → KeepsDatabase D.Disk files (file_state self).now) }
        ensures open { IfOk result (λ files. AreClean D.Disk files.log files.db
            → IsTrue (file_state self).is_open) }
        ensures given { IfOk result (λ files. (last : _)
            × (files_of last ≡ (files.log, files.db)) × IsClosed self last) }
        ensures closed { IfErr result (λ e. IsClosed self e.1) }
        ensures survives { IfErr result
            (λ e. IsTrue (file_state self).is_open → (held : _) → Stands (file_state self).now held
            → KeepsState e.1 held) }
        ensures refused { IfErr result (λ e. (e.0 ≡ Memory) ⊎ (e.0 ≡ Database)) }
    {
        let conn = known_connection(self);
        match conn.close_files() {
            Ok(files) => Ok(files),
            Err((error, store)) => Err((StoreError::from(error), store)),
        }
    }
}

/// What the files held, described again for another try to open them.
pub trait Again {
    /// Returns the same description of what the files held.
    fn again(&self) -> Self;
}

impl Again for Unknown {
    fn again(&self) -> Unknown {
        Unknown
    }
}

/// How often a file that another process has open is tried again: with 1, 2, 4 .. 64 milliseconds between the first
/// tries and [`LONGEST_WAIT`] between the others, this takes 10 seconds.
const TRIES: u32 = 106;

/// The longest time between two tries, in milliseconds.
const LONGEST_WAIT: u64 = 100;

/// The database in the file at a path.
fn connect<B: Start>(
    rt: &HostRuntime,
    path: &str,
    start: B,
) -> Result<Connection<FileStore<FileFrom<B>>>, Error>
    ensures opened { IfOk result (λ c. HasCleanDisk (file_state c) → IsOpened c) }
    ensures fresh { IfOk result (λ c. (file_state c).in_transaction ≡ false) }
    ensures unlimited { IfOk result (λ c. (file_state c).step_limit ≡ None) }
    ensures found { OpensOrTells (image_at B.Start) result }
{
    match open_database(rt, path, start) {
        Ok(conn) => Ok(conn),
        Err((error, _)) => Err(error),
    }
}

/// The store in the file at a path: its tables are made if there are none and `makes` is true, otherwise it is taken as
/// it is.
fn reach<B: Start>(
    rt: &HostRuntime,
    path: &str,
    start: B,
    makes: bool,
) -> Result<PartStore<FileStore<FileFrom<B>>>, Unopened>
    ensures ready { makes ≡ true → IfOk result (IsReadyFrom (image_at B.Start)) }
    ensures finds { makes ≡ false → IfOk result (IsFoundIn (image_at B.Start)) }
    ensures tables { makes ≡ false → IfOk result
        (λ s. are_tables (file_state s).now.schema.tables ≡ true) }
    ensures settled { IfOk result (λ s. (file_state s).in_transaction ≡ false) }
    ensures unlimited { IfOk result (λ s. (file_state s).step_limit ≡ None) }
    ensures cause { makes ≡ false → TellsWhy (image_at B.Start) result }
{
    let conn = connect(rt, path, start)?;
    store_on(conn, makes)
}

/// The store in the file at a path, once no other process has it open; its tables are made if there are none.
fn reach_when_free<B: Start + Again>(
    rt: &HostRuntime,
    path: &str,
    start: B,
) -> Result<PartStore<FileStore<FileFrom<B>>>, Unopened>
    ensures ready { IfOk result (IsReadyFrom (image_at B.Start)) }
    ensures settled { IfOk result (λ s. (file_state s).in_transaction ≡ false) }
    ensures unlimited { IfOk result (λ s. (file_state s).step_limit ≡ None) }
{
    let mut start = start;
    let mut millis = 1;
    for _ in 0..TRIES {
        let again = start.again();
        match reach(rt, path, start, true) {
            Err(Unopened::Held) => {}
            opened => return opened,
        }
        thread::sleep(rt, Duration::from_millis(millis));
        millis = millis.saturating_mul(2).min(LONGEST_WAIT);
        start = again;
    }
    reach(rt, path, start, true)
}

impl<B: Start + Again> PartStore<FileStore<FileFrom<B>>> {
    /// Opens the store in the file at a path; `B` describes what the file and its log held. A file that doesn't exist,
    /// is empty or has no tables becomes the empty store. The steps of its statements aren't limited.
    ///
    /// While another process has the file open, this waits and tries again for 10 seconds.
    ///
    /// No clause ties `B` to the path: only the body shows that this file is opened and no other. No clause says why an
    /// open is refused either, because failures of the operating system aren't modelled; a connection that has tables
    /// isn't refused (`adopt`).
    ///
    /// # Errors
    ///
    /// - `Memory` if memory is refused.
    /// - `Database` if the file can't be opened, is no database, is damaged or stays open elsewhere, or if the disk
    ///   fails.
    pub fn open_from(
        rt: &HostRuntime,
        path: &str,
        start: B,
    ) -> Result<PartStore<FileStore<FileFrom<B>>>, StoreError>
        ensures ready { IfOk result (IsReadyFrom (image_at B.Start)) }
        ensures found { IfOk result (λ s. HasCleanDisk (file_state s)
            → (held : _) → HoldsStore (image_at B.Start) held → IsAt held (file_state s)) }
        ensures empty { IfOk result (λ s. HasCleanDisk (file_state s)
            → HoldsNoTables (image_at B.Start) → IsAt no_entries (file_state s)) }
        ensures settled { IfOk result (λ s. (file_state s).in_transaction ≡ false) }
        ensures unlimited { IfOk result (λ s. (file_state s).step_limit ≡ None) }
        ensures refused { IfErr result (λ e. (e ≡ Memory) ⊎ (e ≡ Database)) }
    {
        Ok(reach_when_free(rt, path, start)?)
    }
}

impl<B: Start> PartStore<FileStore<FileFrom<B>>> {
    /// Opens a store as [`PartStore::look`] does; `B` describes what the file and its log held. If the disk is clean,
    /// the store holds just that. No clause ties `B` to the path.
    ///
    /// # Errors
    ///
    /// - [`Unopened::OtherTables`] only if the file was opened and its tables are different.
    /// - [`Unopened::Damaged`] and [`Unopened::Disk`] only if the database's open reported this for files that it had
    ///   opened.
    /// - Any other case of [`Unopened`]; no clause says why.
    pub fn look_from(
        rt: &HostRuntime,
        path: &str,
        start: B,
    ) -> Result<PartStore<FileStore<FileFrom<B>>>, Unopened>
        ensures opened { IfOk result (λ s. HasCleanDisk (file_state s) → IsOpened s) }
        ensures finds { IfOk result (IsFoundIn (image_at B.Start)) }
        ensures found { IfOk result (λ s. HasCleanDisk (file_state s)
            → (held : _) → HoldsStore (image_at B.Start) held → IsAt held (file_state s)) }
        ensures tables { IfOk result (λ s. are_tables (file_state s).now.schema.tables ≡ true) }
        ensures settled { IfOk result (λ s. (file_state s).in_transaction ≡ false) }
        ensures unlimited { IfOk result (λ s. (file_state s).step_limit ≡ None) }
        ensures cause { TellsWhy (image_at B.Start) result }
    {
        reach(rt, path, start, false)
    }
}

impl PartStore<FileStore<File>> {
    /// Opens the store in the file at a path, as [`PartStore::open_from`] does. The file is made if it doesn't exist.
    ///
    /// # Errors
    ///
    /// - `Memory` if memory is refused.
    /// - `Database` if the file can't be opened, is no database, is damaged or stays open elsewhere, or if the disk
    ///   fails.
    pub fn open(rt: &HostRuntime, path: &str) -> Result<PartStore<FileStore<File>>, StoreError>
        ensures ready { IfOk result IsReady }
        ensures refused { IfErr result (λ e. (e ≡ Memory) ⊎ (e ≡ Database)) }
    {
        PartStore::open_from(rt, path, Unknown)
    }

    /// Opens the store in the file at a path, as it is: no table is made. A file that doesn't exist is made, empty, so
    /// check first that it exists.
    ///
    /// Opening needs the right to write, and takes the lock that every store holds. It makes a log next to the file if
    /// there is none, and puts the log of a store that wasn't closed into the file.
    ///
    /// # Errors
    ///
    /// - [`Unopened::OtherTables`] if the tables aren't those of a store.
    /// - Any other case of [`Unopened`], as it says there.
    pub fn look(rt: &HostRuntime, path: &str) -> Result<PartStore<FileStore<File>>, Unopened>
        ensures opened { IfOk result (λ s. HasCleanDisk (file_state s) → IsOpened s) }
        ensures tables { IfOk result (λ s. are_tables (file_state s).now.schema.tables ≡ true) }
        ensures settled { IfOk result (λ s. (file_state s).in_transaction ≡ false) }
    {
        PartStore::look_from(rt, path, Unknown)
    }
}
