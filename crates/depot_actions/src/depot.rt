//! The depot and its calls.
//!
//! For a user without a program, `program` is refused with `40 NoSuchEntry`, even if the user has entries: what is
//! asked for doesn't exist. An empty file would be no program, and nobody stored the program that keeps every message.
ghost use Rattle.std.specs.Prelude.{◌≡◌, ◌≢◌, ◌⊎◌, IsTrue, List, ℕ, map, option_map, IfOk, IfErr, None, OnOk, true, false};
ghost use Rattle.sqlite.specs.Held.{state};
ghost use Rattle.sqlite.specs.State.{HasCleanDisk};
ghost use Rattle.sqlite.specs.Steps.{over_memory};
ghost use Rattle.part_store.specs.Entries.{Entries, no_entries};
ghost use Rattle.part_store.specs.Opening.{HoldsNoTables, HoldsStore, IsAt, IsFoundIn, IsReady, IsReadyFrom, TellsWhy};
ghost use Rattle.sqlite.specs.WalFiles.{image_at};
ghost use Rattle.part_store.specs.Scrubbing.{IsScrubbed};
ghost use Rattle.part_store.specs.Standing.{HaveDigests, LeavesUnchanged, Stands};
ghost use Rattle.part_store.specs.Tables.{store_schema};
ghost use Rattle.part_store.specs.Verifying.{IsVerified};
ghost use Rattle.refusals.specs.declared.refusal.Refusal.TheVariants.{Memory, Database, Write};
ghost use Rattle.depot_actions.specs.Applying.{Applies, AppliesAll};
ghost use Rattle.depot_actions.specs.Causes.{IsCause, IsFault, IsStoreFault, MayRefuse};
ghost use Rattle.depot_actions.specs.Deliveries.{command_of, reply_of};
ghost use Rattle.depot_actions.specs.DepotState.{Catalog, Deliver, Does, Done, Export, ListAll, ListSince, Migrate, Migrated, Program, ProgramOf, Remove, SetCode, SetScript, Text};
ghost use Rattle.depot_actions.specs.Overviews.{IsOverview, LooksOver};
ghost use Rattle.sqlite.specs.Files.{file_state, IsOpened};
ghost use Rattle.part_store.specs.Looking.{are_tables};
ghost use Rattle.devices.specs.Device.{HasBegun, HasBroken, HasTaken};
ghost use Rattle.encodings.specs.Texts.{text_of};
ghost use Rattle.part_store.specs.Calls.{Always, CommitsNothing, IfRefused};

use crate::cataloguing::catalog_of;
use crate::checked_program::CheckedPrograms;
use crate::checking::check_code;
use crate::deliveries::{Delivery, RefusedDelivery, deliver_alone, deliver_together};
use crate::inspecting::look_over;
use crate::overview::Overview;
use crate::refusing::refused;
use crate::renewing::renewed_programs;
use crate::user::is_user_name;
use devices::Sink;
use encodings::{Encoding, put_text};
use part_store::{Again, EntryRow, PartStore, Scrubbed, Unopened};
use refusals::Refusal;
use sieve_engine::code_octets;
use sqlite::{Alter, File, FileFrom, FileStore, MemStore, Start, Unknown};
use std::alloc::Global;
use std::marker::Model;

/// A depot: what users have filed, and their filters. `open` makes one over a file and `in_memory` one for tests; the
/// crates `depot_cli` and `depot_batch` carry out the commands of the program with it.
///
/// A contract sees the state of the store: `specs/DepotState` says what each command replies and leaves, `specs/Causes`
/// why one is refused. A refused command changes nothing. If the store's tables represent a state, the store fails only
/// if it can't work: its disk failed in the call, a failure had shut it before, or its connection limits the steps of a
/// statement. Which refusals a command can get is promised whatever the disk does; everything else, if the disk returns
/// what was written.
pub struct Depot<S: Alter> {
    store: PartStore<S>,
    // The programs that were checked last.
    kept: Option<CheckedPrograms>,
}

impl<S: Alter> Model for Depot<S> {
    ghost use Rattle.sqlite.specs.Held.{Held, held_code};

    ghost Value = { Held S };

    ghost coded = { held_code S.code };

    ghost view = { λ d. d.store };
}

impl<S: Alter + Drop> Drop for Depot<S> {
    fn drop(self) {
        let Depot { store: _, kept: _ } = self;
    }
}

impl<S: Alter> Depot<S> {
    /// Makes a depot of a store.
    pub fn adopt(store: PartStore<S>) -> Depot<S>
        ensures { result ≡ store }
    {
        Depot { store, kept: None }
    }

    /// Gives the store back.
    pub fn release(self) -> PartStore<S>
        ensures { result ≡ self }
    {
        let Depot { store, kept: _ } = self;
        store
    }

    /// Compiles a script and stores its program as the user's filter; it replaces the one before.
    ///
    /// # Errors
    ///
    /// In this order, except that `Memory` can come at any point after `UserName`:
    ///
    /// - `UserName` if the name isn't a user name ([`crate::is_user_name`]).
    /// - The script's first fault, as [`sieve_engine::check_script`] lists them.
    /// - `Database` if the store fails, or has no room for the user's row with the new program.
    /// - `Memory` if memory is refused.
    pub fn set_script(&mut self, alloc: Global, user: &str, script: &[u8]) -> Result<(), Refusal>
        ensures { Applies S.Store self.old self.new result (SetScript user.now script.now)
            (λ _. Done) }
    {
        if !is_user_name(user) {
            return Err(Refusal::UserName);
        }
        let octets = code_octets(alloc, script)?;
        self.store.set_program(user, &octets).map_err(refused)
    }

    /// Stores a program as the user's filter; it replaces the one before.
    ///
    /// # Errors
    ///
    /// In this order, except that `Memory` can come at any point after `UserName`:
    ///
    /// - `UserName` if the name isn't a user name.
    /// - What [`sieve_engine::check_program`] refuses the program for.
    /// - `Database` if the store fails, or has no room for the user's row with the new program.
    /// - `Memory` if memory is refused.
    pub fn set_code(&mut self, alloc: Global, user: &str, program: &[u8]) -> Result<(), Refusal>
        ensures { Applies S.Store self.old self.new result (SetCode user.now program.now)
            (λ _. Done) }
    {
        if !is_user_name(user) {
            return Err(Refusal::UserName);
        }
        check_code(alloc, program)?;
        self.store.set_program(user, program).map_err(refused)
    }

    /// Runs the user's filter on a message and files an entry for each of its final actions, in their order; for a user
    /// without a filter the message is kept. Returns the new entries, without their contents.
    ///
    /// For example, if a new user has the filter of `examples/documents.sieve`, delivering `examples/invoice.eml` files
    /// two entries: entry 1, the attached PDF of 9,016 bytes, in the folder `Documents`, and entry 2, the whole message
    /// of 19,165 bytes, in `INBOX`.
    ///
    /// # Errors
    ///
    /// In this order, except that `Memory` can come at any point after `UserName`:
    ///
    /// - `UserName` if the name isn't a user name.
    /// - `MessageTooLarge` if the message is longer than 67,108,864 bytes, `TooManyParts` if it has more than 4,096
    ///   parts.
    /// - `Database` if the store fails, or the stored filter no longer reads and verifies.
    /// - `NumberFull` if the user has too few numbers left for the entries.
    /// - `Collision` if the numbers suffice, and different bytes have the digest of one of the entries.
    /// - `Database` if the store fails, or has no room for the entries or the user's row.
    /// - `Memory` if memory is refused.
    pub fn deliver(
        &mut self,
        alloc: Global,
        user: &str,
        message: &[u8],
    ) -> Result<Vec<EntryRow>, Refusal>
        ensures { Applies S.Store self.old self.new result (Deliver user.now message.now)
            reply_of }
    {
        deliver_alone(&mut self.store, &mut self.kept, alloc, user, message)
    }

    /// Delivers messages, to one user or several, as [`Depot::deliver`] would one after another, and commits them
    /// together: all are delivered, or none. Returns the new entries of each delivery, in the order of the deliveries.
    /// A crash leaves all deliveries, or none.
    ///
    /// # Errors
    ///
    /// Nothing has changed then.
    ///
    /// - For the first delivery that [`Depot::deliver`] would refuse after those before it: its place in the list,
    ///   counted from 0, and that refusal.
    /// - If the commit fails: the number of deliveries as the place, and `Database` or `Memory`.
    pub fn deliver_all(
        &mut self,
        alloc: Global,
        deliveries: &[Delivery<'_>],
    ) -> Result<Vec<Vec<EntryRow>>, RefusedDelivery>
        ensures { AppliesAll S.Store self.old self.new result (map command_of deliveries.now)
            (λ replies. map reply_of replies.items) }
    {
        deliver_together(&mut self.store, &mut self.kept, alloc, deliveries)
    }

    /// Returns the user's entries without their contents, in the order of their numbers; none for an unknown user.
    ///
    /// # Errors
    ///
    /// - `UserName` if the name isn't a user name.
    /// - `Database` if the store fails.
    /// - `Memory` if memory is refused.
    pub fn list(&mut self, user: &str) -> Result<Vec<EntryRow>, Refusal>
        ensures { Applies S.Store self.old self.new result (ListAll user.now) reply_of }
    {
        if !is_user_name(user) {
            return Err(Refusal::UserName);
        }
        self.store.entries_of(user).map_err(refused)
    }

    /// Returns the user's entries with numbers above `number`, without their contents, in the order of their numbers;
    /// none if there are none. Numbers are given in order and never again, so these are the entries that were filed
    /// after the one with this number; with 0 they are all.
    ///
    /// # Errors
    ///
    /// - `UserName` if the name isn't a user name.
    /// - `Database` if the store fails.
    /// - `Memory` if memory is refused.
    pub fn list_since(&mut self, user: &str, number: u32) -> Result<Vec<EntryRow>, Refusal>
        ensures { Applies S.Store self.old self.new result (ListSince user.now number) reply_of }
    {
        if !is_user_name(user) {
            return Err(Refusal::UserName);
        }
        self.store.entries_since(user, number).map_err(refused)
    }

    /// Returns the catalog of the user's entries with numbers above `number`, in the order of their numbers; for 0, of
    /// all entries. It has a line of JSON for each entry, as the crate `catalog` describes it. Which messages and parts
    /// belong together is looked for among all entries of the user, also those that have no line here. Each content is
    /// read once, and only what its line needs is kept.
    ///
    /// # Errors
    ///
    /// - `UserName` if the name isn't a user name.
    /// - `Database` if the store fails, if the stored bytes of an entry were altered, or if an entry that is a message
    ///   can't be read as one; no delivery files such an entry.
    /// - `Memory` if memory is refused.
    pub fn catalog(&mut self, alloc: Global, user: &str, number: u32) -> Result<Vec<u8>, Refusal>
        ensures { Applies S.Store self.old self.new result (Catalog user.now number)
            (λ text. Text text.items) }
    {
        if !is_user_name(user) {
            return Err(Refusal::UserName);
        }
        catalog_of(&mut self.store, alloc, user, number)
    }

    /// Returns the bytes of the user's filter program, or `None` if the user has none.
    ///
    /// # Errors
    ///
    /// - `UserName` if the name isn't a user name.
    /// - `Database` if the store fails.
    /// - `Memory` if memory is refused.
    pub fn program_of(&mut self, user: &str) -> Result<Option<Vec<u8>>, Refusal>
        ensures { Applies S.Store self.old self.new result (ProgramOf user.now)
            (λ found. Program (option_map (λ v. v.items) found)) }
    {
        if !is_user_name(user) {
            return Err(Refusal::UserName);
        }
        self.store.program_of(user).map_err(refused)
    }

    /// Writes the bytes of the user's entry with this number in an encoding, and nothing else. Their SHA-256 is the
    /// digest that they are stored under (`verified`). The entry is read as a whole, and encoded and written in pieces
    /// of 4,560 bytes; in quoted-printable, line by line.
    ///
    /// # Errors
    ///
    /// - `UserName` if the name isn't a user name; nothing was written.
    /// - `NoSuchEntry` if the user has no entry with this number; nothing was written.
    /// - `Database` if the store fails, or if the stored bytes were altered: they don't have the digest that they are
    ///   stored under, or nothing is stored under the digest that the entry names; nothing was written. If each content
    ///   has its digest, only if the store fails (`sound`).
    /// - `Memory` if memory is refused; the beginning of the text can have been written.
    /// - `Write` if a call of the writer fails; the beginning of the text was written.
    pub fn export<W: Sink>(
        &mut self,
        alloc: Global,
        user: &str,
        number: u32,
        encoding: Encoding,
        writer: &mut W,
    ) -> Result<(), Refusal>
        ensures done { OnOk result ((text : List ℕ) × HasTaken text (W.output writer.old)
            (W.output writer.new)
            × (Always S.Store self.old self.new (Does (Export user.now number encoding)
            (Text text)))) }
        ensures stopped { IfErr result (λ e. e ≡ Write → (text : List ℕ)
            × HasBroken text (W.output writer.old) (W.output writer.new)
            × (Always S.Store self.old self.new (Does (Export user.now number encoding)
            (Text text)))) }
        ensures begun { IfErr result (λ e. e ≡ Memory → (W.output writer.new ≡ W.output writer.old)
            ⊎ ((text : List ℕ) × HasBegun text (W.output writer.old) (W.output writer.new)
            × (Always S.Store self.old self.new (Does (Export user.now number encoding)
            (Text text))))) }
        ensures unwritten { IfErr result
            (λ e. e ≢ Write → e ≢ Memory → W.output writer.new ≡ W.output writer.old) }
        ensures unchanged { Always S.Store self.old self.new LeavesUnchanged }
        ensures which { IfErr result (MayRefuse (Export user.now number encoding)) }
        ensures refused { IfRefused S.Store self.old self.new result
            (IsCause (Export user.now number encoding)) }
        ensures cause { IfRefused S.Store self.old self.new result
            (IsFault (Export user.now number encoding)) }
        ensures verified { OnOk result ((octets : List ℕ)
            × HasTaken (text_of encoding octets) (W.output writer.old) (W.output writer.new)
            × (Always S.Store self.old self.new (λ old _. old.now.schema ≡ store_schema
            → IsVerified old.now.trees user.now number octets))) }
        ensures sound { IfRefused S.Store self.old self.new result
            (λ old new e. HaveDigests old.now.trees → IsStoreFault (λ _ _. ⊥) old new e) }
        ensures survives { CommitsNothing S.Store self.old self.new }
    {
        if !is_user_name(user) {
            return Err(Refusal::UserName);
        }
        let octets = self.store.bytes_of(user, number).map_err(refused)?;
        put_text(alloc, encoding, &octets, writer)
    }

    /// Removes the user's entry with this number. The number isn't given again.
    ///
    /// # Errors
    ///
    /// - `UserName` if the name isn't a user name.
    /// - `NoSuchEntry` if the user has no entry with this number.
    /// - `Database` if the store fails.
    /// - `Memory` if memory is refused.
    pub fn remove(&mut self, user: &str, number: u32) -> Result<(), Refusal>
        ensures { Applies S.Store self.old self.new result (Remove user.now number) (λ _. Done) }
    {
        if !is_user_name(user) {
            return Err(Refusal::UserName);
        }
        self.store.remove_entry(user, number).map_err(refused)
    }

    /// Gives each filter program of another version the latest version, and returns how many there were. A program's
    /// code stays the same. So its final actions on every message and its charge stay the same, and the limit of the
    /// charge doesn't grow ([`crate::laws::migrated_programs_run_as_before`]).
    ///
    /// # Errors
    ///
    /// Nothing has changed then.
    ///
    /// - `Database` if the store fails; if a stored program, whatever its version, no longer reads and verifies; if a
    ///   user's name isn't UTF-8; or if a new program has no room.
    /// - `Memory` if memory is refused.
    pub fn migrate(&mut self, alloc: Global) -> Result<usize, Refusal>
        ensures { Applies S.Store self.old self.new result Migrate Migrated }
    {
        let stored = self.store.programs().map_err(refused)?;
        let renewed = renewed_programs(alloc, &stored)?;
        if renewed.is_empty() {
            return Ok(0);
        }
        self.store.replace_programs(&renewed).map_err(refused)?;
        Ok(renewed.len())
    }

    /// Returns what the depot holds, user by user: the last number, the entries and their bytes, and the state of the
    /// filter; and the number and size of all contents. Nothing changes. A filter that no longer reads and verifies is
    /// reported, and isn't an error.
    ///
    /// # Errors
    ///
    /// - `Database` if the store fails; if the bytes of all contents, or of a user's entries, are 2^64 or more; or if a
    ///   user's name isn't UTF-8.
    /// - `Memory` if memory is refused.
    pub fn inspect(&mut self, alloc: Global) -> Result<Overview, Refusal>
        ensures { LooksOver S.Store self.old self.new result IsOverview }
    {
        look_over(&mut self.store, alloc)
    }

    /// Compares each stored content with the SHA-256 that it is stored under. Returns how many contents there are, how
    /// many of them are damaged, and the entries that refer to a damaged content. Nothing changes. Damage is reported,
    /// and isn't an error.
    ///
    /// # Errors
    ///
    /// - `Database` if the store fails; if the bytes of all contents are 2^64 or more; or if a user's name isn't UTF-8.
    /// - `Memory` if memory is refused.
    pub fn scrub(&mut self) -> Result<Scrubbed, Refusal>
        ensures { LooksOver S.Store self.old self.new result IsScrubbed }
    {
        self.store.scrub().map_err(refused)
    }
}

impl Depot<MemStore> {
    /// Makes an empty depot in memory.
    ///
    /// # Errors
    ///
    /// - `Memory` if memory is refused.
    /// - `Database` if the database fails.
    pub fn in_memory(alloc: Global) -> Result<Depot<MemStore>, Refusal>
        ensures empty { IfOk result (λ d. Stands (state over_memory d).now no_entries) }
        ensures committed { IfOk result
            (λ d. (state over_memory d).committed ≡ (state over_memory d).now) }
        ensures open { IfOk result (λ d. IsTrue (state over_memory d).is_open) }
        ensures settled { IfOk result (λ d. (state over_memory d).in_transaction ≡ false) }
        ensures refused { IfErr result (λ e. (e ≡ Memory) ⊎ (e ≡ Database)) }
    {
        match PartStore::in_memory(alloc) {
            Ok(store) => Ok(Depot { store, kept: None }),
            Err(error) => Err(refused(error)),
        }
    }
}

impl<B: Start + Again> Depot<FileStore<FileFrom<B>>> {
    /// Opens the depot in the file at a path; `B` describes what the file and its log held. A file that doesn't exist,
    /// is empty or has no tables becomes the empty depot. While another process has the file open, this waits and tries
    /// again for 10 seconds. No clause ties `B` to the path: only the bodies show that
    /// this file is opened. No clause says why an open is refused either.
    ///
    /// # Errors
    ///
    /// - `Memory` if memory is refused.
    /// - `Database` if the file can't be opened, is no database, is damaged or stays open elsewhere, or if the disk
    ///   fails.
    pub fn open_from(
        rt: &HostRuntime,
        path: &str,
        start: B,
    ) -> Result<Depot<FileStore<FileFrom<B>>>, Refusal>
        ensures ready { IfOk result (IsReadyFrom (image_at B.Start)) }
        ensures found { IfOk result (λ d. HasCleanDisk (file_state d)
            → (held : Entries) → HoldsStore (image_at B.Start) held → IsAt held (file_state d)) }
        ensures empty { IfOk result (λ d. HasCleanDisk (file_state d)
            → HoldsNoTables (image_at B.Start) → IsAt no_entries (file_state d)) }
        ensures settled { IfOk result (λ d. (file_state d).in_transaction ≡ false) }
        ensures unlimited { IfOk result (λ d. (file_state d).step_limit ≡ None) }
        ensures refused { IfErr result (λ e. (e ≡ Memory) ⊎ (e ≡ Database)) }
    {
        match PartStore::open_from(rt, path, start) {
            Ok(store) => Ok(Depot { store, kept: None }),
            Err(error) => Err(refused(error)),
        }
    }
}

impl<B: Start> Depot<FileStore<FileFrom<B>>> {
    /// Opens a depot as [`Depot::look`] does; `B` describes what the file and its log held.
    ///
    /// # Errors
    ///
    /// Why the file isn't opened as a depot, as `part_store` says it of `look_from`.
    pub fn look_from(
        rt: &HostRuntime,
        path: &str,
        start: B,
    ) -> Result<Depot<FileStore<FileFrom<B>>>, Unopened>
        ensures opened { IfOk result (λ d. HasCleanDisk (file_state d) → IsOpened d) }
        ensures finds { IfOk result (IsFoundIn (image_at B.Start)) }
        ensures found { IfOk result (λ d. HasCleanDisk (file_state d)
            → (held : Entries) → HoldsStore (image_at B.Start) held → IsAt held (file_state d)) }
        ensures tables { IfOk result (λ d. are_tables (file_state d).now.schema.tables ≡ true) }
        ensures settled { IfOk result (λ d. (file_state d).in_transaction ≡ false) }
        ensures unlimited { IfOk result (λ d. (file_state d).step_limit ≡ None) }
        ensures cause { TellsWhy (image_at B.Start) result }
    {
        match PartStore::look_from(rt, path, start) {
            Ok(store) => Ok(Depot { store, kept: None }),
            Err(why) => Err(why),
        }
    }
}

impl Depot<FileStore<File>> {
    /// Opens the depot in the file at a path, as [`Depot::open_from`] does. The file is made if it doesn't exist.
    ///
    /// # Errors
    ///
    /// - `Memory` if memory is refused.
    /// - `Database` if the file can't be opened, is no database, is damaged or stays open elsewhere, or if the disk
    ///   fails.
    pub fn open(rt: &HostRuntime, path: &str) -> Result<Depot<FileStore<File>>, Refusal>
        ensures ready { IfOk result IsReady }
        ensures refused { IfErr result (λ e. (e ≡ Memory) ⊎ (e ≡ Database)) }
    {
        Depot::open_from(rt, path, Unknown)
    }

    /// Opens the depot in the file at a path, as it is: no table is made. A file that doesn't exist is made, empty, so
    /// check first that it exists.
    ///
    /// # Errors
    ///
    /// Why the file isn't opened as a depot: each case of [`Unopened`] says it.
    pub fn look(rt: &HostRuntime, path: &str) -> Result<Depot<FileStore<File>>, Unopened>
        ensures opened { IfOk result (λ d. HasCleanDisk (file_state d) → IsOpened d) }
        ensures tables { IfOk result (λ d. are_tables (file_state d).now.schema.tables ≡ true) }
    {
        Depot::look_from(rt, path, Unknown)
    }
}
