//! What a crash leaves is what the next open finds.
//!
//! A crash is a disk that fails from some call on, so what a crash can leave in the middle of a call is what it can
//! leave once that call has ended. Each call says in `survives` which stores these are, and `open_from` opens files by
//! what they hold.
ghost use Rattle.std.specs.Prelude.{◌≡◌, ◌⊎◌, List, [], IsTrue};
ghost use Rattle.sqlite.specs.Effect.{Database};
ghost use Rattle.sqlite.specs.Files.{file_state};
ghost use Rattle.sqlite.specs.Held.{Held, state};
ghost use Rattle.sqlite.specs.Recovery.{Image};
ghost use Rattle.sqlite.specs.State.{HasCleanDisk, Survives};
ghost use Rattle.sqlite_trees.specs.Tree.{Trees};
ghost use Rattle.sqlite_value.specs.Order.{Row};
ghost use Rattle.sqlite_trees.specs.View.{IsClean};
ghost use Rattle.part_store.specs.Crashes.{HasNumberedTrees, HoldsOneLeft, IsCutOff, IsRefusedOpen, LeavesStores, MayLeaveClosing, MayLeaveFiles};
ghost use Rattle.part_store.specs.Entries.{Entries, no_entries};
ghost use Rattle.part_store.specs.Opening.{HasOtherTables, Holds, HoldsState, HoldsStore, IsAt, IsFoundIn, IsReadyFrom};
ghost use Rattle.part_store.specs.Standing.{AddsVerified, HaveDigests, MayMake, Stands, StandsFor};
ghost use Rattle.part_store.specs.Tables.{store_schema};
ghost use Rattle.part_store.specs.Scrubbing.{IsScrubbed};
ghost use Rattle.part_store.specs.UserLines.{AreUsersOf, UserLine, with_users};
ghost use Rattle.part_store.specs.declared.scrubbing.Scrubbed.{Scrubbed};

use crate::store::PartStore;
use crate::within::know_connection;
use sqlite::{Alter, Connection, FileStore};
use sqlite_disk::Disk;
use sqlite_trees::store::Store;

/// An open store lists its tables. So if it has the three tables, it holds each state that they represent. Returns the
/// store's connection.
pub fn open_stores_list_their_tables<S: Alter>(store: PartStore<S>) -> Connection<S>
    ensures same { result ≡ store }
    ensures listed { (e : Entries) → IsTrue (state S.Store store).is_open
        → (state S.Store store).now.schema ≡ store_schema
        → StandsFor (state S.Store store).now.trees e → Stands (state S.Store store).now e }
{
    let conn = store.release();
    know_connection(&conn);
    conn
}

/// If the trees are numbered ([`trees_are_numbered`]) and everything that a crash can leave is a store, the two files
/// hold one of these stores after a crash, however far a call got. The same holds after a close that failed or that a
/// crash cut off, also for a store that a failure had shut.
pub fn each_image_holds_one_left<D: Disk + Drop>()
    ensures called { (c : Held (FileStore D D.Disk)) → HasNumberedTrees c
        → LeavesStores (file_state c) → (image : Image) → MayLeaveFiles c image
        → ∥ HoldsOneLeft c image ∥₁ }
    ensures closing { (c : Held (FileStore D D.Disk)) → (image : Image) → MayLeaveClosing c image
        → ∥ HoldsOneLeft c image ∥₁ }
{}

/// A crash during a call that commits at most one change leaves the two files with the store before the change or after
/// it. The premises are that the disk is clean and that the trees are numbered ([`trees_are_numbered`]).
pub fn calls_leave_what_was_or_is<D: Disk + Drop>()
    ensures { (change : Entries → Entries) (before : Entries) (old new : Held (FileStore D D.Disk))
        → IsAt before (file_state old) → HasCleanDisk (file_state new) → HasNumberedTrees new
        → Survives (file_state old) (file_state new) (MayMake change (file_state old))
        → (image : Image) → MayLeaveFiles new image
        → ∥ HoldsStore image before ⊎ HoldsStore image (change before) ∥₁ }
{}

/// Contents keep their digests. The empty store has no content. A call adds contents only under their digests
/// (`AddsVerified`, in what each call makes and in what a crash can leave of it), so if each content of a store had its
/// digest before, each has it afterwards. A store that is opened has the contents that its files held, whether it is
/// opened or looked at.
pub fn contents_keep_their_digests<D: Disk + Drop>()
    ensures empty { (db : Trees) → StandsFor db no_entries → HaveDigests db }
    ensures changed { (old new : Trees) → AddsVerified old new → HaveDigests old → HaveDigests new }
    ensures opened { (image : Image) (d : Database) (now : Held (FileStore D D.Disk))
        → d.schema ≡ store_schema → Holds image d → IsReadyFrom image now
        → HasCleanDisk (file_state now) → (file_state now).now ≡ d }
    ensures looked { (image : Image) (d : Database) (found : Held (FileStore D D.Disk))
        → Holds image d → IsFoundIn image found → HasCleanDisk (file_state found)
        → (file_state found).now ≡ d }
{}

/// A scrub reports damage exactly if a content doesn't have its digest. If each content has its digest, no content is
/// reported as damaged and no entry is listed. If no content is reported, each has its digest, so no entry's bytes are
/// refused as altered.
pub fn scrubs_report_all_damage()
    ensures none { (db : Trees) (e : Entries) (x : Scrubbed) → StandsFor db e → HaveDigests db
        → IsScrubbed db e x → (x.damaged ≡ 0) × (x.entries.items ≡ []) }
    ensures sound { (db : Trees) (e : Entries) (x : Scrubbed) → StandsFor db e → IsScrubbed db e x
        → x.damaged ≡ 0 → HaveDigests db }
{}

/// Users that one store returned ([`PartStore::users`]), put into an empty store ([`PartStore::put_users`]), give it
/// exactly the programs and last numbers of the first store, and no entries.
pub fn users_carry_over()
    ensures { (table : List Row) (e : Entries) (lines : List UserLine) → AreUsersOf table e lines
        → with_users lines no_entries ≡ record e { entries = [] } }
{}

/// If the disk is clean, files that hold a store are never reported to have other tables (`look_from`).
pub fn stores_are_not_told_as_others<D: Disk + Drop>()
    ensures { (image : Image) (held : Entries) (found : Held (FileStore D D.Disk))
        → HoldsStore image held → IsFoundIn image found → HasCleanDisk (file_state found)
        → HasOtherTables (file_state found) → ⊥ }
{}

/// A store over files whose disk is clean has numbered trees. Returns the storage below the store, with everything that
/// isn't committed rolled back. The same holds for a store over any other storage.
pub fn trees_are_numbered<S: Alter + Drop>(store: PartStore<S>) -> S
    ensures { IsClean (S.Store.view result) → IsTrue (S.Store.view store.store).is_numbered }
{
    store.release().into_store()
}

/// For a store over files, what [`trees_are_numbered`] says is the premise of the laws above.
pub fn numbered_over_files<D: Disk + Drop>()
    ensures { (c : Held (FileStore D D.Disk))
        → IsTrue (⟦<FileStore<D> as Store>⟧.view c.store).is_numbered → HasNumberedTrees c }
{}

/// An open that fails leaves files that represent the same state, if they held its store or no tables, and if the
/// database in them has no checksums at the ends of its pages or a crash cut the open off before the first command. An
/// open that the database refused may have got however far, also up to a crash; one that was cut off may have been
/// making the tables. No database that was made here has such checksums.
pub fn refused_opens_leave_the_state<D: Disk + Drop>()
    ensures refused { (image other : Image) → IsRefusedOpen D.Disk image other
        → (held : Entries) → HoldsState image held → ∥ HoldsState other held ∥₁ }
    ensures cut_off { (image other : Image) → IsCutOff D.Disk image other
        → (held : Entries) → HoldsState image held → ∥ HoldsState other held ∥₁ }
{}
