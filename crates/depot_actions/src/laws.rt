//! Laws about the definitions: no call is made.
//!
//! What a crash leaves is stated for sessions, not for disks. The type of a real file names what it held when it was
//! opened, so each run has a type of its own, and a list of runs over one type would describe no two real runs. A
//! session leads from what the files held to what they hold (`Leads`), whatever the type, so sessions follow one
//! another.
ghost use Rattle.std.specs.Prelude.{◌≡◌, ◌≤◌, ◌+◌, ◌*◌, ℕ, List, IsTrue, Some, length};
ghost use Rattle.octets.specs.Limits.{max_depth};
ghost use Rattle.bytecode_format.specs.declared.action.Action.{Action};
ghost use Rattle.mime_decode.specs.Mail.{Mail};
ghost use Rattle.sqlite.specs.Held.{Held, state};
ghost use Rattle.sqlite.specs.Recovery.{Image};
ghost use Rattle.sqlite.specs.State.{HasCleanDisk};
ghost use Rattle.sqlite_trees.specs.Tree.{Trees};
ghost use Rattle.part_store.specs.Crashes.{IsCutOff, IsRefusedOpen};
ghost use Rattle.part_store.specs.Entries.{Entries, no_entries};
ghost use Rattle.part_store.specs.Opening.{HoldsState};
ghost use Rattle.part_store.specs.Standing.{Stands};
ghost use Rattle.depot_actions.specs.Amounts.{AppendsWithin, IsLimit};
ghost use Rattle.depot_actions.specs.Causes.{IsFull, NamesNone};
ghost use Rattle.depot_actions.specs.DepotState.{Accepts, AreActions, Command, Deliver, IsNamed, Migrate, Reply};
ghost use Rattle.depot_actions.specs.History.{AreAnswered, AreSteps, Call};
ghost use Rattle.depot_actions.specs.PlainMedia.{HavePlainMedia};
ghost use Rattle.depot_actions.specs.Renewing.{RunsAs};
ghost use Rattle.depot_actions.specs.Runs.{AreLed, AreSessionSteps, HoldFold, IsRun, Leads, NotOpened, Past, Run, session_of};

use sqlite::Alter;
use sqlite_disk::Disk;

/// Whatever calls a depot gets, and whichever of them fail, what its store shows while it is open represents what the
/// accepted calls make of the first state, one after another. A store that a failure has shut accepts nothing more.
pub fn commands_are_a_fold<S: Alter>()
    ensures { (calls : List Call) (old new : Held S) (before : Entries)
        → AreAnswered S.Store calls old new
        → (IsTrue (state S.Store old).is_open → Stands (state S.Store old).now before)
        → (after : Entries) × AreSteps calls before after
        × (IsTrue (state S.Store new).is_open → Stands (state S.Store new).now after) }
{}

/// The disk of an open store has returned what was written, and a crash then leaves exactly what is committed. So what
/// a command leaves committed is what a later open finds.
pub fn open_stores_leave_what_is_committed<S: Alter>()
    ensures clean { (store : Held S) → IsTrue (state S.Store store).is_open
        → HasCleanDisk (state S.Store store) }
    ensures left { (store : Held S) (trees : Trees) → IsTrue (state S.Store store).is_open
        → (state S.Store store).may_leave trees → trees ≡ (state S.Store store).committed.trees }
{}

/// A session over two files makes of the state that they represent what its command makes, or nothing, also if they
/// hold no tables. A run opens the files, does one command, and ends by itself or in a crash, also within the close, or
/// after a failure had shut the depot. A run that ends with the depot open makes what its reply says. An open that is
/// refused, or that a crash cuts off, also while the tables are made, changes nothing.
pub fn sessions_are_steps<D: Disk + Drop>()
    ensures run { (image : Image) (run : Run D.Disk) → IsRun image run
        → Leads (session_of run) image run.left }
    ensures refused { (image other : Image) → IsRefusedOpen D.Disk image other
        → Leads NotOpened image other }
    ensures cut_off { (image other : Image) → IsCutOff D.Disk image other
        → Leads NotOpened image other }
{}

/// What one session left is what the next one finds. Sessions one after another, whatever disks the files are on, leave
/// files that represent what the commands make of the first state, one after another.
pub fn runs_are_a_fold()
    ensures { (past : List Past) (image : Image) (before : Entries) → HoldsState image before
        → AreLed image past → ∥ HoldFold image past before ∥₁ }
{}

/// An accepted command has none of the causes for which commands are refused: its user name is valid, an entry that it
/// names exists, and the numbers that a delivery needs suffice.
pub fn accepted_commands_have_no_cause()
    ensures user { (before after : Entries) (command : Command) (reply : Reply)
        → Accepts before command reply after → IsNamed command }
    ensures entry { (before after : Entries) (command : Command) (reply : Reply)
        → Accepts before command reply after → NamesNone before command → ⊥ }
    ensures numbers { (before after : Entries) (command : Command) (reply : Reply)
        → Accepts before command reply after → IsFull before command → ⊥ }
{}

/// A migration changes no delivery: on every message the final actions of each user's program stay the same.
pub fn migrations_change_no_actions()
    ensures { (before after : Entries) (reply : Reply) → Accepts before Migrate reply after
        → (user : List ℕ) (mail : Mail) (actions : List Action)
        → AreActions (before.programs user) mail actions
        → AreActions (after.programs user) mail actions }
{}

/// A user who had a program has one after a migration. On every message it results in the same final actions and the
/// same charge as the one before, and in no others, within a limit that is no larger.
pub fn migrated_programs_run_as_before()
    ensures { (before after : Entries) (reply : Reply) → Accepts before Migrate reply after
        → (user program : List ℕ) → before.programs user ≡ Some program
        → (renewed : List ℕ) × (after.programs user ≡ Some renewed) × RunsAs program renewed }
{}

/// A delivery adds at most as many entries as its limit says, and their contents have together, if each content counts
/// once, at most as many bytes as the limit says. For a user without a program the limit is one entry with the message;
/// otherwise it is what the program's code allows for the message's size and number of parts. Whatever the filter, it
/// is at most 33 times the message: once for the message itself, and once for each depth of a part.
pub fn deliveries_stay_within_their_limit()
    ensures { (before after : Entries) (user message : List ℕ) (reply : Reply)
        → Accepts before (Deliver user message) reply after
        → (entries octets : ℕ) × IsLimit (before.programs user) message entries octets
        × (octets ≤ (1 + max_depth) * length message)
        × AppendsWithin entries octets before after }
{}

/// No media type in a depot has a line break, whatever was filed: an empty depot has none, and an accepted command adds
/// none. So if a depot had none at first, it has none after any calls, and after any sessions over its files, also if
/// crashes ended them.
pub fn media_types_have_no_line_break()
    ensures empty { HavePlainMedia no_entries }
    ensures accepted { (before after : Entries) (command : Command) (reply : Reply)
        → Accepts before command reply after → HavePlainMedia before → HavePlainMedia after }
    ensures calls { (calls : List Call) (before after : Entries)
        → AreSteps calls before after → HavePlainMedia before → HavePlainMedia after }
    ensures sessions { (past : List Past) (before after : Entries)
        → AreSessionSteps past before after → HavePlainMedia before → HavePlainMedia after }
{}
