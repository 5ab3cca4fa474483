//! Laws about depots in volumes: no call is made.
ghost use Rattle.std.specs.Prelude.{◌≡◌, ◌<◌, ◌≤◌, ℕ, Bool, List, [], ◌∷◌, ◌++◌, Option, length, map};
ghost use Rattle.std.specs.List.{AllByRecursion, flat_map};
ghost use Rattle.sqlite.specs.Recovery.{Image};
ghost use Rattle.sqlite_trees.specs.Tree.{Trees};
ghost use Rattle.part_store.specs.Entries.{Entries, Entry, entries_of, entries_since, listing_of};
ghost use Rattle.part_store.specs.Standing.{HasNone, IsEntryAt, IsNumbered};
ghost use Rattle.depot_actions.specs.Causes.{IsColliding, IsFull, IsHindered, NamesNone};
ghost use Rattle.depot_actions.specs.DepotState.{Accepts, Catalog, Command, ListAll, ListSince, Reply};
ghost use Rattle.depot_actions.specs.History.{AreSteps};
ghost use Rattle.depot_actions.specs.Runs.{Leads, NotOpened, Ran, Session};
ghost use Rattle.volumes.specs.Beginning.{AreBegun, Count, MayBeBeginning};
ghost use Rattle.volumes.specs.Folders.{AreChanges, HoldAfter, HoldAfterAll, HoldVolumes, IsChange, Change};
ghost use Rattle.volumes.specs.OnVolumes.{AcceptOnVolumes, Event, IsDoneOn, MakeAll, calls_in};
ghost use Rattle.volumes.specs.Places.{IsFirstAt, IsFirstUpTo, IsPlaceOf, NeverFall, lasts_of};
ghost use Rattle.volumes.specs.Volumes.{AreVolumes, begun, current, whole, without_up_to};

/// Beginning the next volume changes nothing of what the volumes hold as one depot, and they are volumes of one depot
/// afterwards, too.
pub fn begun_volumes_change_nothing()
    ensures whole { (vs : List Entries) → whole (vs ++ begun (current vs) ∷ []) ≡ whole vs }
    ensures volumes { (vs : List Entries) → AreVolumes vs → AreVolumes (vs ++ begun (current vs) ∷ []) }
{}

/// Whatever is there of a volume that was being begun, as after a crash, the volumes that count hold together what they
/// held before, and are volumes of one depot.
pub fn unfinished_volumes_change_nothing()
    ensures whole { (vs there counted : List Entries) → AreBegun vs → MayBeBeginning vs there → Count counted there
        → whole counted ≡ whole vs }
    ensures volumes { (vs there counted : List Entries) → AreVolumes vs → AreBegun vs → MayBeBeginning vs there
        → Count counted there → AreVolumes counted }
{}

/// If the oldest volumes are removed and one stays, exactly the entries whose numbers were given up to the last of the
/// removed ones are gone. Programs, last numbers and all other entries stay.
pub fn removed_volumes_take_their_entries_alone()
    ensures whole { (oldest : List Entries) (v : Entries) (vs : List Entries) → AreVolumes (oldest ++ v ∷ vs)
        → whole (v ∷ vs) ≡ without_up_to (current oldest).lasts (whole (oldest ++ v ∷ vs)) }
    ensures volumes { (oldest vs : List Entries) → AreVolumes (oldest ++ vs) → AreVolumes vs }
{}

/// A user's list is the lists of the volumes, one after the other, also if only entries above a number are listed. If the
/// numbers of each volume are in order, so are those of all volumes as one depot.
pub fn volumes_are_listed_in_order()
    ensures listed { (user : List ℕ) (vs : List Entries) → map listing_of (entries_of user (whole vs))
        ≡ flat_map (λ v. map listing_of (entries_of user v)) vs }
    ensures since { (user : List ℕ) (number : ℕ) (vs : List Entries)
        → map listing_of (entries_since user number (whole vs))
        ≡ flat_map (λ v. map listing_of (entries_since user number v)) vs }
    ensures numbered { (vs : List Entries) → AreVolumes vs → AllByRecursion IsNumbered vs → IsNumbered (whole vs) }
{}

/// A command that is done on its volume is, with its reply, a step of all volumes as one depot, and they are volumes of
/// one depot afterwards, too. If that volume has a cause to refuse the command (no entry of that number, not enough
/// numbers, other bytes under a digest, no room, a spoilt program, altered bytes), all volumes as one depot have it.
pub fn commands_on_volumes_are_steps()
    ensures accepted { (before after : List Entries) (command : Command) (reply : Reply) → AreVolumes before
        → AcceptOnVolumes before command reply after → Accepts (whole before) command reply (whole after) }
    ensures volumes { (before after : List Entries) (command : Command) (reply : Reply) → AreVolumes before
        → AcceptOnVolumes before command reply after → AreVolumes after }
    ensures none { (earlier : List Entries) (v : Entries) (later : List Entries) (command : Command)
        → AreVolumes (earlier ++ v ∷ later) → IsDoneOn command earlier v later
        → NamesNone v command → NamesNone (whole (earlier ++ v ∷ later)) command }
    ensures full { (earlier : List Entries) (v : Entries) (later : List Entries) (command : Command)
        → IsDoneOn command earlier v later → IsFull v command → IsFull (whole (earlier ++ v ∷ later)) command }
    ensures colliding { (trees : Trees) (earlier : List Entries) (v : Entries) (later : List Entries)
        (command : Command) → IsDoneOn command earlier v later → IsColliding trees v command
        → IsColliding trees (whole (earlier ++ v ∷ later)) command }
    ensures hindered { (trees : Trees) (earlier : List Entries) (v : Entries) (later : List Entries)
        (command : Command) → IsDoneOn command earlier v later → IsHindered command v trees
        → IsHindered command (whole (earlier ++ v ∷ later)) trees }
{}

/// Whatever commands are called on volumes, whichever are refused, and whenever the next volume begins: together the
/// volumes hold what the accepted commands make, one after another.
pub fn commands_on_volumes_are_a_fold()
    ensures { (events : List Event) (before after : List Entries) → AreVolumes before → MakeAll events before after
        → AreSteps (calls_in events) (whole before) (whole after) × AreVolumes after }
{}

/// An entry can only be in the first volume in which the user's last number is at least its number; if there is none,
/// there is no such entry. In a user's last numbers, which never fall, the place of that volume is that of the number.
/// The user's entries above a number are those of the volumes after all in which his last number isn't above it.
pub fn numbers_lead_to_their_volume()
    ensures held { (earlier : List Entries) (v : Entries) (later : List Entries) (user : List ℕ) (number : ℕ)
        → AreVolumes (earlier ++ v ∷ later) → IsFirstUpTo user number earlier v → (x : Entry)
        → IsEntryAt (whole (earlier ++ v ∷ later)) user number x → IsEntryAt v user number x }
    ensures ordered { (user : List ℕ) (vs : List Entries) → AreVolumes vs → NeverFall (lasts_of user vs) }
    ensures found { (user : List ℕ) (number place : ℕ) (vs : List Entries)
        → IsPlaceOf number (lasts_of user vs) place → place < length vs → IsFirstAt user number vs place }
    ensures none { (user : List ℕ) (number : ℕ) (vs : List Entries) → AreVolumes vs → 0 < number
        → IsPlaceOf number (lasts_of user vs) (length vs) → HasNone (whole vs) user number }
    ensures since { (user : List ℕ) (number : ℕ) (earlier later : List Entries) → AreVolumes (earlier ++ later)
        → AllByRecursion (λ v. v.lasts user ≤ number) earlier
        → entries_since user number (whole (earlier ++ later)) ≡ flat_map (entries_since user number) later }
{}

/// A session over the files of the volume that its command is done on is a session over those of all volumes: in
/// whatever way it ends, also in a crash, the files hold volumes that are together what the command makes of them, or
/// what they were. The beginning of a volume, once its files hold it, changes nothing of that. A session that lists or
/// makes a catalog, over any volume, leaves that volume as it was.
pub fn sessions_on_volumes_are_steps()
    ensures led { (session : Option Session) (old new : List Image) → IsChange session old new
        → (before : List Entries) → HoldVolumes old before → ∥ HoldAfter session before new ∥₁ }
    ensures lists { (was is : Image) (user : List ℕ) (reply : Option Reply) (is_open : Bool)
        → Leads (Ran (ListAll user) reply is_open) was is → Leads NotOpened was is }
    ensures since { (was is : Image) (user : List ℕ) (number : ℕ) (reply : Option Reply) (is_open : Bool)
        → Leads (Ran (ListSince user number) reply is_open) was is → Leads NotOpened was is }
    ensures catalogs { (was is : Image) (user : List ℕ) (number : ℕ) (reply : Option Reply) (is_open : Bool)
        → Leads (Ran (Catalog user number) reply is_open) was is → Leads NotOpened was is }
{}

/// What one session left is what the next one finds. Sessions over the files of volumes, one after another, and volumes
/// that begin between them, leave files that hold volumes which are together what the commands make, one after another.
pub fn runs_on_volumes_are_a_fold()
    ensures { (past : List Change) (images : List Image) (before : List Entries) → HoldVolumes images before
        → AreChanges images past → ∥ HoldAfterAll images past before ∥₁ }
{}
