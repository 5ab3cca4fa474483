// What holds volumes.
ghost use Rattle.std.specs.Prelude.{◌≡◌, ◌+◌, ◌≤◌, IfErr, IfOk, List, length};
ghost use Rattle.part_store.specs.Entries.{Entries};
ghost use Rattle.volumes.specs.Holding.{HasAdded, HasClosed, HasMade, HasOpened, Holding, IsFailure, IsLastAt, Keeps};

use depot_actions::Depot;
use refusals::Refusal;
use sqlite::Alter;

/// What a contract sees as a depot over a store `S`: [`Depot`].
pub trait Shown<S: Alter> {
    ghost use Rattle.sqlite.specs.Held.{Held};

    ghost shown: { Self → Held S };
}

impl<S: Alter> Shown<S> for Depot<S> {
    ghost shown = { λ d. d };
}

/// What holds the volumes of a depot, each a depot `D` over a store `S`: a folder of files, or stores in memory. The calls
/// are over [`Depot`]; `D` is a parameter because a method of an implementation can't take a `Depot<S>` by value.
///
/// A volume is opened by its place, which counts from 0 at the oldest, and given back. It isn't opened a second time
/// before that. Opening can be expensive: a file is read whole. So an implementation can keep depots open that were
/// given back, and remember last numbers: those of all volumes but the newest don't change.
///
/// A contract knows which volumes are held, as far as no depot was given back that a failure had shut; how many were
/// opened; and whether the latest question for a last number was refused, and with which refusal.
pub trait Volumes<S: Alter, D: Shown<S>> {
    ghost holding: { Holding Self };

    /// Returns how many volumes there are.
    fn count(&self) -> usize
        ensures { (vs : List Entries) → holding.holds self.now vs → length vs ≡ result };

    /// Opens the volume at a place.
    ///
    /// # Errors
    ///
    /// - `Memory` if memory is refused.
    /// - `Database` if there is no volume at the place, or it can't be opened, or it is open.
    fn open(&mut self, place: usize) -> Result<D, Refusal>
        ensures opened { IfOk result
            (λ d. HasOpened holding S.Store place self.old self.new (D.shown d)) }
        ensures keeps { IfErr result (λ _. Keeps holding self.old self.new) }
        ensures which { IfErr result IsFailure }
        ensures counted { holding.opened self.new ≤ holding.opened self.old + 1 };

    /// Takes the depot of the volume at a place back, which was opened by this.
    fn close(&mut self, place: usize, depot: D)
        ensures closed { HasClosed holding S.Store place self.old self.new (D.shown depot) }
        ensures counted { holding.opened self.new ≤ holding.opened self.old };

    /// Returns the last number that the user was given in the volume at a place, or 0 if the user was given none. At
    /// most one volume is opened for it, and given back.
    ///
    /// # Errors
    ///
    /// - `Memory` if memory is refused.
    /// - `Database` if there is no volume at the place, or it can't be opened or read, or it is open.
    fn last_of(&mut self, place: usize, user: &str) -> Result<u32, Refusal>
        ensures last { IfOk result (IsLastAt holding self.old self.new user.now place) }
        ensures keeps { Keeps holding self.old self.new }
        ensures refused { IfErr result (holding.refuses self.new) }
        ensures which { IfErr result IsFailure }
        ensures counted { holding.opened self.new ≤ holding.opened self.old + 1 };

    /// Returns how large the newest volume is, in bytes.
    ///
    /// # Errors
    ///
    /// - `Memory` if memory is refused.
    /// - `Database` if there is no volume, or its size can't be found out.
    fn newest_size(&mut self) -> Result<u64, Refusal>
        ensures keeps { Keeps holding self.old self.new }
        ensures which { IfErr result IsFailure };

    /// Makes the volume after the newest, empty. It counts only after [`Volumes::append`].
    ///
    /// # Errors
    ///
    /// - `Memory` if memory is refused.
    /// - `Database` if it can't be made.
    fn begin(&mut self) -> Result<D, Refusal>
        ensures made { IfOk result
            (λ d. HasMade holding S.Store self.old self.new (D.shown d)) }
        ensures keeps { IfErr result (λ _. Keeps holding self.old self.new) }
        ensures which { IfErr result IsFailure };

    /// Takes the depot back that [`Volumes::begin`] made. From now on it counts, as the newest volume.
    fn append(&mut self, depot: D)
        ensures { HasAdded holding S.Store self.old self.new (D.shown depot) };

    /// Takes the depot back that [`Volumes::begin`] made, and that doesn't count, because it couldn't be filled.
    fn abandon(&mut self, depot: D)
        ensures { Keeps holding self.old self.new };
}
