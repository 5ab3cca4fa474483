// How the files of a depot are opened.
ghost use Rattle.std.specs.Prelude.{ℕ, List, IfErr, ⊤};
ghost use Rattle.sqlite.specs.Recovery.{Image};
ghost use Rattle.sqlite.specs.WalFiles.{image_at};
ghost use Rattle.part_store.specs.declared.looking.Unopened.{Unopened};
ghost use Rattle.refusals.specs.declared.refusal.Refusal.{Refusal};
ghost use Rattle.depot.specs.Ending.{IsFound, IsSeen};

use depot_actions::Depot;
use part_store::{Again, Unopened};
use refusals::Refusal;
use sqlite::{FileFrom, FileStore, Start};
use sqlite_disk::Disk;

/// Opens the files of one depot, once, because a call uses it up. `D` is the type of the files.
///
/// A contract sees what the two files with a name held, and which refusals opening them gave. Only a call that was
/// refused shows that its refusal is one of these. So a function over any `Opener` can't report that opening was
/// refused if it was not, or with another refusal, whatever it does with the depot that it got.
pub trait Opener<D: Disk + Drop> {
    ghost image: { List ℕ → Image };

    ghost refuses: { List ℕ → Refusal → Type 0 };

    ghost refuses_look: { List ℕ → Unopened → Type 0 };

    /// Opens the depot in the file with a name; a file that doesn't exist, is empty or has no tables becomes the empty
    /// depot.
    ///
    /// # Errors
    ///
    /// `Memory` or `Database`, for no cause that a clause names.
    fn open(self, name: &str) -> Result<Depot<FileStore<D>>, Refusal>
        ensures found { IsFound (image name.now) result }
        ensures refused { IfErr result (refuses name.now) };

    /// Opens the file with a name as it is.
    ///
    /// # Errors
    ///
    /// Why the file isn't opened as a depot, as `part_store` says it of `look_from`.
    fn look(self, name: &str) -> Result<Depot<FileStore<D>>, Unopened>
        ensures seen { IsSeen (image name.now) result }
        ensures refused { IfErr result (refuses_look name.now) };
}

/// Opens files of the system by their path, and does nothing else; `B` describes what they held. No clause ties `B` to
/// the path: only the bodies show that the files at this path are opened.
///
/// The program passes the type about which nothing is known (`Unknown`), because no contract can say what a file of the
/// system holds: the code that it runs is the same.
pub struct OnDisk<'a, B> {
    pub rt: &'a HostRuntime,
    pub start: B,
}

impl<B: Start + Again> Opener<FileFrom<B>> for OnDisk<'_, B> {
    ghost image = { λ name. image_at B.Start };

    ghost refuses = { λ name refusal. ⊤ };

    ghost refuses_look = { λ name why. ⊤ };

    fn open(self, name: &str) -> Result<Depot<FileStore<FileFrom<B>>>, Refusal> {
        let OnDisk { rt, start } = self;
        Depot::open_from(rt, name, start)
    }

    fn look(self, name: &str) -> Result<Depot<FileStore<FileFrom<B>>>, Unopened> {
        let OnDisk { rt, start } = self;
        Depot::look_from(rt, name, start)
    }
}
