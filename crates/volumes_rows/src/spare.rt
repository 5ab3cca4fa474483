//! Empty depots.
ghost use Rattle.sqlite.specs.Held.{state};
ghost use Rattle.part_store.specs.Entries.{no_entries};
ghost use Rattle.part_store.specs.Opening.{IsAt};

use depot_actions::Depot;
use refusals::Refusal;
use sqlite::{Alter, MemStore};
use std::alloc::Global;
use std::marker::Model;

/// An empty depot, which can become a volume.
pub struct Spare<S: Alter> {
    depot: Depot<S>,
}

impl<S: Alter> Model for Spare<S> {
    ghost use Rattle.sqlite.specs.Held.{Held, held_code, state};
    ghost use Rattle.part_store.specs.Entries.{no_entries};
    ghost use Rattle.part_store.specs.Opening.{IsAt};

    ghost Value = { Held S };

    ghost coded = { held_code S.code };

    ghost view = { λ s. s.depot };

    ghost invariant = { λ s. IsAt no_entries (state S.Store s.depot) };
}

impl<S: Alter + Drop> Drop for Spare<S> {
    fn drop(self) {
        let Spare { depot: _ } = self;
    }
}

impl<S: Alter> Spare<S> {
    /// Gives the depot.
    pub fn open(self) -> Depot<S>
        ensures { IsAt no_entries (state S.Store result) }
    {
        let Spare { depot } = self;
        depot
    }
}

impl Spare<MemStore> {
    /// Makes an empty depot in memory.
    ///
    /// # Errors
    ///
    /// `Memory` or `Database` if it can't be made.
    pub fn in_memory(alloc: Global) -> Result<Spare<MemStore>, Refusal> {
        let depot = Depot::in_memory(alloc)?;
        Ok(Spare { depot })
    }
}
