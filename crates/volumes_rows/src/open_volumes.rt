//! Volumes whose depots stay open.
ghost use Rattle.std.specs.Prelude.{◌≡◌, ◌+◌, ◌≤◌, [], IfSome, None, OnOk, Some, true};
ghost use Rattle.volumes.specs.Holding.{HasAdded, HasClosed, HasOpened, Keeps};
ghost use Rattle.volumes_rows.specs.Depots.{IsPut, holding_of};

use crate::spare::Spare;
use depot_actions::Depot;
use refusals::Refusal;
use sqlite::Alter;
use std::alloc::Global;
use volumes::{Volumes, failure_of};

/// Volumes whose depots stay open, as depots in memory do. The size of the newest is how often a depot was given back
/// since it counts.
#[derive(Drop)]
pub struct OpenVolumes<S: Alter> {
    // The depot of each volume, the oldest first; none while it is out.
    pub(crate) depots: Vec<Option<Depot<S>>>,
    // The depots that the next volumes are made from.
    spares: Vec<Spare<S>>,
    // Whether a depot was lost, because it was given back to a place from which none is out, or because there was no
    // memory to count it.
    pub(crate) has_lost: bool,
    // How often a depot was asked for, at most 2^64 - 1.
    pub(crate) opened: u64,
    // How often a depot was given back since the newest volume counts, at most 2^64 - 1.
    size: u64,
}

// Takes what the slot at a place has, if there is such a slot, and it has something.
fn take_from<T>(slots: &mut Vec<Option<T>>, place: usize) -> Option<T>
    ensures taken { IfSome result
        (λ it. IsPut place slots.old.items slots.new.items (Some it) None) }
    ensures none { result ≡ None → slots.new.items ≡ slots.old.items }
{
    if place >= slots.len() {
        return None;
    }
    slots[place].take()
}

// Puts something into the slot at a place, if there is such a slot, and it is empty. Otherwise returns false.
fn put_into<T: Drop>(slots: &mut Vec<Option<T>>, place: usize, it: T) -> bool
    ensures { result ≡ true → IsPut place slots.old.items slots.new.items None (Some it) }
{
    if place >= slots.len() {
        return false;
    }
    if slots[place].is_some() {
        return false;
    }
    slots[place] = Some(it);
    true
}

impl<S: Alter + Drop> OpenVolumes<S> {
    /// No volume.
    pub fn new(alloc: Global) -> OpenVolumes<S>
        ensures holds { (holding_of S.Store).holds result [] }
        ensures sound { (holding_of S.Store).is_sound result }
    {
        OpenVolumes {
            depots: Vec::new(alloc),
            spares: Vec::new(alloc),
            has_lost: false,
            opened: 0,
            size: 0,
        }
    }

    /// Adds a volume after the newest.
    ///
    /// # Errors
    ///
    /// `Memory` if memory is refused.
    pub fn add(&mut self, depot: Depot<S>) -> Result<(), Refusal>
        ensures { OnOk result (HasAdded (holding_of S.Store) S.Store self.old self.new depot) }
    {
        self.depots.push(Some(depot))?;
        Ok(())
    }

    /// Takes a depot that a next volume can be made from.
    ///
    /// # Errors
    ///
    /// `Memory` if memory is refused.
    pub fn add_spare(&mut self, spare: Spare<S>) -> Result<(), Refusal>
        ensures { Keeps (holding_of S.Store) self.old self.new }
    {
        self.spares.push(spare)?;
        Ok(())
    }

    // Hands the depot of the volume at a place out, if there is one.
    fn lend(&mut self, place: usize) -> Option<Depot<S>>
        ensures lent { IfSome result (HasOpened (holding_of S.Store) S.Store place self.old self.new) }
        ensures none { result ≡ None → Keeps (holding_of S.Store) self.old self.new }
        ensures counted { self.new.opened ≤ self.old.opened + 1 }
    {
        self.opened = self.opened.saturating_add(1);
        take_from(&mut self.depots, place)
    }

    // Takes the depot of the volume at a place back.
    fn take_back(&mut self, place: usize, depot: Depot<S>)
        ensures closed { HasClosed (holding_of S.Store) S.Store place self.old self.new depot }
        ensures counted { self.new.opened ≡ self.old.opened }
    {
        self.size = self.size.saturating_add(1);
        if put_into(&mut self.depots, place, depot) {
            return;
        }
        self.has_lost = true;
    }
}

impl<S: Alter + Drop> Volumes<S, Depot<S>> for OpenVolumes<S> {
    ghost use Rattle.volumes_rows.specs.Depots.{holding_of};

    ghost holding = { holding_of S.Store };

    fn count(&self) -> usize {
        self.depots.len()
    }

    fn open(&mut self, place: usize) -> Result<Depot<S>, Refusal> {
        match self.lend(place) {
            Some(depot) => Ok(depot),
            None => Err(Refusal::Database),
        }
    }

    fn close(&mut self, place: usize, depot: Depot<S>) {
        self.take_back(place, depot);
    }

    fn last_of(&mut self, place: usize, user: &str) -> Result<u32, Refusal> {
        let Some(depot) = self.lend(place) else {
            return Err(Refusal::Database);
        };
        let mut store = depot.release();
        let last = store.last_of(user);
        self.take_back(place, Depot::adopt(store));
        match last {
            Ok(last) => Ok(last),
            Err(error) => Err(failure_of(error)),
        }
    }

    fn newest_size(&mut self) -> Result<u64, Refusal> {
        Ok(self.size)
    }

    fn begin(&mut self) -> Result<Depot<S>, Refusal> {
        match self.spares.pop() {
            Some(spare) => Ok(spare.open()),
            None => Err(Refusal::Database),
        }
    }

    fn append(&mut self, depot: Depot<S>) {
        self.size = 0;
        match self.add(depot) {
            Ok(()) => {}
            Err(_) => self.has_lost = true,
        }
    }

    fn abandon(&mut self, depot: Depot<S>) {
        let _gone = depot;
    }
}
