//! A depot in a folder, whose volumes are files with the names of [`crate::names`].
//!
//! A command lists the folder once, and knows these volumes from then on. It opens one after another, and keeps the
//! newest open from when that is first opened. A command that changes the newest opens it first, and then lists the
//! folder again: if a later one has come, it closes what it has, and starts over. The next volume is made by a process
//! that has the newest open. So two processes never file into two volumes. No volume is opened while a later one is
//! open, so processes don't wait for each other in a circle.
//!
//! A newest volume is unfinished if it has no user, although the one before it has some: a process ended while it began
//! the volume. It has no entry either. A command that changes the newest first puts the users in that are missing.
ghost use Rattle.std.specs.Prelude.{IfErr};
ghost use Rattle.volumes.specs.Holding.{IsFailure};

use crate::names::{MAX_NUMBER, number_of, path_of};
use crate::volume::{
    Volume, answered, close_volume, fill, make_volume, open_volume, size_of, users_of,
};
use depot_actions::Depot;
use refusals::Refusal;
use sqlite::{FileFrom, FileStore, Unknown};
use std::fs::{self, DirEntry};
use std::io::{self, ErrorKind};
use std::os::unix::fs::MetadataExt;
use volumes::{Volumes, failure_of};

/// How often a command starts over because the next volume has begun.
const MAX_TRIES: u32 = 100;

/// The numbers of the volumes of a folder, which follow one another.
#[derive(Clone, Copy)]
struct Numbers {
    // The number of the oldest volume.
    oldest: u32,
    // How many volumes there are, at least one.
    count: u32,
}

impl Numbers {
    // The number of the volume at a place, from 0 at the oldest, if there is one.
    fn at(self, place: usize) -> Option<u32> {
        match u32::try_from(place) {
            Ok(place) if place < self.count => Some(self.oldest.saturating_add(place)),
            _ => None,
        }
    }

    // The number of the newest volume.
    fn newest(self) -> u32 {
        self.oldest.saturating_add(self.count.saturating_sub(1))
    }
}

/// The volumes of a folder, as a command sees them.
///
/// No contract can say what files of the system hold, so what this tells contracts is that nothing is known (`unknown`
/// of `specs/Folders`). The theorems about commands on volumes hold for every [`Volumes`]; that this one does what the
/// trait promises for known volumes is shown only by its bodies and by tests.
#[derive(Drop)]
pub struct Folder<'a> {
    rt: &'a HostRuntime,
    path: &'a str,
    numbers: Numbers,
    // The newest volume, from when it was first opened, except while it is lent.
    newest: Option<Volume>,
}

// The numbers of a folder's volumes. Other names are ignored.
fn numbers_in(rt: &HostRuntime, path: &str) -> Result<Numbers, Refusal>
    ensures which { IfErr result IsFailure }
{
    let mut oldest = u32::MAX;
    let mut newest: u32 = 0;
    let mut count: u32 = 0;
    for entry in answered(fs::read_dir(rt, path))? {
        let Some(number) = number_in(entry)? else {
            continue;
        };
        oldest = oldest.min(number);
        newest = newest.max(number);
        count = count.saturating_add(1);
    }
    // Without a volume, or with a gap between two, the sums differ.
    if oldest.saturating_add(count) != newest.saturating_add(1) {
        return Err(Refusal::Database);
    }
    Ok(Numbers { oldest, count })
}

// The number of a volume that was found in a folder, or `None` if what was found has no volume's name. A volume is a
// regular file with one name.
fn number_in(entry: io::Result<DirEntry>) -> Result<Option<u32>, Refusal>
    ensures which { IfErr result IsFailure }
{
    let entry = match entry {
        Ok(entry) => entry,
        // A name that isn't UTF-8 is no volume's.
        Err(fault) if fault.kind() == ErrorKind::InvalidFilename => return Ok(None),
        Err(fault) => return answered(Err(fault)),
    };
    let Some(number) = number_of(entry.file_name()) else {
        return Ok(None);
    };
    let found = answered(entry.metadata())?;
    if !found.is_file() || found.nlink() != 1 {
        return Err(Refusal::Database);
    }
    Ok(Some(number))
}

// Opens the newest of several volumes, while the one before it is held, and puts the users in that are missing there.
fn open_finished(
    rt: &HostRuntime,
    path: &str,
    before: u32,
    newest: u32,
) -> Result<Volume, Refusal> {
    let volume = open_volume(rt, path, before)?;
    let mut earlier = volume.release();
    let users = users_of(&mut earlier)?;
    let volume = open_volume(rt, path, newest)?;
    let mut store = volume.release();
    let there = users_of(&mut store)?;
    if there.is_empty() {
        fill(&mut store, &users)?;
    }
    close_volume(Depot::adopt(earlier));
    Ok(Depot::adopt(store))
}

// Opens the newest volume. If it is unfinished, it is finished.
fn open_newest(rt: &HostRuntime, path: &str, numbers: Numbers) -> Result<Volume, Refusal> {
    let newest = numbers.newest();
    let volume = open_volume(rt, path, newest)?;
    let mut store = volume.release();
    if numbers.count == 1 {
        return Ok(Depot::adopt(store));
    }
    let users = users_of(&mut store)?;
    if !users.is_empty() {
        return Ok(Depot::adopt(store));
    }
    close_volume(Depot::adopt(store));
    open_finished(rt, path, newest.saturating_sub(1), newest)
}

// Opens the newest volume. Returns `None` if a later one has come before it was open.
fn hold_once<'a>(rt: &'a HostRuntime, path: &'a str) -> Result<Option<Folder<'a>>, Refusal> {
    let before = numbers_in(rt, path)?;
    let volume = open_newest(rt, path, before)?;
    let numbers = numbers_in(rt, path)?;
    if numbers.newest() != before.newest() {
        close_volume(volume);
        return Ok(None);
    }
    Ok(Some(Folder {
        rt,
        path,
        numbers,
        newest: Some(volume),
    }))
}

impl<'a> Folder<'a> {
    /// Lists the volumes of the folder at a path, for a command for which the next one can begin meanwhile.
    ///
    /// # Errors
    ///
    /// - `Memory` if memory is refused.
    /// - `Database` if the folder can't be listed, it has no volume, one is missing between two others, or one is no
    ///   regular file with one name.
    pub fn list(rt: &'a HostRuntime, path: &'a str) -> Result<Folder<'a>, Refusal> {
        let numbers = numbers_in(rt, path)?;
        Ok(Folder {
            rt,
            path,
            numbers,
            newest: None,
        })
    }

    /// Lists the volumes of the folder at a path, for a command that is done on the newest. That one is opened, is
    /// finished, and stays the newest until this is closed.
    ///
    /// # Errors
    ///
    /// - `Memory` if memory is refused.
    /// - `Database` if [`Folder::list`] is refused that, or the newest volume can't be opened.
    pub fn hold(rt: &'a HostRuntime, path: &'a str) -> Result<Folder<'a>, Refusal> {
        for _ in 0..MAX_TRIES {
            if let Some(folder) = hold_once(rt, path)? {
                return Ok(folder);
            }
        }
        Err(Refusal::Database)
    }

    /// Returns the path of the newest volume.
    ///
    /// # Errors
    ///
    /// `Memory` if memory is refused.
    pub fn newest_path(&self) -> Result<String, Refusal> {
        Ok(path_of(self.rt.alloc(), self.path, self.numbers.newest())?)
    }

    /// Closes the newest volume, if it is open.
    pub fn close(self) {
        let Folder {
            rt: _,
            path: _,
            numbers: _,
            newest,
        } = self;
        if let Some(volume) = newest {
            close_volume(volume);
        }
    }

    // Whether the volume at a place is the newest.
    fn is_newest(&self, place: usize) -> bool {
        place.saturating_add(1) == self.numbers.count as usize
    }

    // Opens the volume at a place.
    fn lend(&mut self, place: usize) -> Result<Volume, Refusal>
        ensures which { IfErr result IsFailure }
    {
        if self.is_newest(place) {
            if let Some(volume) = self.newest.take() {
                return Ok(volume);
            }
        }
        match self.numbers.at(place) {
            Some(number) => open_volume(self.rt, self.path, number),
            None => Err(Refusal::Database),
        }
    }

    // Takes the volume at a place back: the newest stays open.
    fn take_back(&mut self, place: usize, volume: Volume) {
        if self.is_newest(place) {
            self.newest = Some(volume);
        } else {
            close_volume(volume);
        }
    }
}

#[tactic(auto, using(crate::proofs::Unheld::added, crate::proofs::Unheld::closed, crate::proofs::Unheld::keeps, crate::proofs::Unheld::last, crate::proofs::Unheld::made, crate::proofs::Unheld::opened))]
impl Volumes<FileStore<FileFrom<Unknown>>, Volume> for Folder<'_> {
    ghost use Rattle.depot_folder.specs.Folders.{unknown};

    ghost holding = { unknown };

    fn count(&self) -> usize {
        self.numbers.count as usize
    }

    fn open(&mut self, place: usize) -> Result<Volume, Refusal> {
        match self.lend(place) {
            Ok(volume) => Ok(volume),
            Err(refusal) => Err(refusal),
        }
    }

    fn close(&mut self, place: usize, depot: Volume) {
        self.take_back(place, depot);
    }

    fn last_of(&mut self, place: usize, user: &str) -> Result<u32, Refusal> {
        let volume = self.lend(place)?;
        let mut store = volume.release();
        let last = store.last_of(user);
        self.take_back(place, Depot::adopt(store));
        match last {
            Ok(last) => Ok(last),
            Err(error) => Err(failure_of(error)),
        }
    }

    fn newest_size(&mut self) -> Result<u64, Refusal> {
        size_of(self.rt, self.path, self.numbers.newest())
    }

    fn begin(&mut self) -> Result<Volume, Refusal> {
        let newest = self.numbers.newest();
        if self.newest.is_none() || newest >= MAX_NUMBER {
            return Err(Refusal::Database);
        }
        match make_volume(self.rt, self.path, newest.saturating_add(1)) {
            Ok(volume) => Ok(volume),
            Err(refusal) => Err(refusal),
        }
    }

    fn append(&mut self, depot: Volume) {
        self.numbers.count = self.numbers.count.saturating_add(1);
        if let Some(before) = self.newest.take() {
            close_volume(before);
        }
        self.newest = Some(depot);
    }

    fn abandon(&mut self, depot: Volume) {
        close_volume(depot);
    }
}
