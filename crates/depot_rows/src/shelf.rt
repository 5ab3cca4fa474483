//! A host of two files.
ghost use Rattle.std.specs.Prelude.{◌≡◌, false, IfOk, if◌then◌else◌};
ghost use Rattle.std.specs.Option.{option_copied};
ghost use Rattle.depot_jobs.specs.Host.{IsApart, made_from, makes, opens, origin_of, with_call, with_faults};
ghost use Rattle.depot_rows.specs.Shelf.{call_of, state_of};

use depot_jobs::{Host, Input, MadeFrom, is_beside};
use devices::{DeviceFailed, OfRead, OfWrite};
use refusals::Refusal;
use std::alloc::{AllocError, Global};
use std::io;
use std::io::Write;

/// A file: its name and its octets.
#[derive(Clone, Copy, Debug)]
pub struct Known<'a> {
    pub name: &'a str,
    pub octets: &'a [u8],
}

/// What was asked of a shelf.
#[derive(Debug, Drop, PartialEq, Eq)]
pub enum Asked {
    /// To open standard input.
    OpenedInput,
    /// To open the file of this name.
    Opened(String),
    /// To make a file of the first name, unless it is that of the second.
    Made(String, String),
    /// To keep the file that was made, with these octets.
    Kept(Vec<u8>),
}

/// Two files and the octets of standard input. Files that are made take so many octets, and fail at the next.
#[derive(Drop)]
pub struct Shelf<'a> {
    alloc: Global,
    first: Known<'a>,
    second: Known<'a>,
    input: &'a [u8],
    room: usize,
    /// What was asked so far.
    pub asked: Vec<Asked>,
    /// How many octets were read, at most 2^64 - 1.
    pub given: u64,
    /// How many calls have failed, at most 2^64 - 1.
    pub faults: u64,
}

/// Octets that are kept up to a limit.
#[derive(Drop)]
pub struct Bounded {
    pub octets: Vec<u8>,
    room: usize,
}

impl Write for Bounded {
    ghost use Rattle.std.specs.Prelude.{Some};

    ghost contents = { λ s. Some s.octets.items };

    fn write(&mut self, octets: &[u8]) -> io::Result<usize> {
        let n = octets.len().min(self.room);
        if n == 0 && !octets.is_empty() {
            return Err(io::Error::from(io::ErrorKind::StorageFull));
        }
        self.octets.extend_from_slice(&octets[..n])?;
        self.room -= n;
        Ok(n)
    }

    fn flush(&mut self) -> io::Result<()> {
        Ok(())
    }
}

impl<'a> Shelf<'a> {
    /// A shelf of which nothing was asked so far.
    pub fn new(
        alloc: Global,
        first: Known<'a>,
        second: Known<'a>,
        input: &'a [u8],
        room: usize,
    ) -> Shelf<'a> {
        Shelf {
            alloc,
            first,
            second,
            input,
            room,
            asked: Vec::new(alloc),
            given: 0,
            faults: 0,
        }
    }

    // The octets of a file, or of standard input.
    fn find(&self, input: Input<'_>) -> Option<&'a [u8]>
        ensures { option_copied result ≡ (state_of self.now).contents (origin_of input.entry) }
    {
        match input {
            Input::Standard => Some(self.input),
            Input::File(name) if name == self.first.name => Some(self.first.octets),
            Input::File(name) if name == self.second.name => Some(self.second.octets),
            Input::File(_) => None,
        }
    }

    // Notes what was asked, if there is memory for it.
    fn note(&mut self, asked: Asked) -> bool
        ensures { state_of self.new
            ≡ (if result then with_call (call_of asked) (state_of self.old) else state_of
            self.old) }
    {
        self.asked.push(asked).is_ok()
    }

    // Counts a failed call.
    fn fail(&mut self)
        ensures { state_of self.new ≡ with_faults 1 (state_of self.old) }
    {
        self.faults = self.faults.saturating_add(1);
    }
}

// What is asked for by opening this.
fn opening(alloc: Global, input: Input<'_>) -> Result<Asked, AllocError>
    ensures { IfOk result (λ asked. call_of asked ≡ opens (origin_of input.entry)) }
{
    match input {
        Input::Standard => Ok(Asked::OpenedInput),
        Input::File(name) => Ok(Asked::Opened(String::from_str(alloc, name)?)),
    }
}

// What is asked for by making a file.
fn making(alloc: Global, name: &str, from: MadeFrom<'_>) -> Result<Asked, AllocError>
    ensures { IfOk result (λ asked. call_of asked ≡ makes name.now (made_from from.entry)) }
{
    Ok(Asked::Made(
        String::from_str(alloc, name)?,
        String::from_str(alloc, from.name())?,
    ))
}

// Whether no file of a name is made: it is the file that it would be made from, or one that this depot's database has
// next to its own.
fn is_kept_from(from: MadeFrom<'_>, name: &str) -> bool
    ensures { result ≡ false → IsApart from.entry name.now }
{
    match from {
        MadeFrom::Source(source) => name == source,
        MadeFrom::Depot(depot) => name == depot || is_beside(depot, name),
    }
}

impl<'a> Host for Shelf<'a> {
    type Reader = OfRead<&'a [u8]>;

    type Writer = OfWrite<Bounded>;

    ghost use Rattle.depot_rows.specs.Shelf.{state_of};

    ghost state = { state_of };

    fn open(&mut self, input: Input<'_>) -> Result<Self::Reader, Refusal> {
        let octets = self.find(input);
        let asked = match opening(self.alloc, input) {
            Ok(asked) => asked,
            Err(_) => return Err(Refusal::Memory),
        };
        if !self.note(asked) {
            return Err(Refusal::Memory);
        }
        match octets {
            Some(octets) => Ok(OfRead::new(octets)),
            None => {
                self.fail();
                Err(Refusal::Read)
            }
        }
    }

    fn close(&mut self, reader: Self::Reader) {
        self.given = self.given.saturating_add(reader.given);
        self.faults = self.faults.saturating_add(reader.faults);
    }

    fn create(
        &mut self,
        alloc: Global,
        name: &str,
        from: MadeFrom<'_>,
    ) -> Result<Self::Writer, Refusal> {
        let asked = match making(alloc, name, from) {
            Ok(asked) => asked,
            Err(_) => return Err(Refusal::Memory),
        };
        if !self.note(asked) {
            return Err(Refusal::Memory);
        }
        if is_kept_from(from, name) {
            self.fail();
            return Err(Refusal::Write);
        }
        Ok(OfWrite::new(Bounded {
            octets: Vec::new(alloc),
            room: self.room,
        }))
    }

    fn persist(&mut self, writer: Self::Writer) -> Result<(), DeviceFailed> {
        let OfWrite { inner, faults } = writer;
        self.faults = self.faults.saturating_add(faults);
        if !self.note(Asked::Kept(inner.octets)) {
            self.fail();
            return Err(DeviceFailed);
        }
        Ok(())
    }

    fn discard(&mut self, writer: Self::Writer) {
        self.faults = self.faults.saturating_add(writer.faults);
    }
}
