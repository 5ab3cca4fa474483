// The system as a host.
ghost use Rattle.std.specs.Prelude.{◌≡◌, ◌⊎◌, false, IfErr, IfOk, IfSome, OnOk};
ghost use Rattle.std.specs.Path.{path_buf_bytes};
ghost use Rattle.depot_jobs.specs.Files.{IsReached};
ghost use Rattle.depot_jobs.specs.Host.{HasNotMade, IsApart, IsFreshOutput, made_from, makes, untold, with_call};
ghost use Rattle.devices.specs.Device.{counted};
ghost use Rattle.refusals.specs.declared.refusal.Refusal.TheVariants.{Memory};

use crate::host::{Host, Input, MadeFrom};
use crate::new_file::{NewFile, begin, discard, persist};
use devices::{DeviceFailed, OfRead};
use refusals::Refusal;
use std::alloc::Global;
use std::fs::Files;
use std::io::{ErrorKind, Read};
use std::os::fd::AsFd;
use std::{fs, io};

/// The files and the standard input of a real system; `main` makes one. A contract knows nothing about what they hold.
///
/// No file is made under a name that a database has for its log, the log's index or its journal: its own name with
/// `-wal`, `-shm` or `-journal` appended. Those are refused of each database in the same folder: of a file that begins
/// as one does, or can't be read, or is empty next to the log of one. If a file is made from a depot, they are refused of
/// that depot, whatever is there, and by whatever links it is reached.
#[derive(Drop)]
pub struct System<'a, R: Files + io::Input> {
    rt: &'a R,
    number: u32,
    /// How many bytes were read, at most 2^64 - 1.
    pub given: u64,
    /// How many calls have failed, at most 2^64 - 1.
    pub faults: u64,
}

/// An open file, or standard input.
#[derive(Drop)]
pub enum Stream<F, I> {
    /// An open file.
    File(F),
    /// Standard input.
    Input(I),
}

impl<F: Read, I: Read> Read for Stream<F, I> {
    fn read(&mut self, room: &mut [u8]) -> io::Result<usize> {
        match self {
            Stream::File(file) => file.read(room),
            Stream::Input(input) => input.read(room),
        }
    }
}

impl<'a, R: Files + io::Input> System<'a, R> {
    /// Makes the host of a runtime; nothing was asked of it. The number, that of the process, becomes part of the names
    /// of files that are being made.
    pub fn new(rt: &'a R, number: u32) -> System<'a, R>
        ensures given { result.given ≡ 0 }
        ensures faults { result.faults ≡ 0 }
    {
        System {
            rt,
            number,
            given: 0,
            faults: 0,
        }
    }

    // The refusal of a fault: `Memory` if memory was refused, otherwise `other`, and the call counts as failed.
    fn refusal(&mut self, fault: &io::Error, other: Refusal) -> Refusal
        ensures { ((result ≡ Memory) × (self.new ≡ self.old))
            ⊎ ((result ≡ other) × (self.new
            ≡ record self.old { faults = counted 1 self.old.faults })) }
    {
        if fault.kind() == ErrorKind::OutOfMemory {
            return Refusal::Memory;
        }
        self.faults = self.faults.saturating_add(1);
        other
    }
}

impl<R: Files + io::Input> Host for System<'_, R>
where
    R::File: AsFd,
{
    type Reader = OfRead<Stream<R::File, R::Reader>>;

    type Writer = NewFile<R::File>;

    ghost state = { λ s. untold s.given s.faults };

    fn open(&mut self, input: Input<'_>) -> Result<Self::Reader, Refusal> {
        match input {
            Input::Standard => Ok(OfRead::new(Stream::Input(self.rt.reader()))),
            Input::File(name) => match fs::open(self.rt, name) {
                Ok(file) => Ok(OfRead::new(Stream::File(file))),
                Err(fault) => Err(self.refusal(&fault, Refusal::Read)),
            },
        }
    }

    fn close(&mut self, reader: Self::Reader) {
        self.given = self.given.saturating_add(reader.given);
        self.faults = self.faults.saturating_add(reader.faults);
    }

    fn create(
        &mut self,
        alloc: Global,
        name: &str,
        from: MadeFrom<'_>,
    ) -> Result<Self::Writer, Refusal>
        ensures apart { OnOk result (IsApart from.entry name.now) }
        ensures fresh { IfOk result (λ file. IsFreshOutput (untold self.old.given self.old.faults)
            (record { written = R.File.contents file.sink.inner; faults = file.sink.faults })) }
        ensures ok { OnOk result (untold self.new.given self.new.faults
            ≡ with_call (makes name.now (made_from from.entry))
            (untold self.old.given self.old.faults)) }
        ensures err { IfErr result (λ e. HasNotMade e name.now (made_from from.entry)
            (untold self.old.given self.old.faults) (untold self.new.given self.new.faults)) }
        ensures stands { IfOk result (λ file. IfSome file.paths
            (λ paths. IsReached name.now (path_buf_bytes paths.kept))) }
    {
        match begin(self.rt, alloc, self.number, name, from) {
            Ok(file) => Ok(file),
            Err(fault) => Err(self.refusal(&fault, Refusal::Write)),
        }
    }

    fn persist(&mut self, writer: Self::Writer) -> Result<(), DeviceFailed> {
        self.faults = self.faults.saturating_add(writer.sink.faults);
        match persist(self.rt, writer) {
            Ok(()) => Ok(()),
            Err(_) => {
                self.faults = self.faults.saturating_add(1);
                Err(DeviceFailed)
            }
        }
    }

    fn discard(&mut self, writer: Self::Writer) {
        self.faults = self.faults.saturating_add(writer.sink.faults);
        discard(self.rt, writer);
    }
}
