// What the surroundings give to the program.
ghost use Rattle.std.specs.Prelude.{◌≡◌, false, suc, IfErr, IfOk, OnErr, OnOk};
ghost use Rattle.depot_jobs.specs.Host.{HasKept, HasNotMade, HasNotOpened, HostState, IsApart, IsFreshOutput, IsFreshSupply, made_from, makes, opens, origin_of, with_call, with_faults, with_supply};

use devices::{DeviceFailed, Sink, Source};
use refusals::Refusal;
use std::alloc::Global;

/// Where a command reads bytes from.
#[derive(Clone, Copy)]
pub enum Input<'a> {
    /// Standard input.
    Standard,
    /// The file with this name.
    File(&'a str),
}

/// What a file is made from.
#[derive(Clone, Copy)]
pub enum MadeFrom<'a> {
    /// The script or the listing in the file with this name.
    Source(&'a str),
    /// The depot in the file with this name.
    Depot(&'a str),
}

impl<'a> MadeFrom<'a> {
    /// Returns the name of the file.
    pub fn name(self) -> &'a str
        ensures { result.now ≡ made_from self.entry }
    {
        match self {
            MadeFrom::Source(name) | MadeFrom::Depot(name) => name,
        }
    }
}

/// What opens and makes files for a command: [`crate::System`] in the program, a shelf of texts in tests. Commands that
/// read or make files take one.
///
/// A contract sees what is read from where, if that is observable; what the host was asked for, in order, if that is
/// observable; how many bytes it gave; and how many calls have failed, including those of its readers and writers after
/// they are given back. They have to be given back: neither type can be dropped.
pub trait Host {
    /// Gives the bytes of a file, or of standard input.
    type Reader: Source;

    /// Takes the bytes of a file that is being made.
    type Writer: Sink;

    ghost state: { Self → HostState };

    /// Opens a file, or standard input.
    ///
    /// # Errors
    ///
    /// - `Memory` if memory is refused.
    /// - `Read` if it can't be opened.
    fn open(&mut self, input: Input<'_>) -> Result<Self::Reader, Refusal>
        ensures fresh { IfOk result (λ reader. IsFreshSupply
            ((state self.old).contents (origin_of input.entry)) (Self.Reader.supply reader)) }
        ensures ok { OnOk result (state self.new
            ≡ with_call (opens (origin_of input.entry)) (state self.old)) }
        ensures err { IfErr result (λ e. HasNotOpened e (origin_of input.entry) (state self.old)
            (state self.new)) };

    /// Takes a reader back.
    fn close(&mut self, reader: Self::Reader)
        ensures { state self.new ≡ with_supply (Self.Reader.supply reader) (state self.old) };

    /// Starts making a file that is to have this name. Until it is kept, the file with that name stays as it is; a
    /// device or a pipe with that name is written directly.
    ///
    /// # Errors
    ///
    /// - `Memory` if memory is refused.
    /// - `Write` if no file can be made; if `name` is the file that the new one is made from; or if that is a depot,
    ///   and `name` is a file that a database called so has next to its own.
    fn create(
        &mut self,
        alloc: Global,
        name: &str,
        from: MadeFrom<'_>,
    ) -> Result<Self::Writer, Refusal>
        ensures apart { OnOk result (IsApart from.entry name.now) }
        ensures fresh { IfOk result (λ writer. IsFreshOutput (state self.old)
            (Self.Writer.output writer)) }
        ensures ok { OnOk result (state self.new
            ≡ with_call (makes name.now (made_from from.entry)) (state self.old)) }
        ensures err { IfErr result (λ e. HasNotMade e name.now (made_from from.entry)
            (state self.old) (state self.new)) };

    /// Gives a file that was made its name.
    ///
    /// # Errors
    ///
    /// `DeviceFailed` if it can't have the name. The new file is gone, and the file that had the name stays as it is.
    fn persist(&mut self, writer: Self::Writer) -> Result<(), DeviceFailed>
        ensures ok { OnOk result (HasKept (Self.Writer.output writer) (state self.old)
            (state self.new)) }
        ensures err { OnErr result (state self.new
            ≡ with_faults (suc (Self.Writer.output writer).faults) (state self.old)) };

    /// Removes a file that was made. The file that has its name stays as it is.
    fn discard(&mut self, writer: Self::Writer)
        ensures { state self.new ≡ with_faults (Self.Writer.output writer).faults
            (state self.old) };
}
