// Why a file is no depot.
//
// If there is no file, `inspect` says that, also in a folder in which this user can't make one: it makes nothing, so it
// can't know what another command would be allowed. If a file is there and the rights are the problem, or a folder on
// the way can't be searched, it says that.
ghost use Rattle.std.specs.Prelude.{◌≡◌};
ghost use Rattle.depot_cli.specs.Looking.{HasSaidWhy};
ghost use Rattle.depot_cli.specs.NoDepots.{no_depot_of};
ghost use Rattle.depot_cli.specs.Printed.{no_depot_text, why_text};

use depot_jobs::{REFUSED, tell};
use devices::{DeviceFailed, Page, Sink};
use part_store::Unopened;
use printing::{Piece, Printable, print, put_printed};
use refusals::Refusal;

/// Why a file is no depot: an answer of `depot inspect`. The program finds out what it can before it opens anything;
/// [`NoDepot::of`] converts the errors of the open.
#[derive(Clone, Copy)]
pub enum NoDepot {
    /// Nothing has this name.
    NoFile,
    /// The folder doesn't exist.
    NoFolder,
    /// Something on the way to the file that should be a folder isn't one.
    NoPath,
    /// The process has no right to the file; opening a depot needs the right to write.
    NoRights,
    /// It is a directory.
    Directory,
    /// It is a device, a pipe or a socket.
    Special,
    /// The file has a second name.
    SecondName,
    /// The file is empty, and so is its log, if there is one. Any command on a depot makes a depot there.
    Empty,
    /// Another process has the depot open.
    Held,
    /// The file's log or its journal can't be opened.
    Closed,
    /// It is no database, or a damaged one.
    Damaged,
    /// It is a database that has other tables, or none.
    OtherTables,
    /// The disk failed.
    Disk,
}

impl NoDepot {
    /// Returns why a file that can't be opened as it is is no depot, or `None` if memory was refused.
    pub fn of(why: Unopened) -> Option<NoDepot>
        ensures { result ≡ no_depot_of why }
    {
        match why {
            Unopened::Memory => None,
            Unopened::Held => Some(NoDepot::Held),
            Unopened::Closed => Some(NoDepot::Closed),
            Unopened::Damaged => Some(NoDepot::Damaged),
            Unopened::OtherTables => Some(NoDepot::OtherTables),
            Unopened::Disk => Some(NoDepot::Disk),
        }
    }
}

/// Writes to `out` why a file is no depot, and returns 1, the status of a refusal. If `out` fails, the beginning of the
/// line was written there, and the line of `Write` is written to `err`.
pub fn tell_no_depot<O: Sink, E: Sink>(out: &mut O, err: &mut E, why: NoDepot) -> u8
    ensures status { result ≡ 1 }
    ensures said { HasSaidWhy why (O.output out.old) (E.output err.old) (O.output out.new)
        (E.output err.new) }
{
    match put_printed(out, &why) {
        Ok(()) => REFUSED,
        Err(DeviceFailed) => tell(err, &Refusal::Write),
    }
}

impl Printable for NoDepot {
    ghost text = { no_depot_text };

    fn print_on<O: Sink>(&self, page: &mut Page<'_, O>) {
        print(
            page,
            &[
                Piece::Text("no depot: "),
                Piece::Text(words(*self)),
                Piece::Text("\n"),
            ],
        );
    }
}

// The reason in words.
fn words(why: NoDepot) -> &'static str
    ensures { result.now ≡ why_text why }
{
    match why {
        NoDepot::NoFile => "there is no such file",
        NoDepot::NoFolder => "there is no such folder",
        NoDepot::NoPath => "a part of the path is no folder",
        NoDepot::NoRights => "this user may not read and write it",
        NoDepot::Directory => "it is a directory",
        NoDepot::Special => "it is no regular file",
        NoDepot::SecondName => "it has a second name",
        NoDepot::Empty => "it is empty",
        NoDepot::Held => "another process holds it",
        NoDepot::Closed => "its log or its journal can't be opened",
        NoDepot::Damaged => "it is no database, or it is damaged",
        NoDepot::OtherTables => "it has other tables, or none",
        NoDepot::Disk => "the disk failed",
    }
}
