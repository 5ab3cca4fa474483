// A user's filter program, saved as a file.
//
// `program` is no task on a depot: it makes a file, as `compile` does, so it needs the host; a task only gets standard
// output.
ghost use Rattle.std.specs.Prelude.{◌≡◌, IfErr, IfOk, List, length, ℕ};
ghost use Rattle.sqlite.specs.Held.{state};
ghost use Rattle.sqlite.specs.State.{Survives};
ghost use Rattle.depot_jobs.specs.Jobs.{host_and_outputs};
ghost use Rattle.depot_cli.specs.Saving.{Gives, HasServed, IsNoFile, IsSavedFile, OutlastsSaving, Withholds};

use crate::task::finish;
use depot_actions::Depot;
use depot_jobs::{Host, MadeFrom, make_file, tell};
use devices::Sink;
use printing::{WroteFile, put_printed};
use refusals::Refusal;
use sqlite::Alter;
use std::alloc::Global;

/// A request to save a user's filter program as a file, as `depot program` says it. [`save`] carries it out.
#[derive(Clone, Copy)]
pub struct Saving<'a> {
    /// The name of the depot's file.
    pub name: &'a str,
    /// The name of the user.
    pub user: &'a str,
    /// The name of the file to be made.
    pub out: &'a str,
}

/// Saves a user's program, read from the result of opening a depot, as a file, whole or not at all. Writes to `out` how
/// many bytes it has and returns 0; or writes the line of its refusal, or of the open's refusal, to `err` and returns
/// 1. The depot stays as it is, and open.
///
/// The refusals are those of `Depot::program_of`; `NoSuchEntry` if the user has no program; and `Memory` or `Write` if
/// the file can't be made, is the depot's own file, or is one that the depot has next to it. If `out` fails, the file
/// exists, the beginning of the line was written to `out` and the line of `Write` to `err`, and the status is 1.
pub fn save<S: Alter, H: Host, O: Sink, E: Sink>(
    alloc: Global,
    saving: Saving<'_>,
    opened: &mut Result<Depot<S>, Refusal>,
    host: &mut H,
    out: &mut O,
    err: &mut E,
) -> u8
    ensures served { HasServed (state S.Store) saving.entry result opened.old opened.new
        (host_and_outputs (H.state host.old) (O.output out.old) (E.output err.old))
        (host_and_outputs (H.state host.new) (O.output out.new) (E.output err.new)) }
    ensures survives { OutlastsSaving (state S.Store) opened.old opened.new }
{
    match opened {
        Ok(depot) => match save_program(alloc, saving, depot, host) {
            Ok(octets) => finish(err, put_printed(out, &WroteFile { octets })),
            Err(refusal) => tell(err, &refusal),
        },
        Err(refusal) => tell(err, refusal),
    }
}

// Saves the user's program as a file, and returns how many bytes it has.
fn save_program<S: Alter, H: Host>(
    alloc: Global,
    saving: Saving<'_>,
    depot: &mut Depot<S>,
    host: &mut H,
) -> Result<usize, Refusal>
    ensures saved { IfOk result (λ octets. (program : List ℕ) × (octets ≡ length program)
        × IsSavedFile (Gives saving.entry (state S.Store depot.old) (state S.Store depot.new))
        (Withholds saving.entry (state S.Store depot.old) (state S.Store depot.new)) saving.entry
        program (H.state host.old) (H.state host.new)) }
    ensures unsaved { IfErr result (λ e.
        IsNoFile (Gives saving.entry (state S.Store depot.old) (state S.Store depot.new))
        (Withholds saving.entry (state S.Store depot.old) (state S.Store depot.new)) saving.entry e
        (H.state host.old) (H.state host.new)) }
    ensures survives { Survives (state S.Store depot.old) (state S.Store depot.new) (λ _. ⊥) }
{
    match depot.program_of(saving.user)? {
        Some(program) => {
            let depot = MadeFrom::Depot(saving.name);
            make_file(alloc, host, saving.out, depot, &program)?;
            Ok(program.len())
        }
        None => Err(Refusal::NoSuchEntry),
    }
}
