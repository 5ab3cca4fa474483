// Looks at a depot: what it holds, and whether its contents are damaged.
ghost use Rattle.std.specs.Prelude.{◌≡◌, IfErr, IfOk, MatchOption};
ghost use Rattle.sqlite.specs.Held.{state};
ghost use Rattle.sqlite.specs.State.{Survives};
ghost use Rattle.depot_jobs.specs.Jobs.{HasTold};
ghost use Rattle.depot_cli.specs.Looking.{HasLooked, HasNotSeen, HasSeen, IsShown, refusal_with};
ghost use Rattle.depot_cli.specs.Printed.{seen_text};
ghost use Rattle.depot_cli.specs.Tasks.{store_and_outputs};

use crate::inspection::print_overview;
use crate::scrubbing::print_scrubbed;
use depot_actions::{Depot, Overview};
use depot_jobs::{SUCCESS, tell};
use devices::{DeviceFailed, Page, Sink};
use part_store::Scrubbed;
use printing::{Printable, put_printed};
use refusals::Refusal;
use sqlite::Alter;
use std::alloc::Global;

/// A look at a file: what is asked of the depot in it, which stays as it is.
#[derive(Clone, Copy)]
pub enum Look {
    /// What the depot holds. The report begins with the size of the file's log in bytes before it was opened, if there
    /// was one.
    Inspect(Option<u64>),
    /// Which of its contents don't have the SHA-256 under which they are stored.
    Scrub,
}

/// What a look at a depot saw.
#[derive(Drop)]
pub enum Seen {
    /// What the depot holds.
    Overview {
        /// The size of its log in bytes before it was opened, if there was one.
        log: Option<u64>,
        overview: Overview,
    },
    /// Its contents, and what is damaged.
    Scrubbed(Scrubbed),
}

/// Looks at a depot: writes to `out` what was seen and returns 0; or writes the line of its refusal, `Memory` or
/// `Database`, to `err` and returns 1. If a content is damaged, the line of `Database` is written to `err` after what
/// was seen, and the status is 1.
///
/// Writing begins when everything is read, and allocates no memory. If `out` fails, the beginning of the lines was
/// written there, the line of `Write` is written to `err`, and the status is 1. The depot stays as it is.
pub fn look_over<S: Alter, O: Sink, E: Sink>(
    alloc: Global,
    look: Look,
    depot: &mut Depot<S>,
    out: &mut O,
    err: &mut E,
) -> u8
    ensures looked { HasLooked look result
        (store_and_outputs (state S.Store depot.old) (O.output out.old) (E.output err.old))
        (store_and_outputs (state S.Store depot.new) (O.output out.new) (E.output err.new)) }
    ensures survives { Survives (state S.Store depot.old) (state S.Store depot.new) (λ _. ⊥) }
{
    match see(alloc, look, depot) {
        Ok(seen) => show(out, err, &seen),
        Err(refusal) => tell(err, &refusal),
    }
}

// Has the depot answer a look.
fn see<S: Alter>(alloc: Global, look: Look, depot: &mut Depot<S>) -> Result<Seen, Refusal>
    ensures seen { IfOk result
        (λ x. HasSeen look x (state S.Store depot.old) (state S.Store depot.new)) }
    ensures unseen { IfErr result
        (λ e. HasNotSeen e (state S.Store depot.old) (state S.Store depot.new)) }
    ensures survives { Survives (state S.Store depot.old) (state S.Store depot.new) (λ _. ⊥) }
{
    match look {
        Look::Inspect(log) => match depot.inspect(alloc) {
            Ok(overview) => Ok(Seen::Overview { log, overview }),
            Err(refusal) => Err(refusal),
        },
        Look::Scrub => match depot.scrub() {
            Ok(scrubbed) => Ok(Seen::Scrubbed(scrubbed)),
            Err(refusal) => Err(refusal),
        },
    }
}

// Writes what was seen, and the refusal that goes with it, and returns the status.
fn show<O: Sink, E: Sink>(out: &mut O, err: &mut E, seen: &Seen) -> u8
    ensures { IsShown seen.now result (O.output out.old) (E.output err.old) (O.output out.new)
        (E.output err.new) }
{
    match put_printed(out, seen) {
        Ok(()) => tell_damage(err, seen),
        Err(DeviceFailed) => tell(err, &Refusal::Write),
    }
}

// Writes the line of the refusal that goes with what was seen, if there is one, and returns the status.
fn tell_damage<E: Sink>(err: &mut E, seen: &Seen) -> u8
    ensures { MatchOption (refusal_with seen.now)
        ((result ≡ 0) × (E.output err.new ≡ E.output err.old))
        (λ refusal. (result ≡ 1) × HasTold refusal (E.output err.old) (E.output err.new)) }
{
    match seen {
        Seen::Overview { .. } => SUCCESS,
        Seen::Scrubbed(scrubbed) => {
            if scrubbed.damaged == 0 {
                SUCCESS
            } else {
                tell(err, &Refusal::Database)
            }
        }
    }
}

impl Printable for Seen {
    ghost text = { seen_text };

    fn print_on<O: Sink>(&self, page: &mut Page<'_, O>) {
        match self {
            Seen::Overview { log, overview } => print_overview(page, *log, overview),
            Seen::Scrubbed(scrubbed) => print_scrubbed(page, scrubbed),
        }
    }
}
