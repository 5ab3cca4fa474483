// The answer to what a line asks for.
ghost use Rattle.std.specs.Prelude.{◌≡◌, IfErr, IfOk, OnOk};
ghost use Rattle.sqlite.specs.Held.{state};
ghost use Rattle.sqlite.specs.State.{Survives};
ghost use Rattle.depot_jobs.specs.Host.{with_faults};
ghost use Rattle.depot_actions.specs.Applying.{MayAdd};
ghost use Rattle.depot_cli.specs.Requests.{on_depot};
ghost use Rattle.depot_batch.specs.Answers.{Says};
ghost use Rattle.depot_batch.specs.Batch.{Did};
ghost use Rattle.depot_batch.specs.Said.{Said};
ghost use Rattle.depot_batch.specs.declared.report.Report.TheVariants.{Done};
ghost use Rattle.depot_batch.specs.Effects.{HasExported, HasNotExported, HasNotReplied, HasReplied, IsDone, IsRefused, MayMake};

use crate::asked::{Asked, Export};
use depot_actions::Depot;
use depot_cli::{Reply, WithReply, reply_to};
use depot_jobs::{Host, MadeFrom, Request, read_file_of};
use devices::{DeviceFailed, Sink};
use refusals::Refusal;
use sqlite::Alter;
use std::alloc::Global;

/// The answer to a line whose command was done. [`answer_to`] makes it.
#[derive(Drop)]
pub enum Answer {
    /// The reply of the depot.
    Replied(Reply),
    /// The entry with this number was exported.
    Exported(u32),
}

/// Does what is asked for: reads the request's file, has the depot do its task, and returns the reply; or makes the
/// file of an export, whole or not at all. `name` is the name of the depot's file: an export doesn't overwrite that, or
/// a file that the depot has next to it.
///
/// # Errors
///
/// The depot is as it was.
///
/// - `Read` if the request's file can't be read, `MessageTooLarge` if it is longer than 67,108,864 bytes.
/// - The depot's refusal of the command, as [`Depot`]'s call lists it.
/// - `Write` if the file of an export can't be made or written.
/// - `Memory` if memory is refused.
pub fn answer_to<S: Alter, H: Host>(
    alloc: Global,
    name: &str,
    asked: Asked<'_>,
    depot: &mut Depot<S>,
    host: &mut H,
) -> Result<Answer, Refusal>
    ensures done { IfOk result (λ answer. (said : Said) × Says (Done answer) said
        × IsDone (Did S.Store depot.old depot.new) name.now asked.entry
        said (H.state host.old) (H.state host.new)) }
    ensures refused { IfErr result (λ e. IsRefused (Did S.Store depot.old depot.new) name.now
        asked.entry e (H.state host.old) (H.state host.new)) }
    ensures survives { Survives (state S.Store depot.old) (state S.Store depot.new)
        (MayMake (λ command. MayAdd command (state S.Store depot.old)) asked.entry
        (H.state host.old) (H.state host.new)) }
{
    match asked {
        Asked::Reply(command) => match reply(alloc, command, depot, host) {
            Ok(reply) => Ok(Answer::Replied(reply)),
            Err(refusal) => Err(refusal),
        },
        Asked::Export(wanted) => {
            let number = wanted.number;
            match export(alloc, name, wanted, depot, host) {
                Ok(()) => Ok(Answer::Exported(number)),
                Err(refusal) => Err(refusal),
            }
        }
    }
}

// Reads the file of a command, and has the depot do it.
fn reply<S: Alter, H: Host>(
    alloc: Global,
    command: WithReply<'_, &str>,
    depot: &mut Depot<S>,
    host: &mut H,
) -> Result<Reply, Refusal>
    ensures done { IfOk result (λ reply. (said : Said) × Says (Done (Answer.Replied reply)) said
        × HasReplied (Did S.Store depot.old depot.new) (on_depot command.entry)
        said (H.state host.old) (H.state host.new)) }
    ensures refused { IfErr result (λ e. HasNotReplied (Did S.Store depot.old depot.new)
        (on_depot command.entry) e (H.state host.old) (H.state host.new)) }
    ensures survives { Survives (state S.Store depot.old) (state S.Store depot.new)
        (MayMake (λ command. MayAdd command (state S.Store depot.old))
        (Asked.Reply command.entry) (H.state host.old) (H.state host.new)) }
{
    match command {
        WithReply::FromFile(deposit, user, file) => {
            let request = Request::FromFile(deposit, user, file);
            let octets = read_file_of(alloc, request, host)?;
            reply_to(
                alloc,
                WithReply::FromFile(deposit, user, octets.as_slice()),
                depot,
            )
        }
        WithReply::OnUser(access, user) => reply_to(alloc, WithReply::OnUser(access, user), depot),
        WithReply::Migrate => reply_to(alloc, WithReply::Migrate, depot),
    }
}

// Makes the text of an entry a file, whole or not at all.
fn export<S: Alter, H: Host>(
    alloc: Global,
    name: &str,
    wanted: Export<'_>,
    depot: &mut Depot<S>,
    host: &mut H,
) -> Result<(), Refusal>
    ensures done { OnOk result (HasExported (Did S.Store depot.old depot.new) name.now wanted.entry
        (H.state host.old) (H.state host.new)) }
    ensures refused { IfErr result (λ e. HasNotExported (Did S.Store depot.old depot.new) name.now
        wanted.entry e (H.state host.old) (H.state host.new)) }
    ensures survives { Survives (state S.Store depot.old) (state S.Store depot.new) (λ _. ⊥) }
{
    let mut file = host.create(alloc, wanted.file, MadeFrom::Depot(name))?;
    match depot.export(
        alloc,
        wanted.user,
        wanted.number,
        wanted.encoding,
        &mut file,
    ) {
        Ok(()) => match host.persist(file) {
            Ok(()) => Ok(()),
            Err(DeviceFailed) => Err(Refusal::Write),
        },
        Err(refusal) => Err(give_up(host, file, refusal)),
    }
}

// Removes the file of an export that was refused, and returns the refusal.
fn give_up<H: Host>(host: &mut H, file: H::Writer, refusal: Refusal) -> Refusal
    ensures gone { H.state host.new ≡ with_faults (H.Writer.output file).faults
        (H.state host.old) }
    ensures same { result ≡ refusal }
{
    host.discard(file);
    refusal
}
