// Running bytecode that anyone can submit.
ghost use Rattle.std.specs.Prelude.{◌≡◌, ◌<◌, length, IfOk, IfErr, IsErrAnd};
ghost use Rattle.octets.specs.Limits.{max_program};
ghost use Rattle.bytecode_verifier.specs.Acceptance.{IsAccepted};
ghost use Rattle.sieve_engine.specs.Execution.{IsChecked, IsProgramRefusal, IsExecution, IsRefusal, IsReport, IsUnread};

use bytecode_format::Program;
use bytecode_verifier::{Verified, verify};
use mime_decode::Message;
use refusals::Refusal;
use sieve_vm::{Outcome, run};
use std::alloc::Global;

/// The result of running a program on a message, and the most that the run could have charged. [`execute`] and
/// [`crate::evaluate`] return it; `depot run` and `depot eval` print it.
#[derive(Drop)]
pub struct Report {
    /// The final actions in order, and what the run charged.
    pub outcome: Outcome,
    /// The program's budget for the message's size and number of parts: the charge is at most this.
    pub limit: u128,
}

/// Reads and verifies the bytes of a program, and returns the program if it is accepted.
///
/// # Errors
///
/// - `Spelling` if the bytes aren't the spelling of a program; for more than 4,194,304 bytes it comes whatever memory
///   there is.
/// - `Index`, `Form`, `End`, `Loop`, `Jump`, `NoPart` or `Stack` at the instruction for which the verifier refuses the
///   program.
/// - `Memory` if memory is refused; never for more than 4,194,304 bytes.
pub fn check_program(alloc: Global, program: &[u8]) -> Result<Verified, Refusal>
    ensures checked { IfOk result (λ verified. IsChecked program.now verified) }
    ensures refused { IfErr result (λ e. IsProgramRefusal program.now e) }
    ensures large { max_program < length program.now → IsErrAnd result (λ e. e ≡ Refusal.Spelling) }
{
    let program = Program::read(alloc, program)?;
    match verify(alloc, program) {
        Ok(verified) => Ok(verified),
        Err((_program, refusal)) => Err(Refusal::from(refusal)),
    }
}

/// Runs a program on a message, both given as bytes, and returns the outcome of the run, which is the only one that the
/// definitions allow, with the limit that it stays within.
///
/// For example, the program of `examples/keep.svbc` on the message of `examples/newsletter.eml` results in one action,
/// keep, and a charge of 2 with the limit 2.
///
/// # Errors
///
/// Those of [`check_program`]; for an accepted program those of the message:
///
/// - `MessageTooLarge` if it is longer than 67,108,864 bytes.
/// - `TooManyParts` if it has more than 4,096 parts.
/// - `Memory` if memory is refused.
pub fn execute(alloc: Global, program: &[u8], message: &[u8]) -> Result<Report, Refusal>
    ensures executed { IfOk result
        (λ report. IsExecution program.now message.now report.outcome.actions.items
        report.outcome.charged report.limit) }
    ensures refused { IfErr result (λ e. IsRefusal program.now message.now e) }
    ensures large { max_program < length program.now → IsErrAnd result (λ e. e ≡ Refusal.Spelling) }
{
    let verified = check_program(alloc, program)?;
    run_on(alloc, &verified, message)
}

/// Runs an accepted program on a message, given as bytes.
///
/// # Requires
///
/// The program is accepted, as every program that [`check_program`] returns.
///
/// # Errors
///
/// - `MessageTooLarge` if the message is longer than 67,108,864 bytes.
/// - `TooManyParts` if it has more than 4,096 parts.
/// - `Memory` if memory is refused.
pub(crate) fn run_on(alloc: Global, verified: &Verified, message: &[u8]) -> Result<Report, Refusal>
    requires { IsAccepted verified.now }
    ensures reported { IfOk result
        (λ report. IsReport verified.now message.now report.outcome.actions.items
        report.outcome.charged report.limit) }
    ensures refused { IfErr result (λ e. IsUnread message.now e) }
{
    let message = Message::read(alloc, message)?;
    let outcome = run(alloc, verified, &message)?;
    let limit = verified
        .budget()
        .at(message.size() as u64, message.parts() as u64);
    Ok(Report { outcome, limit })
}
