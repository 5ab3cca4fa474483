// Scripts and programs that are to be stored, and programs that are stored.
ghost use Rattle.std.specs.Prelude.{IfErr, IfOk, OnOk, Some};
ghost use Rattle.bytecode_format.specs.Code.{Code};
ghost use Rattle.depot_actions.specs.Private.{IsUnusable};
ghost use Rattle.sieve_engine.specs.Execution.{IsChecked, IsProgramRefusal};

use bytecode_verifier::Verified;
use refusals::Refusal;
use sieve_engine::check_program;
use std::alloc::Global;

/// Checks that bytes spell an accepted program.
///
/// # Errors
///
/// - What [`sieve_engine::check_program`] refuses the program for.
/// - `Memory` if memory is refused.
pub(crate) fn check_code(alloc: Global, program: &[u8]) -> Result<(), Refusal>
    ensures checked { OnOk result ((code : Code) × IsChecked program.now code) }
    ensures refused { IfErr result (λ e. IsProgramRefusal program.now e) }
{
    let _verified = check_program(alloc, program)?;
    Ok(())
}

/// Reads and verifies a stored program.
///
/// # Errors
///
/// - `Database` if it no longer reads and verifies.
/// - `Memory` if memory is refused.
pub(crate) fn check_stored(alloc: Global, program: &[u8]) -> Result<Verified, Refusal>
    ensures checked { IfOk result (λ verified. IsChecked program.now verified) }
    ensures refused { IfErr result (IsUnusable (Some program.now)) }
{
    match check_program(alloc, program) {
        Ok(verified) => Ok(verified),
        Err(Refusal::Memory) => Err(Refusal::Memory),
        Err(_refusal) => Err(Refusal::Database),
    }
}
