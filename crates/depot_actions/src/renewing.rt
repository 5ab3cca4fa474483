// How stored programs get the latest version.
//
// `migrate` checks every stored program, also one that has the latest version, and changes nothing if one is no longer
// an accepted program. So after it each stored filter is known to run.
ghost use Rattle.std.specs.Prelude.{◌≡◌, ◌⊎◌, ◌++◌, [], IfErr, IfOk, OnOk, Some, map, option_map};
ghost use Rattle.bytecode_format.specs.Code.{Code};
ghost use Rattle.part_store.specs.Standing.{pair_of};
ghost use Rattle.refusals.specs.declared.refusal.Refusal.TheVariants.{Memory, Database};
ghost use Rattle.sieve_engine.specs.Execution.{IsChecked, Spells};
ghost use Rattle.sqlite_rules.specs.Lists.{Has};
ghost use Rattle.depot_actions.specs.Causes.{IsSpoilt};
ghost use Rattle.depot_actions.specs.Private.{IsUnusable};
ghost use Rattle.depot_actions.specs.Renewing.{AreRenewals, renewal, renewed_octets, with_renewal};

use crate::checking::check_stored;
use bytecode_format::{FormatError, Program};
use refusals::Refusal;
use std::alloc::Global;

/// The version that programs get.
const LATEST_VERSION: u8 = bytecode_format::VERSION_TWO;

/// The users whose programs have another version, with these programs in the latest version.
///
/// # Errors
///
/// - `Database` if one of the programs, whatever its version, no longer reads and verifies.
/// - `Memory` if memory is refused.
pub(crate) fn renewed_programs(
    alloc: Global,
    stored: &[(String, Vec<u8>)],
) -> Result<Vec<(String, Vec<u8>)>, Refusal>
    ensures renewed { IfOk result
        (λ renewed. AreRenewals (map pair_of stored.now) (map pair_of renewed.items)) }
    ensures refused { IfErr result (λ e. (e ≡ Memory) ⊎ (e ≡ Database)) }
    ensures cause { IfErr result
        (λ e. e ≡ Database → (pair : _) × Has (map pair_of stored.now) pair
        × IsSpoilt (Some pair.1)) }
{
    let mut renewed = Vec::new(alloc);
    for (user, program) in stored {
        push_renewed(alloc, user, program, &mut renewed)?;
    }
    Ok(renewed)
}

// Adds a user's program in the latest version, if it has another version.
fn push_renewed(
    alloc: Global,
    user: &str,
    program: &[u8],
    renewed: &mut Vec<(String, Vec<u8>)>,
) -> Result<(), Refusal>
    ensures renewed { OnOk result
        ((code : Code) × IsChecked program.now code
        × (map pair_of renewed.new.items ≡ map pair_of renewed.old.items
        ++ with_renewal (renewal code) (user.now, program.now) [])) }
    ensures refused { IfErr result (IsUnusable (Some program.now)) }
{
    if let Some(octets) = renewed_program(alloc, program)? {
        renewed.push((String::from_str(alloc, user)?, octets))?;
    }
    Ok(())
}

// The program in the latest version, if it has another version.
fn renewed_program(alloc: Global, program: &[u8]) -> Result<Option<Vec<u8>>, Refusal>
    ensures renewed { IfOk result
        (λ renewed. (code : Code) × IsChecked program.now code
        × (option_map (λ v. v.items) renewed ≡ renewal code)) }
    ensures refused { IfErr result (IsUnusable (Some program.now)) }
{
    let verified = check_stored(alloc, program)?;
    if verified.program().version() == LATEST_VERSION {
        return Ok(None);
    }
    Ok(Some(in_latest_version(alloc, program)?))
}

// The bytes of a program in the latest version.
fn in_latest_version(alloc: Global, program: &[u8]) -> Result<Vec<u8>, Refusal>
    ensures renewed { IfOk result
        (λ octets. (code : Code) × Spells program.now code × (octets.items ≡ renewed_octets code)) }
    ensures refused { IfErr result (IsUnusable (Some program.now)) }
{
    match Program::read(alloc, program) {
        Ok(program) => Ok(program.in_version_two().write(alloc)?),
        Err(FormatError::Memory) => Err(Refusal::Memory),
        Err(FormatError::Spelling) => Err(Refusal::Database),
    }
}
