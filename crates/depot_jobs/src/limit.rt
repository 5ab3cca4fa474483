// How much a program can charge and file.
ghost use Rattle.std.specs.Prelude.{◌≡◌, ◌<◌, ◌≤◌, IfErr, IfOk, IsErrAnd, Some, length, string_bytes};
ghost use Rattle.octets.specs.Limits.{max_message, max_parts, max_program};
ghost use Rattle.bytecode_format.specs.Code.{Code};
ghost use Rattle.sieve_engine.specs.Execution.{IsChecked, IsProgramRefusal};
ghost use Rattle.refusals.specs.declared.refusal.Refusal.TheVariants.{Spelling};
ghost use Rattle.depot_jobs.specs.Limit.{limit_at, limit_text, limits_text};

use bytecode_verifier::Verified;
use mime_tree::{MAX_MESSAGE, MAX_PARTS};
use refusals::Refusal;
use sieve_engine::check_program;
use std::alloc::{AllocError, Global};
use std::fmt::{self, Display};

/// The lines that say how much an accepted program can charge at most, and how many entries and bytes a delivery to it
/// can file at most, for messages with at most `octets` bytes and `parts` parts.
///
/// # Errors
///
/// - What `sieve_engine::check_program` refuses the program for.
/// - `Memory` if memory is refused.
pub(crate) fn limit_lines(
    alloc: Global,
    program: &[u8],
    octets: u32,
    parts: u32,
) -> Result<String, Refusal>
    ensures accepted { IfOk result (λ text. (code : Code) × IsChecked program.now code
        × (string_bytes text ≡ limit_text code octets parts)) }
    ensures refused { IfErr result (λ refusal. IsProgramRefusal program.now refusal) }
    ensures large { max_program < length program.now → IsErrAnd result (λ e. e ≡ Spelling) }
{
    let verified = check_program(alloc, program)?;
    let octets = u64::from(octets).min(MAX_MESSAGE as u64);
    let parts = u64::from(parts).min(MAX_PARTS as u64);
    let text = limits_at(alloc, &verified, octets, parts)?;
    Ok(text)
}

// The lines of an accepted program for messages with so many bytes and parts.
fn limits_at(
    alloc: Global,
    program: &Verified,
    octets: u64,
    parts: u64,
) -> Result<String, AllocError>
    requires octets { octets ≤ max_message }
    requires parts { parts ≤ max_parts }
    ensures { IfOk result (λ text. string_bytes text ≡ limit_at program.now octets parts) }
{
    let limits = Limits {
        charge: program.budget().at(octets, parts),
        entries: program.entries(alloc, parts)?,
        octets: program.octets(alloc, octets, parts)?,
    };
    format!(in alloc; "{limits}")
}

// The three limits that are printed.
#[derive(Drop)]
struct Limits {
    charge: u128,
    entries: u128,
    octets: u128,
}

impl Display for Limits {
    ghost output = { λ l. Some (limits_text l.charge l.entries l.octets) };

    #[tactic(auto, unfolding(crate::specs::Limit::limits_text))]
    fn fmt<W: fmt::Write>(&self, f: &mut fmt::Formatter<W>) -> fmt::Result {
        let Limits {
            charge,
            entries,
            octets,
        } = self;
        write!(f, "charge {charge}\nentries {entries}\noctets {octets}")
    }
}
