// How much a delivery files at most.
ghost use Rattle.std.specs.Prelude.{◌≡◌, ◌<◌, ◌≤◌, ◌^◌, IfOk, if◌then◌else◌, length};
ghost use Rattle.octets.specs.Limits.{max_parts};
ghost use Rattle.bytecode_format.specs.Spelling.{IsProgram};
ghost use Rattle.bytecode_verifier.specs.Counting.{counts, entries_at, octets_at, times_at};
ghost use Rattle.bytecode_verifier.specs.Pass.{numbers_below};

use crate::cap::Cap;
use crate::loop_rules::depth_at;
use crate::nest::nests_of;
use crate::pass::charge;
use bytecode_cost::Budget;
use bytecode_format::{Operation, Program};
use std::alloc::{AllocError, Global};

/// Which instructions are counted.
#[derive(Clone, Copy)]
pub enum Counted {
    /// Those that list an action.
    Actions,
    /// Those that list an action that stores a part.
    Stores,
}

/// The greatest depth of a part, where the message itself has depth 1.
const MAX_DEPTH: u128 = 32;

/// How many entries a delivery of a message of so many parts files at most.
///
/// # Errors
///
/// `AllocError` if memory is refused.
pub fn entries_of(alloc: Global, program: &Program, parts: u64) -> Result<u128, AllocError>
    requires { parts ≤ max_parts }
    ensures { IfOk result (λ entries. entries ≡ entries_at program.now parts) }
{
    Ok(times_of(alloc, program, Counted::Actions, parts)? + 1)
}

/// How many bytes the contents that it files have together at most, each content counted once.
///
/// # Errors
///
/// `AllocError` if memory is refused.
pub fn octets_of(
    alloc: Global,
    program: &Program,
    octets: u64,
    parts: u64,
) -> Result<u128, AllocError>
    requires { parts ≤ max_parts }
    ensures { IfOk result (λ filed. filed ≡ octets_at program.now octets parts) }
{
    let stores = times_of(alloc, program, Counted::Stores, parts)?;
    Ok((1 + stores.min(MAX_DEPTH)) * octets as u128)
}

// How often the counted instructions run at most.
fn times_of(
    alloc: Global,
    program: &Program,
    counted: Counted,
    parts: u64,
) -> Result<u128, AllocError>
    requires { parts ≤ max_parts }
    ensures times { IfOk result (λ times. times ≡ times_at counted program.now parts) }
    ensures small { IfOk result (λ times. times < 2 ^ 64) }
{
    Ok(numbers_of(alloc, program, counted)?.at(0, parts))
}

// How many of the counted instructions there are inside none, one, two and three open loops.
fn numbers_of(alloc: Global, program: &Program, counted: Counted) -> Result<Budget, AllocError>
    ensures numbers { IfOk result (λ numbers. numbers
        ≡ numbers_below counted program.now (length program.now.instructions)) }
    ensures program { IsProgram program.now }
{
    let instructions = program.instructions();
    let nests = nests_of(alloc, instructions)?;
    let mut numbers = Budget::new(program.version());
    for (place, instruction) in instructions.iter().enumerate() {
        let fixed = number_for(counted, Operation::of(instruction.op));
        charge(
            &mut numbers,
            depth_at(&nests, place),
            Cap { fixed, scaled: 0 },
        );
    }
    Ok(numbers)
}

// 1 for an operation that is counted, otherwise 0.
fn number_for(counted: Counted, operation: Option<Operation>) -> u64
    ensures { result ≡ (if counts counted operation then 1 else 0) }
{
    if counts(counted, operation) { 1 } else { 0 }
}

// Whether an operation is counted.
fn counts(counted: Counted, operation: Option<Operation>) -> bool
    ensures { result ≡ counts counted operation }
{
    match operation {
        Some(Operation::Keep | Operation::File) => matches!(counted, Counted::Actions),
        Some(Operation::Store) => true,
        _ => false,
    }
}
