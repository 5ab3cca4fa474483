// The targets of jumps.
//
// Every jump's field is a target, also that of a refused jump. This isn't observable, because Jump comes before
// Stack.
ghost use Rattle.std.specs.Prelude.{◌≡◌, ℕ, ◌<◌, length, Some, IfOk, slice_get, slice_set, true};
ghost use Rattle.bytecode_verifier.specs.Shape.{is_target};

use crate::rules::jumps;
use bytecode_format::Instruction;
use std::alloc::{AllocError, Global};

/// For each place of an instruction, whether a jump leads there.
///
/// # Errors
///
/// `AllocError` if memory is refused.
pub fn targets_of(
    alloc: Global,
    version: u8,
    instructions: &[Instruction],
) -> Result<Vec<bool>, AllocError>
    ensures number { IfOk result (λ targets. length targets.items ≡ length instructions.now) }
    ensures each { IfOk result (λ targets. (place : ℕ) → place < length instructions.now
        → slice_get targets.items place ≡ Some (is_target version instructions.now place)) }
{
    let mut targets = vec![in alloc; false; instructions.len()]?;
    for instruction in instructions {
        if jumps(instruction.op) {
            mark(&mut targets, instruction.c as usize);
        }
    }
    Ok(targets)
}

// Marks a place, if it is there.
fn mark(targets: &mut [bool], place: usize)
    ensures { targets.new ≡ slice_set targets.old place true }
{
    if place < targets.len() {
        targets[place] = true;
    }
}
