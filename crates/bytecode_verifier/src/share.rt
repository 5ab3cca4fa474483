// The share of each instruction in a budget.
//
// What each instruction adds to the budget is found by a pass of its own (`Verified::shares`), so that `verify` keeps
// no list of it. Only `disassemble` asks for it.
ghost use Rattle.std.specs.Prelude.{◌≡◌, ◌+◌, ◌<◌, ℕ, IfOk, OnOk, Some, length, slice_get};
ghost use Rattle.bytecode_verifier.specs.Acceptance.{IsAccepted};
ghost use Rattle.bytecode_verifier.specs.Budget.{share_at};
ghost use Rattle.bytecode_verifier.specs.Nests.{AreNests};
ghost use Rattle.bytecode_verifier.specs.Pass.{IsSmall};
ghost use Rattle.bytecode_verifier.specs.Shape.{shape_at};

use crate::cap::{Cap, ONE_CHARGE};
use crate::loop_rules::depth_at;
use crate::nest::{Nest, nests_of};
use crate::shape::Shape;
use bytecode_format::{Instruction, Operation, Program};
use std::alloc::{AllocError, Global};

/// What an instruction adds to the budget: its cap, which is added to the sums for its number of open loops.
#[derive(Clone, Copy)]
pub struct Share {
    /// How many loops are open at the instruction.
    pub loops: u32,
    /// What the instruction charges at most.
    pub cap: Cap,
}

/// What each instruction of an accepted program adds to the budget, in the order of the instructions.
///
/// # Errors
///
/// `AllocError` if memory is refused.
pub fn shares_of(alloc: Global, program: &Program) -> Result<Vec<Share>, AllocError>
    requires { IsAccepted program.now }
    ensures number { IfOk result
        (λ shares. length shares.items ≡ length program.now.instructions) }
    ensures each { IfOk result (λ shares. (place : ℕ) → place < length program.now.instructions
        → slice_get shares.items place ≡ Some (share_at program.now place)) }
{
    let instructions = program.instructions();
    let nests = nests_of(alloc, instructions)?;
    let mut shape = Shape::new(alloc);
    let mut shares = Vec::with_capacity(alloc, instructions.len())?;
    for (place, instruction) in instructions.iter().enumerate() {
        shares.push(pass_over(&mut shape, program, &nests, place, instruction)?)?;
    }
    Ok(shares)
}

// Takes the shape over the instruction at a place: what that adds to the budget.
fn pass_over(
    shape: &mut Shape,
    program: &Program,
    nests: &[Nest],
    place: usize,
    instruction: &Instruction,
) -> Result<Share, AllocError>
    requires accepted { IsAccepted program.now }
    requires here { slice_get program.now.instructions place ≡ Some instruction.now }
    requires nests { AreNests program.now.instructions nests.now }
    requires before { shape_at program.now place ≡ Some shape.old }
    requires small { IsSmall shape.old }
    ensures share { IfOk result (λ share. share ≡ share_at program.now place) }
    ensures after { OnOk result (shape_at program.now (place + 1) ≡ Some shape.new) }
{
    let operation = Operation::of(instruction.op);
    let passed = shape.advance(program, operation, instruction)?;
    Ok(Share {
        loops: depth_at(nests, place),
        // The shape of an accepted program never fails.
        cap: passed.unwrap_or(ONE_CHARGE),
    })
}
