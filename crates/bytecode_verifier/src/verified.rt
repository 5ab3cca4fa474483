// Programs that are accepted.
ghost use Rattle.std.specs.Prelude.{◌≡◌, ◌≢◌, ◌<◌, ◌≤◌, ℕ, length, slice_get, IfOk, IfErr, Some, None};
ghost use Rattle.bytecode_verifier.specs.Acceptance.{IsAccepted, refusal_of};
ghost use Rattle.bytecode_verifier.specs.Budget.{budget_of, share_at};
ghost use Rattle.octets.specs.Limits.{max_parts};
ghost use Rattle.bytecode_verifier.specs.Counting.{entries_at, octets_at};
ghost use Rattle.bytecode_verifier.specs.Pass.{HasPassed};
ghost use Rattle.bytecode_verifier.specs.Places.{least_place};
ghost use Rattle.bytecode_verifier.specs.Rules.{breaks_end};
ghost use Rattle.bytecode_verifier.specs.declared.error.Refusal.TheVariants.{Memory};

use crate::counting::{entries_of, octets_of};
use crate::error::Refusal;
use crate::nest::nests_of;
use crate::pass::{Here, Pass};
use crate::rules::is_halt;
use crate::share::{Share, shares_of};
use crate::targets::targets_of;
use bytecode_cost::Budget;
use bytecode_format::{Operation, Program};
use std::alloc::{AllocError, Global};
use std::marker::Model;

/// A program that is accepted, with its budget. Only [`verify`] makes one, and only such a program can be run.
///
/// A contract sees its code.
#[derive(Drop)]
pub struct Verified {
    program: Program,
    budget: Budget,
}

impl Model for Verified {
    ghost use Rattle.bytecode_format.specs.Code.{Code};
    ghost use Rattle.bytecode_verifier.specs.Acceptance.{IsAccepted};
    ghost use Rattle.bytecode_verifier.specs.Budget.{budget_of};
    ghost use Rattle.std.specs.Prelude.{◌≡◌};

    ghost Value = { Code };

    ghost view = { λ v. v.program };

    ghost invariant = { λ v. IsAccepted v.program × (v.budget ≡ budget_of v.program) };
}

impl Verified {
    /// Returns what a run of the program can charge at most, as sums; [`Budget::at`] gives the number for a message.
    pub fn budget(&self) -> &Budget
        ensures { result.now ≡ budget_of self.now }
    {
        &self.budget
    }

    /// Returns what each instruction adds to the budget, in the order of the instructions. The sums of the budget are
    /// the sums of these. It takes time linear in the number of instructions.
    ///
    /// # Errors
    ///
    /// `AllocError` if memory is refused.
    pub fn shares(&self, alloc: Global) -> Result<Vec<Share>, AllocError>
        ensures number { IfOk result
            (λ shares. length shares.items ≡ length self.now.instructions) }
        ensures each { IfOk result (λ shares. (place : ℕ) → place < length self.now.instructions
            → slice_get shares.items place ≡ Some (share_at self.now place)) }
    {
        shares_of(alloc, &self.program)
    }

    /// Returns how many entries a delivery of a message of so many parts files at most: one for each time that KEEP,
    /// FILE or STORE can run, and one for the implicit keep. It takes time linear in the number of instructions.
    ///
    /// # Requires
    ///
    /// The message is within the limits: `parts <= 4096`.
    ///
    /// # Errors
    ///
    /// `AllocError` if memory is refused.
    pub fn entries(&self, alloc: Global, parts: u64) -> Result<u128, AllocError>
        requires { parts ≤ max_parts }
        ensures { IfOk result (λ entries. entries ≡ entries_at self.now parts) }
    {
        entries_of(alloc, &self.program, parts)
    }

    /// Returns how many bytes the contents that a delivery files have together at most, each content counted once,
    /// for a message of so many bytes (`octets`) and parts. It takes time linear in the number of instructions.
    ///
    /// # Requires
    ///
    /// The message is within the limits: `parts <= 4096`.
    ///
    /// # Errors
    ///
    /// `AllocError` if memory is refused.
    pub fn octets(&self, alloc: Global, octets: u64, parts: u64) -> Result<u128, AllocError>
        requires { parts ≤ max_parts }
        ensures { IfOk result (λ filed. filed ≡ octets_at self.now octets parts) }
    {
        octets_of(alloc, &self.program, octets, parts)
    }

    /// Returns the program that is accepted.
    pub fn program(&self) -> &Program
        ensures value { result.now ≡ self.now }
        ensures accepted { IsAccepted self.now }
    {
        &self.program
    }
}

/// Checks a program against the rules of the bytecode, and returns it as one that can be run.
///
/// It takes time linear in the number of instructions, wherever the jumps lead and however the loops are nested.
///
/// # Errors
///
/// The same program, with the first rule in the order of [`Refusal`] that it breaks, and the least place where it
/// breaks it, counted in instructions from 0. For example, a program whose only instruction is KEEP is refused with
/// `End` at place 0.
///
/// The rule is `Refusal::Memory` if memory is refused.
pub fn verify(alloc: Global, program: Program) -> Result<Verified, (Program, Refusal)>
    ensures value { IfOk result (λ verified. verified ≡ program) }
    ensures accepted { IfOk result (λ _. IsAccepted program) }
    ensures same { IfErr result (λ e. e.0 ≡ program) }
    ensures refused { IfErr result (λ e. e.1 ≢ Memory → refusal_of program ≡ Some e.1) }
    ensures only { IfErr result (λ e. IsAccepted program → e.1 ≡ Memory) }
{
    match examine(alloc, &program) {
        Ok(budget) => Ok(Verified { program, budget }),
        Err(refusal) => Err((program, refusal)),
    }
}

// The budget of a program that is accepted, or the first rule that it breaks.
fn examine(alloc: Global, program: &Program) -> Result<Budget, Refusal>
    ensures accepted { IfOk result (λ _. IsAccepted program.now) }
    ensures budget { IfOk result (λ budget. budget ≡ budget_of program.now) }
    ensures refused { IfErr result (λ e. e ≢ Memory → refusal_of program.now ≡ Some e) }
{
    let instructions = program.instructions();
    let targets = targets_of(alloc, program.version(), instructions)?;
    let nests = nests_of(alloc, instructions)?;
    let mut pass = Pass::new(alloc, program);
    for (place, instruction) in instructions.iter().enumerate() {
        pass.take(&Here {
            program,
            nests: &nests,
            place,
            instruction,
            targeted: targets[place],
        })?;
    }
    outcome(program, pass)
}

// The budget, or the first rule that is broken, after all instructions.
fn outcome(program: &Program, pass: Pass) -> Result<Budget, Refusal>
    requires { HasPassed program.now (length program.now.instructions) pass }
    ensures accepted { IfOk result (λ _. IsAccepted program.now) }
    ensures budget { IfOk result (λ budget. budget ≡ budget_of program.now) }
    ensures refused { IfErr result (λ e. refusal_of program.now ≡ Some e) }
{
    let Pass {
        index,
        form,
        brackets,
        jump,
        part,
        stack,
        budget,
        ..
    } = pass;
    if let Some(place) = index {
        return Err(Refusal::Index { place });
    }
    if let Some(place) = form {
        return Err(Refusal::Form { place });
    }
    if let Some(place) = missing_end(program) {
        return Err(Refusal::End { place });
    }
    if let Some(place) = brackets {
        return Err(Refusal::Loop { place });
    }
    if let Some(place) = jump {
        return Err(Refusal::Jump { place });
    }
    if let Some(place) = part {
        return Err(Refusal::NoPart { place });
    }
    if let Some(place) = stack {
        return Err(Refusal::Stack { place });
    }
    Ok(budget)
}

// The place of the last instruction if it isn't HALT, 0 if there are no instructions.
fn missing_end(program: &Program) -> Option<usize>
    ensures { result ≡ least_place (breaks_end program.now) program.now }
{
    match program.instructions() {
        [] => Some(0),
        [before @ .., last] => (!is_halt(Operation::of(last.op))).then_some(before.len()),
    }
}
