// A whole run.
ghost use Rattle.std.specs.Prelude.{IfOk};
ghost use Rattle.sieve_vm.specs.Ending.{IsOutcome};

use crate::loops::Loops;
use crate::machine::{Machine, Turn};
use crate::workspace::Workspace;
use bytecode_format::{Action, ActionList};
use bytecode_verifier::Verified;
use mime_decode::Message;
use std::alloc::{AllocError, Global};

/// The result of a run: what a delivery has to do, and what the run cost.
#[derive(Drop)]
pub struct Outcome {
    /// The final actions, in order.
    pub actions: Vec<Action>,
    /// How many charges the run took.
    pub charged: u128,
}

/// Runs an accepted program on a message, up to its end, and returns its final actions and its cost.
///
/// The definitions give one run, and the outcome is that of this run. It takes at most as many steps, and charges at
/// most as much, as the program's budget for the message.
///
/// For example, the program `DISCARD HALT` has no actions and charges 2, which is all of its budget.
///
/// # Errors
///
/// `AllocError` if memory is refused.
pub fn run(alloc: Global, verified: &Verified, message: &Message<'_>) -> Result<Outcome, AllocError>
    ensures { IfOk result (λ outcome. IsOutcome verified.now message.now outcome.actions.items
        outcome.charged) }
{
    let program = verified.program();
    // The contract of the call gives what holds for every message.
    let _size = message.size();
    let mut machine = Machine {
        work: Workspace::new(alloc),
        loops: Loops::new(alloc, message),
        actions: ActionList::new(alloc),
        implicit_keep: true,
    };
    machine.begin(program)?;
    let mut turn = Turn::start();
    'steps: while turn.goes_on {
        turn = machine.advance(alloc, program, message, turn.position)?;
    }
    Ok(Outcome {
        actions: machine.actions.into_final(machine.implicit_keep)?,
        charged: turn.position.charged,
    })
}
