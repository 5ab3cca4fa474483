// The loops at each place.
//
// The loops of a program are pairs of matched brackets, defined by counting: the partner of an EACH is the first
// place up to which there are as many NEXT as EACH. The verifier finds them with a stack, in a pass from the end and
// one from the start, and keeps 12 bytes for each instruction: what it opens, the innermost loop, and the depth. So
// two places have the same open loops exactly if their innermost loops are the same, which is one comparison. An EACH
// without a NEXT opens no loop, also for what comes after it. This isn't observable: it breaks the rule Loop itself,
// at an earlier place.
ghost use Rattle.std.specs.Prelude.{◌≡◌, ◌≤◌, IfOk, OnOk, length};
ghost use Rattle.octets.specs.Limits.{max_instructions};
ghost use Rattle.bytecode_verifier.specs.Nests.{AreNests, leads, nexts_from, next_over, waiting_over, open_over};

use crate::places::Places;
use bytecode_format::{Instruction, Operation};
use std::alloc::{AllocError, Global};

/// The loops at a place. A loop is identified by the place of its NEXT, which is never 0.
#[derive(Clone, Copy)]
pub struct Nest {
    /// The loop that is opened here, or 0 if none is.
    pub next: u32,
    /// The innermost of the loops that are open here, or 0 if none is.
    pub inner: u32,
    /// How many loops are open here.
    pub depth: u32,
}

impl Nest {
    /// Whether a loop is opened here that ends at the place.
    pub fn leads(self, place: usize) -> bool
        ensures { result ≡ leads self.next place }
    {
        self.next != 0 && self.next as usize == place
    }
}

/// Finds the loops at the place of each instruction.
///
/// A loop that is never closed doesn't count. One pass from the end finds which NEXT closes what, and one from the
/// start which loops are open.
///
/// # Errors
///
/// `AllocError` if memory is refused.
pub fn nests_of(alloc: Global, instructions: &[Instruction]) -> Result<Vec<Nest>, AllocError>
    requires { length instructions.now ≤ max_instructions }
    ensures { IfOk result (λ nests. AreNests instructions.now nests.items) }
{
    let mut nexts = nexts_of(alloc, instructions)?;
    let mut inside = Places::new(alloc);
    let mut nests = Vec::with_capacity(alloc, instructions.len())?;
    for place in 0..instructions.len() {
        let next = nexts.pop();
        nests.push(Nest {
            next,
            inner: inside.first(),
            depth: inside.number() as u32,
        })?;
        pass_on(&mut inside, place as u32, next)?;
    }
    Ok(nests)
}

// The open loops after the place of an instruction that opens the loop `next`, or no loop.
fn pass_on(inside: &mut Places, place: u32, next: u32) -> Result<(), AllocError>
    ensures { OnOk result (inside.new ≡ open_over place next inside.old) }
{
    if next != 0 {
        inside.push(next)?;
    } else if inside.first() == place {
        inside.pop();
    }
    Ok(())
}

// For each place, the first one on top, the loop that is opened there, or 0.
fn nexts_of(alloc: Global, instructions: &[Instruction]) -> Result<Places, AllocError>
    requires { length instructions.now ≤ max_instructions }
    ensures { IfOk result (λ nexts. nexts ≡ nexts_from 0 instructions.now) }
{
    let mut nexts = Places::new(alloc);
    let mut waiting = Places::new(alloc);
    for place in (0..instructions.len()).rev() {
        let operation = Operation::of(instructions[place].op);
        let next = pass_back(&mut waiting, operation, place as u32)?;
        nexts.push(next)?;
    }
    Ok(nexts)
}

// The loop that the instruction at a place opens, or 0, with the NEXTs that wait for their EACH.
fn pass_back(
    waiting: &mut Places,
    operation: Option<Operation>,
    place: u32,
) -> Result<u32, AllocError>
    ensures next { IfOk result (λ next. next ≡ next_over operation waiting.old) }
    ensures left { OnOk result (waiting.new ≡ waiting_over operation place waiting.old) }
{
    match operation {
        Some(Operation::Each) => Ok(waiting.pop()),
        Some(Operation::Next) => {
            waiting.push(place)?;
            Ok(0)
        }
        _ => Ok(0),
    }
}
