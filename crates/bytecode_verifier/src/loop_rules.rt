// The rules that look at the loops around an instruction.
ghost use Rattle.std.specs.Prelude.{◌≡◌, ◌<◌, ◌&&◌, ◌||◌, not, length, nat_le, ◌==◌};
ghost use Rattle.bytecode_format.specs.Code.{Code};
ghost use Rattle.bytecode_verifier.specs.Loops.{open_loops, same_loops};
ghost use Rattle.bytecode_verifier.specs.Nests.{AreNests};
ghost use Rattle.bytecode_verifier.specs.Rows;
ghost use Rattle.bytecode_verifier.specs.Rules;

use crate::nest::Nest;
use crate::row::{MAX_LOOPS, Row};
use crate::rules::{is_jump, needs_part};
use bytecode_format::{Instruction, Operation};

/// Whether an EACH or NEXT has no partner or names another place, an EACH is inside as many loops as there can be, or
/// a BREAK closes more loops than are open.
#[inline(always)]
pub fn misses_loop(
    nests: &[Nest],
    place: usize,
    operation: Option<Operation>,
    instruction: &Instruction,
) -> bool
    requires { place < length nests.now }
    ensures { (code : Code) → AreNests code.instructions nests.now
        → result ≡ Rules.misses_loop code place operation instruction.now }
{
    let Instruction { a, c, .. } = *instruction;
    let depth = depth_at(nests, place);
    match operation {
        Some(Operation::Each) => !has_loop(nests, place, c as usize) || MAX_LOOPS <= depth,
        Some(Operation::Next) => !has_loop(nests, c as usize, place),
        Some(Operation::Break) => depth < u32::from(a),
        _ => false,
    }
}

/// Whether the instruction at a place is a jump that isn't forward, or whose target is after the last instruction or
/// has other open loops.
#[inline(always)]
pub fn misses_target(
    nests: &[Nest],
    place: usize,
    row: Option<Row>,
    instruction: &Instruction,
) -> bool
    requires { place < length nests.now }
    ensures { (code : Code) → AreNests code.instructions nests.now
        → result ≡ (Rows.is_jump row
        && (nat_le instruction.now.c place
        || nat_le (length code.instructions) instruction.now.c
        || not (same_loops code place instruction.now.c))) }
{
    let target = instruction.c as usize;
    is_jump(row) && (target <= place || leaves_loops(nests, place, target))
}

/// Whether the operation needs the current part, and there is none.
#[inline(always)]
pub fn misses_part(nests: &[Nest], place: usize, row: Option<Row>) -> bool
    requires { place < length nests.now }
    ensures { (code : Code) → AreNests code.instructions nests.now
        → result ≡ (Rows.needs_part row && (length (open_loops code place) == 0)) }
{
    needs_part(row) && depth_at(nests, place) == 0
}

/// How many loops are open at a place.
pub fn depth_at(nests: &[Nest], place: usize) -> u32
    requires { place < length nests.now }
    ensures { (code : Code) → AreNests code.instructions nests.now
        → result ≡ length (open_loops code place) }
{
    nests[place].depth
}

// Whether the program has the loop.
fn has_loop(nests: &[Nest], each: usize, next: usize) -> bool
    ensures { (code : Code) → AreNests code.instructions nests.now
        → result ≡ Rules.has_loop code each next }
{
    match nests.get(each) {
        Some(nest) => nest.leads(next),
        None => false,
    }
}

// Whether there is no instruction at the target, or the open loops there differ from those at the place.
fn leaves_loops(nests: &[Nest], place: usize, target: usize) -> bool
    requires { place < length nests.now }
    ensures { (code : Code) → AreNests code.instructions nests.now
        → result ≡ (nat_le (length code.instructions) target
        || not (same_loops code place target)) }
{
    match nests.get(target) {
        Some(nest) => nest.inner != nests[place].inner,
        None => true,
    }
}
