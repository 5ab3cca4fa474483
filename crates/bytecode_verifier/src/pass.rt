// One pass over the instructions.
ghost use Rattle.std.specs.Prelude.{◌≡◌, ◌+◌, ◌^◌, ◌<◌, ◌≤◌, Some, None, IfOk, OnOk, slice_get, slice_index};
ghost use Rattle.std.specs.Bool.{then_some};
ghost use Rattle.std.specs.Option.{option_or, option_and_then};
ghost use Rattle.octets.specs.Limits.{max_instructions, max_loops};
ghost use Rattle.bytecode_verifier.specs.Shape.{shape_after, is_target};
ghost use Rattle.bytecode_verifier.specs.Budget.{cap_of};
ghost use Rattle.bytecode_verifier.specs.Nests.{AreNests};
ghost use Rattle.bytecode_verifier.specs.Noting.{Notes};
ghost use Rattle.bytecode_format.specs.Operations.{operation_of};
ghost use Rattle.bytecode_format.specs.declared.operation.Operation.TheVariants.{Test};
ghost use Rattle.bytecode_verifier.specs.Pass.{HasPassed, IsSmall, Passes, unless_failed, with_charge};

use crate::cap::{Cap, ONE_CHARGE};
use crate::loop_rules::{depth_at, misses_loop, misses_part, misses_target};
use crate::nest::Nest;
use crate::row::MAX_LOOPS;
use crate::rules::{is_well_formed, misses_index, row_named};
use crate::shape::Shape;
use bytecode_cost::Budget;
use bytecode_format::{Instruction, Operation, Program, TestOperation};
use std::alloc::{AllocError, Global};

/// The state of the pass after some instructions: for each rule the first place at which it is broken, the shape as
/// far as it goes, and the budget.
///
/// [`Pass::new`] makes it, [`Pass::take`] takes the next instruction, and `verify` reads the outcome at the end.
#[derive(Drop)]
pub struct Pass {
    pub index: Option<usize>,
    pub form: Option<usize>,
    pub brackets: Option<usize>,
    pub jump: Option<usize>,
    pub part: Option<usize>,
    pub stack: Option<usize>,
    pub shape: Shape,
    pub budget: Budget,
}

/// An instruction, its place, and what the earlier passes found there.
#[derive(Clone, Copy)]
pub struct Here<'p> {
    pub program: &'p Program,
    pub nests: &'p [Nest],
    pub place: usize,
    pub instruction: &'p Instruction,
    /// Whether a jump leads here.
    pub targeted: bool,
}

/// Which rules are broken at a place.
#[derive(Clone, Copy)]
pub struct Broken {
    pub index: bool,
    pub form: bool,
    pub brackets: bool,
    pub jump: bool,
    pub part: bool,
    pub stack: bool,
}

impl Broken {
    ghost use Rattle.std.specs.Prelude.{◌≡◌};
    ghost use Rattle.bytecode_verifier.specs.Noting.{are_some};

    /// Whether at least one rule is broken.
    #[inline(always)]
    pub fn are_some(self) -> bool
        ensures { result ≡ are_some self }
    {
        self.index || self.form || self.brackets || self.jump || self.part || self.stack
    }
}

impl Pass {
    /// The state before the first instruction of a program.
    pub fn new(alloc: Global, program: &Program) -> Pass
        ensures { HasPassed program.now 0 result }
    {
        Pass {
            index: None,
            form: None,
            brackets: None,
            jump: None,
            part: None,
            stack: None,
            shape: Shape::new(alloc),
            budget: Budget::new(program.version()),
        }
    }

    /// Takes the next instruction.
    ///
    /// # Errors
    ///
    /// `AllocError` if memory is refused.
    pub fn take(&mut self, here: &Here<'_>) -> Result<(), AllocError>
        requires small { here.now.place < max_instructions }
        requires here { slice_get here.now.program.now.instructions here.now.place
            ≡ Some here.now.instruction.now }
        requires nests { AreNests here.now.program.now.instructions here.now.nests.now }
        requires target { here.now.targeted
            ≡ is_target here.now.program.now.version here.now.program.now.instructions
            here.now.place }
        requires before { HasPassed here.now.program.now here.now.place self.old }
        ensures { OnOk result
            (HasPassed here.now.program.now (here.now.place + 1) self.new) }
    {
        match Operation::of(here.instruction.op) {
            Some(Operation::Halt) => self.take_as(here, Some(Operation::Halt)),
            Some(Operation::Literal) => self.take_as(here, Some(Operation::Literal)),
            Some(Operation::Variable) => self.take_as(here, Some(Operation::Variable)),
            Some(Operation::Capture) => self.take_as(here, Some(Operation::Capture)),
            Some(Operation::Join) => self.take_as(here, Some(Operation::Join)),
            Some(Operation::Set) => self.take_as(here, Some(Operation::Set)),
            Some(Operation::Test(test)) => self.take_test(here, test),
            Some(Operation::Not) => self.take_as(here, Some(Operation::Not)),
            Some(Operation::Jump) => self.take_as(here, Some(Operation::Jump)),
            Some(Operation::JumpIfTrue) => self.take_as(here, Some(Operation::JumpIfTrue)),
            Some(Operation::JumpIfFalse) => self.take_as(here, Some(Operation::JumpIfFalse)),
            Some(Operation::Keep) => self.take_as(here, Some(Operation::Keep)),
            Some(Operation::Discard) => self.take_as(here, Some(Operation::Discard)),
            Some(Operation::File) => self.take_as(here, Some(Operation::File)),
            Some(Operation::Store) => self.take_as(here, Some(Operation::Store)),
            Some(Operation::Each) => self.take_as(here, Some(Operation::Each)),
            Some(Operation::Next) => self.take_as(here, Some(Operation::Next)),
            Some(Operation::Break) => self.take_as(here, Some(Operation::Break)),
            Some(Operation::Take) => self.take_as(here, Some(Operation::Take)),
            None => self.take_as(here, None),
        }
    }

    // The same for a test.
    #[inline(always)]
    fn take_test(&mut self, here: &Here<'_>, test: TestOperation) -> Result<(), AllocError>
        requires named { Some (Test test) ≡ operation_of here.now.instruction.now.op }
        requires small { here.now.place < max_instructions }
        requires here { slice_get here.now.program.now.instructions here.now.place
            ≡ Some here.now.instruction.now }
        requires nests { AreNests here.now.program.now.instructions here.now.nests.now }
        requires target { here.now.targeted
            ≡ is_target here.now.program.now.version here.now.program.now.instructions
            here.now.place }
        requires before { HasPassed here.now.program.now here.now.place self.old }
        ensures { OnOk result
            (HasPassed here.now.program.now (here.now.place + 1) self.new) }
    {
        match test {
            TestOperation::Constant => self.take_as(
                here,
                Some(Operation::Test(TestOperation::Constant)),
            ),
            TestOperation::Header => self.take_as(
                here,
                Some(Operation::Test(TestOperation::Header)),
            ),
            TestOperation::Exists => self.take_as(
                here,
                Some(Operation::Test(TestOperation::Exists)),
            ),
            TestOperation::String => self.take_as(
                here,
                Some(Operation::Test(TestOperation::String)),
            ),
            TestOperation::Size => self.take_as(here, Some(Operation::Test(TestOperation::Size))),
            TestOperation::PartSize => self.take_as(
                here,
                Some(Operation::Test(TestOperation::PartSize)),
            ),
            TestOperation::PartBody => self.take_as(
                here,
                Some(Operation::Test(TestOperation::PartBody)),
            ),
            TestOperation::PartDigest => self.take_as(
                here,
                Some(Operation::Test(TestOperation::PartDigest)),
            ),
        }
    }

    // The same for an instruction with this operation: each call has only the code for its own.
    #[inline(always)]
    fn take_as(&mut self, here: &Here<'_>, operation: Option<Operation>) -> Result<(), AllocError>
        requires named { operation ≡ operation_of here.now.instruction.now.op }
        requires small { here.now.place < max_instructions }
        requires here { slice_get here.now.program.now.instructions here.now.place
            ≡ Some here.now.instruction.now }
        requires nests { AreNests here.now.program.now.instructions here.now.nests.now }
        requires target { here.now.targeted
            ≡ is_target here.now.program.now.version here.now.program.now.instructions
            here.now.place }
        requires before { HasPassed here.now.program.now here.now.place self.old }
        ensures { OnOk result
            (HasPassed here.now.program.now (here.now.place + 1) self.new) }
    {
        let row = row_named(here.program.version(), operation);
        let passed = advance(
            self.stack,
            &mut self.shape,
            here.program,
            here.targeted,
            operation,
            here.instruction,
        )?;
        let broken = Broken {
            index: misses_index(here.program, row, here.instruction),
            form: !is_well_formed(row, here.instruction),
            brackets: misses_loop(here.nests, here.place, operation, here.instruction),
            jump: misses_target(here.nests, here.place, row, here.instruction),
            part: misses_part(here.nests, here.place, row),
            stack: passed.is_none(),
        };
        self.note(broken, here.place);
        // If the shape fails, the program is refused, and its budget doesn't matter.
        let cap = passed.unwrap_or(ONE_CHARGE);
        charge(&mut self.budget, depth_at(here.nests, here.place), cap);
        Ok(())
    }

    // Records the place for each rule that is broken at it for the first time.
    #[inline(always)]
    fn note(&mut self, broken: Broken, place: usize)
        ensures { Notes broken place self.old self.new }
    {
        if broken.are_some() {
            self.name(broken, place);
        }
    }

    // The same, whether or not a rule is broken.
    #[inline(never)]
    fn name(&mut self, broken: Broken, place: usize)
        ensures { Notes broken place self.old self.new }
    {
        self.index = first(self.index, broken.index, place);
        self.form = first(self.form, broken.form, place);
        self.brackets = first(self.brackets, broken.brackets, place);
        self.jump = first(self.jump, broken.jump, place);
        self.part = first(self.part, broken.part, place);
        self.stack = first(self.stack, broken.stack, place);
    }
}

/// Adds the cap of an instruction inside so many loops; inside more loops than there can be, it isn't counted.
#[inline(always)]
pub fn charge(budget: &mut Budget, depth: u32, cap: Cap)
    requires fixed { depth ≤ max_loops → slice_index budget.old.fixed depth + cap.fixed < 2 ^ 63 }
    requires scaled { depth ≤ max_loops
        → slice_index budget.old.scaled depth + cap.scaled < 2 ^ 63 }
    ensures { budget.new ≡ with_charge depth cap budget.old }
{
    if depth <= MAX_LOOPS {
        budget.add(depth as usize, cap.fixed as u128, cap.scaled as u128);
    }
}

// The first place at which the rule is broken: the one before, or else this one if it is broken here.
fn first(before: Option<usize>, broken: bool, place: usize) -> Option<usize>
    ensures { result ≡ option_or before (then_some broken place) }
{
    if broken {
        before.or(Some(place))
    } else {
        before
    }
}

// Takes the shape over an instruction: what that can charge, or `None` if the shape fails there or has failed before.
#[inline(always)]
fn advance(
    failed: Option<usize>,
    shape: &mut Shape,
    program: &Program,
    targeted: bool,
    operation: Option<Operation>,
    instruction: &Instruction,
) -> Result<Option<Cap>, AllocError>
    requires { failed ≡ None → IsSmall shape.old }
    ensures { IfOk result (λ cap. Passes cap shape.new (cap_of operation instruction.now shape.old)
        (option_and_then (shape_after program.now targeted operation instruction.now)
        (unless_failed failed shape.old))) }
{
    if failed.is_some() || targeted && !shape.is_empty() {
        return Ok(None);
    }
    shape.advance(program, operation, instruction)
}
