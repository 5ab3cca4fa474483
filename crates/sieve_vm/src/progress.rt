// A run, step by step.
ghost use Rattle.std.specs.Prelude.{◌≡◌, ◌<◌, ℕ, suc, true, false, List, Some, IfOk, IsSome, option_map, slice_get};
ghost use Rattle.sieve_vm.specs.Moment.{come_to};
ghost use Rattle.sieve_vm.specs.Going.{StandsFor, StandsFor-prop};

use crate::loops::Loops;
use crate::machine::{Machine, Turn};
use crate::outcome::Outcome;
use crate::value::StackValue;
use crate::workspace::Workspace;
use bytecode_format::{ActionList, Instruction, Program};
use bytecode_verifier::Verified;
use mime_decode::Message;
use std::alloc::{AllocError, Global};
use std::marker::Model;

/// A run that is taken step by step, as a trace needs it.
///
/// [`Progress::begin`] makes it, [`Progress::advance`] takes a step as long as [`Progress::goes_on`] is true, and
/// [`Progress::into_outcome`] ends it. [`run`](crate::run) takes all steps at once, and is faster. A contract sees
/// the program, the message, and how many steps were taken; the state is the one that the definitions give after so
/// many steps.
#[derive(Drop)]
pub struct Progress<'p, 's, 'm> {
    program: &'p Program,
    message: &'s Message<'m>,
    machine: Machine<'p, 's, 'm>,
    // How many steps were taken.
    steps: u128,
    // The result of the last step.
    turn: Turn,
    // It names private definitions, and an invariant of the model would be a public contract.
    ghost stands: { StandsFor message.now
        (come_to program.now message.now steps) turn machine } by { StandsFor-prop _ _ _ _ },
}

impl<'p, 's, 'm> Model for Progress<'p, 's, 'm> {
    ghost use Rattle.bytecode_format.specs.Spelling.{IsProgram};
    ghost use Rattle.bytecode_verifier.specs.Acceptance.{IsAccepted};
    ghost use Rattle.mime_decode.specs.Mail.{IsMail};
    ghost use Rattle.sieve_vm.specs.Moment.{Moment};

    ghost Value = { Moment };

    ghost view = { λ p. record { code = p.program.now; mail = p.message.now; steps = p.steps } };

    ghost invariant = { λ p. IsProgram p.program.now × IsAccepted p.program.now × IsMail p.message.now };
}

impl<'p, 's, 'm> Progress<'p, 's, 'm> {
    ghost use Rattle.std.specs.Borrow.{Bor};
    ghost use Rattle.sieve_vm.specs.Ending.{IsOutcome};
    ghost use Rattle.sieve_vm.specs.Lent.{top, value_of};
    ghost use Rattle.sieve_vm.specs.Moment.{goes_on, state_at, turn_at};
    ghost use Rattle.sieve_vm.specs.Potential.{limit_of};
    ghost use Rattle.sieve_vm.specs.State.{State, current_part};

    /// Returns the run of an accepted program on a message, before its first step.
    ///
    /// # Errors
    ///
    /// `AllocError` if memory is refused.
    pub fn begin(
        alloc: Global,
        verified: &'p Verified,
        message: &'s Message<'m>,
    ) -> Result<Progress<'p, 's, 'm>, AllocError>
        ensures { IfOk result
            (λ run. run ≡ record { code = verified.now; mail = message.now; steps = 0 }) }
    {
        let program = verified.program();
        // The contracts of the calls give what holds for every program and every message.
        let _instructions = program.instructions();
        let _size = message.size();
        let mut machine = Machine {
            work: Workspace::new(alloc),
            loops: Loops::new(alloc, message),
            actions: ActionList::new(alloc),
            implicit_keep: true,
        };
        machine.begin(program)?;
        Ok(Progress {
            program,
            message,
            machine,
            steps: 0,
            turn: Turn::start(),
        })
    }

    /// Returns whether there is a step to take. If there is none, the run is over.
    pub fn goes_on(&self) -> bool
        ensures value { result ≡ goes_on (turn_at self.now) }
        ensures reached { IsSome (state_at self.now) }
        ensures within { result ≡ true → self.now.steps < limit_of self.now.code self.now.mail }
    {
        self.turn.goes_on
    }

    /// Takes the next step of the run.
    ///
    /// # Requires
    ///
    /// The run isn't over: `goes_on()`.
    ///
    /// # Errors
    ///
    /// `AllocError` if memory is refused, which ends the run.
    pub fn advance(self, alloc: Global) -> Result<Progress<'p, 's, 'm>, AllocError>
        requires { goes_on (turn_at self) ≡ true }
        ensures { IfOk result (λ run. run ≡ record self.entry { steps = suc self.entry.steps }) }
    {
        let Progress {
            program,
            message,
            mut machine,
            steps,
            turn,
        } = self;
        let next = machine.advance(alloc, program, message, turn.position)?;
        Ok(Progress {
            program,
            message,
            machine,
            steps: steps + 1,
            turn: next,
        })
    }

    /// Returns the instruction of the next step.
    ///
    /// # Requires
    ///
    /// The run isn't over: `goes_on()`.
    pub fn instruction(&self) -> Instruction
        requires { goes_on (turn_at self.now) ≡ true }
        ensures { (state : State) → state_at self.now ≡ Some state
            → slice_get self.now.code.instructions state.place ≡ Some result }
    {
        self.program.instructions()[self.turn.position.place]
    }

    /// Returns the place of the next step's instruction, counted in instructions from 0; at the end of the run, that
    /// of the last one.
    pub fn place(&self) -> usize
        ensures { option_map (λ (state : State). state.place) (state_at self.now) ≡ Some result }
    {
        self.turn.position.place
    }

    /// Returns what the steps taken have charged.
    pub fn charged(&self) -> u128
        ensures { option_map (λ (state : State). state.charge) (state_at self.now) ≡ Some result }
    {
        self.turn.position.charged
    }

    /// Returns the number of the current part, which is that of the innermost open loop; `None` if no loop is open.
    pub fn part(&self) -> Option<usize>
        ensures { (state : State) → state_at self.now ≡ Some state
            → result ≡ current_part state.frames }
    {
        self.machine.loops.current()
    }

    /// Returns the entry on top of the stack; `None` if the stack is empty.
    pub fn top(&self) -> Option<StackValue<'_>>
        ensures { (state : State) → state_at self.now ≡ Some state
            → option_map value_of result ≡ top state.stack }
    {
        self.machine.work.top()
    }

    /// Returns the value of a variable, by its number from 0; `None` if the program has no such variable.
    pub fn variable(&self, number: usize) -> Option<&[u8]>
        ensures { (state : State) → state_at self.now ≡ Some state
            → option_map (λ (value : Bor (List ℕ)). value.now) result
            ≡ slice_get state.variables number }
    {
        self.machine.work.value(number)
    }

    /// Returns the outcome of the run.
    ///
    /// # Requires
    ///
    /// The run is over: `goes_on()` is false.
    ///
    /// # Errors
    ///
    /// `AllocError` if memory is refused.
    pub fn into_outcome(self) -> Result<Outcome, AllocError>
        requires { goes_on (turn_at self) ≡ false }
        ensures { IfOk result (λ outcome. IsOutcome self.entry.code self.entry.mail
            outcome.actions.items outcome.charged) }
    {
        let Progress { machine, turn, .. } = self;
        Ok(Outcome {
            actions: machine.actions.into_final(machine.implicit_keep)?,
            charged: turn.position.charged,
        })
    }
}
