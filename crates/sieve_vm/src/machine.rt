// The machine of a run.
//
// A charge depends on what an instruction asks, so `charge_of` has the program's strings and numbers before it, as
// `effect` has; only whether a number is there counts in it. A jump that isn't sound traps whether it is taken or
// not, and so does a field out of its range. So the definition traps in more states than it has to, which makes the
// law that accepted programs never trap the stronger one. An instruction refers to its program by four things
// (`Referred`): the strings, the numbers, which places have the same open loops, and which are an EACH and a NEXT of
// each other. So it is easy to see that the version changes no effect. The position of a run is apart from the
// machine (`Position`), so that the loop keeps place and charge in registers. A call that isn't inlined returns what
// fits into registers, mostly the number of bytes that it is charged for: the compiler also clears the room of a
// larger result when another instruction runs.
ghost use Rattle.std.specs.Prelude.{◌≡◌};
ghost use Rattle.sieve_vm.specs.Standing.{charged_for, once};

use crate::loops::Loops;
use crate::shared_text::SharedText;
use crate::workspace::Workspace;
use bytecode_format::{Action, ActionList, Instruction, Modifiers, Operation, Program};
use mime_decode::Message;
use std::alloc::{AllocError, Global};

/// The state of a run between two instructions, apart from its [`Position`]. Texts are lent by the program and the
/// message.
#[derive(Drop)]
pub struct Machine<'p, 's, 'm> {
    pub work: Workspace<'p, 'm>,
    pub loops: Loops<'s, 'm>,
    pub actions: ActionList,
    pub implicit_keep: bool,
}

/// Where a run is: the place of its instruction, and what was charged before it. It isn't part of the machine, so
/// that a loop can keep it in registers.
#[derive(Clone, Copy)]
pub struct Position {
    pub place: usize,
    pub charged: u128,
}

/// Where the run goes after an instruction.
#[derive(Clone, Copy)]
pub enum Flow {
    /// To the next instruction.
    On,
    /// To the instruction at this place.
    To(usize),
    /// Nowhere: the run is over.
    Ends,
}

/// The result of an instruction: where the run goes, and what it is charged beyond one.
#[derive(Clone, Copy)]
pub struct Done {
    pub flow: Flow,
    pub cost: u128,
}

/// The result of a step: where the run is after it, and whether it continues from there.
#[derive(Clone, Copy)]
pub struct Turn {
    pub position: Position,
    pub goes_on: bool,
}

impl Turn {
    ghost use Rattle.sieve_vm.specs.Going.{at_start};

    /// Before the first instruction.
    pub fn start() -> Turn
        ensures { result ≡ at_start }
    {
        Turn {
            position: Position {
                place: 0,
                charged: 0,
            },
            goes_on: true,
        }
    }
}

impl Position {
    ghost use Rattle.std.specs.Prelude.{◌≡◌, ◌<◌, ◌+◌, ◌^◌};
    ghost use Rattle.octets.specs.Limits.{max_instructions};
    ghost use Rattle.sieve_vm.specs.Going.{gone};

    // The result of a step whose instruction was done here.
    #[inline(always)]
    fn after(self, done: Done) -> Turn
        requires place { self.place < max_instructions }
        requires charged { self.charged + (1 + done.cost) < 2 ^ 128 }
        ensures { result ≡ gone self (1 + done.cost) done.flow }
    {
        let charged = self.charged + (1 + done.cost);
        match done.flow {
            Flow::On => Turn {
                position: Position {
                    place: self.place + 1,
                    charged,
                },
                goes_on: true,
            },
            Flow::To(place) => Turn {
                position: Position { place, charged },
                goes_on: true,
            },
            Flow::Ends => Turn {
                position: Position {
                    place: self.place,
                    charged,
                },
                goes_on: false,
            },
        }
    }
}

impl<'p, 's, 'm> Machine<'p, 's, 'm> {
    ghost use Rattle.std.specs.Prelude.{◌≡◌, ◌<◌, ◌≤◌, ◌-◌, ℕ, suc, List, [], ◌∷◌, ◌++◌, Bool, false, Option, Some, None, IfOk, OnOk, IfSome, IsSome, length, min, drop, take, slice_get, slice_index_or, slice_set};
    ghost use Rattle.std.specs.List.{concat};
    ghost use Rattle.octets.specs.Limits.{max_instructions, max_loops, max_string, max_value};
    ghost use Rattle.bytecode_format.specs.declared.instruction.Instruction.{Instruction};
    ghost use Rattle.bytecode_format.specs.declared.modifiers.Modifiers.{Modifiers};
    ghost use Rattle.bytecode_format.specs.declared.operation.Operation.{Operation};
    ghost use Rattle.bytecode_format.specs.Modifiers.{modified, modifiers_numbered};
    ghost use Rattle.bytecode_format.specs.Spelling.{IsProgram};
    ghost use Rattle.bytecode_format.specs.Operations.{operation_of};
    ghost use Rattle.bytecode_verifier.specs.Acceptance.{IsAccepted};
    ghost use Rattle.mime_decode.specs.Mail.{Mail, Part, IsMail};
    ghost use Rattle.sieve_vm.specs.Looks.{Beginning, HasLooked, Remembers};
    ghost use Rattle.sieve_vm.specs.Visits.{Continues, HasSameLoops, Opens, part_in, sought_by};
    ghost use Rattle.mime_decode.specs.Visited.{visited};
    ghost use Rattle.mail_matching.specs.Outcomes.{after};
    ghost use Rattle.mail_matching.specs.Texts.{AreTexts};
    ghost use Rattle.sieve_vm.specs.Going.{StandsFor};
    ghost use Rattle.sieve_vm.specs.State.{Frame, State, Value, truth, text, current_part, start};
    ghost use Rattle.sieve_vm.specs.Stack.{OnTop, texts_on_top};
    ghost use Rattle.sieve_vm.specs.Charge.{octets_on_top, charge_of};
    ghost use Rattle.sieve_vm.specs.Machine.{branch, effect, jumps, next_part, open_loop, referred_in, step};
    ghost use Rattle.sieve_vm.specs.Standing.{IsNewMachine, Represents, IsIn, IsRunning, HasDone};

    /// Goes to the first instruction of the program.
    ///
    /// # Errors
    ///
    /// `AllocError` if memory is refused.
    pub fn begin(&mut self, program: &Program) -> Result<(), AllocError>
        requires { IsNewMachine self.old }
        ensures { OnOk result (Represents self.old.loops.mail (start program.now) self.new) }
    {
        self.work.begin(program.variables())
    }

    /// Takes the step of the instruction at the position.
    ///
    /// # Errors
    ///
    /// `AllocError` if memory is refused.
    #[inline(always)]
    pub fn advance(
        &mut self,
        alloc: Global,
        program: &'p Program,
        message: &Message<'m>,
        position: Position,
    ) -> Result<Turn, AllocError>
        requires accepted { IsAccepted program.now }
        requires mail { IsMail message.now }
        requires running { IsRunning program.now message.now position self.old }
        ensures stands { IfOk result (λ turn. (s : State)
            → IsIn program.now message.now s position self.old
            → StandsFor message.now (step program.now message.now s) turn self.new) }
        ensures looked { OnOk result ((instruction : Instruction) (operation : Operation)
            → slice_get program.now.instructions position.place ≡ Some instruction
            → operation_of instruction.op ≡ Some operation
            → HasLooked (sought_by program.now.numbers operation instruction)
            self.old.loops self.new.loops) }
    {
        let instruction = program.instructions()[position.place];
        let operation = Operation::of(instruction.op).unwrap();
        let done = self.act(alloc, program, message, position, operation, &instruction)?;
        Ok(position.after(done))
    }

    // Does the instruction at the position, and returns where the run goes, and what is charged. The result of a call
    // that isn't inlined fits into registers, and is taken out of its `Result`: otherwise the result of all arms
    // would be in memory for it.
    #[inline(always)]
    fn act(
        &mut self,
        alloc: Global,
        program: &'p Program,
        message: &Message<'m>,
        position: Position,
        operation: Operation,
        instruction: &Instruction,
    ) -> Result<Done, AllocError>
        requires program { IsProgram program.now }
        requires accepted { IsAccepted program.now }
        requires mail { IsMail message.now }
        requires here { slice_get program.now.instructions position.place ≡ Some instruction.now }
        requires named { operation_of instruction.now.op ≡ Some operation }
        requires running { IsRunning program.now message.now position self.old }
        ensures done { IfOk result (λ done. (s : State) → IsIn program.now message.now s position self.old
            → HasDone message.now (effect (referred_in program.now) message.now operation instruction.now s)
            (charge_of (referred_in program.now) message.now operation instruction.now s) done self.new) }
        ensures looked { OnOk result (HasLooked (sought_by program.now.numbers operation instruction.now)
            self.old.loops self.new.loops) }
    {
        match operation {
            Operation::Halt => Ok(once(Flow::Ends)),
            Operation::Literal => {
                self.push_text(program.strings()[instruction.c as usize].as_slice())
            }
            Operation::Variable => self.push_variable(instruction.c as usize),
            Operation::Capture => self.push_capture(alloc, instruction.a),
            Operation::Join => Ok(charged_for(self.join(alloc, instruction.b as usize)?)),
            Operation::Set => Ok(charged_for(self.set(alloc, instruction)?)),
            Operation::Test(test) => Ok(self.ask(alloc, program, message, test, instruction)?),
            Operation::Not => {
                let value = self.take();
                self.push(!value)
            }
            Operation::Jump => Ok(once(Flow::To(instruction.c as usize))),
            Operation::JumpIfTrue => Ok(self.branch(instruction.c, true)),
            Operation::JumpIfFalse => Ok(self.branch(instruction.c, false)),
            Operation::Keep => self.keep(),
            Operation::Discard => Ok(self.discard()),
            Operation::File => Ok(charged_for(self.file(alloc)?)),
            Operation::Store => Ok(charged_for(self.store(alloc)?)),
            Operation::Each => Ok(self.each(position.place, instruction.c)),
            Operation::Next => Ok(self.next()),
            Operation::Break => Ok(self.close(instruction.a as usize)),
            Operation::Take => Ok(charged_for(self.set_content(alloc, instruction)?)),
        }
    }

    /// Puts a truth value on top of the stack.
    #[inline(always)]
    pub fn push(&mut self, value: bool) -> Result<Done, AllocError>
        ensures done { IfOk result (λ done. (done ≡ once Flow.On)
            × ((mail : Mail) (s : State) → Represents mail s self.old
            → Represents mail (record s { stack = truth value ∷ s.stack }) self.new)) }
        ensures loops { self.new.loops ≡ self.old.loops }
    {
        self.work.push_truth(value)?;
        Ok(once(Flow::On))
    }

    // Puts a text that the program lends on top of the stack.
    #[inline(always)]
    fn push_text(&mut self, octets: &'p [u8]) -> Result<Done, AllocError>
        ensures done { IfOk result (λ done. (done ≡ once Flow.On)
            × ((mail : Mail) (s : State) → Represents mail s self.old
            → Represents mail (record s { stack = text octets.now ∷ s.stack }) self.new)) }
        ensures loops { self.new.loops ≡ self.old.loops }
    {
        self.work.push_text(SharedText::Lent(octets))?;
        Ok(once(Flow::On))
    }

    // Puts the value of a variable on top of the stack.
    #[inline(always)]
    fn push_variable(&mut self, number: usize) -> Result<Done, AllocError>
        ensures done { IfOk result (λ done. (done ≡ once Flow.On)
            × ((mail : Mail) (s : State) → Represents mail s self.old
            → Represents mail (record
            s { stack = text (slice_index_or s.variables number []) ∷ s.stack })
            self.new)) }
        ensures loops { self.new.loops ≡ self.old.loops }
    {
        self.work.push_variable(number)?;
        Ok(once(Flow::On))
    }

    // Puts a capture on top of the stack.
    #[inline(always)]
    fn push_capture(&mut self, alloc: Global, number: u8) -> Result<Done, AllocError>
        ensures done { IfOk result (λ done. (done ≡ once Flow.On)
            × ((mail : Mail) (s : State) → Represents mail s self.old
            → Represents mail (record
            s { stack = text (slice_index_or s.captures number []) ∷ s.stack })
            self.new)) }
        ensures loops { self.new.loops ≡ self.old.loops }
    {
        self.work.push_capture(alloc, number)?;
        Ok(once(Flow::On))
    }

    // Takes the truth value on top of the stack.
    #[inline(always)]
    fn take(&mut self) -> bool
        requires { (mail : Mail) × ((s : State)
            × ((b : Bool) × ((rest : List Value)
            × (Represents mail s self.old × (s.stack ≡ truth b ∷ rest))))) }
        ensures done { (mail : Mail) (s : State) (b : Bool) (rest : List Value)
            → Represents mail s self.old → s.stack ≡ truth b ∷ rest
            → (result ≡ b) × Represents mail (record s { stack = rest }) self.new }
        ensures loops { self.new.loops ≡ self.old.loops }
    {
        self.work.take_truth()
    }

    // Takes the truth value on top of the stack, and goes to the target if it is the wanted one.
    #[inline(always)]
    fn branch(&mut self, target: u32, wanted: bool) -> Done
        requires { (mail : Mail) × ((s : State)
            × ((b : Bool) × ((rest : List Value)
            × (Represents mail s self.old × (s.stack ≡ truth b ∷ rest))))) }
        ensures done { (mail : Mail) (s : State) (b : Bool) (rest : List Value)
            → Represents mail s self.old → s.stack ≡ truth b ∷ rest
            → HasDone mail (branch target wanted b (record s { stack = rest })) 1 result self.new }
        ensures loops { self.new.loops ≡ self.old.loops }
    {
        if self.take() == wanted {
            once(Flow::To(target as usize))
        } else {
            once(Flow::On)
        }
    }

    // Lists Keep, and cancels the implicit keep.
    #[inline(always)]
    fn keep(&mut self) -> Result<Done, AllocError>
        ensures done { IfOk result (λ done. (done ≡ once Flow.On)
            × ((mail : Mail) (s : State) → Represents mail s self.old
            → Represents mail (record
            s { actions = s.actions ++ Action.Keep ∷ []; implicit_keep = false })
            self.new)) }
        ensures loops { self.new.loops ≡ self.old.loops }
    {
        self.list(Action::Keep)?;
        Ok(self.discard())
    }

    // Lists File for the folder on top of the stack, which is taken, and cancels the implicit keep. Returns how many
    // bytes the folder has.
    fn file(&mut self, alloc: Global) -> Result<usize, AllocError>
        requires { (mail : Mail) × ((s : State)
            × ((t : List ℕ) × ((rest : List Value)
            × (Represents mail s self.old × (s.stack ≡ text t ∷ rest))))) }
        ensures done { IfOk result (λ octets. (mail : Mail) (s : State) (t : List ℕ) (rest : List Value)
            → Represents mail s self.old → s.stack ≡ text t ∷ rest
            → (octets ≡ length t)
            × Represents mail (record s {
              stack = rest;
              actions = s.actions ++ Action.File t
                  ∷ [];
              implicit_keep = false;
            }) self.new) }
        ensures loops { self.new.loops ≡ self.old.loops }
    {
        let folder = self.work.take_text(alloc)?;
        let octets = folder.len();
        self.list(Action::File(folder))?;
        self.discard();
        Ok(octets)
    }

    // Adds an action to the list.
    #[inline(always)]
    fn list(&mut self, action: Action) -> Result<(), AllocError>
        ensures done { OnOk result ((mail : Mail) (s : State) → Represents mail s self.old
            → Represents mail (record s { actions = s.actions ++ action ∷ [] }) self.new) }
        ensures loops { self.new.loops ≡ self.old.loops }
    {
        Ok(self.actions.push(action)?)
    }

    // Cancels the implicit keep.
    #[inline(always)]
    fn discard(&mut self) -> Done
        ensures flow { result ≡ once Flow.On }
        ensures stands { (mail : Mail) (s : State) → Represents mail s self.old
            → Represents mail (record s { implicit_keep = false }) self.new }
        ensures loops { self.new.loops ≡ self.old.loops }
    {
        self.implicit_keep = false;
        once(Flow::On)
    }

    // Lists Store for the current part and the folder on top of the stack, which is taken. Returns how many bytes the
    // folder has.
    fn store(&mut self, alloc: Global) -> Result<usize, AllocError>
        requires part { IsSome (current_part self.old.loops.frames) }
        requires top { (mail : Mail)
            × ((s : State) × ((t : List ℕ)
            × ((rest : List Value) × (Represents mail s self.old
            × (s.stack ≡ text t ∷ rest))))) }
        ensures done { IfOk result (λ octets. (mail : Mail) (s : State) (t : List ℕ) (rest : List Value)
            (part : ℕ) → Represents mail s self.old → s.stack ≡ text t ∷ rest
            → current_part s.frames ≡ Some part
            → (octets ≡ length t)
            × Represents mail (record s {
              stack = rest;
              actions = s.actions
                  ++ Action.Store t part ∷ [];
            }) self.new) }
        ensures loops { self.new.loops ≡ self.old.loops }
    {
        let part = self.loops.current().unwrap();
        let folder = self.work.take_text(alloc)?;
        let octets = folder.len();
        self.list(Action::Store(folder, part))?;
        Ok(octets)
    }

    // Opens the loop of the EACH at the place on its first part; or continues after its NEXT.
    fn each(&mut self, place: usize, next: u32) -> Done
        requires room { length self.old.loops.frames < max_loops }
        requires current { IfSome (current_part self.old.loops.frames)
            (λ part. part < length self.old.loops.mail.parts) }
        ensures done { (mail : Mail) (s : State) → Represents mail s self.old → place ≡ s.place
            → HasDone mail (open_loop next (visited (current_part s.frames) mail) s) 1 result
            self.new }
        ensures visits { (opened : Bool) × Opens place next (visited (current_part self.old.loops.frames)
            self.old.loops.mail) opened self.old.loops self.new.loops }
        ensures known { Remembers self.old.loops self.new.loops }
    {
        if self.loops.open(place, next as usize) {
            once(Flow::On)
        } else {
            once(Flow::To(next as usize + 1))
        }
    }

    // Continues with the next part of the innermost loop, or closes it.
    #[inline(always)]
    fn next(&mut self) -> Done
        requires { (frame : Frame) × ((frames : List Frame)
            × ((self.old.loops.frames ≡ frame ∷ frames) × (frame.each < max_instructions))) }
        ensures done { (mail : Mail) (s : State) (frame : Frame) (frames : List Frame)
            → Represents mail s self.old → s.frames ≡ frame ∷ frames
            → HasDone mail (next_part frame frames frame.rest s) 1 result self.new }
        ensures visits { (frame : Frame) (frames : List Frame) → self.old.loops.frames ≡ frame ∷ frames
            → (each : Option ℕ) × Continues frame frames frame.rest each self.old.loops self.new.loops }
        ensures known { Remembers self.old.loops self.new.loops }
    {
        match self.loops.next_part() {
            Some(each) => once(Flow::To(each + 1)),
            None => once(Flow::On),
        }
    }

    // Closes so many loops, and continues after the last one's NEXT.
    fn close(&mut self, number: usize) -> Done
        requires some { 0 < number }
        requires there { (frame : Frame)
            × ((frames : List Frame) × ((drop (number - 1) self.old.loops.frames ≡ frame ∷ frames)
            × (frame.next < max_instructions))) }
        ensures done { (mail : Mail) (s : State) (frame : Frame) (frames : List Frame)
            → Represents mail s self.old → drop (number - 1) s.frames ≡ frame ∷ frames
            → HasDone mail (jumps (suc frame.next) (record s { frames = frames })) 1 result
            self.new }
        ensures visits { (frame : Frame) (frames : List Frame)
            → drop (number - 1) self.old.loops.frames ≡ frame ∷ frames
            → self.new.loops ≡ record
            self.old.loops { frames = frames; held = drop number self.old.loops.held } }
        ensures known { Remembers self.old.loops self.new.loops }
    {
        let next = self.loops.close(number);
        once(Flow::To(next + 1))
    }

    // Joins so many texts on top of the stack. Returns how many bytes they have.
    fn join(&mut self, alloc: Global, number: usize) -> Result<usize, AllocError>
        requires { (mail : Mail) × ((s : State)
            × ((top : OnTop) × (Represents mail s self.old
            × (texts_on_top number s.stack ≡ Some top) × AreTexts top.texts))) }
        ensures done { IfOk result (λ octets. (mail : Mail) (s : State) (top : OnTop)
            → Represents mail s self.old → texts_on_top number s.stack ≡ Some top
            → (octets ≡ octets_on_top top)
            × Represents mail (record s {
              stack = text (take max_string (concat top.texts))
                  ∷ top.below;
            }) self.new) }
        ensures loops { self.new.loops ≡ self.old.loops }
    {
        self.work.join(alloc, number)
    }

    // Takes the text on top of the stack, and assigns it, modified, to a variable. Returns how many bytes the text
    // has.
    fn set(&mut self, alloc: Global, instruction: &Instruction) -> Result<usize, AllocError>
        requires modifiers { IsSome (modifiers_numbered instruction.now.a) }
        requires top { (mail : Mail)
            × ((s : State) × ((t : List ℕ)
            × ((rest : List Value) × (Represents mail s self.old × (s.stack ≡ text t ∷ rest)
            × (instruction.now.c < length s.variables))))) }
        ensures done { IfOk result (λ octets. (mail : Mail) (s : State) (t : List ℕ) (rest : List Value)
            (modifiers : Modifiers) → Represents mail s self.old → s.stack ≡ text t ∷ rest
            → modifiers_numbered instruction.now.a ≡ Some modifiers
            → (octets ≡ length t)
            × Represents mail (record s {
              stack = rest;
              variables = slice_set s.variables
                  instruction.now.c (take max_value (modified modifiers t));
            }) self.new) }
        ensures loops { self.new.loops ≡ self.old.loops }
    {
        let modifiers = Modifiers::of(instruction.a).unwrap();
        self.work.set(alloc, instruction.c as usize, modifiers)
    }

    // Assigns the first bytes of the current part's content to a variable. Returns how many.
    fn set_content(&mut self, alloc: Global, instruction: &Instruction) -> Result<usize, AllocError>
        requires part { IsSome (part_in self.old.loops) }
        requires few { instruction.now.b ≤ max_value }
        requires variable { (mail : Mail)
            × ((s : State) × (Represents mail s self.old
            × (instruction.now.c < length s.variables))) }
        ensures done { IfOk result (λ octets. (mail : Mail) (s : State) (part : Part)
            → Represents mail s self.old → part_in self.old.loops ≡ Some part
            → (octets ≡ min instruction.now.b (length part.content))
            × Represents mail (record s {
              variables = slice_set s.variables instruction.now.c
                  (take instruction.now.b part.content);
            }) self.new) }
        ensures loops { OnOk result (HasSameLoops self.old.loops self.new.loops) }
        ensures looked { OnOk result (HasLooked (Some Beginning) self.old.loops self.new.loops) }
    {
        let octets = self.loops.beginning(alloc, instruction.b as usize)?;
        let number = octets.len();
        let value = SharedText::new(alloc, octets)?;
        self.work.assign(instruction.c as usize, value);
        Ok(number)
    }
}

/// An instruction of one charge.
#[inline(always)]
pub fn once(flow: Flow) -> Done
    ensures { result ≡ once flow }
{
    Done { flow, cost: 0 }
}

// An instruction that is charged for so many bytes beyond one, and continues.
#[inline(always)]
fn charged_for(octets: usize) -> Done
    ensures { result ≡ charged_for octets }
{
    Done {
        flow: Flow::On,
        cost: octets as u128,
    }
}
