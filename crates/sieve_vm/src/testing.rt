// The machine's tests.
//
// A question without strings is decided within the run, and one with strings in a call of its own that is never
// inlined (`ask` and `ask_with_lists`). Two rare steps aren't inlined either: finding what isn't known of a part, and
// putting a truth value among the entries. The compiler clears the room of an inlined call's values in the run
// itself: with version 0.30.0 each test cleared some 450 bytes. What a question needs of a part's content is found
// first, and then lent, so a digest isn't copied.
ghost use Rattle.std.specs.Prelude.{◌≡◌, ◌<◌, ◌∷◌, IfOk, IfSome, IsSome, OnOk, Some, is_some, length, if◌then◌else◌};
ghost use Rattle.std.specs.Option.{unwrap_or};
ghost use Rattle.bytecode_format.specs.declared.question.Question.{Question};
ghost use Rattle.bytecode_format.specs.Questions.{counts_in, question_in};
ghost use Rattle.mail_matching.specs.Questions.{IsShown, answer, current, need_of};
ghost use Rattle.mail_matching.specs.Texts.{AreTexts};
ghost use Rattle.mime_decode.specs.Mail.{IsMail};
ghost use Rattle.sieve_vm.specs.Charge.{cost_of_asking};
ghost use Rattle.sieve_vm.specs.Stack.{Lists, lists_counted, texts_in};
ghost use Rattle.sieve_vm.specs.Standing.{HasLists, Represents, WasAsked, held_of};
ghost use Rattle.sieve_vm.specs.State.{State, current_part, truth};
ghost use Rattle.sieve_vm.specs.Looks.{HasLooked};
ghost use Rattle.sieve_vm.specs.Visits.{HasSameLoops, IsFound, holding, sought_for};

use crate::loops::Loops;
use crate::machine::{Done, Flow, Machine};
use crate::workspace::{Pushed, Workspace};
use bytecode_format::{Counts, Instruction, Program, Question, TestOperation};
use mail_matching::{Need, Nobody, Progress, Shown, TestTexts, ask, decide};
use mime_decode::Message;
use std::alloc::{AllocError, Global};

impl<'p, 's, 'm> Machine<'p, 's, 'm> {
    /// Takes the lists of a test, and pushes whether its question is true. What the question needs of the current
    /// part's content is held by the innermost loop after that, or was known.
    ///
    /// # Errors
    ///
    /// `AllocError` if memory is refused.
    #[inline(always)]
    pub fn ask(
        &mut self,
        alloc: Global,
        program: &Program,
        message: &Message<'m>,
        test: TestOperation,
        instruction: &Instruction,
    ) -> Result<Done, AllocError>
        requires question { IsSome (question_in program.now.numbers test instruction.now) }
        requires mail { IsMail message.now }
        requires current { IfSome (current_part self.old.loops.frames)
            (λ part. part < length message.now.parts) }
        requires top { (s : State) × ((top : Lists) × (Represents message.now s self.old
            × (lists_counted (counts_in test instruction.now) s.stack ≡ Some top)
            × AreTexts top.names × AreTexts top.params × AreTexts top.keys)) }
        ensures done { IfOk result (λ done. (s : State) (top : Lists) (question : Question)
            → Represents message.now s self.old
            → lists_counted (counts_in test instruction.now) s.stack ≡ Some top
            → question_in program.now.numbers test instruction.now ≡ Some question
            → (done ≡ record {
              flow = Flow.On;
              cost = cost_of_asking message.now (current_part s.frames) question top;
            })
            × Represents message.now (record
            s {
              stack = truth (is_some (answer message.now (current_part s.frames)
                  question (texts_in top) s.captures)) ∷ top.below;
              captures = unwrap_or (answer message.now (current_part s.frames)
                  question (texts_in top) s.captures) s.captures;
            }) self.new) }
        ensures held { OnOk result ((question : Question)
            → question_in program.now.numbers test instruction.now ≡ Some question
            → need_of question ≡ Need.Content → IsSome (current_part self.old.loops.frames)
            → self.new.loops ≡ holding self.old.loops) }
        ensures known { OnOk result ((question : Question)
            → question_in program.now.numbers test instruction.now ≡ Some question
            → IsFound (if is_some (current_part self.old.loops.frames) then need_of question else Need.Nothing)
            self.old.loops
            → self.new.loops ≡ self.old.loops) }
        ensures loops { OnOk result (HasSameLoops self.old.loops self.new.loops) }
        ensures looked { OnOk result ((question : Question)
            → question_in program.now.numbers test instruction.now ≡ Some question
            → HasLooked (sought_for (need_of question)) self.old.loops self.new.loops) }
    {
        let question = test.question_in(instruction, program.numbers()).unwrap();
        let counts = test.counts_in(instruction);
        let part = self.loops.current();
        let need = needed(question, part);
        self.loops.find(alloc, need)?;
        let shown = self.loops.shown(need);
        let cost = self
            .work
            .ask(alloc, message, part, question, shown, counts)?;
        Ok(Done {
            flow: Flow::On,
            cost,
        })
    }
}

impl<'p, 'm> Workspace<'p, 'm> {
    // Takes the lists of a question, and pushes whether it is true; `shown` is what it needs of the current part's
    // content. Returns the cost. A question that takes no strings is decided here, without a call.
    //
    // The only error is a refusal of memory.
    #[inline(always)]
    fn ask(
        &mut self,
        alloc: Global,
        message: &Message<'m>,
        part: Option<usize>,
        question: Question,
        shown: Shown<'_, 'm>,
        counts: Counts,
    ) -> Result<u128, AllocError>
        requires current { IfSome part (λ part. part < length message.now.parts) }
        requires shown { IsShown (need_of question) (current message.now part) shown }
        requires lists { HasLists counts (held_of self.old) }
        ensures { IfOk result
            (WasAsked message.now part question counts (held_of self.old) (held_of self.new)) }
    {
        if let Counts {
            names: 0,
            params: 0,
            keys: 0,
        } = counts
        {
            let none = Pushed { entries: &[] };
            if let Some((value, cost)) = decide(message, part, question, shown, &none) {
                self.push_truth(value)?;
                return Ok(cost as u128);
            }
        }
        self.ask_with_lists(alloc, message, part, question, shown, counts)
    }

    // The same for any question. Captures stay in the place where they are found. This isn't inlined, because the run
    // would otherwise clear the room for them for each instruction.
    //
    // The only error is a refusal of memory.
    #[inline(never)]
    fn ask_with_lists(
        &mut self,
        alloc: Global,
        message: &Message<'m>,
        part: Option<usize>,
        question: Question,
        shown: Shown<'_, 'm>,
        counts: Counts,
    ) -> Result<u128, AllocError>
        requires current { IfSome part (λ part. part < length message.now.parts) }
        requires shown { IsShown (need_of question) (current message.now part) shown }
        requires lists { HasLists counts (held_of self.old) }
        ensures { IfOk result
            (WasAsked message.now part question counts (held_of self.old) (held_of self.new)) }
    {
        let lists = self.lists(counts);
        if let Some((value, cost)) = decide(message, part, question, shown, &lists.names) {
            self.drop_lists(counts);
            self.push_truth(value)?;
            return Ok(cost as u128);
        }
        let texts = TestTexts {
            names: &lists.names,
            params: &lists.params,
            keys: &lists.keys,
        };
        let mut progress = Progress::new(Nobody);
        let cost = ask(alloc, message, part, question, shown, texts, &mut progress)?;
        self.drop_lists(counts);
        let matched = self.settle(&mut progress.outcome);
        self.push_truth(matched)?;
        Ok(cost)
    }
}

// What the question needs of the current part's content: nothing outside of loops.
#[inline(always)]
fn needed(question: Question, current: Option<usize>) -> Need
    ensures { result ≡ if is_some current then need_of question else Need.Nothing }
{
    match current {
        Some(_) => Need::of(question),
        None => Need::Nothing,
    }
}
