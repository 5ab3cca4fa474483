// The truth of tests.
use crate::evaluator::Evaluator;
use crate::questions::asked_of_part;
use crate::subject::Subject;
use crate::watching::{Told, Watching, say};
use bytecode_format::Question;
use mail_matching::{Answer, Finding, Need, Outcome, Shown, TestTexts, ask_and_find};
use sieve_check::{Strings, Test};
use std::alloc::{AllocError, Global};

impl<'s, 'm> Evaluator<'s, 'm> {
    ghost use Rattle.std.specs.Prelude.{◌≡◌, ℕ, List, IfOk, map, option_map};
    ghost use Rattle.mail_matching.specs.Findings.{shortened};
    ghost use Rattle.mail_matching.specs.Outcomes.{after};
    ghost use Rattle.mail_matching.specs.Questions.{answer, found};
    ghost use Rattle.sieve_check.specs.Bounded.{AreBoundedStrings, AreBoundedTests, IsBoundedTest};
    ghost use Rattle.bytecode_format.specs.Questions.{row_of};
    ghost use Rattle.sieve_check.specs.Typed.{asks};
    ghost use Rattle.sieve_check.specs.TypedView.{strings_form, test_form, tests_of};
    ghost use Rattle.sieve_meaning.specs.Meaning.{Effects, all_do, any_do, matched, test_does, texts_of};
    ghost use Rattle.sieve_meaning.specs.Traced.{all_events, any_events, test_events};
    ghost use Rattle.sieve_meaning.specs.Evaluation.{HasEvaluated};
    ghost use Rattle.sieve_meaning.specs.Private.{Gives};
    ghost use Rattle.sieve_meaning.specs.Watched.{Tells};

    /// Returns whether the test is true for the message. The watcher is told a test of other tests after those that were
    /// asked.
    ///
    /// # Requires
    ///
    /// The test is part of the typed form of a checked script (`IsBoundedTest`).
    ///
    /// # Errors
    ///
    /// The watcher's failure, also if memory is refused.
    #[cycle(tests)]
    pub(crate) fn is_true<W: Watching>(
        &mut self,
        alloc: Global,
        test: &Test,
        subject: Subject<'_, 'm>,
        watcher: &mut W,
    ) -> Result<bool, W::Failure>
        requires { IsBoundedTest (test_form test.now) }
        ensures { (e : Effects) → HasEvaluated e self.old
            → Tells W.has_heard W.has_stopped watcher.old watcher.new
            (test_events subject.entry.message.now subject.entry.part (test_form test.now) e) result
            (λ value. Gives
            (test_does subject.entry.message.now subject.entry.part (test_form test.now) e)
            value self.new) }
    {
        match test {
            Test::Asks {
                question,
                strings,
                at,
            } => self.asks(alloc, *question, strings, *at, subject, watcher),
            Test::Not { test, at } => {
                let value = !self.is_true(alloc, test, subject, watcher)?;
                say(watcher, *at, subject.part, Told::Not(value), value)
            }
            Test::AllOf { first, others, at } => {
                if !self.is_true(alloc, first, subject, watcher)? {
                    return say(watcher, *at, subject.part, Told::AllOf(false), false);
                }
                let value = self.all_true(alloc, others, subject, watcher)?;
                say(watcher, *at, subject.part, Told::AllOf(value), value)
            }
            Test::AnyOf { first, others, at } => {
                if self.is_true(alloc, first, subject, watcher)? {
                    return say(watcher, *at, subject.part, Told::AnyOf(true), true);
                }
                let value = self.any_true(alloc, others, subject, watcher)?;
                say(watcher, *at, subject.part, Told::AnyOf(value), value)
            }
        }
    }

    // Whether all tests are true; it stops at the first that isn't.
    #[cycle(tests)]
    fn all_true<W: Watching>(
        &mut self,
        alloc: Global,
        list: &[Test],
        subject: Subject<'_, 'm>,
        watcher: &mut W,
    ) -> Result<bool, W::Failure>
        requires { AreBoundedTests (tests_of (map test_form list.now)) }
        ensures { (e : Effects) → HasEvaluated e self.old
            → Tells W.has_heard W.has_stopped watcher.old watcher.new
            (all_events subject.entry.message.now subject.entry.part
            (tests_of (map test_form list.now)) e) result
            (λ value. Gives
            (all_do subject.entry.message.now subject.entry.part
            (tests_of (map test_form list.now)) e) value self.new) }
    {
        'list: for test in list {
            if !self.is_true(alloc, test, subject, watcher)? {
                return Ok(false);
            }
        }
        Ok(true)
    }

    // Whether one of the tests is true; it stops at the first that is.
    #[cycle(tests)]
    fn any_true<W: Watching>(
        &mut self,
        alloc: Global,
        list: &[Test],
        subject: Subject<'_, 'm>,
        watcher: &mut W,
    ) -> Result<bool, W::Failure>
        requires { AreBoundedTests (tests_of (map test_form list.now)) }
        ensures { (e : Effects) → HasEvaluated e self.old
            → Tells W.has_heard W.has_stopped watcher.old watcher.new
            (any_events subject.entry.message.now subject.entry.part
            (tests_of (map test_form list.now)) e) result
            (λ value. Gives
            (any_do subject.entry.message.now subject.entry.part
            (tests_of (map test_form list.now)) e) value self.new) }
    {
        'list: for test in list {
            if self.is_true(alloc, test, subject, watcher)? {
                return Ok(true);
            }
        }
        Ok(false)
    }

    // Whether the question of a simple test is true. A match can set captures.
    fn asks<W: Watching>(
        &mut self,
        alloc: Global,
        question: Question,
        strings: &Strings,
        at: usize,
        subject: Subject<'_, 'm>,
        watcher: &mut W,
    ) -> Result<bool, W::Failure>
        requires { AreBoundedStrings (row_of question).takes (strings_form strings.now) }
        ensures { (e : Effects) → HasEvaluated e self.old
            → Tells W.has_heard W.has_stopped watcher.old watcher.new
            (test_events subject.entry.message.now subject.entry.part
            (asks question (strings_form strings.now) at) e) result
            (λ value. Gives
            (test_does subject.entry.message.now subject.entry.part
            (asks question (strings_form strings.now) at) e) value self.new) }
    {
        let most = watcher.most();
        let (value, found) = self.asks_and_finds(alloc, question, strings, subject, most)?;
        let told = Told::Asked(question, value, found.as_ref());
        watcher.tell(at, subject.part, told)?;
        Ok(value)
    }

    // Whether the question of a simple test is true, and what the test finds if it compares values with keys: the value
    // and the key that match, each cut to `most` bytes, or how many values there are. A match can set captures.
    fn asks_and_finds(
        &mut self,
        alloc: Global,
        question: Question,
        strings: &Strings,
        subject: Subject<'_, 'm>,
        most: usize,
    ) -> Result<(bool, Option<Finding>), AllocError>
        requires { AreBoundedStrings (row_of question).takes (strings_form strings.now) }
        ensures value { (e : Effects) → HasEvaluated e self.old
            → IfOk result (λ r. Gives
            (matched (answer subject.entry.message.now subject.entry.part question
            (texts_of e (strings_form strings.now)) e.captures) e) r.0 self.new) }
        ensures found { (e : Effects) → HasEvaluated e self.old
            → IfOk result (λ r. r.1
            ≡ option_map (shortened most) (found subject.entry.message.now subject.entry.part
            question (texts_of e (strings_form strings.now)))) }
    {
        let (Answer { outcome, .. }, found) = self.answered(
            alloc, question, strings, subject, most,
        )?;
        Ok((self.settle(outcome), found))
    }

    // The outcome of a question, with the strings of its test, expanded, and what it finds.
    #[inline(always)]
    fn answered(
        &self,
        alloc: Global,
        question: Question,
        strings: &Strings,
        subject: Subject<'_, 'm>,
        most: usize,
    ) -> Result<(Answer<'m>, Option<Finding>), AllocError>
        requires { AreBoundedStrings (row_of question).takes (strings_form strings.now) }
        ensures outcome { (e : Effects) → HasEvaluated e self.now
            → IfOk result (λ r. (captures : List (List ℕ)) → after r.0.outcome captures
            ≡ answer subject.entry.message.now subject.entry.part question
            (texts_of e (strings_form strings.now)) captures) }
        ensures found { (e : Effects) → HasEvaluated e self.now
            → IfOk result (λ r. r.1
            ≡ option_map (shortened most) (found subject.entry.message.now subject.entry.part
            question (texts_of e (strings_form strings.now)))) }
    {
        // Each is lent again, for as long as the texts are.
        let names = (&*self).all_expanded(alloc, &*strings.names)?;
        let params = (&*self).all_expanded(alloc, &*strings.params)?;
        let keys = (&*self).all_expanded(alloc, &*strings.keys)?;
        let texts = TestTexts {
            names: &names,
            params: &params,
            keys: &keys,
        };
        match Need::of(question) {
            Need::Nothing => {
                let Subject { message, part, .. } = subject;
                ask_and_find(alloc, message, part, question, Shown::Nothing, texts, most)
            }
            need => asked_of_part(alloc, subject, question, need, texts, most),
        }
    }

    // Keeps the captures that a test has set, and returns whether it has matched.
    #[inline(always)]
    fn settle(&mut self, outcome: Outcome<'m>) -> bool
        ensures { (e : Effects) → HasEvaluated e self.old
            → Gives (matched (after outcome.entry e.captures) e) result self.new }
    {
        match outcome {
            Outcome::Fails => false,
            Outcome::Holds => true,
            Outcome::Captures(captures) => {
                self.captures = Some(captures);
                true
            }
        }
    }
}
