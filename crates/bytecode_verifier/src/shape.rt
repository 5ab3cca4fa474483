// The kinds of the stack's entries.
//
// LIT of a missing string fails the shape, too. This isn't observable, because such a program is refused Index
// before.
ghost use Rattle.std.specs.Prelude.{◌≡◌, ◌+◌, ◌*◌, ◌≤◌, [], ◌∷◌, Some, None, IfOk, IfSome, OnSome, MatchOption, if◌then◌else◌, slice_get};
ghost use Rattle.std.specs.Option.{option_and_then, option_map, option_map_or};
ghost use Rattle.octets.specs.Limits.{max_stack, max_string};
ghost use Rattle.bytecode_format.specs.Questions.{counts_in};
ghost use Rattle.bytecode_format.specs.declared.operation.Operation.TheVariants.{Test};
ghost use Rattle.bytecode_verifier.specs.Shape.{Texts, Lists, is_empty, has_truth, with_entry, without_truth, with_string, with_joined, take_texts, take_counted, entries_after};
ghost use Rattle.bytecode_verifier.specs.Budget.{one_charge, cap_of_octets, cap_of_content, cap_of_test, cap_of};
ghost use Rattle.bytecode_verifier.specs.Pass.{AreTotals, IsSmall, Passes, Takes, TakesLists};

use crate::cap::{Cap, ONE_CHARGE};
use bytecode_format::{Counts, Instruction, Most, Operation, Program, Sizes, TestOperation};
use octets::{MAX_STRING, MAX_VALUE};
use std::alloc::{AllocError, Global};
use std::marker::Model;

/// How many entries the stack has at most.
const MAX_STACK: usize = 1024;

/// The kind of an entry of the stack. The verifier keeps it instead of the value that a run would have there.
#[derive(Clone, Copy)]
pub enum Entry {
    /// A truth value.
    Truth,
    /// A text of at most so many bytes.
    Text(usize),
}

/// The sums of the bounds of a test's names or sources, and of its keys, each bound with one more.
#[derive(Clone, Copy)]
pub struct Totals {
    pub names: u64,
    pub keys: u64,
}

/// The kinds of the stack's entries. A contract sees their list, the top one first.
#[derive(Drop)]
pub struct Shape {
    entries: Vec<Entry>,
}

impl Model for Shape {
    ghost use Rattle.std.specs.Prelude.{List, reverse};
    ghost use Rattle.bytecode_verifier.specs.declared.shape.Entry.{Entry};

    ghost Value = { List Entry };

    ghost view = { λ s. reverse s.entries.items };
}

impl Shape {
    /// An empty stack.
    pub fn new(alloc: Global) -> Shape
        ensures { result ≡ [] }
    {
        Shape {
            entries: Vec::new(alloc),
        }
    }

    /// Whether there are no entries.
    pub fn is_empty(&self) -> bool
        ensures { result ≡ is_empty self.now }
    {
        self.entries.is_empty()
    }

    /// Whether the top entry is a truth value.
    pub fn has_truth(&self) -> bool
        ensures { result ≡ has_truth self.now }
    {
        matches!(self.entries.last(), Some(Entry::Truth))
    }

    /// Puts an entry on top; the result is `false` if there is no room.
    ///
    /// # Errors
    ///
    /// `AllocError` if memory is refused.
    pub fn push(&mut self, entry: Entry) -> Result<bool, AllocError>
        ensures { IfOk result (λ fine. (if fine then Some self.new else None)
            ≡ with_entry entry self.old) }
    {
        let fine = self.entries.len() < MAX_STACK;
        if fine {
            self.entries.push(entry)?;
        }
        Ok(fine)
    }

    /// Takes the top entry, if there is one.
    pub fn pop(&mut self) -> Option<Entry>
        ensures { MatchOption result ((self.old ≡ []) × (self.new ≡ []))
            (λ entry. self.old ≡ entry ∷ self.new) }
    {
        self.entries.pop()
    }

    /// Takes the shape over an instruction: returns what the instruction can charge, or `None` if the entries aren't
    /// what it needs.
    ///
    /// # Errors
    ///
    /// `AllocError` if memory is refused.
    #[inline(always)]
    pub fn advance(
        &mut self,
        program: &Program,
        operation: Option<Operation>,
        instruction: &Instruction,
    ) -> Result<Option<Cap>, AllocError>
        requires { IsSmall self.old }
        ensures { IfOk result (λ cap. Passes cap self.new
            (cap_of operation instruction.now self.old)
            (option_and_then (λ o. entries_after program.now o instruction.now self.old)
            operation)) }
    {
        let Instruction { b, c, .. } = *instruction;
        let fine = match operation {
            Some(Operation::Test(test)) => return self.take_test(test, instruction),
            Some(Operation::Join) => return self.join(b),
            Some(Operation::Take) => return Ok(Some(cap_of_content(b))),
            Some(Operation::Set | Operation::File | Operation::Store) => return Ok(
                self.take_text(),
            ),
            Some(
                Operation::Halt
                | Operation::Jump
                | Operation::Each
                | Operation::Next
                | Operation::Break,
            ) => self.is_empty(),
            Some(Operation::Literal) => self.push_string(program, c)?,
            Some(Operation::Variable | Operation::Capture) => self.push(Entry::Text(MAX_VALUE))?,
            Some(Operation::Not) => self.has_truth(),
            Some(Operation::JumpIfTrue | Operation::JumpIfFalse) => self.take_truth(),
            Some(Operation::Keep | Operation::Discard) => true,
            None => false,
        };
        Ok(fine.then_some(ONE_CHARGE))
    }

    // Pushes a text of at most as many bytes as a string of the program, if there is one.
    fn push_string(&mut self, program: &Program, string: u32) -> Result<bool, AllocError>
        ensures { IfOk result (λ fine. (if fine then Some self.new else None)
            ≡ with_string (slice_get program.now.strings string) self.old) }
    {
        match program.strings().get(string as usize) {
            Some(octets) => self.push(Entry::Text(octets.len())),
            None => Ok(false),
        }
    }

    // Takes the one entry, a truth value.
    fn take_truth(&mut self) -> bool
        ensures { (if result then Some self.new else None) ≡ without_truth self.old }
    {
        matches!(self.pop(), Some(Entry::Truth)) && self.is_empty()
    }

    // Takes the text on top; each of its bytes is charged.
    fn take_text(&mut self) -> Option<Cap>
        requires { IsSmall self.old }
        ensures { Passes result self.new
            (option_map_or cap_of_octets (take_texts 1 self.old) one_charge)
            (option_map (λ (taken : Texts). taken.below) (take_texts 1 self.old)) }
    {
        let Some(Entry::Text(bound)) = self.pop() else {
            return None;
        };
        Some(Cap {
            fixed: 1 + bound as u64,
            scaled: 0,
        })
    }

    // Takes texts, whose bytes are all charged, and pushes the joined text.
    fn join(&mut self, parts: u16) -> Result<Option<Cap>, AllocError>
        requires { IsSmall self.old }
        ensures { IfOk result (λ cap. Passes cap self.new
            (option_map_or cap_of_octets (take_texts parts self.old) one_charge)
            (option_and_then with_joined (take_texts parts self.old))) }
    {
        let Some(total) = self.take_texts(usize::from(parts)) else {
            return Ok(None);
        };
        let octets = total - u64::from(parts);
        let fine = self.push(Entry::Text((octets as usize).min(MAX_STRING)))?;
        Ok(fine.then_some(Cap {
            fixed: 1 + octets,
            scaled: 0,
        }))
    }

    // Takes the lists of a test, and pushes its truth value.
    #[inline(always)]
    fn take_test(
        &mut self,
        test: TestOperation,
        instruction: &Instruction,
    ) -> Result<Option<Cap>, AllocError>
        requires { IsSmall self.old }
        ensures { IfOk result (λ cap. Passes cap self.new
            (cap_of (Some (Test test)) instruction.now self.old)
            (option_and_then (λ (lists : Lists). with_entry Entry.Truth lists.below)
            (take_counted (counts_in test instruction.now) self.old))) }
    {
        let counts = test.counts_in(instruction);
        let Some(totals) = self.take_lists(counts) else {
            return Ok(None);
        };
        let cap = cap_of_test(test, counts, totals);
        let fine = self.push(Entry::Truth)?;
        Ok(fine.then_some(cap))
    }

    // Takes so many names or sources, so many parameters above them and so many keys above these.
    fn take_lists(&mut self, counts: Counts) -> Option<Totals>
        requires { IsSmall self.old }
        ensures texts { TakesLists counts result self.new (take_counted counts self.old) }
        ensures names { IfSome result (λ totals. counts.names ≤ max_stack) }
        ensures params { IfSome result (λ totals. counts.params ≤ max_stack) }
        ensures total { IfSome result (λ totals. totals.names ≤ max_stack * (max_string + 1)) }
        ensures keys { IfSome result (λ totals. totals.keys ≤ max_stack * (max_string + 1)) }
    {
        let keys = self.take_texts(counts.keys)?;
        self.take_texts(counts.params)?;
        let names = self.take_texts(counts.names)?;
        Some(Totals { names, keys })
    }

    // Takes so many texts from the top: the sum of their bounds, each with one more.
    fn take_texts(&mut self, number: usize) -> Option<u64>
        requires { IsSmall self.old }
        ensures texts { Takes number result self.new (take_texts number self.old) }
        ensures bound { IfSome result (λ total. total ≤ max_stack * (max_string + 1)) }
        ensures few { IfSome result (λ total. number ≤ max_stack) }
        ensures small { OnSome result (IsSmall self.new) }
    {
        let mut total = 0;
        'texts: for _ in 0..number {
            let Some(Entry::Text(bound)) = self.pop() else {
                return None;
            };
            total += bound as u64 + 1;
        }
        Some(total)
    }
}

// What a test with so many texts can charge: one charge, and the most that the question costs.
#[inline(always)]
fn cap_of_test(test: TestOperation, counts: Counts, totals: Totals) -> Cap
    requires names { counts.names ≤ max_stack }
    requires params { counts.params ≤ max_stack }
    requires total { totals.names ≤ max_stack * (max_string + 1) }
    requires keys { totals.keys ≤ max_stack * (max_string + 1) }
    ensures { (lists : Lists) → AreTotals counts totals lists → result ≡ cap_of_test test lists }
{
    let Most { fixed, scaled } = test.most(Sizes {
        names: totals.names,
        number: counts.names as u64,
        params: counts.params as u64,
        keys: totals.keys,
    });
    Cap {
        fixed: 1 + fixed,
        scaled,
    }
}

// What setting a variable to at most so many bytes of a part's content can charge.
fn cap_of_content(most: u16) -> Cap
    ensures { result ≡ cap_of_content most }
{
    Cap {
        fixed: 1 + u64::from(most),
        scaled: 0,
    }
}
