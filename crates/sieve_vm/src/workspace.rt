// The workspace of a run: the stack, the variables and the captures.
ghost use Rattle.std.specs.Prelude.{◌≡◌, ◌<◌, ◌≤◌, ℕ, List, [], ◌∷◌, ◌++◌, Bool, Some, None, IfOk, OnOk, length, map, replicate, reverse, take, slice_get, slice_index_or, slice_set, is_some, option_map, sum_by, slice_range};
ghost use Rattle.std.specs.Borrow.{Bor};
ghost use Rattle.std.specs.List.{concat};
ghost use Rattle.std.specs.Option.{unwrap_or};
ghost use Rattle.octets.specs.Limits.{max_string, max_value};
ghost use Rattle.bytecode_format.specs.Modifiers.{modified};
ghost use Rattle.mail_matching.specs.FirstMatch.{no_captures};
ghost use Rattle.mail_matching.specs.Outcomes.{after};
ghost use Rattle.mail_matching.specs.Texts.{AreTexts};
ghost use Rattle.sieve_vm.specs.Lent as lent;
ghost use Rattle.sieve_vm.specs.Lent.{top};
ghost use Rattle.sieve_vm.specs.State.{Value, truth, text};
ghost use Rattle.sieve_vm.specs.Stack.{OnTop, Lists, texts_on_top, lists_counted};
ghost use Rattle.sieve_vm.specs.SharedTexts.{items_of};
ghost use Rattle.sieve_vm.specs.Standing.{IsNew, held_of, value_of, octets_of, texts_of};

use crate::entry::Entry;
use crate::held_captures::HeldCaptures;
use crate::joining::{joined, total_len};
use crate::shared_text::{SharedText, copied};
use crate::value::StackValue;
use bytecode_format::{Counts, Modifiers};
use mail_matching::{Outcome, Texts};
use octets::{MAX_VALUE, Octets};
use std::alloc::{AllocError, Global};
use std::mem;

/// The stack, the variables and the captures. The value of a variable or a capture isn't copied when it is pushed:
/// the entry shares it, and so keeps it when the variable or the captures change.
#[derive(Drop)]
pub struct Workspace<'p, 'm> {
    // The truth value on top of the stack, if it is kept apart. The entries are below it.
    pub top: Option<bool>,
    // The top entry is the last one.
    pub entries: Vec<Entry<'p>>,
    pub variables: Vec<SharedText<'p>>,
    // The captures of the last match that has set them.
    pub captures: HeldCaptures<'p, 'm>,
}

/// Texts on the stack, in the order in which they were pushed.
#[derive(Clone, Copy)]
pub struct Pushed<'s, 'p> {
    pub entries: &'s [Entry<'p>],
}

/// The lists of a test: names or sources, parameters above them, and keys above these.
#[derive(Clone, Copy)]
pub struct PushedLists<'s, 'p> {
    pub names: Pushed<'s, 'p>,
    pub params: Pushed<'s, 'p>,
    pub keys: Pushed<'s, 'p>,
}

impl<'s, 'p> Texts for Pushed<'s, 'p> {
    ghost texts = { λ t. texts_of t };

    fn count(&self) -> usize {
        self.entries.len()
    }

    fn text(&self, place: usize) -> &[u8] {
        let Pushed { entries } = *self;
        match &entries[place] {
            Entry::Truth(_) => &[],
            Entry::Text(text) => text.as_slice(),
        }
    }
}

impl<'p, 'm> Workspace<'p, 'm> {
    /// No entries, no variables, and empty captures. It takes no memory.
    pub fn new(alloc: Global) -> Workspace<'p, 'm>
        ensures { IsNew result }
    {
        Workspace {
            top: None,
            entries: Vec::new(alloc),
            variables: Vec::new(alloc),
            captures: HeldCaptures::new(alloc),
        }
    }

    /// Makes so many variables, which are empty.
    ///
    /// # Errors
    ///
    /// `AllocError` if memory is refused.
    pub fn begin(&mut self, variables: u16) -> Result<(), AllocError>
        requires { IsNew self.old }
        ensures { OnOk result (held_of self.new
            ≡ record {
              stack = [];
              variables = replicate variables [];
              captures = no_captures;
            }) }
    {
        self.variables.reserve(usize::from(variables))?;
        'variables: for _ in 0..variables {
            self.variables.push(SharedText::Lent(&[]))?;
        }
        Ok(())
    }

    /// Puts a truth value on top of the stack.
    #[inline(always)]
    pub fn push_truth(&mut self, value: bool) -> Result<(), AllocError>
        ensures { OnOk result (held_of self.new
            ≡ record (held_of self.old) { stack = truth value ∷ (held_of self.old).stack }) }
    {
        self.lower()?;
        self.top = Some(value);
        Ok(())
    }

    /// Puts a text on top of the stack.
    #[inline(always)]
    pub fn push_text(&mut self, octets: SharedText<'p>) -> Result<(), AllocError>
        ensures { OnOk result (held_of self.new
            ≡ record (held_of self.old) {
              stack = text (items_of octets.entry)
                  ∷ (held_of self.old).stack;
            }) }
    {
        self.lower()?;
        Ok(self.entries.push(Entry::Text(octets))?)
    }

    // Puts a truth value that is kept apart among the entries.
    #[inline(always)]
    fn lower(&mut self) -> Result<(), AllocError>
        ensures same { OnOk result (held_of self.new ≡ held_of self.old) }
        ensures none { OnOk result (self.new.top ≡ None) }
    {
        match self.top {
            Some(value) => self.put_below(value),
            None => Ok(()),
        }
    }

    // Puts this truth value, which is kept apart, among the entries. It isn't inlined, because it is rare.
    #[inline(never)]
    fn put_below(&mut self, value: bool) -> Result<(), AllocError>
        requires { self.old.top ≡ Some value }
        ensures same { OnOk result (held_of self.new ≡ held_of self.old) }
        ensures none { OnOk result (self.new.top ≡ None) }
    {
        self.entries.push(Entry::Truth(value))?;
        self.top = None;
        Ok(())
    }

    /// Puts the value of a variable on top of the stack.
    pub fn push_variable(&mut self, number: usize) -> Result<(), AllocError>
        ensures { OnOk result (held_of self.new
            ≡ record (held_of self.old) {
              stack = text
                  (slice_index_or (held_of self.old).variables number [])
                  ∷ (held_of self.old).stack;
            }) }
    {
        let value = self.variable(number)?;
        self.push_text(value)
    }

    /// Puts a capture on top of the stack.
    pub fn push_capture(&mut self, alloc: Global, number: u8) -> Result<(), AllocError>
        ensures { OnOk result (held_of self.new
            ≡ record (held_of self.old) {
              stack = text
                  (slice_index_or (held_of self.old).captures number [])
                  ∷ (held_of self.old).stack;
            }) }
    {
        let text = self.captures.share(alloc, number)?;
        self.push_text(text)
    }

    /// Takes the truth value on top of the stack.
    #[inline(always)]
    pub fn take_truth(&mut self) -> bool
        requires { (b : Bool) × ((rest : List Value)
            × ((held_of self.old).stack ≡ truth b ∷ rest)) }
        ensures { (b : Bool) (rest : List Value) → (held_of self.old).stack ≡ truth b ∷ rest
            → (result ≡ b) × (held_of self.new ≡ record (held_of self.old) { stack = rest }) }
    {
        match self.top {
            Some(value) => {
                self.top = None;
                value
            }
            None => pop_truth(&mut self.entries),
        }
    }

    // Takes the text on top of the stack.
    fn pop_text(&mut self) -> Entry<'p>
        requires { (t : List ℕ) × ((rest : List Value)
            × ((held_of self.old).stack ≡ text t ∷ rest)) }
        ensures { (t : List ℕ) (rest : List Value) → (held_of self.old).stack ≡ text t ∷ rest
            → (octets_of result ≡ t) × (held_of self.new ≡ record (held_of self.old) { stack = rest }) }
    {
        match self.entries.pop() {
            Some(entry) => entry,
            None => unreachable!(),
        }
    }

    /// Takes the text on top of the stack.
    pub fn take_text(&mut self, alloc: Global) -> Result<Octets, AllocError>
        requires { (t : List ℕ) × ((rest : List Value)
            × ((held_of self.old).stack ≡ text t ∷ rest)) }
        ensures { IfOk result (λ octets. (t : List ℕ) (rest : List Value)
            → (held_of self.old).stack ≡ text t ∷ rest
            → (octets ≡ t) × (held_of self.new ≡ record (held_of self.old) { stack = rest })) }
    {
        octets_in(alloc, self.pop_text())
    }

    /// Takes the text on top of the stack, and assigns its first bytes, modified, to a variable. Returns how many
    /// bytes the text has.
    ///
    /// # Errors
    ///
    /// `AllocError` if memory is refused.
    pub fn set(
        &mut self,
        alloc: Global,
        variable: usize,
        modifiers: Modifiers,
    ) -> Result<usize, AllocError>
        requires there { variable < length (held_of self.old).variables }
        requires top { (t : List ℕ)
            × ((rest : List Value) × ((held_of self.old).stack ≡ text t ∷ rest)) }
        ensures { IfOk result (λ len. (t : List ℕ) (rest : List Value)
            → (held_of self.old).stack ≡ text t ∷ rest
            → (len ≡ length t) × (held_of self.new
            ≡ record (held_of self.old) {
              stack = rest;
              variables = slice_set
                  (held_of self.old).variables variable
                  (take max_value (modified modifiers t));
            })) }
    {
        let entry = self.pop_text();
        let len = octets_of(&entry).len();
        let value = value_for(alloc, entry, modifiers)?;
        self.assign(variable, value);
        Ok(len)
    }

    /// Assigns a text to a variable.
    pub fn assign(&mut self, variable: usize, value: SharedText<'p>)
        requires { variable < length (held_of self.old).variables }
        ensures { held_of self.new ≡ record
            (held_of self.old) {
              variables = slice_set (held_of self.old).variables variable
                  (items_of value.entry);
            } }
    {
        self.variables[variable] = value;
    }

    /// Joins so many texts on top of the stack into one, cut to the length of the longest string. Returns how many
    /// bytes the texts have.
    ///
    /// # Errors
    ///
    /// `AllocError` if memory is refused.
    pub fn join(&mut self, alloc: Global, number: usize) -> Result<usize, AllocError>
        requires { (top : OnTop) × ((texts_on_top number (held_of self.old).stack ≡ Some top)
            × AreTexts top.texts) }
        ensures { IfOk result (λ len. (top : OnTop)
            → texts_on_top number (held_of self.old).stack ≡ Some top
            → (len ≡ sum_by length top.texts)
            × (held_of self.new ≡ record
            (held_of self.old) {
              stack = text (take max_string (concat top.texts))
                  ∷ top.below;
            })) }
    {
        let texts = self.texts(number);
        let len = total_len(&texts);
        let joined = joined(alloc, &texts)?;
        self.drop_texts(number);
        self.push_text(SharedText::new(alloc, joined)?)?;
        Ok(len)
    }

    // So many texts on top of the stack.
    fn texts<'s>(&'s self, number: usize) -> Pushed<'s, 'p>
        requires { (top : OnTop) × (texts_on_top number (held_of self.now).stack ≡ Some top) }
        ensures { (top : OnTop) → texts_on_top number (held_of self.now).stack ≡ Some top
            → texts_of result ≡ top.texts }
    {
        let below = self.entries.len() - number;
        Pushed {
            entries: &self.entries[below..],
        }
    }

    /// So many names or sources on the stack, so many parameters above them, and so many keys above these.
    #[inline(always)]
    pub fn lists<'s>(&'s self, counts: Counts) -> PushedLists<'s, 'p>
        requires { (top : Lists) × (lists_counted counts (held_of self.now).stack ≡ Some top) }
        ensures names { (top : Lists) → lists_counted counts (held_of self.now).stack ≡ Some top
            → texts_of result.names ≡ top.names }
        ensures params { (top : Lists) → lists_counted counts (held_of self.now).stack ≡ Some top
            → texts_of result.params ≡ top.params }
        ensures keys { (top : Lists) → lists_counted counts (held_of self.now).stack ≡ Some top
            → texts_of result.keys ≡ top.keys }
    {
        let keys = self.entries.len() - counts.keys;
        let params = keys - counts.params;
        let names = params - counts.names;
        PushedLists {
            names: self.between(names, params),
            params: self.between(params, keys),
            keys: self.between(keys, self.entries.len()),
        }
    }

    // The entries between two places.
    fn between<'s>(&'s self, from: usize, to: usize) -> Pushed<'s, 'p>
        requires order { from ≤ to }
        requires within { to ≤ length self.now.entries.items }
        ensures { texts_of result ≡ map octets_of (slice_range self.now.entries.items from to) }
    {
        Pushed {
            entries: &self.entries[from..to],
        }
    }

    // Drops so many texts on top of the stack.
    fn drop_texts(&mut self, number: usize)
        requires { (top : OnTop) × (texts_on_top number (held_of self.old).stack ≡ Some top) }
        ensures { (top : OnTop) → texts_on_top number (held_of self.old).stack ≡ Some top
            → held_of self.new ≡ record (held_of self.old) { stack = top.below } }
    {
        let below = self.entries.len() - number;
        self.entries.truncate(below);
    }

    /// Drops so many names or sources on the stack, so many parameters above them, and so many keys above these.
    pub fn drop_lists(&mut self, counts: Counts)
        requires { (top : Lists) × (lists_counted counts (held_of self.old).stack ≡ Some top) }
        ensures { (top : Lists) → lists_counted counts (held_of self.old).stack ≡ Some top
            → held_of self.new ≡ record (held_of self.old) { stack = top.below } }
    {
        let keys = self.entries.len() - counts.keys;
        let params = keys - counts.params;
        let names = params - counts.names;
        self.entries.truncate(names);
    }

    /// Keeps the captures that a test has set, and returns whether it has matched. Only captures are moved, because
    /// they are large.
    #[inline(always)]
    pub fn settle(&mut self, outcome: &mut Outcome<'m>) -> bool
        ensures matched { result ≡ is_some (after outcome.old (held_of self.old).captures) }
        ensures kept { held_of self.new
            ≡ record (held_of self.old) {
              captures = unwrap_or
                  (after outcome.old (held_of self.old).captures) (held_of self.old).captures;
            } }
    {
        match outcome {
            Outcome::Fails => false,
            Outcome::Holds => true,
            Outcome::Captures(_) => {
                if let Outcome::Captures(captured) = mem::replace(outcome, Outcome::Fails) {
                    self.captures.set(captured);
                }
                true
            }
        }
    }

    /// The entry on top of the stack.
    pub fn top(&self) -> Option<StackValue<'_>>
        ensures { option_map lent.value_of result ≡ top (held_of self.now).stack }
    {
        if let Some(value) = self.top {
            return Some(StackValue::Truth(value));
        }
        match self.entries.as_slice() {
            [.., entry] => Some(lent_of(entry)),
            [] => None,
        }
    }

    /// The bytes of a variable's value.
    pub fn value(&self, number: usize) -> Option<&[u8]>
        ensures { option_map (λ (value : Bor (List ℕ)). value.now) result
            ≡ slice_get (held_of self.now).variables number }
    {
        match self.variables.get(number) {
            Some(value) => Some(value.as_slice()),
            None => None,
        }
    }

    // The value of a variable.
    fn variable(&self, number: usize) -> Result<SharedText<'p>, AllocError>
        ensures { IfOk result (λ value. items_of value
            ≡ slice_index_or (held_of self.now).variables number []) }
    {
        match self.variables.get(number) {
            Some(value) => value.share(),
            None => Ok(SharedText::Lent(&[])),
        }
    }
}

// Takes the truth value that is the top one of the entries.
fn pop_truth(entries: &mut Vec<Entry<'_>>) -> bool
    requires { (b : Bool)
        × ((rest : List Value) × (map value_of (reverse entries.old.items) ≡ truth b ∷ rest)) }
    ensures { (b : Bool) (rest : List Value)
        → map value_of (reverse entries.old.items) ≡ truth b ∷ rest
        → (result ≡ b) × (map value_of (reverse entries.new.items) ≡ rest) }
{
    match entries.pop() {
        Some(Entry::Truth(value)) => value,
        _ => unreachable!(),
    }
}

// An entry, as a caller sees it.
fn lent_of<'s>(entry: &'s Entry<'_>) -> StackValue<'s>
    ensures { lent.value_of result ≡ value_of entry.now }
{
    match entry {
        Entry::Truth(value) => StackValue::Truth(*value),
        Entry::Text(text) => StackValue::Text(text.as_slice()),
    }
}

/// The bytes of an entry that is a text.
#[inline(always)]
pub fn octets_of<'s>(entry: &'s Entry<'_>) -> &'s [u8]
    ensures { result.now ≡ octets_of entry.now }
{
    match entry {
        Entry::Truth(_) => &[],
        Entry::Text(text) => text.as_slice(),
    }
}

// The bytes of an entry, moved if it is their only holder.
fn octets_in(alloc: Global, entry: Entry<'_>) -> Result<Octets, AllocError>
    ensures { IfOk result (λ octets. octets ≡ octets_of entry.entry) }
{
    match entry {
        Entry::Text(text) => text.into_octets(alloc),
        Entry::Truth(_) => copied(alloc, &[]),
    }
}

// The first bytes of a text, modified: the new value of a variable. Without modifiers they aren't copied if the entry
// has no more.
fn value_for<'p>(
    alloc: Global,
    entry: Entry<'p>,
    modifiers: Modifiers,
) -> Result<SharedText<'p>, AllocError>
    ensures { IfOk result (λ value. items_of value
        ≡ take max_value (modified modifiers (octets_of entry.entry))) }
{
    if modifiers.is_none() {
        return cut(alloc, entry);
    }
    let value = modifiers.apply(alloc, octets_of(&entry), MAX_VALUE)?;
    SharedText::new(alloc, value.into_vec())
}

// The first bytes of a text.
fn cut<'p>(alloc: Global, entry: Entry<'p>) -> Result<SharedText<'p>, AllocError>
    ensures { IfOk result (λ value. items_of value ≡ take max_value (octets_of entry.entry)) }
{
    match entry {
        Entry::Text(text) => text.cut(alloc),
        Entry::Truth(_) => Ok(SharedText::Lent(&[])),
    }
}
