// The actions of a run, each once.
//
// Actions are kept as a run lists them, each different one once, in a tree next to the list. A run that lists the
// same action a million times holds it once. An action takes time in the logarithm of their number; a Keep, and the
// action that was listed last, take no search.
ghost use Rattle.std.specs.Prelude.{◌≡◌, [], IfOk, IsTrue, OnOk, OnErr};

use crate::action::Action;
use std::alloc::{AllocError, Global};
use std::collections::BTreeSet;
use std::marker::Model;

/// The different actions of a run, in the order of their first occurrences.
///
/// A run makes one with [`ActionList::new`], adds its actions with [`ActionList::push`], and ends with
/// [`ActionList::into_final`]. To add an action takes time in the logarithm of their number. A contract sees the
/// list.
#[derive(Drop)]
pub struct ActionList {
    listed: Vec<Action>,
    // The same actions, sorted.
    seen: BTreeSet<Action>,
    // Whether Keep is one of them.
    keeps: bool,
}

impl Model for ActionList {
    ghost use Rattle.std.specs.Prelude.{◌≡◌, List};
    ghost use Rattle.bytecode_format.specs.declared.action.Action.{Action};
    ghost use Rattle.bytecode_format.specs.Action.{action_cmp};
    ghost use Rattle.bytecode_format.specs.Actions.{is_listed};
    ghost use Rattle.bytecode_format.specs.declared.action.Action.TheVariants.{Keep};
    ghost use Rattle.std.specs.BTreeSet.{contains};

    ghost Value = { List Action };

    ghost view = { λ l. l.listed.items };

    ghost invariant = { λ l. ((action : Action)
        → contains action_cmp l.seen action ≡ is_listed action l.listed.items)
        × (l.keeps ≡ is_listed Keep l.listed.items) };
}

impl ActionList {
    ghost use Rattle.std.specs.Prelude.{◌||◌, false};
    ghost use Rattle.bytecode_format.specs.declared.action.Action.TheVariants.{Keep};
    ghost use Rattle.bytecode_format.specs.Action.{is_same};
    ghost use Rattle.bytecode_format.specs.Actions.{is_listed, with_action, with_implicit_keep};

    /// Returns a list of no actions. It takes no memory.
    pub fn new(alloc: Global) -> ActionList
        ensures { result ≡ [] }
    {
        ActionList {
            listed: Vec::new(alloc),
            seen: BTreeSet::new(alloc),
            keeps: false,
        }
    }

    // Whether the action is listed. A Keep, and the action that was listed last, take no search.
    #[inline(always)]
    fn has(&self, action: &Action) -> bool
        ensures { result ≡ is_listed action.now self.now }
    {
        match action {
            Action::Keep => self.keeps,
            _ => self.is_last(action) || self.seen.contains(action),
        }
    }

    // Whether the action was listed last.
    fn is_last(&self, action: &Action) -> bool
        ensures { IsTrue result → IsTrue (is_listed action.now self.now) }
    {
        match self.listed.last() {
            Some(last) => last == action,
            None => false,
        }
    }

    // Whether Keep is in the list after the action is added.
    fn will_keep(&self, action: &Action) -> bool
        ensures { result ≡ (is_listed Keep self.now || is_same action.now Keep) }
    {
        self.keeps || *action == Action::Keep
    }

    /// Adds the action at the end, unless an equal one is in the list.
    ///
    /// # Errors
    ///
    /// `AllocError` if memory is refused. The list is then as it was before.
    #[inline(always)]
    pub fn push(&mut self, action: Action) -> Result<(), AllocError>
        ensures ok { OnOk result (self.new ≡ with_action self.old action) }
        ensures err { OnErr result (self.new ≡ self.old) }
    {
        if self.has(&action) {
            return Ok(());
        }
        self.add(action)
    }

    // Adds an action that isn't in the list.
    #[inline(never)]
    fn add(&mut self, action: Action) -> Result<(), AllocError>
        requires { is_listed action self.old ≡ false }
        ensures ok { OnOk result (self.new ≡ with_action self.old action) }
        ensures err { OnErr result (self.new ≡ self.old) }
    {
        let keeps = self.will_keep(&action);
        self.listed.reserve(1)?;
        self.seen.insert(action.clone()?)?;
        self.listed.push(action).unwrap();
        self.keeps = keeps;
        Ok(())
    }

    /// Returns the final actions: those of the list, and then Keep if `implicit_keep` holds and no Keep is in the
    /// list.
    ///
    /// # Errors
    ///
    /// `AllocError` if memory is refused.
    pub fn into_final(mut self, implicit_keep: bool) -> Result<Vec<Action>, AllocError>
        ensures { IfOk result (λ v. v.items ≡ with_implicit_keep self implicit_keep) }
    {
        if implicit_keep && !self.keeps {
            self.listed.push(Action::Keep)?;
        }
        Ok(self.listed)
    }
}

ghost use Rattle.bytecode_format.specs.Actions.{final_actions};

/// Makes a run's actions final: returns the first occurrence of each, in order, and then Keep if `implicit_keep`
/// holds and there is no Keep.
///
/// # Errors
///
/// `AllocError` if memory is refused.
pub fn final_actions(
    alloc: Global,
    actions: Vec<Action>,
    implicit_keep: bool,
) -> Result<Vec<Action>, AllocError>
    ensures { IfOk result (λ v. v.items ≡ final_actions actions.items implicit_keep) }
{
    let mut list = ActionList::new(alloc);
    'all: for action in actions {
        list.push(action)?;
    }
    list.into_final(implicit_keep)
}
