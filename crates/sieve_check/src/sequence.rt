// Commands of the typed form, put together from single commands.
use crate::form_error::FormError;
use crate::typed::{Branch, Command};
use std::alloc::{AllocError, Global};
use std::mem;

/// A single command: what it adds to the commands before it.
#[derive(Drop)]
pub enum Part {
    /// `require` adds nothing.
    Nothing,
    /// A command without branches adds itself.
    Action(Command),
    /// `if` adds a choice, with its first branch.
    First(Branch),
    /// `elsif` adds a branch to the choice before it.
    Next(Branch),
    /// `else` adds the last branch to the choice before it.
    Last(Vec<Command>),
}

/// The commands before a place, and the branches of a choice to which more can be added.
#[derive(Drop)]
pub struct Sequence {
    /// The commands that are complete.
    pub commands: Vec<Command>,
    /// The branches of the open choice; none if no choice is open.
    pub branches: Vec<Branch>,
}

impl Sequence {
    ghost use Rattle.std.specs.Prelude.{◌≡◌, [], IfOk, OnOk, MatchResult};
    ghost use Rattle.sieve_check.specs.declared.form_error.FormError.TheVariants.{Malformed};
    ghost use Rattle.sieve_check.specs.Sequences.{Closed, Pushed, Unfit, joined};
    ghost use Rattle.sieve_check.specs.Typed.{CommandForms, no_branch, no_command};
    ghost use Rattle.sieve_check.specs.TypedView.{commands_form};
    ghost use Rattle.sieve_check.specs.Private.{else_form};

    /// Before the first of so many commands.
    ///
    /// # Errors
    ///
    /// `AllocError` if memory is refused.
    pub fn new(alloc: Global, number: usize) -> Result<Sequence, AllocError>
        ensures commands { IfOk result (λ sequence. sequence.commands.items ≡ []) }
        ensures branches { IfOk result (λ sequence. sequence.branches.items ≡ []) }
    {
        Ok(Sequence {
            commands: Vec::with_capacity(alloc, number)?,
            branches: Vec::new(alloc),
        })
    }

    // Ends the choice, if there is one, with the block of its `else`, if there is one.
    fn close(&mut self, alloc: Global, last: Option<Vec<Command>>) -> Result<(), AllocError>
        ensures { OnOk result (Closed self.old (else_form last) self.new) }
    {
        if self.branches.is_empty() {
            return Ok(());
        }
        let branches = mem::replace(&mut self.branches, Vec::new(alloc));
        self.commands.push(Command::If(branches, last))?;
        Ok(())
    }

    /// Adds what a command adds. A further branch can only be added to an open choice.
    ///
    /// # Errors
    ///
    /// - `FormError::Malformed` if there is no open choice for a further branch.
    /// - `FormError::Memory` if memory is refused.
    pub fn push(&mut self, alloc: Global, part: Part) -> Result<(), FormError>
        ensures { MatchResult result (λ _. Pushed self.old part self.new)
            (λ e. e ≡ Malformed → Unfit self.old part) }
    {
        let is_open = !self.branches.is_empty();
        match part {
            Part::Nothing => self.close(alloc, None)?,
            Part::Action(command) => {
                self.close(alloc, None)?;
                self.commands.push(command)?;
            }
            Part::First(branch) => {
                self.close(alloc, None)?;
                // Most choices have one branch.
                self.branches.reserve_exact(1)?;
                self.branches.push(branch)?;
            }
            Part::Next(branch) if is_open => self.branches.push(branch)?,
            Part::Last(block) if is_open => self.close(alloc, Some(block))?,
            Part::Next(_) | Part::Last(_) => return Err(FormError::Malformed),
        }
        Ok(())
    }

    /// The commands.
    ///
    /// # Errors
    ///
    /// `AllocError` if memory is refused.
    pub fn finish(self, alloc: Global) -> Result<Vec<Command>, AllocError>
        ensures { IfOk result (λ commands. commands_form commands.items
            ≡ joined self no_branch no_command) }
    {
        let mut sequence = self;
        sequence.close(alloc, None)?;
        Ok(sequence.commands)
    }
}
