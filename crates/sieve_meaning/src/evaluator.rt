// The evaluator of scripts.
//
// The evaluator copies freely. Only `trace` of a script runs it; deliveries, `eval` and `run` execute the compiled
// code. It tells a watcher each event when it happens, or nobody.
ghost use Rattle.std.specs.Prelude.{◌≡◌, ◌-◌, nat_lt, if◌then◌else◌, IfOk};
ghost use Rattle.sieve_meaning.specs.declared.evaluator.Flow.TheVariants.{GoesOn, Leaves};

use crate::subject::Subject;
use crate::variables::Variables;
use crate::watching::{Nobody, Told, Watching};
use bytecode_format::{Action, ActionList, Modifiers};
use mail_matching::Captured;
use mime_decode::Message;
use octets::{MAX_VALUE, Octets};
use sieve_check::{Act, Checked, Command};
use std::alloc::{AllocError, Global};

/// The state of a script that is evaluated: its actions, variables and captures.
///
/// Make one with [`Evaluator::new`], and call [`Evaluator::commands`] for a whole script, with a [`Watching`] that is
/// told the events. The fields are the result.
#[derive(Drop)]
pub struct Evaluator<'s, 'm> {
    /// The listed actions, each once.
    pub actions: ActionList,
    /// Whether the implicit keep still holds.
    pub implicit_keep: bool,
    /// The values of the variables.
    pub variables: Variables<'s>,
    /// The captures of the last match that has set them, if there is one.
    pub captures: Option<Captured<'m>>,
}

/// How a script continues after a command.
#[derive(Clone, Copy)]
pub enum Flow {
    /// With the next command.
    GoesOn,
    /// The script has stopped.
    Stopped,
    /// So many loops are left, the innermost first; at least one.
    Leaves(usize),
}

impl Flow {
    /// Returns how the script continues after a loop, if so many loops are left and it is the first of them: the next
    /// loop is left if there is more than one.
    pub fn left(loops: usize) -> Flow
        ensures { result ≡ (if nat_lt 1 loops then Leaves (loops - 1) else GoesOn) }
    {
        if loops > 1 {
            Flow::Leaves(loops - 1)
        } else {
            Flow::GoesOn
        }
    }
}

impl<'s, 'm> Evaluator<'s, 'm> {
    ghost use Rattle.std.specs.Prelude.{◌≡◌, ◌∷◌, [], ◌++◌, false, map, take, IfOk, OnOk};
    ghost use Rattle.sieve_check.specs.Bounded.{IsBoundedCommand, AreBoundedCommands};
    ghost use Rattle.sieve_check.specs.TypedView.{command_form, commands_form};
    ghost use Rattle.octets.specs.Limits.{max_value};
    ghost use Rattle.mail_matching.specs.Questions.{current};
    ghost use Rattle.bytecode_format.specs.Modifiers.{modified};
    ghost use Rattle.sieve_meaning.specs.Meaning.{Effects, no_effects, act_does, command_does, commands_do, stored, turns, with_taken, with_value};
    ghost use Rattle.sieve_meaning.specs.Traced.{act_event, command_events, commands_events, turns_events};
    ghost use Rattle.sieve_meaning.specs.Evaluation.{HasEvaluated, StandsAt};
    ghost use Rattle.sieve_meaning.specs.Watched.{Tells};
    ghost use Rattle.sieve_meaning.specs.Private.{turn_does, turn_events};
    ghost use Rattle.mime_decode.specs.Visited.{visited};

    /// Returns the state before the first command. It takes no memory.
    pub fn new(alloc: Global) -> Evaluator<'s, 'm>
        ensures { HasEvaluated no_effects result }
    {
        Evaluator {
            actions: ActionList::new(alloc),
            implicit_keep: true,
            variables: Variables::new(alloc),
            captures: None,
        }
    }

    // Adds an action, and cancels the implicit keep.
    fn list(&mut self, action: Action) -> Result<(), AllocError>
        ensures { (e : Effects) → HasEvaluated e self.old
            → OnOk result (HasEvaluated (record
            e { actions = e.actions ++ action ∷ []; implicit_keep = false }) self.new) }
    {
        self.actions.push(action)?;
        self.implicit_keep = false;
        Ok(())
    }

    // Gives a variable its value: the text, modified and cut.
    fn set(
        &mut self,
        alloc: Global,
        modifiers: Modifiers,
        name: &'s [u8],
        text: &[u8],
    ) -> Result<(), AllocError>
        ensures { (e : Effects) → HasEvaluated e self.old
            → OnOk result (HasEvaluated (record
            e {
              variables = with_value name.now (take max_value (modified modifiers text.now))
                  e.variables;
            })
            self.new) }
    {
        let value = modifiers.apply(alloc, text, MAX_VALUE)?;
        self.variables.set(name, value)?;
        Ok(())
    }

    // Gives a variable the first bytes of the current part's content, at most so many; no bytes if there is no part.
    fn take(
        &mut self,
        alloc: Global,
        subject: Subject<'_, 'm>,
        most: u16,
        name: &'s [u8],
    ) -> Result<(), AllocError>
        ensures { (e : Effects) → HasEvaluated e self.old
            → OnOk result (HasEvaluated (record
            e {
              variables = with_taken most name.now
                  (current subject.entry.message.now subject.entry.part) e.variables;
            })
            self.new) }
    {
        let Some(content) = subject.content(alloc)? else {
            return Ok(());
        };
        let octets = content.as_slice();
        let taken = &octets[..octets.len().min(usize::from(most))];
        let value = Octets::from_vec(Vec::from_slice(alloc, taken)?);
        self.variables.set(name, value)?;
        Ok(())
    }

    // Adds the action that stores the part in the folder; nothing if there is no part.
    fn store(&mut self, part: Option<usize>, folder: Octets) -> Result<(), AllocError>
        ensures { (e : Effects) → HasEvaluated e self.old
            → OnOk result (HasEvaluated (record e { actions = e.actions ++ stored part folder })
            self.new) }
    {
        if let Some(part) = part {
            self.actions.push(Action::Store(folder, part))?;
        }
        Ok(())
    }

    // Carries out an action. `text` is its string, expanded.
    fn act(
        &mut self,
        alloc: Global,
        act: &'s Act,
        text: Octets,
        subject: Subject<'_, 'm>,
    ) -> Result<Flow, AllocError>
        ensures { (e : Effects) → HasEvaluated e self.old
            → IfOk result (λ flow. StandsAt
            (act_does subject.entry.message.now subject.entry.part act.now text e) flow
            self.new) }
    {
        match act {
            Act::Keep => self.list(Action::Keep)?,
            Act::Discard => self.implicit_keep = false,
            Act::FileInto => self.list(Action::File(text))?,
            Act::Set { modifiers, name } => {
                self.set(alloc, *modifiers, name.as_slice(), text.as_slice())?;
            }
            Act::Take { most, name } => self.take(alloc, subject, *most, name.as_slice())?,
            Act::Store => self.store(subject.part, text)?,
            Act::Leave(loops) => return Ok(Flow::Leaves(usize::from(*loops))),
            Act::Stop => return Ok(Flow::Stopped),
        }
        Ok(Flow::GoesOn)
    }

    // Carries out an action, and tells it. If it sets a variable, the value that the variable has then is told.
    fn act_watched<W: Watching>(
        &mut self,
        alloc: Global,
        act: &'s Act,
        text: Octets,
        at: usize,
        subject: Subject<'_, 'm>,
        watcher: &mut W,
    ) -> Result<Flow, W::Failure>
        ensures { (e : Effects) → HasEvaluated e self.old
            → Tells W.has_heard W.has_stopped watcher.old watcher.new
            (act_event subject.entry.message.now subject.entry.part act.now text at e ∷ []) result
            (λ flow. StandsAt
            (act_does subject.entry.message.now subject.entry.part act.now text e) flow
            self.new) }
    {
        match act.sets() {
            Some(name) => {
                let flow = self.act(alloc, act, text, subject)?;
                let value = self.variables.value(name.as_slice());
                watcher.tell(at, subject.part, Told::Acted(act, value))?;
                Ok(flow)
            }
            None => {
                watcher.tell(at, subject.part, Told::Acted(act, text.as_slice()))?;
                Ok(self.act(alloc, act, text, subject)?)
            }
        }
    }

    // Carries out the commands on each part that a loop visits, up to a turn that stops the script or leaves the
    // loop. Each turn is told before what is done in it.
    #[cycle(commands)]
    fn for_every_part<W: Watching>(
        &mut self,
        alloc: Global,
        block: &'s [Command],
        at: usize,
        subject: Subject<'_, 'm>,
        watcher: &mut W,
    ) -> Result<Flow, W::Failure>
        requires { AreBoundedCommands (commands_form block.now) }
        ensures { (e : Effects) → HasEvaluated e self.old
            → Tells W.has_heard W.has_stopped watcher.old watcher.new
            (turns_events at (turn_does subject.entry.message.now (commands_form block.now))
            (turn_events subject.entry.message.now (commands_form block.now))
            (visited subject.entry.part subject.entry.message.now) e) result
            (λ flow. StandsAt
            (turns (turn_does subject.entry.message.now (commands_form block.now))
            (visited subject.entry.part subject.entry.message.now) e) flow self.new) }
    {
        let parts = subject.visited();
        'parts: for part in parts.start..parts.end {
            watcher.tell(at, Some(part), Told::Turn)?;
            match self.commands(alloc, block, subject.at(part), watcher)? {
                Flow::GoesOn => {}
                Flow::Stopped => return Ok(Flow::Stopped),
                Flow::Leaves(loops) => return Ok(Flow::left(loops)),
            }
        }
        Ok(Flow::GoesOn)
    }

    // Carries out a command. It is part of the typed form of a checked script.
    #[cycle(commands)]
    fn command<W: Watching>(
        &mut self,
        alloc: Global,
        command: &'s Command,
        subject: Subject<'_, 'm>,
        watcher: &mut W,
    ) -> Result<Flow, W::Failure>
        requires { IsBoundedCommand (command_form command.now) }
        ensures { (e : Effects) → HasEvaluated e self.old
            → Tells W.has_heard W.has_stopped watcher.old watcher.new
            (command_events subject.entry.message.now subject.entry.part
            (command_form command.now) e) result
            (λ flow. StandsAt
            (command_does subject.entry.message.now subject.entry.part
            (command_form command.now) e) flow self.new) }
    {
        match command {
            Command::Does { act, string, at } => {
                let text = self.expanded(alloc, string)?;
                self.act_watched(alloc, act, text, *at, subject, watcher)
            }
            Command::ForEveryPart { block, at } => {
                self.for_every_part(alloc, block, *at, subject, watcher)
            }
            Command::If(branches, otherwise) => {
                'branches: for branch in branches {
                    if self.is_true(alloc, &branch.test, subject, watcher)? {
                        return self.commands(alloc, &branch.block, subject, watcher);
                    }
                }
                match otherwise {
                    Some(block) => self.commands(alloc, block, subject, watcher),
                    None => Ok(Flow::GoesOn),
                }
            }
        }
    }

    /// Carries out commands, one after the other, up to one that stops the script or leaves a loop. The watcher is told
    /// each event when it happens.
    ///
    /// # Requires
    ///
    /// The commands are part of the typed form of a checked script (`AreBoundedCommands`).
    ///
    /// # Errors
    ///
    /// The watcher's failure, also if memory is refused. It was told the first of the events then.
    #[cycle(commands)]
    pub fn commands<W: Watching>(
        &mut self,
        alloc: Global,
        commands: &'s [Command],
        subject: Subject<'_, 'm>,
        watcher: &mut W,
    ) -> Result<Flow, W::Failure>
        requires { AreBoundedCommands (commands_form commands.now) }
        ensures { (e : Effects) → HasEvaluated e self.old
            → Tells W.has_heard W.has_stopped watcher.old watcher.new
            (commands_events subject.entry.message.now subject.entry.part
            (commands_form commands.now) e) result
            (λ flow. StandsAt
            (commands_do subject.entry.message.now subject.entry.part
            (commands_form commands.now) e) flow self.new) }
    {
        'commands: for command in commands {
            match self.command(alloc, command, subject, watcher)? {
                Flow::GoesOn => {}
                flow => return Ok(flow),
            }
        }
        Ok(Flow::GoesOn)
    }
}

ghost use Rattle.sieve_check.specs.Bounded.{AreBoundedCommands};
ghost use Rattle.sieve_check.specs.TypedView.{commands_form};
ghost use Rattle.sieve_meaning.specs.Meaning.{meaning};

// The final actions of the commands on the message.
fn eval_commands(
    alloc: Global,
    commands: &[Command],
    message: &Message<'_>,
) -> Result<Vec<Action>, AllocError>
    requires { AreBoundedCommands (commands_form commands.now) }
    ensures { IfOk result (λ actions. actions.items
        ≡ meaning message.now (commands_form commands.now)) }
{
    let mut evaluator = Evaluator::new(alloc);
    let _flow = evaluator.commands(alloc, commands, Subject::of(message), &mut Nobody)?;
    evaluator.actions.into_final(evaluator.implicit_keep)
}

/// Returns the final actions of the script on the message: exactly those of its meaning.
///
/// For example, the empty script keeps the message: its one action is Keep.
///
/// # Errors
///
/// `AllocError` if memory is refused.
pub fn plain_eval(
    alloc: Global,
    checked: &Checked,
    message: &Message<'_>,
) -> Result<Vec<Action>, AllocError>
    ensures { IfOk result (λ actions. actions.items
        ≡ meaning message.now (commands_form checked.now.commands)) }
{
    eval_commands(alloc, checked.commands(), message)
}
