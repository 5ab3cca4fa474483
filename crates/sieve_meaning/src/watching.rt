// Who is told of the events of a script.
//
// There is one walk through a script. A trace watches it; if only the actions are wanted, nobody does.
ghost use Rattle.std.specs.Prelude.{◌≡◌, ◌∷◌, [], ◌++◌, ℕ, List, Option, alloc_error, ⊤};
ghost use Rattle.sieve_meaning.specs.Traced.{Event, Occurrence, event};
ghost use Rattle.sieve_meaning.specs.Watched.{Tells, occurrence_of, shown};

use bytecode_format::Question;
use mail_matching::Finding;
use sieve_check::Act;
use std::alloc::AllocError;

/// The result of a test or a command, lent to a [`Watching`] for one call.
#[derive(Clone, Copy)]
pub enum Told<'a> {
    /// A simple test was asked, is true or not, and has found this.
    Asked(Question, bool, Option<&'a Finding>),
    /// `not`, and whether it is true.
    Not(bool),
    /// `allof`, and whether it is true.
    AllOf(bool),
    /// `anyof`, and whether it is true.
    AnyOf(bool),
    /// An action, with its expanded string, or the value of the variable that it has set.
    Acted(&'a Act, &'a [u8]),
    /// A turn of a loop begins.
    Turn,
}

/// A watcher of an evaluation: it is told each event when it happens, and can end the evaluation.
///
/// [`Nobody`] watches if only the actions are wanted; a trace prints what it is told.
pub trait Watching {
    /// Why it ends an evaluation.
    type Failure: From<AllocError>;

    ghost most: { ℕ };

    // Between the first state and the second it was told these events.
    ghost has_heard: { Self → List Event → Self → Type 0 };

    // The evaluation ended in these events: between the states it was told the first of them.
    ghost has_stopped: { Self → Self.Failure → List Event → Self → Type 0 };

    /// Returns how many bytes it needs of a value and of a key that match. No more are copied.
    fn most(&self) -> usize
        ensures { result ≡ most };

    /// Is called for each event: what happened, at which token the test or command begins, and in which part.
    ///
    /// # Errors
    ///
    /// A failure ends the evaluation.
    fn tell(&mut self, at: usize, part: Option<usize>, what: Told<'_>) -> Result<(), Self::Failure>
        ensures { (occurrence : Occurrence) → shown most occurrence ≡ occurrence_of what.entry
            → Tells has_heard has_stopped self.old self.new (event at part occurrence ∷ []) result
            (λ done. ⊤) };

    // An evaluation to which memory is refused stops.
    ghost refused: { (start watcher : Self) (why : Self.Failure) (events : List Event)
        → Self.Failure.from_gives alloc_error why → has_heard start events watcher
        → has_stopped start why events watcher };

    // It has stopped in all events of which it was told the first.
    ghost goes_on: { (start watcher : Self) (why : Self.Failure) (events more : List Event)
        → has_stopped start why events watcher → has_stopped start why (events ++ more) watcher };
}

/// Nobody watches: an evaluation costs no more than its actions.
#[derive(Drop)]
pub struct Nobody;

impl Watching for Nobody {
    type Failure = AllocError;

    ghost most = { 0 };

    ghost has_heard = { λ start events now. Unit {0} };

    ghost has_stopped = { λ start why events now. Unit {0} };

    fn most(&self) -> usize {
        0
    }

    fn tell(
        &mut self,
        _at: usize,
        _part: Option<usize>,
        _what: Told<'_>,
    ) -> Result<(), AllocError> {
        Ok(())
    }

    ghost refused = { λ start watcher why events gives heard. record {} };

    ghost goes_on = { λ start watcher why events more stopped. record {} };
}

/// Tells a watcher the result of a test of other tests, and returns it.
///
/// # Errors
///
/// The watcher's failure.
#[inline(always)]
pub(crate) fn say<W: Watching>(
    watcher: &mut W,
    at: usize,
    part: Option<usize>,
    what: Told<'_>,
    value: bool,
) -> Result<bool, W::Failure>
    ensures { (occurrence : Occurrence) → shown W.most occurrence ≡ occurrence_of what.entry
        → Tells W.has_heard W.has_stopped watcher.old watcher.new (event at part occurrence ∷ []) result
        (λ told. told ≡ value) }
{
    watcher.tell(at, part, what)?;
    Ok(value)
}
