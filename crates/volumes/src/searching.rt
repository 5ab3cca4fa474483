// Finding the volume that has a number, by halving.
ghost use Rattle.std.specs.Prelude.{◌≡◌, ◌<◌, ◌≤◌, ◌+◌, ◌-◌, ◌*◌, IfErr, IfOk};
ghost use Rattle.volumes.specs.Applying.{IsSoughtPlace};
ghost use Rattle.volumes.specs.Holding.{IsFailure, IsLastAt, Keeps};
ghost use Rattle.volumes.specs.Places.{AsksFew};

use crate::holding::Volumes;
use depot_actions::Depot;
use refusals::Refusal;
use sqlite::Alter;

/// Returns the place of the first of `count` volumes whose last number for the user is at least `number`, or `count` if
/// none is. There can be more volumes: those from `count` on aren't asked.
///
/// It asks no more volumes for the user's last number than the logarithm of `count` to base 2, rounded down, and 1.
///
/// # Errors
///
/// The refusal of the question that was refused: `Memory` or `Database`.
pub fn place_of<S: Alter, V: Volumes<S, Depot<S>>>(
    volumes: &mut V,
    user: &str,
    number: u64,
    count: usize,
) -> Result<usize, Refusal>
    ensures place { IfOk result
        (IsSoughtPlace V.holding volumes.old volumes.new user.now number count) }
    ensures within { IfOk result (λ place. place ≤ count) }
    ensures keeps { Keeps V.holding volumes.old volumes.new }
    ensures refused { IfErr result (V.holding.refuses volumes.new) }
    ensures which { IfErr result IsFailure }
    ensures few { AsksFew count (V.holding.opened volumes.old) (V.holding.opened volumes.new) }
{
    let mut low = 0;
    let mut high = count;
    'halves: while low < high {
        let middle = middle_of(low, high);
        if last_at(volumes, user, middle)? < number {
            low = middle + 1;
        } else {
            high = middle;
        }
    }
    Ok(low)
}

// The last number that the user was given in the volume at a place.
fn last_at<S: Alter, V: Volumes<S, Depot<S>>>(
    volumes: &mut V,
    user: &str,
    place: usize,
) -> Result<u64, Refusal>
    ensures last { IfOk result (IsLastAt V.holding volumes.old volumes.new user.now place) }
    ensures keeps { Keeps V.holding volumes.old volumes.new }
    ensures refused { IfErr result (V.holding.refuses volumes.new) }
    ensures which { IfErr result IsFailure }
    ensures counted { V.holding.opened volumes.new ≤ V.holding.opened volumes.old + 1 }
{
    match volumes.last_of(place, user) {
        Ok(last) => Ok(u64::from(last)),
        Err(refusal) => Err(refusal),
    }
}

// A place in the middle of a stretch: what is before it, and what is after it, is at most half as long.
fn middle_of(low: usize, high: usize) -> usize
    requires { low < high }
    ensures within { (low ≤ result) × (result < high) }
    ensures halves { (2 * (result - low) ≤ high - low) × (2 * (high - (result + 1)) ≤ high - low) }
{
    low + (high - low) / 2
}
