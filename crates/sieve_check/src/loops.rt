// The loops that are open around a command or test (RFC 5703, section 3).
ghost use Rattle.std.specs.Prelude.{◌≡◌, ◌≤◌};
ghost use Rattle.octets.specs.Limits.{max_loops};
ghost use Rattle.sieve_check.specs.Reading.{loop_in, name_in};
ghost use Rattle.sieve_check.specs.Surroundings.{is_meant};

use bytecode_format::MAX_LOOPS;

/// The name of an open loop.
#[derive(Clone, Copy)]
pub enum LoopName<'t> {
    /// It has no name.
    Nameless,
    /// This is its name.
    Named(&'t [u8]),
    /// Its arguments can't be read: it can have any name.
    Unreadable,
}

// Whether a loop is meant: every one if there is no name, else those with just this name, and those that can have it.
fn is_meant(name: Option<&[u8]>, loop_name: LoopName<'_>) -> bool
    ensures { result ≡ is_meant (name_in name.entry) (loop_in loop_name.entry) }
{
    match name {
        Some(name) => match loop_name {
            LoopName::Named(other) => name == other,
            LoopName::Nameless => false,
            LoopName::Unreadable => true,
        },
        None => true,
    }
}

/// The loops that are open.
#[derive(Clone, Copy)]
pub struct Loops<'t> {
    /// The innermost is the first; those after the open ones mean nothing.
    pub names: [LoopName<'t>; MAX_LOOPS],
    /// How many are open.
    pub number: usize,
    ghost few: { number ≤ max_loops },
}

impl<'t> Loops<'t> {
    ghost use Rattle.std.specs.Prelude.{◌≡◌, [], ◌∷◌, true, false, nat_lt, not, length, MatchOption};
    ghost use Rattle.octets.specs.Limits.{max_loops};
    ghost use Rattle.sieve_check.specs.Reading.{loop_in, name_in};
    ghost use Rattle.sieve_check.specs.Refusing.{open_loops};
    ghost use Rattle.sieve_check.specs.Surroundings.{loops_left};

    /// No loops.
    pub fn none() -> Loops<'t>
        ensures { open_loops result ≡ [] }
    {
        Loops {
            names: [LoopName::Nameless; MAX_LOOPS],
            number: 0,
        }
    }

    /// Whether there are some.
    pub fn are_some(self) -> bool
        ensures { result ≡ nat_lt 0 (length (open_loops self.entry)) }
    {
        self.number > 0
    }

    /// Whether there are as many as there can be.
    pub fn are_full(self) -> bool
        ensures { result ≡ not (nat_lt (length (open_loops self.entry)) max_loops) }
    {
        self.number >= MAX_LOOPS
    }

    /// These and one inside them; `None` if there would be too many.
    pub fn with(self, name: LoopName<'t>) -> Option<Loops<'t>>
        ensures { MatchOption result (nat_lt (length (open_loops self.entry)) max_loops ≡ false)
            (λ all. (nat_lt (length (open_loops self.entry)) max_loops ≡ true)
            × (open_loops all ≡ loop_in name.entry ∷ open_loops self.entry)) }
    {
        if self.are_full() {
            return None;
        }
        let [first, second, _] = self.names;
        Some(Loops {
            names: [name, first, second],
            number: self.number + 1,
        })
    }

    /// How many of them a `break` leaves, the innermost first: up to the first that is meant, if one is.
    pub fn left_by(self, name: Option<&[u8]>) -> Option<u8>
        ensures { result ≡ loops_left (name_in name.entry) (open_loops self.entry) }
    {
        let mut left = 0u8;
        for loop_name in &self.names[..self.number] {
            left += 1;
            if is_meant(name, *loop_name) {
                return Some(left);
            }
        }
        None
    }
}
