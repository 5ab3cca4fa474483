// A stack of places of instructions.
ghost use Rattle.std.specs.Prelude.{◌≡◌, [], ◌∷◌, OnOk, length};
ghost use Rattle.bytecode_verifier.specs.Nests.{first_of, without_first};

use std::alloc::{AllocError, Global};
use std::marker::Model;

/// A stack of places of instructions. A contract sees their list, the top one first.
#[derive(Drop)]
pub struct Places {
    places: Vec<u32>,
}

impl Model for Places {
    ghost use Rattle.std.specs.Prelude.{ℕ, List, reverse};

    ghost Value = { List ℕ };

    ghost view = { λ p. reverse p.places.items };
}

impl Places {
    /// An empty stack.
    pub fn new(alloc: Global) -> Places
        ensures { result ≡ [] }
    {
        Places {
            places: Vec::new(alloc),
        }
    }

    /// Puts a place on top.
    ///
    /// # Errors
    ///
    /// `AllocError` if memory is refused.
    pub fn push(&mut self, place: u32) -> Result<(), AllocError>
        ensures { OnOk result (self.new ≡ place ∷ self.old) }
    {
        self.places.push(place)?;
        Ok(())
    }

    /// Takes the top place; 0 if there is none.
    pub fn pop(&mut self) -> u32
        ensures value { result ≡ first_of self.old }
        ensures left { self.new ≡ without_first self.old }
    {
        self.places.pop().unwrap_or(0)
    }

    /// The top place; 0 if there is none.
    pub fn first(&self) -> u32
        ensures { result ≡ first_of self.now }
    {
        self.places.last().copied().unwrap_or(0)
    }

    /// How many places there are.
    pub fn number(&self) -> usize
        ensures { result ≡ length self.now }
    {
        self.places.len()
    }
}
