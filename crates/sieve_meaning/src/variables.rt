// The values of variables.
ghost use Rattle.std.specs.Prelude.{◌≡◌, ℕ, List, [], OnOk};
ghost use Rattle.sieve_meaning.specs.Meaning.{with_value};
ghost use Rattle.sieve_meaning.specs.Values.{found_in};

use octets::Octets;
use std::alloc::{AllocError, Global};
use std::collections::BTreeMap;

/// The values of the variables that were set, by their names, which are lent by the script.
///
/// A variable that was never set is empty.
#[derive(Drop)]
pub struct Variables<'s> {
    pub values: BTreeMap<&'s [u8], Octets>,
}

impl<'s> Variables<'s> {
    /// No variables are set. It takes no memory.
    pub fn new(alloc: Global) -> Variables<'s>
        ensures { (name : List ℕ) → found_in result.values name ≡ [] }
    {
        Variables {
            values: BTreeMap::new(alloc),
        }
    }

    /// Gives a variable its value.
    ///
    /// # Errors
    ///
    /// `AllocError` if memory is refused.
    pub fn set(&mut self, name: &'s [u8], value: Octets) -> Result<(), AllocError>
        ensures { OnOk result ((other : List ℕ)
            → found_in self.new.values other
            ≡ with_value name.now value (found_in self.old.values) other) }
    {
        self.values.insert(name, value)?;
        Ok(())
    }

    /// The value of a variable; empty if it was never set.
    pub fn value(&self, name: &[u8]) -> &[u8]
        ensures { result.now ≡ found_in self.now.values name.now }
    {
        match self.values.get(name) {
            Some(value) => value.as_slice(),
            None => &[],
        }
    }
}
