// The numbers of a script.
ghost use Rattle.std.specs.Prelude.{◌≡◌, ◌<◌, ◌≤◌, ◌^◌, [], length, All, OnOk, OnErr};

use std::alloc::{AllocError, Global};
use std::collections::BTreeMap;
use std::marker::Model;

/// The different numbers of a script, in the order of their first use.
///
/// A contract sees the list of them. To add or find a number takes time in the logarithm of their number.
#[derive(Drop)]
pub struct Numbers {
    listed: Vec<u64>,
    // The place of each of them in the list.
    places: BTreeMap<u64, usize>,
}

impl Model for Numbers {
    ghost use Rattle.std.specs.Prelude.{◌≡◌, ℕ, List};
    ghost use Rattle.std.specs.BTreeMap.{get};
    ghost use Rattle.std.specs.Ordering.{nat_cmp};
    ghost use Rattle.sieve_compiler.specs.Growing.{found_in};

    ghost Value = { List ℕ };

    ghost view = { λ n. n.listed.items };

    ghost invariant = { λ n. (number : ℕ)
        → get nat_cmp n.places number ≡ found_in n.listed.items number };
}

impl Numbers {
    ghost use Rattle.std.specs.Prelude.{nat_eq};
    ghost use Rattle.octets.specs.Once.{place_in};
    ghost use Rattle.sieve_compiler.specs.Growing.{with_number};

    /// No numbers. It takes no memory.
    pub fn new(alloc: Global) -> Numbers
        ensures { result ≡ [] }
    {
        Numbers {
            listed: Vec::new(alloc),
            places: BTreeMap::new(alloc),
        }
    }

    /// Adds the number, unless it is in the list.
    ///
    /// # Errors
    ///
    /// `AllocError` if memory is refused. The list is then as it was before.
    pub fn add(&mut self, number: u64) -> Result<(), AllocError>
        ensures ok { OnOk result (self.new ≡ with_number self.old number) }
        ensures err { OnErr result (self.new ≡ self.old) }
    {
        if self.places.contains_key(&number) {
            return Ok(());
        }
        self.listed.reserve(1)?;
        self.places.insert(number, self.listed.len())?;
        self.listed.push(number).unwrap();
        Ok(())
    }

    /// The place of the number; the end of the list if it isn't in it.
    pub fn place_of(&self, number: u64) -> usize
        ensures place { result ≡ place_in nat_eq self.now number }
        ensures within { result ≤ length self.now }
    {
        let place = self.places.get(&number).copied();
        place.unwrap_or(self.listed.len())
    }

    /// The numbers, in order.
    pub fn into_list(self) -> Vec<u64>
        ensures list { result.items ≡ self }
        ensures numbers { All (λ n. n < 2 ^ 64) result.items }
    {
        self.listed
    }
}
