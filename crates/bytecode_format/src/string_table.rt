// Tables of strings.
//
// An ordered map next to the list finds the strings of a script, so a string takes time in the logarithm of their
// number. The table lends from the script while code is made; each string is copied once, when the table is done.
ghost use Rattle.std.specs.Prelude.{◌≡◌, ◌≤◌, [], ◌∷◌, ◌++◌, length, map, OnOk, OnErr, IfOk};

use octets::Octets;
use std::alloc::{AllocError, Global};
use std::collections::BTreeMap;
use std::marker::Model;

/// A table of strings that are lent: those of a program, or the names of its variables.
///
/// The compiler and the assembler add each string with [`StringTable::add`] and use its place as a number; at the end
/// [`StringTable::to_list`] copies them. To add or find a string takes time in the logarithm of their number. A
/// contract sees the list of the strings.
#[derive(Drop)]
pub struct StringTable<'a> {
    listed: Vec<&'a [u8]>,
    // The first place of each of them in the list.
    places: BTreeMap<&'a [u8], usize>,
}

impl<'a> Model for StringTable<'a> {
    ghost use Rattle.std.specs.Prelude.{◌≡◌, ℕ, List, bytes_eq, map};
    ghost use Rattle.std.specs.Borrow.{Bor};
    ghost use Rattle.std.specs.BTreeMap.{get_by};
    ghost use Rattle.std.specs.Ordering.{nat_cmp};
    ghost use Rattle.std.specs.Cmp.Lexicographic.{slice_cmp};
    ghost use Rattle.octets.specs.Once.{found_in};

    ghost Value = { List (List ℕ) };

    ghost view = { λ s. map (λ (text : Bor (List ℕ)). text.now) s.listed.items };

    ghost invariant = { λ s. (text : List ℕ)
        → get_by (λ (key : Bor (List ℕ)). slice_cmp nat_cmp text key.now) s.places
        ≡ found_in bytes_eq (map (λ (text : Bor (List ℕ)). text.now) s.listed.items) text };
}

impl<'a> StringTable<'a> {
    ghost use Rattle.std.specs.Prelude.{bytes_eq};
    ghost use Rattle.octets.specs.Once.{found_in, place_in, with_one};

    /// Returns a table of no strings. It takes no memory.
    pub fn new(alloc: Global) -> StringTable<'a>
        ensures { result ≡ [] }
    {
        StringTable {
            listed: Vec::new(alloc),
            places: BTreeMap::new(alloc),
        }
    }

    /// Adds the string at the end, unless the table has it.
    ///
    /// # Errors
    ///
    /// `AllocError` if memory is refused. The table is then as it was before.
    pub fn add(&mut self, text: &'a [u8]) -> Result<(), AllocError>
        ensures ok { OnOk result (self.new ≡ with_one bytes_eq self.old text.now) }
        ensures err { OnErr result (self.new ≡ self.old) }
    {
        if self.places.contains_key(text) {
            return Ok(());
        }
        self.listed.reserve(1)?;
        self.places.insert(text, self.listed.len())?;
        self.listed.push(text).unwrap();
        Ok(())
    }

    /// Adds the string at the end, even if the table has it.
    ///
    /// # Errors
    ///
    /// `AllocError` if memory is refused. The table is then as it was before.
    pub fn push(&mut self, text: &'a [u8]) -> Result<(), AllocError>
        ensures ok { OnOk result (self.new ≡ self.old ++ text.now ∷ []) }
        ensures err { OnErr result (self.new ≡ self.old) }
    {
        if self.places.contains_key(text) {
            return Ok(self.listed.push(text)?);
        }
        self.add(text)
    }

    /// Returns how many strings the table has.
    pub fn count(&self) -> usize
        ensures { result ≡ length self.now }
    {
        self.listed.len()
    }

    /// Returns the first place of the string, counted from 0; `None` if the table doesn't have it.
    pub fn get(&self, text: &[u8]) -> Option<usize>
        ensures { result ≡ found_in bytes_eq self.now text.now }
    {
        self.places.get(text).copied()
    }

    /// Returns the first place of the string, counted from 0; the number of strings if the table doesn't have it.
    pub fn place_of(&self, text: &[u8]) -> usize
        ensures place { result ≡ place_in bytes_eq self.now text.now }
        ensures within { result ≤ length self.now }
    {
        self.get(text).unwrap_or(self.listed.len())
    }

    /// Returns copies of the strings, in order.
    ///
    /// # Errors
    ///
    /// `AllocError` if memory is refused.
    pub fn to_list(&self, alloc: Global) -> Result<Vec<Octets>, AllocError>
        ensures { IfOk result (λ list. list.items ≡ self.now) }
    {
        let mut list = Vec::with_capacity(alloc, self.listed.len())?;
        for text in &self.listed {
            list.push(Octets::from_vec(text.to_vec(alloc)?))?;
        }
        Ok(list)
    }
}
