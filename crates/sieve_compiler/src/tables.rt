// The tables of a script's program.
//
// The tables of a script are collected in a pass of their own, so each index is known when its instruction is
// written.
ghost use Rattle.std.specs.Prelude.{◌≡◌, ◌<◌, ◌≤◌, ◌^◌, length, All, IfOk};

use crate::numbers::Numbers;
use bytecode_format::StringTable;
use octets::Octets;
use std::alloc::{AllocError, Global};
use std::marker::Model;

/// What the instructions of a script refer to by its place: its numbers, its texts and its variables.
///
/// A contract sees the tables of the definition.
#[derive(Drop)]
pub struct Tables<'a> {
    pub numbers: Numbers,
    pub strings: StringTable<'a>,
    pub variables: StringTable<'a>,
}

impl<'a> Model for Tables<'a> {
    ghost use Rattle.sieve_compiler.specs.Tables.{Tables, tables_with};

    ghost Value = { Tables };

    ghost view = { λ t. tables_with t.numbers t.strings t.variables };
}

impl<'a> Tables<'a> {
    ghost use Rattle.std.specs.Prelude.{[]};
    ghost use Rattle.sieve_compiler.specs.Tables.{tables_with, place_of_number, place_of_string, place_of_variable};

    /// No numbers, texts or variables. It takes no memory.
    pub fn new(alloc: Global) -> Tables<'a>
        ensures { result ≡ tables_with [] [] [] }
    {
        Tables {
            numbers: Numbers::new(alloc),
            strings: StringTable::new(alloc),
            variables: StringTable::new(alloc),
        }
    }

    /// The place of the number; the end of the table if it isn't in it.
    pub fn place_of_number(&self, number: u64) -> usize
        ensures place { result ≡ place_of_number self.now number }
        ensures within { result ≤ length self.now.numbers }
    {
        self.numbers.place_of(number)
    }

    /// The place of the variable with this name; the end of the table if it isn't in it.
    pub fn place_of_variable(&self, name: &[u8]) -> usize
        ensures place { result ≡ place_of_variable self.now name.now }
        ensures within { result ≤ length self.now.variables }
    {
        self.variables.place_of(name)
    }

    /// The place of the text; the end of the table if it isn't in it.
    pub fn place_of_string(&self, text: &[u8]) -> usize
        ensures place { result ≡ place_of_string self.now text.now }
        ensures within { result ≤ length self.now.strings }
    {
        self.strings.place_of(text)
    }

    /// How many variables there are.
    pub fn variable_count(&self) -> usize
        ensures { result ≡ length self.now.variables }
    {
        self.variables.count()
    }

    /// Copies of the texts, in order.
    ///
    /// # Errors
    ///
    /// `AllocError` if memory is refused.
    pub fn strings(&self, alloc: Global) -> Result<Vec<Octets>, AllocError>
        ensures { IfOk result (λ list. list.items ≡ self.now.strings) }
    {
        self.strings.to_list(alloc)
    }

    /// The numbers, in order.
    pub fn into_numbers(self) -> Vec<u64>
        ensures list { result.items ≡ self.entry.numbers }
        ensures numbers { All (λ n. n < 2 ^ 64) result.items }
    {
        self.numbers.into_list()
    }
}
