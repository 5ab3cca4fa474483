// The strings of arguments, one after another.
//
// A string counts the same by itself and in a list. So each search of strings, and whatever is gathered from them, is
// one loop over this iterator.
ghost use Rattle.std.specs.Prelude.{◌≡◌, [], ◌∷◌, ◌++◌, MatchOption};
ghost use Rattle.sieve_parser.specs.View.{argument_tree};
ghost use Rattle.sieve_check.specs.Rules.{strings_in};

use crate::signature::Lists;
use octets::Octets;
use sieve_parser::Argument;
use std::marker::Model;

// The first string of an argument and those after it, if it is a string or a list.
#[inline]
fn first_and_others(argument: &Argument) -> Option<(&Octets, &[Octets])>
    ensures { MatchOption result (strings_in (argument_tree argument.now) ≡ [])
        (λ strings. strings_in (argument_tree argument.now) ≡ strings.0.now ∷ strings.1.now) }
{
    match argument {
        Argument::Text(string) => Some((string, &[])),
        Argument::TextList(first, others) => Some((first, others)),
        Argument::Number(_) | Argument::Tag(_) => None,
    }
}

impl<'t> Lists<'t> {
    ghost use Rattle.std.specs.Prelude.{◌≡◌, [], ◌∷◌, ◌++◌, MatchOption};
    ghost use Rattle.sieve_parser.specs.View.{argument_tree};
    ghost use Rattle.sieve_check.specs.Reading.{all_lists};
    ghost use Rattle.sieve_check.specs.Rules.{strings_of};

    // The first list, and the others.
    #[inline]
    fn split_first(self) -> Option<(&'t Argument, Lists<'t>)>
        ensures { MatchOption result (all_lists self.entry ≡ [])
            (λ found. all_lists self.entry ≡ argument_tree found.0.now ∷ all_lists found.1) }
    {
        if let Some((list, first)) = self.first.split_first() {
            return Some((list, Lists { first, ..self }));
        }
        if let Some((list, params)) = self.params.split_first() {
            return Some((list, Lists { params, ..self }));
        }
        let (list, others) = self.others.split_first()?;
        Some((list, Lists { others, ..self }))
    }

    // The first string of the lists, those after it in its list, and the lists after that.
    #[inline]
    fn first_string(self) -> Option<(&'t Octets, &'t [Octets], Lists<'t>)>
        ensures { MatchOption result (strings_of (all_lists self.entry) ≡ [])
            (λ found. strings_of (all_lists self.entry)
            ≡ found.0.now ∷ (found.1.now ++ strings_of (all_lists found.2))) }
    {
        let mut lists = self;
        'lists: while let Some((list, others)) = lists.split_first() {
            lists = others;
            if let Some((first, strings)) = first_and_others(list) {
                return Some((first, strings, lists));
            }
        }
        None
    }
}

/// An iterator over the strings of arguments, in order: each that is an argument by itself, and those of each list.
///
/// A contract sees the list of the strings that haven't been returned.
#[derive(Drop)]
pub struct ArgumentStrings<'t> {
    // Those that are left of a list.
    strings: &'t [Octets],
    // The lists after it.
    lists: Lists<'t>,
}

impl<'t> Model for ArgumentStrings<'t> {
    ghost use Rattle.std.specs.Prelude.{ℕ, List, ◌++◌};
    ghost use Rattle.sieve_check.specs.Reading.{all_lists};
    ghost use Rattle.sieve_check.specs.Rules.{strings_of};

    ghost Value = { List (List ℕ) };

    ghost view = { λ s. s.strings.now ++ strings_of (all_lists s.lists) };
}

impl<'t> ArgumentStrings<'t> {
    ghost use Rattle.std.specs.Prelude.{◌≡◌, map};
    ghost use Rattle.sieve_parser.specs.View.{argument_tree};
    ghost use Rattle.sieve_check.specs.Reading.{all_lists};
    ghost use Rattle.sieve_check.specs.Rules.{strings_of};

    /// The strings of arguments.
    #[inline]
    pub fn of(arguments: &'t [Argument]) -> ArgumentStrings<'t>
        ensures { result ≡ strings_of (map argument_tree arguments.now) }
    {
        ArgumentStrings::in_lists(Lists {
            first: &[],
            params: &[],
            others: arguments,
        })
    }

    /// The strings of lists.
    #[inline]
    pub fn in_lists(lists: Lists<'t>) -> ArgumentStrings<'t>
        ensures { result ≡ strings_of (all_lists lists.entry) }
    {
        ArgumentStrings {
            strings: &[],
            lists,
        }
    }
}

impl<'t> Iterator for ArgumentStrings<'t> {
    type Item = &'t Octets;

    ghost use Rattle.std.specs.Prelude.{ℕ, List};
    ghost use Rattle.std.specs.Iterator.{YieldsFirstRef, item_count};

    ghost next_gives = { YieldsFirstRef (λ (left : List (List ℕ)). left) };

    ghost remaining = { item_count (λ (left : List (List ℕ)). left) };

    #[inline]
    fn next(&mut self) -> Option<&'t Octets> {
        if let Some((string, strings)) = self.strings.split_first() {
            self.strings = strings;
            return Some(string);
        }
        let (string, strings, lists) = self.lists.first_string()?;
        self.strings = strings;
        self.lists = lists;
        Some(string)
    }
}
