// The names of variables, in the order of their use.
//
// The limit of variables is a fold over the visits, each of which brings the names in its strings and the one that it
// sets. So the 129th name is found at the visit that brings it, and `check` names no later fault. Names are in lower
// case from the typed form on, so the meaning and the compiler compare them byte by byte.
ghost use Rattle.std.specs.Prelude.{◌≤◌, length};
ghost use Rattle.octets.specs.Limits.{max_variables};

use crate::argument_strings::ArgumentStrings;
use crate::causes::ReasonKind;
use arrayvec::ArrayVec;
use bytecode_format::MAX_VARIABLES;
use octets::is_word;
use sieve_references::{Segment, first_segment};

/// The different names of variables, in the order of their first use, lent by the script. Case doesn't matter.
///
/// To add a name takes as many comparisons as there are names.
#[derive(Drop)]
pub struct VariableNames<'t> {
    names: ArrayVec<&'t [u8], MAX_VARIABLES>,
    ghost few: { length names.items ≤ max_variables },
}

impl<'t> VariableNames<'t> {
    ghost use Rattle.std.specs.Prelude.{◌≡◌, [], ◌∷◌, bytes_eq, flat_map};
    ghost use Rattle.octets.specs.Ascii.{lowercase_of};
    ghost use Rattle.octets.specs.Once.{is_listed};
    ghost use Rattle.sieve_references.specs.References.{names_in};
    ghost use Rattle.sieve_check.specs.Refusing.{Adds, listed};

    /// No names.
    pub fn new() -> VariableNames<'t>
        ensures { listed result ≡ [] }
    {
        VariableNames {
            names: ArrayVec::new(),
        }
    }

    // Whether the name is among them.
    fn has(&self, name: &[u8]) -> bool
        ensures { result ≡ is_listed bytes_eq (lowercase_of name.now) (listed self.now) }
    {
        for known in self.names.as_slice() {
            if is_word(name, known) {
                return true;
            }
        }
        false
    }

    /// Adds the name, unless it is among them.
    ///
    /// # Errors
    ///
    /// `ReasonKind::ManyVariables` if there would be too many.
    pub fn add(&mut self, name: &'t [u8]) -> Result<(), ReasonKind>
        ensures { Adds (listed self.old) (lowercase_of name.now ∷ []) result (listed self.new) }
    {
        if self.has(name) {
            return Ok(());
        }
        if self.names.is_full() {
            return Err(ReasonKind::ManyVariables);
        }
        self.names.push(name);
        Ok(())
    }

    // Adds the names in a string.
    fn add_string(&mut self, string: &'t [u8]) -> Result<(), ReasonKind>
        ensures { Adds (listed self.old) (names_in string.now) result (listed self.new) }
    {
        let mut rest = string;
        'segments: while let Some((segment, after)) = first_segment(rest) {
            if let Segment::Variable(name) = segment {
                self.add(name)?;
            }
            rest = after;
        }
        Ok(())
    }

    /// Adds the names in strings. It is inlined, so that lists without strings need no call.
    ///
    /// # Errors
    ///
    /// `ReasonKind::ManyVariables` if there would be too many.
    #[inline(always)]
    pub fn add_strings(&mut self, mut strings: ArgumentStrings<'t>) -> Result<(), ReasonKind>
        ensures { Adds (listed self.old) (flat_map names_in strings.entry) result (listed self.new) }
    {
        'strings: while let Some(string) = strings.next() {
            self.add_string(string.as_slice())?;
        }
        Ok(())
    }
}
