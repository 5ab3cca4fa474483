// Stored programs that were checked.
//
// They are kept with their bytes. If the next stored bytes are those of one of them, it runs at once, so a batch doesn't
// read and verify the same filter for each mail, not even if mails of several users come in turn. The bytes are
// compared, so nothing has to be assumed about the store between two deliveries, and users with the same filter share
// what was checked.
ghost use Rattle.std.specs.Prelude.{◌≡◌, ◌<◌, [], All, IfErr, IfOk, IsOk, IsTrue, OnOk, Some, bytes_eq, length, slice_get};
ghost use Rattle.sieve_vm.specs.Stores.{NamesPart};
ghost use Rattle.depot_actions.specs.KeptPrograms.{is_kept, kept_with, place_of, with_checked};
ghost use Rattle.depot_actions.specs.Private.{IsUnusable};
ghost use Rattle.depot_actions.specs.DepotState.{AreActions};

use crate::checking::check_stored;
use bytecode_format::Action;
use bytecode_verifier::Verified;
use mime_decode::Message;
use refusals::Refusal;
use sieve_vm::run;
use std::alloc::{AllocError, Global};
use std::marker::Model;

/// The bytes of a stored program, and the verified program that they spell. A contract sees the bytes.
#[derive(Drop)]
pub(crate) struct CheckedProgram {
    octets: Vec<u8>,
    verified: Verified,
}

impl Model for CheckedProgram {
    ghost use Rattle.std.specs.Prelude.{List, ℕ};
    ghost use Rattle.sieve_engine.specs.Execution.{IsChecked};

    ghost Value = { List ℕ };

    ghost view = { λ p. p.octets.items };

    ghost invariant = { λ p. IsChecked p.octets.items p.verified };
}

impl CheckedProgram {
    // Checks a stored program.
    fn check(alloc: Global, octets: Vec<u8>) -> Result<CheckedProgram, Refusal>
        ensures same { IfOk result (λ program. program ≡ octets.items) }
        ensures refused { IfErr result (IsUnusable (Some octets.items)) }
    {
        let verified = check_stored(alloc, &octets)?;
        Ok(CheckedProgram { octets, verified })
    }

    // Whether the program has these bytes.
    fn has(&self, octets: &[u8]) -> bool
        ensures { result ≡ bytes_eq self.now octets.now }
    {
        self.octets.as_slice() == octets
    }

    /// The final actions of the program on a message.
    ///
    /// # Errors
    ///
    /// `AllocError` if memory is refused.
    pub(crate) fn actions_on(
        &self,
        alloc: Global,
        message: &Message,
    ) -> Result<Vec<Action>, AllocError>
        ensures actions { IfOk result
            (λ actions. AreActions (Some self.now) message.now actions.items) }
        ensures parts { IfOk result (λ actions. All (NamesPart message.now) actions.items) }
    {
        // What holds for every message is known only after asking.
        let _size = message.size();
        Ok(run(alloc, &self.verified, message)?.actions)
    }
}

/// How many checked programs are kept: those of many users whose mails come in turn.
const MAX_KEPT: usize = 64;

/// The programs that were checked last, at most [`MAX_KEPT`]. A contract sees their bytes, in the order in which they
/// were checked.
#[derive(Drop)]
pub(crate) struct CheckedPrograms {
    programs: Vec<CheckedProgram>,
}

impl Model for CheckedPrograms {
    ghost use Rattle.std.specs.Prelude.{◌≤◌, List, ℕ, length};

    ghost Value = { List (List ℕ) };

    ghost view = { λ p. p.programs.items };

    ghost invariant = { λ p. length p.programs.items ≤ 64 };
}

impl CheckedPrograms {
    /// Keeps no program.
    pub(crate) fn new(alloc: Global) -> CheckedPrograms
        ensures { result ≡ [] }
    {
        CheckedPrograms {
            programs: Vec::new(alloc),
        }
    }

    /// Checks a stored program, and keeps it. If a kept one has the same bytes, they aren't read and verified again:
    /// this takes no memory, and isn't refused (`known`). Returns the program's place.
    ///
    /// # Errors
    ///
    /// - `Database` if the program no longer reads and verifies.
    /// - `Memory` if memory is refused.
    #[tactic(auto, using(crate::proofs::KeptPlaces::found_kept))]
    pub(crate) fn check(&mut self, alloc: Global, octets: Vec<u8>) -> Result<usize, Refusal>
        ensures same { IfOk result (λ place. slice_get self.new place ≡ Some octets.items) }
        ensures kept { OnOk result (self.new ≡ kept_with octets.items self.old) }
        ensures known { IsTrue (is_kept octets.items self.old) → IsOk result }
        ensures refused { IfErr result (IsUnusable (Some octets.items)) }
    {
        match self.place_of(&octets) {
            Some(place) => Ok(place),
            None => Ok(self.keep(CheckedProgram::check(alloc, octets)?)?),
        }
    }

    /// The program at a place.
    ///
    /// # Requires
    ///
    /// More than `place` programs are kept.
    pub(crate) fn at(&self, place: usize) -> &CheckedProgram
        requires { place < length self.now }
        ensures { slice_get self.now place ≡ Some result.now }
    {
        &self.programs[place]
    }

    // The place of the program with these bytes, if it is kept.
    fn place_of(&self, octets: &[u8]) -> Option<usize>
        ensures { result ≡ place_of octets.now self.now }
    {
        self.programs.iter().position(|program| program.has(octets))
    }

    // Keeps a program that isn't kept, in place of the one that was kept first if there are enough. Returns its place.
    fn keep(&mut self, program: CheckedProgram) -> Result<usize, AllocError>
        ensures place { IfOk result (λ place. slice_get self.new place ≡ Some program) }
        ensures kept { OnOk result (self.new ≡ with_checked program self.old) }
    {
        if self.programs.len() >= MAX_KEPT {
            drop(self.programs.remove(0));
        }
        let place = self.programs.len();
        self.programs.push(program)?;
        Ok(place)
    }
}
