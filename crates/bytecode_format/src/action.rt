// The actions of a run.
ghost use Rattle.std.specs.Prelude.{◌≡◌};
ghost use Rattle.std.proofs.Common.{rules};
ghost use Rattle.std.specs.Cmp.{partial_order_from_own_ties};
ghost use Rattle.std.specs.Cmp.Rules.{comparing};
ghost use Rattle.std.specs.Ordering.{as_partial_cmp};

use octets::Octets;
use std::alloc::AllocError;
use std::cmp::Ordering;

/// An action of a filter. A run of a program returns a list of them, and a delivery carries them out.
#[derive(Drop)]
pub enum Action {
    /// Files the message in the inbox.
    Keep,
    /// Files the message in this folder.
    File(Octets),
    /// Stores the decoded content of a part, by its number counted from 0, in this folder.
    Store(Octets, usize),
}

impl Action {
    ghost use Rattle.bytecode_format.specs.Action.{kind_of, folder_of, part_of};

    /// 0 for Keep, 1 for File, 2 for Store.
    fn kind(&self) -> u8
        ensures { result ≡ kind_of self.now }
    {
        match self {
            Action::Keep => 0,
            Action::File(_) => 1,
            Action::Store(_, _) => 2,
        }
    }

    /// The folder, empty for Keep.
    fn folder(&self) -> &[u8]
        ensures { result.now ≡ folder_of self.now }
    {
        match self {
            Action::Keep => &[],
            Action::File(folder) | Action::Store(folder, _) => folder.as_slice(),
        }
    }

    /// The part's number, 0 if there is none.
    fn part(&self) -> usize
        ensures { result ≡ part_of self.now }
    {
        match self {
            Action::Keep | Action::File(_) => 0,
            Action::Store(_, part) => *part,
        }
    }
}

impl Clone for Action {
    ghost is_clone = { λ action copy. copy ≡ action };

    fn clone(&self) -> Result<Action, AllocError> {
        Ok(match self {
            Action::Keep => Action::Keep,
            Action::File(folder) => Action::File(folder.clone()?),
            Action::Store(folder, part) => Action::Store(folder.clone()?, *part),
        })
    }
}

impl PartialEq for Action {
    ghost use Rattle.bytecode_format.specs.Action.{is_same};

    ghost eq = { is_same };

    ghost laws = { Prim.search (comparing, rules) };

    fn eq(&self, other: &Action) -> bool {
        self.kind() == other.kind()
            && self.folder() == other.folder()
            && self.part() == other.part()
    }
}

impl Eq for Action {
    ghost laws = { Prim.search (comparing, rules) };
}

impl PartialOrd for Action {
    ghost use Rattle.bytecode_format.specs.Action.{action_cmp};

    ghost partial_cmp = { as_partial_cmp action_cmp };

    ghost laws = { partial_order_from_own_ties (Prim.search (comparing, rules))
        (Prim.search (comparing, rules)) };

    fn partial_cmp(&self, other: &Action) -> Option<Ordering> {
        Some(self.cmp(other))
    }
}

impl Ord for Action {
    ghost use Rattle.bytecode_format.specs.Action.{action_cmp};

    ghost cmp = { action_cmp };

    ghost total = { Prim.search (comparing, rules) };

    ghost matches_partial_cmp = { Prim.search (comparing, rules) };

    ghost matches_eq = { Prim.search (comparing, rules) };

    fn cmp(&self, other: &Action) -> Ordering {
        self.kind().cmp(&other.kind()).then(
            self.folder()
                .cmp(other.folder())
                .then(self.part().cmp(&other.part())),
        )
    }
}
