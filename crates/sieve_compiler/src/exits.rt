// Where the code of tests continues.
ghost use Rattle.std.specs.Prelude.{◌≡◌};

use sieve_check::Test;

/// Where a test jumps to, and for which of its values: otherwise it continues after its code.
#[derive(Clone, Copy)]
pub struct Exit {
    pub asked: bool,
    pub target: u32,
}

impl Exit {
    ghost use Rattle.std.specs.Prelude.{not};

    /// The same for a test whose negation this one is.
    pub fn turned(self) -> Exit
        ensures asked { result.asked ≡ not self.asked }
        ensures target { result.target ≡ self.target }
    {
        Exit {
            asked: !self.asked,
            target: self.target,
        }
    }
}

/// How a list of tests jumps.
#[derive(Clone, Copy)]
pub struct ListExit {
    /// The value of a test that decides the list: false for `allof`, true for `anyof`.
    pub deciding: bool,
    /// Where the list jumps to.
    pub exit: Exit,
    /// The place after the list.
    pub following: u32,
}

impl ListExit {
    ghost use Rattle.std.specs.Prelude.{map};
    ghost use Rattle.sieve_check.specs.TypedView.{test_form, tests_of};
    ghost use Rattle.sieve_compiler.specs.Coding.{asked_of, aim_of};

    /// Where a test jumps to that comes before these others.
    pub fn before(self, others: &[Test]) -> Exit
        ensures asked { result.asked
            ≡ asked_of self.deciding self.exit.asked (tests_of (map test_form others.now)) }
        ensures target { result.target
            ≡ aim_of self.deciding self.exit.asked (tests_of (map test_form others.now))
            self.following self.exit.target }
    {
        match others {
            [] => self.exit,
            [_, ..] => Exit {
                asked: self.deciding,
                target: if self.deciding == self.exit.asked {
                    self.exit.target
                } else {
                    self.following
                },
            },
        }
    }
}
