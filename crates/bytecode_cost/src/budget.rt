// The eight sums of a program.
//
// The budgets and the potentials of the two versions differ in one definition, `turns_left`, so the laws on runs are
// the same words for both. `Budget::at` requires less than it could: the number of parts can be 0. `Display` of a
// budget is its line in every formatter that takes all of it.
ghost use Rattle.std.specs.Prelude.{◌≡◌, ◌+◌, ◌*◌, ◌^◌, ◌<◌, ◌≤◌, slice_index, Some};
ghost use Rattle.octets.specs.Limits.{max_message, max_parts};
ghost use Rattle.bytecode_cost.specs.Sums.{no_sums, with_cap, budget_at, chains, turns};
ghost use Rattle.bytecode_cost.specs.Text.{budget_text, level_text, turns_text};

use std::fmt::{self, Display};
use std::marker::Model;

/// How many numbers of open loops there are: none to three.
const LEVELS: usize = 4;

/// The version of the programs whose turns are counted by chains of parts, each part below the one before; the turns
/// of other programs are powers.
const BY_CHAINS: u8 = 2;

/// The budget of a program: eight sums. For each number of open loops, none to three, there is one sum of what the
/// instructions there can charge however long the message is, and one of what they can charge for each of its bytes.
///
/// The verifier makes it with [`Budget::new`] and [`Budget::add`]; [`Budget::at`] gives the limit for a message. A
/// contract sees the version and the eight sums. The version determines how often the inside of a loop is counted.
#[derive(Drop)]
pub struct Budget {
    version: u8,
    fixed: [u64; LEVELS],
    scaled: [u64; LEVELS],
}

impl Model for Budget {
    ghost use Rattle.bytecode_cost.specs.Sums.{Sums, IsBudget};

    ghost Value = { Sums };

    ghost view = { λ b. record { version = b.version; fixed = b.fixed; scaled = b.scaled } };

    ghost invariant = { λ b. IsBudget (record { version = b.version; fixed = b.fixed; scaled = b.scaled }) };
}

impl Budget {
    /// Returns the budget of a program without instructions: eight sums of 0.
    pub fn new(version: u8) -> Budget
        ensures { result ≡ no_sums version }
    {
        Budget {
            version,
            fixed: [0; LEVELS],
            scaled: [0; LEVELS],
        }
    }

    /// Adds the cap of an instruction inside `k` open loops: `a` charges, and `b` for each byte of the message and
    /// one more.
    ///
    /// # Requires
    ///
    /// - There are at most three open loops: `k < 4`.
    /// - Neither sum reaches 2^63: the sum of the fixed charges inside `k` loops plus `a` is less than 2^63, and so
    ///   is the sum of the charges for each byte plus `b`.
    pub fn add(&mut self, k: usize, a: u128, b: u128)
        requires level { k < 4 }
        requires fixed { slice_index self.old.fixed k + a < 2 ^ 63 }
        requires scaled { slice_index self.old.scaled k + b < 2 ^ 63 }
        ensures { self.new ≡ with_cap self.old k a b }
    {
        self.fixed[k] += a as u64;
        self.scaled[k] += b as u64;
    }

    /// Returns the budget for a message of `n` bytes and `p` parts, exactly. A run of an accepted program with these
    /// sums charges at most this number.
    ///
    /// # Requires
    ///
    /// The message is within the limits: `n` is at most 67,108,864 bytes (2^26) and `p` at most 4,096.
    pub fn at(&self, n: u64, p: u64) -> u128
        requires octets { n ≤ max_message }
        requires parts { p ≤ max_parts }
        ensures { result ≡ budget_at self.now n p }
    {
        let (one, two, three) = self.turns(p as u128);
        self.term(0, n, 1) + self.term(1, n, one) + self.term(2, n, two) + self.term(3, n, three)
    }

    // How often the inside of one, two and three loops can run, over so many parts.
    fn turns(&self, parts: u128) -> (u128, u128, u128)
        requires { parts ≤ max_parts }
        ensures few { (result.0 ≤ 2 ^ 36) × (result.1 ≤ 2 ^ 36) × (result.2 ≤ 2 ^ 36) }
        ensures one { result.0 ≡ turns self.now.version parts 1 }
        ensures two { result.1 ≡ turns self.now.version parts 2 }
        ensures three { result.2 ≡ turns self.now.version parts 3 }
    {
        if self.version == BY_CHAINS {
            (parts, pairs(parts), triples(parts))
        } else {
            (parts, parts * parts, parts * parts * parts)
        }
    }

    // What `k` open loops allow for a message of `n` bytes, `turns` times.
    fn term(&self, k: usize, n: u64, turns: u128) -> u128
        requires level { k < 4 }
        requires octets { n ≤ max_message }
        requires turns { turns ≤ 2 ^ 36 }
        ensures value { result
            ≡ (slice_index self.now.fixed k + slice_index self.now.scaled k * (n + 1)) * turns }
        ensures bound { result < 2 ^ 126 }
    {
        let octets = n as u128 + 1;
        (self.fixed[k] as u128 + self.scaled[k] as u128 * octets) * turns
    }

    // The sums of `k` open loops, to be printed.
    fn level(&self, k: usize) -> Level
        requires { k < 4 }
        ensures { result ≡ record {
          k = k;
          fixed = slice_index self.now.fixed k;
          scaled = slice_index self.now.scaled k;
        } }
    {
        Level {
            k,
            fixed: self.fixed[k],
            scaled: self.scaled[k],
        }
    }

    // The end of the line, after the sums.
    #[tactic(auto, unfolding(crate::specs::Text::turns_text))]
    fn ending(&self) -> &'static str
        ensures { result.now ≡ turns_text self.now.version }
    {
        if self.version == BY_CHAINS {
            " by chains"
        } else {
            ""
        }
    }
}

impl Display for Budget {
    ghost output = { λ b. Some (budget_text b) };

    fn fmt<W: fmt::Write>(&self, f: &mut fmt::Formatter<W>) -> fmt::Result {
        let (none, one, two, three) = (self.level(0), self.level(1), self.level(2), self.level(3));
        let ending = self.ending();
        write!(f, "{none} {one} {two} {three}{ending}")
    }
}

// How many chains of two of so many parts there are.
#[tactic(auto, using(crate::proofs::Chains::pairs_halved))]
fn pairs(parts: u128) -> u128
    requires { parts ≤ max_parts }
    ensures { result ≡ chains parts 2 }
{
    parts * parts.saturating_sub(1) / 2
}

// How many chains of three of so many parts there are.
#[tactic(auto, using(crate::proofs::Chains::triples_divided))]
fn triples(parts: u128) -> u128
    requires { parts ≤ max_parts }
    ensures { result ≡ chains parts 3 }
{
    parts * parts.saturating_sub(1) * parts.saturating_sub(2) / 6
}

// The two sums of one number of open loops.
#[derive(Drop)]
struct Level {
    k: usize,
    fixed: u64,
    scaled: u64,
}

impl Display for Level {
    ghost output = { λ l. Some (level_text l.k l.fixed l.scaled) };

    #[tactic(auto, unfolding(crate::specs::Text::level_text))]
    fn fmt<W: fmt::Write>(&self, f: &mut fmt::Formatter<W>) -> fmt::Result {
        let Level { k, fixed, scaled } = self;
        write!(f, "A{k}={fixed} B{k}={scaled}")
    }
}
