//! Laws of every budget.
ghost use Rattle.std.specs.Prelude.{◌≡◌, ◌==◌, ℕ, ◌+◌, ◌*◌, ◌-◌, ◌^◌, ◌<◌, ◌≤◌, if◌then◌else◌};
ghost use Rattle.octets.specs.Limits.{max_message, max_parts};
ghost use Rattle.bytecode_cost.specs.Sums.{Sums, IsBudget, budget_at, by_chains, chains, turns};

/// Every budget for a message of at most 2^26 bytes and 4,096 parts is below 2^128.
pub fn budget_fits()
    ensures { (sums : Sums) → IsBudget sums
        → (n p : ℕ) → n ≤ max_message → p ≤ max_parts → budget_at sums n p < 2 ^ 128 }
{}

/// One part of `n` can be chosen in `n` ways.
pub fn chains_of_one()
    ensures { (n : ℕ) → chains n 1 ≡ n }
{}

/// Two parts of `n` can be chosen in `n (n - 1) / 2` ways.
pub fn chains_of_two()
    ensures { (n : ℕ) → 2 * chains n 2 ≡ n * (n - 1) }
{}

/// Three parts of `n` can be chosen in `n (n - 1) (n - 2) / 6` ways.
pub fn chains_of_three()
    ensures { (n : ℕ) → 6 * chains n 3 ≡ n * (n - 1) * (n - 2) }
{}

/// There are no more chains than powers.
pub fn chains_within_powers()
    ensures { (n k : ℕ) → chains n k ≤ n ^ k }
{}

/// The budget of version 2 is never larger than that of another version with the same sums.
pub fn chains_never_cost_more()
    ensures { (sums : Sums) → (n p : ℕ)
        → budget_at (record sums { version = by_chains }) n p ≤ budget_at sums n p }
{}

/// The inside of `k` loops can run once for each set of `k` parts in version 2, and `parts ^ k` times in version 1.
pub fn turns_are_sets_or_powers()
    ensures { (version parts k : ℕ)
        → turns version parts k ≡ (if version == by_chains then chains parts k else parts ^ k) }
{}

/// The budget for a message of more bytes and more parts is never smaller, and neither are the turns.
pub fn budgets_grow_with_the_message()
    ensures budget { (sums : Sums) → (n m p q : ℕ) → n ≤ m → p ≤ q
        → budget_at sums n p ≤ budget_at sums m q }
    ensures turns { (version p q k : ℕ) → p ≤ q → turns version p k ≤ turns version q k }
{}
