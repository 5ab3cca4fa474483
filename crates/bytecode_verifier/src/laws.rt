//! Laws of every program.
ghost use Rattle.std.specs.Prelude.{◌≡◌, ◌↔◌, ℕ, ◌+◌, ◌*◌, ◌<◌, ◌≤◌, ◌^◌, None};
ghost use Rattle.octets.specs.Limits.{max_depth, max_message, max_parts};
ghost use Rattle.bytecode_cost.specs.Sums.{budget_at};
ghost use Rattle.bytecode_format.specs.Code.{Code, version_two};
ghost use Rattle.bytecode_format.specs.Spelling.{IsProgram};
ghost use Rattle.bytecode_verifier.specs.Budget.{budget_of};
ghost use Rattle.bytecode_verifier.specs.Acceptance.{IsAccepted, refusal_of};
ghost use Rattle.bytecode_verifier.specs.Counting.{entries_at, octets_at};

/// A program is accepted exactly if there is no reason to refuse it.
pub fn accepted_or_refused()
    ensures { (code : Code) → (refusal_of code ≡ None) ↔ IsAccepted code }
{}

/// The budget of an accepted program is below 2^128 for every message.
pub fn budgets_fit_every_message()
    ensures { (code : Code) → IsProgram code → IsAccepted code → (n p : ℕ) → n ≤ max_message
        → p ≤ max_parts → budget_at (budget_of code) n p < 2 ^ 128 }
{}

/// A program that is accepted in one version is accepted in version 2.
pub fn accepted_programs_go_on_in_version_two()
    ensures { (code : Code) → IsAccepted code → IsAccepted (record code { version = version_two }) }
{}

/// In version 2 a program has the same sums, and its budget is never larger.
pub fn budgets_do_not_grow_in_version_two()
    ensures sums { (code : Code)
        → budget_of (record code { version = version_two }) ≡ record (budget_of code) { version = version_two } }
    ensures values { (code : Code) → (n p : ℕ)
        → budget_at (budget_of (record code { version = version_two })) n p ≤ budget_at (budget_of code) n p }
{}

/// What a program can charge, and what a delivery can file, is never less for a message of more bytes and more parts.
pub fn limits_grow_with_the_message()
    ensures charge { (code : Code) → (n m p q : ℕ) → n ≤ m → p ≤ q
        → budget_at (budget_of code) n p ≤ budget_at (budget_of code) m q }
    ensures entries { (code : Code) → (p q : ℕ) → p ≤ q → entries_at code p ≤ entries_at code q }
    ensures octets { (code : Code) → (n m p q : ℕ) → n ≤ m → p ≤ q
        → octets_at code n p ≤ octets_at code m q }
{}

/// Whatever the program is, the bound on what a delivery files is at most the length of the message, once for the
/// message and once for each depth of a part.
pub fn octets_have_a_bound_for_all_programs()
    ensures { (code : Code) → (n p : ℕ) → octets_at code n p ≤ (1 + max_depth) * n }
{}
