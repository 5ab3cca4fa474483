// How `depot inspect` reads a depot, user by user.
ghost use Rattle.std.specs.Prelude.{◌≡◌, ◌⊎◌, ◌^◌, ◌≤◌, IfErr, IfOk, IsTrue, map, option_map, string_bytes};
ghost use Rattle.std.specs.List.{sum_by};
ghost use Rattle.sqlite.specs.Held.{state};
ghost use Rattle.part_store.specs.Access.{ReadsStore};
ghost use Rattle.part_store.specs.Tables.{contents_tree, users_tree};
ghost use Rattle.part_store.specs.Entries.{Entries, Listing, entries_of, listing_of};
ghost use Rattle.part_store.specs.Standing.{LeavesUnchanged, Stands, listed};
ghost use Rattle.part_store.specs.Totals.{IsTotalOf};
ghost use Rattle.part_store.specs.UserLines.{AreUsersOf, line_of};
ghost use Rattle.part_store.specs.declared.entry.EntryRow.{EntryRow as Row};
ghost use Rattle.refusals.specs.declared.refusal.Refusal.TheVariants.{Memory, Database};
ghost use Rattle.part_store.specs.Refusals.{AreNamed};
ghost use Rattle.depot_actions.specs.Causes.{IsStoreFault, IsUncounted};
ghost use Rattle.depot_actions.specs.Overviews.{AreSummaries, IsJudged, IsOverview, IsStateOf, Summarises};
ghost use Rattle.part_store.specs.Calls.{Always, CommitsNothing, IfDone, IfRefused, Tells};

use crate::overview::{Overview, ProgramState, UserOverview};
use crate::refusing::refused;
use part_store::{ContentTotal, EntryRow, PartStore, UserRow};
use refusals::Refusal;
use sieve_engine::check_program;
use sqlite::Alter;
use std::alloc::Global;

/// Reads what a store holds, user by user. Each user's entries are read once, and the entries of one user at a time.
///
/// # Errors
///
/// - `Database` if the store fails; if the bytes of all contents, or of a user's entries, are 2^64 or more; or if a
///   user's name isn't UTF-8.
/// - `Memory` if memory is refused.
pub(crate) fn look_over<S: Alter>(
    store: &mut PartStore<S>,
    alloc: Global,
) -> Result<Overview, Refusal>
    ensures answer { IfDone S.Store store.old store.new result (λ x old _. IsTrue old.is_open
        × ((before : Entries) → Stands old.now before → IsOverview old.now.trees before x)) }
    ensures unchanged { Always S.Store store.old store.new LeavesUnchanged }
    ensures refused { IfErr result (λ e. (e ≡ Memory) ⊎ (e ≡ Database)) }
    ensures cause { Always S.Store store.old store.new (λ old new. AreNamed old.now.trees
        → IfErr result (IsStoreFault IsUncounted old new)) }
    ensures survives { CommitsNothing S.Store store.old store.new }
{
    let rows = rows_of(store)?;
    let users = summaries(store, alloc, &rows)?;
    let contents = total_of(store)?;
    Ok(Overview { users, contents })
}

// The users that have a row.
fn rows_of<S: Alter>(store: &mut PartStore<S>) -> Result<Vec<UserRow>, Refusal>
    ensures answer { IfDone S.Store store.old store.new result (λ rows old _. (before : Entries)
        → Stands old.now before → AreUsersOf (old.now.trees users_tree) before
        (map line_of rows.items)) }
    ensures reads { ReadsStore S.Store store.old store.new result }
    ensures refused { IfErr result (λ e. (e ≡ Memory) ⊎ (e ≡ Database)) }
    ensures cause { Always S.Store store.old store.new (λ old new. AreNamed old.now.trees
        → IfErr result (IsStoreFault IsUncounted old new)) }
{
    store.users().map_err(refused)
}

// The number of contents, and their bytes.
fn total_of<S: Alter>(store: &mut PartStore<S>) -> Result<ContentTotal, Refusal>
    ensures answer { IfDone S.Store store.old store.new result (λ total old _. (before : Entries)
        → Stands old.now before → IsTotalOf (old.now.trees contents_tree) total) }
    ensures reads { ReadsStore S.Store store.old store.new result }
    ensures refused { IfErr result (λ e. (e ≡ Memory) ⊎ (e ≡ Database)) }
    ensures cause { IfRefused S.Store store.old store.new result (IsStoreFault IsUncounted) }
{
    store.contents().map_err(refused)
}

// A summary of each of the users.
fn summaries<S: Alter>(
    store: &mut PartStore<S>,
    alloc: Global,
    rows: &[UserRow],
) -> Result<Vec<UserOverview>, Refusal>
    ensures answer { Tells S.Store store.old store.new result (λ before users. AreSummaries before
        (map line_of rows.now) users.items) }
    ensures unchanged { Always S.Store store.old store.new LeavesUnchanged }
    ensures refused { IfErr result (λ e. (e ≡ Memory) ⊎ (e ≡ Database)) }
    ensures cause { IfRefused S.Store store.old store.new result (IsStoreFault IsUncounted) }
    ensures survives { CommitsNothing S.Store store.old store.new }
{
    let mut users = Vec::new(alloc);
    for row in rows {
        let user = summary(store, alloc, row)?;
        users.push(user)?;
    }
    Ok(users)
}

// A summary of one user.
fn summary<S: Alter>(
    store: &mut PartStore<S>,
    alloc: Global,
    row: &UserRow,
) -> Result<UserOverview, Refusal>
    ensures answer { Tells S.Store store.old store.new result (λ before x. Summarises
        (line_of row.now) (map listing_of (entries_of (string_bytes row.now.user) before)) x) }
    ensures reads { ReadsStore S.Store store.old store.new result }
    ensures refused { IfErr result (λ e. (e ≡ Memory) ⊎ (e ≡ Database)) }
    ensures cause { IfRefused S.Store store.old store.new result (IsStoreFault IsUncounted) }
{
    let entries = entries_in(store, row.user.as_str())?;
    summary_of(alloc, row, &entries)
}

// The entries of a user; the user can have any name that is stored.
fn entries_in<S: Alter>(store: &mut PartStore<S>, user: &str) -> Result<Vec<EntryRow>, Refusal>
    ensures answer { Tells S.Store store.old store.new result (λ before rows. map listed rows.items
        ≡ map listing_of (entries_of user.now before)) }
    ensures reads { ReadsStore S.Store store.old store.new result }
    ensures refused { IfErr result (λ e. (e ≡ Memory) ⊎ (e ≡ Database)) }
    ensures cause { IfRefused S.Store store.old store.new result (IsStoreFault IsUncounted) }
{
    store.entries_of(user).map_err(refused)
}

// A summary of a user with these entries.
fn summary_of(alloc: Global, row: &UserRow, entries: &[EntryRow]) -> Result<UserOverview, Refusal>
    ensures answer { IfOk result (λ x. Summarises (line_of row.now) (map listed entries.now) x) }
    ensures refused { IfErr result (λ e. (e ≡ Memory) ⊎ (e ≡ Database)) }
    ensures cause { IfErr result
        (λ e. e ≡ Database → 2 ^ 64 ≤ sum_by (λ (e : Listing). e.octets) (map listed entries.now)) }
{
    let octets = octets_of(entries)?;
    let program = program_state(alloc, &row.program)?;
    Ok(UserOverview {
        user: String::from_str(alloc, row.user.as_str())?,
        last: row.last,
        entries: entries.len() as u64,
        octets,
        program,
    })
}

// The number of bytes that the entries have together, or `Database` if it is 2^64 or more.
fn octets_of(entries: &[EntryRow]) -> Result<u64, Refusal>
    ensures sum { IfOk result (λ octets. octets ≡ sum_by (λ (e : Row). e.octets) entries.now) }
    ensures refused { IfErr result (λ e. e ≡ Database) }
    ensures cause { IfErr result (λ _. 2 ^ 64 ≤ sum_by (λ (e : Row). e.octets) entries.now) }
{
    let mut octets = 0u64;
    for entry in entries {
        match octets.checked_add(entry.octets) {
            Some(sum) => octets = sum,
            None => return Err(Refusal::Database),
        }
    }
    Ok(octets)
}

// The state of a user's program.
fn program_state(alloc: Global, program: &Option<Vec<u8>>) -> Result<ProgramState, Refusal>
    ensures judged { IfOk result (IsStateOf (option_map (λ v. v.items) program.now)) }
    ensures refused { IfErr result (λ e. e ≡ Memory) }
{
    match program {
        Some(octets) => judge(alloc, octets),
        None => Ok(ProgramState::Missing),
    }
}

// The state of a stored program.
fn judge(alloc: Global, program: &[u8]) -> Result<ProgramState, Refusal>
    ensures judged { IfOk result (IsJudged program.now) }
    ensures refused { IfErr result (λ e. e ≡ Memory) }
{
    match check_program(alloc, program) {
        Ok(verified) => Ok(ProgramState::Accepted(verified.program().version())),
        Err(Refusal::Memory) => Err(Refusal::Memory),
        Err(refusal) => Ok(ProgramState::Refused(refusal)),
    }
}
