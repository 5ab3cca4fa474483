//! Laws of the machine, over its definitions alone.
ghost use Rattle.std.specs.Prelude.{◌≡◌, ◌≢◌, ℕ, suc, ◌+◌, ◌≤◌, All, List, length};
ghost use Rattle.bytecode_format.specs.Code.{Code, version_two};
ghost use Rattle.bytecode_verifier.specs.Acceptance.{IsAccepted};
ghost use Rattle.bytecode_verifier.specs.Counting.{entries_at, times_at};
ghost use Rattle.bytecode_verifier.specs.Loops.{open_loops};
ghost use Rattle.bytecode_verifier.specs.declared.counting.Counted.{Counted};
ghost use Rattle.bytecode_verifier.specs.declared.counting.Counted.TheVariants.{Stores};
ghost use Rattle.mime_decode.specs.Mail.{Mail, IsMail};
ghost use Rattle.sieve_vm.specs.State.{State, goes, ends, traps, start};
ghost use Rattle.sieve_vm.specs.Machine.{step};
ghost use Rattle.sieve_vm.specs.Runs.{Reaches, RunEnds};
ghost use Rattle.sieve_vm.specs.Potential.{potential, limit_of};
ghost use Rattle.sieve_vm.specs.Chained.{AreChained};
ghost use Rattle.sieve_vm.specs.Plain.{IsChain, IsPlain};
ghost use Rattle.bytecode_format.specs.declared.action.Action.{Action};
ghost use Rattle.sieve_vm.specs.Ending.{IsOutcome};
ghost use Rattle.sieve_vm.specs.Listed.{number_of};
ghost use Rattle.sieve_vm.specs.Looks.{AreLooks, Look, Sought, Visits, times_found};
ghost use Rattle.sieve_vm.specs.Stores.{NamesPart};

/// Accepted programs never trap: no state that a run reaches from the start steps to a trap.
pub fn accepted_programs_never_trap()
    ensures { (code : Code) (mail : Mail) (steps : ℕ) (state : State)
        → Reaches code mail steps state → step code mail state ≢ traps }
{}

/// The potential is the budget at the start, and decreases by at least each charge.
pub fn potential_falls_by_each_charge()
    ensures start { (code : Code) (mail : Mail) → IsAccepted code
        → potential code mail (start code) ≡ limit_of code mail }
    ensures step { (code : Code) (mail : Mail) (steps : ℕ) (state after : State)
        → Reaches code mail steps state → step code mail state ≡ goes after
        → potential code mail after + after.charge ≤ potential code mail state + state.charge }
    ensures end { (code : Code) (mail : Mail) (steps : ℕ) (state end : State)
        → Reaches code mail steps state → step code mail state ≡ ends end
        → end.charge ≤ potential code mail state + state.charge }
{}

/// Each prefix of a run charges at most the budget, and a run has at most as many steps, including the last one.
pub fn runs_stay_within_the_budget()
    ensures charge { (code : Code) (mail : Mail) (steps : ℕ) (state : State)
        → Reaches code mail steps state → state.charge ≤ limit_of code mail }
    ensures steps { (code : Code) (mail : Mail) (steps : ℕ) (state : State)
        → Reaches code mail steps state → steps ≤ limit_of code mail }
    ensures ends { (code : Code) (mail : Mail) (steps : ℕ) (state end : State)
        → Reaches code mail steps state → step code mail state ≡ ends end
        → suc steps ≤ limit_of code mail }
{}

/// Turns are chains of parts: the current part of each open loop is below that of the loop around it, the parts that
/// a loop has left come after its current part, and the parts below that one are among them. At a place inside `k`
/// loops of the program `k` loops are open, so such a chain has `k` parts.
pub fn turns_are_chains()
    ensures chain { (code : Code) (mail : Mail) (steps : ℕ) (state : State)
        → Reaches code mail steps state → AreChained mail state.frames }
    ensures depth { (code : Code) (mail : Mail) (steps : ℕ) (state : State)
        → Reaches code mail steps state
        → length state.frames ≡ length (open_loops code state.place) }
{}

/// A run lists at most as many actions as the instructions that list one have turns together, and stores parts at most
/// as often as the instructions that store one have turns.
pub fn runs_list_what_is_counted()
    ensures { (code : Code) (mail : Mail) (steps : ℕ) (state : State)
        → Reaches code mail steps state → (counted : Counted)
        → number_of counted state.actions ≤ times_at counted code (length mail.parts) }
{}

/// The final actions are at most one more, for the implicit keep, and there are no more of them that store a part.
pub fn outcomes_have_few_actions()
    ensures actions { (code : Code) (mail : Mail) (actions : List Action) (charged : ℕ)
        → IsAccepted code → IsMail mail → IsOutcome code mail actions charged
        → length actions ≤ entries_at code (length mail.parts) }
    ensures stores { (code : Code) (mail : Mail) (actions : List Action) (charged : ℕ)
        → IsAccepted code → IsMail mail → IsOutcome code mail actions charged
        → number_of Stores actions ≤ times_at Stores code (length mail.parts) }
{}

/// The run of an accepted program reaches its end, within the budget.
pub fn runs_reach_their_end()
    ensures { (code : Code) (mail : Mail) → IsAccepted code → IsMail mail
        → (end : State) × RunEnds code mail end × (end.charge ≤ limit_of code mail) }
{}

/// A run has one end.
pub fn runs_have_one_end()
    ensures { (code : Code) (mail : Mail) (one other : State) → RunEnds code mail one
        → RunEnds code mail other → one ≡ other }
{}

/// Each action of a run that stores a part names a part of the message.
pub fn runs_store_parts_of_the_message()
    ensures { (code : Code) (mail : Mail) (steps : ℕ) (state : State)
        → Reaches code mail steps state → All (NamesPart mail) state.actions }
{}

/// Each final action that stores a part names a part of the message.
pub fn outcomes_store_parts_of_the_message()
    ensures { (code : Code) (mail : Mail) (actions : List Action) (charged : ℕ) → IsAccepted code
        → IsMail mail → IsOutcome code mail actions charged → All (NamesPart mail) actions }
{}

/// A program that is accepted in one version runs the same in version 2: each step is the same, from every state, and
/// so is the end.
pub fn programs_run_the_same_in_version_two()
    ensures step { (code : Code) (mail : Mail) → IsAccepted code → (state : State)
        → step (record code { version = version_two }) mail state ≡ step code mail state }
    ensures ends { (code : Code) (mail : Mail) → IsAccepted code → (end : State)
        → RunEnds code mail end → RunEnds (record code { version = version_two }) mail end }
    ensures no_other { (code : Code) (mail : Mail) → IsAccepted code → (end : State)
        → RunEnds (record code { version = version_two }) mail end → RunEnds code mail end }
{}

/// A program of version 2 charges exactly its budget on a message whose parts are a chain, if each of its operations
/// runs once in each turn and its texts are those of the program alone.
pub fn plain_programs_charge_their_budget_on_chains()
    ensures { (code : Code) (mail : Mail) → IsAccepted code → IsMail mail → code.version ≡ 2
        → IsPlain code → IsChain mail → (end : State) → RunEnds code mail end
        → end.charge ≡ limit_of code mail }
{}

/// Among looks that follow each other as those of a run do, the length of a part's content is found at most once, and
/// so is its digest, and so are the first bytes of a content that has to be decoded: a later look that needs one knows
/// it.
pub fn what_is_sought_is_found_once()
    ensures { (from : Visits) (looks : List Look) → AreLooks from looks → (sought : Sought) (part : ℕ)
        → times_found sought part looks ≤ 1 }
{}
