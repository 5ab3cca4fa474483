//! Laws about the steps of a run: no call is made.
ghost use Rattle.std.specs.Prelude.{◌≡◌, ℕ, suc, ◌-◌, All, List, length, sum_by};
ghost use Rattle.bytecode_format.specs.Code.{Code};
ghost use Rattle.bytecode_format.specs.declared.action.Action.{Action};
ghost use Rattle.bytecode_verifier.specs.Acceptance.{IsAccepted};
ghost use Rattle.mime_decode.specs.Mail.{Mail, IsMail};
ghost use Rattle.sieve_vm.specs.Ending.{IsOutcome};
ghost use Rattle.sieve_vm.specs.Runs.{RunEnds};
ghost use Rattle.sieve_vm.specs.State.{State, start};
ghost use Rattle.bytecode_trace.specs.Steps.{IsCharged, LeadToEnd, TakenStep, steps_of};

/// The steps of an accepted program's run are those that lead from its start to its end: as many as the run takes,
/// including the step to the end.
pub fn steps_lead_from_the_start_to_the_end()
    ensures lead { (code : Code) (mail : Mail) → IsAccepted code → IsMail mail → (end : State)
        → RunEnds code mail end → LeadToEnd code mail (start code) end (steps_of code mail) }
    ensures number { (code : Code) (mail : Mail) → IsAccepted code → IsMail mail → (end : State)
        → (over : RunEnds code mail end) → length (steps_of code mail) ≡ suc over.steps }
{}

/// Each step takes an instruction of the program, and charges what this instruction costs.
pub fn steps_charge_what_their_instructions_cost()
    ensures { (code : Code) (mail : Mail) → IsAccepted code → IsMail mail
        → All (IsCharged code mail) (steps_of code mail) }
{}

/// What the steps charge is together what the run charges.
pub fn charges_of_steps_are_that_of_the_run()
    ensures { (code : Code) (mail : Mail) (actions : List Action) (charged : ℕ)
        → IsAccepted code → IsMail mail → IsOutcome code mail actions charged
        → sum_by (λ (taken : TakenStep). taken.after.charge - taken.before.charge)
        (steps_of code mail) ≡ charged }
{}
