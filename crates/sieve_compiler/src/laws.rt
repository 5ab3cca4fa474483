//! Laws of the code, over its definition alone.
ghost use Rattle.std.specs.Prelude.{ℕ};
ghost use Rattle.bytecode_verifier.specs.Acceptance.{IsAccepted};
ghost use Rattle.mime_decode.specs.Mail.{Mail, IsMail};
ghost use Rattle.sieve_check.specs.Bounded.{IsBounded};
ghost use Rattle.sieve_check.specs.Typed.{CommandForms};
ghost use Rattle.sieve_meaning.specs.Meaning.{meaning};
ghost use Rattle.sieve_vm.specs.Ending.{IsOutcome};
ghost use Rattle.sieve_compiler.specs.Coding.{code_of};

/// The code of a script is accepted.
pub fn code_is_accepted()
    ensures { (script : CommandForms) → IsBounded script → IsAccepted (code_of script) }
{}

/// On every message the run of a script's code ends with the final actions of the script's meaning.
pub fn code_means_its_script()
    ensures { (script : CommandForms) (mail : Mail) → IsBounded script → IsMail mail
        → (charged : ℕ) × IsOutcome (code_of script) mail (meaning mail script) charged }
{}
