//! The law of written code: bytes that spell a script's code do what the script means.
ghost use Rattle.std.specs.Prelude.{◌≡◌, ℕ, ◌≤◌, List};
ghost use Rattle.bytecode_format.specs.declared.action.Action.{Action};
ghost use Rattle.mime_decode.specs.Mail.{IsReadable, mail_of};
ghost use Rattle.refusals.specs.declared.refusal.Refusal.{Refusal};
ghost use Rattle.sieve_check.specs.Typed.{CommandForms};
ghost use Rattle.sieve_compiler.specs.Coding.{code_of};
ghost use Rattle.sieve_engine.specs.Evaluation.{IsEvaluation, IsScript};
ghost use Rattle.sieve_engine.specs.Execution.{IsChecked, IsExecution, IsRefusal, IsUnread, Spells};
ghost use Rattle.sieve_meaning.specs.Meaning.{meaning};

/// Bytes that spell the code of a script without faults are accepted as a program. Executing them on a message is
/// evaluating the script on it: the result is the final actions that the script means, the charge is at most the
/// budget, and a refusal is one of the message, or of memory.
pub fn written_code_means_its_script()
    ensures accepted { (script program : List ℕ) (form : CommandForms) → IsScript script form
        → Spells program (code_of form) → IsChecked program (code_of form) }
    ensures runs { (script program message : List ℕ) (form : CommandForms) → IsScript script form
        → Spells program (code_of form) → IsReadable message
        → (charged : ℕ) × ((limit : ℕ)
        × IsExecution program message (meaning (mail_of message) form) charged limit) }
    ensures means { (script program message : List ℕ) (form : CommandForms) (actions : List Action)
        (charged limit : ℕ) → IsScript script form → Spells program (code_of form)
        → IsExecution program message actions charged limit
        → (actions ≡ meaning (mail_of message) form) × (charged ≤ limit) }
    ensures evaluates { (script program message : List ℕ) (form : CommandForms)
        (actions : List Action) (charged limit : ℕ) → IsScript script form
        → Spells program (code_of form) → IsExecution program message actions charged limit
        → IsEvaluation script message actions charged limit }
    ensures refused { (script program message : List ℕ) (form : CommandForms) (e : Refusal)
        → IsScript script form → Spells program (code_of form) → IsRefusal program message e
        → IsUnread message e }
{}
