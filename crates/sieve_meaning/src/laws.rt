//! The laws of events: they determine what the script means, and what its tests find.
ghost use Rattle.std.specs.Prelude.{◌≡◌, ℕ, IfSome, List, Option, is_some};
ghost use Rattle.mail_matching.specs.Findings.{is_pair};
ghost use Rattle.mail_matching.specs.Questions.{Texts, answer, found};
ghost use Rattle.mime_decode.specs.Mail.{Mail};
ghost use Rattle.sieve_check.specs.Typed.{CommandForms};
ghost use Rattle.bytecode_format.specs.declared.question.Question.{Question};
ghost use Rattle.sieve_meaning.specs.Meaning.{meaning};
ghost use Rattle.sieve_meaning.specs.Traced.{come_to, script_events};

/// The actions among the events of a script determine its meaning: the listed actions, in order, and the implicit keep
/// unless one of them cancels it, are the final actions of the script on the message.
pub fn events_come_to_the_meaning()
    ensures { (mail : Mail) (script : CommandForms)
        → come_to (script_events mail script) ≡ meaning mail script }
{}

/// If a test finds something, it is a value and a key exactly if the test is true.
pub fn findings_agree_with_answers()
    ensures { (mail : Mail) (part : Option ℕ) (question : Question) (texts : Texts)
        (captures : List (List ℕ))
        → IfSome (found mail part question texts)
        (λ finding. is_pair finding ≡ is_some (answer mail part question texts captures)) }
{}
