//! The laws of the fault and of the typed form.
ghost use Rattle.std.specs.Prelude.{◌≡◌, Some, None};
ghost use Rattle.bytecode_format.specs.declared.question.Question.{Question};
ghost use Rattle.sieve_parser.specs.Tree.{CommandsTree};
ghost use Rattle.sieve_check.specs.declared.table.CommandName.{CommandName};
ghost use Rattle.sieve_check.specs.declared.table.TestName.{TestName};
ghost use Rattle.sieve_check.specs.declared.typed.Act.{Act};
ghost use Rattle.sieve_check.specs.Acts.{act_row};
ghost use Rattle.sieve_check.specs.FormOf.{IsFormOf, act_of, question_of};
ghost use Rattle.sieve_check.specs.LeastFault.{least_fault};
ghost use Rattle.sieve_check.specs.Questions.{named_by};
ghost use Rattle.sieve_check.specs.Rules.{fault_of};
ghost use Rattle.sieve_check.specs.Signatures.{Read};
ghost use Rattle.sieve_check.specs.Surroundings.{Context};
ghost use Rattle.sieve_check.specs.Typed.{CommandForms, Template};

/// A script without a fault has a typed form.
pub fn faultless_scripts_have_a_form()
    ensures { (script : CommandsTree) → fault_of script ≡ None
        → (form : CommandForms) × IsFormOf script form }
{}

/// The fault of a script is the least one of the first command or test that has one.
pub fn the_fault_is_the_least()
    ensures { (script : CommandsTree) → fault_of script ≡ least_fault script }
{}

/// A question has the name of the test that it is made of.
pub fn questions_are_called_as_their_tests()
    ensures { (name : TestName) (read : Read) (question : Question)
        → question_of name read ≡ Some question → named_by question ≡ name }
{}

/// An act has the name of the command that it is made of.
pub fn acts_are_called_as_their_commands()
    ensures { (s : Context) (name : CommandName) (read : Read) (act : Act) (string : Template)
        → act_of s name read ≡ Some (act, string) → (act_row act).name ≡ name }
{}
