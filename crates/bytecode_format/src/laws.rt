//! Laws of the format, of modifiers, of the numbers of tests and of final actions, over their definitions alone.
ghost use Rattle.std.specs.Prelude.{◌≡◌, ◌↔◌, ◌<◌, ℕ, true, Some, List, [], ◌∷◌, ◌++◌};
ghost use Rattle.bytecode_format.specs.declared.action.Action.{Action};
ghost use Rattle.bytecode_format.specs.declared.modifiers.Modifiers.{Modifiers};
ghost use Rattle.bytecode_format.specs.declared.selection.Scope.{Scope};
ghost use Rattle.bytecode_format.specs.declared.selection.FieldTest.{FieldTest};
ghost use Rattle.bytecode_format.specs.declared.selection.TestCounts.{TestCounts};
ghost use Rattle.bytecode_format.specs.declared.instruction.Instruction.{Instruction};
ghost use Rattle.bytecode_format.specs.declared.operation.TestOperation.{TestOperation};
ghost use Rattle.bytecode_format.specs.declared.question.Counts.{Counts};
ghost use Rattle.bytecode_format.specs.declared.question.Order.{Order};
ghost use Rattle.bytecode_format.specs.declared.question.Question.{Question};
ghost use Rattle.bytecode_format.specs.Questions.{AreCountsOf, StandsIn, counts_in, instruction_of, operation_asking, question_in, row_of};
ghost use Rattle.glob_match.specs.declared.match_type.Match.{Match};
ghost use Rattle.bytecode_format.specs.Code.{Code, version_two};
ghost use Rattle.bytecode_format.specs.Spelling.{IsProgram, spelling};
ghost use Rattle.bytecode_format.specs.Action.{is_same};
ghost use Rattle.bytecode_format.specs.Actions.{first_occurrences, with_action};
ghost use Rattle.bytecode_format.specs.Modifiers.{modifiers_number, modifiers_numbered};
ghost use Rattle.bytecode_format.specs.Selection.{counts_number, counts_numbered, field_test_number, field_test_numbered, key_numbers, match_number, match_numbered, order_number, order_numbered, scope_number, scope_numbered};

/// Bytes spell at most one program.
pub fn one_program_for_octets()
    ensures { (p q : Code) → IsProgram p → IsProgram q → spelling p ≡ spelling q → p ≡ q }
{}

/// A program of one version is a program of version 2.
pub fn programs_go_on_in_version_two()
    ensures { (code : Code) → IsProgram code → IsProgram (record code { version = version_two }) }
{}

/// One more action at the end of a run is added to the list, unless it is in it.
pub fn one_more_action()
    ensures { (actions : List Action) (action : Action)
        → first_occurrences (actions ++ action ∷ [])
        ≡ with_action (first_occurrences actions) action }
{}

/// `is_same` is true exactly for equal actions.
pub fn same_actions_are_equal()
    ensures { (a b : Action) → (is_same a b ≡ true) ↔ (a ≡ b) }
{}

/// Each combination of modifiers has one number, of six bits, and no other number means it.
pub fn one_number_for_modifiers()
    ensures number { (m : Modifiers) → modifiers_numbered (modifiers_number m) ≡ Some m }
    ensures small { (m : Modifiers) → modifiers_number m < 64 }
    ensures only { (n : ℕ) (m : Modifiers) → modifiers_numbered n ≡ Some m
        → modifiers_number m ≡ n }
{}

/// Each way to match values has one number, and no other number means it.
pub fn one_number_for_matches()
    ensures number { (how : Match) → match_numbered (match_number how) ≡ Some how }
    ensures only { (n : ℕ) (how : Match) → match_numbered n ≡ Some how → match_number how ≡ n }
{}

/// Each scope has one number, and no other number means it.
pub fn one_number_for_scopes()
    ensures number { (scope : Scope) → scope_numbered (scope_number scope) ≡ Some scope }
    ensures only { (n : ℕ) (scope : Scope) → scope_numbered n ≡ Some scope
        → scope_number scope ≡ n }
{}

/// Each test of fields has one number, which is a byte, and no other number means it.
pub fn one_number_for_field_tests()
    ensures number { (t : FieldTest) → field_test_numbered (field_test_number t) ≡ Some t }
    ensures small { (t : FieldTest) → field_test_number t < 256 }
    ensures only { (n : ℕ) (t : FieldTest) → field_test_numbered n ≡ Some t
        → field_test_number t ≡ n }
{}

/// All counts of a test have a number, and each number means some counts.
pub fn one_number_for_counts()
    ensures number { (counts : TestCounts) → counts.keys < key_numbers
        → counts_numbered (counts_number counts) ≡ counts }
    ensures only { (n : ℕ) → counts_number (counts_numbered n) ≡ n }
{}

/// Each order has one number, and no other number means it.
pub fn one_number_for_orders()
    ensures number { (order : Order) → order_numbered (order_number order) ≡ Some order }
    ensures only { (n : ℕ) (order : Order) → order_numbered n ≡ Some order
        → order_number order ≡ n }
{}

/// An instruction determines its question, and how many strings the question has. The question is one of the
/// instruction's own operation.
pub fn one_instruction_for_questions()
    ensures question { (numbers : List ℕ) (q : Question) (counts : Counts) (place : ℕ)
        → StandsIn numbers place q
        → question_in numbers (operation_asking q) (instruction_of q counts place) ≡ Some q }
    ensures counts { (q : Question) (counts : Counts) (place : ℕ) → counts.keys < key_numbers
        → AreCountsOf (row_of q).takes counts
        → counts_in (operation_asking q) (instruction_of q counts place) ≡ counts }
    ensures only { (numbers : List ℕ) (t : TestOperation) (i : Instruction) (q : Question)
        → question_in numbers t i ≡ Some q → operation_asking q ≡ t }
{}
