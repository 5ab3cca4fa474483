//! The laws of questions: how much they cost at most, and which captures they leave.
ghost use Rattle.std.specs.Prelude.{◌≡◌, ◌+◌, ◌*◌, ◌≤◌, ◌∷◌, [], ℕ, List, Option, Some, is_some, length};
ghost use Rattle.glob_match.specs.Matching.{max_captures};
ghost use Rattle.glob_match.specs.declared.match_type.Match.{Match};
ghost use Rattle.mime_decode.specs.Content.{digest_of};
ghost use Rattle.mime_decode.specs.Mail.{IsMail, Mail, Part, size_of};
ghost use Rattle.bytecode_format.specs.Questions.{digest_length, most_of, operation_asking};
ghost use Rattle.bytecode_format.specs.declared.question.Question.{Question};
ghost use Rattle.bytecode_format.specs.declared.question.Sizes.{Sizes};
ghost use Rattle.bytecode_format.specs.declared.selection.Scope.{Scope};
ghost use Rattle.bytecode_format.specs.declared.selection.Selector.{Selector};
ghost use Rattle.mail_matching.specs.Costs.{extent_of, values_cost, values_of_a_field};
ghost use Rattle.mail_matching.specs.Findings.{after_pair, first_pair};
ghost use Rattle.mail_matching.specs.FirstMatch.{first_match};
ghost use Rattle.mail_matching.specs.QuestionCosts.{AreWithin, value_of};
ghost use Rattle.mail_matching.specs.Questions.{Texts, answer, question_cost};
ghost use Rattle.mail_matching.specs.Selection.{selected_values};

/// A question costs no more than this, if the texts are no larger: for names, what the names have for each byte of
/// the message; for the values that they select, that many times what the keys have, once for each value that can be
/// selected in a field; for a part's content, what the keys have for each byte of the message.
pub fn question_cost_is_within_the_message()
    ensures { (mail : Mail) → IsMail mail
        → (current : Option ℕ) (question : Question) (texts : Texts) (sizes : Sizes)
        → AreWithin sizes texts → question_cost mail current question texts
        ≤ value_of (most_of (operation_asking question) sizes) (size_of mail) }
{}

/// The cost of comparing is a product.
pub fn values_cost_is_a_product()
    ensures { (values keys : List (List ℕ))
        → values_cost values keys ≡ extent_of values * extent_of keys }
{}

/// Comparing the selected values of fields costs at most the product of four numbers: the names, the values that can
/// be selected in one field, the bytes of the message, and the extent of the keys.
pub fn values_cost_is_within_the_message()
    ensures { (mail : Mail) → IsMail mail
        → (scope : Scope) (current : Option ℕ) (selector : Selector)
        (params names keys : List (List ℕ))
        → values_cost (selected_values scope current selector params names mail) keys
        ≤ length names * values_of_a_field selector params * size_of mail * extent_of keys }
{}

/// Comparing the digest of a part's content costs the same for any content.
pub fn digest_cost_is_fixed()
    ensures { (part : Part) (keys : List (List ℕ))
        → values_cost (digest_of part.content ∷ []) keys
        ≡ (digest_length + 1) * extent_of keys }
{}

/// There are always ten captures.
pub fn captures_stay_ten()
    ensures { (mail : Mail) (current : Option ℕ) (question : Question) (texts : Texts)
        (captures after : List (List ℕ))
        → length captures ≡ max_captures → answer mail current question texts captures ≡ Some after
        → length after ≡ max_captures }
{}

/// A test holds exactly if a value and a key match.
pub fn a_pair_is_found_where_a_test_holds()
    ensures { (how : Match) (values keys captures : List (List ℕ))
        → is_some (first_match how values keys captures) ≡ is_some (first_pair how values keys) }
{}

/// The captures after a test are those after the first value and key that match.
pub fn captures_are_those_after_the_first_pair()
    ensures { (how : Match) (values keys captures : List (List ℕ))
        → first_match how values keys captures
        ≡ after_pair how captures (first_pair how values keys) }
{}
