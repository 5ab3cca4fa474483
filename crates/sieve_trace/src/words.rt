// Tests and actions in words.
ghost use Rattle.std.specs.Prelude.{◌≡◌, ◌++◌, ℕ, List, OnOk, option_map};
ghost use Rattle.std.specs.Borrow.{Bor};
ghost use Rattle.std.specs.Fmt.{decimal};
ghost use Rattle.readable_text.specs.Quoted.{quoted_start};
ghost use Rattle.sieve_check.specs.Acts.{act_row};
ghost use Rattle.sieve_meaning.specs.Traced.{variable_of};
ghost use Rattle.sieve_trace.specs.Words.{act_text, comparison_word, left_text, object_text, question_word};

use bytecode_format::Question;
use itoa::Buffer;
use octets::Octets;
use readable_text::quoting::put_quoted_start;
use sieve_check::{Act, command_word, comparison_of, kind_word, name_of, test_word};
use std::alloc::AllocError;

/// The word of a question.
#[inline(always)]
pub fn question_word(question: Question) -> &'static [u8]
    ensures { result.now ≡ question_word question }
{
    test_word(name_of(question)).as_bytes()
}

/// How the values of a question are compared with its keys, in one word.
pub fn comparison_word(question: Question) -> &'static [u8]
    ensures { result.now ≡ comparison_word question }
{
    match comparison_of(question) {
        Some(kind) => kind_word(kind),
        None => b"",
    }
}

/// The name of the variable that an action sets, if it sets one.
#[tactic(auto, using(crate::proofs::WordLemmas::only_one))]
pub fn variable_of(act: &Act) -> Option<&Octets>
    ensures { option_map (λ (name : Bor (List ℕ)). name.now) result ≡ variable_of act.now }
{
    act.sets()
}

/// Appends a number in decimal digits.
///
/// # Errors
///
/// `AllocError` if memory is refused.
#[tactic(auto, using(std::proofs::lemmas::Fmt::decimal_digit))]
pub fn push_number(out: &mut Vec<u8>, number: u64) -> Result<(), AllocError>
    ensures { OnOk result (out.new.items ≡ out.old.items ++ decimal number) }
{
    if number < 10 {
        return Ok(out.push(b'0' + number as u8)?);
    }
    out.extend_from_slice(Buffer::new().format(number as u128).as_bytes())
}

/// Appends a word and a text between quotes.
///
/// # Errors
///
/// `AllocError` if memory is refused.
pub fn push_with_text(out: &mut Vec<u8>, word: &[u8], text: &[u8]) -> Result<(), AllocError>
    ensures { OnOk result (out.new.items ≡ out.old.items ++ (word.now ++ quoted_start text.now)) }
{
    out.extend_from_slice(word)?;
    put_quoted_start(out, text)
}

// Appends what an action is done with.
fn push_object(out: &mut Vec<u8>, act: &Act, text: &[u8]) -> Result<(), AllocError>
    ensures { OnOk result (out.new.items ≡ out.old.items
        ++ object_text (variable_of act.now) (act_row act.now).string text.now) }
{
    match variable_of(act) {
        Some(name) => {
            push_with_text(out, b" ", name.as_slice())?;
            push_with_text(out, b" ", text)
        }
        None => {
            if act.takes_string() {
                return push_with_text(out, b" ", text);
            }
            Ok(())
        }
    }
}

// Appends how many loops are left.
fn push_left(out: &mut Vec<u8>, left: Option<u8>) -> Result<(), AllocError>
    ensures { OnOk result (out.new.items ≡ out.old.items ++ left_text left) }
{
    match left {
        Some(loops) => {
            out.extend_from_slice(b" ")?;
            push_number(out, u64::from(loops))
        }
        None => Ok(()),
    }
}

/// Appends an action with what is reported about it.
///
/// # Errors
///
/// `AllocError` if memory is refused.
#[tactic(auto, unfolding(crate::specs::Words::act_text))]
pub fn push_act(out: &mut Vec<u8>, act: &Act, text: &[u8]) -> Result<(), AllocError>
    ensures { OnOk result (out.new.items ≡ out.old.items ++ act_text act.now text.now) }
{
    out.extend_from_slice(command_word(act.name()).as_bytes())?;
    push_object(out, act, text)?;
    push_left(out, act.left())
}
