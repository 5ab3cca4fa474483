// Questions about the current part. Outside of loops, where no checked script asks them, they fail.
ghost use Rattle.std.specs.Prelude.{◌≡◌, ℕ, List, IfOk, option_map};
ghost use Rattle.mail_matching.specs.Findings.{shortened};
ghost use Rattle.mail_matching.specs.Outcomes.{after};
ghost use Rattle.mail_matching.specs.Questions.{answer, found, need_of, texts_of};
ghost use Rattle.mail_matching.specs.Texts.{AreTexts};
ghost use Rattle.sieve_meaning.specs.Expanded.{items_of};

use crate::expanded_list::ExpandedList;
use crate::subject::Subject;
use bytecode_format::Question;
use mail_matching::{Answer, Finding, Need, Shown, TestTexts, ask_and_find};
use mime_decode::digest_of;
use std::alloc::{AllocError, Global};

/// The strings of a test, expanded.
pub type Lists<'l, 't> = TestTexts<'l, ExpandedList<'t>, ExpandedList<'t>, ExpandedList<'t>>;

/// The outcome of a question that needs to know of the current part's content, with its texts, and what it finds. The
/// first bytes of that are kept, at most `most` of the value and of the key. It is apart, because most questions don't
/// need the content.
///
/// # Errors
///
/// `AllocError` if memory is refused.
#[inline(never)]
pub fn asked_of_part<'m>(
    alloc: Global,
    subject: Subject<'_, 'm>,
    question: Question,
    need: Need,
    texts: Lists<'_, '_>,
    most: usize,
) -> Result<(Answer<'m>, Option<Finding>), AllocError>
    requires need { need ≡ need_of question }
    requires names { AreTexts (items_of texts.names.now) }
    requires params { AreTexts (items_of texts.params.now) }
    requires keys { AreTexts (items_of texts.keys.now) }
    ensures outcome { IfOk result
        (λ r. (captures : List (List ℕ))
        → after r.0.outcome captures
        ≡ answer subject.entry.message.now subject.entry.part question
        (texts_of (items_of texts.entry.names.now) (items_of texts.entry.params.now)
        (items_of texts.entry.keys.now)) captures) }
    ensures found { IfOk result (λ r. r.1
        ≡ option_map (shortened most)
        (found subject.entry.message.now subject.entry.part question
        (texts_of (items_of texts.entry.names.now) (items_of texts.entry.params.now)
        (items_of texts.entry.keys.now)))) }
{
    let Subject { message, part, .. } = subject;
    let Some(content) = subject.content(alloc)? else {
        return ask_and_find(alloc, message, part, question, Shown::Nothing, texts, most);
    };
    match need {
        Need::Nothing => ask_and_find(alloc, message, part, question, Shown::Nothing, texts, most),
        Need::Length => {
            let length = Shown::Length(content.as_slice().len() as u64);
            ask_and_find(alloc, message, part, question, length, texts, most)
        }
        Need::Content => {
            let content = Shown::Content(&content);
            ask_and_find(alloc, message, part, question, content, texts, most)
        }
        Need::Digest => {
            let digits = digest_of(content.as_slice());
            let digest = Shown::Digest(&digits);
            ask_and_find(alloc, message, part, question, digest, texts, most)
        }
    }
}
