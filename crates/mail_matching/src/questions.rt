// How questions are asked.
//
// A question gets from its caller what it needs of the current part (`Need` and `Shown`): nothing, the length of its
// content, the content, or its digest. The machine keeps the content with its loop, the meaning decodes it each time,
// and neither knows why it is needed.
ghost use Rattle.std.specs.Prelude.{◌≡◌, ◌<◌, ℕ, List, Option, IfOk, IfSome, IsOk, is_some, length, not, option_map};
ghost use Rattle.bytecode_format.specs.Questions.{row_of};
ghost use Rattle.mail_matching.specs.Findings.{shortened};
ghost use Rattle.mail_matching.specs.Outcomes.{HasAsked, IsFresh, after};
ghost use Rattle.mail_matching.specs.Questions.{IsDecidedAs, IsShown, TakesNoMemory, Texts as TextsOf, answer, asked, current as current_part, found, looked_cost, need_of, question_cost, texts_of};
ghost use Rattle.mail_matching.specs.Texts.{AreTexts};
ghost use Rattle.mime_decode.specs.Mail.{Mail};

use crate::existence::exists;
use crate::finding::{Finding, Found, Telling};
use crate::header_test::header;
use crate::headers::Reach;
use crate::outcome::Answer;
use crate::part_tests::{is_size, part_body, part_digest, part_is_size};
use crate::progress::Progress;
use crate::string_test::string;
use crate::texts::Texts;
use bytecode_format::Question;
use mime_decode::Message;
use std::alloc::{AllocError, Global};
use std::borrow::CowSlice;

/// What a question needs to know of the current part's content. [`Need::of`] gives it; the caller of [`ask`] finds it
/// and passes it on as a [`Shown`].
#[derive(Clone, Copy)]
pub enum Need {
    /// Nothing: the question isn't about the content.
    Nothing,
    /// How many bytes the content has.
    Length,
    /// The whole content, decoded.
    Content,
    /// The digest of the content.
    Digest,
}

/// What the caller of [`ask`] knows of the current part's content, as far as the question needs it.
#[derive(Clone, Copy)]
pub enum Shown<'c, 'm> {
    /// Nothing is needed, or there is no current part.
    Nothing,
    /// How many bytes the content has.
    Length(u64),
    /// The whole content, decoded.
    Content(&'c CowSlice<'m, u8>),
    /// The SHA-256 digest of the content, in hexadecimal digits.
    Digest(&'c [u8; 64]),
}

impl Need {
    ghost use Rattle.std.specs.Prelude.{◌≡◌};
    ghost use Rattle.mail_matching.specs.Questions.{need_of};

    /// Returns what the question needs to know.
    #[inline(always)]
    pub fn of(question: Question) -> Need
        ensures { result ≡ need_of question }
    {
        match question {
            Question::Constant(_)
            | Question::Header(_)
            | Question::Exists(_)
            | Question::Size(..)
            | Question::String(_) => Need::Nothing,
            Question::PartSize(..) => Need::Length,
            Question::PartBody(_) => Need::Content,
            Question::PartDigest => Need::Digest,
        }
    }
}

/// Decides a question that takes no keys: returns whether it is true, and the cost. The result is `None` exactly if
/// the question takes keys. It takes no memory.
///
/// `current` and `shown` are as for [`ask`], and `names` are the names of the test.
///
/// # Requires
///
/// - The current part, if there is one, is in the message: its number is less than `message.parts()`.
/// - `shown` is what [`Need::of`] the question demands of the current part, or [`Shown::Nothing`] if there is none.
/// - There are at most 1,024 names, each of at most 16,384 bytes.
#[inline(always)]
pub fn decide<N: Texts>(
    message: &Message,
    current: Option<usize>,
    question: Question,
    shown: Shown<'_, '_>,
    names: &N,
) -> Option<(bool, u64)>
    requires current { IfSome current (λ number. number < length message.now.parts) }
    requires shown { IsShown (need_of question) (current_part message.now current) shown }
    requires names { AreTexts (N.texts names.now) }
    ensures keys { is_some result ≡ not (row_of question).takes.keys }
    ensures value { IfSome result (λ r. IsDecidedAs message.now current question (N.texts names.now) r.0 r.1) }
{
    match question {
        Question::Constant(value) => Some((value, 0)),
        Question::Exists(scope) => Some(exists(message, Reach { scope, current }, names)),
        Question::Size(order, number) => {
            Some((is_size(order, number, message.size() as u64), 0))
        }
        Question::PartSize(order, number) => Some((part_is_size(order, number, shown), 0)),
        Question::Header(_) | Question::String(_) | Question::PartBody(_) | Question::PartDigest =>
            None,
    }
}

/// The texts of a test, lent: its names or sources, the names of parameters, and its keys.
#[derive(Clone, Copy)]
pub struct TestTexts<'t, N: Texts, P: Texts, K: Texts> {
    /// The names of fields, or the sources of `string`.
    pub names: &'t N,
    /// The names of parameters.
    pub params: &'t P,
    /// The keys that values are compared with.
    pub keys: &'t K,
}

/// Asks a question on the message, and returns the cost. The outcome is in `progress` afterwards, and the listener in
/// `progress` has learned what was found.
///
/// `current` is the number of the current part, or `None` outside of loops; `shown` is what the question needs of its
/// content.
///
/// Values are compared in order, and each with the keys in order, up to the first match. Values of fields are taken
/// part by part, in each part name by name, for each name field by field, and for each field parameter name by
/// parameter name. A field's value is unfolded at most once for each name that selects it, and not after the match,
/// unless its type or its parameters have to be read. For a type 128 bytes are read first, and the rest only if these
/// don't settle it; the type of such a longer field is kept with the message, and isn't read again. The parameters of
/// a value are read once, however many are asked for.
///
/// The cost counts all names and fields, and all values and keys, even those that weren't compared. For 1,024 names,
/// 1,024 parameters and 1,024 keys of 16,384 bytes on the largest message it is below 2^71.
///
/// # Requires
///
/// - The current part, if there is one, is in the message: its number is less than `message.parts()`.
/// - `shown` is what [`Need::of`] the question demands of the current part, or [`Shown::Nothing`] if there is none.
/// - There are at most 1,024 names, parameters and keys each, and each has at most 16,384 bytes.
/// - `progress` is new: no question was asked with it.
///
/// # Errors
///
/// `AllocError` if memory is refused. It is taken only for values that are folded, for types and parameters, for the
/// captures of a value that the message doesn't lend, and by the listener.
#[inline(always)]
pub fn ask<'m, N: Texts, P: Texts, K: Texts, T: Telling>(
    alloc: Global,
    message: &Message<'m>,
    current: Option<usize>,
    question: Question,
    shown: Shown<'_, 'm>,
    texts: TestTexts<'_, N, P, K>,
    progress: &mut Progress<'m, T>,
) -> Result<u128, AllocError>
    requires current { IfSome current (λ number. number < length message.now.parts) }
    requires shown { IsShown (need_of question) (current_part message.now current) shown }
    requires names { AreTexts (N.texts texts.names.now) }
    requires params { AreTexts (P.texts texts.params.now) }
    requires keys { AreTexts (K.texts texts.keys.now) }
    requires fresh { IsFresh progress.old }
    ensures asked { IfOk result (λ cost. HasAsked T.knows
        (asked message.now current question (texts_of (N.texts texts.entry.names.now)
        (P.texts texts.entry.params.now) (K.texts texts.entry.keys.now)))
        (K.texts texts.entry.keys.now)
        (looked_cost message.now current question (texts_of (N.texts texts.entry.names.now)
        (P.texts texts.entry.params.now) (K.texts texts.entry.keys.now)))
        progress.old progress.new cost) }
    ensures no_memory { T.is_free → TakesNoMemory message.now current question
        (texts_of (N.texts texts.entry.names.now) (P.texts texts.entry.params.now)
        (K.texts texts.entry.keys.now)) shown.entry → IsOk result }
{
    match question {
        Question::Header(test) => header(alloc, message, current, test, texts, progress),
        Question::String(how) => string(alloc, texts.names, texts.keys, how, progress),
        Question::PartBody(how) => part_body(alloc, shown, texts.keys, how, progress),
        Question::PartDigest => part_digest(alloc, shown, texts.keys, progress),
        Question::Constant(_) | Question::Exists(_) | Question::Size(..) | Question::PartSize(..) =>
            {
                let (value, looked) = decide(
                    message,
                    current,
                    question,
                    shown,
                    texts.names,
                ).unwrap();
                Ok(progress.decide(value, looked))
            }
    }
}

/// Asks a question on the message, and returns its outcome, its cost and what it found. If it compares values with
/// keys, that is the first value that matches a key and that key, each cut to `most` bytes, or how many values there
/// are; otherwise `None`.
///
/// # Requires
///
/// - The current part, if there is one, is in the message: its number is less than `message.parts()`.
/// - `shown` is what [`Need::of`] the question demands of the current part, or [`Shown::Nothing`] if there is none.
/// - There are at most 1,024 names, parameters and keys each, and each has at most 16,384 bytes.
///
/// # Errors
///
/// `AllocError` if memory is refused. If a value matches, memory is also taken for the bytes that are kept of it and
/// of the key.
#[inline(always)]
pub fn ask_and_find<'m, N: Texts, P: Texts, K: Texts>(
    alloc: Global,
    message: &Message<'m>,
    current: Option<usize>,
    question: Question,
    shown: Shown<'_, 'm>,
    texts: TestTexts<'_, N, P, K>,
    most: usize,
) -> Result<(Answer<'m>, Option<Finding>), AllocError>
    requires current { IfSome current (λ number. number < length message.now.parts) }
    requires shown { IsShown (need_of question) (current_part message.now current) shown }
    requires names { AreTexts (N.texts texts.names.now) }
    requires params { AreTexts (P.texts texts.params.now) }
    requires keys { AreTexts (K.texts texts.keys.now) }
    ensures outcome { IfOk result (λ r. (captures : List (List ℕ))
        → after r.0.outcome captures
        ≡ answer message.now current question (texts_of (N.texts texts.entry.names.now)
        (P.texts texts.entry.params.now) (K.texts texts.entry.keys.now)) captures) }
    ensures cost { IfOk result (λ r. r.0.cost
        ≡ question_cost message.now current question (texts_of (N.texts texts.entry.names.now)
        (P.texts texts.entry.params.now) (K.texts texts.entry.keys.now))) }
    ensures found { IfOk result (λ r. r.1
        ≡ option_map (shortened most) (found message.now current question (texts_of (N.texts texts.entry.names.now)
        (P.texts texts.entry.params.now) (K.texts texts.entry.keys.now)))) }
{
    let mut progress = Progress::new(Found::new(most));
    let cost = ask(
        alloc,
        message,
        current,
        question,
        shown,
        texts,
        &mut progress,
    )?;
    let found = compares(question, shown).then_some(progress.told.finding);
    let answer = Answer {
        outcome: progress.outcome,
        cost,
    };
    Ok((answer, found))
}

// Whether the question compares values with keys. Questions on the current part compare none if there is no such
// part.
#[inline(always)]
fn compares(question: Question, shown: Shown) -> bool
    ensures { (mail : Mail) (part : Option ℕ) (texts : TextsOf)
        → IsShown (need_of question) (current_part mail part) shown.entry
        → is_some (found mail part question texts) ≡ result }
{
    match question {
        Question::Header(_) | Question::String(_) => true,
        Question::PartBody(_) | Question::PartDigest => !matches!(shown, Shown::Nothing),
        Question::Constant(_) | Question::Exists(_) | Question::Size(..) | Question::PartSize(..) =>
            false,
    }
}
