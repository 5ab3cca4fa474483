// Sentences with blanks.
//
// Sentences are templates with blanks, one for each reason, so that the definition is a table that a person can read.
ghost use Rattle.std.specs.Prelude.{◌≡◌, ◌++◌, OnOk};
ghost use Rattle.sieve_explain.specs.Sentences.{filled, filled_octet, plain};
ghost use Rattle.sieve_explain.specs.Private.{blanks_of};

use crate::shown::push_between;
use itoa::Buffer;
use std::alloc::AllocError;

/// A sentence: its text, in which some characters are blanks, and what goes into the blanks. The modules about faults
/// make it, and [`crate::explain`] prints it.
#[derive(Clone, Copy)]
pub struct Sentence<'a> {
    /// The text with its blanks, as in `specs/Sentences`: `@`, `#`, `$`, `&`, `~` and `%`.
    pub text: &'static str,
    /// The name of a command or test, or the text of a token, for `@`.
    pub name: &'a [u8],
    /// A tag or a string, for `#` and `$`.
    pub subject: &'a [u8],
    /// Words of ours, for `&`.
    pub words: &'static str,
    /// Further words of ours, for `~`.
    pub others: &'static str,
    /// A number, for `%`.
    pub number: u64,
}

/// A sentence without blanks.
pub fn plain(text: &'static str) -> Sentence<'static>
    ensures { blanks_of result ≡ plain text.now }
{
    Sentence {
        text,
        name: &[],
        subject: &[],
        words: "",
        others: "",
        number: 0,
    }
}

// Appends what the sentence has for a byte of its text.
#[tactic(auto, unfolding(crate::specs::Sentences::filled_octet))]
fn push_filled(out: &mut Vec<u8>, sentence: &Sentence<'_>, octet: u8) -> Result<(), AllocError>
    ensures { OnOk result (out.new.items ≡ out.old.items
        ++ filled_octet (blanks_of sentence.now) octet) }
{
    match octet {
        b'@' => push_between(out, b"`", sentence.name, b'`'),
        b'#' => push_between(out, b"`:", sentence.subject, b'`'),
        b'$' => push_between(out, b"\"", sentence.subject, b'"'),
        b'&' => out.extend_from_slice(sentence.words.as_bytes()),
        b'~' => out.extend_from_slice(sentence.others.as_bytes()),
        b'%' => out.extend_from_slice(Buffer::new().format(sentence.number).as_bytes()),
        _ => out.extend_from_slice(&[octet]),
    }
}

/// Appends the sentence.
///
/// # Errors
///
/// `AllocError` if memory is refused.
pub fn push_sentence(out: &mut Vec<u8>, sentence: &Sentence<'_>) -> Result<(), AllocError>
    ensures { OnOk result (out.new.items ≡ out.old.items ++ filled (blanks_of sentence.now)) }
{
    for octet in sentence.text.as_bytes() {
        push_filled(out, sentence, *octet)?;
    }
    Ok(())
}
