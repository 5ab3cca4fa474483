// The lines of events.
//
// Lines are made in one buffer, which is kept from line to line. The script's name is escaped once, and the words of a
// part are made once a turn. Without that, half of the instructions for a line would be the growth of a new buffer.
ghost use Rattle.std.specs.Prelude.{◌≡◌, ◌++◌, ℕ, Option, OnOk, codes, option_map};
ghost use Rattle.std.specs.Borrow.{Bor};
ghost use Rattle.readable_text.specs.Quoted.{quoted_start};
ghost use Rattle.mail_matching.specs.declared.finding.Finding.{Finding};
ghost use Rattle.mime_decode.specs.Mail.{Mail};
ghost use Rattle.sieve_meaning.specs.Traced.{event};
ghost use Rattle.sieve_meaning.specs.Watched.{occurrence_of};
ghost use Rattle.sieve_trace.specs.Printed.{event_line, event_text, finding_text, occurrence_text};
ghost use Rattle.sieve_trace.specs.Printed.{part_text, value_text, values_text};
ghost use Rattle.sieve_trace.specs.Private.{sheet_of};

use crate::places::Places;
use crate::scene::Scene;
use crate::words::{comparison_word, push_act, push_number, push_with_text, question_word};
use bytecode_format::Question;
use mail_matching::Finding;
use readable_text::quoting::MAX_START;
use sieve_meaning::Told;
use std::alloc::AllocError;

/// How many bytes are kept of a text that is to be printed: one more shows that it continues.
pub(crate) const MAX_KEPT: usize = MAX_START + 1;

// Appends whether a test is true.
#[inline(always)]
fn push_value(out: &mut Vec<u8>, value: bool) -> Result<(), AllocError>
    ensures { OnOk result (out.new.items ≡ out.old.items ++ value_text value) }
{
    if value {
        out.extend_from_slice(b" yes")
    } else {
        out.extend_from_slice(b" no")
    }
}

// Appends a number of values.
#[inline(always)]
fn push_values(out: &mut Vec<u8>, number: u64) -> Result<(), AllocError>
    ensures { OnOk result (out.new.items ≡ out.old.items ++ values_text number) }
{
    push_number(out, number)?;
    if number == 1 {
        out.extend_from_slice(b" value")
    } else {
        out.extend_from_slice(b" values")
    }
}

// Appends a value and a key that match, and how they were compared.
fn push_pair(out: &mut Vec<u8>, value: &[u8], word: &[u8], key: &[u8]) -> Result<(), AllocError>
    ensures { OnOk result (out.new.items ≡ out.old.items
        ++ (codes " " ++ quoted_start value.now ++ codes " " ++ word.now ++ codes " " ++ quoted_start key.now)) }
{
    push_with_text(out, b" ", value)?;
    out.extend_from_slice(b" ")?;
    out.extend_from_slice(word)?;
    push_with_text(out, b" ", key)
}

// Appends what a question has found.
#[inline(always)]
#[tactic(auto, unfolding(crate::specs::Printed::finding_text))]
fn push_finding(
    out: &mut Vec<u8>,
    question: Question,
    finding: Option<&Finding>,
) -> Result<(), AllocError>
    ensures { OnOk result (out.new.items ≡ out.old.items
        ++ finding_text question (option_map (λ (f : Bor Finding). f.now) finding.entry)) }
{
    match finding {
        Some(Finding::Pair { value, key }) => {
            push_pair(
                out,
                value.as_slice(),
                comparison_word(question),
                key.as_slice(),
            )
        }
        Some(Finding::NoneOf(number)) => {
            out.extend_from_slice(b", ")?;
            push_values(out, *number)
        }
        None => Ok(()),
    }
}

// Appends a word of a test and whether the test is true.
#[inline(always)]
fn push_test(out: &mut Vec<u8>, word: &[u8], value: bool) -> Result<(), AllocError>
    ensures { OnOk result (out.new.items ≡ out.old.items ++ (word.now ++ value_text value)) }
{
    out.extend_from_slice(word)?;
    push_value(out, value)
}

// Appends the result of a test or a command after its word.
#[inline(always)]
#[tactic(auto, unfolding(crate::specs::Printed::occurrence_text))]
fn push_occurrence(out: &mut Vec<u8>, what: Told<'_>) -> Result<(), AllocError>
    ensures { OnOk result (out.new.items ≡ out.old.items ++ occurrence_text (occurrence_of what.entry)) }
{
    match what {
        Told::Asked(question, value, finding) => {
            push_test(out, question_word(question), value)?;
            push_finding(out, question, finding)
        }
        Told::Not(value) => push_test(out, b"not", value),
        Told::AllOf(value) => push_test(out, b"allof", value),
        Told::AnyOf(value) => push_test(out, b"anyof", value),
        Told::Acted(act, text) => push_act(out, act, text),
        Told::Turn => out.extend_from_slice(b"foreverypart"),
    }
}

// Appends what happened, and the part with this text in which it did.
#[inline(always)]
#[tactic(auto, using(crate::proofs::Shown::text_told), unfolding(crate::specs::Printed::event_text, crate::specs::Printed::occurrence_text))]
fn push_event(out: &mut Vec<u8>, part: &[u8], what: Told<'_>) -> Result<(), AllocError>
    ensures { (mail : Mail) (number : Option ℕ) → part.now ≡ part_text mail number
        → OnOk result (out.new.items ≡ out.old.items
        ++ event_text mail number (occurrence_of what.entry)) }
{
    match what {
        Told::Turn => {
            out.extend_from_slice(b" foreverypart")?;
            out.extend_from_slice(part)
        }
        what => {
            out.extend_from_slice(part)?;
            out.extend_from_slice(b" ")?;
            push_occurrence(out, what)
        }
    }
}

/// The lines of a trace, one after another in the same memory.
#[derive(Drop)]
pub struct Lines<'a> {
    /// The name of the script, as lines begin with it.
    pub label: &'a [u8],
    /// The places of the script's tokens.
    pub places: &'a Places,
    /// The line.
    pub line: Vec<u8>,
}

impl<'a> Lines<'a> {
    /// Makes the line of an event in the part of the scene. Only the memory of the line before it is used again.
    ///
    /// # Errors
    ///
    /// `AllocError` if memory is refused.
    #[inline(always)]
    #[tactic(auto, unfolding(crate::specs::Printed::event_line))]
    pub fn set(
        &mut self,
        scene: &Scene<'_, '_>,
        at: usize,
        what: Told<'_>,
    ) -> Result<(), AllocError>
        ensures label { self.new.label.now ≡ self.old.label.now }
        ensures places { self.new.places.now ≡ self.old.places.now }
        ensures line { OnOk result (self.new.line.items
            ≡ event_line (sheet_of self.old scene.now) (event at scene.now.part (occurrence_of what.entry))) }
    {
        self.line.clear();
        self.line.extend_from_slice(self.label)?;
        self.line.extend_from_slice(self.places.text(at))?;
        push_event(&mut self.line, scene.words.as_slice(), what)?;
        self.line.extend_from_slice(b"\n")
    }
}
