// Strings, expanded (RFC 5229, section 3).
ghost use Rattle.std.specs.Prelude.{◌≡◌, ◌≤◌, ◌++◌, true, length, map, take, IsOk, OnOk};
ghost use Rattle.std.specs.Global.{Vec};
ghost use Rattle.std.specs.List.{list_all};
ghost use Rattle.octets.specs.Limits.{max_stack, max_string};
ghost use Rattle.mail_matching.specs.Texts.{AreTexts};
ghost use Rattle.sieve_check.specs.declared.typed.Segment.{Segment};

use crate::evaluator::Evaluator;
use crate::expanded_list::{ExpandedList, ExpandedText, are_written, cut};
use octets::{MAX_STRING, Octets};
use sieve_check::Segment;
use std::alloc::{AllocError, Global};

// Appends a value, up to the limit of an expanded string.
fn append(value: &[u8], text: &mut Vec<u8>) -> Result<(), AllocError>
    requires { length text.old.items ≤ max_string }
    ensures text { OnOk result (text.new.items ≡ take max_string (text.old.items ++ value.now)) }
    ensures room { OnOk result (length text.new.items ≤ max_string) }
{
    let room = MAX_STRING - text.len();
    text.extend_from_slice(&value[..value.len().min(room)])?;
    Ok(())
}

impl<'s, 'm> Evaluator<'s, 'm> {
    ghost use Rattle.std.specs.Prelude.{IfOk};
    ghost use Rattle.sieve_check.specs.TypedView.{templates_of};
    ghost use Rattle.sieve_meaning.specs.Meaning.{Effects, all_expanded, expanded, value_of};
    ghost use Rattle.sieve_meaning.specs.Evaluation.{HasEvaluated};
    ghost use Rattle.sieve_meaning.specs.Expanded.{is_written, items_of, octets_of};

    // The value of a segment.
    fn value<'t>(&'t self, segment: &'t Segment) -> &'t [u8]
        ensures { (e : Effects) → HasEvaluated e self.now → result.now ≡ value_of e segment.now }
    {
        match segment {
            Segment::Text(octets) => octets.as_slice(),
            Segment::Variable(name) => self.variables.value(name.as_slice()),
            Segment::Capture(number) => match &self.captures {
                Some(captures) => captures.text(usize::from(*number)),
                None => &[],
            },
        }
    }

    /// Returns the string with the values of its references, cut to 16,384 bytes.
    ///
    /// # Errors
    ///
    /// `AllocError` if memory is refused.
    pub(crate) fn expanded(&self, alloc: Global, string: &[Segment]) -> Result<Octets, AllocError>
        ensures text { (e : Effects) → HasEvaluated e self.now
            → IfOk result (λ text. text ≡ expanded e string.now) }
        ensures short { IfOk result (λ text. length text ≤ max_string) }
    {
        let mut text = Vec::new(alloc);
        for segment in string {
            // Lent again, because the segment lends the value too.
            append((&*self).value(segment), &mut text)?;
        }
        Ok(Octets::from_vec(text))
    }

    // The same; a string of a single segment is lent.
    fn text<'t>(
        &'t self,
        alloc: Global,
        string: &'t [Segment],
    ) -> Result<ExpandedText<'t>, AllocError>
        ensures text { (e : Effects) → HasEvaluated e self.now
            → IfOk result (λ text. octets_of text ≡ expanded e string.now) }
        ensures short { IfOk result (λ text. length (octets_of text) ≤ max_string) }
    {
        match string {
            [segment] => Ok(ExpandedText::Lent(cut(self.value(segment)))),
            _ => Ok(ExpandedText::Made(self.expanded(alloc, string)?)),
        }
    }

    // Each of the strings, expanded. It is apart, so that strings without references cost next to nothing.
    #[inline(never)]
    fn each_expanded<'t>(
        &'t self,
        alloc: Global,
        strings: &'t [Vec<Segment>],
    ) -> Result<Vec<ExpandedText<'t>>, AllocError>
        requires { length strings.now ≤ max_stack }
        ensures expanded { (e : Effects) → HasEvaluated e self.now
            → IfOk result (λ texts. map octets_of texts.items
            ≡ all_expanded e (templates_of strings.now)) }
        ensures texts { IfOk result (λ texts. AreTexts (map octets_of texts.items)) }
    {
        let mut texts = Vec::with_capacity(alloc, strings.len())?;
        for string in strings {
            texts.push(self.text(alloc, string)?)?;
        }
        Ok(texts)
    }

    /// Returns each of the strings, expanded. It takes no memory if each is empty or one piece of plain text, without
    /// references.
    ///
    /// # Requires
    ///
    /// There are at most 1,024 strings.
    ///
    /// # Errors
    ///
    /// `AllocError` if memory is refused.
    #[inline(always)]
    pub(crate) fn all_expanded<'t>(
        &'t self,
        alloc: Global,
        strings: &'t [Vec<Segment>],
    ) -> Result<ExpandedList<'t>, AllocError>
        requires { length strings.now ≤ max_stack }
        ensures expanded { (e : Effects) → HasEvaluated e self.now
            → IfOk result (λ list. items_of list ≡ all_expanded e (templates_of strings.now)) }
        ensures texts { IfOk result (λ list. AreTexts (items_of list)) }
        ensures no_memory { list_all (λ (string : Vec Segment). is_written string.items) strings.now ≡ true
            → IsOk result }
    {
        if are_written(strings) {
            return Ok(ExpandedList::Written(strings));
        }
        Ok(ExpandedList::Expanded(self.each_expanded(alloc, strings)?))
    }
}
