// The strings of a list, expanded.
//
// A test's strings are lent to the evaluator: a list without references as the script has it, a single reference as
// its value. Only a string of several segments is made.
ghost use Rattle.std.specs.Prelude.{◌≡◌, ◌<◌, [], length, map, slice_index_or, take};
ghost use Rattle.std.specs.Global.{Vec};
ghost use Rattle.std.specs.List.{list_all};
ghost use Rattle.octets.specs.Limits.{max_string};
ghost use Rattle.sieve_check.specs.declared.typed.Segment.{Segment};
ghost use Rattle.sieve_meaning.specs.Expanded.{is_written, items_of, octets_of, written};

use mail_matching::Texts;
use octets::{MAX_STRING, Octets};
use sieve_check::Segment;

/// A string, expanded.
#[derive(Drop)]
pub enum ExpandedText<'t> {
    /// Bytes that the script, a variable or a capture lends.
    Lent(&'t [u8]),
    /// Bytes of its own, made of several segments.
    Made(Octets),
}

/// The strings of a list, expanded.
#[derive(Drop)]
pub enum ExpandedList<'t> {
    /// Strings without references, which stay in the script.
    Written(&'t [Vec<Segment>]),
    Expanded(Vec<ExpandedText<'t>>),
}

impl<'t> ExpandedText<'t> {
    /// The bytes of the text.
    pub fn as_slice(&self) -> &[u8]
        ensures { result.now ≡ octets_of self.now }
    {
        match self {
            ExpandedText::Lent(octets) => octets,
            ExpandedText::Made(octets) => octets.as_slice(),
        }
    }
}

impl<'t> Texts for ExpandedList<'t> {
    ghost texts = { λ list. items_of list };

    fn count(&self) -> usize {
        match self {
            ExpandedList::Written(strings) => strings.len(),
            ExpandedList::Expanded(texts) => texts.len(),
        }
    }

    fn text(&self, place: usize) -> &[u8] {
        match self {
            ExpandedList::Written(strings) => written_at(strings, place),
            ExpandedList::Expanded(texts) => texts[place].as_slice(),
        }
    }
}

/// The first bytes of a text, as many as an expanded string can have.
#[tactic(auto, using(std::proofs::lemmas::List::take_min))]
pub fn cut(text: &[u8]) -> &[u8]
    ensures { result.now ≡ take max_string text.now }
{
    &text[..MAX_STRING.min(text.len())]
}

/// Whether each string is plain text, without references, and in one piece.
#[inline(always)]
pub fn are_written(strings: &[Vec<Segment>]) -> bool
    ensures { result ≡ list_all (λ (string : Vec Segment). is_written string.items) strings.now }
{
    strings.iter().all(|string| is_written(string.as_slice()))
}

// Whether the string is plain text in one piece.
#[inline(always)]
fn is_written(string: &[Segment]) -> bool
    ensures { result ≡ is_written string.now }
{
    match string {
        [] => true,
        [segment] => matches!(segment, Segment::Text(_)),
        _ => false,
    }
}

// The text of the string at a place.
fn written_at(strings: &[Vec<Segment>], place: usize) -> &[u8]
    requires { place < length strings.now }
    ensures { result.now ≡ slice_index_or
        (map (λ (string : Vec Segment). written string.items) strings.now) place [] }
{
    written(strings[place].as_slice())
}

// The text of such a string; empty for any other.
fn written(string: &[Segment]) -> &[u8]
    ensures { result.now ≡ written string.now }
{
    match string {
        [Segment::Text(octets)] => cut(octets.as_slice()),
        _ => &[],
    }
}
