// The open loops, and what is known of the parts that they visit.
//
// A part's content is decoded when it is needed, and held as long as a loop is at the part. The decoded content that a
// loop left last is kept until another has to be decoded: a part that comes up 465 times in three nested loops is
// decoded once if no other is. Any other content that loops have left is decoded again if it is needed again, because
// keeping all would take as much memory as the message. Lengths and digests are kept for the whole run.
ghost use Rattle.std.specs.Prelude.{◌≡◌, ◌<◌, ◌≤◌, ◌+◌, ◌-◌, ℕ, suc, false, true, List, [], ◌∷◌, None, Some, IfOk, OnErr, OnOk, IfSome, IsOk, IsSome, length, drop, take};
ghost use Rattle.std.specs.Cow.{cow_slice_items};
ghost use Rattle.octets.specs.Limits.{max_loops, max_parts, max_value};
ghost use Rattle.mime_decode.specs.Content.{digest_of, is_decoded};
ghost use Rattle.mail_matching.specs.Questions.{IsShown, current};
ghost use Rattle.mime_decode.specs.Mail.{IsMail, Part};
ghost use Rattle.mime_decode.specs.Visited.{numbers_from, visited};
ghost use Rattle.sieve_vm.specs.State;
ghost use Rattle.sieve_vm.specs.State.{current_part};
ghost use Rattle.sieve_vm.specs.Looks.{Remembers};
ghost use Rattle.sieve_vm.specs.Visits.{Continues, HasPartFor, HasSameLoops, IsFound, Learns, Opens, holding, holds, known_of, part_in};

use crate::frame::Frame;
use crate::joining::{as_many, first};
use crate::known::{digest_known, keep, known, octets_known};
use crate::last_content::LastContent;
use crate::shared_text::copied;
use arrayvec::ArrayVec;
use bytecode_format::MAX_LOOPS;
use mail_matching::{Need, Shown};
use mime_decode::{Message, digest_of};
use mime_params::TransferEncoding;
use octets::Octets;
use std::alloc::{AllocError, Global};
use std::borrow::CowSlice;
use std::marker::Model;

/// The open loops of a run on a message, which of them hold the content of their current part, and what is known of
/// the parts' contents. A contract sees all of that.
///
/// A part's content is decoded when it is needed, and held as long as a loop stays on the part. The decoded content
/// that a loop left last is kept until another has to be decoded. A part's length, its digest, and the first bytes of
/// a content that had to be decoded are kept for the whole run.
#[derive(Drop)]
pub struct Loops<'s, 'm> {
    message: &'s Message<'m>,
    // The innermost is the last one.
    frames: ArrayVec<Frame<'m>, MAX_LOOPS>,
    // No contract sees it: it saves time, and changes no result.
    last_content: LastContent,
    lengths: Vec<Option<usize>>,
    digests: Vec<Option<[u8; 64]>>,
    // The first bytes, as many as a variable's value can have.
    beginnings: Vec<Option<Octets>>,
}

impl<'s, 'm> Model for Loops<'s, 'm> {
    ghost use Rattle.std.specs.Prelude.{All};
    ghost use Rattle.sieve_vm.specs.Looks.{Visits};
    ghost use Rattle.sieve_vm.specs.Visits.{HasContent, IsKnown, KeepsContent, frames_of, held_in};

    ghost Value = { Visits };

    ghost view = { λ l. record {
      mail = l.message.now;
      frames = frames_of l.frames.items;
      held = held_in l.frames.items;
      lengths = l.lengths.items;
      digests = l.digests.items;
      beginnings = l.beginnings.items;
    } };

    ghost invariant = { λ l. All (HasContent l.message.now) l.frames.items
        × IsKnown l.message.now l.lengths.items l.digests.items l.beginnings.items
        × KeepsContent l.message.now l.last_content };
}

impl<'s, 'm> Loops<'s, 'm> {
    /// No open loops on the message.
    pub fn new(alloc: Global, message: &'s Message<'m>) -> Loops<'s, 'm>
        ensures { result ≡ record {
          mail = message.now;
          frames = [];
          held = [];
          lengths = [];
          digests = [];
          beginnings = [];
        } }
    {
        Loops {
            message,
            frames: ArrayVec::new(),
            last_content: LastContent::new(),
            lengths: Vec::new(alloc),
            digests: Vec::new(alloc),
            beginnings: Vec::new(alloc),
        }
    }

    /// The current part, which is that of the innermost loop.
    #[inline(always)]
    pub fn current(&self) -> Option<usize>
        ensures { result ≡ current_part self.now.frames }
    {
        match self.frames.as_slice() {
            [.., frame] => Some(frame.part),
            [] => None,
        }
    }

    // The first of the parts that a loop opened here visits, and how many they are.
    fn visited(&self) -> (usize, usize)
        requires { IfSome (current_part self.now.frames)
            (λ part. part < length self.now.mail.parts) }
        ensures parts { numbers_from result.0 result.1
            ≡ visited (current_part self.now.frames) self.now.mail }
        ensures few { result.0 + result.1 ≤ max_parts }
    {
        let parts = self.message.visited(self.current());
        (parts.start, parts.end - parts.start)
    }

    /// Opens a loop on its first part, if there is one.
    pub fn open(&mut self, each: usize, next: usize) -> bool
        requires room { length self.old.frames < max_loops }
        requires current { IfSome (current_part self.old.frames)
            (λ part. part < length self.old.mail.parts) }
        ensures opens { Opens each next (visited (current_part self.old.frames) self.old.mail) result
            self.old self.new }
        ensures known { Remembers self.old self.new }
    {
        let (first, number) = self.visited();
        if number == 0 {
            return false;
        }
        self.frames.push(Frame {
            each,
            next,
            part: first,
            last: first + number - 1,
            content: None,
        });
        true
    }

    /// Moves to the next part of the innermost loop, and returns the place of its EACH; or closes it, and returns
    /// `None`.
    #[inline(always)]
    pub fn next_part(&mut self) -> Option<usize>
        requires { 0 < length self.old.frames }
        ensures continues { (frame : State.Frame) (frames : List State.Frame)
            → self.old.frames ≡ frame ∷ frames
            → Continues frame frames frame.rest result self.old self.new }
        ensures known { Remembers self.old self.new }
    {
        self.let_go();
        let innermost = self.frames.len() - 1;
        let each = self.frames[innermost].each;
        if self.frames[innermost].go_on() {
            return Some(each);
        }
        self.frames.pop();
        None
    }

    /// Closes so many loops, and returns the place of the last one's NEXT. Of their contents only that of the innermost
    /// can be kept.
    pub fn close(&mut self, number: usize) -> usize
        requires some { 0 < number }
        requires there { number ≤ length self.old.frames }
        ensures closes { (frame : State.Frame) (frames : List State.Frame)
            → drop (number - 1) self.old.frames ≡ frame ∷ frames
            → (result ≡ frame.next) × (self.new
            ≡ record self.old { frames = frames; held = drop number self.old.held }) }
        ensures known { Remembers self.old self.new }
    {
        self.let_go();
        let left = self.frames.len() - number;
        let next = self.frames[left].next;
        self.frames.truncate(left);
        next
    }

    // Lets go of the content of the innermost loop, which leaves its part. If it was decoded, it is kept.
    #[inline(always)]
    fn let_go(&mut self)
        requires { 0 < length self.old.frames }
        ensures { self.new ≡ record self.old { held = false ∷ drop 1 self.old.held } }
    {
        let innermost = self.frames.len() - 1;
        self.frames[innermost].let_go(&mut self.last_content);
    }

    // Holds the content of the current part, as long as the loop stays on it. It is decoded only if it is neither held
    // nor kept.
    //
    // The only error is a refusal of memory; there is none if the content is held.
    fn fetch(&mut self, alloc: Global) -> Result<(), AllocError>
        requires { IsSome (part_in self.old) }
        ensures held { OnOk result (self.new ≡ holding self.old) }
        ensures refused { OnErr result ((self.new ≡ self.old) × (holds self.old ≡ false)) }
    {
        if !self.is_held() {
            if let Some(content) = self.take_last() {
                self.hold(content);
                return Ok(());
            }
            self.make_room();
            let content = self.message.content(alloc, self.part())?;
            self.hold(content);
        }
        Ok(())
    }

    // Takes the content that is kept, if it is that of the current part.
    fn take_last(&mut self) -> Option<CowSlice<'m, u8>>
        requires { IsSome (part_in self.old) }
        ensures same { self.new ≡ self.old }
        ensures content { IfSome result (λ content. (part : Part) → part_in self.old ≡ Some part
            → cow_slice_items content ≡ part.content) }
    {
        let part = self.part();
        if let Some(content) = self.last_content.take(part) {
            return Some(CowSlice::Owned(content));
        }
        None
    }

    // Drops the content that is kept if that of the current part has to be decoded. If that is lent from the message,
    // the other one stays.
    fn make_room(&mut self)
        requires { IsSome (part_in self.old) }
        ensures { self.new ≡ self.old }
    {
        if is_decoded(self.message.encoding(self.part())) {
            self.last_content.clear();
        }
    }

    // Whether the content of the current part is held.
    fn is_held(&self) -> bool
        ensures { result ≡ holds self.now }
    {
        match self.frames.as_slice() {
            [.., frame] => frame.content.is_some(),
            [] => false,
        }
    }

    // Holds this content, which is that of the current part.
    fn hold(&mut self, content: CowSlice<'m, u8>)
        requires { (part : Part) × ((part_in self.old ≡ Some part)
            × (cow_slice_items content ≡ part.content)) }
        ensures { self.new ≡ holding self.old }
    {
        let innermost = self.frames.len() - 1;
        self.frames[innermost].content = Some(content);
    }

    // The content of the current part, which is held.
    fn content(&self) -> &CowSlice<'m, u8>
        requires part { IsSome (part_in self.now) }
        requires held { holds self.now ≡ true }
        ensures { (part : Part) → part_in self.now ≡ Some part
            → cow_slice_items result.now ≡ part.content }
    {
        let innermost = self.frames.len() - 1;
        self.frames[innermost].content.as_ref().unwrap()
    }

    /// Finds what is needed of the current part's content, unless it is known or held: then it does nothing. The
    /// content is decoded for that, unless it is the one that was kept when a loop left the part.
    ///
    /// # Errors
    ///
    /// `AllocError` if memory is refused.
    #[inline(always)]
    pub fn find(&mut self, alloc: Global, need: Need) -> Result<(), AllocError>
        requires { HasPartFor need self.old }
        ensures found { OnOk result (IsFound need self.new) }
        ensures same { OnOk result (HasSameLoops self.old self.new) }
        ensures content { OnOk result (need ≡ Need.Content → self.new ≡ holding self.old) }
        ensures known { IsFound need self.old → self.new ≡ self.old }
        ensures no_memory { IsFound need self.old → IsOk result }
    {
        if self.is_found(need) {
            return Ok(());
        }
        self.make(alloc, need)
    }

    // Whether what is needed of the current part's content is known or held.
    #[inline(always)]
    fn is_found(&self, need: Need) -> bool
        requires { HasPartFor need self.now }
        ensures found { result ≡ true → IsFound need self.now }
        ensures other { result ≡ false → IsFound need self.now → ⊥ }
    {
        match need {
            Need::Nothing => true,
            Need::Length => known(&self.lengths, self.part()).is_some(),
            Need::Content => self.is_held(),
            Need::Digest => digest_known(&self.digests, self.part()).is_some(),
        }
    }

    // The same as `find`. It isn't inlined, because it is rare.
    #[inline(never)]
    fn make(&mut self, alloc: Global, need: Need) -> Result<(), AllocError>
        requires { HasPartFor need self.old }
        ensures found { OnOk result (IsFound need self.new) }
        ensures same { OnOk result (HasSameLoops self.old self.new) }
        ensures content { OnOk result (need ≡ Need.Content → self.new ≡ holding self.old) }
    {
        match need {
            Need::Nothing => Ok(()),
            Need::Length => self.find_length(alloc),
            Need::Content => self.fetch(alloc),
            Need::Digest => self.find_digest(alloc),
        }
    }

    /// What is needed of the current part's content, after it was found.
    #[inline(always)]
    pub fn shown(&self, need: Need) -> Shown<'_, 'm>
        requires mail { IsMail self.now.mail }
        requires found { IsFound need self.now }
        ensures { IsShown need (current self.now.mail (current_part self.now.frames)) result }
    {
        match need {
            Need::Nothing => Shown::Nothing,
            Need::Length => Shown::Length(self.length() as u64),
            Need::Content => Shown::Content(self.content()),
            Need::Digest => Shown::Digest(self.digest()),
        }
    }

    // Finds the length of the current part's content, unless it is known.
    //
    // If it isn't known, the content is held after this. The only error is a refusal of memory; there is none if the
    // length is known.
    fn find_length(&mut self, alloc: Global) -> Result<(), AllocError>
        requires { IsSome (part_in self.old) }
        ensures found { OnOk result (IsSome (known_of self.new.lengths self.new)) }
        ensures same { OnOk result (HasSameLoops self.old self.new) }
        ensures known { OnOk result
            (IsSome (known_of self.old.lengths self.old) → self.new ≡ self.old) }
        ensures held { OnOk result (known_of self.old.lengths self.old ≡ None
            → self.new ≡ record (holding self.old) { lengths = self.new.lengths }) }
        ensures kept { OnOk result ((part : Part) → part_in self.old ≡ Some part
            → Learns (length part.content) self.old.lengths self.new.lengths self.old) }
        ensures refused { OnErr result (known_of self.old.lengths self.old ≡ None) }
    {
        let part = self.part();
        if known(&self.lengths, part).is_some() {
            return Ok(());
        }
        self.fetch(alloc)?;
        let found = self.content().len();
        keep(&mut self.lengths, self.message.parts(), part, found)
    }

    // The length of the current part's content, which is known.
    #[inline(always)]
    fn length(&self) -> usize
        requires part { IsSome (part_in self.now) }
        requires known { IsSome (known_of self.now.lengths self.now) }
        ensures { (part : Part) → part_in self.now ≡ Some part → result ≡ length part.content }
    {
        known(&self.lengths, self.part()).unwrap()
    }

    // Finds the digest of the current part's content, unless it is known.
    //
    // If it isn't known, the content is held after this. The only error is a refusal of memory; there is none if the
    // digest is known.
    fn find_digest(&mut self, alloc: Global) -> Result<(), AllocError>
        requires { IsSome (part_in self.old) }
        ensures found { OnOk result (IsSome (known_of self.new.digests self.new)) }
        ensures same { OnOk result (HasSameLoops self.old self.new) }
        ensures known { OnOk result
            (IsSome (known_of self.old.digests self.old) → self.new ≡ self.old) }
        ensures held { OnOk result (known_of self.old.digests self.old ≡ None
            → self.new ≡ record (holding self.old) { digests = self.new.digests }) }
        ensures kept { OnOk result ((part : Part) → part_in self.old ≡ Some part
            → Learns (digest_of part.content) self.old.digests self.new.digests self.old) }
        ensures refused { OnErr result (known_of self.old.digests self.old ≡ None) }
    {
        let part = self.part();
        if digest_known(&self.digests, part).is_some() {
            return Ok(());
        }
        self.fetch(alloc)?;
        let found = digest_of(self.content().as_slice());
        keep(&mut self.digests, self.message.parts(), part, found)
    }

    // The digest of the current part's content, which is known.
    #[inline(always)]
    fn digest(&self) -> &[u8; 64]
        requires part { IsSome (part_in self.now) }
        requires known { IsSome (known_of self.now.digests self.now) }
        ensures { (part : Part) → part_in self.now ≡ Some part → result.now ≡ digest_of part.content }
    {
        digest_known(&self.digests, self.part()).unwrap()
    }

    /// A copy of the first bytes of the current part's content: so many, or all if there are fewer.
    ///
    /// A content that has to be decoded is decoded at most once in a run for its first bytes. If they aren't known, it
    /// is held after this.
    ///
    /// # Errors
    ///
    /// `AllocError` if memory is refused.
    pub fn beginning(&mut self, alloc: Global, most: usize) -> Result<Vec<u8>, AllocError>
        requires part { IsSome (part_in self.old) }
        requires few { most ≤ max_value }
        ensures octets { IfOk result
            (λ octets. (part : Part) → part_in self.old ≡ Some part
            → octets.items ≡ take most part.content) }
        ensures same { OnOk result (HasSameLoops self.old self.new) }
        ensures known { OnOk result
            (IsSome (known_of self.old.beginnings self.old) → self.new ≡ self.old) }
        ensures held { OnOk result (known_of self.old.beginnings self.old ≡ None
            → self.new ≡ record (holding self.old) { beginnings = self.new.beginnings }) }
        ensures kept { IfOk result (λ _. (part : Part) → part_in self.old ≡ Some part
            → is_decoded part.encoding ≡ true
            → Learns (take max_value part.content) self.old.beginnings self.new.beginnings
            self.old) }
        ensures lent { IfOk result (λ _. (part : Part) → part_in self.old ≡ Some part
            → is_decoded part.encoding ≡ false → self.new.beginnings ≡ self.old.beginnings) }
    {
        let part = self.part();
        if let Some(found) = octets_known(&self.beginnings, part) {
            return Vec::from_slice(alloc, as_many(found, most));
        }
        self.fetch(alloc)?;
        let content = self.content();
        let octets = Vec::from_slice(alloc, as_many(content.as_slice(), most))?;
        if is_decoded(self.message.encoding(part)) {
            let found = first_of(alloc, content)?;
            keep(&mut self.beginnings, self.message.parts(), part, found)?;
        }
        Ok(octets)
    }

    // The number of the current part.
    fn part(&self) -> usize
        requires { IsSome (part_in self.now) }
        ensures current { current_part self.now.frames ≡ Some result }
        ensures within { result < length self.now.mail.parts }
    {
        self.current().unwrap()
    }
}

// A copy of the first bytes of a content.
fn first_of(alloc: Global, content: &CowSlice<'_, u8>) -> Result<Octets, AllocError>
    ensures { IfOk result (λ octets. octets ≡ take max_value (cow_slice_items content.now)) }
{
    copied(alloc, first(content.as_slice()))
}

// Whether a body in this encoding has to be decoded.
fn is_decoded(encoding: TransferEncoding) -> bool
    ensures { result ≡ is_decoded encoding }
{
    match encoding {
        TransferEncoding::QuotedPrintable | TransferEncoding::Base64 => true,
        TransferEncoding::SevenBit
        | TransferEncoding::EightBit
        | TransferEncoding::Binary
        | TransferEncoding::Unknown => false,
    }
}
