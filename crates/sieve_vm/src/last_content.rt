// The decoded content that a loop left last.
//
// Nested loops come to the same part again and again: three loops visit a part inside 31 others 465 times. So a
// decoded content is kept when a loop lets go of it, until another content has to be decoded. It is dropped before
// that, so no more decoded contents are in memory at once than loops were open at once.
ghost use Rattle.std.specs.Prelude.{◌≡◌, Some, None, IfSome};
ghost use Rattle.std.specs.Cow.{cow_slice_items};
ghost use Rattle.mime_decode.specs.Mail.{Mail};
ghost use Rattle.sieve_vm.specs.Visits.{IsContentAt, KeepsContent};

use std::borrow::CowSlice;

/// A slot for the decoded content that a loop left last.
#[derive(Drop)]
pub struct LastContent {
    /// The number of the part that has this content; any number if there is no content.
    pub part: usize,
    /// The decoded content.
    pub content: Option<Vec<u8>>,
}

impl LastContent {
    /// No content.
    pub fn new() -> LastContent
        ensures { result.content ≡ None }
    {
        LastContent {
            part: 0,
            content: None,
        }
    }

    /// Keeps the content of a part if it was decoded. One that is lent from the message is dropped, because it can
    /// be lent again at no cost.
    pub fn keep(&mut self, part: usize, content: CowSlice<'_, u8>)
        ensures { (mail : Mail) → IsContentAt mail part (cow_slice_items content.entry)
            → KeepsContent mail self.old → KeepsContent mail self.new }
    {
        if let CowSlice::Owned(content) = content {
            *self = LastContent {
                part,
                content: Some(content),
            };
        }
    }

    /// Takes the content of this part, if it is the one that is kept.
    pub fn take(&mut self, part: usize) -> Option<Vec<u8>>
        ensures content { IfSome result (λ content. (self.old.content ≡ Some content) × (self.old.part ≡ part)) }
        ensures left { (mail : Mail) → KeepsContent mail self.old → KeepsContent mail self.new }
    {
        if self.part != part {
            return None;
        }
        self.content.take()
    }

    /// Drops the content.
    pub fn clear(&mut self)
        ensures { self.new.content ≡ None }
    {
        self.content = None;
    }
}
