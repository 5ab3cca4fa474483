// An open loop.
//
// The parts that a loop has left are two numbers, the current part and the last one, because the parts below a part
// come right after it.
ghost use Rattle.std.specs.Prelude.{◌≡◌, None};
ghost use Rattle.mime_decode.specs.Mail.{Mail};
ghost use Rattle.sieve_vm.specs.Visits.{GoesOn, HasContent, KeepsContent, frame_of};

use crate::last_content::LastContent;
use std::borrow::CowSlice;

/// An open loop, and the content of its current part.
#[derive(Default, Drop)]
pub struct Frame<'m> {
    /// The place of its EACH.
    pub each: usize,
    /// The place of its NEXT.
    pub next: usize,
    /// The number of the current part.
    pub part: usize,
    /// The number of the last part to visit: the parts that are left are those after the current one, up to this one.
    pub last: usize,
    /// The content of the current part, if it was needed since the loop came to it.
    pub content: Option<CowSlice<'m, u8>>,
}

impl<'m> Frame<'m> {
    /// Moves to the next part, and drops the content of the one before; stays as it is if no part is left. Returns
    /// whether it has moved.
    #[inline(always)]
    pub fn go_on(&mut self) -> bool
        ensures { GoesOn (frame_of self.old).rest result self.old self.new }
    {
        if self.part >= self.last {
            return false;
        }
        self.part += 1;
        if self.content.is_some() {
            self.content = None;
        }
        true
    }

    /// Lets go of the content. If it was decoded, it is kept as the last one.
    #[inline(always)]
    pub fn let_go(&mut self, last_content: &mut LastContent)
        ensures gone { self.new ≡ record self.old { content = None } }
        ensures kept { (mail : Mail) → HasContent mail self.old
            → KeepsContent mail last_content.old → KeepsContent mail last_content.new }
    {
        if self.content.is_some() {
            self.move_content(last_content);
        }
    }

    // The same. It isn't inlined, because it is rare.
    #[inline(never)]
    fn move_content(&mut self, last_content: &mut LastContent)
        ensures gone { self.new ≡ record self.old { content = None } }
        ensures kept { (mail : Mail) → HasContent mail self.old
            → KeepsContent mail last_content.old → KeepsContent mail last_content.new }
    {
        if let Some(content) = self.content.take() {
            last_content.keep(self.part, content);
        }
    }
}
