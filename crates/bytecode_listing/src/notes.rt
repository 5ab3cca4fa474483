// Comments of a listing, apart from what instructions refer to.
ghost use Rattle.std.specs.Prelude.{◌≡◌, ◌++◌, OnOk, codes};
ghost use Rattle.bytecode_listing.specs.Listing.{added, comment, kind_text, refusal_notes, scaled_text, share_text};
ghost use Rattle.bytecode_listing.specs.Noted.{notes_in};

use crate::writing::put_number;
use bytecode_verifier::{Refusal as BrokenRule, Share};
use refusals::Refusal;
use std::alloc::AllocError;

/// What the comments say about instructions.
#[derive(Clone, Copy)]
pub enum Notes<'a> {
    /// Nothing.
    Without,
    /// What each adds to the budget.
    Shares(&'a [Share]),
    /// Why the program is refused, at the place of the refusal.
    Refusal(&'a BrokenRule),
}

/// Appends the note on the instruction at a place, as a comment.
///
/// # Errors
///
/// `AllocError` if memory is refused.
pub fn put_note(out: &mut Vec<u8>, notes: Notes<'_>, place: usize) -> Result<(), AllocError>
    ensures { OnOk result
        (out.new.items ≡ out.old.items ++ comment (notes_in notes.entry place)) }
{
    match notes {
        Notes::Without => Ok(()),
        Notes::Shares(shares) => match shares.get(place) {
            Some(share) => put_share(out, *share),
            None => Ok(()),
        },
        Notes::Refusal(rule) => put_refusal(out, rule, place),
    }
}

// Appends the comment of what an instruction adds to the budget.
fn put_share(out: &mut Vec<u8>, share: Share) -> Result<(), AllocError>
    ensures { OnOk result (out.new.items ≡ out.old.items ++ (codes " ; " ++ share_text share)) }
{
    out.extend_from_slice(b" ; ")?;
    put_added(out, b"A", share.loops, share.cap.fixed)?;
    put_scaled(out, share.loops, share.cap.scaled)
}

// Appends what is added to the sum of this letter and so many open loops.
fn put_added(out: &mut Vec<u8>, letter: &[u8], loops: u32, number: u64) -> Result<(), AllocError>
    ensures { OnOk result (out.new.items ≡ out.old.items ++ added letter.now loops number) }
{
    out.extend_from_slice(letter)?;
    put_number(out, u64::from(loops))?;
    out.push(b'+')?;
    put_number(out, number)
}

// Appends what is added for each byte of the message, unless it is 0.
fn put_scaled(out: &mut Vec<u8>, loops: u32, number: u64) -> Result<(), AllocError>
    ensures { OnOk result (out.new.items ≡ out.old.items ++ scaled_text loops number) }
{
    if number == 0 {
        return Ok(());
    }
    out.push(b' ')?;
    put_added(out, b"B", loops, number)
}

// Appends the comment of a refusal, at its place.
fn put_refusal(out: &mut Vec<u8>, rule: &BrokenRule, place: usize) -> Result<(), AllocError>
    ensures { OnOk result
        (out.new.items ≡ out.old.items ++ comment (refusal_notes rule.now place)) }
{
    let refusal = Refusal::from(*rule);
    match refusal.place() {
        Some(at) if at == place => put_kind(out, &refusal),
        _ => Ok(()),
    }
}

// Appends the number and the name of a refusal.
fn put_kind(out: &mut Vec<u8>, refusal: &Refusal) -> Result<(), AllocError>
    ensures { OnOk result (out.new.items ≡ out.old.items ++ (codes " ; " ++ kind_text refusal.now)) }
{
    out.extend_from_slice(b" ; refused ")?;
    put_number(out, u64::from(refusal.number()))?;
    out.push(b' ')?;
    out.extend_from_slice(refusal.name().as_bytes())
}
