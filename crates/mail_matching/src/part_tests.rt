// The tests of the current part: of its content's size, of its content, and of the content's digest. Outside of
// loops, where no checked script asks them, they fail.
ghost use Rattle.std.specs.Prelude.{◌≡◌, ◌⊎◌, ◌≤◌, ◌∷◌, [], Option, IfOk, IsOk, length};
ghost use Rattle.std.specs.Cow.{IsBorrowedSlice, cow_slice_items};
ghost use Rattle.octets.specs.Limits.{max_message};
ghost use Rattle.mail_matching.specs.FirstMatch.{KeepsCaptures, first_match};
ghost use Rattle.mail_matching.specs.PartTests.{exactly};
ghost use Rattle.mail_matching.specs.Outcomes.{HasAsked, IsFresh};
ghost use Rattle.mail_matching.specs.Questions.{IsLent, IsShown, answered, compares, decides, is_size, of_part};
ghost use Rattle.mail_matching.specs.Texts.{AreTexts};
ghost use Rattle.mail_matching.specs.declared.questions.Need.TheVariants as need;
ghost use Rattle.mime_decode.specs.Content.{digest_of};
ghost use Rattle.mime_decode.specs.Mail.{Part};

use crate::cost::{extent_of, product};
use crate::finding::Telling;
use crate::progress::Progress;
use crate::questions::Shown;
use crate::texts::Texts;
use bytecode_format::Order;
use glob_match::{Comparator, Match, MatchType};
use std::alloc::{AllocError, Global};
use std::borrow::CowSlice;

/// Whether so many bytes are over or under the number.
#[inline(always)]
pub(crate) fn is_size(order: Order, number: u64, octets: u64) -> bool
    ensures { result ≡ is_size order number octets }
{
    match order {
        Order::Over => octets > number,
        Order::Under => octets < number,
    }
}

/// Whether the current part's content is over or under the number of bytes.
#[inline(always)]
pub(crate) fn part_is_size(order: Order, number: u64, shown: Shown) -> bool
    ensures { (part : Option Part) → IsShown need.Length part shown.entry
        → of_part (λ p. decides (is_size order number (length p.content))) part ≡ decides result }
{
    match shown {
        Shown::Length(octets) => is_size(order, number, octets),
        _ => false,
    }
}

/// Compares the current part's content with the keys, and returns the cost.
///
/// # Errors
///
/// `AllocError` if memory is refused.
#[inline(always)]
pub(crate) fn part_body<'m, K: Texts, T: Telling>(
    alloc: Global,
    shown: Shown<'_, 'm>,
    keys: &K,
    how: Match,
    progress: &mut Progress<'m, T>,
) -> Result<u128, AllocError>
    requires shown { (part : Option Part) × IsShown need.Content part shown }
    requires keys { AreTexts (K.texts keys.now) }
    requires fresh { IsFresh progress.old }
    ensures asked { IfOk result (λ cost. (part : Option Part) → IsShown need.Content part shown.entry
        → HasAsked T.knows (of_part (λ p. compares how (p.content ∷ [])) part)
        (K.texts keys.now) 0 progress.old progress.new cost) }
    ensures no_memory { T.is_free → (part : Option Part) → IsShown need.Content part shown.entry
        → (KeepsCaptures (answered (of_part (λ p. compares how (p.content ∷ [])) part)
        (K.texts keys.now)) ⊎ IsLent shown.entry) → IsOk result }
{
    match shown {
        Shown::Content(content) => body(alloc, content, keys, how, progress),
        _ => Ok(progress.decide(false, 0)),
    }
}

// Compares content with the keys, and returns the cost.
//
// The only error is a refusal of memory, which is taken only by the listener, and if the content is owned and sets
// captures: these are copied.
#[inline(always)]
fn body<'m, K: Texts, T: Telling>(
    alloc: Global,
    content: &CowSlice<'m, u8>,
    keys: &K,
    how: Match,
    progress: &mut Progress<'m, T>,
) -> Result<u128, AllocError>
    requires content { length (cow_slice_items content.now) ≤ max_message }
    requires keys { AreTexts (K.texts keys.now) }
    requires fresh { IsFresh progress.old }
    ensures asked { IfOk result (λ cost. HasAsked T.knows (compares how (cow_slice_items content.now ∷ []))
        (K.texts keys.now) 0 progress.old progress.new cost) }
    ensures lent { T.is_free → IsBorrowedSlice content.now → IsOk result }
    ensures no_memory { T.is_free → KeepsCaptures
        (first_match how (cow_slice_items content.now ∷ []) (K.texts keys.now)) → IsOk result }
{
    progress.take(alloc, content, keys, how)?;
    Ok(product(progress.extent, extent_of(keys)))
}

/// Compares the digest of the current part's content with the keys, byte by byte, and returns the cost.
///
/// # Errors
///
/// `AllocError` if memory is refused.
#[inline(always)]
pub(crate) fn part_digest<'m, K: Texts, T: Telling>(
    alloc: Global,
    shown: Shown<'_, 'm>,
    keys: &K,
    progress: &mut Progress<'m, T>,
) -> Result<u128, AllocError>
    requires keys { AreTexts (K.texts keys.now) }
    requires fresh { IsFresh progress.old }
    ensures asked { IfOk result (λ cost. (part : Option Part) → IsShown need.Digest part shown.entry
        → HasAsked T.knows (of_part (λ p. compares exactly (digest_of p.content ∷ [])) part)
        (K.texts keys.now) 0 progress.old progress.new cost) }
    ensures no_memory { T.is_free → IsOk result }
{
    match shown {
        Shown::Digest(found) => digest(alloc, found, keys, progress),
        _ => Ok(progress.decide(false, 0)),
    }
}

// Compares a digest with the keys, byte by byte, and returns the cost. It sets no captures, and takes no memory
// unless the listener does.
//
// The only error is a refusal of memory.
#[inline(always)]
fn digest<'m, K: Texts, T: Telling>(
    alloc: Global,
    digest: &[u8; 64],
    keys: &K,
    progress: &mut Progress<'m, T>,
) -> Result<u128, AllocError>
    requires keys { AreTexts (K.texts keys.now) }
    requires fresh { IsFresh progress.old }
    ensures asked { IfOk result (λ cost. HasAsked T.knows (compares exactly (digest.now ∷ []))
        (K.texts keys.now) 0 progress.old progress.new cost) }
    ensures no_memory { T.is_free → IsOk result }
{
    let exactly = Match {
        kind: MatchType::Is,
        comparator: Comparator::Octet,
    };
    progress.take_lent(alloc, digest, keys, exactly)?;
    Ok(product(progress.extent, extent_of(keys)))
}
