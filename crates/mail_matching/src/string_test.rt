// The test `string`.
ghost use Rattle.std.specs.Prelude.{IfOk, IsOk};
ghost use Rattle.mail_matching.specs.FirstMatch.{KeepsCaptures, first_match};
ghost use Rattle.mail_matching.specs.Outcomes.{HasAsked, IsFresh};
ghost use Rattle.mail_matching.specs.Questions.{compares};
ghost use Rattle.mail_matching.specs.Texts.{AreTexts};

use crate::cost::{extent_of, product};
use crate::finding::Telling;
use crate::progress::Progress;
use crate::texts::Texts;
use glob_match::Match;
use std::alloc::{AllocError, Global};

/// Compares the sources with the keys, up to the first that matches one, and returns the cost.
///
/// # Errors
///
/// `AllocError` if memory is refused. It is taken only for a source that sets captures, which are copied, and by the
/// listener.
#[inline(always)]
pub(crate) fn string<'m, S: Texts, K: Texts, T: Telling>(
    alloc: Global,
    sources: &S,
    keys: &K,
    how: Match,
    progress: &mut Progress<'m, T>,
) -> Result<u128, AllocError>
    requires sources { AreTexts (S.texts sources.now) }
    requires keys { AreTexts (K.texts keys.now) }
    requires fresh { IsFresh progress.old }
    ensures asked { IfOk result (λ cost. HasAsked T.knows (compares how (S.texts sources.now))
        (K.texts keys.now) 0 progress.old progress.new cost) }
    ensures no_memory { T.is_free → KeepsCaptures (first_match how (S.texts sources.now) (K.texts keys.now))
        → IsOk result }
{
    for place in 0..sources.count() {
        progress.take_lent(alloc, sources.text(place), keys, how)?;
    }
    Ok(product(progress.extent, extent_of(keys)))
}
