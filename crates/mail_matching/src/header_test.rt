// The test `header`.
//
// The parameters of one test are found together: one pass over the field keeps the first of each name, over the bytes
// that it is written in; then they are compared in the order of the names. The first match is defined on lists of
// values and keys, and the code goes field by field. Each name goes over all fields of the header, so a test takes
// time in the product of names and fields; that is what E charges.
ghost use Rattle.std.specs.Prelude.{◌≡◌, ◌<◌, ◌^◌, All, IfOk, IfSome, IsOk, OnOk, length};
ghost use Rattle.mail_matching.specs.Headers.{selected_in_all};
ghost use Rattle.mail_matching.specs.Costs.{extent_of as extent_of_texts, names_cost};
ghost use Rattle.mail_matching.specs.HeaderTests.{AreUnfolded, fields_in_scope, headers_in_scope};
ghost use Rattle.mail_matching.specs.Private.{GoesOn};
ghost use Rattle.mail_matching.specs.Outcomes.{HasAsked, IsFresh};
ghost use Rattle.mail_matching.specs.Questions.{compares};
ghost use Rattle.mail_matching.specs.Selection.{selected_values};
ghost use Rattle.mail_matching.specs.Texts.{AreTexts};
ghost use Rattle.bytecode_format.specs.declared.selection.Selector.TheVariants.{Value};

use crate::cost::{extent_of, names_cost, product};
use crate::finding::Telling;
use crate::headers::{Headers, Reach, fields_number};
use crate::progress::{Comparison, Progress};
use crate::questions::TestTexts;
use crate::texts::Texts;
use bytecode_format::FieldTest;
use mime_decode::Message;
use std::alloc::{AllocError, Global};

/// Compares the values selected in the parts in scope with the keys, up to the first that matches one, and returns
/// the cost.
///
/// # Errors
///
/// `AllocError` if memory is refused. It is taken only for values that are folded, for types and parameters, for the
/// captures of these, and by the listener.
#[inline(always)]
pub(crate) fn header<'m, N: Texts, P: Texts, K: Texts, T: Telling>(
    alloc: Global,
    message: &Message<'m>,
    current: Option<usize>,
    test: FieldTest,
    texts: TestTexts<'_, N, P, K>,
    progress: &mut Progress<'m, T>,
) -> Result<u128, AllocError>
    requires current { IfSome current (λ number. number < length message.now.parts) }
    requires names { AreTexts (N.texts texts.names.now) }
    requires params { AreTexts (P.texts texts.params.now) }
    requires keys { AreTexts (K.texts texts.keys.now) }
    requires fresh { IsFresh progress.old }
    ensures asked { IfOk result (λ cost. HasAsked T.knows
        (compares test.how (selected_values test.scope current test.selector
        (P.texts texts.entry.params.now) (N.texts texts.entry.names.now) message.now))
        (K.texts texts.entry.keys.now)
        (names_cost (fields_in_scope test.scope current message.now)
        (N.texts texts.entry.names.now)) progress.old progress.new cost) }
    ensures no_memory { T.is_free → test.selector ≡ Value
        → All (AreUnfolded (N.texts texts.entry.names.now))
        (headers_in_scope test.scope current message.now)
        → IsOk result }
{
    let reach = Reach {
        scope: test.scope,
        current,
    };
    let headers = Headers::in_scope(message, reach);
    let comparison = Comparison {
        selector: test.selector,
        params: texts.params,
        keys: texts.keys,
        how: test.how,
    };
    take_headers(alloc, &headers, texts.names, &comparison, progress)?;
    let looked = names_cost(fields_number(&headers), texts.names);
    Ok(looked as u128 + product(progress.extent, extent_of(texts.keys)))
}

// Goes on with what is selected in the headers, one by one.
#[inline(always)]
fn take_headers<'m, N: Texts, P: Texts, K: Texts, T: Telling>(
    alloc: Global,
    headers: &Headers<'_, 'm>,
    names: &N,
    test: &Comparison<'_, P, K>,
    progress: &mut Progress<'m, T>,
) -> Result<(), AllocError>
    requires names { AreTexts (N.texts names.now) }
    requires params { AreTexts (P.texts test.now.params.now) }
    requires keys { AreTexts (K.texts test.now.keys.now) }
    requires fresh { IsFresh progress.old }
    ensures goes { OnOk result (GoesOn T.knows test.now.how
        (selected_in_all test.now.selector (P.texts test.now.params.now)
        (N.texts names.now) headers.now) (K.texts test.now.keys.now)
        progress.old progress.new) }
    ensures few { OnOk result (extent_of_texts
        (selected_in_all test.now.selector (P.texts test.now.params.now)
        (N.texts names.now) headers.now) < 2 ^ 64) }
    ensures no_memory { T.is_free → test.now.selector ≡ Value → All (AreUnfolded (N.texts names.now)) headers.now
        → IsOk result }
{
    for place in 0..headers.count() {
        progress.take_header(alloc, &headers.typed(place), names, test)?;
    }
    Ok(())
}
