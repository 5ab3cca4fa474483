// The test `exists`.
ghost use Rattle.std.specs.Prelude.{◌≡◌, ◌<◌, IfSome, length};
ghost use Rattle.std.specs.List.{list_all};
ghost use Rattle.mail_matching.specs.Costs.{names_cost};
ghost use Rattle.mail_matching.specs.Headers.{all_fields};
ghost use Rattle.mail_matching.specs.HeaderTests.{exists_in, fields_in_scope, has_field};
ghost use Rattle.mail_matching.specs.Texts.{AreTexts};

use crate::cost::names_cost;
use crate::headers::{Headers, Reach, fields_number};
use crate::texts::Texts;
use header_fields::{Name, NamedFields};
use mime_decode::Message;

/// Whether there is a field with each name in the parts in scope, ignoring ASCII case, and the cost of looking for
/// them.
#[inline(always)]
pub(crate) fn exists<N: Texts>(message: &Message, reach: Reach, names: &N) -> (bool, u64)
    requires current { IfSome reach.current (λ current. current < length message.now.parts) }
    requires names { AreTexts (N.texts names.now) }
    ensures value { result.0 ≡ exists_in reach.scope reach.current (N.texts names.now)
        message.now }
    ensures cost { result.1
        ≡ names_cost (fields_in_scope reach.scope reach.current message.now) (N.texts names.now) }
{
    let headers = Headers::in_scope(message, reach);
    let cost = names_cost(fields_number(&headers), names);
    (have_fields(&headers, names), cost)
}

// Whether there is a field with each name.
fn have_fields<N: Texts>(headers: &Headers, names: &N) -> bool
    ensures { result ≡ list_all (has_field (all_fields headers.now)) (N.texts names.now) }
{
    for place in 0..names.count() {
        if !any_has_field(headers, &Name::new(names.text(place))) {
            return false;
        }
    }
    true
}

// Whether a field of one of the headers has the name.
fn any_has_field(headers: &Headers, name: &Name) -> bool
    ensures { result ≡ has_field (all_fields headers.now) name.now }
{
    for place in 0..headers.count() {
        if has_field(headers.fields(place), name) {
            return true;
        }
    }
    false
}

// Whether a field has the name.
fn has_field(fields: &NamedFields, name: &Name) -> bool
    ensures { result ≡ has_field fields.now name.now }
{
    for place in 0..fields.as_slice().len() {
        if fields.at(place).is_named(name) {
            return true;
        }
    }
    false
}
