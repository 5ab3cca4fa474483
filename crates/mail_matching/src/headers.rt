// The headers of the parts in scope.
//
// Values after the first match are measured without being unfolded, because the charge counts them. So a value is
// unfolded at most once for each name that selects it, and only to be compared.
ghost use Rattle.std.specs.Prelude.{◌≡◌, ◌+◌, ◌<◌, ◌≤◌, [], IfSome, length, slice_index_or, sum_by, take, drop};
ghost use Rattle.octets.specs.Limits.{max_message};
ghost use Rattle.header_fields.specs.Extent.{fields_extent};
ghost use Rattle.mime_decode.specs.Mail.{IsMail};
ghost use Rattle.mail_matching.specs.Selection.{parts_in_scope};
ghost use Rattle.mail_matching.specs.Headers.{all_fields};
ghost use Rattle.mail_matching.specs.HeaderTests.{headers_in_scope};

use crate::typed::TypedFields;
use bytecode_format::Scope;
use header_fields::NamedFields;
use mime_decode::Message;
use std::marker::Model;

/// Where a test looks: the parts in scope, as seen from the current part.
#[derive(Clone, Copy)]
pub(crate) struct Reach {
    pub scope: Scope,
    /// The current part, or `None` if no loop is open.
    pub current: Option<usize>,
}

/// The headers of the parts in scope of a test: those of so many parts, from one on.
///
/// A contract sees the fields of each. No list of the parts is made.
#[derive(Drop)]
pub(crate) struct Headers<'a, 'm> {
    message: &'a Message<'m>,
    first: usize,
    number: usize,
}

impl<'a, 'm> Model for Headers<'a, 'm> {
    ghost use Rattle.std.specs.Prelude.{◌+◌, ◌≤◌, List, length};
    ghost use Rattle.header_fields.specs.Fields.{Field};
    ghost use Rattle.mime_decode.specs.Mail.{IsMail};
    ghost use Rattle.mail_matching.specs.Headers.{headers_from};

    ghost Value = { List (List Field) };

    ghost view = { λ h. headers_from h.first h.number h.message.now };

    ghost invariant = { λ h. (h.first + h.number ≤ length h.message.now.parts)
        × IsMail h.message.now };
}

impl<'a, 'm> Headers<'a, 'm> {
    /// The headers in scope.
    pub(crate) fn in_scope(message: &'a Message<'m>, reach: Reach) -> Headers<'a, 'm>
        requires { IfSome reach.current (λ current. current < length message.now.parts) }
        ensures { result ≡ headers_in_scope reach.scope reach.current message.now }
    {
        let (first, number) = numbers_in_scope(message, reach);
        Headers {
            message,
            first,
            number,
        }
    }

    /// How many headers there are.
    pub(crate) fn count(&self) -> usize
        ensures count { result ≡ length self.now }
        ensures few { sum_by fields_extent self.now ≤ max_message }
    {
        self.number
    }

    /// The fields of the header at a place, counted from 0, to be looked up by name.
    pub(crate) fn fields(&self, place: usize) -> &'a NamedFields<'m>
        requires { place < length self.now }
        ensures { result.now ≡ slice_index_or self.now place [] }
    {
        self.message.tree().header(self.first + place).by_name()
    }

    /// The same with what is kept of their types.
    pub(crate) fn typed(&self, place: usize) -> TypedFields<'a, 'm>
        requires { place < length self.now }
        ensures { result ≡ slice_index_or self.now place [] }
    {
        let tree = self.message.tree();
        let part = self.first + place;
        TypedFields::new(tree.header(part).by_name(), tree.type_texts(part))
    }
}

// The first of the parts in scope, and how many there are.
fn numbers_in_scope(message: &Message, reach: Reach) -> (usize, usize)
    requires { IfSome reach.current (λ current. current < length message.now.parts) }
    ensures parts { take result.1 (drop result.0 message.now.parts)
        ≡ parts_in_scope reach.scope reach.current message.now }
    ensures within { result.0 + result.1 ≤ length message.now.parts }
    ensures mail { IsMail message.now }
{
    let parts = message.parts();
    let current = reach.current.unwrap_or(0);
    prove!(current < parts);
    match reach.scope {
        Scope::Message => (0, 1),
        Scope::Part => (current, 1),
        Scope::PartAndBelow => (current, 1 + message.tree().below(current)),
    }
}

/// How many fields there are.
pub(crate) fn fields_number(headers: &Headers) -> usize
    ensures number { result ≡ length (all_fields headers.now) }
    ensures few { result ≤ max_message }
{
    let mut number = 0;
    for place in 0..headers.count() {
        number += headers.fields(place).as_slice().len();
    }
    number
}
