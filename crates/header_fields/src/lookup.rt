// Fields by their names.
ghost use Rattle.std.specs.Prelude.{◌≡◌, MatchOption, None, Some};
ghost use Rattle.header_fields.specs.Fields.{first_value};

use crate::field::{Field, name_is};

/// Returns the first field with this name; `None` if there is none. ASCII case is ignored (RFC 5322, section 1.2.2).
pub fn first_named<'f, 'a>(fields: &'f [Field<'a>], name: &[u8]) -> Option<&'f Field<'a>>
    ensures { MatchOption result (first_value name.now fields.now ≡ None)
        (λ field. first_value name.now fields.now ≡ Some field.now.value) }
{
    for field in fields {
        if name_is(field, name) {
            return Some(field);
        }
    }
    None
}
