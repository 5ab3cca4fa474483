// The header fields of a message.
ghost use Rattle.std.specs.Prelude.{◌≡◌, IfOk, OnOk};
ghost use Rattle.serde_json.specs.View.{members_view, view};
ghost use Rattle.catalog.specs.Fields.{fields_value, own_fields, with_field};

use crate::text::text_value;
use header_fields::{Field, first_named, unfold};
use mime_decode::Message;
use serde_json::{Map, Value, put};
use std::alloc::{AllocError, Global};

/// The fields of a message's own header.
pub(crate) fn own_fields<'m, 'a>(message: &'m Message<'a>) -> &'m [Field<'a>]
    ensures { result.now ≡ own_fields message.now.parts }
{
    message.tree().header(0).fields()
}

/// An object with a member for each name of a field that a line has, if there is such a field.
///
/// # Errors
///
/// `AllocError` if memory is refused.
pub(crate) fn fields_value(alloc: Global, fields: &[Field<'_>]) -> Result<Value, AllocError>
    ensures { IfOk result (λ value. view value ≡ fields_value fields.now) }
{
    let mut members = Map::new(alloc);
    put_field(alloc, &mut members, fields, "From")?;
    put_field(alloc, &mut members, fields, "To")?;
    put_field(alloc, &mut members, fields, "Cc")?;
    put_field(alloc, &mut members, fields, "Subject")?;
    put_field(alloc, &mut members, fields, "Date")?;
    put_field(alloc, &mut members, fields, "Message-ID")?;
    put_field(alloc, &mut members, fields, "In-Reply-To")?;
    put_field(alloc, &mut members, fields, "References")?;
    Ok(Value::from(members))
}

// Puts the unfolded value of the first field of this name among the members, if there is one.
fn put_field(
    alloc: Global,
    members: &mut Map<String, Value>,
    fields: &[Field<'_>],
    name: &str,
) -> Result<(), AllocError>
    ensures { OnOk result (members_view members.new.entries
        ≡ with_field fields.now (members_view members.old.entries) name.now) }
{
    let Some(field) = first_named(fields, name.as_bytes()) else {
        return Ok(());
    };
    let value = unfold(alloc, field)?;
    put(members, alloc, name, text_value(alloc, value.as_slice())?)
}
