// The lines of messages and parts.
ghost use Rattle.std.specs.Prelude.{◌≡◌, codes, length, IfOk, IsUtf8, Some};
ghost use Rattle.serde_json.specs.Read.{read};
ghost use Rattle.serde_json.specs.View.{members_view, view};
ghost use Rattle.mime_decode.specs.Mail.{Mail};
ghost use Rattle.catalog.specs.Keeping.{outlined, outlined_as};
ghost use Rattle.catalog.specs.Lines.{common_members, message_line, message_object, message_value, part_line, part_value, place_value, places_value};
ghost use Rattle.catalog.specs.Rows.{row_of};

use crate::entry::{Entry, Place};
use crate::outline::Outline;
use crate::text::text_value;
use serde_json::{Map, Value, json, put};
use std::alloc::{AllocError, Global};

/// Returns the line of a message, without a line break: a JSON object with the members `number`, `kind`, `folder`, `name`,
/// `media`, `octets`, `sha256`, `parts`, `stored` and `fields`, in the order of their names.
///
/// `stored` are entries of the message's parts, as [`PartIndex`](crate::index::PartIndex) returns them. `fields` has the
/// first From, To, Cc, Subject, Date, Message-ID, In-Reply-To and References of the message, unfolded, each under its
/// name.
///
/// # Errors
///
/// `AllocError` if memory is refused.
pub fn message_line(
    alloc: Global,
    entry: &Entry<'_>,
    outline: &Outline,
    stored: &[Place],
) -> Result<Vec<u8>, AllocError>
    ensures text { (mail : Mail) → outlined_as outline.now ≡ outlined mail
        → IfOk result (λ line. line.items ≡ message_line (row_of entry.now) mail stored.now) }
    ensures utf8 { IfOk result (λ line. IsUtf8 line.items) }
    ensures read_back { (mail : Mail) → outlined_as outline.now ≡ outlined mail
        → IfOk result (λ line. read line.items
        ≡ Some (message_value (row_of entry.now) mail stored.now)) }
{
    message_value(alloc, entry, outline, stored)?.to_vec(alloc)
}

/// Returns the line of a part, without a line break: a JSON object with the members `number`, `kind`, `folder`, `name`,
/// `media`, `octets`, `sha256` and `of`, in the order of their names.
///
/// `messages` are the entries of messages that have a part with this content, each with that part.
///
/// # Errors
///
/// `AllocError` if memory is refused.
pub fn part_line(
    alloc: Global,
    entry: &Entry<'_>,
    messages: &[Place],
) -> Result<Vec<u8>, AllocError>
    ensures text { IfOk result (λ line. line.items ≡ part_line (row_of entry.now) messages.now) }
    ensures utf8 { IfOk result (λ line. IsUtf8 line.items) }
    ensures read_back { IfOk result (λ line. read line.items
        ≡ Some (part_value (row_of entry.now) messages.now)) }
{
    part_value(alloc, entry, messages)?.to_vec(alloc)
}

// The object of a message.
fn message_value(
    alloc: Global,
    entry: &Entry<'_>,
    outline: &Outline,
    stored: &[Place],
) -> Result<Value, AllocError>
    ensures { IfOk result (λ value. view value
        ≡ message_object (row_of entry.now) (length outline.now.digests.items)
        (view outline.now.fields) stored.now) }
{
    let mut members = common_members(alloc, entry, "message")?;
    put(&mut members, alloc, "fields", outline.fields.clone()?)?;
    put(&mut members, alloc, "stored", places_value(alloc, stored)?)?;
    put(
        &mut members,
        alloc,
        "parts",
        Value::from(outline.digests.len()),
    )?;
    Ok(Value::from(members))
}

// The object of a part.
fn part_value(alloc: Global, entry: &Entry<'_>, messages: &[Place]) -> Result<Value, AllocError>
    ensures { IfOk result (λ value. view value
        ≡ part_value (row_of entry.now) messages.now) }
{
    let mut members = common_members(alloc, entry, "part")?;
    put(&mut members, alloc, "of", places_value(alloc, messages)?)?;
    Ok(Value::from(members))
}

// The members that the line of every entry has.
fn common_members(
    alloc: Global,
    entry: &Entry<'_>,
    kind: &str,
) -> Result<Map<String, Value>, AllocError>
    ensures { IfOk result (λ members. members_view members.entries
        ≡ common_members (row_of entry.now) kind.now) }
{
    let mut members = Map::new(alloc);
    put(&mut members, alloc, "number", Value::from(entry.number))?;
    put(
        &mut members,
        alloc,
        "kind",
        Value::try_from_str(alloc, kind)?,
    )?;
    put(
        &mut members,
        alloc,
        "folder",
        text_value(alloc, entry.folder)?,
    )?;
    put(&mut members, alloc, "name", text_value(alloc, entry.name)?)?;
    put(
        &mut members,
        alloc,
        "media",
        text_value(alloc, entry.media)?,
    )?;
    put(&mut members, alloc, "octets", Value::from(entry.octets))?;
    let digest = hex::encode(alloc, entry.digest.as_slice())?;
    put(&mut members, alloc, "sha256", Value::from(digest))?;
    Ok(members)
}

// The places as a list of objects.
fn places_value(alloc: Global, places: &[Place]) -> Result<Value, AllocError>
    ensures { IfOk result (λ value. view value ≡ places_value places.now) }
{
    let mut items = Vec::with_capacity(alloc, places.len())?;
    for place in places {
        items.push(place_value(alloc, place)?)?;
    }
    Ok(Value::from(items))
}

// A place as an object.
fn place_value(alloc: Global, place: &Place) -> Result<Value, AllocError>
    ensures { IfOk result (λ value. view value ≡ place_value place.now) }
{
    json!(in alloc; {"number": place.number, "part": place.part})
}
