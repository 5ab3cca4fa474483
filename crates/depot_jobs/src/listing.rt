// The lines of a message's parts.
ghost use Rattle.std.specs.Prelude.{◌≡◌, ◌<◌, ◌++◌, codes, length, IfErr, IfOk, OnOk};
ghost use Rattle.std.specs.Fmt.{decimal};
ghost use Rattle.std.specs.List.{HoldsAt};
ghost use Rattle.mime_decode.specs.Content.{digest_of};
ghost use Rattle.mime_decode.specs.Mail.{IsReadable, mail_of};
ghost use Rattle.sieve_engine.specs.Execution.{IsUnread};
ghost use Rattle.mime_params.specs.MediaValue.{media_text};
ghost use Rattle.depot_jobs.specs.Printed.{part_text, parts_text};
ghost use Rattle.printing.specs.Printed.{line};

use itoa::Buffer;
use mime_decode::{Message, digest_of};
use mime_params::MediaType;
use refusals::Refusal;
use std::alloc::{AllocError, Global};

/// Returns a line for each part of the message, as `depot parts` prints it. Contents are decoded one at a time, each
/// once.
///
/// # Errors
///
/// - `MessageTooLarge` or `TooManyParts` if the message is too long or has too many parts.
/// - `Memory` if memory is refused.
pub fn parts_lines(alloc: Global, octets: &[u8]) -> Result<Vec<u8>, Refusal>
    ensures lines { IfOk result (λ text. IsReadable octets.now
        × (text.items ≡ parts_text (mail_of octets.now).parts)) }
    ensures refused { IfErr result (λ refusal. IsUnread octets.now refusal) }
{
    let message = Message::read(alloc, octets)?;
    Ok(lines_of(alloc, &message)?)
}

// A line for each part of a message.
fn lines_of(alloc: Global, message: &Message<'_>) -> Result<Vec<u8>, AllocError>
    ensures { IfOk result (λ text. text.items ≡ parts_text message.now.parts) }
{
    let mut text = Vec::new(alloc);
    'parts: for part in 0..message.parts() {
        add_part(alloc, &mut text, message, part)?;
    }
    Ok(text)
}

// Adds the line of a part.
fn add_part(
    alloc: Global,
    text: &mut Vec<u8>,
    message: &Message<'_>,
    part: usize,
) -> Result<(), AllocError>
    requires { part < length message.now.parts }
    ensures { OnOk result (HoldsAt (λ p. text.new.items ≡ text.old.items
        ++ line (part_text part p.depth p.media p.content)) message.now.parts part) }
{
    let tree = message.tree();
    let content = message.content(alloc, part)?;
    add_line(
        text,
        part,
        tree.depth(part),
        tree.media_without_params(part),
        content.as_slice(),
    )
}

// Adds the line of a part that has this place, depth, media type and content.
fn add_line(
    text: &mut Vec<u8>,
    place: usize,
    depth: usize,
    media: &MediaType,
    content: &[u8],
) -> Result<(), AllocError>
    ensures { OnOk result (text.new.items ≡ text.old.items
        ++ line (part_text place depth media.now content.now)) }
{
    add_number(text, place)?;
    add_number(text, depth)?;
    add_media(text, media)?;
    add_number(text, content.len())?;
    text.extend_from_slice(&digest_of(content))?;
    Ok(text.push(b'\n')?)
}

// Adds a number, and a space.
fn add_number(text: &mut Vec<u8>, number: usize) -> Result<(), AllocError>
    ensures { OnOk result (text.new.items ≡ text.old.items ++ (decimal number ++ codes " ")) }
{
    text.extend_from_slice(Buffer::new().format(number as u128).as_bytes())?;
    Ok(text.push(b' ')?)
}

// Adds a media type in lower case, and a space.
fn add_media(text: &mut Vec<u8>, media: &MediaType) -> Result<(), AllocError>
    ensures { OnOk result (text.new.items ≡ text.old.items ++ (media_text media.now ++ codes " ")) }
{
    media.append_text(text)?;
    Ok(text.push(b' ')?)
}
