// Lines of messages.
use crate::mails::{MESSAGE, kept_of};
use catalog::{Entry, Outline, PartEntry, PartIndex, Place, message_line};
use sha2::{Digest, Sha256};
use std::alloc::Global;

const NO_FIELDS: &[u8] =
    b"{\"fields\":{},\"folder\":\"INBOX\",\"kind\":\"message\",\"media\":\"message/rfc822\",\"name\":\"\",\"number\":1,\"octets\":1,\"parts\":1,\"sha256\":\"abababababababababababababababababababababababababababababababab\",\"stored\":[]}";

const LINE: &[u8] =
    b"{\"fields\":{\"From\":{\"base64\":\"6UB4\"},\"Message-ID\":\"<1>\",\"References\":\"\",\"Subject\":\"=?utf-8?q?a?=\\t b\"},\"folder\":{\"base64\":\"/w==\"},\"kind\":\"message\",\"media\":\"message/rfc822\",\"name\":\"\",\"number\":1,\"octets\":193,\"parts\":3,\"sha256\":\"abababababababababababababababababababababababababababababababab\",\"stored\":[{\"number\":7,\"part\":1}]}";

// The entries with contents of a message's parts, if there is memory.
fn stored_in(alloc: Global, outline: &Outline, entries: &[PartEntry]) -> Option<Vec<Place>> {
    let index = PartIndex::new(alloc, entries).ok()?;
    index.stored_in(alloc, &outline.digests).ok()
}

// An entry with a digest that is easy to see.
fn with_plain_digest<'a>(entry: &Entry<'a>) -> Entry<'a> {
    Entry {
        number: entry.number,
        folder: entry.folder,
        name: entry.name,
        media: entry.media,
        octets: entry.octets,
        digest: [0xab; 32],
    }
}

// The line of a message, if there is memory. The entries are those of parts.
fn line_with(
    alloc: Global,
    entry: &Entry<'_>,
    outline: &Outline,
    entries: &[PartEntry],
) -> Option<Vec<u8>> {
    let stored = stored_in(alloc, outline, entries)?;
    message_line(alloc, entry, outline, &stored).ok()
}

// The line of a message in a folder, if there is memory. The entries are those of parts.
fn line_of(alloc: Global, octets: &[u8], folder: &[u8], entries: &[PartEntry]) -> Option<Vec<u8>> {
    let kept = kept_of(alloc, 1, folder, octets)?;
    match &kept.outline {
        Some(outline) => line_with(alloc, &with_plain_digest(&kept.entry), outline, entries),
        None => None,
    }
}

fn is_line(line: Option<Vec<u8>>, want: &[u8]) -> bool {
    match line {
        Some(line) => line.as_slice() == want,
        None => false,
    }
}

// A message without fields.
#[test]
fn no_fields(rt: HostRuntime) {
    assert!(rt; is_line(line_of(rt.alloc(), b"x", b"INBOX", &[]), NO_FIELDS));
}

// Folded, repeated and empty fields, one that is no UTF-8, and one that lines don't have; and two parts with one content.
#[test]
fn fields_and_parts(rt: HostRuntime) {
    let digest = Sha256::digest(b"one".as_slice());
    let entries = [
        PartEntry {
            number: 5,
            digest: [0; 32],
        },
        PartEntry { number: 7, digest },
    ];
    assert!(rt; is_line(line_of(rt.alloc(), MESSAGE, b"\xff", &entries), LINE));
}
