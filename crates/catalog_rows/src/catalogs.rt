// The text of a catalog.
use crate::mails::MESSAGE;
use catalog::{Kept, Listed, catalog_text, keep, keep_again};
use std::alloc::Global;

// The lines of the entries below, as Python's `json` wrote them.
const FIRST_LINES: &[u8] =
    b"{\"folder\":\"Documents\",\"kind\":\"part\",\"media\":\"text/plain\",\"name\":{\"base64\":\"/w==\"},\"number\":1,\"octets\":3,\"of\":[{\"number\":2,\"part\":1}],\"sha256\":\"7692c3ad3540bb803c020b3aee66cd8887123234ea0c6e7143c0add73ff431ed\"}\n{\"fields\":{\"From\":{\"base64\":\"6UB4\"},\"Message-ID\":\"<1>\",\"References\":\"\",\"Subject\":\"=?utf-8?q?a?=\\t b\"},\"folder\":\"INBOX\",\"kind\":\"message\",\"media\":\"message/rfc822\",\"name\":\"\",\"number\":2,\"octets\":193,\"parts\":3,\"sha256\":\"8d79d3e1365a9067846f8a2d4bacd733060ec4e75fc096d72240052d3af2e14a\",\"stored\":[{\"number\":1,\"part\":1}]}\n";

const LAST_LINES: &[u8] =
    b"{\"fields\":{},\"folder\":\"INBOX\",\"kind\":\"message\",\"media\":\"message/rfc822\",\"name\":\"\",\"number\":4,\"octets\":2,\"parts\":1,\"sha256\":\"bbe56d7c2d0f1f7271eb6f829800598a0a1c5a54f09cb49c47607e0698af7d6f\",\"stored\":[{\"number\":7,\"part\":0}]}\n{\"folder\":\"Documents\",\"kind\":\"part\",\"media\":\"text/plain\",\"name\":{\"base64\":\"/w==\"},\"number\":7,\"octets\":1,\"of\":[{\"number\":4,\"part\":0}],\"sha256\":\"2d711642b726b04401627ca9fbac32f5c8530fb1903cc4db02258717921a4881\"}\n";

const AGAIN_LINE: &[u8] =
    b"{\"fields\":{},\"folder\":\"INBOX\",\"kind\":\"message\",\"media\":\"message/rfc822\",\"name\":\"\",\"number\":4,\"octets\":2,\"parts\":1,\"sha256\":\"bbe56d7c2d0f1f7271eb6f829800598a0a1c5a54f09cb49c47607e0698af7d6f\",\"stored\":[]}\n";

// The number, whether it is a message, and the content of each entry: a part of the message after it, and a part of the
// message before it.
const ENTRIES: [(u32, bool, &[u8]); 4] = [
    (1, false, b"one"),
    (2, true, MESSAGE),
    (4, true, b"\nx"),
    (7, false, b"x"),
];

// A message, or a part.
fn listed(number: u32, is_message: bool) -> Listed<'static> {
    if is_message {
        Listed {
            number,
            folder: b"INBOX",
            name: b"",
            media: b"message/rfc822",
            is_message,
        }
    } else {
        Listed {
            number,
            folder: b"Documents",
            name: b"\xff",
            media: b"text/plain",
            is_message,
        }
    }
}

// Adds what is kept of an entry, if there is memory.
fn add_kept(alloc: Global, kept: &mut Vec<Kept<'static>>, entry: (u32, bool, &[u8])) -> Option<()> {
    let (number, is_message, octets) = entry;
    let one = keep(alloc, listed(number, is_message), octets).ok()?;
    kept.push(one).ok()
}

// What is kept of the entries, if there is memory.
fn all_kept(alloc: Global) -> Option<Vec<Kept<'static>>> {
    let mut kept = Vec::new(alloc);
    for entry in &ENTRIES {
        add_kept(alloc, &mut kept, *entry)?;
    }
    Some(kept)
}

// The catalog of these entries after a number, if there is memory.
fn catalog_after(alloc: Global, after: u32) -> Option<Vec<u8>> {
    let kept = all_kept(alloc)?;
    catalog_text(alloc, &kept, after).ok()
}

// The catalog of an entry that has the content of a message, which isn't read again; nothing if the entry is a part.
fn catalog_again(alloc: Global, is_message: bool) -> Option<Vec<u8>> {
    let first = keep(alloc, listed(2, true), b"\nx").ok()?;
    let again = keep_again(&first, listed(4, is_message)).ok()?;
    let mut kept = Vec::new(alloc);
    kept.push(again?).ok()?;
    catalog_text(alloc, &kept, 0).ok()
}

// Whether a catalog is these lines.
fn is_catalog(catalog: Option<Vec<u8>>, first: &[u8], last: &[u8]) -> bool {
    match catalog {
        Some(text) => is_joined(&text, first, last),
        None => false,
    }
}

// Whether a text is these two, one after another.
fn is_joined(text: &[u8], first: &[u8], last: &[u8]) -> bool {
    match text.strip_prefix(first) {
        Some(rest) => rest == last,
        None => false,
    }
}

#[test]
fn catalogs(rt: HostRuntime) {
    assert!(rt; is_catalog(catalog_after(rt.alloc(), 0), FIRST_LINES, LAST_LINES));
    assert!(rt; is_catalog(catalog_after(rt.alloc(), 2), b"", LAST_LINES));
    assert!(rt; is_catalog(catalog_after(rt.alloc(), 7), b"", b""));
}

#[test]
fn catalogs_of_shared_contents(rt: HostRuntime) {
    assert!(rt; is_catalog(catalog_again(rt.alloc(), true), AGAIN_LINE, b""));
    assert!(rt; catalog_again(rt.alloc(), false).is_none());
}
