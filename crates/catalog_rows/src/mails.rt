// Messages, and what catalogs keep of them.
use catalog::{Kept, Listed, keep};
use std::alloc::Global;

pub const MESSAGE: &[u8] =
    b"Subject: =?utf-8?q?a?=\x0d\x0a\x09 b \x0d\x0afrom : \xe9@x\x0aBcc: n\x0asubject: second\x0aMESSAGE-ID:<1>\x0aReferences:\x0aContent-Type: multipart/mixed; boundary=b\x0a\x0a--b\x0a\x0aone\x0a--b\x0aContent-Transfer-Encoding: base64\x0a\x0ab25l\x0a--b--\x0a";

/// What a catalog keeps of a message in a folder, if there is memory.
pub fn kept_of<'a>(
    alloc: Global,
    number: u32,
    folder: &'a [u8],
    octets: &[u8],
) -> Option<Kept<'a>> {
    let listed = Listed {
        number,
        folder,
        name: b"",
        media: b"message/rfc822",
        is_message: true,
    };
    keep(alloc, listed, octets).ok()
}
