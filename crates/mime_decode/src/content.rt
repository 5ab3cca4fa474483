// The content of a part, and its digest.
//
// A body in base64 is decoded line by line, each line with its break. Longer pieces would be faster, and give the
// same by a law of the decoder. A body in quoted-printable is one text, which `decode_qp` reads by its lines, so it
// needs no memory for a run of blanks, as `QpDecoder` does between two pieces.
ghost use Rattle.std.specs.Prelude.{◌≡◌, false, IfOk, IsOk};
ghost use Rattle.std.specs.Cow.{cow_slice_items, IsBorrowedSlice};
ghost use Rattle.lanes_base64_mime.specs.MimeBase64.{mime_decoding_of};
ghost use Rattle.quoted_printable.specs.QuotedPrintable.{decoding_of};
ghost use Rattle.mime_decode.specs.Content.{content_of, digest_of, is_decoded};

use hex::encode_to_slice;
use lanes_base64_mime::{Decoder, decoding_room};
use mime_params::TransferEncoding;
use quoted_printable::decode_qp;
use sha2::{Digest, Sha256};
use std::alloc::{AllocError, Global};
use std::borrow::CowSlice;
use text_lines::Lines;

/// The content of a body in this encoding. One that isn't decoded is lent, and takes no memory.
pub(crate) fn decoded<'a>(
    alloc: Global,
    encoding: TransferEncoding,
    body: &'a [u8],
) -> Result<CowSlice<'a, u8>, AllocError>
    ensures content { IfOk result (λ content. cow_slice_items content
        ≡ content_of encoding body.now) }
    ensures lent { is_decoded encoding ≡ false → IfOk result (λ content. IsBorrowedSlice content) }
    ensures no_memory { is_decoded encoding ≡ false → IsOk result }
{
    match encoding {
        TransferEncoding::Base64 => Ok(CowSlice::Owned(decoded_base64(alloc, body)?)),
        TransferEncoding::QuotedPrintable => Ok(CowSlice::Owned(decode_qp(alloc, body)?)),
        TransferEncoding::SevenBit
        | TransferEncoding::EightBit
        | TransferEncoding::Binary
        | TransferEncoding::Unknown => Ok(CowSlice::Borrowed(body)),
    }
}

// The content of a body in base64, which is fed line by line, each with its break.
fn decoded_base64(alloc: Global, body: &[u8]) -> Result<Vec<u8>, AllocError>
    ensures { IfOk result (λ octets. octets.items ≡ mime_decoding_of body.now) }
{
    let mut octets = Vec::with_capacity(alloc, decoding_room(body))?;
    let mut decoder = Decoder::new();
    for line in Lines::new(body) {
        decoder.feed(&body[line.start..line.stop], &mut octets)?;
    }
    decoder.finish();
    Ok(octets)
}

/// Returns the digest of bytes: their SHA-256 as 64 hexadecimal digits in lower case (FIPS 180-4; RFC 4648, section
/// 8).
///
/// It takes no memory. For the content of a part it is what [`Message::digest`](crate::Message::digest) returns. For
/// example, the digest of `abc` begins with `ba7816bf`.
pub fn digest_of(octets: &[u8]) -> [u8; 64]
    ensures { result ≡ digest_of octets.now }
{
    let mut digits = [0; 64];
    encode_to_slice(Sha256::digest(octets), &mut digits).unwrap();
    digits
}
