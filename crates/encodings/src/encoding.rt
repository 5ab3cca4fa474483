// Bytes as texts, and texts as bytes.
//
// Base16 is read and written by `hex`, base64 by `base64`. The depot's own codecs are those for which the toolchain has
// no library.
ghost use Rattle.std.specs.Prelude.{◌≡◌, IfOk, IfErr};
ghost use Rattle.octet_lanes.specs.Encoding.{IsOctets};
ghost use Rattle.encodings.specs.Texts.{IsUnread, Reads, text_of};

use base64::engine::general_purpose::STANDARD;
use lanes_base32::{decode32, decode32hex, encode32, encode32hex};
use lanes_base64_mime::{decode_mime, encode_mime};
use quoted_printable::{decode_qp, encode_qp};
use refusals::Refusal;
use std::alloc::{AllocError, Global};

/// How bytes are written as a text. [`Encoding::named`] finds one by the name that users write; [`encode`], [`decode`]
/// and [`put_text`] use it.
#[derive(Clone, Copy, Drop)]
pub enum Encoding {
    /// The bytes themselves, unchanged.
    Raw,
    /// Base64 with its padding (RFC 4648, section 4).
    Base64,
    /// Base64 in lines of 76 characters (RFC 2045, section 6.8). The reader skips whatever isn't a symbol of the
    /// alphabet.
    Base64Mime,
    /// Base32 with its padding (RFC 4648, section 6).
    Base32,
    /// Base32 in the alphabet that keeps the order, with its padding (RFC 4648, section 7).
    Base32Hex,
    /// Two hexadecimal digits for each byte, written in upper case and read in either case (RFC 4648, section 8).
    Base16,
    /// Quoted-printable (RFC 2045, section 6.7). Every text can be read.
    Qp,
}

/// Returns the text of `octets` in the encoding.
///
/// For example, `foobar` is `MZXW6YTBOI======` in base32.
///
/// # Errors
///
/// `AllocError` if memory is refused.
pub fn encode(alloc: Global, encoding: Encoding, octets: &[u8]) -> Result<Vec<u8>, AllocError>
    ensures { IfOk result (λ text. text.items ≡ text_of encoding octets.now) }
{
    match encoding {
        Encoding::Raw => octets.to_vec(alloc),
        Encoding::Base64 => Ok(STANDARD.encode(alloc, octets)?.into_bytes()),
        Encoding::Base64Mime => encode_mime(alloc, octets),
        Encoding::Base32 => encode32(alloc, octets),
        Encoding::Base32Hex => encode32hex(alloc, octets),
        Encoding::Base16 => Ok(hex::encode_upper(alloc, octets)?.into_bytes()),
        Encoding::Qp => encode_qp(alloc, octets),
    }
}

/// Returns the bytes that `text` reads as.
///
/// For example, `MZXW6YTBOI======` reads as `foobar` in base32.
///
/// # Errors
///
/// - `NotCanonical` if the text reads as no bytes. This never happens for raw bytes, for MIME base64, whose reader
///   skips what isn't a symbol, or for quoted-printable, which reads every text. The other encodings read what
///   [`encode`] writes and nothing else; base16 is also read in lower case.
/// - `Memory` if memory is refused.
pub fn decode(alloc: Global, encoding: Encoding, text: &[u8]) -> Result<Vec<u8>, Refusal>
    ensures read { IfOk result (λ octets. Reads encoding text.now octets.items) }
    ensures octets { IfOk result (λ octets. IsOctets octets.items) }
    ensures refused { IfErr result (λ e. IsUnread encoding text.now e) }
{
    let octets = read(alloc, encoding, text)?;
    know_octets(&octets);
    Ok(octets)
}

// The bytes that a text reads as.
fn read(alloc: Global, encoding: Encoding, text: &[u8]) -> Result<Vec<u8>, Refusal>
    ensures octets { IfOk result (λ octets. Reads encoding text.now octets.items) }
    ensures refused { IfErr result (λ e. IsUnread encoding text.now e) }
{
    match encoding {
        Encoding::Raw => Ok(text.to_vec(alloc)?),
        Encoding::Base64 => Ok(STANDARD.decode(alloc, text)?),
        Encoding::Base64Mime => Ok(decode_mime(alloc, text)?),
        Encoding::Base32 => Ok(decode32(alloc, text)?),
        Encoding::Base32Hex => Ok(decode32hex(alloc, text)?),
        Encoding::Base16 => Ok(hex::decode(alloc, text)?),
        Encoding::Qp => Ok(decode_qp(alloc, text)?),
    }
}

// For a contract, bytes are numbers; this says that each is below 256.
fn know_octets(_octets: &[u8])
    ensures { IsOctets _octets.now }
{}
