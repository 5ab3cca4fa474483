// How a body is encoded for transfer.
//
// Transfer encodings are read here, with the other values of MIME's fields, because both the tree of parts and the
// contents of parts need them.
ghost use Rattle.std.specs.Prelude.{◌≡◌, ◌||◌, ◌==◌, not, length};
ghost use Rattle.std.specs.List.{take_while};
ghost use Rattle.mime_params.specs.Encodings.{encoding_named, encoding_of};

use octets::{is_word, trim_blanks};

/// How the body of a part is encoded for transfer (RFC 2045, section 6.1).
#[derive(Clone, Copy)]
pub enum TransferEncoding {
    /// `7bit`: lines of ASCII, as they are.
    SevenBit,
    /// `8bit`: lines of bytes, as they are.
    EightBit,
    /// `binary`: bytes, as they are.
    Binary,
    /// `quoted-printable` (RFC 2045, section 6.7).
    QuotedPrintable,
    /// `base64` (RFC 2045, section 6.8).
    Base64,
    /// An unknown encoding: the content is the body as it is, and the part has no parts below it.
    Unknown,
}

impl TransferEncoding {
    /// Returns the encoding that the value of a Content-Transfer-Encoding names: the text before a semicolon or an
    /// opening parenthesis, without spaces and tabs at its ends. ASCII case is ignored. An empty name means 7bit.
    pub fn of(value: &[u8]) -> TransferEncoding
        ensures { result ≡ encoding_of value.now }
    {
        encoding_named(trim_blanks(&value[..name_end(value)]))
    }
}

// The encoding of this name.
fn encoding_named(name: &[u8]) -> TransferEncoding
    ensures { result ≡ encoding_named name.now }
{
    if name.is_empty() || is_word(name, b"7bit") {
        TransferEncoding::SevenBit
    } else if is_word(name, b"8bit") {
        TransferEncoding::EightBit
    } else if is_word(name, b"binary") {
        TransferEncoding::Binary
    } else if is_word(name, b"quoted-printable") {
        TransferEncoding::QuotedPrintable
    } else if is_word(name, b"base64") {
        TransferEncoding::Base64
    } else {
        TransferEncoding::Unknown
    }
}

// Where the name ends: at a semicolon or an opening parenthesis.
fn name_end(value: &[u8]) -> usize
    ensures { result ≡ length (take_while (λ c. not ((c == 59) || (c == 40))) value.now) }
{
    value
        .iter()
        .take_while(|octet| !matches!(**octet, b';' | b'('))
        .count()
}
