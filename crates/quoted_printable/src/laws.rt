//! Laws about the definitions alone.
ghost use Rattle.std.specs.Prelude.{◌≡◌, ◌++◌, ◌≤◌, ℕ, [], List, drop, length};
ghost use Rattle.octet_lanes.specs.Encoding.{IsOctets};
ghost use Rattle.quoted_printable.specs.QuotedPrintable.{decoding_of, encoding_of, first_line, joined, tokens_of, tokens_of_line};
ghost use Rattle.quoted_printable.specs.Pieces.{HasFed, HaveFed};

/// Decoding the encoding of bytes gives the bytes.
pub fn reads_what_was_written()
    ensures { (octets : List ℕ) → IsOctets octets → decoding_of (encoding_of octets) ≡ octets }
{}

/// The text of bytes is its first line, and then the text of the bytes that are not in that line.
pub fn text_is_its_first_line_and_the_rest()
    ensures { (octets : List ℕ) → encoding_of octets ≡ first_line (tokens_of octets) ++ encoding_of
        (drop (tokens_of_line (tokens_of octets)) octets) }
{}

/// No text means more bytes than it has.
pub fn decoding_is_no_longer_than_the_text()
    ensures { (text : List ℕ) → length (decoding_of text) ≤ length text }
{}

/// However a text is cut into pieces, their readings and the meaning of the bytes kept at its end are the reading of
/// the text.
pub fn pieces_are_read_as_their_text()
    ensures { (pieces : List (List ℕ)) (left was now : List ℕ) → HaveFed [] pieces left was now
        → now ++ decoding_of left ≡ was ++ decoding_of (joined pieces) }
{}

/// No reader can append more bytes after a piece, or keep fewer.
pub fn reads_as_much_as_any()
    ensures { (held piece left was now : List ℕ) → HasFed held piece left was now
        → (more others : List ℕ) → ((after : List ℕ) → decoding_of (held ++ piece ++ after) ≡ more
        ++ decoding_of (others ++ after)) → (length (was ++ more) ≤ length now)
        × (length left ≤ length others) }
{}
