//! Laws about the definitions alone.
ghost use Rattle.std.specs.Prelude.{◌≡◌, ℕ, List, length};
ghost use Rattle.std.specs.List.{concat};
ghost use Rattle.octet_lanes.specs.Encoding.{IsOctets};
ghost use Rattle.lanes_base64_mime.specs.MimeBase64.{bits_left, mime_decoding_of, mime_encoding_of};
ghost use Rattle.lanes_base64_mime.specs.Pieces.{kept_in_turn, nothing_kept, octets_in_turn};

/// Decoding the encoding of bytes gives the bytes.
pub fn reads_what_was_written()
    ensures { (octets : List ℕ) → IsOctets octets → mime_decoding_of (mime_encoding_of octets)
        ≡ octets }
{}

/// The bytes of a text's pieces, decoded one after the other, are the decoding of the text, wherever it is cut. As
/// many bits are kept at the end as the whole text leaves over.
pub fn pieces_are_the_text()
    ensures octets { (pieces : List (List ℕ)) → octets_in_turn nothing_kept pieces
        ≡ mime_decoding_of (concat pieces) }
    ensures left { (pieces : List (List ℕ)) → length (kept_in_turn nothing_kept pieces).bits
        ≡ bits_left (concat pieces) }
{}
