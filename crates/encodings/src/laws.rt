//! Laws about the encodings: no call is made.
ghost use Rattle.std.specs.Prelude.{◌≡◌, ◌++◌, ℕ, List};
ghost use Rattle.octet_lanes.specs.Encoding.{IsOctets};
ghost use Rattle.encodings.specs.Texts.{IsPiece, Reads, text_of};
ghost use Rattle.encodings.specs.declared.encoding.Encoding.{Encoding};

/// Each text reads as at most one list of bytes.
pub fn reads_at_most_one()
    ensures { (encoding : Encoding) (text x y : List ℕ) → IsOctets x → IsOctets y
        → Reads encoding text x → Reads encoding text y → x ≡ y }
{}

/// What was written is read back.
pub fn reads_what_was_written()
    ensures { (encoding : Encoding) (octets : List ℕ) → IsOctets octets
        → Reads encoding (text_of encoding octets) octets }
{}

/// The text of bytes is the text of their first piece followed by the text of the rest.
pub fn text_is_the_texts_of_its_pieces()
    ensures { (encoding : Encoding) (piece rest : List ℕ) → IsPiece encoding piece
        → text_of encoding (piece ++ rest) ≡ text_of encoding piece ++ text_of encoding rest }
{}
