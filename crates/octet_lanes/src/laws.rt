//! Laws about the definitions alone.
ghost use Rattle.std.specs.Prelude.{◌≡◌, ℕ, List};
ghost use Rattle.octet_lanes.specs.Encoding.{IsOctets, Spells, decoding_of, encoding_of};
ghost use Rattle.octet_lanes.specs.declared.alphabet.Alphabet.{Alphabet};

/// Each text spells at most one list of bytes.
pub fn spells_at_most_one()
    ensures { (alphabet : Alphabet) (text x y : List ℕ) → IsOctets x → IsOctets y
        → Spells alphabet text x → Spells alphabet text y → x ≡ y }
{}

/// Decoding the encoding of bytes gives the bytes.
pub fn reads_what_was_written()
    ensures { (alphabet : Alphabet) (octets : List ℕ) → IsOctets octets
        → decoding_of alphabet (encoding_of alphabet octets) ≡ octets }
{}
