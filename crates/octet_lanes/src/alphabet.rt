ghost use Rattle.std.specs.Prelude.{◌≡◌, ◌*◌};
ghost use Rattle.octet_lanes.specs.Encoding.{padding, quantum, stray, width};

/// An alphabet of RFC 4648. It determines how many bits a symbol has; pass it to each call that reads or writes
/// symbols.
#[derive(Clone, Copy, Drop)]
pub enum Alphabet {
    /// Groups of 6 bits in `A-Z a-z 0-9 + /` (RFC 4648, section 4).
    Base64,
    /// Groups of 5 bits in `A-Z 2-7` (RFC 4648, section 6).
    Base32,
    /// Groups of 5 bits in `0-9 A-V` (RFC 4648, section 7).
    Base32Hex,
}

/// The class of a byte that isn't in the alphabet.
pub const STRAY: u8 = 0xff;

/// The padding character, `=`.
pub const PADDING: u8 = b'=';

impl Alphabet {
    /// Returns how many bits a symbol has: 6 in base64, 5 in the others.
    pub fn width(self) -> usize
        ensures { result ≡ width self }
    {
        match self {
            Alphabet::Base64 => 6,
            Alphabet::Base32 | Alphabet::Base32Hex => 5,
        }
    }

    /// Returns how many bytes a quantum has, which is the shortest run of bytes that is a whole number of symbols: 3
    /// in base64, 5 in the others.
    pub fn quantum_octets(self) -> usize
        ensures { result * 8 ≡ width self * quantum self }
    {
        match self {
            Alphabet::Base64 => 3,
            Alphabet::Base32 | Alphabet::Base32Hex => 5,
        }
    }

    /// Returns how many characters a quantum has: 4 in base64, 8 in the others.
    pub fn quantum_characters(self) -> usize
        ensures { result ≡ quantum self }
    {
        match self {
            Alphabet::Base64 => 4,
            Alphabet::Base32 | Alphabet::Base32Hex => 8,
        }
    }
}
