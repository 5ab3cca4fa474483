// The pieces of a line.

/// A piece of a line. Callers of [`crate::print`] make a list of pieces, and the line is printed piece by piece,
/// so that printing allocates no memory.
#[derive(Clone, Copy)]
pub enum Piece<'a> {
    /// A text, unchanged.
    Text(&'a str),
    /// Bytes, unchanged.
    Octets(&'a [u8]),
    /// Bytes between double quotes; all but printable ASCII characters, and also `"` and `\`, are escaped.
    Quoted(&'a [u8]),
    /// A number in decimal digits.
    Number(u128),
}

/// Where bytes are printed; it decides which of them are printed unchanged.
#[derive(Clone, Copy)]
pub enum Setting {
    /// Between double quotes.
    Quotes,
    /// In lines of text.
    Text,
}
