// The tokens of a script.
//
// A token that is too large, or an opened `text:` without its end, is a fault and not a shorter token: the longest
// match is kept.
ghost use Rattle.std.specs.Prelude.{◌≡◌, ◌≤◌, length, slice_range};

/// The kind of a token, as in RFC 5228, section 8.1.
#[derive(Clone, Copy)]
pub enum TokenKind {
    /// A letter or `_`, then letters, digits and `_`.
    Identifier,
    /// A colon and an identifier.
    Tag,
    /// Digits, possibly followed by K, M or G.
    Number,
    /// A string in double quotes.
    QuotedString,
    /// A string that `text:` opens and a line with a single dot closes.
    MultiLineString,
    /// The sign `;`.
    Semicolon,
    /// The sign `,`.
    Comma,
    /// The sign `{`.
    OpeningBrace,
    /// The sign `}`.
    ClosingBrace,
    /// The sign `(`.
    OpeningParenthesis,
    /// The sign `)`.
    ClosingParenthesis,
    /// The sign `[`.
    OpeningBracket,
    /// The sign `]`.
    ClosingBracket,
}

/// A token of a script: its kind, and its bytes from `start` up to `end`. Places are counted in bytes from 0.
///
/// [`crate::tokens`] makes them. They don't have the script, so give the same script to [`Token::text`].
#[derive(Clone, Copy)]
pub struct Token {
    /// What the token is.
    pub kind: TokenKind,
    /// The place of its first byte.
    pub start: usize,
    /// The place after its last byte.
    pub end: usize,
}

impl Token {
    /// Returns the token's bytes in its script.
    ///
    /// # Requires
    ///
    /// The token is one of this script: `start <= end`, and `end <= script.len()`.
    pub fn text<'a>(&self, script: &'a [u8]) -> &'a [u8]
        requires forward { self.now.start ≤ self.now.end }
        requires within { self.now.end ≤ length script.now }
        ensures { result.now ≡ slice_range script.now self.now.start self.now.end }
    {
        &script[self.start..self.end]
    }
}
