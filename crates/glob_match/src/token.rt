// The tokens of a key.
ghost use Rattle.std.specs.Prelude.{◌≡◌, ◌∷◌, ◌<◌, [], IfSome, MatchOption, length};
ghost use Rattle.glob_match.specs.Containment.{takes};
ghost use Rattle.glob_match.specs.Tokens.{tokens_of};

use crate::comparator::Comparator;

/// A literal byte or a wildcard of a key (RFC 5228, section 2.7.1).
#[derive(Clone, Copy, Drop)]
pub enum Token {
    /// A byte, possibly with a backslash before it.
    Literal(u8),
    /// `?`, which matches one byte.
    AnyOctet,
    /// `*`, which matches any stretch.
    Star,
}

impl Token {
    /// Whether the token matches the byte; a star doesn't.
    #[inline(always)]
    pub(crate) fn takes(self, octet: u8, comparator: Comparator) -> bool
        ensures { result ≡ takes comparator self octet }
    {
        match self {
            Token::Literal(literal) => comparator.same(octet, literal),
            Token::AnyOctet => true,
            Token::Star => false,
        }
    }
}

/// The first token of a key, and the rest after it.
#[inline(always)]
pub(crate) fn first_token(key: &[u8]) -> Option<(Token, &[u8])>
    ensures tokens { MatchOption result (key.now ≡ []) (λ read. tokens_of key.now
        ≡ read.0 ∷ tokens_of read.1.now) }
    ensures shorter { IfSome result (λ read. length read.1.now < length key.now) }
{
    match key {
        [] => None,
        [b'\\', octet, rest @ ..] => Some((Token::Literal(*octet), rest)),
        [b'*', rest @ ..] => Some((Token::Star, rest)),
        [b'?', rest @ ..] => Some((Token::AnyOctet, rest)),
        [octet, rest @ ..] => Some((Token::Literal(*octet), rest)),
    }
}
