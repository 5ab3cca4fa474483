// The bytes of a text, one at a time.
ghost use Rattle.std.specs.Prelude.{◌≡◌, ◌∷◌, [], MatchOption};

/// Returns the first byte of a text and the text after it; `None` if the text is empty.
#[inline]
pub fn first(text: &[u8]) -> Option<(u8, &[u8])>
    ensures { MatchOption result (text.now ≡ []) (λ parts. text.now ≡ parts.0 ∷ parts.1.now) }
{
    match text {
        [octet, rest @ ..] => Some((*octet, rest)),
        [] => None,
    }
}
