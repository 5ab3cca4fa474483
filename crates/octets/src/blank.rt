// SP and TAB at the ends of a text.
ghost use Rattle.std.specs.Prelude.{◌≡◌};
ghost use Rattle.octets.specs.Blank.{without_leading_blanks, without_trailing_blanks, without_outer_blanks};

/// Returns the text without the spaces and tabs at its start.
pub fn trim_leading_blanks(text: &[u8]) -> &[u8]
    ensures { result.now ≡ without_leading_blanks text.now }
{
    let mut rest = text;
    'blanks: while let [b' ' | b'\t', after @ ..] = rest {
        rest = after;
    }
    rest
}

/// Returns the text without the spaces and tabs at its end.
pub fn trim_trailing_blanks(text: &[u8]) -> &[u8]
    ensures { result.now ≡ without_trailing_blanks text.now }
{
    let mut rest = text;
    'blanks: while let [before @ .., b' ' | b'\t'] = rest {
        rest = before;
    }
    rest
}

/// Returns the text without the spaces and tabs at its start and at its end.
pub fn trim_blanks(text: &[u8]) -> &[u8]
    ensures { result.now ≡ without_outer_blanks text.now }
{
    trim_trailing_blanks(trim_leading_blanks(text))
}
