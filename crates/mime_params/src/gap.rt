// White space and comments.
ghost use Rattle.std.specs.Prelude.{◌≡◌, MatchOption, None, Some};
ghost use Rattle.mime_params.specs.Gaps.{after_comment, after_gap};

use octets::first;

/// The text after the run of spaces, tabs and comments at its start.
pub fn after_gap(text: &[u8]) -> &[u8]
    ensures { result.now ≡ after_gap text.now }
{
    let mut rest = text;
    'gap: while let Some((octet, more)) = first(rest) {
        match octet {
            b' ' | b'\t' => rest = more,
            b'(' => match after_comment(more) {
                Some(after) => rest = after,
                None => return rest,
            },
            _ => return rest,
        }
    }
    rest
}

// The text after a comment, whose opening parenthesis was read before; `None` if it isn't closed.
fn after_comment(text: &[u8]) -> Option<&[u8]>
    ensures { MatchOption result (after_comment 0 text.now ≡ None)
        (λ after. after_comment 0 text.now ≡ Some after.now) }
{
    let mut depth: usize = 0;
    let mut rest = text;
    'comment: while let Some((octet, more)) = first(rest) {
        if octet == b'\\' {
            let (_escaped, after) = first(more)?;
            rest = after;
        } else {
            if octet == b')' {
                if depth == 0 {
                    return Some(more);
                }
                depth -= 1;
            } else if octet == b'(' {
                depth += 1;
            }
            rest = more;
        }
    }
    None
}
