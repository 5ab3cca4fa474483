// White space and comments, which can be between tokens.
ghost use Rattle.std.specs.Prelude.{◌≡◌, ◌+◌, ◌<◌, ◌≤◌, length, slice_index, MatchOption, IfSome};
ghost use Rattle.sieve_lexer.specs.Classes.{is_not_line_feed};
ghost use Rattle.sieve_lexer.specs.Chain.{IsRun, Stops};
ghost use Rattle.sieve_lexer.specs.Separators.{IsBracketComment, IsSeparator, IsGap};

// The place of the next LF, or the script's length if there is none.
pub fn line_end(script: &[u8], place: usize) -> usize
    requires { place ≤ length script.now }
    ensures { IsRun is_not_line_feed script.now place result }
{
    let mut end = place;
    while end < script.len() && script[end] != b'\n' {
        end += 1;
    }
    end
}

// Where the bracket comment ends whose `/` is at this place; `None` if it isn't one or isn't closed.
fn bracket_comment_end(script: &[u8], place: usize) -> Option<usize>
    requires within { place < length script.now }
    requires slash { slice_index script.now place ≡ 47 }
    ensures comment { MatchOption result (Stops (IsBracketComment script.now) place)
        (IsBracketComment script.now place) }
    ensures bound { IfSome result (λ end. (place < end) × (end ≤ length script.now)) }
{
    if script.len() < place + 2 || script[place + 1] != b'*' {
        return None;
    }
    let mut close = place + 2;
    while close + 1 < script.len() {
        if script[close] == b'*' && script[close + 1] == b'/' {
            return Some(close + 2);
        }
        close += 1;
    }
    None
}

// The end of the white space or comment that begins at this place, if one does.
fn separator_end(script: &[u8], place: usize) -> Option<usize>
    requires { place ≤ length script.now }
    ensures separator { MatchOption result (Stops (IsSeparator script.now) place)
        (IsSeparator script.now place) }
    ensures bound { IfSome result (λ end. (place < end) × (end ≤ length script.now)) }
{
    if place == script.len() {
        return None;
    }
    match script[place] {
        b' ' | b'\t' | b'\r' | b'\n' => Some(place + 1),
        b'#' => Some(line_end(script, place)),
        b'/' => bracket_comment_end(script, place),
        _ => None,
    }
}

// The end of the white space and comments that begin at this place.
pub fn gap_end(script: &[u8], place: usize) -> usize
    requires { place ≤ length script.now }
    ensures gap { IsGap script.now place result }
    ensures ended { Stops (IsSeparator script.now) result }
    ensures bound { (place ≤ result) × (result ≤ length script.now) }
{
    let mut end = place;
    'separators: while let Some(next) = separator_end(script, end) {
        end = next;
    }
    end
}
