// The lines of a multi-line string.
ghost use Rattle.std.specs.Prelude.{◌≡◌, ◌↔◌, ◌<◌, ◌≤◌, length, slice_index, MatchOption, IfSome, IsTrue};
ghost use Rattle.sieve_lexer.specs.Chain.{Stops};
ghost use Rattle.sieve_lexer.specs.Strings.{IsLine, IsClosingLine, IsMultiLineRest, IsOpeningEnd, IsOpeningLine};

use crate::separators::line_end;
use crate::word::blanks_end;
use octets::equal_ignoring_case;

// Where the line that begins at this place ends, including its break; `None` if no break ends it.
fn line_stop(script: &[u8], place: usize) -> Option<usize>
    requires { place ≤ length script.now }
    ensures { MatchOption result (Stops (IsLine script.now) place) (IsLine script.now place) }
{
    let end = line_end(script, place);
    if end < script.len() {
        Some(end + 1)
    } else {
        None
    }
}

// Whether the line is a single dot.
fn is_lone_dot(script: &[u8], start: usize, stop: usize) -> bool
    requires { IsLine script.now start stop }
    ensures { IsTrue result ↔ IsClosingLine script.now start stop }
{
    script[start] == b'.'
        && (stop == start + 2 || (stop == start + 3 && script[start + 1] == b'\r'))
}

// The end of the line that closes a multi-line string, if one does; the string's lines begin at this place.
pub fn closing_line_end(script: &[u8], place: usize) -> Option<usize>
    requires { place ≤ length script.now }
    ensures rest { MatchOption result (Stops (IsMultiLineRest script.now) place)
        (IsMultiLineRest script.now place) }
    ensures bound { IfSome result (λ end. (place < end) × (end ≤ length script.now)) }
{
    let mut start = place;
    'lines: while let Some(stop) = line_stop(script, start) {
        if is_lone_dot(script, start, stop) {
            return Some(stop);
        }
        start = stop;
    }
    None
}

// Where the end of an opening line that begins at this place ends: a line break, or a comment and its line break.
fn opening_end(script: &[u8], place: usize) -> Option<usize>
    requires { place ≤ length script.now }
    ensures end { MatchOption result (Stops (IsOpeningEnd script.now) place)
        (IsOpeningEnd script.now place) }
    ensures bound { IfSome result (λ end. (place < end) × (end ≤ length script.now)) }
{
    if place == script.len() {
        return None;
    }
    match script[place] {
        b'\n' => Some(place + 1),
        b'\r' if place + 1 < script.len() && script[place + 1] == b'\n' => Some(place + 2),
        b'#' => line_stop(script, place),
        _ => None,
    }
}

// The end of the line that opens a multi-line string at this place, if one does.
pub fn opening_line_end(script: &[u8], place: usize) -> Option<usize>
    requires { place ≤ length script.now }
    ensures line { MatchOption result (Stops (IsOpeningLine script.now) place)
        (IsOpeningLine script.now place) }
    ensures bound { IfSome result (λ end. (place < end) × (end ≤ length script.now)) }
{
    if script.len() < place + 5 || !equal_ignoring_case(&script[place..place + 5], b"text:") {
        return None;
    }
    opening_end(script, blanks_end(script, place + 5))
}
