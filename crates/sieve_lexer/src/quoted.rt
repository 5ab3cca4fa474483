// The rest of a quoted string.
ghost use Rattle.std.specs.Prelude.{◌≡◌, ◌<◌, ◌≤◌, length, MatchOption, IfSome};
ghost use Rattle.sieve_lexer.specs.Chain.{Stops};
ghost use Rattle.sieve_lexer.specs.Strings.{IsQuotedRest};

// Where the quoted string ends whose characters begin at this place; `None` if no quote closes it.
pub fn quoted_end(script: &[u8], place: usize) -> Option<usize>
    requires { place ≤ length script.now }
    ensures rest { MatchOption result (Stops (IsQuotedRest script.now) place)
        (IsQuotedRest script.now place) }
    ensures bound { IfSome result (λ end. (place < end) × (end ≤ length script.now)) }
{
    let mut at = place;
    while at < script.len() {
        match script[at] {
            b'"' => return Some(at + 1),
            b'\\' => {
                if at + 1 == script.len() {
                    return None;
                }
                at += 2;
            }
            _ => at += 1,
        }
    }
    None
}
