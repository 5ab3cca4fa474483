// How long a value is, without unfolding it.
ghost use Rattle.std.specs.Prelude.{◌≡◌, length};
ghost use Rattle.octets.specs.Blank.{without_outer_blanks};
ghost use Rattle.header_fields.specs.Header.{without_breaks};

use octets::{trim_leading_blanks, trim_trailing_blanks};
use text_lines::Lines;

/// How many bytes the text has without its line breaks, and then without outer blanks.
pub(crate) fn joined_length(text: &[u8]) -> usize
    ensures { result ≡ length (without_outer_blanks (without_breaks text.now)) }
{
    let mut joined = 0;
    let mut without_blanks = 0;
    for line in Lines::new(text) {
        let octets = &text[line.start..line.end];
        let more = if joined == 0 {
            trim_leading_blanks(octets)
        } else {
            octets
        };
        let kept = trim_trailing_blanks(more).len();
        if kept > 0 {
            without_blanks = joined + kept;
        }
        joined += more.len();
    }
    without_blanks
}
