// The lines of texts.
ghost use Rattle.std.specs.Prelude.{◌<◌};

use text_lines::Lines;

// Whether the lines of a text are those of a table of starts, ends and stops.
fn has_lines(text: &[u8], want: &[(usize, usize, usize)]) -> bool {
    let mut lines = Lines::new(text);
    for (start, end, stop) in want {
        let Some(line) = lines.next() else {
            return false;
        };
        if line.start != *start || line.end != *end || line.stop != *stop {
            return false;
        }
    }
    lines.next().is_none() && lines.next().is_none()
}

// Whether a line of so many octets is found before a CRLF, and then the last one.
fn is_found_before_a_break(octets: usize) -> bool
    requires { octets < 300 }
{
    let mut text = [b'x'; 305];
    text[octets..octets + 5].copy_from_slice(b"\r\nend");
    let stop = octets + 2;
    has_lines(
        &text[..stop + 3],
        &[(0, octets, stop), (stop, stop + 3, stop + 3)],
    )
}

// Whether one is found behind an empty line, at the end of the text.
fn is_found_at_the_end(octets: usize) -> bool
    requires { octets < 300 }
{
    let mut text = [b'x'; 300];
    text[0] = b'\n';
    let lines = [(0, 0, 1), (1, octets + 1, octets + 1)];
    let count = if octets == 0 { 1 } else { 2 };
    has_lines(&text[..octets + 1], &lines[..count])
}

// Breaks around the places where the search for them goes on by whole vectors.
#[test]
fn lines_of_every_length(rt: HostRuntime) {
    for octets in 0..300usize {
        assert!(rt; is_found_before_a_break(octets), "{octets}");
        assert!(rt; is_found_at_the_end(octets), "{octets}");
    }
}
