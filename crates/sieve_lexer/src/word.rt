// Runs of bytes of one class.
ghost use Rattle.std.specs.Prelude.{◌≡◌, ◌≤◌, length};
ghost use Rattle.std.specs.Char.{is_ascii_digit};
ghost use Rattle.octets.specs.Blank.{is_blank};
ghost use Rattle.sieve_lexer.specs.Classes.{begins_identifier, continues_identifier};
ghost use Rattle.sieve_lexer.specs.Chain.{IsRun};

// The class of each byte: 1 for letters and `_`, 2 for digits, 0 for all others.
static CLASSES: [u8; 256] = *b"\
    \x00\x00\x00\x00\x00\x00\x00\x00\x00\x00\x00\x00\x00\x00\x00\x00\
    \x00\x00\x00\x00\x00\x00\x00\x00\x00\x00\x00\x00\x00\x00\x00\x00\
    \x00\x00\x00\x00\x00\x00\x00\x00\x00\x00\x00\x00\x00\x00\x00\x00\
    \x02\x02\x02\x02\x02\x02\x02\x02\x02\x02\x00\x00\x00\x00\x00\x00\
    \x00\x01\x01\x01\x01\x01\x01\x01\x01\x01\x01\x01\x01\x01\x01\x01\
    \x01\x01\x01\x01\x01\x01\x01\x01\x01\x01\x01\x00\x00\x00\x00\x01\
    \x00\x01\x01\x01\x01\x01\x01\x01\x01\x01\x01\x01\x01\x01\x01\x01\
    \x01\x01\x01\x01\x01\x01\x01\x01\x01\x01\x01\x00\x00\x00\x00\x00\
    \x00\x00\x00\x00\x00\x00\x00\x00\x00\x00\x00\x00\x00\x00\x00\x00\
    \x00\x00\x00\x00\x00\x00\x00\x00\x00\x00\x00\x00\x00\x00\x00\x00\
    \x00\x00\x00\x00\x00\x00\x00\x00\x00\x00\x00\x00\x00\x00\x00\x00\
    \x00\x00\x00\x00\x00\x00\x00\x00\x00\x00\x00\x00\x00\x00\x00\x00\
    \x00\x00\x00\x00\x00\x00\x00\x00\x00\x00\x00\x00\x00\x00\x00\x00\
    \x00\x00\x00\x00\x00\x00\x00\x00\x00\x00\x00\x00\x00\x00\x00\x00\
    \x00\x00\x00\x00\x00\x00\x00\x00\x00\x00\x00\x00\x00\x00\x00\x00\
    \x00\x00\x00\x00\x00\x00\x00\x00\x00\x00\x00\x00\x00\x00\x00\x00";

/// Returns whether an identifier can begin with the byte: an ASCII letter or `_` (RFC 5228, section 8.1).
pub fn begins_identifier(octet: u8) -> bool
    ensures { result ≡ begins_identifier octet }
{
    CLASSES[octet as usize] == 1
}

/// Returns whether the byte can be in an identifier after the first one: an ASCII letter or digit, or `_`.
pub fn continues_identifier(octet: u8) -> bool
    ensures { result ≡ continues_identifier octet }
{
    CLASSES[octet as usize] != 0
}

// The end of the letters, digits and `_` that begin at this place.
pub fn word_end(script: &[u8], place: usize) -> usize
    requires { place ≤ length script.now }
    ensures { IsRun continues_identifier script.now place result }
{
    let mut end = place;
    while end < script.len() && continues_identifier(script[end]) {
        end += 1;
    }
    end
}

// The end of the decimal digits that begin at this place.
pub fn digits_end(script: &[u8], place: usize) -> usize
    requires { place ≤ length script.now }
    ensures { IsRun is_ascii_digit script.now place result }
{
    let mut end = place;
    while end < script.len() && script[end].is_ascii_digit() {
        end += 1;
    }
    end
}

// The end of the spaces and tabs that begin at this place.
pub fn blanks_end(script: &[u8], place: usize) -> usize
    requires { place ≤ length script.now }
    ensures { IsRun is_blank script.now place result }
{
    let mut end = place;
    while end < script.len() && (script[end] == b' ' || script[end] == b'\t') {
        end += 1;
    }
    end
}
