// Bytes written as two hexadecimal digits, after a backslash in a quoted text.
ghost use Rattle.std.specs.Prelude.{◌≡◌, ◌≤◌, length, IfSome, Some, None, if◌then◌else◌};
ghost use Rattle.std.specs.Option.{option_map};
ghost use Rattle.std.specs.Char.{digit_value};
ghost use Rattle.octets.specs.Escapes.{escape_at, is_hex, octet_of_digits, said_at};

/// Returns the byte that two hexadecimal digits of either case write; `None` if one of them isn't a digit.
pub fn octet_of_digits(high: u8, low: u8) -> Option<u8>
    ensures { result ≡ octet_of_digits high low }
{
    let high = hex_value(high)?;
    let low = hex_value(low)?;
    Some(16 * high + low)
}

/// Reads one byte of a quoted text: `octet`, with the text after it in `rest`. Returns the byte that is meant and the
/// text after it.
///
/// A backslash and the two hexadecimal digits after it mean the byte of these digits; every other byte means itself.
/// The result is `None` if a backslash has no two digits after it.
pub fn said_of(octet: u8, rest: &[u8]) -> Option<(u8, &[u8])>
    ensures said { option_map (λ x. (x.0, x.1.now)) result ≡ said_at octet rest.now }
    ensures shorter { IfSome result (λ x. length x.1.now ≤ length rest.now) }
{
    if octet == b'\\' {
        escape_of(rest)
    } else {
        Some((octet, rest))
    }
}

// The byte whose two digits come first, and the text after them.
fn escape_of(octets: &[u8]) -> Option<(u8, &[u8])>
    ensures said { option_map (λ x. (x.0, x.1.now)) result ≡ escape_at octets.now }
    ensures shorter { IfSome result (λ x. length x.1.now ≤ length octets.now) }
{
    let [high, low, rest @ ..] = octets else {
        return None;
    };
    match octet_of_digits(*high, *low) {
        Some(octet) => Some((octet, rest)),
        None => None,
    }
}

// The value of each byte as a hexadecimal digit of either case; 16 if it isn't one.
static VALUES: [u8; 256] = *b"\
    \x10\x10\x10\x10\x10\x10\x10\x10\x10\x10\x10\x10\x10\x10\x10\x10\
    \x10\x10\x10\x10\x10\x10\x10\x10\x10\x10\x10\x10\x10\x10\x10\x10\
    \x10\x10\x10\x10\x10\x10\x10\x10\x10\x10\x10\x10\x10\x10\x10\x10\
    \x00\x01\x02\x03\x04\x05\x06\x07\x08\x09\x10\x10\x10\x10\x10\x10\
    \x10\x0a\x0b\x0c\x0d\x0e\x0f\x10\x10\x10\x10\x10\x10\x10\x10\x10\
    \x10\x10\x10\x10\x10\x10\x10\x10\x10\x10\x10\x10\x10\x10\x10\x10\
    \x10\x0a\x0b\x0c\x0d\x0e\x0f\x10\x10\x10\x10\x10\x10\x10\x10\x10\
    \x10\x10\x10\x10\x10\x10\x10\x10\x10\x10\x10\x10\x10\x10\x10\x10\
    \x10\x10\x10\x10\x10\x10\x10\x10\x10\x10\x10\x10\x10\x10\x10\x10\
    \x10\x10\x10\x10\x10\x10\x10\x10\x10\x10\x10\x10\x10\x10\x10\x10\
    \x10\x10\x10\x10\x10\x10\x10\x10\x10\x10\x10\x10\x10\x10\x10\x10\
    \x10\x10\x10\x10\x10\x10\x10\x10\x10\x10\x10\x10\x10\x10\x10\x10\
    \x10\x10\x10\x10\x10\x10\x10\x10\x10\x10\x10\x10\x10\x10\x10\x10\
    \x10\x10\x10\x10\x10\x10\x10\x10\x10\x10\x10\x10\x10\x10\x10\x10\
    \x10\x10\x10\x10\x10\x10\x10\x10\x10\x10\x10\x10\x10\x10\x10\x10\
    \x10\x10\x10\x10\x10\x10\x10\x10\x10\x10\x10\x10\x10\x10\x10\x10";

// The value of a hexadecimal digit of either case.
fn hex_value(octet: u8) -> Option<u8>
    ensures { result ≡ (if is_hex octet then Some (digit_value octet) else None) }
{
    let value = VALUES[octet as usize];
    if value < 16 { Some(value) } else { None }
}
