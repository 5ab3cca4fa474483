// Values and keys.
use crate::checksum::REFUSED;
use glob_match::{Comparator, contains, is, matches};

/// Whether a value matches a key: with `:is` (0), `:contains` (1) or `:matches` (2, in which the captures count too),
/// and with `i;ascii-casemap` or byte by byte.
#[unsafe(no_mangle)]
pub extern "C" fn bench_match(
    way: u32,
    casemap: bool,
    value: &[u8],
    key: &[u8],
    rounds: u32,
) -> u64 {
    let comparator = if casemap {
        Comparator::Casemap
    } else {
        Comparator::Octet
    };
    let mut sum: u64 = 0;
    for _ in 0..rounds.max(1) {
        match found(way, comparator, value, key) {
            Some(number) => sum = sum.wrapping_add(number),
            None => return REFUSED,
        }
    }
    sum
}

// The number for a match; `None` if value and key are too long together, or there is no such way.
fn found(way: u32, comparator: Comparator, value: &[u8], key: &[u8]) -> Option<u64> {
    let value_len = value.len().checked_add(1)?;
    value_len.checked_mul(key.len().checked_add(1)?)?;
    match way {
        0 => Some(u64::from(is(value, key, comparator).0)),
        1 => Some(u64::from(contains(value, key, comparator).0)),
        2 => Some(match matches(value, key, comparator).0 {
            Some(captures) => captures.stretches().len() as u64,
            None => 0,
        }),
        _ => None,
    }
}
