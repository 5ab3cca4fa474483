// The definitions as plain recursions, for what is short.
use glob_match::Comparator;
use glob_match::Comparator::*;

// Whether the octets are equal, written out.
pub fn same(a: u8, b: u8, comparator: Comparator) -> bool {
    match comparator {
        Octet => a == b,
        Casemap => match (a, b) {
            (b'a'..=b'z', _) => b == a || b == a - 32,
            (b'A'..=b'Z', _) => b == a || b == a + 32,
            _ => a == b,
        },
    }
}

// The wildcards' stretches, as far as they are known: start and end of each, and how many there are.
#[derive(Clone, Copy)]
pub struct Stretches {
    pub ends: [(usize, usize); 8],
    pub number: usize,
}

impl Stretches {
    pub fn none() -> Stretches {
        Stretches {
            ends: [(0, 0); 8],
            number: 0,
        }
    }

    fn with(self, start: usize, end: usize) -> Stretches {
        let mut more = self;
        if more.number < 8 {
            more.ends[more.number] = (start, end);
            more.number += 1;
        }
        more
    }
}

// The stretches with which the value from `start` on fits the key, the shortest ones first, after those known.
pub fn least(
    value: &[u8],
    start: usize,
    key: &[u8],
    comparator: Comparator,
    known: Stretches,
) -> Option<Stretches> {
    match key {
        [] => {
            if start == value.len() {
                Some(known)
            } else {
                None
            }
        }
        [b'*', rest @ ..] => {
            for end in start..=value.len() {
                let found = least(value, end, rest, comparator, known.with(start, end));
                if found.is_some() {
                    return found;
                }
            }
            None
        }
        [b'?', rest @ ..] => {
            if start >= value.len() {
                return None;
            }
            least(
                value,
                start + 1,
                rest,
                comparator,
                known.with(start, start + 1),
            )
        }
        [b'\\', octet, rest @ ..] | [octet, rest @ ..] => {
            if start >= value.len() || !same(value[start], *octet, comparator) {
                return None;
            }
            least(value, start + 1, rest, comparator, known)
        }
    }
}

// Whether the value begins with the key.
fn begins_with(value: &[u8], key: &[u8], comparator: Comparator) -> bool {
    match key {
        [] => true,
        [octet, others @ ..] => match value {
            [] => false,
            [first, rest @ ..] => {
                same(*first, *octet, comparator) && begins_with(rest, others, comparator)
            }
        },
    }
}

pub fn contains(value: &[u8], key: &[u8], comparator: Comparator) -> bool {
    if begins_with(value, key, comparator) {
        return true;
    }
    match value {
        [] => false,
        [_, rest @ ..] => contains(rest, key, comparator),
    }
}

pub fn is(value: &[u8], key: &[u8], comparator: Comparator) -> bool {
    value.len() == key.len() && begins_with(value, key, comparator)
}
