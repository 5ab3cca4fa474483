// Equal texts.
ghost use Rattle.std.specs.Prelude.{◌≡◌, ◌≤◌, ◌<◌, ◌+◌, ◌*◌, ◌^◌, IsTrue, length};
ghost use Rattle.glob_match.specs.Comparison.{is_match};

use crate::comparator::Comparator;
use crate::fold::equal_from_first;

/// Returns whether the value is equal to the key under the comparator (RFC 5228, section 2.7.1), and an estimate of
/// the work.
///
/// The estimate is made from the lengths alone. It is at most the product of the two lengths, each plus 1, and at
/// least the key's length if the texts are equal.
///
/// # Requires
///
/// The product of the lengths, each plus 1, is less than 2^64.
#[inline(always)]
pub fn is(value: &[u8], key: &[u8], comparator: Comparator) -> (bool, u64)
    requires { (length value.now + 1) * (length key.now + 1) < 2 ^ 64 }
    ensures value { result.0 ≡ is_match comparator value.now key.now }
    ensures most { result.1 ≤ (length value.now + 1) * (length key.now + 1) }
    ensures least { IsTrue result.0 → length key.now ≤ result.1 }
{
    if value.len() != key.len() {
        return (false, 0);
    }
    if key.is_empty() {
        return (true, 0);
    }
    let equal = match comparator {
        Comparator::Octet => value == key,
        Comparator::Casemap => equal_from_first(value, key),
    };
    (equal, key.len() as u64)
}
