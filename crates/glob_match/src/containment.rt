// Texts that contain a key.
ghost use Rattle.std.specs.Prelude.{◌≡◌, ◌≤◌, ◌<◌, ◌+◌, ◌*◌, ◌^◌, IsTrue, length};
ghost use Rattle.glob_match.specs.Containment.{contains_match};

use crate::comparator::Comparator;
use crate::search::find;

/// Returns whether a stretch of the value is equal to the key (RFC 5228, section 2.7.1), and an estimate of the work.
///
/// The estimate is made from the lengths. It is at most the product of the two lengths, each plus 1, and at
/// least the key's length if the key is found.
///
/// # Requires
///
/// The product of the lengths, each plus 1, is less than 2^64.
pub fn contains(value: &[u8], key: &[u8], comparator: Comparator) -> (bool, u64)
    requires { (length value.now + 1) * (length key.now + 1) < 2 ^ 64 }
    ensures value { result.0 ≡ contains_match comparator value.now key.now }
    ensures most { result.1 ≤ (length value.now + 1) * (length key.now + 1) }
    ensures least { IsTrue result.0 → length key.now ≤ result.1 }
{
    let (place, gone_over) = find(value, key, comparator);
    (place.is_some(), gone_over)
}
