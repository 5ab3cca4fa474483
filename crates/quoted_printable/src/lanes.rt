// Bytes that are written as they are, found 32 at a time.
ghost use Rattle.std.specs.Prelude.{◌≡◌, ◌<◌, ◌≤◌, false, true, ℕ, map, slice_index, if◌then◌else◌};
ghost use Rattle.std.specs.Simd.Lanes.{zip2};
ghost use Rattle.octet_lanes.specs.Lanes.{added, if_equal, if_from};
ghost use Rattle.quoted_printable.specs.QuotedPrintable.{stands};

use octet_lanes::{plus, where_equal, where_from};
use std::simd::prelude::*;

/// How many bytes come before the first one that is written with digits. Spaces and tabs count as if others follow.
#[inline(always)]
pub(crate) fn standing_len(octets: &[u8; 32]) -> usize
    ensures few { result ≤ 32 }
    ensures stand { (i : ℕ) → i < result → stands (slice_index octets.now i) false ≡ true }
{
    let written = standing_lanes(u8x32::from_array(*octets))
        .simd_eq(u8x32::splat(0))
        .to_bitmask();
    if written == 0 {
        return 32;
    }
    written.trailing_zeros() as usize
}

// 1 in the lane of each byte that is written as it is, and 0 in the others. 255 is 1 less, modulo 256.
#[inline(always)]
fn standing_lanes(lanes: u8x32) -> u8x32
    ensures { result ≡ map (λ octet. if stands octet false then 1 else 0) lanes }
{
    let graphic = plus(where_from(lanes, 33, 1), where_from(lanes, 127, 255));
    let blank = plus(where_equal(lanes, b' ', 1), where_equal(lanes, b'\t', 1));
    plus(plus(graphic, where_equal(lanes, b'=', 255)), blank)
}
