// The vector operations that the kernels consist of, lane by lane.
ghost use Rattle.std.specs.Prelude.{◌≡◌, ◌<◌, ◌/◌, bit_and, bit_or, drop, map, slice_index, take};
ghost use Rattle.std.specs.Simd.Lanes.{Each1, zip2};
ghost use Rattle.octet_lanes.specs.Lanes.{added, if_equal, if_from};
ghost use Rattle.octet_lanes.specs.Private.{if_below, taken};

use std::simd::prelude::*;

/// Returns the sums, lane by lane, modulo 256.
#[inline(always)]
pub fn plus(a: u8x32, b: u8x32) -> u8x32
    ensures { result ≡ zip2 added a b }
{
    a + b
}

#[inline(always)]
pub(crate) fn more(lanes: u8x32, n: u8) -> u8x32
    ensures { result ≡ map (λ x. added x n) lanes }
{
    lanes + u8x32::splat(n)
}

#[inline(always)]
pub(crate) fn less(lanes: u8x32, n: u8) -> u8x32
    ensures { result ≡ map (taken n) lanes }
{
    lanes - u8x32::splat(n)
}

// `numbers` in the lanes below `n`, and 0 in the others.
#[inline(always)]
pub(crate) fn where_below(lanes: u8x32, n: u8, numbers: u8x32) -> u8x32
    ensures { result ≡ zip2 (if_below n) lanes numbers }
{
    lanes
        .simd_lt(u8x32::splat(n))
        .select(numbers, u8x32::splat(0))
}

/// Returns `number` in the lanes that are at least `n`, and 0 in the others.
#[inline(always)]
pub fn where_from(lanes: u8x32, n: u8, number: u8) -> u8x32
    ensures { result ≡ map (if_from n number) lanes }
{
    lanes
        .simd_ge(u8x32::splat(n))
        .select(u8x32::splat(number), u8x32::splat(0))
}

/// Returns `number` in the lanes that are equal to `n`, and 0 in the others.
#[inline(always)]
pub fn where_equal(lanes: u8x32, n: u8, number: u8) -> u8x32
    ensures { result ≡ map (if_equal n number) lanes }
{
    lanes
        .simd_eq(u8x32::splat(n))
        .select(u8x32::splat(number), u8x32::splat(0))
}

#[inline(always)]
pub(crate) fn both(a: u8x32, b: u8x32) -> u8x32
    ensures { result ≡ zip2 bit_and a b }
{
    a & b
}

#[inline(always)]
pub(crate) fn either(a: u8x32, b: u8x32) -> u8x32
    ensures { result ≡ zip2 bit_or a b }
{
    a | b
}

// The high four bits of each lane.
#[inline(always)]
pub(crate) fn high_halves(lanes: u8x32) -> u8x32
    ensures { result ≡ map (λ x. x / 16) lanes }
{
    lanes >> u8x32::splat(4)
}

// The entry at each place of a table with 16 entries. The table is there twice, because each 16 lanes look up in
// their own.
#[inline(always)]
pub(crate) fn look_up(table: u8x32, places: u8x32) -> u8x32
    requires twice { take 16 table ≡ drop 16 table }
    requires places { Each1 (λ place. place < 16) places }
    ensures { result ≡ map (λ place. slice_index table place) places }
{
    table.swizzle_dyn_within::<16>(places)
}

#[inline(always)]
pub(crate) fn low_bits(lanes: u8x32, mask: u8) -> u8x32
    ensures { result ≡ map (λ x. bit_and x mask) lanes }
{
    lanes & u8x32::splat(mask)
}
