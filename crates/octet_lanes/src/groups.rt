// Bytes as groups of bits, and back. A lane with a number of two groups becomes two lanes with one group each, and so
// on.
ghost use Rattle.std.specs.Prelude.{◌≡◌, ◌+◌, ◌*◌, ◌<◌, ◌≤◌, ◌^◌, map, take};
ghost use Rattle.std.specs.List.{All, flat_map};
ghost use Rattle.std.specs.Simd.Lanes.{Each1};
ghost use Rattle.octet_lanes.specs.Encoding.{all_bits, width};
ghost use Rattle.octet_lanes.specs.Private.{halves_of, parts_of, whole_of};
ghost use Rattle.octet_lanes.specs.declared.alphabet.Alphabet.TheVariants.{Base32, Base32Hex, Base64};

use crate::alphabet::Alphabet;
use std::simd::prelude::*;

/// Returns the bits of the first `4 * width` bytes as 32 groups of the alphabet's width. The first bits are the
/// highest of the first group.
#[inline(always)]
pub fn split(octets: &[u8; 32], alphabet: Alphabet) -> [u8; 32]
    ensures bits { all_bits (width alphabet) result ≡ all_bits 8
        (take (4 * width alphabet) octets.now) }
    ensures groups { All (λ group. group < 2 ^ width alphabet) result }
{
    let lanes = u8x32::from_array(*octets);
    let groups = match alphabet {
        Alphabet::Base64 => split_16(split_32(sextet_quanta(lanes), 12, 0xfff), 6, 0x3f),
        Alphabet::Base32 | Alphabet::Base32Hex => {
            let halves = split_64(quintet_quanta(lanes), 20, 0xf_ffff);
            split_16(split_32(halves, 10, 0x3ff), 5, 0x1f)
        }
    };
    groups.to_array()
}

// Each three bytes, the first one highest.
#[inline(always)]
fn sextet_quanta(octets: u8x32) -> u32x8
    ensures bits { all_bits 24 result ≡ all_bits 8 (take 24 octets) }
    ensures small { Each1 (λ quantum. quantum < 2 ^ 24) result }
{
    u32x8::from_le_bytes(octets.shuffle(
        u8x32::splat(0),
        [
            2, 1, 0, 32, 5, 4, 3, 32, 8, 7, 6, 32, 11, 10, 9, 32, 14, 13, 12, 32, 17, 16, 15, 32,
            20, 19, 18, 32, 23, 22, 21, 32,
        ],
    ))
}

// Each five bytes, the first one highest.
#[inline(always)]
fn quintet_quanta(octets: u8x32) -> u64x4
    ensures bits { all_bits 40 result ≡ all_bits 8 (take 20 octets) }
    ensures small { Each1 (λ quantum. quantum < 2 ^ 40) result }
{
    u64x4::from_le_bytes(octets.shuffle(
        u8x32::splat(0),
        [
            4, 3, 2, 1, 0, 32, 32, 32, 9, 8, 7, 6, 5, 32, 32, 32, 14, 13, 12, 11, 10, 32, 32, 32,
            19, 18, 17, 16, 15, 32, 32, 32,
        ],
    ))
}

// Each lane's number of two groups of `width` bits, as two lanes of a group each.
#[inline(always)]
fn split_64(lanes: u64x4, width: u64, mask: u64) -> u32x8
    requires width { width ≤ 32 }
    requires mask { mask + 1 ≡ 2 ^ width }
    requires small { Each1 (λ number. number < 2 ^ (width + width)) lanes }
    ensures bits { all_bits width result ≡ all_bits (width + width) lanes }
    ensures small { Each1 (λ group. group < 2 ^ width) result }
{
    parts_64(halves_64(lanes, width, mask))
}

#[inline(always)]
fn split_32(lanes: u32x8, width: u32, mask: u32) -> u16x16
    requires width { width ≤ 16 }
    requires mask { mask + 1 ≡ 2 ^ width }
    requires small { Each1 (λ number. number < 2 ^ (width + width)) lanes }
    ensures bits { all_bits width result ≡ all_bits (width + width) lanes }
    ensures small { Each1 (λ group. group < 2 ^ width) result }
{
    parts_32(halves_32(lanes, width, mask))
}

#[inline(always)]
fn split_16(lanes: u16x16, width: u16, mask: u16) -> u8x32
    requires width { width ≤ 8 }
    requires mask { mask + 1 ≡ 2 ^ width }
    requires small { Each1 (λ number. number < 2 ^ (width + width)) lanes }
    ensures bits { all_bits width result ≡ all_bits (width + width) lanes }
    ensures small { Each1 (λ group. group < 2 ^ width) result }
{
    parts_16(halves_16(lanes, width, mask))
}

// The two groups in two halves of the lane, the first one in the low half.
#[inline(always)]
fn halves_64(lanes: u64x4, width: u64, mask: u64) -> u64x4
    requires width { width ≤ 32 }
    requires mask { mask + 1 ≡ 2 ^ width }
    requires small { Each1 (λ number. number < 2 ^ (width + width)) lanes }
    ensures { result ≡ map (halves_of width 32) lanes }
{
    let first = lanes >> u64x4::splat(width);
    let second = lanes & u64x4::splat(mask);
    first + (second << u64x4::splat(32))
}

#[inline(always)]
fn halves_32(lanes: u32x8, width: u32, mask: u32) -> u32x8
    requires width { width ≤ 16 }
    requires mask { mask + 1 ≡ 2 ^ width }
    requires small { Each1 (λ number. number < 2 ^ (width + width)) lanes }
    ensures { result ≡ map (halves_of width 16) lanes }
{
    let first = lanes >> u32x8::splat(width);
    let second = lanes & u32x8::splat(mask);
    first + (second << u32x8::splat(16))
}

#[inline(always)]
fn halves_16(lanes: u16x16, width: u16, mask: u16) -> u16x16
    requires width { width ≤ 8 }
    requires mask { mask + 1 ≡ 2 ^ width }
    requires small { Each1 (λ number. number < 2 ^ (width + width)) lanes }
    ensures { result ≡ map (halves_of width 8) lanes }
{
    let first = lanes >> u16x16::splat(width);
    let second = lanes & u16x16::splat(mask);
    first + (second << u16x16::splat(8))
}

// The two halves of each lane, the low one first.
#[inline(always)]
fn parts_64(lanes: u64x4) -> u32x8
    ensures { result ≡ flat_map (parts_of 32) lanes }
{
    u32x8::from_le_bytes(lanes.to_le_bytes())
}

#[inline(always)]
fn parts_32(lanes: u32x8) -> u16x16
    ensures { result ≡ flat_map (parts_of 16) lanes }
{
    u16x16::from_le_bytes(lanes.to_le_bytes())
}

#[inline(always)]
fn parts_16(lanes: u16x16) -> u8x32
    ensures { result ≡ flat_map (parts_of 8) lanes }
{
    lanes.to_le_bytes()
}

/// Returns the bits of 32 groups as bytes. The first `4 * width` bytes of the result have the bits; the others mean
/// nothing.
///
/// # Requires
///
/// Each group is less than 2 to the power of the alphabet's width.
#[inline(always)]
pub fn join(groups: &[u8; 32], alphabet: Alphabet) -> [u8; 32]
    requires { All (λ group. group < 2 ^ width alphabet) groups.now }
    ensures { all_bits 8 (take (4 * width alphabet) result) ≡ all_bits (width alphabet) groups.now }
{
    let lanes = u8x32::from_array(*groups);
    let octets = match alphabet {
        Alphabet::Base64 => sextet_octets(join_32(join_16(lanes, 6), 12)),
        Alphabet::Base32 | Alphabet::Base32Hex => quintet_octets(join_64(
            join_32(join_16(lanes, 5), 10),
            20,
        )),
    };
    octets.to_array()
}

// Each two groups of `width` bits as one number, the first one highest.
#[inline(always)]
fn join_16(lanes: u8x32, width: u16) -> u16x16
    requires width { width ≤ 8 }
    requires small { Each1 (λ group. group < 2 ^ width) lanes }
    ensures bits { all_bits (width + width) result ≡ all_bits width lanes }
    ensures small { Each1 (λ number. number < 2 ^ (width + width)) result }
{
    wholes_16(pairs_16(lanes), width)
}

#[inline(always)]
fn join_32(lanes: u16x16, width: u32) -> u32x8
    requires width { width ≤ 16 }
    requires small { Each1 (λ group. group < 2 ^ width) lanes }
    ensures bits { all_bits (width + width) result ≡ all_bits width lanes }
    ensures small { Each1 (λ number. number < 2 ^ (width + width)) result }
{
    wholes_32(pairs_32(lanes), width)
}

#[inline(always)]
fn join_64(lanes: u32x8, width: u64) -> u64x4
    requires width { width ≤ 32 }
    requires small { Each1 (λ group. group < 2 ^ width) lanes }
    ensures bits { all_bits (width + width) result ≡ all_bits width lanes }
    ensures small { Each1 (λ number. number < 2 ^ (width + width)) result }
{
    wholes_64(pairs_64(lanes), width)
}

// Each two lanes as one, the first one in the low half.
#[inline(always)]
fn pairs_16(lanes: u8x32) -> u16x16
    ensures { flat_map (parts_of 8) result ≡ lanes }
{
    u16x16::from_le_bytes(lanes)
}

#[inline(always)]
fn pairs_32(lanes: u16x16) -> u32x8
    ensures { flat_map (parts_of 16) result ≡ lanes }
{
    u32x8::from_le_bytes(lanes.to_le_bytes())
}

#[inline(always)]
fn pairs_64(lanes: u32x8) -> u64x4
    ensures { flat_map (parts_of 32) result ≡ lanes }
{
    u64x4::from_le_bytes(lanes.to_le_bytes())
}

// The two groups of each lane as one number. The first group is in the low half.
#[inline(always)]
fn wholes_16(lanes: u16x16, width: u16) -> u16x16
    requires width { width ≤ 8 }
    requires small { Each1 (λ group. group < 2 ^ width) (flat_map (parts_of 8) lanes) }
    ensures { result ≡ map (whole_of width 8) lanes }
{
    let first = lanes & u16x16::splat(0xff);
    let second = lanes >> u16x16::splat(8);
    (first << u16x16::splat(width)) + second
}

#[inline(always)]
fn wholes_32(lanes: u32x8, width: u32) -> u32x8
    requires width { width ≤ 16 }
    requires small { Each1 (λ group. group < 2 ^ width) (flat_map (parts_of 16) lanes) }
    ensures { result ≡ map (whole_of width 16) lanes }
{
    let first = lanes & u32x8::splat(0xffff);
    let second = lanes >> u32x8::splat(16);
    (first << u32x8::splat(width)) + second
}

#[inline(always)]
fn wholes_64(lanes: u64x4, width: u64) -> u64x4
    requires width { width ≤ 32 }
    requires small { Each1 (λ group. group < 2 ^ width) (flat_map (parts_of 32) lanes) }
    ensures { result ≡ map (whole_of width 32) lanes }
{
    let first = lanes & u64x4::splat(0xffff_ffff);
    let second = lanes >> u64x4::splat(32);
    (first << u64x4::splat(width)) + second
}

// The three bytes of each quantum, from the first on.
#[inline(always)]
fn sextet_octets(quanta: u32x8) -> u8x32
    requires { Each1 (λ quantum. quantum < 2 ^ 24) quanta }
    ensures { all_bits 8 (take 24 result) ≡ all_bits 24 quanta }
{
    quanta.to_le_bytes().swizzle([
        2, 1, 0, 6, 5, 4, 10, 9, 8, 14, 13, 12, 18, 17, 16, 22, 21, 20, 26, 25, 24, 30, 29, 28, 3,
        3, 3, 3, 3, 3, 3, 3,
    ])
}

// The five bytes of each quantum, from the first on.
#[inline(always)]
fn quintet_octets(quanta: u64x4) -> u8x32
    requires { Each1 (λ quantum. quantum < 2 ^ 40) quanta }
    ensures { all_bits 8 (take 20 result) ≡ all_bits 40 quanta }
{
    quanta.to_le_bytes().swizzle([
        4, 3, 2, 1, 0, 12, 11, 10, 9, 8, 20, 19, 18, 17, 16, 28, 27, 26, 25, 24, 5, 5, 5, 5, 5, 5,
        5, 5, 5, 5, 5, 5,
    ])
}
