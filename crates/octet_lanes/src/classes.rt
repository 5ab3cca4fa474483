// Classes and symbols, each lane by the alphabet's table.
//
// Base64 classes come from three look-ups in tables of 16 instead of five runs of symbols, which makes reading a
// fifth faster.
ghost use Rattle.std.specs.Prelude.{◌≡◌, ◌<◌, ◌%◌, ◌^◌, ◌==◌, map};
ghost use Rattle.std.specs.List.{All, list_any, position_or_len};
ghost use Rattle.octet_lanes.specs.Encoding.{class_of, stray, symbol_of, upper_of, width};
ghost use Rattle.octet_lanes.specs.Private.{in_run};
ghost use Rattle.octet_lanes.specs.declared.alphabet.Alphabet.TheVariants.{Base32, Base32Hex, Base64};

use crate::alphabet::{Alphabet, STRAY};
use crate::operations::{
    both, either, high_halves, less, look_up, low_bits, more, plus, where_below, where_equal,
    where_from,
};
use std::simd::prelude::*;

/// Returns the class of each byte in the alphabet: the value of the symbol, or [`STRAY`] if the byte isn't one.
#[inline(always)]
pub fn classify(octets: &[u8; 32], alphabet: Alphabet) -> [u8; 32]
    ensures { result ≡ map (class_of alphabet) octets.now }
{
    let lanes = u8x32::from_array(*octets);
    let classes = match alphabet {
        Alphabet::Base64 => base64_classes(lanes),
        Alphabet::Base32 => base32_classes(lanes),
        Alphabet::Base32Hex => base32hex_classes(lanes),
    };
    classes.to_array()
}

// `mark` plus the place of each byte in a run of `n` symbols, where `mark` is 1 more than the value of the first; 0
// for bytes outside of the run. The sum of an alphabet's runs is the class plus 1.
#[inline(always)]
fn run(lanes: u8x32, first: u8, n: u8, mark: u8) -> u8x32
    ensures { result ≡ map (in_run first n mark) lanes }
{
    let places = less(lanes, first);
    where_below(places, n, more(places, mark))
}

// The kinds of base64 symbols that have a byte's low four bits, and those that have its high four: 1 for `+` and `/`,
// 2 for the digits, 4 and 8 for letters. A byte is a symbol if the two have a kind in common.
const LOW_KINDS: [u8; 32] = [
    10, 14, 14, 14, 14, 14, 14, 14, 14, 14, 12, 5, 4, 4, 4, 5, 10, 14, 14, 14, 14, 14, 14, 14, 14,
    14, 12, 5, 4, 4, 4, 5,
];

const HIGH_KINDS: [u8; 32] = [
    0, 0, 1, 2, 4, 8, 4, 8, 0, 0, 0, 0, 0, 0, 0, 0, 0, 0, 1, 2, 4, 8, 4, 8, 0, 0, 0, 0, 0, 0, 0, 0,
];

// How much larger the value of a base64 symbol is than its byte (modulo 256), by the high four bits of the byte, and
// by 1 less for `/`.
const STEPS: [u8; 32] = [
    0, 16, 19, 4, 191, 191, 185, 185, 0, 0, 0, 0, 0, 0, 0, 0, 0, 16, 19, 4, 191, 191, 185, 185, 0,
    0, 0, 0, 0, 0, 0, 0,
];

#[inline(always)]
fn base64_classes(lanes: u8x32) -> u8x32
    ensures { result ≡ map (class_of Base64) lanes }
{
    let high = high_halves(lanes);
    let low_kinds = look_up(u8x32::from_array(LOW_KINDS), low_bits(lanes, 0xf));
    let kinds = both(low_kinds, look_up(u8x32::from_array(HIGH_KINDS), high));
    // 255 is 1 less, in the low 8 bits
    let places = plus(high, where_equal(lanes, b'/', 255));
    let values = plus(lanes, look_up(u8x32::from_array(STEPS), places));
    either(values, where_equal(kinds, 0, STRAY))
}

#[inline(always)]
fn base32_classes(lanes: u8x32) -> u8x32
    ensures { result ≡ map (class_of Base32) lanes }
{
    less(plus(run(lanes, b'A', 26, 1), run(lanes, b'2', 6, 27)), 1)
}

#[inline(always)]
fn base32hex_classes(lanes: u8x32) -> u8x32
    ensures { result ≡ map (class_of Base32Hex) lanes }
{
    less(plus(run(lanes, b'0', 10, 1), run(lanes, b'A', 22, 11)), 1)
}

/// Returns whether one of the classes is [`STRAY`].
#[inline(always)]
pub fn has_stray(classes: &[u8; 32]) -> bool
    ensures { result ≡ list_any (λ class. class == stray) classes.now }
{
    u8x32::from_array(*classes)
        .simd_eq(u8x32::splat(STRAY))
        .to_bitmask()
        != 0
}

/// Whether the first stray character interrupts a quantum, or there are so many that runs between them are short.
#[inline(always)]
pub(crate) fn is_worth_closing(classes: &[u8; 32], alphabet: Alphabet) -> bool {
    let strays = u8x32::from_array(*classes)
        .simd_eq(u8x32::splat(STRAY))
        .to_bitmask();
    run_len(classes) % alphabet.quantum_characters() != 0 || strays.count_ones() > 3
}

/// How many classes come before the first stray character.
#[inline(always)]
pub(crate) fn run_len(classes: &[u8; 32]) -> usize
    ensures { result ≡ position_or_len (λ class. class == stray) classes.now }
{
    let strays = u8x32::from_array(*classes)
        .simd_eq(u8x32::splat(STRAY))
        .to_bitmask();
    if strays == 0 {
        return 32;
    }
    strays.trailing_zeros() as usize
}

/// The class of one byte.
#[inline(always)]
pub(crate) fn class(octet: u8, alphabet: Alphabet) -> u8
    ensures { result ≡ class_of alphabet octet }
{
    match alphabet {
        Alphabet::Base64 => BASE64_CLASSES[octet as usize],
        Alphabet::Base32 => BASE32_CLASSES[octet as usize],
        Alphabet::Base32Hex => BASE32HEX_CLASSES[octet as usize],
    }
}

// The class of each byte.
static BASE64_CLASSES: [u8; 256] = [
    255, 255, 255, 255, 255, 255, 255, 255, 255, 255, 255, 255, 255, 255, 255, 255, 255, 255, 255,
    255, 255, 255, 255, 255, 255, 255, 255, 255, 255, 255, 255, 255, 255, 255, 255, 255, 255, 255,
    255, 255, 255, 255, 255, 62, 255, 255, 255, 63, 52, 53, 54, 55, 56, 57, 58, 59, 60, 61, 255,
    255, 255, 255, 255, 255, 255, 0, 1, 2, 3, 4, 5, 6, 7, 8, 9, 10, 11, 12, 13, 14, 15, 16, 17, 18,
    19, 20, 21, 22, 23, 24, 25, 255, 255, 255, 255, 255, 255, 26, 27, 28, 29, 30, 31, 32, 33, 34,
    35, 36, 37, 38, 39, 40, 41, 42, 43, 44, 45, 46, 47, 48, 49, 50, 51, 255, 255, 255, 255, 255,
    255, 255, 255, 255, 255, 255, 255, 255, 255, 255, 255, 255, 255, 255, 255, 255, 255, 255, 255,
    255, 255, 255, 255, 255, 255, 255, 255, 255, 255, 255, 255, 255, 255, 255, 255, 255, 255, 255,
    255, 255, 255, 255, 255, 255, 255, 255, 255, 255, 255, 255, 255, 255, 255, 255, 255, 255, 255,
    255, 255, 255, 255, 255, 255, 255, 255, 255, 255, 255, 255, 255, 255, 255, 255, 255, 255, 255,
    255, 255, 255, 255, 255, 255, 255, 255, 255, 255, 255, 255, 255, 255, 255, 255, 255, 255, 255,
    255, 255, 255, 255, 255, 255, 255, 255, 255, 255, 255, 255, 255, 255, 255, 255, 255, 255, 255,
    255, 255, 255, 255, 255, 255, 255, 255, 255, 255, 255, 255, 255, 255,
];

static BASE32_CLASSES: [u8; 256] = [
    255, 255, 255, 255, 255, 255, 255, 255, 255, 255, 255, 255, 255, 255, 255, 255, 255, 255, 255,
    255, 255, 255, 255, 255, 255, 255, 255, 255, 255, 255, 255, 255, 255, 255, 255, 255, 255, 255,
    255, 255, 255, 255, 255, 255, 255, 255, 255, 255, 255, 255, 26, 27, 28, 29, 30, 31, 255, 255,
    255, 255, 255, 255, 255, 255, 255, 0, 1, 2, 3, 4, 5, 6, 7, 8, 9, 10, 11, 12, 13, 14, 15, 16,
    17, 18, 19, 20, 21, 22, 23, 24, 25, 255, 255, 255, 255, 255, 255, 255, 255, 255, 255, 255, 255,
    255, 255, 255, 255, 255, 255, 255, 255, 255, 255, 255, 255, 255, 255, 255, 255, 255, 255, 255,
    255, 255, 255, 255, 255, 255, 255, 255, 255, 255, 255, 255, 255, 255, 255, 255, 255, 255, 255,
    255, 255, 255, 255, 255, 255, 255, 255, 255, 255, 255, 255, 255, 255, 255, 255, 255, 255, 255,
    255, 255, 255, 255, 255, 255, 255, 255, 255, 255, 255, 255, 255, 255, 255, 255, 255, 255, 255,
    255, 255, 255, 255, 255, 255, 255, 255, 255, 255, 255, 255, 255, 255, 255, 255, 255, 255, 255,
    255, 255, 255, 255, 255, 255, 255, 255, 255, 255, 255, 255, 255, 255, 255, 255, 255, 255, 255,
    255, 255, 255, 255, 255, 255, 255, 255, 255, 255, 255, 255, 255, 255, 255, 255, 255, 255, 255,
    255, 255, 255, 255, 255, 255, 255, 255, 255, 255, 255, 255, 255, 255, 255, 255, 255, 255, 255,
    255,
];

static BASE32HEX_CLASSES: [u8; 256] = [
    255, 255, 255, 255, 255, 255, 255, 255, 255, 255, 255, 255, 255, 255, 255, 255, 255, 255, 255,
    255, 255, 255, 255, 255, 255, 255, 255, 255, 255, 255, 255, 255, 255, 255, 255, 255, 255, 255,
    255, 255, 255, 255, 255, 255, 255, 255, 255, 255, 0, 1, 2, 3, 4, 5, 6, 7, 8, 9, 255, 255, 255,
    255, 255, 255, 255, 10, 11, 12, 13, 14, 15, 16, 17, 18, 19, 20, 21, 22, 23, 24, 25, 26, 27, 28,
    29, 30, 31, 255, 255, 255, 255, 255, 255, 255, 255, 255, 255, 255, 255, 255, 255, 255, 255,
    255, 255, 255, 255, 255, 255, 255, 255, 255, 255, 255, 255, 255, 255, 255, 255, 255, 255, 255,
    255, 255, 255, 255, 255, 255, 255, 255, 255, 255, 255, 255, 255, 255, 255, 255, 255, 255, 255,
    255, 255, 255, 255, 255, 255, 255, 255, 255, 255, 255, 255, 255, 255, 255, 255, 255, 255, 255,
    255, 255, 255, 255, 255, 255, 255, 255, 255, 255, 255, 255, 255, 255, 255, 255, 255, 255, 255,
    255, 255, 255, 255, 255, 255, 255, 255, 255, 255, 255, 255, 255, 255, 255, 255, 255, 255, 255,
    255, 255, 255, 255, 255, 255, 255, 255, 255, 255, 255, 255, 255, 255, 255, 255, 255, 255, 255,
    255, 255, 255, 255, 255, 255, 255, 255, 255, 255, 255, 255, 255, 255, 255, 255, 255, 255, 255,
    255, 255, 255, 255, 255, 255, 255, 255, 255, 255, 255, 255, 255, 255, 255, 255, 255, 255, 255,
    255,
];

/// The values among the classes as they are, and some value instead of each stray class.
#[inline(always)]
pub(crate) fn some_values(classes: &[u8; 32], alphabet: Alphabet) -> [u8; 32]
    ensures { result ≡ map (λ class. class % 2 ^ width alphabet) classes.now }
{
    let lanes = u8x32::from_array(*classes);
    let values = match alphabet {
        Alphabet::Base64 => low_bits(lanes, 0x3f),
        Alphabet::Base32 | Alphabet::Base32Hex => low_bits(lanes, 0x1f),
    };
    values.to_array()
}

/// Returns the symbol of each value in the alphabet.
///
/// # Requires
///
/// Each value is less than 2 to the power of the alphabet's width.
#[inline(always)]
pub fn spell(values: &[u8; 32], alphabet: Alphabet) -> [u8; 32]
    requires { All (λ value. value < 2 ^ width alphabet) values.now }
    ensures { result ≡ map (symbol_of alphabet) values.now }
{
    let lanes = u8x32::from_array(*values);
    let symbols = match alphabet {
        Alphabet::Base64 => base64_symbols(lanes),
        Alphabet::Base32 => base32_symbols(lanes),
        Alphabet::Base32Hex => base32hex_symbols(lanes),
    };
    symbols.to_array()
}

// The symbol is its value plus a number that depends on the run that the value is in (modulo 256).
#[inline(always)]
fn base64_symbols(lanes: u8x32) -> u8x32
    requires { All (λ value. value < 64) lanes }
    ensures { result ≡ map (symbol_of Base64) lanes }
{
    let letters = plus(more(lanes, b'A'), where_from(lanes, 26, 6));
    let digits = plus(where_from(lanes, 52, 181), where_from(lanes, 62, 241));
    plus(plus(letters, digits), where_from(lanes, 63, 3))
}

#[inline(always)]
fn base32_symbols(lanes: u8x32) -> u8x32
    requires { All (λ value. value < 32) lanes }
    ensures { result ≡ map (symbol_of Base32) lanes }
{
    plus(more(lanes, b'A'), where_from(lanes, 26, 215))
}

#[inline(always)]
fn base32hex_symbols(lanes: u8x32) -> u8x32
    requires { All (λ value. value < 32) lanes }
    ensures { result ≡ map (symbol_of Base32Hex) lanes }
{
    plus(more(lanes, b'0'), where_from(lanes, 10, 7))
}

/// Returns each ASCII letter in upper case, and each other byte as it is.
#[inline(always)]
pub fn ascii_upper_lanes(octets: &[u8; 32]) -> [u8; 32]
    ensures { result ≡ map upper_of octets.now }
{
    let lanes = u8x32::from_array(*octets);
    // 224 is 32 less, in the low 8 bits
    let places = less(lanes, b'a');
    plus(lanes, where_below(places, 26, u8x32::splat(224))).to_array()
}
