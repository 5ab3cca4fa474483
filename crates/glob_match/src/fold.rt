// Texts with their letters in upper case, by lanes.
ghost use Rattle.std.specs.Prelude.{◌≡◌, ◌-◌, ◌++◌, ◌≤◌, ◌<◌, length, map, replicate, take};
ghost use Rattle.std.specs.Char.{to_ascii_uppercase};
ghost use Rattle.glob_match.specs.Comparison.{is_match};
ghost use Rattle.glob_match.specs.declared.comparator.Comparator.TheVariants.{Casemap};

use crate::comparator::Comparator;
use octet_lanes::ascii_upper_lanes;

/// How many bytes are folded at once.
pub(crate) const BLOCK: usize = 32;

/// Writes the text with `a` to `z` as `A` to `Z`.
pub(crate) fn fold(text: &[u8], folded: &mut [u8])
    requires { length folded.old ≡ length text.now }
    ensures { folded.new ≡ map to_ascii_uppercase text.now }
{
    let mut place = 0;
    'lanes: while let Some(lanes) = text[place..].first_chunk::<32>() {
        folded[place..place + 32].copy_from_slice(&ascii_upper_lanes(lanes));
        place += 32;
    }
    let rest = &text[place..];
    folded[place..].copy_from_slice(&fold_block(rest)[..rest.len()]);
}

/// Whether texts of the same length are equal with `a` to `z` as `A` to `Z`.
#[inline(never)]
pub(crate) fn equal_folded(value: &[u8], key: &[u8]) -> bool
    requires { length value.now ≡ length key.now }
    ensures { result ≡ is_match Casemap value.now key.now }
{
    let Some(last) = value.last_chunk::<32>() else {
        return value.eq_ignore_ascii_case(key);
    };
    let mut place = 0;
    'lanes: while let Some(lanes) = value[place..].first_chunk::<32>() {
        if !begins_with_block(&key[place..], lanes) {
            return false;
        }
        place += 32;
    }
    // the rest, with bytes that were compared before
    begins_with_block(&key[key.len() - 32..], last)
}

/// The same for texts that aren't empty, most of which differ in their first byte.
#[inline(always)]
pub(crate) fn equal_from_first(value: &[u8], key: &[u8]) -> bool
    requires long { length value.now ≡ length key.now }
    requires some { 0 < length key.now }
    ensures { result ≡ is_match Casemap value.now key.now }
{
    if !Comparator::Casemap.same(value[0], key[0]) {
        return false;
    }
    equal_folded(value, key)
}

#[inline(always)]
fn begins_with_block(text: &[u8], lanes: &[u8; 32]) -> bool
    requires { 32 ≤ length text.now }
    ensures { result ≡ is_match Casemap lanes.now (take 32 text.now) }
{
    match text.first_chunk::<32>() {
        Some(others) => ascii_upper_lanes(lanes) == ascii_upper_lanes(others),
        None => false,
    }
}

// Fewer than 32 bytes and zeros after them, in upper case.
#[inline(always)]
fn fold_block(text: &[u8]) -> [u8; 32]
    requires { length text.now < 32 }
    ensures { result ≡ map to_ascii_uppercase (text.now ++ replicate (32 - length text.now) 0) }
{
    let mut block = [0; 32];
    block[..text.len()].copy_from_slice(text);
    ascii_upper_lanes(&block)
}
