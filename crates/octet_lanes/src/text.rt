// Whole texts.
ghost use Rattle.std.specs.Prelude.{◌≡◌, ◌*◌, ◌++◌, ◌<◌, ◌≤◌, IfOk, OnOk, length, take};
ghost use Rattle.octet_lanes.specs.Encoding.{encoding_of, width};
ghost use Rattle.octet_lanes.specs.Held.{IsGrown};

use crate::alphabet::{Alphabet, PADDING};
use crate::classes::spell;
use crate::groups::split;
use std::alloc::{AllocError, Global};

/// Returns the text of `octets` in `alphabet`, with its padding (RFC 4648, sections 4, 6 and 7).
///
/// # Errors
///
/// `AllocError` if memory is refused.
#[inline(always)]
pub fn encode(alloc: Global, octets: &[u8], alphabet: Alphabet) -> Result<Vec<u8>, AllocError>
    ensures { IfOk result (λ text. text.items ≡ encoding_of alphabet octets.now) }
{
    let quanta = octets.len().div_ceil(alphabet.quantum_octets());
    let mut out = Vec::with_capacity(alloc, quanta.saturating_mul(alphabet.quantum_characters()))?;
    append_encoding(&mut out, octets, alphabet)?;
    Ok(out)
}

/// Appends the text of `octets` in `alphabet`, with its padding (RFC 4648, sections 4, 6 and 7).
///
/// # Errors
///
/// `AllocError` if memory is refused. A part of the text may then be appended; what was in `out` before is unchanged.
#[inline(always)]
pub fn append_encoding(
    out: &mut Vec<u8>,
    octets: &[u8],
    alphabet: Alphabet,
) -> Result<(), AllocError>
    ensures text { OnOk result (out.new.items ≡ out.old.items ++ encoding_of alphabet octets.now) }
    ensures grown { IsGrown out.old.items out.new.items }
{
    let block = 4 * alphabet.width();
    let mut rest = octets;
    'whole: while let Some(lanes) = rest.first_chunk::<32>() {
        append_symbols(out, lanes, alphabet)?;
        let (_, after) = rest.split_at(block);
        rest = after;
    }
    append_rest(out, rest, alphabet)
}

// Appends the text of a whole block, the first `4 * width` bytes.
#[inline(always)]
fn append_symbols(
    out: &mut Vec<u8>,
    octets: &[u8; 32],
    alphabet: Alphabet,
) -> Result<(), AllocError>
    ensures text { OnOk result (out.new.items ≡ out.old.items ++ encoding_of alphabet
        (take (4 * width alphabet) octets.now)) }
    ensures grown { IsGrown out.old.items out.new.items }
{
    out.extend_from_slice(&block_symbols(octets, alphabet))
}

// Appends the text of fewer than 32 bytes, which are at most two blocks.
#[inline(always)]
fn append_rest(out: &mut Vec<u8>, octets: &[u8], alphabet: Alphabet) -> Result<(), AllocError>
    requires { length octets.now < 32 }
    ensures text { OnOk result (out.new.items ≡ out.old.items ++ encoding_of alphabet octets.now) }
    ensures grown { IsGrown out.old.items out.new.items }
{
    let block = 4 * alphabet.width();
    if octets.len() <= block {
        return append_block(out, octets, alphabet);
    }
    let (prefix, back) = octets.split_at(block);
    append_block(out, prefix, alphabet)?;
    append_block(out, back, alphabet)
}

// Appends the text of at most a block of bytes, whose last quantum is padded.
#[inline(always)]
fn append_block(out: &mut Vec<u8>, octets: &[u8], alphabet: Alphabet) -> Result<(), AllocError>
    requires { length octets.now ≤ 4 * width alphabet }
    ensures text { OnOk result (out.new.items ≡ out.old.items ++ encoding_of alphabet octets.now) }
    ensures grown { IsGrown out.old.items out.new.items }
{
    let (text, len) = block_text(octets, alphabet);
    out.extend_from_slice(&text[..len])
}

/// Returns the text of at most a block of bytes, with its padding, and the length of the text.
///
/// # Requires
///
/// There are at most `4 * width` bytes: 24 in base64, 20 in the others.
#[inline(always)]
pub fn block_text(octets: &[u8], alphabet: Alphabet) -> ([u8; 32], usize)
    requires { length octets.now ≤ 4 * width alphabet }
    ensures text { take result.1 result.0 ≡ encoding_of alphabet octets.now }
    ensures len { result.1 ≤ 32 }
{
    let mut lanes = [0; 32];
    lanes[..octets.len()].copy_from_slice(octets);
    let mut text = block_symbols(&lanes, alphabet);
    let symbols = (8 * octets.len()).div_ceil(alphabet.width());
    text[symbols..].fill(PADDING);
    let quanta = octets.len().div_ceil(alphabet.quantum_octets());
    (text, quanta * alphabet.quantum_characters())
}

/// Returns the text of a whole block: of the first `4 * width` bytes. The others are ignored.
#[inline(always)]
pub fn block_symbols(octets: &[u8; 32], alphabet: Alphabet) -> [u8; 32]
    ensures { result ≡ encoding_of alphabet (take (4 * width alphabet) octets.now) }
{
    spell(&split(octets, alphabet), alphabet)
}
