// Strict base32 reads a block with more after it at once, and refuses it if it has a stray character. The last block,
// of at most 32 characters, is read, written again and compared, without memory. So strictness is defined by what the
// encoder writes, and needs no time for each block.
ghost use Rattle.std.specs.Prelude.{◌≡◌, ℕ, ◌+◌, ◌*◌, ◌++◌, ◌<◌, ◌≤◌, List, IfErr, IfOk, MatchOption, OnOk, drop, length, take};
ghost use Rattle.octet_lanes.specs.Encoding.{IsOctets, Spells, width};
ghost use Rattle.octet_lanes.specs.declared.alphabet.Alphabet.TheVariants.{Base32, Base32Hex};
ghost use Rattle.lanes_base32.specs.declared.error.Refusal.TheVariants.{NotCanonical};

use crate::error::Refusal;
use octet_lanes::{Alphabet, PADDING, block_octets, block_text, classify, has_stray, join};
use std::alloc::Global;

/// Returns the bytes that a base32 text spells (RFC 4648, section 6): exactly those whose encoding is the text.
///
/// For example, `MZXW6===` is read as `foo`.
///
/// # Errors
///
/// - `Refusal::NotCanonical` if the text spells no bytes: its length isn't a multiple of 8, a character isn't in the
///   alphabet (lower-case letters aren't), the padding is missing or too long, or a bit after the last byte isn't
///   zero.
/// - `Refusal::Memory` if memory is refused.
pub fn decode32(alloc: Global, text: &[u8]) -> Result<Vec<u8>, Refusal>
    ensures octets { IfOk result (λ octets. Spells Base32 text.now octets.items) }
    ensures refused { IfErr result
        (λ e. e ≡ NotCanonical → (octets : List ℕ) → IsOctets octets → Spells Base32 text.now octets
        → ⊥) }
{
    decode(alloc, text, Alphabet::Base32)
}

/// Returns the bytes that a base32hex text spells (RFC 4648, section 7): exactly those whose encoding is the text.
///
/// For example, `CPNMU===` is read as `foo`.
///
/// # Errors
///
/// - `Refusal::NotCanonical` if the text spells no bytes, as for [`decode32`].
/// - `Refusal::Memory` if memory is refused.
pub fn decode32hex(alloc: Global, text: &[u8]) -> Result<Vec<u8>, Refusal>
    ensures octets { IfOk result (λ octets. Spells Base32Hex text.now octets.items) }
    ensures refused { IfErr result
        (λ e. e ≡ NotCanonical → (octets : List ℕ) → IsOctets octets
        → Spells Base32Hex text.now octets → ⊥) }
{
    decode(alloc, text, Alphabet::Base32Hex)
}

// Whole blocks are read as they are, and the last one is written again: a text spells bytes exactly if it is the text
// of the bytes that it reads as.
#[inline(always)]
fn decode(alloc: Global, text: &[u8], alphabet: Alphabet) -> Result<Vec<u8>, Refusal>
    ensures octets { IfOk result (λ octets. Spells alphabet text.now octets.items) }
    ensures refused { IfErr result
        (λ e. e ≡ NotCanonical → (octets : List ℕ) → IsOctets octets
        → Spells alphabet text.now octets → ⊥) }
{
    let mut out = Vec::with_capacity(alloc, octets_len(text, alphabet))?;
    let mut rest = text;
    'whole: while let Some((block, after)) = first_block(rest) {
        append_block(block, alphabet, &mut out)?;
        rest = after;
    }
    append_last(rest, alphabet, &mut out)?;
    Ok(out)
}

// The number of the bytes that a text spells, if it spells any, and at most its own length.
fn octets_len(text: &[u8], alphabet: Alphabet) -> usize
    ensures { result ≤ length text.now }
{
    let symbols = match text.iter().rposition(|octet| *octet != PADDING) {
        Some(last) => last + 1,
        None => 0,
    };
    (symbols / 8)
        .saturating_mul(alphabet.width())
        .saturating_add(symbols % 8 * alphabet.width() / 8)
}

// The first block and the text after it, if there is some.
#[inline(always)]
fn first_block(text: &[u8]) -> Option<(&[u8; 32], &[u8])>
    ensures { MatchOption result (length text.now ≤ 32)
        (λ parts. (parts.0.now ≡ take 32 text.now) × (parts.1.now ≡ drop 32 text.now)
        × (length parts.1.now + 32 ≡ length text.now) × (32 < length text.now)) }
{
    if text.len() <= 32 {
        return None;
    }
    text.split_first_chunk::<32>()
}

// Appends the bytes of a block, in which each character has to be a symbol.
#[inline(always)]
fn append_block(block: &[u8; 32], alphabet: Alphabet, out: &mut Vec<u8>) -> Result<(), Refusal>
    ensures octets { OnOk result
        ((octets : List ℕ) × (out.new.items ≡ out.old.items ++ octets)
        × (length octets ≡ 4 * width alphabet) × Spells alphabet block.now octets) }
    ensures refused { IfErr result
        (λ e. e ≡ NotCanonical → (octets : List ℕ) → length octets ≡ 4 * width alphabet
        → Spells alphabet block.now octets → ⊥) }
{
    let classes = classify(block, alphabet);
    if has_stray(&classes) {
        return Err(Refusal::NotCanonical);
    }
    out.extend_from_slice(&join(&classes, alphabet)[..4 * alphabet.width()])?;
    Ok(())
}

// Appends the bytes of the last block, which can be shorter and padded.
fn append_last(text: &[u8], alphabet: Alphabet, out: &mut Vec<u8>) -> Result<(), Refusal>
    requires { length text.now ≤ 32 }
    ensures octets { OnOk result
        ((octets : List ℕ) × (out.new.items ≡ out.old.items ++ octets)
        × Spells alphabet text.now octets) }
    ensures refused { IfErr result
        (λ e. e ≡ NotCanonical → (octets : List ℕ) → IsOctets octets
        → Spells alphabet text.now octets → ⊥) }
{
    let (octets, n) = block_octets(text, alphabet);
    let octets = &octets[..n];
    let (written, len) = block_text(octets, alphabet);
    if &written[..len] != text {
        return Err(Refusal::NotCanonical);
    }
    out.extend_from_slice(octets)?;
    Ok(())
}
