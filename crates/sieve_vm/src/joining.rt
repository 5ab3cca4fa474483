// Texts that are cut and joined.
ghost use Rattle.std.specs.Prelude.{◌≡◌, ◌≤◌, ◌++◌, IfOk, OnOk, length, min, take, sum_by};
ghost use Rattle.std.specs.List.{concat};
ghost use Rattle.octets.specs.Limits.{max_string, max_value};
ghost use Rattle.mail_matching.specs.Texts.{AreTexts};

use mail_matching::Texts;
use octets::{MAX_STRING, MAX_VALUE};
use std::alloc::{AllocError, Global};

/// The first bytes, as many as a variable's value can have.
#[tactic(auto, using(std::proofs::lemmas::List::take_min))]
pub fn first(octets: &[u8]) -> &[u8]
    ensures { result.now ≡ take max_value octets.now }
{
    &octets[..MAX_VALUE.min(octets.len())]
}

/// The first `most` bytes, or all if there are fewer.
#[tactic(auto, using(std::proofs::lemmas::List::take_min))]
pub fn as_many(octets: &[u8], most: usize) -> &[u8]
    ensures { result.now ≡ take most octets.now }
{
    &octets[..most.min(octets.len())]
}

/// How many bytes texts have.
pub fn total_len<T: Texts>(texts: &T) -> usize
    requires { AreTexts (T.texts texts.now) }
    ensures { result ≡ sum_by length (T.texts texts.now) }
{
    let mut total = 0;
    for place in 0..texts.count() {
        total += texts.text(place).len();
    }
    total
}

/// Texts, one after the other, cut to the length of the longest string.
///
/// # Errors
///
/// `AllocError` if memory is refused.
pub fn joined<T: Texts>(alloc: Global, texts: &T) -> Result<Vec<u8>, AllocError>
    requires { AreTexts (T.texts texts.now) }
    ensures { IfOk result (λ octets. octets.items ≡ take max_string (concat (T.texts texts.now))) }
{
    let mut out = Vec::with_capacity(alloc, joined_len(texts))?;
    for place in 0..texts.count() {
        put(&mut out, texts.text(place))?;
    }
    Ok(out)
}

// How many bytes the joined texts have.
fn joined_len<T: Texts>(texts: &T) -> usize
    requires { AreTexts (T.texts texts.now) }
    ensures { result ≡ min (sum_by length (T.texts texts.now)) max_string }
{
    total_len(texts).min(MAX_STRING)
}

// Appends a text, as far as there is room.
fn put(out: &mut Vec<u8>, text: &[u8]) -> Result<(), AllocError>
    requires { length out.old.items ≤ max_string }
    ensures { OnOk result (out.new.items ≡ take max_string (out.old.items ++ text.now)) }
{
    let room = MAX_STRING - out.len();
    out.extend_from_slice(&text[..room.min(text.len())])?;
    Ok(())
}
