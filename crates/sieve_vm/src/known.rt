// What is known of parts, after it was found.
//
// TAKE keeps the first 4,096 bytes of each part that had to be decoded for the whole run, because three loops can
// visit one part 465 times and its cap has no bytes of the message in it.
ghost use Rattle.std.specs.Prelude.{◌≡◌, ◌<◌, ◌≤◌, ◌==◌, ℕ, Some, None, IfSome, IsNone, OnErr, OnOk, length, slice_index_or, if◌then◌else◌};

use octets::Octets;
use std::alloc::AllocError;

/// What is known of a part. The list is empty as long as nothing is known of any part.
#[inline(always)]
pub fn known<T: Copy>(list: &[Option<T>], part: usize) -> Option<T>
    ensures { result ≡ slice_index_or list.now part None }
{
    match list.get(part) {
        Some(found) => *found,
        None => None,
    }
}

/// The digest that is known of a part.
#[inline(always)]
pub fn digest_known(list: &[Option<[u8; 64]>], part: usize) -> Option<&[u8; 64]>
    ensures some { IfSome result (λ digest. slice_index_or list.now part None ≡ Some digest.now) }
    ensures none { IsNone result → slice_index_or list.now part None ≡ None }
{
    match list.get(part) {
        Some(found) => found.as_ref(),
        None => None,
    }
}

/// The bytes that are known of a part.
pub fn octets_known(list: &[Option<Octets>], part: usize) -> Option<&[u8]>
    ensures some { IfSome result (λ octets. slice_index_or list.now part None ≡ Some octets.now) }
    ensures none { IsNone result → slice_index_or list.now part None ≡ None }
{
    match list.get(part) {
        Some(found) => match found {
            Some(octets) => Some(octets.as_slice()),
            None => None,
        },
        None => None,
    }
}

/// Keeps what was found of one of so many parts.
///
/// # Errors
///
/// `AllocError` if memory is refused. What was known before is unchanged.
pub fn keep<T: Drop>(
    list: &mut Vec<Option<T>>,
    parts: usize,
    part: usize,
    found: T,
) -> Result<(), AllocError>
    requires { part < parts }
    ensures kept { OnOk result ((other : ℕ)
        → slice_index_or list.new.items other None
        ≡ (if other == part then Some found else slice_index_or list.old.items other None)) }
    ensures refused { OnErr result
        ((other : ℕ) → slice_index_or list.new.items other None
        ≡ slice_index_or list.old.items other None) }
{
    widen(list, parts)?;
    list[part] = Some(found);
    Ok(())
}

// Makes room for what is known of so many parts.
fn widen<T: Drop>(list: &mut Vec<Option<T>>, parts: usize) -> Result<(), AllocError>
    ensures same { (other : ℕ) → slice_index_or list.new.items other None
        ≡ slice_index_or list.old.items other None }
    ensures room { OnOk result (parts ≤ length list.new.items) }
{
    'room: while list.len() < parts {
        list.push(None)?;
    }
    Ok(())
}
