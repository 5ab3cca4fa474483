// Altered scripts, checked.
use crate::counts::{Counts, with_octet};
use sieve_engine::check_script;
use std::alloc::{AllocError, Global};

/// Each prefix is a script, or is refused as a script.
pub fn prefixes(alloc: Global, script: &[u8]) -> Counts {
    let mut counts = Counts::new();
    for end in 0..=script.len() {
        check(alloc, &script[..end], &mut counts);
    }
    counts
}

/// Each byte set to each value: the same.
///
/// # Errors
///
/// `AllocError` if memory is refused.
pub fn one_altered(alloc: Global, script: &[u8]) -> Result<Counts, AllocError> {
    let mut counts = Counts::new();
    for place in 0..script.len() {
        for octet in 0..=255u8 {
            check(
                alloc,
                &with_octet(alloc, script, place, octet)?,
                &mut counts,
            );
        }
    }
    Ok(counts)
}

fn check(alloc: Global, script: &[u8], counts: &mut Counts) {
    match check_script(alloc, script) {
        Ok(_) => counts.take(true),
        Err(refusal) => counts.refuse((11..=19).contains(&refusal.number())),
    }
}
