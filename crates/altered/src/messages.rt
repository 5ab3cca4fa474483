// Altered messages, read completely, with the content of each part.
use crate::counts::{Counts, with_octet};
use mime_decode::Message;
use std::alloc::{AllocError, Global};

/// Each prefix is read.
pub fn prefixes(alloc: Global, message: &[u8]) -> Counts {
    let mut counts = Counts::new();
    for end in 0..=message.len() {
        counts.take(is_read(alloc, &message[..end]));
    }
    counts
}

/// Each byte set to each value: the message is read.
///
/// # Errors
///
/// `AllocError` if memory is refused.
pub fn one_altered(alloc: Global, message: &[u8]) -> Result<Counts, AllocError> {
    let mut counts = Counts::new();
    for place in 0..message.len() {
        for octet in 0..=255u8 {
            counts.take(is_read(alloc, &with_octet(alloc, message, place, octet)?));
        }
    }
    Ok(counts)
}

// Whether bytes are a message of at least one part, and no part's content is longer than the message.
fn is_read(alloc: Global, octets: &[u8]) -> bool {
    match Message::read(alloc, octets) {
        Ok(message) => message.parts() >= 1 && has_contents(alloc, &message),
        Err(_) => false,
    }
}

fn has_contents(alloc: Global, message: &Message) -> bool {
    for part in 0..message.parts() {
        match message.content(alloc, part) {
            Ok(content) => {
                if content.as_slice().len() > message.size() {
                    return false;
                }
            }
            Err(_) => return false,
        }
    }
    true
}
