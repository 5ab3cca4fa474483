// Which entries have the contents of a message's parts, and which messages an entry's content.
use crate::mails::{MESSAGE, kept_of};
use catalog::{PartEntry, PartIndex, Place};
use sha2::{Digest, Sha256};
use std::alloc::Global;
use std::test::Fail;

// Whether these are the numbers of the places, each with this part.
pub fn are_places(places: &[Place], part: usize, numbers: &[u32]) -> bool {
    places.len() == numbers.len()
        && places.iter().zip(numbers).all(|(place, number)| place.number == *number
            && place.part == part)
}

// Adds a message whose parts have contents with these digests. Gives its entries, if there is memory.
fn added(
    alloc: Global,
    index: &mut PartIndex,
    number: u32,
    digests: &[[u8; 32]],
) -> Option<Vec<Place>> {
    index.add(alloc, number, digests).ok()?;
    index.stored_in(alloc, digests).ok()
}

// Adds a message to an index. Gives its entries, if there is memory.
fn added_of(
    alloc: Global,
    index: &mut PartIndex,
    number: u32,
    octets: &[u8],
) -> Option<Vec<Place>> {
    let kept = kept_of(alloc, number, b"INBOX", octets)?;
    match &kept.outline {
        Some(outline) => added(alloc, index, number, &outline.digests),
        None => None,
    }
}

// Whether a message is added that has entries with these numbers, each at this part.
pub fn is_added(
    alloc: Global,
    index: &mut PartIndex,
    message: (u32, &[u8]),
    part: usize,
    numbers: &[u32],
) -> bool {
    match added_of(alloc, index, message.0, message.1) {
        Some(stored) => are_places(&stored, part, numbers),
        None => false,
    }
}

// Whether two messages with the same content are those of its entry, each with its first part, and no others.
fn are_messages(alloc: Global, index: &mut PartIndex, digest: &[u8; 32]) -> bool {
    is_added(alloc, index, (9, MESSAGE), 1, &[7])
        && is_added(alloc, index, (3, b"x"), 0, &[])
        && is_added(alloc, index, (1, MESSAGE), 1, &[7])
        && are_places(index.messages_with(digest), 1, &[9, 1])
        && are_places(index.messages_with(&[0; 32]), 0, &[])
}

#[test]
fn messages_of_entries(rt: HostRuntime) -> Result<(), Fail> {
    let digest = Sha256::digest(b"one".as_slice());
    let entries = [
        PartEntry {
            number: 5,
            digest: [0; 32],
        },
        PartEntry { number: 7, digest },
    ];
    let mut index = PartIndex::new(rt.alloc(), &entries)?;
    assert!(rt; are_messages(rt.alloc(), &mut index, &digest));
    Ok(())
}
