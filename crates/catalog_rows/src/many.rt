// Many entries and messages.
use crate::index::{are_places, is_added};
use catalog::{PartEntry, PartIndex};
use sha2::{Digest, Sha256};
use std::alloc::{AllocError, Global};
use std::test::Fail;

// 3,000 entries, of which entry n has the content n modulo 1,000.
fn many_entries(alloc: Global) -> Result<Vec<PartEntry>, AllocError> {
    let mut entries = Vec::new(alloc);
    for number in 0..3000_u32 {
        let digest = Sha256::digest((number % 1000).to_le_bytes().as_slice());
        entries.push(PartEntry { number, digest })?;
    }
    Ok(entries)
}

// Whether a message without fields whose content is its number is added, has these entries, and is their only message.
fn is_alone(alloc: Global, index: &mut PartIndex, number: u32, numbers: &[u32]) -> bool {
    let content = number.to_le_bytes();
    let [a, b, c, d] = content;
    is_added(alloc, index, (number, &[b'\n', a, b, c, d]), 0, numbers)
        && are_places(
            index.messages_with(&Sha256::digest(content.as_slice())),
            0,
            &[number],
        )
}

// Whether each of a thousand messages has the three entries with its content.
fn have_three(alloc: Global, index: &mut PartIndex) -> bool {
    for number in 0..1000_u32 {
        if !is_alone(
            alloc,
            index,
            number,
            &[number, number + 1000, number + 2000],
        ) {
            return false;
        }
    }
    true
}

#[test]
fn many_messages(rt: HostRuntime) -> Result<(), Fail> {
    let entries = many_entries(rt.alloc())?;
    let mut index = PartIndex::new(rt.alloc(), &entries)?;
    assert!(rt; have_three(rt.alloc(), &mut index));
    Ok(())
}
