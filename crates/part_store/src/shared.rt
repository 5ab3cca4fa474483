//! Which entries of a list have the same content.
ghost use Rattle.std.specs.Prelude.{◌≡◌, ◌≢◌, ◌<◌, ℕ, List, IfSome, length, map, slice_index_or};
ghost use Rattle.part_store.specs.Entries.{Draft};
ghost use Rattle.part_store.specs.Noting.{AreNoted, IsKnown, IsTold, none_shared};
ghost use Rattle.part_store.specs.Sharing.{first_of, octets_at};

use sha2::{Digest, Sha256};

/// What is known about the content of one entry in a list: the first entry that has the same content, and that entry's
/// digest once it is filed. A caller makes one for each entry and passes them to
/// [`crate::PartStore::add_sharing_entries`], which then hashes and looks up each content once.
#[derive(Clone, Copy)]
pub struct Shared {
    first: usize,
    digest: [u8; 32],
}

impl Shared {
    /// Says that this entry has the same content as the entry at the place `first`, counted from 0. For an entry whose
    /// content no earlier one has, `first` is its own place, or any later one.
    pub fn with(first: usize) -> Shared
        ensures { first_of result ≡ first }
    {
        Shared {
            first,
            digest: [0; 32],
        }
    }
}

/// Returns the digest of the bytes of the entry at this place, and whether an earlier entry has the same bytes; then
/// they aren't hashed again. Notes the digest for later entries.
pub(crate) fn digest_at(shared: &mut [Shared], place: usize, octets: &[u8]) -> ([u8; 32], bool)
    ensures { (drafts : List Draft) → AreNoted drafts place shared.old → place < length drafts
        → octets_at drafts place ≡ octets.now
        → IsTold drafts place octets.now shared.new result.0 result.1 }
{
    let known = known_digest(shared, place);
    let digest = match known {
        Some(digest) => digest,
        None => Sha256::digest(octets),
    };
    note_digest(shared, place, &digest);
    (digest, known.is_some())
}

// The digest of an earlier entry that has the same content as the entry at this place.
fn known_digest(shared: &[Shared], place: usize) -> Option<[u8; 32]>
    ensures { IfSome result (IsKnown shared.now place) }
{
    if place >= shared.len() {
        return None;
    }
    let first = shared[place].first;
    if first < place {
        Some(shared[first].digest)
    } else {
        None
    }
}

// Notes the digest of the entry at this place, if the list has that place.
fn note_digest(shared: &mut [Shared], place: usize, digest: &[u8; 32])
    ensures firsts { map first_of shared.new ≡ map first_of shared.old }
    ensures noted { place < length shared.old
        → (slice_index_or shared.new place none_shared).digest ≡ digest.now }
    ensures others { (other : ℕ) → other ≢ place
        → slice_index_or shared.new other none_shared ≡ slice_index_or shared.old other none_shared }
{
    if place < shared.len() {
        shared[place].digest = *digest;
    }
}
