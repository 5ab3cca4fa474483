// Which messages have the content of a part entry, and which part entries have that of a part of a message.
//
// An ordered map finds the entries with a digest, and another one the messages that have a part with it. So a part of a
// message takes time in the logarithm of the number of entries, and each pair of an entry and a message that belong
// together takes time in the logarithm of those of the message.
ghost use Rattle.std.specs.Prelude.{◌≡◌, ℕ, List, [], ◌∷◌, ◌++◌, true, bytes_eq, if◌then◌else◌, IfOk, OnOk};
ghost use Rattle.std.specs.BTreeMap.{IsOrdered, get, values};
ghost use Rattle.std.specs.List.{slice_get};
ghost use Rattle.std.specs.Option.{option_and_then};
ghost use Rattle.std.specs.Ordering.{nat_cmp};
ghost use Rattle.catalog.specs.Adding.{at_slots, first_with, is_new, with_slots};
ghost use Rattle.catalog.specs.Index.{IsIndex, found, is_stored, slots_from};
ghost use Rattle.catalog.specs.Stored.{Numbered, messages_with, stored_in, stored_place};
ghost use Rattle.catalog.specs.declared.entry.PartEntry.{PartEntry};

use crate::entry::{PartEntry, Place};
use std::alloc::{AllocError, Global};
use std::collections::BTreeMap;

/// A part entry in an index: its number, and its place in the list of the entries.
#[derive(Clone, Copy, Drop)]
pub struct Slot {
    pub number: u32,
    pub at: usize,
}

/// A user's part entries by the SHA-256 of their contents, and the messages that have a part with one of these contents.
///
/// [`PartIndex::new`] takes the entries, and [`PartIndex::add`] a message. In contracts, `IsIndex` says which entries
/// and which messages it has.
#[derive(Drop)]
pub struct PartIndex {
    pub entries: BTreeMap<[u8; 32], Vec<Slot>>,
    pub messages: BTreeMap<[u8; 32], Vec<Place>>,
}

impl PartIndex {
    /// Returns an index of these entries, and of no messages.
    ///
    /// # Errors
    ///
    /// `AllocError` if memory is refused.
    pub fn new(alloc: Global, entries: &[PartEntry]) -> Result<PartIndex, AllocError>
        ensures { IfOk result (λ index. IsIndex index entries.now []) }
    {
        Ok(PartIndex {
            entries: slots_of(alloc, entries)?,
            messages: BTreeMap::new(alloc),
        })
    }

    /// Returns the entries that have one of the digests of a message's parts, in the order of the entries, each with the
    /// first such part.
    ///
    /// # Errors
    ///
    /// `AllocError` if memory is refused.
    pub fn stored_in(&self, alloc: Global, digests: &[[u8; 32]]) -> Result<Vec<Place>, AllocError>
        ensures { (entries : List PartEntry) (messages : List Numbered)
            → IsIndex self.now entries messages
            → IfOk result (λ stored. stored.items ≡ stored_in digests.now entries) }
    {
        let mut messages = BTreeMap::new(alloc);
        let places = add_digests(alloc, &self.entries, &mut messages, 0, digests)?;
        in_order(alloc, &places)
    }

    /// Adds a message whose entry has this number, and whose parts have contents with these digests, in their order.
    ///
    /// # Errors
    ///
    /// `AllocError` if memory is refused. After that, nothing is known of the index.
    pub fn add(
        &mut self,
        alloc: Global,
        number: u32,
        digests: &[[u8; 32]],
    ) -> Result<(), AllocError>
        ensures { (entries : List PartEntry) (messages : List Numbered)
            → IsIndex self.old entries messages
            → OnOk result (IsIndex self.new entries
            (messages ++ record { number = number; digests = digests.now } ∷ [])) }
    {
        add_digests(alloc, &self.entries, &mut self.messages, number, digests)?;
        Ok(())
    }

    /// Returns the messages that have a part with this content, in the order in which they were added, each with the
    /// first such part. Nothing is promised for a digest that no entry has.
    pub fn messages_with(&self, digest: &[u8; 32]) -> &[Place]
        ensures { (entries : List PartEntry) (messages : List Numbered)
            → IsIndex self.now entries messages
            → is_stored entries digest.now ≡ true
            → result.now ≡ messages_with digest.now messages }
    {
        found(&self.messages, digest)
    }
}

// The entries of each digest.
fn slots_of(
    alloc: Global,
    entries: &[PartEntry],
) -> Result<BTreeMap<[u8; 32], Vec<Slot>>, AllocError>
    ensures { IfOk result (λ slots. (digest : List ℕ)
        → found slots digest ≡ slots_from 0 digest entries.now) }
{
    let mut slots = BTreeMap::new(alloc);
    for at in 0..entries.len() {
        let PartEntry { number, digest } = entries[at];
        put(alloc, &mut slots, digest, Slot { number, at })?;
    }
    Ok(slots)
}

// Adds the parts with these digests, of a message with this number, to the messages with digests of entries. Gives the
// place of each entry that has the content of one of the parts, by its place in the list.
fn add_digests(
    alloc: Global,
    slots: &BTreeMap<[u8; 32], Vec<Slot>>,
    messages: &mut BTreeMap<[u8; 32], Vec<Place>>,
    number: u32,
    digests: &[[u8; 32]],
) -> Result<BTreeMap<usize, Place>, AllocError>
    ensures places { (entries : List PartEntry)
        → ((digest : List ℕ) → found slots.now digest ≡ slots_from 0 digest entries)
        → IfOk result (λ places. (at : ℕ) → get nat_cmp places at
        ≡ option_and_then (stored_place digests.now) (slice_get entries at)) }
    ensures messages { (entries : List PartEntry)
        → ((digest : List ℕ) → found slots.now digest ≡ slots_from 0 digest entries)
        → OnOk result ((digest : List ℕ) → is_stored entries digest ≡ true
        → found messages.new digest
        ≡ found messages.old digest ++ first_with number digests.now digest) }
{
    let mut places = BTreeMap::new(alloc);
    for part in 0..digests.len() {
        if add_part(&mut places, found(slots, &digests[part]), part)? {
            put(alloc, messages, digests[part], Place { number, part })?;
        }
    }
    Ok(places)
}

// Adds these entries with a part that has their content, unless an earlier part has it. Returns whether it added any.
fn add_part(
    places: &mut BTreeMap<usize, Place>,
    slots: &[Slot],
    part: usize,
) -> Result<bool, AllocError>
    ensures new { IfOk result (λ new. new ≡ is_new (get nat_cmp places.old) slots.now) }
    ensures places { OnOk result ((at : ℕ) → get nat_cmp places.new at
        ≡ with_slots part slots.now (get nat_cmp places.old) at) }
{
    match slots.first() {
        Some(first) if !places.contains_key(&first.at) => {
            put_slots(places, slots, part)?;
            Ok(true)
        }
        _ => Ok(false),
    }
}

// Puts each of these entries at its place, with this part.
fn put_slots(
    places: &mut BTreeMap<usize, Place>,
    slots: &[Slot],
    part: usize,
) -> Result<(), AllocError>
    ensures { OnOk result ((at : ℕ) → get nat_cmp places.new at
        ≡ at_slots part slots.now (get nat_cmp places.old) at) }
{
    for slot in slots {
        let number = slot.number;
        places.insert(slot.at, Place { number, part })?;
    }
    Ok(())
}

// The places in the order of the entries.
fn in_order(alloc: Global, places: &BTreeMap<usize, Place>) -> Result<Vec<Place>, AllocError>
    ensures ordered { IsOrdered nat_cmp places.now }
    ensures values { IfOk result (λ list. list.items ≡ values places.now) }
{
    places.values().copied().collect(alloc)
}

// Adds a value to those of a digest.
fn put<V: Drop>(
    alloc: Global,
    values: &mut BTreeMap<[u8; 32], Vec<V>>,
    digest: [u8; 32],
    value: V,
) -> Result<(), AllocError>
    ensures { OnOk result ((other : List ℕ) → found values.new other
        ≡ found values.old other ++ (if bytes_eq digest other then value ∷ [] else [])) }
{
    let mut list = values.remove(&digest).unwrap_or(Vec::new(alloc));
    list.push(value)?;
    values.insert(digest, list)?;
    Ok(())
}

// The values of a digest.
fn found<'m, V>(values: &'m BTreeMap<[u8; 32], Vec<V>>, digest: &[u8; 32]) -> &'m [V]
    ensures { result.now ≡ found values.now digest.now }
{
    match values.get(digest) {
        Some(values) => values.as_slice(),
        None => &[],
    }
}
