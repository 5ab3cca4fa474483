//! Entries as callers give and see them.
/// What an entry holds: a whole message, or one of its parts.
#[derive(Clone, Copy, Drop)]
pub enum Kind {
    /// A whole message, as it was delivered.
    Message,
    /// A part of a message, with its content decoded.
    Part,
}

/// An entry to be added. The caller of [`crate::PartStore::add_entries`] makes it; its texts and its content are
/// borrowed, and the store gives it its number.
#[derive(Clone, Copy)]
pub struct NewEntry<'a> {
    /// The folder, as bytes. It can be empty and hold any bytes.
    pub folder: &'a [u8],
    /// Whether the entry is a message or a part.
    pub kind: Kind,
    /// The name, as bytes: a part's name, empty if it has none.
    pub name: &'a [u8],
    /// The media type, as bytes, for example `text/plain`.
    pub media: &'a [u8],
    /// The content: the bytes that [`crate::PartStore::bytes_of`] gives back.
    pub octets: &'a [u8],
}

/// An entry of the store, without its content. Listings return it ([`crate::PartStore::entries_of`]), and so do
/// deliveries; [`crate::PartStore::bytes_of`] reads the content by the number.
#[derive(Drop)]
pub struct EntryRow {
    /// The number, from 1 to 4,294,967,295; each user's entries have numbers of their own. It is never given to another
    /// entry of the user.
    pub number: u32,
    /// Whether the entry is a message or a part.
    pub kind: Kind,
    /// The folder, as bytes.
    pub folder: Vec<u8>,
    /// The name, as bytes: a part's name, empty if it has none.
    pub name: Vec<u8>,
    /// The media type, as bytes.
    pub media: Vec<u8>,
    /// The size of the content in bytes.
    pub octets: u64,
}

/// An entry of the store, without its content and the size of it, in a list that says which entries have the same content
/// ([`crate::PartStore::sharing_entries_of`]).
#[derive(Drop)]
pub struct SharingRow {
    /// The number, as in [`EntryRow`].
    pub number: u32,
    /// Whether the entry is a message or a part.
    pub kind: Kind,
    /// The folder, as bytes.
    pub folder: Vec<u8>,
    /// The name, as bytes: a part's name, empty if it has none.
    pub name: Vec<u8>,
    /// The media type, as bytes.
    pub media: Vec<u8>,
    /// The place in the list, counted from 0, of the first entry that is stored under the same digest. It has the same
    /// content.
    pub first: usize,
}
