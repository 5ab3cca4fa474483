//! What is known of entries.

/// An entry, as its line needs it. The caller makes it; its texts are borrowed.
#[derive(Clone, Copy)]
pub struct Entry<'a> {
    /// The number.
    pub number: u32,
    /// The folder, as bytes. It can be empty and hold any bytes.
    pub folder: &'a [u8],
    /// The name, as bytes: a part's name, empty if it has none.
    pub name: &'a [u8],
    /// The media type, as bytes, for example `text/plain`.
    pub media: &'a [u8],
    /// The size of the content in bytes.
    pub octets: u64,
    /// The SHA-256 of the content (FIPS 180-4).
    pub digest: [u8; 32],
}

/// An entry in the list of a user's entries. The caller makes it; its texts are borrowed.
#[derive(Clone, Copy)]
pub struct Listed<'a> {
    /// The number.
    pub number: u32,
    /// The folder, as bytes. It can be empty and hold any bytes.
    pub folder: &'a [u8],
    /// The name, as bytes: a part's name, empty if it has none.
    pub name: &'a [u8],
    /// The media type, as bytes, for example `text/plain`.
    pub media: &'a [u8],
    /// Whether the entry is a message, not a part.
    pub is_message: bool,
}

/// An entry of a part, as [`crate::PartIndex`] needs it. The caller makes it.
#[derive(Clone, Copy, Drop)]
pub struct PartEntry {
    /// The number.
    pub number: u32,
    /// The SHA-256 of the content (FIPS 180-4).
    pub digest: [u8; 32],
}

/// An entry and a part of a message that has to do with it. For a message, `number` is the entry of its part `part`; for
/// a part, `number` is the entry of a message that has it as its part `part`.
#[derive(Clone, Copy, Drop)]
pub struct Place {
    /// The number of the entry.
    pub number: u32,
    /// The number of the part in its message, from 0. Part 0 is the message itself.
    pub part: usize,
}
