// The places of a line.

/// The places of a line in its text: its bytes go from `start` up to `end`, its break from `end` up to `stop`. Places
/// are counted in bytes from 0.
///
/// [`crate::Lines`] makes it. The break is CRLF or LF; the last line of a text can be without one, and then `stop` is
/// `end`.
#[derive(Clone, Copy)]
pub struct Line {
    /// The place of its first byte.
    pub start: usize,
    /// The place after its last byte, before its break.
    pub end: usize,
    /// The place after its break, where the next line starts.
    pub stop: usize,
}
