// How the answers of a batch are written.

/// How the answers of a batch are written. [`crate::first::first_of`] finds it out by the first line.
#[derive(Clone, Copy)]
pub enum Format {
    /// As the lines that the commands print, with a line for the status after each answer.
    Plain,
    /// As JSON objects (RFC 8259), one on a line for each answer.
    Json,
}
