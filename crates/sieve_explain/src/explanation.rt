// A refusal in words.

use refusals::Refusal;

/// The refusal of a script, and its description. [`crate::explain`] makes it; `depot explain` prints the text and then
/// the refusal.
#[derive(Drop)]
pub struct Explanation {
    /// Why the script is refused; never `Memory`.
    pub refusal: Refusal,
    /// The lines that describe it, with their line breaks.
    pub text: Vec<u8>,
}
