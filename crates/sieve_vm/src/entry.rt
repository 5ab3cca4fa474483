// The entries of the stack.
//
// The stack has texts of the program alone. LIT lends a string to the stack, and FILE copies it into the list of
// actions. A folder that is already in the list is copied in vain; each such FILE is charged its length.
use crate::shared_text::SharedText;

/// An entry of the stack. A text isn't copied: entries share it with the variable or the capture that it came from.
#[derive(Drop)]
pub enum Entry<'p> {
    /// A truth value.
    Truth(bool),
    /// A text.
    Text(SharedText<'p>),
}
