// What a run lends to its caller.

/// An entry of the stack, lent. [`crate::Progress::top`] returns it.
#[derive(Clone, Copy)]
pub enum StackValue<'a> {
    /// A truth value: the answer of a test, or its negation.
    Truth(bool),
    /// A text: a string, or a value of a variable, a capture or joined texts.
    Text(&'a [u8]),
}
