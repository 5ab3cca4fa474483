// What is wrong with a listing that is refused.

/// What is wrong at the fault of a listing, which is refused as [`crate::Refusal::Listing`].
#[derive(Clone, Copy, Debug)]
pub enum FaultKind {
    /// A token that isn't allowed there, or the end if there is no token.
    Misplaced,
    /// A label that appears a second time.
    SecondLabel,
    /// A name that isn't a label.
    NoLabel,
    /// The listed program exceeds the limits of programs.
    Limits,
}
