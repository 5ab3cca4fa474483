// The cost of an instruction.
//
// The cap of an instruction whose entries are missing is one charge. This isn't observable, because the program is
// refused Stack or before it. So each cap has its bound also in a program that isn't accepted. A cap counts only as
// far as the shape goes, which is everywhere in an accepted program.

/// What an instruction charges at most each time that it runs.
///
/// The verifier adds it to the budget, and a [`crate::Share`] has it for one instruction.
#[derive(Clone, Copy)]
pub struct Cap {
    /// The charges however long the message is.
    pub fixed: u64,
    /// The charges for each byte of the message, and for one more byte.
    pub scaled: u64,
}

/// One charge, however long the message is.
pub const ONE_CHARGE: Cap = Cap {
    fixed: 1,
    scaled: 0,
};
