// An instruction as it is spelled.

/// One instruction: the byte of its operation and three fields, whose meaning depends on the operation.
///
/// Any values are an instruction. The verifier checks whether they name an operation, and whether the fields are in
/// the operation's ranges.
#[derive(Clone, Copy)]
pub struct Instruction {
    /// The operation's byte; [`Operation::of`](crate::Operation::of) names it.
    pub op: u8,
    /// The field a, of 8 bits.
    pub a: u8,
    /// The field b, of 16 bits.
    pub b: u16,
    /// The field c, of 32 bits: often a place in one of the program's tables, or a jump's target.
    pub c: u32,
}
