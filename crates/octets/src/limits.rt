// The limits that several crates keep to; specs/Limits has them all.

/// The largest number of bytes of a string: in a script, after its references are replaced, and in a program.
pub const MAX_STRING: usize = 16_384;

/// The largest number of bytes of a variable's value. A longer value, and a longer capture, is cut to this length.
pub const MAX_VALUE: usize = 4_096;
