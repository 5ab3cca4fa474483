// Limits of programs, which scripts keep to as well. specs/Limits of the crate `octets` has all limits.

/// The largest number of variables of a program.
pub const MAX_VARIABLES: usize = 128;

/// The largest number of loops that are open at the same time.
pub const MAX_LOOPS: usize = 3;

/// The largest number of strings that the lists of a test have together.
pub const MAX_TEST_STRINGS: usize = 512;

/// The largest number of segments that a string is joined from.
pub const MAX_SEGMENTS: usize = 256;
