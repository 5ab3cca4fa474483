// Numbers that represent answers.

/// What a job returns if a call was refused.
pub const REFUSED: u64 = u64::MAX;

/// A number to which each byte contributes with its place.
pub fn checksum(octets: &[u8]) -> u64 {
    let mut sum: u64 = 7;
    for octet in octets {
        sum = sum.wrapping_mul(31).wrapping_add(u64::from(*octet));
    }
    sum
}

/// The number for some bytes: their checksum if there are no rounds to be timed, otherwise their length.
pub fn told(octets: &[u8], rounds: u32) -> u64 {
    if rounds == 0 {
        checksum(octets)
    } else {
        octets.len() as u64
    }
}
