// How the members of a series were answered.
use itoa::Buffer;
use std::alloc::{AllocError, Global};

/// How many were refused with a number that is allowed for them, how many were accepted, and how many were answered in
/// any other way. Each series of changes makes one.
#[derive(Clone, Copy)]
pub struct Counts {
    /// Refused with a number that is allowed.
    pub refused: u64,
    /// Accepted, with an answer that is allowed.
    pub taken: u64,
    /// Answered in any other way.
    pub other: u64,
}

impl Counts {
    /// Counts that are all 0.
    pub fn new() -> Counts {
        Counts {
            refused: 0,
            taken: 0,
            other: 0,
        }
    }

    /// Counts one that was refused, with a number that is allowed for it or with another.
    pub fn refuse(&mut self, expected: bool) {
        if expected {
            self.refused = self.refused.wrapping_add(1);
        } else {
            self.other = self.other.wrapping_add(1);
        }
    }

    /// Counts one that was accepted, with an answer that is allowed for it or with another.
    pub fn take(&mut self, expected: bool) {
        if expected {
            self.taken = self.taken.wrapping_add(1);
        } else {
            self.other = self.other.wrapping_add(1);
        }
    }

    /// The line of a series.
    ///
    /// # Errors
    ///
    /// `AllocError` if memory is refused.
    pub fn line(&self, alloc: Global, name: &str, series: &str) -> Result<String, AllocError> {
        let mut line = String::new(alloc);
        line.push_str(name)?;
        line.push_str(", ")?;
        line.push_str(series)?;
        line.push_str(": ")?;
        line.push_str(Buffer::new().format(self.refused))?;
        line.push_str(" refused, ")?;
        line.push_str(Buffer::new().format(self.taken))?;
        line.push_str(" taken, ")?;
        line.push_str(Buffer::new().format(self.other))?;
        line.push_str(" otherwise\n")?;
        Ok(line)
    }
}

/// A copy with another byte at a place.
///
/// # Errors
///
/// `AllocError` if memory is refused.
pub fn with_octet(
    alloc: Global,
    octets: &[u8],
    place: usize,
    octet: u8,
) -> Result<Vec<u8>, AllocError> {
    let mut altered = octets.to_vec(alloc)?;
    if place < altered.len() {
        altered[place] = octet;
    }
    Ok(altered)
}
