// Words, numbers and texts in lines, with a blank between each two.
use itoa::Buffer;
use std::alloc::{AllocError, Global};

/// What is printed. Two answers are the same where they are printed the same. No call that prints fails: whoever reads what is printed
/// learns whether memory was refused for any of it.
#[derive(Drop)]
pub struct Printed {
    lines: Vec<u8>,
    lacks_memory: bool,
}

impl Printed {
    /// Nothing yet.
    pub fn new(alloc: Global) -> Printed {
        Printed {
            lines: Vec::new(alloc),
            lacks_memory: false,
        }
    }

    /// The octets that are printed, if memory was refused for none of them.
    pub fn whole(&self) -> Result<&[u8], AllocError> {
        if self.lacks_memory {
            Err(AllocError)
        } else {
            Ok(&self.lines)
        }
    }

    /// Whether nothing is printed.
    pub fn is_empty(&self) -> bool {
        self.lines.is_empty()
    }

    /// Notes that memory was refused for what is printed.
    pub fn refuse(&mut self) {
        self.lacks_memory = true;
    }

    /// Adds a word.
    pub fn word(&mut self, word: &str) {
        self.octets(word.as_bytes());
    }

    /// Adds the octets of a word.
    pub fn octets(&mut self, word: &[u8]) {
        self.blank();
        self.glue(word);
    }

    /// Adds a number in decimal digits.
    pub fn number(&mut self, number: u64) {
        self.large_number(u128::from(number));
    }

    /// Adds a number in decimal digits.
    pub fn large_number(&mut self, number: u128) {
        self.octets(Buffer::new().format(number).as_bytes());
    }

    /// Adds octets between quotes, those that aren't plain as a backslash and two hexadecimal digits.
    pub fn text(&mut self, text: &[u8]) {
        self.blank();
        self.push(b'"');
        for octet in text {
            self.escaped(*octet);
        }
        self.push(b'"');
    }

    /// Adds octets with no blank before them.
    pub fn glue(&mut self, octets: &[u8]) {
        if self.lines.extend_from_slice(octets).is_err() {
            self.lacks_memory = true;
        }
    }

    // Adds an octet of a text.
    fn escaped(&mut self, octet: u8) {
        match octet {
            b'"' | b'\\' | 0..=31 | 127..=255 => {
                self.push(b'\\');
                self.push(digit(octet / 16));
                self.push(digit(octet % 16));
            }
            plain => self.push(plain),
        }
    }

    // Adds a blank after what stands in the line.
    fn blank(&mut self) {
        match self.lines.last() {
            None | Some(b'\n') => {}
            Some(_) => self.push(b' '),
        }
    }

    fn push(&mut self, octet: u8) {
        if self.lines.push(octet).is_err() {
            self.lacks_memory = true;
        }
    }
}

// A hexadecimal digit, of a number below 16.
fn digit(number: u8) -> u8 {
    match number {
        0..=9 => b'0'.wrapping_add(number),
        _ => b'a'.wrapping_sub(10).wrapping_add(number),
    }
}
