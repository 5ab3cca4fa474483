// Numbers in rows.
use crate::printed::Printed;

/// The number that decimal digits write; nothing where they are none, or too many.
pub fn number_of(word: &[u8]) -> Option<usize> {
    let mut number: usize = 0;
    for octet in word {
        if !octet.is_ascii_digit() {
            return None;
        }
        let digit = usize::from(octet.wrapping_sub(b'0'));
        number = number.checked_mul(10)?.checked_add(digit)?;
    }
    if word.is_empty() { None } else { Some(number) }
}

/// Adds a number of octets or items, or a place.
pub fn print_size(size: usize, answer: &mut Printed) {
    answer.number(size as u64);
}
