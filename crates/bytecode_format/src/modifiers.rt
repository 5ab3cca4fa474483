// How a text is changed before it becomes a variable's value.
ghost use Rattle.std.specs.Prelude.{◌≡◌, ◌↔◌, ℕ, true, List, [], ◌∷◌, ◌++◌, take, IfOk, OnOk, IsTrue};
ghost use Rattle.std.specs.Fmt.{decimal};
ghost use Rattle.bytecode_format.specs.Modifiers.{case_number, case_numbered, cased, first_cased, is_quotable, quoted, continues_character, characters, modified, no_modifiers, modifiers_number, modifiers_numbered};

use octets::Octets;
use std::alloc::{AllocError, Global};

/// A case of ASCII letters.
#[derive(Clone, Copy, PartialEq, Eq)]
pub enum Case {
    /// `a` to `z`.
    Lower,
    /// `A` to `Z`.
    Upper,
}

/// The modifiers of a variable's value (RFC 5229, section 4.1), applied in the order of the fields.
///
/// A `set` of a script makes them, an instruction keeps their number, and a run applies them with
/// [`Modifiers::apply`].
#[derive(Clone, Copy, PartialEq, Eq)]
pub struct Modifiers {
    /// The case of all letters: `:lower` or `:upper`.
    pub letters: Option<Case>,
    /// The case of the first byte: `:lowerfirst` or `:upperfirst`.
    pub first: Option<Case>,
    /// A backslash before each asterisk, question mark and backslash: `:quotewildcard`.
    pub quote_wildcard: bool,
    /// The number of characters instead of the text: `:length`.
    pub length: bool,
}

impl Case {
    // A case, if one is named, as two bits.
    fn number(case: Option<Case>) -> u8
        ensures { result ≡ case_number case }
    {
        match case {
            None => 0,
            Some(Case::Lower) => 1,
            Some(Case::Upper) => 2,
        }
    }

    // The case that two bits name, if they name one.
    fn numbered(number: u8) -> Option<Case>
        ensures { result ≡ case_numbered number }
    {
        match number {
            1 => Some(Case::Lower),
            2 => Some(Case::Upper),
            _ => None,
        }
    }

    // The text in a case, if one is named.
    fn written(alloc: Global, case: Option<Case>, text: &[u8]) -> Result<Vec<u8>, AllocError>
        ensures { IfOk result (λ out. out.items ≡ cased case text.now) }
    {
        match case {
            None => text.to_vec(alloc),
            Some(Case::Lower) => text.to_ascii_lowercase(alloc),
            Some(Case::Upper) => text.to_ascii_uppercase(alloc),
        }
    }

    // The byte in a case, if one is named.
    fn of(case: Option<Case>, octet: u8) -> u8
        ensures { result ∷ [] ≡ cased case (octet ∷ []) }
    {
        match case {
            None => octet,
            Some(Case::Lower) => octet.to_ascii_lowercase(),
            Some(Case::Upper) => octet.to_ascii_uppercase(),
        }
    }
}

// Whether the byte has a special meaning in a pattern.
fn is_quotable(octet: u8) -> bool
    ensures { result ≡ is_quotable octet }
{
    octet == b'*' || octet == b'?' || octet == b'\\'
}

// Whether the byte belongs to a UTF-8 character that began before it.
fn continues_character(octet: u8) -> bool
    ensures { result ≡ continues_character octet }
{
    octet >= 0x80 && octet < 0xC0
}

// Appends a byte, if there is room below the limit.
fn put(out: &mut Vec<u8>, octet: u8, limit: usize) -> Result<(), AllocError>
    ensures { OnOk result ((text : List ℕ) → out.old.items ≡ take limit text
        → out.new.items ≡ take limit (text ++ octet ∷ [])) }
{
    if out.len() < limit {
        out.push(octet)?;
    }
    Ok(())
}

// The same with a backslash before it, if the byte has a special meaning in a pattern.
fn put_quoted(out: &mut Vec<u8>, octet: u8, limit: usize) -> Result<(), AllocError>
    ensures { OnOk result ((text : List ℕ) → out.old.items ≡ take limit text
        → out.new.items ≡ take limit (text ++ quoted true (octet ∷ []))) }
{
    if is_quotable(octet) {
        put(out, b'\\', limit)?;
    }
    put(out, octet, limit)
}

// The number in decimal digits, cut to the first `limit`.
fn digits_of(alloc: Global, number: usize, limit: usize) -> Result<Octets, AllocError>
    ensures { IfOk result (λ digits. digits ≡ take limit (decimal number)) }
{
    let mut digits = format!(in alloc; "{number}")?.into_bytes();
    digits.truncate(limit);
    Ok(Octets::from(digits))
}

impl Modifiers {
    /// Returns no modifiers, with which a text stays as it is.
    pub fn none() -> Modifiers
        ensures { result ≡ no_modifiers }
    {
        Modifiers {
            letters: None,
            first: None,
            quote_wildcard: false,
            length: false,
        }
    }

    /// Returns whether there are no modifiers.
    pub fn is_none(self) -> bool
        ensures { IsTrue result ↔ (self ≡ no_modifiers) }
    {
        self == Modifiers::none()
    }

    /// Returns the modifiers that a number means: bits 0 and 1 are 1 for lower case and 2 for upper case of all
    /// letters, bits 2 and 3 the same of the first byte, bit 4 is for backslashes and bit 5 for the count.
    ///
    /// The result is `None` if bits 0 and 1 or bits 2 and 3 are both set, or if bit 6 or 7 is set.
    pub fn of(number: u8) -> Option<Modifiers>
        ensures { result ≡ modifiers_numbered number }
    {
        if number >= 64 || number % 4 == 3 || number / 4 % 4 == 3 {
            return None;
        }
        Some(Modifiers {
            letters: Case::numbered(number % 4),
            first: Case::numbered(number / 4 % 4),
            quote_wildcard: number / 16 % 2 == 1,
            length: number / 32 % 2 == 1,
        })
    }

    /// Returns the number that means the modifiers: 0 to 58.
    pub fn number(self) -> u8
        ensures { result ≡ modifiers_number self }
    {
        Case::number(self.letters)
            + 4 * Case::number(self.first)
            + 16 * u8::from(self.quote_wildcard)
            + 32 * u8::from(self.length)
    }

    /// Returns the modified text, cut to its first `limit` bytes. It takes time linear in the text.
    ///
    /// # Errors
    ///
    /// `AllocError` if memory is refused.
    pub fn apply(self, alloc: Global, text: &[u8], limit: usize) -> Result<Octets, AllocError>
        ensures { IfOk result (λ value. value ≡ take limit (modified self text.now)) }
    {
        if self.length {
            return digits_of(alloc, self.characters(text), limit);
        }
        self.written(alloc, text, limit)
    }

    // The modified text before its characters are counted.
    fn written(self, alloc: Global, text: &[u8], limit: usize) -> Result<Octets, AllocError>
        ensures { IfOk result (λ value. value
            ≡ take limit (quoted self.quote_wildcard
            (first_cased self.first (cased self.letters text.now)))) }
    {
        if self.quote_wildcard {
            return self.quoted(alloc, text, limit);
        }
        let kept = &text[..text.len().min(limit)];
        Ok(Octets::from(self.cased(alloc, kept)?))
    }

    // The text with the case of its letters and of its first byte.
    fn cased(self, alloc: Global, text: &[u8]) -> Result<Vec<u8>, AllocError>
        ensures { IfOk result (λ out. out.items
            ≡ first_cased self.first (cased self.letters text.now)) }
    {
        let mut out = Case::written(alloc, self.letters, text)?;
        if let Some(octet) = out.first_mut() {
            *octet = Case::of(self.first, *octet);
        }
        Ok(out)
    }

    // The same with backslashes, cut to the first `limit` bytes.
    fn quoted(self, alloc: Global, text: &[u8], limit: usize) -> Result<Octets, AllocError>
        ensures { IfOk result (λ value. value
            ≡ take limit (quoted true (first_cased self.first (cased self.letters text.now)))) }
    {
        let mut out = Vec::with_capacity(alloc, (text.len() * 2).min(limit))?;
        let mut first = self.first;
        'text: for octet in text {
            let octet = Case::of(first, Case::of(self.letters, *octet));
            first = None;
            put_quoted(&mut out, octet, limit)?;
        }
        Ok(Octets::from(out))
    }

    // How many characters the text has after the other modifiers.
    fn characters(self, text: &[u8]) -> usize
        ensures { result ≡ characters
            (quoted self.quote_wildcard (first_cased self.first (cased self.letters text.now))) }
    {
        let mut count = 0;
        'text: for octet in text {
            if !continues_character(*octet) {
                count += 1;
            }
            if self.quote_wildcard && is_quotable(*octet) {
                count += 1;
            }
        }
        count
    }
}
