// Texts in pieces, with any bytes between their symbols.
ghost use Rattle.std.specs.Prelude.{◌≡◌, ◌≢◌, ◌==◌, ◌||◌, false, ℕ, ◌+◌, ◌-◌, ◌*◌, ◌/◌, ◌++◌, ◌<◌, ◌≤◌, ◌^◌, List, [], IfOk, OnErr, OnOk, drop, length, map, replicate, slice_index, take};
ghost use Rattle.std.specs.List.{All, list_any, position};
ghost use Rattle.octet_lanes.specs.Encoding.{all_bits, before_padding, class_of, contains_padding, left_over, octets_of, padding, quantum, stray, text_bits, values_among, values_of, whole, width};
ghost use Rattle.octet_lanes.specs.Held.{IsGrown, IsHeld, held_bits, kept_bits, taken_bits};
ghost use Rattle.octet_lanes.specs.Private.{IsRead};
ghost use Rattle.octet_lanes.specs.declared.alphabet.Alphabet.{Alphabet};

use crate::alphabet::{Alphabet, PADDING, STRAY};
use crate::classes::{class, classify, has_stray, is_worth_closing, run_len, some_values};
use crate::close::close_up;
use crate::groups::join;
use std::alloc::AllocError;
use std::simd::prelude::*;

/// What a reader keeps of a text between two pieces: the bits of an open quantum that didn't make a whole byte, and
/// whether a `=` has come, after which nothing counts.
///
/// Start with [`Held::new`], give each piece to [`Held::take_in`], and call [`Held::bits_left`] after the last one.
#[derive(Clone, Copy, Drop)]
pub struct Held {
    /// The values of the open quantum, at the start of a block, in the form that [`join`] takes.
    pub values: [u8; 32],
    /// The number of these values. Their whole bytes are already in the output.
    pub n: usize,
    /// Whether a `=` has come.
    pub ended: bool,
}

impl Held {
    /// Returns the state before the first piece.
    pub fn new() -> Held
        ensures held { (alphabet : Alphabet) → IsHeld alphabet result }
        ensures nothing { (alphabet : Alphabet) → kept_bits alphabet result ≡ [] }
        ensures goes_on { result.ended ≡ false }
    {
        Held {
            values: [0; 32],
            n: 0,
            ended: false,
        }
    }

    /// Returns how many bits are kept.
    ///
    /// # Requires
    ///
    /// The reader has been used with this alphabet only: its values belong to a quantum of it (`IsHeld`).
    pub fn bits_left(&self, alphabet: Alphabet) -> u8
        requires { IsHeld alphabet self.now }
        ensures { result ≡ length (kept_bits alphabet self.now) }
    {
        (self.n * alphabet.width() % 8) as u8
    }

    /// Takes in a piece of a text: appends the whole bytes of the bits that are kept and of the piece's bits, and
    /// keeps the bits that are left over. Bytes that aren't symbols are ignored; everything after a `=` is, too.
    ///
    /// # Requires
    ///
    /// The reader has been used with this alphabet only: its values belong to a quantum of it (`IsHeld`).
    ///
    /// # Errors
    ///
    /// `AllocError` if memory is refused. The reader and `out` are then as they were before.
    #[inline(always)]
    pub fn take_in(
        &mut self,
        piece: &[u8],
        alphabet: Alphabet,
        out: &mut Vec<u8>,
    ) -> Result<(), AllocError>
        requires { IsHeld alphabet self.old }
        ensures held { IsHeld alphabet self.new }
        ensures octets { OnOk result (out.new.items ≡ out.old.items ++ octets_of
            (kept_bits alphabet self.old ++ taken_bits alphabet self.old.ended piece.now)) }
        ensures kept { OnOk result (kept_bits alphabet self.new ≡ left_over 8
            (kept_bits alphabet self.old ++ taken_bits alphabet self.old.ended piece.now)) }
        ensures ended { OnOk result (self.new.ended ≡ (self.old.ended
            || contains_padding piece.now)) }
        ensures refused { OnErr result ((out.new.items ≡ out.old.items) × (self.new ≡ self.old)) }
    {
        let before = out.len();
        let mut held = *self;
        if let Err(refused) = held.read(piece, alphabet, out) {
            out.truncate(before);
            return Err(refused);
        }
        *self = held;
        Ok(())
    }

    // Reads a piece; if memory is refused, a part of it.
    #[inline(always)]
    fn read(
        &mut self,
        piece: &[u8],
        alphabet: Alphabet,
        out: &mut Vec<u8>,
    ) -> Result<(), AllocError>
        requires { IsHeld alphabet self.old }
        ensures held { OnOk result (IsHeld alphabet self.new) }
        ensures bits { OnOk result (all_bits 8 out.new.items ++ kept_bits alphabet self.new
            ≡ all_bits 8 out.old.items ++ (kept_bits alphabet self.old
            ++ taken_bits alphabet self.old.ended piece.now)) }
        ensures ended { OnOk result (self.new.ended ≡ (self.old.ended
            || contains_padding piece.now)) }
        ensures grown { IsGrown out.old.items out.new.items }
    {
        let mut rest = after_strays(piece, alphabet);
        'quanta: while !self.ended && !rest.is_empty() {
            // blocks go whole only from a quantum's edge on
            if self.n == 0 {
                rest = append_runs(rest, alphabet, out)?;
            }
            rest = self.append_quantum(rest, alphabet, out)?;
        }
        Ok(())
    }

    // Takes values into the open quantum, whatever stray characters come between them, appends the bytes that they
    // complete, and returns the text after them.
    #[inline(always)]
    fn append_quantum<'a>(
        &mut self,
        text: &'a [u8],
        alphabet: Alphabet,
        out: &mut Vec<u8>,
    ) -> Result<&'a [u8], AllocError>
        requires held { IsHeld alphabet self.old }
        requires goes_on { self.old.ended ≡ false }
        ensures held { OnOk result (IsHeld alphabet self.new) }
        ensures bits { IfOk result (λ rest. all_bits 8 out.new.items ++ (kept_bits alphabet self.new
            ++ taken_bits alphabet self.new.ended rest.now) ≡ all_bits 8 out.old.items
            ++ (kept_bits alphabet self.old ++ text_bits alphabet text.now)) }
        ensures ended { IfOk result (λ rest. (self.new.ended || contains_padding rest.now)
            ≡ contains_padding text.now) }
        ensures shorter { IfOk result (λ rest. length rest.now ≤ length text.now - 1) }
        ensures grown { IsGrown out.old.items out.new.items }
    {
        let given = self.n * alphabet.width() / 8;
        let rest = self.next_quantum(text, alphabet);
        append_values(&self.values, given, self.n, alphabet, out)?;
        if self.n == alphabet.quantum_characters() {
            self.n = 0;
        }
        Ok(rest)
    }

    // Takes values up to a whole quantum, and returns the text after them. There are fewer only if the text or a `=`
    // ends them.
    fn next_quantum<'a>(&mut self, text: &'a [u8], alphabet: Alphabet) -> &'a [u8]
        requires held { IsHeld alphabet self.old }
        requires goes_on { self.old.ended ≡ false }
        ensures few { (length self.new.values ≡ 32) × (self.new.n ≤ quantum alphabet)
            × (self.old.n ≤ self.new.n) }
        ensures small { All (λ value. value < 2 ^ width alphabet) self.new.values }
        ensures bits { held_bits alphabet self.new ++ taken_bits alphabet self.new.ended result.now
            ≡ held_bits alphabet self.old ++ text_bits alphabet text.now }
        ensures ended { (self.new.ended || contains_padding result.now)
            ≡ contains_padding text.now }
        ensures shorter { length result.now ≤ length text.now - 1 }
    {
        let mut rest = text;
        'octets: while self.n < alphabet.quantum_characters() {
            let Some((octet, after)) = rest.split_first() else {
                return rest;
            };
            rest = after;
            if *octet == PADDING {
                self.ended = true;
                return rest;
            }
            let value = class(*octet, alphabet);
            if value != STRAY {
                self.values[self.n] = value;
                self.n += 1;
            }
        }
        rest
    }
}

// The text after the stray characters at its start, up to a `=`. It prevents an empty line from becoming a block.
#[inline(always)]
fn after_strays(text: &[u8], alphabet: Alphabet) -> &[u8]
    ensures bits { text_bits alphabet result.now ≡ text_bits alphabet text.now }
    ensures ended { contains_padding result.now ≡ contains_padding text.now }
{
    let mut rest = text;
    'strays: while let Some((octet, after)) = rest.split_first() {
        if *octet == PADDING || class(*octet, alphabet) != STRAY {
            break;
        }
        rest = after;
    }
    rest
}

// Appends the bytes of whole quanta from the start, a block at a time, and returns the text after them: a quantum
// that the end, a `=` or stray characters interrupt.
#[inline(always)]
fn append_runs<'a>(
    text: &'a [u8],
    alphabet: Alphabet,
    out: &mut Vec<u8>,
) -> Result<&'a [u8], AllocError>
    ensures bits { IfOk result (λ rest. all_bits 8 out.new.items ++ text_bits alphabet rest.now
        ≡ all_bits 8 out.old.items ++ text_bits alphabet text.now) }
    ensures ended { IfOk result (λ rest. contains_padding rest.now ≡ contains_padding text.now) }
    ensures shorter { IfOk result (λ rest. length rest.now ≤ length text.now) }
    ensures grown { IsGrown out.old.items out.new.items }
{
    let mut rest = text;
    'runs: while !rest.is_empty() {
        let read = append_first(rest, alphabet, out)?;
        if read == 0 {
            return Ok(rest);
        }
        let (_, after) = rest.split_at(read);
        rest = after;
    }
    Ok(rest)
}

// Appends the bytes of whole quanta at the start of a text's first block, which padding fills up, and returns where
// they end.
#[inline(always)]
fn append_first(text: &[u8], alphabet: Alphabet, out: &mut Vec<u8>) -> Result<usize, AllocError>
    ensures within { IfOk result (λ end. end ≤ length text.now) }
    ensures read { IfOk result (λ end. IsRead alphabet
        (take end text.now) out.old.items out.new.items) }
    ensures grown { IsGrown out.old.items out.new.items }
{
    match text.first_chunk::<32>() {
        Some(block) => append_block(block, alphabet, out),
        None => append_block(&padded(text), alphabet, out),
    }
}

// At most a block of text, with padding up to a block.
#[inline(always)]
fn padded(text: &[u8]) -> [u8; 32]
    requires { length text.now ≤ 32 }
    ensures { result ≡ text.now ++ drop (length text.now) (replicate 32 padding) }
{
    let mut block = [PADDING; 32];
    block[..text.len()].copy_from_slice(text);
    block
}

// Appends the bytes of whole quanta at the start of a block, and returns where they end.
#[inline(always)]
fn append_block(
    block: &[u8; 32],
    alphabet: Alphabet,
    out: &mut Vec<u8>,
) -> Result<usize, AllocError>
    ensures within { IfOk result (λ end. end ≤ 32) }
    ensures read { IfOk result (λ end. IsRead alphabet
        (take end block.now) out.old.items out.new.items) }
    ensures grown { IsGrown out.old.items out.new.items }
{
    let classes = classify(block, alphabet);
    if !has_stray(&classes) {
        append_values(&classes, 0, 32, alphabet, out)?;
        return Ok(32);
    }
    append_prefix(block, &classes, alphabet, out)
}

// Appends the bytes of whole quanta at the start of a block with stray characters, and returns where they end. Which
// of the two ways it goes changes the time alone.
#[inline(always)]
fn append_prefix(
    block: &[u8; 32],
    classes: &[u8; 32],
    alphabet: Alphabet,
    out: &mut Vec<u8>,
) -> Result<usize, AllocError>
    requires { classes.now ≡ map (class_of alphabet) block.now }
    ensures within { IfOk result (λ end. end ≤ 32) }
    ensures read { IfOk result (λ end. IsRead alphabet
        (take end block.now) out.old.items out.new.items) }
    ensures grown { IsGrown out.old.items out.new.items }
{
    if is_worth_closing(classes, alphabet) && !has_padding(block) {
        return append_closed(block, classes, alphabet, out);
    }
    append_run(block, classes, alphabet, out)
}

// Appends the bytes of the whole quanta at the start of a block, and returns where they and the stray characters after
// them end.
#[inline(always)]
fn append_run(
    block: &[u8; 32],
    classes: &[u8; 32],
    alphabet: Alphabet,
    out: &mut Vec<u8>,
) -> Result<usize, AllocError>
    requires { classes.now ≡ map (class_of alphabet) block.now }
    ensures within { IfOk result (λ end. end ≤ 32) }
    ensures read { IfOk result (λ end. IsRead alphabet
        (take end block.now) out.old.items out.new.items) }
    ensures grown { IsGrown out.old.items out.new.items }
{
    let run = run_len(classes);
    let whole = run - run % alphabet.quantum_characters();
    append_values(&some_values(classes, alphabet), 0, whole, alphabet, out)?;
    if whole < run {
        return Ok(whole);
    }
    Ok(end_of_strays(block, classes, whole))
}

// Where the stray characters from `start` on end, at the first `=` at the latest.
#[inline(always)]
fn end_of_strays(block: &[u8; 32], classes: &[u8; 32], start: usize) -> usize
    requires { start ≤ 32 }
    ensures within { (start ≤ result) × (result ≤ 32) }
    ensures strays { (i : ℕ) → start ≤ i → i < result → (slice_index classes.now i ≡ stray)
        × (slice_index block.now i ≢ padding) }
{
    let mut end = start;
    'strays: while end < 32 && classes[end] == STRAY && block[end] != PADDING {
        end += 1;
    }
    end
}

// Appends the bytes of the whole quanta at the start of a block, whatever stray characters are in them, and returns
// where they end.
#[inline(always)]
fn append_closed(
    block: &[u8; 32],
    classes: &[u8; 32],
    alphabet: Alphabet,
    out: &mut Vec<u8>,
) -> Result<usize, AllocError>
    requires classes { classes.now ≡ map (class_of alphabet) block.now }
    requires free { list_any (λ octet. octet == padding) block.now ≡ false }
    ensures within { IfOk result (λ end. end ≤ 32) }
    ensures read { IfOk result (λ end. IsRead alphabet
        (take end block.now) out.old.items out.new.items) }
    ensures grown { IsGrown out.old.items out.new.items }
{
    let (values, n) = close_up(classes);
    let last = n % alphabet.quantum_characters();
    append_values(&some_values(&values, alphabet), 0, n - last, alphabet, out)?;
    Ok(start_of_last(classes, last))
}

// Where the last `n` values start, with the stray characters between them and after them.
#[inline(always)]
fn start_of_last(classes: &[u8; 32], n: usize) -> usize
    requires { n ≤ length (values_among classes.now) }
    ensures within { result ≤ 32 }
    ensures values { length (values_among (drop result classes.now)) ≡ n }
{
    let mut start = 32;
    let mut left = n;
    'values: while left > 0 {
        start -= 1;
        if classes[start] != STRAY {
            left -= 1;
        }
    }
    start
}

// Appends the whole bytes of the first `n` values, except for the `given` first of them.
#[inline(always)]
fn append_values(
    values: &[u8; 32],
    given: usize,
    n: usize,
    alphabet: Alphabet,
    out: &mut Vec<u8>,
) -> Result<(), AllocError>
    requires few { n ≤ 32 }
    requires given { given ≤ n * width alphabet / 8 }
    requires small { All (λ value. value < 2 ^ width alphabet) values.now }
    ensures bits { OnOk result (all_bits 8 out.new.items ≡ all_bits 8 out.old.items ++ drop
        (given * 8) (whole 8 (all_bits (width alphabet) (take n values.now)))) }
    ensures grown { IsGrown out.old.items out.new.items }
{
    out.extend_from_slice(&join(values, alphabet)[given..n * alphabet.width() / 8])
}

/// Reads at most a block of text: returns the bytes, and their number. They are the bits of the symbols before the
/// first `=`, as whole bytes; bits that are left over are dropped.
///
/// # Requires
///
/// The text has at most 32 bytes.
#[inline(always)]
pub fn block_octets(text: &[u8], alphabet: Alphabet) -> ([u8; 32], usize)
    requires { length text.now ≤ 32 }
    ensures bits { all_bits 8 (take result.1 result.0) ≡ whole 8 (all_bits (width alphabet)
        (values_of alphabet (before_padding text.now))) }
    ensures few { result.1 ≤ 4 * width alphabet }
{
    let block = padded(up_to_padding(text));
    let (values, n) = close_up(&classify(&block, alphabet));
    let octets = join(&some_values(&values, alphabet), alphabet);
    (octets, n * alphabet.width() / 8)
}

#[inline(always)]
fn has_padding(octets: &[u8; 32]) -> bool
    ensures { result ≡ list_any (λ octet. octet == padding) octets.now }
{
    u8x32::from_array(*octets)
        .simd_eq(u8x32::splat(PADDING))
        .to_bitmask()
        != 0
}

// The text before the first `=`.
#[inline(always)]
fn up_to_padding(text: &[u8]) -> &[u8]
    ensures { result.now ≡ before_padding text.now }
{
    match first_padding(text) {
        Some(end) => &text[..end],
        None => text,
    }
}

#[inline(always)]
fn first_padding(text: &[u8]) -> Option<usize>
    ensures { result ≡ position (λ octet. octet == padding) text.now }
{
    text.iter().position(|octet| *octet == PADDING)
}
