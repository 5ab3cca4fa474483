// The items of a listing, one at a time: each reader gives what it read and what is left after it.
ghost use Rattle.std.specs.Prelude.{◌≡◌, ℕ, List, ◌+◌, ◌*◌, ◌-◌, ◌^◌, ◌&&◌, ◌≤◌, ◌<◌, IfOk, Some, None, if◌then◌else◌, codes};
ghost use Rattle.std.specs.Char.{is_ascii_digit};
ghost use Rattle.bytecode_listing.specs.Tokens.{tokens_of};
ghost use Rattle.bytecode_listing.specs.Items.{keyword_at, field_number, number_at, is_within, value_from, octet_in, octet_at, operation_at, field_at, round_at, fields_at, a_value, a_field, a_at, keys_after, counts_at, counted_at, name_at, target_at, target_field, c_at, place_at, max_count, draft_at, label_at, line_at, number_item, string_item};
ghost use Rattle.bytecode_listing.specs.Labels.{count};
ghost use Rattle.bytecode_listing.specs.declared.drafts.Line.{Line};
ghost use Rattle.bytecode_listing.specs.Readers.{Gives, and_rest, with_rest, read_fields, one_more, decimal_on};

use crate::drafts::{Draft, Line, Target};
use crate::error::ReadError;
use crate::names::octet_named;
use crate::tokens::{begins_number, begins_with, begins_word, left_at, text_of, word_of};
use crate::wording::{COUNTS, worded_of};
use bytecode_format::Operation;
use octets::{Octets, first, octet_of_digits};
use std::alloc::Global;

/// The largest number of parameters, and of keys, that c counts.
const MAX_COUNT: u32 = 65_535;

/// Reads this word.
///
/// # Errors
///
/// `ReadError::At` if another token, or none, comes first.
#[tactic(auto, unfolding(crate::specs::Items::keyword_at))]
pub fn keyword_of<'a>(octets: &'a [u8], word: &[u8]) -> Result<&'a [u8], ReadError>
    ensures { Gives (λ x. tokens_of x.now) result (keyword_at word.now (tokens_of octets.now)) }
{
    let (read, rest) = word_of(octets)?;
    if read == word {
        Ok(rest)
    } else {
        Err(ReadError::At(left_at(octets)))
    }
}

// The number that one more digit makes of a number, if it fits into 64 bits.
fn more(value: u64, digit: u8) -> Option<u64>
    ensures { result ≡ one_more value digit }
{
    if !digit.is_ascii_digit() {
        return None;
    }
    value.checked_mul(10)?.checked_add(u64::from(digit - b'0'))
}

// The number that decimal digits spell, if it fits into 64 bits.
fn decimal_of(word: &[u8]) -> Option<u64>
    ensures { result ≡ decimal_on 0 word.now }
{
    let mut value: u64 = 0;
    let mut rest = word;
    'digits: while let Some((digit, after)) = first(rest) {
        value = more(value, digit)?;
        rest = after;
    }
    Some(value)
}

// The number from `low` to `high` that a word is.
fn value_within(word: &[u8], low: u64, high: u64) -> Option<u64>
    ensures { result ≡
        (if is_within low high word.now then Some (value_from 0 word.now) else None) }
{
    let value = decimal_of(word)?;
    if low <= value && value <= high {
        Some(value)
    } else {
        None
    }
}

// Reads a number from `low` to `high`.
#[tactic(auto, unfolding(crate::specs::Items::number_at))]
pub fn number_of(octets: &[u8], low: u64, high: u64) -> Result<(u64, &[u8]), ReadError>
    ensures number { Gives and_rest result (number_at low high (tokens_of octets.now)) }
    ensures small { IfOk result (λ x. x.0 ≤ high) }
{
    let (word, rest) = word_of(octets)?;
    match value_within(word, low, high) {
        Some(value) => Ok((value, rest)),
        None => Err(ReadError::At(left_at(octets))),
    }
}

// The byte that two hexadecimal digits are.
fn octet_of(word: &[u8]) -> Option<u8>
    ensures { result ≡ octet_in word.now }
{
    match word {
        [high, low] => octet_of_digits(*high, *low),
        _ => None,
    }
}

// Reads a byte.
#[tactic(auto, unfolding(crate::specs::Items::octet_at))]
fn octet_word(octets: &[u8]) -> Result<(u8, &[u8]), ReadError>
    ensures { Gives and_rest result (octet_at (tokens_of octets.now)) }
{
    let (word, rest) = word_of(octets)?;
    match octet_of(word) {
        Some(octet) => Ok((octet, rest)),
        None => Err(ReadError::At(left_at(octets))),
    }
}

// Reads an operation: its name, or OP and the byte.
#[tactic(auto, unfolding(crate::specs::Items::operation_at))]
fn operation_of(octets: &[u8]) -> Result<(u8, &[u8]), ReadError>
    ensures { Gives and_rest result (operation_at (tokens_of octets.now)) }
{
    let (word, rest) = word_of(octets)?;
    if word == b"OP".as_slice() {
        return octet_word(rest);
    }
    match octet_named(word) {
        Some(octet) => Ok((octet, rest)),
        None => Err(ReadError::At(left_at(octets))),
    }
}

/// The fields of an instruction that have been read.
#[derive(Drop)]
pub struct Fields {
    a: Option<u8>,
    b: Option<u16>,
    c: Option<Target>,
}

// Reads a field's name and its number.
#[tactic(auto, unfolding(crate::specs::Items::field_number))]
fn field_of<'a>(octets: &'a [u8], name: &[u8], highest: u64) -> Result<(u64, &'a [u8]), ReadError>
    ensures number { Gives and_rest result (field_number name.now highest (tokens_of octets.now)) }
    ensures small { IfOk result (λ x. x.0 ≤ highest) }
{
    number_of(keyword_of(octets, name)?, 0, highest)
}

// Reads the number of the operation's a, in digits or in words.
#[tactic(auto, unfolding(crate::specs::Items::a_value))]
fn a_value(octets: &[u8], op: u8) -> Result<(u8, &[u8]), ReadError>
    ensures { Gives and_rest result (a_value op (tokens_of octets.now)) }
{
    if begins_number(octets) {
        let (number, rest) = number_of(octets, 0, u64::from(u8::MAX))?;
        return Ok((number as u8, rest));
    }
    match worded_of(octets, Operation::of(op)) {
        (Some(number), rest) => Ok((number, rest)),
        (None, _) => Err(ReadError::At(left_at(octets))),
    }
}

// Reads the name of the field a and its number.
#[tactic(auto, unfolding(crate::specs::Items::a_field))]
fn a_field(octets: &[u8], op: u8) -> Result<(u8, &[u8]), ReadError>
    ensures { Gives and_rest result (a_field op (tokens_of octets.now)) }
{
    a_value(keyword_of(octets, b"a")?, op)
}

// Reads the field a of an operation, if it comes first.
#[tactic(auto, unfolding(crate::specs::Items::a_at))]
fn a_of(octets: &[u8], op: u8, given: Option<u8>) -> Result<(Option<u8>, &[u8]), ReadError>
    ensures { Gives and_rest result (a_at op given (tokens_of octets.now)) }
{
    if !begins_with(octets, b"a") {
        return Ok((given, octets));
    }
    if given.is_some() {
        return Err(ReadError::At(left_at(octets)));
    }
    let (number, rest) = a_field(octets, op)?;
    Ok((Some(number), rest))
}

// Reads the field b, if it comes first.
#[tactic(auto, unfolding(crate::specs::Items::field_at))]
fn b_of(octets: &[u8], given: Option<u16>) -> Result<(Option<u16>, &[u8]), ReadError>
    ensures { Gives and_rest result
        (field_at (codes "b") (2 ^ 16 - 1) given (tokens_of octets.now)) }
{
    if !begins_with(octets, b"b") {
        return Ok((given, octets));
    }
    if given.is_some() {
        return Err(ReadError::At(left_at(octets)));
    }
    let (number, rest) = field_of(octets, b"b", u64::from(u16::MAX))?;
    Ok((Some(number as u16), rest))
}

// Reads the number of keys after that of parameters.
#[tactic(auto, unfolding(crate::specs::Items::keys_after))]
fn keys_after(octets: &[u8], params: u32) -> Result<(u32, &[u8]), ReadError>
    requires { params ≤ max_count }
    ensures { Gives and_rest result (keys_after params (tokens_of octets.now)) }
{
    let rest = keyword_of(octets, b"params")?;
    let (keys, rest) = number_of(rest, 0, u64::from(MAX_COUNT))?;
    let rest = keyword_of(rest, b"keys")?;
    Ok((COUNTS * params + keys as u32, rest))
}

// Reads the counts of HEADER after their first number, if they are in words.
#[tactic(auto, unfolding(crate::specs::Items::counts_at))]
fn counts_of(octets: &[u8], number: u32) -> Result<(u32, &[u8]), ReadError>
    ensures { Gives and_rest result (counts_at number (tokens_of octets.now)) }
{
    if begins_with(octets, b"params") && number <= MAX_COUNT {
        return keys_after(octets, number);
    }
    if begins_with(octets, b"keys") {
        return Ok((number, keyword_of(octets, b"keys")?));
    }
    Ok((number, octets))
}

// Reads the number of c, or the counts of HEADER.
#[tactic(auto, unfolding(crate::specs::Items::counted_at))]
fn counted_of(octets: &[u8]) -> Result<(u32, &[u8]), ReadError>
    ensures { Gives and_rest result (counted_at (tokens_of octets.now)) }
{
    let (number, rest) = number_of(octets, 0, u64::from(u32::MAX))?;
    counts_of(rest, number as u32)
}

// Reads a name.
#[tactic(auto, unfolding(crate::specs::Items::name_at))]
fn given_name(alloc: Global, octets: &[u8]) -> Result<(Octets, &[u8]), ReadError>
    ensures { Gives and_rest result (name_at (tokens_of octets.now)) }
{
    if begins_number(octets) {
        return Err(ReadError::At(left_at(octets)));
    }
    let (word, rest) = word_of(octets)?;
    Ok((Octets::from_vec(word.to_vec(alloc)?), rest))
}

// Reads what is written as the number of c.
#[tactic(auto, unfolding(crate::specs::Items::target_at))]
fn target_of(alloc: Global, octets: &[u8]) -> Result<(Target, &[u8]), ReadError>
    ensures { Gives and_rest result (target_at (tokens_of octets.now)) }
{
    if begins_number(octets) {
        let (number, rest) = counted_of(octets)?;
        return Ok((Target::Number(number), rest));
    }
    if !begins_word(octets) {
        let (text, rest) = text_of(alloc, octets)?;
        return Ok((Target::Quoted(text, left_at(octets)), rest));
    }
    let (name, rest) = given_name(alloc, octets)?;
    Ok((Target::Name(name, left_at(octets)), rest))
}

// Reads the name of the field c and what is written as its number.
#[tactic(auto, unfolding(crate::specs::Items::target_field))]
fn target_field(alloc: Global, octets: &[u8]) -> Result<(Target, &[u8]), ReadError>
    ensures { Gives and_rest result (target_field (tokens_of octets.now)) }
{
    target_of(alloc, keyword_of(octets, b"c")?)
}

// Reads the field c, if it comes first.
#[tactic(auto, unfolding(crate::specs::Items::c_at))]
fn c_of(
    alloc: Global,
    octets: &[u8],
    given: Option<Target>,
) -> Result<(Option<Target>, &[u8]), ReadError>
    ensures { Gives and_rest result (c_at given (tokens_of octets.now)) }
{
    if !begins_with(octets, b"c") {
        return Ok((given, octets));
    }
    if given.is_some() {
        return Err(ReadError::At(left_at(octets)));
    }
    let (target, rest) = target_field(alloc, octets)?;
    Ok((Some(target), rest))
}

// Reads each field of an operation that comes next, in the order a, b, c.
#[tactic(auto, unfolding(crate::specs::Items::round_at))]
fn round_of(
    alloc: Global,
    octets: &[u8],
    op: u8,
    given: Fields,
) -> Result<(Fields, &[u8]), ReadError>
    ensures { Gives (with_rest read_fields) result
        (round_at op (read_fields given) (tokens_of octets.now)) }
{
    let (a, rest) = a_of(octets, op, given.a)?;
    let (b, rest) = b_of(rest, given.b)?;
    let (c, rest) = c_of(alloc, rest, given.c)?;
    Ok((Fields { a, b, c }, rest))
}

// Reads the fields of an operation, in any order.
#[tactic(auto, unfolding(crate::specs::Items::fields_at))]
fn fields_of(alloc: Global, octets: &[u8], op: u8) -> Result<(Fields, &[u8]), ReadError>
    ensures { Gives (with_rest read_fields) result (fields_at op (tokens_of octets.now)) }
{
    let none = Fields {
        a: None,
        b: None,
        c: None,
    };
    let (given, rest) = round_of(alloc, octets, op, none)?;
    let (given, rest) = round_of(alloc, rest, op, given)?;
    round_of(alloc, rest, op, given)
}

// Reads an instruction's place, if a number comes first.
#[tactic(auto, unfolding(crate::specs::Items::place_at))]
fn place_of(octets: &[u8], place: usize) -> Result<&[u8], ReadError>
    ensures { Gives (λ x. tokens_of x.now) result (place_at place (tokens_of octets.now)) }
{
    if !begins_number(octets) {
        return Ok(octets);
    }
    let (_, rest) = number_of(octets, place as u64, place as u64)?;
    Ok(rest)
}

// Reads an instruction at its place.
#[tactic(auto, unfolding(crate::specs::Items::draft_at))]
fn draft_of(alloc: Global, octets: &[u8], place: usize) -> Result<(Draft, &[u8]), ReadError>
    ensures { Gives and_rest result (draft_at place (tokens_of octets.now)) }
{
    let rest = place_of(octets, place)?;
    let (op, rest) = operation_of(rest)?;
    let (fields, rest) = fields_of(alloc, rest, op)?;
    let draft = Draft {
        op,
        a: fields.a.unwrap_or(0),
        b: fields.b.unwrap_or(0),
        c: fields.c.unwrap_or(Target::Number(0)),
    };
    Ok((draft, rest))
}

// Reads a label.
#[tactic(auto, unfolding(crate::specs::Items::label_at))]
fn label_of(alloc: Global, octets: &[u8]) -> Result<(Line, &[u8]), ReadError>
    ensures { Gives and_rest result (label_at (tokens_of octets.now)) }
{
    let rest = keyword_of(octets, b"label")?;
    let left = left_at(rest);
    let (name, rest) = given_name(alloc, rest)?;
    Ok((Line::Label(name, left), rest))
}

/// Reads a label, or an instruction that so many others come before.
#[tactic(auto, unfolding(crate::specs::Items::line_at))]
pub fn line_of(alloc: Global, octets: &[u8], place: usize) -> Result<(Line, &[u8]), ReadError>
    ensures { (before : List Line) → count before ≡ place
        → Gives and_rest result (line_at before (tokens_of octets.now)) }
{
    if begins_with(octets, b"label") {
        return label_of(alloc, octets);
    }
    let (draft, rest) = draft_of(alloc, octets, place)?;
    Ok((Line::Step(draft), rest))
}

/// Reads a number of the table.
#[tactic(auto, unfolding(crate::specs::Items::number_item))]
pub fn number_row(octets: &[u8]) -> Result<(u64, &[u8]), ReadError>
    ensures { (before : List ℕ)
        → Gives and_rest result (number_item before (tokens_of octets.now)) }
{
    number_of(keyword_of(octets, b"number")?, 0, u64::MAX)
}

/// Reads a string of the table.
#[tactic(auto, unfolding(crate::specs::Items::string_item))]
pub fn string_row(alloc: Global, octets: &[u8]) -> Result<(Octets, &[u8]), ReadError>
    ensures { (before : List (List ℕ))
        → Gives and_rest result (string_item before (tokens_of octets.now)) }
{
    text_of(alloc, keyword_of(octets, b"string")?)
}
