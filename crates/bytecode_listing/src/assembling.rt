// Programs from listings.
ghost use Rattle.std.specs.Prelude.{◌≡◌, ℕ, [], ◌∷◌, length, IfOk, IfErr};
ghost use Rattle.bytecode_listing.specs.Tokens.{tokens_of};
ghost use Rattle.bytecode_listing.specs.Items.{numbers_at, strings_at, lines_at, items_at, Lists, FaultsAt, kind_of};
ghost use Rattle.bytecode_listing.specs.Labels.{count};
ghost use Rattle.bytecode_listing.specs.Readers.{Gives, with_rest, drafted, fault_in};
ghost use Rattle.refusals.specs.declared.fault_kind.FaultKind.{FaultKind};
ghost use Rattle.bytecode_listing.specs.declared.error.ListingError.TheVariants.{Fault};

use crate::drafts::Line;
use crate::error::{ListingError, ReadError};
use crate::items::{keyword_of, line_of, number_of, number_row, string_row};
use crate::labels::{places_of, resolved};
use crate::tokens::{begins_with, is_left};
use bytecode_format::Program;
use octets::Octets;
use refusals::FaultKind;
use std::alloc::Global;

/// The lowest version of the format.
const LOWEST_VERSION: u64 = bytecode_format::VERSION_ONE as u64;

/// The highest version of the format.
const HIGHEST_VERSION: u64 = bytecode_format::VERSION_TWO as u64;

/// The largest number of variables of a program.
const MAX_VARIABLES: u64 = bytecode_format::MAX_VARIABLES as u64;

// Reads the table of numbers.
fn numbers_of(alloc: Global, octets: &[u8]) -> Result<(Vec<u64>, &[u8]), ReadError>
    ensures { Gives (with_rest (λ v. v.items)) result (numbers_at (tokens_of octets.now)) }
{
    let mut numbers = Vec::new(alloc);
    let mut rest = octets;
    'table: while begins_with(rest, b"number") {
        let (number, after) = number_row(rest)?;
        numbers.push(number)?;
        rest = after;
    }
    Ok((numbers, rest))
}

// Reads the table of strings.
fn strings_of(alloc: Global, octets: &[u8]) -> Result<(Vec<Octets>, &[u8]), ReadError>
    ensures { Gives (with_rest (λ v. v.items)) result (strings_at (tokens_of octets.now)) }
{
    let mut strings = Vec::new(alloc);
    let mut rest = octets;
    'table: while begins_with(rest, b"string") {
        let (string, after) = string_row(alloc, rest)?;
        strings.push(string)?;
        rest = after;
    }
    Ok((strings, rest))
}

// How many instructions a line has: 1, or 0 for a label.
fn steps_in(line: &Line) -> usize
    ensures { result ≡ count (line.now ∷ []) }
{
    match line {
        Line::Label(..) => 0,
        Line::Step(_) => 1,
    }
}

// Reads the labels and the instructions, up to the listing's end.
fn lines_of(alloc: Global, octets: &[u8]) -> Result<(Vec<Line>, &[u8]), ReadError>
    ensures { Gives (with_rest (λ v. v.items)) result (lines_at (tokens_of octets.now)) }
{
    let mut lines = Vec::new(alloc);
    let mut rest = octets;
    let mut place: usize = 0;
    'table: while is_left(rest) {
        let (line, after) = line_of(alloc, rest, place)?;
        place += steps_in(&line);
        lines.push(line)?;
        rest = after;
    }
    Ok((lines, rest))
}

/// The fields of a listing before names and strings are looked up.
#[derive(Drop)]
pub struct Parts {
    version: u8,
    variables: u16,
    numbers: Vec<u64>,
    strings: Vec<Octets>,
    lines: Vec<Line>,
}

// Reads a listing.
#[tactic(auto, unfolding(crate::specs::Items::items_at))]
fn parts_of(alloc: Global, octets: &[u8]) -> Result<Parts, ReadError>
    ensures { Gives drafted result (items_at (tokens_of octets.now)) }
{
    let rest = keyword_of(octets, b"version")?;
    let (version, rest) = number_of(rest, LOWEST_VERSION, HIGHEST_VERSION)?;
    let rest = keyword_of(rest, b"variables")?;
    let (variables, rest) = number_of(rest, 0, MAX_VARIABLES)?;
    let (numbers, rest) = numbers_of(alloc, rest)?;
    let (strings, rest) = strings_of(alloc, rest)?;
    let (lines, _) = lines_of(alloc, rest)?;
    Ok(Parts {
        version: version as u8,
        variables: variables as u16,
        numbers,
        strings,
        lines,
    })
}

// Why a listing isn't read, with the number of bytes before the fault.
fn fault_of(listing: &[u8], kind: FaultKind, error: ReadError) -> ListingError
    ensures { result ≡ fault_in (length listing.now) kind error }
{
    match error {
        ReadError::Memory => ListingError::Memory,
        ReadError::At(left) => ListingError::Fault {
            place: listing.len().saturating_sub(left),
            kind,
        },
    }
}

/// Returns the program of a listing (docs/BYTECODE.md describes the form).
///
/// A label or a string can be written instead of the number of the field c. In HEADER, EXISTS, STRING and PARTBODY,
/// words can be written instead of the number of the field a, and the counts of HEADER can be written one by one.
///
/// Memory use grows with the listing, whose length the caller has to limit. The listing is read once, and a name or a
/// string is looked up in the logarithm of their number.
///
/// # Errors
///
/// - `ListingError::Fault` if the listing has no program. Its place is that of the first token that isn't allowed
///   there; if all are allowed, that of the first label that appears a second time; if there is none, that of the
///   first name that isn't a label; and otherwise the listing's end, if the program exceeds the limits of programs.
///   Its kind says which of these it is.
/// - `ListingError::Memory` if memory is refused.
pub fn assemble(alloc: Global, listing: &[u8]) -> Result<Program, ListingError>
    ensures listed { IfOk result (λ p. Lists listing.now p) }
    ensures fault { IfErr result (λ e. (place : ℕ) (kind : FaultKind) → e ≡ Fault place kind
        → FaultsAt listing.now place) }
    ensures kind { IfErr result (λ e. (place : ℕ) (kind : FaultKind) → e ≡ Fault place kind
        → kind ≡ kind_of listing.now) }
{
    let Parts {
        version,
        variables,
        numbers,
        strings,
        lines,
    } = match parts_of(alloc, listing) {
        Ok(parts) => parts,
        Err(e) => return Err(fault_of(listing, FaultKind::Misplaced, e)),
    };
    let places = match places_of(alloc, &lines) {
        Ok(places) => places,
        Err(e) => return Err(fault_of(listing, FaultKind::SecondLabel, e)),
    };
    let (strings, instructions) = match resolved(alloc, &strings, &places, &lines) {
        Ok(resolved) => resolved,
        Err(e) => return Err(fault_of(listing, FaultKind::NoLabel, e)),
    };
    match Program::build(version, variables, numbers, strings, instructions) {
        Ok(program) => Ok(program),
        Err(_) => Err(ListingError::Fault {
            place: listing.len(),
            kind: FaultKind::Limits,
        }),
    }
}
