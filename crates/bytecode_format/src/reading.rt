// Programs from bytes: from left to right, each reader gives a field and the bytes after it.
ghost use Rattle.std.specs.Prelude.{◌≡◌, ◌≢◌, ◌<◌, length, IfOk, IfErr, IsErrAnd};
ghost use Rattle.std.specs.Int.{w16, w32, w64};
ghost use Rattle.octets.specs.Limits.{max_program};
ghost use Rattle.bytecode_format.specs.Code.{Code};
ghost use Rattle.bytecode_format.specs.Spelling.{IsProgram, spelling};
ghost use Rattle.bytecode_format.specs.Readers.{Gives, after, octet_at, number_at, string_at, instruction_at, many_at, counts_at, version_at, program_at, opening};

use crate::error::FormatError;
use crate::instruction::Instruction;
use crate::limits::MAX_VARIABLES;
use crate::program::{MAX_INSTRUCTIONS, MAX_PROGRAM, OPENING, Program, is_version};
use octets::{MAX_STRING, Octets};
use std::alloc::Global;

/// The counts of a program's tables.
#[derive(Clone, Copy)]
struct Counts {
    variables: u16,
    numbers: u16,
    strings: u16,
    instructions: u32,
}

fn octet_of(octets: &[u8]) -> Result<(u8, &[u8]), FormatError>
    ensures { Gives (λ x. (x.0, x.1.now)) result (octet_at octets.now) }
{
    match octets {
        [] => Err(FormatError::Spelling),
        [first, rest @ ..] => Ok((*first, rest)),
    }
}

fn u16_of(octets: &[u8]) -> Result<(u16, &[u8]), FormatError>
    ensures { Gives (λ x. (x.0, x.1.now)) result (number_at w16 octets.now) }
{
    if octets.len() < 2 {
        return Err(FormatError::Spelling);
    }
    let (prefix, rest) = octets.split_at(2);
    Ok((u16::from_be_bytes([prefix[0], prefix[1]]), rest))
}

fn u32_of(octets: &[u8]) -> Result<(u32, &[u8]), FormatError>
    ensures { Gives (λ x. (x.0, x.1.now)) result (number_at w32 octets.now) }
{
    if octets.len() < 4 {
        return Err(FormatError::Spelling);
    }
    let (prefix, rest) = octets.split_at(4);
    let number = u32::from_be_bytes([prefix[0], prefix[1], prefix[2], prefix[3]]);
    Ok((number, rest))
}

fn u64_of(octets: &[u8]) -> Result<(u64, &[u8]), FormatError>
    ensures { Gives (λ x. (x.0, x.1.now)) result (number_at w64 octets.now) }
{
    if octets.len() < 8 {
        return Err(FormatError::Spelling);
    }
    let (prefix, rest) = octets.split_at(8);
    let number = u64::from_be_bytes([
        prefix[0], prefix[1], prefix[2], prefix[3], prefix[4], prefix[5], prefix[6], prefix[7],
    ]);
    Ok((number, rest))
}

#[tactic(auto, unfolding(crate::specs::Readers::version_at))]
fn version_of(octets: &[u8]) -> Result<(u8, &[u8]), FormatError>
    ensures { Gives (λ x. (x.0, x.1.now)) result (version_at octets.now) }
{
    let (version, rest) = octet_of(octets)?;
    if !is_version(version) {
        return Err(FormatError::Spelling);
    }
    Ok((version, rest))
}

#[tactic(auto, unfolding(crate::specs::Readers::string_at))]
fn string_of(alloc: Global, octets: &[u8]) -> Result<(Octets, &[u8]), FormatError>
    ensures { Gives (λ x. (x.0, x.1.now)) result (string_at octets.now) }
{
    let (len, rest) = u16_of(octets)?;
    let len = usize::from(len);
    if len > MAX_STRING || rest.len() < len {
        return Err(FormatError::Spelling);
    }
    let (text, rest) = rest.split_at(len);
    Ok((Octets::from_vec(Vec::from_slice(alloc, text)?), rest))
}

#[tactic(auto, unfolding(crate::specs::Readers::instruction_at))]
fn instruction_of(octets: &[u8]) -> Result<(Instruction, &[u8]), FormatError>
    ensures { Gives (λ x. (x.0, x.1.now)) result (instruction_at octets.now) }
{
    let (op, rest) = octet_of(octets)?;
    let (a, rest) = octet_of(rest)?;
    let (b, rest) = u16_of(rest)?;
    let (c, rest) = u32_of(rest)?;
    Ok((Instruction { op, a, b, c }, rest))
}

#[tactic(auto, unfolding(crate::specs::Readers::counts_at))]
fn counts_of(octets: &[u8]) -> Result<(Counts, &[u8]), FormatError>
    ensures { Gives (λ x. (
      record {
        variables = x.0.variables;
        numbers = x.0.numbers;
        strings = x.0.strings;
        instructions = x.0.instructions;
      },
      x.1.now,
    )) result
        (counts_at octets.now) }
{
    let (variables, rest) = u16_of(octets)?;
    let (numbers, rest) = u16_of(rest)?;
    let (strings, rest) = u16_of(rest)?;
    let (instructions, rest) = u32_of(rest)?;
    if usize::from(variables) > MAX_VARIABLES || instructions as usize > MAX_INSTRUCTIONS {
        return Err(FormatError::Spelling);
    }
    let counts = Counts {
        variables,
        numbers,
        strings,
        instructions,
    };
    Ok((counts, rest))
}

fn numbers_of(alloc: Global, count: u16, octets: &[u8]) -> Result<(Vec<u64>, &[u8]), FormatError>
    ensures { Gives (λ x. (x.0.items, x.1.now)) result (many_at (number_at w64) count octets.now) }
{
    let mut numbers = Vec::new(alloc);
    let mut rest = octets;
    'table: for _ in 0..count {
        let (number, after) = u64_of(rest)?;
        numbers.push(number)?;
        rest = after;
    }
    Ok((numbers, rest))
}

fn strings_of(alloc: Global, count: u16, octets: &[u8]) -> Result<(Vec<Octets>, &[u8]), FormatError>
    ensures { Gives (λ x. (x.0.items, x.1.now)) result (many_at string_at count octets.now) }
{
    let mut strings = Vec::new(alloc);
    let mut rest = octets;
    'table: for _ in 0..count {
        let (string, after) = string_of(alloc, rest)?;
        strings.push(string)?;
        rest = after;
    }
    Ok((strings, rest))
}

fn instructions_of(
    alloc: Global,
    count: u32,
    octets: &[u8],
) -> Result<(Vec<Instruction>, &[u8]), FormatError>
    ensures { Gives (λ x. (x.0.items, x.1.now)) result (many_at instruction_at count octets.now) }
{
    let mut instructions = Vec::new(alloc);
    let mut rest = octets;
    'table: for _ in 0..count {
        let (instruction, after) = instruction_of(rest)?;
        instructions.push(instruction)?;
        rest = after;
    }
    Ok((instructions, rest))
}

/// The fields of a program that is read.
#[derive(Drop)]
struct Parts {
    version: u8,
    variables: u16,
    numbers: Vec<u64>,
    strings: Vec<Octets>,
    instructions: Vec<Instruction>,
}

#[tactic(auto, unfolding(crate::specs::Readers::program_at, crate::specs::Readers::tables_at, crate::specs::Readers::after))]
fn parts_of(alloc: Global, octets: &[u8]) -> Result<Parts, FormatError>
    ensures parts { Gives (λ p. record {
      version = p.version;
      variables = p.variables;
      numbers = p.numbers.items;
      strings = p.strings.items;
      instructions = p.instructions.items;
    }) result (program_at octets.now) }
    ensures large { max_program < length octets.now
        → IsErrAnd result (λ e. e ≡ FormatError.Spelling) }
{
    if octets.len() > MAX_PROGRAM {
        return Err(FormatError::Spelling);
    }
    let rest = octets.strip_prefix(&OPENING).ok_or(FormatError::Spelling)?;
    let (version, rest) = version_of(rest)?;
    let (counts, rest) = counts_of(rest)?;
    let (numbers, rest) = numbers_of(alloc, counts.numbers, rest)?;
    let (strings, rest) = strings_of(alloc, counts.strings, rest)?;
    let (instructions, rest) = instructions_of(alloc, counts.instructions, rest)?;
    if !rest.is_empty() {
        return Err(FormatError::Spelling);
    }
    Ok(Parts {
        version,
        variables: counts.variables,
        numbers,
        strings,
        instructions,
    })
}

impl Program {
    /// Reads the program that the bytes spell, all of the bytes.
    ///
    /// The limit on their number is checked before memory is taken. Memory use grows with what has been read, not
    /// with what a count claims.
    ///
    /// # Errors
    ///
    /// - `FormatError::Spelling` if the bytes spell no program: the opening or the version is wrong, a count or a
    ///   length is outside the limits, a table goes beyond the end, or there are bytes after the last instruction.
    /// - `FormatError::Memory` if memory is refused; never for more than 4,194,304 bytes.
    pub fn read(alloc: Global, octets: &[u8]) -> Result<Program, FormatError>
        ensures found { IfOk result (λ p. IsProgram p × (octets.now ≡ spelling p)) }
        ensures refused { IfErr result
            (λ e. e ≡ FormatError.Spelling → (code : Code) → IsProgram code
            → octets.now ≢ spelling code) }
        ensures large { max_program < length octets.now
            → IsErrAnd result (λ e. e ≡ FormatError.Spelling) }
    {
        let parts = parts_of(alloc, octets)?;
        Ok(Program::assemble(
            parts.version,
            parts.variables,
            parts.numbers,
            parts.strings,
            parts.instructions,
        ))
    }
}
