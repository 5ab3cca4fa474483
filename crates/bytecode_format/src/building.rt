// Programs from their parts.
//
// `Program::build` takes no memory, so its one error is Spelling. A proof knows the ranges of an instruction's fields
// only once the fields are read, so `build` goes over its instructions in a loop that leaves no code.
ghost use Rattle.std.specs.Prelude.{◌≡◌, ◌+◌, ◌*◌, ◌<◌, ◌≤◌, ◌^◌, length, All, IfOk, IfErr, IsTrue, ◌↔◌};
ghost use Rattle.std.specs.List.{flat_map};
ghost use Rattle.octets.specs.Limits.{max_string};
ghost use Rattle.bytecode_format.specs.Code.{Code};
ghost use Rattle.bytecode_format.specs.Spelling.{string, Fits, IsProgram};

use crate::error::FormatError;
use crate::instruction::Instruction;
use crate::limits::MAX_VARIABLES;
use crate::program::{MAX_INSTRUCTIONS, MAX_PROGRAM, MAX_TABLE, OPENING, Program, is_version};
use octets::{MAX_STRING, Octets};

/// How many bytes the version takes.
const VERSION_LEN: usize = 1;

/// How many bytes the four counts take.
const COUNTS_LEN: usize = 10;

/// How many bytes a number takes, and how many an instruction.
const ROW_LEN: usize = 8;

/// Whether each string is within its limit.
fn are_short(strings: &[Octets]) -> bool
    ensures { IsTrue result ↔ All (λ text. length text ≤ max_string) strings.now }
{
    strings.iter().all(|text| text.len() <= MAX_STRING)
}

/// How many bytes the strings take, each with its length.
fn strings_len(strings: &[Octets]) -> usize
    requires few { length strings.now < 2 ^ 16 }
    requires short { All (λ text. length text ≤ max_string) strings.now }
    ensures len { result ≡ length (flat_map string strings.now) }
    ensures small { result ≤ 2 ^ 16 * 16386 }
{
    let mut total = 0;
    'table: for text in strings {
        total += 2 + text.len();
    }
    total
}

// The range of numbers, from their type.
fn numbers_fit(numbers: &[u64])
    ensures { All (λ n. n < 2 ^ 64) numbers.now }
{}

// The ranges of an instruction's fields, from their types.
fn instruction_fits(i: Instruction)
    ensures { Fits i }
{}

// The ranges of the fields of instructions, from their types; the loop leaves no code.
fn instructions_fit(instructions: &[Instruction])
    ensures { All Fits instructions.now }
{
    'table: for i in instructions {
        instruction_fits(*i);
    }
}

impl Program {
    /// Makes a program of its parts. It takes no memory.
    ///
    /// # Errors
    ///
    /// `FormatError::Spelling` if the parts exceed the limits of a program: the version is 1 or 2, there are at most
    /// 128 variables, 65,535 numbers, 65,535 strings of at most 16,384 bytes each and 65,536 instructions, and the
    /// program takes at most 4,194,304 bytes. There is no other error.
    pub fn build(
        version: u8,
        variables: u16,
        numbers: Vec<u64>,
        strings: Vec<Octets>,
        instructions: Vec<Instruction>,
    ) -> Result<Program, FormatError>
        ensures built { let code : Code = record {
          version = version;
          variables = variables;
          numbers = numbers.items;
          strings = strings.items;
          instructions = instructions.items;
        } in IfOk result
            (λ p. (p ≡ code) × IsProgram code) }
        ensures refused { let code : Code = record {
          version = version;
          variables = variables;
          numbers = numbers.items;
          strings = strings.items;
          instructions = instructions.items;
        } in IfErr result
            (λ e. (e ≡ FormatError.Spelling) × ¬ IsProgram code) }
    {
        if !is_version(version) || usize::from(variables) > MAX_VARIABLES {
            return Err(FormatError::Spelling);
        }
        if numbers.len() > MAX_TABLE
            || strings.len() > MAX_TABLE
            || instructions.len() > MAX_INSTRUCTIONS
        {
            return Err(FormatError::Spelling);
        }
        if !are_short(&strings) {
            return Err(FormatError::Spelling);
        }
        let rows_len = (numbers.len() + instructions.len()) * ROW_LEN;
        if OPENING.len() + VERSION_LEN + COUNTS_LEN + rows_len + strings_len(&strings)
            > MAX_PROGRAM
        {
            return Err(FormatError::Spelling);
        }
        numbers_fit(&numbers);
        instructions_fit(&instructions);
        Ok(Program::assemble(version, variables, numbers, strings, instructions))
    }
}
