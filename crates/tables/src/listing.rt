// Programs of the bytecode by their listings, whose strings come apart from them.
use bytecode_format::{Instruction, Operation, Program};
use bytecode_listing::{ListingError, assemble};
use itoa::Buffer;
use octets::Octets;
use refusals::Refusal;
use std::alloc::{AllocError, Global};

/// The word that a listing's head begins with.
const FIRST_WORD: &[u8] = b"version ";

/// The head of a listing that doesn't say its own.
const HEAD: &[u8] = b"version 1 variables 0 ";

// The program of a listing, whose head may be left out.
fn listed(alloc: Global, code: &[u8]) -> Result<Program, Refusal> {
    let mut listing = Vec::new(alloc);
    if code.strip_prefix(FIRST_WORD).is_none() {
        listing.extend_from_slice(HEAD)?;
    }
    listing.extend_from_slice(code)?;
    match assemble(alloc, &listing) {
        Ok(program) => Ok(program),
        Err(ListingError::Memory) => Err(Refusal::Memory),
        Err(ListingError::Fault { place, .. }) => Err(Refusal::Listing { place }),
    }
}

/// The program of a listing and of its strings.
pub fn program(alloc: Global, code: &[u8], strings: &[Vec<u8>]) -> Result<Program, Refusal> {
    let listed = listed(alloc, code)?;
    let mut table = Vec::new(alloc);
    for string in strings {
        table.push(Octets::from_vec(string.clone()?))?;
    }
    let numbers = listed.numbers().to_vec(alloc)?;
    let instructions = listed.instructions().to_vec(alloc)?;
    Ok(Program::build(
        listed.version(),
        listed.variables(),
        numbers,
        table,
        instructions,
    )?)
}

// Adds a number to a listing, after a word.
fn put(code: &mut Vec<u8>, word: &[u8], number: u64) -> Result<(), AllocError> {
    code.extend_from_slice(word)?;
    code.extend_from_slice(Buffer::new().format(number).as_bytes())?;
    Ok(())
}

// Adds an instruction to a listing, with those of its fields that aren't 0.
fn put_instruction(code: &mut Vec<u8>, instruction: Instruction) -> Result<(), AllocError> {
    code.push(b' ')?;
    if let Some(operation) = Operation::of(instruction.op) {
        code.extend_from_slice(operation.name())?;
    }
    let Instruction { a, b, c, .. } = instruction;
    let fields = [
        (b" a ", u64::from(a)),
        (b" b ", u64::from(b)),
        (b" c ", u64::from(c)),
    ];
    for (name, field) in fields {
        if field > 0 {
            put(code, name, field)?;
        }
    }
    Ok(())
}

/// The listing of a program in one line, without its strings.
pub fn listing_of(alloc: Global, program: &Program) -> Result<Vec<u8>, AllocError> {
    let mut code = Vec::new(alloc);
    put(&mut code, b"version ", u64::from(program.version()))?;
    put(&mut code, b" variables ", u64::from(program.variables()))?;
    for number in program.numbers() {
        put(&mut code, b" number ", *number)?;
    }
    for instruction in program.instructions() {
        put_instruction(&mut code, *instruction)?;
    }
    Ok(code)
}
