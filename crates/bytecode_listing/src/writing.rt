// Programs as listings.
ghost use Rattle.std.specs.Prelude.{◌≡◌, ◌++◌, All, IfOk, OnOk};
ghost use Rattle.std.specs.List.{flat_map};
ghost use Rattle.std.specs.Fmt.{decimal};
ghost use Rattle.bytecode_listing.specs.Listing.{operation_text, field_text, fields_text, instruction_text, instruction_line, instruction_lines, number_line, string_line, line, listing_of, listing_with, accepted_listing, refused_listing, AreOctets};
ghost use Rattle.bytecode_listing.specs.Items.{Lists};
ghost use Rattle.bytecode_listing.specs.Noted.{notes_in};

use crate::comments::put_comment;
use crate::notes::{Notes, put_note};
use bytecode_format::{Instruction, Operation, Program};
use bytecode_verifier::{Refusal, Verified};
use itoa::Buffer;
use octets::Octets;
use readable_text::quoting::{put_quoted, two_digits};
use std::alloc::{AllocError, Global};

/// Appends a number in decimal digits.
pub(crate) fn put_number(out: &mut Vec<u8>, number: u64) -> Result<(), AllocError>
    ensures { OnOk result (out.new.items ≡ out.old.items ++ decimal number) }
{
    out.extend_from_slice(Buffer::new().format(number as u128).as_bytes())
}

// Appends an operation's name, or OP and the byte that names none.
fn put_operation(out: &mut Vec<u8>, octet: u8) -> Result<(), AllocError>
    ensures { OnOk result (out.new.items ≡ out.old.items ++ operation_text octet) }
{
    if let Some(operation) = Operation::of(octet) {
        out.extend_from_slice(operation.name())
    } else {
        out.extend_from_slice(b"OP ")?;
        out.extend_from_slice(&two_digits(octet))
    }
}

// Appends a field, unless it is 0.
fn put_field(out: &mut Vec<u8>, name: &[u8], number: u64) -> Result<(), AllocError>
    ensures { OnOk result (out.new.items ≡ out.old.items ++ field_text name.now number) }
{
    if number == 0 {
        return Ok(());
    }
    out.push(b' ')?;
    out.extend_from_slice(name)?;
    out.push(b' ')?;
    put_number(out, number)
}

// Appends the fields of an instruction.
fn put_fields(out: &mut Vec<u8>, instruction: Instruction) -> Result<(), AllocError>
    ensures { OnOk result (out.new.items ≡ out.old.items ++ fields_text instruction) }
{
    put_field(out, b"a", u64::from(instruction.a))?;
    put_field(out, b"b", u64::from(instruction.b))?;
    put_field(out, b"c", u64::from(instruction.c))
}

/// Appends an instruction at its place, as a listing has it, without comments.
///
/// # Errors
///
/// `AllocError` if memory is refused.
pub fn put_instruction(
    out: &mut Vec<u8>,
    place: usize,
    instruction: Instruction,
) -> Result<(), AllocError>
    ensures { OnOk result
        (out.new.items ≡ out.old.items ++ instruction_text place instruction) }
{
    put_number(out, place as u64)?;
    out.push(b' ')?;
    put_operation(out, instruction.op)?;
    put_fields(out, instruction)
}

// Appends the line of an instruction of a program.
fn put_line(
    out: &mut Vec<u8>,
    program: &Program,
    notes: Notes<'_>,
    place: usize,
    instruction: Instruction,
) -> Result<(), AllocError>
    ensures { OnOk result (out.new.items ≡ out.old.items
        ++ instruction_line program.now place instruction (notes_in notes.entry place)) }
{
    put_instruction(out, place, instruction)?;
    put_comment(out, program, instruction)?;
    put_note(out, notes, place)?;
    Ok(out.push(b'\n')?)
}

// Appends the lines of a program's instructions.
fn put_instructions(
    out: &mut Vec<u8>,
    program: &Program,
    notes: Notes<'_>,
) -> Result<(), AllocError>
    ensures { OnOk result (out.new.items ≡ out.old.items
        ++ instruction_lines (notes_in notes.entry) program.now 0 program.now.instructions) }
{
    let instructions = program.instructions();
    'table: for place in 0..instructions.len() {
        put_line(out, program, notes, place, instructions[place])?;
    }
    Ok(())
}

// Appends a line of a word and a number.
fn put_count(out: &mut Vec<u8>, word: &[u8], number: u64) -> Result<(), AllocError>
    ensures { OnOk result (out.new.items ≡ out.old.items ++ line (word.now ++ decimal number)) }
{
    out.extend_from_slice(word)?;
    put_number(out, number)?;
    Ok(out.push(b'\n')?)
}

// Appends the lines of numbers.
fn put_numbers(out: &mut Vec<u8>, numbers: &[u64]) -> Result<(), AllocError>
    ensures { OnOk result (out.new.items ≡ out.old.items ++ flat_map number_line numbers.now) }
{
    'table: for number in numbers {
        put_count(out, b"number ", *number)?;
    }
    Ok(())
}

// Appends the line of a string.
fn put_string(out: &mut Vec<u8>, text: &[u8]) -> Result<(), AllocError>
    ensures line { OnOk result (out.new.items ≡ out.old.items ++ string_line text.now) }
    ensures octets { AreOctets text.now }
{
    out.extend_from_slice(b"string ")?;
    put_quoted(out, text)?;
    Ok(out.push(b'\n')?)
}

// Appends the lines of strings.
fn put_strings(out: &mut Vec<u8>, strings: &[Octets]) -> Result<(), AllocError>
    ensures lines { OnOk result
        (out.new.items ≡ out.old.items ++ flat_map string_line strings.now) }
    ensures octets { OnOk result (All AreOctets strings.now) }
{
    'table: for text in strings {
        put_string(out, text.as_slice())?;
    }
    Ok(())
}

// The listing of a program, with notes on its instructions.
fn listing_with(alloc: Global, program: &Program, notes: Notes<'_>) -> Result<Vec<u8>, AllocError>
    ensures text { IfOk result (λ v. v.items ≡ listing_with (notes_in notes.entry) program.now) }
    ensures listed { IfOk result (λ v. Lists v.items program.now) }
{
    let mut out = Vec::new(alloc);
    put_count(&mut out, b"version ", u64::from(program.version()))?;
    put_count(&mut out, b"variables ", u64::from(program.variables()))?;
    put_numbers(&mut out, program.numbers())?;
    put_strings(&mut out, program.strings())?;
    put_instructions(&mut out, program, notes)?;
    Ok(out)
}

/// Returns the listing of a program: a line for its version, one for its number of variables, and one for each
/// number, string and instruction. Each line ends with LF. [`crate::assemble`] reads it as the same program.
///
/// A comment after an instruction shows the string or the number that its c refers to, or the place that it jumps to.
/// Of a string it shows at most 40 bytes, and dots if there are more. There is none if c is outside of the tables.
/// For other tests the comment shows in words how the test compares or what it looks at, which is its a, and for
/// HEADER also its counts, as `assemble` accepts them; there is no comment if a has no words.
///
/// Time and memory are proportional to the program, whatever its strings are.
///
/// # Errors
///
/// `AllocError` if memory is refused.
pub fn disassemble(alloc: Global, program: &Program) -> Result<Vec<u8>, AllocError>
    ensures text { IfOk result (λ v. v.items ≡ listing_of program.now) }
    ensures listed { IfOk result (λ v. Lists v.items program.now) }
{
    listing_with(alloc, program, Notes::Without)
}

/// Returns the listing of an accepted program, like [`disassemble`], with a last comment after each instruction that
/// shows what it adds to the budget.
///
/// `A1+16 B1+29` means 16 charges, and 29 for each byte of the message and one more, in the sums for one open loop. A
/// B of 0 is left out.
///
/// # Errors
///
/// `AllocError` if memory is refused.
pub fn disassemble_accepted(alloc: Global, program: &Verified) -> Result<Vec<u8>, AllocError>
    ensures text { IfOk result (λ v. v.items ≡ accepted_listing program.now) }
    ensures listed { IfOk result (λ v. Lists v.items program.now) }
{
    let shares = program.shares(alloc)?;
    listing_with(alloc, program.program(), Notes::Shares(&shares))
}

/// Returns the listing of a refused program, like [`disassemble`], with a last comment that shows the number and the
/// name of the refusal after the instruction at its place.
///
/// # Errors
///
/// `AllocError` if memory is refused.
pub fn disassemble_refused(
    alloc: Global,
    program: &Program,
    refusal: &Refusal,
) -> Result<Vec<u8>, AllocError>
    ensures text { IfOk result (λ v. v.items ≡ refused_listing refusal.now program.now) }
    ensures listed { IfOk result (λ v. Lists v.items program.now) }
{
    listing_with(alloc, program, Notes::Refusal(refusal))
}
