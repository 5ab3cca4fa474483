// The rules that look at one instruction.
ghost use Rattle.std.specs.Prelude.{◌≡◌};
ghost use Rattle.std.specs.Option.{option_and_then, option_map};
ghost use Rattle.bytecode_format.specs.Operations.{operation_of};
ghost use Rattle.bytecode_verifier.specs.Rows;
ghost use Rattle.bytecode_verifier.specs.Rules;

use crate::row::{Row, Table, row_in_version, row_of};
use bytecode_format::{Instruction, Operation, Program};

/// The row of an operation, if there is one and the version has it.
#[inline(always)]
pub fn row_named(version: u8, operation: Option<Operation>) -> Option<Row>
    ensures { result ≡ option_and_then (Rows.row_in_version version) operation }
{
    row_in_version(version, operation?)
}

/// Whether there is a row, the fields are in its ranges, and the others are 0.
#[inline(always)]
pub fn is_well_formed(row: Option<Row>, instruction: &Instruction) -> bool
    ensures { result ≡ Rows.is_well_formed row instruction.now }
{
    let Some(row) = row else { return false };
    let Instruction { a, b, c, .. } = *instruction;
    row.a.takes(a, a as u32) && row.b.takes(a, b as u32) && row.c.takes(a, c)
}

/// Whether the instruction's index is beyond the end of its table.
#[inline(always)]
pub fn misses_index(program: &Program, row: Option<Row>, instruction: &Instruction) -> bool
    ensures { result ≡ Rules.misses_index program.now row instruction.now }
{
    let Some(row) = row else { return false };
    match row.index {
        Some(table) => count_of(program, table) <= instruction.c as usize,
        None => false,
    }
}

// How many entries a table of the program has.
fn count_of(program: &Program, table: Table) -> usize
    ensures { result ≡ Rules.count_of program.now table }
{
    match table {
        Table::Variables => program.variables() as usize,
        Table::Numbers => program.numbers().len(),
        Table::Strings => program.strings().len(),
    }
}

/// Whether the operation jumps to c.
#[inline(always)]
pub fn is_jump(row: Option<Row>) -> bool
    ensures { result ≡ Rows.is_jump row }
{
    let Some(row) = row else { return false };
    row.jumps
}

/// Whether the byte names an operation that jumps to c, in any version.
pub fn jumps(octet: u8) -> bool
    ensures { result ≡ Rows.is_jump (option_map Rows.row_of (operation_of octet)) }
{
    match Operation::of(octet) {
        Some(operation) => row_of(operation).jumps,
        None => false,
    }
}

/// Whether the operation ends the run.
pub fn is_halt(operation: Option<Operation>) -> bool
    ensures { result ≡ Rules.is_halt operation }
{
    matches!(operation, Some(Operation::Halt))
}

/// Whether the operation needs the current part.
#[inline(always)]
pub fn needs_part(row: Option<Row>) -> bool
    ensures { result ≡ Rows.needs_part row }
{
    let Some(row) = row else { return false };
    row.needs_part
}
