// Scripts as programs.
ghost use Rattle.std.specs.Prelude.{◌≡◌, ℕ, IfOk};
ghost use Rattle.bytecode_verifier.specs.Acceptance.{IsAccepted};
ghost use Rattle.mime_decode.specs.Mail.{Mail, IsMail};
ghost use Rattle.sieve_meaning.specs.Meaning.{meaning};
ghost use Rattle.sieve_vm.specs.Ending.{IsOutcome};
ghost use Rattle.sieve_check.specs.TypedView.{commands_form};
ghost use Rattle.sieve_check.specs.Bounded.{IsBounded};
ghost use Rattle.sieve_compiler.specs.Coding.{code_of};
ghost use Rattle.sieve_compiler.specs.Tables.{tables_of};

use crate::coder::Coder;
use crate::instructions::instruction;
use crate::tables::Tables;
use bytecode_format::{Instruction, Operation, Program};
use sieve_check::{Checked, Command};
use std::alloc::{AllocError, Global};

/// The version of the format that programs are written in.
const WRITTEN_VERSION: u8 = bytecode_format::VERSION_TWO;

/// Returns the program of a checked script: exactly its code. The verifier accepts it, and on every message its run
/// ends with the final actions of the script's meaning.
///
/// The code of every checked script is within the limits of a program. It takes time linear in the size of the code,
/// apart from the nesting, which has a limit. For example, the program of the empty script is written in 23 bytes: 15
/// before the instructions, and one instruction, HALT.
///
/// # Errors
///
/// `AllocError` if memory is refused.
pub fn compile(alloc: Global, checked: &Checked) -> Result<Program, AllocError>
    ensures code { IfOk result (λ program. program ≡ code_of (commands_form checked.now.commands)) }
    ensures accepted { IfOk result (λ program. IsAccepted program) }
    ensures means { IfOk result (λ program. (mail : Mail) → IsMail mail
        → (charged : ℕ) × IsOutcome program mail
        (meaning mail (commands_form checked.now.commands)) charged) }
{
    compile_commands(alloc, checked.commands())
}

// The program of a script's commands, if they are at most those of a script within the limits.
fn compile_commands(alloc: Global, commands: &[Command]) -> Result<Program, AllocError>
    requires { IsBounded (commands_form commands.now) }
    ensures code { IfOk result (λ p. p ≡ code_of (commands_form commands.now)) }
{
    let tables = Tables::of_script(alloc, commands)?;
    let variables = tables.variable_count() as u16;
    let instructions = code_with(alloc, &tables, commands)?;
    let strings = tables.strings(alloc)?;
    let numbers = tables.into_numbers();
    Ok(Program::build(WRITTEN_VERSION, variables, numbers, strings, instructions).unwrap())
}

// The instructions of a script's commands, with its tables.
fn code_with<'t, 's>(
    alloc: Global,
    tables: &'t Tables<'s>,
    commands: &[Command],
) -> Result<Vec<Instruction>, AllocError>
    requires bounded { IsBounded (commands_form commands.now) }
    requires tables { tables.now ≡ tables_of (commands_form commands.now) }
    ensures code { IfOk result (λ code. code.items
        ≡ (code_of (commands_form commands.now)).instructions) }
{
    let mut coder = Coder::new(alloc, tables);
    coder.put_commands(commands)?;
    coder.put(instruction(Operation::Halt, 0, 0))?;
    Ok(coder.instructions)
}
