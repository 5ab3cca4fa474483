// The instructions that code consists of.
ghost use Rattle.std.specs.Prelude.{◌≡◌, ◌+◌, ◌<◌, ◌≤◌, ◌^◌, length, map};
ghost use Rattle.octets.specs.Limits.{max_test_strings};
ghost use Rattle.bytecode_format.specs.Questions.{row_of};
ghost use Rattle.sieve_check.specs.TypedView.{strings_form};
ghost use Rattle.sieve_compiler.specs.Coding.{instruction_with, instruction, jump_if, join_texts, place_of_first, question_code, act_code};
ghost use Rattle.sieve_compiler.specs.Aiming.{is_jump, aimed};

use crate::exits::Exit;
use crate::tables::Tables;
use bytecode_format::{Counts, Instruction, Operation, Question};
use sieve_check::{Act, Strings};

/// An instruction with all its fields.
fn instruction_with(operation: Operation, a: u8, b: u16, c: u32) -> Instruction
    ensures { result ≡ instruction_with operation a b c }
{
    Instruction {
        op: operation.octet(),
        a,
        b,
        c,
    }
}

/// An instruction with its fields a and c.
pub fn instruction(operation: Operation, a: u8, c: u32) -> Instruction
    ensures { result ≡ instruction operation a c }
{
    instruction_with(operation, a, 0, c)
}

/// The jump of a test whose value was pushed.
pub fn jump_if(exit: Exit) -> Instruction
    ensures { result ≡ jump_if exit.asked exit.target }
{
    let operation = if exit.asked {
        Operation::JumpIfTrue
    } else {
        Operation::JumpIfFalse
    };
    instruction(operation, 0, exit.target)
}

// The place of the number that a question compares with, if it does, otherwise 0.
fn compared_place(tables: &Tables<'_>, question: Question) -> u32
    requires { length tables.now.numbers < 2 ^ 32 }
    ensures { result ≡ place_of_first tables.now (row_of question).numbers }
{
    match question.number() {
        Some(number) => tables.place_of_number(number) as u32,
        None => 0,
    }
}

/// The instruction of a question, after its strings.
pub fn question_code(tables: &Tables<'_>, question: Question, strings: &Strings) -> Instruction
    requires numbers { length tables.now.numbers < 2 ^ 32 }
    requires few { length strings.now.names.items + length strings.now.params.items
        + length strings.now.keys.items ≤ max_test_strings }
    ensures { result ≡ question_code tables.now question (strings_form strings.now) }
{
    let counts = Counts {
        names: strings.names.len(),
        params: strings.params.len(),
        keys: strings.keys.len(),
    };
    question.instruction(counts, compared_place(tables, question))
}

/// The instruction of an act, after its string.
pub fn act_code(tables: &Tables<'_>, act: &Act) -> Instruction
    requires { length tables.now.variables < 2 ^ 32 }
    ensures { result ≡ act_code tables.now act.now }
{
    match act {
        Act::Keep => instruction(Operation::Keep, 0, 0),
        Act::Discard => instruction(Operation::Discard, 0, 0),
        Act::FileInto => instruction(Operation::File, 0, 0),
        Act::Set { modifiers, name } => {
            let place = tables.place_of_variable(name.as_slice()) as u32;
            instruction(Operation::Set, modifiers.number(), place)
        }
        Act::Take { most, name } => {
            let place = tables.place_of_variable(name.as_slice()) as u32;
            instruction_with(Operation::Take, 0, *most, place)
        }
        Act::Store => instruction(Operation::Store, 0, 0),
        Act::Leave(loops) => instruction(Operation::Break, *loops, 0),
        Act::Stop => instruction(Operation::Halt, 0, 0),
    }
}

/// Joins so many texts into one.
pub fn join_texts(texts: u16) -> Instruction
    ensures { result ≡ join_texts texts }
{
    instruction_with(Operation::Join, 0, texts, 0)
}

/// The target of a jump that waits for one: no jump leads to the first instruction.
pub const NO_TARGET: u32 = 0;

// Whether the byte names a jump.
fn is_jump(octet: u8) -> bool
    ensures { result ≡ is_jump octet }
{
    octet == Operation::Jump.octet()
        || octet == Operation::JumpIfTrue.octet()
        || octet == Operation::JumpIfFalse.octet()
}

// The instruction, with the target if it is a jump that waits for one.
fn aimed(instruction: Instruction, target: u32) -> Instruction
    ensures { result ≡ aimed target instruction }
{
    if is_jump(instruction.op) && instruction.c == NO_TARGET {
        Instruction {
            c: target,
            ..instruction
        }
    } else {
        instruction
    }
}

/// Sets the target of the jumps that wait for one.
pub fn aim_all(instructions: &mut [Instruction], target: u32)
    ensures { instructions.new ≡ map (aimed target) instructions.old }
{
    for instruction in instructions.iter_mut() {
        *instruction = aimed(*instruction, target);
    }
}
