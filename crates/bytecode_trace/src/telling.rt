// What is printed for an instruction.
ghost use Rattle.std.specs.Prelude.{◌≡◌};
ghost use Rattle.bytecode_trace.specs.Printed.{told_of};

use bytecode_format::Operation;

/// Which value is printed for an instruction.
#[derive(Clone, Copy)]
pub enum Told {
    /// The value that it left on top of the stack.
    Left,
    /// The value that it took from the top of the stack.
    Taken,
    /// The value that it gave to a variable.
    Set,
    /// No value.
    Nothing,
}

/// Which value is printed for an operation.
pub fn told_of(operation: Option<Operation>) -> Told
    ensures { result ≡ told_of operation }
{
    let Some(operation) = operation else {
        return Told::Nothing;
    };
    match operation {
        Operation::Literal
        | Operation::Variable
        | Operation::Capture
        | Operation::Join
        | Operation::Test(_)
        | Operation::Not => Told::Left,
        Operation::JumpIfTrue | Operation::JumpIfFalse | Operation::File | Operation::Store => {
            Told::Taken
        }
        Operation::Set | Operation::Take => Told::Set,
        Operation::Halt
        | Operation::Jump
        | Operation::Keep
        | Operation::Discard
        | Operation::Each
        | Operation::Next
        | Operation::Break => Told::Nothing,
    }
}
