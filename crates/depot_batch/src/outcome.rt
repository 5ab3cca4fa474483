// The outcome of a line.

use refusals::Refusal;

/// The outcome of a line: it decides the status in the line that ends the answer.
#[derive(Drop)]
pub enum Outcome {
    /// The command was done: `= 0`.
    Done,
    /// The command was refused: `= 1`.
    Refused(Refusal),
    /// The line is no command: `= 2`.
    Wrong,
}
