// What a line is answered with.
//
// A line's refusal goes to standard output, instead of the answer: with two streams nobody could match the lines of one
// with those of the other. Standard error is for what ends the batch.
ghost use Rattle.std.specs.Prelude.{◌≡◌};
ghost use Rattle.devices.specs.Pages.{Wrote};
ghost use Rattle.printing.specs.Printed.{line as line_of};
ghost use Rattle.depot_batch.specs.Answers.{answer_text, outcome_of, report_text, text_in};
ghost use Rattle.depot_batch.specs.Asked.{wrong_line};
ghost use Rattle.depot_batch.specs.Said.{closing, exported_text};

use crate::answering::Answer;
use crate::asked::LineFault;
use crate::outcome::Outcome;
use devices::{Page, Sink};
use printing::{Piece, Printable, print, print_line, print_refusal};
use refusals::Refusal;

/// What a line is answered with, before the line with its status.
#[derive(Drop)]
pub enum Report {
    /// The command was done: its answer.
    Done(Answer),
    /// The command was refused.
    Refused(Refusal),
    /// The line is no command.
    Wrong(LineFault),
}

impl Report {
    /// Returns the outcome of the line.
    pub fn outcome(self) -> Outcome
        ensures { result ≡ outcome_of self }
    {
        match self {
            Report::Done(_) => Outcome::Done,
            Report::Refused(refusal) => Outcome::Refused(refusal),
            Report::Wrong(_) => Outcome::Wrong,
        }
    }
}

/// A report is printed with the line that ends the answer.
impl Printable for Report {
    ghost text = { answer_text };

    fn print_on<O: Sink>(&self, page: &mut Page<'_, O>) {
        print_body(page, self);
        print_line(page, status_of(self));
    }
}

// Prints a report.
fn print_body<O: Sink>(page: &mut Page<'_, O>, report: &Report)
    ensures { Wrote (report_text report.now) page.old page.new }
{
    match report {
        Report::Done(answer) => print_answer(page, answer),
        Report::Refused(refusal) => print_refusal(page, refusal),
        Report::Wrong(fault) => print_wrong(page, *fault),
    }
}

// Prints the lines of an answer, for example `exported 1`.
fn print_answer<O: Sink>(page: &mut Page<'_, O>, answer: &Answer)
    ensures { Wrote (text_in answer.now) page.old page.new }
{
    match answer {
        Answer::Replied(reply) => reply.print_on(page),
        Answer::Exported(number) => print_exported(page, *number),
    }
}

// Prints the line of an entry that was exported.
fn print_exported<O: Sink>(page: &mut Page<'_, O>, number: u32)
    ensures { Wrote (exported_text number) page.old page.new }
{
    print(
        page,
        &[
            Piece::Text("exported "),
            Piece::Number(number as u128),
            Piece::Text("\n"),
        ],
    );
}

// Prints the line about a mistake.
fn print_wrong<O: Sink>(page: &mut Page<'_, O>, fault: LineFault)
    ensures { Wrote (wrong_line fault) page.old page.new }
{
    print(
        page,
        &[
            Piece::Text("? "),
            Piece::Text(fault.sentence()),
            Piece::Text("\n"),
        ],
    );
}

// The last line of an answer, with the status.
fn status_of(report: &Report) -> &'static str
    ensures { line_of result.now ≡ closing (outcome_of report.now) }
{
    match report {
        Report::Done(_) => "= 0",
        Report::Refused(_) => "= 1",
        Report::Wrong(_) => "= 2",
    }
}
