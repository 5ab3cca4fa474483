// What is written in place of lines: texts that were made before, and the lines that stand for them if memory was refused.
ghost use Rattle.std.specs.Prelude.{map};
ghost use Rattle.std.specs.List.{flat_map};
ghost use Rattle.devices.specs.Pages.{Wrote};
ghost use Rattle.depot_batch.specs.Private.{filed_by};
ghost use Rattle.printing.specs.Printed.{line};
ghost use Rattle.depot_batch.specs.Said.{InShort, filed_in};

use crate::values::short_done;
use devices::{Page, Sink};
use part_store::EntryRow;
use printing::{Printable, print_line};

/// A text that was made before it is written.
#[derive(Drop)]
pub struct Made {
    /// The text.
    pub text: Vec<u8>,
}

impl Printable for Made {
    ghost text = { λ made. made.text.items };

    fn print_on<O: Sink>(&self, page: &mut Page<'_, O>) {
        page.write(&self.text);
    }
}

/// The line that stands for an answer in JSON if memory was refused for it.
#[derive(Clone, Copy)]
pub struct Short<'a> {
    /// The text of the line, without its end.
    pub text: &'a str,
}

impl Printable for Short<'_> {
    ghost text = { λ short. line short.text.now };

    fn print_on<O: Sink>(&self, page: &mut Page<'_, O>) {
        print_line(page, self.text);
    }
}

/// The lines that stand for answers to deliveries.
#[derive(Drop)]
pub struct FiledShort {
    /// The new entries of each delivery, which aren't written.
    pub replies: Vec<Vec<EntryRow>>,
}

impl Printable for FiledShort {
    ghost text = { λ filed. flat_map (filed_in InShort) (map filed_by filed.replies.items) };

    fn print_on<O: Sink>(&self, page: &mut Page<'_, O>) {
        print_short(page, &self.replies);
    }
}

// Prints the line that stands for the answer, for each delivery.
fn print_short<O: Sink>(page: &mut Page<'_, O>, replies: &[Vec<EntryRow>])
    ensures { Wrote (flat_map (filed_in InShort) (map filed_by replies.now)) page.old page.new }
{
    'replies: for _ in replies {
        print_line(page, short_done());
    }
}
