// How a batch begins.
//
// The first line says in which format the batch is answered, and has to be read for that. If it is a delivery, it stays in
// the input, because lines that are ready are done together. Otherwise it is taken, and kept until it is answered.
ghost use Rattle.std.specs.Prelude.{◌≡◌, IfErr, IfOk, List, ℕ};
ghost use Rattle.depot_batch.specs.Lines.{HasNotTaken};
ghost use Rattle.depot_batch.specs.Private.{HasFirst, format_of};

use crate::ahead::{Ahead, look_ahead};
use crate::format::Format;
use crate::reading::{Taken, next_line};
use devices::{OfRead, Source};
use refusals::Refusal;
use std::alloc::Global;
use std::io::BufRead;

/// The line that asks for answers in JSON.
const JSON_LINE: &[u8] = b"json\n";

/// How a batch begins.
#[derive(Drop)]
pub enum First {
    /// With the line that asks for answers in JSON, which was taken.
    Json,
    /// With deliveries that are ready. Nothing was taken.
    Ready,
    /// With anything else, which was taken: another line, the rest of an input without a line break, or nothing.
    Taken(Taken, Vec<u8>),
}

impl First {
    /// Returns the format of the answers.
    pub fn format(&self) -> Format
        ensures { result ≡ format_of self.now }
    {
        match self {
            First::Json => Format::Json,
            First::Ready | First::Taken(_, _) => Format::Plain,
        }
    }
}

/// Finds out how a batch begins.
///
/// # Errors
///
/// - `Memory` if memory is refused.
/// - `Read` if a call on the input fails; the failure is counted.
pub fn first_of<R: BufRead + Drop>(alloc: Global, input: &mut OfRead<R>) -> Result<First, Refusal>
    ensures first { IfOk result (λ first. HasFirst first (⟦<OfRead<R> as Source>⟧.supply input.old)
        (⟦<OfRead<R> as Source>⟧.supply input.new)) }
    ensures refused { IfErr result (λ e. (octets : List ℕ) × HasNotTaken e octets
        (⟦<OfRead<R> as Source>⟧.supply input.old) (⟦<OfRead<R> as Source>⟧.supply input.new)) }
{
    match look_ahead(alloc, input) {
        Ok(Ahead::Deliveries(_)) => Ok(First::Ready),
        Ok(Ahead::Other) => read_first(alloc, input),
        Ok(Ahead::End) => Ok(First::Taken(Taken::Nothing, Vec::new(alloc))),
        Err(refusal) => Err(refusal),
    }
}

// Takes what comes first.
fn read_first<R: BufRead + Drop>(alloc: Global, input: &mut OfRead<R>) -> Result<First, Refusal>
    ensures first { IfOk result (λ first. HasFirst first (⟦<OfRead<R> as Source>⟧.supply input.old)
        (⟦<OfRead<R> as Source>⟧.supply input.new)) }
    ensures refused { IfErr result (λ e. (octets : List ℕ) × HasNotTaken e octets
        (⟦<OfRead<R> as Source>⟧.supply input.old) (⟦<OfRead<R> as Source>⟧.supply input.new)) }
{
    let mut line = Vec::new(alloc);
    match next_line(input, &mut line) {
        Ok(taken) => {
            if line.as_slice() == JSON_LINE {
                return Ok(First::Json);
            }
            Ok(First::Taken(taken, line))
        }
        Err(refusal) => Err(refusal),
    }
}
