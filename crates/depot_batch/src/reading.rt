// The next line of an input.
ghost use Rattle.std.specs.Prelude.{◌≡◌, ◌⊎◌, IfErr, IfOk, true, false};
ghost use Rattle.std.specs.Io.{StopsAt};
ghost use Rattle.std.specs.Io.KnownBytes.{Consumes};
ghost use Rattle.refusals.specs.declared.refusal.Refusal.TheVariants.{Memory, Read};
ghost use Rattle.depot_batch.specs.Lines.{HasNotTaken};
ghost use Rattle.depot_batch.specs.Private.{EndsSo, HasTakenNext, IsTaken};
ghost use Rattle.depot_batch.specs.declared.reading.Taken.TheVariants.{Line};

use devices::{OfRead, Source};
use refusals::Refusal;
use std::io::{BufRead, ErrorKind};

/// What was taken from an input.
#[derive(Clone, Copy)]
pub enum Taken {
    /// A line, with its line break.
    Line,
    /// The rest of the input, without a line break at its end.
    Unfinished,
    /// Nothing: the input had ended.
    Nothing,
}

/// Takes the next line of the input, with its line break, or the rest of the input.
///
/// # Errors
///
/// - `Memory` if memory is refused.
/// - `Read` if a call on the input fails; the failure is counted.
pub fn next_line<R: BufRead + Drop>(
    input: &mut OfRead<R>,
    line: &mut Vec<u8>,
) -> Result<Taken, Refusal>
    ensures taken { IfOk result (λ taken. HasTakenNext taken line.new.items
        (⟦<OfRead<R> as Source>⟧.supply input.old) (⟦<OfRead<R> as Source>⟧.supply input.new)) }
    ensures refused { IfErr result (λ e. HasNotTaken e line.new.items
        (⟦<OfRead<R> as Source>⟧.supply input.old) (⟦<OfRead<R> as Source>⟧.supply input.new)) }
{
    let read = read_line(&mut input.inner, line);
    input.given = input.given.saturating_add(line.len() as u64);
    match read {
        Ok(taken) => {
            input.has_ended = is_at_end(taken);
            Ok(taken)
        }
        Err(Refusal::Memory) => Err(Refusal::Memory),
        Err(refusal) => {
            input.faults = input.faults.saturating_add(1);
            Err(refusal)
        }
    }
}

// Whether the input has ended after this.
fn is_at_end(taken: Taken) -> bool
    ensures line { result ≡ false → taken ≡ Line }
    ensures end { result ≡ true → taken ≡ Line → ⊥ }
{
    match taken {
        Taken::Line => false,
        Taken::Unfinished | Taken::Nothing => true,
    }
}

// Takes the next line of a reader.
fn read_line<R: BufRead>(reader: &mut R, line: &mut Vec<u8>) -> Result<Taken, Refusal>
    ensures taken { IfOk result
        (λ taken. IsTaken taken line.new.items (R.remaining reader.old)) }
    ensures stops { StopsAt line.new.items 10 }
    ensures read { Consumes (R.remaining reader.old) (R.remaining reader.new) line.new.items }
    ensures refused { IfErr result (λ e. (e ≡ Memory) ⊎ (e ≡ Read)) }
{
    line.clear();
    match reader.read_until(b'\n', line) {
        Ok(_) => Ok(taken_of(line)),
        Err(fault) if fault.kind() == ErrorKind::OutOfMemory => Err(Refusal::Memory),
        Err(_) => Err(Refusal::Read),
    }
}

// How some bytes end.
fn taken_of(octets: &[u8]) -> Taken
    ensures { EndsSo result octets.now }
{
    match octets {
        [] => Taken::Nothing,
        [.., b'\n'] => Taken::Line,
        _ => Taken::Unfinished,
    }
}
