// The words of a process.
//
// A word that isn't UTF-8 is a mistake in the command line: status 2.
ghost use Rattle.std.specs.Prelude.{◌≡◌, ◌≢◌, IfOk, codes, map, string_bytes};
ghost use Rattle.std.specs.IoError.{error_kind};
ghost use Rattle.std.specs.Vec.Iter.{into_iter_items};
ghost use Rattle.std.specs.declared.io.ErrorKind.TheVariants.{OutOfMemory};
ghost use Rattle.depot_jobs.specs.Jobs.{HasTold};
ghost use Rattle.depot_jobs.specs.Statuses.{refused, usage};
ghost use Rattle.depot_jobs.specs.Usage.{HasShown};
ghost use Rattle.refusals.specs.declared.refusal.Refusal.TheVariants.{Memory};

use crate::job::tell;
use crate::usage::tell_usage;
use devices::Sink;
use refusals::Refusal;
use std::alloc::{AllocError, Global};
use std::env::Args;
use std::io::{self, ErrorKind};

/// Returns all words of a process, in their order.
///
/// # Errors
///
/// `AllocError` if memory is refused.
pub fn words(alloc: Global, args: Args) -> Result<Vec<String>, AllocError>
    ensures { IfOk result (λ words. words.items ≡ into_iter_items args) }
{
    let mut words = Vec::new(alloc);
    for word in args {
        words.push(word)?;
    }
    Ok(words)
}

/// Returns all words as texts, in their order.
///
/// # Errors
///
/// `AllocError` if memory is refused.
pub fn texts<'a>(alloc: Global, words: &'a [String]) -> Result<Vec<&'a str>, AllocError>
    ensures { IfOk result (λ texts. map (λ text. text.now) texts.items
        ≡ map string_bytes words.entry.now) }
{
    let mut texts = Vec::new(alloc);
    for word in words {
        texts.push(word.as_str())?;
    }
    Ok(texts)
}

/// Reports why the words of a process can't be read, and returns the status: 1 with the line of `Memory` if memory was
/// refused, otherwise 2 with the line `error: a word isn't UTF-8`.
pub fn tell_no_words<E: Sink>(err: &mut E, fault: &io::Error) -> u8
    ensures memory { error_kind fault.now ≡ OutOfMemory
        → (result ≡ refused) × HasTold Memory (E.output err.old) (E.output err.new) }
    ensures other { error_kind fault.now ≢ OutOfMemory
        → (result ≡ usage) × HasShown (codes "error: a word isn't UTF-8\n") (E.output err.old)
        (E.output err.new) }
{
    if fault.kind() == ErrorKind::OutOfMemory {
        return tell(err, &Refusal::Memory);
    }
    tell_usage(err, "error: a word isn't UTF-8\n")
}
