// Words that are no command.
ghost use Rattle.std.specs.Prelude.{◌≡◌, ◌≢◌, ◌⊎◌};
ghost use Rattle.clap.specs.Words.{kind_of};
ghost use Rattle.clap.specs.declared.error.kind.ErrorKind.TheVariants.{OutOfMemory};
ghost use Rattle.refusals.specs.declared.refusal.Refusal.TheVariants.{Memory};
ghost use Rattle.depot_jobs.specs.Jobs.{HasTold};
ghost use Rattle.depot_jobs.specs.Statuses.{refused, usage};
ghost use Rattle.depot_jobs.specs.Usage.{HasShown, HasToldUsage};

use crate::job::tell;
use clap::Error;
use clap::error::ErrorKind;
use depot_words::asked_text;
use devices::{Page, Sink};
use printing::print_text;
use refusals::Refusal;
use std::alloc::Global;

/// The status if the words aren't a command, or ask for help.
const USAGE: u8 = 2;

/// Writes a text for the user, in which all but printable characters and line breaks are escaped, and returns 2, the
/// status of words that aren't a command.
pub fn tell_usage<E: Sink>(err: &mut E, text: &str) -> u8
    ensures status { result ≡ usage }
    ensures told { HasShown text.now (E.output err.old) (E.output err.new) }
{
    let mut page = Page::new(err);
    print_text(&mut page, text);
    let _ = page.flush();
    USAGE
}

/// Writes why the words aren't a command, or the help that they ask for, including the help on a refusal and the line
/// of the version. Returns 2; or 1, the status of a refusal, if memory was refused.
pub fn tell_fault<E: Sink>(alloc: Global, words: &[&str], fault: Error, err: &mut E) -> u8
    ensures { ((result ≡ refused) × HasTold Memory (E.output err.old) (E.output err.new))
        ⊎ ((kind_of fault ≢ OutOfMemory) × (result ≡ usage)
        × HasToldUsage (E.output err.old) (E.output err.new)) }
{
    if fault.kind() == ErrorKind::OutOfMemory {
        return tell(err, &Refusal::Memory);
    }
    if let Some(text) = asked_text(words) {
        return tell_usage(err, text);
    }
    match format!(in alloc; "{fault}") {
        Ok(text) => tell_usage(err, text.as_str()),
        Err(_) => tell(err, &Refusal::Memory),
    }
}
