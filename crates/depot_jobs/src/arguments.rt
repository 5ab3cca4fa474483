// The arguments of a command, as its matches have them.
ghost use Rattle.std.specs.Prelude.{◌≡◌};
ghost use Rattle.clap.specs.Words.{found_of, rows_of};
ghost use Rattle.depot_jobs.specs.Words.{IsNumber, argument as text_of, encoding_named};

use clap::ArgMatches;
use encodings::Encoding;

/// The text of an argument; empty if the command doesn't have it. Each argument of a command is required, except NUMBER
/// of `catalog`.
pub fn argument<'a>(matches: &ArgMatches<'a>, name: &str) -> &'a str
    ensures { result.now ≡ text_of name.now (rows_of (found_of matches.now)) }
{
    matches.get_str(name).unwrap_or("")
}

/// The number that a text spells, and 0 for the text of no number. Only numbers of entries, and numbers of bytes and
/// parts, are arguments; one that is left out is an empty text.
pub fn number(text: &str) -> u32
    ensures { IsNumber text.now result }
{
    match text.parse::<u32>() {
        Ok(number) => number,
        Err(_) => 0,
    }
}

/// The encoding with this name, and `raw` for any other text. Only names of encodings are arguments.
pub fn encoding_named(name: &str) -> Encoding
    ensures { result ≡ encoding_named name.now }
{
    Encoding::named(name).unwrap_or(Encoding::Raw)
}
