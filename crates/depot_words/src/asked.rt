// Texts for words that are no command and still ask for something.
//
// Help on a refusal and the version are texts of the command line, on standard error with status 2, as help is. clap
// has no such command and no `--version`; for words that it refuses, `asked_text` has the text instead of clap's. So
// everything that is proved about the words stays the same.

use crate::help;
use crate::meanings::meaning_of;

/// Returns the text that these words ask for, if they ask for one: the line of the version (`--version`, `-V`), or what
/// a refusal means, by its number or its name in either case (`help 43`, `help database`); for a number that no refusal
/// has, the text says so. The first word is the program's name.
pub fn asked_text(words: &[&str]) -> Option<&'static str> {
    match words {
        [_, flag] if is_version(flag) => Some(help::VERSION),
        [_, command, refusal] if *command == "help" => meaning_of(refusal),
        _ => None,
    }
}

// Whether a word asks for the version.
fn is_version(word: &str) -> bool {
    matches!(word, "--version" | "-V")
}
