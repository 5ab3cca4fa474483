// The texts at the end of the helps.

// The end of a command's help: what the command prints, an example, what the statuses mean, and with which refusals the
// command can end with status 1.
macro_rules! ending {
    ($prints:literal, $example:literal, $refusals:literal $(, $more:literal)*) => {
        concat!(
            $prints,
            "\n\nExample:\n  ",
            $example,
            "\n\nStatus 0: done. 1: refused, with the refusal's number and name on standard error.\n",
            "2: the words are not a command, or ask for help.\n",
            "Refusals: ",
            $refusals,
            ". `depot help NUMBER` explains each, and what to do."
            $(, $more)*
        )
    };
}

// The end of the help of a command that takes a script.
macro_rules! script_ending {
    ($prints:literal, $example:literal, $refusals:literal) => {
        ending!(
            $prints,
            $example,
            $refusals,
            "\n`depot explain SCRIPT` describes what is wrong with a script."
        )
    };
}

// The end of the help of a command on a user's depot.
macro_rules! user_ending {
    ($prints:literal, $example:literal, $refusals:literal) => {
        user_ending!($prints, $example, $refusals, "")
    };
    ($prints:literal, $example:literal, $refusals:literal, $more:literal) => {
        ending!(
            $prints,
            $example,
            $refusals,
            "\nDB comes first, then USER: the other way round a new depot is made, in a file with the user's name.",
            "\n`depot inspect DB` reports what is wrong with DB.",
            $more
        )
    };
}

// The version of the program, and the logic in which it is proved, between these texts. Several toolchain releases can
// share a logic. No other place of the code has the two.
macro_rules! with_version {
    ($($before:literal,)* ; $after:literal) => {
        concat!(
            $($before,)*
            "depot 0.38.1, proved with Rattle, logic dac8208d650f15bf",
            $after
        )
    };
}

/// The line that `depot --version` prints.
pub const VERSION: &str = with_version!(; "\n");

/// The end of the help without a command.
pub const ALL: &str = with_version!(
    "To try a filter: `depot explain filter.sieve`, then `depot eval filter.sieve mail.eml`.\n",
    "`depot help COMMAND` shows what a command prints, an example, and the refusals that it can end with;\n",
    "`depot help 43` or `depot help Database` explains a refusal, and what to do.\n\n",
    "Status 0: done; the answer is on standard output. 1: refused, with the refusal's number and name on\n",
    "standard error. 2: the words are not a command, or ask for help.\n",
    "Without words, a program that keeps every message runs on the message on standard input.\n",
    "`-` is an ordinary file name; standard input is /dev/stdin.\n\n",
    ; ""
);

/// The end of the help of `check`.
pub const CHECK: &str = script_ending!(
    "Prints `ok`. If the script has a mistake, the refusal has its place.",
    "depot check filter.sieve",
    "1, 2, 11 to 19, 45, 46"
);

/// The end of the help of `explain`.
pub const EXPLAIN: &str = ending!(
    "Prints up to 20 mistakes: a sentence for each, its line, and a mark under the place. For a script\n\
     without mistakes it prints `ok`, and notes on what rarely matches or never runs.",
    "depot explain filter.sieve",
    "1, 2, 11 to 19, 45, 46"
);

/// The end of the help of `compile`.
pub const COMPILE: &str = script_ending!(
    "Prints `wrote N octets`, the size of OUT in bytes.",
    "depot compile filter.sieve filter.svbc",
    "1, 2, 11 to 19, 45, 46"
);

/// The end of the help of `verify`.
pub const VERIFY: &str = ending!(
    "Prints the budget, A0 to B3: on a message of N bytes and P parts a run costs at most the sum of\n\
     (Ak + Bk (N + 1)) C(P, k) over k from 0 to 3. C(P, k) is the number of ways to choose k of P parts;\n\
     for a program of version 1 it is P^k instead. `depot limit` computes the sum.",
    "depot verify filter.svbc",
    "1, 2, 20 to 27, 45, 46"
);

/// The end of the help of `limit`.
pub const LIMIT: &str = ending!(
    "Prints `charge C`, the most that a run costs; `entries E`, the most entries that a delivery files;\n\
     and `octets O`, the most bytes that their contents have, each content counted once.",
    "depot limit filter.svbc 10000000 100",
    "1, 2, 20 to 27, 45, 46"
);

/// The end of the help of `run`.
pub const RUN: &str = ending!(
    "Prints a line for each action, or `none`; then `charged N of M`: what this run cost, and the most\n\
     that a run on a message of this size with as many parts can cost. It files nothing.",
    "depot run filter.svbc mail.eml",
    "1 to 3, 20 to 27, 45, 46"
);

/// The end of the help of `disassemble`.
pub const DISASSEMBLE: &str = ending!(
    "Prints any program that can be read, even if `verify` refuses it. The last line is a comment with\n\
     the budget, or with the refusal.",
    "depot disassemble filter.svbc > filter.listing",
    "1, 2, 20, 45, 46"
);

/// The end of the help of `assemble`.
pub const ASSEMBLE: &str = ending!(
    "Prints `wrote N octets`, the size of OUT in bytes; or the mistake in the listing, with its line.",
    "depot assemble filter.listing filter.svbc",
    "1, 2, 28, 45, 46"
);

/// The end of the help of `eval`.
pub const EVAL: &str = script_ending!(
    "Prints a line for each action, or `none`; then `charged N of M`: what this run cost, and the most\n\
     that a run on a message of this size with as many parts can cost. It files nothing.",
    "depot eval filter.sieve mail.eml",
    "1 to 3, 11 to 19, 45, 46"
);

/// The end of the help of `trace`.
pub const TRACE: &str = script_ending!(
    "Prints a line for each test and action of a script, with its place and result, or for each step of\n\
     a program; then what `eval` or `run` prints. It files nothing.",
    "depot trace filter.sieve mail.eml",
    "1 to 3, 11 to 27, 45, 46"
);

/// The end of the help of `parts`.
pub const PARTS: &str = ending!(
    "The first line is the message itself, number 0 at depth 1. Length and SHA-256 are those of the\n\
     decoded content.",
    "depot parts mail.eml",
    "1 to 3, 45, 46"
);

/// The end of the help of `encode`.
pub const ENCODE: &str = ending!(
    "Writes the text to standard output. base64, base32, base32hex and base16 give one line, without a\n\
     line break at its end.",
    "depot encode base64 < file > text",
    "1, 2, 45, 46"
);

/// The end of the help of `decode`.
pub const DECODE: &str = ending!(
    "Writes the bytes to standard output. A text in base64, base32, base32hex or base16 can't have line\n\
     breaks; use base64-mime for base64 with line breaks.",
    "depot decode base64 < text > file",
    "1, 2, 10, 45, 46"
);

/// The end of the help of `init`.
pub const INIT: &str = ending!(
    "Makes the folder DIR with its first volume, 00000001.depot, and prints `made` and its name. From\n\
     then on DIR can stand for DB in most commands, which answer as if everything were in one file. When\n\
     the newest volume has 8 MiB, the next delivery begins another: a command opens only the volumes that\n\
     it needs. batch, scrub and catalog take one file, so they take a volume, and not DIR.",
    "depot init archive",
    "1, 43, 45"
);

/// The end of the help of `script`.
pub const SCRIPT: &str = user_ending!(
    "Prints `stored`. With an empty script, as without a filter, every message is kept. The depot has\n\
     only the compiled program: keep the script.",
    "depot script mail.depot ann filter.sieve",
    "1, 2, 11 to 19, 43 to 46",
    "\n`depot explain SCRIPT` describes what is wrong with a script."
);

/// The end of the help of `code`.
pub const CODE: &str = user_ending!(
    "Prints `stored`. A program that `verify` refuses is not stored.",
    "depot code mail.depot ann filter.svbc",
    "1, 2, 20 to 27, 43 to 46"
);

/// The end of the help of `program`.
pub const PROGRAM: &str = user_ending!(
    "Prints `wrote N octets`, the size of OUT in bytes.",
    "depot program mail.depot ann filter.svbc",
    "1, 40, 43 to 45"
);

/// The end of the help of `deliver`.
pub const DELIVER: &str = user_ending!(
    "Prints a line for each new entry, or `none`: its number, `message` or `part`, and its folder.\n\
     Without a filter the message is filed in the folder INBOX.",
    "depot deliver mail.depot ann mail.eml",
    "1 to 3, 41 to 46"
);

/// The end of the help of `list`.
pub const LIST: &str = user_ending!(
    "Prints a line for each entry, or `none`: its number, `message` or `part`, its folder, its name, its\n\
     media type, and its length in bytes.",
    "depot list mail.depot ann",
    "1, 43 to 45"
);

/// The end of the help of `since`.
pub const SINCE: &str = user_ending!(
    "Prints a line for each entry whose number is above NUMBER, as `list` does, or `none`; 0 lists all.\n\
     New entries get higher numbers, so a program that fetches new mail keeps the highest number that it\n\
     has seen.",
    "depot since mail.depot ann 41",
    "1, 43 to 45"
);

/// The end of the help of `catalog`.
pub const CATALOG: &str = user_ending!(
    "Prints a JSON object for each entry, an entry a line, and nothing if there is none: what `list`\n\
     prints, the SHA-256, which messages have the content of a part, and for a message its main header\n\
     fields, its number of parts, and which entries have their contents. docs/INTERFACE.md has the\n\
     members. With NUMBER, only entries above it are described, as `since` lists them.",
    "depot catalog mail.depot ann",
    "1, 43 to 45"
);

/// The end of the help of `export`.
pub const EXPORT: &str = user_ending!(
    "Writes the entry to standard output. `raw` gives its bytes as they are.",
    "depot export mail.depot ann 1 raw > attached",
    "1, 40, 43 to 45"
);

/// The end of the help of `remove`.
pub const REMOVE: &str = user_ending!(
    "Prints `removed NUMBER`. The number is not used again.",
    "depot remove mail.depot ann 2",
    "1, 40, 43 to 45"
);

/// The end of the help of `migrate`.
pub const MIGRATE: &str = ending!(
    "Prints `migrated N`, how many filters it converted: all of them, or none. What a filter does stays\n\
     the same.",
    "depot migrate mail.depot",
    "1, 43, 45"
);

/// The end of the help of `inspect`.
pub const INSPECT: &str = concat!(
    "Prints `depot`, the length of its log, a line for each user, and the number and size of its\n",
    "contents; or `no depot:` and the reason, with status 1. It makes no depot. Like every command on a\n",
    "depot it makes a missing log, and needs the right to write. Of a folder it prints the path of each\n",
    "volume and these lines, up to the first that is no depot, and at the end the number of volumes.\n\n",
    "Example:\n  depot inspect mail.depot\n\n",
    "Status 0: it is a depot. 1: it is not, or the command is refused, with the refusal's number and\n",
    "name on standard error. 2: the words are not a command, or ask for help.\n",
    "Refusals: 1, 43, 45. `depot help NUMBER` explains each, and what to do."
);

/// The end of the help of `scrub`.
pub const SCRUB: &str = concat!(
    "Prints `contents N` and `octets N`, the number and size of the contents; `damaged N`, how many of\n",
    "them don't have the SHA-256 under which they are stored; and a line for each entry with such a\n",
    "content: its number, its user and its folder. It reads every content, changes nothing, and makes no\n",
    "depot. Until it ends, other commands on DB wait, and are refused 43 after ten seconds. If DB is no\n",
    "depot, `depot inspect DB` prints why.\n\n",
    "Example:\n  depot scrub mail.depot\n\n",
    "Status 0: no content is damaged. 1: one is, or the command is refused, with the refusal's number\n",
    "and name on standard error. 2: the words are not a command, or ask for help.\n",
    "Refusals: 1, 43, 45. `depot help NUMBER` explains each, and what to do."
);

/// The end of the help of `batch`.
pub const BATCH: &str = concat!(
    "The lines are commands without DB:\n",
    "  script USER SCRIPT, code USER PROGRAM, deliver USER MESSAGE, list USER,\n",
    "  since USER NUMBER, catalog USER NUMBER, export USER NUMBER ENCODING FILE,\n",
    "  remove USER NUMBER, migrate\n",
    "One space separates two words. A word with a space, a quotation mark or a line break is written in\n",
    "quotation marks; in these \\22 is a quotation mark, \\5c a backslash, \\0a a line break.\n",
    "Each answer is on standard output, with a line after it: = 0 (done), = 1 (refused), or = 2 (not a\n",
    "command; then the answer begins with ?).\n",
    "If the first line is `json`, it has no answer, and each later line gets a JSON object on one line.\n",
    "Until the batch ends, other commands on DB wait, and are refused 43 after ten seconds; `inspect` and\n",
    "`scrub` don't wait. After a line that is refused 43 the batch ends, and later lines have no answer.\n\n",
    "Example:\n  echo deliver ann mail.eml | depot batch mail.depot\n\n",
    "Status 0: the input has ended. 1: a line was refused 43, or the batch itself is refused 1, 43, 45 or\n",
    "46, which is on standard error. 2: the words are not a command, or ask for help.\n",
    "`depot help NUMBER` explains each refusal, and what to do."
);
