// What each refusal means and what to do, for users who get one: a short form of the table of refusals in
// docs/INTERFACE.md.

/// The text of `depot help` for one refusal.
struct Meaning {
    /// The refusal's number, in digits.
    number: &'static str,
    /// The refusal's name.
    name: &'static str,
    /// When the refusal comes, and what to do.
    text: &'static str,
}

// A refusal's text: its number and name, when it comes, and what to do.
macro_rules! meaning {
    ($number:literal, $name:literal, $when:literal, $advice:literal) => {
        Meaning {
            number: $number,
            name: $name,
            text: concat!(
                $number, " ", $name, "\n\n", $when, "\n\n", $advice, "\n",
            ),
        }
    };
}

const MEANINGS: &[Meaning] = &[
    meaning!(
        "1",
        "Memory",
        "An allocation failed. The command changed nothing in a depot; earlier lines of a batch are done. An\n\
         export or a trace can have written a part of its answer. In a batch in JSON an answer that is\n\
         incomplete was done or refused as its status says.",
        "Free memory, or raise the memory limit of the process."
    ),
    meaning!(
        "2",
        "MessageTooLarge",
        "A file or standard input has more than 67,108,864 bytes.",
        "Split the message, or archive it elsewhere. If the command reads several files, it is the first one\n\
         that is too large, in the order of the words: `ls -l` shows which."
    ),
    meaning!(
        "3",
        "TooManyParts",
        "The message has more than 4,096 parts.",
        "Often it is a bounce from a broken mail program. Archive it elsewhere: a depot can't take it."
    ),
    meaning!(
        "10",
        "NotCanonical",
        "The text on standard input is not in this encoding, exactly as `depot encode` writes it. (base16 can\n\
         have digits in lower case. base64-mime, qp and raw are never refused.)",
        "Remove line breaks, also the one at the end, or decode base64 as base64-mime."
    ),
    meaning!(
        "11",
        "Lexical",
        "At this byte of the script, counted from 0, no token begins; or a string or comment that begins\n\
         there is never closed; or a number there is too large.",
        "`depot explain SCRIPT` shows the place. At 0 it is often a byte order mark: save the script without\n\
         one. If the file is a message, the words are in the wrong order: SCRIPT comes before MESSAGE. If it\n\
         is a program, use `depot run`."
    ),
    meaning!(
        "12",
        "ScriptTooLong",
        "The script has more than 65,536 bytes.",
        "Make it shorter. The lists of one test can have up to 512 strings."
    ),
    meaning!(
        "13",
        "Syntax",
        "The script has a syntax error at this token, counted from 0.",
        "`depot explain SCRIPT` shows the place. Often a `;` or a bracket is missing before it."
    ),
    meaning!(
        "14",
        "TooDeep",
        "More than 32 braces and test names enclose this token of the script, counted from 0.",
        "`depot explain SCRIPT` shows the place. Use elsif, allof and anyof instead of nesting."
    ),
    meaning!(
        "15",
        "UnknownCommand",
        "At this token of the script, counted from 0, is an unknown command or test, a command where a test\n\
         is needed, or a test where a command is needed.",
        "`depot explain SCRIPT` shows the place, and what to write instead. docs/GALLERY.md has a table of\n\
         what to write for address, envelope, redirect and others."
    ),
    meaning!(
        "16",
        "MissingCapability",
        "The command or test at this token of the script, counted from 0, needs a `require` before it.",
        "`depot explain SCRIPT` shows which. Add it to a `require` at the start of the script."
    ),
    meaning!(
        "17",
        "UnknownCapability",
        "The `require` at this token of the script, counted from 0, names a capability that depot doesn't\n\
         have.",
        "`depot explain SCRIPT` shows which, and what to write instead."
    ),
    meaning!(
        "18",
        "BadArguments",
        "The command or test at this token of the script, counted from 0, is in a wrong place, or has\n\
         arguments, tests or an end that it doesn't take; or one of its strings has a reference that isn't\n\
         possible.",
        "`depot explain SCRIPT` shows the place, and what it takes."
    ),
    meaning!(
        "19",
        "Limit",
        "The command or test at this token of the script, counted from 0, exceeds a limit: 16,384 bytes in a\n\
         string, 256 segments in a string (references, and the texts between them), 512 strings in the lists\n\
         of a test, 32 bytes in a variable's name, 128 variables, or 3 nested loops.",
        "`depot explain SCRIPT` shows which. Split a test into several in an anyof or allof; use a variable\n\
         again; one loop visits parts of all depths."
    ),
    meaning!(
        "20",
        "Spelling",
        "The file is not a filter program (bytecode), is only a part of one, or has more than 4,194,304\n\
         bytes.",
        "Compile or copy it again. A script is for check, compile and eval. In run the program comes before\n\
         the message."
    ),
    meaning!(
        "21",
        "Index",
        "This instruction of the program, counted from 0, names a number, a string or a variable that isn't\n\
         there.",
        "`depot disassemble PROGRAM` shows the place. Correct the instruction or the table."
    ),
    meaning!(
        "22",
        "Form",
        "This instruction of the program, counted from 0, has an unknown operation or a field out of range.",
        "`depot disassemble PROGRAM` shows the place. docs/BYTECODE.md has the range of each field."
    ),
    meaning!(
        "23",
        "End",
        "The last instruction of the program, at this place counted from 0, isn't HALT.",
        "Add a HALT."
    ),
    meaning!(
        "24",
        "Loop",
        "At this instruction of the program, counted from 0, is an EACH or a NEXT without its counterpart, a\n\
         fourth nested loop, or a BREAK out of more loops than are open.",
        "`depot disassemble PROGRAM` shows the place. Correct the pair, or the number of loops."
    ),
    meaning!(
        "25",
        "Jump",
        "The jump at this instruction of the program, counted from 0, isn't forward, leaves the program, or\n\
         enters or leaves a loop.",
        "`depot disassemble PROGRAM` shows the place. Jump forward, within the loop."
    ),
    meaning!(
        "26",
        "NoPart",
        "This instruction of the program, counted from 0, is about the current part, but is outside all\n\
         loops.",
        "`depot disassemble PROGRAM` shows the place. Put the instruction into a loop."
    ),
    meaning!(
        "27",
        "Stack",
        "The entries on the stack don't fit this instruction of the program, counted from 0.",
        "`depot disassemble PROGRAM` shows the place. Leave the stack empty at jumps and their targets."
    ),
    meaning!(
        "28",
        "Listing",
        "At this byte of the listing, counted from 0, is something that can't be there, or a label that is\n\
         defined again or missing; or, at the end of the listing, its program exceeds a limit.",
        "`depot assemble LISTING OUT` shows the place and describes the mistake."
    ),
    meaning!(
        "40",
        "NoSuchEntry",
        "The user has no entry of this number; or, for `program`, no filter.",
        "`depot list DB USER` shows the entries. The number of a removed entry is not used again. If entries\n\
         are missing, look at the order of the words: DB comes first, then USER."
    ),
    meaning!(
        "41",
        "NumberFull",
        "The user has too few numbers left for the new entries: the last one is 4,294,967,295.",
        "Deliver to another user."
    ),
    meaning!(
        "42",
        "Collision",
        "The depot has another content with the same SHA-256 as one that is to be filed.",
        "Almost certainly the disk changed the stored content: `depot scrub DB` finds out. See \"Bytes that\n\
         changed on the disk\" in docs/OPERATING.md. Deliver the message into another depot."
    ),
    meaning!(
        "43",
        "Database",
        "The file DB can't be opened or made, is no depot, or stayed open in another process for ten seconds;\n\
         its disk is full or failed; a stored filter is no longer an accepted program; or a content that is\n\
         exported, described or scrubbed was altered: its bytes don't have the SHA-256 under which they are\n\
         stored. Or the folder DB lacks a volume, or DIR of `init` is there and isn't empty.",
        "`depot inspect DB` reports which; it makes no depot. If it prints `depot`, another process kept the\n\
         file open, so try again, or the disk is full. If it prints `program refused` for a user, store this\n\
         user's filter again. If it prints that there is no such file, look at the rights of the folder.\n\
         If DB is a folder, it reports its volumes one by one. batch, scrub and catalog don't take a folder.\n\
         `depot scrub DB` lists the entries with altered contents. Such an entry can't be exported, and\n\
         nothing of it is written: see \"Bytes that changed on the disk\" in docs/OPERATING.md.\n\
         The command changed nothing in the depot, unless the disk failed at the last moment: then it can be\n\
         done. A batch ends with this refusal; its earlier lines are done."
    ),
    meaning!(
        "44",
        "UserName",
        "This is not the name of a user.",
        "A name is 1 to 64 characters from a to z (lower case), 0 to 9, dot, underscore and hyphen; it has\n\
         no @. DB comes first, then USER."
    ),
    meaning!(
        "45",
        "Write",
        "OUT or FILE couldn't be written, and a regular file of this name is as it was; or standard output\n\
         failed, and everything except the answer is done.",
        "If the command has OUT or FILE, look at the rights of its folder and the room on its disk (`df`),\n\
         because a new file is written there and renamed. It can't be the file that is read, nor the depot,\n\
         nor have one of their names with -wal, -shm or -journal appended. Otherwise it is standard output:\n\
         its disk is full, or the program that reads it has ended. Don't repeat a command that changes a\n\
         depot: it is done. Of a batch the last lines can be done: look before you repeat them."
    ),
    meaning!(
        "46",
        "Read",
        "A file or standard input couldn't be read. Nothing was done, except by earlier lines of a batch.",
        "It is the first file that can't be read, in the order of the words: `cat FILE .. > /dev/null` with\n\
         the same files says which, and why. A folder can't be read. `-` is an ordinary file name; standard\n\
         input is /dev/stdin."
    ),
];

/// The text of `depot help` for a number that no refusal has.
const NO_REFUSAL: &str =
    "No refusal has this number. The numbers are 1 to 3, 10 to 28 and 40 to 46.\n";

/// Returns what the refusal with this number or name means and what to do; a name can have letters of either case. For
/// another number the text says that no refusal has it. `None` if the word is neither a number nor a name.
pub fn meaning_of(word: &str) -> Option<&'static str> {
    if is_number(word) {
        return Some(meaning_of_number(word.trim_start_matches('0')));
    }
    let named = MEANINGS.iter().find(|meaning| is_name(word, meaning.name));
    named.map(|meaning| meaning.text)
}

// Returns the text for a number in digits, without zeros before it.
fn meaning_of_number(digits: &str) -> &'static str {
    let numbered = MEANINGS.iter().find(|meaning| meaning.number == digits);
    numbered.map_or(NO_REFUSAL, |meaning| meaning.text)
}

// Returns whether a word is a number in decimal digits.
fn is_number(word: &str) -> bool {
    !word.is_empty() && word.bytes().all(|octet| octet.is_ascii_digit())
}

// Returns whether a word is this name of a refusal. `limit` is a command, which has a help of its own.
fn is_name(word: &str, name: &str) -> bool {
    word != "limit" && word.eq_ignore_ascii_case(name)
}
