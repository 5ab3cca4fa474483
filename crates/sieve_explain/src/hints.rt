// What is said about a name that isn't known in its place.
//
// A short fixed table has commands, tests, tags and capabilities of other Sieve programs that depot doesn't have, with
// the reason or with what to write instead. Any other name is unknown; if it is one letter off from a known one, that
// one is suggested.
ghost use Rattle.std.specs.Prelude.{◌≡◌};
ghost use Rattle.std.specs.List.{list_any};
ghost use Rattle.octets.specs.Ascii.{is_word};
ghost use Rattle.sieve_explain.specs.Hints.{known_tags, lacking, meant, meant_too, unknown, unknown_capability, unknown_command, unknown_tag, unknown_test};
ghost use Rattle.sieve_explain.specs.Private.{vocabulary_of, blanks_of};

use crate::sentence::{Sentence, plain};
use crate::words::{Names, Row, is_any, nearest, nearest_but, with_words, words_for};
use sieve_check::{command_named, test_named};

/// The names of one kind, and the sentences for a name that is none of them.
pub struct Vocabulary {
    /// What depot has instead of some names of other programs.
    pub elsewhere: &'static [Row],
    /// The names.
    pub names: Names,
    /// The sentence for a name that depot doesn't have.
    pub lacks: &'static str,
    /// The sentence for a name that probably means one of these.
    pub hinting: &'static str,
    /// The sentence for a name that can mean one of two.
    pub hinting_two: &'static str,
    /// The sentence for any other name.
    pub alone: &'static str,
}

// The commands.
const COMMANDS: &Vocabulary = &Vocabulary {
    elsewhere: &[
        (&["elseif", "elif", "else_if"], "elsif"),
        (&["file", "move"], "fileinto"),
        (&["delete", "drop"], "discard"),
        (&["foreach", "for"], "foreverypart"),
        (&["save"], "store"),
        (&["exit", "return"], "stop"),
    ],
    names: Names::Commands,
    lacks: "depot has no @: &",
    hinting: "unknown command @, did you mean `&`?",
    hinting_two: "unknown command @, did you mean `&` or `~`?",
    alone: "unknown command @",
};

// The tests.
const TESTS: &Vocabulary = &Vocabulary {
    elsewhere: &[
        (&["all", "and"], "allof"),
        (&["any", "or"], "anyof"),
        (
            &["subject", "from", "to", "is", "contains", "matches"],
            "header",
        ),
        (&["filesize"], "size"),
    ],
    names: Names::Tests,
    lacks: "depot has no @: &",
    hinting: "unknown test @, did you mean `&`?",
    hinting_two: "unknown test @, did you mean `&` or `~`?",
    alone: "unknown test @",
};

// The names of the tags.
const TAG_WORDS: &[&str] = &[
    "over",
    "under",
    "is",
    "contains",
    "matches",
    "comparator",
    "lower",
    "upper",
    "lowerfirst",
    "upperfirst",
    "quotewildcard",
    "length",
    "mime",
    "anychild",
    "type",
    "subtype",
    "contenttype",
    "param",
    "name",
    "first",
];

// The tags.
const TAGS: &Vocabulary = &Vocabulary {
    elsewhere: &[],
    names: Names::Words(TAG_WORDS),
    lacks: "depot has no #: &",
    hinting: "unknown tag #, did you mean `:&`?",
    hinting_two: "unknown tag #, did you mean `:&` or `:~`?",
    alone: "unknown tag #",
};

// The capabilities. All are listed if none is similar.
const CAPABILITIES: &Vocabulary = &Vocabulary {
    elsewhere: &[],
    names: Names::Words(&[
        "fileinto",
        "variables",
        "mime",
        "foreverypart",
        "vnd.depot",
        "comparator-i;octet",
        "comparator-i;ascii-casemap",
    ]),
    lacks: "depot has no $: &",
    hinting: "unknown capability $, did you mean \"&\"?",
    hinting_two: "unknown capability $, did you mean \"&\" or \"~\"?",
    alone: "unknown capability $: depot has \"fileinto\", \"variables\", \"mime\", \"foreverypart\", \"vnd.depot\", \
        \"comparator-i;octet\" and \"comparator-i;ascii-casemap\"",
};

// Why depot doesn't have a command, a test, a tag or a capability of other Sieve programs, or what it has instead.
const LACKING: &[Row] = &[
    (
        &[
            "vacation",
            "vacation-seconds",
            "redirect",
            "reject",
            "ereject",
            "notify",
            "enotify",
        ],
        "it sends no mail, the mail server can do that",
    ),
    (
        &[
            "addflag",
            "setflag",
            "removeflag",
            "hasflag",
            "flags",
            "imap4flags",
            "imapflags",
        ],
        "its entries have no flags, file into a folder instead",
    ),
    (
        &[
            "addheader",
            "deleteheader",
            "editheader",
            "replace",
            "enclose",
        ],
        "it doesn't change messages",
    ),
    (
        &["extracttext"],
        "`take` sets a variable to the content of a part, inside a `foreverypart`",
    ),
    (
        &["include"],
        "a script is a single file, put all commands into it",
    ),
    (
        &["copy"],
        "a `keep` and a `fileinto` together file a message twice",
    ),
    (
        &["address", "subaddress", "localpart", "domain", "detail"],
        "`header` tests the whole value of a field, as in `header :matches \"From\" [\"a@b\", \"*<a@b>*\"]`",
    ),
    (&["index"], "`header` tests all fields of a name"),
    (
        &["envelope"],
        "it sees only the message, `header` can test \"Delivered-To\" if the mail server adds it",
    ),
    (&["environment"], "it sees only the message"),
    (
        &["body"],
        "`partbody` tests the content of a part, inside a `foreverypart`",
    ),
    (&["date", "currentdate"], "it doesn't compare times"),
    (
        &["relational", "count", "value", "comparator-i;ascii-numeric"],
        "only `size` and `partsize` compare numbers",
    ),
    (&["regex"], "use the wildcards of `:matches`"),
    (
        &["spamtest", "spamtestplus", "virustest"],
        "`header` can test the field that a scanner adds",
    ),
    (
        &["mailbox", "mailboxexists", "create"],
        "a folder exists once something is filed into it",
    ),
    (&["duplicate"], "a script doesn't see earlier messages"),
    (
        &["ihave"],
        "every capability that a script requires has to exist",
    ),
    (
        &["encoded-character"],
        "write the character itself, strings can contain any",
    ),
];

// Why depot doesn't have this name, which other programs have; otherwise nothing.
#[tactic(auto, unfolding(crate::specs::Hints::lacking))]
fn lacking(name: &[u8]) -> &'static str
    ensures { result.now ≡ lacking name.now }
{
    words_for(name, LACKING)
}

// The name that is probably meant, or nothing if none is similar.
#[tactic(auto, unfolding(crate::specs::Hints::meant))]
fn meant(name: &[u8], known: &Vocabulary) -> &'static str
    ensures { result.now ≡ meant name.now (vocabulary_of known.now) }
{
    let elsewhere = words_for(name, known.elsewhere);
    with_words(elsewhere, elsewhere, nearest(name, &known.names))
}

// Another name that can be meant, if one is as similar; otherwise nothing.
#[tactic(auto, unfolding(crate::specs::Hints::meant_too))]
fn meant_too(name: &[u8], known: &Vocabulary) -> &'static str
    ensures { result.now ≡ meant_too name.now (vocabulary_of known.now) }
{
    let elsewhere = words_for(name, known.elsewhere);
    let nearest = nearest(name, &known.names);
    with_words(elsewhere, "", nearest_but(name, nearest, &known.names))
}

// The sentence for an unknown name: with the reason why depot doesn't have it, or else with what it probably means, if
// there is either.
fn unknown<'a>(name: &'a [u8], known: &Vocabulary) -> Sentence<'a>
    ensures { blanks_of result ≡ unknown name.now (vocabulary_of known.now) }
{
    let lacking = lacking(name);
    let meant = meant(name, known);
    let others = meant_too(name, known);
    let hinting = with_words(others, known.hinting_two, known.hinting);
    let unlisted = with_words(meant, hinting, known.alone);
    Sentence {
        text: with_words(lacking, known.lacks, unlisted),
        name,
        subject: name,
        words: with_words(lacking, lacking, meant),
        others,
        number: 0,
    }
}

/// The sentence for a name in the place of a command.
#[tactic(auto, unfolding(crate::specs::Hints::unknown_command))]
pub fn unknown_command(name: &[u8]) -> Sentence<'_>
    ensures { blanks_of result ≡ unknown_command name.now }
{
    if test_named(name).is_some() {
        return Sentence {
            name,
            ..plain("@ is a test: is an `if` missing before it?")
        };
    }
    unknown(name, COMMANDS)
}

/// The sentence for a name in the place of a test.
#[tactic(auto, unfolding(crate::specs::Hints::unknown_test))]
pub fn unknown_test(name: &[u8]) -> Sentence<'_>
    ensures { blanks_of result ≡ unknown_test name.now }
{
    if command_named(name).is_some() {
        return Sentence {
            name,
            ..plain("@ is a command, but a test is needed here")
        };
    }
    unknown(name, TESTS)
}

/// The sentence for a tag.
#[tactic(auto, unfolding(crate::specs::Hints::unknown_tag))]
pub fn unknown_tag(tag: &[u8]) -> Sentence<'_>
    ensures { blanks_of result ≡ unknown_tag tag.now }
{
    unknown(tag, TAGS)
}

/// Whether a tag has this name.
pub fn is_tag(name: &[u8]) -> bool
    ensures { result ≡ list_any (is_word name.now) known_tags.names }
{
    is_any(name, TAG_WORDS)
}

/// The sentence for a capability.
#[tactic(auto, unfolding(crate::specs::Hints::unknown_capability))]
pub fn unknown_capability(capability: &[u8]) -> Sentence<'_>
    ensures { blanks_of result ≡ unknown_capability capability.now }
{
    unknown(capability, CAPABILITIES)
}
