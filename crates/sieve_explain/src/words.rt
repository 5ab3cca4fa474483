// Tables of words, and words that are one letter off.
ghost use Rattle.std.specs.Prelude.{◌≡◌, map};
ghost use Rattle.std.specs.List.{list_any};
ghost use Rattle.octets.specs.Ascii.{is_word};
ghost use Rattle.sieve_explain.specs.Words.{begin_off, begin_swapped, differ_at, is_near, nearest, nearest_but, with_words, words_for};
ghost use Rattle.sieve_check.specs.Rows.{command_word, test_word};
ghost use Rattle.sieve_explain.specs.Private.{hint_of, names_of, texts_of};

use octets::is_word;
use readable_text::places::around;
use sieve_check::{CommandName, TestName, all_commands, all_tests, command_word, test_word};

/// The names of one kind.
pub enum Names {
    /// The names of all commands.
    Commands,
    /// The names of all tests.
    Tests,
    /// These names.
    Words(&'static [&'static str]),
}

/// A row of a table: names, and the words for each of them.
pub type Row = (&'static [&'static str], &'static str);

/// Whether the name is one of the words, apart from the case of ASCII letters.
pub fn is_any(name: &[u8], words: &[&str]) -> bool
    ensures { result ≡ list_any (is_word name.now) (texts_of words.now) }
{
    for word in words {
        if is_word(name, word.as_bytes()) {
            return true;
        }
    }
    false
}

/// The words of the first row that has the name; otherwise none.
pub fn words_for(name: &[u8], rows: &[Row]) -> &'static str
    ensures { result.now ≡ words_for name.now (map hint_of rows.now) }
{
    for (names, words) in rows {
        if is_any(name, names) {
            return words;
        }
    }
    ""
}

/// `some` if there are words, and `none` if there are none.
pub fn with_words(words: &'static str, some: &'static str, none: &'static str) -> &'static str
    ensures { result.now ≡ with_words words.now some.now none.now }
{
    if words.is_empty() { none } else { some }
}

// Whether the first two bytes are swapped, and everything else is the same.
fn begin_swapped(a: &[u8], b: &[u8]) -> bool
    ensures { result ≡ begin_swapped a.now b.now }
{
    let (first_a, behind_a) = around(a, 1);
    let (first_b, behind_b) = around(b, 1);
    let (second_a, _) = around(behind_a, 1);
    let (second_b, _) = around(behind_b, 1);
    let (_, rest_a) = around(a, 2);
    let (_, rest_b) = around(b, 2);
    is_word(first_a, second_b) && is_word(second_a, first_b) && is_word(rest_a, rest_b)
}

// Whether the first byte is different, is missing, is one too many, or is swapped with the next, and everything else is
// the same.
#[tactic(auto, unfolding(crate::specs::Words::begin_off))]
fn begin_off(a: &[u8], b: &[u8]) -> bool
    ensures { result ≡ begin_off a.now b.now }
{
    let (_, behind_a) = around(a, 1);
    let (_, behind_b) = around(b, 1);
    is_word(behind_a, behind_b)
        || is_word(a, behind_b)
        || is_word(behind_a, b)
        || begin_swapped(a, b)
}

// Whether this holds at the place before which both are the same.
#[tactic(auto, unfolding(crate::specs::Words::differ_at))]
fn differ_at(a: &[u8], b: &[u8], place: usize) -> bool
    ensures { result ≡ differ_at a.now b.now place }
{
    let (before_a, from_a) = around(a, place);
    let (before_b, from_b) = around(b, place);
    is_word(before_a, before_b) && begin_off(from_a, from_b)
}

// Whether the name is the word, apart from one letter or from the case of ASCII letters.
#[tactic(auto, unfolding(crate::specs::Words::is_near))]
fn is_near(name: &[u8], word: &[u8]) -> bool
    ensures { result ≡ is_near name.now word.now }
{
    (0..word.len() + 1).any(|place| differ_at(name, word, place))
}

// The first of the words that is near and wasn't found before; otherwise nothing.
fn nearest_word(name: &[u8], found: &str, words: &[&'static str]) -> &'static str
    ensures { result.now ≡ nearest_but name.now found.now (texts_of words.now) }
{
    for word in words {
        if is_near(name, word.as_bytes()) && !is_word(word.as_bytes(), found.as_bytes()) {
            return word;
        }
    }
    ""
}

// The same for the names of commands.
fn nearest_command(name: &[u8], found: &str, commands: &[CommandName]) -> &'static str
    ensures { result.now ≡ nearest_but name.now found.now (map command_word commands.now) }
{
    for known in commands {
        let word = command_word(*known);
        if is_near(name, word.as_bytes()) && !is_word(word.as_bytes(), found.as_bytes()) {
            return word;
        }
    }
    ""
}

// The same for the names of tests.
fn nearest_test(name: &[u8], found: &str, tests: &[TestName]) -> &'static str
    ensures { result.now ≡ nearest_but name.now found.now (map test_word tests.now) }
{
    for known in tests {
        let word = test_word(*known);
        if is_near(name, word.as_bytes()) && !is_word(word.as_bytes(), found.as_bytes()) {
            return word;
        }
    }
    ""
}

/// The first of the names that is near and wasn't found before; otherwise nothing.
pub fn nearest_but(name: &[u8], found: &str, names: &Names) -> &'static str
    ensures { result.now ≡ nearest_but name.now found.now (names_of names.now) }
{
    match names {
        Names::Commands => nearest_command(name, found, all_commands()),
        Names::Tests => nearest_test(name, found, all_tests()),
        Names::Words(words) => nearest_word(name, found, words),
    }
}

/// The first of the names that is near; otherwise nothing.
pub fn nearest(name: &[u8], names: &Names) -> &'static str
    ensures { result.now ≡ nearest name.now (names_of names.now) }
{
    nearest_but(name, "", names)
}
