// The words of a line.
//
// A line of a batch has a grammar of its own. The command line's grammar is built again each time that it reads words,
// and each line would pay for that. Options and help make no sense there, and no shell removes quotation marks. So a
// line has its words with one space between each two, and texts in quotation marks are written as `depot` prints them.
ghost use Rattle.std.specs.Prelude.{◌≡◌, IfOk, length, ◌≤◌, map, option_map};
ghost use Rattle.std.specs.List.{list_any};
ghost use Rattle.depot_batch.specs.Words.{Plain, is_gap, is_quoted_after, is_quote, said_from, texts_of, word_in, words_of};
ghost use Rattle.depot_batch.specs.Private.{parted_at};

use octets::{first, said_of};
use std::alloc::{AllocError, Global};

/// Returns the words of a line, in their order, or `None` if it isn't made of words. Words are separated by one space;
/// a word in double quotes is written as `depot` prints it. For example, `deliver ann examples/invoice.eml` has three
/// words.
///
/// # Errors
///
/// `AllocError` if memory is refused.
pub fn words_of(alloc: Global, line: &[u8]) -> Result<Option<Vec<Vec<u8>>>, AllocError>
    ensures { IfOk result (λ found. option_map (λ words. map (λ w. w.items) words.items) found
        ≡ words_of line.now) }
{
    let texts = texts_of(alloc, line)?;
    let mut words = Vec::new(alloc);
    'texts: for text in texts.iter() {
        match word_in(alloc, text)? {
            Some(word) => words.push(word)?,
            None => return Ok(None),
        }
    }
    Ok(Some(words))
}

// The texts between the spaces of a line that aren't inside quotes.
fn texts_of<'a>(alloc: Global, line: &'a [u8]) -> Result<Vec<&'a [u8]>, AllocError>
    ensures { IfOk result (λ texts. map (λ t. t.now) texts.items ≡ texts_of line.entry.now) }
{
    let mut texts = Vec::new(alloc);
    let mut rest = line;
    'texts: loop {
        let (text, after) = rest.split_at(first_len(rest));
        texts.push(text)?;
        match after {
            [_, later @ ..] => rest = later,
            [] => return Ok(texts),
        }
    }
}

// The number of bytes before the first space that isn't inside quotes.
fn first_len(octets: &[u8]) -> usize
    ensures bound { result ≤ length octets.now }
    ensures first { texts_of octets.now ≡ parted_at result octets.now }
{
    let mut len = 0;
    let mut quoted = false;
    'octets: while len < octets.len() {
        let octet = octets[len];
        if is_gap(octet, quoted) {
            return len;
        }
        quoted = is_quoted_after(octet, quoted);
        len += 1;
    }
    len
}

// Whether a byte ends a text.
fn is_gap(octet: u8, quoted: bool) -> bool
    ensures { result ≡ is_gap octet quoted }
{
    octet == b' ' && !quoted
}

// Whether what comes after a byte is inside quotes.
fn is_quoted_after(octet: u8, quoted: bool) -> bool
    ensures { result ≡ is_quoted_after octet quoted }
{
    if octet == b'"' { !quoted } else { quoted }
}

// The word that a text stands for.
fn word_in(alloc: Global, text: &[u8]) -> Result<Option<Vec<u8>>, AllocError>
    ensures { IfOk result (λ said. option_map (λ w. w.items) said ≡ word_in text.now) }
{
    match text {
        [] => Ok(None),
        [b'"', rest @ ..] => said_in(alloc, rest),
        [_, rest @ ..] if has_quote(rest) => Ok(None),
        _ => Ok(Some(text.to_vec(alloc)?)),
    }
}

// Whether there is a quotation mark among bytes.
fn has_quote(octets: &[u8]) -> bool
    ensures { result ≡ list_any is_quote octets.now }
{
    octets.iter().any(|octet| *octet == b'"')
}

// The word up to the quotation mark that ends a text.
fn said_in(alloc: Global, octets: &[u8]) -> Result<Option<Vec<u8>>, AllocError>
    ensures { IfOk result (λ said. option_map (λ w. w.items) said ≡ said_from Plain octets.now) }
{
    let mut said = Vec::new(alloc);
    let mut rest = octets;
    'octets: while let Some((octet, after)) = first(rest) {
        if octet == b'"' {
            if after.is_empty() {
                return Ok(Some(said));
            }
            return Ok(None);
        }
        match said_of(octet, after) {
            Some((one, later)) => {
                said.push(one)?;
                rest = later;
            }
            None => return Ok(None),
        }
    }
    Ok(None)
}
