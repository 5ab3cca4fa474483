// What values and headers match.
ghost use Rattle.std.specs.Prelude.{◌≡◌, true};
ghost use Rattle.mail_matching.specs.Texts.{AreTexts};

use crate::numbers::{number_of, print_size};
use crate::printed::Printed;
use bytecode_format::{FieldTest, Question, Scope, Selector};
use glob_match::{Captures, Comparator, MAX_CAPTURES, Match, MatchType, contains, is, matches};
use lanes_base64_mime::encode_mime;
use mail_matching::{Need, Nobody, Outcome, Progress, Shown, TestTexts, ask};
use mime_decode::{Message, digest_of};
use octets::{MAX_STRING, Octets};
use sieve_meaning::Subject;
use std::alloc::{AllocError, Global};
use std::mem;

/// No value and no key is longer.
const MOST: usize = 100_000;

/// Answers a call; false where there is no such call.
pub fn answer(alloc: Global, call: &str, arguments: &[Vec<u8>], answer: &mut Printed) -> bool {
    match known(alloc, call, arguments, answer) {
        Ok(known) => known,
        Err(AllocError) => {
            answer.refuse();
            true
        }
    }
}

fn known(
    alloc: Global,
    call: &str,
    arguments: &[Vec<u8>],
    answer: &mut Printed,
) -> Result<bool, AllocError> {
    match call {
        "is" | "contains" | "matches" => Ok(compared(call, arguments, answer)),
        "contained" | "placed" => placed_everywhere(alloc, call, arguments, answer),
        "exists" => existence(alloc, arguments, answer),
        "header" => headers(alloc, arguments, answer),
        "body" => bodies(alloc, arguments, answer),
        "digest" => digests(alloc, arguments, answer),
        _ => Ok(false),
    }
}

fn comparator_of(word: &[u8]) -> Option<Comparator> {
    if word == b"octet".as_slice() {
        Some(Comparator::Octet)
    } else if word == b"casemap".as_slice() {
        Some(Comparator::Casemap)
    } else {
        None
    }
}

fn kind_of(word: &[u8]) -> Option<MatchType> {
    if word == b"is".as_slice() {
        Some(MatchType::Is)
    } else if word == b"contains".as_slice() {
        Some(MatchType::Contains)
    } else if word == b"matches".as_slice() {
        Some(MatchType::Matches)
    } else {
        None
    }
}

// A comparator, a value and a key.
fn compared(call: &str, arguments: &[Vec<u8>], answer: &mut Printed) -> bool {
    let [comparator, value, key] = arguments else {
        return false;
    };
    let Some(comparator) = comparator_of(comparator) else {
        return false;
    };
    if value.len() > MOST || key.len() > MOST {
        return false;
    }
    match call {
        "is" => print_truth(is(value, key, comparator).0, answer),
        "contains" => print_truth(contains(value, key, comparator).0, answer),
        _ => print_captures(value, &matches(value, key, comparator).0, answer),
    }
    true
}

fn print_truth(holds: bool, answer: &mut Printed) {
    answer.word(if holds { "true" } else { "false" });
}

// The whole value and what the first nine wildcards stand for.
fn print_captures(value: &[u8], found: &Option<Captures>, answer: &mut Printed) {
    match found {
        Some(captures) => {
            for number in 0..captures.stretches().len() {
                answer.text(captures.text(value, number));
            }
        }
        None => answer.word("none"),
    }
}

// A comparator, a number, a text, a key, and places. The values are as many of `a` as the number says, with the text in one of
// the places each. The truth is told where it isn't that of the place before.
fn placed_everywhere(
    alloc: Global,
    call: &str,
    arguments: &[Vec<u8>],
    answer: &mut Printed,
) -> Result<bool, AllocError> {
    let [comparator, count, text, key, places @ ..] = arguments else {
        return Ok(false);
    };
    let (Some(comparator), Some(count)) = (comparator_of(comparator), number_of(count)) else {
        return Ok(false);
    };
    if call == "contained" {
        contained_at(alloc, comparator, count, text, key, places, answer)
    } else {
        captured_at(alloc, comparator, count, text, key, places, answer)
    }
}

fn contained_at(
    alloc: Global,
    comparator: Comparator,
    count: usize,
    text: &[u8],
    key: &[u8],
    places: &[Vec<u8>],
    answer: &mut Printed,
) -> Result<bool, AllocError> {
    let mut before = None;
    for place in places {
        let Some(place) = number_of(place) else {
            return Ok(false);
        };
        let value = placed(alloc, count, text, place)?;
        if value.len() > MOST || key.len() > MOST {
            return Ok(false);
        }
        let holds = contains(&value, key, comparator).0;
        if before != Some(holds) {
            print_truth(holds, answer);
        }
        before = Some(holds);
    }
    Ok(true)
}

fn captured_at(
    alloc: Global,
    comparator: Comparator,
    count: usize,
    text: &[u8],
    key: &[u8],
    places: &[Vec<u8>],
    answer: &mut Printed,
) -> Result<bool, AllocError> {
    let mut number = 0usize;
    for place in places {
        let Some(place) = number_of(place) else {
            return Ok(false);
        };
        let value = placed(alloc, count, text, place)?;
        if value.len() > MOST || key.len() > MOST {
            return Ok(false);
        }
        let found = matches(&value, key, comparator).0;
        number = print_last(&found, number, answer);
    }
    Ok(true)
}

// So many of `a`, with a text in this place.
fn placed(alloc: Global, count: usize, text: &[u8], place: usize) -> Result<Vec<u8>, AllocError> {
    let mut value = Vec::new(alloc);
    for _ in 0..place.min(count) {
        value.push(b'a')?;
    }
    value.extend_from_slice(text)?;
    for _ in place..count {
        value.push(b'a')?;
    }
    Ok(value)
}

// Where the last capture begins; before it, as in `3: 31`, how many captures there are, where it wasn't the same number before.
// Answers how many there are, or were where nothing is captured.
fn print_last(found: &Option<Captures>, before: usize, answer: &mut Printed) -> usize {
    let Some(captures) = found else {
        answer.word("none");
        return before;
    };
    let stretches = captures.stretches();
    if stretches.len() != before {
        print_size(stretches.len(), answer);
        answer.glue(b":");
    }
    match stretches.last() {
        Some(last) => print_size(last.start, answer),
        None => answer.word("none"),
    }
    stretches.len()
}

// Whether a test may have these names or keys.
fn are_texts(texts: &Vec<Octets>) -> bool
    ensures { result ≡ true → AreTexts texts.now.items }
{
    texts.len() <= 1024 && texts.iter().all(|text| text.len() <= MAX_STRING)
}

// The texts of arguments.
fn texts(alloc: Global, arguments: &[Vec<u8>]) -> Result<Vec<Octets>, AllocError> {
    let mut texts = Vec::new(alloc);
    for text in arguments {
        add_text(alloc, &mut texts, text)?;
    }
    Ok(texts)
}

fn add_text(alloc: Global, texts: &mut Vec<Octets>, text: &[u8]) -> Result<(), AllocError> {
    let text = text.to_vec(alloc)?;
    Ok(texts.push(Octets::from_vec(text))?)
}

// The texts between commas; none of no octets.
fn texts_of(alloc: Global, list: &[u8]) -> Result<Vec<Octets>, AllocError> {
    let mut texts = Vec::new(alloc);
    let mut text = Vec::new(alloc);
    for octet in list {
        if *octet == b',' {
            end_text(alloc, &mut texts, &mut text)?;
        } else {
            text.push(*octet)?;
        }
    }
    if !list.is_empty() {
        end_text(alloc, &mut texts, &mut text)?;
    }
    Ok(texts)
}

// Adds the text that was read, and begins another.
fn end_text(alloc: Global, texts: &mut Vec<Octets>, text: &mut Vec<u8>) -> Result<(), AllocError> {
    let whole = mem::replace(text, Vec::new(alloc));
    Ok(texts.push(Octets::from_vec(whole))?)
}

// A message and names: whether each is that of a field of the message's own header, and what that costs.
fn existence(
    alloc: Global,
    arguments: &[Vec<u8>],
    answer: &mut Printed,
) -> Result<bool, AllocError> {
    let [text, names @ ..] = arguments else {
        return Ok(false);
    };
    let names = texts(alloc, names)?;
    match Message::read(alloc, text) {
        Ok(message) => existence_answer(alloc, &message, &names, answer),
        Err(_) => Ok(false),
    }
}

fn existence_answer(
    alloc: Global,
    message: &Message<'_>,
    names: &Vec<Octets>,
    answer: &mut Printed,
) -> Result<bool, AllocError> {
    let none = Vec::new(alloc);
    if !are_texts(names) || !are_texts(&none) {
        return Ok(false);
    }
    let texts = TestTexts {
        names,
        params: &none,
        keys: &none,
    };
    let question = Question::Exists(Scope::Message);
    let mut progress = Progress::new(Nobody);
    let cost = ask(
        alloc,
        message,
        None,
        question,
        Shown::Nothing,
        texts,
        &mut progress,
    )?;
    print_truth(progress.outcome.holds(), answer);
    answer.large_number(cost);
    Ok(true)
}

// A test's scope, and the part that it is seen from: the message itself where it is `root`, else the part of this number and those
// below it.
fn scope_of(word: &[u8]) -> Option<(Scope, Option<usize>)> {
    if word == b"root".as_slice() {
        return Some((Scope::Message, None));
    }
    Some((Scope::PartAndBelow, Some(number_of(word)?)))
}

fn selector_of(word: &[u8]) -> Option<Selector> {
    if word == b"value".as_slice() {
        Some(Selector::Value)
    } else if word == b"main".as_slice() {
        Some(Selector::Main)
    } else if word == b"sub".as_slice() {
        Some(Selector::Sub)
    } else if word == b"type".as_slice() {
        Some(Selector::ContentType)
    } else if word == b"param".as_slice() {
        Some(Selector::Param)
    } else {
        None
    }
}

// Without case of letters.
fn matched(kind: MatchType) -> Match {
    Match {
        kind,
        comparator: Comparator::Casemap,
    }
}

// A scope, a selector, a way to match, a message, names, names of parameters, and keys.
fn headers(alloc: Global, arguments: &[Vec<u8>], answer: &mut Printed) -> Result<bool, AllocError> {
    let [scope, selector, kind, text, names, params, keys @ ..] = arguments else {
        return Ok(false);
    };
    let (Some((scope, current)), Some(selector), Some(kind)) = (
        scope_of(scope),
        selector_of(selector),
        kind_of(kind),
    ) else {
        return Ok(false);
    };
    let test = FieldTest {
        how: matched(kind),
        scope,
        selector,
    };
    match Message::read(alloc, text) {
        Ok(message) => header_answer(alloc, &message, test, current, names, params, keys, answer),
        Err(_) => Ok(false),
    }
}

// The same with names and parameters as texts with commas between them.
fn header_answer(
    alloc: Global,
    message: &Message<'_>,
    test: FieldTest,
    current: Option<usize>,
    names: &[u8],
    params: &[u8],
    keys: &[Vec<u8>],
    answer: &mut Printed,
) -> Result<bool, AllocError> {
    let names = texts_of(alloc, names)?;
    let params = texts_of(alloc, params)?;
    let keys = texts(alloc, keys)?;
    header_test(
        alloc, message, test, current, &names, &params, &keys, answer,
    )
}

fn header_test(
    alloc: Global,
    message: &Message<'_>,
    test: FieldTest,
    current: Option<usize>,
    names: &Vec<Octets>,
    params: &Vec<Octets>,
    keys: &Vec<Octets>,
    answer: &mut Printed,
) -> Result<bool, AllocError> {
    if !are_texts(names) || !are_texts(params) || !are_texts(keys) {
        return Ok(false);
    }
    if let Some(current) = current {
        if current >= message.parts() {
            return Ok(false);
        }
    }
    let texts = TestTexts {
        names,
        params,
        keys,
    };
    let question = Question::Header(test);
    let mut progress = Progress::new(Nobody);
    let cost = ask(
        alloc,
        message,
        current,
        question,
        Shown::Nothing,
        texts,
        &mut progress,
    )?;
    print_answer(&progress.outcome, cost, answer);
    Ok(true)
}

// `lent` or `owned`, a way to match, a content and keys.
fn bodies(alloc: Global, arguments: &[Vec<u8>], answer: &mut Printed) -> Result<bool, AllocError> {
    let [owner, kind, text, keys @ ..] = arguments else {
        return Ok(false);
    };
    let Some(kind) = kind_of(kind) else {
        return Ok(false);
    };
    let mail = mail_of(alloc, owner, text)?;
    let question = Question::PartBody(matched(kind));
    mail_answer(alloc, &mail, question, keys, answer)
}

// A mail of this content, which is lent, or has to be decoded where it is owned.
fn mail_of(alloc: Global, owner: &[u8], content: &[u8]) -> Result<Vec<u8>, AllocError> {
    if owner == b"owned".as_slice() {
        encoded(alloc, content)
    } else {
        plain(alloc, content)
    }
}

// A mail of this content, which is lent.
fn plain(alloc: Global, content: &[u8]) -> Result<Vec<u8>, AllocError> {
    let mut mail = Vec::from_slice(alloc, b"\n")?;
    mail.extend_from_slice(content)?;
    Ok(mail)
}

// A mail of this content, which has to be decoded.
fn encoded(alloc: Global, content: &[u8]) -> Result<Vec<u8>, AllocError> {
    let text = encode_mime(alloc, content)?;
    let mut mail = Vec::from_slice(alloc, b"Content-Transfer-Encoding: base64\n\n")?;
    mail.extend_from_slice(&text)?;
    Ok(mail)
}

// A content, and keys that its digest is compared with.
fn digests(alloc: Global, arguments: &[Vec<u8>], answer: &mut Printed) -> Result<bool, AllocError> {
    let [text, keys @ ..] = arguments else {
        return Ok(false);
    };
    let mail = plain(alloc, text)?;
    mail_answer(alloc, &mail, Question::PartDigest, keys, answer)
}

// What a question about the content of a mail's first part comes to.
fn mail_answer(
    alloc: Global,
    mail: &[u8],
    question: Question,
    keys: &[Vec<u8>],
    answer: &mut Printed,
) -> Result<bool, AllocError> {
    let keys = texts(alloc, keys)?;
    match Message::read(alloc, mail) {
        Ok(message) => message_answer(alloc, &message, question, &keys, answer),
        Err(_) => Ok(false),
    }
}

fn message_answer(
    alloc: Global,
    message: &Message<'_>,
    question: Question,
    keys: &Vec<Octets>,
    answer: &mut Printed,
) -> Result<bool, AllocError> {
    if message.parts() == 0 {
        return Ok(false);
    }
    let Some(content) = Subject::of(message).at(0).content(alloc)? else {
        return Ok(false);
    };
    let none = Vec::new(alloc);
    if !are_texts(keys) || !are_texts(&none) {
        return Ok(false);
    }
    let texts = TestTexts {
        names: &none,
        params: &none,
        keys,
    };
    let digits = digest_of(content.as_slice());
    let shown = match Need::of(question) {
        Need::Content => Shown::Content(&content),
        Need::Digest => Shown::Digest(&digits),
        Need::Nothing | Need::Length => return Ok(false),
    };
    let mut progress = Progress::new(Nobody);
    let cost = ask(
        alloc,
        message,
        Some(0),
        question,
        shown,
        texts,
        &mut progress,
    )?;
    print_answer(&progress.outcome, cost, answer);
    Ok(true)
}

// What a test comes to, what it costs, and the captures that it sets, up to the last that isn't empty.
fn print_answer(outcome: &Outcome<'_>, cost: u128, answer: &mut Printed) {
    answer.word(match outcome {
        Outcome::Fails => "fails",
        Outcome::Holds => "holds",
        Outcome::Captures(_) => "sets",
    });
    answer.large_number(cost);
    let Outcome::Captures(captured) = outcome else {
        return;
    };
    let mut empty = 0usize;
    for number in 0..MAX_CAPTURES {
        let text = captured.text(number);
        if text.is_empty() {
            empty = empty.saturating_add(1);
        } else {
            print_after(empty, text, answer);
            empty = 0;
        }
    }
}

// A text after so many empty ones.
fn print_after(empty: usize, text: &[u8], answer: &mut Printed) {
    for _ in 0..empty {
        answer.text(b"");
    }
    answer.text(text);
}
