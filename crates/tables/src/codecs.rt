// What texts stand for in an encoding, whole and in pieces.
use crate::numbers::{number_of, print_size};
use crate::printed::Printed;
use lanes_base32::{Refusal, decode32, decode32hex, encode32, encode32hex};
use lanes_base64_mime::{Decoder, decode_mime, encode_mime};
use quoted_printable::{QpDecoder, decode_qp, encode_qp, encode_qp_line};
use std::alloc::{AllocError, Global};

#[derive(Clone, Copy)]
enum Encoding {
    Base32,
    Base32Hex,
    Base64Mime,
    Qp,
}

fn encoding_of(word: &[u8]) -> Option<Encoding> {
    if word == b"base32".as_slice() {
        Some(Encoding::Base32)
    } else if word == b"base32hex".as_slice() {
        Some(Encoding::Base32Hex)
    } else if word == b"base64-mime".as_slice() {
        Some(Encoding::Base64Mime)
    } else if word == b"qp".as_slice() {
        Some(Encoding::Qp)
    } else {
        None
    }
}

/// Answers a call, of which the first argument is an encoding; false where there is no such call.
pub fn answer(alloc: Global, call: &str, arguments: &[Vec<u8>], answer: &mut Printed) -> bool {
    let [encoding, others @ ..] = arguments else {
        return false;
    };
    match encoding_of(encoding) {
        Some(encoding) => answer_in(alloc, call, encoding, others, answer),
        None => false,
    }
}

fn answer_in(
    alloc: Global,
    call: &str,
    encoding: Encoding,
    arguments: &[Vec<u8>],
    answer: &mut Printed,
) -> bool {
    match (encoding, arguments) {
        (Encoding::Base64Mime, pieces) if call == "pieces" => {
            unless_short(print_mime_pieces(alloc, pieces, answer), answer);
            true
        }
        (Encoding::Qp, pieces) if call == "pieces" => {
            unless_short(print_qp_pieces(alloc, pieces, answer), answer);
            true
        }
        (Encoding::Qp, [size, text]) => answer_by_size(alloc, call, size, text, answer),
        (_, [text]) => answer_of_whole(alloc, call, encoding, text, answer),
        _ => false,
    }
}

// Notes where memory was refused.
fn unless_short(outcome: Result<(), AllocError>, answer: &mut Printed) {
    if outcome.is_err() {
        answer.refuse();
    }
}

fn answer_of_whole(
    alloc: Global,
    call: &str,
    encoding: Encoding,
    text: &[u8],
    answer: &mut Printed,
) -> bool {
    match call {
        "encode" => print_encoded(alloc, encoding, text, answer),
        "decode" => print_decoded(&decoded(alloc, encoding, text), answer),
        "lines" => unless_short(print_qp_lines(alloc, text, answer), answer),
        _ => return false,
    }
    true
}

fn encoded(alloc: Global, encoding: Encoding, octets: &[u8]) -> Result<Vec<u8>, AllocError> {
    match encoding {
        Encoding::Base32 => encode32(alloc, octets),
        Encoding::Base32Hex => encode32hex(alloc, octets),
        Encoding::Base64Mime => encode_mime(alloc, octets),
        Encoding::Qp => encode_qp(alloc, octets),
    }
}

fn decoded(alloc: Global, encoding: Encoding, text: &[u8]) -> Result<Vec<u8>, Refusal> {
    match encoding {
        Encoding::Base32 => decode32(alloc, text),
        Encoding::Base32Hex => decode32hex(alloc, text),
        Encoding::Base64Mime => Ok(decode_mime(alloc, text)?),
        Encoding::Qp => Ok(decode_qp(alloc, text)?),
    }
}

// The octets that a text stands for, or its refusal.
fn print_decoded(decoded: &Result<Vec<u8>, Refusal>, answer: &mut Printed) {
    match decoded {
        Ok(octets) => answer.text(octets),
        Err(Refusal::NotCanonical) => answer.word("refused 10 NotCanonical"),
        Err(Refusal::Memory) => answer.refuse(),
    }
}

// The text of octets; where it isn't read as them, also what it is read as.
fn print_encoded(alloc: Global, encoding: Encoding, octets: &[u8], answer: &mut Printed) {
    match encoded(alloc, encoding, octets) {
        Ok(text) => {
            answer.text(&text);
            print_unlike(&decoded(alloc, encoding, &text), octets, answer);
        }
        Err(AllocError) => answer.refuse(),
    }
}

// What a text is read as, where it isn't read as these octets.
fn print_unlike(read: &Result<Vec<u8>, Refusal>, octets: &[u8], answer: &mut Printed) {
    if !matches!(read, Ok(read) if read.as_slice() == octets) {
        answer.word("read");
        print_decoded(read, answer);
    }
}

// What each piece adds to the octets so far, and how many bits are left over.
fn print_mime_pieces(
    alloc: Global,
    pieces: &[Vec<u8>],
    answer: &mut Printed,
) -> Result<(), AllocError> {
    let mut out = Vec::new(alloc);
    let mut decoder = Decoder::new();
    for piece in pieces {
        decoder.feed(piece, &mut out)?;
        answer.text(&out);
    }
    answer.number(u64::from(decoder.finish()));
    Ok(())
}

// The octets so far after each piece, and those of the whole text.
fn print_qp_pieces(
    alloc: Global,
    pieces: &[Vec<u8>],
    answer: &mut Printed,
) -> Result<(), AllocError> {
    let mut out = Vec::new(alloc);
    let mut decoder = QpDecoder::new(alloc);
    for piece in pieces {
        decoder.feed(piece, &mut out)?;
        answer.text(&out);
    }
    decoder.finish(&mut out)?;
    answer.text(&out);
    Ok(())
}

// Answers a call on a text that comes in pieces of one size.
fn answer_by_size(
    alloc: Global,
    call: &str,
    size: &[u8],
    text: &[u8],
    answer: &mut Printed,
) -> bool {
    let Some(size) = number_of(size) else {
        return false;
    };
    match call {
        "by" => print_by(alloc, text, size, answer),
        "back" => print_back(alloc, text, size, answer),
        _ => return false,
    }
    true
}

// What a text is read as in pieces of so many octets.
fn print_by(alloc: Global, text: &[u8], size: usize, answer: &mut Printed) {
    match read_by(alloc, text, size) {
        Ok(read) => answer.text(&read),
        Err(AllocError) => answer.refuse(),
    }
}

// Whether the text of octets is read as them in pieces of so many octets.
fn print_back(alloc: Global, octets: &[u8], size: usize, answer: &mut Printed) {
    match read_back(alloc, octets, size) {
        Ok(true) => answer.word("same"),
        Ok(false) => answer.word("other"),
        Err(AllocError) => answer.refuse(),
    }
}

fn read_back(alloc: Global, octets: &[u8], size: usize) -> Result<bool, AllocError> {
    let text = encode_qp(alloc, octets)?;
    let read = read_by(alloc, &text, size)?;
    Ok(read.as_slice() == octets)
}

// What a text is read as in pieces of so many octets.
fn read_by(alloc: Global, text: &[u8], size: usize) -> Result<Vec<u8>, AllocError> {
    let mut out = Vec::new(alloc);
    let mut decoder = QpDecoder::new(alloc);
    for piece in text.chunks(size.max(1)) {
        decoder.feed(piece, &mut out)?;
    }
    decoder.finish(&mut out)?;
    Ok(out)
}

// How many lines the text of octets has, and how many octets; `long` before them for each line of more than 76 octets and a break,
// `more` where no octets have a line, `other` where the lines one by one aren't that text, `misread` where it isn't read as the octets.
fn print_qp_lines(alloc: Global, octets: &[u8], answer: &mut Printed) -> Result<(), AllocError> {
    let mut text = Vec::new(alloc);
    let lines = add_qp_lines(octets, &mut text, answer)?;
    print_size(lines, answer);
    print_whole(alloc, octets, &mut text, answer)
}

// How many octets the whole text of octets has, and what is wrong with it and with the text of its lines.
fn print_whole(
    alloc: Global,
    octets: &[u8],
    lines: &mut Vec<u8>,
    answer: &mut Printed,
) -> Result<(), AllocError> {
    let whole = encode_qp(alloc, octets)?;
    print_size(whole.len(), answer);
    print_unless("more", encode_qp_line(b"", lines)? == 0, answer);
    print_unless("other", lines.as_slice() == whole.as_slice(), answer);
    print_unless("misread", is_read_as(alloc, &whole, octets)?, answer);
    Ok(())
}

fn print_unless(word: &str, holds: bool, answer: &mut Printed) {
    if !holds {
        answer.word(word);
    }
}

fn is_read_as(alloc: Global, text: &[u8], octets: &[u8]) -> Result<bool, AllocError> {
    Ok(decode_qp(alloc, text)?.as_slice() == octets)
}

// Adds the lines of octets to a text one by one, and answers how many there are.
fn add_qp_lines(
    octets: &[u8],
    text: &mut Vec<u8>,
    answer: &mut Printed,
) -> Result<usize, AllocError> {
    let mut lines = 0usize;
    let mut rest = octets;
    for _ in 0..octets.len() {
        if rest.is_empty() {
            break;
        }
        let taken = add_qp_line(rest, text, answer)?;
        lines = lines.saturating_add(1);
        let (_, after) = rest.split_at(taken.min(rest.len()));
        rest = after;
    }
    Ok(lines)
}

// Adds the first line of octets, and answers how many of them are in it.
fn add_qp_line(
    octets: &[u8],
    text: &mut Vec<u8>,
    answer: &mut Printed,
) -> Result<usize, AllocError> {
    let start = text.len();
    let taken = encode_qp_line(octets, text)?;
    print_unless("long", text.len() <= start.saturating_add(78), answer);
    Ok(taken)
}
