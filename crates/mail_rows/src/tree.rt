// The trees of all small messages.
use mime_tree::Tree;
use std::alloc::{AllocError, Global};

// A line of the messages that are all tried.
#[derive(Clone, Copy, PartialEq, Eq)]
enum Piece {
    DelimiterA,
    DelimiterB,
    ClosingA,
    OpensA,
    OpensB,
    Empty,
    Text,
}

const PIECES: u32 = 7;

// The piece of a number.
fn piece_of(number: u32) -> Piece {
    match number % PIECES {
        0 => Piece::DelimiterA,
        1 => Piece::DelimiterB,
        2 => Piece::ClosingA,
        3 => Piece::OpensA,
        4 => Piece::OpensB,
        5 => Piece::Empty,
        _ => Piece::Text,
    }
}

fn octets_of(piece: Piece) -> &'static [u8] {
    match piece {
        Piece::DelimiterA => b"--a",
        Piece::DelimiterB => b"--b",
        Piece::ClosingA => b"--a--",
        Piece::OpensA => b"Content-Type: multipart/mixed; boundary=a",
        Piece::OpensB => b"Content-Type: multipart/mixed; boundary=b",
        Piece::Empty => b"",
        Piece::Text => b"x",
    }
}

// The octets of a message of lines.
fn joined(alloc: Global, lines: &[Piece], feed: &[u8]) -> Result<Vec<u8>, AllocError> {
    let mut text = Vec::new(alloc);
    for line in lines {
        text.extend_from_slice(octets_of(*line))?;
        text.extend_from_slice(feed)?;
    }
    Ok(text)
}

// Whether octets are those of lines, with the break of the last where they are the whole rest of the message.
fn are_joined(lines: &[Piece], feed: &[u8], whole: bool, octets: &[u8]) -> bool {
    let mut rest = octets;
    for (place, line) in lines.iter().enumerate() {
        if place > 0 {
            let Some(others) = rest.strip_prefix(feed) else {
                return false;
            };
            rest = others;
        }
        let Some(others) = rest.strip_prefix(octets_of(*line)) else {
            return false;
        };
        rest = others;
    }
    if whole && !lines.is_empty() {
        rest == feed
    } else {
        rest.is_empty()
    }
}

// The lines before the first one of two pieces, and those after it.
fn cut_at(lines: &[Piece], one: Piece, other: Piece) -> Option<(&[Piece], &[Piece])> {
    for (place, line) in lines.iter().enumerate() {
        if (*line == one || *line == other) && place < lines.len() {
            return Some((&lines[..place], &lines[place + 1..]));
        }
    }
    None
}

// The delimiter and the closing line of the first multipart that a header opens; b has no closing line here.
fn opened_by(header: &[Piece]) -> Option<(Piece, Piece)> {
    for line in header {
        match *line {
            Piece::OpensA => return Some((Piece::DelimiterA, Piece::ClosingA)),
            Piece::OpensB => return Some((Piece::DelimiterB, Piece::DelimiterB)),
            _ => {}
        }
    }
    None
}

// The delimiter and the closing line of lines that are a multipart, and its body.
fn multipart_of(lines: &[Piece]) -> Option<(Piece, Piece, &[Piece])> {
    let (header, body) = cut_at(lines, Piece::Empty, Piece::Empty)?;
    let (delimiter, closing) = opened_by(header)?;
    Some((delimiter, closing, body))
}

// The lines of the part after a delimiter, and whether they are the whole rest of the message.
fn part_of(after: &[Piece], delimiter: Piece, closing: Piece, whole: bool) -> (&[Piece], bool) {
    match cut_at(after, delimiter, closing) {
        Some((lines, _)) => (lines, false),
        None => (after, whole),
    }
}

// Whether a part of a tree has a depth, lines, and the break of the last where that is wanted.
fn is_part(
    tree: &Tree<'_>,
    part: usize,
    depth: usize,
    lines: &[Piece],
    feed: &[u8],
    whole: bool,
) -> bool {
    part < tree.parts()
        && tree.depth(part) == depth
        && are_joined(lines, feed, whole, tree.raw(part))
}

// The number after the parts of some lines, by the standard's words: the header, then the body cut at its own delimiters, and each piece
// read alike; none where a tree has others from a number on.
fn after_parts(
    tree: &Tree<'_>,
    part: usize,
    depth: usize,
    lines: &[Piece],
    feed: &[u8],
    whole: bool,
) -> Option<usize> {
    if !is_part(tree, part, depth, lines, feed, whole) {
        return None;
    }
    let mut next = part.saturating_add(1);
    if depth >= 32 {
        return Some(next);
    }
    let Some((delimiter, closing, body)) = multipart_of(lines) else {
        return Some(next);
    };
    let mut begun = false;
    for (place, line) in body.iter().enumerate() {
        if *line == delimiter && place < body.len() {
            begun = true;
            let (child, is_whole) = part_of(&body[place + 1..], delimiter, closing, whole);
            next = after_parts(tree, next, depth + 1, child, feed, is_whole)?;
        } else if begun && *line == closing {
            break;
        }
    }
    Some(next)
}

// Whether a tree has the parts that the recursion gives lines.
fn has_parts(tree: &Tree<'_>, lines: &[Piece], feed: &[u8]) -> bool {
    after_parts(tree, 0, 1, lines, feed, true) == Some(tree.parts())
}

// Whether the tree of octets has.
fn is_read_as(alloc: Global, octets: &[u8], lines: &[Piece], feed: &[u8]) -> bool {
    match Tree::read(alloc, octets) {
        Ok(tree) => has_parts(&tree, lines, feed),
        Err(_) => false,
    }
}

// Whether a message of these lines has the parts of the recursion.
fn agrees(alloc: Global, lines: &[Piece], feed: &[u8]) -> bool {
    match joined(alloc, lines, feed) {
        Ok(octets) => is_read_as(alloc, &octets, lines, feed),
        Err(_) => false,
    }
}

// How many lines a message has at most.
const MOST: usize = 7;

// The lines of the message of a number.
fn lines_of(message: u32) -> [Piece; MOST] {
    let mut lines = [Piece::Text; MOST];
    let mut number = message;
    for place in 0..MOST {
        lines[place] = piece_of(number);
        number /= PIECES;
    }
    lines
}

// Whether each message of so many lines has the parts of the recursion.
fn all_agree(alloc: Global, count: usize, messages: u32, feed: &[u8]) -> bool {
    for message in 0..messages {
        let lines = lines_of(message);
        if !agrees(alloc, &lines[..count.min(MOST)], feed) {
            return false;
        }
    }
    true
}

#[test]
fn all_messages_of_few_lines(rt: HostRuntime) {
    let mut messages = 1u32;
    for count in 0..=MOST {
        assert!(rt; all_agree(rt.alloc(), count, messages, b"\n"));
        if count < 6 {
            assert!(rt; all_agree(rt.alloc(), count, messages, b"\r\n"));
        }
        messages = messages.wrapping_mul(PIECES);
    }
}
