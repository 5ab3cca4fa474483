// Lines, headers, trees, contents and digests of messages.
use crate::checksum::{REFUSED, checksum, told};
use header_fields::{Header, unfold};
use mime_decode::Message;
use mime_tree::Tree;
use std::alloc::Global;
use text_lines::Lines;

/// The bytes of all lines, without their line breaks.
#[unsafe(no_mangle)]
pub extern "C" fn bench_lines(text: &[u8], rounds: u32) -> u64 {
    let mut sum: u64 = 0;
    for _ in 0..rounds.max(1) {
        for line in Lines::new(text) {
            sum = sum.wrapping_add(line.end.wrapping_sub(line.start) as u64);
        }
    }
    sum
}

/// The fields of a header.
#[unsafe(no_mangle)]
pub extern "C" fn bench_header(alloc: Global, text: &[u8], rounds: u32) -> u64 {
    fields(alloc, text, rounds).unwrap_or(REFUSED)
}

/// The values of a header's fields.
#[unsafe(no_mangle)]
pub extern "C" fn bench_values(alloc: Global, text: &[u8], rounds: u32) -> u64 {
    values(alloc, text, rounds).unwrap_or(REFUSED)
}

/// The parts of a message.
#[unsafe(no_mangle)]
pub extern "C" fn bench_tree(alloc: Global, message: &[u8], rounds: u32) -> u64 {
    parts(alloc, message, rounds).unwrap_or(REFUSED)
}

/// The contents of a message's parts.
#[unsafe(no_mangle)]
pub extern "C" fn bench_contents(alloc: Global, message: &[u8], rounds: u32) -> u64 {
    contents(alloc, message, rounds).unwrap_or(REFUSED)
}

/// The digests of the contents of a message's parts.
#[unsafe(no_mangle)]
pub extern "C" fn bench_digests(alloc: Global, message: &[u8], rounds: u32) -> u64 {
    digests(alloc, message, rounds).unwrap_or(REFUSED)
}

fn fields(alloc: Global, text: &[u8], rounds: u32) -> Option<u64> {
    let mut sum: u64 = 0;
    for _ in 0..rounds.max(1) {
        let header = Header::read(alloc, text).ok()?;
        sum = sum.wrapping_add(header.fields().len() as u64);
        sum = sum.wrapping_add(header.body_start() as u64);
    }
    Some(sum)
}

fn values(alloc: Global, text: &[u8], rounds: u32) -> Option<u64> {
    let mut sum: u64 = 0;
    for _ in 0..rounds.max(1) {
        let header = Header::read(alloc, text).ok()?;
        for field in header.fields() {
            let value = unfold(alloc, field).ok()?;
            sum = sum.wrapping_add(told(field.name(), rounds));
            sum = sum.wrapping_add(told(&value, rounds));
        }
    }
    Some(sum)
}

fn parts(alloc: Global, message: &[u8], rounds: u32) -> Option<u64> {
    let mut sum: u64 = 0;
    for _ in 0..rounds.max(1) {
        let tree = Tree::read(alloc, message).ok()?;
        sum = sum.wrapping_add(tree.parts() as u64);
        if rounds == 0 {
            sum = sum.wrapping_add(places(&tree));
        }
    }
    Some(sum)
}

// The number for the depths and bodies of the parts.
fn places(tree: &Tree<'_>) -> u64 {
    let mut sum: u64 = 0;
    for part in 0..tree.parts() {
        sum = sum.wrapping_mul(31).wrapping_add(tree.depth(part) as u64);
        sum = sum
            .wrapping_mul(31)
            .wrapping_add(tree.body(part).len() as u64);
    }
    sum
}

fn contents(alloc: Global, octets: &[u8], rounds: u32) -> Option<u64> {
    let mut sum: u64 = 0;
    for _ in 0..rounds.max(1) {
        let message = Message::read(alloc, octets).ok()?;
        for part in 0..message.parts() {
            let content = message.content(alloc, part).ok()?;
            sum = sum.wrapping_add(told(&content, rounds));
        }
    }
    Some(sum)
}

fn digests(alloc: Global, octets: &[u8], rounds: u32) -> Option<u64> {
    let mut sum: u64 = 0;
    for _ in 0..rounds.max(1) {
        let message = Message::read(alloc, octets).ok()?;
        for part in 0..message.parts() {
            let digest = message.digest(alloc, part).ok()?;
            sum = sum.wrapping_add(checksum(&digest));
        }
    }
    Some(sum)
}
