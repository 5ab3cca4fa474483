// What mail is read as: lines, headers, the values of fields, and the parts of messages.
use crate::numbers::{number_of, print_size};
use crate::printed::Printed;
use crate::refused::put_refusal;
use header_fields::{Field, Header, name_is, unfold, unfolded_length};
use mime_decode::{Message, digest_of};
use mime_params::{
    Disposition, MediaType, Params, TransferEncoding, param, parameters_of, read_disposition,
    read_type,
};
use mime_tree::Tree;
use refusals::Refusal;
use std::alloc::Global;
use text_lines::Lines;

/// Answers a call; false where there is no such call. An answer without words is `none`.
pub fn answer(alloc: Global, call: &str, arguments: &[Vec<u8>], answer: &mut Printed) -> bool {
    let known = match arguments {
        [text] => answer_of_one(alloc, call, text, answer),
        [text, other] => answer_of_two(alloc, call, text, other, answer),
        _ => false,
    };
    if known && answer.is_empty() {
        answer.word("none");
    }
    known
}

fn answer_of_one(alloc: Global, call: &str, text: &[u8], answer: &mut Printed) -> bool {
    match call {
        "lines" => print_lines(text, answer),
        "fields" | "alike" | "lengths" => print_header(alloc, call, text, answer),
        "type" => print_type(alloc, text, answer),
        "disposition" => print_disposition(alloc, text, answer),
        "parameters" => print_parameters(alloc, text, answer),
        "encoding" => answer.word(name_of(TransferEncoding::of(text))),
        "tree" | "types" | "parts" => print_tree(alloc, call, text, answer),
        "digest-of" => answer.text(&digest_of(text)),
        _ => return false,
    }
    true
}

fn answer_of_two(
    alloc: Global,
    call: &str,
    text: &[u8],
    other: &[u8],
    answer: &mut Printed,
) -> bool {
    match call {
        "named" => print_named(alloc, text, other, answer),
        "parameter" => print_parameter(alloc, text, other, answer),
        "type-parameter" => print_type_parameter(alloc, text, other, answer),
        _ => match number_of(other) {
            Some(part) => return answer_of_part(alloc, call, text, part, answer),
            None => return false,
        },
    }
    true
}

// Answers a call on a part of a message.
fn answer_of_part(
    alloc: Global,
    call: &str,
    text: &[u8],
    part: usize,
    answer: &mut Printed,
) -> bool {
    match call {
        "part" => print_part(alloc, text, part, answer),
        "content" | "digest" => print_decoded(alloc, call, text, part, answer),
        _ => return false,
    }
    true
}

// Of each line where it starts, where it ends and where the next one starts.
fn print_lines(text: &[u8], answer: &mut Printed) {
    for line in Lines::new(text) {
        print_size(line.start, answer);
        print_size(line.end, answer);
        print_size(line.stop, answer);
    }
}

// Answers a call on a header.
fn print_header(alloc: Global, call: &str, text: &[u8], answer: &mut Printed) {
    match Header::read(alloc, text) {
        Ok(header) => print_of_header(alloc, call, &header, answer),
        Err(_) => answer.refuse(),
    }
}

fn print_of_header(alloc: Global, call: &str, header: &Header<'_>, answer: &mut Printed) {
    match call {
        "fields" => print_fields(alloc, header, answer),
        "alike" => print_alike(alloc, header, answer),
        _ => print_lengths(header.fields(), answer),
    }
}

// Where the body begins, then the name and the value of each field.
fn print_fields(alloc: Global, header: &Header<'_>, answer: &mut Printed) {
    print_size(header.body_start(), answer);
    for field in header.fields() {
        print_field(alloc, field, answer);
    }
}

fn print_field(alloc: Global, field: &Field<'_>, answer: &mut Printed) {
    answer.text(field.name());
    match unfold(alloc, field) {
        Ok(value) => answer.text(value.as_slice()),
        Err(_) => answer.refuse(),
    }
}

// Where the body begins, the number of fields, and the name and the value that all have; `others` where they differ.
fn print_alike(alloc: Global, header: &Header<'_>, answer: &mut Printed) {
    print_size(header.body_start(), answer);
    print_size(header.fields().len(), answer);
    if let Some(first) = header.fields().first() {
        print_common(alloc, header.fields(), first, answer);
    }
}

// The name and the value of the first field, if all have them.
fn print_common(alloc: Global, fields: &[Field<'_>], first: &Field<'_>, answer: &mut Printed) {
    match unfold(alloc, first) {
        Ok(value) => {
            if have(alloc, fields, first.name(), value.as_slice(), answer) {
                answer.text(first.name());
                answer.text(value.as_slice());
            } else {
                answer.word("others");
            }
        }
        Err(_) => answer.refuse(),
    }
}

// Whether all fields have this name and this value.
fn have(
    alloc: Global,
    fields: &[Field<'_>],
    name: &[u8],
    value: &[u8],
    answer: &mut Printed,
) -> bool {
    for field in fields {
        if field.name() != name || !has_value(alloc, field, value, answer) {
            return false;
        }
    }
    true
}

fn has_value(alloc: Global, field: &Field<'_>, value: &[u8], answer: &mut Printed) -> bool {
    match unfold(alloc, field) {
        Ok(found) => found.as_slice() == value,
        Err(_) => {
            answer.refuse();
            false
        }
    }
}

// Of each field how many octets its value has.
fn print_lengths(fields: &[Field<'_>], answer: &mut Printed) {
    for field in fields {
        print_size(unfolded_length(field), answer);
    }
}

// Of each field whether it has the name.
fn print_named(alloc: Global, text: &[u8], name: &[u8], answer: &mut Printed) {
    match Header::read(alloc, text) {
        Ok(header) => print_names(header.fields(), name, answer),
        Err(_) => answer.refuse(),
    }
}

fn print_names(fields: &[Field<'_>], name: &[u8], answer: &mut Printed) {
    for field in fields {
        answer.word(if name_is(field, name) {
            "true"
        } else {
            "false"
        });
    }
}

// The type, the subtype, and the name and the value of each parameter.
fn print_type(alloc: Global, text: &[u8], answer: &mut Printed) {
    match read_type(alloc, text) {
        Ok(Some(media)) => print_media(&media, answer),
        Ok(None) => {}
        Err(_) => answer.refuse(),
    }
}

fn print_media(media: &MediaType, answer: &mut Printed) {
    answer.text(media.main.as_slice());
    answer.text(media.sub.as_slice());
    print_params(&media.params, answer);
}

// The disposition, and the name and the value of each parameter.
fn print_disposition(alloc: Global, text: &[u8], answer: &mut Printed) {
    match read_disposition(alloc, text) {
        Ok(Some(disposition)) => print_disposed(&disposition, answer),
        Ok(None) => {}
        Err(_) => answer.refuse(),
    }
}

fn print_disposed(disposition: &Disposition, answer: &mut Printed) {
    answer.text(disposition.main.as_slice());
    print_params(&disposition.params, answer);
}

// The name and the value of each parameter.
fn print_parameters(alloc: Global, text: &[u8], answer: &mut Printed) {
    match parameters_of(alloc, text) {
        Ok(params) => print_params(&params, answer),
        Err(_) => answer.refuse(),
    }
}

fn print_params(params: &Params, answer: &mut Printed) {
    for one in params.as_slice() {
        answer.text(one.name.as_slice());
        answer.text(one.value.as_slice());
    }
}

// The number of parameters, and the value of the first of this name.
fn print_parameter(alloc: Global, text: &[u8], name: &[u8], answer: &mut Printed) {
    match parameters_of(alloc, text) {
        Ok(params) => print_found(&params, name, answer),
        Err(_) => answer.refuse(),
    }
}

// The same of the parameters of a type.
fn print_type_parameter(alloc: Global, text: &[u8], name: &[u8], answer: &mut Printed) {
    match read_type(alloc, text) {
        Ok(Some(media)) => print_found(&media.params, name, answer),
        Ok(None) => {}
        Err(_) => answer.refuse(),
    }
}

fn print_found(params: &Params, name: &[u8], answer: &mut Printed) {
    print_size(params.as_slice().len(), answer);
    match param(params, name) {
        Some(value) => answer.text(value),
        None => answer.word("none"),
    }
}

fn name_of(encoding: TransferEncoding) -> &'static str {
    match encoding {
        TransferEncoding::SevenBit => "7bit",
        TransferEncoding::EightBit => "8bit",
        TransferEncoding::Binary => "binary",
        TransferEncoding::QuotedPrintable => "quoted-printable",
        TransferEncoding::Base64 => "base64",
        TransferEncoding::Unknown => "unknown",
    }
}

// Answers a call on the tree of a message.
fn print_tree(alloc: Global, call: &str, text: &[u8], answer: &mut Printed) {
    match Tree::read(alloc, text) {
        Ok(tree) => print_of_tree(call, &tree, answer),
        Err(refused) => put_refusal(&Refusal::from(refused), answer),
    }
}

fn print_of_tree(call: &str, tree: &Tree<'_>, answer: &mut Printed) {
    match call {
        "tree" => print_bodies(tree, answer),
        "types" => print_types(tree, answer),
        _ => print_parts(tree, answer),
    }
}

// Of each part its depth, the number of parts below it, and its body.
fn print_bodies(tree: &Tree<'_>, answer: &mut Printed) {
    for part in 0..tree.parts() {
        print_size(tree.depth(part), answer);
        print_size(tree.below(part), answer);
        answer.text(tree.body(part));
    }
}

// Of each part its depth, its media type and its encoding.
fn print_types(tree: &Tree<'_>, answer: &mut Printed) {
    for part in 0..tree.parts() {
        print_size(tree.depth(part), answer);
        let media = tree.media_without_params(part);
        answer.text(media.main.as_slice());
        answer.text(media.sub.as_slice());
        answer.word(name_of(tree.encoding(part)));
    }
}

// The number of parts, and the depth of the last.
fn print_parts(tree: &Tree<'_>, answer: &mut Printed) {
    let parts = tree.parts();
    print_size(parts, answer);
    let last = parts.saturating_sub(1);
    if last < parts {
        print_size(tree.depth(last), answer);
    }
}

// All that a tree says of a part; nothing where there is no such part.
fn print_part(alloc: Global, text: &[u8], part: usize, answer: &mut Printed) {
    match Tree::read(alloc, text) {
        Ok(tree) => print_part_of(alloc, &tree, part, answer),
        Err(refused) => put_refusal(&Refusal::from(refused), answer),
    }
}

fn print_part_of(alloc: Global, tree: &Tree<'_>, part: usize, answer: &mut Printed) {
    if part >= tree.parts() {
        return;
    }
    print_size(tree.depth(part), answer);
    print_size(tree.below(part), answer);
    answer.word(name_of(tree.encoding(part)));
    print_size(tree.header(part).fields().len(), answer);
    print_size(tree.header(part).body_start(), answer);
    answer.text(tree.raw(part));
    answer.text(tree.body(part));
    match tree.media(alloc, part) {
        Ok(media) => print_media(&media, answer),
        Err(_) => answer.refuse(),
    }
}

// What the body of a part stands for, or the digest of that; nothing where there is no such part.
fn print_decoded(alloc: Global, call: &str, text: &[u8], part: usize, answer: &mut Printed) {
    match Message::read(alloc, text) {
        Ok(message) => print_of_message(alloc, call, &message, part, answer),
        Err(refused) => put_refusal(&Refusal::from(refused), answer),
    }
}

fn print_of_message(
    alloc: Global,
    call: &str,
    message: &Message<'_>,
    part: usize,
    answer: &mut Printed,
) {
    match call {
        "content" => print_content(alloc, message, part, answer),
        _ => print_digest(alloc, message, part, answer),
    }
}

fn print_content(alloc: Global, message: &Message<'_>, part: usize, answer: &mut Printed) {
    if part >= message.parts() {
        return;
    }
    match message.content(alloc, part) {
        Ok(content) => answer.text(content.as_slice()),
        Err(_) => answer.refuse(),
    }
}

fn print_digest(alloc: Global, message: &Message<'_>, part: usize, answer: &mut Printed) {
    if part >= message.parts() {
        return;
    }
    match message.digest(alloc, part) {
        Ok(digest) => answer.text(&digest),
        Err(_) => answer.refuse(),
    }
}
