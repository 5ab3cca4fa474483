// The tokens of scripts, and their values.
use crate::printed::Printed;
use refusals::Refusal;
use sieve_lexer::{Token, TokenKind, number_of, string_of, tokens};
use sieve_parser::ParseError;
use std::alloc::Global;

/// Adds the tokens of a script: of each the kind, where it begins and where it ends.
pub fn put_tokens(alloc: Global, script: &[u8], answer: &mut Printed) -> Result<(), Refusal> {
    let found = tokens(alloc, script).map_err(|error| Refusal::from(ParseError::from(error)))?;
    put_all(&found, answer);
    Ok(())
}

fn put_all(found: &[Token], answer: &mut Printed) {
    if found.is_empty() {
        answer.word("none");
    }
    for token in found {
        answer.word(name_of(token.kind));
        answer.number(token.start as u64);
        answer.number(token.end as u64);
    }
}

// A kind of token, as a table has it.
fn name_of(kind: TokenKind) -> &'static str {
    match kind {
        TokenKind::Identifier => "identifier",
        TokenKind::Tag => "tag",
        TokenKind::Number => "number",
        TokenKind::QuotedString => "quoted",
        TokenKind::MultiLineString => "multi-line",
        TokenKind::Semicolon => ";",
        TokenKind::Comma => ",",
        TokenKind::OpeningBrace => "{",
        TokenKind::ClosingBrace => "}",
        TokenKind::OpeningParenthesis => "(",
        TokenKind::ClosingParenthesis => ")",
        TokenKind::OpeningBracket => "[",
        TokenKind::ClosingBracket => "]",
    }
}

/// Adds the value of a number's text.
pub fn put_number(text: &[u8], answer: &mut Printed) {
    match number_of(text) {
        Some(number) => answer.number(number),
        None => answer.word("none"),
    }
}

/// Adds the value of a string's text, which is a quoted string where it begins with a quote.
pub fn put_string(alloc: Global, text: &[u8], answer: &mut Printed) -> Result<(), Refusal> {
    let kind = match text {
        [b'"', ..] => TokenKind::QuotedString,
        _ => TokenKind::MultiLineString,
    };
    let value = string_of(alloc, kind, text)?;
    answer.text(value.as_slice());
    Ok(())
}
