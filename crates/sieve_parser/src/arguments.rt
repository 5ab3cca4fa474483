// The arguments of a command or test, without its tests.
ghost use Rattle.std.specs.Prelude.{◌≤◌, ◌<◌, ◌^◌, length};
ghost use Rattle.sieve_lexer.specs.Tokens.{AreTokens};
ghost use Rattle.sieve_parser.specs.Parsing.{AreArgumentsAt, IsArgumentAt};
ghost use Rattle.sieve_parser.specs.Lexemes.{lexemes};

use crate::error::ParseError;
use crate::strings::string_list;
use crate::token_at::{owned, token_at};
use crate::tree::Argument;
use sieve_lexer::{Token, TokenKind, number_of, string_of};
use std::alloc::Global;

// The argument that begins at this number, and the number after it; `None` if none begins there.
fn argument_at(
    alloc: Global,
    script: &[u8],
    tokens: &[Token],
    at: usize,
) -> Result<Option<(Argument, usize)>, ParseError>
    requires tokens { AreTokens script.now tokens.now }
    requires within { at ≤ length (lexemes script.now tokens.now) }
    requires short { length (lexemes script.now tokens.now) < 2 ^ 63 }
    ensures { IsArgumentAt (lexemes script.now tokens.now) at result }
{
    let Some(token) = token_at(tokens, at) else {
        return Ok(None);
    };
    let text = token.text(script);
    match token.kind {
        TokenKind::Tag => {
            let (_, name) = text.split_at(1);
            let name = owned(alloc, name)?;
            Ok(Some((Argument::Tag(name), at + 1)))
        }
        TokenKind::Number => {
            let Some(number) = number_of(text) else {
                unreachable!()
            };
            Ok(Some((Argument::Number(number), at + 1)))
        }
        TokenKind::QuotedString | TokenKind::MultiLineString => {
            let value = string_of(alloc, token.kind, text)?;
            Ok(Some((Argument::Text(value), at + 1)))
        }
        TokenKind::OpeningBracket => {
            let list = string_list(alloc, script, tokens, at + 1)?;
            Ok(Some(list))
        }
        _ => Ok(None),
    }
}

// The arguments from this number on, and the number after them.
pub fn arguments(
    alloc: Global,
    script: &[u8],
    tokens: &[Token],
    at: usize,
) -> Result<(Vec<Argument>, usize), ParseError>
    requires tokens { AreTokens script.now tokens.now }
    requires within { at ≤ length (lexemes script.now tokens.now) }
    requires short { length (lexemes script.now tokens.now) < 2 ^ 63 }
    ensures { AreArgumentsAt (lexemes script.now tokens.now) at result }
{
    let mut arguments = Vec::new(alloc);
    let mut next = at;
    'arguments: while let Some((argument, after)) = argument_at(alloc, script, tokens, next)? {
        arguments.push(argument)?;
        next = after;
    }
    Ok((arguments, next))
}
