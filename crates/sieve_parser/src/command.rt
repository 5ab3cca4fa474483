// Commands and blocks.
ghost use Rattle.std.specs.Prelude.{◌≤◌, ◌<◌, ◌^◌, length};
ghost use Rattle.octets.specs.Limits.{max_nesting};
ghost use Rattle.sieve_lexer.specs.Tokens.{AreTokens};
ghost use Rattle.sieve_parser.specs.Parsing.{AreCommandsAt, IsCommandAt};
ghost use Rattle.sieve_parser.specs.Lexemes.{lexemes};

use crate::MAX_NESTING;
use crate::error::ParseError;
use crate::invocation::invocation;
use crate::token_at::{identifier_at, stands};
use crate::tree::Command;
use octets::Octets;
use sieve_lexer::{Token, TokenKind};
use std::alloc::Global;

// The command at this depth whose identifier has this name and number, and the number after it.
#[cycle(blocks)]
fn command(
    alloc: Global,
    script: &[u8],
    tokens: &[Token],
    name: Octets,
    token: usize,
    depth: usize,
) -> Result<(Command, usize), ParseError>
    requires tokens { AreTokens script.now tokens.now }
    requires within { token < length (lexemes script.now tokens.now) }
    requires short { length (lexemes script.now tokens.now) < 2 ^ 63 }
    requires depth { depth ≤ max_nesting }
    ensures { IsCommandAt (lexemes script.now tokens.now) name token depth result }
{
    let (invocation, next) = invocation(alloc, script, tokens, name, token, depth)?;
    if stands(tokens, next, TokenKind::Semicolon) {
        return Ok((Command::Simple(invocation), next + 1));
    }
    if !stands(tokens, next, TokenKind::OpeningBrace) {
        return Err(ParseError::Syntax { place: next });
    }
    if depth == MAX_NESTING {
        return Err(ParseError::TooDeep { place: next });
    }
    let (block, after) = commands(alloc, script, tokens, next + 1, depth + 1)?;
    if stands(tokens, after, TokenKind::ClosingBrace) {
        Ok((Command::Block(invocation, block), after + 1))
    } else {
        Err(ParseError::Syntax { place: after })
    }
}

// The commands from this number on, at this depth, and the number after them.
#[cycle(blocks)]
pub fn commands(
    alloc: Global,
    script: &[u8],
    tokens: &[Token],
    at: usize,
    depth: usize,
) -> Result<(Vec<Command>, usize), ParseError>
    requires tokens { AreTokens script.now tokens.now }
    requires within { at ≤ length (lexemes script.now tokens.now) }
    requires short { length (lexemes script.now tokens.now) < 2 ^ 63 }
    requires depth { depth ≤ max_nesting }
    ensures { AreCommandsAt (lexemes script.now tokens.now) at depth result }
{
    let mut commands = Vec::new(alloc);
    let mut next = at;
    'commands: while let Some(name) = identifier_at(alloc, script, tokens, next)? {
        let (command, after) = command(alloc, script, tokens, name, next, depth)?;
        commands.push(command)?;
        next = after;
    }
    Ok((commands, next))
}
