// The parser.
ghost use Rattle.std.specs.Prelude.{◌≡◌, ◌<◌, ◌≤◌, length, IfErr, IfOk, IsErrAnd};
ghost use Rattle.octets.specs.Limits.{max_script};
ghost use Rattle.sieve_lexer.specs.Tokens.{AreTokens};
ghost use Rattle.sieve_parser.specs.Scripts.{IsGrammarRefusal, IsParsed, IsParseRefusal};
ghost use Rattle.sieve_parser.specs.View.{commands_tree};

use crate::command::commands;
use crate::error::ParseError;
use crate::tree::Script;
use sieve_lexer::Token;
use std::alloc::Global;

/// Returns the syntax tree of a script (RFC 5228, section 8.2). It doesn't matter whether commands and tests are
/// known.
///
/// For example, `keep; keep;` is parsed as two commands without arguments, and `keep` alone is an error: `Syntax` at
/// token 1, which is the end.
///
/// # Errors
///
/// - `ParseError::ScriptTooLong` and `ParseError::Lexical` as from [`sieve_lexer::tokens`]; they come before `Syntax`
///   and `TooDeep`.
/// - `ParseError::Syntax` with the first token with which the tokens don't begin a script. The end counts as a token.
/// - `ParseError::TooDeep` with the brace or test name that more than [`crate::MAX_NESTING`] braces and test names
///   would enclose, its own included. Of this token and that of `Syntax` the first is reported.
/// - `ParseError::Memory` if memory is refused; never for a script that is too long.
pub fn parse(alloc: Global, script: &[u8]) -> Result<Script, ParseError>
    ensures parsed { IfOk result (λ parsed. IsParsed script.now (commands_tree parsed)) }
    ensures refused { IfErr result (λ e. IsParseRefusal script.now e) }
    ensures large { max_script < length script.now
        → IsErrAnd result (λ e. e ≡ ParseError.ScriptTooLong) }
{
    let tokens = sieve_lexer::tokens(alloc, script)?;
    parse_tokens(alloc, script, &tokens)
}

/// Returns the syntax tree of a script whose tokens have been read, like [`parse`].
///
/// # Requires
///
/// `tokens` are the tokens of the script, as [`sieve_lexer::tokens`] returns them, and the script has at most 65,536
/// bytes.
///
/// # Errors
///
/// - `ParseError::Syntax` and `ParseError::TooDeep` as from [`parse`].
/// - `ParseError::Memory` if memory is refused. There are no other errors.
pub fn parse_tokens(alloc: Global, script: &[u8], tokens: &[Token]) -> Result<Script, ParseError>
    requires tokens { AreTokens script.now tokens.now }
    requires short { length script.now ≤ max_script }
    ensures parsed { IfOk result (λ parsed. IsParsed script.now (commands_tree parsed)) }
    ensures refused { IfErr result (λ e. IsParseRefusal script.now e) }
    ensures grammar { IfErr result (λ e. IsGrammarRefusal script.now tokens.now e) }
{
    let (commands, next) = commands(alloc, script, tokens, 0, 0)?;
    if next < tokens.len() {
        return Err(ParseError::Syntax { place: next });
    }
    Ok(Script::of(commands))
}
