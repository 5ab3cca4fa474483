// Running scripts by running their code.
ghost use Rattle.std.specs.Prelude.{◌≡◌, ◌<◌, length, IfOk, IfErr, IsErrAnd};
ghost use Rattle.octets.specs.Limits.{max_script};
ghost use Rattle.bytecode_format.specs.Code.{Code};
ghost use Rattle.bytecode_format.specs.Spelling.{spelling};
ghost use Rattle.refusals.specs.Scripts.{IsScriptRefusal};
ghost use Rattle.sieve_engine.specs.Evaluation.{IsCompiled, IsEvaluation, IsEvaluationRefusal, IsScript};
ghost use Rattle.sieve_check.specs.TypedView.{commands_form};
ghost use Rattle.sieve_parser.specs.Scripts.{IsParsed};
ghost use Rattle.sieve_parser.specs.View.{commands_tree};

use crate::execution::{Report, run_on};
use bytecode_format::Program;
use bytecode_verifier::verify;
use refusals::Refusal;
use sieve_check::{Checked, check};
use sieve_compiler::compile;
use sieve_parser::parse;
use std::alloc::Global;

/// Reads and checks a script, and returns it with its typed form. Explanations and traces start from it.
///
/// # Errors
///
/// The first fault of the script: its length, then its tokens, its grammar and its rules.
///
/// - `ScriptTooLong` if it is longer than 65,536 bytes, whatever memory there is.
/// - `Lexical` at the byte at which no token begins.
/// - `Syntax` or `TooDeep` at the token with which no script begins, or that is nested too deep.
/// - `UnknownCommand`, `MissingCapability`, `UnknownCapability`, `BadArguments` or `Limit` at a token, if the script
///   breaks a rule.
/// - `Memory` if memory is refused; never for more than 65,536 bytes.
pub fn check_script(alloc: Global, script: &[u8]) -> Result<Checked, Refusal>
    ensures checked { IfOk result
        (λ checked. IsScript script.now (commands_form checked.commands)) }
    ensures script { IfOk result (λ checked. IsParsed script.now (commands_tree checked.script)) }
    ensures refused { IfErr result (λ e. IsScriptRefusal script.now e) }
    ensures large { max_script < length script.now
        → IsErrAnd result (λ e. e ≡ Refusal.ScriptTooLong) }
{
    let script = parse(alloc, script)?;
    Ok(check(alloc, script)?)
}

/// Compiles a script. The returned program is accepted by the verifier, and on every message its run ends with the
/// final actions that the script means.
///
/// # Errors
///
/// Those of [`check_script`].
pub fn compile_script(alloc: Global, script: &[u8]) -> Result<Program, Refusal>
    ensures compiled { IfOk result (λ program. IsCompiled script.now program) }
    ensures refused { IfErr result (λ e. IsScriptRefusal script.now e) }
    ensures large { max_script < length script.now
        → IsErrAnd result (λ e. e ≡ Refusal.ScriptTooLong) }
{
    let checked = check_script(alloc, script)?;
    Ok(compile(alloc, &checked)?)
}

/// Compiles a script and returns the bytes of its program, that of [`compile_script`]. `depot compile` writes them to a
/// file, and [`execute`] and [`check_program`] read them.
///
/// # Errors
///
/// Those of [`check_script`].
pub fn code_octets(alloc: Global, script: &[u8]) -> Result<Vec<u8>, Refusal>
    ensures compiled { IfOk result (λ octets. (code : Code) × IsCompiled script.now code
        × (octets.items ≡ spelling code)) }
    ensures refused { IfErr result (λ e. IsScriptRefusal script.now e) }
    ensures large { max_script < length script.now
        → IsErrAnd result (λ e. e ≡ Refusal.ScriptTooLong) }
{
    let code = compile_script(alloc, script)?;
    Ok(code.write(alloc)?)
}

/// Evaluates a script on a message: returns the final actions that the script means, with the charge of its code's run
/// and the limit of that charge.
///
/// For example, the script `keep; keep;` on a message of ten digits results in one action, keep, and a charge of 3 with
/// the limit 3.
///
/// # Errors
///
/// Those of [`check_script`]; for a script without faults those of the message:
///
/// - `MessageTooLarge` if it is longer than 67,108,864 bytes.
/// - `TooManyParts` if it has more than 4,096 parts.
/// - `Memory` if memory is refused.
pub fn evaluate(alloc: Global, script: &[u8], message: &[u8]) -> Result<Report, Refusal>
    ensures evaluated { IfOk result
        (λ report. IsEvaluation script.now message.now report.outcome.actions.items
        report.outcome.charged report.limit) }
    ensures refused { IfErr result (λ e. IsEvaluationRefusal script.now message.now e) }
    ensures large { max_script < length script.now
        → IsErrAnd result (λ e. e ≡ Refusal.ScriptTooLong) }
{
    let program = compile_script(alloc, script)?;
    match verify(alloc, program) {
        Ok(verified) => run_on(alloc, &verified, message),
        // An accepted program is refused only if memory is refused.
        Err(_) => Err(Refusal::Memory),
    }
}
