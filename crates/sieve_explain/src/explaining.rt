// Why a script is refused, and the text that describes it.
ghost use Rattle.std.specs.Prelude.{◌≡◌, ◌≤◌, ◌∷◌, ◌++◌, [], IfOk, None, OnOk, drop, length, map, nat_lt, take};
ghost use Rattle.std.specs.List.{slice_get};
ghost use Rattle.octets.specs.Limits.{max_script};
ghost use Rattle.refusals.specs.Causes.{of_parser};
ghost use Rattle.sieve_check.specs.ReasonView.{refused_view};
ghost use Rattle.sieve_check.specs.Rules.{max_reasons};
ghost use Rattle.sieve_lexer.specs.Tokens.{AreTokens};
ghost use Rattle.sieve_parser.specs.Refusals.{parse_error};
ghost use Rattle.sieve_parser.specs.Scripts.{IsGrammarRefusal, IsParsed};
ghost use Rattle.sieve_parser.specs.View.{commands_tree};
ghost use Rattle.sieve_explain.specs.Explaining.{IsExplained, IsRemarked, TellsFault, depth_told, end_told, bare_word, listed_told, listing_told, look_told, marked_by, marked_token, note_if, note_told, notes_told, opened, printed, reason_told, syntax_told};
ghost use Rattle.sieve_explain.specs.Private.{IsFaultTold};
ghost use Rattle.sieve_explain.specs.Faults.{look_text, more_blanks};
ghost use Rattle.sieve_explain.specs.Marks.{string_among};

use crate::explanation::Explanation;
use crate::faults::{
    lexical_sentence, listing_sentence, look_text, misplaced_sentence, more_sentence,
    too_deep_sentence, too_long_sentence, unclosed_sentence,
};
use crate::marks::{first_of, start_of, string_among, token_at, tokens_from, unclosed};
use crate::notes::{MAX_NOTES, Noted, more_notes_sentence, note_sentence, notes_of};
use crate::reasons::{bare_word, fault_sentence};
use crate::remarks::{Source, push_note_if, push_remark, told};
use crate::sentence::plain;
use readable_text::places::around;
use refusals::{FaultKind, Refusal};
use sieve_check::{MAX_REASONS, ReasonKind, Refused, reasons_of};
use sieve_lexer::laws::tokens_have_no_fault;
use sieve_lexer::{LexicalError, MAX_SCRIPT, Token, tokens};
use sieve_parser::{ParseError, Script, parse_tokens};
use std::alloc::{AllocError, Global};

/// Finds why a script is refused, and describes it for the person who wrote it: the place, a sentence, the line and a
/// mark under the place. `name` is the name of the script's file. If the checker refuses the script, each further
/// command and test that is refused is described too, in order, up to [`MAX_REASONS`] reasons in all, and then it says
/// if there are more. At the end it says what the file looks like, if it begins as a program or a mail does. `None` if
/// the script has no fault.
///
/// For example, the refusal of the script `keep; vacation;` is `UnknownCommand` at token 2.
///
/// # Errors
///
/// `AllocError` if memory is refused.
pub fn explain(alloc: Global, name: &str, script: &[u8]) -> Result<Option<Explanation>, AllocError>
    ensures { IfOk result (λ found. IsExplained name.now script.now found) }
{
    let source = Source {
        alloc,
        name,
        octets: script,
    };
    match explain_fault(&source)? {
        Some(found) => Ok(Some(with_look(found, &source)?)),
        None => Ok(None),
    }
}

// A refusal with its description, and then what the file looks like, if there is something to say.
fn with_look(found: Explanation, source: &Source<'_>) -> Result<Explanation, AllocError>
    ensures { IfOk result (λ all. (all.refusal ≡ found.refusal) × (all.text.items ≡ found.text.items
        ++ printed source.now.name.now (look_told (look_text source.now.octets.now)))) }
{
    let mut all = found;
    let text = look_text(source.octets);
    push_note_if(&mut all.text, source, text.len() > 0, &plain(text))?;
    Ok(all)
}

// Why the script is refused, and the description of that.
fn explain_fault(source: &Source<'_>) -> Result<Option<Explanation>, AllocError>
    ensures { IfOk result (λ found. IsFaultTold source.now.name.now source.now.octets.now found) }
{
    match tokens(source.alloc, source.octets) {
        Ok(tokens) => explain_tokens(source, &tokens),
        Err(error) => {
            let text = lexical_told(source, &error)?;
            let refusal = Refusal::from(ParseError::from(error));
            Ok(Some(Explanation { refusal, text }))
        }
    }
}

// The same for a script with these tokens.
fn explain_tokens(source: &Source<'_>, tokens: &[Token]) -> Result<Option<Explanation>, AllocError>
    requires tokens { AreTokens source.now.octets.now tokens.now }
    requires short { length source.now.octets.now ≤ max_script }
    ensures { IfOk result (λ found. IsFaultTold source.now.name.now source.now.octets.now found) }
{
    match parse_tokens(source.alloc, source.octets, tokens) {
        Ok(tree) => explain_tree(source, tokens, &tree),
        Err(error) => {
            let text = grammar_told(source, tokens, &error)?;
            let refusal = Refusal::from(error);
            Ok(Some(Explanation { refusal, text }))
        }
    }
}

// The same for a script with this tree.
fn explain_tree(
    source: &Source<'_>,
    tokens: &[Token],
    tree: &Script,
) -> Result<Option<Explanation>, AllocError>
    requires tokens { AreTokens source.now.octets.now tokens.now }
    requires parsed { IsParsed source.now.octets.now (commands_tree tree.now) }
    ensures { IfOk result (λ found. IsFaultTold source.now.name.now source.now.octets.now found) }
{
    let reasons = reasons_of(tree);
    let Some(first) = reasons.first() else {
        return Ok(None);
    };
    let text = reasons_told(source, tokens, &reasons)?;
    let refusal = Refusal::from(first.refusal());
    Ok(Some(Explanation { refusal, text }))
}

// The description of a script that isn't made of tokens.
fn lexical_told(source: &Source<'_>, error: &LexicalError) -> Result<Vec<u8>, AllocError>
    ensures { IfOk result (λ text. TellsFault source.now.name.now source.now.octets.now
        (of_parser (parse_error error.now)) text.items) }
{
    match error {
        LexicalError::Memory => Err(AllocError),
        LexicalError::ScriptTooLong => told(source, MAX_SCRIPT, &too_long_sentence()),
        LexicalError::Lexical { place } => {
            let (_, rest) = around(source.octets, *place);
            told(source, *place, &lexical_sentence(rest))
        }
    }
}

// The description of a script whose tokens have no tree.
fn grammar_told(
    source: &Source<'_>,
    tokens: &[Token],
    error: &ParseError,
) -> Result<Vec<u8>, AllocError>
    requires tokens { AreTokens source.now.octets.now tokens.now }
    requires grammar { IsGrammarRefusal source.now.octets.now tokens.now error.now }
    ensures { IfOk result (λ text. TellsFault source.now.name.now source.now.octets.now
        (of_parser error.now) text.items) }
{
    match error {
        ParseError::Memory => Err(AllocError),
        ParseError::Syntax { place } => syntax_told(source, tokens, *place),
        ParseError::TooDeep { place } => depth_told(source, tokens, *place),
        ParseError::Lexical { .. } | ParseError::ScriptTooLong => unreachable!(),
    }
}

// The description of the token with this number, which isn't allowed in its place, or of the script's end.
#[tactic(auto, unfolding(crate::specs::Explaining::syntax_told))]
fn syntax_told(source: &Source<'_>, tokens: &[Token], number: usize) -> Result<Vec<u8>, AllocError>
    ensures { IfOk result (λ text.
        text.items ≡ printed source.now.name.now (syntax_told source.now.octets.now number tokens.now)) }
{
    match token_at(tokens, number) {
        Some(token) => {
            let before = token_at(tokens, number.saturating_sub(1));
            told(
                source,
                token.start,
                &misplaced_sentence(source.octets, before, token),
            )
        }
        None => end_told(source, tokens),
    }
}

// The description of a script that ends too early.
#[tactic(auto, unfolding(crate::specs::Explaining::end_told))]
fn end_told(source: &Source<'_>, tokens: &[Token]) -> Result<Vec<u8>, AllocError>
    ensures { IfOk result (λ text.
        text.items ≡ printed source.now.name.now (end_told source.now.octets.now tokens.now)) }
{
    let mut text = told(
        source,
        source.octets.len(),
        &plain("the script ends before its last command is complete"),
    )?;
    push_opened(&mut text, source, unclosed(tokens))?;
    Ok(text)
}

// Appends the place of the brace that is never closed, if there is one.
#[tactic(auto, unfolding(crate::specs::Explaining::opened))]
fn push_opened(
    out: &mut Vec<u8>,
    source: &Source<'_>,
    brace: Option<Token>,
) -> Result<(), AllocError>
    ensures { OnOk result (out.new.items ≡ out.old.items
        ++ printed source.now.name.now (opened source.now.octets.now brace)) }
{
    match brace {
        Some(brace) => push_remark(out, ": note: ", source, brace.start, &unclosed_sentence()),
        None => Ok(()),
    }
}

// The description of the token with this number, which is nested too deep.
#[tactic(auto, unfolding(crate::specs::Explaining::depth_told))]
fn depth_told(source: &Source<'_>, tokens: &[Token], number: usize) -> Result<Vec<u8>, AllocError>
    ensures { IfOk result (λ text.
        text.items ≡ printed source.now.name.now (depth_told source.now.octets.now number tokens.now)) }
{
    let token = token_at(tokens, number);
    told(source, start_of(source.octets, token), &too_deep_sentence())
}

// Why commands and tests are refused: the first of the reasons, and whether there are more.
fn reasons_told(
    source: &Source<'_>,
    tokens: &[Token],
    reasons: &[Refused<'_>],
) -> Result<Vec<u8>, AllocError>
    ensures { IfOk result (λ text. text.items ≡ printed source.now.name.now
        (map (reason_told source.now.octets.now tokens.now)
        (map refused_view (take max_reasons reasons.now))
        ++ note_if (nat_lt max_reasons (length reasons.now)) more_blanks)) }
{
    let mut text = first_told(source, tokens, first_of(reasons, MAX_REASONS))?;
    push_note_if(
        &mut text,
        source,
        reasons.len() > MAX_REASONS,
        &more_sentence(),
    )?;
    Ok(text)
}

// Why each of the commands and tests is refused.
fn first_told(
    source: &Source<'_>,
    tokens: &[Token],
    reasons: &[Refused<'_>],
) -> Result<Vec<u8>, AllocError>
    ensures { IfOk result (λ text. text.items ≡ printed source.now.name.now
        (map (reason_told source.now.octets.now tokens.now) (map refused_view reasons.now))) }
{
    let mut text = Vec::new(source.alloc);
    for found in reasons {
        push_reason(&mut text, source, tokens, *found)?;
    }
    Ok(text)
}

// Appends why a command or test is refused.
#[tactic(auto, unfolding(crate::specs::Explaining::reason_told))]
fn push_reason(
    out: &mut Vec<u8>,
    source: &Source<'_>,
    tokens: &[Token],
    found: Refused<'_>,
) -> Result<(), AllocError>
    ensures { OnOk result (out.new.items ≡ out.old.items ++ printed source.now.name.now
        (reason_told source.now.octets.now tokens.now (refused_view found.entry) ∷ [])) }
{
    let token = marked_token(source, tokens, found)?;
    let sentence = fault_sentence(source.octets, tokens, found);
    push_remark(
        out,
        ": error: ",
        source,
        start_of(source.octets, token),
        &sentence,
    )
}

// The token that gets the mark.
#[tactic(auto, unfolding(crate::specs::Explaining::marked_token))]
fn marked_token(
    source: &Source<'_>,
    tokens: &[Token],
    found: Refused<'_>,
) -> Result<Option<Token>, AllocError>
    ensures { IfOk result (λ token.
        token ≡ marked_token source.now.octets.now tokens.now (refused_view found.entry)) }
{
    match bare_word(source.octets, tokens, found) {
        Some(word) => Ok(Some(word)),
        None => marked_by(source, tokens, found),
    }
}

// The same, by the kind of the reason.
fn marked_by(
    source: &Source<'_>,
    tokens: &[Token],
    found: Refused<'_>,
) -> Result<Option<Token>, AllocError>
    ensures { IfOk result (λ token. token ≡ marked_by found.entry.reason.kind
        (string_among source.now.octets.now found.entry.reason.subject.now
        (drop found.entry.token tokens.now)) (slice_get tokens.now found.entry.token)) }
{
    let behind = tokens_from(tokens, found.token);
    match found.reason.kind {
        ReasonKind::UnknownCapability => string_among(source, found.reason.subject, behind),
        _ => Ok(token_at(tokens, found.token)),
    }
}

/// Describes the notes on a script without a fault: tests and commands that can't mean what they say, in order, up to
/// [`MAX_NOTES`] of them, and then whether there are more. The text is empty if there are none.
///
/// # Requires
///
/// The script has no fault: [`explain`] returned `None` for it.
///
/// # Errors
///
/// `AllocError` if memory is refused.
pub fn remarks_on(alloc: Global, name: &str, script: &[u8]) -> Result<Vec<u8>, AllocError>
    requires { IsExplained name.now script.now None }
    ensures { IfOk result (λ text. IsRemarked name.now script.now text.items) }
{
    let source = Source {
        alloc,
        name,
        octets: script,
    };
    tokens_have_no_fault();
    match tokens(alloc, script) {
        Ok(tokens) => notes_told(&source, &tokens),
        Err(LexicalError::Memory) => Err(AllocError),
        Err(LexicalError::ScriptTooLong) => unreachable!(),
        Err(LexicalError::Lexical { .. }) => unreachable!(),
    }
}

// The same for a script with these tokens.
#[tactic(auto, using(crate::proofs::NoteLemmas::listed_first))]
fn notes_told(source: &Source<'_>, tokens: &[Token]) -> Result<Vec<u8>, AllocError>
    ensures { IfOk result (λ text.
        text.items ≡ printed source.now.name.now (notes_told source.now.octets.now tokens.now)) }
{
    let found = notes_of(source, tokens)?;
    listed_told(source, &found)
}

// The first of these notes, and whether there are more.
fn listed_told(source: &Source<'_>, notes: &[Noted]) -> Result<Vec<u8>, AllocError>
    ensures { IfOk result (λ text.
        text.items ≡ printed source.now.name.now (listed_told source.now.octets.now notes.now)) }
{
    let mut text = first_noted(source, first_of(notes, MAX_NOTES))?;
    push_note_if(
        &mut text,
        source,
        notes.len() > MAX_NOTES,
        &more_notes_sentence(),
    )?;
    Ok(text)
}

// Each of the notes.
fn first_noted(source: &Source<'_>, notes: &[Noted]) -> Result<Vec<u8>, AllocError>
    ensures { IfOk result (λ text. text.items
        ≡ printed source.now.name.now (map (note_told source.now.octets.now) notes.now)) }
{
    let mut text = Vec::new(source.alloc);
    for noted in notes {
        push_noted(&mut text, source, *noted)?;
    }
    Ok(text)
}

// Appends a note.
#[tactic(auto, unfolding(crate::specs::Explaining::note_told))]
fn push_noted(out: &mut Vec<u8>, source: &Source<'_>, noted: Noted) -> Result<(), AllocError>
    ensures { OnOk result (out.new.items ≡ out.old.items
        ++ printed source.now.name.now (note_told source.now.octets.now noted ∷ [])) }
{
    push_remark(
        out,
        ": note: ",
        source,
        noted.place,
        &note_sentence(noted.kind),
    )
}

/// Describes why a program's listing is refused, for the person who wrote it: the place, a sentence for a fault of this
/// kind, the line and a mark under the place. `place` is a byte of the listing, counted from 0; for a place beyond the
/// end, the end is described.
///
/// # Errors
///
/// `AllocError` if memory is refused.
pub fn listing_explanation(
    alloc: Global,
    name: &str,
    listing: &[u8],
    place: usize,
    kind: FaultKind,
) -> Result<Vec<u8>, AllocError>
    ensures { IfOk result (λ text. text.items ≡ listing_told name.now listing.now place kind) }
{
    let source = Source {
        alloc,
        name,
        octets: listing,
    };
    let (_, rest) = around(listing, place);
    told(&source, place, &listing_sentence(kind, rest))
}
