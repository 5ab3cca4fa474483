// Comments of a listing: what an instruction refers to.
ghost use Rattle.std.specs.Prelude.{◌≡◌, ◌++◌, OnOk, codes, option_map};
ghost use Rattle.std.specs.Fmt.{decimal};
ghost use Rattle.bytecode_listing.specs.Listing.{comment, entry_text, meant, shown, in_words, table_of, told};
ghost use Rattle.bytecode_listing.specs.declared.wording.Facet.TheVariants.{Scope};
ghost use Rattle.bytecode_listing.specs.Wording.{counts_words, match_words, said_a, scope_words, selection_words, word_of};

use crate::wording::{Facet, word_of};
use crate::writing::put_number;
use bytecode_format::{Instruction, Operation, Program, TestCounts};
use bytecode_verifier::{Range, row_of};
use readable_text::quoting::put_cut;
use std::alloc::AllocError;

/// How many bytes of a string a comment shows at most.
const MAX_SHOWN: usize = 40;

/// A table of a program that an instruction's field c is a place in.
#[derive(Clone, Copy)]
pub enum Table {
    Strings,
    Numbers,
    /// The instruction jumps to the place.
    Instructions,
}

// The table that an operation's c is a place in, if a comment shows its entry.
fn table_of(operation: Operation) -> Option<Table>
    ensures { result ≡ table_of operation }
{
    let row = row_of(operation);
    if row.jumps {
        return Some(Table::Instructions);
    }
    match row.index {
        Some(bytecode_verifier::Table::Strings) => Some(Table::Strings),
        Some(bytecode_verifier::Table::Numbers) => Some(Table::Numbers),
        Some(bytecode_verifier::Table::Variables) | None => None,
    }
}

// Appends the comment of a string, which shows only its first bytes if it is long.
fn put_text(out: &mut Vec<u8>, text: &[u8]) -> Result<(), AllocError>
    ensures { OnOk result (out.new.items ≡ out.old.items ++ (codes " ; " ++ shown text.now)) }
{
    out.extend_from_slice(b" ; ")?;
    put_cut(out, text, MAX_SHOWN, b"...")
}

// Appends the comment of a number, after this word.
fn put_counted(out: &mut Vec<u8>, word: &[u8], number: u64) -> Result<(), AllocError>
    ensures { OnOk result (out.new.items ≡ out.old.items ++ (word.now ++ decimal number)) }
{
    out.extend_from_slice(word)?;
    put_number(out, number)
}

// Appends the comment of a place in a table, if the table has it.
fn put_entry(
    out: &mut Vec<u8>,
    program: &Program,
    place: usize,
    table: Table,
) -> Result<(), AllocError>
    ensures { OnOk result
        (out.new.items ≡ out.old.items ++ comment (entry_text program.now place table)) }
{
    match table {
        Table::Strings => match program.strings().get(place) {
            Some(text) => put_text(out, text.as_slice()),
            None => Ok(()),
        },
        Table::Numbers => match program.numbers().get(place) {
            Some(number) => put_counted(out, b" ; ", *number),
            None => Ok(()),
        },
        Table::Instructions => {
            if place < program.instructions().len() {
                put_counted(out, b" ; to ", place as u64)
            } else {
                Ok(())
            }
        }
    }
}

// A match number in words.
fn match_words(a: u8) -> Option<(&'static str, &'static str)>
    ensures { option_map (λ x. x.0.now ++ codes " " ++ x.1.now) result ≡ match_words a }
{
    let matched = word_of(Facet::Match, a % 4)?;
    let comparator = word_of(Facet::Comparator, a / 4)?;
    Some((matched, comparator))
}

// The scope and the selector of a selection in words.
fn scope_words(a: u8) -> Option<(&'static str, &'static str)>
    ensures { option_map (λ x. x.0.now ++ codes " " ++ x.1.now) result ≡ scope_words a }
{
    let scope = word_of(Facet::Scope, a / 8 % 4)?;
    let selector = word_of(Facet::Selector, a / 32)?;
    Some((scope, selector))
}

// Appends two words with a space between.
fn put_both(out: &mut Vec<u8>, first: &str, second: &str) -> Result<(), AllocError>
    ensures { OnOk result
        (out.new.items ≡ out.old.items ++ (first.now ++ codes " " ++ second.now)) }
{
    out.extend_from_slice(first.as_bytes())?;
    out.push(b' ')?;
    out.extend_from_slice(second.as_bytes())
}

// Appends the counts of HEADER.
fn put_counts(out: &mut Vec<u8>, counts: u32) -> Result<(), AllocError>
    ensures { OnOk result (out.new.items ≡ out.old.items ++ counts_words counts) }
{
    let counts = TestCounts::of(counts);
    put_counted(out, b" c ", u64::from(counts.params))?;
    put_counted(out, b" params ", u64::from(counts.keys))?;
    out.extend_from_slice(b" keys")
}

// Appends the comment of a match number.
fn put_match(out: &mut Vec<u8>, a: u8) -> Result<(), AllocError>
    ensures { OnOk result
        (out.new.items ≡ out.old.items ++ comment (option_map said_a (match_words a))) }
{
    match match_words(a) {
        Some((matched, comparator)) => {
            out.extend_from_slice(b" ; a ")?;
            put_both(out, matched, comparator)
        }
        None => Ok(()),
    }
}

// Appends the comment of a scope.
fn put_scope(out: &mut Vec<u8>, a: u8) -> Result<(), AllocError>
    ensures { OnOk result
        (out.new.items ≡ out.old.items ++ comment (option_map said_a (word_of Scope a))) }
{
    match word_of(Facet::Scope, a) {
        Some(word) => {
            out.extend_from_slice(b" ; a ")?;
            out.extend_from_slice(word.as_bytes())
        }
        None => Ok(()),
    }
}

// Appends the comment of a selection and of counts.
fn put_selection(out: &mut Vec<u8>, a: u8, counts: u32) -> Result<(), AllocError>
    ensures { OnOk result (out.new.items ≡ out.old.items
        ++ comment (option_map (λ words. said_a words ++ counts_words counts)
        (selection_words a))) }
{
    match (match_words(a % 8), scope_words(a)) {
        (Some((matched, comparator)), Some((scope, selector))) => {
            out.extend_from_slice(b" ; a ")?;
            put_both(out, matched, comparator)?;
            out.push(b' ')?;
            put_both(out, scope, selector)?;
            put_counts(out, counts)
        }
        _ => Ok(()),
    }
}

// Appends the fields of an instruction in words, as a comment.
fn put_words(out: &mut Vec<u8>, range: Range, instruction: Instruction) -> Result<(), AllocError>
    ensures { OnOk result (out.new.items ≡ out.old.items ++ comment (in_words range instruction)) }
{
    match range {
        Range::FieldTest => put_selection(out, instruction.a, instruction.c),
        Range::Scope => put_scope(out, instruction.a),
        Range::Match => put_match(out, instruction.a),
        _ => Ok(()),
    }
}

// Appends what an operation's fields refer to, or mean in words, as a comment.
fn put_told(
    out: &mut Vec<u8>,
    program: &Program,
    instruction: Instruction,
    operation: Operation,
) -> Result<(), AllocError>
    ensures { OnOk result (out.new.items ≡
        out.old.items ++ comment (told program.now instruction operation (table_of operation))) }
{
    match table_of(operation) {
        Some(table) => put_entry(out, program, instruction.c as usize, table),
        None => put_words(out, row_of(operation).a, instruction),
    }
}

/// Appends what an instruction of a program refers to, or means in words, as a comment.
///
/// # Errors
///
/// `AllocError` if memory is refused.
pub fn put_comment(
    out: &mut Vec<u8>,
    program: &Program,
    instruction: Instruction,
) -> Result<(), AllocError>
    ensures { OnOk result
        (out.new.items ≡ out.old.items ++ comment (meant program.now instruction)) }
{
    match Operation::of(instruction.op) {
        Some(operation) => put_told(out, program, instruction, operation),
        None => Ok(()),
    }
}
