// What a table wants beside what its family answers.
use crate::printed::Printed;
use crate::rows::{Row, TableError, rows_of};
use crate::{codecs, mail, matching, programs, scripts};
use itoa::Buffer;
use std::alloc::{AllocError, Global};
use std::str;

/// What answers the rows of a table.
#[derive(Clone, Copy)]
pub enum Family {
    Programs,
    Scripts,
    Mail,
    Matching,
    Codecs,
}

/// How many rows there were, and how many of them differ.
#[derive(Clone, Copy)]
pub struct Counts {
    pub rows: u64,
    pub differing: u64,
}

/// Compares the rows of a table, and shows those that differ and how many there are. A table that can't be read counts as a row that
/// differs.
pub fn compare(
    alloc: Global,
    name: &str,
    family: Family,
    table: &[u8],
    shown: &mut Printed,
) -> Result<Counts, AllocError> {
    let counts = counts_of(alloc, name, family, table, shown)?;
    shown.word(name);
    shown.glue(b":");
    shown.number(counts.rows);
    shown.word("rows\n");
    Ok(counts)
}

fn counts_of(
    alloc: Global,
    name: &str,
    family: Family,
    table: &[u8],
    shown: &mut Printed,
) -> Result<Counts, AllocError> {
    match rows_of(alloc, table) {
        Ok(rows) => compare_rows(alloc, name, family, &rows, shown),
        Err(TableError::Memory) => Err(AllocError),
        Err(TableError::Line(line)) => {
            show_place(name, line, shown);
            shown.word("no line of a table\n");
            Ok(Counts {
                rows: 0,
                differing: 1,
            })
        }
    }
}

fn compare_rows(
    alloc: Global,
    name: &str,
    family: Family,
    rows: &[Row],
    shown: &mut Printed,
) -> Result<Counts, AllocError> {
    let mut counts = Counts {
        rows: 0,
        differing: 0,
    };
    for row in rows {
        counts.rows = counts.rows.wrapping_add(1);
        if !is_as_wanted(alloc, name, family, row, shown)? {
            counts.differing = counts.differing.wrapping_add(1);
        }
    }
    Ok(counts)
}

// Whether the answer to a row is the one that is wanted. Where it isn't, the row is shown.
fn is_as_wanted(
    alloc: Global,
    name: &str,
    family: Family,
    row: &Row,
    shown: &mut Printed,
) -> Result<bool, AllocError> {
    let mut answer = Printed::new(alloc);
    if !has_answer(alloc, family, row, &mut answer) {
        show_row(name, row, b"no such call", shown)?;
        return Ok(false);
    }
    if answer.whole()? == row.wanted.whole()? {
        return Ok(true);
    }
    show_row(name, row, answer.whole()?, shown)?;
    Ok(false)
}

// Shows a row, what it wants, and what is answered.
fn show_row(name: &str, row: &Row, answer: &[u8], shown: &mut Printed) -> Result<(), AllocError> {
    show_place(name, row.line, shown);
    shown.octets(&row.call);
    for argument in &row.arguments {
        shown.text(argument);
    }
    shown.glue(b"\n  wanted ");
    shown.glue(row.wanted.whole()?);
    shown.glue(b"\n  got ");
    shown.glue(answer);
    shown.glue(b"\n");
    Ok(())
}

// Whether the family has the row's call, and then the answer.
fn has_answer(alloc: Global, family: Family, row: &Row, answer: &mut Printed) -> bool {
    let Ok(call) = str::from_utf8(&row.call) else {
        return false;
    };
    match family {
        Family::Programs => programs::answer(alloc, call, &row.arguments, answer),
        Family::Scripts => scripts::answer(alloc, call, &row.arguments, answer),
        Family::Mail => mail::answer(alloc, call, &row.arguments, answer),
        Family::Matching => matching::answer(alloc, call, &row.arguments, answer),
        Family::Codecs => codecs::answer(alloc, call, &row.arguments, answer),
    }
}

// Begins what is said of a line of a table.
fn show_place(name: &str, line: u64, shown: &mut Printed) {
    shown.word(name);
    shown.glue(b":");
    shown.glue(Buffer::new().format(line).as_bytes());
    shown.glue(b":");
}
