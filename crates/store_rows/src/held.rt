//! What the three tables of a depot hold, by SELECT.
use sqlite::types::ValueRef;
use sqlite::{Alter, Connection, Error, Row};
use std::alloc::{AllocError, Global};

/// Every row of the tables, one value after another, and how many rows each of them has.
#[derive(Drop, PartialEq, Eq)]
pub struct Held {
    octets: Vec<u8>,
    /// The number of users, of contents and of entries.
    pub rows: [usize; 3],
}

// Notes octets after their length.
fn note_octets(out: &mut Vec<u8>, octets: &[u8]) -> Result<(), AllocError> {
    out.extend_from_slice(&(octets.len() as u64).to_be_bytes())?;
    out.extend_from_slice(octets)
}

// Notes a value after a letter for its type.
fn note_value(out: &mut Vec<u8>, value: ValueRef<'_>) -> Result<(), AllocError> {
    match value {
        ValueRef::Null => out.push(b'n')?,
        ValueRef::Int(number) => {
            out.push(b'i')?;
            out.extend_from_slice(&number.to_be_bytes())?;
        }
        ValueRef::Real(_) => out.push(b'r')?,
        ValueRef::Text(octets) => {
            out.push(b't')?;
            note_octets(out, octets)?;
        }
        ValueRef::Blob(octets) => {
            out.push(b'b')?;
            note_octets(out, octets)?;
        }
    }
    Ok(())
}

// Notes a row's values.
fn note_row(out: &mut Vec<u8>, row: &Row) -> Result<(), Error> {
    for place in 0..row.column_count() {
        note_value(out, row.get_ref(place)?)?;
    }
    Ok(())
}

// Notes all rows that a SELECT shows, and answers their number.
fn note_rows<S: Alter>(
    conn: &mut Connection<S>,
    out: &mut Vec<u8>,
    sql: &str,
) -> Result<usize, Error> {
    let rows = conn.query_all(sql, &[])?;
    for row in &rows {
        note_row(out, row)?;
    }
    Ok(rows.len())
}

/// What the tables hold.
pub fn held_in<S: Alter>(alloc: Global, conn: &mut Connection<S>) -> Result<Held, Error> {
    let mut octets = Vec::new(alloc);
    let users = note_rows(
        conn,
        &mut octets,
        "SELECT user, last, program FROM users ORDER BY user",
    )?;
    let contents = note_rows(
        conn,
        &mut octets,
        "SELECT digest, octets FROM contents ORDER BY digest",
    )?;
    let entries = note_rows(
        conn,
        &mut octets,
        "SELECT user, number, folder, kind, name, media, digest FROM entries ORDER BY user, number",
    )?;
    Ok(Held {
        octets,
        rows: [users, contents, entries],
    })
}
