//! How much a store holds.
ghost use Rattle.std.specs.Prelude.{◌≡◌, ◌+◌, ◌^◌, ◌≤◌, length};
ghost use Rattle.std.specs.List.{AllByRecursion, sum_by};
ghost use Rattle.sqlite_value.specs.Order.{column};
ghost use Rattle.part_store.specs.Tables.{contents_tree};
ghost use Rattle.part_store.specs.Totals.{IsTotalOf, octets_of};
ghost use Rattle.part_store.specs.Readings.{number_of, ShowsSize};
ghost use Rattle.part_store.specs.Refusals.{OnlyWhenFailedOr};
ghost use Rattle.part_store.specs.declared.error.StoreError.TheVariants.{Database};
ghost use Rattle.part_store.specs.Private.{ReadsRows, TellsTables};

use crate::contents;
use crate::error::StoreError;
use sqlite::{Alter, Row, Transaction};

/// How much a store holds; a content that several entries share counts once. [`crate::PartStore::contents`] returns it.
#[derive(Clone, Copy, Drop)]
pub struct ContentTotal {
    /// The number of contents.
    pub contents: u64,
    /// The number of bytes that they have together.
    pub octets: u64,
}

/// Counts the contents and their bytes.
pub(crate) fn count_contents<S: Alter>(
    tx: &mut Transaction<'_, S>,
) -> Result<ContentTotal, StoreError>
    ensures { TellsTables S.Store tx.old.conn tx.new.conn result
        (λ db _ total. IsTotalOf (db contents_tree) total)
        (OnlyWhenFailedOr (λ _ db. 2 ^ 64 ≤ octets_of (db contents_tree))) }
{
    let rows = contents::list(tx)?;
    total_of(&rows)
}

/// The total of the rows of an answer, or `Database` if it is more than 64 bits can count.
pub(crate) fn total_of(rows: &Vec<Row>) -> Result<ContentTotal, StoreError>
    ensures { ReadsRows result
        (λ total. (total.contents ≡ length rows.now.items)
        × (total.octets ≡ sum_by (λ r. number_of (column r 1)) rows.now.items))
        (AllByRecursion ShowsSize rows.now.items
        → 2 ^ 64 ≤ sum_by (λ r. number_of (column r 1)) rows.now.items) }
{
    let mut octets = 0;
    for row in rows {
        octets = with_size(octets, row)?;
    }
    Ok(ContentTotal {
        contents: rows.len() as u64,
        octets,
    })
}

/// A number of bytes plus the number that a row shows.
fn with_size(octets: u64, row: &Row) -> Result<u64, StoreError>
    ensures { ReadsRows result (λ sum. sum ≡ octets + number_of (column row.now 1))
        (ShowsSize row.now → 2 ^ 64 ≤ octets + number_of (column row.now 1)) }
{
    let size: u64 = row.get(1)?;
    match octets.checked_add(size) {
        Some(sum) => Ok(sum),
        None => Err(StoreError::Database),
    }
}
