// Answers in JSON.
//
// An object is made with the kit's values, whole, before any of it is written, and that takes memory; that of a catalog is
// made of its lines. The command of the line is done then. So if memory is refused, the answer can't be that of a refusal for lack of memory: `short_line` has
// its status, and takes none.
ghost use Rattle.std.specs.Prelude.{◌≡◌, ◌++◌, IfOk, OnOk, codes, false, map};
ghost use Rattle.std.specs.List.{flat_map};
ghost use Rattle.part_store.specs.Standing.{listed};
ghost use Rattle.printing.specs.Printed.{line as line_of};
ghost use Rattle.serde_json.specs.Data.{array, member, no_members, object, put as with_member};
ghost use Rattle.serde_json.specs.View.{items_of, members_view, view};
ghost use Rattle.serde_json.specs.Written.{has_float};
ghost use Rattle.depot_batch.specs.Answers.{answer_told, outcome_of, reply_told, report_told, told_by};
ghost use Rattle.depot_batch.specs.Private.{filed_by};
ghost use Rattle.depot_batch.specs.declared.outcome.Outcome.TheVariants.{Done};
ghost use Rattle.depot_batch.specs.Said.{InFull, as_items, catalog_line, comma_for, entries_members, entry_value, fault_members, filed_in, number_value, refusal_members, short_value, status_of, told_line, value_line, with_place};

use crate::answering::Answer;
use crate::asked::LineFault;
use crate::report::Report;
use catalog::text_value;
use depot_cli::{Reply, kind_name};
use part_store::EntryRow;
use refusals::Refusal;
use serde_json::{Map, Value, put};
use std::alloc::{AllocError, Global};

/// What an answer in JSON tells beside the status.
#[derive(Drop)]
pub enum Told<'a> {
    /// The members of its object.
    Members(Map<String, Value>),
    /// The lines of a catalog, which are the items of its list.
    Lines(&'a [u8]),
}

/// Returns the line of a report in JSON.
///
/// # Errors
///
/// `AllocError` if memory is refused.
pub fn report_line(alloc: Global, report: &Report) -> Result<Vec<u8>, AllocError>
    ensures { IfOk result (λ line. line.items
        ≡ told_line (outcome_of report.now) (report_told report.now)) }
{
    let told = report_told(alloc, report)?;
    match told {
        Told::Members(members) => {
            let value = with_status(alloc, members, status_of(report))?;
            text_line(alloc, &value)
        }
        Told::Lines(lines) => catalog_line(alloc, lines),
    }
}

/// Returns the lines of the answers to deliveries in JSON.
///
/// # Errors
///
/// `AllocError` if memory is refused.
pub fn filed_lines(alloc: Global, replies: &[Vec<EntryRow>]) -> Result<Vec<u8>, AllocError>
    ensures { IfOk result (λ lines. lines.items
        ≡ flat_map (filed_in InFull) (map filed_by replies.now)) }
{
    let mut lines = Vec::new(alloc);
    'replies: for rows in replies {
        lines.extend_from_slice(&filed_line(alloc, rows)?)?;
    }
    Ok(lines)
}

/// Returns the line, without its end, that stands for a report if memory is refused for its object.
pub fn short_line(report: &Report) -> &'static str
    ensures { line_of result.now ≡ value_line (short_value (outcome_of report.now)) }
{
    match report {
        Report::Done(_) => short_done(),
        Report::Refused(_) => "{\"incomplete\":true,\"status\":1}",
        Report::Wrong(_) => "{\"incomplete\":true,\"status\":2}",
    }
}

/// Returns the line, without its end, that stands for the answer to a command that was done.
pub fn short_done() -> &'static str
    ensures { line_of result.now ≡ value_line (short_value Done) }
{
    "{\"incomplete\":true,\"status\":0}"
}

// The line of the answer to a delivery that filed these entries.
fn filed_line(alloc: Global, rows: &[EntryRow]) -> Result<Vec<u8>, AllocError>
    ensures { IfOk result (λ line. line.items ≡ filed_in InFull (map listed rows.now)) }
{
    let members = entries_members(alloc, rows)?;
    let value = with_status(alloc, members, 0)?;
    text_line(alloc, &value)
}

// The line of a value without floats.
fn text_line(alloc: Global, value: &Value) -> Result<Vec<u8>, AllocError>
    requires { has_float (view value.now) ≡ false }
    ensures { IfOk result (λ line. line.items ≡ value_line (view value.now)) }
{
    let mut line = value.to_vec(alloc)?;
    line.push(b'\n')?;
    Ok(line)
}

// The line of a catalog.
fn catalog_line(alloc: Global, lines: &[u8]) -> Result<Vec<u8>, AllocError>
    ensures { IfOk result (λ line. line.items ≡ catalog_line lines.now) }
{
    let mut line = Vec::from_slice(alloc, b"{\"catalog\":[")?;
    put_items(&mut line, lines)?;
    line.extend_from_slice(b"],\"status\":0}")?;
    line.push(b'\n')?;
    Ok(line)
}

// Appends lines as the items of a list.
fn put_items(out: &mut Vec<u8>, lines: &[u8]) -> Result<(), AllocError>
    ensures { OnOk result (out.new.items ≡ out.old.items ++ as_items lines.now) }
{
    let items = &lines[..lines.len().saturating_sub(1)];
    'octets: for octet in items {
        out.push(comma_for(*octet))?;
    }
    Ok(())
}

// A comma for a line break, and any other byte as it is.
fn comma_for(octet: u8) -> u8
    ensures { result ≡ comma_for octet }
{
    if octet == b'\n' { b',' } else { octet }
}

// What a report tells.
fn report_told<'a>(alloc: Global, report: &'a Report) -> Result<Told<'a>, AllocError>
    ensures { IfOk result (λ told. told_by told ≡ report_told report.entry.now) }
{
    match report {
        Report::Done(answer) => answer_told(alloc, answer),
        Report::Refused(refusal) => Ok(Told::Members(refusal_members(alloc, refusal)?)),
        Report::Wrong(fault) => Ok(Told::Members(fault_members(alloc, *fault)?)),
    }
}

// The number of the status of its line.
fn status_of(report: &Report) -> u8
    ensures { result ≡ status_of (outcome_of report.now) }
{
    match report {
        Report::Done(_) => 0,
        Report::Refused(_) => 1,
        Report::Wrong(_) => 2,
    }
}

// The object with these members and a status.
fn with_status(alloc: Global, members: Map<String, Value>, status: u8) -> Result<Value, AllocError>
    ensures { IfOk result (λ value. view value
        ≡ object (with_member (codes "status") (number_value status) (members_view members.entries))) }
{
    let mut members = members;
    put(&mut members, alloc, "status", Value::from(status))?;
    Ok(Value::from(members))
}

// What an answer tells.
fn answer_told<'a>(alloc: Global, answer: &'a Answer) -> Result<Told<'a>, AllocError>
    ensures { IfOk result (λ told. told_by told ≡ answer_told answer.entry.now) }
{
    match answer {
        Answer::Replied(reply) => reply_told(alloc, reply),
        Answer::Exported(number) => {
            Ok(Told::Members(one_member(alloc, "exported", Value::from(*number))?))
        }
    }
}

// What a reply tells.
fn reply_told<'a>(alloc: Global, reply: &'a Reply) -> Result<Told<'a>, AllocError>
    ensures { IfOk result (λ told. told_by told ≡ reply_told reply.entry.now) }
{
    match reply {
        Reply::Stored => Ok(Told::Members(Map::new(alloc))),
        Reply::Filed(rows) => Ok(Told::Members(entries_members(alloc, rows)?)),
        Reply::Listed(rows) => Ok(Told::Members(entries_members(alloc, rows)?)),
        Reply::Catalog(lines) => Ok(Told::Lines(lines)),
        Reply::Removed(number) => {
            Ok(Told::Members(one_member(alloc, "removed", Value::from(*number))?))
        }
        Reply::Migrated(count) => {
            Ok(Told::Members(one_member(alloc, "migrated", Value::from(*count))?))
        }
    }
}

// What a refusal has: its number, its name, and its place if it has one.
fn refusal_members(alloc: Global, refusal: &Refusal) -> Result<Map<String, Value>, AllocError>
    ensures { IfOk result (λ members. members_view members.entries ≡ refusal_members refusal.now) }
{
    let mut members = Map::new(alloc);
    put(
        &mut members,
        alloc,
        "refused",
        Value::from(refusal.number()),
    )?;
    let name = Value::try_from_str(alloc, refusal.name())?;
    put(&mut members, alloc, "name", name)?;
    put_place(alloc, &mut members, refusal.place())?;
    Ok(members)
}

// Puts the place of a refusal among the members, if it has one.
fn put_place(
    alloc: Global,
    members: &mut Map<String, Value>,
    place: Option<usize>,
) -> Result<(), AllocError>
    ensures { OnOk result (members_view members.new.entries
        ≡ with_place place (members_view members.old.entries)) }
{
    match place {
        Some(place) => put(members, alloc, "place", Value::from(place)),
        None => Ok(()),
    }
}

// What a line has that is no command.
fn fault_members(alloc: Global, fault: LineFault) -> Result<Map<String, Value>, AllocError>
    ensures { IfOk result (λ members. members_view members.entries ≡ fault_members fault) }
{
    let sentence = Value::try_from_str(alloc, fault.sentence())?;
    one_member(alloc, "wrong", sentence)
}

// What an answer has that tells entries.
fn entries_members(alloc: Global, rows: &[EntryRow]) -> Result<Map<String, Value>, AllocError>
    ensures { IfOk result (λ members. members_view members.entries
        ≡ entries_members (map listed rows.now)) }
{
    let entries = entries_value(alloc, rows)?;
    one_member(alloc, "entries", entries)
}

// Members with one of this name.
fn one_member(alloc: Global, name: &str, value: Value) -> Result<Map<String, Value>, AllocError>
    ensures { IfOk result (λ members. members_view members.entries
        ≡ member name.now (view value) no_members) }
{
    let mut members = Map::new(alloc);
    put(&mut members, alloc, name, value)?;
    Ok(members)
}

// Entries as a list of objects.
fn entries_value(alloc: Global, rows: &[EntryRow]) -> Result<Value, AllocError>
    ensures { IfOk result (λ value. view value
        ≡ array (items_of (map entry_value (map listed rows.now)))) }
{
    let mut items = Vec::with_capacity(alloc, rows.len())?;
    for row in rows {
        items.push(entry_value(alloc, row)?)?;
    }
    Ok(Value::from(items))
}

// An entry as an object.
fn entry_value(alloc: Global, row: &EntryRow) -> Result<Value, AllocError>
    ensures { IfOk result (λ value. view value ≡ entry_value (listed row.now)) }
{
    let mut members = Map::new(alloc);
    put(&mut members, alloc, "number", Value::from(row.number))?;
    let kind = Value::try_from_str(alloc, kind_name(row.kind))?;
    put(&mut members, alloc, "kind", kind)?;
    put(
        &mut members,
        alloc,
        "folder",
        text_value(alloc, &row.folder)?,
    )?;
    put(&mut members, alloc, "name", text_value(alloc, &row.name)?)?;
    put(&mut members, alloc, "media", text_value(alloc, &row.media)?)?;
    put(&mut members, alloc, "octets", Value::from(row.octets))?;
    Ok(Value::from(members))
}
