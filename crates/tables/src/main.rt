// Answers the rows of tables by the libraries, and prints each that differs from what its table wants.
#![tactic(auto)]

mod actions;
mod codecs;
mod compare;
mod listing;
mod mail;
mod matching;
mod numbers;
mod printed;
mod programs;
mod refused;
mod rows;
mod script_forms;
mod script_runs;
mod script_series;
mod script_tokens;
mod script_trees;
mod scripts;

use crate::compare::{Counts, Family, compare};
use crate::printed::Printed;
use std::fs;
use std::io::{self, Write};
use std::process::ExitCode;

// The tables, and what answers their rows.
const TABLES: &[(&str, Family)] = &[
    ("mail_headers.table", Family::Mail),
    ("mail_values.table", Family::Mail),
    ("mail_parts.table", Family::Mail),
    ("matching_texts.table", Family::Matching),
    ("matching_headers.table", Family::Matching),
    ("codecs_qp.table", Family::Codecs),
    ("codecs_base.table", Family::Codecs),
    ("programs_octets.table", Family::Programs),
    ("programs_verify.table", Family::Programs),
    ("programs_run.table", Family::Programs),
    ("scripts_tokens.table", Family::Scripts),
    ("scripts_trees.table", Family::Scripts),
    ("scripts_checks.table", Family::Scripts),
    ("scripts_meaning.table", Family::Scripts),
    ("scripts_variables.table", Family::Scripts),
    ("scripts_loops.table", Family::Scripts),
    ("scripts_mime.table", Family::Scripts),
    ("scripts_series.table", Family::Scripts),
];

fn main(rt: HostRuntime) -> ExitCode {
    match compare_all(&rt) {
        Ok(true) => ExitCode::SUCCESS,
        _ => ExitCode::FAILURE,
    }
}

// Whether no row of any table differs.
fn compare_all(rt: &HostRuntime) -> io::Result<bool> {
    let mut all = Counts {
        rows: 0,
        differing: 0,
    };
    for (name, family) in TABLES {
        let counts = compare_one(rt, *name, *family)?;
        all.rows = all.rows.wrapping_add(counts.rows);
        all.differing = all.differing.wrapping_add(counts.differing);
    }
    show_all(rt, all)?;
    Ok(all.differing == 0)
}

// Compares the rows of a table, and shows how they came out.
fn compare_one(rt: &HostRuntime, name: &str, family: Family) -> io::Result<Counts> {
    let table = fs::read(rt, name)?;
    let mut shown = Printed::new(rt.alloc());
    let counts = compare(rt.alloc(), name, family, &table, &mut shown)?;
    rt.stdout().write_all(shown.whole()?)?;
    Ok(counts)
}

fn show_all(rt: &HostRuntime, counts: Counts) -> io::Result<()> {
    let mut last = Printed::new(rt.alloc());
    last.number(counts.rows);
    last.word("rows,");
    last.number(counts.differing);
    last.word("differ\n");
    rt.stdout().write_all(last.whole()?)
}
