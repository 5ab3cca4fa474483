// What the words of the command line ask for.
//
// The names that clap checks are borrowed texts, and its rule has the place where they are stored. So `line_of` is
// about a command line whose encodings are these names, wherever they are stored (`IsDepot`).
ghost use Rattle.std.specs.Prelude.{◌≡◌, IfOk, IfErr, MatchOption, Some, map, true};
ghost use Rattle.clap.specs.Words.{App, FailsBy, fault_of, found_of, kind_of, rows_of, subcommand_rows_of, takes};
ghost use Rattle.clap.specs.declared.error.kind.ErrorKind.TheVariants.{OutOfMemory};
ghost use Rattle.depot_words.specs.Commands.{AreEncodings, IsDepot};
ghost use Rattle.depot_jobs.specs.Words.{IsFile, IsLine, IsNoWork, Says, SaysWork};

use crate::arguments::{argument, encoding_named, number};
use crate::host::Input;
use crate::request::{Request, request_in};
use crate::work::{Runner, Tool, Work};
use clap::{ArgMatches, Error};
use depot_words::depot_command;
use std::alloc::Global;

/// A command with its arguments, as the words of a command line say it. [`line_of`] makes it; every argument is there,
/// and in its range. A number that can be left out is 0 then.
#[derive(Clone, Copy)]
pub enum CommandLine<'a> {
    /// A command that needs no depot.
    Alone(Work<'a>),
    /// Make a folder with the first volume of a depot in volumes.
    Init {
        folder: &'a str,
    },
    /// A command on a depot.
    OnDepot {
        depot: &'a str,
        request: Request<'a>,
    },
    /// Save a user's filter program as a file.
    Program {
        depot: &'a str,
        user: &'a str,
        out: &'a str,
    },
    /// Report what a file is, and what the depot in it holds.
    Inspect {
        depot: &'a str,
    },
    /// Compare the contents of the depot in a file with their SHA-256.
    Scrub {
        depot: &'a str,
    },
    /// Do the commands in the lines of standard input on a depot.
    Batch {
        depot: &'a str,
    },
}

/// The names of the encodings.
const ENCODINGS: &[&str] = &[
    "raw",
    "base64",
    "base64-mime",
    "base32",
    "base32hex",
    "base16",
    "qp",
];

/// Reads the words of a command line; the first is the program's name. Each argument of the returned command is there,
/// unless it can be left out, and in its range.
///
/// # Errors
///
/// An error of clap, whose kind is `OutOfMemory` if memory is refused. Otherwise the words aren't a command, or they
/// ask for help; then the error has the text for the user.
pub fn line_of<'a>(alloc: Global, words: &'a [&'a str]) -> Result<CommandLine<'a>, Error>
    ensures says { IfOk result (IsLine (map (λ w. w.now) words.entry.now)) }
    ensures taken { IfErr result (λ e. (app : App) × IsDepot app
        × (takes app (map (λ w. w.now) words.entry.now) ≡ true → kind_of e ≡ OutOfMemory)) }
    ensures kinds { (app : App) × IsDepot app
        × FailsBy (fault_of app (map (λ w. w.now) words.entry.now)) result }
{
    let names = encodings();
    let matches = depot_command(alloc, names)?.try_get_matches_from(words)?;
    Ok(line_in(&matches))
}

// What the matches say.
fn line_in<'a>(matches: &ArgMatches<'a>) -> CommandLine<'a>
    ensures { Says result (subcommand_rows_of matches.now) }
{
    match matches.subcommand() {
        Some((name, found)) => command_in(name, found),
        None => CommandLine::Alone(Work::OnFile(Tool::KeepAll, Input::Standard)),
    }
}

// What the matches of a command say. An argument that the command doesn't have is empty.
fn command_in<'a>(name: &str, found: &ArgMatches<'a>) -> CommandLine<'a>
    ensures { Says result (Some (name.now, rows_of (found_of found.now))) }
{
    match work_in(name, found) {
        Some(work) => CommandLine::Alone(work),
        None => depot_line_in(name, found),
    }
}

// The work that the matches of a command ask for, if it needs no depot.
fn work_in<'a>(name: &str, found: &ArgMatches<'a>) -> Option<Work<'a>>
    ensures { MatchOption result (IsNoWork name.now)
        (λ work. SaysWork work (Some (name.now, rows_of (found_of found.now)))) }
{
    let script = file(found, "SCRIPT");
    let program = file(found, "PROGRAM");
    let message = file(found, "MESSAGE");
    let out = argument(found, "OUT");
    let encoding = encoding_named(argument(found, "ENCODING"));
    match name {
        "check" => Some(Work::OnFile(Tool::Check, script)),
        "explain" => Some(Work::OnFile(Tool::Explain, script)),
        "compile" => Some(Work::OnFile(Tool::Compile { out }, script)),
        "verify" => Some(Work::OnFile(Tool::Verify, program)),
        "limit" => {
            let octets = number(argument(found, "OCTETS"));
            let parts = number(argument(found, "PARTS"));
            Some(Work::OnFile(Tool::Limit { octets, parts }, program))
        }
        "run" => Some(Work::OnMessage(Runner::Run, program, message)),
        "disassemble" => Some(Work::OnFile(Tool::Disassemble, program)),
        "assemble" => Some(Work::OnFile(Tool::Assemble { out }, file(found, "LISTING"))),
        "eval" => Some(Work::OnMessage(Runner::Eval, script, message)),
        "trace" => Some(Work::OnMessage(Runner::Trace, file(found, "FILE"), message)),
        "parts" => Some(Work::OnFile(Tool::Parts, message)),
        "encode" => Some(Work::OnFile(Tool::Encode { encoding }, Input::Standard)),
        "decode" => Some(Work::OnFile(Tool::Decode { encoding }, Input::Standard)),
        _ => None,
    }
}

// What the matches of a command on a depot say.
fn depot_line_in<'a>(name: &str, found: &ArgMatches<'a>) -> CommandLine<'a>
    ensures { IsNoWork name.now
        → Says result (Some (name.now, rows_of (found_of found.now))) }
{
    let depot = argument(found, "DB");
    match name {
        "init" => CommandLine::Init {
            folder: argument(found, "DIR"),
        },
        "program" => CommandLine::Program {
            depot,
            user: argument(found, "USER"),
            out: argument(found, "OUT"),
        },
        "inspect" => CommandLine::Inspect { depot },
        "scrub" => CommandLine::Scrub { depot },
        "batch" => CommandLine::Batch { depot },
        _ => match request_in(name, found) {
            Some(request) => CommandLine::OnDepot { depot, request },
            None => CommandLine::Alone(Work::OnFile(Tool::KeepAll, Input::Standard)),
        },
    }
}

// The file whose name is an argument.
fn file<'a>(matches: &ArgMatches<'a>, name: &str) -> Input<'a>
    ensures { IsFile name.now (rows_of (found_of matches.now)) result }
{
    Input::File(argument(matches, name))
}

// The names of the encodings.
fn encodings() -> &'static [&'static str]
    ensures { AreEncodings result }
{
    ENCODINGS
}
