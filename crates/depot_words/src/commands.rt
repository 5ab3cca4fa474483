// The commands, as rows of a table: word, arguments in order, and help.
ghost use Rattle.std.specs.Prelude.{◌≡◌, IfOk, false, map};
ghost use Rattle.clap.specs.Words.{app_of};
ghost use Rattle.clap.specs.declared.builder.command.Command.TheViews.{out-Command as fields_of};
ghost use Rattle.depot_words.specs.Commands.{command_app, commands, depot_app};
ghost use Rattle.depot_words.specs.Rows.{command_of};

use crate::arguments::{Argument, Encodings};
use crate::help;
use clap::Command;
use std::alloc::{AllocError, Global};

/// What the command line says of a command.
struct Row {
    /// The command's word.
    word: &'static str,
    /// Its arguments, in order.
    arguments: &'static [Argument],
    /// What it does, in a line.
    about: &'static str,
    /// The end of its help.
    ending: &'static str,
}

/// The commands, in the order in which help lists them.
const COMMANDS: &[Row] = &[
    Row {
        word: "check",
        arguments: &[Argument::Script],
        about: "Check a Sieve script for mistakes",
        ending: help::CHECK,
    },
    Row {
        word: "explain",
        arguments: &[Argument::Script],
        about: "Describe the mistakes in a Sieve script, and show their lines",
        ending: help::EXPLAIN,
    },
    Row {
        word: "compile",
        arguments: &[Argument::Script, Argument::Out],
        about: "Compile a Sieve script to a filter program (bytecode)",
        ending: help::COMPILE,
    },
    Row {
        word: "verify",
        arguments: &[Argument::Program],
        about: "Check that a filter program is safe to run, and print the most that it can cost",
        ending: help::VERIFY,
    },
    Row {
        word: "limit",
        arguments: &[Argument::Program, Argument::Octets, Argument::Parts],
        about: "Print the most that a filter program can cost and file, for messages up to a size",
        ending: help::LIMIT,
    },
    Row {
        word: "run",
        arguments: &[Argument::Program, Argument::Message],
        about: "Run a filter program on a message, and print its actions and cost",
        ending: help::RUN,
    },
    Row {
        word: "disassemble",
        arguments: &[Argument::Program],
        about: "Print a filter program as a listing, an instruction a line",
        ending: help::DISASSEMBLE,
    },
    Row {
        word: "assemble",
        arguments: &[Argument::Listing, Argument::Out],
        about: "Assemble a listing to a filter program (bytecode)",
        ending: help::ASSEMBLE,
    },
    Row {
        word: "eval",
        arguments: &[Argument::Script, Argument::Message],
        about: "Run a Sieve script on a message, and print its actions and cost",
        ending: help::EVAL,
    },
    Row {
        word: "trace",
        arguments: &[Argument::Filter, Argument::Message],
        about: "Run a Sieve script or a filter program on a message, and print each step",
        ending: help::TRACE,
    },
    Row {
        word: "parts",
        arguments: &[Argument::Message],
        about: "List the parts of a message, with number, depth, media type, length and SHA-256",
        ending: help::PARTS,
    },
    Row {
        word: "encode",
        arguments: &[Argument::Encoding],
        about: "Encode the bytes of standard input as a text",
        ending: help::ENCODE,
    },
    Row {
        word: "decode",
        arguments: &[Argument::Encoding],
        about: "Decode the text on standard input to bytes",
        ending: help::DECODE,
    },
    Row {
        word: "init",
        arguments: &[Argument::Folder],
        about: "Make a depot in a folder of files, for an archive that grows",
        ending: help::INIT,
    },
    Row {
        word: "script",
        arguments: &[Argument::Depot, Argument::User, Argument::Script],
        about: "Compile a Sieve script, and store it as the filter of a user",
        ending: help::SCRIPT,
    },
    Row {
        word: "code",
        arguments: &[Argument::Depot, Argument::User, Argument::Program],
        about: "Store a filter program (bytecode) as the filter of a user",
        ending: help::CODE,
    },
    Row {
        word: "program",
        arguments: &[Argument::Depot, Argument::User, Argument::Out],
        about: "Write the filter of a user to a file, as a filter program (bytecode)",
        ending: help::PROGRAM,
    },
    Row {
        word: "deliver",
        arguments: &[Argument::Depot, Argument::User, Argument::Message],
        about: "Run the filter of a user on a message, and file the result",
        ending: help::DELIVER,
    },
    Row {
        word: "list",
        arguments: &[Argument::Depot, Argument::User],
        about: "List the entries of a user",
        ending: help::LIST,
    },
    Row {
        word: "since",
        arguments: &[Argument::Depot, Argument::User, Argument::LastSeen],
        about: "List the entries of a user with numbers above NUMBER",
        ending: help::SINCE,
    },
    Row {
        word: "catalog",
        arguments: &[Argument::Depot, Argument::User, Argument::OptionalLastSeen],
        about: "Describe the entries of a user for programs, in JSON, an entry a line",
        ending: help::CATALOG,
    },
    Row {
        word: "export",
        arguments: &[
            Argument::Depot,
            Argument::User,
            Argument::Number,
            Argument::Encoding,
        ],
        about: "Write the bytes of an entry to standard output, in an encoding",
        ending: help::EXPORT,
    },
    Row {
        word: "remove",
        arguments: &[Argument::Depot, Argument::User, Argument::Number],
        about: "Remove an entry of a user",
        ending: help::REMOVE,
    },
    Row {
        word: "migrate",
        arguments: &[Argument::Depot],
        about: "Convert the filters of all users to the latest version of the bytecode",
        ending: help::MIGRATE,
    },
    Row {
        word: "inspect",
        arguments: &[Argument::AnyFile],
        about: "Report whether a file is a depot, and what it holds",
        ending: help::INSPECT,
    },
    Row {
        word: "scrub",
        arguments: &[Argument::AnyFile],
        about: "Compare every stored content with its SHA-256",
        ending: help::SCRUB,
    },
    Row {
        word: "batch",
        arguments: &[Argument::Depot],
        about: "Run the commands on standard input, one a line, on a depot",
        ending: help::BATCH,
    },
];

impl Row {
    // The command, as described to clap.
    fn command<'a>(
        &self,
        alloc: Global,
        encodings: &Encodings<'a>,
    ) -> Result<Command<'a>, AllocError>
        ensures app { IfOk result (λ c. app_of c
            ≡ command_app encodings.now.names (command_of self.now)) }
        ensures local { IfOk result (λ c. (fields_of c).has_globals ≡ false) }
    {
        let arguments = self.arguments;
        let mut command = Command::new(alloc, self.word)
            .about(self.about)
            .after_help(self.ending);
        'arguments: for argument in arguments {
            command = command.arg(argument.described(alloc, encodings))?;
        }
        Ok(command)
    }
}

// The rows of the table.
fn rows() -> &'static [Row]
    ensures { map command_of result.now ≡ commands }
{
    COMMANDS
}

/// Describes the program with its commands to clap. `names` are the names of the encodings, which clap checks.
///
/// # Errors
///
/// `AllocError` if memory is refused.
pub fn depot_command<'a>(alloc: Global, names: &'a [&'a str]) -> Result<Command<'a>, AllocError>
    ensures app { IfOk result (λ c. app_of c ≡ depot_app names.entry) }
    ensures local { IfOk result (λ c. (fields_of c).has_globals ≡ false) }
{
    let rows = rows();
    let encodings = Encodings { names };
    let mut app = Command::new(alloc, "depot")
        .about("File mail and its parts by Sieve filters whose behaviour is proved")
        .after_help(help::ALL);
    'rows: for row in rows {
        app = app.subcommand(row.command(alloc, &encodings)?)?;
    }
    Ok(app)
}
