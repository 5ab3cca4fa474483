// The kinds of arguments.
//
// The number of an entry is read as clap reads it: also with a plus sign and leading zeros. If clap's rules exclude a
// case, the code still has an arm for it: a missing required argument reads as the empty text, an unknown name of an
// encoding as raw, an unknown command as no words. Cases show that clap lets none through (`cases/words.t`).
ghost use Rattle.std.specs.Prelude.{◌≡◌, Some, codes, false, true};
ghost use Rattle.clap.specs.Words.{new_rule, rule_of};
ghost use Rattle.clap.specs.declared.builder.value_parser.ValueParser.TheVariants.{Unsigned};
ghost use Rattle.octets.specs.Limits.{max_entry_number};
ghost use Rattle.depot_words.specs.Commands.{rule_for};
ghost use Rattle.depot_words.specs.Rows.{argument_of};

use clap::{Arg, value_parser};
use std::alloc::Global;

/// A kind of argument.
pub enum Argument {
    /// DB: the file of the depot, which is made if it doesn't exist.
    Depot,
    /// DB of a command that only reads: any file.
    AnyFile,
    /// DIR: the folder of a depot in volumes, which is made.
    Folder,
    /// USER: the name of a user.
    User,
    /// NUMBER: the number of an entry, from 1 to 4,294,967,295.
    Number,
    /// NUMBER of `since`: the highest number of an entry that was seen, from 0 to 4,294,967,295.
    LastSeen,
    /// NUMBER of `catalog`: the same; it can be left out.
    OptionalLastSeen,
    /// ENCODING: the name of an encoding.
    Encoding,
    /// SCRIPT: the file of a Sieve script.
    Script,
    /// FILE: the file of a script or a program.
    Filter,
    /// PROGRAM: the file of a program (bytecode).
    Program,
    /// LISTING: the file of a program's listing.
    Listing,
    /// MESSAGE: the file of a message.
    Message,
    /// OUT: the file to be made.
    Out,
    /// OCTETS: the most bytes that a message has.
    Octets,
    /// PARTS: the most parts that a message has.
    Parts,
}

/// The names of the encodings.
#[derive(Drop)]
pub struct Encodings<'a> {
    pub names: &'a [&'a str],
}

impl Argument {
    /// The argument, as described to clap.
    pub fn described<'a>(&self, alloc: Global, encodings: &Encodings<'a>) -> Arg<'a>
        ensures rule { rule_of result ≡ rule_for encodings.now.names (argument_of self.now) }
        ensures local { result.global ≡ false }
    {
        match self {
            Argument::Depot => required(
                alloc,
                "DB",
                "The file of the depot; it is made if it is missing",
            ),
            Argument::AnyFile => required(alloc, "DB", "The file of a depot, or any other file"),
            Argument::Folder => required(
                alloc,
                "DIR",
                "The folder to make; it can be there if it is empty",
            ),
            Argument::User => required(
                alloc,
                "USER",
                "The name of a user: 1 to 64 of a to z, 0 to 9, dot, underscore and hyphen",
            ),
            Argument::Number => required(
                alloc,
                "NUMBER",
                "The number of an entry, as `list` prints it",
            )
            .value_parser(value_parser!(u32).range(1..)),
            Argument::LastSeen => last_seen(
                alloc,
                "Only entries above this number are listed: 0 to 4294967295",
            )
            .required(true),
            Argument::OptionalLastSeen => last_seen(
                alloc,
                "Only entries above this number are described: 0 to 4294967295",
            ),
            Argument::Encoding => required(alloc, "ENCODING", "The encoding").value_parser(
                encodings.names,
            ),
            Argument::Script => required(alloc, "SCRIPT", "The file of a Sieve script"),
            Argument::Filter => required(
                alloc,
                "FILE",
                "The file of a Sieve script, or of a filter program (bytecode)",
            ),
            Argument::Program => required(
                alloc,
                "PROGRAM",
                "The file of a filter program (bytecode)",
            ),
            Argument::Listing => required(
                alloc,
                "LISTING",
                "The file of a listing of a filter program",
            ),
            Argument::Message => required(
                alloc,
                "MESSAGE",
                "The file of one mail message (RFC 5322)",
            ),
            Argument::Out => required(alloc, "OUT", "The file to write the filter program to"),
            Argument::Octets => required(
                alloc,
                "OCTETS",
                "The most bytes that a message has: 0 to 67108864",
            )
            .value_parser(value_parser!(u64).range(0..=67_108_864)),
            Argument::Parts => required(
                alloc,
                "PARTS",
                "The most parts that it has, with the message itself: 1 to 4096",
            )
            .value_parser(value_parser!(u64).range(1..=4096)),
        }
    }
}

// An argument that has to be there, of any text.
fn required<'a>(alloc: Global, name: &'static str, help: &'static str) -> Arg<'a>
    ensures rule { rule_of result ≡ record (new_rule name.now) { required = true } }
    ensures local { result.global ≡ false }
{
    Arg::new(alloc, name).required(true).help(help)
}

// NUMBER: the highest number of an entry that was seen. It can be left out.
fn last_seen<'a>(alloc: Global, help: &'static str) -> Arg<'a>
    ensures rule { rule_of result ≡ record (new_rule (codes "NUMBER")) { parser = Some (Unsigned 0 max_entry_number) } }
    ensures local { result.global ≡ false }
{
    Arg::new(alloc, "NUMBER")
        .value_parser(value_parser!(u64).range(0..=4_294_967_295))
        .help(help)
}
