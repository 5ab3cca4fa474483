// Requests to a depot.
ghost use Rattle.std.specs.Prelude.{◌≡◌, MatchOption, Some, option_map};
ghost use Rattle.clap.specs.Words.{found_of, rows_of};
ghost use Rattle.depot_jobs.specs.Inputs.{file_of};
ghost use Rattle.depot_jobs.specs.Requests.{with_file};
ghost use Rattle.depot_jobs.specs.Words.{IsNoRequest, SaysRequest};

use crate::arguments::{argument, encoding_named, number};
use clap::ArgMatches;
use encodings::Encoding;

/// A command on a depot. The type `F` stands for the command's file, if it has one: in a [`Request`], which
/// [`crate::line_of`] makes, it is the file's name; in a [`Task`], which the depot does, it is the file's bytes.
#[derive(Clone, Copy, Drop)]
pub enum OnDepot<'a, F> {
    /// Store a filter, or file a message, for the user with this name.
    FromFile(Deposit, &'a str, F),
    /// List, describe or remove entries of the user with this name.
    OnUser(Access, &'a str),
    /// Write the bytes of the user's entry in an encoding. No other command writes its reply itself.
    Export {
        user: &'a str,
        number: u32,
        encoding: Encoding,
    },
    /// Give all users' filters the latest version of the bytecode.
    Migrate,
}

/// What a depot does with a file that it is given for a user.
#[derive(Clone, Copy)]
pub enum Deposit {
    /// Compile a script and store its program as the user's filter.
    Script,
    /// Store a program as the user's filter.
    Code,
    /// File a message as the user's filter says.
    Message,
}

/// What a depot does with a user's entries.
#[derive(Clone, Copy)]
pub enum Access {
    /// List them.
    List,
    /// List those with numbers above `number`.
    Since { number: u32 },
    /// Describe those with numbers above `number` for other programs, in JSON.
    Catalog { number: u32 },
    /// Remove the one with this number.
    Remove { number: u32 },
}

/// A command on a depot, with the name of its file.
pub type Request<'a> = OnDepot<'a, &'a str>;

/// A command on a depot, with the bytes of its file.
pub type Task<'a> = OnDepot<'a, Vec<u8>>;

/// The request that the matches of a command make to their depot, if they make one. An argument that the command
/// doesn't have is empty.
pub(crate) fn request_in<'a>(name: &str, found: &ArgMatches<'a>) -> Option<Request<'a>>
    ensures { MatchOption result (IsNoRequest name.now)
        (λ request. SaysRequest request (Some (name.now, rows_of (found_of found.now)))
        (rows_of (found_of found.now))) }
{
    let user = argument(found, "USER");
    let entry = number(argument(found, "NUMBER"));
    match name {
        "script" => Some(Request::FromFile(Deposit::Script, user, argument(found, "SCRIPT"))),
        "code" => Some(Request::FromFile(Deposit::Code, user, argument(found, "PROGRAM"))),
        "deliver" => Some(Request::FromFile(Deposit::Message, user, argument(found, "MESSAGE"))),
        "list" => Some(Request::OnUser(Access::List, user)),
        "since" => Some(Request::OnUser(Access::Since { number: entry }, user)),
        "catalog" => Some(Request::OnUser(Access::Catalog { number: entry }, user)),
        "export" => Some(Request::Export {
            user,
            number: entry,
            encoding: encoding_named(argument(found, "ENCODING")),
        }),
        "remove" => Some(Request::OnUser(Access::Remove { number: entry }, user)),
        "migrate" => Some(Request::Migrate),
        _ => None,
    }
}

impl<'a> Request<'a> {
    /// Returns the name of the file that the command reads, if it reads one.
    pub fn file(self) -> Option<&'a str>
        ensures { option_map (λ file. file.now) result ≡ file_of self.entry }
    {
        match self {
            Request::FromFile(_, _, file) => Some(file),
            Request::OnUser(_, _) | Request::Export { .. } | Request::Migrate => None,
        }
    }

    /// Returns the same command with the bytes of its file. A command without a file ignores them.
    pub fn with_octets(self, octets: Vec<u8>) -> Task<'a>
        ensures { result ≡ with_file octets self.entry }
    {
        match self {
            Request::FromFile(deposit, user, _) => Task::FromFile(deposit, user, octets),
            Request::OnUser(access, user) => Task::OnUser(access, user),
            Request::Export {
                user,
                number,
                encoding,
            } => Task::Export {
                user,
                number,
                encoding,
            },
            Request::Migrate => Task::Migrate,
        }
    }
}
