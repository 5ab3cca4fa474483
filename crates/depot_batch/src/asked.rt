// What a line asks for, or why it asks for nothing.
//
// An export in a batch makes a file: the bytes of an entry can look like answers, and only their number would show
// where they end. The file is made like that of a compiled program, whole or not at all, and never overwrites the
// depot.
ghost use Rattle.std.specs.Prelude.{◌≡◌, ◌∷◌, [], ℕ, MatchOption, IfErr, IfOk, map};
ghost use Rattle.depot_jobs.specs.Words.{IsNoRequest};
ghost use Rattle.depot_batch.specs.Asked.{Asks, AskNothing, IsNumberFrom, least_number, name_of, sentence_of, usage_of};
ghost use Rattle.depot_batch.specs.declared.asked.LineFault.TheVariants as faults;

use depot_cli::WithReply;
use depot_jobs::{Access, Deposit};
use encodings::Encoding;

/// The command that a line asks for. [`asked_by`] makes it from the line's words, and a batch does it.
#[derive(Clone, Copy)]
pub enum Asked<'a> {
    /// A command to which the depot has a reply, with the name of its file.
    Reply(WithReply<'a, &'a str>),
    /// Write an entry's bytes in an encoding to a file.
    Export(Export<'a>),
}

/// Which entry is to be written to which file.
#[derive(Clone, Copy)]
pub struct Export<'a> {
    /// The name of the user.
    pub user: &'a str,
    /// The number of the user's entry.
    pub number: u32,
    /// The encoding in which its bytes are written.
    pub encoding: Encoding,
    /// The name of the file.
    pub file: &'a str,
}

/// The commands that a line can have, each with a fixed number of words. [`LineFault::Form`] names the one whose words
/// were too many or too few, so that the answer can show how the command is written; [`LineFault::Number`] the one whose
/// number isn't one, because the numbers of `since` and `catalog` begin with 0.
#[derive(Clone, Copy)]
pub enum Form {
    /// `script USER SCRIPT`, `code USER PROGRAM` or `deliver USER MESSAGE`
    FromFile(Deposit),
    /// `list USER`
    List,
    /// `since USER NUMBER`
    Since,
    /// `catalog USER NUMBER`
    Catalog,
    /// `export USER NUMBER ENCODING FILE`
    Export,
    /// `remove USER NUMBER`
    Remove,
    /// `migrate`
    Migrate,
}

/// Why a line is no command. [`asked_by`] and the reading of lines return it, and the answer is its sentence after a
/// `?`.
#[derive(Clone, Copy)]
pub enum LineFault {
    /// The input ended within the line.
    Unfinished,
    /// The line doesn't consist of words with one space between each two.
    Words,
    /// A word isn't UTF-8.
    NotText,
    /// The first word isn't the name of a command.
    NoCommand,
    /// The command takes more or fewer words after its name.
    Form(Form),
    /// A word that should be a number isn't one that this command takes.
    Number(Form),
    /// A word that should be the name of an encoding isn't one.
    Encoding,
}

/// Returns the command that the words of a line ask for. For example, `deliver`, `ann` and `examples/invoice.eml` ask
/// to deliver that file to the user `ann`.
///
/// # Errors
///
/// - [`LineFault::NoCommand`] if the first word isn't the name of a command, or there is no word.
/// - [`LineFault::Form`] if the command takes more or fewer words after its name.
/// - [`LineFault::Number`] if a word that should be a number isn't one that the command takes.
/// - [`LineFault::Encoding`] if a word that should be the name of an encoding isn't one.
pub fn asked_by<'a>(words: &[&'a str]) -> Result<Asked<'a>, LineFault>
    ensures asks { IfOk result (Asks (map (λ w. w.now) words.now)) }
    ensures nothing { IfErr result (AskNothing (map (λ w. w.now) words.now)) }
{
    match split(words) {
        Some((name, rest)) => match form_of(name) {
            Some(form) => asked_in(form, rest),
            None => Err(LineFault::NoCommand),
        },
        None => Err(LineFault::NoCommand),
    }
}

// The first word, and the words after it.
fn split<'w, 'a>(words: &'w [&'a str]) -> Option<(&'a str, &'w [&'a str])>
    ensures { MatchOption result (map (λ w. w.now) words.entry.now ≡ [])
        (λ x. map (λ w. w.now) words.entry.now ≡ x.0.now ∷ map (λ w. w.now) x.1.now) }
{
    match words {
        [first, rest @ ..] => Some((first, rest)),
        [] => None,
    }
}

// The form of the command with this name.
fn form_of(name: &str) -> Option<Form>
    ensures { MatchOption result (IsNoRequest name.now) (λ form. name.now ≡ name_of form) }
{
    match name {
        "script" => Some(Form::FromFile(Deposit::Script)),
        "code" => Some(Form::FromFile(Deposit::Code)),
        "deliver" => Some(Form::FromFile(Deposit::Message)),
        "list" => Some(Form::List),
        "since" => Some(Form::Since),
        "catalog" => Some(Form::Catalog),
        "export" => Some(Form::Export),
        "remove" => Some(Form::Remove),
        "migrate" => Some(Form::Migrate),
        _ => None,
    }
}

// What a command asks for, from the words after its name.
fn asked_in<'a>(form: Form, rest: &[&'a str]) -> Result<Asked<'a>, LineFault>
    ensures asks { IfOk result (Asks (name_of form ∷ map (λ w. w.now) rest.now)) }
    ensures nothing { IfErr result (AskNothing (name_of form ∷ map (λ w. w.now) rest.now)) }
{
    match (form, rest) {
        (Form::FromFile(deposit), [user, file]) => {
            Ok(Asked::Reply(WithReply::FromFile(deposit, user, file)))
        }
        (Form::List, [user]) => Ok(Asked::Reply(WithReply::OnUser(Access::List, user))),
        (Form::Since, [user, digits]) => match number_of(form, digits) {
            Some(number) => Ok(Asked::Reply(WithReply::OnUser(Access::Since { number }, user))),
            None => Err(LineFault::Number(form)),
        },
        (Form::Catalog, [user, digits]) => match number_of(form, digits) {
            Some(number) => Ok(Asked::Reply(WithReply::OnUser(Access::Catalog { number }, user))),
            None => Err(LineFault::Number(form)),
        },
        (Form::Export, [user, digits, name, file]) => {
            match (number_of(form, digits), Encoding::named(name)) {
                (Some(number), Some(encoding)) => Ok(Asked::Export(Export {
                    user,
                    number,
                    encoding,
                    file,
                })),
                (None, _) => Err(LineFault::Number(form)),
                (_, None) => Err(LineFault::Encoding),
            }
        }
        (Form::Remove, [user, digits]) => match number_of(form, digits) {
            Some(number) => Ok(Asked::Reply(WithReply::OnUser(Access::Remove { number }, user))),
            None => Err(LineFault::Number(form)),
        },
        (Form::Migrate, []) => Ok(Asked::Reply(WithReply::Migrate)),
        _ => Err(LineFault::Form(form)),
    }
}

// The number that digits are, if a command of this form takes it.
fn number_of(form: Form, digits: &str) -> Option<u32>
    ensures { MatchOption result
        ((number : ℕ) → IsNumberFrom (least_number form) digits.now number → ⊥)
        (IsNumberFrom (least_number form) digits.now) }
{
    match digits.parse::<u32>() {
        Ok(number) if number >= form.least_number() => Some(number),
        _ => None,
    }
}

impl Form {
    // How a line with the command is written.
    fn usage(self) -> &'static str
        ensures { result.now ≡ usage_of self }
    {
        match self {
            Form::FromFile(Deposit::Script) => "script USER SCRIPT",
            Form::FromFile(Deposit::Code) => "code USER PROGRAM",
            Form::FromFile(Deposit::Message) => "deliver USER MESSAGE",
            Form::List => "list USER",
            Form::Since => "since USER NUMBER",
            Form::Catalog => "catalog USER NUMBER",
            Form::Export => "export USER NUMBER ENCODING FILE",
            Form::Remove => "remove USER NUMBER",
            Form::Migrate => "migrate",
        }
    }

    // The numbers that the command takes, in words.
    fn numbers(self) -> &'static str
        ensures { result.now ≡ sentence_of (faults.Number self) }
    {
        match self {
            Form::Since => "NUMBER is 0 to 4294967295",
            Form::Catalog => "NUMBER is 0 to 4294967295",
            _ => "NUMBER is 1 to 4294967295",
        }
    }

    // The least number that the command takes.
    fn least_number(self) -> u32
        ensures { result ≡ least_number self }
    {
        match self {
            Form::Since => 0,
            Form::Catalog => 0,
            _ => 1,
        }
    }
}

impl LineFault {
    /// Returns the mistake in words, as the answer to the line has it.
    pub fn sentence(self) -> &'static str
        ensures { result.now ≡ sentence_of self }
    {
        match self {
            LineFault::Unfinished => "the input ended within this line",
            LineFault::Words => "words have one space between them, and others stand in quotes",
            LineFault::NotText => "a word isn't UTF-8",
            LineFault::NoCommand => {
                "the commands are script, code, deliver, list, since, catalog, export, remove and migrate"
            }
            LineFault::Form(form) => form.usage(),
            LineFault::Number(form) => form.numbers(),
            LineFault::Encoding => {
                "ENCODING is raw, base64, base64-mime, base32, base32hex, base16 or qp"
            }
        }
    }
}
