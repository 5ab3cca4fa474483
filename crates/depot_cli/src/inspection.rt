// Printing what a depot holds, line by line.
ghost use Rattle.devices.specs.Pages.{Wrote};
ghost use Rattle.printing.specs.Printed.{line as line_of};
ghost use Rattle.depot_actions.specs.declared.overview.ProgramState.TheVariants.{Refused};
ghost use Rattle.depot_cli.specs.Printed.{contents_text, log_text, numbers_text, overview_text, state_line, user_line, users_text};

use depot_actions::{Overview, ProgramState, UserOverview};
use devices::{Page, Sink};
use part_store::ContentTotal;
use printing::{Piece, print, print_line};
use refusals::Refusal;

/// Prints the lines of a depot. `log` is the size of its log in bytes before it was opened, if there was one.
pub fn print_overview<O: Sink>(page: &mut Page<'_, O>, log: Option<u64>, overview: &Overview)
    ensures { Wrote (overview_text log overview.now) page.old page.new }
{
    print_line(page, "depot");
    print_log(page, log);
    print_users(page, &overview.users);
    print_total(page, &overview.contents);
}

// Prints the line about the log.
fn print_log<O: Sink>(page: &mut Page<'_, O>, log: Option<u64>)
    ensures { Wrote (line_of (log_text log)) page.old page.new }
{
    match log {
        Some(octets) => print(
            page,
            &[
                Piece::Text("log "),
                Piece::Number(octets as u128),
                Piece::Text(" octets\n"),
            ],
        ),
        None => print_line(page, "no log"),
    }
}

// Prints a line for each user.
fn print_users<O: Sink>(page: &mut Page<'_, O>, users: &[UserOverview])
    ensures { Wrote (users_text users.now) page.old page.new }
{
    'users: for user in users {
        print_user(page, user);
    }
}

// Prints the line of a user.
fn print_user<O: Sink>(page: &mut Page<'_, O>, user: &UserOverview)
    ensures { Wrote (user_line user.now) page.old page.new }
{
    print_numbers(page, user);
    print_state(page, &user.program);
}

// Prints the numbers of a user.
fn print_numbers<O: Sink>(page: &mut Page<'_, O>, user: &UserOverview)
    ensures { Wrote (numbers_text user.now) page.old page.new }
{
    print(
        page,
        &[
            Piece::Text("user "),
            Piece::Quoted(user.user.as_bytes()),
            Piece::Text(" last "),
            Piece::Number(user.last as u128),
            Piece::Text(" entries "),
            Piece::Number(user.entries as u128),
            Piece::Text(" octets "),
            Piece::Number(user.octets as u128),
            Piece::Text(" program "),
        ],
    );
}

// Prints the state of a user's filter, and the end of the line.
fn print_state<O: Sink>(page: &mut Page<'_, O>, program: &ProgramState)
    ensures { Wrote (state_line program.now) page.old page.new }
{
    match program {
        ProgramState::Missing => print_line(page, "none"),
        ProgramState::Accepted(version) => print(
            page,
            &[
                Piece::Text("accepted version "),
                Piece::Number(*version as u128),
                Piece::Text("\n"),
            ],
        ),
        ProgramState::Refused(refusal) => print_named(page, refusal),
    }
}

// Prints the number and the name of the refusal of a filter, without its place.
fn print_named<O: Sink>(page: &mut Page<'_, O>, refusal: &Refusal)
    ensures { Wrote (state_line (Refused refusal.now)) page.old page.new }
{
    print(
        page,
        &[
            Piece::Text("refused "),
            Piece::Number(refusal.number() as u128),
            Piece::Text(" "),
            Piece::Text(refusal.name()),
            Piece::Text("\n"),
        ],
    );
}

// Prints the line of the contents.
fn print_total<O: Sink>(page: &mut Page<'_, O>, contents: &ContentTotal)
    ensures { Wrote (line_of (contents_text contents.now)) page.old page.new }
{
    print(
        page,
        &[
            Piece::Text("contents "),
            Piece::Number(contents.contents as u128),
            Piece::Text(" octets "),
            Piece::Number(contents.octets as u128),
            Piece::Text("\n"),
        ],
    );
}
