// Printing on a page.
ghost use Rattle.std.specs.Prelude.{◌≡◌};
ghost use Rattle.std.specs.Fmt.{decimal};
ghost use Rattle.std.specs.List.{list_all};
ghost use Rattle.devices.specs.Pages.{Wrote};
ghost use Rattle.refusals.specs.Lines.{place_text};
ghost use Rattle.printing.specs.Pieces.{piece_text, pieces_text};
ghost use Rattle.printing.specs.Printed.{action_text, actions_text, charge_text, escaped, escaped_octet, line as line_of, quoted, refusal_line, report_text, shown, wrote_text};
ghost use Rattle.printing.specs.Printed as Printed;

use crate::piece::{Piece, Setting};
use bytecode_format::Action;
use devices::{Page, Sink};
use itoa::Buffer;
use readable_text::quoting::{self, escape};
use refusals::Refusal;

/// Prints the pieces, one after another.
pub fn print<O: Sink>(page: &mut Page<'_, O>, pieces: &[Piece<'_>])
    ensures { Wrote (pieces_text pieces.now) page.old page.new }
{
    'pieces: for piece in pieces {
        print_piece(page, piece);
    }
}

// Prints a piece.
fn print_piece<O: Sink>(page: &mut Page<'_, O>, piece: &Piece<'_>)
    ensures { Wrote (piece_text piece.now) page.old page.new }
{
    match piece {
        Piece::Text(text) => page.write(text.as_bytes()),
        Piece::Octets(octets) => page.write(octets),
        Piece::Quoted(octets) => print_quoted(page, octets),
        Piece::Number(n) => page.write(Buffer::new().format(*n).as_bytes()),
    }
}

// Prints bytes between double quotes.
fn print_quoted<O: Sink>(page: &mut Page<'_, O>, octets: &[u8])
    ensures { Wrote (quoted octets.now) page.old page.new }
{
    page.write(b"\"");
    print_escaped(page, Setting::Quotes, octets);
    page.write(b"\"");
}

// Prints bytes, with escapes if the setting needs them. Most bytes are plain, and printed at once.
#[tactic(auto, using(crate::proofs::PrintedLemmas::plain_escaped))]
fn print_escaped<O: Sink>(page: &mut Page<'_, O>, setting: Setting, octets: &[u8])
    ensures { Wrote (escaped setting octets.now) page.old page.new }
{
    if are_plain(setting, octets) {
        return page.write(octets);
    }
    'octets: for octet in octets {
        print_octet(page, setting, *octet);
    }
}

// Prints one byte, with an escape if the setting needs one.
fn print_octet<O: Sink>(page: &mut Page<'_, O>, setting: Setting, octet: u8)
    ensures { Wrote (escaped_octet setting octet) page.old page.new }
{
    if is_plain(setting, octet) {
        page.write(&[octet]);
    } else {
        page.write(&escape(octet));
    }
}

// Whether bytes are printed unchanged.
fn are_plain(setting: Setting, octets: &[u8]) -> bool
    ensures { result ≡ list_all (Printed.is_plain setting) octets.now }
{
    octets.iter().all(|octet| is_plain(setting, *octet))
}

// Whether a byte is printed unchanged.
fn is_plain(setting: Setting, octet: u8) -> bool
    ensures { result ≡ Printed.is_plain setting octet }
{
    match setting {
        Setting::Quotes => quoting::is_plain(octet),
        Setting::Text => matches!(octet, 32..=126 | b'\n'),
    }
}

// Prints the line of an action.
fn print_action<O: Sink>(page: &mut Page<'_, O>, action: &Action)
    ensures { Wrote (line_of (action_text action.now)) page.old page.new }
{
    match action {
        Action::Keep => print_line(page, "keep"),
        Action::File(folder) => {
            page.write(b"fileinto ");
            print_quoted(page, folder.as_slice());
            page.write(b"\n");
        }
        Action::Store(folder, part) => {
            page.write(b"store ");
            print_quoted(page, folder.as_slice());
            page.write(b" ");
            print_number(page, *part as u128);
            page.write(b"\n");
        }
    }
}

// Prints a line for each action, or the line `none` if there is none.
#[tactic(auto, using(crate::proofs::PrintedLemmas::some_actions))]
fn print_actions<O: Sink>(page: &mut Page<'_, O>, actions: &[Action])
    ensures { Wrote (actions_text actions.now) page.old page.new }
{
    if actions.is_empty() {
        return print_line(page, "none");
    }
    'actions: for action in actions {
        print_action(page, action);
    }
}

/// Prints the lines of a run: its actions, and what it charged and can charge at most, for example
/// `charged 1524 of 2779152`.
pub fn print_run<O: Sink>(page: &mut Page<'_, O>, actions: &[Action], charged: u128, limit: u128)
    ensures { Wrote (report_text actions.now charged limit) page.old page.new }
{
    print_actions(page, actions);
    print_charge(page, charged, limit);
}

// Prints the line about the charge of a run.
fn print_charge<O: Sink>(page: &mut Page<'_, O>, charged: u128, limit: u128)
    ensures { Wrote (line_of (charge_text charged limit)) page.old page.new }
{
    page.write(b"charged ");
    print_number(page, charged);
    page.write(b" of ");
    print_number(page, limit);
    page.write(b"\n");
}

// Prints a number in decimal digits.
fn print_number<O: Sink>(page: &mut Page<'_, O>, number: u128)
    ensures { Wrote (decimal number) page.old page.new }
{
    page.write(Buffer::new().format(number).as_bytes());
}

/// Prints a text and a line break.
pub fn print_line<O: Sink>(page: &mut Page<'_, O>, text: &str)
    ensures { Wrote (line_of text.now) page.old page.new }
{
    page.write(text.as_bytes());
    page.write(b"\n");
}

/// Prints the line about the bytes that were written to a file, for example `wrote 129 octets`.
pub fn print_wrote<O: Sink>(page: &mut Page<'_, O>, octets: usize)
    ensures { Wrote (line_of (wrote_text octets)) page.old page.new }
{
    page.write(b"wrote ");
    print_number(page, octets as u128);
    page.write(b" octets\n");
}

/// Prints the line of a refusal: its number, its name, and its place if it has one, for example
/// `refused 15 UnknownCommand at 2`.
pub fn print_refusal<O: Sink>(page: &mut Page<'_, O>, refusal: &Refusal)
    ensures { Wrote (refusal_line refusal.now) page.old page.new }
{
    page.write(b"refused ");
    print_number(page, refusal.number() as u128);
    page.write(b" ");
    page.write(refusal.name().as_bytes());
    print_place(page, refusal.place());
    page.write(b"\n");
}

// Prints a place, if there is one.
fn print_place<O: Sink>(page: &mut Page<'_, O>, place: Option<usize>)
    ensures { Wrote (place_text place) page.old page.new }
{
    if let Some(place) = place {
        page.write(b" at ");
        print_number(page, place as u128);
    }
}

/// Prints lines of a text, in which all but printable characters and line breaks are escaped.
pub fn print_text<O: Sink>(page: &mut Page<'_, O>, text: &str)
    ensures { Wrote (shown text.now) page.old page.new }
{
    print_escaped(page, Setting::Text, text.as_bytes());
}
