//! What is printed of a folder and its volumes.
ghost use Rattle.depot.specs.Told.{HasToldText, made_line};

use depot_jobs::{SUCCESS, tell};
use devices::{DeviceFailed, Page, Sink};
use printing::{Piece, Printable, print, put_printed};
use refusals::Refusal;

/// The answer of `init`: the folder with this name was made.
#[derive(Clone, Copy)]
struct MadeFolder<'a> {
    name: &'a str,
}

/// It is printed as a line, for example `made "archive"`.
impl Printable for MadeFolder<'_> {
    ghost use Rattle.depot.specs.Told.{made_line};

    ghost text = { λ made. made_line made.name.now };

    fn print_on<O: Sink>(&self, page: &mut Page<'_, O>) {
        let name = self.name.as_bytes();
        print(
            page,
            &[Piece::Text("made "), Piece::Quoted(name), Piece::Text("\n")],
        );
    }
}

/// The volume of a folder at a path, before what is reported of it.
#[derive(Clone, Copy)]
pub struct VolumeAt<'a> {
    /// The path of its file.
    pub path: &'a str,
}

/// It is printed as a line, for example `volume "archive/00000001.depot"`.
impl Printable for VolumeAt<'_> {
    ghost use Rattle.depot.specs.Told.{volume_line};

    ghost text = { λ volume. volume_line volume.path.now };

    fn print_on<O: Sink>(&self, page: &mut Page<'_, O>) {
        let path = self.path.as_bytes();
        print(
            page,
            &[
                Piece::Text("volume "),
                Piece::Quoted(path),
                Piece::Text("\n"),
            ],
        );
    }
}

/// How many volumes a folder has.
#[derive(Clone, Copy)]
pub struct VolumeCount {
    /// Their number.
    pub count: u32,
}

/// It is printed as a line, for example `volumes 3`.
impl Printable for VolumeCount {
    ghost use Rattle.depot.specs.Told.{volumes_line};

    ghost text = { λ volumes. volumes_line volumes.count };

    fn print_on<O: Sink>(&self, page: &mut Page<'_, O>) {
        print(
            page,
            &[
                Piece::Text("volumes "),
                Piece::Number(self.count as u128),
                Piece::Text("\n"),
            ],
        );
    }
}

/// Writes to `out` that the folder with this name was made, and returns 0. If that breaks off, the line of `Write` is
/// written to `err`, and the status is 1.
pub fn tell_made<O: Sink, E: Sink>(name: &str, out: &mut O, err: &mut E) -> u8
    ensures { HasToldText (made_line name.now) result (O.output out.old) (E.output err.old)
        (O.output out.new) (E.output err.new) }
{
    tell_printed(&MadeFolder { name }, out, err)
}

/// Writes the text of a value to `out`, and returns 0. If that breaks off, the line of `Write` is written to `err`, and
/// the status is 1.
pub fn tell_printed<P: Printable, O: Sink, E: Sink>(value: &P, out: &mut O, err: &mut E) -> u8
    ensures { HasToldText (P.text value.now) result (O.output out.old) (E.output err.old)
        (O.output out.new) (E.output err.new) }
{
    match put_printed(out, value) {
        Ok(()) => SUCCESS,
        Err(DeviceFailed) => tell(err, &Refusal::Write),
    }
}
