// The lines of a text in runs, so that lines which can't be a delimiter are skipped together.
ghost use Rattle.std.specs.Prelude.{◌≡◌, ◌<◌, length};
ghost use Rattle.mime_tree.specs.Runs.{BeginsOtherwise, GivesFirstRun, IsBeforeBreak};

use crate::delimiter::after_dashes;
use memchr::memmem;
use std::marker::Model;
use text_lines::{Line, Lines};

/// The lines of a text from the first to the last, in runs: each line that begins with two dashes is one, and the
/// lines between two of them are one together. It takes no memory.
///
/// A contract sees the text and the place up to which its lines have been returned.
#[derive(Drop)]
pub(crate) struct Runs<'a> {
    text: &'a [u8],
    place: usize,
}

impl<'a> Model for Runs<'a> {
    ghost use Rattle.std.specs.Prelude.{◌≤◌, length};
    ghost use Rattle.text_lines.specs.Unread.{Unread};

    ghost Value = { Unread };

    ghost view = { λ runs. record { text = runs.text.now; place = runs.place } };

    ghost invariant = { λ runs. runs.place ≤ length runs.text.now };
}

impl<'a> Runs<'a> {
    ghost use Rattle.std.specs.Prelude.{◌≤◌, length};
    ghost use Rattle.mime_tree.specs.Runs.{GivesRun};

    /// The runs of the text from a place on.
    pub(crate) fn at(text: &'a [u8], place: usize) -> Runs<'a>
        requires { place ≤ length text.now }
        ensures { result ≡ record { text = text.now; place = place } }
    {
        Runs { text, place }
    }

    /// The next run: where its first line starts, where its last line ends, and where that line's break does.
    #[inline]
    pub(crate) fn next_run(&mut self) -> Option<Line>
        ensures { GivesRun self.old result self.new }
    {
        let run = first_run(&self.text[self.place..])?;
        let start = self.place;
        self.place = start + run.stop;
        Some(Line {
            start,
            end: start + run.end,
            stop: start + run.stop,
        })
    }
}

// The run that a text begins with.
#[inline]
fn first_run(text: &[u8]) -> Option<Line>
    ensures { GivesFirstRun text.now result }
{
    if after_dashes(text).is_some() {
        return Lines::new(text).next();
    }
    quiet_run(text)
}

// The lines before the first that begins with two dashes.
fn quiet_run(text: &[u8]) -> Option<Line>
    requires { BeginsOtherwise text.now }
    ensures { GivesFirstRun text.now result }
{
    if text.is_empty() {
        return None;
    }
    let Some(feed) = memmem::find(text, b"\n--") else {
        return Some(Line {
            start: 0,
            end: text.len(),
            stop: text.len(),
        });
    };
    Some(Line {
        start: 0,
        end: before_break(text, feed),
        stop: feed + 1,
    })
}

// Where the bytes before an LF end.
fn before_break(text: &[u8], feed: usize) -> usize
    requires { feed < length text.now }
    ensures { IsBeforeBreak text.now feed result }
{
    if feed > 0 && text[feed - 1] == b'\r' {
        return feed - 1;
    }
    feed
}
