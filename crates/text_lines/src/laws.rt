//! The laws of lines.
ghost use Rattle.std.specs.Prelude.{◌≡◌, ℕ, List};
ghost use Rattle.text_lines.specs.Lines.{TextLine, lines_of, octets_of, AreLines};

/// The lines of a text put together, each with its break, are the text.
pub fn lines_make_the_text()
    ensures { (text : List ℕ) → octets_of (lines_of text) ≡ text }
{}

/// Each line of a text ends with a break, except perhaps the last, and there is no break elsewhere.
pub fn lines_end_at_breaks()
    ensures { (text : List ℕ) → AreLines (lines_of text) }
{}

/// No other lines make the text.
pub fn lines_are_unique()
    ensures { (lines : List TextLine) → AreLines lines → lines_of (octets_of lines) ≡ lines }
{}
