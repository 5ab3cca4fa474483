//! The laws of headers: how long fields are.
ghost use Rattle.std.specs.Prelude.{◌≡◌, ◌≤◌, ℕ, List, length, take};
ghost use Rattle.std.specs.List.{AllZip};
ghost use Rattle.header_fields.specs.Header.{header_of, fields_of, body_start_of};
ghost use Rattle.header_fields.specs.Extent.{IsHeader, IsShorter, AreApart, field_lines_of};

/// The value of each field is at least two bytes shorter than the field's lines.
pub fn values_are_shorter_than_their_lines()
    ensures { (text : List ℕ) → AllZip IsShorter (fields_of text) (field_lines_of text) }
{}

/// The lines of different fields are disjoint, and come before the body.
pub fn lines_of_fields_are_apart()
    ensures { (text : List ℕ) → AreApart 0 (body_start_of text) (field_lines_of text) }
{}

/// The bytes of all values, and two more for each field, are at most as many as come before the body.
pub fn values_fit_into_the_header()
    ensures { (text : List ℕ) → IsHeader (header_of text) }
{}

/// The body begins within the text, or at its end.
pub fn body_starts_within_the_text()
    ensures { (text : List ℕ) → body_start_of text ≤ length text }
{}

/// The header depends only on the bytes before the body.
pub fn header_stands_alone()
    ensures { (text : List ℕ) → header_of (take (body_start_of text) text) ≡ header_of text }
{}
