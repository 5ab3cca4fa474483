// The line of a place, and a mark under the place.
ghost use Rattle.std.specs.Prelude.{◌≡◌, ◌≤◌, ◌++◌, OnOk, length};
ghost use Rattle.sieve_explain.specs.Shown.{excerpt, marked};

use crate::shown::{Style, push_end, push_start};
use readable_text::places::{around, line_at, octets_before};
use std::alloc::AllocError;

// Printed before each line of a script, so that no such line begins as a remark does.
const MARGIN: &[u8] = b"  ";

// Appends a line of a script, cut around a place in it, and under it a mark at that place.
#[tactic(auto, unfolding(crate::specs::Shown::marked))]
fn push_marked(out: &mut Vec<u8>, line: &[u8], place: usize) -> Result<(), AllocError>
    ensures { OnOk result (out.new.items ≡ out.old.items ++ marked line.now place) }
{
    let (before, after) = around(line, place);
    out.extend_from_slice(MARGIN)?;
    push_end(out, Style::Line, before)?;
    push_start(out, Style::Line, after)?;
    out.extend_from_slice(b"\n")?;
    out.extend_from_slice(MARGIN)?;
    push_end(out, Style::Under, before)?;
    out.extend_from_slice(b"^\n")
}

/// Appends the line of a place of the script, and a mark under the place.
///
/// # Requires
///
/// The place is in the script or at its end: `place` is at most the script's length.
///
/// # Errors
///
/// `AllocError` if memory is refused.
#[tactic(auto, unfolding(crate::specs::Shown::excerpt))]
pub fn push_excerpt(out: &mut Vec<u8>, script: &[u8], place: usize) -> Result<(), AllocError>
    requires { place ≤ length script.now }
    ensures { OnOk result (out.new.items ≡ out.old.items ++ excerpt script.now place) }
{
    push_marked(out, line_at(script, place), octets_before(script, place))
}
