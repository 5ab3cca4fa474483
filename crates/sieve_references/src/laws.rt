//! The laws of segments.
ghost use Rattle.std.specs.Prelude.{ℕ, ◌≤◌, List, length, All};
ghost use Rattle.std.specs.List.{sum_by};
ghost use Rattle.sieve_references.specs.References.{Segment, segments, extent_of};
ghost use Rattle.sieve_references.specs.WellFormed.{IsWellFormed};

/// The segments of a text together are written with at most as many bytes as it has.
pub fn segments_are_within_their_text()
    ensures { (text : List ℕ) → sum_by extent_of (segments text) ≤ length text }
{}

/// Each segment is, too: a stretch, and the name of a variable with the three bytes around it.
pub fn each_segment_is_within_its_text()
    ensures { (text : List ℕ) → All (λ (segment : Segment). extent_of segment ≤ length text)
        (segments text) }
{}

/// Stretches aren't empty, names are identifiers, and captures are at most the last one.
pub fn segments_are_well_formed()
    ensures { (text : List ℕ) → All IsWellFormed (segments text) }
{}
