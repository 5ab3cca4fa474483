//! The laws of the tree: the places of a message's parts.
ghost use Rattle.std.specs.Prelude.{◌≡◌, ◌==◌, ◌≤◌, ◌*◌, ℕ, All, List, filter, length, map, slice_get, Some};
ghost use Rattle.octets.specs.Limits.{max_depth};
ghost use Rattle.mime_tree.specs.PartTree.{Part, tree_of};
ghost use Rattle.mime_tree.specs.Enclosing.{Enclosed, IsEnded, enclosed_in};
ghost use Rattle.mime_tree.specs.Order.{AreApart, IsInMessage, IsWhole, Nests, below_of, parts_extent};
ghost use Rattle.mime_tree.specs.Together.{AreOneByOne, octets_together};

/// The headers of different parts are disjoint.
pub fn headers_are_apart()
    ensures { (octets : List ℕ) → AreApart 0 (length octets) (tree_of octets) }
{}

/// The fields of all parts, each with a colon and one byte for its name, have at most as many bytes as the message.
pub fn fields_fit_into_the_message()
    ensures { (octets : List ℕ) → parts_extent (tree_of octets) ≤ length octets }
{}

/// The first part is the message, and all others are below it.
pub fn first_part_is_the_message()
    ensures { (octets : List ℕ) (part : Part) → slice_get (tree_of octets) 0 ≡ Some part
        → IsWhole octets (tree_of octets) part }
{}

/// The parts below a part come right after it, and no others are between them or below them.
pub fn parts_nest()
    ensures { (octets : List ℕ) (place : ℕ) (part : Part) → slice_get (tree_of octets) place
        ≡ Some part → Nests below_of (tree_of octets) place part }
{}

/// Each part is a stretch of the message and begins at its place; its body is no longer than it, and it isn't too
/// deep.
pub fn parts_stand_in_the_message()
    ensures { (octets : List ℕ) (place : ℕ) (part : Part) → slice_get (tree_of octets) place
        ≡ Some part → IsInMessage octets part }
{}

/// Each part goes up to the first line after its start that is a delimiter or closing line of any multipart around
/// it, without the break before that line; if there is no such line, to the end of the message. So one pass over the
/// lines of a message, from the first to the last, finds the end of each part.
pub fn any_multipart_around_ends_a_part()
    ensures parts { (octets : List ℕ) → map (λ (e : Enclosed). e.part) (enclosed_in octets)
        ≡ tree_of octets }
    ensures ends { (octets : List ℕ) → All (IsEnded octets) (enclosed_in octets) }
{}

/// Different parts of the same depth share no byte: each begins at the end of the one before it, or later.
pub fn parts_at_one_depth_are_apart()
    ensures { (octets : List ℕ) (depth : ℕ) → AreOneByOne 0 (length octets)
        (filter (λ (part : Part). part.depth == depth) (tree_of octets)) }
{}

/// All parts together have at most as many bytes as the message has, counted once for each depth that a part can
/// have.
pub fn parts_fit_once_at_each_depth()
    ensures { (octets : List ℕ) → octets_together (tree_of octets) ≤ max_depth * length octets }
{}
