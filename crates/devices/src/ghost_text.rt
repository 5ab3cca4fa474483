// Texts that only contracts see.
ghost use Rattle.std.specs.Prelude.{◌≡◌, ◌∷◌, [], ◌++◌};

use std::marker::Model;
use std::snapshot::Snapshot;

/// A text that only contracts see, so that they can name what a program no longer has. In memory it is a tag, however
/// long the text is.
///
/// A struct can't have a ghost field with data. But std's `Snapshot` has one, and this type holds itself through it.
#[cycle(ghost_text)]
pub struct GhostText {
    last: Last,
}

// The empty text, or a text followed by a byte.
#[derive(Drop)]
#[cycle(ghost_text)]
enum Last {
    Nothing,
    After(Snapshot<GhostText>, Snapshot<u8>),
}

impl Model for GhostText {
    ghost use Rattle.std.specs.Prelude.{List, ℕ, length};

    ghost Value = { List ℕ };

    ghost use Rattle.devices.specs.GhostTexts.{text_of};

    ghost view = { λ t. text_of t.last };

    ghost size = { length };

    ghost use Rattle.std.proofs.Common.{arith, length-append};

    ghost size_decreases = { λ t h. Prim.grind (arith, length-append) };
}

impl Drop for GhostText {
    fn drop(self) {
        let GhostText { last: _ } = self;
    }
}

impl GhostText {
    /// Returns the empty text.
    pub fn new() -> GhostText
        ensures { result ≡ [] }
    {
        GhostText {
            last: Last::Nothing,
        }
    }

    /// Adds bytes at the end.
    pub fn extend(&mut self, octets: &[u8])
        ensures { self.new ≡ self.old ++ octets.now }
    {
        'octets: for octet in octets {
            self.push(octet);
        }
    }

    // Adds a byte at the end.
    fn push(&mut self, octet: &u8)
        ensures { self.new ≡ self.old ++ octet.now ∷ [] }
    {
        let before = Snapshot::of(self);
        self.last = Last::After(before, Snapshot::of(octet));
    }
}
