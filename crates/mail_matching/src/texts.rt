// The names and keys of a test.
//
// Names and keys are lent by a trait of two calls, because the machine has them on its stack and the evaluator in a
// list.
use octets::Octets;

/// The texts of a test: header names, sources or keys, wherever they are kept.
///
/// The machine implements it for texts on its stack, and it is implemented for a vector of texts. A contract sees the
/// list of them.
pub trait Texts {
    ghost use Rattle.std.specs.Prelude.{◌≡◌, ◌<◌, ℕ, [], List, length, slice_index_or};

    ghost texts: { Self → List (List ℕ) };

    /// Returns how many texts there are.
    fn count(&self) -> usize
        ensures { result ≡ length (texts self.now) };

    /// Returns the text at a place, counted from 0.
    ///
    /// # Requires
    ///
    /// The place is in range: `place < count()`.
    fn text(&self, place: usize) -> &[u8]
        requires { place < length (texts self.now) }
        ensures { result.now ≡ slice_index_or (texts self.now) place [] };
}

impl Texts for Vec<Octets> {
    ghost texts = { λ v. v.items };

    fn count(&self) -> usize {
        self.len()
    }

    fn text(&self, place: usize) -> &[u8] {
        self[place].as_slice()
    }
}
