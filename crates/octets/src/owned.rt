// The owned byte string.
//
// Strings are `Octets`, which a contract sees as a list. A plain `Vec<u8>` would show its capacity.
ghost use Rattle.std.specs.Prelude.{◌≡◌, ◌==◌, ℕ, List, length, nat_eq, refl, Some};
ghost use Rattle.std.specs.Ordering.{nat_cmp};
ghost use Rattle.std.specs.Cmp.Lexicographic.{pointwise, slice_cmp, nat_list_eq_equiv, nat_list_cmp_total, texts_ties, texts_po};
ghost use Rattle.std.specs.Cmp.{partial_equiv_from_equiv};

use std::alloc::AllocError;
use std::cmp::Ordering;
use std::convert::AsSlice;
use std::marker::Model;
use std::ops::DerefSlice;

/// An owned byte string: a `Vec<u8>` that contracts see as the list of its bytes, without its capacity.
///
/// The crates keep every string as `Octets`. Make one with [`Octets::from_vec`], and read its bytes with
/// [`Octets::as_slice`].
#[derive(Drop)]
pub struct Octets {
    items: Vec<u8>,
}

impl Model for Octets {
    ghost Value = { List ℕ };

    ghost view = { λ o. o.items.items };
}

impl Octets {
    /// Makes a byte string of a vector, which is moved, not copied.
    pub fn from_vec(items: Vec<u8>) -> Octets
        ensures { result ≡ items.items }
    {
        Octets { items }
    }

    /// Returns the vector of the bytes, which is moved, not copied.
    pub fn into_vec(self) -> Vec<u8>
        ensures { result.items ≡ self }
    {
        self.items
    }

    /// Returns the bytes of the string.
    pub fn as_slice(&self) -> &[u8]
        ensures { result.now ≡ self.now }
    {
        self.items.as_slice()
    }

    /// Returns the number of bytes.
    pub fn len(&self) -> usize
        ensures { result ≡ length self.now }
    {
        self.items.len()
    }

    /// Returns whether there are no bytes.
    pub fn is_empty(&self) -> bool
        ensures { result ≡ (length self.now == 0) }
    {
        self.items.is_empty()
    }
}

impl From<Vec<u8>> for Octets {
    ghost from_gives = { λ v o. o ≡ v.items };

    fn from(items: Vec<u8>) -> Octets {
        Octets::from_vec(items)
    }
}

impl AsSlice<u8> for Octets {
    ghost items = { λ o. o };

    fn as_slice(&self) -> &[u8] {
        Octets::as_slice(self)
    }
}

impl DerefSlice for Octets {
    type Elem = u8;

    ghost deref_gives = { λ o xs. xs ≡ o };

    fn deref(&self) -> &[u8] {
        Octets::as_slice(self)
    }
}

impl Clone for Octets {
    ghost is_clone = { λ o copy. copy ≡ o };

    fn clone(&self) -> Result<Octets, AllocError> {
        Ok(Octets::from_vec(self.items.clone()?))
    }
}

impl PartialEq for Octets {
    ghost eq = { pointwise nat_eq };

    ghost laws = { partial_equiv_from_equiv nat_list_eq_equiv };

    fn eq(&self, other: &Octets) -> bool {
        self.as_slice() == other.as_slice()
    }
}

impl Eq for Octets {
    ghost laws = { nat_list_eq_equiv };
}

impl PartialOrd for Octets {
    ghost partial_cmp = { λ a b. Some (slice_cmp nat_cmp a b) };

    ghost laws = { texts_po };

    fn partial_cmp(&self, other: &Octets) -> Option<Ordering> {
        Some(self.cmp(other))
    }
}

impl Ord for Octets {
    ghost cmp = { slice_cmp nat_cmp };

    ghost total = { nat_list_cmp_total };

    ghost matches_partial_cmp = { λ _ _. refl };

    ghost matches_eq = { texts_ties };

    fn cmp(&self, other: &Octets) -> Ordering {
        self.as_slice().cmp(other.as_slice())
    }
}
