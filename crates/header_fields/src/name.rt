// Names to look for, and hashes of names.
ghost use Rattle.std.specs.Prelude.{◌≡◌};
ghost use Rattle.header_fields.specs.Hashes.{hash_more, hash_of};

use octets::first;
use std::marker::Model;

/// A name to look for, with its hash. It is made once and can be compared with many fields.
///
/// [`crate::NamedField::is_named`] compares it. A contract sees its bytes, as they are written.
#[derive(Drop)]
pub struct Name<'n> {
    // Its bytes, as they are written.
    pub(crate) octets: &'n [u8],
    // Their hash.
    pub(crate) hash: u32,
}

impl<'n> Model for Name<'n> {
    ghost use Rattle.std.specs.Prelude.{◌≡◌, ℕ, List};
    ghost use Rattle.header_fields.specs.Hashes.{hash_of};

    ghost Value = { List ℕ };

    ghost view = { λ n. n.octets.now };

    ghost invariant = { λ n. n.hash ≡ hash_of n.octets.now };
}

impl<'n> Name<'n> {
    /// Returns the name with these bytes.
    pub fn new(octets: &'n [u8]) -> Name<'n>
        ensures { result ≡ octets.now }
    {
        Name {
            octets,
            hash: hash_of(octets),
        }
    }
}

// The hash of a name. It is the same for all names that differ only in ASCII case.
fn hash_of(name: &[u8]) -> u32
    ensures { result ≡ hash_of name.now }
{
    let mut hash = 0;
    let mut rest = name;
    'octets: while let Some((octet, after)) = first(rest) {
        hash = hash_more(hash, octet.to_ascii_lowercase());
        rest = after;
    }
    hash
}

/// The hash of the bytes that have this hash, and one more.
#[inline(always)]
pub(crate) fn hash_more(hash: u32, octet: u8) -> u32
    ensures { result ≡ hash_more hash octet }
{
    hash.wrapping_mul(31).wrapping_add(u32::from(octet))
}
