//! The names of users.
ghost use Rattle.std.specs.Prelude.{◌≡◌};
ghost use Rattle.std.specs.List.{list_all};
ghost use Rattle.depot_actions.specs.Users.{is_name_octet, is_user_name};

/// The longest name of a user, in bytes.
pub const MAX_USER: usize = 64;

/// Whether a text is a user name: 1 to [`MAX_USER`] bytes, each a letter from `a` to `z`, a digit, `.`, `_` or `-`. For
/// example, `ann` is a user name, and `Ann` isn't.
///
/// The check allocates no memory.
pub fn is_user_name(name: &str) -> bool
    ensures { result ≡ is_user_name name.now }
{
    let octets = name.as_bytes();
    !octets.is_empty() && octets.len() <= MAX_USER && are_name_octets(octets)
}

// Whether all of these bytes are allowed in a name.
fn are_name_octets(octets: &[u8]) -> bool
    ensures { result ≡ list_all is_name_octet octets.now }
{
    octets.iter().all(|octet| is_name_octet(*octet))
}

// Whether this byte is allowed in a name.
fn is_name_octet(octet: u8) -> bool
    ensures { result ≡ is_name_octet octet }
{
    matches!(octet, b'a'..=b'z' | b'0'..=b'9' | b'.' | b'_' | b'-')
}
