// How a test matches a value with a key.
use crate::comparator::Comparator;

/// How a value is matched with a key (RFC 5228, section 2.7.1).
#[derive(Clone, Copy, PartialEq, Eq, Drop)]
pub enum MatchType {
    /// `:is`: the value is the key.
    Is,
    /// `:contains`: a stretch of the value is the key.
    Contains,
    /// `:matches`: the value fits the key, in which `*` and `?` are wildcards.
    Matches,
}

/// How a test matches values with keys. A script's match type and comparator make it, and each comparison of the test
/// uses it.
#[derive(Clone, Copy, Drop)]
pub struct Match {
    /// How a value is matched with a key.
    pub kind: MatchType,
    /// How bytes are compared.
    pub comparator: Comparator,
}
