// The names of tags, capabilities and comparators. ASCII case is ignored except in the last two.
ghost use Rattle.std.specs.Prelude.{◌≡◌};
ghost use Rattle.sieve_check.specs.Names.{capability_named, comparator_named};

use bytecode_format::{Case, Order, Selector};
use glob_match::{Comparator, MatchType};

/// A known tag, by its group. At most one tag of a group is allowed.
#[derive(Clone, Copy)]
pub enum Tag {
    /// `:over` and `:under` (RFC 5228, section 5.9).
    Order(Order),
    /// `:is`, `:contains` and `:matches` (RFC 5228, section 2.7.1).
    Kind(MatchType),
    /// `:comparator`, which takes the comparator's name (RFC 5228, section 2.7.3).
    Comparator,
    /// `:lower` and `:upper` (RFC 5229, section 4.1).
    Letters(Case),
    /// `:lowerfirst` and `:upperfirst` (RFC 5229, section 4.1).
    FirstLetter(Case),
    /// `:quotewildcard` (RFC 5229, section 4.1).
    QuoteWildcard,
    /// `:length` (RFC 5229, section 4.1).
    Length,
    /// `:mime` (RFC 5703, section 4.1).
    Mime,
    /// `:anychild` (RFC 5703, section 4.1).
    AnyChild,
    /// `:type`, `:subtype`, `:contenttype`, and `:param`, which takes the parameters' names
    /// (RFC 5703, section 4.1). Without any of them the value is taken ([`Selector::Value`]).
    Select(Selector),
    /// `:name`, which takes the name of a loop (RFC 5703, section 3).
    Name,
    /// `:first`, which takes a number of bytes, of our own.
    First,
}

/// A capability that can be required.
#[derive(Clone, Copy, PartialEq, Eq)]
pub enum Capability {
    /// `fileinto` (RFC 5228, section 4.1).
    FileInto,
    /// `variables` (RFC 5229).
    Variables,
    /// `mime` (RFC 5703, section 4).
    Mime,
    /// `foreverypart` (RFC 5703, section 3).
    ForEveryPart,
    /// `vnd.depot`, of our own.
    Depot,
    /// `comparator-i;octet` (RFC 5228, section 2.7.3), which is always there.
    OctetComparator,
    /// `comparator-i;ascii-casemap` (RFC 5228, section 2.7.3), which is always there.
    CasemapComparator,
}

/// The capability with this name, if it is known; its bytes are compared as they are.
pub fn capability_named(name: &[u8]) -> Option<Capability>
    ensures { result ≡ capability_named name.now }
{
    if name == b"fileinto".as_slice() {
        Some(Capability::FileInto)
    } else if name == b"variables".as_slice() {
        Some(Capability::Variables)
    } else if name == b"mime".as_slice() {
        Some(Capability::Mime)
    } else if name == b"foreverypart".as_slice() {
        Some(Capability::ForEveryPart)
    } else if name == b"vnd.depot".as_slice() {
        Some(Capability::Depot)
    } else if name == b"comparator-i;octet".as_slice() {
        Some(Capability::OctetComparator)
    } else if name == b"comparator-i;ascii-casemap".as_slice() {
        Some(Capability::CasemapComparator)
    } else {
        None
    }
}

/// The comparator with this name, if it is known; its bytes are compared as they are.
pub fn comparator_named(name: &[u8]) -> Option<Comparator>
    ensures { result ≡ comparator_named name.now }
{
    if name == b"i;octet".as_slice() {
        Some(Comparator::Octet)
    } else if name == b"i;ascii-casemap".as_slice() {
        Some(Comparator::Casemap)
    } else {
        None
    }
}
