ghost use Rattle.std.specs.Prelude.{◌≡◌};
ghost use Rattle.glob_match.specs.Comparison.{compared_octet, same_octet};

/// How bytes are compared (RFC 4790, sections 9.2 and 9.3).
#[derive(Clone, Copy, PartialEq, Eq, Drop)]
pub enum Comparator {
    /// `i;octet`: as they are.
    Octet,
    /// `i;ascii-casemap`: with `a` to `z` as `A` to `Z`.
    Casemap,
}

impl Comparator {
    /// The byte that is compared instead of a byte.
    #[inline(always)]
    pub(crate) fn compared(self, octet: u8) -> u8
        ensures { result ≡ compared_octet self octet }
    {
        match self {
            Comparator::Octet => octet,
            Comparator::Casemap => octet.to_ascii_uppercase(),
        }
    }

    /// Whether the bytes are equal.
    #[inline(always)]
    pub(crate) fn same(self, a: u8, b: u8) -> bool
        ensures { result ≡ same_octet self a b }
    {
        self.compared(a) == self.compared(b)
    }
}
