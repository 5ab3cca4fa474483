// What a test finds, and who learns of it.
ghost use Rattle.std.specs.Prelude.{◌≡◌, ◌+◌, ℕ, IfOk, IsOk, OnOk, take};
ghost use Rattle.mail_matching.specs.Private.{IsCounted};
ghost use Rattle.mail_matching.specs.declared.finding.Finding.{Finding};
ghost use Rattle.mail_matching.specs.declared.finding.Finding.TheVariants.{Pair, NoneOf};

use octets::Octets;
use std::alloc::{AllocError, Global};

/// What a test that compares values with keys finds. [`crate::ask_and_find`] returns it; a trace shows it.
#[derive(Drop)]
pub enum Finding {
    /// The first value that matches a key, and the first key that it matches: the first bytes of each.
    Pair { value: Octets, key: Octets },
    /// No value matches a key. The number is how many values there are.
    NoneOf(u64),
}

/// A listener to a test: it learns of each value that is compared, up to the first that matches a key.
///
/// A run uses [`Nobody`]; a trace keeps what it learns, to show it.
pub trait Telling: Drop {
    // It knows the result for the values before, and keeps at most so many bytes of them.
    ghost knows: { ℕ → Self → Finding → Type 0 };

    // It takes no memory.
    ghost is_free: { Type 0 };

    /// Is called for a value that matches none of the keys.
    fn missed(&mut self)
        ensures { (most number : ℕ) → knows most self.old (NoneOf number)
            → knows most self.new (NoneOf (number + 1)) };

    /// Is called for the first value that matches a key, with the first key that it matches.
    ///
    /// # Errors
    ///
    /// `AllocError` if memory is refused.
    fn matched(&mut self, alloc: Global, value: &[u8], key: &[u8]) -> Result<(), AllocError>
        ensures knows { (most number : ℕ) → knows most self.old (NoneOf number)
            → OnOk result (knows most self.new (Pair value.now key.now)) }
        ensures free { is_free → IsOk result };
}

/// A listener that keeps nothing, and takes no memory.
#[derive(Drop)]
pub struct Nobody;

impl Telling for Nobody {
    ghost knows = { λ most nobody finding. Unit {0} };

    ghost is_free = { Unit {0} };

    fn missed(&mut self) {}

    fn matched(&mut self, _alloc: Global, _value: &[u8], _key: &[u8]) -> Result<(), AllocError> {
        Ok(())
    }
}

/// A listener that keeps what was found: at most so many first bytes of the value and of the key.
#[derive(Drop)]
pub(crate) struct Found {
    pub most: usize,
    pub finding: Finding,
}

impl Found {
    /// Before the first value.
    #[inline(always)]
    pub(crate) fn new(most: usize) -> Found
        ensures { result ≡ record { most = most; finding = NoneOf 0 } }
    {
        Found {
            most,
            finding: Finding::NoneOf(0),
        }
    }
}

// The first bytes of a text, at most so many.
fn start(alloc: Global, text: &[u8], most: usize) -> Result<Octets, AllocError>
    ensures { IfOk result (λ octets. octets ≡ take most text.now) }
{
    let (kept, _) = text.split_at(text.len().min(most));
    Ok(Octets::from_vec(Vec::from_slice(alloc, kept)?))
}

impl Telling for Found {
    ghost knows = { λ most found finding. IsCounted most finding found };

    ghost is_free = { ⊥ };

    fn missed(&mut self) {
        // There is no memory for so many values that the count would overflow.
        if let Finding::NoneOf(number) = &mut self.finding {
            *number = number.saturating_add(1);
        }
    }

    fn matched(&mut self, alloc: Global, value: &[u8], key: &[u8]) -> Result<(), AllocError> {
        let value = start(alloc, value, self.most)?;
        let key = start(alloc, key, self.most)?;
        self.finding = Finding::Pair { value, key };
        Ok(())
    }
}
