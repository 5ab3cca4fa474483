// The bigrams of a value: each two bytes of it that stand side by side. A value doesn't contain a key if one of the
// key's bigrams isn't among them. It doesn't fit a key with wildcards if that is so of a bigram of literal bytes.
//
// A byte counts by its last five bits. These are the same for a letter in either case, so one set serves both
// comparators. They are also the same for some other bytes, so the set can have bigrams that the value doesn't have.
ghost use Rattle.std.specs.Prelude.{◌≡◌, ◌==◌, ℕ, List, None, false};
ghost use Rattle.glob_match.specs.Containment.{contains_match};
ghost use Rattle.glob_match.specs.Matching.{match_of};
ghost use Rattle.glob_match.specs.declared.comparator.Comparator.{Comparator};
ghost use Rattle.mail_matching.specs.Bigrams.{Covers, bit_of, is_special};

/// How many bytes of a key are looked at. Further ones would rule out few more keys, and a long key would take long.
const LOOKED_AT: usize = 8;

/// A set that has the bigrams of a value.
#[derive(Drop)]
pub(crate) struct Bigrams {
    // For each first byte a row, which has a bit for each second byte.
    rows: [u32; 32],
}

impl Bigrams {
    /// Returns the set of a value's bigrams.
    #[inline(always)]
    pub(crate) fn of(value: &[u8]) -> Bigrams
        ensures { Covers result.rows value.now }
    {
        let mut rows = [0; 32];
        'places: for place in 1..value.len() {
            let row = usize::from(value[place - 1] % 32);
            rows[row] |= 1 << (value[place] % 32);
        }
        Bigrams { rows }
    }

    /// Returns `false` only if no value with these bigrams contains the key.
    #[inline(always)]
    pub(crate) fn may_contain(&self, key: &[u8]) -> bool
        ensures { result ≡ false → (comparator : Comparator) (value : List ℕ)
            → Covers self.now.rows value → contains_match comparator value key.now ≡ false }
    {
        'places: for place in 1..key.len().min(LOOKED_AT) {
            if !self.has(key[place - 1], key[place]) {
                return false;
            }
        }
        true
    }

    /// Returns `false` only if no value with these bigrams fits the key. Two bytes that have no special meaning in a
    /// key are literal, whatever stands before them.
    #[inline(always)]
    pub(crate) fn may_fit(&self, key: &[u8]) -> bool
        ensures { result ≡ false → (comparator : Comparator) (value : List ℕ)
            → Covers self.now.rows value → match_of comparator value key.now ≡ None }
    {
        'places: for place in 1..key.len().min(LOOKED_AT) {
            let (first, second) = (key[place - 1], key[place]);
            if !is_special(first) && !is_special(second) && !self.has(first, second) {
                return false;
            }
        }
        true
    }

    // Whether the bit of a bigram is set.
    #[inline(always)]
    fn has(&self, first: u8, second: u8) -> bool
        ensures { result ≡ bit_of self.now.rows first second == 1 }
    {
        self.rows[usize::from(first % 32)] >> (second % 32) & 1 == 1
    }
}

// Whether the byte isn't always literal in a key with wildcards.
#[inline(always)]
fn is_special(octet: u8) -> bool
    ensures { result ≡ is_special octet }
{
    octet == b'*' || octet == b'?' || octet == b'\\'
}
