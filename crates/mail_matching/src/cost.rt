// The cost of comparing.
ghost use Rattle.std.specs.Prelude.{◌≡◌, ◌+◌, ◌*◌, ◌≤◌};
ghost use Rattle.octets.specs.Limits.{max_message};
ghost use Rattle.mail_matching.specs.Costs.{extent_of};
ghost use Rattle.mail_matching.specs.Texts.{AreTexts};

use crate::texts::Texts;

/// How many bytes the texts have, and one more for each.
pub(crate) fn extent_of<T: Texts>(texts: &T) -> u64
    requires { AreTexts (T.texts texts.now) }
    ensures { result ≡ extent_of (T.texts texts.now) }
{
    let mut extent = 0;
    for place in 0..texts.count() {
        extent += texts.text(place).len() as u64 + 1;
    }
    extent
}

/// The cost of looking for so many fields by their names.
pub(crate) fn names_cost<N: Texts>(fields: usize, names: &N) -> u64
    requires fields { fields ≤ max_message }
    requires names { AreTexts (N.texts names.now) }
    ensures { result ≡ (fields + 1) * extent_of (N.texts names.now) }
{
    (fields as u64 + 1) * extent_of(names)
}

/// The cost of comparing values of so many bytes, and one more for each, with keys of so many.
pub(crate) fn product(values: u64, keys: u64) -> u128
    ensures { result ≡ values * keys }
{
    values as u128 * keys as u128
}
