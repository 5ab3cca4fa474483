// A value and the keys of a test.
ghost use Rattle.std.specs.Prelude.{◌≡◌, ◌≤◌, ◌∷◌, [], ℕ, List, false, IsOk, OnOk, length};
ghost use Rattle.std.specs.Cow.{IsBorrowedSlice, cow_slice_items};
ghost use Rattle.octets.specs.Limits.{max_message, max_string};
ghost use Rattle.glob_match.specs.Containment.{contains_match};
ghost use Rattle.mail_matching.specs.Bigrams.{Covers};
ghost use Rattle.mail_matching.specs.Findings.{finding_of, key_of};
ghost use Rattle.mail_matching.specs.FirstMatch.{KeepsCaptures, first_key};
ghost use Rattle.mail_matching.specs.Outcomes.{after, holds};
ghost use Rattle.mail_matching.specs.Private.{after_compared, containing, equalling, fitting, further, key_in};
ghost use Rattle.mail_matching.specs.Texts.{AreTexts};
ghost use Rattle.mail_matching.specs.declared.finding.Finding.TheVariants.{NoneOf};

use crate::bigrams::Bigrams;
use crate::finding::Telling;
use crate::outcome::{Captured, Outcome};
use crate::texts::Texts;
use glob_match::{Captures, Comparator, Match, MatchType, contains, is, matches};
use std::alloc::{AllocError, Global};
use std::borrow::CowSlice;

/// For fewer keys, making the set of a value's bigrams takes longer than it saves.
const FEW: usize = 4;

/// The same goes for a value with more bytes than this for each key.
const OCTETS_PER_KEY: usize = 128;

/// A longer value has most bigrams, so its set rules out few keys.
const LONG: usize = 4096;

/// The result of comparing a value with keys.
#[derive(Drop)]
pub(crate) enum Compared<'k> {
    /// It matches none.
    Differs,
    /// It matches this key, and sets no captures.
    Matches(&'k [u8]),
    /// It matches this key, and these stretches of it are the captures.
    Sets(&'k [u8], Captures),
}

/// Compares a value with each key in order, up to the first that it matches, and reports it to `told`. The outcome is
/// set in place, and only if the value matches.
///
/// # Errors
///
/// `AllocError` if memory is refused. It is taken for the captures of a value that is owned, which are copied, and by
/// the listener.
#[inline(always)]
pub(crate) fn first_key<'a, K: Texts, T: Telling>(
    alloc: Global,
    value: &CowSlice<'a, u8>,
    keys: &K,
    how: Match,
    told: &mut T,
    outcome: &mut Outcome<'a>,
) -> Result<(), AllocError>
    requires value { length (cow_slice_items value.now) ≤ max_message }
    requires keys { AreTexts (K.texts keys.now) }
    requires fails { holds outcome.old ≡ false }
    ensures outcome { OnOk result ((captures : List (List ℕ))
        → after outcome.new captures
        ≡ first_key how (cow_slice_items value.now) (K.texts keys.now) captures) }
    ensures found { (most number : ℕ) → T.knows most told.old (NoneOf number)
        → OnOk result (T.knows most told.new (further (NoneOf number)
        (finding_of how (cow_slice_items value.now ∷ []) (K.texts keys.now)))) }
    ensures lent { T.is_free → IsBorrowedSlice value.now → IsOk result }
    ensures no_memory { T.is_free
        → KeepsCaptures (first_key how (cow_slice_items value.now) (K.texts keys.now))
        → IsOk result }
{
    match first_comparison(value.as_slice(), keys, how) {
        Compared::Differs => told.missed(),
        Compared::Matches(key) => {
            told.matched(alloc, value.as_slice(), key)?;
            *outcome = Outcome::Holds;
        }
        Compared::Sets(key, stretches) => {
            told.matched(alloc, value.as_slice(), key)?;
            *outcome = Outcome::Captures(Captured::new(alloc, value, stretches)?);
        }
    }
    Ok(())
}

/// The same for a value that isn't lent for as long as the message: its captures are copied.
///
/// # Errors
///
/// `AllocError` if memory is refused.
#[inline(always)]
pub(crate) fn first_key_of_lent<'a, K: Texts, T: Telling>(
    alloc: Global,
    value: &[u8],
    keys: &K,
    how: Match,
    told: &mut T,
    outcome: &mut Outcome<'a>,
) -> Result<(), AllocError>
    requires value { length value.now ≤ max_message }
    requires keys { AreTexts (K.texts keys.now) }
    requires fails { holds outcome.old ≡ false }
    ensures outcome { OnOk result ((captures : List (List ℕ))
        → after outcome.new captures ≡ first_key how value.now (K.texts keys.now) captures) }
    ensures found { (most number : ℕ) → T.knows most told.old (NoneOf number)
        → OnOk result (T.knows most told.new (further (NoneOf number)
        (finding_of how (value.now ∷ []) (K.texts keys.now)))) }
    ensures no_memory { T.is_free → KeepsCaptures (first_key how value.now (K.texts keys.now))
        → IsOk result }
{
    match first_comparison(value, keys, how) {
        Compared::Differs => told.missed(),
        Compared::Matches(key) => {
            told.matched(alloc, value, key)?;
            *outcome = Outcome::Holds;
        }
        Compared::Sets(key, stretches) => {
            told.matched(alloc, value, key)?;
            *outcome = Outcome::Captures(Captured::copied(alloc, value, &stretches)?);
        }
    }
    Ok(())
}

/// The result of comparing a value with the keys, up to the first that it matches.
#[inline(always)]
pub(crate) fn first_comparison<'k, K: Texts>(value: &[u8], keys: &'k K, how: Match) -> Compared<'k>
    requires value { length value.now ≤ max_message }
    requires keys { AreTexts (K.texts keys.now) }
    ensures captures { (captures : List (List ℕ))
        → after_compared value.now result captures
        ≡ first_key how value.now (K.texts keys.now) captures }
    ensures key { key_in result ≡ key_of how value.now (K.texts keys.now) }
{
    let has_set = is_worth_a_set(value.len(), keys.count());
    match how.kind {
        MatchType::Is => first_equal(value, keys, how.comparator),
        MatchType::Contains => {
            if has_set {
                first_contained(value, keys, how.comparator)
            } else {
                first_contained_of_few(value, keys, how.comparator)
            }
        }
        MatchType::Matches => {
            if has_set {
                first_fitting(value, keys, how.comparator)
            } else {
                first_fitting_of_few(value, keys, how.comparator)
            }
        }
    }
}

// Whether a set of a value's bigrams saves more time than it takes.
#[inline(always)]
fn is_worth_a_set(octets: usize, keys: usize) -> bool {
    keys >= FEW && octets <= LONG && octets / OCTETS_PER_KEY <= keys
}

// The same for `:is`.
#[inline(always)]
fn first_equal<'k, K: Texts>(value: &[u8], keys: &'k K, comparator: Comparator) -> Compared<'k>
    requires value { length value.now ≤ max_message }
    requires keys { AreTexts (K.texts keys.now) }
    ensures captures { (captures : List (List ℕ))
        → after_compared value.now result captures
        ≡ first_key (equalling comparator) value.now (K.texts keys.now) captures }
    ensures key { key_in result ≡ key_of (equalling comparator) value.now (K.texts keys.now) }
{
    'places: for place in 0..keys.count() {
        let key = keys.text(place);
        if is(value, key, comparator).0 {
            return Compared::Matches(key);
        }
    }
    Compared::Differs
}

// The same for `:contains`, without a set. Each way to compare has a loop of its own: one loop for all of them would
// clear room for captures for each key.
#[inline(always)]
fn first_contained_of_few<'k, K: Texts>(
    value: &[u8],
    keys: &'k K,
    comparator: Comparator,
) -> Compared<'k>
    requires value { length value.now ≤ max_message }
    requires keys { AreTexts (K.texts keys.now) }
    ensures captures { (captures : List (List ℕ))
        → after_compared value.now result captures
        ≡ first_key (containing comparator) value.now (K.texts keys.now) captures }
    ensures key { key_in result ≡ key_of (containing comparator) value.now (K.texts keys.now) }
{
    'places: for place in 0..keys.count() {
        let key = keys.text(place);
        if contains_key(value, key, comparator) {
            return Compared::Matches(key);
        }
    }
    Compared::Differs
}

// The same without a search for keys that the value's bigrams rule out. It isn't inlined, because its caller would
// clear the room of the set for each value, with one key, too.
#[inline(never)]
fn first_contained<'k, K: Texts>(value: &[u8], keys: &'k K, comparator: Comparator) -> Compared<'k>
    requires value { length value.now ≤ max_message }
    requires keys { AreTexts (K.texts keys.now) }
    ensures captures { (captures : List (List ℕ))
        → after_compared value.now result captures
        ≡ first_key (containing comparator) value.now (K.texts keys.now) captures }
    ensures key { key_in result ≡ key_of (containing comparator) value.now (K.texts keys.now) }
{
    let bigrams = Bigrams::of(value);
    'places: for place in 0..keys.count() {
        let key = keys.text(place);
        if contains_by_bigrams(&bigrams, value, key, comparator) {
            return Compared::Matches(key);
        }
    }
    Compared::Differs
}

// Whether a value with these bigrams contains the key.
#[inline(always)]
fn contains_by_bigrams(bigrams: &Bigrams, value: &[u8], key: &[u8], comparator: Comparator) -> bool
    requires bigrams { Covers bigrams.now.rows value.now }
    requires value { length value.now ≤ max_message }
    requires key { length key.now ≤ max_string }
    ensures { result ≡ contains_match comparator value.now key.now }
{
    bigrams.may_contain(key) && contains_key(value, key, comparator)
}

// Whether the value contains the key.
#[inline(always)]
fn contains_key(value: &[u8], key: &[u8], comparator: Comparator) -> bool
    requires value { length value.now ≤ max_message }
    requires key { length key.now ≤ max_string }
    ensures { result ≡ contains_match comparator value.now key.now }
{
    contains(value, key, comparator).0
}

// The same for `:matches`, without a set. It isn't inlined, because its caller would clear the room of the captures for
// other tests, too.
#[inline(never)]
fn first_fitting_of_few<'k, K: Texts>(
    value: &[u8],
    keys: &'k K,
    comparator: Comparator,
) -> Compared<'k>
    requires value { length value.now ≤ max_message }
    requires keys { AreTexts (K.texts keys.now) }
    ensures captures { (captures : List (List ℕ))
        → after_compared value.now result captures
        ≡ first_key (fitting comparator) value.now (K.texts keys.now) captures }
    ensures key { key_in result ≡ key_of (fitting comparator) value.now (K.texts keys.now) }
{
    'places: for place in 0..keys.count() {
        let key = keys.text(place);
        if let Some(found) = matches(value, key, comparator).0 {
            return Compared::Sets(key, found);
        }
    }
    Compared::Differs
}

// The same without comparing the value with keys that its bigrams rule out.
#[inline(never)]
fn first_fitting<'k, K: Texts>(value: &[u8], keys: &'k K, comparator: Comparator) -> Compared<'k>
    requires value { length value.now ≤ max_message }
    requires keys { AreTexts (K.texts keys.now) }
    ensures captures { (captures : List (List ℕ))
        → after_compared value.now result captures
        ≡ first_key (fitting comparator) value.now (K.texts keys.now) captures }
    ensures key { key_in result ≡ key_of (fitting comparator) value.now (K.texts keys.now) }
{
    let bigrams = Bigrams::of(value);
    'places: for place in 0..keys.count() {
        let key = keys.text(place);
        if bigrams.may_fit(key) {
            if let Some(stretches) = matches(value, key, comparator).0 {
                return Compared::Sets(key, stretches);
            }
        }
    }
    Compared::Differs
}
