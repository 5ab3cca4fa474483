//! The laws of matching.
ghost use Rattle.std.specs.Prelude.{◌≡◌, ◌↔◌, ℕ, IsTrue, List, length};
ghost use Rattle.glob_match.specs.declared.comparator.Comparator.{Comparator};
ghost use Rattle.glob_match.specs.declared.token.Token.{Token};
ghost use Rattle.glob_match.specs.Captures.{LieWithin, capture_places, texts};
ghost use Rattle.glob_match.specs.Comparison.{compared, is_match};
ghost use Rattle.glob_match.specs.Containment.{HasStretch, contains_match};
ghost use Rattle.glob_match.specs.Matching.{Captured, Fits, IsLeastFit, captures_of, least_fit, match_of};

/// The function that goes over the tokens gives the least list of stretches with which the value fits.
pub fn least_fit_is_the_least()
    ensures { (comparator : Comparator) (key : List Token) (value : List ℕ)
        (stretches : List (List ℕ))
        → (least_fit comparator key value ≡ Some stretches)
        ↔ IsLeastFit comparator key value stretches }
{}

/// It gives none exactly if there is no list of stretches with which the value fits.
pub fn none_where_nothing_fits()
    ensures { (comparator : Comparator) (key : List Token) (value : List ℕ)
        → (least_fit comparator key value ≡ None) ↔ ((stretches : List (List ℕ))
        → Fits comparator key stretches value → ⊥) }
{}

/// The function of value and key gives the captures.
pub fn match_is_captured()
    ensures { (comparator : Comparator) (value key : List ℕ) (captures : List (List ℕ))
        → (match_of comparator value key ≡ Some captures) ↔ Captured comparator value key captures }
{}

/// A value and a key have at most one list of captures.
pub fn captures_are_unique()
    ensures { (comparator : Comparator) (value key : List ℕ) (captures others : List (List ℕ))
        → Captured comparator value key captures → Captured comparator value key others
        → captures ≡ others }
{}

/// The captures of a value that fits are within it, and the bytes at their places are their texts.
pub fn captures_stand_in_the_value()
    ensures within { (comparator : Comparator) (value : List ℕ) (key : List Token)
        (stretches : List (List ℕ))
        → Fits comparator key stretches value
        → LieWithin (length value) (capture_places value key stretches) }
    ensures texts { (comparator : Comparator) (value : List ℕ) (key : List Token)
        (stretches : List (List ℕ))
        → Fits comparator key stretches value → texts value (capture_places value key stretches)
        ≡ captures_of value stretches }
{}

/// `:is` means that the compared bytes are equal.
pub fn is_means_equal()
    ensures { (comparator : Comparator) (value key : List ℕ)
        → IsTrue (is_match comparator value key)
        ↔ (compared comparator value ≡ compared comparator key) }
{}

/// `:contains` means that a stretch of the value is equal to the key.
pub fn contains_means_a_stretch()
    ensures { (comparator : Comparator) (value key : List ℕ)
        → IsTrue (contains_match comparator value key) ↔ HasStretch comparator value key }
{}
