// The values that a test selects, compared one after the other.
ghost use Rattle.std.specs.Prelude.{◌≡◌, ◌+◌, ◌<◌, ◌≤◌, ◌^◌, ◌∷◌, [], ℕ, List, false, true, All, IfSome, IsOk, OnOk, length};
ghost use Rattle.std.specs.Cow.{IsBorrowedSlice, cow_slice_items};
ghost use Rattle.octets.specs.Limits.{max_message};
ghost use Rattle.header_fields.specs.Extent.{fields_extent};
ghost use Rattle.mail_matching.specs.Selection.{given, params_of, reading_of, selected_of};
ghost use Rattle.mail_matching.specs.Costs.{extent_of};
ghost use Rattle.mail_matching.specs.Headers.{selected_among, selected_named, values_of_params};
ghost use Rattle.mail_matching.specs.HeaderTests.{AreUnfolded, IsUnfolded};
ghost use Rattle.mail_matching.specs.FirstMatch.{KeepsCaptures, first_key};
ghost use Rattle.mail_matching.specs.Outcomes.{HasAsked, IsFresh, holds};
ghost use Rattle.mail_matching.specs.Private.{GoesOn};
ghost use Rattle.mail_matching.specs.Questions.{decides};
ghost use Rattle.mail_matching.specs.Texts.{AreTexts};
ghost use Rattle.mail_matching.specs.declared.outcome.Outcome.TheVariants.{Fails};
ghost use Rattle.bytecode_format.specs.declared.selection.Selector.TheVariants.{Value};

use crate::asked::{asked_params, asked_value};
use crate::comparing::{first_key, first_key_of_lent};
use crate::finding::Telling;
use crate::outcome::Outcome;
use crate::reading::{content_type_of, main_of, params_in, sub_of, type_text};
use crate::texts::Texts;
use crate::typed::{TypedField, TypedFields};
use bytecode_format::Selector;
use glob_match::Match;
use header_fields::{Field, Name, unfold, unfolded_length};
use octets::Octets;
use std::alloc::{AllocError, Global};
use std::borrow::CowSlice;

/// What is selected of a field, and what it is compared with.
#[derive(Drop)]
pub(crate) struct Comparison<'t, P, K> {
    pub selector: Selector,
    pub params: &'t P,
    pub keys: &'t K,
    pub how: Match,
}

/// The state of a question that is being asked. Make one with [`Progress::new`] for each question, and give it to
/// [`crate::ask`], which writes the outcome into it. It isn't moved, because captures are large.
#[derive(Drop)]
pub struct Progress<'m, T> {
    /// The outcome for the values that have been compared.
    pub outcome: Outcome<'m>,
    /// How many bytes these values have, and one more for each.
    pub(crate) extent: u64,
    /// The listener that learns of them.
    pub told: T,
}

impl<'m, T: Telling> Progress<'m, T> {
    /// Returns the state before a question is asked.
    #[inline(always)]
    pub fn new(told: T) -> Progress<'m, T>
        ensures { result ≡ record { outcome = Fails; extent = 0; told = told } }
    {
        Progress {
            outcome: Outcome::Fails,
            extent: 0,
            told,
        }
    }

    /// Takes the answer of a question without keys. Returns the cost, which is that of finding the answer.
    #[inline(always)]
    pub(crate) fn decide(&mut self, value: bool, looked: u64) -> u128
        requires { IsFresh self.old }
        ensures { (keys : List (List ℕ))
            → HasAsked T.knows (decides value) keys looked self.old self.new result }
    {
        if value {
            self.outcome = Outcome::Holds;
        }
        looked as u128
    }

    /// Continues with what is selected in a header, name by name.
    #[inline(always)]
    pub(crate) fn take_header<N: Texts, P: Texts, K: Texts>(
        &mut self,
        alloc: Global,
        fields: &TypedFields<'_, 'm>,
        names: &N,
        test: &Comparison<'_, P, K>,
    ) -> Result<(), AllocError>
        requires params { AreTexts (P.texts test.now.params.now) }
        requires keys { AreTexts (K.texts test.now.keys.now) }
        requires fields { fields_extent fields.now ≤ max_message }
        requires room { self.old.extent + extent_of
            (selected_among test.now.selector (P.texts test.now.params.now)
            (N.texts names.now) fields.now) < 2 ^ 64 }
        ensures goes { OnOk result (GoesOn T.knows test.now.how
            (selected_among test.now.selector (P.texts test.now.params.now)
            (N.texts names.now) fields.now) (K.texts test.now.keys.now) self.old self.new) }
        ensures no_memory { T.is_free → test.now.selector ≡ Value → AreUnfolded (N.texts names.now) fields.now
            → IsOk result }
    {
        if fields.is_empty() {
            return Ok(());
        }
        for place in 0..names.count() {
            self.take_named(alloc, fields, &Name::new(names.text(place)), test)?;
        }
        Ok(())
    }

    // Continues with what is selected in the fields of a name.
    #[inline(always)]
    fn take_named<P: Texts, K: Texts>(
        &mut self,
        alloc: Global,
        fields: &TypedFields<'_, 'm>,
        name: &Name,
        test: &Comparison<'_, P, K>,
    ) -> Result<(), AllocError>
        requires params { AreTexts (P.texts test.now.params.now) }
        requires keys { AreTexts (K.texts test.now.keys.now) }
        requires fields { fields_extent fields.now ≤ max_message }
        requires room { self.old.extent + extent_of
            (selected_named test.now.selector (P.texts test.now.params.now) fields.now
            name.now) < 2 ^ 64 }
        ensures goes { OnOk result (GoesOn T.knows test.now.how
            (selected_named test.now.selector (P.texts test.now.params.now)
            fields.now name.now) (K.texts test.now.keys.now) self.old self.new) }
        ensures no_memory { T.is_free → test.now.selector ≡ Value → All (IsUnfolded name.now) fields.now
            → IsOk result }
    {
        for place in 0..fields.count() {
            self.take_where_named(alloc, &fields.at(place), name, test)?;
        }
        Ok(())
    }

    // Continues with what is selected in a field, if it has the name.
    #[inline(always)]
    fn take_where_named<P: Texts, K: Texts>(
        &mut self,
        alloc: Global,
        field: &TypedField<'_, 'm>,
        name: &Name,
        test: &Comparison<'_, P, K>,
    ) -> Result<(), AllocError>
        requires params { AreTexts (P.texts test.now.params.now) }
        requires keys { AreTexts (K.texts test.now.keys.now) }
        requires field { length field.now.value ≤ max_message }
        requires room { self.old.extent + extent_of
            (selected_named test.now.selector (P.texts test.now.params.now)
            (field.now ∷ []) name.now) < 2 ^ 64 }
        ensures goes { OnOk result (GoesOn T.knows test.now.how
            (selected_named test.now.selector (P.texts test.now.params.now)
            (field.now ∷ []) name.now) (K.texts test.now.keys.now) self.old self.new) }
        ensures no_memory { T.is_free → test.now.selector ≡ Value → IsUnfolded name.now field.now → IsOk result }
    {
        if field.is_named(name) {
            self.take_field(alloc, field, test)?;
        }
        Ok(())
    }

    // Continues with what is selected in a field.
    #[inline(always)]
    fn take_field<P: Texts, K: Texts>(
        &mut self,
        alloc: Global,
        field: &TypedField<'_, 'm>,
        test: &Comparison<'_, P, K>,
    ) -> Result<(), AllocError>
        requires params { AreTexts (P.texts test.now.params.now) }
        requires keys { AreTexts (K.texts test.now.keys.now) }
        requires field { length field.now.value ≤ max_message }
        requires room { self.old.extent + extent_of
            (selected_of test.now.selector (P.texts test.now.params.now) field.now)
            < 2 ^ 64 }
        ensures goes { OnOk result (GoesOn T.knows test.now.how
            (selected_of test.now.selector (P.texts test.now.params.now)
            field.now) (K.texts test.now.keys.now) self.old self.new) }
        ensures no_memory { T.is_free → test.now.selector ≡ Value → field.now.folded ≡ false → IsOk result }
    {
        match test.selector {
            Selector::Value => self.take_value(alloc, field.field(), test.keys, test.how),
            Selector::Main => {
                let text = type_text(alloc, field)?;
                self.take_lent(alloc, main_of(field, text.as_slice()), test.keys, test.how)
            }
            Selector::Sub => {
                let text = type_text(alloc, field)?;
                self.take_lent(alloc, sub_of(field, text.as_slice()), test.keys, test.how)
            }
            Selector::ContentType => {
                let text = type_text(alloc, field)?;
                let content_type = content_type_of(alloc, field, text.as_slice())?;
                self.take(alloc, &content_type, test.keys, test.how)
            }
            Selector::Param => {
                let text = unfold(alloc, field.field())?;
                self.take_params(alloc, field, text.as_slice(), test)
            }
        }
    }

    // Continues with the value of a field. After a match it is only measured.
    fn take_value<K: Texts>(
        &mut self,
        alloc: Global,
        field: &Field<'m>,
        keys: &K,
        how: Match,
    ) -> Result<(), AllocError>
        requires keys { AreTexts (K.texts keys.now) }
        requires field { length field.now.value ≤ max_message }
        requires room { self.old.extent + extent_of (field.now.value ∷ []) < 2 ^ 64 }
        ensures goes { OnOk result (GoesOn T.knows how (field.now.value ∷ []) (K.texts keys.now) self.old
            self.new) }
        ensures no_memory { T.is_free → field.now.folded ≡ false → IsOk result }
        ensures after { holds self.old.outcome ≡ true → IsOk result }
    {
        if self.outcome.holds() {
            self.extent += unfolded_length(field) as u64 + 1;
        } else {
            let value = unfold(alloc, field)?;
            self.take(alloc, &value, keys, how)?;
        }
        Ok(())
    }

    // Continues with the values of the parameters with the given names in the field's value.
    fn take_params<P: Texts, K: Texts>(
        &mut self,
        alloc: Global,
        field: &TypedField<'_, 'm>,
        value: &[u8],
        test: &Comparison<'_, P, K>,
    ) -> Result<(), AllocError>
        requires keys { AreTexts (K.texts test.now.keys.now) }
        requires field { length field.now.value ≤ max_message }
        requires value { value.now ≡ field.now.value }
        requires room { self.old.extent + extent_of
            (values_of_params (params_of (reading_of field.now)) (P.texts test.now.params.now))
            < 2 ^ 64 }
        ensures { OnOk result (GoesOn T.knows test.now.how
            (values_of_params (params_of (reading_of field.now)) (P.texts test.now.params.now))
            (K.texts test.now.keys.now) self.old self.new) }
    {
        let found = asked_params(alloc, params_in(field, value), test.params)?;
        for place in 0..test.params.count() {
            let name = test.params.text(place);
            let param = asked_value(alloc, &found, name)?;
            self.take_param(alloc, param, test.keys, test.how)?;
        }
        Ok(())
    }

    // Continues with the value of a parameter, if there is one.
    fn take_param<K: Texts>(
        &mut self,
        alloc: Global,
        param: Option<Octets>,
        keys: &K,
        how: Match,
    ) -> Result<(), AllocError>
        requires keys { AreTexts (K.texts keys.now) }
        requires short { IfSome param (λ value. length value ≤ max_message) }
        requires room { self.old.extent + extent_of (given param) < 2 ^ 64 }
        ensures { OnOk result (GoesOn T.knows how (given param) (K.texts keys.now) self.old self.new) }
    {
        match param {
            Some(value) => self.take_lent(alloc, value.as_slice(), keys, how),
            None => Ok(()),
        }
    }

    /// Continues with a value.
    #[inline(always)]
    pub(crate) fn take<K: Texts>(
        &mut self,
        alloc: Global,
        value: &CowSlice<'m, u8>,
        keys: &K,
        how: Match,
    ) -> Result<(), AllocError>
        requires keys { AreTexts (K.texts keys.now) }
        requires value { length (cow_slice_items value.now) ≤ max_message }
        requires room { self.old.extent + extent_of (cow_slice_items value.now ∷ []) < 2 ^ 64 }
        ensures goes { OnOk result (GoesOn T.knows how (cow_slice_items value.now ∷ []) (K.texts keys.now)
            self.old self.new) }
        ensures lent { T.is_free → IsBorrowedSlice value.now → IsOk result }
        ensures no_memory { T.is_free → (holds self.old.outcome ≡ false
            → KeepsCaptures (first_key how (cow_slice_items value.now) (K.texts keys.now)))
            → IsOk result }
    {
        self.extent += value.len() as u64 + 1;
        if self.outcome.holds() {
            return Ok(());
        }
        first_key(alloc, value, keys, how, &mut self.told, &mut self.outcome)?;
        Ok(())
    }

    /// Continues with a value that isn't lent for as long as the message: its captures are copied.
    #[inline(always)]
    pub(crate) fn take_lent<K: Texts>(
        &mut self,
        alloc: Global,
        lent: &[u8],
        keys: &K,
        how: Match,
    ) -> Result<(), AllocError>
        requires keys { AreTexts (K.texts keys.now) }
        requires lent { length lent.now ≤ max_message }
        requires room { self.old.extent + extent_of (lent.now ∷ []) < 2 ^ 64 }
        ensures goes { OnOk result (GoesOn T.knows how (lent.now ∷ []) (K.texts keys.now) self.old self.new) }
        ensures no_memory { T.is_free → (holds self.old.outcome ≡ false
            → KeepsCaptures (first_key how lent.now (K.texts keys.now))) → IsOk result }
    {
        self.extent += lent.len() as u64 + 1;
        if self.outcome.holds() {
            return Ok(());
        }
        first_key_of_lent(alloc, lent, keys, how, &mut self.told, &mut self.outcome)?;
        Ok(())
    }
}
