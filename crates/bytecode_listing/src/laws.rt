//! Laws of every program and its listing, over the definitions that `disassemble` and `assemble` cite.
ghost use Rattle.std.specs.Prelude.{◌≡◌, ◌≤◌, ◌<◌, ◌^◌, ℕ, List, [], Some, All, length, IfOk, IfErr};
ghost use Rattle.bytecode_format.specs.Code.{Code};
ghost use Rattle.bytecode_format.specs.Spelling.{IsProgram};
ghost use Rattle.bytecode_format.specs.declared.instruction.Instruction.{Instruction};
ghost use Rattle.bytecode_listing.specs.Listing.{AreOctets, accepted_listing, comment, listing_of, meant, refusal_notes, refused_listing, share_notes};
ghost use Rattle.bytecode_verifier.specs.Rows.{row_of};
ghost use Rattle.bytecode_verifier.specs.declared.error.Refusal.{Refusal};
ghost use Rattle.bytecode_listing.specs.Items.{FaultsAt, Lists, worded_at};
ghost use Rattle.bytecode_listing.specs.Tokens.{tokens_of};
ghost use Rattle.bytecode_format.specs.declared.operation.Operation.{Operation};
ghost use Rattle.bytecode_listing.specs.Wording.{a_words, number_of, word_of};
ghost use Rattle.bytecode_listing.specs.declared.wording.Facet.{Facet};
ghost use Rattle.bytecode_listing.specs.declared.error.ListingError.TheVariants.{Memory};

use crate::assembling::assemble;
use crate::error::ListingError;
use crate::writing::disassemble;
use bytecode_format::Program;
use std::alloc::Global;

/// A disassembled program is assembled as the same program, including each byte of its strings: also if the listing
/// shows what each instruction adds to the budget, or the refusal at its place.
pub fn listings_say_their_programs()
    ensures plain { (code : Code) → IsProgram code → All AreOctets code.strings
        → Lists (listing_of code) code }
    ensures accepted { (code : Code) → IsProgram code → All AreOctets code.strings
        → Lists (accepted_listing code) code }
    ensures refused { (refusal : Refusal) (code : Code) → IsProgram code
        → All AreOctets code.strings → Lists (refused_listing refusal code) code }
{}

/// A listing has at most one program. So different programs have different listings.
pub fn one_program_for_a_listing()
    ensures { (listing : List ℕ) (p q : Code) → Lists listing p → Lists listing q → p ≡ q }
{}

/// A disassembled program has no fault.
pub fn listings_have_no_fault()
    ensures { (listing : List ℕ) (code : Code) → Lists listing code
        → (place : ℕ) → FaultsAt listing place → ⊥ }
{}

/// A comment has at most 128 bytes, and a comment with what an instruction adds to the budget, or with a refusal, at
/// most 64. So the size of a listing is proportional to its program, whichever strings the instructions refer to, and
/// however often.
pub fn comments_are_short()
    ensures meant { (code : Code) (i : Instruction) → length (comment (meant code i)) ≤ 128 }
    ensures shares { (code : Code) (place : ℕ) → IsProgram code
        → length (comment (share_notes code place)) ≤ 64 }
    ensures refusals { (refusal : Refusal) (place : ℕ)
        → length (comment (refusal_notes refusal place)) ≤ 64 }
{}

/// Each word for how a test compares, or what it looks at, has one number, and each number has at most one word, in
/// each of the four tables.
pub fn words_and_numbers()
    ensures { (facet : Facet) (n : ℕ) (word : List ℕ)
        → (word_of facet n ≡ Some word → number_of facet word ≡ Some n)
        × (number_of facet word ≡ Some n → word_of facet n ≡ Some word) }
{}

/// The words of a comment for the field a are read as that field by `assemble`, if they are written instead of its
/// number.
pub fn words_say_their_numbers()
    ensures { (operation : Operation) (a : ℕ) (words : List ℕ)
        → a < 2 ^ 8 → a_words (row_of operation).a a ≡ Some words
        → worded_at (Some operation) (tokens_of words) ≡ (Some a, []) }
{}

/// A program that is disassembled and assembled again is the same program.
///
/// # Errors
///
/// `ListingError::Memory` if memory is refused. There is no other error.
pub fn read_again(alloc: Global, program: &Program) -> Result<Program, ListingError>
    ensures same { IfOk result (λ p. p ≡ program.now) }
    ensures memory { IfErr result (λ e. e ≡ Memory) }
{
    let Ok(listing) = disassemble(alloc, program) else {
        return Err(ListingError::Memory);
    };
    assemble(alloc, listing.as_slice())
}
