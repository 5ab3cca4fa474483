//! Laws about the definitions: no call is made.
ghost use Rattle.std.specs.Prelude.{◌≡◌, ◌<◌, ◌≤◌, ◌+◌, ◌*◌, ◌⊎◌, ◌∷◌, IsTrue, List, Some, false, length, map, true, ℕ};
ghost use Rattle.std.specs.List.{All, concat};
ghost use Rattle.sqlite.specs.Held.{Held, state};
ghost use Rattle.sqlite.specs.State.{HasCleanDisk};
ghost use Rattle.sqlite_trees.specs.Tree.{Trees};
ghost use Rattle.devices.specs.Supply.{HasGiven, Supply};
ghost use Rattle.part_store.specs.Entries.{Entries, Listing, no_entries};
ghost use Rattle.part_store.specs.Standing.{Stands};
ghost use Rattle.depot_actions.specs.History.{AreSteps, Call};
ghost use Rattle.depot_actions.specs.PlainMedia.{HavePlainMedia};
ghost use Rattle.depot_cli.specs.Printed.{entries_text};
ghost use Rattle.depot_cli.specs.declared.entries.Detail.TheVariants.{Brief};
ghost use Rattle.depot_batch.specs.Batch.{AreCallsIn, AreTaken, Did, IsMadeAtOne};
ghost use Rattle.depot_batch.specs.Closings.{has_closing};
ghost use Rattle.depot_batch.specs.Effects.{DepotAndOutput, HasCome};
ghost use Rattle.depot_batch.specs.Lines.{IsLine};
ghost use Rattle.depot_batch.specs.Said.{Said, Suits, Wording, answer_in, filed_in, lines_in};
ghost use Rattle.depot_batch.specs.Turns.{MakeProgress, Turn, lines_answered};
ghost use Rattle.depot_batch.specs.Words.{Writes, spaced, words_of};
ghost use Rattle.depot_batch.specs.declared.format.Format.{Format};
ghost use Rattle.depot_batch.specs.declared.format.Format.TheVariants.{Json};
ghost use Rattle.depot_batch.specs.declared.outcome.Outcome.{Outcome};

use sqlite::Alter;

/// A line of texts that write words, with one space between each two, has these words. So each word can be written in a
/// line, whatever bytes it has.
pub fn lines_say_their_words()
    ensures { (first : List ℕ × List ℕ) (others : List (List ℕ × List ℕ))
        → All (λ w. Writes w.0 w.1 × All (λ octet. octet < 256) w.1) (first ∷ others)
        → words_of (spaced first.0 (map (λ w. w.0) others))
        ≡ Some (map (λ w. w.1) (first ∷ others)) }
{}

/// What an open depot holds after turns of a batch is what the commands of the lines that were answered `= 0` make of
/// what it held before, one after another, in the order of the lines, whether they were done alone or together; each
/// command has the bytes that were read of its file in its turn. Other lines change nothing. The format of the answers
/// makes no difference.
pub fn batches_are_a_fold<S: Alter>()
    ensures { (name : List ℕ) (format : Format) (turns : List Turn) (input rest : Supply)
        (old new : DepotAndOutput (Held S))
        (before : Entries) (taken : AreTaken S.Store name format turns input rest old new)
        → HasCleanDisk (state S.Store new.depot)
        → (IsTrue (state S.Store old.depot).is_open → Stands (state S.Store old.depot).now before)
        → (calls : List Call) × (after : Entries)
        × AreCallsIn S.Store name format turns input rest old new taken calls
        × AreSteps calls before after
        × (IsTrue (state S.Store new.depot).is_open → Stands (state S.Store new.depot).now after) }
{}

/// A crash at any moment of a batch leaves what it could have left before the batch, or what one whole turn makes of
/// what the turns before it left. A turn is the command of a line that is done alone, or all commands of lines that are
/// done together.
pub fn crashes_leave_one_turn_whole<S: Alter>()
    ensures { (name : List ℕ) (format : Format) (turns : List Turn) (input rest : Supply)
        (old new : DepotAndOutput (Held S))
        → AreTaken S.Store name format turns input rest old new → HasCleanDisk (state S.Store new.depot)
        → (trees : Trees) → (state S.Store new.depot).may_leave trees
        → (state S.Store old.depot).may_leave trees
        ⊎ IsMadeAtOne S.Store name format turns input old trees }
{}

/// Exactly the lines that are answered in turns are taken from the input, in their order.
pub fn lines_are_taken_as_answered<S: Alter>()
    ensures { (name : List ℕ) (format : Format) (turns : List Turn) (input rest : Supply)
        (old new : DepotAndOutput (Held S))
        → AreTaken S.Store name format turns input rest old new
        → HasGiven (concat (lines_answered turns)) input rest }
{}

/// A batch has at most twice as many turns as lines that are answered in them, and one more, because turns make
/// progress. So a batch that ends after 2^64 - 1 turns has answered at least 2^63 - 1 lines.
pub fn turns_are_at_most_twice_the_lines()
    ensures { (turns : List Turn) → MakeProgress turns
        → length turns ≤ 2 * length (lines_answered turns) + 1 }
{}

/// If no media type of an entry has a line break, no line of an answer begins with `= `, so a program that reads the plain
/// output of a batch can distinguish the line that ends an answer from the answer's own lines, whatever was filed. In every depot
/// that commands made from an empty one no media type has a line break.
pub fn no_answer_closes_itself<S: Alter>()
    ensures alone { (name octets : List ℕ) (outcome : Outcome) (said : Said) (old new : DepotAndOutput (Held S))
        → HasCome (Did S.Store old.depot new.depot) name octets outcome said old.host new.host
        → HasCleanDisk (state S.Store new.depot) → (before : Entries)
        → Stands (state S.Store old.depot).now before → HavePlainMedia before
        → has_closing true (lines_in said) ≡ false }
    ensures together { (entries : List Listing)
        → has_closing true (entries_text Brief entries) ≡ false }
    ensures begun { (name octets : List ℕ) (outcome : Outcome) (said : Said) (old new : DepotAndOutput (Held S))
        → HasCome (Did S.Store old.depot new.depot) name octets outcome said old.host new.host
        → HasCleanDisk (state S.Store new.depot) → (before : Entries)
        → Stands (state S.Store old.depot).now before
        → (calls : List Call) → AreSteps calls no_entries before
        → has_closing true (lines_in said) ≡ false }
{}

/// Each answer in JSON is one line, whatever was filed: its text has no line break except at its end.
pub fn json_answers_are_lines()
    ensures alone { (wording : Wording) → Suits Json wording → (said : Said) → IsLine (answer_in wording said) }
    ensures together { (wording : Wording) → Suits Json wording → (entries : List Listing)
        → IsLine (filed_in wording entries) }
{}
