//! Laws about the definitions: no call is made.
ghost use Rattle.std.specs.Prelude.{◌≡◌, ℕ, true, List};
ghost use Rattle.bytecode_format.specs.Code.{Code};
ghost use Rattle.clap.specs.Words.{Text, subcommand_of};
ghost use Rattle.sieve_engine.specs.Execution.{Spells};
ghost use Rattle.depot_jobs.specs.Tracing.{is_program};
ghost use Rattle.depot_jobs.specs.Words.{AreSaid, IsLine};
ghost use Rattle.depot_jobs.specs.declared.line.CommandLine.{CommandLine};

/// The number of a command is written in its words, and is one that an entry can have, or as many bytes or parts as a
/// message can have; and its encoding is the one whose name is written there. So neither 0 nor `raw` replaces anything
/// else, except that the number of a catalog is 0 if it is left out.
pub fn numbers_and_encodings_are_said()
    ensures { (words : List Text) (line : CommandLine) → (is : IsLine words line)
        → AreSaid line (subcommand_of is.app words) }
{}

/// The bytes of every program are taken for a program if a trace is asked for.
pub fn programs_are_taken_for_programs()
    ensures { (octets : List ℕ) (code : Code) → Spells octets code → is_program octets ≡ true }
{}
