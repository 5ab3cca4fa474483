//! A law about the commands and what clap accepts for them.
ghost use Rattle.std.specs.Prelude.{◌≡◌, IfSome, List, []};
ghost use Rattle.clap.specs.Words.{App, Text, fault_of, subcommand_of};
ghost use Rattle.depot_words.specs.Commands.{IsDepot, commands};
ghost use Rattle.depot_words.specs.Ranges.{AreComplete};

/// Words that clap accepts as a command have a text for each of its arguments, except those that can be left out, and
/// each is in its range: NUMBER is the number of an entry, and ENCODING the name of an encoding.
pub fn arguments_are_in_range()
    ensures { (app : App) (words : List Text) → IsDepot app → fault_of app words ≡ []
        → IfSome (subcommand_of app words) (λ m. AreComplete commands m.0 m.1) }
{}
