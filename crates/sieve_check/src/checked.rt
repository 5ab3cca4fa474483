// Scripts that were checked.
//
// The typed form has copies of the strings, and `Checked` keeps the script next to it.
ghost use Rattle.std.specs.Prelude.{◌≡◌, None};
ghost use Rattle.sieve_parser.specs.Scripts.{IsTree};
ghost use Rattle.sieve_parser.specs.View.{commands_tree};
ghost use Rattle.sieve_check.specs.Bounded.{IsBounded};
ghost use Rattle.sieve_check.specs.FormOf.{IsFormOf};
ghost use Rattle.sieve_check.specs.Rules.{fault_of};
ghost use Rattle.sieve_check.specs.TypedView.{commands_form};

use crate::typed::Command;
use sieve_parser::Script;
use std::marker::Model;

/// A script that keeps the rules, with its typed form. [`crate::check`] makes it; the compiler and the evaluator take
/// it. A contract sees the commands of both.
#[derive(Drop)]
pub struct Checked {
    script: Script,
    commands: Vec<Command>,
}

impl Model for Checked {
    ghost use Rattle.sieve_check.specs.CheckedScript.{CheckedScript};
    ghost use Rattle.std.specs.Coded.{codes};
    ghost use Rattle.sieve_parser.specs.contracts.tree.Command as tree;
    ghost use Rattle.sieve_check.specs.contracts.typed.Command as typed;

    ghost Value = { CheckedScript };

    ghost coded = { Prim.hlevel (codes, tree.the_row.coded, typed.the_row.coded) };

    ghost use Rattle.sieve_check.specs.CheckedScript.{IsChecked};

    ghost view = { λ c. record { script = c.script; commands = c.commands.items } };

    ghost invariant = { λ c. IsChecked (record { script = c.script; commands = c.commands.items }) };
}

impl Checked {
    // The script with its typed form.
    pub(crate) fn of(script: Script, commands: Vec<Command>) -> Checked
        requires tree { IsTree (commands_tree script) }
        requires form { IsFormOf (commands_tree script) (commands_form commands.items) }
        requires faultless { fault_of (commands_tree script) ≡ None }
        ensures script { result.script ≡ script }
        ensures commands { result.commands ≡ commands.items }
    {
        Checked { script, commands }
    }

    /// Returns the syntax tree of the script, for editors and formatters, which need what the typed form leaves out.
    pub fn script(&self) -> &Script
        ensures value { result.now ≡ self.now.script }
        ensures tree { IsTree (commands_tree self.now.script) }
        ensures faultless { fault_of (commands_tree self.now.script) ≡ None }
    {
        &self.script
    }

    /// Returns the typed form of the script, which is within the limits: no string is too long or has too many
    /// segments, no test has an empty list or lists of too many strings, and there aren't too many variables.
    pub fn commands(&self) -> &[Command]
        ensures value { result.now ≡ self.now.commands }
        ensures form { IsFormOf (commands_tree self.now.script) (commands_form self.now.commands) }
        ensures bounded { IsBounded (commands_form self.now.commands) }
    {
        &self.commands
    }
}
