// The first pass over a script: its numbers, its texts and its variables.
ghost use Rattle.std.specs.Prelude.{◌≡◌};

use crate::tables::Tables;
use bytecode_format::Question;
use sieve_check::{Act, Command, Segment, Strings, Test};
use std::alloc::{AllocError, Global};

impl<'a> Tables<'a> {
    ghost use Rattle.std.specs.Prelude.{◌≡◌, [], ◌∷◌, map, OnOk, IfOk};
    ghost use Rattle.sieve_check.specs.TypedView.{templates_of, strings_form, test_form, tests_of, command_form, commands_form};
    ghost use Rattle.sieve_check.specs.Typed.{in_order};
    ghost use Rattle.bytecode_format.specs.Questions.{row_of};
    ghost use Rattle.sieve_check.specs.Acts.{act_row};
    ghost use Rattle.sieve_compiler.specs.Tables.{tables_of};
    ghost use Rattle.sieve_compiler.specs.Growing.{uses_with, segment_uses, segments_uses, string_uses, strings_uses, test_uses, tests_uses, command_uses, commands_uses, with_uses};

    /// The tables of a script: each of its numbers, texts and variables once, in the order of their first use in its
    /// code.
    ///
    /// # Errors
    ///
    /// `AllocError` if memory is refused.
    pub fn of_script(alloc: Global, commands: &'a [Command]) -> Result<Tables<'a>, AllocError>
        ensures { IfOk result (λ tables. tables ≡ tables_of (commands_form commands.now)) }
    {
        let mut tables = Tables::new(alloc);
        tables.add_commands(commands)?;
        Ok(tables)
    }

    // Adds a variable.
    fn add_variable(&mut self, name: &'a [u8]) -> Result<(), AllocError>
        ensures { OnOk result (self.new ≡ with_uses self.old (uses_with [] [] (name.now ∷ []))) }
    {
        self.variables.add(name)
    }

    // Adds what a segment refers to.
    fn add_segment(&mut self, segment: &'a Segment) -> Result<(), AllocError>
        ensures { OnOk result (self.new ≡ with_uses self.old (segment_uses segment.now)) }
    {
        match segment {
            Segment::Text(octets) => self.strings.add(octets.as_slice()),
            Segment::Variable(name) => self.add_variable(name.as_slice()),
            Segment::Capture(_) => Ok(()),
        }
    }

    // Adds what segments refer to, one after the other.
    fn add_segments(&mut self, segments: &'a [Segment]) -> Result<(), AllocError>
        ensures { OnOk result (self.new ≡ with_uses self.old (segments_uses segments.now)) }
    {
        for segment in segments {
            self.add_segment(segment)?;
        }
        Ok(())
    }

    // Adds what a string refers to. The empty string is a text.
    fn add_string(&mut self, string: &'a [Segment]) -> Result<(), AllocError>
        ensures { OnOk result (self.new ≡ with_uses self.old (string_uses string.now)) }
    {
        match string {
            [] => self.strings.add(b""),
            [_, ..] => self.add_segments(string),
        }
    }

    // Adds what strings refer to, one after the other.
    fn add_strings(&mut self, strings: &'a [Vec<Segment>]) -> Result<(), AllocError>
        ensures { OnOk result (self.new
            ≡ with_uses self.old (strings_uses (templates_of strings.now))) }
    {
        for string in strings {
            self.add_string(string)?;
        }
        Ok(())
    }

    // Adds what the strings of a question refer to.
    fn add_lists(&mut self, strings: &'a Strings) -> Result<(), AllocError>
        ensures { OnOk result (self.new
            ≡ with_uses self.old (strings_uses (in_order (strings_form strings.now)))) }
    {
        self.add_strings(&strings.names)?;
        self.add_strings(&strings.params)?;
        self.add_strings(&strings.keys)
    }

    // Adds a number.
    fn add_number(&mut self, number: u64) -> Result<(), AllocError>
        ensures { OnOk result (self.new ≡ with_uses self.old (uses_with (number ∷ []) [] [])) }
    {
        self.numbers.add(number)
    }

    // Adds the number that a question compares with, if it does.
    fn add_compared(&mut self, question: Question) -> Result<(), AllocError>
        ensures { OnOk result (self.new
            ≡ with_uses self.old (uses_with (row_of question).numbers [] [])) }
    {
        match question.number() {
            Some(number) => self.add_number(number),
            None => Ok(()),
        }
    }

    #[cycle(test_uses)]
    #[tactic(auto, using(crate::proofs::NumberingLemmas::uses_after))]
    fn add_test(&mut self, test: &'a Test) -> Result<(), AllocError>
        ensures { OnOk result (self.new ≡ with_uses self.old (test_uses (test_form test.now))) }
    {
        match test {
            Test::Asks {
                question,
                strings,
                ..
            } => {
                self.add_lists(strings)?;
                self.add_compared(*question)
            }
            Test::Not { test, .. } => self.add_test(test),
            Test::AllOf { first, others, .. } | Test::AnyOf { first, others, .. } => {
                self.add_test(first)?;
                self.add_tests(others)
            }
        }
    }

    #[cycle(test_uses)]
    #[tactic(auto, using(crate::proofs::NumberingLemmas::uses_after))]
    fn add_tests(&mut self, tests: &'a [Test]) -> Result<(), AllocError>
        ensures { OnOk result (self.new
            ≡ with_uses self.old (tests_uses (tests_of (map test_form tests.now)))) }
    {
        'tests: for test in tests {
            self.add_test(test)?;
        }
        Ok(())
    }

    // Adds the variable that an act sets, if it sets one.
    fn add_set(&mut self, act: &'a Act) -> Result<(), AllocError>
        ensures { OnOk result (self.new
            ≡ with_uses self.old (uses_with [] [] (act_row act.now).sets)) }
    {
        match act.sets() {
            Some(name) => self.add_variable(name.as_slice()),
            None => Ok(()),
        }
    }

    #[cycle(command_uses)]
    #[tactic(auto, using(crate::proofs::NumberingLemmas::uses_after))]
    fn add_command(&mut self, command: &'a Command) -> Result<(), AllocError>
        ensures { OnOk result (self.new
            ≡ with_uses self.old (command_uses (command_form command.now))) }
    {
        match command {
            Command::Does { act, string, .. } => {
                self.add_strings(act.strings(string))?;
                self.add_set(act)?;
            }
            Command::ForEveryPart { block, .. } => self.add_commands(block)?,
            Command::If(branches, otherwise) => {
                'branches: for branch in branches {
                    self.add_test(&branch.test)?;
                    self.add_commands(&branch.block)?;
                }
                if let Some(block) = otherwise {
                    self.add_commands(block)?;
                }
            }
        }
        Ok(())
    }

    #[cycle(command_uses)]
    #[tactic(auto, using(crate::proofs::NumberingLemmas::uses_after))]
    fn add_commands(&mut self, commands: &'a [Command]) -> Result<(), AllocError>
        ensures { OnOk result (self.new
            ≡ with_uses self.old (commands_uses (commands_form commands.now))) }
    {
        'commands: for command in commands {
            self.add_command(command)?;
        }
        Ok(())
    }
}
