// The second pass over a script: its code.
//
// The code of a test is stated once, for the wanted value, true or false, instead of two definitions that mirror
// each other; docs/BYTECODE.md has both. Tests are measured before they are written, and blocks aren't: a jump over
// a block is written without its target, and aimed when the block is out (`specs/Aiming`). The mark of a waiting
// jump is the target 0, where no jump leads. To measure each block twice for each `if` around it took nearly half of
// the instructions for a script of 31 nested blocks. An `if` with an `elsif` or `else` is gone over once more for
// the jumps to its end, and a test in nested lists is measured once for each list around it.
ghost use Rattle.std.specs.Prelude.{◌≡◌, ◌<◌, ◌^◌, length};

use crate::exits::{Exit, ListExit};
use crate::instructions::{
    NO_TARGET, act_code, aim_all, instruction, join_texts, jump_if, question_code,
};
use crate::lengths::{has_leaves, is_left, test_length, tests_length};
use crate::tables::Tables;
use bytecode_format::{Instruction, Operation, Question};
use sieve_check::{Branch, Command, Segment, Strings, Test};
use std::alloc::{AllocError, Global};

/// The code up to a place, and the tables of the whole script.
#[derive(Drop)]
pub struct Coder<'t, 's> {
    pub tables: &'t Tables<'s>,
    pub instructions: Vec<Instruction>,
    ghost numbers: { length tables.now.numbers < 2 ^ 32 },
    ghost strings: { length tables.now.strings < 2 ^ 32 },
    ghost variables: { length tables.now.variables < 2 ^ 32 },
}

impl<'t, 's> Coder<'t, 's> {
    ghost use Rattle.std.specs.Prelude.{◌≡◌, ◌+◌, ◌<◌, ◌≤◌, ◌^◌, [], ◌∷◌, ◌++◌, List, length, map, All, OnOk};
    ghost use Rattle.bytecode_format.specs.declared.instruction.Instruction.{Instruction};
    ghost use Rattle.sieve_check.specs.TypedView.{templates_of, strings_form, test_form, tests_of, command_form, commands_form};
    ghost use Rattle.sieve_check.specs.Private.{branch_forms, else_form};
    ghost use Rattle.sieve_compiler.specs.Lengths.{string_length, strings_length, test_length, tests_length, leave_length, command_length, commands_length};
    ghost use Rattle.sieve_check.specs.Typed.{in_order};
    ghost use Rattle.bytecode_format.specs.Questions.{row_of};
    ghost use Rattle.sieve_check.specs.Bounded.{IsBoundedString, AreBoundedStrings, IsBoundedTest, AreBoundedTests, IsBoundedCommand, AreBoundedCommands};
    ghost use Rattle.sieve_compiler.specs.Coding.{jump_if, loop_code, question_code, push_text, push_segment, string_code, strings_code, test_code, tests_code, leave_code, command_code, commands_code};
    ghost use Rattle.sieve_compiler.specs.Aiming.{aimed, with_target, branch_code, unaimed_code};
    ghost use Rattle.sieve_compiler.specs.Putting.{Puts};

    /// No code. It takes no memory.
    pub fn new(alloc: Global, tables: &'t Tables<'s>) -> Coder<'t, 's>
        requires numbers { length tables.now.numbers < 2 ^ 32 }
        requires strings { length tables.now.strings < 2 ^ 32 }
        requires variables { length tables.now.variables < 2 ^ 32 }
        ensures tables { result.tables.now ≡ tables.now }
        ensures instructions { result.instructions.items ≡ [] }
    {
        Coder {
            tables,
            instructions: Vec::new(alloc),
        }
    }

    // The place of the next instruction.
    fn place(&self) -> u32
        requires { length self.now.instructions.items < 2 ^ 32 }
        ensures { result ≡ length self.now.instructions.items }
    {
        self.instructions.len() as u32
    }

    /// Appends an instruction.
    ///
    /// # Errors
    ///
    /// `AllocError` if memory is refused.
    pub fn put(&mut self, instruction: Instruction) -> Result<(), AllocError>
        ensures code { OnOk result (Puts self.old self.new (instruction ∷ [])) }
        ensures room { OnOk result (length self.new.instructions.items
            ≡ length self.old.instructions.items + 1) }
    {
        self.instructions.push(instruction)?;
        Ok(())
    }

    // Sets the target of the jumps from one place to another that wait for it.
    fn aim(&mut self, from: u32, end: u32, target: u32)
        requires from { from ≤ end }
        requires end { end ≤ length self.now.instructions.items }
        ensures tables { self.new.tables.now ≡ self.old.tables.now }
        ensures code { (before piece after : List Instruction)
            → self.old.instructions.items ≡ before ++ piece ++ after → from ≡ length before
            → end ≡ length before + length piece
            → self.new.instructions.items ≡ before ++ map (aimed target) piece ++ after }
    {
        aim_all(&mut self.instructions[from as usize..end as usize], target);
    }

    // Sets the target of the instruction at a place.
    fn set_target(&mut self, place: u32, target: u32)
        requires { place < length self.now.instructions.items }
        ensures tables { self.new.tables.now ≡ self.old.tables.now }
        ensures code { (before after : List Instruction) (one : Instruction)
            → self.old.instructions.items ≡ before ++ one ∷ after → place ≡ length before
            → self.new.instructions.items ≡ before ++ with_target target one ∷ after }
    {
        self.instructions[place as usize].c = target;
    }

    // Pushes a text.
    fn put_text(&mut self, text: &[u8]) -> Result<(), AllocError>
        ensures code { OnOk result (Puts self.old self.new
            (push_text self.old.tables.now text.now ∷ [])) }
        ensures room { OnOk result (length self.new.instructions.items
            ≡ length self.old.instructions.items + 1) }
    {
        let place = self.tables.place_of_string(text) as u32;
        self.put(instruction(Operation::Literal, 0, place))
    }

    // Pushes the value of a segment.
    fn put_segment(&mut self, segment: &Segment) -> Result<(), AllocError>
        ensures code { OnOk result (Puts self.old self.new
            (push_segment self.old.tables.now segment.now ∷ [])) }
        ensures room { OnOk result (length self.new.instructions.items
            ≡ length self.old.instructions.items + 1) }
    {
        match segment {
            Segment::Text(octets) => self.put_text(octets.as_slice()),
            Segment::Variable(name) => {
                let place = self.tables.place_of_variable(name.as_slice()) as u32;
                self.put(instruction(Operation::Variable, 0, place))
            }
            Segment::Capture(number) => self.put(instruction(Operation::Capture, *number, 0)),
        }
    }

    // Pushes the values of segments, one after the other.
    fn put_segments(&mut self, segments: &[Segment]) -> Result<(), AllocError>
        ensures code { OnOk result (Puts self.old self.new
            (map (push_segment self.old.tables.now) segments.now)) }
        ensures room { OnOk result (length self.new.instructions.items
            ≡ length self.old.instructions.items + length segments.now) }
    {
        for segment in segments {
            self.put_segment(segment)?;
        }
        Ok(())
    }

    // Pushes a string.
    fn put_string(&mut self, string: &[Segment]) -> Result<(), AllocError>
        requires { IsBoundedString string.now }
        ensures code { OnOk result (Puts self.old self.new
            (string_code self.old.tables.now string.now)) }
        ensures room { OnOk result (length self.new.instructions.items
            ≡ length self.old.instructions.items + string_length string.now) }
    {
        match string {
            [] => self.put_text(b""),
            [segment] => self.put_segment(segment),
            _ => {
                self.put_segments(string)?;
                self.put(join_texts(string.len() as u16))
            }
        }
    }

    // Pushes strings, one after the other.
    fn put_strings(&mut self, strings: &[Vec<Segment>]) -> Result<(), AllocError>
        requires { All IsBoundedString (templates_of strings.now) }
        ensures code { OnOk result (Puts self.old self.new
            (strings_code self.old.tables.now (templates_of strings.now))) }
        ensures room { OnOk result (length self.new.instructions.items
            ≡ length self.old.instructions.items + strings_length (templates_of strings.now)) }
    {
        for string in strings {
            self.put_string(string)?;
        }
        Ok(())
    }

    // Puts the code of a question's strings.
    fn put_lists(&mut self, strings: &Strings) -> Result<(), AllocError>
        requires { All IsBoundedString (in_order (strings_form strings.now)) }
        ensures code { OnOk result (Puts self.old self.new
            (strings_code self.old.tables.now (in_order (strings_form strings.now)))) }
        ensures room { OnOk result (length self.new.instructions.items
            ≡ length self.old.instructions.items + strings_length
            (in_order (strings_form strings.now))) }
    {
        self.put_strings(&strings.names)?;
        self.put_strings(&strings.params)?;
        self.put_strings(&strings.keys)
    }

    // Puts the code of a question: its strings, its instruction and its jump.
    fn put_question(
        &mut self,
        question: Question,
        strings: &Strings,
        exit: Exit,
    ) -> Result<(), AllocError>
        requires { AreBoundedStrings (row_of question).takes (strings_form strings.now) }
        ensures code { OnOk result (Puts self.old self.new
            (strings_code self.old.tables.now (in_order (strings_form strings.now))
            ++ question_code self.old.tables.now question (strings_form strings.now)
            ∷ jump_if exit.asked exit.target ∷ [])) }
        ensures room { OnOk result (length self.new.instructions.items
            ≡ length self.old.instructions.items + (strings_length
            (in_order (strings_form strings.now)) + 2)) }
    {
        self.put_lists(strings)?;
        self.put(question_code(self.tables, question, strings))?;
        self.put(jump_if(exit))
    }

    /// Appends the code of a test, which jumps according to the exit.
    ///
    /// # Errors
    ///
    /// `AllocError` if memory is refused.
    #[cycle(tests)]
    pub fn put_test(&mut self, test: &Test, exit: Exit) -> Result<(), AllocError>
        requires room { length self.old.instructions.items + test_length (test_form test.now)
            < 2 ^ 32 }
        requires bounded { IsBoundedTest (test_form test.now) }
        ensures code { OnOk result (Puts self.old self.new
            (test_code self.old.tables.now (length self.old.instructions.items)
            (test_form test.now) exit.asked exit.target)) }
        ensures room { OnOk result (length self.new.instructions.items
            ≡ length self.old.instructions.items + test_length (test_form test.now)) }
    {
        match test {
            Test::Asks {
                question,
                strings,
                ..
            } => self.put_question(*question, strings, exit),
            Test::Not { test, .. } => self.put_test(test, exit.turned()),
            Test::AllOf { first, others, .. } => {
                let list = self.list_exit(first, others, false, exit);
                self.put_test(first, list.before(others))?;
                self.put_tests(others, list)?;
                Ok(())
            }
            Test::AnyOf { first, others, .. } => {
                let list = self.list_exit(first, others, true, exit);
                self.put_test(first, list.before(others))?;
                self.put_tests(others, list)?;
                Ok(())
            }
        }
    }

    // Puts the code of the tests of a list after its first.
    #[cycle(tests)]
    fn put_tests(&mut self, others: &[Test], list: ListExit) -> Result<(), AllocError>
        requires room { length self.old.instructions.items + tests_length
            (tests_of (map test_form others.now)) < 2 ^ 32 }
        requires bounded { AreBoundedTests (tests_of (map test_form others.now)) }
        ensures code { OnOk result (Puts self.old self.new
            (tests_code self.old.tables.now (length self.old.instructions.items)
            (tests_of (map test_form others.now)) list.deciding list.exit.asked
            list.following list.exit.target)) }
        ensures room { OnOk result (length self.new.instructions.items
            ≡ length self.old.instructions.items + tests_length
            (tests_of (map test_form others.now))) }
    {
        'tests: for (i, test) in others.iter().enumerate() {
            self.put_test(test, list.before(&others[i + 1..]))?;
        }
        Ok(())
    }

    // The exit of a list of tests whose code begins here.
    fn list_exit(&self, first: &Test, others: &[Test], deciding: bool, exit: Exit) -> ListExit
        requires { length self.now.instructions.items + (test_length
            (test_form first.now) + tests_length (tests_of (map test_form others.now)))
            < 2 ^ 32 }
        ensures deciding { result.deciding ≡ deciding }
        ensures exit { result.exit ≡ exit }
        ensures following { result.following
            ≡ length self.now.instructions.items + (test_length (test_form first.now) + tests_length
            (tests_of (map test_form others.now))) }
    {
        ListExit {
            deciding,
            exit,
            following: self.place() + (test_length(first) + tests_length(others)),
        }
    }

    // Puts the code of a command. The jumps of an `if` to its end are aimed when that is known: an instruction is
    // looked at again for each `if` around it that has such jumps, and these have a limit.
    #[cycle(commands)]
    fn put_command(&mut self, command: &Command) -> Result<(), AllocError>
        requires room { length self.old.instructions.items + command_length
            (command_form command.now) < 2 ^ 32 }
        requires bounded { IsBoundedCommand (command_form command.now) }
        ensures code { OnOk result (Puts self.old self.new
            (command_code self.old.tables.now (length self.old.instructions.items)
            (command_form command.now))) }
        ensures room { OnOk result (length self.new.instructions.items
            ≡ length self.old.instructions.items + command_length (command_form command.now)) }
    {
        let start = self.place();
        self.put_unaimed(command)?;
        if has_leaves(command) {
            let end = self.place();
            self.aim(start, end, end);
        }
        Ok(())
    }

    // Puts the code of a command. The jumps of an `if` to its end wait for it.
    #[cycle(commands)]
    fn put_unaimed(&mut self, command: &Command) -> Result<(), AllocError>
        requires room { length self.old.instructions.items + command_length
            (command_form command.now) < 2 ^ 32 }
        requires bounded { IsBoundedCommand (command_form command.now) }
        ensures code { OnOk result (Puts self.old self.new
            (unaimed_code self.old.tables.now (length self.old.instructions.items)
            (command_form command.now))) }
        ensures room { OnOk result (length self.new.instructions.items
            ≡ length self.old.instructions.items + command_length (command_form command.now)) }
    {
        match command {
            Command::Does { act, string, .. } => {
                self.put_strings(act.strings(string))?;
                self.put(act_code(self.tables, act))?;
            }
            Command::ForEveryPart { block, .. } => self.put_loop(block)?,
            Command::If(branches, otherwise) => {
                'branches: for (i, branch) in branches.iter().enumerate() {
                    self.put_branch(branch, &branches[i + 1..], otherwise)?;
                }
                if let Some(block) = otherwise {
                    self.put_commands(block)?;
                }
            }
        }
        Ok(())
    }

    // Puts the code of a loop over parts.
    #[cycle(commands)]
    fn put_loop(&mut self, body: &[Command]) -> Result<(), AllocError>
        requires room { length self.old.instructions.items + (commands_length
            (commands_form body.now) + 2) < 2 ^ 32 }
        requires bounded { AreBoundedCommands (commands_form body.now) }
        ensures code { OnOk result (Puts self.old self.new
            (loop_code (length self.old.instructions.items)
            (length self.old.instructions.items + 1 + commands_length (commands_form body.now))
            (commands_code self.old.tables.now (length self.old.instructions.items + 1)
            (commands_form body.now)))) }
        ensures room { OnOk result (length self.new.instructions.items
            ≡ length self.old.instructions.items + (commands_length
            (commands_form body.now) + 2)) }
    {
        let each = self.place();
        self.put(instruction(Operation::Each, 0, NO_TARGET))?;
        self.put_commands(body)?;
        let next = self.place();
        self.set_target(each, next);
        self.put(instruction(Operation::Next, 0, each))
    }

    /// Appends the code of commands, one after the other.
    ///
    /// # Errors
    ///
    /// `AllocError` if memory is refused.
    #[cycle(commands)]
    pub fn put_commands(&mut self, commands: &[Command]) -> Result<(), AllocError>
        requires room { length self.old.instructions.items + commands_length
            (commands_form commands.now) < 2 ^ 32 }
        requires bounded { AreBoundedCommands (commands_form commands.now) }
        ensures code { OnOk result (Puts self.old self.new
            (commands_code self.old.tables.now (length self.old.instructions.items)
            (commands_form commands.now))) }
        ensures room { OnOk result (length self.new.instructions.items
            ≡ length self.old.instructions.items + commands_length
            (commands_form commands.now)) }
    {
        'commands: for command in commands {
            self.put_command(command)?;
        }
        Ok(())
    }

    // Appends the code of a branch. Its test jumps to the place after the block and the jump that leaves it, and is
    // aimed when these are out.
    #[cycle(commands)]
    fn put_branch(
        &mut self,
        branch: &Branch,
        after: &[Branch],
        otherwise: &Option<Vec<Command>>,
    ) -> Result<(), AllocError>
        requires room { length self.old.instructions.items + (test_length
            (test_form branch.now.test) + commands_length
            (commands_form branch.now.block.items) + leave_length
            (branch_forms after.now (else_form otherwise.now))) < 2 ^ 32 }
        requires test { IsBoundedTest (test_form branch.now.test) }
        requires block { AreBoundedCommands (commands_form branch.now.block.items) }
        ensures code { OnOk result (Puts self.old self.new
            (branch_code self.old.tables.now (length self.old.instructions.items)
            (test_form branch.now.test) (commands_form branch.now.block.items)
            (branch_forms after.now (else_form otherwise.now)))) }
        ensures room { OnOk result (length self.new.instructions.items
            ≡ length self.old.instructions.items + (test_length
            (test_form branch.now.test) + commands_length
            (commands_form branch.now.block.items) + leave_length
            (branch_forms after.now (else_form otherwise.now)))) }
    {
        let test = self.place();
        self.put_test(
            &branch.test,
            Exit {
                asked: false,
                target: NO_TARGET,
            },
        )?;
        let block = self.place();
        self.put_commands(&branch.block)?;
        self.put_leave(after, otherwise)?;
        let next = self.place();
        self.aim(test, block, next);
        Ok(())
    }

    // Appends the jump after a block, which waits for the end of its `if`, if branches or an `else` are left.
    fn put_leave(
        &mut self,
        after: &[Branch],
        otherwise: &Option<Vec<Command>>,
    ) -> Result<(), AllocError>
        ensures code { OnOk result (Puts self.old self.new
            (leave_code (branch_forms after.now (else_form otherwise.now)) 0)) }
        ensures room { OnOk result (length self.new.instructions.items
            ≡ length self.old.instructions.items + leave_length
            (branch_forms after.now (else_form otherwise.now))) }
    {
        if is_left(after, otherwise) {
            self.put(instruction(Operation::Jump, 0, NO_TARGET))?;
        }
        Ok(())
    }
}
