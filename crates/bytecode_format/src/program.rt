// A program as a value.
ghost use Rattle.std.specs.Prelude.{◌≡◌};
ghost use Rattle.bytecode_format.specs.Code.{version_two};
ghost use Rattle.bytecode_format.specs.Spelling.{is_version};

use crate::instruction::Instruction;
use octets::Octets;
use std::marker::Model;

/// The version of the format that has all operations except Take.
pub const VERSION_ONE: u8 = 1;

/// The version of the format that has all operations.
pub const VERSION_TWO: u8 = 2;

/// The largest number of bytes of a program.
pub(crate) const MAX_PROGRAM: usize = 4_194_304;

/// The largest number of a program's numbers, and of its strings.
pub(crate) const MAX_TABLE: usize = 65_535;

/// The largest number of a program's instructions.
pub(crate) const MAX_INSTRUCTIONS: usize = 65_536;

/// The first bytes of a program: the name of the format. The byte of the version follows.
pub(crate) const OPENING: [u8; 4] = *b"SVBC";

/// Whether the format has this version.
pub(crate) fn is_version(number: u8) -> bool
    ensures { result ≡ is_version number }
{
    number == VERSION_ONE || number == VERSION_TWO
}

/// A program within the limits of the format: its version, its tables of numbers and strings, and its instructions.
///
/// [`Program::read`] makes it of bytes and [`Program::build`] of parts. Only a verified program can be run, so the
/// next step is the verifier. A contract sees its `Code`.
#[derive(Drop)]
pub struct Program {
    version: u8,
    variables: u16,
    numbers: Vec<u64>,
    strings: Vec<Octets>,
    instructions: Vec<Instruction>,
}

impl Model for Program {
    ghost use Rattle.bytecode_format.specs.Code.{Code};
    ghost use Rattle.bytecode_format.specs.Spelling.{IsProgram};

    ghost Value = { Code };

    ghost view = { λ p. record {
      version = p.version;
      variables = p.variables;
      numbers = p.numbers.items;
      strings = p.strings.items;
      instructions = p.instructions.items;
    } };

    ghost invariant = { λ p. IsProgram
        (record {
          version = p.version;
          variables = p.variables;
          numbers = p.numbers.items;
          strings = p.strings.items;
          instructions = p.instructions.items;
        }) };
}

impl Program {
    ghost use Rattle.bytecode_format.specs.Spelling.{IsProgram};

    /// A program of parts that are known to be within the limits.
    pub(crate) fn assemble(
        version: u8,
        variables: u16,
        numbers: Vec<u64>,
        strings: Vec<Octets>,
        instructions: Vec<Instruction>,
    ) -> Program
        requires { IsProgram (record {
          version = version;
          variables = variables;
          numbers = numbers.items;
          strings = strings.items;
          instructions = instructions.items;
        }) }
        ensures { result ≡ record {
          version = version;
          variables = variables;
          numbers = numbers.items;
          strings = strings.items;
          instructions = instructions.items;
        } }
    {
        Program {
            version,
            variables,
            numbers,
            strings,
            instructions,
        }
    }

    /// Returns the same program in version 2 of the format. It takes no memory.
    #[tactic(auto, using(crate::proofs::Versions::in_two))]
    pub fn in_version_two(self) -> Program
        ensures { result ≡ record self { version = version_two } }
    {
        Program::assemble(
            VERSION_TWO,
            self.variables,
            self.numbers,
            self.strings,
            self.instructions,
        )
    }

    /// Returns the version of the format that the program is in: 1 or 2.
    pub fn version(&self) -> u8
        ensures value { result ≡ self.now.version }
        ensures program { IsProgram self.now }
    {
        self.version
    }

    /// Returns how many variables the program has: 0 to 128.
    pub fn variables(&self) -> u16
        ensures value { result ≡ self.now.variables }
        ensures program { IsProgram self.now }
    {
        self.variables
    }

    /// Returns the table of numbers, at most 65,535.
    pub fn numbers(&self) -> &[u64]
        ensures value { result.now ≡ self.now.numbers }
        ensures program { IsProgram self.now }
    {
        self.numbers.as_slice()
    }

    /// Returns the table of strings: at most 65,535, each of at most 16,384 bytes.
    pub fn strings(&self) -> &[Octets]
        ensures value { result.now ≡ self.now.strings }
        ensures program { IsProgram self.now }
    {
        self.strings.as_slice()
    }

    /// Returns the instructions, at most 65,536.
    pub fn instructions(&self) -> &[Instruction]
        ensures value { result.now ≡ self.now.instructions }
        ensures program { IsProgram self.now }
    {
        self.instructions.as_slice()
    }
}
