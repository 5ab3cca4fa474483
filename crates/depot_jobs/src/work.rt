// Work that needs no depot.
use crate::host::Input;
use encodings::Encoding;

/// A command that needs no depot. The type `F` stands for each file that it reads: in [`Work`], which
/// [`crate::line_of`] makes, it says where the bytes come from; in a [`Job`], which [`crate::answer`] does, it has them.
#[derive(Clone, Copy)]
pub enum WithoutDepot<'a, F> {
    /// A command on one file, or on standard input.
    OnFile(Tool<'a>, F),
    /// A command on a script or a program, and on a message.
    OnMessage(Runner, F, F),
}

/// A command that needs no depot, with where its files are read from.
pub type Work<'a> = WithoutDepot<'a, Input<'a>>;

/// A command that needs no depot, with its files, which were read.
pub type Job<'a> = WithoutDepot<'a, File<'a>>;

/// What a command does with one file.
#[derive(Clone, Copy)]
pub enum Tool<'a> {
    /// Run the program that keeps every message. This is what no words ask for, with standard input.
    KeepAll,
    /// Check whether a script has a fault.
    Check,
    /// The same, and describe the fault in words.
    Explain,
    /// Compile a script and write its program to the file `out`.
    Compile { out: &'a str },
    /// Check whether a program is accepted, and print its budget.
    Verify,
    /// Print how much a program can charge and file at most for messages with at most `octets` bytes and `parts` parts.
    Limit { octets: u32, parts: u32 },
    /// Print the listing of a program, and the verdict of the verifier.
    Disassemble,
    /// Assemble a listing and write its program to the file `out`.
    Assemble { out: &'a str },
    /// List the parts of a message.
    Parts,
    /// Encode bytes.
    Encode { encoding: Encoding },
    /// Decode a text.
    Decode { encoding: Encoding },
}

/// What a command does with a script or a program, and a message.
#[derive(Clone, Copy)]
pub enum Runner {
    /// Run a program.
    Run,
    /// Evaluate a script.
    Eval,
    /// Trace a script or a program, step by step.
    Trace,
}

/// A file that was read, or standard input.
#[derive(Clone, Copy)]
pub struct File<'a> {
    /// The name of the file. Standard input has none.
    pub name: &'a str,
    /// The bytes.
    pub octets: &'a [u8],
}
