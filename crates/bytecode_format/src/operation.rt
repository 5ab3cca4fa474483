// The names of the operations.
ghost use Rattle.std.specs.Prelude.{◌≡◌};

/// The operation of an instruction that runs a test.
#[derive(Clone, Copy)]
pub enum TestOperation {
    /// `BOOL`: a truth value that the instruction has itself.
    Constant,
    /// Header fields match a key.
    Header,
    /// Whether there are header fields with given names.
    Exists,
    /// Texts match a key.
    String,
    /// The message's size is over or under a number.
    Size,
    /// The size of the current part's content is over or under a number.
    PartSize,
    /// The current part's content matches a key.
    PartBody,
    /// The digest of the current part's content is one of the keys.
    PartDigest,
}

/// An operation of the bytecode. [`Operation::of`] reads it from an instruction's byte.
#[derive(Clone, Copy)]
pub enum Operation {
    /// Ends the run, with the actions listed before.
    Halt,
    /// Pushes a string of the program.
    Literal,
    /// Pushes a variable's value.
    Variable,
    /// Pushes a capture of the last match.
    Capture,
    /// Joins texts into one.
    Join,
    /// Sets a variable to a text, with modifiers.
    Set,
    /// Runs a test, and pushes its truth value: 0x07 and 0x0C to 0x12.
    Test(TestOperation),
    /// Negates a truth value.
    Not,
    /// Continues at a later place.
    Jump,
    /// Continues at a later place if the value that it takes is true.
    JumpIfTrue,
    /// Continues at a later place if the value that it takes is false.
    JumpIfFalse,
    /// Lists the action Keep.
    Keep,
    /// Cancels the implicit keep.
    Discard,
    /// Lists the action File.
    File,
    /// Lists the action Store.
    Store,
    /// Opens a loop over parts.
    Each,
    /// Goes to the loop's next part, or closes it.
    Next,
    /// Closes one or more loops.
    Break,
    /// Sets a variable from the current part's content.
    Take,
}

impl TestOperation {
    ghost use Rattle.bytecode_format.specs.Operations.{name_of_test, octet_of_test};

    /// Returns the byte that names the operation.
    pub fn octet(self) -> u8
        ensures { result ≡ octet_of_test self }
    {
        match self {
            TestOperation::Constant => 0x07,
            TestOperation::Header => 0x0C,
            TestOperation::Exists => 0x0D,
            TestOperation::String => 0x0E,
            TestOperation::Size => 0x0F,
            TestOperation::PartSize => 0x10,
            TestOperation::PartBody => 0x11,
            TestOperation::PartDigest => 0x12,
        }
    }

    /// Returns the operation's name in a listing.
    pub fn name(self) -> &'static [u8]
        ensures { result.now ≡ name_of_test self }
    {
        match self {
            TestOperation::Constant => b"BOOL",
            TestOperation::Header => b"HEADER",
            TestOperation::Exists => b"EXISTS",
            TestOperation::String => b"STRING",
            TestOperation::Size => b"SIZE",
            TestOperation::PartSize => b"PARTSIZE",
            TestOperation::PartBody => b"PARTBODY",
            TestOperation::PartDigest => b"PARTDIGEST",
        }
    }
}

impl Operation {
    ghost use Rattle.bytecode_format.specs.Operations.{name_of, octet_of, operation_of};

    /// Returns the operation that the byte names; `None` if it names none.
    pub fn of(octet: u8) -> Option<Operation>
        ensures { result ≡ operation_of octet }
    {
        Some(match octet {
            0x01 => Operation::Halt,
            0x02 => Operation::Literal,
            0x03 => Operation::Variable,
            0x04 => Operation::Capture,
            0x05 => Operation::Join,
            0x06 => Operation::Set,
            0x07 => Operation::Test(TestOperation::Constant),
            0x08 => Operation::Not,
            0x09 => Operation::Jump,
            0x0A => Operation::JumpIfTrue,
            0x0B => Operation::JumpIfFalse,
            0x0C => Operation::Test(TestOperation::Header),
            0x0D => Operation::Test(TestOperation::Exists),
            0x0E => Operation::Test(TestOperation::String),
            0x0F => Operation::Test(TestOperation::Size),
            0x10 => Operation::Test(TestOperation::PartSize),
            0x11 => Operation::Test(TestOperation::PartBody),
            0x12 => Operation::Test(TestOperation::PartDigest),
            0x13 => Operation::Keep,
            0x14 => Operation::Discard,
            0x15 => Operation::File,
            0x16 => Operation::Store,
            0x17 => Operation::Each,
            0x18 => Operation::Next,
            0x19 => Operation::Break,
            0x1A => Operation::Take,
            _ => return None,
        })
    }

    /// Returns the byte that names the operation.
    pub fn octet(self) -> u8
        ensures { result ≡ octet_of self }
    {
        match self {
            Operation::Halt => 0x01,
            Operation::Literal => 0x02,
            Operation::Variable => 0x03,
            Operation::Capture => 0x04,
            Operation::Join => 0x05,
            Operation::Set => 0x06,
            Operation::Test(test) => test.octet(),
            Operation::Not => 0x08,
            Operation::Jump => 0x09,
            Operation::JumpIfTrue => 0x0A,
            Operation::JumpIfFalse => 0x0B,
            Operation::Keep => 0x13,
            Operation::Discard => 0x14,
            Operation::File => 0x15,
            Operation::Store => 0x16,
            Operation::Each => 0x17,
            Operation::Next => 0x18,
            Operation::Break => 0x19,
            Operation::Take => 0x1A,
        }
    }

    /// Returns the operation's name in a listing.
    pub fn name(self) -> &'static [u8]
        ensures { result.now ≡ name_of self }
    {
        match self {
            Operation::Halt => b"HALT",
            Operation::Literal => b"LIT",
            Operation::Variable => b"VAR",
            Operation::Capture => b"CAP",
            Operation::Join => b"JOIN",
            Operation::Set => b"SET",
            Operation::Test(test) => test.name(),
            Operation::Not => b"NOT",
            Operation::Jump => b"JMP",
            Operation::JumpIfTrue => b"JT",
            Operation::JumpIfFalse => b"JF",
            Operation::Keep => b"KEEP",
            Operation::Discard => b"DISCARD",
            Operation::File => b"FILE",
            Operation::Store => b"STORE",
            Operation::Each => b"EACH",
            Operation::Next => b"NEXT",
            Operation::Break => b"BREAK",
            Operation::Take => b"TAKE",
        }
    }
}
