// The errors of the crates below as refusals: each becomes the refusal of the same name.
use crate::refusal::Refusal;
use base64::DecodeAllocError;
use bytecode_format::FormatError;
use bytecode_verifier::Refusal as BrokenRule;
use hex::FromHexError;
use lanes_base32::Refusal as Base32Refusal;
use mime_decode::MessageError;
use sieve_check::CheckError;
use sieve_parser::ParseError;

impl From<ParseError> for Refusal {
    ghost use Rattle.std.specs.Prelude.{◌≡◌};
    ghost use Rattle.refusals.specs.Causes.{of_parser};

    ghost from_gives = { λ cause e. e ≡ of_parser cause };

    fn from(cause: ParseError) -> Refusal {
        match cause {
            ParseError::Memory => Refusal::Memory,
            ParseError::Lexical { place } => Refusal::Lexical { place },
            ParseError::ScriptTooLong => Refusal::ScriptTooLong,
            ParseError::Syntax { place } => Refusal::Syntax { place },
            ParseError::TooDeep { place } => Refusal::TooDeep { place },
        }
    }
}

impl From<CheckError> for Refusal {
    ghost use Rattle.std.specs.Prelude.{◌≡◌};
    ghost use Rattle.refusals.specs.Causes.{of_checker};

    ghost from_gives = { λ cause e. e ≡ of_checker cause };

    fn from(cause: CheckError) -> Refusal {
        match cause {
            CheckError::Memory => Refusal::Memory,
            CheckError::UnknownCommand { place } => Refusal::UnknownCommand { place },
            CheckError::MissingCapability { place } => Refusal::MissingCapability { place },
            CheckError::UnknownCapability { place } => Refusal::UnknownCapability { place },
            CheckError::BadArguments { place } => Refusal::BadArguments { place },
            CheckError::Limit { place } => Refusal::Limit { place },
        }
    }
}

impl From<FormatError> for Refusal {
    ghost use Rattle.std.specs.Prelude.{◌≡◌};
    ghost use Rattle.refusals.specs.Causes.{of_format};

    ghost from_gives = { λ cause e. e ≡ of_format cause };

    fn from(cause: FormatError) -> Refusal {
        match cause {
            FormatError::Memory => Refusal::Memory,
            FormatError::Spelling => Refusal::Spelling,
        }
    }
}

impl From<BrokenRule> for Refusal {
    ghost use Rattle.std.specs.Prelude.{◌≡◌};
    ghost use Rattle.refusals.specs.Causes.{of_verifier};

    ghost from_gives = { λ cause e. e ≡ of_verifier cause };

    fn from(cause: BrokenRule) -> Refusal {
        match cause {
            BrokenRule::Memory => Refusal::Memory,
            BrokenRule::Index { place } => Refusal::Index { place },
            BrokenRule::Form { place } => Refusal::Form { place },
            BrokenRule::End { place } => Refusal::End { place },
            BrokenRule::Loop { place } => Refusal::Loop { place },
            BrokenRule::Jump { place } => Refusal::Jump { place },
            BrokenRule::NoPart { place } => Refusal::NoPart { place },
            BrokenRule::Stack { place } => Refusal::Stack { place },
        }
    }
}

impl From<MessageError> for Refusal {
    ghost use Rattle.std.specs.Prelude.{◌≡◌};
    ghost use Rattle.refusals.specs.Causes.{of_message};

    ghost from_gives = { λ cause e. e ≡ of_message cause };

    fn from(cause: MessageError) -> Refusal {
        match cause {
            MessageError::Memory => Refusal::Memory,
            MessageError::MessageTooLarge => Refusal::MessageTooLarge,
            MessageError::TooManyParts => Refusal::TooManyParts,
        }
    }
}

impl From<Base32Refusal> for Refusal {
    ghost use Rattle.std.specs.Prelude.{◌≡◌};
    ghost use Rattle.refusals.specs.Causes.{of_base32};

    ghost from_gives = { λ cause e. e ≡ of_base32 cause };

    fn from(cause: Base32Refusal) -> Refusal {
        match cause {
            Base32Refusal::Memory => Refusal::Memory,
            Base32Refusal::NotCanonical => Refusal::NotCanonical,
        }
    }
}

impl From<DecodeAllocError> for Refusal {
    ghost use Rattle.std.specs.Prelude.{◌≡◌};
    ghost use Rattle.refusals.specs.Causes.{of_base64};

    ghost from_gives = { λ cause e. e ≡ of_base64 cause };

    fn from(cause: DecodeAllocError) -> Refusal {
        match cause {
            DecodeAllocError::OutOfMemory => Refusal::Memory,
            DecodeAllocError::DecodeError(_) => Refusal::NotCanonical,
        }
    }
}

impl From<FromHexError> for Refusal {
    ghost use Rattle.std.specs.Prelude.{◌≡◌};
    ghost use Rattle.refusals.specs.Causes.{of_base16};

    ghost from_gives = { λ cause e. e ≡ of_base16 cause };

    fn from(cause: FromHexError) -> Refusal {
        match cause {
            FromHexError::OutOfMemory => Refusal::Memory,
            _ => Refusal::NotCanonical,
        }
    }
}
