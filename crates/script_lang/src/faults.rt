//! What is told of bytes that are no script.
ghost use Rattle.std.specs.Prelude.{◌≡◌};
ghost use Rattle.script_lang.specs.declared.faults.ParseError.TheVariants as parse_errors;

use script_words::Reason;
use std::alloc::AllocError;

/// What is wrong with bytes that are no script.
#[derive(Clone, Copy, PartialEq, Eq)]
pub struct ScriptFault {
    /// The line, from 1; 0 where the bytes as a whole are too many.
    pub line: u32,
    /// What is wrong with it.
    pub reason: Reason,
}

/// Why a script was not read.
#[derive(Clone, Copy)]
pub enum ParseError {
    /// The bytes are no script.
    Fault(ScriptFault),
    /// Memory was refused.
    NoMemory,
}

impl From<ScriptFault> for ParseError {
    ghost from_gives = { λ fault error. error ≡ parse_errors.Fault fault };

    fn from(fault: ScriptFault) -> ParseError {
        ParseError::Fault(fault)
    }
}

impl From<AllocError> for ParseError {
    ghost from_gives = { λ _ error. error ≡ parse_errors.NoMemory };

    fn from(_error: AllocError) -> ParseError {
        ParseError::NoMemory
    }
}
