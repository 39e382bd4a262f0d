//! The reasons for which bytes are no script.
ghost use Rattle.std.specs.Prelude.{◌≡◌};
ghost use Rattle.script_words.specs.declared.reason.LineError.TheVariants as line_errors;

use std::alloc::{AllocError, AllocFailed};

/// Why bytes are no script.
#[derive(Clone, Copy, PartialEq, Eq)]
pub enum Reason {
    /// There are too many bytes.
    Length,
    /// There are too many lines.
    Lines,
    /// A word is not one that may stand there, or the words are not parted by single spaces.
    Word,
    /// The line has too few or too many words.
    Count,
    /// A number is malformed, or out of its range.
    Number,
    /// A bytes word is malformed, or too long.
    Bytes,
    /// Nodes come up elsewhere than in the first line, or not there.
    Nodes,
    /// The moment would fall.
    Moment,
    /// A block of a race is broken.
    Race,
    /// The reads ask for too many bytes.
    Reads,
    /// There are too many lines that print replicas.
    Shows,
    /// The form of the line is not built yet.
    NotBuilt,
}

impl Reason {
    ghost use Rattle.script_words.specs.Reasons.{reason_text};

    /// The reason as a message prints it.
    pub fn word(self) -> &'static str
        ensures { result.now ≡ reason_text self }
    {
        match self {
            Reason::Length => "length",
            Reason::Lines => "lines",
            Reason::Word => "word",
            Reason::Count => "count",
            Reason::Number => "number",
            Reason::Bytes => "bytes",
            Reason::Nodes => "nodes",
            Reason::Moment => "moment",
            Reason::Race => "race",
            Reason::Reads => "reads",
            Reason::Shows => "shows",
            Reason::NotBuilt => "not built",
        }
    }
}

/// Why a line or a word was not read.
#[derive(Clone, Copy, PartialEq, Eq)]
pub enum LineError {
    /// It is not what may stand there.
    Fault(Reason),
    /// Memory was refused.
    NoMemory,
}

impl From<AllocError> for LineError {
    ghost from_gives = { λ _ error. error ≡ line_errors.NoMemory };

    fn from(_error: AllocError) -> LineError {
        LineError::NoMemory
    }
}

impl<T: Drop> From<AllocFailed<T>> for LineError {
    ghost from_gives = { λ _ error. error ≡ line_errors.NoMemory };

    fn from(_error: AllocFailed<T>) -> LineError {
        LineError::NoMemory
    }
}
