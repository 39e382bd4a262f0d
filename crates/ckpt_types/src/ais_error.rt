//! The codes that calls answer, with the standard's numbers and the words of result lines.
ghost use Rattle.std.specs.Prelude.{◌≡◌};
ghost use Rattle.ckpt_types.specs.AisError.{code_of, error_text};

/// A code of the Application Interface Specification, as a call answers it. No other code of the
/// standard is answered.
#[derive(Clone, Copy, Debug, PartialEq, Eq)]
pub enum AisError {
    /// The call was done.
    Ok,
    /// The release or major version is not supported.
    Version,
    /// The callback of an asynchronous call was not registered.
    Init,
    /// The deadline was reached.
    Timeout,
    /// Another call holds what this one needs.
    TryAgain,
    /// An argument breaks a rule.
    InvalidParam,
    /// Memory was refused.
    NoMemory,
    /// The handle stands for nothing.
    BadHandle,
    /// The handle was not opened for this.
    Access,
    /// What is named is not there.
    NotExist,
    /// It is there already.
    Exist,
    /// The sections would outgrow what was declared.
    NoSpace,
    /// A limit of the service is reached.
    NoResources,
    /// The call does not fit this checkpoint.
    BadOperation,
    /// The flags are empty or have an unknown bit.
    BadFlags,
    /// The iteration has no section left.
    NoSections,
}

impl AisError {
    /// The standard's number.
    pub fn code(self) -> u32
        ensures { result ≡ code_of self }
    {
        match self {
            AisError::Ok => 1,
            AisError::Version => 3,
            AisError::Init => 4,
            AisError::Timeout => 5,
            AisError::TryAgain => 6,
            AisError::InvalidParam => 7,
            AisError::NoMemory => 8,
            AisError::BadHandle => 9,
            AisError::Access => 11,
            AisError::NotExist => 12,
            AisError::Exist => 14,
            AisError::NoSpace => 15,
            AisError::NoResources => 18,
            AisError::BadOperation => 20,
            AisError::BadFlags => 25,
            AisError::NoSections => 27,
        }
    }

    /// The standard's word, without its prefix `SA_AIS_` or `SA_AIS_ERR_`.
    pub fn word(self) -> &'static str
        ensures { result.now ≡ error_text self }
    {
        match self {
            AisError::Ok => "OK",
            AisError::Version => "VERSION",
            AisError::Init => "INIT",
            AisError::Timeout => "TIMEOUT",
            AisError::TryAgain => "TRY_AGAIN",
            AisError::InvalidParam => "INVALID_PARAM",
            AisError::NoMemory => "NO_MEMORY",
            AisError::BadHandle => "BAD_HANDLE",
            AisError::Access => "ACCESS",
            AisError::NotExist => "NOT_EXIST",
            AisError::Exist => "EXIST",
            AisError::NoSpace => "NO_SPACE",
            AisError::NoResources => "NO_RESOURCES",
            AisError::BadOperation => "BAD_OPERATION",
            AisError::BadFlags => "BAD_FLAGS",
            AisError::NoSections => "NO_SECTIONS",
        }
    }
}
