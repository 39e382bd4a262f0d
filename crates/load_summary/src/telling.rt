//! The text of a summary.
ghost use Rattle.std.specs.Prelude.{◌≡◌, ◌++◌, IfOk, OnOk, length, flat_map, slice_index};
ghost use Rattle.ckpt_types.specs.AisError.{code_of};
ghost use Rattle.load_summary.specs.Summary.{code_line, count_line, summary as spec_summary};

use crate::counting::{NUMBERS, count_labels};
use ckpt_types::{AisError, Bytes};
use itoa::Buffer;
use run_labels::RunLog;
use std::alloc::{AllocError, Global};

/// The codes that the service answers, by their numbers in the standard.
const CODES: [AisError; 16] = [
    AisError::Ok,
    AisError::Version,
    AisError::Init,
    AisError::Timeout,
    AisError::TryAgain,
    AisError::InvalidParam,
    AisError::NoMemory,
    AisError::BadHandle,
    AisError::Access,
    AisError::NotExist,
    AisError::Exist,
    AisError::NoSpace,
    AisError::NoResources,
    AisError::BadOperation,
    AisError::BadFlags,
    AisError::NoSections,
];

/// The summary of a run: how many calls ended, how many with each code, and in how many steps. Its only error is want
/// of memory.
pub fn summary(alloc: Global, log: &RunLog) -> Result<Bytes, AllocError>
    ensures { IfOk result (λ text. text ≡ spec_summary log.now.labels) }
{
    let mut by_code = [0; NUMBERS];
    let totals = count_labels(log.as_slice(), &mut by_code);
    let mut out = Vec::new(alloc);
    append_count(&mut out, "calls", totals.calls)?;
    append_codes(&mut out, &CODES, &by_code)?;
    append_count(&mut out, "steps", totals.steps)?;
    Ok(Bytes::from_vec(out))
}

/// Adds the lines of these codes, of which each has its count at the place of its number.
#[tactic(auto, using(crate::proofs::Codes::small_code))]
fn append_codes(out: &mut Vec<u8>, codes: &[AisError], by_code: &[u64]) -> Result<(), AllocError>
    requires { length by_code.now ≡ 28 }
    ensures { OnOk result (out.new.items ≡ out.old.items ++ flat_map (λ error. code_line error (slice_index by_code.now (code_of error))) codes.now) }
{
    for error in codes {
        append_code(out, *error, by_code[error.code() as usize])?;
    }
    Ok(())
}

/// Adds the line of a code, where some call ended with it.
fn append_code(out: &mut Vec<u8>, error: AisError, count: u64) -> Result<(), AllocError>
    ensures { OnOk result (out.new.items ≡ out.old.items ++ code_line error count) }
{
    if count == 0 {
        return Ok(());
    }
    append_count(out, error.word(), count)
}

/// Adds a word and a number, on a line.
fn append_count(out: &mut Vec<u8>, word: &str, count: u64) -> Result<(), AllocError>
    ensures { OnOk result (out.new.items ≡ out.old.items ++ count_line word.now count) }
{
    out.extend_from_slice(word.as_bytes())?;
    out.extend_from_slice(b" ")?;
    out.extend_from_slice(Buffer::new().format(count).as_bytes())?;
    out.extend_from_slice(b"\n")
}
