//! The labels of a run are counted.
ghost use Rattle.std.specs.Prelude.{◌≡◌, ◌<◌, ◌-◌, ◌^◌, Some, cond, is_some, length, count_by, replicate, slice_index};
ghost use Rattle.ckpt_types.specs.AisError.{code_of};
ghost use Rattle.load_summary.specs.Counts.{CountsCodes, counted_in};
ghost use Rattle.load_summary.specs.Summary.{end_code as spec_end_code, ends_call, is_step, label_code as spec_label_code, outcome_code as spec_outcome_code};

use ckpt_types::{AisError, Outcome};
use run_labels::Label;

/// One more than the greatest number of a code.
pub const NUMBERS: usize = 28;

/// How many calls ended, and how many steps there were.
#[derive(Clone, Copy)]
pub struct Totals {
    /// The labels that end a call with some code.
    pub calls: u64,
    /// The labels of steps.
    pub steps: u64,
}

/// Counts the labels, and those of each code at the place of its number.
pub fn count_labels(labels: &[Label], by_code: &mut [u64]) -> Totals
    requires { by_code.old ≡ replicate 28 0 }
    ensures calls { result.calls ≡ count_by ends_call labels.now }
    ensures steps { result.steps ≡ count_by is_step labels.now }
    ensures codes { CountsCodes labels.now by_code.new }
{
    let mut calls = 0;
    let mut steps = 0;
    for label in labels {
        calls += count_end(by_code, label);
        steps += count_step(label);
    }
    Totals { calls, steps }
}

/// Counts the code with which a call ended by the label, where one did: 1, or 0.
fn count_end(by_code: &mut [u64], label: &Label) -> u64
    requires length { length by_code.old ≡ 28 }
    requires room { (error : AisError) → slice_index by_code.old (code_of error) < 2 ^ 64 - 1 }
    ensures ends { result ≡ cond (ends_call label.now) 1 0 }
    ensures counted { by_code.new ≡ counted_in by_code.old (spec_label_code label.now) }
{
    match label_code(label) {
        None => 0,
        Some(error) => count_code(by_code, error),
    }
}

/// Counts a code.
#[tactic(auto, using(crate::proofs::Codes::small_code))]
fn count_code(by_code: &mut [u64], error: AisError) -> u64
    requires length { length by_code.old ≡ 28 }
    requires room { slice_index by_code.old (code_of error) < 2 ^ 64 - 1 }
    ensures one { result ≡ 1 }
    ensures counted { by_code.new ≡ counted_in by_code.old (Some error) }
{
    by_code[error.code() as usize] += 1;
    1
}

/// Counts the label where it is of a step: 1, or 0.
fn count_step(label: &Label) -> u64
    ensures { result ≡ cond (is_step label.now) 1 0 }
{
    match label {
        Label::Stepped { .. } => 1,
        _ => 0,
    }
}

/// The code with which a call ended by the label, where one did.
fn label_code(label: &Label) -> Option<AisError>
    ensures { result ≡ spec_label_code label.now }
{
    match label {
        Label::Began { end, .. } => end_code(end),
        Label::Stepped { end, .. } => end_code(end),
        _ => None,
    }
}

/// The code with which a call ended, if it has.
fn end_code(end: &Option<Outcome>) -> Option<AisError>
    ensures { result ≡ spec_end_code end.now }
{
    match end {
        None => None,
        Some(outcome) => outcome_code(outcome),
    }
}

/// The code of an outcome, where it has one.
fn outcome_code(outcome: &Outcome) -> Option<AisError>
    ensures { result ≡ spec_outcome_code outcome.now }
{
    match outcome {
        Outcome::Done(_) => Some(AisError::Ok),
        Outcome::Refused(error, _) => Some(*error),
        Outcome::NoMemory => Some(AisError::NoMemory),
        Outcome::Abandoned => None,
        Outcome::Busy => None,
        Outcome::Astray => None,
    }
}
