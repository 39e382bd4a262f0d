//! The result line of a call that has ended.
ghost use Rattle.std.specs.Prelude.{◌≡◌, ◌+◌, ◌≤◌, ◌++◌, OnOk, Some, codes, decimal, vec_len, vec_capacity};
ghost use Rattle.std.specs.List.{flat_map};
ghost use Rattle.ckpt_types.specs.OpWord.{op_text};
ghost use Rattle.ckpt_types.specs.Spelling.{time_text};
ghost use Rattle.run_labels.specs.Outcomes.{spoken_text, cause_text, told_version, piece_text, facts_text, section_text, attributes_text, status_text, details_text, answer_text, answered_text, refused_text, head_text, result_line, end_text, stepped_end_text};

use crate::fronts::{
    FRONT_ROOM, LONG_NUMBER, push_call, push_ok, push_read, push_word, push_write,
};
use crate::texts::{
    append_call, append_ckpt, append_line_end, append_number, append_of_call, append_spaced,
    append_spaced_bytes, append_spaced_state, append_spaced_time, append_text,
};
use ckpt_types::{
    AisError, Answer, CallId, Cause, CheckpointDescriptor, CreationAttributes, MAJOR_MAX,
    MINOR_ANSWERED, OpWord, Outcome, Pieces, RELEASE, SectionDescriptor,
};
use node_msgs::Details;
use std::alloc::AllocError;

/// The result line of a call that ended by a step.
#[inline(always)]
pub(crate) fn append_stepped_end(
    out: &mut Vec<u8>,
    call: &CallId,
    op: OpWord,
    end: &Option<Outcome>,
    details: &Details,
) -> Result<(), AllocError>
    ensures { OnOk result (out.new.items ≡ out.old.items ++ stepped_end_text call.now op end.now details.now) }
{
    if op.is_async() {
        return Ok(());
    }
    append_end(out, call, op, end, details)
}

/// The result line, where the call has ended.
#[inline(always)]
fn append_end(
    out: &mut Vec<u8>,
    call: &CallId,
    op: OpWord,
    end: &Option<Outcome>,
    details: &Details,
) -> Result<(), AllocError>
    ensures { OnOk result (out.new.items ≡ out.old.items ++ end_text call.now op end.now details.now) }
{
    match end {
        None => Ok(()),
        Some(outcome) => append_result(out, call, op, outcome, details),
    }
}

/// The result line of a call that ended when it began, where it did.
#[inline(always)]
pub(crate) fn append_begun_end(
    out: &mut Vec<u8>,
    call: &CallId,
    op: OpWord,
    end: &Option<Outcome>,
    details: &Details,
) -> Result<(), AllocError>
    ensures { OnOk result (out.new.items ≡ out.old.items ++ end_text call.now op end.now details.now) }
{
    match end {
        None => Ok(()),
        Some(outcome) => append_begun_result(out, call, op, outcome, details),
    }
}

/// Few calls end when they begin, so this stands apart.
#[inline(never)]
fn append_begun_result(
    out: &mut Vec<u8>,
    call: &CallId,
    op: OpWord,
    outcome: &Outcome,
    details: &Details,
) -> Result<(), AllocError>
    ensures { OnOk result (out.new.items ≡ out.old.items ++ result_line call.now op outcome.now details.now) }
{
    append_result(out, call, op, outcome, details)
}

/// The result line of a call that ended.
#[inline(always)]
fn append_result(
    out: &mut Vec<u8>,
    call: &CallId,
    op: OpWord,
    outcome: &Outcome,
    details: &Details,
) -> Result<(), AllocError>
    ensures { OnOk result (out.new.items ≡ out.old.items ++ result_line call.now op outcome.now details.now) }
{
    match outcome {
        Outcome::Done(answer) => append_done(out, call, op, answer, details),
        Outcome::Refused(error, cause) => append_refusal(out, call, op, *error, cause),
        Outcome::NoMemory => append_refusal(out, call, op, AisError::NoMemory, &Cause::Plain),
        Outcome::Abandoned | Outcome::Busy | Outcome::Astray => Ok(()),
    }
}

/// The result line of a call that was done.
#[inline(always)]
fn append_done(
    out: &mut Vec<u8>,
    call: &CallId,
    op: OpWord,
    answer: &Answer,
    details: &Details,
) -> Result<(), AllocError>
    ensures { OnOk result (out.new.items ≡ out.old.items ++ (head_text call.now op ++ answered_text answer.now details.now)) }
{
    if call.number >= LONG_NUMBER {
        append_head(out, call, op)?;
        return append_answered(out, answer, details);
    }
    out.reserve(FRONT_ROOM)?;
    push_call(out, call);
    match op {
        OpWord::Write => {
            push_write(out);
            push_answered(out, answer, details)
        }
        OpWord::Read => {
            push_read(out);
            push_answered(out, answer, details)
        }
        _ => {
            push_word(out, op);
            append_answered(out, answer, details)
        }
    }
}

/// The answer of a call that was done, to the end of the line.
#[inline(never)]
pub(crate) fn append_answered(
    out: &mut Vec<u8>,
    answer: &Answer,
    details: &Details,
) -> Result<(), AllocError>
    ensures { OnOk result (out.new.items ≡ out.old.items ++ answered_text answer.now details.now) }
{
    append_text(out, " OK")?;
    append_answer(out, answer, details)?;
    append_line_end(out)
}

/// The same, where there is room for an answer that tells nothing.
#[inline(always)]
fn push_answered(out: &mut Vec<u8>, answer: &Answer, details: &Details) -> Result<(), AllocError>
    requires { vec_len out.old + 4 ≤ vec_capacity out.old }
    ensures { OnOk result (out.new.items ≡ out.old.items ++ answered_text answer.now details.now) }
{
    push_ok(out);
    if let Answer::Nothing = answer {
        out.push_reserved(b'\n');
        return Ok(());
    }
    append_answer(out, answer, details)?;
    append_line_end(out)
}

/// The result line of a call that was refused.
#[inline(never)]
fn append_refusal(
    out: &mut Vec<u8>,
    call: &CallId,
    op: OpWord,
    error: AisError,
    cause: &Cause,
) -> Result<(), AllocError>
    ensures { OnOk result (out.new.items ≡ out.old.items ++ (head_text call.now op ++ refused_text error cause.now)) }
{
    append_head(out, call, op)?;
    append_refused(out, error, cause)
}

/// That a call was refused, and why, to the end of the line.
#[inline(always)]
pub(crate) fn append_refused(
    out: &mut Vec<u8>,
    error: AisError,
    cause: &Cause,
) -> Result<(), AllocError>
    ensures { OnOk result (out.new.items ≡ out.old.items ++ refused_text error cause.now) }
{
    append_text(out, " ")?;
    append_text(out, error.word())?;
    append_told_version(out, error)?;
    append_cause(out, *cause)?;
    append_text(out, "\n")
}

/// The call and its first word.
#[inline(always)]
fn append_head(out: &mut Vec<u8>, call: &CallId, op: OpWord) -> Result<(), AllocError>
    ensures { OnOk result (out.new.items ≡ out.old.items ++ head_text call.now op) }
{
    append_call(out, *call)?;
    append_word(out, op)
}

/// A space and the first word of a line.
fn append_word(out: &mut Vec<u8>, op: OpWord) -> Result<(), AllocError>
    ensures { OnOk result (out.new.items ≡ out.old.items ++ codes " " ++ op_text op) }
{
    append_text(out, " ")?;
    append_text(out, op.word())
}

/// The details of an answer.
fn append_answer(out: &mut Vec<u8>, answer: &Answer, details: &Details) -> Result<(), AllocError>
    ensures { OnOk result (out.new.items ≡ out.old.items ++ answer_text answer.now details.now) }
{
    match answer {
        Answer::Nothing => Ok(()),
        Answer::Version => append_version(out),
        Answer::Opened(ckpt) => {
            append_text(out, " ")?;
            append_ckpt(out, *ckpt)
        }
        Answer::Created | Answer::Pieces | Answer::Section | Answer::Status => {
            append_details(out, details)
        }
        Answer::Pulled(count) => append_spaced(out, *count),
        Answer::Dispatched(given) => {
            append_spaced(out, u64::from(given.given))?;
            append_spaced(out, u64::from(given.left))
        }
    }
}

/// What is told beside an answer. Callbacks have lines of their own.
fn append_details(out: &mut Vec<u8>, details: &Details) -> Result<(), AllocError>
    ensures { OnOk result (out.new.items ≡ out.old.items ++ details_text details.now) }
{
    match details {
        Details::Nothing | Details::Callbacks(_) => Ok(()),
        Details::Pieces(pieces) => append_each_piece(out, pieces),
        Details::Section(section) => append_section(out, section.value()),
        Details::Status(status) => append_status(out, status.value()),
    }
}

/// Each piece in order.
fn append_each_piece(out: &mut Vec<u8>, pieces: &Pieces) -> Result<(), AllocError>
    ensures { OnOk result (out.new.items ≡ out.old.items ++ flat_map piece_text pieces.now) }
{
    for place in 0..pieces.len() {
        append_spaced_bytes(out, pieces.piece(place))?;
    }
    Ok(())
}

/// What an iteration tells of a section.
fn append_section(out: &mut Vec<u8>, section: &SectionDescriptor) -> Result<(), AllocError>
    ensures { OnOk result (out.new.items ≡ out.old.items ++ section_text section.now) }
{
    append_spaced_bytes(out, section.id.as_slice())?;
    append_facts(out, section)
}

/// What it tells of a section beside its identifier.
fn append_facts(out: &mut Vec<u8>, section: &SectionDescriptor) -> Result<(), AllocError>
    ensures { OnOk result (out.new.items ≡ out.old.items ++ facts_text section.now) }
{
    append_spaced_time(out, section.expiration)?;
    append_spaced(out, section.size)?;
    append_spaced_state(out, section.state)?;
    append_spaced_time(out, section.last_update)
}

/// The status of a checkpoint.
fn append_status(out: &mut Vec<u8>, status: &CheckpointDescriptor) -> Result<(), AllocError>
    ensures { OnOk result (out.new.items ≡ out.old.items ++ status_text status.now) }
{
    append_attributes(out, &status.attributes)?;
    append_spaced(out, u64::from(status.number_of_sections))?;
    append_spaced(out, status.memory_used)
}

/// What a checkpoint is declared to have.
fn append_attributes(out: &mut Vec<u8>, attributes: &CreationAttributes) -> Result<(), AllocError>
    ensures { OnOk result (out.new.items ≡ out.old.items ++ attributes_text attributes.now) }
{
    append_spaced(out, u64::from(attributes.creation_flags))?;
    append_spaced(out, attributes.checkpoint_size)?;
    append_spaced_time(out, attributes.retention_duration)?;
    append_spaced(out, u64::from(attributes.max_sections))?;
    append_spaced(out, attributes.max_section_size)?;
    append_spaced(out, attributes.max_section_id_size)
}

/// The version that the service speaks, behind a refusal of another one.
#[tactic(auto, unfolding(crate::specs::Outcomes::told_version))]
fn append_told_version(out: &mut Vec<u8>, error: AisError) -> Result<(), AllocError>
    ensures { OnOk result (out.new.items ≡ out.old.items ++ told_version error) }
{
    match error {
        AisError::Version => append_version(out),
        _ => Ok(()),
    }
}

/// The version that the service speaks.
#[tactic(auto, unfolding(crate::specs::Outcomes::spoken_text))]
fn append_version(out: &mut Vec<u8>) -> Result<(), AllocError>
    ensures { OnOk result (out.new.items ≡ out.old.items ++ spoken_text) }
{
    append_text(out, " ")?;
    out.push(RELEASE)?;
    append_text(out, ".")?;
    append_number(out, u64::from(MAJOR_MAX))?;
    append_text(out, ".")?;
    append_number(out, u64::from(MINOR_ANSWERED))
}

/// What shows that a refusal is right.
fn append_cause(out: &mut Vec<u8>, cause: Cause) -> Result<(), AllocError>
    ensures { OnOk result (out.new.items ≡ out.old.items ++ cause_text cause) }
{
    match cause {
        Cause::Plain => Ok(()),
        Cause::Index(index) => append_spaced(out, u64::from(index)),
        Cause::Holder(call) => append_of_call(out, " ", call),
        Cause::Generations(known, present) => {
            append_spaced(out, known)?;
            append_spaced(out, present)
        }
        Cause::Deadline(deadline, moment) => {
            append_spaced_time(out, deadline)?;
            append_spaced_time(out, moment)
        }
        Cause::Count(count) => append_spaced(out, u64::from(count)),
    }
}
