//! Whether two calls ended in the same way.
ghost use Rattle.std.specs.Prelude.{◌≡◌, Decides, Some};
ghost use Rattle.ckpt_types.specs.declared.answers.Answer.TheVariants as answers;
ghost use Rattle.ckpt_types.specs.declared.answers.Outcome.TheVariants as outcomes;

use ckpt_types::{AisError, Answer, Cause, Given, Outcome};

/// Whether both ends are the same, or neither has ended.
pub(crate) fn same_end(one: &Option<Outcome>, other: &Option<Outcome>) -> bool
    ensures { Decides result (one.now ≡ other.now) }
{
    match one {
        None => other.is_none(),
        Some(outcome) => ended_so(other, outcome),
    }
}

fn ended_so(end: &Option<Outcome>, outcome: &Outcome) -> bool
    ensures { Decides result (end.now ≡ Some outcome.now) }
{
    match end {
        None => false,
        Some(other) => same_outcome(other, outcome),
    }
}

/// Whether both outcomes are the same.
pub(crate) fn same_outcome(one: &Outcome, other: &Outcome) -> bool
    ensures { Decides result (one.now ≡ other.now) }
{
    match other {
        Outcome::Done(answer) => is_done(one, answer),
        Outcome::Refused(error, cause) => is_refused(one, *error, cause),
        Outcome::NoMemory => matches!(one, Outcome::NoMemory),
        Outcome::Abandoned => matches!(one, Outcome::Abandoned),
        Outcome::Busy => matches!(one, Outcome::Busy),
        Outcome::Astray => matches!(one, Outcome::Astray),
    }
}

fn is_done(outcome: &Outcome, answer: &Answer) -> bool
    ensures { Decides result (outcome.now ≡ outcomes.Done answer.now) }
{
    match outcome {
        Outcome::Done(other) => same_answer(other, answer),
        _ => false,
    }
}

fn is_refused(outcome: &Outcome, error: AisError, cause: &Cause) -> bool
    ensures { Decides result (outcome.now ≡ outcomes.Refused error cause.now) }
{
    let Outcome::Refused(other, why) = outcome else {
        return false;
    };
    if *other != error {
        return false;
    }
    same_cause(why, cause)
}

fn same_cause(one: &Cause, other: &Cause) -> bool
    ensures { Decides result (one.now ≡ other.now) }
{
    match other {
        Cause::Plain => matches!(one, Cause::Plain),
        Cause::Index(index) => matches!(one, Cause::Index(other) if *other == *index),
        Cause::Holder(call) => matches!(one, Cause::Holder(other) if *other == *call),
        Cause::Generations(known, present) => {
            matches!(one, Cause::Generations(a, b) if *a == *known && *b == *present)
        }
        Cause::Deadline(deadline, moment) => {
            matches!(one, Cause::Deadline(a, b) if *a == *deadline && *b == *moment)
        }
        Cause::Count(count) => matches!(one, Cause::Count(other) if *other == *count),
    }
}

fn same_answer(one: &Answer, other: &Answer) -> bool
    ensures { Decides result (one.now ≡ other.now) }
{
    match other {
        Answer::Nothing => matches!(one, Answer::Nothing),
        Answer::Version => matches!(one, Answer::Version),
        Answer::Opened(ckpt) => matches!(one, Answer::Opened(other) if *other == *ckpt),
        Answer::Created => matches!(one, Answer::Created),
        Answer::Pieces => matches!(one, Answer::Pieces),
        Answer::Section => matches!(one, Answer::Section),
        Answer::Status => matches!(one, Answer::Status),
        Answer::Pulled(count) => matches!(one, Answer::Pulled(other) if *other == *count),
        Answer::Dispatched(given) => is_dispatched(one, *given),
    }
}

fn is_dispatched(answer: &Answer, given: Given) -> bool
    ensures { Decides result (answer.now ≡ answers.Dispatched given) }
{
    let Answer::Dispatched(other) = answer else {
        return false;
    };
    if other.given != given.given {
        return false;
    }
    other.left == given.left
}
