//! Whether two steps, or what answered two lines, are the same.
ghost use Rattle.std.specs.Prelude.{◌≡◌, Decides};
ghost use Rattle.run_labels.specs.declared.words.LineWord.TheVariants as words;
ghost use Rattle.same_labels.specs.Numbers.{number_of_op_word, number_of_verb};

use node_msgs::{StepReply, Verb};
use run_labels::{LineWord, OpWord, PullReply, PutReply, Said};

/// Whether both steps do the same.
pub(crate) fn same_verb(one: Verb, other: Verb) -> bool
    ensures { Decides result (one ≡ other) }
{
    verb_number(one) == verb_number(other)
}

fn verb_number(verb: Verb) -> u8
    ensures { result ≡ number_of_verb verb }
{
    match verb {
        Verb::Enter => 0,
        Verb::Leave => 1,
        Verb::Open => 2,
        Verb::Create => 3,
        Verb::Reserve => 4,
        Verb::Finish => 5,
        Verb::Undo => 6,
        Verb::Close => 7,
        Verb::Unlink => 8,
        Verb::Retain => 9,
        Verb::Read => 10,
        Verb::Status => 11,
        Verb::Iter => 12,
        Verb::Next => 13,
        Verb::Stage => 14,
        Verb::Commit => 15,
        Verb::Claim => 16,
        Verb::Withdraw => 17,
        Verb::Apply => 18,
        Verb::Mark => 19,
        Verb::Element => 20,
        Verb::Unmark => 21,
        Verb::Pull => 22,
        Verb::Install => 23,
        Verb::Hold => 24,
        Verb::Activate => 25,
        Verb::Complete => 26,
        Verb::Look => 27,
    }
}

/// Whether both words are the same.
pub(crate) fn same_op_word(one: OpWord, other: OpWord) -> bool
    ensures { Decides result (one ≡ other) }
{
    op_word_number(one) == op_word_number(other)
}

fn op_word_number(word: OpWord) -> u8
    ensures { result ≡ number_of_op_word word }
{
    match word {
        OpWord::Client => 0,
        OpWord::Finalize => 1,
        OpWord::Open => 2,
        OpWord::OpenAsync => 3,
        OpWord::Close => 4,
        OpWord::Unlink => 5,
        OpWord::Retain => 6,
        OpWord::Active => 7,
        OpWord::Status => 8,
        OpWord::Create => 9,
        OpWord::Delete => 10,
        OpWord::Expire => 11,
        OpWord::Iter => 12,
        OpWord::Next => 13,
        OpWord::EndIter => 14,
        OpWord::Write => 15,
        OpWord::Over => 16,
        OpWord::Read => 17,
        OpWord::Sync => 18,
        OpWord::SyncAsync => 19,
        OpWord::Dispatch => 20,
        OpWord::Copy => 21,
    }
}

/// Whether both replies are the same.
pub(crate) fn same_reply(one: StepReply, other: StepReply) -> bool
    ensures { Decides result (one ≡ other) }
{
    match other {
        StepReply::Ok => matches!(one, StepReply::Ok),
        StepReply::Done => matches!(one, StepReply::Done),
        StepReply::Held(call) => matches!(one, StepReply::Held(by) if by == call),
        StepReply::Free(count) => matches!(one, StepReply::Free(other) if other == count),
        StepReply::Refused => matches!(one, StepReply::Refused),
        StepReply::Older => matches!(one, StepReply::Older),
        StepReply::Memory => matches!(one, StepReply::Memory),
    }
}

/// Whether both `pull` lines were answered alike.
pub(crate) fn same_pull(one: PullReply, other: PullReply) -> bool
    ensures { Decides result (one ≡ other) }
{
    match other {
        PullReply::Ok(count) => matches!(one, PullReply::Ok(other) if other == count),
        PullReply::Held(call) => matches!(one, PullReply::Held(by) if by == call),
        PullReply::Nothing => matches!(one, PullReply::Nothing),
    }
}

/// Whether both `put` lines were answered alike.
pub(crate) fn same_put(one: PutReply, other: PutReply) -> bool
    ensures { Decides result (one ≡ other) }
{
    match other {
        PutReply::Ok(count) => matches!(one, PutReply::Ok(other) if other == count),
        PutReply::Nothing => matches!(one, PutReply::Nothing),
        PutReply::Stale(generation, present) => {
            matches!(one, PutReply::Stale(a, b) if a == generation && b == present)
        }
        PutReply::Old(generation, count) => {
            matches!(one, PutReply::Old(a, b) if a == generation && b == count)
        }
    }
}

/// Whether the same lines are answered.
pub(crate) fn same_line_word(one: LineWord, other: LineWord) -> bool
    ensures { Decides result (one ≡ other) }
{
    match other {
        LineWord::Op(word) => is_op_word(one, word),
        LineWord::Step => matches!(one, LineWord::Step),
        LineWord::Finish => matches!(one, LineWord::Finish),
    }
}

fn is_op_word(line: LineWord, word: OpWord) -> bool
    ensures { Decides result (line ≡ words.Op word) }
{
    match line {
        LineWord::Op(other) => same_op_word(other, word),
        _ => false,
    }
}

/// Whether the same is said.
pub(crate) fn same_said(one: Said, other: Said) -> bool
    ensures { Decides result (one ≡ other) }
{
    match other {
        Said::Busy => matches!(one, Said::Busy),
        Said::Idle => matches!(one, Said::Idle),
        Said::Live => matches!(one, Said::Live),
        Said::Down => matches!(one, Said::Down),
    }
}
