//! The form of each line that is no call.
ghost use Rattle.std.specs.Prelude.{◌≡◌};
ghost use Rattle.script_words.specs.Reasons.{Reads};
ghost use Rattle.ckpt_types.specs.declared.words.FirstWord.TheVariants as first;
ghost use Rattle.ckpt_types.specs.declared.words.OpWord.TheVariants as calls;
ghost use Rattle.script_lines.specs.Table.{texts, said_by};

use crate::lines::Line;
use ckpt_types::{LINE_STEPS_MAX, NODES_MAX};
use script_words::{LineError, Reason};

/// The line that the words behind `nodes` say.
#[tactic(auto, unfolding(crate::specs::Table::said_by))]
pub fn nodes_line(words: &[&[u8]]) -> Result<Line, LineError>
    ensures { Reads result (said_by first.Nodes (texts words.now)) }
{
    let [count] = words else {
        return Err(LineError::Fault(Reason::Count));
    };
    let count = script_words::number(1, NODES_MAX as u64, count)?;
    Ok(Line::Nodes(count as u8))
}

/// The line that the words behind `step` say.
#[tactic(auto, unfolding(crate::specs::Table::said_by))]
pub fn step_line(words: &[&[u8]]) -> Result<Line, LineError>
    ensures { Reads result (said_by first.Step (texts words.now)) }
{
    let [who, steps] = words else {
        return Err(LineError::Fault(Reason::Count));
    };
    let who = script_words::who(who)?;
    let steps = script_words::number(1, LINE_STEPS_MAX, steps)?;
    Ok(Line::Step(who, steps as u32))
}

/// The line that the words behind `finish` say.
#[tactic(auto, unfolding(crate::specs::Table::said_by))]
pub fn finish_line(words: &[&[u8]]) -> Result<Line, LineError>
    ensures { Reads result (said_by first.Finish (texts words.now)) }
{
    let [who] = words else {
        return Err(LineError::Fault(Reason::Count));
    };
    let who = script_words::who(who)?;
    Ok(Line::Finish(who))
}

/// The line that the words behind `copy` say.
#[tactic(auto, unfolding(crate::specs::Table::said_by))]
pub fn copy_line(words: &[&[u8]]) -> Result<Line, LineError>
    ensures { Reads result (said_by (first.Op calls.Copy) (texts words.now)) }
{
    let [node] = words else {
        return Err(LineError::Fault(Reason::Count));
    };
    let node = script_words::node(node)?;
    Ok(Line::Copy(node))
}

/// The line that the words behind `fail` say.
#[tactic(auto, unfolding(crate::specs::Table::said_by))]
pub fn fail_line(words: &[&[u8]]) -> Result<Line, LineError>
    ensures { Reads result (said_by first.Fail (texts words.now)) }
{
    let [node] = words else {
        return Err(LineError::Fault(Reason::Count));
    };
    let node = script_words::node(node)?;
    Ok(Line::Fail(node))
}

/// The line that the words behind `join` say.
#[tactic(auto, unfolding(crate::specs::Table::said_by))]
pub fn join_line(words: &[&[u8]]) -> Result<Line, LineError>
    ensures { Reads result (said_by first.Join (texts words.now)) }
{
    let [node] = words else {
        return Err(LineError::Fault(Reason::Count));
    };
    let node = script_words::node(node)?;
    Ok(Line::Join(node))
}

/// The line that the words behind `at` say.
#[tactic(auto, unfolding(crate::specs::Table::said_by))]
pub fn at_line(words: &[&[u8]]) -> Result<Line, LineError>
    ensures { Reads result (said_by first.At (texts words.now)) }
{
    let [moment] = words else {
        return Err(LineError::Fault(Reason::Count));
    };
    let moment = script_words::moment(moment)?;
    Ok(Line::At(moment))
}

/// The line that the words behind `pull` say.
#[tactic(auto, unfolding(crate::specs::Table::said_by))]
pub fn pull_line(words: &[&[u8]]) -> Result<Line, LineError>
    ensures { Reads result (said_by first.Pull (texts words.now)) }
{
    let [ckpt] = words else {
        return Err(LineError::Fault(Reason::Count));
    };
    let ckpt = script_words::ckpt(ckpt)?;
    Ok(Line::Pull(ckpt))
}

/// The line that the words behind `put` say.
#[tactic(auto, unfolding(crate::specs::Table::said_by))]
pub fn put_line(words: &[&[u8]]) -> Result<Line, LineError>
    ensures { Reads result (said_by first.Put (texts words.now)) }
{
    let [ckpt, node] = words else {
        return Err(LineError::Fault(Reason::Count));
    };
    let ckpt = script_words::ckpt(ckpt)?;
    let node = script_words::node(node)?;
    Ok(Line::Put(ckpt, node))
}

/// The line that the words behind `propagate` say.
#[tactic(auto, unfolding(crate::specs::Table::said_by))]
pub fn propagate_line(words: &[&[u8]]) -> Result<Line, LineError>
    ensures { Reads result (said_by first.Propagate (texts words.now)) }
{
    let [ckpt] = words else {
        return Err(LineError::Fault(Reason::Count));
    };
    let ckpt = script_words::ckpt(ckpt)?;
    Ok(Line::Propagate(ckpt))
}

/// The line that the words behind `show` say.
#[tactic(auto, unfolding(crate::specs::Table::said_by))]
pub fn show_line(words: &[&[u8]]) -> Result<Line, LineError>
    ensures { Reads result (said_by first.Show (texts words.now)) }
{
    let [ckpt] = words else {
        return Err(LineError::Fault(Reason::Count));
    };
    let ckpt = script_words::ckpt(ckpt)?;
    Ok(Line::Show(ckpt))
}

/// The line that the words behind `race` say.
#[tactic(auto, unfolding(crate::specs::Table::said_by))]
pub fn race_line(words: &[&[u8]]) -> Result<Line, LineError>
    ensures { Reads result (said_by first.Race (texts words.now)) }
{
    if !words.is_empty() {
        return Err(LineError::Fault(Reason::Count));
    }
    Ok(Line::Race)
}

/// The line that the words behind `end` say.
#[tactic(auto, unfolding(crate::specs::Table::said_by))]
pub fn end_line(words: &[&[u8]]) -> Result<Line, LineError>
    ensures { Reads result (said_by first.End (texts words.now)) }
{
    if !words.is_empty() {
        return Err(LineError::Fault(Reason::Count));
    }
    Ok(Line::End)
}
