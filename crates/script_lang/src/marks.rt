//! What the lines so far tell of the next: which may come, and how much is left of each limit.
ghost use Rattle.std.specs.Prelude.{◌≡◌, ◌<◌, ◌≤◌, ◌+◌, OnOk, IfErr, IfSome, IfNone, IfOk, Some, None, false, sum_by};
ghost use Rattle.ckpt_types.specs.Limits.{block_lines_max, script_shows_max};
ghost use Rattle.script_lang.specs.Grammar.{fault_after, marks_after, IsSmall, is_nodes, is_end, is_show, is_race as spec_is_race, goes_back, may_race_op as spec_may_race_op, may_race as spec_may_race, breaks_block, asked_in, moment_behind, block_after, block_size, shows_after};

use ckpt_types::{BLOCK_LINES_MAX, Moment, Op, ReadElement, SCRIPT_READS_MAX, SCRIPT_SHOWS_MAX};
use script_lines::Line;
use script_words::Reason;

/// What the lines of a script so far tell of themselves.
#[derive(Clone, Copy)]
pub(crate) struct Marks {
    /// There are none.
    pub none: bool,
    /// The moment that holds.
    pub moment: Moment,
    /// The number of lines in the block that is open.
    pub block: Option<u32>,
    /// How many bytes the reads ask for together.
    pub asked: u64,
    /// How many lines print replicas.
    pub shows: u32,
}

/// The fault of the line behind such lines, or what they tell with it.
#[inline(always)]
#[tactic(auto, unfolding(crate::specs::Grammar::fault_after, crate::specs::Grammar::order_fault, crate::specs::Grammar::limit_fault, crate::specs::Grammar::marks_after))]
pub fn next_marks(marks: Marks, line: &Line) -> Result<Marks, Reason>
    requires { IsSmall marks }
    ensures value { IfOk result (λ m. m ≡ marks_after line.now marks) }
    ensures ok { OnOk result (fault_after marks line.now ≡ None) }
    ensures small { IfOk result (λ m. IsSmall m) }
    ensures err { IfErr result (λ r. fault_after marks line.now ≡ Some r) }
{
    if marks.none != is_nodes_line(line) {
        return Err(Reason::Nodes);
    }
    if falls(line, marks.moment) {
        return Err(Reason::Moment);
    }
    if breaks(line, marks.block) {
        return Err(Reason::Race);
    }
    let Some(left) = room_after(line, SCRIPT_READS_MAX - marks.asked) else {
        return Err(Reason::Reads);
    };
    if is_show_line(line) && SCRIPT_SHOWS_MAX <= marks.shows {
        return Err(Reason::Shows);
    }
    Ok(Marks {
        none: false,
        moment: now_after(line, marks.moment),
        block: block_behind(line, marks.block),
        asked: SCRIPT_READS_MAX - left,
        shows: shows_behind(line, marks.shows),
    })
}

/// Whether a block begins with this line.
pub fn is_race(line: &Line) -> bool
    ensures { result ≡ spec_is_race line.now }
{
    matches!(line, Line::Race)
}

fn is_nodes_line(line: &Line) -> bool
    ensures { result ≡ is_nodes line.now }
{
    matches!(line, Line::Nodes(_))
}

fn is_end_line(line: &Line) -> bool
    ensures { result ≡ is_end line.now }
{
    matches!(line, Line::End)
}

fn is_show_line(line: &Line) -> bool
    ensures { result ≡ is_show line.now }
{
    matches!(line, Line::Show(_))
}

// Whether the moment would fall.
#[inline(always)]
fn falls(line: &Line, now: Moment) -> bool
    ensures { result ≡ goes_back line.now now }
{
    match line {
        Line::At(moment) => *moment < now,
        _ => false,
    }
}

// Whether the line may not stand where it does: in the block, or where none is open.
#[inline(always)]
fn breaks(line: &Line, block: Option<u32>) -> bool
    ensures { result ≡ breaks_block line.now block }
{
    match block {
        None => is_end_line(line),
        Some(n) => !may_race(line) || BLOCK_LINES_MAX <= n && !is_end_line(line),
    }
}

// Whether the line may stand in a block, or ends it.
#[inline(always)]
fn may_race(line: &Line) -> bool
    ensures { result ≡ spec_may_race line.now }
{
    match line {
        Line::Call(_, op) => may_race_op(op),
        Line::Fail(_) => true,
        Line::End => true,
        _ => false,
    }
}

fn may_race_op(op: &Op) -> bool
    ensures { result ≡ spec_may_race_op op.now }
{
    match op {
        Op::Client(_, _, _) => false,
        Op::Finalize => false,
        Op::OpenAsync(_, _, _, _, _) => false,
        Op::SyncAsync(_, _) => false,
        Op::Dispatch(_) => false,
        _ => true,
    }
}

// What is left of the room behind the line.
#[inline(always)]
fn room_after(line: &Line, room: u64) -> Option<u64>
    ensures some { IfSome result (λ left. left + asked_in line.now ≡ room) }
    ensures none { IfNone result (room < asked_in line.now) }
{
    match line {
        Line::Call(_, op) | Line::Begin(_, op) => match op {
            Op::Read(_, elements) => room_behind(elements.value().as_slice(), room),
            _ => Some(room),
        },
        _ => Some(room),
    }
}

// What is left of the room behind these reads.
#[inline(always)]
fn room_behind(elements: &[ReadElement], room: u64) -> Option<u64>
    ensures some { IfSome result (λ left. left + sum_by (λ e. e.len) elements.now ≡ room) }
    ensures none { IfNone result (room < sum_by (λ e. e.len) elements.now) }
{
    let mut left = room;
    for element in elements {
        left = left.checked_sub(element.len)?;
    }
    Some(left)
}

fn now_after(line: &Line, now: Moment) -> Moment
    ensures { result ≡ moment_behind now line.now }
{
    match line {
        Line::At(moment) => *moment,
        _ => now,
    }
}

fn block_behind(line: &Line, block: Option<u32>) -> Option<u32>
    requires { block_size block ≤ block_lines_max }
    ensures value { result ≡ block_after line.now block }
    ensures small { breaks_block line.now block ≡ false → block_size result ≤ block_lines_max }
{
    match line {
        Line::Race => Some(0),
        Line::End => None,
        _ => match block {
            None => None,
            Some(n) => Some(n + 1),
        },
    }
}

fn shows_behind(line: &Line, shows: u32) -> u32
    requires { shows ≤ script_shows_max }
    ensures { result ≡ shows_after line.now shows }
{
    if is_show_line(line) { shows + 1 } else { shows }
}
