//! What a call needs, taken before it begins, and handed out step by step.
ghost use Rattle.std.specs.Prelude.{◌≡◌, ◌-◌, ◌∷◌, [], All, None, Some, IfOk, IfSome, IsSome, MatchOption, true, false, if◌then◌else◌, length, nat_lt, replicate, take, vec_len};
ghost use Rattle.ckpt_types.specs.Asks.{elements_of, update_of};
ghost use Rattle.node_core.specs.Lending.{bytes_asked, nothing_lent};
ghost use Rattle.node_core.specs.Payloads.{payload_of};
ghost use Rattle.shared_nodes.specs.Portions.{HasFor, IsLentFor, apply_portion, commit_portion, portion, read_portion, section_portion, status_portion, update_portion};
ghost use Rattle.shared_nodes.specs.Travelling.{payload_kept, travels};
ghost use Rattle.shared_nodes.specs.Works.{commits_max, empty_buffer, longest_id, read_shares_max, update_shares_max, work_alone, IsFurnished};

use crate::kept::Kept;
use ckpt_types::{
    Apart, CheckpointDescriptor, CreationAttributes, DECLARED_ID_MAX, NewId, Op, ReadBuf,
    ReadElement, SectionDescriptor, SectionId, SectionState, SharedReads, SharedUpdate, Update,
};
use node_core::{Lent, bytes_asked};
use node_msgs::Request;
use std::alloc::{AllocError, Global};
use std::marker::Model;

/// How many shares of its update a call takes: for each of its steps one that is lent, and one that is kept beside it.
pub const UPDATE_SHARES_MAX: usize = 1024;

/// How many shares of its elements a read takes: it is one step.
pub const READ_SHARES_MAX: usize = 2;

/// How many commits a call has room for: on each node of what it has staged, and of what another has that is gone.
pub const COMMITS_MAX: usize = 16;

/// What a place for a status has before the status is told.
const NO_STATUS: CheckpointDescriptor = CheckpointDescriptor {
    attributes: CreationAttributes {
        creation_flags: 0,
        checkpoint_size: 0,
        retention_duration: 0,
        max_sections: 0,
        max_section_size: 0,
        max_section_id_size: 0,
    },
    number_of_sections: 0,
    memory_used: 0,
};

/// What a call of an operation needs, but for the room that depends on what its checkpoint declares: with it in hand, no
/// step of the call takes memory for what it lends.
#[derive(Drop)]
pub struct Work {
    /// The operation.
    op: Op,
    /// Shares of its update.
    updates: Vec<SharedUpdate>,
    /// Empty buffers for the identifiers that commits tell.
    ids: Vec<ReadBuf>,
    /// Shares of its elements.
    elements: Vec<SharedReads>,
    /// Empty buffers for what a read gives.
    reads: Vec<ReadBuf>,
    /// Where a status is told.
    status: Option<Apart<CheckpointDescriptor>>,
    /// Where the next section of an iteration is told.
    section: Option<Apart<SectionDescriptor>>,
}

impl Model for Work {
    ghost use Rattle.shared_nodes.specs.Works.{KeptWork};

    ghost Value = { KeptWork };

    ghost use Rattle.shared_nodes.specs.WorkView.{work_shown, IsOfItsOp};

    ghost view = { work_shown };

    ghost invariant = { IsOfItsOp };
}

impl Work {
    /// What a call of this operation needs.
    pub fn of(alloc: Global, op: &Op) -> Result<Work, AllocError>
        ensures op { IfOk result (λ work. work.op ≡ op.now) }
        ensures furnished { IfOk result (IsFurnished op.now) }
    {
        match op {
            Op::Create(_, update)
            | Op::Delete(_, update)
            | Op::Expire(_, update)
            | Op::Write(_, update)
            | Op::Over(_, update) => update_work(alloc, op, update),
            Op::Read(_, elements) => read_work(alloc, op, elements),
            Op::Status(_) => status_work(alloc, op),
            Op::Next(_) => section_work(alloc, op),
            _ => plain_work(alloc, op),
        }
    }

    /// The operation.
    pub fn op(&self) -> &Op
        ensures { result.now ≡ self.now.op }
    {
        &self.op
    }

    /// The operation. The rest of what was taken for the call is given back.
    pub fn into_op(self) -> Op
        ensures { result ≡ self.op }
    {
        let Work { op, .. } = self;
        op
    }

    /// What the call lends to a request, an iteration and a snapshot aside, and what a journal keeps of it, taken out of
    /// what the call has. Where that is less than the request wants, nothing is lent, and all is left.
    pub fn lend(&mut self, request: &Request) -> (Lent, Kept)
        ensures lent { result.0 ≡ (portion request.now self.old).lent }
        ensures beside { result.1 ≡ (portion request.now self.old).kept }
        ensures left { self.new ≡ (portion request.now self.old).left }
        ensures kept { payload_kept result.1 ≡ travels request.now (payload_of result.0) }
        ensures fits { HasFor request.now self.old → IsLentFor self.old.op request.now result.0 }
    {
        match request {
            Request::Stage(_, _, _) | Request::Mark(_, _) => self.lend_update(),
            Request::Apply(_, _) => self.lend_to_apply(),
            Request::Commit(_, _) => self.lend_to_commit(),
            Request::Read(_) => self.lend_to_read(),
            Request::Status(_) => self.lend_status(),
            Request::Next(_, _) => self.lend_section(),
            _ => (Lent::nothing(), Kept::Nothing),
        }
    }

    // To a stage or a weak write: a share of the update.
    fn lend_update(&mut self) -> (Lent, Kept)
        ensures lent { result.0 ≡ (update_portion self.old).lent }
        ensures beside { result.1 ≡ (update_portion self.old).kept }
        ensures left { self.new ≡ (update_portion self.old).left }
    {
        let Some((share, kept)) = take_two(&mut self.updates) else {
            return (Lent::nothing(), Kept::Nothing);
        };
        (lent_of(None, None, Some(share)), Kept::Update(kept))
    }

    // To an update in one step: a share of it, and a buffer for the identifier that it tells.
    fn lend_to_apply(&mut self) -> (Lent, Kept)
        ensures lent { result.0 ≡ (apply_portion self.old).lent }
        ensures beside { result.1 ≡ (apply_portion self.old).kept }
        ensures left { self.new ≡ (apply_portion self.old).left }
    {
        if self.ids.is_empty() {
            return (Lent::nothing(), Kept::Nothing);
        }
        let Some((share, kept)) = take_two(&mut self.updates) else {
            return (Lent::nothing(), Kept::Nothing);
        };
        let read = self.ids.pop();
        (lent_of(read, None, Some(share)), Kept::Update(kept))
    }

    // To a commit: a buffer for the identifier that it tells.
    fn lend_to_commit(&mut self) -> (Lent, Kept)
        ensures lent { result.0 ≡ (commit_portion self.old).lent }
        ensures beside { result.1 ≡ (commit_portion self.old).kept }
        ensures left { self.new ≡ (commit_portion self.old).left }
    {
        let read = self.ids.pop();
        (lent_of(read, None, None), Kept::Nothing)
    }

    // To a read: a share of its elements, and a buffer for what they give.
    fn lend_to_read(&mut self) -> (Lent, Kept)
        ensures lent { result.0 ≡ (read_portion self.old).lent }
        ensures beside { result.1 ≡ (read_portion self.old).kept }
        ensures left { self.new ≡ (read_portion self.old).left }
    {
        if self.reads.is_empty() {
            return (Lent::nothing(), Kept::Nothing);
        }
        let Some((share, kept)) = take_two(&mut self.elements) else {
            return (Lent::nothing(), Kept::Nothing);
        };
        let read = self.reads.pop();
        (lent_of(read, Some(share), None), Kept::Elements(kept))
    }

    // To a status: the place for it.
    fn lend_status(&mut self) -> (Lent, Kept)
        ensures lent { result.0 ≡ (status_portion self.old).lent }
        ensures beside { result.1 ≡ (status_portion self.old).kept }
        ensures left { self.new ≡ (status_portion self.old).left }
    {
        let mut lent = Lent::nothing();
        lent.status = self.status.take();
        (lent, Kept::Nothing)
    }

    // To the next section of an iteration: the place for it.
    fn lend_section(&mut self) -> (Lent, Kept)
        ensures lent { result.0 ≡ (section_portion self.old).lent }
        ensures beside { result.1 ≡ (section_portion self.old).kept }
        ensures left { self.new ≡ (section_portion self.old).left }
    {
        let mut lent = Lent::nothing();
        lent.section = self.section.take();
        (lent, Kept::Nothing)
    }
}

// A buffer, the elements of a read, and an update are lent, those that there are, and nothing else.
fn lent_of(read: Option<ReadBuf>, vector: Option<SharedReads>, update: Option<SharedUpdate>) -> Lent
    ensures { result ≡ record nothing_lent { read = read; vector = vector; update = update } }
{
    Lent {
        read,
        vector,
        update,
        iteration: None,
        snap: None,
        status: None,
        section: None,
    }
}

// Two of some things that are all alike, if there are as many.
fn take_two<T: Drop>(things: &mut Vec<T>) -> Option<(T, T)>
    ensures many { MatchOption result (nat_lt 1 (vec_len things.old) ≡ false) (λ two. nat_lt 1 (vec_len things.old) ≡ true) }
    ensures alike { IfSome result (λ two. (x : T) → All (λ y. y ≡ x) things.old.items → (two.0 ≡ x) × (two.1 ≡ x)) }
    ensures rest { things.new.items ≡ (if nat_lt 1 (vec_len things.old) then take (vec_len things.old - 2) things.old.items else things.old.items) }
{
    if things.len() < 2 {
        return None;
    }
    let Some(first) = things.pop() else {
        return None;
    };
    let Some(second) = things.pop() else {
        return None;
    };
    Some((first, second))
}

// The operation alone.
fn plain_work(alloc: Global, op: &Op) -> Result<Work, AllocError>
    ensures { IfOk result (λ work. work ≡ work_alone op.now) }
{
    Ok(Work {
        op: op.share()?,
        updates: Vec::new(alloc),
        ids: Vec::new(alloc),
        elements: Vec::new(alloc),
        reads: Vec::new(alloc),
        status: None,
        section: None,
    })
}

// What an update needs.
fn update_work(alloc: Global, op: &Op, update: &SharedUpdate) -> Result<Work, AllocError>
    requires { update.now ≡ update_of op.now }
    ensures { IfOk result (λ work. work ≡ record (work_alone op.now) { updates = update_shares_max; ids = commits_max }) }
{
    let mut work = plain_work(alloc, op)?;
    work.updates = shares_of_update(alloc, update)?;
    work.ids = id_buffers(alloc, longest_id(update.value()))?;
    Ok(work)
}

fn shares_of_update(alloc: Global, update: &SharedUpdate) -> Result<Vec<SharedUpdate>, AllocError>
    ensures { IfOk result (λ shares. shares.items ≡ replicate update_shares_max update.now) }
{
    let share = update.share()?;
    Vec::from_elem(alloc, share, UPDATE_SHARES_MAX)
}

// How long the identifier may be that the commit of an update tells.
fn longest_id(update: &Update) -> usize
    ensures { result ≡ longest_id update.now }
{
    match update {
        Update::Create(NewId::Given(id), _, _) => {
            let len = id.as_slice().len();
            if (DECLARED_ID_MAX as usize) < len {
                len
            } else {
                DECLARED_ID_MAX as usize
            }
        }
        _ => DECLARED_ID_MAX as usize,
    }
}

// Empty buffers with room for one identifier of so many bytes each.
fn id_buffers(alloc: Global, bytes: usize) -> Result<Vec<ReadBuf>, AllocError>
    ensures { IfOk result (λ buffers. buffers.items ≡ replicate commits_max (empty_buffer 1 bytes)) }
{
    let mut buffers = Vec::new(alloc);
    for _n in 0..COMMITS_MAX {
        let buffer = ReadBuf::reserve(alloc, 1, bytes)?;
        buffers.push(buffer)?;
    }
    Ok(buffers)
}

// What a read needs.
fn read_work(alloc: Global, op: &Op, elements: &SharedReads) -> Result<Work, AllocError>
    requires { elements.now ≡ elements_of op.now }
    ensures { IfOk result (λ work. work ≡ record (work_alone op.now) { elements = read_shares_max; reads = 1 }) }
{
    let mut work = plain_work(alloc, op)?;
    work.elements = shares_of_elements(alloc, elements)?;
    work.reads = read_buffers(alloc, elements.value().as_slice())?;
    Ok(work)
}

fn shares_of_elements(alloc: Global, elements: &SharedReads) -> Result<Vec<SharedReads>, AllocError>
    ensures { IfOk result (λ shares. shares.items ≡ replicate read_shares_max elements.now) }
{
    let share = elements.share()?;
    Vec::from_elem(alloc, share, READ_SHARES_MAX)
}

// One empty buffer with room for what the elements may give.
fn read_buffers(alloc: Global, elements: &[ReadElement]) -> Result<Vec<ReadBuf>, AllocError>
    ensures { IfOk result (λ buffers. buffers.items ≡ empty_buffer (length elements.now) (bytes_asked elements.now) ∷ []) }
{
    let Some(bytes) = bytes_asked(elements) else {
        return Err(AllocError);
    };
    let mut buffers = Vec::new(alloc);
    let buffer = ReadBuf::reserve(alloc, elements.len(), bytes)?;
    buffers.push(buffer)?;
    Ok(buffers)
}

// What a status needs.
fn status_work(alloc: Global, op: &Op) -> Result<Work, AllocError>
    ensures place { IfOk result (λ work. IsSome work.status) }
    ensures alone { IfOk result (λ work. work ≡ record (work_alone op.now) { status = work.status }) }
{
    let mut work = plain_work(alloc, op)?;
    work.status = Some(Apart::new(alloc, NO_STATUS)?);
    Ok(work)
}

// What the next section of an iteration needs.
fn section_work(alloc: Global, op: &Op) -> Result<Work, AllocError>
    ensures place { IfOk result (λ work. IsSome work.section) }
    ensures alone { IfOk result (λ work. work ≡ record (work_alone op.now) { section = work.section }) }
{
    let mut work = plain_work(alloc, op)?;
    work.section = Some(Apart::new(alloc, no_section())?);
    Ok(work)
}

// What a place for a section has before one is told.
fn no_section() -> SectionDescriptor {
    SectionDescriptor {
        id: SectionId::default(),
        expiration: 0,
        size: 0,
        state: SectionState::Valid,
        last_update: 0,
    }
}
