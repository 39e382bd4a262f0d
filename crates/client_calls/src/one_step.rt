//! The calls of one step of the record: what each does next.
ghost use Rattle.std.specs.Prelude.{◌≡◌, Some, IfOk};
ghost use Rattle.ckpt_types.specs.declared.answers.Cause.TheVariants.{Plain};
ghost use Rattle.ckpt_types.specs.declared.answers.Outcome.TheVariants.{Refused};
ghost use Rattle.node_msgs.specs.declared.next.Next.TheVariants.{End};
ghost use Rattle.cluster_record.specs.DueOnce.{enter_next, close_next, unlink_next, retain_next, once_next};
ghost use Rattle.client_calls.specs.CallStates.{step_in};
ghost use Rattle.ckpt_machine.specs.Taking.{once_outcome};

use ckpt_types::{
    AisError, Answer, Bytes, CLIENTS_MAX, CallId, Cause, CkptId, NodeId, Outcome, SharedName,
};
use cluster_record::Record;
use node_msgs::{Next, RecordStep, Reply};
use std::alloc::AllocError;

/// What a call of one step does.
#[derive(Drop)]
pub enum OneStep {
    /// A client becomes live on the node.
    Enter(NodeId),
    /// The client leaves.
    Leave,
    /// A handle of the checkpoint is closed.
    Close(CkptId),
    /// The checkpoint of the name loses it.
    Unlink(SharedName),
    /// The retention of the checkpoint becomes this duration.
    Retain(CkptId, i64),
}

impl OneStep {
    /// What the call does next, by the record.
    pub fn next(&self, cluster: &Record) -> Next
        ensures { result ≡ once_next cluster.now (step_in self.now) }
    {
        match self {
            OneStep::Enter(_) => enter_next(cluster),
            OneStep::Leave => Next::Event(RecordStep::Leave),
            OneStep::Close(ckpt) => close_next(cluster, *ckpt),
            OneStep::Unlink(name) => unlink_next(cluster, name.value()),
            OneStep::Retain(ckpt, _) => retain_next(cluster, *ckpt),
        }
    }

    /// How the call ends by what the record answers to its step: where that is done, an Initialize with the version, and
    /// any other with nothing.
    pub fn take(&self, reply: &Reply) -> Option<Outcome>
        ensures { result ≡ once_outcome reply.now (step_in self.now) }
    {
        match reply {
            Reply::Done(_) => match self {
                OneStep::Enter(_) => Some(Outcome::Done(Answer::Version)),
                _ => Some(Outcome::Done(Answer::Nothing)),
            },
            Reply::NoMemory => Some(Outcome::NoMemory),
            _ => None,
        }
    }

    /// An equal one, with a share of the name that it unlinks. It takes no memory, and fails only where the shares can't be
    /// counted.
    pub(crate) fn copy(&self) -> Result<OneStep, AllocError>
        ensures { IfOk result (λ copy. copy ≡ self.now) }
    {
        match self {
            OneStep::Enter(node) => Ok(OneStep::Enter(*node)),
            OneStep::Leave => Ok(OneStep::Leave),
            OneStep::Close(ckpt) => Ok(OneStep::Close(*ckpt)),
            OneStep::Unlink(name) => Ok(OneStep::Unlink(name.share()?)),
            OneStep::Retain(ckpt, duration) => Ok(OneStep::Retain(*ckpt, *duration)),
        }
    }
}

// No more clients become live than may be.
fn enter_next(cluster: &Record) -> Next
    ensures { result ≡ enter_next cluster.now }
{
    if cluster.clients_len() >= CLIENTS_MAX {
        Next::End(Outcome::Refused(AisError::NoResources, Cause::Count(CLIENTS_MAX as u32)))
    } else {
        Next::Event(RecordStep::Enter)
    }
}

// Where the checkpoint of a close is gone, nothing is left to do.
fn close_next(cluster: &Record, ckpt: CkptId) -> Next
    ensures { result ≡ close_next cluster.now ckpt }
{
    match cluster.entry(ckpt) {
        None => Next::End(Outcome::Done(Answer::Nothing)),
        Some(_) => Next::Event(RecordStep::Close),
    }
}

// What is in the making keeps its name.
fn unlink_next(cluster: &Record, name: &Bytes) -> Next
    ensures { result ≡ unlink_next cluster.now name.now }
{
    match cluster.named(name) {
        None => refused(AisError::NotExist),
        Some(entry) => match entry.making {
            None => Next::Event(RecordStep::Unlink),
            Some(call) => Next::End(Outcome::Refused(AisError::TryAgain, Cause::Holder(call))),
        },
    }
}

// The retention of an unlinked checkpoint can't be set.
fn retain_next(cluster: &Record, ckpt: CkptId) -> Next
    ensures { result ≡ retain_next cluster.now ckpt }
{
    match cluster.entry(ckpt) {
        None => refused(AisError::NotExist),
        Some(entry) => {
            if entry.name.is_some() {
                Next::Event(RecordStep::Retain)
            } else {
                refused(AisError::BadOperation)
            }
        }
    }
}

fn refused(error: AisError) -> Next
    ensures { result ≡ End (Refused error Plain) }
{
    Next::End(Outcome::Refused(error, Cause::Plain))
}
