//! The operations: what each call line of a script asks for.
ghost use Rattle.std.specs.Prelude.{◌≡◌, IfOk};
ghost use Rattle.ckpt_types.specs.declared.operation.Op.TheVariants as ops;

use crate::attributes::SharedAttributes;
use crate::bytes::SharedName;
use crate::calls::{CallbackSet, Version};
use crate::identities::{Moment, NodeId};
use crate::update::{SharedReads, SharedUpdate};
use crate::words::OpWord;
use std::alloc::AllocError;

/// A call as a script's line asks for it, without its client: a variant for each call line, its words in
/// their order. Places of handles and of iterations are from 0 to 99.
#[derive(Drop)]
pub enum Op {
    /// Initialize, on a node, for a version, with callbacks.
    Client(NodeId, Version, CallbackSet),
    /// Finalize.
    Finalize,
    /// CheckpointOpen: the handle's place, name, open flags, timeout, and attributes.
    Open(u8, SharedName, u32, Moment, SharedAttributes),
    /// CheckpointOpenAsync: the handle's place, invocation, name, open flags, and attributes.
    OpenAsync(u8, u64, SharedName, u32, SharedAttributes),
    /// CheckpointClose, of the handle at a place.
    Close(u8),
    /// CheckpointUnlink, of a name.
    Unlink(SharedName),
    /// RetentionDurationSet: the handle's place, and the duration.
    Retain(u8, Moment),
    /// ActiveReplicaSet.
    Active(u8),
    /// StatusGet.
    Status(u8),
    /// SectionCreate: the handle's place, and the update.
    Create(u8, SharedUpdate),
    /// SectionDelete: the handle's place, and the update.
    Delete(u8, SharedUpdate),
    /// ExpirationTimeSet: the handle's place, and the update.
    Expire(u8, SharedUpdate),
    /// IterationInitialize: the iteration's place, the handle's, which sections, and a time.
    Iter(u8, u8, u64, Moment),
    /// IterationNext, of the iteration at a place.
    Next(u8),
    /// IterationFinalize, of the iteration at a place.
    EndIter(u8),
    /// Write: the handle's place, and the update.
    Write(u8, SharedUpdate),
    /// Overwrite: the handle's place, and the update.
    Over(u8, SharedUpdate),
    /// Read: the handle's place, and the elements.
    Read(u8, SharedReads),
    /// Synchronize: the handle's place, and the timeout.
    Sync(u8, Moment),
    /// SynchronizeAsync: the handle's place, and the invocation.
    SyncAsync(u8, u64),
    /// Dispatch, with its flags.
    Dispatch(u32),
    /// A node's copying of what it lacks.
    Copy,
}

impl Op {
    /// The same operation, which shares what this one has. It is put in line, and tells the most used first.
    #[inline(always)]
    pub fn share(&self) -> Result<Op, AllocError>
        ensures { IfOk result (λ op. op ≡ self.now) }
    {
        match self {
            Op::Write(place, update) => Ok(Op::Write(*place, update.share()?)),
            Op::Read(place, elements) => Ok(Op::Read(*place, elements.share()?)),
            _ => self.share_other(),
        }
    }

    /// The same of the operations that are less used.
    #[inline(never)]
    fn share_other(&self) -> Result<Op, AllocError>
        ensures { IfOk result (λ op. op ≡ self.now) }
    {
        match self {
            Op::Client(node, version, callbacks) => Ok(Op::Client(*node, *version, *callbacks)),
            Op::Finalize => Ok(Op::Finalize),
            Op::Open(place, name, flags, timeout, attributes) => {
                share_open(*place, name, *flags, *timeout, attributes)
            }
            Op::OpenAsync(place, invocation, name, flags, attributes) => {
                share_open_async(*place, *invocation, name, *flags, attributes)
            }
            Op::Close(place) => Ok(Op::Close(*place)),
            Op::Unlink(name) => share_unlink(name),
            Op::Retain(place, duration) => Ok(Op::Retain(*place, *duration)),
            Op::Active(place) => Ok(Op::Active(*place)),
            Op::Status(place) => Ok(Op::Status(*place)),
            Op::Create(place, update) => share_create(*place, update),
            Op::Delete(place, update) => share_delete(*place, update),
            Op::Expire(place, update) => share_expire(*place, update),
            Op::Iter(iteration, place, which, time) => {
                Ok(Op::Iter(*iteration, *place, *which, *time))
            }
            Op::Next(iteration) => Ok(Op::Next(*iteration)),
            Op::EndIter(iteration) => Ok(Op::EndIter(*iteration)),
            Op::Write(place, update) => share_write(*place, update),
            Op::Over(place, update) => share_over(*place, update),
            Op::Read(place, elements) => share_read(*place, elements),
            Op::Sync(place, timeout) => Ok(Op::Sync(*place, *timeout)),
            Op::SyncAsync(place, invocation) => Ok(Op::SyncAsync(*place, *invocation)),
            Op::Dispatch(flags) => Ok(Op::Dispatch(*flags)),
            Op::Copy => Ok(Op::Copy),
        }
    }
}

/// The same write, which shares its update.
fn share_write(place: u8, update: &SharedUpdate) -> Result<Op, AllocError>
    ensures { IfOk result (λ op. op ≡ ops.Write place update.now) }
{
    Ok(Op::Write(place, update.share()?))
}

/// The same read, which shares its elements.
fn share_read(place: u8, elements: &SharedReads) -> Result<Op, AllocError>
    ensures { IfOk result (λ op. op ≡ ops.Read place elements.now) }
{
    Ok(Op::Read(place, elements.share()?))
}

/// The same unlink, which shares its name.
fn share_unlink(name: &SharedName) -> Result<Op, AllocError>
    ensures { IfOk result (λ op. op ≡ ops.Unlink name.now) }
{
    Ok(Op::Unlink(name.share()?))
}

/// The same creation, which shares its update.
fn share_create(place: u8, update: &SharedUpdate) -> Result<Op, AllocError>
    ensures { IfOk result (λ op. op ≡ ops.Create place update.now) }
{
    Ok(Op::Create(place, update.share()?))
}

/// The same deletion, which shares its update.
fn share_delete(place: u8, update: &SharedUpdate) -> Result<Op, AllocError>
    ensures { IfOk result (λ op. op ≡ ops.Delete place update.now) }
{
    Ok(Op::Delete(place, update.share()?))
}

/// The same setting of an expiration, which shares its update.
fn share_expire(place: u8, update: &SharedUpdate) -> Result<Op, AllocError>
    ensures { IfOk result (λ op. op ≡ ops.Expire place update.now) }
{
    Ok(Op::Expire(place, update.share()?))
}

/// The same overwrite, which shares its update.
fn share_over(place: u8, update: &SharedUpdate) -> Result<Op, AllocError>
    ensures { IfOk result (λ op. op ≡ ops.Over place update.now) }
{
    Ok(Op::Over(place, update.share()?))
}

/// The same open, which shares its name and its attributes.
fn share_open(
    place: u8,
    name: &SharedName,
    flags: u32,
    timeout: Moment,
    attributes: &SharedAttributes,
) -> Result<Op, AllocError>
    ensures { IfOk result (λ op. op ≡ ops.Open place name.now flags timeout attributes.now) }
{
    let name = name.share()?;
    let attributes = attributes.share()?;
    Ok(Op::Open(place, name, flags, timeout, attributes))
}

/// The same asynchronous open, which shares its name and its attributes.
fn share_open_async(
    place: u8,
    invocation: u64,
    name: &SharedName,
    flags: u32,
    attributes: &SharedAttributes,
) -> Result<Op, AllocError>
    ensures { IfOk result (λ op. op ≡ ops.OpenAsync place invocation name.now flags attributes.now) }
{
    let name = name.share()?;
    let attributes = attributes.share()?;
    Ok(Op::OpenAsync(place, invocation, name, flags, attributes))
}

impl Clone for Op {
    ghost is_clone = { λ op copy. copy ≡ op };

    fn clone(&self) -> Result<Op, AllocError> {
        match self {
            Op::Write(place, update) => Ok(Op::Write(*place, update.share()?)),
            Op::Read(place, elements) => Ok(Op::Read(*place, elements.share()?)),
            _ => self.share_other(),
        }
    }
}
