//! The iterations that a client has begun, each of which may be lent.
ghost use Rattle.std.specs.Prelude.{◌≡◌, ◌<◌, ◌≤◌, [], None, Some, IfNone, IfOk, IfSome, IsSomeAnd, length, slice_get, slice_set, vec_capacity};
ghost use Rattle.std.specs.Option.{option_map};
ghost use Rattle.ckpt_types.specs.Limits.{iterations_max};
ghost use Rattle.client_handles.specs.ClientState.{iteration_number, goes_over, is_out, with_kept};
ghost use Rattle.client_handles.specs.Numbered.{numbered, without};

use ckpt_types::ITERATIONS_MAX;
use section_iter::Iteration;
use std::alloc::{AllocError, Global};

/// An iteration that was begun.
#[derive(Drop)]
pub(crate) struct BegunIteration {
    /// The iteration's number, from 1. A client's numbers are never given twice.
    pub(crate) number: u32,
    /// The number of the handle over which it goes.
    pub(crate) handle: u32,
    /// The iteration itself, while it is not lent.
    pub(crate) kept: Option<Iteration>,
}

/// The place in the list of the iteration of that number.
pub(crate) fn place_of(begun: &[BegunIteration], number: u32) -> Option<usize>
    ensures found { IfSome result (λ at. IsSomeAnd (slice_get begun.now at) (λ it. it.number ≡ number)) }
    ensures within { IfSome result (λ at. at < length begun.now) }
    ensures absent { IfNone result (numbered iteration_number number begun.now ≡ None) }
{
    for (at, iteration) in begun.iter().enumerate() {
        if iteration.number == number {
            return Some(at);
        }
    }
    None
}

/// The handle over which the iteration of that number goes.
pub(crate) fn handle_over(begun: &[BegunIteration], number: u32) -> Option<u32>
    ensures { result ≡ option_map goes_over (numbered iteration_number number begun.now) }
{
    for it in begun {
        if it.number == number {
            return Some(it.handle);
        }
    }
    None
}

/// Whether the iteration of that number is there, and nothing of it is kept.
pub(crate) fn out_of(begun: &[BegunIteration], number: u32) -> bool
    ensures { result ≡ is_out (numbered iteration_number number begun.now) }
{
    for it in begun {
        if it.number == number {
            return it.kept.is_none();
        }
    }
    false
}

/// Takes out what is kept there, and keeps nothing.
pub(crate) fn take_kept(begun: &mut Vec<BegunIteration>, at: usize) -> Option<Iteration>
    requires { at < length begun.old.items }
    ensures kept { IsSomeAnd (slice_get begun.old.items at) (λ it. result ≡ it.kept) }
    ensures items { IsSomeAnd (slice_get begun.old.items at) (λ it. begun.new.items ≡ slice_set begun.old.items at (with_kept None it)) }
    ensures capacity { vec_capacity begun.new ≡ vec_capacity begun.old }
{
    let it = &mut begun[at];
    it.kept.take()
}

/// Keeps this iteration there.
pub(crate) fn keep(begun: &mut Vec<BegunIteration>, at: usize, iteration: Iteration)
    requires { at < length begun.old.items }
    ensures items { IsSomeAnd (slice_get begun.old.items at) (λ it. begun.new.items ≡ slice_set begun.old.items at (with_kept (Some iteration) it)) }
    ensures capacity { vec_capacity begun.new ≡ vec_capacity begun.old }
{
    let lent = &mut begun[at];
    lent.kept = Some(iteration);
}

/// Ends the iterations over the handle of that number.
pub(crate) fn end_over(begun: &mut Vec<BegunIteration>, handle: u32)
    ensures items { begun.new.items ≡ without goes_over handle begun.old.items }
    ensures capacity { vec_capacity begun.new ≡ vec_capacity begun.old }
{
    begun.retain(|it| it.handle != handle);
}

/// Ends them all.
pub(crate) fn end_all(begun: &mut Vec<BegunIteration>)
    ensures items { begun.new.items ≡ [] }
    ensures capacity { vec_capacity begun.new ≡ vec_capacity begun.old }
{
    begun.clear();
}

/// A copy of them, with room for all that a client may have.
pub(crate) fn copy_of_begun(
    alloc: Global,
    begun: &[BegunIteration],
) -> Result<Vec<BegunIteration>, AllocError>
    requires { length begun.now ≤ iterations_max }
    ensures items { IfOk result (λ copy. copy.items ≡ begun.now) }
    ensures capacity { IfOk result (λ copy. iterations_max ≤ vec_capacity copy) }
{
    let mut copy = Vec::with_capacity(alloc, ITERATIONS_MAX)?;
    for it in begun {
        copy.push_reserved(it.copy(alloc)?);
    }
    Ok(copy)
}

impl BegunIteration {
    /// An equal one. One that is lent is lent in the copy, too.
    fn copy(&self, alloc: Global) -> Result<BegunIteration, AllocError>
        ensures { IfOk result (λ copy. copy ≡ self.now) }
    {
        Ok(BegunIteration {
            number: self.number,
            handle: self.handle,
            kept: copy_of_kept(alloc, &self.kept)?,
        })
    }
}

fn copy_of_kept(alloc: Global, kept: &Option<Iteration>) -> Result<Option<Iteration>, AllocError>
    ensures { IfOk result (λ copy. copy ≡ kept.now) }
{
    match kept {
        Some(iteration) => Ok(Some(iteration.copy(alloc)?)),
        None => Ok(None),
    }
}
