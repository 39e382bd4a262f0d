//! What the call of a seat does next.
ghost use Rattle.std.specs.Prelude.{◌≡◌, IsSome};
ghost use Rattle.std.specs.Option.{option_and_then};
ghost use Rattle.ckpt_machine.specs.Driving.{making_in};
ghost use Rattle.client_seats.specs.Dues.{due_by, due_in};
ghost use Rattle.client_seats.specs.SeatState.{KeptCall};

use crate::seat::ClientSeat;
use ckpt_types::{CkptId, NodeId};
use cluster_record::Record;
use node_msgs::{Next, RecordStep};

/// Whose part the next step of a call is.
#[derive(Clone, Copy)]
pub enum Due {
    /// Nobody's: the node of its client is not up, and the call is abandoned.
    Gone,
    /// A node serves a request.
    Serve(NodeId),
    /// A step of the record.
    Event(RecordStep),
    /// The record alone decides how it ends.
    Look,
}

impl ClientSeat {
    /// What the call in hand does next, by this record.
    pub fn due(&self, seen: &Record) -> Due
        requires { IsSome self.now.call }
        ensures { result ≡ due_in seen.now self.now }
    {
        let Some(call) = &self.call else {
            return Due::Gone;
        };
        if !seen.is_up(call.home) {
            return Due::Gone;
        }
        part_of(call.hand.driver.next(seen, &self.table, self.client))
    }

    /// The checkpoint that the call in hand is making, if it is.
    pub fn making(&self) -> Option<CkptId>
        ensures { result ≡ option_and_then (λ (c : KeptCall). making_in c.hand.driver) self.now.call }
    {
        match &self.call {
            None => None,
            Some(call) => call.hand.driver.making(),
        }
    }
}

// Whose part a step is.
fn part_of(next: Next) -> Due
    ensures { result ≡ due_by next }
{
    match next {
        Next::Serve(r, _) => Due::Serve(r),
        Next::Event(step) => Due::Event(step),
        Next::End(_) => Due::Look,
    }
}
