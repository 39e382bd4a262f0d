//! The call that a seat has in hand.
ghost use Rattle.std.specs.Prelude.{◌≡◌, None, Some};
ghost use Rattle.std.specs.Option.{option_and_then};
ghost use Rattle.cluster_record.specs.Calls.{left};
ghost use Rattle.client_seats.specs.Ending.{end_at};

use crate::seat::STEPS_MAX;
use ckpt_types::{CallId, NodeId, Outcome};
use client_calls::{Driver, InHand};
use shared_nodes::Work;
use snap_copy::Snap;
use std::marker::Model;

/// A call in hand, with what its steps want, which was taken when it began.
#[derive(Drop)]
pub struct SeatCall {
    /// The call.
    pub(crate) hand: InHand,
    /// The node of its client.
    pub(crate) home: NodeId,
    /// How many steps it has made.
    pub(crate) steps: u32,
    /// What its steps lend.
    pub(crate) work: Work,
    /// Room for snapshots, of which the journals keep copies.
    pub(crate) copies: Vec<Snap>,
}

impl Model for SeatCall {
    ghost use Rattle.client_seats.specs.SeatState.{KeptCall};

    ghost Value = { KeptCall };

    ghost use Rattle.client_seats.specs.SeatView.{call_shown};

    ghost view = { call_shown };
}

impl SeatCall {
    /// The call.
    pub fn name(&self) -> CallId
        ensures { result ≡ self.now.hand.call }
    {
        self.hand.call
    }

    /// What drives it.
    pub fn driver(&self) -> &Driver
        ensures { result.now ≡ self.now.hand.driver }
    {
        &self.hand.driver
    }
}

/// No call is in hand from then on. What one owned is given back here, and its callers know nothing of that.
pub(crate) fn clear(place: &mut Option<SeatCall>)
    ensures { place.new ≡ None }
{
    *place = None;
}

/// A call is in hand from then on, in place of another, if one was.
pub(crate) fn take_place(place: &mut Option<SeatCall>, call: SeatCall)
    ensures { place.new ≡ Some call }
{
    *place = Some(call);
}

/// A call that has ended is in hand no more.
pub(crate) fn let_go(place: &mut Option<SeatCall>, end: &Option<Outcome>)
    ensures { place.new ≡ option_and_then (left end.now) place.old }
{
    if end.is_some() {
        clear(place);
    }
}

/// How a call ends by its step of this number: the last one that it may make ends it where it would go on.
pub(crate) fn end_at(steps: u32, end: Option<Outcome>) -> Option<Outcome>
    ensures { result ≡ end_at steps end }
{
    match end {
        Some(end) => Some(end),
        None => {
            if steps == STEPS_MAX {
                Some(Outcome::Astray)
            } else {
                None
            }
        }
    }
}
