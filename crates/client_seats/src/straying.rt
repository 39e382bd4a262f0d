//! How the call of a seat goes astray whose node is not there.
ghost use Rattle.std.specs.Prelude.{◌≡◌, ◌<◌};
ghost use Rattle.client_seats.specs.Dues.{due_in};
ghost use Rattle.client_seats.specs.Seats.{HasDrawn, IsReady};
ghost use Rattle.client_seats.specs.Strays.{GoesAstray};
ghost use Rattle.client_seats.specs.declared.due.Due.TheVariants as dues;

use crate::held::clear;
use crate::seat::ClientSeat;
use ckpt_types::{NodeId, Outcome};
use client_calls::stepped;
use cluster_record::Record;
use node_msgs::{Next, StepReply};

impl ClientSeat {
    /// The step that is due at a node is not done, since what stands in the node's place is another: the call goes astray.
    pub fn astray(&mut self, seen: &Record, r: NodeId, ticket: u64) -> Outcome
        requires drawn { HasDrawn self.old ticket }
        requires due { due_in seen.now self.old ≡ dues.Serve r }
        ensures ready { IsReady self.new }
        ensures astray { GoesAstray seen.now r ticket self.old self.new }
    {
        let Some(call) = &self.call else {
            unreachable!()
        };
        let Next::Serve(r, request) = call.hand.driver.next(seen, &self.table, self.client) else {
            unreachable!()
        };
        let end = Outcome::Astray;
        let label = stepped(
            call.hand.call,
            call.hand.word(),
            request.verb(),
            Some(request.ckpt()),
            Some(r),
            StepReply::Refused,
            Some(end),
        );
        clear(&mut self.call);
        self.note(ticket, label);
        end
    }
}
