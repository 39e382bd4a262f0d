//! How an iteration goes with a request, and comes back.
ghost use Rattle.std.specs.Prelude.{◌≡◌};
ghost use Rattle.ckpt_types.specs.Asks.{IsBuilt};
ghost use Rattle.client_calls.specs.LentIterations.{table_lending_if_there, IsOutBehind};
ghost use Rattle.client_calls.specs.Lending.{iteration_lent, hand_lending, table_lending, table_keeping, CanLend, CanKeep, IsValidFor};

use crate::in_hand::InHand;
use crate::table::Table;
use ckpt_types::Op;
use node_msgs::{Reply, Request};
use section_iter::Iteration;

/// The iteration that goes with a request of a call is lent: the room that the call took for one that starts, or the
/// one with which it goes on, out of its client's tables.
pub fn lend_iteration(table: &mut Table, hand: &mut InHand, request: &Request) -> Option<Iteration>
    requires can { CanLend request.now hand.old.op table.old.client }
    ensures valid { IsValidFor request.now table.old.client }
    ensures hand { hand.new ≡ hand_lending request.now hand.old }
    ensures table { table.new ≡ table_lending request.now hand.old.op table.old }
    ensures lent { result ≡ iteration_lent request.now hand.old table.old.client }
{
    match request {
        Request::Iterate(_, _, _) => hand.iteration.take(),
        Request::Next(_, _) => table.lend_iteration(&hand.op),
        _ => None,
    }
}

/// The same, of an iteration that is in its place; where it is not there, nothing is lent, and nothing changes. So it asks
/// nothing of its caller but that the operation names a place.
pub fn lend_if_there(table: &mut Table, hand: &mut InHand, request: &Request) -> Option<Iteration>
    requires built { IsBuilt hand.old.op }
    ensures hand { hand.new ≡ hand_lending request.now hand.old }
    ensures table { table.new ≡ table_lending_if_there request.now hand.old.op table.old }
    ensures lent { result ≡ iteration_lent request.now hand.old table.old.client }
    ensures out { IsOutBehind request.now result hand.old.op table.new }
{
    match request {
        Request::Iterate(_, _, _) => hand.iteration.take(),
        Request::Next(_, _) => table.lend_if_there(&hand.op),
        _ => None,
    }
}

/// The iteration that came back with the reply to a request: one that was started is the client's from then on, and
/// one that went on comes back to its place.
pub fn keep_iteration(
    table: &mut Table,
    op: &Op,
    request: &Request,
    reply: &Reply,
    iteration: Option<Iteration>,
)
    requires can { CanKeep request.now op.now table.old.client }
    ensures { table.new ≡ table_keeping request.now op.now reply.now iteration table.old }
{
    let Some(iteration) = iteration else {
        return;
    };
    match (request, reply) {
        (Request::Iterate(_, _, _), Reply::Done(_)) => table.start(op, iteration),
        (Request::Next(_, _), _) => table.return_iteration(op, iteration),
        _ => {}
    }
}
