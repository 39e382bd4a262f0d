//! How the record alone ends the call of a seat, and how a failure is told.
ghost use Rattle.std.specs.Prelude.{◌≡◌, ◌-◌, ◌<◌, None, false, if◌then◌else◌};
ghost use Rattle.cluster_record.specs.RecordState.{is_up};
ghost use Rattle.run_labels.specs.declared.labels.Label.TheVariants as labels;
ghost use Rattle.client_seats.specs.Dues.{due_in};
ghost use Rattle.client_seats.specs.Looked.{table_ended_by, Looks};
ghost use Rattle.client_seats.specs.Seats.{with_label, HasDrawn, IsReady};
ghost use Rattle.client_seats.specs.declared.due.Due.TheVariants as dues;

use crate::held::clear;
use crate::seat::ClientSeat;
use ckpt_types::{NodeId, Op, Outcome};
use client_calls::{Table, look_word, looked, settle_look};
use cluster_record::Record;
use node_msgs::Next;
use run_labels::Label;

impl ClientSeat {
    /// The record that is lent alone decides how the call ends.
    pub fn look(&mut self, seen: &Record, ticket: u64) -> Outcome
        requires drawn { HasDrawn self.old ticket }
        requires due { due_in seen.now self.old ≡ dues.Look }
        ensures ready { IsReady self.new }
        ensures looks { Looks seen.now ticket self.old self.new result }
    {
        let Some(call) = &mut self.call else {
            unreachable!()
        };
        let Next::End(due) = call.hand.driver.next(seen, &self.table, self.client) else {
            unreachable!()
        };
        let name = call.hand.call;
        let word = call.hand.word();
        let (end, details) = call.hand.look(due);
        end_table(&mut self.table, &call.hand.op, &end);
        clear(&mut self.call);
        self.note(ticket, looked(name, word, look_word(&end), end, details));
        end
    }

    /// A node fails, over the record before that, or does not: it is not up, or the failure does not fit, as the caller
    /// tells, since a journal has no room for what it changes, or a number of the record cannot rise. Whether it failed.
    pub fn fell(&mut self, seen: &Record, node: NodeId, fits: bool, ticket: u64) -> bool
        requires drawn { HasDrawn self.old ticket }
        requires call { 0 < self.old.calls }
        requires none { self.old.call ≡ None }
        ensures ready { IsReady self.new }
        ensures fell { result ≡ (if fits then is_up node seen.now else false) }
        ensures new { self.new ≡ record self.old { calls = self.old.calls - 1; trail = with_label ticket (labels.Failed node result) self.old.trail } }
    {
        self.calls -= 1;
        let fell = fits && seen.is_up(node);
        self.note(ticket, Label::Failed(node, fell));
        fell
    }
}

// The table of the client behind a look that ends its call so.
fn end_table(table: &mut Table, op: &Op, end: &Outcome)
    ensures { table.new ≡ table_ended_by end.now op.now table.old }
{
    match end {
        Outcome::Done(_) => {
            let closed = table.handle_closed(op);
            table.forget_over(closed);
            settle_look(table, op, end);
        }
        _ => {}
    }
}
