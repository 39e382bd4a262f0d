//! How the call of a seat is told what the record has answered to its step.
ghost use Rattle.std.specs.Prelude.{◌≡◌, ◌+◌, ◌<◌, Some, None, true};
ghost use Rattle.client_calls.specs.TableSettling.{table_settled};
ghost use Rattle.client_seats.specs.Seats.{steps_max, HasDrawn, IsReady};
ghost use Rattle.client_seats.specs.Told.{call_told, event_outcome, event_word, table_told, table_without, IsDueFor, IsEventReply, IsTold, MayGiveBy, MayGiveIn};

use crate::held::{SeatCall, end_at, let_go};
use crate::seat::ClientSeat;
use ckpt_types::{CkptId, Op, Outcome};
use client_calls::{Table, event_node, settle, stepped};
use cluster_record::Record;
use node_msgs::{RecordStep, Reply, StepReply};

impl ClientSeat {
    /// The step of the record that was due, on this checkpoint, has this answer, and the record that is lent is that behind
    /// it: how the call ends, if it does. None tells that the step was not done, since a change did not fit what a node
    /// has, a journal had no room, or a number of the record could not rise; then the call goes astray. So does one
    /// whose last step leaves it unfinished. It takes no memory.
    pub fn told(
        &mut self,
        seen: &Record,
        step: RecordStep,
        ckpt: Option<CkptId>,
        reply: Option<Reply>,
        ticket: u64,
    ) -> Option<Outcome>
        requires drawn { HasDrawn self.old ticket }
        requires due { IsDueFor self.old self.old.call step reply }
        requires answer { IsEventReply reply }
        ensures ready { IsReady self.new }
        ensures told { IsTold seen.now step ckpt reply ticket self.old self.new result }
    {
        let Some(call) = &mut self.call else {
            unreachable!()
        };
        let name = call.hand.call;
        let word = call.hand.word();
        let node = event_node(&call.hand.driver, &step);
        let end = tell_call(call, seen, ckpt, &reply);
        tell_table(
            &mut self.table,
            seen,
            &call.hand.op,
            &step,
            ckpt,
            &reply,
            &end,
        );
        let_go(&mut self.call, &end);
        let told = event_word(&step, &reply);
        self.note(
            ticket,
            stepped(name, word, step.verb(), ckpt, node, told, end),
        );
        end
    }
}

// The call takes the answer of the record to its step: how it ends, if it does.
fn tell_call(
    call: &mut SeatCall,
    seen: &Record,
    ckpt: Option<CkptId>,
    reply: &Option<Reply>,
) -> Option<Outcome>
    requires steps { call.old.steps < steps_max }
    requires answer { IsEventReply reply.now }
    ensures end { result ≡ event_outcome seen.now reply.now call.old }
    ensures new { call.new ≡ call_told seen.now reply.now call.old }
{
    call.steps += 1;
    let Some(reply) = reply else {
        return Some(Outcome::Astray);
    };
    let end = match reply {
        Reply::Done(_) => call.hand.take_done(seen, ckpt),
        _ => call.hand.take_refusal(seen, reply),
    };
    end_at(call.steps, end)
}

// The client's table behind the answer of the record to a step, by which the call ends so.
fn tell_table(
    table: &mut Table,
    seen: &Record,
    op: &Op,
    step: &RecordStep,
    ckpt: Option<CkptId>,
    reply: &Option<Reply>,
    end: &Option<Outcome>,
)
    requires roomy { table.old.roomy ≡ true }
    requires may { MayGiveBy op.now step.now reply.now table.old }
    ensures { table.new ≡ table_told seen.now op.now step.now ckpt reply.now end.now table.old }
{
    let (Some(Reply::Done(_)), Some(_)) = (reply, end) else {
        return;
    };
    settle_done(table, seen, op, step, ckpt);
}

// The same of a step that is done: an open gets its handle, and with a handle that is closed go the synchronisations over it.
fn settle_done(table: &mut Table, seen: &Record, op: &Op, step: &RecordStep, ckpt: Option<CkptId>)
    requires roomy { table.old.roomy ≡ true }
    requires may { MayGiveIn op.now step.now table.old }
    ensures { table.new ≡ table_settled seen.now op.now step.now ckpt (table_without step.now op.now table.old) }
{
    match (step, op) {
        (RecordStep::Open | RecordStep::Finish, Op::Open(..)) => settle(
            table, seen, op, step, ckpt,
        ),
        (RecordStep::Open | RecordStep::Finish, Op::OpenAsync(..)) => settle(
            table, seen, op, step, ckpt,
        ),
        (RecordStep::Open | RecordStep::Finish, _) => {}
        (RecordStep::Close, _) => {
            let closed = table.handle_closed(op);
            table.forget_over(closed);
            settle(table, seen, op, step, ckpt);
        }
        _ => settle(table, seen, op, step, ckpt),
    }
}

// How a label tells the answer of the record to a step.
fn event_word(step: &RecordStep, reply: &Option<Reply>) -> StepReply
    ensures { result ≡ event_word step.now reply.now }
{
    match (step, reply) {
        (_, Some(Reply::Done(_))) => StepReply::Ok,
        (RecordStep::Hold(_), Some(Reply::Held(by))) => StepReply::Held(*by),
        (_, Some(Reply::NoMemory)) => StepReply::Memory,
        _ => StepReply::Refused,
    }
}
