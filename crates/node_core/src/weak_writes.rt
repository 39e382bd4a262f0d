//! What a replica makes of a weak write, step by step.
ghost use Rattle.std.specs.Prelude.{◌≡◌, ◌-◌, ◌^◌, ◌<◌, true, false, None, IsSomeAnd};
ghost use Rattle.ckpt_types.specs.declared.answers.Answer.TheVariants as answers;
ghost use Rattle.node_msgs.specs.declared.replies.Reply.TheVariants as replies;
ghost use Rattle.weak_marks.specs.Marks.{IsMarkedBy, is_left_of};
ghost use Rattle.replica.specs.Replicas.{outcome_on, begun, element_done, ended, IsWrite};
ghost use Rattle.node_core.specs.Payloads.{update_or};
ghost use Rattle.node_core.specs.Serving.{mark_reply};

use crate::lent::Lent;
use crate::updates::reply_told;
use ckpt_types::{Answer, CallId, Moment};
use node_msgs::Reply;
use replica::Replica;

/// The weak write of a call begins, with the update that is lent.
pub(crate) fn mark_lent(
    replica: &mut Replica,
    call: CallId,
    moment: Moment,
    lent: &mut Lent,
) -> Reply
    requires room { replica.old.count < 2 ^ 64 - 1 }
    requires free { replica.old.slot ≡ None }
    requires lent { IsSomeAnd lent.old.update IsWrite }
    ensures reply { result ≡ mark_reply (outcome_on replica.old (update_or lent.old.update) moment) replica.old.marks }
    ensures new { replica.new ≡ begun call (update_or lent.old.update) moment replica.old }
    ensures lent { lent.new ≡ record lent.old { update = None } }
{
    let Some(update) = lent.update.take() else {
        unreachable!()
    };
    reply_told(Answer::Nothing, replica.weak_begin(call, update, moment))
}

/// Its next element is done.
pub(crate) fn element(replica: &mut Replica, call: CallId) -> Reply
    requires own { IsMarkedBy call replica.old.marks }
    requires left { is_left_of replica.old.marks ≡ true }
    ensures reply { result ≡ replies.Done answers.Nothing }
    ensures new { replica.new ≡ element_done replica.old replica.old.marks }
{
    replica.weak_element(call);
    Reply::Done(Answer::Nothing)
}

/// It ends, all its elements being done.
pub(crate) fn unmark(replica: &mut Replica, call: CallId) -> Reply
    requires own { IsMarkedBy call replica.old.marks }
    requires done { is_left_of replica.old.marks ≡ false }
    ensures reply { result ≡ replies.Done answers.Nothing }
    ensures new { replica.new ≡ ended replica.old }
{
    replica.weak_end(call);
    Reply::Done(Answer::Nothing)
}
