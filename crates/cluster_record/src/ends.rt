//! How a call ends by a reply, where that is not its driver's alone.
ghost use Rattle.std.specs.Prelude.{◌≡◌};
ghost use Rattle.cluster_record.specs.Ends.{is_own, refused_by};
ghost use Rattle.cluster_record.specs.StepDone.{count_told};

use crate::record::Record;
use ckpt_types::{AisError, Answer, CallId, Cause, Outcome};
use node_msgs::Reply;

/// How any call ends by a reply that was not done, if it does. One that another call keeps off is to try again where
/// that call is live, and else goes on.
pub fn refused_end(cluster: &Record, reply: &Reply) -> Option<Outcome>
    ensures { result ≡ refused_by cluster.now reply.now }
{
    match reply {
        Reply::Held(by) => {
            if cluster.live(*by) {
                Some(Outcome::Refused(AisError::TryAgain, Cause::Holder(*by)))
            } else {
                None
            }
        }
        Reply::Refused(error, index) => Some(Outcome::Refused(*error, Cause::Index(*index))),
        Reply::NoReplica => Some(Outcome::Refused(AisError::NotExist, Cause::Plain)),
        Reply::Stale(old, present) => {
            let generations = Cause::Generations(*old, *present);
            Some(Outcome::Refused(AisError::TryAgain, generations))
        }
        _ => None,
    }
}

/// The count that a reply tells: that of a slot that was claimed, or of what was pulled; 0 where it tells none.
pub fn count_told(reply: &Reply) -> u64
    ensures { result ≡ count_told reply.now }
{
    match reply {
        Reply::Claimed(count) | Reply::Done(Answer::Pulled(count)) => *count,
        _ => 0,
    }
}

/// Whether the call that makes a checkpoint, or holds it, is this one.
pub fn is_own(call: CallId, other: Option<CallId>) -> bool
    ensures { result ≡ is_own call other }
{
    match other {
        None => false,
        Some(other) => other == call,
    }
}
