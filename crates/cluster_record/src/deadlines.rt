//! What a call does whose deadline may be reached.
ghost use Rattle.std.specs.Prelude.{◌≡◌};
ghost use Rattle.cluster_record.specs.DueOpen.{in_time};
ghost use Rattle.cluster_record.specs.Ends.{IsAtANode};

use ckpt_types::{AisError, Cause, Moment, Outcome};
use moment_rules::reached;
use node_msgs::Next;

/// What is next where the deadline, if there is one, is not reached at the moment; where it is, TIMEOUT with both.
pub fn in_time(deadline: Option<Moment>, moment: Moment, next: Next) -> Next
    ensures next { result ≡ in_time deadline moment next }
    ensures at { IsAtANode next → IsAtANode result }
{
    match deadline {
        None => next,
        Some(deadline) => {
            if reached(deadline, moment) {
                Next::End(Outcome::Refused(AisError::Timeout, Cause::Deadline(deadline, moment)))
            } else {
                next
            }
        }
    }
}
