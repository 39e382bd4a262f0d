//! What a step of the record makes of its client's table.
ghost use Rattle.std.specs.Prelude.{◌≡◌, Some, None};
ghost use Rattle.client_calls.specs.TableSettling.{table_settled, table_looked, MaySettle};
ghost use Rattle.cluster_record.specs.LookUps.{creation_flags_of};
ghost use Rattle.cluster_record.specs.RecordState.{entry_of};

use crate::table::Table;
use ckpt_types::{CkptId, Op, Outcome};
use cluster_record::Record;
use node_msgs::RecordStep;

/// What a step of the record makes of its client's table.
pub fn settle(table: &mut Table, cluster: &Record, op: &Op, step: &RecordStep, ckpt: Option<CkptId>)
    requires { MaySettle op.now step.now table.old }
    ensures { table.new ≡ table_settled cluster.now op.now step.now ckpt table.old }
{
    match step {
        RecordStep::Enter => table.register(op),
        RecordStep::Open | RecordStep::Finish => {
            if let Some(ckpt) = ckpt {
                table.give(op, ckpt, creation_flags(cluster, ckpt));
            }
        }
        RecordStep::Close => table.close(op),
        RecordStep::Leave => table.leave(),
        _ => {}
    }
}

/// Where the record alone says that a call is done, the handle that it closes is closed.
pub fn settle_look(table: &mut Table, op: &Op, end: &Outcome)
    ensures { table.new ≡ table_looked end.now op.now table.old }
{
    match end {
        Outcome::Done(_) => table.close(op),
        _ => {}
    }
}

// The creation flags of a checkpoint; 0 where it is gone.
fn creation_flags(cluster: &Record, ckpt: CkptId) -> u32
    ensures { result ≡ creation_flags_of (entry_of ckpt cluster.now.entries) }
{
    match cluster.declared(ckpt) {
        None => 0,
        Some(attributes) => attributes.creation_flags,
    }
}
