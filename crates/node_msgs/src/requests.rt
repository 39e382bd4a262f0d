//! The requests to nodes: the replica that each asks, and the word of its step.
ghost use Rattle.std.specs.Prelude.{◌≡◌};

use crate::steps::Verb;
use ckpt_types::{CallId, Choice, CkptId, Moment};

/// What a call asks of one replica. The update of `Stage`, `Apply` and `Mark`, the elements of `Read`, the
/// iteration of `Iterate` and `Next` and the snapshot of `Pull` and `Install` travel beside it.
#[derive(Clone, Copy)]
pub enum Request {
    /// Takes all the storage of a replica.
    Reserve(CkptId),
    /// Stages the call's update at the moment.
    Stage(CallId, CkptId, Moment),
    /// Takes over the slot of a call that is not live: the caller, the checkpoint, the slot's owner.
    Claim(CallId, CkptId, CallId),
    /// Makes the staged update the replica's sections.
    Commit(CallId, CkptId),
    /// Drops the staged update.
    Withdraw(CallId, CkptId),
    /// Applies an update at once.
    Apply(CallId, CkptId),
    /// Marks the sections of a weak write.
    Mark(CallId, CkptId),
    /// Writes the next element of a weak write.
    Element(CallId, CkptId),
    /// Ends the marks of a weak write.
    Unmark(CallId, CkptId),
    /// Reads.
    Read(CkptId),
    /// Tells the status.
    Status(CkptId),
    /// Starts an iteration.
    Iterate(CallId, CkptId, Choice),
    /// Gives an iteration's next section.
    Next(CallId, CkptId),
    /// Takes a snapshot.
    Pull(CallId, CkptId),
    /// Installs a snapshot.
    Install(CallId, CkptId),
}

impl Request {
    ghost use Rattle.node_msgs.specs.Requests.{ckpt_of};
    ghost use Rattle.node_msgs.specs.Steps.{verb_of};

    /// The checkpoint whose replica is asked.
    pub fn ckpt(&self) -> CkptId
        ensures { result ≡ ckpt_of self.now }
    {
        match *self {
            Request::Reserve(ckpt) => ckpt,
            Request::Stage(_, ckpt, _) => ckpt,
            Request::Claim(_, ckpt, _) => ckpt,
            Request::Commit(_, ckpt) => ckpt,
            Request::Withdraw(_, ckpt) => ckpt,
            Request::Apply(_, ckpt) => ckpt,
            Request::Mark(_, ckpt) => ckpt,
            Request::Element(_, ckpt) => ckpt,
            Request::Unmark(_, ckpt) => ckpt,
            Request::Read(ckpt) => ckpt,
            Request::Status(ckpt) => ckpt,
            Request::Iterate(_, ckpt, _) => ckpt,
            Request::Next(_, ckpt) => ckpt,
            Request::Pull(_, ckpt) => ckpt,
            Request::Install(_, ckpt) => ckpt,
        }
    }

    /// What the step that asks it does.
    pub fn verb(&self) -> Verb
        ensures { result ≡ verb_of self.now }
    {
        match self {
            Request::Reserve(_) => Verb::Reserve,
            Request::Stage(_, _, _) => Verb::Stage,
            Request::Claim(_, _, _) => Verb::Claim,
            Request::Commit(_, _) => Verb::Commit,
            Request::Withdraw(_, _) => Verb::Withdraw,
            Request::Apply(_, _) => Verb::Apply,
            Request::Mark(_, _) => Verb::Mark,
            Request::Element(_, _) => Verb::Element,
            Request::Unmark(_, _) => Verb::Unmark,
            Request::Read(_) => Verb::Read,
            Request::Status(_) => Verb::Status,
            Request::Iterate(_, _, _) => Verb::Iter,
            Request::Next(_, _) => Verb::Next,
            Request::Pull(_, _) => Verb::Pull,
            Request::Install(_, _) => Verb::Install,
        }
    }
}
