//! An asynchronous call, while it is under way and once it has ended.
ghost use Rattle.std.specs.Prelude.{◌≡◌};
ghost use Rattle.call_dispatch.specs.PendingCalls.{callback_of};

use ckpt_types::{AsyncKind, CallId, Callback, Outcome};

/// A call that goes on by itself.
#[derive(Clone, Copy)]
pub struct AsyncCall {
    /// The call's name.
    pub call: CallId,
    /// Whether it is an open or a synchronisation.
    pub kind: AsyncKind,
    /// The invocation by which its client knows it.
    pub invocation: u64,
    /// The number of the handle of a synchronisation; 0 of an open, which has none yet.
    pub handle: u32,
}

/// An asynchronous call that has ended.
#[derive(Clone, Copy)]
pub struct EndedCall {
    /// The call. Of an open that was done the handle is the one that it has opened.
    pub asked: AsyncCall,
    /// How it has ended.
    pub outcome: Outcome,
}

impl EndedCall {
    /// The callback that tells its client of the end.
    pub fn callback(&self) -> Callback
        ensures { result ≡ callback_of self.now }
    {
        Callback {
            kind: self.asked.kind,
            invocation: self.asked.invocation,
            outcome: self.outcome,
        }
    }
}
