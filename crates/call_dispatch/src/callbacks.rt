//! Who is called when a dispatch gives callbacks.
ghost use Rattle.std.specs.Prelude.{List};

use crate::async_call::EndedCall;

/// A client's callbacks.
pub trait Callbacks {
    ghost use Rattle.call_dispatch.specs.declared.async_call.EndedCall.{EndedCall};

    /// What one call of a callback makes of it: what it was, the call that has ended, and what it is then.
    ghost called: { Self → EndedCall → Self → Type 0 };

    /// Tells the client that this call has ended.
    fn callback(&mut self, call: &EndedCall)
        ensures { called self.old call.now self.new };
}
