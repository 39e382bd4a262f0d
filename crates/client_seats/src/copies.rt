//! The snapshot that the call of a seat has in hand, as it goes out to a node and comes back.
ghost use Rattle.std.specs.Prelude.{◌≡◌, None, IfSome};
ghost use Rattle.client_seats.specs.HeldCopies.{call_holding, snapshot_held, with_call};
ghost use Rattle.client_seats.specs.SeatState.{KeptCall};
ghost use Rattle.client_seats.specs.Seats.{AreAlike};

use crate::seat::ClientSeat;
use snap_copy::Snap;

impl ClientSeat {
    /// The snapshot in hand goes out, to be filled.
    pub fn lend_snapshot(&mut self) -> Option<Snap>
        ensures lent { result ≡ snapshot_held self.old }
        ensures alike { IfSome self.old.call (λ (c : KeptCall). AreAlike result c.copies) }
        ensures new { self.new ≡ with_call (λ c. call_holding None c.copies c) self.old }
    {
        match &mut self.call {
            None => None,
            Some(call) => call.hand.snapshot.take(),
        }
    }

    /// It comes back, with what it was filled with. Without a call in hand it goes.
    pub fn keep_snapshot(&mut self, snapshot: Option<Snap>)
        requires alike { IfSome self.old.call (λ (c : KeptCall). AreAlike snapshot c.copies) }
        ensures { self.new ≡ with_call (λ c. call_holding snapshot c.copies c) self.old }
    {
        if let Some(call) = &mut self.call {
            call.hand.snapshot = snapshot;
        }
    }
}
