//! A trail keeps a label with its ticket, in room that was there before; it may be handed to a thread.
use crate::rows::holds;
use crate::tickets::is_handed;
use run_labels::Label;
use shared_nodes::{Noted, Trail};
use std::alloc::AllocError;
use std::process::Abort;

/// A trail with one label, of the third ticket.
#[test]
fn a_trail_has_the_label_with_its_ticket(rt: HostRuntime) -> Result<(), AllocError> {
    let mut trail = Trail::reserve(rt.alloc(), 2)?;
    trail.push(Noted {
        ticket: 3,
        label: Label::Moved(5),
    });
    look(&rt, &trail);
    Ok(())
}

fn look(rt: &impl Abort, trail: &Trail) {
    holds(rt, 1, trail.len() == 1);
    holds(rt, 2, trail.spare() == 1);
    holds(rt, 3, first_is(trail));
    holds(rt, 4, is_handed(trail));
}

fn first_is(trail: &Trail) -> bool {
    if trail.len() == 0 {
        return false;
    }
    let noted = trail.at(0);
    noted.ticket == 3 && matches!(&noted.label, Label::Moved(5))
}
