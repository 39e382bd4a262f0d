//! Tickets that two seats draw in turn; and that a word may be shared by threads, and a seat handed to one.
use crate::rows::holds;
use std::alloc::AllocError;
use ticket_word::TicketWord;

/// Whether threads may share it: where they may not, this can't be called.
fn is_shared<T: Sync>(_value: &T) -> bool {
    true
}

/// Whether it may be handed to a thread.
pub fn is_handed<T: Send>(_value: &T) -> bool {
    true
}

#[test]
fn two_seats_draw_each_number_once(rt: HostRuntime) -> Result<(), AllocError> {
    let (word, mut first) = TicketWord::new(rt.alloc(), 5)?;
    let mut second = word.split(&mut first, 2);
    holds(&rt, 1, word.draw(&mut first) == 0);
    holds(&rt, 2, word.draw(&mut second) == 1);
    holds(&rt, 3, word.draw(&mut first) == 2);
    holds(&rt, 4, is_shared(&word));
    holds(&rt, 5, is_handed(&second));
    word.join(&mut first, second);
    holds(&rt, 6, word.close(first) == 3);
    Ok(())
}

#[test]
fn a_word_with_no_ticket_is_closed(rt: HostRuntime) -> Result<(), AllocError> {
    let (word, seat) = TicketWord::new(rt.alloc(), 0)?;
    holds(&rt, 1, word.close(seat) == 0);
    Ok(())
}
