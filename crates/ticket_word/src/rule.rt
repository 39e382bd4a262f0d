//! What the seats of a word know, the rule that holds between any two steps, and the three kinds of step.
use atomic_table::{Join, Play, Split, TableRule};
use std::collections::LinkedList;
use std::marker::{Brand, PhantomData};

/// What a seat knows. It stands in contracts alone: no value of it is made.
pub struct View {
    /// The tickets that it has drawn, or was given, in this order.
    pub tickets: LinkedList<u64>,
    /// How many more it may draw.
    pub allowance: u64,
    /// How many may be drawn from the word in all.
    pub total: u64,
}

/// The rule of a word. Its key is the total.
pub(crate) struct TicketRule;

impl TableRule<u8, View, u64> for TicketRule {
    ghost use Rattle.ticket_word.specs.Rule.{first_view, CountsTickets};

    ghost holds = { λ total s. CountsTickets total s.words s.views };

    ghost first = { first_view };
}

/// A ticket is drawn.
pub(crate) struct Draw;

impl Play<u8, View> for Draw {
    ghost use Rattle.ticket_word.specs.Rule.{IsDraw};

    ghost then = { IsDraw };
}

/// How many draws go to a new seat. Each call of a program picks it.
pub(crate) trait Amount {
    ghost use Rattle.std.specs.Prelude.{ℕ};

    ghost amount: { ℕ };
}

impl Amount for Brand {
    ghost amount = { 0 };
}

/// A seat is split: so much of its allowance goes to a new one.
pub(crate) struct CutOff<A: Amount>(PhantomData<A>);

impl<A: Amount> Split<View> for CutOff<A> {
    ghost use Rattle.ticket_word.specs.Rule.{left_view, new_view};

    ghost left = { left_view A.amount };

    ghost right = { new_view A.amount };
}

/// A seat takes in another.
pub(crate) struct TakeIn;

impl Join<View> for TakeIn {
    ghost use Rattle.ticket_word.specs.Rule.{joined_view, spent_view};

    ghost both = { joined_view };

    ghost spent = { spent_view };
}
