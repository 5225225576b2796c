//! What the table knows of each pass, and the rule that all steps keep.
use crate::stands::Stands;
use atomic_table::{Seat, Shared, TableRule};
use std::collections::LinkedList;

/// Where a pass is on its way from one visit to the next.
pub(crate) enum Phase {
    /// It has no ticket.
    Out,
    /// It has drawn a ticket.
    Waiting,
    /// Its ticket is served.
    Called,
    /// As the table is made: its ticket is served, and the slot holds no value yet.
    Fresh,
    /// It has taken the value out of the slot.
    Inside,
    /// It has told how long the list is now.
    Wrote,
    /// It has put the value back.
    Gave,
    /// It was joined into the first pass.
    Spent,
}

/// What the proofs know of a pass. No value of it is made, so its ticket may be any number.
pub(crate) struct View<E, O> {
    pub(crate) first: bool,
    pub(crate) splits: u64,
    pub(crate) joins: u64,
    pub(crate) phase: Phase,
    pub(crate) ticket: u64,
    pub(crate) seen: LinkedList<E>,
    /// The origin alone, and nothing once the pass is spent.
    pub(crate) origin: LinkedList<O>,
}

/// What the table is told when it is made.
pub(crate) struct Opening<T> {
    pub(crate) value: T,
    pub(crate) callers: u32,
}

pub(crate) struct Turns;

pub(crate) type Token<T> = Seat<Option<T>, View<<T as Stands>::Entry, <T as Stands>::Origin>>;

pub(crate) type Steps<T> = Shared<
    Option<T>,
    View<<T as Stands>::Entry, <T as Stands>::Origin>,
    Opening<T>,
    Turns,
>;

impl<T: Stands> TableRule<Option<T>, View<T::Entry, T::Origin>, Opening<T>> for Turns {
    ghost use Rattle.ck_turn.specs.Rule.{Kept, first_view};

    ghost holds = { Kept T.entries T.origin };

    ghost first = { λ o. first_view (T.origin o.value) };
}
