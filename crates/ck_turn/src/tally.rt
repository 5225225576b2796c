//! A value of this crate's own to lie under the lock: it counts the visits of its callers, and keeps them in order.
//! It shows what the promises of the lock come to where the entries are known.
ghost use Rattle.std.specs.Prelude.{◌≡◌, true, false, List, [], ◌∷◌, ◌++◌};
ghost use Rattle.std.specs.Bool.{OnTrue, OnFalse};
ghost use mathlib.Core.List.{IsPrefix};
ghost use Rattle.ck_turn.specs.declared.tally.Visit.{Visit};
ghost use Rattle.ck_turn.specs.Pass.{IsPassOf};

use crate::stands::Stands;
use crate::turnstile::{Pass, Turnstile};
use std::alloc::Global;
use std::marker::Model;
use std::sync::Wait;

/// Whose visit it was, and which of its visits.
#[derive(Clone, Copy, Debug, PartialEq, Eq)]
pub struct Visit {
    pub by: u32,
    pub number: u32,
}

/// The visits so far. Contracts see them as a list, and the owner beside it.
#[derive(Drop)]
pub struct Tally {
    owner: u32,
    count: u32,
    visits: Vec<Visit>,
}

impl Model for Tally {
    ghost use Rattle.std.specs.Prelude.{◌≡◌, vec_len};
    ghost use Rattle.ck_turn.specs.Tally.{TallyState};

    ghost Value = { TallyState };

    ghost view = { λ t. record { owner = t.owner; visits = t.visits.items } };

    ghost invariant = { λ t. t.count ≡ vec_len t.visits };
}

impl Stands for Tally {
    type Entry = Visit;

    type Origin = u32;

    ghost entries = { λ t. t.visits };

    ghost origin = { λ t. t.owner };

    fn length(&self) -> u32 {
        self.count
    }
}

impl Tally {
    /// A tally with no visits.
    pub fn new(alloc: Global, owner: u32) -> Tally
        ensures { result ≡ record { owner = owner; visits = [] } }
    {
        Tally {
            owner,
            count: 0,
            visits: Vec::new(alloc),
        }
    }

    /// Adds a visit, and says whether it did. It didn't where memory ran out, or where one more can't be counted.
    pub fn add(&mut self, visit: Visit) -> bool
        ensures added { OnTrue result (self.new ≡ record self.old { visits = self.old.visits ++ visit ∷ [] }) }
        ensures same { OnFalse result (self.new ≡ self.old) }
        ensures owner { self.new.owner ≡ self.old.owner }
        ensures begins { IsPrefix self.old.visits self.new.visits }
    {
        if self.count == u32::MAX || self.visits.push(visit).is_err() {
            return false;
        }
        self.count += 1;
        true
    }

    pub fn visits(&self) -> &[Visit]
        ensures { result.now ≡ self.now.visits }
    {
        self.visits.as_slice()
    }
}

/// Waits for its turn, adds a visit, and lets the next caller in. It says whether the visit was added.
pub fn take_turn<R: Wait>(
    rt: &R,
    lock: &Turnstile<Tally>,
    pass: &mut Pass<Tally>,
    visit: Visit,
) -> bool
    requires turnstile { IsPassOf lock.now pass.old }
    requires outside { pass.old.inside ≡ false }
    ensures pass { pass.new ≡ record pass.old { seen = pass.new.seen } }
    ensures begins { IsPrefix pass.old.seen pass.new.seen }
    ensures added { OnTrue result ((before : List Visit) × (pass.new.seen ≡ before ++ visit ∷ [])) }
{
    let mut tally = lock.enter(rt, pass);
    let added = tally.add(visit);
    lock.leave(pass, tally);
    added
}

/// Ends the turns. The tally has the visits that the first pass has seen, and no others.
pub fn finish(lock: Turnstile<Tally>, first: Pass<Tally>) -> Tally
    requires turnstile { IsPassOf lock first }
    requires first { first.first ≡ true }
    requires outside { first.inside ≡ false }
    requires joined { first.joins ≡ first.splits }
    ensures { result ≡ record { owner = lock.origin; visits = first.seen } }
{
    lock.close(first)
}
