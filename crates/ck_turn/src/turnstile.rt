//! The lock, and the pass that each caller has.
ghost use Rattle.std.specs.Prelude.{◌≡◌, ◌+◌, ◌<◌, ◌≤◌, ◌%◌, ◌^◌, [], ◌∷◌, IfOk, IfErr, true, false};
ghost use mathlib.Core.List.{IsPrefix};
ghost use Rattle.ck_turn.specs.declared.view.Phase.TheVariants.{Waiting, Called};
ghost use Rattle.ck_turn.specs.Pass.{IsPassOf, first_pass, second_pass, longer};
ghost use Rattle.ck_turn.specs.Rule.{first_view};
ghost use Rattle.ck_turn.specs.Steps.{at_phase};

use crate::plays::{
    Draw, GiveBack, Look, Meeting, Parting, RaiseLength, RaiseServing, Take, Vacate,
};
use crate::stands::Stands;
use crate::view::{Opening, Token, Turns, View};
use atomic_table::Table;
use std::alloc::Global;
use std::marker::Model;
use std::sync::Wait;

// The words of the table: the next ticket, the ticket that is served, and how many entries the value has.
const TICKET: usize = 0;

const SERVING: usize = 1;

const LENGTH: usize = 2;

// The one slot, in which the value lies.
const SLOT: usize = 0;

// A sleep compares the low 32 bits of a word.
const LOW: u64 = 0xffff_ffff;

/// A lock whose callers take the value in the order of their tickets.
pub struct Turnstile<T: Stands> {
    table: Table<Option<T>, View<T::Entry, T::Origin>, Opening<T>, Turns, Global>,
}

impl<T: Stands> Model for Turnstile<T> {
    ghost use Rattle.std.specs.Prelude.{◌≡◌};
    ghost use Rattle.ck_turn.specs.Turnstile.{Lock};

    ghost Value = { Lock T.Origin };

    ghost view = { λ t. record {
      identity = t.table.shared.table_id;
      callers = t.table.shared.key.callers;
      origin = T.origin t.table.shared.key.value;
    } };

    ghost invariant = { λ t. (t.table.shared.table_id.words ≡ 3) × (t.table.shared.table_id.slots ≡ 1) };
}

/// The right of one caller to take the value, and what it has seen of the value. It has no bytes.
#[derive(Drop)]
pub struct Pass<T: Stands> {
    token: Token<T>,
}

impl<T: Stands> Model for Pass<T> {
    ghost use Rattle.ck_turn.specs.Pass.{PassState, IsAtRest};
    ghost use Rattle.ck_turn.specs.Phase.{is_inside};

    ghost Value = { PassState T.Entry T.Origin };

    ghost view = { λ p. record {
      turnstile = record { identity = p.token.table_id; origins = p.token.me.0.origin };
      first = p.token.me.0.first;
      splits = p.token.me.0.splits;
      joins = p.token.me.0.joins;
      inside = is_inside p.token.me.0.phase;
      seen = p.token.me.0.seen;
    } };

    ghost invariant = { λ p. IsAtRest p.token.me };
}

impl<T: Stands> Turnstile<T> {
    /// A turnstile with the value under it, and its first pass. At `Err` there was no memory.
    pub fn new(alloc: Global, value: T, callers: u32) -> Result<(Turnstile<T>, Pass<T>), T>
        requires callers { 1 ≤ callers }
        requires empty { T.entries value ≡ [] }
        ensures callers { IfOk result (λ r. r.0.callers ≡ callers) }
        ensures origin { IfOk result (λ r. r.0.origin ≡ T.origin value) }
        ensures first { IfOk result (λ r. r.1 ≡ first_pass r.0) }
        ensures unchanged { IfErr result (λ given. given ≡ value) }
    {
        let opening = Opening { value, callers };
        match Table::vacant(alloc, &[1, 0, 0], 1, &opening) {
            Err(_) => {
                let Opening { value, callers: _ } = opening;
                Err(value)
            }
            Ok((table, token)) => {
                let Opening { value, callers: _ } = opening;
                let turnstile = Turnstile { table };
                let pass = turnstile.first(token, value);
                Ok((turnstile, pass))
            }
        }
    }

    // The first pass, once the value lies in the slot.
    fn first(&self, mut token: Token<T>, value: T) -> Pass<T>
        requires turnstile { token.table_id ≡ self.now.identity }
        requires origin { T.origin value ≡ self.now.origin }
        requires fresh { token.me ≡ (first_view (T.origin value), []) }
        requires empty { T.entries value ≡ [] }
        ensures { result ≡ first_pass self.now }
    {
        let words = &self.table.shared;
        words.load::<Vacate>(&mut token, SERVING);
        match words.exchange(&mut token, SLOT, Some(value)) {
            None => {}
            Some(_) => unreachable!(),
        }
        words.load::<GiveBack>(&mut token, SERVING);
        words.fetch_add::<RaiseServing>(&mut token, SERVING, 1);
        Pass { token }
    }

    /// Waits for its turn, and takes the value out. No clause says that it returns.
    pub fn enter<R: Wait>(&self, rt: &R, pass: &mut Pass<T>) -> T
        requires turnstile { IsPassOf self.now pass.old }
        requires outside { pass.old.inside ≡ false }
        ensures origin { T.origin result ≡ self.now.origin }
        ensures begins { IsPrefix pass.old.seen (T.entries result) }
        ensures pass { pass.new ≡ record pass.old { inside = true; seen = T.entries result } }
    {
        let words = &self.table.shared;
        let ticket = words.fetch_add::<Draw>(&mut pass.token, TICKET, 1);
        self.wait(rt, &mut pass.token, ticket);
        words.load::<Take>(&mut pass.token, SERVING);
        words.exchange(&mut pass.token, SLOT, None).unwrap()
    }

    // Until the ticket is served.
    fn wait<R: Wait>(&self, rt: &R, token: &mut Token<T>, ticket: u64)
        requires turnstile { token.old.table_id ≡ self.now.identity }
        requires waits { (token.old.me.0.phase ≡ Waiting) × (ticket ≡ token.old.me.0.ticket % 2 ^ 64) }
        ensures same { (token.new.table_id ≡ token.old.table_id) × (token.new.id ≡ token.old.id) }
        ensures called { token.new.me ≡ (at_phase Called token.old.me.0, token.old.me.1) }
    {
        let words = &self.table.shared;
        for _ in rt.forever() {
            let serving = words.load::<Look>(token, SERVING);
            if serving == ticket {
                break;
            }
            words.park(rt, SERVING, (serving & LOW) as u32);
        }
    }

    /// Puts the value back, and lets the next caller in.
    pub fn leave(&self, pass: &mut Pass<T>, value: T)
        requires turnstile { IsPassOf self.now pass.old }
        requires inside { pass.old.inside ≡ true }
        requires origin { T.origin value ≡ self.now.origin }
        requires begins { IsPrefix pass.old.seen (T.entries value) }
        ensures { pass.new ≡ record pass.old { inside = false; seen = T.entries value } }
    {
        let words = &self.table.shared;
        let length = u64::from(value.length());
        match words.exchange(&mut pass.token, SLOT, Some(value)) {
            None => {}
            Some(_) => unreachable!(),
        }
        words.swap::<RaiseLength>(&mut pass.token, LENGTH, length);
        words.load::<GiveBack>(&mut pass.token, SERVING);
        words.fetch_add::<RaiseServing>(&mut pass.token, SERVING, 1);
        words.wake_all(SERVING);
    }

    /// A second pass, which has seen as much.
    pub fn split(&self, pass: &mut Pass<T>) -> Pass<T>
        requires turnstile { IsPassOf self.now pass.old }
        requires first { pass.old.first ≡ true }
        requires outside { pass.old.inside ≡ false }
        requires room { pass.old.splits < self.now.callers }
        ensures counted { pass.new ≡ record pass.old { splits = pass.old.splits + 1 } }
        ensures second { result ≡ second_pass pass.old }
    {
        Pass {
            token: self.table.shared.split_seat::<Parting>(&mut pass.token),
        }
    }

    /// Ends a pass that was split off. The first pass has then seen the longer of the two lists.
    pub fn join(&self, pass: &mut Pass<T>, other: Pass<T>)
        requires turnstile { IsPassOf self.now pass.old × IsPassOf self.now other }
        requires first { pass.old.first ≡ true }
        requires second { other.first ≡ false }
        requires outside { (pass.old.inside ≡ false) × (other.inside ≡ false) }
        ensures { pass.new ≡ record pass.old { joins = pass.old.joins + 1; seen = longer pass.old.seen other.seen } }
    {
        let Pass { token } = other;
        self.table
            .shared
            .join_seat::<Meeting>(&mut pass.token, token);
    }

    /// The value, once all other passes were joined.
    pub fn close(self, pass: Pass<T>) -> T
        requires turnstile { IsPassOf self pass }
        requires first { pass.first ≡ true }
        requires outside { pass.inside ≡ false }
        requires joined { pass.joins ≡ pass.splits }
        ensures origin { T.origin result ≡ self.origin }
        ensures entries { T.entries result ≡ pass.seen }
    {
        let Turnstile { table } = self;
        let Pass { token } = pass;
        let mut closed = table.close_with(token);
        let value = closed.take(SLOT).unwrap();
        closed.free();
        value
    }
}
