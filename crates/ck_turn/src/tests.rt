ghost use Rattle.std.specs.Prelude.{◌≡◌, ◌≤◌, true, false};
ghost use mathlib.Core.List.{IsPrefix};
ghost use Rattle.ck_turn.specs.Pass.{IsPassOf};

use super::*;
use crate::tally::{Tally, Visit, finish, take_turn};
use std::alloc::Global;
use std::snapshot::Snapshot;
use std::sync::Wait;
use std::test::Fail;
use std::thread;
use std::thread::{Promise, PromisedHandle, Threads};

const TURNS: u32 = 1000;

// A value that its callers add to.
trait Grows: Stands {
    fn grow(&mut self, visit: Visit)
        ensures origin { Self.origin self.new ≡ Self.origin self.old }
        ensures begins { IsPrefix (Self.entries self.old) (Self.entries self.new) };
}

// What a worker gives back: a pass of this turnstile, which isn't the first and isn't inside.
struct GivesBack<T: Stands>(Snapshot<Turnstile<T>>);

impl<T: Stands> Drop for GivesBack<T> {
    fn drop(self) {
        let Self(_) = self;
    }
}

impl<T: Stands> Promise<Pass<T>> for GivesBack<T> {
    ghost kept_by = { λ promise pass. IsPassOf promise.0.value pass × (pass.first ≡ false) × (pass.inside ≡ false) };
}

// The turns of one caller.
fn work<T: Grows, R: Wait>(rt: &R, lock: &Turnstile<T>, mut pass: Pass<T>, by: u32) -> Pass<T>
    requires turnstile { IsPassOf lock.now pass }
    requires outside { pass.inside ≡ false }
    ensures pass { result ≡ record pass { seen = result.seen } }
    ensures begins { IsPrefix pass.seen result.seen }
{
    for number in 0..TURNS {
        let mut value = lock.enter(rt, &mut pass);
        value.grow(Visit { by, number });
        lock.leave(&mut pass, value);
    }
    pass
}

// The turns of as many callers, each in a thread of its own.
fn run<T: Grows + Send, R: Threads + Wait + Sync>(
    rt: &R,
    alloc: Global,
    lock: &Turnstile<T>,
    first: Pass<T>,
    callers: u32,
) -> Pass<T>
    requires turnstile { IsPassOf lock.now first }
    requires first { first.first ≡ true }
    requires outside { first.inside ≡ false }
    requires alone { (first.splits ≡ 0) × (first.joins ≡ 0) }
    requires room { callers ≤ lock.now.callers }
    ensures turnstile { IsPassOf lock.now result }
    ensures first { result.first ≡ true }
    ensures outside { result.inside ≡ false }
    ensures joined { result.joins ≡ result.splits }
{
    thread::scope(
        thread::scope_env(),
        rt,
        move |scope| -> Pass<T>
            requires { IsPassOf lock.now first × (first.first ≡ true) × (first.inside ≡ false)
                × (first.splits ≡ 0) × (first.joins ≡ 0) × (callers ≤ lock.now.callers) }
            ensures { IsPassOf lock.entry.now result × (result.first ≡ true) × (result.inside ≡ false)
                × (result.joins ≡ result.splits) }
        {
            let mut first = first;
            let mut handles: Vec<PromisedHandle<Pass<T>, GivesBack<T>>> = Vec::new(alloc);
            for by in 0..callers {
                let pass = lock.split(&mut first);
                match scope.spawn_with(
                    GivesBack(Snapshot::of(lock)),
                    move || work(rt, lock, pass, by),
                ) {
                    Ok(handle) => match handles.push(handle) {
                        Ok(()) => {}
                        Err(failed) => lock.join(&mut first, failed.value.join(rt)),
                    },
                    Err(refused) => lock.join(&mut first, (refused.value)()),
                }
            }
            while let Some(handle) = handles.pop() {
                lock.join(&mut first, handle.join(rt));
            }
            first
        },
    )
}

// A value that borrows.
struct Titled<'a> {
    title: &'a str,
    tally: Tally,
}

impl<'a> Stands for Titled<'a> {
    type Entry = Visit;

    type Origin = &'a str;

    ghost entries = { λ t. t.tally.visits };

    ghost origin = { λ t. t.title };

    fn length(&self) -> u32 {
        self.tally.length()
    }
}

impl<'a> Grows for Titled<'a> {
    fn grow(&mut self, visit: Visit) {
        let _ = self.tally.add(visit);
    }
}

fn run_titled<R: Threads + Wait + Sync>(
    rt: &R,
    alloc: Global,
    title: &str,
    callers: u32,
) -> Option<Tally>
    requires { 1 ≤ callers }
{
    let tally = Tally::new(alloc, 7);
    match Turnstile::new(alloc, Titled { title, tally }, callers) {
        Ok((lock, first)) => {
            let first = run(rt, alloc, &lock, first, callers);
            let Titled { title: _, tally } = lock.close(first);
            Some(tally)
        }
        Err(given) => {
            let Titled { title: _, tally: _ } = given;
            None
        }
    }
}

// How many visits each caller made, where each made them in the order of their numbers.
fn turns_of(visits: &[Visit]) -> Option<[u32; 4]> {
    let mut turns = [0u32; 4];
    for visit in visits {
        let by = visit.by as usize;
        if by >= 4 || turns[by] != visit.number {
            return None;
        }
        turns[by] = turns[by].wrapping_add(1);
    }
    Some(turns)
}

#[test]
fn in_threads(rt: HostRuntime) -> Result<(), Fail> {
    let two = run_titled(&rt, rt.alloc(), "two", 2).ok_or("memory")?;
    assert!(&rt; turns_of(two.visits()) == Some([TURNS, TURNS, 0, 0]));
    let four = run_titled(&rt, rt.alloc(), "four", 4).ok_or("memory")?;
    assert!(&rt; turns_of(four.visits()) == Some([TURNS; 4]));
    Ok(())
}

// The first pass takes all turns.
fn alone<R: Wait>(rt: &R, alloc: Global) -> Result<Tally, Tally> {
    let (lock, mut first) = Turnstile::new(alloc, Tally::new(alloc, 7), 1)?;
    for number in 0..TURNS {
        take_turn(rt, &lock, &mut first, Visit { by: 0, number });
    }
    Ok(finish(lock, first))
}

#[test]
fn one_caller_alone(rt: HostRuntime) -> Result<(), Fail> {
    let tally = alone(&rt, rt.alloc()).ok().ok_or("memory")?;
    assert!(&rt; turns_of(tally.visits()) == Some([TURNS, 0, 0, 0]));
    Ok(())
}

// For one caller beside the first pass: each takes a turn.
fn with_one_other<R: Wait>(rt: &R, alloc: Global) -> Result<Tally, Tally> {
    let (lock, mut first) = Turnstile::new(alloc, Tally::new(alloc, 7), 1)?;
    let mut second = lock.split(&mut first);
    take_turn(rt, &lock, &mut second, Visit { by: 1, number: 0 });
    take_turn(rt, &lock, &mut first, Visit { by: 2, number: 0 });
    lock.join(&mut first, second);
    Ok(finish(lock, first))
}

// Two others take turns, and the second of them has seen more. They are joined in this order, or the other way round.
fn with_two_others<R: Wait>(rt: &R, alloc: Global, in_order: bool) -> Result<Tally, Tally> {
    let (lock, mut first) = Turnstile::new(alloc, Tally::new(alloc, 7), 2)?;
    let mut second = lock.split(&mut first);
    let mut third = lock.split(&mut first);
    take_turn(rt, &lock, &mut second, Visit { by: 1, number: 0 });
    take_turn(rt, &lock, &mut third, Visit { by: 2, number: 0 });
    if in_order {
        lock.join(&mut first, second);
        lock.join(&mut first, third);
        Ok(finish(lock, first))
    } else {
        lock.join(&mut first, third);
        lock.join(&mut first, second);
        Ok(finish(lock, first))
    }
}

#[test]
fn split_and_joined(rt: HostRuntime) -> Result<(), Fail> {
    let visits = [Visit { by: 1, number: 0 }, Visit { by: 2, number: 0 }];
    let one = with_one_other(&rt, rt.alloc()).ok().ok_or("memory")?;
    assert!(&rt; one.visits() == visits.as_slice());
    let in_order = with_two_others(&rt, rt.alloc(), true).ok().ok_or("memory")?;
    assert!(&rt; in_order.visits() == visits.as_slice());
    let turned = with_two_others(&rt, rt.alloc(), false)
        .ok()
        .ok_or("memory")?;
    assert!(&rt; turned.visits() == visits.as_slice());
    Ok(())
}
