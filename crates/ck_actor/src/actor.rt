ghost use Rattle.std.specs.Prelude.{◌≡◌, ◌≤◌, ◌<◌, ◌+◌, ◌↔◌, None, IsTrue, length, nat_le, take};
ghost use Rattle.std.specs.List.{AllByRecursion};
ghost use Rattle.ck_model.specs.History.{call_at};
ghost use Rattle.ck_script.specs.Numbered.{calls_in, numbers_in, IsNumbered};
ghost use Rattle.ck_files.specs.Built.{IsBuilt};
ghost use Rattle.ck_volume.specs.Told.{AreAnswered};
ghost use Rattle.ck_volume.specs.TopCuts.{synced_count};
ghost use Rattle.ck_volume.specs.Turn.{UnlessStrip};
ghost use Rattle.ck_volume.specs.Volume.{committed_of, history_of, origin_of, room_of, spoilt_of, table_of, told_of};
ghost use Rattle.ck_actor.specs.Actor.{begins as begun_next, calls_left, number_of, HasFewer, HasMoment, IsNew, IsThrough, OnWay, Stands};
ghost use Rattle.ck_actor.specs.Place.{IsFound};
ghost use Rattle.ck_actor.specs.Turned.{answered_by_now, IsTurnOf};
ghost use Rattle.ck_actor.specs.declared.actor.ActorTurn.TheVariants.{Through};

use crate::place::Place;
use ck_disk::Disk;
use ck_io::Clock;
use ck_script::{Line, Script};
use ck_volume::{Progress, Turn, Volume};
use std::alloc::Global;

/// Whether calls of an actor are left.
#[derive(Clone, Copy, Debug, PartialEq, Eq)]
pub enum ActorTurn {
    More,
    /// Every call of the actor was answered, and none is on its way.
    Through,
}

/// An actor of a script: which of its calls are through, and how far the next one has come.
#[derive(Drop)]
pub struct Actor {
    place: Place,
    /// When the call began that its next turn goes on with.
    began: u64,
    progress: Progress,
}

impl Actor {
    /// No call of it was answered yet.
    pub fn new(number: u32) -> Actor
        ensures { IsNew number result }
    {
        Actor {
            place: Place::new(number),
            began: 0,
            progress: Progress::Fresh,
        }
    }

    /// The number of the call that its next turn begins. There is none where that turn goes on with a
    /// call that was begun, or where all its calls are through.
    pub fn begins(&self, script: &Script) -> Option<u32>
        ensures { result ≡ begun_next script.now.calls self.now }
    {
        match self.progress {
            Progress::Fresh => self.place.next_number(script.calls.items()),
            Progress::Read(_) | Progress::Strip(_) => None,
        }
    }

    /// Whether the call of this line, which is its own, isn't through yet.
    pub(crate) fn is_left(&self, line: usize) -> bool
        ensures { result ≡ nat_le self.now.place.line line }
    {
        self.place.line <= line
    }

    /// Goes to the line of its next call, unless one is on its way.
    fn seek(&mut self, lines: &[Line])
        requires { OnWay self.old.progress (IsFound lines.now self.old.place) }
        ensures found { IsFound lines.now self.new.place }
        ensures actor { self.new.place.actor ≡ self.old.place.actor }
        ensures between { numbers_in (take self.new.place.line lines.now) self.old.place.actor ≡ numbers_in (take self.old.place.line lines.now) self.old.place.actor }
        ensures on_way { OnWay self.old.progress (self.new.place ≡ self.old.place) }
        ensures progress { self.new.progress ≡ self.old.progress }
        ensures began { self.new.began ≡ self.old.began }
    {
        match self.progress {
            Progress::Fresh => self.place.seek(lines),
            Progress::Read(_) | Progress::Strip(_) => {}
        }
    }

    /// Reads the clock where the turn begins a call.
    fn note_moment<C: Clock>(&mut self, clock: &mut C)
        requires moment { HasMoment (C.means clock.old) self.old }
        ensures told { IsTrue (C.means clock.old).tells → self.new.began ≡ (C.means clock.old).moment }
        ensures kept { OnWay self.old.progress (self.new.began ≡ self.old.began) }
        ensures place { self.new.place ≡ self.old.place }
        ensures progress { self.new.progress ≡ self.old.progress }
        ensures clock { C.means clock.new ≡ C.means clock.old }
    {
        match self.progress {
            Progress::Fresh => self.began = clock.now(),
            Progress::Read(_) | Progress::Strip(_) => {}
        }
    }

    /// Makes one event of the call at its line.
    fn event<D: Disk>(&mut self, alloc: Global, volume: &mut Volume<D>, lines: &[Line])
        requires numbered { IsNumbered lines.now }
        requires found { IsFound lines.now self.old.place }
        requires left { self.old.place.line < length lines.now }
        requires stands { Stands (D.means (origin_of volume.old)) (told_of volume.old) lines.now (history_of volume.old) self.old }
        requires room { UnlessStrip self.old.progress (0 < room_of volume.old) }
        requires unspoilt { spoilt_of volume.old ≡ None }
        requires built { AllByRecursion (λ line. IsBuilt line.call) lines.now }
        ensures found { IsFound lines.now self.new.place }
        ensures stands { Stands (D.means (origin_of volume.new)) (told_of volume.new) lines.now (history_of volume.new) self.new }
        ensures began { self.new.began ≡ self.old.began }
        ensures number { number_of self.new ≡ number_of self.old }
        ensures turn { IsTurnOf (D.means (origin_of volume.old)) lines.now (number_of self.old) self.old self.new (answered_by_now volume.old) (answered_by_now volume.new) }
        ensures fewer { HasFewer self.old (table_of volume.old) self.new (table_of volume.new) }
        ensures room { room_of volume.new + length (history_of volume.new) ≡ room_of volume.old + length (history_of volume.old) }
        ensures answered { AreAnswered (call_at (calls_in lines.now)) (told_of volume.old) (history_of volume.old)
            → AreAnswered (call_at (calls_in lines.now)) (told_of volume.new) (history_of volume.new) }
        ensures moments { AllByRecursion (λ entry. entry.at ≡ self.old.began) (history_of volume.old) → AllByRecursion (λ entry. entry.at ≡ self.old.began) (history_of volume.new) }
        ensures synced { synced_count (call_at (calls_in lines.now)) (history_of volume.old) ≤ committed_of volume.old
            → synced_count (call_at (calls_in lines.now)) (history_of volume.new) ≤ committed_of volume.new }
        ensures unspoilt { spoilt_of volume.new ≡ None }
        ensures origin { origin_of volume.new ≡ origin_of volume.old }
    {
        let line = &lines[self.place.line];
        let progress = &mut self.progress;
        match volume.event(
            alloc, line.actor, line.seq, self.began, &line.call, progress,
        ) {
            Turn::More => {}
            Turn::Answered => self.place.step(lines),
        }
    }

    /// Makes one event of the call at its line, if it isn't at the end.
    fn act<D: Disk, C: Clock>(
        &mut self,
        alloc: Global,
        volume: &mut Volume<D>,
        clock: &mut C,
        lines: &[Line],
    )
        requires numbered { IsNumbered lines.now }
        requires found { IsFound lines.now self.old.place }
        requires stands { Stands (D.means (origin_of volume.old)) (told_of volume.old) lines.now (history_of volume.old) self.old }
        requires moment { HasMoment (C.means clock.old) self.old }
        requires room { calls_left lines.now self.old ≤ room_of volume.old }
        requires unspoilt { spoilt_of volume.old ≡ None }
        requires built { AllByRecursion (λ line. IsBuilt line.call) lines.now }
        ensures found { IsFound lines.now self.new.place }
        ensures stands { Stands (D.means (origin_of volume.new)) (told_of volume.new) lines.now (history_of volume.new) self.new }
        ensures moment { HasMoment (C.means clock.new) self.new }
        ensures number { number_of self.new ≡ number_of self.old }
        ensures turn { IsTurnOf (D.means (origin_of volume.old)) lines.now (number_of self.old) self.old self.new (answered_by_now volume.old) (answered_by_now volume.new) }
        ensures fewer { HasFewer self.old (table_of volume.old) self.new (table_of volume.new) }
        ensures room { room_of volume.new + length (history_of volume.new) ≡ room_of volume.old + length (history_of volume.old) }
        ensures answered { AreAnswered (call_at (calls_in lines.now)) (told_of volume.old) (history_of volume.old)
            → AreAnswered (call_at (calls_in lines.now)) (told_of volume.new) (history_of volume.new) }
        ensures moments { IsTrue (C.means clock.old).tells → AllByRecursion (λ entry. entry.at ≡ (C.means clock.old).moment) (history_of volume.old)
            → AllByRecursion (λ entry. entry.at ≡ (C.means clock.old).moment) (history_of volume.new) }
        ensures synced { synced_count (call_at (calls_in lines.now)) (history_of volume.old) ≤ committed_of volume.old
            → synced_count (call_at (calls_in lines.now)) (history_of volume.new) ≤ committed_of volume.new }
        ensures unspoilt { spoilt_of volume.new ≡ None }
        ensures origin { origin_of volume.new ≡ origin_of volume.old }
        ensures clock { C.means clock.new ≡ C.means clock.old }
    {
        if self.place.line < lines.len() {
            self.note_moment(clock);
            self.event(alloc, volume, lines);
        }
    }

    fn turned(&self, lines: &[Line]) -> ActorTurn
        ensures { (result ≡ Through) ↔ (length lines.now ≤ self.now.place.line) }
    {
        if self.place.line < lines.len() {
            ActorTurn::More
        } else {
            ActorTurn::Through
        }
    }

    /// Makes one event of its next call, if one is left.
    pub fn turn<D: Disk, C: Clock>(
        &mut self,
        alloc: Global,
        volume: &mut Volume<D>,
        clock: &mut C,
        script: &Script,
    ) -> ActorTurn
        requires stands { Stands (D.means (origin_of volume.old)) (told_of volume.old) script.now.calls (history_of volume.old) self.old }
        requires moment { HasMoment (C.means clock.old) self.old }
        requires room { calls_left script.now.calls self.old ≤ room_of volume.old }
        requires unspoilt { spoilt_of volume.old ≡ None }
        requires built { AllByRecursion (λ line. IsBuilt line.call) script.now.calls }
        ensures through { (result ≡ Through) ↔ IsThrough script.now.calls (history_of volume.new) self.new }
        ensures stands { Stands (D.means (origin_of volume.new)) (told_of volume.new) script.now.calls (history_of volume.new) self.new }
        ensures moment { HasMoment (C.means clock.new) self.new }
        ensures number { number_of self.new ≡ number_of self.old }

        // Nothing where no call is left; else its next call has had one turn more, or is through, and one entry comes where that turn
        // answers it.
        ensures turn { IsTurnOf (D.means (origin_of volume.old)) script.now.calls (number_of self.old) self.old self.new (answered_by_now volume.old) (answered_by_now volume.new) }
        ensures fewer { HasFewer self.old (table_of volume.old) self.new (table_of volume.new) }
        ensures room { room_of volume.new + length (history_of volume.new) ≡ room_of volume.old + length (history_of volume.old) }
        ensures answered { AreAnswered (call_at (calls_in script.now.calls)) (told_of volume.old) (history_of volume.old)
            → AreAnswered (call_at (calls_in script.now.calls)) (told_of volume.new) (history_of volume.new) }
        ensures moments { IsTrue (C.means clock.old).tells → AllByRecursion (λ entry. entry.at ≡ (C.means clock.old).moment) (history_of volume.old)
            → AllByRecursion (λ entry. entry.at ≡ (C.means clock.old).moment) (history_of volume.new) }
        ensures synced { synced_count (call_at (calls_in script.now.calls)) (history_of volume.old) ≤ committed_of volume.old
            → synced_count (call_at (calls_in script.now.calls)) (history_of volume.new) ≤ committed_of volume.new }
        ensures unspoilt { spoilt_of volume.new ≡ None }
        ensures origin { origin_of volume.new ≡ origin_of volume.old }
        ensures clock { C.means clock.new ≡ C.means clock.old }
    {
        let lines = script.calls.items();
        self.seek(lines);
        self.act(alloc, volume, clock, lines);
        self.turned(lines)
    }
}
