ghost use Rattle.std.specs.Prelude.{◌≡◌, ◌≤◌, ◌<◌, ◌+◌, suc, [], None, Some, OnOk, OnErr, IfOk, IsTrue, length, slice_get, take as list_take};
ghost use Rattle.std.specs.List.{AllByRecursion};
ghost use Rattle.ck_model.specs.History.{IsOfScript, call_at};
ghost use Rattle.ck_model.specs.Streams.{Texts};
ghost use Rattle.ck_model.specs.World.{World};
ghost use Rattle.ck_script.specs.Numbered.{calls_in};
ghost use Rattle.ck_files.specs.Built.{IsBuilt};
ghost use Rattle.ck_files.specs.Drained.{IsDrained};
ghost use Rattle.ck_engine.specs.Recovery.{Recovers};
ghost use Rattle.ck_volume.specs.Told.{AreAnswered};
ghost use Rattle.ck_volume.specs.TopCuts.{synced_count};
ghost use Rattle.ck_volume.specs.Volume.{broken_of, committed_of, disk_of, history_of, origin_of, spoilt_of, table_of, told_of, IsBegun};
ghost use Rattle.ck_actor.specs.declared.actor.Actor.{Actor};
ghost use Rattle.ck_actor.specs.Actor.{HasFewer};
ghost use Rattle.ck_actor.specs.Counts.{TurnCounts};
ghost use Rattle.ck_actor.specs.Played.{AreBegun, AreFinished, AreTurned, HasStepped, IsPlaying, IsUnderWay};
ghost use Rattle.ck_actor.specs.Turns.{parsed, Follows};
ghost use Rattle.ck_actor.specs.Walk.{Standings};

use crate::actor::Actor;
use ck_disk::Disk;
use ck_io::Clock;
use ck_model::NoMemory;
use ck_script::Script;
use ck_volume::Volume;
use std::alloc::Global;

/// The actors with the numbers from 1 to 64, before all lines.
fn actors(alloc: Global) -> Result<Vec<Actor>, NoMemory>
    ensures { IfOk result (λ actors. AreBegun actors.items) }
{
    let mut actors = Vec::with_capacity(alloc, 64)?;
    for number in 1..65 {
        actors.push(Actor::new(number))?;
    }
    Ok(actors)
}

/// Takes the turn of the actor at a place, whose number is one more.
fn take_own<D: Disk, C: Clock>(
    alloc: Global,
    volume: &mut Volume<D>,
    script: &Script,
    clock: &mut C,
    actors: &mut [Actor],
    place: usize,
)
    requires within { place < 64 }
    requires under_way { IsPlaying D.means (origin_of volume.old) (C.means clock.old) script.now.calls volume.old actors.old }
    requires built { AllByRecursion (λ line. IsBuilt line.call) script.now.calls }
    ensures stepped { (at : Standings) (known : TurnCounts) → IsUnderWay D.means (origin_of volume.old) (C.means clock.old) script.now.calls volume.old actors.old at known
        → HasStepped D.means (origin_of volume.old) (C.means clock.old) script.now.calls (suc place) at known volume.old volume.new actors.new }
    ensures fewer { (was moved : Actor) → slice_get actors.old place ≡ Some was → slice_get actors.new place ≡ Some moved → HasFewer was (table_of volume.old) moved (table_of volume.new) }
    ensures clock { C.means clock.new ≡ C.means clock.old }
{
    actors[place].turn(alloc, volume, clock, script);
}

/// Takes the turn with this number, counted from 0, of those that the script lists: an actor's, or the
/// background's.
fn take<D: Disk, C: Clock>(
    alloc: Global,
    volume: &mut Volume<D>,
    script: &Script,
    clock: &mut C,
    actors: &mut [Actor],
    at: usize,
)
    requires within { at < length script.now.turns }
    requires turned { AreTurned D.means (origin_of volume.old) (C.means clock.old) script.now.calls (list_take at script.now.turns) volume.old actors.old }
    requires built { AllByRecursion (λ line. IsBuilt line.call) script.now.calls }
    ensures turned { AreTurned D.means (origin_of volume.old) (C.means clock.old) script.now.calls (list_take (at + 1) script.now.turns) volume.new actors.new }
    ensures clock { C.means clock.new ≡ C.means clock.old }
{
    let number = script.turns.items()[at];
    if number == 0 {
        volume.background();
    } else {
        take_own(alloc, volume, script, clock, actors, number as usize - 1);
    }
}

/// Takes the turns that the script lists.
fn take_all<D: Disk, C: Clock>(
    alloc: Global,
    volume: &mut Volume<D>,
    script: &Script,
    clock: &mut C,
    actors: &mut [Actor],
)
    requires turned { AreTurned D.means (origin_of volume.old) (C.means clock.old) script.now.calls [] volume.old actors.old }
    requires built { AllByRecursion (λ line. IsBuilt line.call) script.now.calls }
    ensures turned { AreTurned D.means (origin_of volume.old) (C.means clock.old) script.now.calls script.now.turns volume.new actors.new }
    ensures clock { C.means clock.new ≡ C.means clock.old }
{
    for at in 0..script.turns.items().len() {
        take(alloc, volume, script, clock, actors, at);
    }
}

/// Takes an actor's turns until the call of its line is through.
fn finish<D: Disk, C: Clock>(
    alloc: Global,
    volume: &mut Volume<D>,
    script: &Script,
    clock: &mut C,
    actors: &mut [Actor],
    line: usize,
)
    requires within { line < length script.now.calls }
    requires finished { AreFinished D.means (origin_of volume.old) (C.means clock.old) script.now.calls script.now.turns line volume.old actors.old }
    requires built { AllByRecursion (λ line. IsBuilt line.call) script.now.calls }
    ensures finished { AreFinished D.means (origin_of volume.old) (C.means clock.old) script.now.calls script.now.turns (line + 1) volume.new actors.new }
    ensures clock { C.means clock.new ≡ C.means clock.old }
{
    let lines = script.calls.items();
    let place = lines[line].actor as usize - 1;
    while actors[place].is_left(line) {
        take_own(alloc, volume, script, clock, actors, place);
    }
}

/// Answers the calls that are left, in the order of their lines, each to its end.
fn finish_all<D: Disk, C: Clock>(
    alloc: Global,
    volume: &mut Volume<D>,
    script: &Script,
    clock: &mut C,
    actors: &mut [Actor],
)
    requires turned { AreTurned D.means (origin_of volume.old) (C.means clock.old) script.now.calls script.now.turns volume.old actors.old }
    requires built { AllByRecursion (λ line. IsBuilt line.call) script.now.calls }
    ensures finished { AreFinished D.means (origin_of volume.old) (C.means clock.old) script.now.calls script.now.turns (length script.now.calls) volume.new actors.new }
    ensures clock { C.means clock.new ≡ C.means clock.old }
{
    for line in 0..script.calls.items().len() {
        finish(alloc, volume, script, clock, actors, line);
    }
}

/// Plays a script on a volume that was just opened: its turns, then the calls that are left, each to
/// its end, and then what is left in the background. It takes memory for the entries of all its calls
/// before the first one.
pub fn play<D: Disk, C: Clock>(
    alloc: Global,
    volume: &mut Volume<D>,
    script: &Script,
    clock: &mut C,
) -> Result<(), NoMemory>
    requires begun { IsBegun (D.means (disk_of volume.old)) volume.old }
    requires told { told_of volume.old ≡ [] }
    requires unspoilt { spoilt_of volume.old ≡ None }
    requires built { AllByRecursion (λ line. IsBuilt line.call) script.now.calls }
    requires few { length script.now.calls ≤ 65536 }
    ensures of_script { OnOk result (IsOfScript (calls_in script.now.calls) (history_of volume.new)) }
    ensures moments { OnOk result (IsTrue (C.means clock.old).tells → AllByRecursion (λ entry. entry.at ≡ (C.means clock.old).moment) (history_of volume.new)) }
    ensures unspoilt { OnOk result (spoilt_of volume.new ≡ None) }
    ensures answered { OnOk result (AreAnswered (call_at (calls_in script.now.calls)) (told_of volume.new) (history_of volume.new)) }
    ensures synced { OnOk result (synced_count (call_at (calls_in script.now.calls)) (history_of volume.new) ≤ committed_of volume.new) }
    ensures origin { origin_of volume.new ≡ origin_of volume.old }
    ensures refused { OnErr result (disk_of volume.new ≡ disk_of volume.old) }
    ensures drained { OnOk result (broken_of volume.new ≡ None → IsDrained (table_of volume.new)) }
    ensures none { OnErr result (history_of volume.new ≡ []) }
    ensures clock { C.means clock.new ≡ C.means clock.old }

    // Where the origin tells what it holds, the history follows the script's turns from the world that it recovers to,
    // whatever the texts of streams are.
    ensures follows { OnOk result (IsTrue (D.means (origin_of volume.old)).tells → (w : World) → Recovers (D.means (origin_of volume.old)).shows w
        → (texts : Texts) → Follows texts (parsed script.now) w (history_of volume.new)) }
{
    volume.reserve(script.calls.items().len() as u32)?;
    let mut actors = actors(alloc)?;
    take_all(alloc, volume, script, clock, &mut actors);
    finish_all(alloc, volume, script, clock, &mut actors);
    volume.drain();
    Ok(())
}
