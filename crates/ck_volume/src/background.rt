ghost use Rattle.std.specs.Prelude.{◌≡◌, ◌+◌, ◌⊎◌, None, IsTrue, IsSome, true, false};
ghost use Rattle.ck_nodata.specs.StripItem.{unstripped_count};
ghost use Rattle.ck_model.specs.World.{World, unmounted};
ghost use Rattle.ck_files.specs.Drained.{IsDrained, IsOver, IsStepped};
ghost use Rattle.ck_engine.specs.Engine.{disk_of, mounts_of, table_of};
ghost use Rattle.ck_volume.specs.declared.background.Background.TheVariants as answer;
ghost use Rattle.ck_volume.specs.Present.{present, broken_of, world_of, IsReady, KeepsWorld, Survives};

use crate::log::Log;
use ck_disk::Disk;
use ck_engine::Engine;

/// How a background step ended.
#[derive(Clone, Copy, Debug, PartialEq, Eq)]
pub enum Background {
    Stepped,
    /// Nothing is left to do.
    Idle,
    /// The volume was broken before.
    Broken,
}

/// Takes one background step, unless the volume is broken.
pub(crate) fn step<D: Disk>(engine: &mut Engine<D>, log: &Log) -> Background
    requires ready { IsReady (D.means (disk_of engine.old)) (present engine.old log.now) }
    ensures ready { IsReady (D.means (disk_of engine.old)) (present engine.new log.now) }
    ensures disk { disk_of engine.new ≡ disk_of engine.old }
    ensures mounts { mounts_of engine.new ≡ mounts_of engine.old }
    ensures world { world_of (D.means (disk_of engine.old)).shows (present engine.new log.now) ≡ world_of (D.means (disk_of engine.old)).shows (present engine.old log.now) }
    ensures survives { log.now.broken ≡ None → Survives (D.means (disk_of engine.old)) (D.means (disk_of engine.old)) (present engine.old log.now) }
    ensures kept { log.now.broken ≡ None → IsTrue (D.means (disk_of engine.old)).tells → (w : World) → KeepsWorld (D.means (disk_of engine.old)) (present engine.old log.now) w
        → KeepsWorld (D.means (disk_of engine.old)) (present engine.new log.now) w ⊎ KeepsWorld (D.means (disk_of engine.old)) (present engine.new log.now) (unmounted (world_of (D.means (disk_of engine.old)).shows (present engine.old log.now))) }
    ensures stepped { result ≡ answer.Stepped → IsStepped (table_of engine.old) (table_of engine.new) }
    ensures idle { result ≡ answer.Idle → IsDrained (table_of engine.new) }
    ensures broken { result ≡ answer.Broken → IsSome log.now.broken }
    ensures untouched { IsSome log.now.broken → (result ≡ answer.Broken) × (engine.new ≡ engine.old) }
{
    if log.broken.is_some() {
        return Background::Broken;
    }
    if engine.step() {
        Background::Stepped
    } else {
        Background::Idle
    }
}

/// Takes all background steps that are left, unless the volume is broken.
pub(crate) fn drain<D: Disk>(engine: &mut Engine<D>, log: &Log)
    requires ready { IsReady (D.means (disk_of engine.old)) (present engine.old log.now) }
    ensures ready { IsReady (D.means (disk_of engine.old)) (present engine.new log.now) }
    ensures disk { disk_of engine.new ≡ disk_of engine.old }
    ensures mounts { mounts_of engine.new ≡ mounts_of engine.old }
    ensures world { world_of (D.means (disk_of engine.old)).shows (present engine.new log.now) ≡ world_of (D.means (disk_of engine.old)).shows (present engine.old log.now) }
    ensures survives { log.now.broken ≡ None → Survives (D.means (disk_of engine.old)) (D.means (disk_of engine.old)) (present engine.old log.now) }
    ensures kept { log.now.broken ≡ None → IsTrue (D.means (disk_of engine.old)).tells → (w : World) → KeepsWorld (D.means (disk_of engine.old)) (present engine.old log.now) w
        → KeepsWorld (D.means (disk_of engine.old)) (present engine.new log.now) w ⊎ KeepsWorld (D.means (disk_of engine.old)) (present engine.new log.now) (unmounted (world_of (D.means (disk_of engine.old)).shows (present engine.old log.now))) }
    ensures drained { log.now.broken ≡ None → IsDrained (table_of engine.new) }
    ensures untouched { IsSome log.now.broken → engine.new ≡ engine.old }
{
    if log.broken.is_none() {
        engine.drain();
    }
}

/// Strips a data block where one of this checkpoint is left to strip, and tells whether another one of it is
/// left, unless the volume is broken.
pub(crate) fn strip<D: Disk>(engine: &mut Engine<D>, log: &Log, id: u32) -> bool
    requires ready { IsReady (D.means (disk_of engine.old)) (present engine.old log.now) }
    ensures ready { IsReady (D.means (disk_of engine.old)) (present engine.new log.now) }
    ensures disk { disk_of engine.new ≡ disk_of engine.old }
    ensures mounts { mounts_of engine.new ≡ mounts_of engine.old }
    ensures world { world_of (D.means (disk_of engine.old)).shows (present engine.new log.now) ≡ world_of (D.means (disk_of engine.old)).shows (present engine.old log.now) }
    ensures survives { log.now.broken ≡ None → Survives (D.means (disk_of engine.old)) (D.means (disk_of engine.old)) (present engine.old log.now) }
    ensures kept { log.now.broken ≡ None → IsTrue (D.means (disk_of engine.old)).tells → (w : World) → KeepsWorld (D.means (disk_of engine.old)) (present engine.old log.now) w
        → KeepsWorld (D.means (disk_of engine.old)) (present engine.new log.now) w ⊎ KeepsWorld (D.means (disk_of engine.old)) (present engine.new log.now) (unmounted (world_of (D.means (disk_of engine.old)).shows (present engine.old log.now))) }
    ensures left { result ≡ true → unstripped_count (table_of engine.new) + 1 ≡ unstripped_count (table_of engine.old) }
    ensures over { result ≡ false → log.now.broken ≡ None → IsOver (table_of engine.new) id }
    ensures untouched { IsSome log.now.broken → (result ≡ false) × (engine.new ≡ engine.old) }
{
    log.broken.is_none() && engine.strip(id)
}
