ghost use Rattle.std.specs.Prelude.{◌≡◌, ◌≢◌, ◌⊎◌, ℕ, Some, None, IsTrue, IsSome};
ghost use Rattle.ck_disk.specs.Disk.{Image, Rose};
ghost use Rattle.ck_model.specs.World.{World, unmounted};
ghost use Rattle.ck_engine.specs.Engine.{disk_of, mounts_of, table_of};
ghost use Rattle.ck_disk.specs.Runs.{Runs};
ghost use Rattle.ck_files.specs.Drained.{IsDrained};
ghost use Rattle.ck_engine.specs.Exact.{IsExact};
ghost use Rattle.ck_volume.specs.declared.commit.CommitAnswer.TheVariants as answer;
ghost use Rattle.ck_volume.specs.CommitAnswer.{broken_after};
ghost use Rattle.ck_volume.specs.Present.{present, length_of, broken_of, world_of, IsReady, KeepsWorld, Survives};

use crate::log::Log;
use ck_data::Fault;
use ck_disk::Disk;
use ck_engine::Engine;
use std::alloc::Global;

/// How a commit ended.
#[derive(Clone, Copy, Debug, PartialEq, Eq)]
pub enum CommitAnswer {
    Done,
    /// A write or a sync failed, and the volume is broken from now on.
    WriteFault,
    /// The volume was broken before: by the entry with this number, or by a commit after so many.
    Broken(u32),
    /// Nothing was written.
    NoMemory,
}

/// Commits the present world, unless the volume is broken. A failed write breaks it.
pub(crate) fn commit<D: Disk>(engine: &mut Engine<D>, log: &mut Log, alloc: Global) -> CommitAnswer
    requires ready { IsReady (D.means (disk_of engine.old)) (present engine.old log.old) }
    ensures ready { IsReady (D.means (disk_of engine.new)) (present engine.new log.new) }

    // The world stays, and no entry is made.
    ensures world { IsTrue (D.means (disk_of engine.old)).tells → world_of (D.means (disk_of engine.new)).shows (present engine.new log.new) ≡ world_of (D.means (disk_of engine.old)).shows (present engine.old log.old) }
    ensures mounts { mounts_of engine.new ≡ mounts_of engine.old }
    ensures history { log.new.history ≡ log.old.history }

    // A failed write breaks the volume; once it is broken it says so, and leaves the device alone.
    ensures broken { broken_of (present engine.new log.new) ≡ broken_after (length_of (present engine.old log.old)) (broken_of (present engine.old log.old)) result }
    ensures refused { (n : ℕ) → broken_of (present engine.old log.old) ≡ Some n → result ≡ answer.Broken n }
    ensures not_refused { broken_of (present engine.old log.old) ≡ None → (n : ℕ) → result ≢ answer.Broken n }
    ensures untouched { IsSome (broken_of (present engine.old log.old)) → disk_of engine.new ≡ disk_of engine.old }
    ensures cause { result ≡ answer.WriteFault → Rose (D.means (disk_of engine.old)).write_faults (D.means (disk_of engine.new)).write_faults }
    ensures runs { Runs (D.means (disk_of engine.old)) (D.means (disk_of engine.new)) }

    // Refused memory leaves files, device and log as they were.
    ensures no_memory { result ≡ answer.NoMemory → present engine.new log.new ≡ present engine.old log.old }

    // A crash at any moment of it leaves the world that was committed before, or the present one.
    ensures survives { broken_of (present engine.old log.old) ≡ None → Survives (D.means (disk_of engine.old)) (D.means (disk_of engine.new)) (present engine.old log.old) }

    // Where it isn't broken afterwards, one of the two is committed.
    ensures kept { broken_of (present engine.new log.new) ≡ None → IsTrue (D.means (disk_of engine.old)).tells → (w : World) → KeepsWorld (D.means (disk_of engine.old)) (present engine.old log.old) w
        → KeepsWorld (D.means (disk_of engine.new)) (present engine.new log.new) w ⊎ KeepsWorld (D.means (disk_of engine.new)) (present engine.new log.new) (unmounted (world_of (D.means (disk_of engine.old)).shows (present engine.old log.old))) }

    // Afterwards it leaves the present world, and nothing beside it where nothing is left to remove or to strip.
    ensures committed { result ≡ answer.Done → IsTrue (D.means (disk_of engine.old)).tells → (w : World) → KeepsWorld (D.means (disk_of engine.old)) (present engine.old log.old) w
        → KeepsWorld (D.means (disk_of engine.new)) (present engine.new log.new) (unmounted (world_of (D.means (disk_of engine.new)).shows (present engine.new log.new))) }
    ensures exact { IsDrained (table_of engine.old) → result ≡ answer.Done → IsTrue (D.means (disk_of engine.old)).tells → (w : World) → KeepsWorld (D.means (disk_of engine.old)) (present engine.old log.old) w
        → (image : Image) → (D.means (disk_of engine.new)).may_leave image → IsExact (unmounted (world_of (D.means (disk_of engine.new)).shows (present engine.new log.new))) image }
{
    if let Some(number) = log.broken {
        return CommitAnswer::Broken(number);
    }
    match engine.commit(alloc) {
        Ok(()) => CommitAnswer::Done,
        Err(Fault::NoMemory) => CommitAnswer::NoMemory,
        Err(_) => {
            log.broken = Some(log.history.length());
            CommitAnswer::WriteFault
        }
    }
}
