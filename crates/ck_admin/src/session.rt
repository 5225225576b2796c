ghost use Rattle.std.specs.Prelude.{◌≡◌, ◌≤◌, [], None, IfOk, OnErr, IsTrue, length};
ghost use Rattle.std.specs.List.{AllByRecursion};
ghost use Rattle.ck_files.specs.Built.{IsBuilt};
ghost use Rattle.ck_volume.specs.Volume.{disk_of, history_of, spoilt_of, told_of, origin_of, world_of, IsBegun};
ghost use Rattle.ck_engine.specs.Recovery.{Recovers};
ghost use Rattle.ck_admin.specs.Crash.{IsPlayed};
ghost use Rattle.ck_admin.specs.Play.{parsed};

use ck_actor::play;
use ck_disk::Disk;
use ck_io::Clock;
use ck_model::NoMemory;
use ck_script::Script;
use ck_volume::{CommitAnswer, Volume};
use std::alloc::Global;

/// Plays a script on a volume that was just opened, and commits its world.
pub fn play_and_commit<D: Disk, C: Clock>(
    alloc: Global,
    volume: &mut Volume<D>,
    script: &Script,
    clock: &mut C,
) -> Result<CommitAnswer, NoMemory>
    requires begun { IsBegun (D.means (disk_of volume.old)) volume.old }
    requires origin { origin_of volume.old ≡ disk_of volume.old }
    requires recovers { IsTrue (D.means (disk_of volume.old)).tells → Recovers (D.means (disk_of volume.old)).shows (world_of (D.means (disk_of volume.old)).shows volume.old) }
    requires told { told_of volume.old ≡ [] }
    requires unspoilt { spoilt_of volume.old ≡ None }
    requires built { AllByRecursion (λ line. IsBuilt line.call) script.now.calls }
    requires few { length script.now.calls ≤ 65536 }
    ensures played { IfOk result (λ committed. IsPlayed (parsed script.now) (C.means clock.old) (world_of (D.means (disk_of volume.old)).shows volume.old)
        (D.means (disk_of volume.old)) (D.means (disk_of volume.new)) (history_of volume.new) committed) }
    ensures refused { OnErr result (disk_of volume.new ≡ disk_of volume.old) }
    ensures none { OnErr result (history_of volume.new ≡ []) }
    ensures clock { C.means clock.new ≡ C.means clock.old }
{
    play(alloc, volume, script, clock)?;
    Ok(volume.commit(alloc))
}
