ghost use Rattle.std.specs.Prelude.{◌≡◌, ◌⊎◌, ◌+◌, ◌-◌, ◌≤◌, true, IsTrue, IfErr, OnOk, OnErr};
ghost use Rattle.ck_alloc.specs.Blocks.{free_count};
ghost use Rattle.ck_model.specs.declared.reply.Reply.TheVariants.{Done};
ghost use Rattle.ck_model.specs.Held.{IsCounters};
ghost use Rattle.ck_model.specs.Step.{changing};
ghost use Rattle.ck_model.specs.World.{Mounts};
ghost use Rattle.ck_model.specs.TableWorld.{world_on};
ghost use Rattle.ck_push.specs.Growth.{gains, losses, write_count};
ghost use Rattle.ck_nodata.specs.declared.item.StripItem.{StripItem};
ghost use Rattle.ck_nodata.specs.StripItem.{IsStrippedTo};
ghost use Rattle.ck_tree.specs.Plan.{IsPlan, numbers_after};
ghost use Rattle.ck_model.specs.FileCalls.{IsChanging, changed_by};
ghost use Rattle.ck_data.specs.declared.fault.Fault.TheVariants.{ReadFault, WriteFault};
ghost use Rattle.ck_files.specs.Allocated.{IsAllocated, KeepsBusy};
ghost use Rattle.ck_data.specs.Device.{store_on};
ghost use Rattle.ck_files.specs.Files.{AreFiles};
ghost use Rattle.ck_files.specs.Room.{answered_with, has_room};
ghost use Rattle.ck_data.specs.Stored.{OnlyStores};
ghost use Rattle.ck_data.specs.Writes.{IsWritingFault};

use crate::places::store_all;
use crate::{DataArea, Fault};
use ck_alloc::Blocks;
use ck_disk::Disk;
use ck_files::change_all;
use ck_model::{Call, Change, Counters, Limits, Meta};

/// The numbers that are given next, after a call.
fn numbers_after(call: &Call, next: Counters) -> Counters
    requires { IsCounters (numbers_after call.now next) }
    ensures { result ≡ numbers_after call.now next }
{
    let number = match call {
        Call::Make(_) | Call::Mkdir(_) => next.number + 1,
        _ => next.number,
    };
    Counters {
        stamp: next.stamp + 1,
        number,
        ..next
    }
}

/// Makes a call's planned changes. The data blocks that they write are stored first, in free
/// places; a failure leaves the table as it is.
pub fn apply_planned<M: Meta, D: Disk>(
    meta: &mut M,
    blocks: &mut Blocks,
    limits: Limits,
    disk: &mut D,
    area: DataArea,
    call: &Call,
    changes: &mut [Change],
) -> Result<(), Fault>
    requires files { AreFiles limits (M.table meta.old) blocks.old }
    requires changing { IsChanging call.now }
    requires plan { IsPlan (M.table meta.old) call.now changes.old }
    requires room { has_room (M.table meta.old) (write_count changes.old) (gains (M.table meta.old) changes.old - losses (M.table meta.old) changes.old) ≡ true }
    requires free { write_count changes.old ≤ free_count blocks.old }
    requires blocks_are { area.blocks ≡ limits.blocks }
    requires area { area.base + area.blocks ≤ (D.means disk.old).size }
    ensures done { OnOk result (IsTrue (D.means disk.old).tells → (mounts : Mounts) →
        let w = world_on (store_on (D.means disk.old).shows area.base) mounts (M.table meta.old) in
        changing w (changed_by w call.now)
        ≡ answered_with Done (world_on (store_on (D.means disk.new).shows area.base) mounts (M.table meta.new))) }
    ensures files { OnOk result (AreFiles limits (M.table meta.new) blocks.new) }
    ensures busy { KeepsBusy blocks.old blocks.new }
    ensures table { OnErr result (M.table meta.new ≡ M.table meta.old) }
    ensures err { IfErr result (λ fault. ((fault ≡ ReadFault) × IsAllocated (M.table meta.old) blocks.new) ⊎ (fault ≡ WriteFault)) }
    ensures device { OnlyStores area.base blocks.old (D.means disk.old) (D.means disk.new) }
    ensures fault { IfErr result (IsWritingFault (D.means disk.old) (D.means disk.new)) }
    // No data block is left to strip where none was.
    ensures stripped { (last : StripItem) → IsStrippedTo (M.table meta.old) last → IsStrippedTo (M.table meta.new) last }
{
    store_all(meta, blocks, disk, area, call, changes)?;
    let counters = meta.counters();
    let next = numbers_after(call, counters);
    change_all(meta, blocks, limits, next, changes, counters.stamp);
    Ok(())
}
