ghost use Rattle.std.specs.Prelude.{◌≡◌, ◌≢◌, ◌+◌, ◌≤◌, IsTrue, IfErr, OnOk};
ghost use Rattle.std.specs.FinSet as set;
ghost use Rattle.ck_disk.specs.Disk.{Image};
ghost use Rattle.ck_alloc.specs.Blocks.{free_count};
ghost use Rattle.ck_model.specs.World.{World, unmounted};
ghost use Rattle.ck_model.specs.TableWorld.{extent_count};
ghost use Rattle.ck_files.specs.Drained.{IsDrained};
ghost use Rattle.ck_files.specs.Reports.{limits_of};
ghost use Rattle.ck_data.specs.declared.fault.Fault.TheVariants as fault;
ghost use Rattle.ck_data.specs.Writes.{IsWritingFault};
ghost use Rattle.ck_engine.specs.Exact.{IsExact};
ghost use Rattle.ck_engine.specs.Engine.{disk_of, mounts_of, blocks_of, table_of, layout_of, data_of, world_of, IsWhole, KeepsWorld, GoesOnOrBreaks, IsAttempt, no_memory};

use ck_alloc::Blocks;
use ck_data::{DataArea, Fault};
use ck_disk::Disk;
use ck_log::Region;
use ck_model::{CHECKPOINT_LIMIT, Limits, Mounts};
use ck_nodata::StripItem;
use ck_slots::{CommitFault, Slots};
use std::alloc::Global;

/// The files of a volume on a device: its table in memory, its data blocks on the device. Once a
/// write of it has failed, it isn't asked for anything any more.
#[derive(Drop)]
pub struct Engine<D> {
    pub(crate) slots: Slots,
    /// Where the table is committed.
    pub(crate) region: Region,
    pub(crate) blocks: Blocks,
    /// Up to where nothing is left to strip of checkpoints that keep no data.
    pub(crate) stripped: StripItem,
    pub(crate) mounts: Mounts,
    pub(crate) disk: D,
}

impl<D: Disk> Engine<D> {
    /// Commits the table: afterwards a crash leaves the present world, without its mounts. The
    /// pending data blocks are free then.
    pub fn commit(&mut self, alloc: Global) -> Result<(), Fault>
        requires whole { IsWhole (D.means (disk_of self.old)) self.old }
        ensures attempt { IsAttempt (D.means (disk_of self.old)) (D.means (disk_of self.new)) self.old self.new }
        ensures goes_on { GoesOnOrBreaks (D.means (disk_of self.old)) (D.means (disk_of self.new)) self.old self.new result }
        ensures committed { OnOk result (IsTrue (D.means (disk_of self.old)).tells → (w : World) → KeepsWorld (D.means (disk_of self.old)) self.old w
            → KeepsWorld (D.means (disk_of self.new)) self.new (unmounted (world_of (D.means (disk_of self.new)).shows self.new))) }
        ensures world { IsTrue (D.means (disk_of self.old)).tells → world_of (D.means (disk_of self.new)).shows self.new ≡ world_of (D.means (disk_of self.old)).shows self.old }
        ensures table { table_of self.new ≡ table_of self.old }
        ensures mounts { mounts_of self.new ≡ mounts_of self.old }
        ensures settled { OnOk result (blocks_of self.new ≡ record (blocks_of self.old) { pending = set.empty }) }
        ensures fault { IfErr result (IsWritingFault (D.means (disk_of self.old)) (D.means (disk_of self.new))) }
        ensures no_read { IfErr result (λ why. why ≢ fault.ReadFault) }

        // Refused memory leaves it as it was: the device isn't called.
        ensures no_memory { IfErr result (λ why. why ≡ no_memory → self.new ≡ self.old) }

        // Afterwards a crash leaves the present world, and nothing beside it where nothing is left to remove or to strip.
        ensures exact { IsDrained (table_of self.old) → OnOk result (IsTrue (D.means (disk_of self.old)).tells → (w : World) → KeepsWorld (D.means (disk_of self.old)) self.old w
            → (image : Image) → (D.means (disk_of self.new)).may_leave image → IsExact (unmounted (world_of (D.means (disk_of self.new)).shows self.new)) image) }
    {
        match self.slots.commit(alloc, &mut self.region, &mut self.disk) {
            Ok(()) => {
                self.blocks.settle();
                Ok(())
            }
            Err(CommitFault::WriteFault) => Err(Fault::WriteFault),
            Err(CommitFault::NoMemory) => Err(Fault::NoMemory),
        }
    }

    /// The device.
    pub fn disk(&self) -> &D
        ensures { result.now ≡ disk_of self.now }
    {
        &self.disk
    }

    /// Ends its use. What wasn't committed is lost.
    pub fn into_disk(self) -> D
        ensures { result ≡ disk_of self }
    {
        let Engine {
            slots: _,
            region: _,
            blocks: _,
            stripped: _,
            mounts: _,
            disk,
        } = self;
        disk
    }

    /// Where the data blocks stand.
    pub(crate) fn area(&self) -> DataArea
        ensures { result ≡ record { base = data_of self.now; blocks = (table_of self.now).blocks } }
    {
        DataArea {
            base: self.region.base(),
            blocks: self.slots.blocks(),
        }
    }

    /// What it has room for.
    pub(crate) fn limits(&self) -> Limits
        ensures { result ≡ limits_of (table_of self.now) }
    {
        Limits {
            blocks: self.slots.blocks(),
            records: self.slots.records(),
            checkpoints: CHECKPOINT_LIMIT,
        }
    }

    /// Commits where fewer data blocks are free, so that so many are: those that aren't in use are
    /// pending or free.
    pub(crate) fn free_blocks(&mut self, alloc: Global, count: u32) -> Result<(), Fault>
        requires whole { IsWhole (D.means (disk_of self.old)) self.old }
        requires room { extent_count (table_of self.old) + count ≤ (table_of self.old).blocks }
        ensures attempt { IsAttempt (D.means (disk_of self.old)) (D.means (disk_of self.new)) self.old self.new }
        ensures goes_on { GoesOnOrBreaks (D.means (disk_of self.old)) (D.means (disk_of self.new)) self.old self.new result }
        ensures free { OnOk result (count ≤ free_count (blocks_of self.new)) }
        ensures world { IsTrue (D.means (disk_of self.old)).tells → world_of (D.means (disk_of self.new)).shows self.new ≡ world_of (D.means (disk_of self.old)).shows self.old }
        ensures table { table_of self.new ≡ table_of self.old }
        ensures mounts { mounts_of self.new ≡ mounts_of self.old }
        ensures fault { IfErr result (IsWritingFault (D.means (disk_of self.old)) (D.means (disk_of self.new))) }
    {
        if self.blocks.free() >= count {
            return Ok(());
        }
        self.commit(alloc)
    }
}
