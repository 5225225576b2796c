ghost use Rattle.std.specs.Prelude.{◌≡◌, ◌≤◌, IsTrue, IfOk, IfErr};
ghost use Rattle.ck_disk.specs.Disk.{IsSynced};
ghost use Rattle.ck_log.specs.Header.{Opens};
ghost use Rattle.ck_log.specs.Images.{recovered_region, Settled};
ghost use Rattle.ck_log.specs.Layout.{size_of};
ghost use Rattle.ck_slots.specs.Slots.{table_in};
ghost use Rattle.ck_files.specs.Allocated.{IsAllocated};
ghost use Rattle.ck_engine.specs.Opened.{IsOpened, IsOpenFault};
ghost use Rattle.ck_files.specs.Files.{IsOurs};
ghost use Rattle.ck_engine.specs.Engine.{disk_of};

use crate::engine::Engine;
use ck_alloc::Blocks;
use ck_disk::Disk;
use ck_files::before_all;
use ck_log::{OpenLog, Region};
use ck_model::{Mounts, NoMemory};
use ck_slots::{OpenSlots, Slots};
use std::alloc::Global;

/// Why a device isn't opened, with the device.
#[derive(Drop)]
pub enum OpenFault<D> {
    /// It has no volume, or too few blocks for it.
    NotVolume(D),
    /// The volume is of another format, or has a form that this version doesn't read.
    BadFormat(D, u32),
    /// The lowest slot that breaks a rule: the device's block, and the place in it, from 0.
    Damaged(D, u32, u32),
    ReadFault(D),
    WriteFault(D),
    NoMemory(D),
}

/// The data blocks of a table: those that it names are in use, and the rest are free.
pub fn blocks_in(alloc: Global, slots: &Slots) -> Result<Blocks, NoMemory>
    requires { IsOurs (table_in slots.now) }
    ensures { IfOk result (IsAllocated (table_in slots.now)) }
{
    let used = slots.extents(alloc)?;
    Blocks::rebuild(alloc, slots.blocks(), &used)
}

impl<D: Disk> Engine<D> {
    /// The volume in a region that was just opened.
    fn open_in(alloc: Global, region: Region, disk: D) -> Result<Engine<D>, OpenFault<D>>
        requires size { size_of region.blocks region.records ≤ (D.means disk).size }
        requires found { IsTrue (D.means disk).tells → recovered_region (D.means disk).shows ≡ Opens region }
        requires settled { Settled region (D.means disk) }
        requires synced { IsSynced (D.means disk) }
        ensures opened { IfOk result (λ engine. IsOpened (D.means disk) (D.means (disk_of engine)) engine) }
        ensures fault { IfErr result (IsOpenFault D.means (D.means disk)) }
    {
        let mut disk = disk;
        let slots = match Slots::open(alloc, &region, &mut disk) {
            Ok(slots) => slots,
            Err(OpenSlots::Damaged { block, slot }) => {
                return Err(OpenFault::Damaged(disk, block, slot));
            }
            Err(OpenSlots::ReadFault) => return Err(OpenFault::ReadFault(disk)),
            Err(OpenSlots::NoMemory) => return Err(OpenFault::NoMemory(disk)),
        };
        let Ok(blocks) = blocks_in(alloc, &slots) else {
            return Err(OpenFault::NoMemory(disk));
        };
        Ok(Engine {
            slots,
            region,
            blocks,
            stripped: before_all(),
            mounts: Mounts::new(alloc),
            disk,
        })
    }

    /// Opens the volume on a device, with the table that was committed last.
    pub fn open(alloc: Global, disk: D) -> Result<Engine<D>, OpenFault<D>>
        ensures opened { IfOk result (λ engine. IsOpened (D.means disk) (D.means (disk_of engine)) engine) }
        ensures fault { IfErr result (IsOpenFault D.means (D.means disk)) }
    {
        let mut disk = disk;
        let region = match Region::open_on(&mut disk) {
            Ok(region) => region,
            Err(OpenLog::NotVolume) => return Err(OpenFault::NotVolume(disk)),
            Err(OpenLog::BadFormat(version)) => return Err(OpenFault::BadFormat(disk, version)),
            Err(OpenLog::Damaged { block, slot }) => {
                return Err(OpenFault::Damaged(disk, block, slot));
            }
            Err(OpenLog::ReadFault) => return Err(OpenFault::ReadFault(disk)),
            Err(OpenLog::WriteFault) => return Err(OpenFault::WriteFault(disk)),
            Err(OpenLog::NoMemory) => return Err(OpenFault::NoMemory(disk)),
        };
        Engine::open_in(alloc, region, disk)
    }
}
