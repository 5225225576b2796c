ghost use Rattle.std.specs.Prelude.{IfOk, IfErr};
ghost use Rattle.ck_log.specs.Layout.{IsSized};
ghost use Rattle.ck_engine.specs.Formatted.{IsFormatted, IsFormatFault};
ghost use Rattle.ck_engine.specs.Engine.{disk_of};

use crate::engine::Engine;
use crate::open::blocks_in;
use ck_disk::Disk;
use ck_files::before_all;
use ck_log::{FormatLog, Region};
use ck_model::Mounts;
use ck_slots::Slots;
use std::alloc::Global;

/// Why a device wasn't formatted, with the device.
#[derive(Drop)]
pub enum FormatFault<D> {
    /// It is too short, and was left as it is: how many blocks are needed, and how many it has.
    BadSize(D, u32, u32),
    /// A write or a sync failed.
    WriteFault(D),
    NoMemory(D),
}

impl<D: Disk> Engine<D> {
    /// Makes a volume with so many data blocks and records on a device, over whatever stood there.
    pub fn format(
        alloc: Global,
        disk: D,
        blocks: u32,
        records: u32,
    ) -> Result<Engine<D>, FormatFault<D>>
        requires { IsSized blocks records }
        ensures formatted { IfOk result (λ engine. IsFormatted blocks records (D.means disk) (D.means (disk_of engine)) engine) }
        ensures fault { IfErr result (IsFormatFault D.means blocks records disk) }
    {
        let mut disk = disk;
        let region = match Region::format(&mut disk, blocks, records) {
            Ok(region) => region,
            Err(FormatLog::BadSize { needs, has }) => {
                return Err(FormatFault::BadSize(disk, needs, has));
            }
            Err(FormatLog::WriteFault) => return Err(FormatFault::WriteFault(disk)),
        };
        let Ok(slots) = Slots::format(alloc, &region) else {
            return Err(FormatFault::NoMemory(disk));
        };
        let Ok(blocks) = blocks_in(alloc, &slots) else {
            return Err(FormatFault::NoMemory(disk));
        };
        Ok(Engine {
            slots,
            region,
            blocks,
            stripped: before_all(),
            mounts: Mounts::new(alloc),
            disk,
        })
    }
}
