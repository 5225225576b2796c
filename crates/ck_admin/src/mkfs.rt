ghost use Rattle.ck_log.specs.Layout.{IsSized, size_of};
ghost use Rattle.std.specs.Prelude.{◌≡◌, ◌<◌};
ghost use Rattle.ck_admin.specs.Play.{IsLater};
ghost use Rattle.ck_admin.specs.Top.{EndsMkfs};

use crate::command::Ended;
use crate::refusal::bad_size;
use crate::volume::not_opened;
use ck_disk::Disk;
use ck_engine::FormatFault;
use ck_report::Status;
use ck_volume::Volume;
use std::alloc::Global;

/// Makes a volume with so many data blocks and records on a device, over whatever stood there.
pub fn mkfs<D: Disk>(alloc: Global, disk: D, blocks: u32, records: u32) -> Ended<D>
    requires { IsSized blocks records }
    ensures ends { EndsMkfs blocks records (D.means disk) (D.means result.disk) result.status }
    ensures short { (D.means disk).size < size_of blocks records → result.disk ≡ disk }
    ensures later { IsLater (D.means disk) (D.means result.disk) }
{
    match Volume::format(alloc, disk, blocks, records) {
        Ok(volume) => Ended {
            status: Status::Done,
            disk: volume.close().disk,
        },
        Err(FormatFault::BadSize(disk, needs, has)) => Ended {
            status: not_opened(bad_size(alloc, needs, has)),
            disk,
        },
        Err(FormatFault::WriteFault(disk)) => Ended {
            status: Status::DeviceFault,
            disk,
        },
        Err(FormatFault::NoMemory(disk)) => Ended {
            status: Status::NoMemory,
            disk,
        },
    }
}
