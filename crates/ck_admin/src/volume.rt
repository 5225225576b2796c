ghost use Rattle.std.specs.Prelude.{◌≡◌, [], None, IfOk, IfErr};
ghost use Rattle.ck_volume.specs.Volume.{disk_of, origin_of, told_of, spoilt_of, IsOpened};
ghost use Rattle.ck_admin.specs.Statuses.{IsOpenStatus, not_opened_status};

use crate::command::Ended;
use crate::refusal::{bad_format, damaged, not_volume};
use ck_disk::Disk;
use ck_engine::OpenFault;
use ck_model::{NoMemory, Octets};
use ck_report::Status;
use ck_volume::Volume;
use std::alloc::Global;

/// The status that says why a device isn't opened, in these words.
pub fn not_opened(words: Result<Octets, NoMemory>) -> Status
    ensures { result ≡ not_opened_status words }
{
    match words {
        Ok(words) => Status::NotOpened(words),
        Err(_) => Status::NoMemory,
    }
}

/// Opens the volume on a device. Where it isn't opened the command ends so.
pub fn open<D: Disk>(alloc: Global, disk: D) -> Result<Volume<D>, Ended<D>>
    ensures unspoilt { IfOk result (λ volume. spoilt_of volume ≡ None) }
    ensures origin { IfOk result (λ volume. origin_of volume ≡ disk_of volume) }
    ensures told { IfOk result (λ volume. told_of volume ≡ []) }
    ensures opened { IfOk result (λ volume. IsOpened (D.means disk) (D.means (disk_of volume)) volume) }
    ensures refused { IfErr result (λ ended. IsOpenStatus (D.means disk) (D.means ended.disk) ended.status) }
{
    match Volume::open(alloc, disk) {
        Ok(volume) => Ok(volume),
        Err(OpenFault::NotVolume(disk)) => Err(Ended {
            status: not_opened(not_volume(alloc)),
            disk,
        }),
        Err(OpenFault::BadFormat(disk, version)) => Err(Ended {
            status: not_opened(bad_format(alloc, version)),
            disk,
        }),
        Err(OpenFault::Damaged(disk, block, slot)) => Err(Ended {
            status: not_opened(damaged(alloc, block, slot)),
            disk,
        }),
        Err(OpenFault::ReadFault(disk) | OpenFault::WriteFault(disk)) => Err(Ended {
            status: Status::DeviceFault,
            disk,
        }),
        Err(OpenFault::NoMemory(disk)) => Err(Ended {
            status: Status::NoMemory,
            disk,
        }),
    }
}
