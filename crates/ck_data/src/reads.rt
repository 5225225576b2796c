ghost use Rattle.std.specs.Prelude.{◌≡◌, ◌+◌, ◌≤◌, false, IsTrue, IfOk, IfErr};
ghost use Rattle.ck_model.specs.Limits.{file_limit};
ghost use Rattle.ck_model.specs.ReadCalls.{range_read};
ghost use Rattle.ck_model.specs.History.{is_fault};
ghost use Rattle.ck_model.specs.Step.{answered};
ghost use Rattle.ck_model.specs.TableWorld.{world_on};
ghost use Rattle.ck_data.specs.Device.{store_on};
ghost use Rattle.ck_files.specs.Files.{IsOurs};
ghost use Rattle.ck_files.specs.Room.{answered_with};
ghost use Rattle.ck_data.specs.Reads.{IsReadingFault};
ghost use Rattle.ck_disk.specs.Runs.{OnlyReads};

use crate::range::read_range;
use crate::{DataArea, Fault};
use ck_disk::Disk;
use ck_model::{Meta, Mounts, Octets, Path, Reply};
use ck_tree::file_at;
use std::alloc::Global;

/// Reads a file, or says why not.
pub fn read<M: Meta, D: Disk>(
    alloc: Global,
    meta: &M,
    mounts: &Mounts,
    disk: &mut D,
    area: DataArea,
    path: &Path,
    at: u64,
    len: u32,
) -> Result<Reply, Fault>
    requires limit { at ≤ file_limit }
    requires ours { IsOurs (M.table meta.now) }
    requires blocks { area.blocks ≡ (M.table meta.now).blocks }
    requires area { area.base + area.blocks ≤ (D.means disk.old).size }
    ensures reply { IfOk result (λ reply. IsTrue (D.means disk.old).tells →
        let w = world_on (store_on (D.means disk.old).shows area.base) mounts.now (M.table meta.now) in
        answered w (range_read w.primary path.now at len)
        ≡ answered_with reply (world_on (store_on (D.means disk.new).shows area.base) mounts.now (M.table meta.now))) }
    ensures ordinary { IfOk result (λ reply. is_fault reply ≡ false) }
    ensures device { OnlyReads (D.means disk.old) (D.means disk.new) }
    ensures fault { IfErr result (IsReadingFault (D.means disk.old) (D.means disk.new)) }
{
    match file_at(meta, 0, path.items()) {
        Ok(node) => {
            let bytes = read_range(alloc, disk, area, meta, 0, node, at, len)?;
            Ok(Reply::Bytes(Octets::of(bytes)))
        }
        Err(reply) => Ok(reply),
    }
}
