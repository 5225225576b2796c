// The header: the block that says what volume a device has.
ghost use Rattle.std.specs.Prelude.{◌≡◌, ◌≤◌, Bool, true, [], get_or, IsTrue, IfOk, IfErr};
ghost use Rattle.ck_log.specs.Layout.{IsSized, is_sized, size_of};
ghost use Rattle.ck_log.specs.Header.{header_of, recovered_by, Opens};
ghost use Rattle.ck_disk.specs.Runs.{OnlyReads};
ghost use Rattle.ck_log.specs.Faults.{IsRefusal, IsOpenFault};

use crate::faults::OpenLog;
use crate::layout::device_blocks;
use ck_disk::{Block, Disk};
use ck_num::{get_u32, put_u32};

/// The header's block.
pub const HEADER: u32 = 0;

/// What stands first in a header.
const MAGIC: &[u8; 8] = b"CKPTVOL1";

/// The format of the layout of this crate.
const FORMAT: u32 = 0;

/// The numbers that a header states of its volume.
#[derive(Clone, Copy)]
pub struct Sizes {
    pub blocks: u32,
    pub records: u32,
}

/// The header of a volume.
pub fn header_block(blocks: u32, records: u32) -> Block
    ensures { result ≡ header_of blocks records }
{
    let mut header = [0; 4096];
    header[..8].copy_from_slice(MAGIC);
    put_u32(&mut header, 8, FORMAT);
    put_u32(&mut header, 12, blocks);
    put_u32(&mut header, 16, records);
    header
}

/// The sizes of the volume that a device of so many blocks has by this header.
pub fn sizes_in(header: &Block, size: u32) -> Result<Sizes, OpenLog>
    ensures opens { IfOk result
        (λ sizes. (second : Bool)
        → recovered_by header.now second size
        ≡ Opens (record { blocks = sizes.blocks; records = sizes.records; second = second })) }
    ensures sized { IfOk result (λ sizes. IsSized sizes.blocks sizes.records) }
    ensures fits { IfOk result (λ sizes. size_of sizes.blocks sizes.records ≤ size) }
    ensures refused { IfErr result
        (λ fault. (second : Bool) → IsRefusal (recovered_by header.now second size) fault) }
{
    if header[..8] != MAGIC[..] {
        return Err(OpenLog::NotVolume);
    }
    let format = get_u32(header, 8);
    if format != FORMAT {
        return Err(OpenLog::BadFormat(format));
    }
    let blocks = get_u32(header, 12);
    let records = get_u32(header, 16);
    if !is_sized(blocks, records) || device_blocks(blocks, records) > size {
        return Err(OpenLog::NotVolume);
    }
    Ok(Sizes { blocks, records })
}

/// Reads the sizes of the volume on the device.
pub fn read_sizes<D: Disk>(disk: &mut D) -> Result<Sizes, OpenLog>
    ensures opens { IfOk result
        (λ sizes. IsTrue (D.means disk.old).tells → (second : Bool)
        → recovered_by (get_or (D.means disk.old).shows 0 []) second (D.means disk.old).size
        ≡ Opens (record { blocks = sizes.blocks; records = sizes.records; second = second })) }
    ensures sized { IfOk result (λ sizes. IsSized sizes.blocks sizes.records) }
    ensures fits { IfOk result
        (λ sizes. size_of sizes.blocks sizes.records ≤ (D.means disk.old).size) }
    ensures device { OnlyReads (D.means disk.old) (D.means disk.new) }
    ensures refused { IfErr result (IsOpenFault (D.means disk.old) (D.means disk.new)) }
{
    let size = disk.blocks();
    let mut header = [0; 4096];
    if size == 0 {
        return Err(OpenLog::NotVolume);
    }
    match disk.read(HEADER, &mut header) {
        Ok(()) => sizes_in(&header, size),
        Err(_) => Err(OpenLog::ReadFault),
    }
}

/// Whether these numbers are within the limits.
fn is_sized(blocks: u32, records: u32) -> bool
    ensures value { result ≡ is_sized blocks records }
    ensures sized { result ≡ true → IsSized blocks records }
{
    blocks >= 1 && blocks <= 65536 && records >= 32 && records <= 262_144
}
