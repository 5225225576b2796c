// What makes a new volume: its first table and a gate that names it, and then the header.
ghost use Rattle.std.specs.Prelude.{◌≡◌, ◌+◌, ◌-◌, ◌≤◌, ◌<◌, false, [], get_or, replicate, IsTrue, OnOk, OnErr};
ghost use Rattle.ck_disk.specs.Disk.{LeavesOnly, Reaches, Outside, Agrees, IsSynced, Rose};
ghost use Rattle.ck_log.specs.Layout.{IsSized, OutsideGateAndAreas, table_blocks, area_at, base_of, size_of};
ghost use Rattle.ck_log.specs.Images.{part, names_second, recovered_region, HasTable};
ghost use Rattle.ck_log.specs.Header.{Opens, header_of};
ghost use Rattle.ck_log.specs.FirstTable.{blank_block, first_block, first_table, new_layout, FormatLeaves};

use crate::gate::{GATE, gate_block};
use crate::header::{HEADER, header_block};
use crate::layout::{area_at, table_blocks};
use crate::writes::put_block;
use ck_disk::{Block, Disk, Failed};
use ck_num::{put_u32, put_u64};

/// The first of the table's blocks: the counters and the root directory's node.
fn first_block() -> Block
    ensures { result ≡ first_block }
{
    let mut block = [0; 4096];
    block[0] = 1;
    block[128] = 4;
    block[129] = 1;
    put_u64(&mut block, 8, 1);
    put_u32(&mut block, 16, 1);
    put_u32(&mut block, 20, 1);
    block
}

/// Writes so many blocks of zeros from that place on.
fn write_zeros<D: Disk>(disk: &mut D, at: u32, count: u32) -> Result<(), Failed>
    requires { at + count ≤ (D.means disk.old).size }
    ensures any_moment { LeavesOnly (D.means disk.old) (D.means disk.new)
        (Reaches (Outside at count) (D.means disk.old).may_leave) }
    ensures written { OnOk result
        (IsTrue (D.means disk.old).tells
        → part at count (D.means disk.new).shows ≡ replicate count blank_block) }
    ensures others { IsTrue (D.means disk.old).tells
        → Agrees (Outside at count) (D.means disk.old).shows (D.means disk.new).shows }
    ensures cause { OnErr result
        (Rose (D.means disk.old).write_faults (D.means disk.new).write_faults) }
{
    for k in 0..count {
        disk.write(at + k, &[0; 4096])?;
    }
    Ok(())
}

/// Writes the table of a new volume from that place on.
fn write_first_table<D: Disk>(disk: &mut D, at: u32, count: u32) -> Result<(), Failed>
    requires some { 1 ≤ count }
    requires within { at + count ≤ (D.means disk.old).size }
    ensures any_moment { LeavesOnly (D.means disk.old) (D.means disk.new)
        (Reaches (Outside at count) (D.means disk.old).may_leave) }
    ensures written { OnOk result
        (IsTrue (D.means disk.old).tells
        → part at count (D.means disk.new).shows ≡ first_table count) }
    ensures others { IsTrue (D.means disk.old).tells
        → Agrees (Outside at count) (D.means disk.old).shows (D.means disk.new).shows }
    ensures cause { OnErr result
        (Rose (D.means disk.old).write_faults (D.means disk.new).write_faults) }
{
    disk.write(at, &first_block())?;
    write_zeros(disk, at + 1, count - 1)?;
    Ok(())
}

/// Writes a gate that names the first area, and the table of a new volume there, and syncs.
fn put_first_table<D: Disk>(disk: &mut D, records: u32) -> Result<(), Failed>
    requires few { records ≤ 262144 }
    requires size { base_of records ≤ (D.means disk.old).size }
    ensures any_moment { LeavesOnly (D.means disk.old) (D.means disk.new)
        (Reaches (OutsideGateAndAreas records) (D.means disk.old).may_leave) }
    ensures gate { OnOk result
        (IsTrue (D.means disk.old).tells → names_second (D.means disk.new).shows ≡ false) }
    ensures table { OnOk result
        (IsTrue (D.means disk.old).tells
        → part (area_at records false) (table_blocks records) (D.means disk.new).shows
        ≡ first_table (table_blocks records)) }
    ensures others { IsTrue (D.means disk.old).tells
        → Agrees (OutsideGateAndAreas records) (D.means disk.old).shows
        (D.means disk.new).shows }
    ensures synced { OnOk result (IsSynced (D.means disk.new)) }
    ensures cause { OnErr result
        (Rose (D.means disk.old).write_faults (D.means disk.new).write_faults) }
{
    let first = area_at(records, false);
    let count = table_blocks(records);
    disk.write(GATE, &gate_block(false))?;
    write_first_table(disk, first, count)?;
    disk.sync()?;
    Ok(())
}

/// Makes a volume. Its header is written only once its table is safe.
pub fn make_volume<D: Disk>(disk: &mut D, blocks: u32, records: u32) -> Result<(), Failed>
    requires sized { IsSized blocks records }
    requires size { size_of blocks records ≤ (D.means disk.old).size }
    ensures any_moment { LeavesOnly (D.means disk.old) (D.means disk.new)
        (FormatLeaves (new_layout blocks records) (D.means disk.old)) }
    ensures volume { OnOk result
        (IsTrue (D.means disk.old).tells
        → recovered_region (D.means disk.new).shows ≡ Opens (new_layout blocks records)) }
    ensures header { OnOk result
        (IsTrue (D.means disk.old).tells
        → get_or (D.means disk.new).shows 0 [] ≡ header_of blocks records) }
    ensures table { OnOk result
        (IsTrue (D.means disk.old).tells
        → HasTable (new_layout blocks records) (first_table (table_blocks records))
        (D.means disk.new).shows) }
    ensures others { IsTrue (D.means disk.old).tells
        → Agrees (Outside 0 (base_of records)) (D.means disk.old).shows (D.means disk.new).shows }
    ensures synced { OnOk result (IsSynced (D.means disk.new)) }
    ensures cause { OnErr result
        (Rose (D.means disk.old).write_faults (D.means disk.new).write_faults) }
{
    put_first_table(disk, records)?;
    put_block(disk, HEADER, &header_block(blocks, records))?;
    Ok(())
}
