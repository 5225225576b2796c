// Runs of writes, and what a crash may leave of them.
ghost use Rattle.std.specs.Prelude.{◌≡◌, ◌+◌, ◌≤◌, length, set, replicate, IsTrue, OnOk, OnErr};
ghost use Rattle.ck_disk.specs.Disk.{LeavesOnly, Reaches, Outside, Agrees, IsSynced, Rose};
ghost use Rattle.ck_log.specs.Images.{part};

use ck_disk::{Block, Disk, Failed};

/// Writes these blocks from that place on.
fn write_run<D: Disk>(disk: &mut D, at: u32, blocks: &[Block]) -> Result<(), Failed>
    requires { at + length blocks.now ≤ (D.means disk.old).size }
    ensures any_moment { LeavesOnly (D.means disk.old) (D.means disk.new)
        (Reaches (Outside at (length blocks.now)) (D.means disk.old).may_leave) }
    ensures written { OnOk result
        (IsTrue (D.means disk.old).tells
        → part at (length blocks.now) (D.means disk.new).shows ≡ blocks.now) }
    ensures others { IsTrue (D.means disk.old).tells
        → Agrees (Outside at (length blocks.now)) (D.means disk.old).shows
        (D.means disk.new).shows }
    ensures cause { OnErr result
        (Rose (D.means disk.old).write_faults (D.means disk.new).write_faults) }
{
    let mut place = at;
    for block in blocks {
        disk.write(place, block)?;
        place += 1;
    }
    Ok(())
}

/// Writes these blocks from that place on, and syncs.
pub fn put_run<D: Disk>(disk: &mut D, at: u32, blocks: &[Block]) -> Result<(), Failed>
    requires { at + length blocks.now ≤ (D.means disk.old).size }
    ensures any_moment { LeavesOnly (D.means disk.old) (D.means disk.new)
        (Reaches (Outside at (length blocks.now)) (D.means disk.old).may_leave) }
    ensures written { OnOk result
        (IsTrue (D.means disk.old).tells
        → part at (length blocks.now) (D.means disk.new).shows ≡ blocks.now) }
    ensures others { IsTrue (D.means disk.old).tells
        → Agrees (Outside at (length blocks.now)) (D.means disk.old).shows
        (D.means disk.new).shows }
    ensures synced { OnOk result (IsSynced (D.means disk.new)) }
    ensures cause { OnErr result
        (Rose (D.means disk.old).write_faults (D.means disk.new).write_faults) }
{
    write_run(disk, at, blocks)?;
    disk.sync()?;
    Ok(())
}

/// Writes this block, and syncs.
pub fn put_block<D: Disk>(disk: &mut D, at: u32, block: &Block) -> Result<(), Failed>
    requires { at + 1 ≤ (D.means disk.old).size }
    ensures any_moment { LeavesOnly (D.means disk.old) (D.means disk.new)
        (Reaches (Outside at 1) (D.means disk.old).may_leave) }
    ensures written { OnOk result
        (IsTrue (D.means disk.old).tells
        → (D.means disk.new).shows ≡ set (D.means disk.old).shows at block.now) }
    ensures others { IsTrue (D.means disk.old).tells
        → Agrees (Outside at 1) (D.means disk.old).shows (D.means disk.new).shows }
    ensures synced { OnOk result (IsSynced (D.means disk.new)) }
    ensures cause { OnErr result
        (Rose (D.means disk.old).write_faults (D.means disk.new).write_faults) }
{
    disk.write(at, block)?;
    disk.sync()?;
    Ok(())
}
