// The gate: the block that says which of the two areas has the table.
ghost use Rattle.std.specs.Prelude.{◌≡◌, ◌<◌, ◌==◌, slice_index, IsTrue, IfOk, OnErr, if◌then◌else◌};
ghost use Rattle.ck_disk.specs.Disk.{Rose};
ghost use Rattle.ck_log.specs.Images.{names_second};
ghost use Rattle.ck_disk.specs.Runs.{OnlyReads};

use ck_disk::{Block, Disk, Failed};

/// The gate's block.
pub const GATE: u32 = 1;

/// The first byte of a gate that names the second area.
const SECOND: u8 = 0x47;

/// A gate that names this area.
pub fn gate_block(second: bool) -> Block
    ensures { (slice_index result 0 == 71) ≡ second }
{
    let mut gate = [0; 4096];
    if second {
        gate[0] = SECOND;
    }
    gate
}

/// Whether the gate of the device names the second area.
pub fn read_gate<D: Disk>(disk: &mut D) -> Result<bool, Failed>
    requires { 1 < (D.means disk.old).size }
    ensures second { IfOk result
        (λ second. IsTrue (D.means disk.old).tells
        → second ≡ names_second (D.means disk.old).shows) }
    ensures device { OnlyReads (D.means disk.old) (D.means disk.new) }
    ensures cause { OnErr result
        (Rose (D.means disk.old).read_faults (D.means disk.new).read_faults) }
{
    let mut gate = [0; 4096];
    disk.read(GATE, &mut gate)?;
    Ok(gate[0] == SECOND)
}
