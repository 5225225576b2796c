ghost use Rattle.std.specs.Prelude.{◌≡◌, ◌+◌, ◌≤◌, ◌<◌, ◌⊎◌, ℕ, List, None, IsTrue, IfOk, IfErr, length, nat_eq, if◌then◌else◌};
ghost use Rattle.ck_data.specs.declared.fault.Fault.TheVariants.{ReadFault, WriteFault};
ghost use Rattle.std.specs.Option.{ForSome};
ghost use Rattle.std.specs.FinSet as set;
ghost use Rattle.ck_alloc.specs.Blocks.{IsFree, IsPartition, free_count};
ghost use Rattle.ck_files.specs.Allocated.{KeepsBusy};
ghost use Rattle.ck_data.specs.Device.{store_on};
ghost use Rattle.ck_data.specs.Reads.{bytes_of, IsFilled};
ghost use Rattle.ck_data.specs.Writes.{patched, AgreeBut, IsWritingFault};
ghost use Rattle.ck_data.specs.Stored.{OnlyStores};

use crate::DataArea;
use crate::fault::Fault;
use crate::range::load;
use ck_alloc::Blocks;
use ck_disk::{Block, Disk};

/// Puts bytes over a part of a block.
fn patch(block: &mut Block, at: usize, bytes: &[u8])
    requires { at + length bytes.now ≤ 4096 }
    ensures { (old : List ℕ) → IsFilled old block.old → block.new ≡ patched old at bytes.now }
{
    block[at..at + bytes.len()].copy_from_slice(bytes);
}

/// Stores a block in the lowest free place.
fn put_block<D: Disk>(
    disk: &mut D,
    area: DataArea,
    blocks: &mut Blocks,
    content: &Block,
) -> Result<u32, Fault>
    requires free { 0 < free_count blocks.old }
    requires partition { IsPartition blocks.old }
    requires total { blocks.old.total ≡ area.blocks }
    requires area { area.base + area.blocks ≤ (D.means disk.old).size }
    ensures free_block { IfOk result (IsFree blocks.old) }
    ensures taken { IfOk result (λ block. blocks.new ≡ record blocks.old { used = set.insert blocks.old.used block }) }
    ensures partition { IsPartition blocks.new }
    ensures stored { IfOk result (λ block. IsTrue (D.means disk.old).tells → store_on (D.means disk.new).shows area.base block ≡ content.now) }
    ensures others { IfOk result (λ block. IsTrue (D.means disk.old).tells → AgreeBut block (store_on (D.means disk.old).shows area.base) (store_on (D.means disk.new).shows area.base)) }
    ensures busy { KeepsBusy blocks.old blocks.new }
    ensures device { OnlyStores area.base blocks.old (D.means disk.old) (D.means disk.new) }
    ensures fault { IfErr result (IsWritingFault (D.means disk.old) (D.means disk.new)) }
    ensures err { IfErr result (λ fault. fault ≡ WriteFault) }
{
    let block = blocks.take().unwrap();
    match disk.write(area.base + block, content) {
        Ok(()) => Ok(block),
        Err(_) => Err(Fault::WriteFault),
    }
}

/// The old block, of which something stays below these bytes: where they are a whole block nothing
/// does.
fn kept_of(old: Option<u32>, bytes: &[u8]) -> Option<u32>
    ensures { result ≡ (if nat_eq (length bytes.now) 4096 then None else old) }
{
    if bytes.len() == 4096 { None } else { old }
}

/// Stores a new data block: what the old one holds, or zeros, with these bytes put over a part of
/// it. Where the old block can't be read nothing is written and no block is taken.
pub fn store_block<D: Disk>(
    disk: &mut D,
    area: DataArea,
    blocks: &mut Blocks,
    old: Option<u32>,
    at: u64,
    bytes: &[u8],
) -> Result<u32, Fault>
    requires within { at + length bytes.now ≤ 4096 }
    requires old { ForSome old (λ block. block < area.blocks) }
    requires free { 0 < free_count blocks.old }
    requires partition { IsPartition blocks.old }
    requires total { blocks.old.total ≡ area.blocks }
    requires area { area.base + area.blocks ≤ (D.means disk.old).size }
    ensures free_block { IfOk result (IsFree blocks.old) }
    ensures taken { IfOk result (λ block. blocks.new ≡ record blocks.old { used = set.insert blocks.old.used block }) }
    ensures partition { IsPartition blocks.new }
    ensures stored { IfOk result (λ block. IsTrue (D.means disk.old).tells → store_on (D.means disk.new).shows area.base block ≡ patched (bytes_of (store_on (D.means disk.old).shows area.base) old) at bytes.now) }
    ensures others { IfOk result (λ block. IsTrue (D.means disk.old).tells → AgreeBut block (store_on (D.means disk.old).shows area.base) (store_on (D.means disk.new).shows area.base)) }
    ensures busy { KeepsBusy blocks.old blocks.new }
    ensures device { OnlyStores area.base blocks.old (D.means disk.old) (D.means disk.new) }
    ensures fault { IfErr result (IsWritingFault (D.means disk.old) (D.means disk.new)) }
    ensures err { IfErr result (λ fault. ((fault ≡ ReadFault) × (blocks.new ≡ blocks.old)) ⊎ (fault ≡ WriteFault)) }
{
    let mut content = [0; 4096];
    load(disk, area, kept_of(old, bytes), &mut content)?;
    patch(&mut content, at as usize, bytes);
    put_block(disk, area, blocks, &content)
}
