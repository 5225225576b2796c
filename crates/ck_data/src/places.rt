ghost use Rattle.std.specs.Prelude.{◌≡◌, ◌⊎◌, ◌+◌, ◌≤◌, ◌<◌, ℕ, true, false, ◌&&◌, not, IsTrue, IfOk, IfErr, OnOk, replicate};
ghost use Rattle.std.specs.FinSet as set;
ghost use Rattle.std.specs.List.{AllByRecursion};
ghost use Rattle.ck_alloc.specs.Blocks.{IsFree, IsPartition, free_count};
ghost use Rattle.ck_model.specs.TableWorld.{world_on};
ghost use Rattle.ck_model.specs.World.{Mounts};
ghost use Rattle.ck_push.specs.Growth.{write_count};
ghost use Rattle.ck_tree.specs.Plan.{block_by};
ghost use Rattle.ck_data.specs.declared.fault.Fault.TheVariants.{ReadFault, WriteFault};
ghost use Rattle.ck_files.specs.Allocated.{is_taken, IsAllocated, KeepsBusy};
ghost use Rattle.ck_data.specs.Device.{store_on};
ghost use Rattle.ck_files.specs.Places.{places_of, AreDistinct, ArePlaced, AreHeld};
ghost use Rattle.ck_files.specs.Files.{IsOurs};
ghost use Rattle.ck_data.specs.Stored.{OnlyStores};
ghost use Rattle.ck_data.specs.Writes.{AgreeBut, IsWritingFault};

use crate::DataArea;
use crate::fault::Fault;
use crate::piece::piece_of;
use crate::range::block_of;
use crate::store::store_block;
use ck_alloc::Blocks;
use ck_disk::{Block, Disk};
use ck_model::{BLOCK, Call, Change, Key, Meta};
use ck_tree::held_at;

/// A block of this byte alone.
fn filled(byte: u8) -> Block
    ensures { result ≡ replicate 4096 byte }
{
    [byte; 4096]
}

/// Stores a block of a file as it is after the call, in the lowest free place.
fn store_changed<M: Meta, D: Disk>(
    meta: &M,
    blocks: &mut Blocks,
    disk: &mut D,
    area: DataArea,
    call: &Call,
    node: u32,
    index: u32,
) -> Result<u32, Fault>
    requires ours { IsOurs (M.table meta.now) }
    requires blocks_are { area.blocks ≡ (M.table meta.now).blocks }
    requires free { 0 < free_count blocks.old }
    requires partition { IsPartition blocks.old }
    requires total { blocks.old.total ≡ area.blocks }
    requires area { area.base + area.blocks ≤ (D.means disk.old).size }
    ensures free_block { IfOk result (IsFree blocks.old) }
    ensures taken { IfOk result (λ block. blocks.new ≡ record blocks.old { used = set.insert blocks.old.used block }) }
    ensures partition { IsPartition blocks.new }
    ensures stored { IfOk result (λ block. IsTrue (D.means disk.old).tells → (mounts : Mounts) →
        store_on (D.means disk.new).shows area.base block ≡ block_by (world_on (store_on (D.means disk.old).shows area.base) mounts (M.table meta.now)) call.now node index) }
    ensures others { IfOk result (λ block. IsTrue (D.means disk.old).tells → AgreeBut block (store_on (D.means disk.old).shows area.base) (store_on (D.means disk.new).shows area.base)) }
    ensures busy { KeepsBusy blocks.old blocks.new }
    ensures device { OnlyStores area.base blocks.old (D.means disk.old) (D.means disk.new) }
    ensures fault { IfErr result (IsWritingFault (D.means disk.old) (D.means disk.new)) }
    ensures err { IfErr result (λ fault. ((fault ≡ ReadFault) × (blocks.new ≡ blocks.old)) ⊎ (fault ≡ WriteFault)) }
{
    let old = block_of(held_at(meta, 0, &Key::Block(node, index)));
    match call {
        Call::Write(_, place, bytes) => {
            let bytes = bytes.items();
            let piece = piece_of(*place, bytes.len() as u64, index);
            let part = &bytes[piece.from as usize..(piece.from + piece.count) as usize];
            store_block(disk, area, blocks, old, piece.at, part)
        }
        Call::Fill(_, place, len, byte) => {
            let piece = piece_of(*place, u64::from(*len), index);
            let all = filled(*byte);
            store_block(
                disk,
                area,
                blocks,
                old,
                piece.at,
                &all[..piece.count as usize],
            )
        }
        Call::Trunc(_, size) => {
            let kept = *size % BLOCK;
            let zeros = filled(0);
            store_block(disk, area, blocks, old, kept, &zeros[kept as usize..])
        }
        _ => store_block(disk, area, blocks, old, 0, &[]),
    }
}

/// Gives back the data blocks that these changes were to write.
fn give_back_all(blocks: &mut Blocks, changes: &[Change])
    requires distinct { AreDistinct (places_of changes.now) }
    requires used { AllByRecursion (λ place. set.contains blocks.old.used place ≡ true) (places_of changes.now) }
    requires partition { IsPartition blocks.old }
    ensures used { (block : ℕ) → set.contains blocks.new.used block ≡ (set.contains blocks.old.used block && not (is_taken (places_of changes.now) block)) }
    ensures pending { blocks.new.pending ≡ blocks.old.pending }
    ensures total { blocks.new.total ≡ blocks.old.total }
    ensures partition { IsPartition blocks.new }
{
    for change in changes {
        let Change::Write(_, _, place) = *change else {
            continue;
        };
        blocks.give_back(place);
    }
}

/// Stores the data blocks that a call's changes write, each in the lowest free place, and names
/// them in the changes. Where an old block can't be read, the places that were taken are free again.
pub fn store_all<M: Meta, D: Disk>(
    meta: &M,
    blocks: &mut Blocks,
    disk: &mut D,
    area: DataArea,
    call: &Call,
    changes: &mut [Change],
) -> Result<(), Fault>
    requires ours { IsOurs (M.table meta.now) }
    requires allocated { IsAllocated (M.table meta.now) blocks.old }
    requires free { write_count changes.old ≤ free_count blocks.old }
    requires blocks_are { area.blocks ≡ (M.table meta.now).blocks }
    requires area { area.base + area.blocks ≤ (D.means disk.old).size }
    ensures placed { OnOk result (ArePlaced (M.table meta.now) blocks.new changes.old changes.new) }
    ensures held { OnOk result (IsTrue (D.means disk.old).tells → (mounts : Mounts) →
        AreHeld (block_by (world_on (store_on (D.means disk.old).shows area.base) mounts (M.table meta.now)) call.now) (store_on (D.means disk.new).shows area.base) changes.new) }
    ensures busy { KeepsBusy blocks.old blocks.new }
    ensures err { IfErr result (λ fault. ((fault ≡ ReadFault) × IsAllocated (M.table meta.now) blocks.new) ⊎ (fault ≡ WriteFault)) }
    ensures device { OnlyStores area.base blocks.old (D.means disk.old) (D.means disk.new) }
    ensures fault { IfErr result (IsWritingFault (D.means disk.old) (D.means disk.new)) }
{
    for at in 0..changes.len() {
        let Change::Write(node, index, _) = changes[at] else {
            continue;
        };
        match store_changed(meta, blocks, disk, area, call, node, index) {
            Ok(place) => changes[at] = Change::Write(node, index, place),
            Err(Fault::ReadFault) => {
                give_back_all(blocks, &changes[..at]);
                return Err(Fault::ReadFault);
            }
            Err(Fault::WriteFault) => return Err(Fault::WriteFault),
            Err(Fault::NoMemory) => return Err(Fault::NoMemory),
        }
    }
    Ok(())
}
