ghost use Rattle.std.specs.Prelude.{◌≡◌, ◌+◌, ◌≤◌, ◌++◌, ◌↔◌, false, true, IsTrue, length};
ghost use Rattle.ck_disk.specs.Disk.{Rose};
ghost use Rattle.ck_disk.specs.Runs.{OnlyReads};
ghost use Rattle.ck_model.specs.Chain.{is_live, is_live_data};
ghost use Rattle.ck_model.specs.Rules.{IsOrderly};
ghost use Rattle.ck_read.specs.declared.turns.ReadTurn.TheVariants.{More, Finished, Gone, NoData, ReadFault};
ghost use Rattle.ck_read.specs.Block.{map_on, store_on};
ghost use Rattle.ck_read.specs.Progress.{next_part, part_len, turns_had, turns_left, turns_of, IsOnWay, IsUnderWay, ReadFits};
ghost use Rattle.ck_read.specs.ReadTurn.{has_read, turn_at};

use crate::checkpoint::keeps_files;
use crate::fault::BlockFault;
use crate::progress::ReadProgress;
use ck_chain::is_live;
use ck_disk::Disk;
use ck_model::Meta;

/// What a turn of a read answers.
#[derive(Clone, Copy, Debug, PartialEq, Eq)]
pub enum ReadTurn {
    /// A block was read, and bytes are left.
    More,
    /// The range's end is reached.
    Finished,
    /// The checkpoint left the list.
    Gone,
    /// The checkpoint keeps no data.
    NoData,
    ReadFault,
    NoMemory,
}

/// Reads what stands of the range in one block. It looks first whether the checkpoint is gone or
/// keeps no data.
pub fn turn<M: Meta, D: Disk>(
    meta: &M,
    disk: &mut D,
    base: u32,
    progress: &mut ReadProgress,
) -> ReadTurn
    requires area { base + (M.table meta.now).blocks ≤ (D.means disk.old).size }
    requires orderly { IsOrderly (M.table meta.now) }
    requires under_way { IsUnderWay progress.old }
    ensures gone { (result ≡ Gone) ↔ (is_live (M.table meta.now) progress.old.ckpt ≡ false) }
    ensures no_data { (result ≡ NoData) ↔ ((is_live (M.table meta.now) progress.old.ckpt ≡ true)
        × (is_live_data (M.table meta.now) progress.old.ckpt ≡ false)) }
    ensures stands { has_read result ≡ true → is_live_data (M.table meta.now) progress.old.ckpt ≡ true }
    ensures fault { result ≡ ReadFault → Rose (D.means disk.old).read_faults (D.means disk.new).read_faults }
    ensures unchanged { has_read result ≡ false → progress.new ≡ progress.old }
    // It is finished where the range's end is reached, after what this turn took.
    ensures end { has_read result ≡ true → result ≡ turn_at progress.new }
    ensures others { progress.new ≡ record progress.old { bytes = progress.new.bytes } }
    ensures count { has_read result ≡ true → length progress.new.bytes ≡ length progress.old.bytes + part_len progress.old }
    ensures bytes { has_read result ≡ true → IsTrue (D.means disk.old).tells → progress.new.bytes ≡ progress.old.bytes
        ++ next_part (map_on (store_on (D.means disk.old).shows base) (M.table meta.now) progress.old.ckpt) progress.old }
    ensures under_way { IsUnderWay progress.new }
    ensures fits { IsTrue (D.means disk.old).tells →
        let cells = map_on (store_on (D.means disk.old).shows base) (M.table meta.now) progress.old.ckpt in
        ReadFits cells progress.old → ReadFits cells progress.new }
    ensures more { result ≡ More → turns_left progress.old ≡ 1 + turns_left progress.new }
    ensures last { result ≡ Finished → turns_left progress.old ≡ 1 }
    // Where bytes are left, it was one more of the range's turns; at the end all were had, and all bytes are there.
    ensures on_way { result ≡ More → IsOnWay progress.old.from progress.new }
    ensures had { result ≡ More → turns_had progress.new ≡ turns_had progress.old + 1 }
    ensures all_had { result ≡ Finished → turns_had progress.old + 1 ≡ turns_of progress.old.from (length progress.new.bytes) }
    ensures device { OnlyReads (D.means disk.old) (D.means disk.new) }
{
    if !is_live(meta, progress.ckpt) {
        return ReadTurn::Gone;
    }
    if !keeps_files(meta, progress.ckpt) {
        return ReadTurn::NoData;
    }
    match progress.read_block(meta, disk, base) {
        Ok(()) if progress.is_through() => ReadTurn::Finished,
        Ok(()) => ReadTurn::More,
        Err(BlockFault::ReadFault) => ReadTurn::ReadFault,
        Err(BlockFault::NoMemory) => ReadTurn::NoMemory,
    }
}
