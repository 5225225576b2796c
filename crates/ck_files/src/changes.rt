ghost use Rattle.std.specs.Prelude.{◌≡◌, ◌≤◌, ◌<◌, ◌-◌, ◌++◌, ℕ, List, IfSome, IsSome, None, Some, false, true};
ghost use Rattle.std.specs.FinSet as set;
ghost use Rattle.ck_model.specs.Table.{spare_count};
ghost use Rattle.ck_alloc.specs.Blocks.{IsPartition};
ghost use Rattle.ck_chain.specs.Changes.{deletions_first, key_of, value_after};
ghost use Rattle.ck_push.specs.Changed.{changed};
ghost use Rattle.ck_push.specs.Growth.{gains, growth, losses};
ghost use Rattle.ck_files.specs.Allocated.{AreUnnamed, is_named, IsAllocated, IsAllocatedBut, KeepsBusy, blocks_held};
ghost use Rattle.ck_files.specs.Files.{AreFiles, IsOurs};
ghost use Rattle.ck_files.specs.Changes.{raised, IsRaised, written_by};
ghost use Rattle.ck_push.specs.Changes.{MayChangeAll, MayChange, changed_all};

use ck_alloc::Blocks;
use ck_model::{Change, Counters, Freed, Limits, Meta};
use ck_push::change;

/// Gives up the data block that a change freed: it is pending until a commit.
pub(crate) fn give_up(blocks: &mut Blocks, freed: Freed)
    requires { IfSome freed.block (λ block. set.contains blocks.old.used block ≡ true) }
    ensures given { IfSome freed.block (λ block. blocks.new ≡ record blocks.old { used = set.remove blocks.old.used block; pending = set.insert blocks.old.pending block }) }
    ensures partition { IsSome freed.block → IsPartition blocks.new }
    ensures same { freed.block ≡ None → blocks.new ≡ blocks.old }
{
    if let Some(block) = freed.block {
        blocks.release(block);
    }
}

/// Changes the primary as a call with this stamp. The data block that the change writes was taken
/// for it; one that nothing names afterwards is given up.
pub fn apply<M: Meta>(meta: &mut M, blocks: &mut Blocks, item: &Change, stamp: u64)
    requires ours { IsOurs (M.table meta.old) }
    requires room { growth (M.table meta.old) item.now ≤ spare_count (M.table meta.old) }
    requires stamp { stamp < (M.table meta.old).counters.stamp }
    requires may { MayChange (M.table meta.old) item.now stamp }
    requires used { (block : ℕ) → is_named (M.table meta.old) block ≡ true → set.contains blocks.old.used block ≡ true }
    ensures changed { M.table meta.new
        ≡ changed (M.table meta.old) (key_of item.now) (value_after item.now stamp) }
    ensures ours { IsOurs (M.table meta.new) }
    // The rest are blocks that other changes of the same call write.
    ensures allocated { (rest : List ℕ) → AreUnnamed rest (M.table meta.old)
        → IsAllocatedBut (blocks_held (value_after item.now stamp) ++ rest) (M.table meta.old) blocks.old
        → IsAllocatedBut rest (M.table meta.new) blocks.new }
    ensures busy { KeepsBusy blocks.old blocks.new }
{
    let freed = change(meta, item, stamp);
    give_up(blocks, freed);
}

/// Makes a call's changes, the deletions first, for which there is room. The data blocks that they
/// write were taken for them.
pub fn apply_all<M: Meta>(meta: &mut M, blocks: &mut Blocks, items: &[Change], stamp: u64)
    requires ours { IsOurs (M.table meta.old) }
    requires first { deletions_first items.now ≡ true }
    requires room { gains (M.table meta.old) items.now - losses (M.table meta.old) items.now ≤ spare_count (M.table meta.old) }
    requires stamp { stamp < (M.table meta.old).counters.stamp }
    requires may { MayChangeAll (M.table meta.old) items.now stamp }
    requires allocated { IsAllocatedBut (written_by items.now stamp) (M.table meta.old) blocks.old }
    ensures changed { M.table meta.new ≡ changed_all (M.table meta.old) items.now stamp }
    ensures ours { IsOurs (M.table meta.new) }
    ensures allocated { IsAllocated (M.table meta.new) blocks.new }
    ensures busy { KeepsBusy blocks.old blocks.new }
{
    for item in items {
        apply(meta, blocks, item, stamp);
    }
}

/// Makes a call's changes, the deletions first, for which there is room, and sets the numbers that
/// are given next. The data blocks that they write were taken for them.
pub fn change_all<M: Meta>(
    meta: &mut M,
    blocks: &mut Blocks,
    limits: Limits,
    next: Counters,
    items: &[Change],
    stamp: u64,
)
    requires ours { IsOurs (M.table meta.old) }
    requires limit { (M.table meta.old).blocks ≡ limits.blocks }
    requires records { (M.table meta.old).records ≡ limits.records }
    requires raised { IsRaised (M.table meta.old) next (M.table meta.old).blocks }
    requires first { deletions_first items.now ≡ true }
    requires room { gains (M.table meta.old) items.now - losses (M.table meta.old) items.now ≤ spare_count (M.table meta.old) }
    requires stamp { stamp < next.stamp }
    requires may { MayChangeAll (raised (M.table meta.old) next (M.table meta.old).blocks) items.now stamp }
    requires allocated { IsAllocatedBut (written_by items.now stamp) (M.table meta.old) blocks.old }
    ensures changed { M.table meta.new ≡ changed_all (raised (M.table meta.old) next (M.table meta.old).blocks) items.now stamp }
    ensures files { AreFiles limits (M.table meta.new) blocks.new }
    ensures busy { KeepsBusy blocks.old blocks.new }
{
    meta.set_counters(next);
    apply_all(meta, blocks, items, stamp);
}
