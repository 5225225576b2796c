ghost use Rattle.std.specs.Prelude.{◌≡◌, ◌≤◌, ◌<◌, ◌+◌, true, false};
ghost use Rattle.ck_model.specs.CheckpointCalls.{dropped};
ghost use Rattle.ck_model.specs.History.{is_fault};
ghost use Rattle.ck_model.specs.Placed.{NoneGone};
ghost use Rattle.ck_model.specs.Step.{done};
ghost use Rattle.ck_model.specs.TableWorld.{world_on};
ghost use Rattle.ck_model.specs.Values.{Store};
ghost use Rattle.ck_model.specs.World.{Mounts};
ghost use Rattle.ck_model.specs.declared.reply.Reply.TheVariants.{Done};
ghost use Rattle.ck_remove.specs.Gone.{left_of};
ghost use Rattle.ck_nodata.specs.declared.item.StripItem.{StripItem};
ghost use Rattle.ck_nodata.specs.StripItem.{unstripped_count, IsStrippedTo};
ghost use Rattle.ck_files.specs.Allocated.{KeepsBusy, IsAllocated};
ghost use Rattle.ck_files.specs.Drained.{IsDrained, IsStepped};
ghost use Rattle.ck_files.specs.Files.{IsOurs};
ghost use Rattle.ck_files.specs.Removal.{IsRemoved};
ghost use Rattle.ck_files.specs.Room.{answered_with};
ghost use Rattle.ck_files.specs.Worlds.{StandAlike};

use crate::changes::give_up;
use crate::strip::{go_back, strip_next};
use ck_alloc::Blocks;
use ck_model::{Meta, NameBytes, Reply};
use ck_nodata::StripItem;
use ck_remove::{step as remove_one, work};
use ck_table::{find, mark_gone};

/// Removes the checkpoint with this name. It is gone at once; its entries stay, for those that read
/// through it, until steps have moved them.
pub fn remove<M: Meta>(meta: &mut M, stripped: &mut StripItem, name: &NameBytes) -> Reply
    requires ours { IsOurs (M.table meta.old) }
    requires stripped { IsStrippedTo (M.table meta.old) stripped.old }
    ensures reply { (store : Store) (mounts : Mounts) →
        done (world_on store mounts (M.table meta.old)) (dropped (world_on store mounts (M.table meta.old)) name.now)
        ≡ answered_with result (world_on store mounts (M.table meta.new)) }
    ensures ordinary { is_fault result ≡ false }
    ensures removed { result ≡ Done → IsRemoved (M.table meta.old) (M.table meta.new) }
    ensures ours { IsOurs (M.table meta.new) }
    ensures entries { (M.table meta.new).entries ≡ (M.table meta.old).entries }
    ensures blocks { (M.table meta.new).blocks ≡ (M.table meta.old).blocks }
    ensures records { (M.table meta.new).records ≡ (M.table meta.old).records }
    ensures stripped { IsStrippedTo (M.table meta.new) stripped.new }
{
    match find(meta, name) {
        Some(id) => {
            mark_gone(meta, id);
            go_back(stripped, id);
            Reply::Done
        }
        None => Reply::NoCkpt,
    }
}

/// Takes one step of what is left to remove, which nobody sees: an entry of a checkpoint that is
/// gone moves on or goes, or the checkpoint itself where it has none. `false` where none is gone.
fn remove_next<M: Meta>(meta: &mut M, blocks: &mut Blocks) -> bool
    requires ours { IsOurs (M.table meta.old) }
    requires allocated { IsAllocated (M.table meta.old) blocks.old }
    ensures alike { StandAlike (M.table meta.old) (M.table meta.new) }
    ensures ours { IsOurs (M.table meta.new) }
    ensures allocated { IsAllocated (M.table meta.new) blocks.new }
    ensures busy { KeepsBusy blocks.old blocks.new }
    ensures left { result ≡ true → left_of (M.table meta.new) + 1 ≡ left_of (M.table meta.old) }
    ensures none { result ≡ false → NoneGone (M.table meta.new) }
    ensures untouched { result ≡ false → M.table meta.new ≡ M.table meta.old }
    ensures no_more { unstripped_count (M.table meta.new) ≤ unstripped_count (M.table meta.old) }
    ensures stripped { (last : StripItem) → IsStrippedTo (M.table meta.old) last → IsStrippedTo (M.table meta.new) last }
{
    let Some(item) = work(meta) else {
        return false;
    };
    let freed = remove_one(meta, item);
    give_up(blocks, freed);
    true
}

/// Takes one step of what is left to do in the background, which nobody sees: of a removal, or, where no
/// checkpoint is gone, a strip. `false` where nothing is left.
pub fn step<M: Meta>(meta: &mut M, blocks: &mut Blocks, stripped: &mut StripItem) -> bool
    requires ours { IsOurs (M.table meta.old) }
    requires allocated { IsAllocated (M.table meta.old) blocks.old }
    requires stripped { IsStrippedTo (M.table meta.old) stripped.old }
    ensures alike { StandAlike (M.table meta.old) (M.table meta.new) }
    ensures ours { IsOurs (M.table meta.new) }
    ensures allocated { IsAllocated (M.table meta.new) blocks.new }
    ensures busy { KeepsBusy blocks.old blocks.new }
    ensures stripped { IsStrippedTo (M.table meta.new) stripped.new }
    ensures stepped { result ≡ true → IsStepped (M.table meta.old) (M.table meta.new) }
    ensures fewer { result ≡ true → left_of (M.table meta.new) + unstripped_count (M.table meta.new)
        < left_of (M.table meta.old) + unstripped_count (M.table meta.old) }
    ensures drained { result ≡ false → IsDrained (M.table meta.new) }
{
    remove_next(meta, blocks) || strip_next(meta, blocks, stripped)
}

/// Takes all steps that are left.
pub fn drain<M: Meta>(meta: &mut M, blocks: &mut Blocks, stripped: &mut StripItem)
    requires ours { IsOurs (M.table meta.old) }
    requires allocated { IsAllocated (M.table meta.old) blocks.old }
    requires stripped { IsStrippedTo (M.table meta.old) stripped.old }
    ensures alike { StandAlike (M.table meta.old) (M.table meta.new) }
    ensures drained { IsDrained (M.table meta.new) }
    ensures ours { IsOurs (M.table meta.new) }
    ensures allocated { IsAllocated (M.table meta.new) blocks.new }
    ensures busy { KeepsBusy blocks.old blocks.new }
    ensures stripped { IsStrippedTo (M.table meta.new) stripped.new }
{
    while step(meta, blocks, stripped) {}
}
