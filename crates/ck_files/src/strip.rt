ghost use Rattle.std.specs.Prelude.{◌≡◌, ◌≤◌, ◌<◌, ◌+◌, true, false};
ghost use Rattle.ck_nodata.specs.StripItem.{unstripped_count, IsStrippedTo};
ghost use Rattle.ck_files.specs.Allocated.{KeepsBusy, IsAllocated};
ghost use Rattle.ck_files.specs.Drained.{IsOver};
ghost use Rattle.ck_files.specs.Files.{IsOurs};
ghost use Rattle.ck_files.specs.Worlds.{StandAlike};

use crate::changes::give_up;
use ck_alloc::Blocks;
use ck_model::{Key, Meta};
use ck_nodata::{StripItem, strip, strip_in, strip_work_behind};

/// The id that no checkpoint has.
const LAST_ID: u32 = 4_294_967_295;

/// Up to where nothing is left to strip of a table that nothing is known of: before its first checkpoint.
pub fn before_all() -> StripItem
    ensures { result.id ≡ 0 }
{
    StripItem {
        id: 0,
        key: Key::Node(0),
    }
}

/// Something may be left to strip again from behind this checkpoint on.
pub(crate) fn go_back(stripped: &mut StripItem, id: u32)
    ensures back { id < stripped.old.id → stripped.new ≡ record stripped.old { id = id } }
    ensures same { stripped.old.id ≤ id → stripped.new ≡ stripped.old }
{
    if id < stripped.id {
        stripped.id = id;
    }
}

/// Strips the next data block that is left to strip, which nobody sees. `false` where none is left.
pub(crate) fn strip_next<M: Meta>(
    meta: &mut M,
    blocks: &mut Blocks,
    stripped: &mut StripItem,
) -> bool
    requires ours { IsOurs (M.table meta.old) }
    requires allocated { IsAllocated (M.table meta.old) blocks.old }
    requires stripped { IsStrippedTo (M.table meta.old) stripped.old }
    ensures alike { StandAlike (M.table meta.old) (M.table meta.new) }
    ensures ours { IsOurs (M.table meta.new) }
    ensures allocated { IsAllocated (M.table meta.new) blocks.new }
    ensures busy { KeepsBusy blocks.old blocks.new }
    ensures stripped { IsStrippedTo (M.table meta.new) stripped.new }
    ensures filesets { (M.table meta.new).filesets ≡ (M.table meta.old).filesets }
    ensures left { result ≡ true → unstripped_count (M.table meta.new) + 1 ≡ unstripped_count (M.table meta.old) }
    ensures untouched { result ≡ false → M.table meta.new ≡ M.table meta.old }
    ensures none { result ≡ false → unstripped_count (M.table meta.new) ≡ 0 }
{
    let Some(item) = strip_work_behind(meta, *stripped) else {
        stripped.id = LAST_ID;
        return false;
    };
    *stripped = item;
    let freed = strip(meta, *stripped);
    give_up(blocks, freed);
    true
}

/// Whether a data block of this checkpoint is left to strip.
fn is_left<M: Meta>(meta: &M, stripped: StripItem, id: u32) -> bool
    requires { IsStrippedTo (M.table meta.now) stripped }
    ensures left { result ≡ true → 0 < unstripped_count (M.table meta.now) }
    ensures over { result ≡ false → IsOver (M.table meta.now) id }
{
    if id < stripped.id {
        return false;
    }
    let after = if id == stripped.id {
        Some(stripped.key)
    } else {
        None
    };
    strip_in(meta, id, after).is_some()
}

/// Strips one data block, where one of this checkpoint is left to strip, and tells whether another one of
/// it is left. The oldest checkpoint's come first.
pub fn strip_of<M: Meta>(
    meta: &mut M,
    blocks: &mut Blocks,
    stripped: &mut StripItem,
    id: u32,
) -> bool
    requires ours { IsOurs (M.table meta.old) }
    requires allocated { IsAllocated (M.table meta.old) blocks.old }
    requires stripped { IsStrippedTo (M.table meta.old) stripped.old }
    ensures alike { StandAlike (M.table meta.old) (M.table meta.new) }
    ensures ours { IsOurs (M.table meta.new) }
    ensures allocated { IsAllocated (M.table meta.new) blocks.new }
    ensures busy { KeepsBusy blocks.old blocks.new }
    ensures stripped { IsStrippedTo (M.table meta.new) stripped.new }
    ensures left { result ≡ true → unstripped_count (M.table meta.new) + 1 ≡ unstripped_count (M.table meta.old) }
    ensures over { result ≡ false → IsOver (M.table meta.new) id }
{
    is_left(meta, *stripped, id)
        && strip_next(meta, blocks, stripped)
        && is_left(meta, *stripped, id)
}
